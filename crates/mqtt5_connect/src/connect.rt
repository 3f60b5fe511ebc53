//! The first packet of a client.

ghost use Rattle.std.specs.Prelude.{◌≡◌, ◌+◌, ◌≤◌, true, [], ◌∷◌, map, take, drop, length, min};
ghost use Rattle.mqtt5_base.specs.Answers.{Gives, ReadsRow};
ghost use Rattle.mqtt5_base.specs.Reading.{values_in};
ghost use Rattle.mqtt5_base.specs.Layout.{items_bytes, items_fit, written_bytes, written_fits, parts_fit, body_bytes, group_of, content_of_packet, layout, writing};
ghost use Rattle.mqtt5_base.specs.Puts.{Puts, Writes};
ghost use Rattle.mqtt5_connect.specs.Rows.{connect_table, connect_parts, connect_row};
ghost use Rattle.mqtt5_connect.specs.Reading.{fields_at, groups_at, after_flags, name_at};
ghost use Rattle.mqtt5_connect.specs.Connects.{connect_found, connect_values, connect_flags, connect_head, will_group, login_group, connect_packet, no_connect_properties};

use crate::connect_part::{fits, flags_of, len_under, put_under};
use crate::login::Login;
use crate::will::LastWill;
use bytes::{Bytes, BytesMut};
use mqtt5_base::{
    Error, FieldValue, FixedHeader, Property, PropertyBlock, PropertySet, Sequence, Tagged, Text,
    block_fits, block_len, frame_size, put_block, read_block, read_text, read_u8, read_u16,
    start_frame,
};
use std::alloc::{AllocError, Global};

/// The properties of a Connect (MQTT 5.0 section 3.1.2.11). No number is judged.
#[derive(Debug, PartialEq, Eq, Drop)]
pub struct ConnectProperties {
    /// After how many seconds the server forgets the session of a lost connection.
    pub session_expiry_interval: Option<u32>,
    /// How many publishes of QoS 1 and 2 the server may send ahead of their acks.
    pub receive_maximum: Option<u16>,
    /// The longest packet that the server may send, in bytes.
    pub max_packet_size: Option<u32>,
    /// The greatest topic alias that the server may use.
    pub topic_alias_max: Option<u16>,
    /// Whether the server may answer with response information: 0 or 1.
    pub request_response_info: Option<u8>,
    /// Whether the server may add reasons and user properties to any packet: 0 or 1.
    pub request_problem_info: Option<u8>,
    /// Names and values, in order; a name may stand often.
    pub user_properties: Sequence<(Text, Text)>,
    /// The name of the method of authentication.
    pub authentication_method: Option<Text>,
    /// Data of that method.
    pub authentication_data: Option<Bytes>,
}

impl Clone for ConnectProperties {
    ghost is_clone = { λ s copy. copy ≡ s };

    fn clone(&self) -> Result<ConnectProperties, AllocError> {
        Ok(ConnectProperties {
            session_expiry_interval: self.session_expiry_interval,
            receive_maximum: self.receive_maximum,
            max_packet_size: self.max_packet_size,
            topic_alias_max: self.topic_alias_max,
            request_response_info: self.request_response_info,
            request_problem_info: self.request_problem_info,
            user_properties: self.user_properties.clone()?,
            authentication_method: self.authentication_method.clone()?,
            authentication_data: self.authentication_data.clone()?,
        })
    }
}

impl ConnectProperties {
    /// The set without values. Takes no memory.
    pub fn new(alloc: Global) -> ConnectProperties
        ensures { result ≡ no_connect_properties }
    {
        ConnectProperties {
            session_expiry_interval: None,
            receive_maximum: None,
            max_packet_size: None,
            topic_alias_max: None,
            request_response_info: None,
            request_problem_info: None,
            user_properties: Sequence::new(alloc),
            authentication_method: None,
            authentication_data: None,
        }
    }

    /// Appends the first six, which are numbers.
    fn put_numbers(&self, out: &mut BytesMut)
        requires fits { items_fit connect_table (connect_found self.now) ≡ true }
        requires room { length (items_bytes (take 6 connect_table)
            (take 6 (connect_found self.now))) ≤ out.old.spare }
        ensures { Puts out.old out.new
            (items_bytes (take 6 connect_table) (take 6 (connect_found self.now))) }
    {
        self.session_expiry_interval.put_values(17, out);
        self.receive_maximum.put_values(33, out);
        self.max_packet_size.put_values(39, out);
        self.topic_alias_max.put_values(34, out);
        self.request_response_info.put_values(25, out);
        self.request_problem_info.put_values(23, out);
    }
}

impl PropertySet for ConnectProperties {
    ghost table = { connect_table };

    ghost found = { connect_found };

    fn empty(alloc: Global) -> ConnectProperties {
        ConnectProperties::new(alloc)
    }

    fn may_have(id: u8) -> bool {
        matches!(id, 17 | 33 | 39 | 34 | 25 | 23 | 38 | 21 | 22)
    }

    fn add(&mut self, property: Property) -> Result<(), AllocError> {
        match property {
            Property::SessionExpiryInterval(n) => self.session_expiry_interval = Some(n),
            Property::ReceiveMaximum(n) => self.receive_maximum = Some(n),
            Property::MaximumPacketSize(n) => self.max_packet_size = Some(n),
            Property::TopicAliasMaximum(n) => self.topic_alias_max = Some(n),
            Property::RequestResponseInformation(n) => self.request_response_info = Some(n),
            Property::RequestProblemInformation(n) => self.request_problem_info = Some(n),
            Property::UserProperty(key, value) => self.user_properties.push((key, value))?,
            Property::AuthenticationMethod(text) => self.authentication_method = Some(text),
            Property::AuthenticationData(content) => self.authentication_data = Some(content),
            other => drop(other),
        }
        Ok(())
    }

    fn set_fits(&self) -> bool {
        self.session_expiry_interval.values_fit()
            && self.receive_maximum.values_fit()
            && self.max_packet_size.values_fit()
            && self.topic_alias_max.values_fit()
            && self.request_response_info.values_fit()
            && self.request_problem_info.values_fit()
            && self.user_properties.values_fit()
            && self.authentication_method.values_fit()
            && self.authentication_data.values_fit()
    }

    fn set_len(&self) -> usize {
        self.session_expiry_interval
            .values_len(17)
            .saturating_add(self.receive_maximum.values_len(33))
            .saturating_add(self.max_packet_size.values_len(39))
            .saturating_add(self.topic_alias_max.values_len(34))
            .saturating_add(self.request_response_info.values_len(25))
            .saturating_add(self.request_problem_info.values_len(23))
            .saturating_add(self.user_properties.values_len(38))
            .saturating_add(self.authentication_method.values_len(21))
            .saturating_add(self.authentication_data.values_len(22))
    }

    fn put_set(&self, out: &mut BytesMut) {
        self.put_numbers(out);
        self.user_properties.put_values(38, out);
        self.authentication_method.put_values(21, out);
        self.authentication_data.put_values(22, out);
    }

    fn set_known(&self) {
        self.session_expiry_interval.values_known();
        self.receive_maximum.values_known();
        self.max_packet_size.values_known();
        self.topic_alias_max.values_known();
        self.request_response_info.values_known();
        self.request_problem_info.values_known();
        self.user_properties.values_known();
        self.authentication_method.values_known();
        self.authentication_data.values_known();
    }
}

impl PropertyBlock for ConnectProperties {}

/// A Connect (MQTT 5.0 section 3.1).
#[derive(Debug, Clone, PartialEq, Eq, Drop)]
pub struct Connect {
    /// The longest time without a packet from the client, in seconds; 0 is none.
    pub keep_alive: u16,
    /// The client identifier, which may be empty, up to 65,535 bytes to be written.
    pub client_id: Text,
    /// Whether the server forgets the client's last session.
    pub clean_start: bool,
    /// An empty set is read again as None.
    pub properties: Option<ConnectProperties>,
}

/// The fields that follow the connect flags.
#[tactic(auto, using(mqtt5_base::proofs::Bits::bit_of_mod))]
fn read_fields(alloc: Global, flags: u8, stream: &mut Bytes) -> Result<Connect, Error>
    ensures { Gives (λ c. (connect_values c, stream.new)) result (fields_at flags stream.old) }
{
    let keep_alive = read_u16(stream)?;
    let properties = read_block(alloc, stream)?;
    let client_id = read_text(alloc, stream)?;
    Ok(Connect {
        keep_alive,
        client_id,
        clean_start: flags / 2 % 2 == 1,
        properties,
    })
}

/// The will and the login.
fn read_parts(
    alloc: Global,
    flags: u8,
    stream: &mut Bytes,
) -> Result<(Option<LastWill>, Option<Login>), Error>
    ensures { Gives (λ p. (map group_of (will_group p.0 ∷ login_group p.1 ∷ []), stream.new)) result
        (groups_at flags stream.old) }
{
    let will = LastWill::read_part(alloc, flags, stream)?;
    let login = Login::read_part(alloc, flags, stream)?;
    Ok((will, login))
}

/// Whether the will and the login can be written.
fn parts_fit(will: &Option<LastWill>, login: &Option<Login>) -> bool
    ensures { result ≡ parts_fit connect_parts (will_group will.now ∷ login_group login.now ∷ []) }
{
    fits(will) && fits(login)
}

/// Whether the text at the front is the protocol's name. A text of its own is made of another one alone.
#[tactic(auto, using(crate::proofs::Starts::name_there))]
fn takes_name(alloc: Global, stream: &mut Bytes) -> Result<bool, Error>
    ensures { Gives (λ named. (named, stream.new)) result (name_at stream.old) }
{
    if let [0, 4, b'M', b'Q', b'T', b'T', ..] = stream.as_slice() {
        stream.advance(6);
        return Ok(true);
    }
    let name = read_text(alloc, stream)?;
    Ok(name.as_bytes() == b"MQTT".as_slice())
}

impl Connect {
    /// What follows the connect flags.
    fn read_after_flags(
        alloc: Global,
        flags: u8,
        mut stream: Bytes,
    ) -> Result<(Connect, Option<LastWill>, Option<Login>), Error>
        ensures { Gives (λ p. content_of_packet (connect_packet p.0 p.1 p.2)) result
            (after_flags flags stream) }
    {
        let connect = read_fields(alloc, flags, &mut stream)?;
        let (will, login) = read_parts(alloc, flags, &mut stream)?;
        Ok((connect, will, login))
    }

    /// What the row gives of a frame's bytes.
    fn read_values(
        alloc: Global,
        header: FixedHeader,
        bytes: Bytes,
    ) -> Result<(Connect, Option<LastWill>, Option<Login>), Error>
        requires { length bytes ≡ header.fixed_header_len + header.remaining_len }
        ensures { Gives (λ p. content_of_packet (connect_packet p.0 p.1 p.2)) result
            (values_in connect_row header.byte1 header.remaining_len
            (drop header.fixed_header_len bytes)) }
    {
        let mut stream = bytes;
        stream.advance(header.fixed_header_len);
        let named = takes_name(alloc, &mut stream)?;
        let level = read_u8(&mut stream)?;
        if !named {
            return Err(Error::InvalidProtocol);
        }
        if level != 5 {
            return Err(Error::InvalidProtocolLevel(level));
        }
        let flags = read_u8(&mut stream)?;
        Connect::read_after_flags(alloc, flags, stream)
    }

    /// The Connect of a frame's bytes, of which the header is, with its will and its login. E2 of a name
    /// that isn't `MQTT`, E3 with a level that isn't 5, E4 of flags of a will without one, E7 of its QoS
    /// of 3, E14 to E18 of a field that can't be read; E21.
    #[tactic(auto, using(mqtt5_base::proofs::AnswersLemmas::row_said))]
    pub fn read(
        alloc: Global,
        header: FixedHeader,
        bytes: Bytes,
    ) -> Result<(Connect, Option<LastWill>, Option<Login>), Error>
        requires { length bytes ≡ header.fixed_header_len + header.remaining_len }
        ensures row { ReadsRow (λ p. content_of_packet (connect_packet p.0 p.1 p.2)) connect_row
            header bytes result }
        ensures values { Gives (λ p. content_of_packet (connect_packet p.0 p.1 p.2)) result
            (values_in connect_row header.byte1 header.remaining_len
            (drop header.fixed_header_len bytes)) }
    {
        Connect::read_values(alloc, header, bytes)
    }

    /// The connect flags: 0x02 for clean start, and those of the will and the login.
    fn flags(&self, will: &Option<LastWill>, login: &Option<Login>) -> u8
        ensures { result ≡ connect_flags self.now will.now login.now }
    {
        let clean_start: u8 = if self.clean_start { 2 } else { 0 };
        clean_start + flags_of(will) + flags_of(login)
    }

    fn head_fits(&self) -> bool
        ensures { result ≡ written_fits connect_row.steps (connect_head 0 self.now) }
    {
        block_fits(&self.properties) && self.client_id.fits()
    }

    fn head_len(&self) -> usize
        ensures { result
            ≡ min (length (written_bytes connect_row.steps 16 (connect_head 0 self.now)))
            usize.MAX }
    {
        block_len(&self.properties)
            .saturating_add(self.client_id.field_len())
            .saturating_add(10)
    }

    /// Appends what stands before the will.
    fn put_head(&self, flags: u8, out: &mut BytesMut)
        requires fits { written_fits connect_row.steps (connect_head 0 self.now) ≡ true }
        requires room { length (written_bytes connect_row.steps 16 (connect_head flags self.now))
            ≤ out.old.spare }
        ensures { Puts out.old out.new
            (written_bytes connect_row.steps 16 (connect_head flags self.now)) }
    {
        out.extend_reserved(&[0, 4, b'M', b'Q', b'T', b'T', 5]);
        flags.put_field(out);
        self.keep_alive.put_field(out);
        put_block(&self.properties, out);
        self.client_id.put_field(out);
    }

    fn body_len(&self, will: &Option<LastWill>, login: &Option<Login>) -> usize
        ensures { result
            ≡ min (length (body_bytes connect_row (connect_packet self.now will.now login.now)))
            usize.MAX }
    {
        let flags = self.flags(will, login);
        self.head_len()
            .saturating_add(len_under(flags, will))
            .saturating_add(len_under(flags, login))
    }

    fn put_body(&self, will: &Option<LastWill>, login: &Option<Login>, out: &mut BytesMut)
        requires head { written_fits connect_row.steps (connect_head 0 self.now) ≡ true }
        requires parts { parts_fit connect_parts (will_group will.now ∷ login_group login.now ∷ [])
            ≡ true }
        requires room { length (body_bytes connect_row (connect_packet self.now will.now login.now))
            ≤ out.old.spare }
        ensures { Puts out.old out.new
            (body_bytes connect_row (connect_packet self.now will.now login.now)) }
    {
        let flags = self.flags(will, login);
        self.put_head(flags, out);
        put_under(flags, will, out);
        put_under(flags, login, out);
    }

    /// Appends the Connect with its will and its login, and answers the frame's length. An empty
    /// text of the login has neither a flag nor a field. E11 where a text or bytes are over 65,535
    /// bytes, or the properties of either or the body over 268,435,455; E21. The buffer is then
    /// unchanged.
    pub fn write(
        &self,
        will: &Option<LastWill>,
        login: &Option<Login>,
        buffer: &mut BytesMut,
    ) -> Result<usize, Error>
        ensures { Writes length (writing connect_row (connect_packet self.now will.now login.now))
            result buffer.old.items buffer.new.items }
    {
        if !self.head_fits() || !parts_fit(will, login) {
            return Err(Error::PayloadTooLong);
        }
        let len = self.body_len(will, login);
        if !len.fits() {
            return Err(Error::PayloadTooLong);
        }
        let size = start_frame(0x10, len, buffer)?;
        self.put_body(will, login, buffer);
        Ok(size)
    }

    /// How many bytes it takes, or the greatest `usize` where they are more. Takes no memory.
    pub fn size(&self, will: &Option<LastWill>, login: &Option<Login>) -> usize
        ensures { result
            ≡ min (length (layout connect_row (connect_packet self.now will.now login.now)))
            usize.MAX }
    {
        frame_size(self.body_len(will, login))
    }
}
