//! The end of a connection.

ghost use Rattle.std.specs.Prelude.{◌≡◌, ◌+◌, ◌/◌, ◌%◌, ◌≤◌, true, Some, None, OnErr, drop, length, min, nat_lt, option_map};
ghost use Rattle.mqtt5_base.specs.Grammar.{u8, number, plain, properties, checked, block, is};
ghost use Rattle.mqtt5_base.specs.Answers.{Finds, Gives, ReadsBlock, ReadsRow};
ghost use Rattle.mqtt5_base.specs.Reading.{judged, optional_at, values_in};
ghost use Rattle.mqtt5_base.specs.Puts.{Puts, Writes};
ghost use Rattle.mqtt5_base.specs.Layout.{block_fits, body_bytes, layout, writing, content_of_packet};
ghost use Rattle.mqtt5_control.specs.Rows.{disconnect_table, disconnect_codes, disconnect_row};
ghost use Rattle.mqtt5_control.specs.DisconnectBody.{disconnect_is_bare};
ghost use Rattle.mqtt5_control.specs.Disconnects.{disconnect_code, disconnect_found, disconnect_packet, no_disconnect_properties};

use crate::optional::read_block_if;
use bytes::{Bytes, BytesMut};
use mqtt5_base::{
    Error, FieldValue, FixedHeader, Property, PropertySet, Sequence, Tagged, Text, block_fits,
    block_len, frame_size, put_block, read_block, read_u8, start_frame,
};
use std::alloc::{AllocError, Global};

/// Why a connection ends, each reason with its code (MQTT 5.0 section 3.14.2.1).
#[derive(Debug, Clone, Copy, PartialEq, Eq)]
pub enum DisconnectReasonCode {
    NormalDisconnection = 0,
    DisconnectWithWillMessage = 4,
    UnspecifiedError = 128,
    MalformedPacket = 129,
    ProtocolError = 130,
    ImplementationSpecificError = 131,
    NotAuthorized = 135,
    ServerBusy = 137,
    ServerShuttingDown = 139,
    KeepAliveTimeout = 141,
    SessionTakenOver = 142,
    TopicFilterInvalid = 143,
    TopicNameInvalid = 144,
    ReceiveMaximumExceeded = 147,
    TopicAliasInvalid = 148,
    PacketTooLarge = 149,
    MessageRateTooHigh = 150,
    QuotaExceeded = 151,
    AdministrativeAction = 152,
    PayloadFormatInvalid = 153,
    RetainNotSupported = 154,
    QoSNotSupported = 155,
    UseAnotherServer = 156,
    ServerMoved = 157,
    SharedSubscriptionNotSupported = 158,
    ConnectionRateExceeded = 159,
    MaximumConnectTime = 160,
    SubscriptionIdentifiersNotSupported = 161,
    WildcardSubscriptionsNotSupported = 162,
}

/// The reason of a code; E1 with a number that is no reason's. Takes no memory.
impl TryFrom<u8> for DisconnectReasonCode {
    ghost use Rattle.mqtt5_base.specs.declared.error.Error.TheVariants.{InvalidConnectReturnCode};

    type Error = Error;

    ghost try_from_gives = { λ num result. Finds (λ r. number (disconnect_code r)) result (judged disconnect_codes InvalidConnectReturnCode (number num)) };

    fn try_from(num: u8) -> Result<DisconnectReasonCode, Error> {
        Ok(match num {
            0 => DisconnectReasonCode::NormalDisconnection,
            4 => DisconnectReasonCode::DisconnectWithWillMessage,
            128 => DisconnectReasonCode::UnspecifiedError,
            129 => DisconnectReasonCode::MalformedPacket,
            130 => DisconnectReasonCode::ProtocolError,
            131 => DisconnectReasonCode::ImplementationSpecificError,
            135 => DisconnectReasonCode::NotAuthorized,
            137 => DisconnectReasonCode::ServerBusy,
            139 => DisconnectReasonCode::ServerShuttingDown,
            141 => DisconnectReasonCode::KeepAliveTimeout,
            142 => DisconnectReasonCode::SessionTakenOver,
            143 => DisconnectReasonCode::TopicFilterInvalid,
            144 => DisconnectReasonCode::TopicNameInvalid,
            147 => DisconnectReasonCode::ReceiveMaximumExceeded,
            148 => DisconnectReasonCode::TopicAliasInvalid,
            149 => DisconnectReasonCode::PacketTooLarge,
            150 => DisconnectReasonCode::MessageRateTooHigh,
            151 => DisconnectReasonCode::QuotaExceeded,
            152 => DisconnectReasonCode::AdministrativeAction,
            153 => DisconnectReasonCode::PayloadFormatInvalid,
            154 => DisconnectReasonCode::RetainNotSupported,
            155 => DisconnectReasonCode::QoSNotSupported,
            156 => DisconnectReasonCode::UseAnotherServer,
            157 => DisconnectReasonCode::ServerMoved,
            158 => DisconnectReasonCode::SharedSubscriptionNotSupported,
            159 => DisconnectReasonCode::ConnectionRateExceeded,
            160 => DisconnectReasonCode::MaximumConnectTime,
            161 => DisconnectReasonCode::SubscriptionIdentifiersNotSupported,
            162 => DisconnectReasonCode::WildcardSubscriptionsNotSupported,
            _ => return Err(Error::InvalidConnectReturnCode(num)),
        })
    }
}

impl DisconnectReasonCode {
    /// Its code. Takes no memory.
    pub fn code(self) -> u8
        ensures { result ≡ disconnect_code self }
    {
        self as u8
    }
}

/// The properties of a Disconnect (MQTT 5.0 section 3.14.2.2). No number is judged.
#[derive(Debug, Clone, PartialEq, Eq, Drop)]
pub struct DisconnectProperties {
    /// After how many seconds the server forgets the session.
    pub session_expiry_interval: Option<u32>,
    /// Why, as a text for people.
    pub reason_string: Option<Text>,
    /// Names and values, in order; a name may stand often.
    pub user_properties: Sequence<(Text, Text)>,
    /// Another server to use.
    pub server_reference: Option<Text>,
}

impl PropertySet for DisconnectProperties {
    ghost table = { disconnect_table };

    ghost found = { disconnect_found };

    fn empty(alloc: Global) -> DisconnectProperties {
        DisconnectProperties::new(alloc)
    }

    fn may_have(id: u8) -> bool {
        matches!(id, 17 | 31 | 38 | 28)
    }

    fn add(&mut self, property: Property) -> Result<(), AllocError> {
        match property {
            Property::SessionExpiryInterval(n) => self.session_expiry_interval = Some(n),
            Property::ReasonString(text) => self.reason_string = Some(text),
            Property::UserProperty(key, value) => self.user_properties.push((key, value))?,
            Property::ServerReference(text) => self.server_reference = Some(text),
            other => drop(other),
        }
        Ok(())
    }

    fn set_fits(&self) -> bool {
        self.session_expiry_interval.values_fit()
            && self.reason_string.values_fit()
            && self.user_properties.values_fit()
            && self.server_reference.values_fit()
    }

    fn set_len(&self) -> usize {
        self.session_expiry_interval
            .values_len(17)
            .saturating_add(self.reason_string.values_len(31))
            .saturating_add(self.user_properties.values_len(38))
            .saturating_add(self.server_reference.values_len(28))
    }

    fn put_set(&self, out: &mut BytesMut) {
        self.session_expiry_interval.put_values(17, out);
        self.reason_string.put_values(31, out);
        self.user_properties.put_values(38, out);
        self.server_reference.put_values(28, out);
    }

    fn set_known(&self) {
        self.session_expiry_interval.values_known();
        self.reason_string.values_known();
        self.user_properties.values_known();
        self.server_reference.values_known();
    }
}

impl DisconnectProperties {
    /// The set without values. Takes no memory.
    pub fn new(alloc: Global) -> DisconnectProperties
        ensures { result ≡ no_disconnect_properties }
    {
        DisconnectProperties {
            session_expiry_interval: None,
            reason_string: None,
            user_properties: Sequence::new(alloc),
            server_reference: None,
        }
    }

    /// The block at the front of the bytes; none where it is empty. E14 to E18 of a block that can't
    /// be read; E21. After a refusal the bytes are unchanged.
    #[tactic(auto, using(mqtt5_base::proofs::AnswersLemmas::block_said))]
    pub fn extract(alloc: Global, bytes: &mut Bytes) -> Result<Option<DisconnectProperties>, Error>
        ensures read { ReadsBlock (λ p. (option_map disconnect_found p, bytes.new)) disconnect_table
            bytes.old result }
        ensures kept { OnErr result (bytes.new ≡ bytes.old) }
    {
        read_block(alloc, bytes)
    }
}

/// A Disconnect (MQTT 5.0 section 3.14).
#[derive(Debug, Clone, PartialEq, Eq, Drop)]
pub struct Disconnect {
    /// Of an empty body NormalDisconnection.
    pub reason_code: DisconnectReasonCode,
    /// An empty set is read again as None.
    pub properties: Option<DisconnectProperties>,
}

/// Refuses a first byte of another packet type.
fn judge_type(byte1: u8) -> Result<(), Error>
    ensures { Finds (λ _. number 14) result
        (judged (is 14) Error.InvalidPacketType (number (byte1 / 16 % 16))) }
{
    let kind = byte1 / 16;
    if kind != 14 {
        return Err(Error::InvalidPacketType(kind));
    }
    Ok(())
}

/// Refuses a first byte with flags.
fn judge_flags(byte1: u8) -> Result<(), Error>
    ensures { Finds (λ _. number 0) result
        (judged (is 0) (λ _. Error.MalformedPacket) (number (byte1 / 1 % 16))) }
{
    if byte1 % 16 != 0 {
        return Err(Error::MalformedPacket);
    }
    Ok(())
}

/// The reason of a body of so many bytes.
fn read_reason(len: usize, body: &mut Bytes) -> Result<DisconnectReasonCode, Error>
    ensures { Gives (λ r. (plain (number (disconnect_code r)), body.new)) result
        (optional_at (nat_lt 0 len) (checked u8 disconnect_codes Error.InvalidConnectReturnCode)
        (plain (number 0)) body.old) }
{
    if len == 0 {
        return Ok(DisconnectReasonCode::NormalDisconnection);
    }
    DisconnectReasonCode::try_from(read_u8(body)?)
}

impl Disconnect {
    /// A Disconnect of this reason, without properties. Takes no memory.
    pub fn new(reason: DisconnectReasonCode) -> Disconnect
        ensures { result ≡ record { reason_code = reason; properties = None } }
    {
        Disconnect {
            reason_code: reason,
            properties: None,
        }
    }

    /// What the row gives of a frame's bytes.
    fn read_values(alloc: Global, header: FixedHeader, bytes: Bytes) -> Result<Disconnect, Error>
        requires { length bytes ≡ header.fixed_header_len + header.remaining_len }
        ensures { Gives (λ d. content_of_packet (disconnect_packet d)) result
            (values_in disconnect_row header.byte1 header.remaining_len
            (drop header.fixed_header_len bytes)) }
    {
        judge_type(header.byte1)?;
        judge_flags(header.byte1)?;
        let mut stream = bytes;
        stream.advance(header.fixed_header_len);
        let reason_code = read_reason(header.remaining_len, &mut stream)?;
        let properties = read_block_if(alloc, header.remaining_len > 1, &mut stream)?;
        Ok(Disconnect {
            reason_code,
            properties,
        })
    }

    /// The Disconnect of a frame's bytes, of which the header is. E5 with the header's type where that
    /// isn't 14, E16 of flags that aren't 0, E1 with a reason code that a Disconnect doesn't have, E14 to
    /// E18 of a field that can't be read; E21.
    #[tactic(auto, using(mqtt5_base::proofs::AnswersLemmas::row_said))]
    pub fn read(alloc: Global, header: FixedHeader, bytes: Bytes) -> Result<Disconnect, Error>
        requires { length bytes ≡ header.fixed_header_len + header.remaining_len }
        ensures row { ReadsRow (λ d. content_of_packet (disconnect_packet d)) disconnect_row header
            bytes result }
        ensures values { Gives (λ d. content_of_packet (disconnect_packet d)) result
            (values_in disconnect_row header.byte1 header.remaining_len
            (drop header.fixed_header_len bytes)) }
    {
        Disconnect::read_values(alloc, header, bytes)
    }

    /// Whether it is written without a body.
    fn is_bare(&self) -> bool
        ensures { result ≡ disconnect_is_bare (disconnect_code self.now.reason_code)
            (option_map disconnect_found self.now.properties) }
    {
        self.reason_code == DisconnectReasonCode::NormalDisconnection && self.properties.is_none()
    }

    fn body_len(&self) -> usize
        ensures { result ≡ min (length (body_bytes disconnect_row (disconnect_packet self.now)))
            usize.MAX }
    {
        if self.is_bare() {
            0
        } else {
            block_len(&self.properties).saturating_add(1)
        }
    }

    fn put_body(&self, out: &mut BytesMut)
        requires fits { block_fits disconnect_table
            (option_map disconnect_found self.now.properties) ≡ true }
        requires room { length (body_bytes disconnect_row (disconnect_packet self.now))
            ≤ out.old.spare }
        ensures { Puts out.old out.new (body_bytes disconnect_row (disconnect_packet self.now)) }
    {
        if !self.is_bare() {
            self.reason_code.code().put_field(out);
            put_block(&self.properties, out);
        }
    }

    /// Appends the Disconnect and answers its length; of a normal disconnection without properties that
    /// is 2. E11 where a text is over 65,535 bytes, or the properties or the body over 268,435,455; E21.
    /// The buffer is then unchanged.
    pub fn write(&self, buffer: &mut BytesMut) -> Result<usize, Error>
        ensures { Writes length (writing disconnect_row (disconnect_packet self.now)) result
            buffer.old.items buffer.new.items }
    {
        if !block_fits(&self.properties) {
            return Err(Error::PayloadTooLong);
        }
        let len = self.body_len();
        if !len.fits() {
            return Err(Error::PayloadTooLong);
        }
        let size = start_frame(0xE0, len, buffer)?;
        self.put_body(buffer);
        Ok(size)
    }

    /// How many bytes it takes, or the greatest `usize` where they are more. Takes no memory.
    pub fn size(&self) -> usize
        ensures { result ≡ min (length (layout disconnect_row (disconnect_packet self.now)))
            usize.MAX }
    {
        frame_size(self.body_len())
    }
}
