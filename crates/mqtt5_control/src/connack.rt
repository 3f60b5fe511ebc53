//! The answer to a connect.

ghost use Rattle.std.specs.Prelude.{◌≡◌, ◌+◌, ◌≤◌, true, Some, drop, length, min, option_map};
ghost use Rattle.mqtt5_base.specs.Grammar.{number};
ghost use Rattle.mqtt5_base.specs.Answers.{Finds, Gives, ReadsRow};
ghost use Rattle.mqtt5_base.specs.Reading.{judged, values_in};
ghost use Rattle.mqtt5_base.specs.Sets.{IsSetOf};
ghost use Rattle.mqtt5_base.specs.Puts.{Puts, Writes};
ghost use Rattle.mqtt5_base.specs.Layout.{items_fit, items_bytes, block_fits, body_bytes, layout, writing, content_of_packet};
ghost use Rattle.mqtt5_control.specs.Rows.{connack_table, connack_codes, connack_row};
ghost use Rattle.mqtt5_control.specs.ConnAcks.{connack_code, connack_found, connack_packet, no_connack_properties};
ghost use Rattle.mqtt5_control.specs.Thirds.{connack_first_table, connack_second_table, connack_third_table, connack_first, connack_second, connack_third};

use bytes::{Bytes, BytesMut};
use mqtt5_base::{
    Error, FieldValue, FixedHeader, Property, PropertyBlock, PropertySet, Sequence, Tagged, Text,
    block_fits, block_len, copied, frame_size, put_block, read_block, read_u8, start_frame,
};
use std::alloc::{AllocError, Global};

/// How a connect is answered: codes 0 to 3, 128 to 138, 140, 144, 149, 151, 153 to 157 and 159, in this
/// order (MQTT 5.0 section 3.2.2.2). `RefusedProtocolVersion`, `BadClientId` and `ServiceUnavailable` are
/// of earlier versions of MQTT, and are neither read nor written.
#[derive(Debug, Clone, Copy, PartialEq, Eq)]
pub enum ConnectReturnCode {
    Success,
    RefusedProtocolVersion,
    BadClientId,
    ServiceUnavailable,
    UnspecifiedError,
    MalformedPacket,
    ProtocolError,
    ImplementationSpecificError,
    UnsupportedProtocolVersion,
    ClientIdentifierNotValid,
    BadUserNamePassword,
    NotAuthorized,
    ServerUnavailable,
    ServerBusy,
    Banned,
    BadAuthenticationMethod,
    TopicNameInvalid,
    PacketTooLarge,
    QuotaExceeded,
    PayloadFormatInvalid,
    RetainNotSupported,
    QoSNotSupported,
    UseAnotherServer,
    ServerMoved,
    ConnectionRateExceeded,
}

impl ConnectReturnCode {
    /// Its number. Takes no memory.
    pub fn code(self) -> u8
        ensures { result ≡ connack_code self }
    {
        match self {
            ConnectReturnCode::Success => 0,
            ConnectReturnCode::RefusedProtocolVersion => 1,
            ConnectReturnCode::BadClientId => 2,
            ConnectReturnCode::ServiceUnavailable => 3,
            ConnectReturnCode::UnspecifiedError => 128,
            ConnectReturnCode::MalformedPacket => 129,
            ConnectReturnCode::ProtocolError => 130,
            ConnectReturnCode::ImplementationSpecificError => 131,
            ConnectReturnCode::UnsupportedProtocolVersion => 132,
            ConnectReturnCode::ClientIdentifierNotValid => 133,
            ConnectReturnCode::BadUserNamePassword => 134,
            ConnectReturnCode::NotAuthorized => 135,
            ConnectReturnCode::ServerUnavailable => 136,
            ConnectReturnCode::ServerBusy => 137,
            ConnectReturnCode::Banned => 138,
            ConnectReturnCode::BadAuthenticationMethod => 140,
            ConnectReturnCode::TopicNameInvalid => 144,
            ConnectReturnCode::PacketTooLarge => 149,
            ConnectReturnCode::QuotaExceeded => 151,
            ConnectReturnCode::PayloadFormatInvalid => 153,
            ConnectReturnCode::RetainNotSupported => 154,
            ConnectReturnCode::QoSNotSupported => 155,
            ConnectReturnCode::UseAnotherServer => 156,
            ConnectReturnCode::ServerMoved => 157,
            ConnectReturnCode::ConnectionRateExceeded => 159,
        }
    }

    /// Refuses a code of an earlier version with E1 and its number.
    fn judge(self) -> Result<(), Error>
        ensures { Finds (λ _. number (connack_code self)) result
            (judged connack_codes Error.InvalidConnectReturnCode (number (connack_code self))) }
    {
        let code = self.code();
        match self {
            ConnectReturnCode::RefusedProtocolVersion
            | ConnectReturnCode::BadClientId
            | ConnectReturnCode::ServiceUnavailable => Err(Error::InvalidConnectReturnCode(code)),
            _ => Ok(()),
        }
    }
}

/// The properties of a ConnAck (MQTT 5.0 section 3.2.2.3). No number is judged.
#[derive(Debug, PartialEq, Eq, Drop)]
pub struct ConnAckProperties {
    /// After how many seconds the server forgets the session of a lost connection.
    pub session_expiry_interval: Option<u32>,
    /// How many publishes of QoS 1 and 2 the client may send ahead of their acks.
    pub receive_max: Option<u16>,
    /// The greatest QoS that the client may use: 0 or 1.
    pub max_qos: Option<u8>,
    /// Whether the server keeps messages: 0 or 1.
    pub retain_available: Option<u8>,
    /// The longest packet that the client may send, in bytes.
    pub max_packet_size: Option<u32>,
    /// The identifier of a client that gave none.
    pub assigned_client_identifier: Option<Text>,
    /// The greatest topic alias that the client may use.
    pub topic_alias_max: Option<u16>,
    /// Why, as a text for people.
    pub reason_string: Option<Text>,
    /// Names and values, in order; a name may stand often.
    pub user_properties: Sequence<(Text, Text)>,
    /// Whether filters may have wildcards: 0 or 1.
    pub wildcard_subscription_available: Option<u8>,
    /// Whether subscriptions may have identifiers: 0 or 1.
    pub subscription_identifiers_available: Option<u8>,
    /// Whether subscriptions may be shared: 0 or 1.
    pub shared_subscription_available: Option<u8>,
    /// The keep alive in place of the client's, in seconds.
    pub server_keep_alive: Option<u16>,
    /// What response topics are made from.
    pub response_information: Option<Text>,
    /// Another server to use.
    pub server_reference: Option<Text>,
    /// The name of the method of authentication.
    pub authentication_method: Option<Text>,
    /// Data of that method.
    pub authentication_data: Option<Bytes>,
}

impl Clone for ConnAckProperties {
    ghost is_clone = { λ s copy. copy ≡ s };

    fn clone(&self) -> Result<ConnAckProperties, AllocError> {
        Ok(ConnAckProperties {
            session_expiry_interval: self.session_expiry_interval,
            receive_max: self.receive_max,
            max_qos: self.max_qos,
            retain_available: self.retain_available,
            max_packet_size: self.max_packet_size,
            assigned_client_identifier: copied(&self.assigned_client_identifier)?,
            topic_alias_max: self.topic_alias_max,
            reason_string: copied(&self.reason_string)?,
            user_properties: copied(&self.user_properties)?,
            wildcard_subscription_available: self.wildcard_subscription_available,
            subscription_identifiers_available: self.subscription_identifiers_available,
            shared_subscription_available: self.shared_subscription_available,
            server_keep_alive: self.server_keep_alive,
            response_information: copied(&self.response_information)?,
            server_reference: copied(&self.server_reference)?,
            authentication_method: copied(&self.authentication_method)?,
            authentication_data: copied(&self.authentication_data)?,
        })
    }
}

impl PropertySet for ConnAckProperties {
    ghost table = { connack_table };

    ghost found = { connack_found };

    fn empty(alloc: Global) -> ConnAckProperties {
        ConnAckProperties::new(alloc)
    }

    fn may_have(id: u8) -> bool {
        matches!(
            id,
            17 | 33 | 36 | 37 | 39 | 18 | 34 | 31 | 38 | 40 | 41 | 42 | 19 | 26 | 28 | 21 | 22
        )
    }

    fn add(&mut self, property: Property) -> Result<(), AllocError> {
        match property {
            Property::SessionExpiryInterval(n) => self.session_expiry_interval = Some(n),
            Property::ReceiveMaximum(n) => self.receive_max = Some(n),
            Property::MaximumQos(n) => self.max_qos = Some(n),
            Property::RetainAvailable(n) => self.retain_available = Some(n),
            Property::MaximumPacketSize(n) => self.max_packet_size = Some(n),
            Property::AssignedClientIdentifier(text) => self.assigned_client_identifier = Some(
                text,
            ),
            Property::TopicAliasMaximum(n) => self.topic_alias_max = Some(n),
            Property::ReasonString(text) => self.reason_string = Some(text),
            Property::UserProperty(key, value) => self.user_properties.push((key, value))?,
            Property::WildcardSubscriptionAvailable(n) => self.wildcard_subscription_available =
                Some(n),
            Property::SubscriptionIdentifierAvailable(n) =>
                self.subscription_identifiers_available = Some(n),
            Property::SharedSubscriptionAvailable(n) => self.shared_subscription_available = Some(
                n,
            ),
            Property::ServerKeepAlive(n) => self.server_keep_alive = Some(n),
            Property::ResponseInformation(text) => self.response_information = Some(text),
            Property::ServerReference(text) => self.server_reference = Some(text),
            Property::AuthenticationMethod(text) => self.authentication_method = Some(text),
            Property::AuthenticationData(content) => self.authentication_data = Some(content),
            other => drop(other),
        }
        Ok(())
    }

    fn set_fits(&self) -> bool {
        self.first_fit() & self.second_fit() & self.third_fit()
    }

    fn set_len(&self) -> usize {
        self.first_len()
            .saturating_add(self.second_len())
            .saturating_add(self.third_len())
    }

    fn put_set(&self, out: &mut BytesMut) {
        self.put_first(out);
        self.put_second(out);
        self.put_third(out);
    }

    fn set_known(&self) {
        self.first_known();
        self.second_known();
        self.third_known();
    }
}

impl PropertyBlock for ConnAckProperties {}

/// The same by thirds of the properties.
impl ConnAckProperties {
    /// The set without values. Takes no memory.
    pub fn new(alloc: Global) -> ConnAckProperties
        ensures { result ≡ no_connack_properties }
    {
        ConnAckProperties {
            session_expiry_interval: None,
            receive_max: None,
            max_qos: None,
            retain_available: None,
            max_packet_size: None,
            assigned_client_identifier: None,
            topic_alias_max: None,
            reason_string: None,
            user_properties: Sequence::new(alloc),
            wildcard_subscription_available: None,
            subscription_identifiers_available: None,
            shared_subscription_available: None,
            server_keep_alive: None,
            response_information: None,
            server_reference: None,
            authentication_method: None,
            authentication_data: None,
        }
    }

    fn first_fit(&self) -> bool
        ensures { result ≡ items_fit connack_first_table (connack_first self.now) }
    {
        self.session_expiry_interval.values_fit()
            && self.receive_max.values_fit()
            && self.max_qos.values_fit()
            && self.retain_available.values_fit()
            && self.max_packet_size.values_fit()
            && self.assigned_client_identifier.values_fit()
    }

    fn second_fit(&self) -> bool
        ensures { result ≡ items_fit connack_second_table (connack_second self.now) }
    {
        self.topic_alias_max.values_fit()
            && self.reason_string.values_fit()
            && self.user_properties.values_fit()
            && self.wildcard_subscription_available.values_fit()
            && self.subscription_identifiers_available.values_fit()
            && self.shared_subscription_available.values_fit()
    }

    fn third_fit(&self) -> bool
        ensures { result ≡ items_fit connack_third_table (connack_third self.now) }
    {
        self.server_keep_alive.values_fit()
            && self.response_information.values_fit()
            && self.server_reference.values_fit()
            && self.authentication_method.values_fit()
            && self.authentication_data.values_fit()
    }

    fn first_len(&self) -> usize
        ensures { result ≡ min (length (items_bytes connack_first_table (connack_first self.now)))
            usize.MAX }
    {
        self.session_expiry_interval
            .values_len(17)
            .saturating_add(self.receive_max.values_len(33))
            .saturating_add(self.max_qos.values_len(36))
            .saturating_add(self.retain_available.values_len(37))
            .saturating_add(self.max_packet_size.values_len(39))
            .saturating_add(self.assigned_client_identifier.values_len(18))
    }

    fn second_len(&self) -> usize
        ensures { result ≡ min (length (items_bytes connack_second_table (connack_second self.now)))
            usize.MAX }
    {
        self.topic_alias_max
            .values_len(34)
            .saturating_add(self.reason_string.values_len(31))
            .saturating_add(self.user_properties.values_len(38))
            .saturating_add(self.wildcard_subscription_available.values_len(40))
            .saturating_add(self.subscription_identifiers_available.values_len(41))
            .saturating_add(self.shared_subscription_available.values_len(42))
    }

    fn third_len(&self) -> usize
        ensures { result ≡ min (length (items_bytes connack_third_table (connack_third self.now)))
            usize.MAX }
    {
        self.server_keep_alive
            .values_len(19)
            .saturating_add(self.response_information.values_len(26))
            .saturating_add(self.server_reference.values_len(28))
            .saturating_add(self.authentication_method.values_len(21))
            .saturating_add(self.authentication_data.values_len(22))
    }

    fn put_first(&self, out: &mut BytesMut)
        requires fits { items_fit connack_first_table (connack_first self.now) ≡ true }
        requires room { length (items_bytes connack_first_table (connack_first self.now))
            ≤ out.old.spare }
        ensures { Puts out.old out.new (items_bytes connack_first_table (connack_first self.now)) }
    {
        self.session_expiry_interval.put_values(17, out);
        self.receive_max.put_values(33, out);
        self.max_qos.put_values(36, out);
        self.retain_available.put_values(37, out);
        self.max_packet_size.put_values(39, out);
        self.assigned_client_identifier.put_values(18, out);
    }

    fn put_second(&self, out: &mut BytesMut)
        requires fits { items_fit connack_second_table (connack_second self.now) ≡ true }
        requires room { length (items_bytes connack_second_table (connack_second self.now))
            ≤ out.old.spare }
        ensures { Puts out.old out.new
            (items_bytes connack_second_table (connack_second self.now)) }
    {
        self.topic_alias_max.put_values(34, out);
        self.reason_string.put_values(31, out);
        self.user_properties.put_values(38, out);
        self.wildcard_subscription_available.put_values(40, out);
        self.subscription_identifiers_available.put_values(41, out);
        self.shared_subscription_available.put_values(42, out);
    }

    fn put_third(&self, out: &mut BytesMut)
        requires fits { items_fit connack_third_table (connack_third self.now) ≡ true }
        requires room { length (items_bytes connack_third_table (connack_third self.now))
            ≤ out.old.spare }
        ensures { Puts out.old out.new (items_bytes connack_third_table (connack_third self.now)) }
    {
        self.server_keep_alive.put_values(19, out);
        self.response_information.put_values(26, out);
        self.server_reference.put_values(28, out);
        self.authentication_method.put_values(21, out);
        self.authentication_data.put_values(22, out);
    }

    fn first_known(&self)
        ensures { IsSetOf connack_first_table (connack_first self.now) }
    {
        self.session_expiry_interval.values_known();
        self.receive_max.values_known();
        self.max_qos.values_known();
        self.retain_available.values_known();
        self.max_packet_size.values_known();
        self.assigned_client_identifier.values_known();
    }

    fn second_known(&self)
        ensures { IsSetOf connack_second_table (connack_second self.now) }
    {
        self.topic_alias_max.values_known();
        self.reason_string.values_known();
        self.user_properties.values_known();
        self.wildcard_subscription_available.values_known();
        self.subscription_identifiers_available.values_known();
        self.shared_subscription_available.values_known();
    }

    fn third_known(&self)
        ensures { IsSetOf connack_third_table (connack_third self.now) }
    {
        self.server_keep_alive.values_known();
        self.response_information.values_known();
        self.server_reference.values_known();
        self.authentication_method.values_known();
        self.authentication_data.values_known();
    }
}

/// A ConnAck (MQTT 5.0 section 3.2).
#[derive(Debug, Clone, PartialEq, Eq, Drop)]
pub struct ConnAck {
    /// Whether the server has the client's last session.
    pub session_present: bool,
    /// How the connect is answered.
    pub code: ConnectReturnCode,
    /// An empty set is read again as None.
    pub properties: Option<ConnAckProperties>,
}

/// The code of a number; E1 of another.
fn reason(num: u8) -> Result<ConnectReturnCode, Error>
    ensures { Finds (λ r. number (connack_code r)) result
        (judged connack_codes Error.InvalidConnectReturnCode (number num)) }
{
    Ok(match num {
        0 => ConnectReturnCode::Success,
        128 => ConnectReturnCode::UnspecifiedError,
        129 => ConnectReturnCode::MalformedPacket,
        130 => ConnectReturnCode::ProtocolError,
        131 => ConnectReturnCode::ImplementationSpecificError,
        132 => ConnectReturnCode::UnsupportedProtocolVersion,
        133 => ConnectReturnCode::ClientIdentifierNotValid,
        134 => ConnectReturnCode::BadUserNamePassword,
        135 => ConnectReturnCode::NotAuthorized,
        136 => ConnectReturnCode::ServerUnavailable,
        137 => ConnectReturnCode::ServerBusy,
        138 => ConnectReturnCode::Banned,
        140 => ConnectReturnCode::BadAuthenticationMethod,
        144 => ConnectReturnCode::TopicNameInvalid,
        149 => ConnectReturnCode::PacketTooLarge,
        151 => ConnectReturnCode::QuotaExceeded,
        153 => ConnectReturnCode::PayloadFormatInvalid,
        154 => ConnectReturnCode::RetainNotSupported,
        155 => ConnectReturnCode::QoSNotSupported,
        156 => ConnectReturnCode::UseAnotherServer,
        157 => ConnectReturnCode::ServerMoved,
        159 => ConnectReturnCode::ConnectionRateExceeded,
        _ => return Err(Error::InvalidConnectReturnCode(num)),
    })
}

impl ConnAck {
    /// What the row gives of a frame's bytes.
    #[tactic(auto, using(mqtt5_base::proofs::Bits::bit_of_mod))]
    fn read_values(alloc: Global, header: FixedHeader, bytes: Bytes) -> Result<ConnAck, Error>
        requires { length bytes ≡ header.fixed_header_len + header.remaining_len }
        ensures { Gives (λ a. content_of_packet (connack_packet a)) result
            (values_in connack_row header.byte1 header.remaining_len
            (drop header.fixed_header_len bytes)) }
    {
        let mut stream = bytes;
        stream.advance(header.fixed_header_len);
        let flags = read_u8(&mut stream)?;
        let num = read_u8(&mut stream)?;
        let properties = read_block(alloc, &mut stream)?;
        let code = reason(num)?;
        Ok(ConnAck {
            session_present: flags % 2 == 1,
            code,
            properties,
        })
    }

    /// The ConnAck of a frame's bytes, of which the header is. E14 to E18 of a field that can't be read,
    /// then E1 with a reason code that a ConnAck doesn't have; E21.
    #[tactic(auto, using(mqtt5_base::proofs::AnswersLemmas::row_said))]
    pub fn read(alloc: Global, header: FixedHeader, bytes: Bytes) -> Result<ConnAck, Error>
        requires { length bytes ≡ header.fixed_header_len + header.remaining_len }
        ensures row { ReadsRow (λ a. content_of_packet (connack_packet a)) connack_row header bytes
            result }
        ensures values { Gives (λ a. content_of_packet (connack_packet a)) result
            (values_in connack_row header.byte1 header.remaining_len
            (drop header.fixed_header_len bytes)) }
    {
        ConnAck::read_values(alloc, header, bytes)
    }

    fn body_len(&self) -> usize
        ensures { result ≡ min (length (body_bytes connack_row (connack_packet self.now)))
            usize.MAX }
    {
        block_len(&self.properties).saturating_add(2)
    }

    fn put_body(&self, out: &mut BytesMut)
        requires fits { block_fits connack_table (option_map connack_found self.now.properties)
            ≡ true }
        requires room { length (body_bytes connack_row (connack_packet self.now)) ≤ out.old.spare }
        ensures { Puts out.old out.new (body_bytes connack_row (connack_packet self.now)) }
    {
        let flags: u8 = if self.session_present { 1 } else { 0 };
        flags.put_field(out);
        self.code.code().put_field(out);
        put_block(&self.properties, out);
    }

    /// Appends the ConnAck and answers its length. E11 where a text or bytes are over 65,535 bytes, or
    /// the properties or the body over 268,435,455; else E1 with the number of a code of an earlier
    /// version; E21. The buffer is then unchanged.
    pub fn write(&self, buffer: &mut BytesMut) -> Result<usize, Error>
        ensures { Writes length (writing connack_row (connack_packet self.now)) result
            buffer.old.items buffer.new.items }
    {
        if !block_fits(&self.properties) {
            return Err(Error::PayloadTooLong);
        }
        let len = self.body_len();
        if !len.fits() {
            return Err(Error::PayloadTooLong);
        }
        self.code.judge()?;
        let size = start_frame(0x20, len, buffer)?;
        self.put_body(buffer);
        Ok(size)
    }

    /// How many bytes it takes, or the greatest `usize` where they are more. Takes no memory.
    pub fn size(&self) -> usize
        ensures { result ≡ min (length (layout connack_row (connack_packet self.now))) usize.MAX }
    {
        frame_size(self.body_len())
    }
}
