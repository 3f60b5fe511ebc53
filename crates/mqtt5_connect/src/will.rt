//! What the server publishes for a client that is lost.

ghost use Rattle.std.specs.Prelude.{◌≡◌, ◌/◌, ◌%◌, Some, None, IfOk, OnErr};
ghost use Rattle.mqtt5_base.specs.Answers.{Answers, Gives, ReadsPart};
ghost use Rattle.mqtt5_base.specs.Reading.{kept_at, part_at};
ghost use Rattle.mqtt5_base.specs.Puts.{Writes};
ghost use Rattle.mqtt5_base.specs.Layout.{group_of, just, steps_writing};
ghost use Rattle.mqtt5_connect.specs.Rows.{will_table, will_steps, will_part};
ghost use Rattle.mqtt5_connect.specs.Connects.{will_found, will_values, will_flags, will_group, under_flags, no_will_properties};
ghost use Rattle.mqtt5_connect.specs.Short.{will_short};

use crate::connect_part::{ConnectPart, write_part};
use bytes::{Bytes, BytesMut};
use mqtt5_base::{
    Error, FieldValue, Property, PropertyBlock, PropertySet, QoS, Sequence, Tagged, Text,
    block_fits, block_len, put_block, read_block, read_bytes, read_qos,
};
use std::alloc::{AllocError, Global};

/// The properties of a will (MQTT 5.0 section 3.1.3.2). No number is judged.
#[derive(Debug, PartialEq, Eq, Drop)]
pub struct LastWillProperties {
    /// After how many seconds it is published.
    pub delay_interval: Option<u32>,
    /// 0 where the message is bytes, 1 where it is UTF-8.
    pub payload_format_indicator: Option<u8>,
    /// How many seconds the message lives.
    pub message_expiry_interval: Option<u32>,
    /// What the message is.
    pub content_type: Option<Text>,
    /// The topic of an answer.
    pub response_topic: Option<Text>,
    /// What an answer carries back.
    pub correlation_data: Option<Bytes>,
    /// Names and values, in order; a name may stand often.
    pub user_properties: Sequence<(Text, Text)>,
}

impl Clone for LastWillProperties {
    ghost is_clone = { λ s copy. copy ≡ s };

    fn clone(&self) -> Result<LastWillProperties, AllocError> {
        Ok(LastWillProperties {
            delay_interval: self.delay_interval,
            payload_format_indicator: self.payload_format_indicator,
            message_expiry_interval: self.message_expiry_interval,
            content_type: self.content_type.clone()?,
            response_topic: self.response_topic.clone()?,
            correlation_data: self.correlation_data.clone()?,
            user_properties: self.user_properties.clone()?,
        })
    }
}

impl LastWillProperties {
    /// The set without values. Takes no memory.
    pub fn new(alloc: Global) -> LastWillProperties
        ensures { result ≡ no_will_properties }
    {
        LastWillProperties {
            delay_interval: None,
            payload_format_indicator: None,
            message_expiry_interval: None,
            content_type: None,
            response_topic: None,
            correlation_data: None,
            user_properties: Sequence::new(alloc),
        }
    }
}

impl PropertySet for LastWillProperties {
    ghost table = { will_table };

    ghost found = { will_found };

    fn empty(alloc: Global) -> LastWillProperties {
        LastWillProperties::new(alloc)
    }

    fn may_have(id: u8) -> bool {
        matches!(id, 24 | 1 | 2 | 3 | 8 | 9 | 38)
    }

    fn add(&mut self, property: Property) -> Result<(), AllocError> {
        match property {
            Property::WillDelayInterval(n) => self.delay_interval = Some(n),
            Property::PayloadFormatIndicator(n) => self.payload_format_indicator = Some(n),
            Property::MessageExpiryInterval(n) => self.message_expiry_interval = Some(n),
            Property::ContentType(text) => self.content_type = Some(text),
            Property::ResponseTopic(text) => self.response_topic = Some(text),
            Property::CorrelationData(content) => self.correlation_data = Some(content),
            Property::UserProperty(key, value) => self.user_properties.push((key, value))?,
            other => drop(other),
        }
        Ok(())
    }

    fn set_fits(&self) -> bool {
        self.delay_interval.values_fit()
            && self.payload_format_indicator.values_fit()
            && self.message_expiry_interval.values_fit()
            && self.content_type.values_fit()
            && self.response_topic.values_fit()
            && self.correlation_data.values_fit()
            && self.user_properties.values_fit()
    }

    fn set_len(&self) -> usize {
        self.delay_interval
            .values_len(24)
            .saturating_add(self.payload_format_indicator.values_len(1))
            .saturating_add(self.message_expiry_interval.values_len(2))
            .saturating_add(self.content_type.values_len(3))
            .saturating_add(self.response_topic.values_len(8))
            .saturating_add(self.correlation_data.values_len(9))
            .saturating_add(self.user_properties.values_len(38))
    }

    fn put_set(&self, out: &mut BytesMut) {
        self.delay_interval.put_values(24, out);
        self.payload_format_indicator.put_values(1, out);
        self.message_expiry_interval.put_values(2, out);
        self.content_type.put_values(3, out);
        self.response_topic.put_values(8, out);
        self.correlation_data.put_values(9, out);
        self.user_properties.put_values(38, out);
    }

    fn set_known(&self) {
        self.delay_interval.values_known();
        self.payload_format_indicator.values_known();
        self.message_expiry_interval.values_known();
        self.content_type.values_known();
        self.response_topic.values_known();
        self.correlation_data.values_known();
        self.user_properties.values_known();
    }
}

impl PropertyBlock for LastWillProperties {}

/// What the server publishes in the client's name once its connection is lost (MQTT 5.0 section
/// 3.1.2.5).
#[derive(Debug, Clone, PartialEq, Eq, Drop)]
pub struct LastWill {
    /// Bytes that aren't judged, up to 65,535 to be written.
    pub topic: Bytes,
    /// Up to 65,535 bytes to be written.
    pub message: Bytes,
    /// The QoS of the publish.
    pub qos: QoS,
    /// Whether the server keeps it for later subscriptions.
    pub retain: bool,
    /// An empty set is read again as None.
    pub properties: Option<LastWillProperties>,
}

/// The fields of a will, whose QoS and retain are of the connect flags.
#[tactic(auto, using(mqtt5_base::proofs::Bits::bit_of_mod))]
fn read_fields(alloc: Global, flags: u8, bytes: &mut Bytes) -> Result<LastWill, Error>
    ensures { Gives (λ w. (will_values w, bytes.new)) result (kept_at will_steps flags bytes.old) }
{
    let properties = read_block(alloc, bytes)?;
    let topic = read_bytes(bytes)?;
    let message = read_bytes(bytes)?;
    let qos = read_qos(flags / 8 % 4)?;
    Ok(LastWill {
        topic,
        message,
        qos,
        retain: flags / 32 % 2 == 1,
        properties,
    })
}

/// The bytes of a vector.
fn message_of(payload: Vec<u8>) -> Result<Bytes, AllocError>
    ensures { IfOk result (λ b. b ≡ payload.items) }
{
    Ok(Bytes::from_vec(payload)?)
}

impl LastWill {
    /// A will of this topic, payload, QoS, retain and properties. E21.
    pub fn new(
        alloc: Global,
        topic: &str,
        payload: Vec<u8>,
        qos: QoS,
        retain: bool,
        properties: Option<LastWillProperties>,
    ) -> Result<LastWill, Error>
        ensures { Answers result
            (record {
              topic = topic.now;
              message = payload.items;
              qos = qos;
              retain = retain;
              properties = properties;
            }) }
    {
        Ok(LastWill {
            topic: Bytes::copy_from_slice(alloc, topic.as_bytes())?,
            message: message_of(payload)?,
            qos,
            retain,
            properties,
        })
    }

    /// What the part gives of the bytes.
    pub(crate) fn read_part(
        alloc: Global,
        flags: u8,
        bytes: &mut Bytes,
    ) -> Result<Option<LastWill>, Error>
        ensures read { Gives (λ w. (group_of (will_group w), bytes.new)) result
            (part_at (will_part 0) (under_flags flags) bytes.old) }
        ensures kept { OnErr result (bytes.new ≡ bytes.old) }
    {
        if flags / 4 % 2 == 0 {
            if flags / 8 % 8 != 0 {
                return Err(Error::IncorrectPacketFormat);
            }
            return Ok(None);
        }
        let mut rest = bytes.clone()?;
        let will = read_fields(alloc, flags, &mut rest)?;
        *bytes = rest;
        Ok(Some(will))
    }

    /// The will at the front of the bytes, under the connect flags; none where 0x04 isn't set. E4 of
    /// other flags of a will without it, E7 of a QoS of 3, E14 to E18 of a field that can't be read;
    /// E21. After a refusal the bytes are unchanged.
    pub fn read(alloc: Global, flags: u8, bytes: &mut Bytes) -> Result<Option<LastWill>, Error>
        ensures read { ReadsPart (λ w. (group_of (will_group w), bytes.new)) (will_part 0)
            (under_flags flags) bytes.old result }
        ensures kept { OnErr result (bytes.new ≡ bytes.old) }
    {
        LastWill::read_part(alloc, flags, bytes)
    }

    /// Appends the properties, the topic and the message, and answers the connect flags: 0x04, the
    /// QoS in bits 3 and 4, and 0x20 for retain. E11 where a text or bytes are over 65,535 bytes, or the
    /// properties over 268,435,455; E21. The buffer is then unchanged.
    pub fn write(&self, buffer: &mut BytesMut) -> Result<u8, Error>
        ensures { Writes (λ _. will_flags self.now)
            (steps_writing will_steps (will_flags self.now) (just (will_values self.now))) result
            buffer.old.items buffer.new.items }
    {
        write_part(self, buffer)
    }
}

impl ConnectPart for LastWill {
    ghost steps = { will_steps };

    ghost values = { will_values };

    ghost own_flags = { will_flags };

    ghost most = { 60 };

    ghost short = { will_short };

    fn own_flags(&self) -> u8 {
        let retain: u8 = if self.retain { 32 } else { 0 };
        4 + 8 * (self.qos as u8) + retain
    }

    fn part_fits(&self) -> bool {
        block_fits(&self.properties) && self.topic.fits() && self.message.fits()
    }

    fn part_len(&self, _flags: u8) -> usize {
        block_len(&self.properties)
            .saturating_add(self.topic.field_len())
            .saturating_add(self.message.field_len())
    }

    fn put_part(&self, _flags: u8, out: &mut BytesMut) {
        put_block(&self.properties, out);
        self.topic.put_field(out);
        self.message.put_field(out);
    }
}
