//! A message.

ghost use Rattle.std.specs.Prelude.{◌≡◌, ◌+◌, ◌≤◌, ◌/◌, ◌%◌, ◌<◌, nat_lt, true, false, IfOk, IfErr, drop, length, min, option_map};
ghost use Rattle.mqtt5_base.specs.Grammar.{u16, not_zero, checked, plain, number, content, bytes};
ghost use Rattle.mqtt5_base.specs.Answers.{Finds, Gives, ReadsRow};
ghost use Rattle.mqtt5_base.specs.Reading.{optional_at, values_in};
ghost use Rattle.mqtt5_base.specs.Views.{bit, qos_number};
ghost use Rattle.mqtt5_base.specs.Puts.{Puts, Writes};
ghost use Rattle.mqtt5_base.specs.Layout.{atom_fits, block_fits, body_bytes, layout, writing, content_of_packet};
ghost use Rattle.mqtt5_publish.specs.Rows.{publish_table, publish_row};
ghost use Rattle.mqtt5_publish.specs.Publishes.{publish_found, publish_first, publish_packet, no_publish_properties};

use bytes::{Bytes, BytesMut};
use mqtt5_base::{
    Error, FieldValue, FixedHeader, Property, PropertyBlock, PropertySet, QoS, Sequence, Tagged,
    Text, block_fits, block_len, frame_size, put_block, read_block, read_bytes, read_qos, read_u16,
    start_frame,
};
use std::alloc::{AllocError, Global};

/// The properties of a Publish (MQTT 5.0 section 3.3.2.3). No number is judged.
#[derive(Debug, PartialEq, Eq, Drop)]
pub struct PublishProperties {
    /// 0 where the payload is bytes, 1 where it is UTF-8.
    pub payload_format_indicator: Option<u8>,
    /// How many seconds the message lives.
    pub message_expiry_interval: Option<u32>,
    /// The number that stands for the topic.
    pub topic_alias: Option<u16>,
    /// The topic of an answer.
    pub response_topic: Option<Text>,
    /// What an answer carries back.
    pub correlation_data: Option<Bytes>,
    /// Names and values, in order; a name may stand often.
    pub user_properties: Sequence<(Text, Text)>,
    /// Those of the subscriptions that the message matches, in order; each is written up to
    /// 268,435,455.
    pub subscription_identifiers: Sequence<usize>,
    /// What the payload is.
    pub content_type: Option<Text>,
}

impl Clone for PublishProperties {
    ghost is_clone = { λ s copy. copy ≡ s };

    fn clone(&self) -> Result<PublishProperties, AllocError> {
        Ok(PublishProperties {
            payload_format_indicator: self.payload_format_indicator,
            message_expiry_interval: self.message_expiry_interval,
            topic_alias: self.topic_alias,
            response_topic: self.response_topic.clone()?,
            correlation_data: self.correlation_data.clone()?,
            user_properties: self.user_properties.clone()?,
            subscription_identifiers: self.subscription_identifiers.clone()?,
            content_type: self.content_type.clone()?,
        })
    }
}

impl PublishProperties {
    /// The set without values. Takes no memory.
    pub fn new(alloc: Global) -> PublishProperties
        ensures { result ≡ no_publish_properties }
    {
        PublishProperties {
            payload_format_indicator: None,
            message_expiry_interval: None,
            topic_alias: None,
            response_topic: None,
            correlation_data: None,
            user_properties: Sequence::new(alloc),
            subscription_identifiers: Sequence::new(alloc),
            content_type: None,
        }
    }
}

impl PropertySet for PublishProperties {
    ghost table = { publish_table };

    ghost found = { publish_found };

    fn empty(alloc: Global) -> PublishProperties {
        PublishProperties::new(alloc)
    }

    fn may_have(id: u8) -> bool {
        matches!(id, 1 | 2 | 35 | 8 | 9 | 38 | 11 | 3)
    }

    fn add(&mut self, property: Property) -> Result<(), AllocError> {
        match property {
            Property::PayloadFormatIndicator(n) => self.payload_format_indicator = Some(n),
            Property::MessageExpiryInterval(n) => self.message_expiry_interval = Some(n),
            Property::TopicAlias(n) => self.topic_alias = Some(n),
            Property::ResponseTopic(text) => self.response_topic = Some(text),
            Property::CorrelationData(content) => self.correlation_data = Some(content),
            Property::UserProperty(key, value) => self.user_properties.push((key, value))?,
            Property::SubscriptionIdentifier(n) => self.subscription_identifiers.push(n)?,
            Property::ContentType(text) => self.content_type = Some(text),
            other => drop(other),
        }
        Ok(())
    }

    fn set_fits(&self) -> bool {
        self.payload_format_indicator.values_fit()
            && self.message_expiry_interval.values_fit()
            && self.topic_alias.values_fit()
            && self.response_topic.values_fit()
            && self.correlation_data.values_fit()
            && self.user_properties.values_fit()
            && self.subscription_identifiers.values_fit()
            && self.content_type.values_fit()
    }

    fn set_len(&self) -> usize {
        self.payload_format_indicator
            .values_len(1)
            .saturating_add(self.message_expiry_interval.values_len(2))
            .saturating_add(self.topic_alias.values_len(35))
            .saturating_add(self.response_topic.values_len(8))
            .saturating_add(self.correlation_data.values_len(9))
            .saturating_add(self.user_properties.values_len(38))
            .saturating_add(self.subscription_identifiers.values_len(11))
            .saturating_add(self.content_type.values_len(3))
    }

    fn put_set(&self, out: &mut BytesMut) {
        self.payload_format_indicator.put_values(1, out);
        self.message_expiry_interval.put_values(2, out);
        self.topic_alias.put_values(35, out);
        self.response_topic.put_values(8, out);
        self.correlation_data.put_values(9, out);
        self.user_properties.put_values(38, out);
        self.subscription_identifiers.put_values(11, out);
        self.content_type.put_values(3, out);
    }

    fn set_known(&self) {
        self.payload_format_indicator.values_known();
        self.message_expiry_interval.values_known();
        self.topic_alias.values_known();
        self.response_topic.values_known();
        self.correlation_data.values_known();
        self.user_properties.values_known();
        self.subscription_identifiers.values_known();
        self.content_type.values_known();
    }
}

impl PropertyBlock for PublishProperties {}

/// A Publish (MQTT 5.0 section 3.3).
#[derive(Debug, Clone, PartialEq, Eq, Drop)]
pub struct Publish {
    /// Whether it is sent again.
    pub dup: bool,
    /// How often it is delivered.
    pub qos: QoS,
    /// Whether the server keeps it for later subscriptions.
    pub retain: bool,
    /// Bytes that aren't judged, up to 65,535 to be written.
    pub topic: Bytes,
    /// The packet identifier. Of QoS 0 it is neither read nor written; of QoS 1 and 2 it isn't 0
    /// where it is read or written.
    pub pkid: u16,
    /// What is left of the frame.
    pub payload: Bytes,
    /// An empty set is read again as None.
    pub properties: Option<PublishProperties>,
}

/// The packet identifier, where the QoS is 1 or 2; else 0.
fn read_pkid(qos: QoS, stream: &mut Bytes) -> Result<u16, Error>
    ensures { Finds (λ n. (plain (number n), stream.new)) result
        (optional_at (nat_lt 0 (qos_number qos)) (checked u16 not_zero (λ _. Error.PacketIdZero))
        (plain (number 0)) stream.old) }
{
    if qos == QoS::AtMostOnce {
        return Ok(0);
    }
    let pkid = read_u16(stream)?;
    if pkid == 0 {
        return Err(Error::PacketIdZero);
    }
    Ok(pkid)
}

impl Publish {
    /// A Publish of this topic, QoS, payload and properties, without dup and retain and with packet
    /// identifier 0. E21.
    pub fn new(
        alloc: Global,
        topic: &str,
        qos: QoS,
        payload: Bytes,
        properties: Option<PublishProperties>,
    ) -> Result<Publish, Error>
        ensures ok { IfOk result
            (λ p. p ≡ record {
              dup = false;
              qos = qos;
              retain = false;
              topic = topic.now;
              pkid = 0;
              payload = payload;
              properties = properties;
            }) }
        ensures err { IfErr result (λ e. e ≡ Error.OutOfMemory) }
    {
        Ok(Publish {
            dup: false,
            qos,
            retain: false,
            topic: Bytes::copy_from_slice(alloc, topic.as_bytes())?,
            pkid: 0,
            payload,
            properties,
        })
    }

    #[inline(always)]
    #[tactic(auto, using(mqtt5_base::proofs::Bits::bit_of_mod))]
    fn read_values(alloc: Global, header: FixedHeader, bytes: Bytes) -> Result<Publish, Error>
        requires { length bytes ≡ header.fixed_header_len + header.remaining_len }
        ensures { Gives (λ p. content_of_packet (publish_packet p)) result
            (values_in publish_row header.byte1 header.remaining_len
            (drop header.fixed_header_len bytes)) }
    {
        let mut stream = bytes;
        stream.advance(header.fixed_header_len);
        let qos = read_qos(header.byte1 / 2 % 4)?;
        let topic = read_bytes(&mut stream)?;
        let pkid = read_pkid(qos, &mut stream)?;
        let properties = read_block(alloc, &mut stream)?;
        Ok(Publish {
            dup: header.byte1 / 8 % 2 == 1,
            qos,
            retain: header.byte1 % 2 == 1,
            topic,
            pkid,
            payload: stream,
            properties,
        })
    }

    /// The Publish of a frame's bytes, of which the header is. E7 of a QoS of 3, E9 of a packet
    /// identifier 0 where the QoS is 1 or 2, E14 to E18 of a field that can't be read; E21.
    #[inline(always)]
    #[tactic(auto, using(mqtt5_base::proofs::AnswersLemmas::row_said))]
    pub fn read(alloc: Global, header: FixedHeader, bytes: Bytes) -> Result<Publish, Error>
        requires { length bytes ≡ header.fixed_header_len + header.remaining_len }
        ensures row { ReadsRow (λ p. content_of_packet (publish_packet p)) publish_row header bytes
            result }
        ensures values { Gives (λ p. content_of_packet (publish_packet p)) result
            (values_in publish_row header.byte1 header.remaining_len
            (drop header.fixed_header_len bytes)) }
    {
        Publish::read_values(alloc, header, bytes)
    }

    fn body_len(&self) -> usize
        ensures { result ≡ min (length (body_bytes publish_row (publish_packet self.now)))
            usize.MAX }
    {
        let id_len: usize = if self.qos == QoS::AtMostOnce || self.pkid == 0 {
            0
        } else {
            2
        };
        self.topic
            .field_len()
            .saturating_add(id_len)
            .saturating_add(block_len(&self.properties))
            .saturating_add(self.payload.len())
    }

    fn first_byte(&self) -> u8
        ensures { result ≡ publish_first self.now }
    {
        let dup: u8 = if self.dup { 8 } else { 0 };
        let retain: u8 = if self.retain { 1 } else { 0 };
        0x30 + dup + 2 * (self.qos as u8) + retain
    }

    fn put_body(&self, out: &mut BytesMut)
        requires short { atom_fits bytes (content self.now.topic) ≡ true }
        requires fits { block_fits publish_table (option_map publish_found self.now.properties)
            ≡ true }
        requires room { length (body_bytes publish_row (publish_packet self.now)) ≤ out.old.spare }
        ensures { Puts out.old out.new (body_bytes publish_row (publish_packet self.now)) }
    {
        self.topic.put_field(out);
        if self.qos != QoS::AtMostOnce && self.pkid != 0 {
            self.pkid.put_field(out);
        }
        put_block(&self.properties, out);
        out.extend_reserved(self.payload.as_slice());
    }

    /// Appends the Publish and answers its length. E11 where the topic, a text or bytes of a property are
    /// over 65,535 bytes, or a subscription identifier, the properties or the body over 268,435,455;
    /// else E9 where the QoS is 1 or 2 and the packet identifier 0; E21. The buffer is then unchanged.
    pub fn write(&self, buffer: &mut BytesMut) -> Result<usize, Error>
        ensures { Writes length (writing publish_row (publish_packet self.now)) result
            buffer.old.items buffer.new.items }
    {
        if !self.topic.fits() || !block_fits(&self.properties) {
            return Err(Error::PayloadTooLong);
        }
        let len = self.body_len();
        if !len.fits() {
            return Err(Error::PayloadTooLong);
        }
        if self.qos != QoS::AtMostOnce && self.pkid == 0 {
            return Err(Error::PacketIdZero);
        }
        let size = start_frame(self.first_byte(), len, buffer)?;
        self.put_body(buffer);
        Ok(size)
    }

    /// How many bytes it takes, or the greatest `usize` where they are more; a packet identifier 0 is
    /// counted as none. Takes no memory.
    pub fn size(&self) -> usize
        ensures { result ≡ min (length (layout publish_row (publish_packet self.now))) usize.MAX }
    {
        frame_size(self.body_len())
    }
}
