//! The answer to a publish of QoS 1.

ghost use Rattle.std.specs.Prelude.{◌≡◌, ◌+◌, ◌≤◌, Some, None, length, min, option_map, drop};
ghost use Rattle.mqtt5_base.specs.Answers.{Gives, ReadsRow};
ghost use Rattle.mqtt5_base.specs.Reading.{values_in};
ghost use Rattle.mqtt5_base.specs.Puts.{Writes};
ghost use Rattle.mqtt5_base.specs.Layout.{layout, writing, content_of_packet};
ghost use Rattle.mqtt5_publish.specs.Rows.{puback_codes, puback_row};
ghost use Rattle.mqtt5_publish.specs.Acks.{puback_code, puback_packet};

use crate::ack::{Reason, ack_size, read_ack, write_ack};
use bytes::{Bytes, BytesMut};
use mqtt5_base::{AckProperties, Error, FixedHeader};
use std::alloc::Global;

/// Why a publish is answered so: codes 0, 16, 128, 131, 135, 144, 145, 151 and 153, in this order (MQTT
/// 5.0 section 3.4.2.1).
#[derive(Debug, Clone, Copy, PartialEq, Eq)]
pub enum PubAckReason {
    Success,
    NoMatchingSubscribers,
    UnspecifiedError,
    ImplementationSpecificError,
    NotAuthorized,
    TopicNameInvalid,
    PacketIdentifierInUse,
    QuotaExceeded,
    PayloadFormatInvalid,
}

impl PubAckReason {
    /// The reason's code.
    pub fn code(self) -> u8
        ensures { result ≡ puback_code self }
    {
        match self {
            PubAckReason::Success => 0,
            PubAckReason::NoMatchingSubscribers => 16,
            PubAckReason::UnspecifiedError => 128,
            PubAckReason::ImplementationSpecificError => 131,
            PubAckReason::NotAuthorized => 135,
            PubAckReason::TopicNameInvalid => 144,
            PubAckReason::PacketIdentifierInUse => 145,
            PubAckReason::QuotaExceeded => 151,
            PubAckReason::PayloadFormatInvalid => 153,
        }
    }
}

impl Reason for PubAckReason {
    ghost use Rattle.mqtt5_publish.specs.Known.{puback_known};

    ghost codes = { puback_codes };

    ghost code = { puback_code };

    ghost known = { puback_known };

    fn of(num: u8) -> Result<PubAckReason, Error> {
        Ok(match num {
            0 => PubAckReason::Success,
            16 => PubAckReason::NoMatchingSubscribers,
            128 => PubAckReason::UnspecifiedError,
            131 => PubAckReason::ImplementationSpecificError,
            135 => PubAckReason::NotAuthorized,
            144 => PubAckReason::TopicNameInvalid,
            145 => PubAckReason::PacketIdentifierInUse,
            151 => PubAckReason::QuotaExceeded,
            153 => PubAckReason::PayloadFormatInvalid,
            _ => return Err(Error::InvalidConnectReturnCode(num)),
        })
    }

    fn code(self) -> u8 {
        PubAckReason::code(self)
    }

    fn success() -> PubAckReason {
        PubAckReason::Success
    }
}

/// The properties of a PubAck (MQTT 5.0 section 3.4.2.2).
pub type PubAckProperties = AckProperties;

/// A PubAck (MQTT 5.0 section 3.4).
#[derive(Debug, Clone, PartialEq, Eq, Drop)]
pub struct PubAck {
    /// The packet identifier of the publish. It isn't judged.
    pub pkid: u16,
    /// What became of it.
    pub reason: PubAckReason,
    /// An empty set is read again as None.
    pub properties: Option<PubAckProperties>,
}

impl PubAck {
    /// A PubAck with Success. Takes no memory.
    pub fn new(pkid: u16, properties: Option<PubAckProperties>) -> PubAck
        ensures { result
            ≡ record { pkid = pkid; reason = PubAckReason.Success; properties = properties } }
    {
        PubAck {
            pkid,
            reason: PubAckReason::Success,
            properties,
        }
    }

    /// The PubAck of a frame's bytes, of which the header is. E14 to E18 of a field that can't be read,
    /// then E1 with a reason code that a PubAck doesn't have; E21.
    #[tactic(auto, using(mqtt5_base::proofs::AnswersLemmas::row_said))]
    pub fn read(alloc: Global, header: FixedHeader, bytes: Bytes) -> Result<PubAck, Error>
        requires { length bytes ≡ header.fixed_header_len + header.remaining_len }
        ensures row { ReadsRow (λ p. content_of_packet (puback_packet p)) puback_row header bytes
            result }
        ensures values { Gives (λ p. content_of_packet (puback_packet p)) result
            (values_in puback_row header.byte1 header.remaining_len
            (drop header.fixed_header_len bytes)) }
    {
        let (pkid, reason, properties) = read_ack(alloc, header, bytes)?;
        Ok(PubAck {
            pkid,
            reason,
            properties,
        })
    }

    /// Appends the PubAck and answers its length; with Success and without properties that is 4.
    /// E11 where a text is over 65,535 bytes, or the properties or the body over 268,435,455; E21. The
    /// buffer is then unchanged.
    pub fn write(&self, buffer: &mut BytesMut) -> Result<usize, Error>
        ensures { Writes length (writing puback_row (puback_packet self.now)) result
            buffer.old.items buffer.new.items }
    {
        write_ack(0x40, self.pkid, self.reason, &self.properties, buffer)
    }

    /// How many bytes it takes, or the greatest `usize` where they are more. Takes no memory.
    pub fn size(&self) -> usize
        ensures { result ≡ min (length (layout puback_row (puback_packet self.now))) usize.MAX }
    {
        ack_size(self.reason, &self.properties)
    }
}
