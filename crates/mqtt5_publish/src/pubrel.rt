//! The answer to a PubRec: the publish of QoS 2 is released.

ghost use Rattle.std.specs.Prelude.{◌≡◌, ◌+◌, ◌≤◌, Some, None, length, min, option_map, drop};
ghost use Rattle.mqtt5_base.specs.Answers.{Gives, ReadsRow};
ghost use Rattle.mqtt5_base.specs.Reading.{values_in};
ghost use Rattle.mqtt5_base.specs.Puts.{Writes};
ghost use Rattle.mqtt5_base.specs.Layout.{layout, writing, content_of_packet};
ghost use Rattle.mqtt5_publish.specs.Rows.{pubrel_codes, pubrel_row};
ghost use Rattle.mqtt5_publish.specs.Acks.{pubrel_code, pubrel_packet};

use crate::ack::{Reason, ack_size, read_ack, write_ack};
use bytes::{Bytes, BytesMut};
use mqtt5_base::{AckProperties, Error, FixedHeader};
use std::alloc::Global;

/// Why a publish is released so: codes 0 and 146 (MQTT 5.0 section 3.6.2.1).
#[derive(Debug, Clone, Copy, PartialEq, Eq)]
pub enum PubRelReason {
    Success,
    PacketIdentifierNotFound,
}

impl PubRelReason {
    /// The reason's code.
    pub fn code(self) -> u8
        ensures { result ≡ pubrel_code self }
    {
        match self {
            PubRelReason::Success => 0,
            PubRelReason::PacketIdentifierNotFound => 146,
        }
    }
}

impl Reason for PubRelReason {
    ghost use Rattle.mqtt5_publish.specs.Known.{pubrel_known};

    ghost codes = { pubrel_codes };

    ghost code = { pubrel_code };

    ghost known = { pubrel_known };

    fn of(num: u8) -> Result<PubRelReason, Error> {
        match num {
            0 => Ok(PubRelReason::Success),
            146 => Ok(PubRelReason::PacketIdentifierNotFound),
            _ => Err(Error::InvalidConnectReturnCode(num)),
        }
    }

    fn code(self) -> u8 {
        PubRelReason::code(self)
    }

    fn success() -> PubRelReason {
        PubRelReason::Success
    }
}

/// The properties of a PubRel (MQTT 5.0 section 3.6.2.2).
pub type PubRelProperties = AckProperties;

/// A PubRel (MQTT 5.0 section 3.6).
#[derive(Debug, Clone, PartialEq, Eq, Drop)]
pub struct PubRel {
    /// The packet identifier of the publish. It isn't judged.
    pub pkid: u16,
    /// What became of it.
    pub reason: PubRelReason,
    /// An empty set is read again as None.
    pub properties: Option<PubRelProperties>,
}

impl PubRel {
    /// A PubRel with Success. Takes no memory.
    pub fn new(pkid: u16, properties: Option<PubRelProperties>) -> PubRel
        ensures { result
            ≡ record { pkid = pkid; reason = PubRelReason.Success; properties = properties } }
    {
        PubRel {
            pkid,
            reason: PubRelReason::Success,
            properties,
        }
    }

    /// The PubRel of a frame's bytes, of which the header is. E14 to E18 of a field that can't be read,
    /// then E1 with a reason code that a PubRel doesn't have; E21.
    #[tactic(auto, using(mqtt5_base::proofs::AnswersLemmas::row_said))]
    pub fn read(alloc: Global, header: FixedHeader, bytes: Bytes) -> Result<PubRel, Error>
        requires { length bytes ≡ header.fixed_header_len + header.remaining_len }
        ensures row { ReadsRow (λ p. content_of_packet (pubrel_packet p)) pubrel_row header bytes
            result }
        ensures values { Gives (λ p. content_of_packet (pubrel_packet p)) result
            (values_in pubrel_row header.byte1 header.remaining_len
            (drop header.fixed_header_len bytes)) }
    {
        let (pkid, reason, properties) = read_ack(alloc, header, bytes)?;
        Ok(PubRel {
            pkid,
            reason,
            properties,
        })
    }

    /// Appends the PubRel and answers its length; with Success and without properties that is 4.
    /// E11 where a text is over 65,535 bytes, or the properties or the body over 268,435,455; E21. The
    /// buffer is then unchanged.
    pub fn write(&self, buffer: &mut BytesMut) -> Result<usize, Error>
        ensures { Writes length (writing pubrel_row (pubrel_packet self.now)) result
            buffer.old.items buffer.new.items }
    {
        write_ack(0x62, self.pkid, self.reason, &self.properties, buffer)
    }

    /// How many bytes it takes, or the greatest `usize` where they are more. Takes no memory.
    pub fn size(&self) -> usize
        ensures { result ≡ min (length (layout pubrel_row (pubrel_packet self.now))) usize.MAX }
    {
        ack_size(self.reason, &self.properties)
    }
}
