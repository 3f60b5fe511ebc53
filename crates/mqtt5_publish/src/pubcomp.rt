//! The answer to a PubRel, and the end of a publish of QoS 2.

ghost use Rattle.std.specs.Prelude.{◌≡◌, ◌+◌, ◌≤◌, Some, None, length, min, option_map, drop};
ghost use Rattle.mqtt5_base.specs.Answers.{Gives, ReadsRow};
ghost use Rattle.mqtt5_base.specs.Reading.{values_in};
ghost use Rattle.mqtt5_base.specs.Puts.{Writes};
ghost use Rattle.mqtt5_base.specs.Layout.{layout, writing, content_of_packet};
ghost use Rattle.mqtt5_publish.specs.Rows.{pubrel_row};
ghost use Rattle.mqtt5_publish.specs.Acks.{pubcomp_packet};

use crate::ack::{ack_size, read_ack, write_ack};
use crate::pubrel::PubRelReason;
use bytes::{Bytes, BytesMut};
use mqtt5_base::{AckProperties, Error, FixedHeader};
use std::alloc::Global;

/// Why a PubRel is answered so: as of a PubRel (MQTT 5.0 section 3.7.2.1).
pub type PubCompReason = PubRelReason;

/// The properties of a PubComp (MQTT 5.0 section 3.7.2.2).
pub type PubCompProperties = AckProperties;

/// A PubComp (MQTT 5.0 section 3.7).
#[derive(Debug, Clone, PartialEq, Eq, Drop)]
pub struct PubComp {
    /// The packet identifier of the publish. It isn't judged.
    pub pkid: u16,
    /// What became of it.
    pub reason: PubCompReason,
    /// An empty set is read again as None.
    pub properties: Option<PubCompProperties>,
}

impl PubComp {
    /// A PubComp with Success. Takes no memory.
    pub fn new(pkid: u16, properties: Option<PubCompProperties>) -> PubComp
        ensures { result
            ≡ record { pkid = pkid; reason = PubRelReason.Success; properties = properties } }
    {
        PubComp {
            pkid,
            reason: PubCompReason::Success,
            properties,
        }
    }

    /// The PubComp of a frame's bytes, of which the header is. E14 to E18 of a field that can't be read,
    /// then E1 with a reason code that a PubComp doesn't have; E21.
    #[tactic(auto, using(mqtt5_base::proofs::AnswersLemmas::row_said))]
    pub fn read(alloc: Global, header: FixedHeader, bytes: Bytes) -> Result<PubComp, Error>
        requires { length bytes ≡ header.fixed_header_len + header.remaining_len }
        ensures row { ReadsRow (λ p. content_of_packet (pubcomp_packet p)) pubrel_row header bytes
            result }
        ensures values { Gives (λ p. content_of_packet (pubcomp_packet p)) result
            (values_in pubrel_row header.byte1 header.remaining_len
            (drop header.fixed_header_len bytes)) }
    {
        let (pkid, reason, properties) = read_ack(alloc, header, bytes)?;
        Ok(PubComp {
            pkid,
            reason,
            properties,
        })
    }

    /// Appends the PubComp and answers its length; with Success and without properties that is 4.
    /// E11 where a text is over 65,535 bytes, or the properties or the body over 268,435,455; E21. The
    /// buffer is then unchanged.
    pub fn write(&self, buffer: &mut BytesMut) -> Result<usize, Error>
        ensures { Writes length (writing pubrel_row (pubcomp_packet self.now)) result
            buffer.old.items buffer.new.items }
    {
        write_ack(0x70, self.pkid, self.reason, &self.properties, buffer)
    }

    /// How many bytes it takes, or the greatest `usize` where they are more. Takes no memory.
    pub fn size(&self) -> usize
        ensures { result ≡ min (length (layout pubrel_row (pubcomp_packet self.now))) usize.MAX }
    {
        ack_size(self.reason, &self.properties)
    }
}
