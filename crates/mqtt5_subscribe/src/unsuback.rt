//! The answer to an Unsubscribe.

ghost use Rattle.std.specs.Prelude.{◌≡◌, ◌+◌, [], drop, length, min};
ghost use Rattle.mqtt5_base.specs.Grammar.{checked, u8, number};
ghost use Rattle.mqtt5_base.specs.Answers.{Finds, Gives, ReadsRow};
ghost use Rattle.mqtt5_base.specs.Reading.{judged, values_in};
ghost use Rattle.mqtt5_base.specs.Puts.{Writes};
ghost use Rattle.mqtt5_base.specs.Layout.{layout, writing, content_of_packet};
ghost use Rattle.mqtt5_subscribe.specs.Rows.{unsuback_codes, unsuback_row};
ghost use Rattle.mqtt5_subscribe.specs.UnsubAcks.{unsuback_code, unsuback_item, unsuback_packet};

use crate::list_body::{listed_size, read_some, write_some};
use crate::listed::Listed;
use bytes::{Bytes, BytesMut};
use mqtt5_base::{AckProperties, Error, FieldValue, FixedHeader, Sequence, read_u8};
use std::alloc::Global;

/// What became of one filter of an Unsubscribe: codes 0, 17, 128, 131, 135, 143 and 145, in this order
/// (MQTT 5.0 section 3.11.3).
#[derive(Debug, Clone, Copy, PartialEq, Eq)]
pub enum UnsubAckReason {
    Success,
    NoSubscriptionExisted,
    UnspecifiedError,
    ImplementationSpecificError,
    NotAuthorized,
    TopicFilterInvalid,
    PacketIdentifierInUse,
}

/// The reason of a code, or E8.
fn reason(num: u8) -> Result<UnsubAckReason, Error>
    ensures { Finds (λ r. number (unsuback_code r)) result
        (judged unsuback_codes Error.InvalidSubscribeReasonCode (number num)) }
{
    Ok(match num {
        0 => UnsubAckReason::Success,
        17 => UnsubAckReason::NoSubscriptionExisted,
        128 => UnsubAckReason::UnspecifiedError,
        131 => UnsubAckReason::ImplementationSpecificError,
        135 => UnsubAckReason::NotAuthorized,
        143 => UnsubAckReason::TopicFilterInvalid,
        145 => UnsubAckReason::PacketIdentifierInUse,
        _ => return Err(Error::InvalidSubscribeReasonCode(num)),
    })
}

impl UnsubAckReason {
    /// The reason's code.
    pub fn code(self) -> u8
        ensures { result ≡ unsuback_code self }
    {
        match self {
            UnsubAckReason::Success => 0,
            UnsubAckReason::NoSubscriptionExisted => 17,
            UnsubAckReason::UnspecifiedError => 128,
            UnsubAckReason::ImplementationSpecificError => 131,
            UnsubAckReason::NotAuthorized => 135,
            UnsubAckReason::TopicFilterInvalid => 143,
            UnsubAckReason::PacketIdentifierInUse => 145,
        }
    }
}

impl Listed for UnsubAckReason {
    ghost use Rattle.mqtt5_base.specs.declared.error.Error.TheVariants.{InvalidSubscribeReasonCode};

    ghost first = { checked u8 unsuback_codes InvalidSubscribeReasonCode };

    ghost others = { [] };

    ghost written = { unsuback_item };

    ghost settled = { λ r. r };

    fn read_item(_alloc: Global, stream: &mut Bytes) -> Result<UnsubAckReason, Error> {
        let num = read_u8(stream)?;
        reason(num)
    }

    fn item_fits(&self) -> bool {
        true
    }

    #[tactic(auto, using(crate::proofs::Codes::unsuback_known))]
    fn item_len(&self) -> usize {
        1
    }

    #[tactic(auto, using(crate::proofs::Codes::unsuback_known))]
    fn put_item(&self, out: &mut BytesMut) {
        self.code().put_field(out);
    }
}

/// The properties of an UnsubAck (MQTT 5.0 section 3.11.2.1).
pub type UnsubAckProperties = AckProperties;

/// An UnsubAck (MQTT 5.0 section 3.11).
#[derive(Debug, Clone, PartialEq, Eq, Drop)]
pub struct UnsubAck {
    /// That of the Unsubscribe. It isn't judged.
    pub pkid: u16,
    /// One of each filter, in order; one at least where it is read or written.
    pub reasons: Sequence<UnsubAckReason>,
    /// An empty set is read again as None.
    pub properties: Option<UnsubAckProperties>,
}

impl UnsubAck {
    /// The UnsubAck of a frame's bytes, of which the header is. E16 without reason codes, E8 with a
    /// reason code that an UnsubAck doesn't have, E14 to E18 of a field that can't be read; E21.
    #[tactic(auto, using(mqtt5_base::proofs::AnswersLemmas::row_said))]
    pub fn read(alloc: Global, header: FixedHeader, bytes: Bytes) -> Result<UnsubAck, Error>
        requires { length bytes ≡ header.fixed_header_len + header.remaining_len }
        ensures row { ReadsRow (λ p. content_of_packet (unsuback_packet p)) unsuback_row header
            bytes result }
        ensures values { Gives (λ p. content_of_packet (unsuback_packet p)) result
            (values_in unsuback_row header.byte1 header.remaining_len
            (drop header.fixed_header_len bytes)) }
    {
        let (pkid, properties, reasons) = read_some(alloc, header, bytes, Error::MalformedPacket)?;
        Ok(UnsubAck {
            pkid,
            reasons,
            properties,
        })
    }

    /// Appends the UnsubAck and answers its length. E11 where a text is over 65,535 bytes, or the
    /// properties or the body over 268,435,455; else E16 without reason codes; E21. The buffer is then
    /// unchanged.
    pub fn write(&self, buffer: &mut BytesMut) -> Result<usize, Error>
        ensures { Writes length (writing unsuback_row (unsuback_packet self.now)) result
            buffer.old.items buffer.new.items }
    {
        write_some(
            0xB0,
            self.pkid,
            &self.properties,
            &self.reasons,
            Error::MalformedPacket,
            buffer,
        )
    }

    /// How many bytes it takes, or the greatest `usize` where they are more. Takes no memory.
    pub fn size(&self) -> usize
        ensures { result ≡ min (length (layout unsuback_row (unsuback_packet self.now))) usize.MAX }
    {
        listed_size(&self.properties, &self.reasons)
    }
}
