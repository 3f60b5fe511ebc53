//! The answer to a Subscribe.

ghost use Rattle.std.specs.Prelude.{◌≡◌, ◌+◌, [], map, drop, length, min, IfOk};
ghost use Rattle.mqtt5_base.specs.Grammar.{checked, u8, number};
ghost use Rattle.mqtt5_base.specs.Answers.{Finds, Gives, ReadsRow};
ghost use Rattle.mqtt5_base.specs.Reading.{judged, values_in};
ghost use Rattle.mqtt5_base.specs.Puts.{Writes};
ghost use Rattle.mqtt5_base.specs.Layout.{layout, writing, content_of_packet};
ghost use Rattle.mqtt5_subscribe.specs.Rows.{suback_codes, suback_row};
ghost use Rattle.mqtt5_subscribe.specs.SubAcks.{suback_code, suback_item, suback_packet, suback_settled};

use crate::list_body::{listed_size, read_some, write_some};
use crate::listed::Listed;
use bytes::{Bytes, BytesMut};
use mqtt5_base::{AckProperties, Error, FieldValue, FixedHeader, QoS, Sequence, read_u8};
use std::alloc::Global;

/// What became of one filter of a Subscribe: codes 0 to 2 of a success, and 128, 128, 131, 135, 143, 145,
/// 151, 158, 161 and 162, in this order (MQTT 5.0 section 3.9.3). `Failure` is written as `Unspecified`
/// is, and never read.
#[derive(Debug, Clone, Copy, PartialEq, Eq)]
pub enum SubscribeReasonCode {
    /// The subscription was made, with this QoS at most.
    Success(QoS),
    Failure,
    Unspecified,
    ImplementationSpecific,
    NotAuthorized,
    TopicFilterInvalid,
    PkidInUse,
    QuotaExceeded,
    SharedSubscriptionsNotSupported,
    SubscriptionIdNotSupported,
    WildcardSubscriptionsNotSupported,
}

/// The reason of a code, or E8.
fn reason(num: u8) -> Result<SubscribeReasonCode, Error>
    ensures read { Finds (λ r. number (suback_code r)) result
        (judged suback_codes Error.InvalidSubscribeReasonCode (number num)) }
    ensures known { IfOk result (λ r. suback_settled r ≡ r) }
{
    Ok(match num {
        0 => SubscribeReasonCode::Success(QoS::AtMostOnce),
        1 => SubscribeReasonCode::Success(QoS::AtLeastOnce),
        2 => SubscribeReasonCode::Success(QoS::ExactlyOnce),
        128 => SubscribeReasonCode::Unspecified,
        131 => SubscribeReasonCode::ImplementationSpecific,
        135 => SubscribeReasonCode::NotAuthorized,
        143 => SubscribeReasonCode::TopicFilterInvalid,
        145 => SubscribeReasonCode::PkidInUse,
        151 => SubscribeReasonCode::QuotaExceeded,
        158 => SubscribeReasonCode::SharedSubscriptionsNotSupported,
        161 => SubscribeReasonCode::SubscriptionIdNotSupported,
        162 => SubscribeReasonCode::WildcardSubscriptionsNotSupported,
        _ => return Err(Error::InvalidSubscribeReasonCode(num)),
    })
}

impl SubscribeReasonCode {
    /// The reason's code.
    pub fn code(self) -> u8
        ensures { result ≡ suback_code self }
    {
        match self {
            SubscribeReasonCode::Success(qos) => qos as u8,
            SubscribeReasonCode::Failure => 128,
            SubscribeReasonCode::Unspecified => 128,
            SubscribeReasonCode::ImplementationSpecific => 131,
            SubscribeReasonCode::NotAuthorized => 135,
            SubscribeReasonCode::TopicFilterInvalid => 143,
            SubscribeReasonCode::PkidInUse => 145,
            SubscribeReasonCode::QuotaExceeded => 151,
            SubscribeReasonCode::SharedSubscriptionsNotSupported => 158,
            SubscribeReasonCode::SubscriptionIdNotSupported => 161,
            SubscribeReasonCode::WildcardSubscriptionsNotSupported => 162,
        }
    }
}

impl Listed for SubscribeReasonCode {
    ghost use Rattle.mqtt5_base.specs.declared.error.Error.TheVariants.{InvalidSubscribeReasonCode};

    ghost first = { checked u8 suback_codes InvalidSubscribeReasonCode };

    ghost others = { [] };

    ghost written = { suback_item };

    ghost settled = { suback_settled };

    fn read_item(_alloc: Global, stream: &mut Bytes) -> Result<SubscribeReasonCode, Error> {
        let num = read_u8(stream)?;
        reason(num)
    }

    fn item_fits(&self) -> bool {
        true
    }

    #[tactic(auto, using(crate::proofs::Codes::suback_known))]
    fn item_len(&self) -> usize {
        1
    }

    #[tactic(auto, using(crate::proofs::Codes::suback_known))]
    fn put_item(&self, out: &mut BytesMut) {
        self.code().put_field(out);
    }
}

/// The properties of a SubAck (MQTT 5.0 section 3.9.2.1).
pub type SubAckProperties = AckProperties;

/// A SubAck (MQTT 5.0 section 3.9).
#[derive(Debug, Clone, PartialEq, Eq, Drop)]
pub struct SubAck {
    /// That of the Subscribe. It isn't judged.
    pub pkid: u16,
    /// One of each filter, in order; one at least where it is read or written.
    pub return_codes: Sequence<SubscribeReasonCode>,
    /// An empty set is read again as None.
    pub properties: Option<SubAckProperties>,
}

impl SubAck {
    /// The SubAck of a frame's bytes, of which the header is; no code is `Failure`. E16 without reason
    /// codes, E8 with a reason code that a SubAck doesn't have, E14 to E18 of a field that can't be
    /// read; E21.
    #[tactic(auto, using(mqtt5_base::proofs::AnswersLemmas::row_said))]
    pub fn read(alloc: Global, header: FixedHeader, bytes: Bytes) -> Result<SubAck, Error>
        requires { length bytes ≡ header.fixed_header_len + header.remaining_len }
        ensures row { ReadsRow (λ p. content_of_packet (suback_packet p)) suback_row header bytes
            result }
        ensures values { Gives (λ p. content_of_packet (suback_packet p)) result
            (values_in suback_row header.byte1 header.remaining_len
            (drop header.fixed_header_len bytes)) }
        ensures known { IfOk result (λ p. map suback_settled p.return_codes ≡ p.return_codes) }
    {
        let (pkid, properties, return_codes) = read_some(
            alloc,
            header,
            bytes,
            Error::MalformedPacket,
        )?;
        Ok(SubAck {
            pkid,
            return_codes,
            properties,
        })
    }

    /// Appends the SubAck and answers its length. E11 where a text is over 65,535 bytes, or the
    /// properties or the body over 268,435,455; else E16 without reason codes; E21. The buffer is then
    /// unchanged.
    pub fn write(&self, buffer: &mut BytesMut) -> Result<usize, Error>
        ensures { Writes length (writing suback_row (suback_packet self.now)) result
            buffer.old.items buffer.new.items }
    {
        write_some(
            0x90,
            self.pkid,
            &self.properties,
            &self.return_codes,
            Error::MalformedPacket,
            buffer,
        )
    }

    /// How many bytes it takes, or the greatest `usize` where they are more. Takes no memory.
    pub fn size(&self) -> usize
        ensures { result ≡ min (length (layout suback_row (suback_packet self.now))) usize.MAX }
    {
        listed_size(&self.properties, &self.return_codes)
    }
}
