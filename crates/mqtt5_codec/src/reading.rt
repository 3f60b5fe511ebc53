//! A packet of each type from its frame. Each answer is made where its type is known, and is handed up as it
//! is: it is large, and each change of its form is a copy.

ghost use Rattle.std.specs.Prelude.{◌≡◌, ◌/◌, ◌<◌, drop, MatchResult};
ghost use Rattle.mqtt5_base.specs.Headers.{IsHeader};
ghost use Rattle.mqtt5_codec.specs.Taken.{ReadsBody};

use crate::packet::Packet;
use bytes::Bytes;
use mqtt5_base::{Error, FixedHeader};
use mqtt5_connect::Connect;
use mqtt5_control::{Auth, ConnAck, Disconnect};
use mqtt5_publish::{PingReq, PingResp, PubAck, PubComp, PubRec, PubRel, Publish};
use mqtt5_subscribe::{SubAck, Subscribe, UnsubAck, Unsubscribe};
use std::alloc::Global;

/// E13 of a frame without a body.
fn needs_body(header: FixedHeader) -> Result<(), Error>
    ensures { MatchResult result (λ _. 0 < header.remaining_len)
        (λ e. (header.remaining_len ≡ 0) × (e ≡ Error.PayloadRequired)) }
{
    if header.remaining_len == 0 {
        return Err(Error::PayloadRequired);
    }
    Ok(())
}

#[inline(always)]
#[tactic(auto, unfolding(mqtt5_base::specs::Reading::frame_values))]
pub(crate) fn read_connect(
    alloc: Global,
    header: FixedHeader,
    frame: Bytes,
) -> Result<Option<Packet>, Error>
    requires header { IsHeader header frame }
    requires kind { header.byte1 / 16 ≡ 1 }
    ensures { ReadsBody result header.byte1 (drop header.fixed_header_len frame) }
{
    needs_body(header)?;
    let (connect, will, login) = Connect::read(alloc, header, frame)?;
    Ok(Some(Packet::Connect(connect, will, login)))
}

#[inline(always)]
#[tactic(auto, unfolding(mqtt5_base::specs::Reading::frame_values))]
pub(crate) fn read_connack(
    alloc: Global,
    header: FixedHeader,
    frame: Bytes,
) -> Result<Option<Packet>, Error>
    requires header { IsHeader header frame }
    requires kind { header.byte1 / 16 ≡ 2 }
    ensures { ReadsBody result header.byte1 (drop header.fixed_header_len frame) }
{
    needs_body(header)?;
    Ok(Some(Packet::ConnAck(ConnAck::read(alloc, header, frame)?)))
}

#[inline(always)]
#[tactic(auto, unfolding(mqtt5_base::specs::Reading::frame_values))]
pub(crate) fn read_publish(
    alloc: Global,
    header: FixedHeader,
    frame: Bytes,
) -> Result<Option<Packet>, Error>
    requires header { IsHeader header frame }
    requires kind { header.byte1 / 16 ≡ 3 }
    ensures { ReadsBody result header.byte1 (drop header.fixed_header_len frame) }
{
    needs_body(header)?;
    Ok(Some(Packet::Publish(Publish::read(alloc, header, frame)?)))
}

#[inline(always)]
#[tactic(auto, unfolding(mqtt5_base::specs::Reading::frame_values))]
pub(crate) fn read_puback(
    alloc: Global,
    header: FixedHeader,
    frame: Bytes,
) -> Result<Option<Packet>, Error>
    requires header { IsHeader header frame }
    requires kind { header.byte1 / 16 ≡ 4 }
    ensures { ReadsBody result header.byte1 (drop header.fixed_header_len frame) }
{
    needs_body(header)?;
    Ok(Some(Packet::PubAck(PubAck::read(alloc, header, frame)?)))
}

#[inline(always)]
#[tactic(auto, unfolding(mqtt5_base::specs::Reading::frame_values))]
pub(crate) fn read_pubrec(
    alloc: Global,
    header: FixedHeader,
    frame: Bytes,
) -> Result<Option<Packet>, Error>
    requires header { IsHeader header frame }
    requires kind { header.byte1 / 16 ≡ 5 }
    ensures { ReadsBody result header.byte1 (drop header.fixed_header_len frame) }
{
    needs_body(header)?;
    Ok(Some(Packet::PubRec(PubRec::read(alloc, header, frame)?)))
}

#[inline(always)]
#[tactic(auto, unfolding(mqtt5_base::specs::Reading::frame_values))]
pub(crate) fn read_pubrel(
    alloc: Global,
    header: FixedHeader,
    frame: Bytes,
) -> Result<Option<Packet>, Error>
    requires header { IsHeader header frame }
    requires kind { header.byte1 / 16 ≡ 6 }
    ensures { ReadsBody result header.byte1 (drop header.fixed_header_len frame) }
{
    needs_body(header)?;
    Ok(Some(Packet::PubRel(PubRel::read(alloc, header, frame)?)))
}

#[inline(always)]
#[tactic(auto, unfolding(mqtt5_base::specs::Reading::frame_values))]
pub(crate) fn read_pubcomp(
    alloc: Global,
    header: FixedHeader,
    frame: Bytes,
) -> Result<Option<Packet>, Error>
    requires header { IsHeader header frame }
    requires kind { header.byte1 / 16 ≡ 7 }
    ensures { ReadsBody result header.byte1 (drop header.fixed_header_len frame) }
{
    needs_body(header)?;
    Ok(Some(Packet::PubComp(PubComp::read(alloc, header, frame)?)))
}

#[inline(always)]
#[tactic(auto, unfolding(mqtt5_base::specs::Reading::frame_values))]
pub(crate) fn read_subscribe(
    alloc: Global,
    header: FixedHeader,
    frame: Bytes,
) -> Result<Option<Packet>, Error>
    requires header { IsHeader header frame }
    requires kind { header.byte1 / 16 ≡ 8 }
    ensures { ReadsBody result header.byte1 (drop header.fixed_header_len frame) }
{
    needs_body(header)?;
    Ok(Some(Packet::Subscribe(Subscribe::read(alloc, header, frame)?)))
}

#[inline(always)]
#[tactic(auto, unfolding(mqtt5_base::specs::Reading::frame_values))]
pub(crate) fn read_suback(
    alloc: Global,
    header: FixedHeader,
    frame: Bytes,
) -> Result<Option<Packet>, Error>
    requires header { IsHeader header frame }
    requires kind { header.byte1 / 16 ≡ 9 }
    ensures { ReadsBody result header.byte1 (drop header.fixed_header_len frame) }
{
    needs_body(header)?;
    Ok(Some(Packet::SubAck(SubAck::read(alloc, header, frame)?)))
}

#[inline(always)]
#[tactic(auto, unfolding(mqtt5_base::specs::Reading::frame_values))]
pub(crate) fn read_unsubscribe(
    alloc: Global,
    header: FixedHeader,
    frame: Bytes,
) -> Result<Option<Packet>, Error>
    requires header { IsHeader header frame }
    requires kind { header.byte1 / 16 ≡ 10 }
    ensures { ReadsBody result header.byte1 (drop header.fixed_header_len frame) }
{
    needs_body(header)?;
    Ok(Some(Packet::Unsubscribe(Unsubscribe::read(alloc, header, frame)?)))
}

#[inline(always)]
#[tactic(auto, unfolding(mqtt5_base::specs::Reading::frame_values))]
pub(crate) fn read_unsuback(
    alloc: Global,
    header: FixedHeader,
    frame: Bytes,
) -> Result<Option<Packet>, Error>
    requires header { IsHeader header frame }
    requires kind { header.byte1 / 16 ≡ 11 }
    ensures { ReadsBody result header.byte1 (drop header.fixed_header_len frame) }
{
    needs_body(header)?;
    Ok(Some(Packet::UnsubAck(UnsubAck::read(alloc, header, frame)?)))
}

#[inline(always)]
#[tactic(auto, unfolding(mqtt5_base::specs::Reading::frame_values))]
pub(crate) fn read_disconnect(
    alloc: Global,
    header: FixedHeader,
    frame: Bytes,
) -> Result<Option<Packet>, Error>
    requires header { IsHeader header frame }
    requires kind { header.byte1 / 16 ≡ 14 }
    ensures { ReadsBody result header.byte1 (drop header.fixed_header_len frame) }
{
    Ok(Some(Packet::Disconnect(Disconnect::read(alloc, header, frame)?)))
}

#[inline(always)]
#[tactic(auto, unfolding(mqtt5_base::specs::Reading::frame_values))]
pub(crate) fn read_auth(
    alloc: Global,
    header: FixedHeader,
    frame: Bytes,
) -> Result<Option<Packet>, Error>
    requires header { IsHeader header frame }
    requires kind { header.byte1 / 16 ≡ 15 }
    ensures { ReadsBody result header.byte1 (drop header.fixed_header_len frame) }
{
    Ok(Some(Packet::Auth(Auth::read(alloc, header, frame)?)))
}

#[inline(always)]
#[tactic(auto, unfolding(mqtt5_base::specs::Reading::frame_values))]
pub(crate) fn read_pingreq(header: FixedHeader, frame: Bytes) -> Result<Option<Packet>, Error>
    requires header { IsHeader header frame }
    requires kind { header.byte1 / 16 ≡ 12 }
    ensures { ReadsBody result header.byte1 (drop header.fixed_header_len frame) }
{
    drop(frame);
    Ok(Some(Packet::PingReq(PingReq)))
}

#[inline(always)]
#[tactic(auto, unfolding(mqtt5_base::specs::Reading::frame_values))]
pub(crate) fn read_pingresp(header: FixedHeader, frame: Bytes) -> Result<Option<Packet>, Error>
    requires header { IsHeader header frame }
    requires kind { header.byte1 / 16 ≡ 13 }
    ensures { ReadsBody result header.byte1 (drop header.fixed_header_len frame) }
{
    drop(frame);
    Ok(Some(Packet::PingResp(PingResp)))
}
