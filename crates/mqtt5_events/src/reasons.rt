//! Reason codes.

ghost use Rattle.std.specs.Prelude.{◌≡◌, option_map, slice_get};
ghost use Rattle.mqtt5_subscribe.specs.SubAcks.{suback_code};
ghost use Rattle.mqtt5_subscribe.specs.UnsubAcks.{unsuback_code};
ghost use Rattle.mqtt5_events.specs.Reasons.{only, reason_of, reason_in};

use mqtt5_codec::Packet;
use mqtt5_inflight::Event;
use mqtt5_subscribe::{SubscribeReasonCode, UnsubAckReason};

/// The one code of a packet.
fn only(code: u8, index: usize) -> Option<u8>
    ensures { result ≡ only code index }
{
    if index == 0 { Some(code) } else { None }
}

fn suback_reason(codes: &[SubscribeReasonCode], index: usize) -> Option<u8>
    ensures { result ≡ option_map suback_code (slice_get codes.now index) }
{
    match codes.get(index) {
        Some(code) => Some(code.code()),
        None => None,
    }
}

fn unsuback_reason(reasons: &[UnsubAckReason], index: usize) -> Option<u8>
    ensures { result ≡ option_map unsuback_code (slice_get reasons.now index) }
{
    match reasons.get(index) {
        Some(reason) => Some(reason.code()),
        None => None,
    }
}

fn packet_reason(packet: &Packet, index: usize) -> Option<u8>
    ensures { result ≡ reason_of packet.now index }
{
    match packet {
        Packet::ConnAck(ack) => only(ack.code.code(), index),
        Packet::PubAck(ack) => only(ack.reason.code(), index),
        Packet::PubRec(ack) => only(ack.reason.code(), index),
        Packet::PubRel(release) => only(release.reason.code(), index),
        Packet::PubComp(ack) => only(ack.reason.code(), index),
        Packet::SubAck(ack) => suback_reason(ack.return_codes.as_slice(), index),
        Packet::UnsubAck(ack) => unsuback_reason(ack.reasons.as_slice(), index),
        Packet::Disconnect(disconnect) => only(disconnect.reason_code.code(), index),
        Packet::Auth(auth) => only(auth.code.code(), index),
        _other => None,
    }
}

/// The reason code at a place, from 0 on, of a packet that came: of a SubAck and an UnsubAck one for each filter, in their
/// order, of another packet one where its type has it. None where it isn't there. Takes no memory.
pub fn reason_in(event: &Event, index: usize) -> Option<u8>
    ensures { result ≡ reason_in event.now index }
{
    match event {
        Event::Incoming(packet) => packet_reason(packet, index),
        Event::Outgoing(_) => None,
    }
}
