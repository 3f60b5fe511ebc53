//! The call that takes an event out.

ghost use Rattle.std.specs.Prelude.{◌≡◌, ◌≤◌, None, Some, IsNone, IsSome, IfSome, length, slice_get, true};
ghost use Rattle.mqtt5_c.specs.Events.{came, sent, publish_told, connack_told, first_sub, first_unsub, packet_told, outgoing_told, event_told, first_told, topic_in, payload_in, first_topic, first_payload, both_fit, has_room, over, over_if, Pops, PopsIn};
ghost use Rattle.mqtt5_c.specs.Handles.{IsKept};
ghost use Rattle.mqtt5_c.specs.Numbers.{no_client};

use crate::handle::{Handle, put, take};
use crate::number::{NO_CLIENT, SMALL_BUFFER};
use mqtt5_base::QoS;
use mqtt5_client::{Client, Event};
use mqtt5_codec::Packet;
use mqtt5_control::ConnAck;
use mqtt5_inflight::Outgoing;
use mqtt5_publish::Publish;
use mqtt5_subscribe::{SubscribeReasonCode, UnsubAckReason};
use std::alloc::Global;
use std::collections::VecDeque;

/// An event, or a request that was let go, as numbers. What it hasn't is 0.
#[repr(C)]
#[derive(Clone, Copy)]
pub struct EventInfo {
    /// 0: there is none; 1: a packet came; 2: one was answered to send; 3: a publish waits until its packet identifier
    /// is free; 4: a request was let go.
    pub kind: u32,
    /// The packet's type (MQTT 5.0 section 2.1.2), as 3 of a Publish.
    pub packet: u32,
    /// The packet identifier.
    pub pkid: u32,
    /// The reason code of a ConnAck, a Disconnect, a PubAck or a PubRec, or of the first filter of a SubAck or an
    /// UnsubAck.
    pub code: u32,
    /// The QoS of a Publish that came or was let go.
    pub qos: u32,
    /// Whether that Publish is sent again.
    pub dup: bool,
    /// Whether the broker had kept a Publish that came, or is to keep one that was let go.
    pub retain: bool,
    /// Of a ConnAck, whether the broker has the session.
    pub session_present: bool,
    /// How many bytes the topic of that Publish has.
    pub topic_len: usize,
    /// How many bytes its payload has.
    pub payload_len: usize,
}

/// No event.
pub(crate) const NOTHING: EventInfo = EventInfo {
    kind: 0,
    packet: 0,
    pkid: 0,
    code: 0,
    qos: 0,
    dup: false,
    retain: false,
    session_present: false,
    topic_len: 0,
    payload_len: 0,
};

/// A packet of a type that came, with its identifier and its reason code.
pub(crate) fn came(packet: u32, pkid: u16, code: u8) -> EventInfo
    ensures { result ≡ came packet pkid code }
{
    EventInfo {
        kind: 1,
        packet,
        pkid: u32::from(pkid),
        code: u32::from(code),
        ..NOTHING
    }
}

/// A Publish that came.
pub(crate) fn publish_told(publish: &Publish) -> EventInfo
    ensures { result ≡ publish_told publish.now }
{
    EventInfo {
        qos: match publish.qos {
            QoS::AtMostOnce => 0,
            QoS::AtLeastOnce => 1,
            QoS::ExactlyOnce => 2,
        },
        dup: publish.dup,
        retain: publish.retain,
        topic_len: publish.topic.len(),
        payload_len: publish.payload.len(),
        ..came(3, publish.pkid, 0)
    }
}

/// A ConnAck that came.
fn connack_told(ack: &ConnAck) -> EventInfo
    ensures { result ≡ connack_told ack.now }
{
    EventInfo {
        session_present: ack.session_present,
        ..came(2, 0, ack.code.code())
    }
}

/// The code of the first filter.
fn first_sub(codes: &[SubscribeReasonCode]) -> u8
    ensures { result ≡ first_sub codes.now }
{
    match codes.first() {
        Some(code) => code.code(),
        None => 0,
    }
}

/// The code of the first filter.
fn first_unsub(reasons: &[UnsubAckReason]) -> u8
    ensures { result ≡ first_unsub reasons.now }
{
    match reasons.first() {
        Some(reason) => reason.code(),
        None => 0,
    }
}

/// A packet that came.
fn packet_told(packet: &Packet) -> EventInfo
    ensures { result ≡ packet_told packet.now }
{
    match packet {
        Packet::Connect(_, _, _) => came(1, 0, 0),
        Packet::ConnAck(ack) => connack_told(ack),
        Packet::Publish(publish) => publish_told(publish),
        Packet::PubAck(ack) => came(4, ack.pkid, ack.reason.code()),
        Packet::PubRec(ack) => came(5, ack.pkid, ack.reason.code()),
        Packet::PubRel(ack) => came(6, ack.pkid, 0),
        Packet::PubComp(ack) => came(7, ack.pkid, 0),
        Packet::Subscribe(subscribe) => came(8, subscribe.pkid, 0),
        Packet::SubAck(ack) => came(9, ack.pkid, first_sub(ack.return_codes.as_slice())),
        Packet::Unsubscribe(unsubscribe) => came(10, unsubscribe.pkid, 0),
        Packet::UnsubAck(ack) => came(11, ack.pkid, first_unsub(ack.reasons.as_slice())),
        Packet::PingReq(_) => came(12, 0, 0),
        Packet::PingResp(_) => came(13, 0, 0),
        Packet::Disconnect(disconnect) => came(14, 0, disconnect.reason_code.code()),
        Packet::Auth(_) => came(15, 0, 0),
    }
}

/// A packet that was answered to send.
fn sent(packet: u32, pkid: u16) -> EventInfo
    ensures { result ≡ sent packet pkid }
{
    EventInfo {
        kind: 2,
        ..came(packet, pkid, 0)
    }
}

/// What was answered to send.
fn outgoing_told(outgoing: &Outgoing) -> EventInfo
    ensures { result ≡ outgoing_told outgoing.now }
{
    match outgoing {
        Outgoing::Publish(pkid) => sent(3, *pkid),
        Outgoing::PubAck(pkid) => sent(4, *pkid),
        Outgoing::PubRec(pkid) => sent(5, *pkid),
        Outgoing::PubRel(pkid) => sent(6, *pkid),
        Outgoing::PubComp(pkid) => sent(7, *pkid),
        Outgoing::Subscribe(pkid) => sent(8, *pkid),
        Outgoing::Unsubscribe(pkid) => sent(10, *pkid),
        Outgoing::PingReq => sent(12, 0),
        Outgoing::Disconnect => sent(14, 0),
        Outgoing::Auth => sent(15, 0),
        Outgoing::AwaitAck(pkid) => EventInfo {
            kind: 3,
            ..came(3, *pkid, 0)
        },
    }
}

/// The event as numbers.
fn event_told(event: &Event) -> EventInfo
    ensures { result ≡ event_told event.now }
{
    match event {
        Event::Incoming(packet) => packet_told(packet),
        Event::Outgoing(outgoing) => outgoing_told(outgoing),
    }
}

/// The topic of a Publish that came; of another event nothing.
fn topic_in(event: &Event) -> &[u8]
    ensures { result.now ≡ topic_in event.now }
{
    match event {
        Event::Incoming(Packet::Publish(publish)) => publish.topic.as_slice(),
        _other => &[],
    }
}

/// The payload of a Publish that came; of another event nothing.
fn payload_in(event: &Event) -> &[u8]
    ensures { result.now ≡ payload_in event.now }
{
    match event {
        Event::Incoming(Packet::Publish(publish)) => publish.payload.as_slice(),
        _other => &[],
    }
}

/// Copies bytes over the beginning of a buffer that has room for them.
pub(crate) fn copy_over(buffer: &mut [u8], bytes: &[u8])
    requires { length bytes.now ≤ length buffer.old }
    ensures { buffer.new ≡ over bytes.now buffer.old }
{
    buffer[..bytes.len()].copy_from_slice(bytes);
}

/// Whether a topic and a payload fit into buffers of these lengths.
fn both_fit(topic: &[u8], payload: &[u8], topic_len: usize, payload_len: usize) -> bool
    ensures { result ≡ both_fit topic.now payload.now topic_len payload_len }
{
    topic.len() <= topic_len && payload.len() <= payload_len
}

/// Copies a topic and a payload where both fit; answers whether they do.
pub(crate) fn copy_both(
    from_topic: &[u8],
    from_payload: &[u8],
    topic: &mut [u8],
    payload: &mut [u8],
) -> bool
    ensures room { result
        ≡ both_fit from_topic.now from_payload.now (length topic.old) (length payload.old) }
    ensures topic { topic.new
        ≡ over_if (both_fit from_topic.now from_payload.now (length topic.old) (length payload.old))
        from_topic.now topic.old }
    ensures payload { payload.new
        ≡ over_if (both_fit from_topic.now from_payload.now (length topic.old) (length payload.old))
        from_payload.now payload.old }
{
    if !both_fit(from_topic, from_payload, topic.len(), payload.len()) {
        return false;
    }
    copy_over(topic, from_topic);
    copy_over(payload, from_payload);
    true
}

/// Tells of the oldest event and copies its topic and payload, where they fit; answers whether they do.
fn show(
    events: &VecDeque<Event>,
    info: &mut EventInfo,
    topic: &mut [u8],
    payload: &mut [u8],
) -> bool
    ensures told { info.new ≡ first_told (slice_get events.now.items 0) }
    ensures room { result ≡ has_room (slice_get events.now.items 0) (length topic.old)
        (length payload.old) }
    ensures topic { topic.new
        ≡ over_if (has_room (slice_get events.now.items 0) (length topic.old) (length payload.old))
        (first_topic (slice_get events.now.items 0)) topic.old }
    ensures payload { payload.new
        ≡ over_if (has_room (slice_get events.now.items 0) (length topic.old) (length payload.old))
        (first_payload (slice_get events.now.items 0)) payload.old }
{
    let Some(event) = events.front() else {
        *info = NOTHING;
        return true;
    };
    *info = event_told(event);
    copy_both(topic_in(event), payload_in(event), topic, payload)
}

/// Shows the oldest event, and takes it out where its topic and payload fit.
fn pop(client: &mut Client, info: &mut EventInfo, topic: &mut [u8], payload: &mut [u8]) -> u32
    ensures told { info.new ≡ first_told (slice_get client.old.state.events 0) }
    ensures pops { Pops (has_room (slice_get client.old.state.events 0) (length topic.old)
        (length payload.old)) client.old result client.new }
    ensures topic { topic.new
        ≡ over_if (has_room (slice_get client.old.state.events 0) (length topic.old)
        (length payload.old)) (first_topic (slice_get client.old.state.events 0)) topic.old }
    ensures payload { payload.new
        ≡ over_if (has_room (slice_get client.old.state.events 0) (length topic.old)
        (length payload.old)) (first_payload (slice_get client.old.state.events 0)) payload.old }
{
    if !show(client.state.events(), info, topic, payload) {
        return SMALL_BUFFER;
    }
    client.next_event();
    0
}

/// Tells of the oldest event, copies the topic and the payload of a Publish that came, and takes the event out. 0, also where
/// there is no event; 203 where a buffer is too small: what was told says how many bytes are needed, and the event stays.
#[unsafe(no_mangle)]
pub extern "C" fn mqtt5_client_next_event(
    alloc: Global,
    h: &mut Handle,
    info: &mut EventInfo,
    topic: &mut [u8],
    payload: &mut [u8],
) -> u32
    requires { IsKept h.old }
    ensures kept { IsKept h.new }
    ensures none { IsNone h.old.client_ptr.value → (result ≡ no_client)
        × (h.new.client_ptr.value ≡ None) }
    ensures told { IfSome h.old.client_ptr.value
        (λ x. info.new ≡ first_told (slice_get x.client.state.events 0)) }
    ensures pops { IfSome h.old.client_ptr.value (λ x. PopsIn (has_room
        (slice_get x.client.state.events 0) (length topic.old) (length payload.old)) x result
        h.new.client_ptr.value) }
    ensures topic { IfSome h.old.client_ptr.value (λ x. topic.new
        ≡ over_if (has_room (slice_get x.client.state.events 0) (length topic.old)
        (length payload.old)) (first_topic (slice_get x.client.state.events 0)) topic.old) }
    ensures payload { IfSome h.old.client_ptr.value (λ x. payload.new
        ≡ over_if (has_room (slice_get x.client.state.events 0) (length topic.old)
        (length payload.old)) (first_payload (slice_get x.client.state.events 0)) payload.old) }
{
    let Some(mut holder) = take(alloc, h) else {
        return NO_CLIENT;
    };
    let code = pop(&mut holder.client, info, topic, payload);
    put(h, holder);
    code
}
