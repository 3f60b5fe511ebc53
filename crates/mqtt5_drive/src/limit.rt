//! The longest packet that the broker takes.

ghost use Rattle.std.specs.Prelude.{◌≡◌, ◌+◌, drop};
ghost use Rattle.mqtt5_drive.specs.Limit.{size_in, size_after, size_allowed, codec_after};

use mqtt5_codec::{Codec, Packet};
use mqtt5_control::{ConnAckProperties, ConnectReturnCode};
use mqtt5_session::Event;
use std::collections::VecDeque;

/// Sets the codec's outgoing limit to what the ConnAcks of success say among the events from this place on, the last
/// of them where there are several; one that says none sets it to None. Without such a ConnAck it stays. Takes no
/// memory.
pub fn take_limit(codec: &mut Codec, events: &VecDeque<Event>, from: usize)
    ensures { codec.new ≡ codec_after (drop from events.now.items) codec.old }
{
    codec.max_outgoing_size = size_allowed(events, from, codec.max_outgoing_size);
}

/// What the properties of a ConnAck say; where they don't, there is no limit.
fn size_in(properties: &Option<ConnAckProperties>) -> Option<u32>
    ensures { result ≡ size_in properties.now }
{
    match properties {
        Some(set) => set.max_packet_size,
        None => None,
    }
}

/// The limit after an event.
fn size_after(event: &Event, limit: Option<u32>) -> Option<u32>
    ensures { result ≡ size_after event.now limit }
{
    match event {
        Event::Incoming(Packet::ConnAck(ack)) => {
            if ack.code == ConnectReturnCode::Success {
                return size_in(&ack.properties);
            }
            limit
        }
        _other => limit,
    }
}

/// The limit after the event at this place.
fn size_at(events: &VecDeque<Event>, place: usize, limit: Option<u32>) -> Option<u32>
    ensures { size_allowed (drop place events.now.items) limit
        ≡ size_allowed (drop (place + 1) events.now.items) result }
{
    match events.get(place) {
        Some(event) => size_after(event, limit),
        None => limit,
    }
}

/// The limit after the events from this place on.
fn size_allowed(events: &VecDeque<Event>, from: usize, limit: Option<u32>) -> Option<u32>
    ensures { result ≡ size_allowed (drop from events.now.items) limit }
{
    let mut allowed = limit;
    for place in from..events.len() {
        allowed = size_at(events, place, allowed);
    }
    allowed
}
