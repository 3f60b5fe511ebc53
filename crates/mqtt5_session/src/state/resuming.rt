//! What is sent again on a new connection.

ghost use Rattle.std.specs.Prelude.{◌≡◌, ◌+◌, ◌≤◌, ◌++◌, IfOk, OnErr, OnOk, length};
ghost use Rattle.std.specs.List.{filter_map};
ghost use Rattle.std.specs.VecDeque.{deque_len, deque_capacity};
ghost use Rattle.mqtt5_inflight.specs.InUse.{IsWithin};
ghost use Rattle.mqtt5_session.specs.Resuming.{with_dup, Resumes};
ghost use Rattle.mqtt5_session.specs.Again.{event_for, moment_after, resumed};

use super::MqttState;
use mqtt5_codec::Packet;
use mqtt5_inflight::{Event, Outgoing, StateError};
use std::collections::VecDeque;

impl MqttState {
    /// Sends again what a clean would give, and leaves it in place as it was sent.
    pub(super) fn send_again(&mut self, at: u64) -> Result<Vec<Packet>, StateError>
        ensures sends { Resumes result self.old self.new (resumed self.old at) }
        ensures core { OnOk result (self.new.core ≡ with_dup self.old.core) }
        ensures kept { OnErr result (self.new.core ≡ self.old.core) }
        ensures within { IsWithin self.old.core.limit self.old.core.in_use }
    {
        let max = self.alias_max;
        if let Some(alias) = self.slots.alias_over(max) {
            return Err(StateError::InvalidAlias { alias, max });
        }
        let packets = self.slots.packets()?;
        self.events.reserve(packets.len())?;
        tell_all(&mut self.events, &packets);
        self.slots.mark_again();
        self.last_outgoing = moment_after(&packets, self.last_outgoing, at);
        self.awaits_ping = false;
        self.collision_pings = 0;
        Ok(packets)
    }
}

/// Tells of each packet.
fn tell_all(events: &mut VecDeque<Event>, packets: &Vec<Packet>)
    requires room { deque_len events.old + length packets.now.items ≤ deque_capacity events.old }
    ensures { events.new.items ≡ events.old.items ++ filter_map event_for packets.now.items }
{
    for packet in packets {
        if let Some(event) = event_for(packet) {
            events.push_back_reserved(event);
        }
    }
}

/// What is told of a packet that is sent again.
fn event_for(packet: &Packet) -> Option<Event>
    ensures { result ≡ event_for packet.now }
{
    match packet {
        Packet::Publish(publish) => Some(Event::Outgoing(Outgoing::Publish(publish.pkid))),
        Packet::PubRel(release) => Some(Event::Outgoing(Outgoing::PubRel(release.pkid))),
        _other => None,
    }
}

/// The moment of the last request, once packets were sent.
fn moment_after(packets: &Vec<Packet>, last: u64, at: u64) -> u64
    ensures { result ≡ moment_after packets.now.items last at }
{
    if packets.is_empty() { last } else { at }
}
