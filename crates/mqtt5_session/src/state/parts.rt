//! A session made of its parts.

ghost use Rattle.std.specs.Prelude.{◌≡◌, ◌<◌, ◌≤◌, ◌++◌, ℕ, List, IfOk, OnOk, map};
ghost use Rattle.std.specs.FinSet as set;
ghost use Rattle.mqtt5_inflight.specs.InUse.{HasId};
ghost use Rattle.mqtt5_session.specs.Freeing.{IsCounted};
ghost use Rattle.mqtt5_session.specs.Packets.{pubrec_of};
ghost use Rattle.mqtt5_session.specs.Parts.{IsCore, Makes, AddsTo, are_numbers, blank_core, core_of_parts, may_wait, numbers_of, stored_packets, add_packet, add_packets, add_publish, add_slot, session_of};

use super::MqttState;
use crate::packed::as_pubrec;
use crate::parts::{Numbers, PartsError};
use mqtt5_base::QoS;
use mqtt5_codec::Packet;
use mqtt5_inflight::{Aliases, Ids, Slot, Slots};
use mqtt5_publish::{PubRec, Publish};
use std::alloc::{AllocError, Global};
use std::collections::VecDeque;

impl MqttState {
    /// The session's numbers, and whether the user sends the acks. Takes no memory.
    pub fn numbers(&self) -> Numbers
        ensures numbers { result ≡ numbers_of self.now.core }
        ensures core { IsCore self.now.core }
    {
        let _count = self.slots.len();
        Numbers {
            limit: self.slots.limit(),
            current: self.current,
            last: self.last_pkid,
            alias_max: self.alias_max,
            manual_acks: self.manual_acks,
        }
    }

    /// The packets that tell of the session: what `clean` would give, and then a PubRec for each id of the broker's
    /// publishes that it hasn't released. Err where memory is refused.
    pub fn stored_packets(&self, alloc: Global) -> Result<Vec<Packet>, AllocError>
        ensures { IfOk result (λ v. (ids : List ℕ)
            × (set.from_list ids ≡ self.now.core.incoming)
            × (v.items ≡ stored_packets self.now.core ids)) }
    {
        let ids = self.incoming.list(alloc)?;
        let mut packets = self.slots.packets()?;
        push_recs(&mut packets, &ids)?;
        Ok(packets)
    }

    /// A session of these numbers and this publish that waits, of which the packets tell the rest: a Publish awaits its
    /// ack, a PubRel is of an id that is released, a PubRec of an id of the broker's publishes. Nothing happened in it, and
    /// no alias is known. `BadNumbers`; `NotStored`, also where what waits is of QoS 0; `OutOfRange` and `Twice` of an id in
    /// use: the first of these. Or memory is refused.
    pub fn of_parts(
        alloc: Global,
        numbers: Numbers,
        waiting: Option<Publish>,
        packets: Vec<Packet>,
    ) -> Result<MqttState, PartsError>
        ensures { Makes result (core_of_parts numbers waiting packets.items) }
    {
        if !are_numbers(numbers) {
            drop(waiting);
            drop(packets);
            return Err(PartsError::BadNumbers);
        }
        if !may_wait(&waiting) {
            drop(waiting);
            drop(packets);
            return Err(PartsError::NotStored);
        }
        let mut state = MqttState::of_numbers(alloc, numbers, waiting);
        match state.add_packets(packets) {
            Ok(_) => Ok(state),
            Err(fault) => {
                drop(state);
                Err(fault)
            }
        }
    }

    /// A session of these numbers and this publish that waits.
    fn of_numbers(alloc: Global, numbers: Numbers, waiting: Option<Publish>) -> MqttState
        requires last { numbers.last < numbers.limit }
        requires current { numbers.current ≤ numbers.limit }
        requires waits { IsCounted waiting }
        ensures { result ≡ session_of (blank_core numbers waiting) }
    {
        MqttState {
            slots: Slots::new(alloc, numbers.limit),
            waiting,
            last_pkid: numbers.last,
            current: numbers.current,
            aliases: Aliases::new(alloc),
            alias_max: numbers.alias_max,
            manual_acks: numbers.manual_acks,
            incoming: Ids::new(alloc),
            awaits_ping: false,
            collision_pings: 0,
            events: VecDeque::new(alloc),
            last_incoming: 0,
            last_outgoing: 0,
        }
    }

    /// Takes what packets tell of.
    fn add_packets(&mut self, packets: Vec<Packet>) -> Result<(), PartsError>
        ensures { AddsTo result self.old self.new (add_packets self.old.core packets.items) }
    {
        for packet in packets {
            self.add_packet(packet)?;
        }
        Ok(())
    }

    /// Takes what a packet tells of.
    fn add_packet(&mut self, packet: Packet) -> Result<(), PartsError>
        ensures { AddsTo result self.old self.new (add_packet self.old.core packet) }
    {
        match packet {
            Packet::Publish(publish) => self.add_publish(publish),
            Packet::PubRel(release) => self.add_slot(release.pkid, Slot::Released),
            Packet::PubRec(ack) => self.add_incoming(ack.pkid),
            other => {
                drop(other);
                Err(PartsError::NotStored)
            }
        }
    }

    /// A publish that awaits its ack.
    fn add_publish(&mut self, publish: Publish) -> Result<(), PartsError>
        ensures { AddsTo result self.old self.new (add_publish publish.qos self.old.core publish) }
    {
        if publish.qos == QoS::AtMostOnce {
            drop(publish);
            return Err(PartsError::NotStored);
        }
        let id = publish.pkid;
        self.add_slot(id, Slot::Sent(publish))
    }

    /// An id in use, and what is known of it.
    fn add_slot(&mut self, id: u16, slot: Slot) -> Result<(), PartsError>
        requires { HasId id slot }
        ensures { AddsTo result self.old self.new (add_slot self.old.core id slot) }
    {
        if id == 0 || id > self.slots.limit() {
            drop(slot);
            return Err(PartsError::OutOfRange(id));
        }
        if self.slots.contains(id) {
            drop(slot);
            return Err(PartsError::Twice(id));
        }
        self.slots.insert(id, slot)?;
        Ok(())
    }

    /// An id of the broker's publishes.
    fn add_incoming(&mut self, id: u16) -> Result<(), PartsError>
        ensures { AddsTo result self.old self.new (Ok
            (record self.old.core { incoming = set.insert self.old.core.incoming id })) }
    {
        self.incoming.insert(id)?;
        Ok(())
    }
}

/// AddsTo a PubRec for each id.
fn push_recs(packets: &mut Vec<Packet>, ids: &Vec<u16>) -> Result<(), AllocError>
    ensures { OnOk result (packets.new.items ≡ packets.old.items ++ map pubrec_of ids.now.items) }
{
    for id in ids {
        packets.push(as_pubrec(PubRec::new(*id, None)))?;
    }
    Ok(())
}

/// Whether a session can have these numbers.
fn are_numbers(numbers: Numbers) -> bool
    ensures { result ≡ are_numbers numbers }
{
    numbers.last < numbers.limit && numbers.current <= numbers.limit
}

/// Whether this may wait.
fn may_wait(waiting: &Option<Publish>) -> bool
    ensures { result ≡ may_wait waiting.now }
{
    match waiting {
        Some(publish) => publish.qos != QoS::AtMostOnce,
        None => true,
    }
}
