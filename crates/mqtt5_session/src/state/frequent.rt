//! The packets that come most: what each does beside its event is found while the packet is lent, and so it is
//! moved once.

ghost use Rattle.std.specs.Prelude.{◌≡◌, ◌+◌, ◌<◌, ◌≤◌, [], ◌∷◌, ◌++◌, IfSome, OnOk, OnErr, if◌then◌else◌};
ghost use Rattle.std.specs.FinMap as map;
ghost use Rattle.std.specs.VecDeque.{deque_len, deque_capacity};
ghost use Rattle.mqtt5_base.specs.declared.quality.QoS.TheVariants.{ExactlyOnce};
ghost use Rattle.mqtt5_inflight.specs.Aliases.{alias_of};
ghost use Rattle.mqtt5_session.specs.Packets.{with_incoming};
ghost use Rattle.mqtt5_session.specs.Frequent.{in_use_by, ids_by, awaits_by, outgoing_of, events_by, does, FitsIn, IsAll};

use super::MqttState;
use super::packets::is_taken;
use crate::reply::Reply;
use mqtt5_base::QoS;
use mqtt5_codec::Packet;
use mqtt5_inflight::{Event, Ids, Outgoing, Slot, Slots, alias_of};
use mqtt5_publish::{PubAck, PubComp, PubCompReason, PubRec, PubRel, PubRelReason, Publish};
use std::alloc::AllocError;
use std::collections::VecDeque;

/// What a packet changes beside the events.
#[derive(Clone, Copy)]
pub(super) enum Change {
    Nothing,
    /// A ping is answered.
    Pong,
    /// An id in use becomes free.
    Free(u16),
    /// An id in use is released.
    Release(u16),
    /// An id of the broker is kept.
    Keep(u16),
    /// An id of the broker is released.
    Complete(u16),
}

/// What a packet does beside its event.
#[derive(Clone, Copy)]
pub(super) struct Effect {
    pub(super) change: Change,
    pub(super) reply: Reply,
}

impl MqttState {
    /// What a packet does beside its event; None for one that may do more.
    #[inline(never)]
    #[tactic(auto, unfolding(crate::specs::Packets::on_packet))]
    pub(super) fn prepare(&self, packet: &Packet, at: u64) -> Option<Effect>
        ensures { IfSome result (λ e. IsAll self.now packet.now at e) }
    {
        match packet {
            Packet::Publish(publish) => self.prepare_publish(publish, at),
            Packet::PubAck(ack) => self.prepare_puback(ack, at),
            Packet::PubRec(ack) => self.prepare_pubrec(ack, at),
            Packet::PubRel(release) => self.prepare_pubrel(release, at),
            Packet::PubComp(ack) => self.prepare_pubcomp(ack, at),
            Packet::PingResp(_answer) => Some(Effect {
                change: Change::Pong,
                reply: Reply::Nothing,
            }),
            _other => None,
        }
    }

    /// A publish without an alias.
    #[tactic(auto, unfolding(crate::specs::Packets::on_packet))]
    fn prepare_publish(&self, publish: &Publish, at: u64) -> Option<Effect>
        ensures { IfSome result (λ e. IsAll self.now (Packet.Publish publish.now) at e) }
    {
        if alias_of(publish).is_some() {
            return None;
        }
        match publish.qos {
            QoS::AtMostOnce => Some(Effect {
                change: Change::Nothing,
                reply: Reply::Nothing,
            }),
            QoS::AtLeastOnce => Some(Effect {
                change: Change::Nothing,
                reply: self.unless_manual(Reply::PubAck(publish.pkid)),
            }),
            QoS::ExactlyOnce => self.prepare_exactly(publish, at),
        }
    }

    /// A publish of QoS 2 without an alias, unless it is a duplicate.
    #[tactic(auto, unfolding(crate::specs::Packets::on_packet))]
    fn prepare_exactly(&self, publish: &Publish, at: u64) -> Option<Effect>
        requires plain { alias_of publish.now ≡ None }
        requires exactly { publish.now.qos ≡ ExactlyOnce }
        ensures { IfSome result (λ e. IsAll self.now (Packet.Publish publish.now) at e) }
    {
        let id = publish.pkid;
        if self.incoming.contains(id) {
            return None;
        }
        Some(Effect {
            change: Change::Keep(id),
            reply: self.unless_manual(Reply::PubRec(id)),
        })
    }

    /// An ack, unless the user sends it.
    fn unless_manual(&self, ack: Reply) -> Reply
        ensures { result ≡ if self.now.core.manual_acks then Reply.Nothing else ack }
    {
        if self.manual_acks {
            Reply::Nothing
        } else {
            ack
        }
    }

    /// The ack of a publish, while none waits.
    #[tactic(auto, unfolding(crate::specs::Packets::on_packet))]
    fn prepare_puback(&self, ack: &PubAck, at: u64) -> Option<Effect>
        ensures { IfSome result (λ e. IsAll self.now (Packet.PubAck ack.now) at e) }
    {
        let id = ack.pkid;
        if self.waiting.is_some() || self.slots.sent(id).is_none() {
            return None;
        }
        Some(Effect {
            change: Change::Free(id),
            reply: Reply::Nothing,
        })
    }

    /// The first ack of a publish that was taken.
    #[tactic(auto, unfolding(crate::specs::Packets::on_packet))]
    fn prepare_pubrec(&self, ack: &PubRec, at: u64) -> Option<Effect>
        ensures { IfSome result (λ e. IsAll self.now (Packet.PubRec ack.now) at e) }
    {
        let id = ack.pkid;
        if !is_taken(ack.reason) || self.slots.sent(id).is_none() {
            return None;
        }
        Some(Effect {
            change: Change::Release(id),
            reply: Reply::PubRel(id),
        })
    }

    /// The release of an id that is there.
    #[tactic(auto, unfolding(crate::specs::Packets::on_packet))]
    fn prepare_pubrel(&self, release: &PubRel, at: u64) -> Option<Effect>
        ensures { IfSome result (λ e. IsAll self.now (Packet.PubRel release.now) at e) }
    {
        let id = release.pkid;
        if release.reason != PubRelReason::Success || !self.incoming.contains(id) {
            return None;
        }
        Some(Effect {
            change: Change::Complete(id),
            reply: Reply::PubComp(id, PubCompReason::Success),
        })
    }

    /// The ack of a release, while no publish waits.
    #[tactic(auto, unfolding(crate::specs::Packets::on_packet))]
    fn prepare_pubcomp(&self, ack: &PubComp, at: u64) -> Option<Effect>
        ensures { IfSome result (λ e. IsAll self.now (Packet.PubComp ack.now) at e) }
    {
        let id = ack.pkid;
        if self.waiting.is_some() || !self.slots.is_released(id) {
            return None;
        }
        Some(Effect {
            change: Change::Free(id),
            reply: Reply::Nothing,
        })
    }

    /// Tells of a packet, and does what it does beside that.
    #[inline(always)]
    pub(super) fn carry_out(
        &mut self,
        effect: Effect,
        packet: Packet,
        at: u64,
    ) -> Result<(), AllocError>
        requires { FitsIn self.old.core.limit effect.change }
        ensures ok { OnOk result (self.new ≡ does effect (with_incoming self.old packet) at) }
        ensures err { OnErr result (self.new ≡ self.old) }
    {
        if let Err(refused) = make_room(
            &mut self.events,
            &mut self.slots,
            &mut self.incoming,
            effect.change,
        ) {
            drop(packet);
            return Err(refused);
        }
        self.events.push_back_reserved(Event::Incoming(packet));
        tell_ack(&mut self.events, effect.reply);
        self.awaits_ping = awaits_by(effect.change, self.awaits_ping);
        self.last_incoming = at;
        Ok(())
    }
}

/// Makes room for two events, and then changes the ids; both or nothing.
#[inline(never)]
fn make_room(
    events: &mut VecDeque<Event>,
    slots: &mut Slots,
    ids: &mut Ids,
    change: Change,
) -> Result<(), AllocError>
    requires { FitsIn slots.old.limit change }
    ensures events { events.new.items ≡ events.old.items }
    ensures room { OnOk result (deque_len events.new + 2 ≤ deque_capacity events.new) }
    ensures slots { OnOk result
        (slots.new ≡ record slots.old { in_use = in_use_by change slots.old.in_use }) }
    ensures ids { OnOk result (ids.new ≡ ids_by change ids.old) }
    ensures slots_stay { OnErr result (slots.new ≡ slots.old) }
    ensures ids_stay { OnErr result (ids.new ≡ ids.old) }
{
    events.reserve(2)?;
    change_ids(slots, ids, change)
}

/// Changes the ids.
#[inline(always)]
fn change_ids(slots: &mut Slots, ids: &mut Ids, change: Change) -> Result<(), AllocError>
    requires { FitsIn slots.old.limit change }
    ensures slots { OnOk result
        (slots.new ≡ record slots.old { in_use = in_use_by change slots.old.in_use }) }
    ensures ids { OnOk result (ids.new ≡ ids_by change ids.old) }
    ensures slots_stay { OnErr result (slots.new ≡ slots.old) }
    ensures ids_stay { OnErr result (ids.new ≡ ids.old) }
{
    match change {
        Change::Nothing | Change::Pong => Ok(()),
        Change::Free(id) => {
            slots.remove(id);
            Ok(())
        }
        Change::Release(id) => release(slots, id),
        Change::Keep(id) => ids.insert(id),
        Change::Complete(id) => {
            ids.remove(id);
            Ok(())
        }
    }
}

/// Releases an id.
#[inline(never)]
fn release(slots: &mut Slots, id: u16) -> Result<(), AllocError>
    requires low { 0 < id }
    requires high { id ≤ slots.old.limit }
    ensures ok { OnOk result
        (slots.new ≡ record slots.old { in_use = map.insert slots.old.in_use id Slot.Released }) }
    ensures err { OnErr result (slots.new ≡ slots.old) }
{
    slots.insert(id, Slot::Released)
}

/// Tells of an ack.
#[inline(always)]
fn tell_ack(events: &mut VecDeque<Event>, ack: Reply)
    requires { deque_len events.old < deque_capacity events.old }
    ensures { events.new.items ≡ events_by (outgoing_of ack) events.old.items }
{
    if let Some(outgoing) = outgoing_of(ack) {
        tell(events, outgoing);
    }
}

/// What is told of an ack.
#[inline(always)]
fn outgoing_of(ack: Reply) -> Option<Outgoing>
    ensures { result ≡ outgoing_of ack }
{
    match ack {
        Reply::Nothing | Reply::Publish(_) | Reply::Disconnect(_) => None,
        Reply::PubAck(id) => Some(Outgoing::PubAck(id)),
        Reply::PubRec(id) => Some(Outgoing::PubRec(id)),
        Reply::PubRel(id) => Some(Outgoing::PubRel(id)),
        Reply::PubComp(id, _) => Some(Outgoing::PubComp(id)),
    }
}

/// Tells of what is sent: here alone is room for an event.
#[inline(never)]
fn tell(events: &mut VecDeque<Event>, outgoing: Outgoing)
    requires { deque_len events.old < deque_capacity events.old }
    ensures { events.new.items ≡ events.old.items ++ Event.Outgoing outgoing ∷ [] }
{
    events.push_back_reserved(Event::Outgoing(outgoing));
}

/// Whether a ping isn't answered then.
fn awaits_by(change: Change, awaits: bool) -> bool
    ensures { result ≡ awaits_by change awaits }
{
    match change {
        Change::Pong => false,
        _other => awaits,
    }
}
