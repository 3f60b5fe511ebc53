//! The session.

ghost use Rattle.std.specs.Prelude.{◌≡◌, ◌≢◌, ◌+◌, ◌<◌, length, IfOk, IfErr, OnOk, OnErr, drop, slice_get, Ok, ℕ};
ghost use Rattle.std.specs.FinMap as map;
ghost use Rattle.std.specs.FinSet as set;
ghost use Rattle.std.specs.Option.{option_copied};
ghost use Rattle.mqtt5_inflight.specs.InUse.{IsWithin, awaiting_ack, is_released};
ghost use Rattle.mqtt5_inflight.specs.Unacked.{requests_of};
ghost use Rattle.mqtt5_session.specs.Session.{Sends, Receives, fresh, with_event};
ghost use Rattle.mqtt5_session.specs.Requests.{on_request, protocol_error, out_disconnect, out_auth};
ghost use Rattle.mqtt5_base.specs.declared.quality.QoS.TheVariants.{AtMostOnce};
ghost use Rattle.mqtt5_session.specs.Packets.{on_packet};
ghost use Rattle.mqtt5_session.specs.Replies.{in_full};
ghost use Rattle.mqtt5_session.specs.Frequent.{IsAll};
ghost use Rattle.mqtt5_session.specs.Planned.{IsLeft, sent_as};
ghost use Rattle.mqtt5_session.specs.Resuming.{on_clean, resume_of, Resumes};
ghost use Rattle.mqtt5_session.specs.Ledger.{number_owed, adds, ends, unless_refused};
ghost use Rattle.mqtt5_session.specs.Once.{kept_id, new_notices, releases};

/// The packets that come most.
mod frequent;
/// What each packet from the broker makes of the session.
mod packets;
/// A session made of its parts.
mod parts;
/// What each request makes of it.
mod requests;
/// What is sent again on a new connection.
mod resuming;

use crate::packed::{as_disconnect, as_ping, as_publish};
use crate::reply::{Reply, in_short};
use bytes::Bytes;
use frequent::Effect;
use mqtt5_base::{Exact, QoS, copied};
use mqtt5_codec::Packet;
use mqtt5_control::{Auth, Disconnect, DisconnectReasonCode};
use mqtt5_inflight::{Aliases, Event, Ids, Incoming, Outgoing, Request, Slots, StateError};
use mqtt5_publish::Publish;
use std::alloc::{AllocError, Global};
use std::collections::VecDeque;
use std::marker::Model;

/// The session of a client (MQTT 5.0 section 4.1): the packet identifiers in use, what happened, and
/// what the broker allows. A call says what to send, and sends nothing itself.
#[derive(Debug, Drop)]
pub struct MqttState {
    slots: Slots,
    waiting: Option<Publish>,
    last_pkid: u16,
    current: u16,
    aliases: Aliases,
    alias_max: u16,
    manual_acks: bool,
    incoming: Ids,
    awaits_ping: bool,
    collision_pings: usize,
    events: VecDeque<Event>,
    last_incoming: u64,
    last_outgoing: u64,
}

impl Model for MqttState {
    ghost use Rattle.std.specs.Prelude.{◌<◌, ◌≤◌};
    ghost use Rattle.std.specs.Coded.{codes, coded_ℕ};
    ghost use Rattle.std.specs.FinSet as set;
    ghost use Rattle.mqtt5_publish.specs.contracts.publish.Publish as publish;
    ghost use Rattle.mqtt5_inflight.specs.contracts.event.Event as event;
    ghost use Rattle.mqtt5_inflight.specs.Codes.{coded_in_use, coded_aliases, coded_incoming};
    ghost use Rattle.mqtt5_session.specs.Freeing.{IsCounted};
    ghost use Rattle.mqtt5_session.specs.Session.{Session};

    ghost Value = { Session };

    ghost coded = { Prim.hlevel (codes, coded_in_use, coded_aliases, coded_incoming, event.the_row.coded, publish.the_row.coded) };

    ghost view = { λ a. record {
      core = record {
        limit = a.slots.limit;
        current = a.current;
        last = a.last_pkid;
        in_use = a.slots.in_use;
        waiting = a.waiting;
        aliases = a.aliases;
        alias_max = a.alias_max;
        manual_acks = a.manual_acks;
        incoming = a.incoming;
      };
      awaits_ping = a.awaits_ping;
      collision_pings = a.collision_pings;
      events = a.events.items;
      last_incoming = a.last_incoming;
      last_outgoing = a.last_outgoing;
    } };

    ghost invariant = { λ a. (a.last_pkid < a.slots.limit) × (a.current ≤ a.slots.limit) × IsCounted a.waiting };
}

impl MqttState {
    /// A session in which nothing was sent. `max_inflight`, at least 1, is the greatest id, and so the most
    /// ids in use at a time. Takes no memory, and is always Ok.
    pub fn new(alloc: Global, max_inflight: u16, manual_acks: bool) -> Result<MqttState, StateError>
        requires { 0 < max_inflight }
        ensures { result ≡ Ok (fresh max_inflight manual_acks) }
    {
        Ok(MqttState {
            slots: Slots::new(alloc, max_inflight),
            waiting: None,
            last_pkid: 0,
            current: max_inflight,
            aliases: Aliases::new(alloc),
            alias_max: 0,
            manual_acks,
            incoming: Ids::new(alloc),
            awaits_ping: false,
            collision_pings: 0,
            events: VecDeque::new(alloc),
            last_incoming: 0,
            last_outgoing: 0,
        })
    }

    /// How many ids are in use. Each is in 1..=limit, and a publish stands under its own id. Takes no memory.
    pub fn inflight(&self) -> u16
        ensures count { result ≡ map.len self.now.core.in_use }
        ensures within { IsWithin self.now.core.limit self.now.core.in_use }
    {
        self.slots.len()
    }

    /// Whether a ping isn't answered. Takes no memory.
    pub fn await_pingresp(&self) -> bool
        ensures { result ≡ self.now.awaits_ping }
    {
        self.awaits_ping
    }

    /// Whether the user sends the acks. Takes no memory.
    pub fn manual_acks(&self) -> bool
        ensures { result ≡ self.now.core.manual_acks }
    {
        self.manual_acks
    }

    /// How many pings were asked for while a publish waits. Takes no memory.
    pub fn collision_ping_count(&self) -> usize
        ensures { result ≡ self.now.collision_pings }
    {
        self.collision_pings
    }

    /// The moment of the last packet from the broker that wasn't refused, 0 before the first. Takes no
    /// memory.
    pub fn last_incoming(&self) -> u64
        ensures { result ≡ self.now.last_incoming }
    {
        self.last_incoming
    }

    /// The moment of the last request that wasn't refused, 0 before the first. Takes no memory.
    pub fn last_outgoing(&self) -> u64
        ensures { result ≡ self.now.last_outgoing }
    {
        self.last_outgoing
    }

    /// The last id that was given, or 0 where the next one is 1; it is below the limit on ids. Takes no
    /// memory.
    pub fn last_pkid(&self) -> u16
        ensures last { result ≡ self.now.core.last }
        ensures below { result < self.now.core.limit }
    {
        self.last_pkid
    }

    /// The broker's maximum of topic aliases. Takes no memory.
    pub fn broker_topic_alias_max(&self) -> u16
        ensures { result ≡ self.now.core.alias_max }
    {
        self.alias_max
    }

    /// The current maximum of ids in use. Takes no memory.
    pub fn max_outgoing_inflight(&self) -> u16
        ensures { result ≡ self.now.core.current }
    {
        self.current
    }

    /// The limit on ids. Takes no memory.
    pub fn max_outgoing_inflight_upper_limit(&self) -> u16
        ensures { result ≡ self.now.core.limit }
    {
        self.slots.limit()
    }

    /// The publish that waits for its id; None where there is none. Takes no memory.
    pub fn collision(&self) -> Option<&Publish>
        ensures { option_copied result ≡ self.now.core.waiting }
    {
        self.waiting.as_ref()
    }

    /// What happened and wasn't taken, the oldest first. Takes no memory.
    pub fn events(&self) -> &VecDeque<Event>
        ensures { result.now.items ≡ self.now.events }
    {
        &self.events
    }

    /// The publish that awaits an ack under an id; None where there is none. Takes no memory.
    pub fn outgoing_pub(&self, id: u16) -> Option<&Publish>
        ensures { option_copied result ≡ awaiting_ack (map.get self.now.core.in_use id) }
    {
        self.slots.sent(id)
    }

    /// Whether an id is released and awaits its PubComp. Takes no memory.
    pub fn outgoing_rel(&self, id: u16) -> bool
        ensures { result ≡ is_released (map.get self.now.core.in_use id) }
    {
        self.slots.is_released(id)
    }

    /// Whether a publish came under an id and isn't released. Takes no memory.
    pub fn incoming_pub(&self, id: u16) -> bool
        ensures { result ≡ set.contains self.now.core.incoming id }
    {
        self.incoming.contains(id)
    }

    /// The topic that an alias of the broker stands for; None where none is known. Takes no memory.
    pub fn topic_alises(&self, alias: u16) -> Option<&Bytes>
        ensures { option_copied result ≡ map.get self.now.core.aliases alias }
    {
        self.aliases.get(alias)
    }

    /// Takes the oldest event out; None where there is none. Takes no memory.
    pub fn pop_event(&mut self) -> Option<Event>
        ensures event { result ≡ slice_get self.old.events 0 }
        ensures rest { self.new ≡ record self.old { events = drop 1 self.old.events } }
    {
        self.events.pop_front()
    }

    /// Sets whether the user sends the acks. Takes no memory.
    pub fn set_manual_acks(&mut self, manual_acks: bool)
        ensures { self.new
            ≡ record self.old { core = record self.old.core { manual_acks = manual_acks } } }
    {
        self.manual_acks = manual_acks;
    }

    /// Takes a request at a moment, and answers what to send; None for a publish that waits until its id is
    /// free. S1: a publish whose id is in use while another waits; a PubRel of an id whose publish isn't
    /// acked; a PubComp, PingResp, SubAck or UnsubAck. S2: a publish of QoS 1 or 2, or a PubRel, whose id is
    /// above the limit. S3: a ping while another isn't answered. S5: a second ping while a publish waits.
    /// S6: a subscribe without filters. S8: a publish whose topic alias is above the broker's maximum. S12.
    /// After a refusal the session is unchanged, but a ping that was refused while a publish waits is
    /// counted.
    #[inline(always)]
    pub fn handle_outgoing_packet(
        &mut self,
        request: Request,
        at: u64,
    ) -> Result<Option<Packet>, StateError>
        ensures step { Sends result self.old self.new (on_request self.old request at) }
        ensures ledger { number_owed self.new.core
            ≡ number_owed self.old.core + unless_refused result (adds self.old.core request) }
        ensures once { (id : ℕ) → kept_id id self.new.core ≡ kept_id id self.old.core }
    {
        self.send(request, at)
    }

    #[inline(always)]
    fn send(&mut self, request: Request, at: u64) -> Result<Option<Packet>, StateError>
        ensures { Sends result self.old self.new (on_request self.old request at) }
    {
        match self.plan(&request, at) {
            Ok(Some(id)) => Ok(Some(as_sent(request, id))),
            Ok(None) => self.send_rest(request, at),
            Err(refused) => {
                drop(request);
                Err(refused)
            }
        }
    }

    /// A request that isn't done.
    #[inline(never)]
    #[tactic(auto, unfolding(crate::specs::Requests::on_request))]
    fn send_rest(&mut self, request: Request, at: u64) -> Result<Option<Packet>, StateError>
        requires { IsLeft request self.old }
        ensures { Sends result self.old self.new (on_request self.old request at) }
    {
        match request {
            Request::Publish(publish) => self.send_waiting(publish, at),
            Request::PubRel(release) => self.send_pubrel(release.pkid, at),
            Request::Subscribe(subscribe) => self.send_subscribe(subscribe, at),
            Request::Unsubscribe(unsubscribe) => self.send_unsubscribe(unsubscribe, at),
            Request::Disconnect => self.send_disconnect(at),
            Request::PubAck(ack) => self.send_puback(ack, at),
            Request::PubRec(ack) => self.send_pubrec(ack, at),
            other => {
                drop(other);
                Err(StateError::InvalidState)
            }
        }
    }

    /// Takes a packet from the broker at a moment, tells of it, and answers what to send. A publish of QoS 2
    /// under an id of one that the broker hasn't released is a duplicate: it isn't told of again, and is answered,
    /// unless the acks are the user's; then there is neither event nor answer, and `incoming_pub` has the id. A PubRel
    /// of an id that isn't there is answered so. An Auth is told of, and `handle_outgoing_auth` answers it. S2: an ack of
    /// an id that awaits none. S4: a packet that a broker never sends. S10: a Disconnect. S11: a ConnAck that refuses the connection. S12, which leaves the session
    /// unchanged; after another refusal the packet's event stands, and nothing else is changed.
    #[inline(always)]
    pub fn handle_incoming_packet(
        &mut self,
        packet: Incoming,
        at: u64,
    ) -> Result<Option<Packet>, StateError>
        ensures step { Receives result self.old self.new (on_packet self.old packet at) }
        ensures ledger { number_owed self.new.core + unless_refused result (ends packet)
            ≡ number_owed self.old.core }
        ensures once { (id : ℕ) → kept_id id self.new.core + unless_refused result
            (releases id self.old.core packet)
            ≡ kept_id id self.old.core + new_notices id self.old result self.new }
    {
        self.receive_packet(packet, at)
    }

    #[inline(always)]
    fn receive_packet(&mut self, packet: Incoming, at: u64) -> Result<Option<Packet>, StateError>
        ensures { Receives result self.old self.new (on_packet self.old packet at) }
    {
        match self.prepare(&packet, at) {
            Some(effect) => self.hear_frequent(effect, packet, at),
            None => self.hear_any(packet, at),
        }
    }

    /// A packet of which this is all.
    #[inline(always)]
    fn hear_frequent(
        &mut self,
        effect: Effect,
        packet: Incoming,
        at: u64,
    ) -> Result<Option<Packet>, StateError>
        requires { IsAll self.old packet at effect }
        ensures { Receives result self.old self.new (on_packet self.old packet at) }
    {
        self.carry_out(effect, packet, at)?;
        Ok(effect.reply.packet())
    }

    /// A packet, whatever it does.
    #[inline(never)]
    #[tactic(auto, unfolding(crate::specs::Packets::on_packet))]
    fn hear_any(&mut self, packet: Incoming, at: u64) -> Result<Option<Packet>, StateError>
        ensures { Receives result self.old self.new (on_packet self.old packet at) }
    {
        match packet {
            Packet::PubAck(ack) => self.hear_puback(ack, at),
            Packet::PubRec(ack) => self.hear_pubrec(ack, at),
            Packet::PubComp(ack) => self.hear_pubcomp(ack, at),
            Packet::PubRel(release) => self.hear_pubrel(release, at),
            Packet::Publish(publish) => self.hear_publish(publish, at),
            Packet::ConnAck(ack) => self.hear_connack(ack, at),
            Packet::PingResp(answer) => self.hear_pingresp(Packet::PingResp(answer), at),
            Packet::SubAck(ack) => self.accept_silently(Packet::SubAck(ack), at),
            Packet::UnsubAck(ack) => self.accept_silently(Packet::UnsubAck(ack), at),
            Packet::Auth(auth) => self.accept_silently(Packet::Auth(auth), at),
            Packet::Disconnect(disconnect) => self.hear_disconnect(disconnect),
            other => self.refuse(other),
        }
    }

    /// As `handle_incoming_packet`, and answers what to send in short.
    #[inline(always)]
    pub fn hear_packet(&mut self, packet: Incoming, at: u64) -> Result<Reply, StateError>
        ensures step { Receives (in_full result self.new) self.old self.new
            (on_packet self.old packet at) }
        ensures ledger { number_owed self.new.core + unless_refused result (ends packet)
            ≡ number_owed self.old.core }
        ensures once { (id : ℕ) → kept_id id self.new.core + unless_refused result
            (releases id self.old.core packet) ≡ kept_id id self.old.core + new_notices id self.old
            (in_full result self.new) self.new }
    {
        self.hear_in_short(packet, at)
    }

    #[inline(always)]
    fn hear_in_short(&mut self, packet: Incoming, at: u64) -> Result<Reply, StateError>
        ensures { Receives (in_full result self.new) self.old self.new
            (on_packet self.old packet at) }
    {
        match self.prepare(&packet, at) {
            Some(effect) => self.frequent_in_short(effect, packet, at),
            None => self.hear_rare(packet, at),
        }
    }

    /// A packet of which this is all.
    #[inline(always)]
    fn frequent_in_short(
        &mut self,
        effect: Effect,
        packet: Incoming,
        at: u64,
    ) -> Result<Reply, StateError>
        requires { IsAll self.old packet at effect }
        ensures { Receives (in_full result self.new) self.old self.new
            (on_packet self.old packet at) }
    {
        self.carry_out(effect, packet, at)?;
        Ok(effect.reply)
    }

    /// A packet, whatever it does.
    #[inline(never)]
    #[tactic(auto, using(crate::proofs::Short::hears_short))]
    fn hear_rare(&mut self, packet: Incoming, at: u64) -> Result<Reply, StateError>
        ensures { Receives (in_full result self.new) self.old self.new
            (on_packet self.old packet at) }
    {
        match self.hear_any(packet, at) {
            Ok(answer) => {
                let reply = in_short(&answer);
                drop(answer);
                Ok(reply)
            }
            Err(refused) => Err(refused),
        }
    }

    /// As `handle_outgoing_packet` of a publish of QoS 1 or 2, of which a copy is sent, and answers what to send in
    /// short. S1 of one of QoS 0, which no session stores; it is then unchanged.
    pub fn send_copy(&mut self, publish: &Publish, at: u64) -> Result<Reply, StateError>
        ensures step { publish.now.qos ≢ AtMostOnce
            → Sends (in_full result self.new) self.old self.new
            (on_request self.old (Request.Publish publish.now) at) }
        ensures ledger { number_owed self.new.core
            ≡ number_owed self.old.core + unless_refused result
            (adds self.old.core (Request.Publish publish.now)) }
        ensures once { (id : ℕ) → kept_id id self.new.core ≡ kept_id id self.old.core }
        ensures unstored { publish.now.qos ≡ AtMostOnce → (result ≡ Err StateError.InvalidState)
            × (self.new ≡ self.old) }
    {
        if publish.qos == QoS::AtMostOnce {
            return Err(StateError::InvalidState);
        }
        self.copy_out(publish, at)
    }

    /// The same of a publish that the session takes, and stores as it is.
    pub fn send_own(&mut self, publish: Publish, at: u64) -> Result<Reply, StateError>
        ensures step { publish.qos ≢ AtMostOnce
            → Sends (in_full result self.new) self.old self.new
            (on_request self.old (Request.Publish publish) at) }
        ensures ledger { number_owed self.new.core
            ≡ number_owed self.old.core + unless_refused result
            (adds self.old.core (Request.Publish publish)) }
        ensures once { (id : ℕ) → kept_id id self.new.core ≡ kept_id id self.old.core }
        ensures unstored { publish.qos ≡ AtMostOnce → (result ≡ Err StateError.InvalidState)
            × (self.new ≡ self.old) }
    {
        let once = publish.qos == QoS::AtMostOnce;
        if once {
            drop(publish);
            return Err(StateError::InvalidState);
        }
        self.own_out(publish, at)
    }

    /// Tells of a Disconnect with ProtocolError, and answers it to send. S12; the session is then unchanged.
    pub fn handle_protocol_error(&mut self) -> Result<Option<Packet>, StateError>
        ensures step { Sends result self.old self.new (protocol_error self.old) }
        ensures ledger { number_owed self.new.core ≡ number_owed self.old.core }
        ensures once { (id : ℕ) → kept_id id self.new.core ≡ kept_id id self.old.core }
    {
        self.tell(Outgoing::Disconnect)?;
        Ok(Some(as_disconnect(DisconnectReasonCode::ProtocolError)))
    }

    /// Takes a Disconnect with its reason and its properties at a moment, tells of it, and answers it to send. S1: a
    /// reason that only a broker gives (MQTT 5.0 section 3.14.2.1). S12. After a refusal the session is unchanged.
    pub fn handle_outgoing_disconnect(
        &mut self,
        disconnect: Disconnect,
        at: u64,
    ) -> Result<Option<Packet>, StateError>
        ensures step { Sends result self.old self.new (out_disconnect self.old disconnect at) }
        ensures ledger { number_owed self.new.core ≡ number_owed self.old.core }
        ensures once { (id : ℕ) → kept_id id self.new.core ≡ kept_id id self.old.core }
    {
        self.send_reason(disconnect, at)
    }

    /// Takes an Auth at a moment, tells of it, and answers it to send: data that the broker asked for, or a wish to
    /// begin anew (MQTT 5.0 sections 3.15 and 4.12). S1: the code Success, which only a broker gives, or no method. S12.
    /// After a refusal the session is unchanged.
    pub fn handle_outgoing_auth(
        &mut self,
        auth: Auth,
        at: u64,
    ) -> Result<Option<Packet>, StateError>
        ensures step { Sends result self.old self.new (out_auth self.old auth at) }
        ensures ledger { number_owed self.new.core ≡ number_owed self.old.core }
        ensures once { (id : ℕ) → kept_id id self.new.core ≡ kept_id id self.old.core }
    {
        self.send_auth(auth, at)
    }

    /// Answers what is to be sent again, the publishes that await an ack and then the releases, each by
    /// rising id, and makes all ids free; no ping is awaited then. The ids of the broker's publishes stay. S12;
    /// the session is then unchanged.
    pub fn clean(&mut self) -> Result<Vec<Request>, StateError>
        ensures ok { IfOk result
            (λ v. v.items ≡ requests_of self.old.core.limit self.old.core.in_use) }
        ensures cleaned { OnOk result (self.new ≡ on_clean self.old) }
        ensures ledger { IfOk result (λ v. number_owed self.new.core + length v.items
            ≡ number_owed self.old.core) }
        ensures once { (id : ℕ) → kept_id id self.new.core ≡ kept_id id self.old.core }
        ensures err { IfErr result (λ e. e ≡ StateError.OutOfMemory) }
        ensures kept { OnErr result (self.new ≡ self.old) }
    {
        let requests = self.slots.requests()?;
        self.slots.clear();
        self.awaits_ping = false;
        self.collision_pings = 0;
        Ok(requests)
    }

    /// What `clean` would answer. The session stays as it is. Err where memory is refused.
    pub fn unacked(&self) -> Result<Vec<Request>, AllocError>
        ensures { IfOk result
            (λ v. v.items ≡ requests_of self.now.core.limit self.now.core.in_use) }
    {
        self.slots.requests()
    }

    /// A copy of the session as `clean` would leave it, in which no publish is copied that awaits an ack. Err where
    /// memory is refused.
    pub fn cleaned(&self, alloc: Global) -> Result<MqttState, AllocError>
        ensures { IfOk result (λ s. s ≡ on_clean self.now) }
    {
        Ok(MqttState {
            slots: Slots::new(alloc, self.slots.limit()),
            last_pkid: self.last_pkid(),
            current: self.current,
            aliases: self.aliases.clone()?,
            alias_max: self.alias_max,
            manual_acks: self.manual_acks,
            incoming: self.incoming.clone()?,
            awaits_ping: false,
            collision_pings: 0,
            events: copied_queue(&self.events)?,
            last_incoming: self.last_incoming,
            last_outgoing: self.last_outgoing,
            waiting: copied(&self.waiting)?,
        })
    }

    /// Answers what is to be sent on a new connection to the kept session, and tells of it: all that `clean`
    /// would give, and it stays in use, as do the ids of the broker's publishes; no ping is awaited then. S8 for
    /// the first publish, by rising id, whose topic alias is above the broker's maximum. S12. After a refusal
    /// the session is unchanged.
    pub fn resume(&mut self, at: u64) -> Result<Vec<Packet>, StateError>
        ensures sends { Resumes result self.old self.new (resume_of self.old at) }
        ensures ledger { number_owed self.new.core ≡ number_owed self.old.core }
        ensures once { (id : ℕ) → kept_id id self.new.core ≡ kept_id id self.old.core }
    {
        self.send_again(at)
    }

    /// Tells of what is answered to send.
    fn tell(&mut self, outgoing: Outgoing) -> Result<(), AllocError>
        ensures ok { OnOk result (self.new ≡ with_event self.old outgoing) }
        ensures err { OnErr result (self.new ≡ self.old) }
    {
        self.events.reserve(1)?;
        self.events.push_back_reserved(Event::Outgoing(outgoing));
        Ok(())
    }
}

/// A clone is the same session. Err where memory is refused.
impl Clone for MqttState {
    ghost is_clone = { λ s copy. copy ≡ s };

    fn clone(&self) -> Result<MqttState, AllocError> {
        Ok(MqttState {
            slots: self.slots.clone()?,
            last_pkid: self.last_pkid,
            current: self.current,
            aliases: self.aliases.clone()?,
            alias_max: self.alias_max,
            manual_acks: self.manual_acks,
            incoming: self.incoming.clone()?,
            awaits_ping: self.awaits_ping,
            collision_pings: self.collision_pings,
            events: copied_queue(&self.events)?,
            last_incoming: self.last_incoming,
            last_outgoing: self.last_outgoing,
            waiting: copied(&self.waiting)?,
        })
    }
}

/// A clone of a queue, which has the same items.
fn copied_queue<T: Exact>(queue: &VecDeque<T>) -> Result<VecDeque<T>, AllocError>
    ensures { IfOk result (λ copy. copy.items ≡ queue.now.items) }
{
    queue.clone()
}

/// The packet of a publish with this id, or of a ping.
fn as_sent(request: Request, id: u16) -> Packet
    ensures { result ≡ sent_as request id }
{
    match request {
        Request::Publish(mut publish) => {
            publish.pkid = id;
            as_publish(publish)
        }
        other => {
            drop(other);
            as_ping()
        }
    }
}
