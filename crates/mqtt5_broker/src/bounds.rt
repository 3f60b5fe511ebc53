//! What an operator bounds.

ghost use Rattle.std.specs.Prelude.{◌≡◌, OnOk, OnErr, IfOk, IfErr, Some, is_some};
ghost use Rattle.std.specs.List.{list_any};
ghost use Rattle.mqtt5_network.specs.Retained.{is_to};
ghost use Rattle.mqtt5_sessions.specs.declared.counts.Counts.{Counts};
ghost use Rattle.mqtt5_broker.specs.Broker.{no_bounds};
ghost use Rattle.mqtt5_broker.specs.Connection.{connection_of};
ghost use Rattle.mqtt5_broker.specs.Bounds.{bounded, has_room, adds_retained, asks_too_much, bring_too_much, brings_too_much, quota_fault, exceeds, ends_of, ends_over, dropped_after, sheds_of, trims, trims_all, trims_at};

use crate::broker::Broker;
use crate::connections::connection_of;
use crate::groups::shares_too_much;
use crate::member::{free_number, owner_at};
use crate::rights::{may_do, part_of};
use mqtt5_base::copied;
use mqtt5_codec::Packet;
use mqtt5_control::DisconnectReasonCode;
use mqtt5_publish::Publish;
use mqtt5_session::StateError;
use mqtt5_sessions::Counts;
use mqtt5_subscribe::Filter;
use std::alloc::Global;

/// What may be kept at most. More is refused, or ends the session of who has it, by QuotaExceeded (MQTT 5.0 section 4.13).
#[derive(Debug, Clone, Copy, PartialEq, Eq)]
pub struct Bounds {
    /// How many clients are known at once, connected or away; where it was more once, as many.
    pub clients: usize,
    /// How many subscriptions a client has when `trim` is called, and how many filters a Subscribe.
    pub subscriptions: usize,
    /// How many filters of shared subscriptions there are, of all clients.
    pub shared: usize,
    /// How many messages are retained; a will is retained all the same.
    pub retained: usize,
    /// How many publishes wait in its queue then, and once a Subscribe has brought its copies of retained messages.
    pub queued: usize,
    /// And how many bytes the frames of these have.
    pub bytes: u64,
    /// Whether of a queue in which more waits the oldest publishes of any QoS are let go, and not those of QoS 0 alone.
    pub oldest: bool,
}

/// Nothing is bounded.
pub(super) fn no_bounds() -> Bounds
    ensures { result ≡ no_bounds }
{
    Bounds {
        clients: usize::MAX,
        subscriptions: usize::MAX,
        shared: usize::MAX,
        retained: usize::MAX,
        queued: usize::MAX,
        bytes: u64::MAX,
        oldest: false,
    }
}

/// Whether a publish is to a topic.
fn is_to(topic: &[u8], publish: &Publish) -> bool
    ensures { result ≡ is_to topic.now publish.now }
{
    publish.topic.as_slice() == topic
}

/// Whether a message of a topic is retained.
fn is_retained(topic: &[u8], retained: &[Publish]) -> bool
    ensures { result ≡ list_any (is_to topic.now) retained.now }
{
    retained.iter().any(|publish| is_to(topic, publish))
}

/// Whether more is kept for a client than may be.
fn exceeds(counts: &Counts, bounds: &Bounds) -> bool
    ensures { result ≡ exceeds counts.now bounds.now }
{
    bounds.subscriptions < counts.subscriptions
        || bounds.queued < counts.queued
        || bounds.bytes < counts.bytes
}

impl Broker {
    /// These are the bounds from now on; at first there are none.
    pub fn set_bounds(&mut self, bounds: Bounds)
        ensures { self.new ≡ bounded bounds self.old }
    {
        self.bounds = bounds;
    }

    /// Whether one more client may be known.
    pub(super) fn has_room(&self) -> bool
        ensures { result ≡ has_room self.now }
    {
        free_number(self.members.as_slice()).is_some() || self.members.len() < self.bounds.clients
    }

    /// Whether a publish would be retained in place of none.
    fn adds_retained(&self, publish: &Publish) -> bool
        ensures { result ≡ adds_retained publish.now self.now }
    {
        publish.retain
            && !publish.payload.is_empty()
            && !is_retained(publish.topic.as_slice(), self.sessions.retained())
    }

    /// Whether a packet of a client asks for one retained message more than there may be.
    fn asks_too_much(&self, packet: &Packet) -> bool
        ensures { result ≡ asks_too_much packet.now self.now }
    {
        match packet {
            Packet::Publish(publish) => {
                self.adds_retained(publish)
                    && self.bounds.retained <= self.sessions.retained().len()
            }
            _other => false,
        }
    }

    /// Whether filters bring more shared subscriptions than there is room for, or may bring more copies of retained messages than
    /// there is room for in the client's queue. S12, which leaves all as it was.
    fn bring_too_much(
        &mut self,
        alloc: Global,
        client: usize,
        filters: &[Filter],
    ) -> Result<bool, StateError>
        ensures ok { IfOk result (λ o. o ≡ bring_too_much client filters.now self.old) }
        ensures memory { IfErr result (λ e. e ≡ StateError.OutOfMemory) }
        ensures same { self.new ≡ self.old }
    {
        if shares_too_much(self.bounds.shared, filters, self.groups.as_slice()) {
            return Ok(true);
        }
        let most = self.bounds.queued;
        self.sessions.overfills(alloc, client, filters, most)
    }

    /// Whether a Subscribe has more filters than there may be subscriptions, or those that its user may subscribe to bring too much.
    /// S12, which leaves all as it was.
    fn brings_too_much(
        &mut self,
        alloc: Global,
        client: usize,
        packet: &Packet,
    ) -> Result<bool, StateError>
        ensures ok { IfOk result (λ o. o ≡ brings_too_much client packet.now self.old) }
        ensures memory { IfErr result (λ e. e ≡ StateError.OutOfMemory) }
        ensures same { self.new ≡ self.old }
    {
        let Packet::Subscribe(subscribe) = packet else {
            return Ok(false);
        };
        if self.bounds.subscriptions < subscribe.filters.len() {
            return Ok(true);
        }
        let user = owner_at(client, self.members.as_slice());
        let part = part_of(user, self.rights.as_slice(), copied(subscribe)?);
        self.bring_too_much(alloc, client, part.filters.as_slice())
    }

    /// Why a packet of a client is refused then; a publish only where its user may publish it. S12, which leaves all as it was.
    pub(super) fn quota_fault(
        &mut self,
        alloc: Global,
        client: usize,
        packet: &Packet,
    ) -> Result<Option<DisconnectReasonCode>, StateError>
        ensures ok { IfOk result (λ r. r ≡ quota_fault client packet.now self.old) }
        ensures memory { IfErr result (λ e. e ≡ StateError.OutOfMemory) }
        ensures same { self.new ≡ self.old }
    {
        let user = owner_at(client, self.members.as_slice());
        if self.asks_too_much(packet) && may_do(user, self.rights.as_slice(), packet) {
            return Ok(Some(DisconnectReasonCode::QuotaExceeded));
        }
        if self.brings_too_much(alloc, client, packet)? {
            return Ok(Some(DisconnectReasonCode::QuotaExceeded));
        }
        Ok(None)
    }

    /// A connection ends, if there is one. S12.
    fn end_of(&mut self, connection: Option<usize>) -> Result<(), StateError>
        ensures ok { OnOk result (self.new ≡ ends_of connection self.old) }
        ensures memory { IfErr result (λ e. e ≡ StateError.OutOfMemory) }
    {
        match connection {
            Some(connection) => self.tell(connection, DisconnectReasonCode::QuotaExceeded),
            None => Ok(()),
        }
    }

    /// The session of a client ends, and its connection, where more is kept for it than may be. S12.
    fn end_over(&mut self, alloc: Global, client: usize) -> Result<(), StateError>
        ensures ok { OnOk result (self.new ≡ ends_over client self.old) }
        ensures memory { IfErr result (λ e. e ≡ StateError.OutOfMemory) }
    {
        let counts = self.sessions.count(alloc, client)?;
        if !exceeds(&counts, &self.bounds) {
            return Ok(());
        }
        let connection = connection_of(client, self.connections.as_slice());
        self.forget(alloc, client)?;
        self.end_of(connection)?;
        Ok(())
    }

    /// The messages at the front of a client's queue are let go, as long as more wait than may, and they are of QoS 0, or any may
    /// go. S12, which leaves all as it was.
    fn shed(&mut self, alloc: Global, client: usize) -> Result<(), StateError>
        ensures ok { OnOk result (self.new ≡ sheds_of client self.old) }
        ensures memory { IfErr result (λ e. e ≡ StateError.OutOfMemory) }
        ensures left { OnErr result (self.new ≡ self.old) }
    {
        let bounds = self.bounds;
        let count = self
            .sessions
            .shed(alloc, client, bounds.oldest, bounds.queued, bounds.bytes)?;
        self.dropped = self.dropped.saturating_add(count as u64);
        Ok(())
    }

    /// Where more is kept for a client than may be, its queue is shortened, and its session ends where that isn't enough. S12.
    #[tactic(auto, unfolding(crate::specs::Bounds::trims))]
    fn trim_one(&mut self, alloc: Global, client: usize) -> Result<(), StateError>
        ensures ok { OnOk result (self.new ≡ trims client self.old) }
        ensures memory { IfErr result (λ e. e ≡ StateError.OutOfMemory) }
    {
        let counts = self.sessions.count(alloc, client)?;
        if !exceeds(&counts, &self.bounds) {
            return Ok(());
        }
        self.shed(alloc, client)?;
        self.end_over(alloc, client)
    }

    /// How many messages `trim` has let go of queues, or 18446744073709551615 where they are more.
    pub fn dropped(&self) -> u64
        ensures { result ≡ self.now.dropped }
    {
        self.dropped
    }

    /// At a moment, of each client for which more is kept than may be the first messages of its queue are let go, as long as more
    /// wait than may, and they are of QoS 0 (4.3.1), or of any QoS, where the bounds say that. The session of each ends for which
    /// more is kept all the same: one that is connected is told QuotaExceeded, and nothing more is taken of its connection. S12.
    pub fn trim(&mut self, alloc: Global, at: u64) -> Result<(), StateError>
        ensures ok { OnOk result (self.new ≡ trims_at at self.old) }
        ensures memory { IfErr result (λ e. e ≡ StateError.OutOfMemory) }
    {
        self.set_moment(at);
        self.trim_all(alloc)
    }

    fn trim_all(&mut self, alloc: Global) -> Result<(), StateError>
        ensures ok { OnOk result (self.new ≡ trims_all self.old) }
        ensures memory { IfErr result (λ e. e ≡ StateError.OutOfMemory) }
    {
        for client in 0..self.members.len() {
            self.trim_one(alloc, client)?;
        }
        Ok(())
    }
}
