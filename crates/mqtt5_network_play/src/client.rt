//! A client, with what the broker keeps for it, and the packets between them.

ghost use Rattle.std.specs.Prelude.{◌≡◌, ◌<◌, ◌++◌, [], true, None, IfOk, IfErr, OnOk};
ghost use Rattle.std.specs.NonZero.{non_zero_u16_get};
ghost use Rattle.mqtt5_network.specs.Receiver.{shown};
ghost use Rattle.mqtt5_network.specs.Connection.{is_sending, connected};
ghost use Rattle.mqtt5_network.specs.Asking.{is_ack};
ghost use Rattle.mqtt5_network.specs.Retained.{retained_of, copies_for, copies_first};
ghost use Rattle.mqtt5_network.specs.Client.{routed, new_client, asks_for, requests_for, comes_to};
ghost use Rattle.mqtt5_network.specs.Client.{goes_up, goes_down, queues, passes_on, takes_out, takes_turn};
ghost use Rattle.mqtt5_network.specs.Client.{reconnects};
ghost use Rattle.mqtt5_network.specs.Place.{cut_off};
ghost use Rattle.mqtt5_network_play.specs.Plays.{client_of, IsAbout, next_for};

use crate::shown::{push_all, push_some, shown};
use mqtt5_base::{Text, copied};
use mqtt5_codec::Packet;
use mqtt5_network::{ClientEvent, Subscription};
use mqtt5_publish::Publish;
use mqtt5_router::sessions::{ask, connect, request, send, take, take_up};
use mqtt5_router::{Kept, retain};
use mqtt5_session::{MqttState, Request, StateError};
use std::alloc::{AllocError, Global};
use std::collections::VecDeque;
use std::marker::Model;
use std::num::NonZeroU16;

/// A client's session; what the broker keeps for it; the packets on their way up and down; what the session accepted; what the
/// broker handed on of it; what left its queue, and what of that had expired; and on how many new connections it came.
#[derive(Debug, Drop)]
pub struct Client {
    session: MqttState,
    kept: Kept,
    up: VecDeque<Packet>,
    down: VecDeque<Packet>,
    accepted: Vec<Publish>,
    handed: Vec<Publish>,
    taken: Vec<Publish>,
    expired: Vec<Publish>,
    lost: usize,
}

impl Model for Client {
    ghost use Rattle.std.specs.Coded.{codes};
    ghost use Rattle.mqtt5_base.specs.Codes.{utf8_code};
    ghost use Rattle.mqtt5_base.specs.contracts.quality.QoS as quality;
    ghost use Rattle.mqtt5_publish.specs.contracts.publish.Publish as publish;
    ghost use Rattle.mqtt5_codec.specs.contracts.packet.Packet as packet;
    ghost use Rattle.mqtt5_inflight.specs.Codes.{coded_in_use, coded_aliases, coded_incoming};
    ghost use Rattle.mqtt5_inflight.specs.contracts.event.Event as event;
    ghost use Rattle.mqtt5_network.specs.contracts.subscription.Subscription as subscription;
    ghost use Rattle.mqtt5_network.specs.Client as model;

    ghost Value = { model.Client };

    ghost coded = { Prim.hlevel (codes, coded_in_use, coded_aliases, coded_incoming, utf8_code, quality.the_row.coded, event.the_row.coded, packet.the_row.coded, publish.the_row.coded, subscription.the_row.coded) };

    ghost view = { λ a. record {
      session = a.session;
      receiver = record { ids = a.kept.ids; handed = a.handed.items };
      sender = a.kept.sender;
      up = a.up.items;
      down = a.down.items;
      accepted = a.accepted.items;
      subscriptions = a.kept.subscriptions;
      queue = a.kept.queue;
      taken = a.taken.items;
      expired = a.expired.items;
      lost = a.lost;
    } };
}

impl Client {
    /// A client that has sent nothing, of which the broker has its subscriptions alone; with the greatest packet identifier that
    /// it uses, and the greatest that the broker uses to it.
    pub fn new(
        alloc: Global,
        limit: NonZeroU16,
        sender_limit: NonZeroU16,
        subscriptions: Vec<Subscription>,
    ) -> Result<Client, StateError>
        ensures ok { IfOk result (λ c. c ≡ new_client (non_zero_u16_get limit)
            (non_zero_u16_get sender_limit) subscriptions.items) }
        ensures err { IfErr result (λ e. e ≡ StateError.OutOfMemory) }
    {
        let kept = Kept::new(alloc, sender_limit, subscriptions)?;
        let session = MqttState::new(alloc, limit.get(), false)?;
        Ok(Client::of(alloc, session, kept))
    }

    /// One with a new session, of which the broker has nothing (3.1.2.4).
    pub fn renewed(&self, alloc: Global) -> Result<Client, StateError>
        ensures ok { IfOk result (λ c. c ≡ new_client self.now.session.core.limit
            self.now.sender.core.limit []) }
        ensures err { IfErr result (λ e. e ≡ StateError.OutOfMemory) }
    {
        let _last = self.session.last_pkid();
        let kept = self.kept.renewed(alloc)?;
        let limit = self.session.max_outgoing_inflight_upper_limit();
        let session = MqttState::new(alloc, limit, false)?;
        Ok(Client::of(alloc, session, kept))
    }

    /// One of which nothing else is known.
    fn of(alloc: Global, session: MqttState, kept: Kept) -> Client
        ensures { result ≡ client_of session kept }
    {
        Client {
            session,
            kept,
            up: VecDeque::new(alloc),
            down: VecDeque::new(alloc),
            accepted: Vec::new(alloc),
            handed: Vec::new(alloc),
            taken: Vec::new(alloc),
            expired: Vec::new(alloc),
            lost: 0,
        }
    }

    /// The publishes that it was shown, in order.
    pub fn shown(&self, alloc: Global) -> Result<Vec<Publish>, AllocError>
        ensures { IfOk result (λ ps. ps.items ≡ shown self.now.session) }
    {
        shown(alloc, self.session.events())
    }

    /// All that was ever put into its queue, in order.
    #[tactic(auto, using(crate::proofs::Asked::queue_next))]
    pub fn routed(&self, alloc: Global) -> Result<Vec<Publish>, AllocError>
        ensures { IfOk result (λ ps. ps.items ≡ routed self.now) }
    {
        let mut all = Vec::new(alloc);
        push_all(self.taken.as_slice(), &mut all)?;
        let queue = self.kept.queue();
        for i in 0..queue.len() {
            all.push(copied(&queue[i])?)?;
        }
        Ok(all)
    }

    /// The publishes that expired in its queue, in order (3.3.2.3.3).
    pub fn expired(&self) -> &[Publish]
        ensures { result.now ≡ self.now.expired }
    {
        self.expired.as_slice()
    }

    /// The publishes that its session accepted, in order.
    pub fn accepted(&self) -> &[Publish]
        ensures { result.now ≡ self.now.accepted }
    {
        self.accepted.as_slice()
    }

    /// What its receiver handed on, in order.
    pub fn handed(&self) -> &[Publish]
        ensures { result.now ≡ self.now.receiver.handed }
    {
        self.handed.as_slice()
    }

    /// Its subscriptions.
    pub fn subscriptions(&self) -> &[Subscription]
        ensures { result.now ≡ self.now.subscriptions }
    {
        self.kept.subscriptions()
    }

    /// On how many new connections it came.
    pub fn lost(&self) -> usize
        ensures { result ≡ self.now.lost }
    {
        self.lost
    }

    /// The packets on their way to the broker.
    pub fn up(&self) -> &VecDeque<Packet>
        ensures { result.now.items ≡ self.now.up }
    {
        &self.up
    }

    /// Those on their way to the client.
    pub fn down(&self) -> &VecDeque<Packet>
        ensures { result.now.items ≡ self.now.down }
    {
        &self.down
    }

    /// The publishes in its queue.
    pub fn queue(&self) -> &VecDeque<Publish>
        ensures { result.now.items ≡ self.now.queue }
    {
        self.kept.queue()
    }

    /// What is forwarded to it of publishes that are handed on goes to the end of its queue; `own` where it published them itself
    /// (3.3.4).
    pub fn queue_up(
        &mut self,
        alloc: Global,
        own: bool,
        publishes: &[Publish],
    ) -> Result<(), AllocError>
        ensures { OnOk result (self.new ≡ queues own publishes.now self.old) }
    {
        let forwarded = self.kept.forwarded(alloc, own, publishes)?;
        self.kept.put(forwarded)
    }

    /// Publishes go to the end of its queue as they are.
    pub fn put(&mut self, publishes: Vec<Publish>) -> Result<(), AllocError>
        ensures { OnOk result
            (self.new ≡ record self.old { queue = self.old.queue ++ publishes.items }) }
    {
        self.kept.put(publishes)
    }

    /// The copies of retained messages that the first packet on its way up brings, where the broker handed these publishes on
    /// (3.3.1.3).
    #[tactic(auto, using(crate::proofs::Asked::copies_none, crate::proofs::Asked::copies_some))]
    pub fn copies(&self, alloc: Global, handed: &[Publish]) -> Result<Vec<Publish>, AllocError>
        ensures { IfOk result (λ ps. ps.items
            ≡ copies_first (retained_of handed.now) self.now.subscriptions self.now.up) }
    {
        if self.up.is_empty() {
            return Ok(Vec::new(alloc));
        }
        self.copies_for(alloc, handed, &self.up[0])
    }

    /// Those that a packet brings. Where it is no Subscribe, what is retained isn't looked at.
    fn copies_for(
        &self,
        alloc: Global,
        handed: &[Publish],
        packet: &Packet,
    ) -> Result<Vec<Publish>, AllocError>
        ensures { IfOk result (λ ps. ps.items
            ≡ copies_for (retained_of handed.now) self.now.subscriptions packet.now) }
    {
        match packet {
            Packet::Subscribe(_) => {
                let retained = retained_of(alloc, handed)?;
                self.kept.copies(alloc, retained.as_slice(), packet)
            }
            _other => Ok(Vec::new(alloc)),
        }
    }

    /// It asks for a publish.
    #[tactic(auto, using(crate::proofs::Asked::asks_true, crate::proofs::Asked::asks_false))]
    pub fn ask(&mut self, publish: &Publish) -> Result<(), StateError>
        ensures ok { OnOk result (self.new ≡ asks_for self.old publish.now) }
        ensures err { IfErr result (λ e. e ≡ StateError.OutOfMemory) }
    {
        let asked = copied(publish)?;
        if ask(&mut self.session, asked, &mut self.up)? {
            self.accepted.push(copied(publish)?)?;
        }
        Ok(())
    }

    /// It asks for something about subscriptions.
    #[tactic(auto, using(crate::proofs::Asked::about_sends))]
    pub(super) fn request(&mut self, asked: Request) -> Result<(), StateError>
        requires { IsAbout asked }
        ensures ok { OnOk result (self.new ≡ requests_for self.old asked) }
        ensures err { IfErr result (λ e. e ≡ StateError.OutOfMemory) }
    {
        let (_accepted, reply) = request(&mut self.session, asked)?;
        send(&mut self.up, reply)?;
        Ok(())
    }

    /// The broker gives it the turn in the shared subscription of a topic filter, or takes it (4.8.2).
    pub(super) fn take_turn(&mut self, topic_filter: &Text, turn: bool)
        ensures { self.new ≡ takes_turn topic_filter.now turn self.old }
    {
        self.kept.turn(topic_filter, turn);
    }

    /// Nothing is on its way any more.
    pub fn cut_off(&mut self)
        ensures { self.new ≡ cut_off self.old }
    {
        self.up.clear();
        self.down.clear();
    }

    /// The first packet on its way up arrives, if there is one.
    pub fn go_up(&mut self, alloc: Global) -> Result<(), StateError>
        ensures ok { OnOk result (self.new ≡ goes_up self.old self.old.up) }
        ensures err { IfErr result (λ e. e ≡ StateError.OutOfMemory) }
    {
        match self.up.pop_front() {
            Some(packet) => self.arrive(alloc, packet),
            None => Ok(()),
        }
    }

    /// A packet comes to the broker.
    #[tactic(auto, using(crate::proofs::Asked::arrives))]
    fn arrive(&mut self, alloc: Global, packet: Packet) -> Result<(), StateError>
        ensures ok { OnOk result
            (self.new ≡ comes_to (is_sending packet) (is_ack packet) self.old packet) }
        ensures err { IfErr result (λ e. e ≡ StateError.OutOfMemory) }
    {
        let arrived = self.kept.arrive(alloc, packet)?;
        push_some(arrived.handed, &mut self.handed)?;
        send(&mut self.down, arrived.reply)?;
        Ok(())
    }

    /// The first packet on its way down arrives, if there is one.
    pub fn go_down(&mut self) -> Result<(), StateError>
        ensures ok { OnOk result (self.new ≡ goes_down self.old self.old.down) }
        ensures err { IfErr result (λ e. e ≡ StateError.OutOfMemory) }
    {
        match self.down.pop_front() {
            Some(packet) => {
                take(&mut self.session, packet, &mut self.up)?;
                Ok(())
            }
            None => Ok(()),
        }
    }

    /// The first of its queue is passed on, if there is one.
    #[tactic(auto, using(crate::proofs::Asked::passes))]
    pub fn pass(&mut self) -> Result<(), StateError>
        ensures ok { OnOk result (self.new ≡ passes_on self.old self.old.queue) }
        ensures err { IfErr result (λ e. e ≡ StateError.OutOfMemory) }
    {
        let passed = self.kept.pass()?;
        push_some(passed.taken, &mut self.taken)?;
        send(&mut self.down, passed.sent)?;
        Ok(())
    }

    /// The first of its queue is taken out, if there is one, since it has expired (3.3.2.3.3).
    #[tactic(auto, using(crate::proofs::Asked::none_expires, crate::proofs::Asked::first_expires))]
    pub(super) fn expire(&mut self) -> Result<(), AllocError>
        ensures { OnOk result (self.new ≡ takes_out self.old) }
    {
        if self.kept.queue().is_empty() {
            return Ok(());
        }
        let first = copied(&self.kept.queue()[0])?;
        self.taken.push(copied(&first)?)?;
        self.expired.push(first)?;
        self.kept.expire();
        Ok(())
    }

    /// It comes on a new connection, and both sides take up their session. More connections than can be counted are refused as
    /// memory is.
    pub fn reconnect(
        &mut self,
        alloc: Global,
        broker_max: Option<u16>,
        client_max: Option<u16>,
    ) -> Result<(), StateError>
        ensures ok { OnOk result (self.new ≡ reconnects self.old
            (connected broker_max self.old.session) (connected client_max self.old.sender)) }
        ensures err { IfErr result (λ e. e ≡ StateError.OutOfMemory) }
    {
        self.lost = self.lost.checked_add(1).ok_or(StateError::OutOfMemory)?;
        connect(&mut self.session, alloc, broker_max)?;
        self.up = take_up(&mut self.session, alloc)?;
        self.down = self.kept.take_up(alloc, client_max)?;
        Ok(())
    }

    /// Whether no step of it finds anything to do, where it is here.
    #[inline]
    #[tactic(auto, using(crate::proofs::Stepped::next_none))]
    pub fn rests(&self) -> bool
        ensures { result ≡ true → next_for self.now.up self.now.down self.now.queue ≡ None }
    {
        self.up.is_empty() && self.down.is_empty() && self.kept.queue().is_empty()
    }

    /// The next step of it that finds something to do, where it is here, if there is one.
    #[tactic(auto, using(crate::proofs::Stepped::next_up, crate::proofs::Stepped::next_down, crate::proofs::Stepped::next_pass, crate::proofs::Stepped::next_none))]
    pub fn next_step(&self) -> Option<ClientEvent>
        ensures step { result ≡ next_for self.now.up self.now.down self.now.queue }
        ensures can { 0 < self.now.sender.core.limit }
    {
        let _limit = self.kept.limit();
        if !self.up.is_empty() {
            Some(ClientEvent::Up)
        } else if !self.down.is_empty() {
            Some(ClientEvent::Down)
        } else if !self.kept.queue().is_empty() {
            Some(ClientEvent::PassOn)
        } else {
            None
        }
    }
}

/// The messages that are retained, once these publishes were handed on (3.3.1.3).
fn retained_of(alloc: Global, handed: &[Publish]) -> Result<Vec<Publish>, AllocError>
    ensures { IfOk result (λ kept. kept.items ≡ retained_of handed.now) }
{
    let mut retained = Vec::new(alloc);
    for publish in handed {
        retain(&mut retained, publish)?;
    }
    Ok(retained)
}
