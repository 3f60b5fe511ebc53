//! What a broker keeps of one client.

ghost use Rattle.std.specs.Prelude.{◌≡◌, [], ◌∷◌, true, false, None, IfOk, IfErr, OnOk, OnErr, MatchOption};
ghost use Rattle.std.specs.Option.{option_to_list};
ghost use Rattle.std.specs.NonZero.{non_zero_u16_get};
ghost use Rattle.mqtt5_session.specs.Resuming.{resume_of};
ghost use Rattle.mqtt5_network.specs.Connection.{connected, sent_in};
ghost use Rattle.mqtt5_network.specs.Subscriptions.{forwarded_to};
ghost use Rattle.mqtt5_network.specs.Retained.{copies_for};
ghost use Rattle.mqtt5_network.specs.Place.{lost_message, waiting, replaced_message, due_message};
ghost use Rattle.mqtt5_network.specs.Place.{not_due, left_will, message_of};
ghost use Rattle.mqtt5_router.specs.Kept.{new_kept, without_events, without_first, kept_of, after_packet};
ghost use Rattle.mqtt5_sessions.specs.Sessions.{new_state, gets, passes_here, sent_here, with_dated_will, with_turn_of, taken_up};
ghost use Rattle.mqtt5_sessions.specs.Counts.{counts_of};
ghost use Rattle.mqtt5_sessions.specs.Expiry.{expiry_of, first_expiry, expiry_of_will, delays};
ghost use Rattle.mqtt5_sessions.specs.Shedding.{surplus, without_firsts};
ghost use Rattle.mqtt5_sessions.specs.Waiting.{waits};
ghost use Rattle.mqtt5_sessions.specs.Bringing.{overfills_of};

use crate::bringing::brings_more;
use crate::counts::{Counts, sizes, surplus};
use mqtt5_base::Text;
use mqtt5_codec::Packet;
use mqtt5_network::{Subscription, Will, dated_will};
use mqtt5_publish::Publish;
use mqtt5_router::{Arrived, Kept, forwarded};
use mqtt5_session::StateError;
use mqtt5_subscribe::Filter;
use std::alloc::{AllocError, Global};
use std::collections::VecDeque;
use std::marker::Model;
use std::mem;
use std::num::NonZeroU16;

/// What a broker keeps of a client: what is kept for it, whether it is connected, and the will of its connection, or the one that
/// waits, if there is one (MQTT 5.0 sections 3.1.2.5, 3.1.3.2.2 and 4.1).
#[derive(Debug, Drop)]
pub struct ClientState {
    kept: Kept,
    here: bool,
    will: Option<Will>,
}

impl Model for ClientState {
    ghost use Rattle.std.specs.Coded.{codes};
    ghost use Rattle.mqtt5_base.specs.Codes.{utf8_code};
    ghost use Rattle.mqtt5_base.specs.contracts.quality.QoS as quality;
    ghost use Rattle.mqtt5_publish.specs.contracts.publish.Publish as publish;
    ghost use Rattle.mqtt5_codec.specs.contracts.packet.Packet as packet;
    ghost use Rattle.mqtt5_inflight.specs.Codes.{coded_in_use, coded_aliases, coded_incoming};
    ghost use Rattle.mqtt5_inflight.specs.contracts.event.Event as event;
    ghost use Rattle.mqtt5_network.specs.contracts.subscription.Subscription as subscription;
    ghost use Rattle.mqtt5_sessions.specs.Sessions as model;

    ghost Value = { model.ClientState };

    ghost coded = { Prim.hlevel (codes, coded_in_use, coded_aliases, coded_incoming, utf8_code, quality.the_row.coded, event.the_row.coded, packet.the_row.coded, publish.the_row.coded, subscription.the_row.coded) };

    ghost view = { λ a. record { kept = a.kept; here = a.here; will = a.will } };
}

impl ClientState {
    /// Of a client that never came; `limit` is the greatest packet identifier that the broker uses to it (2.2.1).
    pub(super) fn new(alloc: Global, limit: NonZeroU16) -> Result<ClientState, StateError>
        ensures ok { IfOk result (λ c. c ≡ new_state (non_zero_u16_get limit)) }
        ensures memory { IfErr result (λ e. e ≡ StateError.OutOfMemory) }
    {
        Ok(ClientState {
            kept: Kept::new(alloc, limit, Vec::new(alloc))?,
            here: false,
            will: None,
        })
    }

    /// What is kept for it once its session has ended: the same limit, and nothing else (3.1.2.4).
    pub(super) fn renewed(&self, alloc: Global) -> Result<Kept, StateError>
        ensures ok { IfOk result (λ k. k ≡ new_kept self.now.kept.sender.core.limit []) }
        ensures memory { IfErr result (λ e. e ≡ StateError.OutOfMemory) }
    {
        self.kept.renewed(alloc)
    }

    /// How much is kept for it. Takes no memory.
    pub(super) fn counts(&self) -> Counts
        ensures { result ≡ counts_of self.now.kept }
    {
        Counts {
            subscriptions: self.kept.subscriptions().len(),
            queued: self.kept.queue().len(),
            bytes: sizes(self.kept.queue(), 0),
        }
    }

    /// The first of its queue are let go, where no more may wait than so many, nor more bytes of them: how many. Takes no memory.
    #[tactic(auto, using(crate::proofs::Shedding::first_taken))]
    pub(super) fn shed(&mut self, any: bool, most: usize, bytes: u64) -> usize
        ensures count { result ≡ surplus any most bytes self.old.kept.queue }
        ensures now { self.new ≡ without_firsts result self.old }
    {
        let count = surplus(self.kept.queue(), any, most, bytes);
        let mut left = count;
        while left > 0 {
            self.expire();
            left -= 1;
        }
        count
    }

    /// Whether these filters bring more copies than there is room for in its queue, in which so many may be. Takes no memory.
    pub(super) fn overfills(&self, retained: &[Publish], filters: &[Filter], most: usize) -> bool
        ensures { result ≡ overfills_of most filters.now retained.now self.now.kept }
    {
        let left = most.saturating_sub(self.kept.queue().len());
        brings_more(retained, self.kept.subscriptions(), filters, left)
    }

    /// Its subscriptions.
    pub(super) fn subscriptions(&self) -> &[Subscription]
        ensures { result.now ≡ self.now.kept.subscriptions }
    {
        self.kept.subscriptions()
    }

    /// A packet comes from it: what is sent back, and what is handed on.
    #[tactic(auto, using(crate::proofs::Noted::heard_waits))]
    pub(super) fn arrive(&mut self, alloc: Global, packet: Packet) -> Result<Arrived, StateError>
        ensures kept { OnOk result (self.new ≡ record self.old {
          kept = without_events (kept_of (after_packet self.old.kept packet));
        }) }
        ensures reply { IfOk result
            (λ a. option_to_list a.reply ≡ (after_packet self.old.kept packet).down) }
        ensures handed { IfOk result (λ a. option_to_list a.handed
            ≡ (after_packet self.old.kept packet).receiver.handed) }
        ensures memory { IfErr result (λ e. e ≡ StateError.OutOfMemory) }
        ensures left { OnErr result (self.new ≡ self.old) }
        ensures waits { waits self.new ≡ waits self.old }
    {
        let arrived = self.kept.arrive(alloc, packet)?;
        self.kept.forget_events();
        Ok(arrived)
    }

    /// What is forwarded of a publish, `own` where it is the client's, or None (3.3.4).
    pub(super) fn forwarded(
        &self,
        alloc: Global,
        own: bool,
        publish: &Publish,
    ) -> Result<Option<Publish>, AllocError>
        ensures { IfOk result
            (λ p. p ≡ forwarded_to own self.now.kept.subscriptions publish.now) }
    {
        forwarded(alloc, own, self.kept.subscriptions(), publish)
    }

    /// The copies of retained messages that a packet of it brings (3.3.1.3).
    pub(super) fn copies(
        &self,
        alloc: Global,
        retained: &[Publish],
        packet: &Packet,
    ) -> Result<Vec<Publish>, AllocError>
        ensures { IfOk result (λ ps. ps.items
            ≡ copies_for retained.now self.now.kept.subscriptions packet.now) }
    {
        self.kept.copies(alloc, retained, packet)
    }

    /// Publishes go to the end of its queue.
    pub(super) fn put(&mut self, publishes: Vec<Publish>) -> Result<(), AllocError>
        ensures ok { OnOk result (self.new ≡ gets publishes.items self.old) }
        ensures left { OnErr result (self.new ≡ self.old) }
    {
        self.kept.put(publishes)
    }

    /// The first of its queue is passed on, if it is connected: what is sent to it.
    pub(super) fn pass(&mut self) -> Result<Option<Packet>, StateError>
        ensures kept { OnOk result
            (self.new ≡ record self.old { kept = passes_here self.old.here self.old.kept }) }
        ensures sent { IfOk result
            (λ a. option_to_list a ≡ sent_here self.old.here self.old.kept) }
        ensures memory { IfErr result (λ e. e ≡ StateError.OutOfMemory) }
        ensures left { OnErr result (self.new ≡ self.old) }
    {
        if !self.here {
            return Ok(None);
        }
        let passed = self.kept.pass()?;
        self.kept.forget_events();
        Ok(passed.sent)
    }

    /// The first of its queue is taken out, since it has expired.
    pub(super) fn expire(&mut self)
        ensures { self.new ≡ record self.old { kept = without_first self.old.kept } }
    {
        self.kept.expire();
    }

    /// The Message Expiry Interval of the first of its queue, if there is one and it has one.
    #[tactic(auto, using(crate::proofs::Delivered::expiry_of_none, crate::proofs::Delivered::expiry_of_first))]
    pub(super) fn message_expiry(&self) -> Option<u32>
        ensures { result ≡ first_expiry self.now.kept.queue }
    {
        if self.kept.queue().is_empty() {
            return None;
        }
        expiry_of(&self.kept.queue()[0])
    }

    /// The message of its will, if there is one.
    pub(super) fn will(&self) -> Option<&Publish>
        ensures { MatchOption result (message_of self.now.will ≡ [])
            (λ p. message_of self.now.will ≡ p.now ∷ []) }
    {
        match &self.will {
            Some(will) => Some(&will.publish),
            None => None,
        }
    }

    /// Its connection is lost: what is published of its will (3.1.2.5, 3.1.3.2.2).
    pub(super) fn lose(&mut self) -> Option<Publish>
        ensures left { self.new ≡ record self.old { here = false; will = waiting self.old.will } }
        ensures published { option_to_list result ≡ lost_message self.old.will }
    {
        self.here = false;
        match self.will.take() {
            Some(will) => {
                if will.delayed {
                    self.will = Some(will);
                    return None;
                }
                Some(will.publish)
            }
            None => None,
        }
    }

    /// The delay of the will that waits has passed: what is published of it (3.1.3.2.2).
    pub(super) fn publish_waiting(&mut self) -> Option<Publish>
        ensures left { self.new ≡ record self.old { will = not_due self.old.here self.old.will } }
        ensures published { option_to_list result ≡ due_message self.old.here self.old.will }
    {
        if self.here {
            return None;
        }
        match self.will.take() {
            Some(will) => Some(will.publish),
            None => None,
        }
    }

    /// The Message Expiry Interval of its will, if there is one and it has one.
    pub(super) fn will_expiry(&self) -> Option<u32>
        ensures { result ≡ expiry_of_will self.now.will }
    {
        match &self.will {
            Some(will) => expiry_of(&will.publish),
            None => None,
        }
    }

    /// Whether its will waits once its connection is lost: not where there is none.
    pub(super) fn will_is_delayed(&self) -> bool
        ensures { result ≡ delays self.now.will }
    {
        match &self.will {
            Some(will) => will.delayed,
            None => false,
        }
    }

    /// Its will has another Message Expiry Interval, if there is one with properties (3.1.3.2.4).
    pub(super) fn set_will_expiry(&mut self, interval: Option<u32>)
        ensures { self.new ≡ with_dated_will interval self.old }
    {
        self.will = dated_will(self.will.take(), interval);
    }

    /// Whether it is connected, and something is in its queue.
    pub(super) fn waits(&self) -> bool
        ensures { result ≡ waits self.now }
    {
        self.here && !self.kept.queue().is_empty()
    }

    /// Whether it is connected.
    pub(super) fn is_here(&self) -> bool
        ensures { result ≡ self.now.here }
    {
        self.here
    }

    /// It is given the turn in the shared subscription of a topic filter, or that is taken from it (4.8.2).
    pub(super) fn turn(&mut self, topic_filter: &Text, turn: bool)
        ensures { self.new ≡ with_turn_of topic_filter.now turn self.old }
    {
        self.kept.turn(topic_filter, turn);
    }

    /// It leaves: its will is dropped; nothing changes of one that isn't connected (3.14.4).
    pub(super) fn leave(&mut self)
        ensures { self.new
            ≡ record self.old { here = false; will = left_will self.old.here self.old.will } }
    {
        if self.here {
            self.will = None;
        }
        self.here = false;
    }

    /// It comes on a new connection, with this will: what its sender sends again (4.4), and what is published of the will of the
    /// connection that this one replaces; one that waits is dropped (3.1.3.2.2, 3.1.4).
    pub(super) fn come(
        &mut self,
        alloc: Global,
        receive_max: Option<u16>,
        will: Option<Will>,
    ) -> Result<(VecDeque<Packet>, Option<Publish>), StateError>
        ensures kept { OnOk result (self.new ≡ record {
          kept = taken_up receive_max self.old.kept;
          here = true;
          will = will;
        }) }
        ensures sent { IfOk result (λ a. a.0.items
            ≡ sent_in (resume_of (connected receive_max self.old.kept.sender) 0)) }
        ensures published { IfOk result (λ a. option_to_list a.1
            ≡ replaced_message self.old.here self.old.will) }
        ensures memory { IfErr result (λ e. e ≡ StateError.OutOfMemory) }
        ensures left { OnErr result (self.new.kept.subscriptions ≡ self.old.kept.subscriptions) }
    {
        let way = self.kept.take_up(alloc, receive_max)?;
        self.kept.forget_events();
        let published = if self.here { self.lose() } else { None };
        self.here = true;
        self.will = will;
        Ok((way, published))
    }

    /// This is kept for it, and not what was kept, which is answered.
    pub(super) fn swap(&mut self, kept: Kept) -> Kept
        ensures now { self.new ≡ record self.old { kept = kept } }
        ensures before { result ≡ self.old.kept }
    {
        mem::replace(&mut self.kept, kept)
    }

    /// Its session ends, for which nothing is kept any more: what is published of its will (3.1.2.4, 3.1.3.2.2).
    pub(super) fn end(&mut self) -> Option<Publish>
        ensures left { self.new ≡ record self.old { here = false; will = None } }
        ensures published { option_to_list result ≡ message_of self.old.will }
    {
        self.here = false;
        match self.will.take() {
            Some(will) => Some(will.publish),
            None => None,
        }
    }
}

/// The Message Expiry Interval of a publish, if it has one (3.3.2.3.3).
fn expiry_of(publish: &Publish) -> Option<u32>
    ensures { result ≡ expiry_of publish.now }
{
    match &publish.properties {
        Some(set) => set.message_expiry_interval,
        None => None,
    }
}
