//! A client that goes away and comes back, with the will of its connection.

ghost use Rattle.std.specs.Prelude.{◌≡◌, ◌<◌, ◌++◌, true, false, None, option_map, IfOk, IfErr, OnOk, drop};
ghost use Rattle.mqtt5_network.specs.Connection.{connected};
ghost use Rattle.mqtt5_network.specs.Receiver.{shown};
ghost use Rattle.mqtt5_network.specs.Client.{asks_for, requests_for, reconnects};
ghost use Rattle.mqtt5_network.specs.Place.{cut_off, sent_from, passes, loses, ended, waiting, left_will};
ghost use Rattle.mqtt5_network.specs.Place.{message_of, lost_message, replaced_message, due_message, not_due, expiring};
ghost use Rattle.mqtt5_network.specs.Place.{happens_at, renewed, queues_at, gets_at, copies_in};
ghost use Rattle.mqtt5_network.specs.Network.{begins, new_of};
ghost use Rattle.mqtt5_network_play.specs.Plays.{IsAbout, next_of};
ghost use Rattle.mqtt5_network_play.specs.Reports.{told};

use crate::client::Client;
use crate::profile::Profile;
use crate::report::ClientReport;
use crate::shown::{push_all, push_new, push_some};
use mqtt5_base::{Sequence, copied};
use mqtt5_network::{ClientEvent, Will, dated_will};
use mqtt5_publish::Publish;
use mqtt5_router::subscriptions_of;
use mqtt5_session::{Request, StateError};
use std::alloc::{AllocError, Global};
use std::marker::Model;

/// A client with what the broker keeps for it, whether it is connected, the will of its connection, or the one that waits, and the
/// wills that the broker published for it.
#[derive(Debug, Drop)]
pub struct Place {
    client: Client,
    here: bool,
    will: Option<Will>,
    willed: Vec<Publish>,
}

impl Model for Place {
    ghost use Rattle.std.specs.Coded.{codes};
    ghost use Rattle.mqtt5_base.specs.Codes.{utf8_code};
    ghost use Rattle.mqtt5_base.specs.contracts.quality.QoS as quality;
    ghost use Rattle.mqtt5_publish.specs.contracts.publish.Publish as publish;
    ghost use Rattle.mqtt5_codec.specs.contracts.packet.Packet as packet;
    ghost use Rattle.mqtt5_inflight.specs.Codes.{coded_in_use, coded_aliases, coded_incoming};
    ghost use Rattle.mqtt5_inflight.specs.contracts.event.Event as event;
    ghost use Rattle.mqtt5_network.specs.contracts.subscription.Subscription as subscription;
    ghost use Rattle.mqtt5_network.specs.Place as model;

    ghost Value = { model.Place };

    ghost coded = { Prim.hlevel (codes, coded_in_use, coded_aliases, coded_incoming, utf8_code, quality.the_row.coded, event.the_row.coded, packet.the_row.coded, publish.the_row.coded, subscription.the_row.coded) };

    ghost view = { λ a. record {
      client = a.client;
      here = a.here;
      will = a.will;
      willed = a.willed.items;
    } };
}

impl Place {
    /// A client that has sent nothing, connected without a will, of which the broker has its subscriptions alone.
    pub fn new(alloc: Global, profile: &Profile) -> Result<Place, StateError>
        ensures ok { IfOk result (λ p. p ≡ begins profile.now) }
        ensures err { IfErr result (λ e. e ≡ StateError.OutOfMemory) }
    {
        let subscriptions = subscriptions_of(alloc, profile.subscriptions.as_slice())?;
        let client = Client::new(alloc, profile.limit, profile.sender_limit, subscriptions)?;
        Ok(Place {
            client,
            here: true,
            will: None,
            willed: Vec::new(alloc),
        })
    }

    /// One whose session has ended, with a new one, and away (3.1.2.4).
    pub fn renewed(&self, alloc: Global) -> Result<Place, StateError>
        ensures ok { IfOk result (λ p. p ≡ renewed self.now) }
        ensures err { IfErr result (λ e. e ≡ StateError.OutOfMemory) }
    {
        Ok(Place {
            client: self.client.renewed(alloc)?,
            here: false,
            will: None,
            willed: Vec::new(alloc),
        })
    }

    /// What came of it so far.
    pub fn report(&self, alloc: Global) -> Result<ClientReport, AllocError>
        ensures { IfOk result (λ r. r ≡ told self.now) }
    {
        let client = &self.client;
        let shown = client.shown(alloc)?;
        let routed = client.routed(alloc)?;
        let mut accepted = Vec::new(alloc);
        push_all(client.accepted(), &mut accepted)?;
        let mut expired = Vec::new(alloc);
        push_all(client.expired(), &mut expired)?;
        let mut willed = Vec::new(alloc);
        push_all(self.willed.as_slice(), &mut willed)?;
        let subscriptions = subscriptions_of(alloc, client.subscriptions())?;
        Ok(ClientReport {
            shown: Sequence::from(shown),
            routed: Sequence::from(routed),
            expired: Sequence::from(expired),
            accepted: Sequence::from(accepted),
            willed: Sequence::from(willed),
            subscriptions: Sequence::from(subscriptions),
            here: self.here,
            lost: client.lost(),
            up: client.up().len(),
            down: client.down().len(),
            queued: client.queue().len(),
        })
    }

    /// The publishes that it was shown, in order.
    pub fn shown(&self, alloc: Global) -> Result<Vec<Publish>, AllocError>
        ensures { IfOk result (λ ps. ps.items ≡ shown self.now.client.session) }
    {
        self.client.shown(alloc)
    }

    /// The publishes that its session accepted, in order.
    pub fn accepted(&self) -> &[Publish]
        ensures { result.now ≡ self.now.client.accepted }
    {
        self.client.accepted()
    }

    /// What is forwarded to it of publishes that are handed on goes to the end of its queue, here or away; `own` where it
    /// published them itself (3.3.4).
    pub fn queue_up(
        &mut self,
        alloc: Global,
        own: bool,
        publishes: &[Publish],
    ) -> Result<(), AllocError>
        ensures { OnOk result (self.new ≡ queues_at own publishes.now self.old) }
    {
        self.client.queue_up(alloc, own, publishes)
    }

    /// Publishes go to the end of its queue as they are.
    pub fn put(&mut self, publishes: Vec<Publish>) -> Result<(), AllocError>
        ensures { OnOk result (self.new ≡ gets_at publishes.items self.old) }
    {
        self.client.put(publishes)
    }

    /// The copies of retained messages that an event brings, where the broker handed these publishes on (3.3.1.3).
    pub fn copies(
        &self,
        alloc: Global,
        handed: &[Publish],
        event: &ClientEvent,
    ) -> Result<Vec<Publish>, AllocError>
        ensures { IfOk result (λ ps. ps.items ≡ copies_in handed.now self.now event.now) }
    {
        match event {
            ClientEvent::Up => self.client.copies(alloc, handed),
            _other => Ok(Vec::new(alloc)),
        }
    }

    /// An event, and what the broker hands on then.
    pub fn play(&mut self, alloc: Global, event: &ClientEvent) -> Result<Vec<Publish>, StateError>
        ensures ok { OnOk result (self.new ≡ happens_at self.old event.now) }
        ensures new { IfOk result (λ ps. ps.items ≡ new_of self.old self.new) }
        ensures err { IfErr result (λ e. e ≡ StateError.OutOfMemory) }
    {
        let handed = self.client.handed().len();
        let willed = self.willed.len();
        self.happen(alloc, event)?;
        Ok(self.since(alloc, handed, willed)?)
    }

    /// What its receiver handed on, and the wills that the broker published for it, from these places on.
    fn since(&self, alloc: Global, handed: usize, willed: usize) -> Result<Vec<Publish>, AllocError>
        ensures { IfOk result (λ ps. ps.items
            ≡ drop handed self.now.client.receiver.handed ++ drop willed self.now.willed) }
    {
        let mut new = Vec::new(alloc);
        push_new(self.client.handed(), handed, &mut new)?;
        push_new(self.willed.as_slice(), willed, &mut new)?;
        Ok(new)
    }

    /// An event of the session that it has.
    fn happen(&mut self, alloc: Global, event: &ClientEvent) -> Result<(), StateError>
        ensures ok { OnOk result (self.new ≡ happens_at self.old event.now) }
        ensures err { IfErr result (λ e. e ≡ StateError.OutOfMemory) }
    {
        match event {
            ClientEvent::Ask(publish) => self.ask(publish),
            ClientEvent::Subscribe(asked) => self.request(Request::Subscribe(copied(asked)?)),
            ClientEvent::Unsubscribe(asked) => self.request(Request::Unsubscribe(copied(asked)?)),
            ClientEvent::Up => self.client.go_up(alloc),
            ClientEvent::Down => self.client.go_down(),
            ClientEvent::PassOn => self.pass_on(),
            ClientEvent::Expire => Ok(self.client.expire()?),
            ClientEvent::Turn(topic_filter, turn) => {
                self.client.take_turn(topic_filter, *turn);
                Ok(())
            }
            ClientEvent::Lost => Ok(self.lose()?),
            ClientEvent::Due => Ok(self.publish_waiting()?),
            ClientEvent::Dated(interval) => {
                self.date(*interval);
                Ok(())
            }
            ClientEvent::Left => {
                self.leave();
                Ok(())
            }
            ClientEvent::Back(broker_max, client_max, will) => {
                self.come_back(alloc, *broker_max, *client_max, will)
            }
            ClientEvent::Ends => Ok(self.end()?),
        }
    }

    fn ask(&mut self, publish: &Publish) -> Result<(), StateError>
        ensures ok { OnOk result (self.new ≡ record self.old {
          client = sent_from self.old.here (asks_for self.old.client publish.now);
        }) }
        ensures err { IfErr result (λ e. e ≡ StateError.OutOfMemory) }
    {
        self.client.ask(publish)?;
        self.cut_if_away();
        Ok(())
    }

    /// Something about subscriptions is asked for.
    fn request(&mut self, asked: Request) -> Result<(), StateError>
        requires { IsAbout asked }
        ensures ok { OnOk result (self.new ≡ record self.old {
          client = sent_from self.old.here (requests_for self.old.client asked);
        }) }
        ensures err { IfErr result (λ e. e ≡ StateError.OutOfMemory) }
    {
        self.client.request(asked)?;
        self.cut_if_away();
        Ok(())
    }

    /// Where it is away, what it sends goes nowhere.
    fn cut_if_away(&mut self)
        ensures { self.new ≡ record self.old {
          client = sent_from self.old.here self.old.client;
        } }
    {
        if !self.here {
            self.client.cut_off();
        }
    }

    fn pass_on(&mut self) -> Result<(), StateError>
        ensures ok { OnOk result (self.new ≡ record self.old {
          client = passes self.old.here self.old.client;
        }) }
        ensures err { IfErr result (λ e. e ≡ StateError.OutOfMemory) }
    {
        if !self.here {
            return Ok(());
        }
        self.client.pass()
    }

    /// The connection is lost: the broker publishes its will, or that waits (3.1.2.5, 3.1.3.2.2).
    fn lose(&mut self) -> Result<(), AllocError>
        ensures { OnOk result (self.new ≡ loses self.old) }
    {
        self.will = publish_lost(self.will.take(), &mut self.willed)?;
        self.client.cut_off();
        self.here = false;
        Ok(())
    }

    /// Its session ends: its will is published (3.1.3.2.2).
    fn end(&mut self) -> Result<(), AllocError>
        ensures { OnOk result (self.new ≡ ended self.old) }
    {
        push_will(self.will.take(), &mut self.willed)?;
        self.client.cut_off();
        self.here = false;
        Ok(())
    }

    /// The delay of the will that waits has passed.
    fn publish_waiting(&mut self) -> Result<(), AllocError>
        ensures { OnOk result (self.new ≡ record self.old {
          will = not_due self.old.here self.old.will;
          willed = self.old.willed ++ due_message self.old.here self.old.will;
        }) }
    {
        if self.here {
            return Ok(());
        }
        push_will(self.will.take(), &mut self.willed)
    }

    /// Its will has another Message Expiry Interval, if there is one with properties (3.1.3.2.4).
    fn date(&mut self, interval: Option<u32>)
        ensures { self.new ≡ record self.old { will = option_map (expiring interval) self.old.will } }
    {
        self.will = dated_will(self.will.take(), interval);
    }

    /// The client leaves, and its will is dropped; nothing changes of one that is away (3.14.4).
    fn leave(&mut self)
        ensures { self.new ≡ record self.old {
          client = cut_off self.old.client;
          here = false;
          will = left_will self.old.here self.old.will;
        } }
    {
        self.client.cut_off();
        if self.here {
            self.will = None;
        }
        self.here = false;
    }

    /// The client comes on a new connection, with this will.
    fn come_back(
        &mut self,
        alloc: Global,
        broker_max: Option<u16>,
        client_max: Option<u16>,
        will: &Option<Will>,
    ) -> Result<(), StateError>
        ensures ok { OnOk result (self.new ≡ record self.old {
          client = reconnects self.old.client (connected broker_max self.old.client.session)
              (connected client_max self.old.client.sender);
          here = true;
          will = will.now;
          willed = self.old.willed ++ replaced_message self.old.here self.old.will;
        }) }
        ensures err { IfErr result (λ e. e ≡ StateError.OutOfMemory) }
    {
        let will = will_of(will)?;
        self.client.reconnect(alloc, broker_max, client_max)?;
        replace(self.here, self.will.take(), &mut self.willed)?;
        self.here = true;
        self.will = will;
        Ok(())
    }

    /// Whether no step of it finds anything to do. It makes no event, so looking at many clients costs little.
    #[inline]
    #[tactic(auto, using(crate::proofs::Stepped::away_none, crate::proofs::Stepped::here_next))]
    pub fn rests(&self) -> bool
        ensures { result ≡ true → next_of self.now ≡ None }
    {
        !self.here || self.client.rests()
    }

    /// The next step of it that finds something to do, if there is one.
    #[tactic(auto, using(crate::proofs::Stepped::away_none, crate::proofs::Stepped::here_next))]
    pub fn next_step(&self) -> Option<ClientEvent>
        ensures step { result ≡ next_of self.now }
        ensures can { 0 < self.now.client.sender.core.limit }
    {
        let next = self.client.next_step();
        if self.here { next } else { None }
    }
}

/// A copy of a will, if there is one.
fn will_of(will: &Option<Will>) -> Result<Option<Will>, AllocError>
    ensures { IfOk result (λ copy. copy ≡ will.now) }
{
    match will {
        Some(will) => Ok(Some(Will {
            publish: copied(&will.publish)?,
            delayed: will.delayed,
        })),
        None => Ok(None),
    }
}

/// The broker publishes a will, if there is one.
fn push_will(will: Option<Will>, willed: &mut Vec<Publish>) -> Result<(), AllocError>
    ensures { OnOk result (willed.new.items ≡ willed.old.items ++ message_of will) }
{
    if let Some(will) = will {
        willed.push(will.publish)?;
    }
    Ok(())
}

/// The broker publishes the will of a connection that is lost, or answers the one that waits (3.1.3.2.2).
fn publish_lost(will: Option<Will>, willed: &mut Vec<Publish>) -> Result<Option<Will>, AllocError>
    ensures waits { IfOk result (λ w. w ≡ waiting will) }
    ensures published { OnOk result (willed.new.items ≡ willed.old.items ++ lost_message will) }
{
    match will {
        Some(will) => {
            if will.delayed {
                return Ok(Some(will));
            }
            willed.push(will.publish)?;
            Ok(None)
        }
        None => Ok(None),
    }
}

/// The broker publishes the will of a connection that a new one replaces, but none with a delay; one that waits is dropped
/// (3.1.3.2.2, 3.1.4).
fn replace(here: bool, will: Option<Will>, willed: &mut Vec<Publish>) -> Result<(), AllocError>
    ensures { OnOk result (willed.new.items ≡ willed.old.items ++ replaced_message here will) }
{
    if !here {
        return Ok(());
    }
    let _waits = publish_lost(will, willed)?;
    Ok(())
}
