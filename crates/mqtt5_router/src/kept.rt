//! What a broker keeps for a client, and what comes of each packet between them.

ghost use Rattle.std.specs.Prelude.{◌≡◌, ◌<◌, ◌++◌, [], Some, None, IfOk, IfErr, OnOk, OnErr};
ghost use Rattle.std.specs.Prelude.{true, false, if◌then◌else◌};
ghost use Rattle.std.specs.Option.{option_to_list};
ghost use Rattle.std.specs.List.{filter_map};
ghost use Rattle.std.specs.FinSet as set;
ghost use Rattle.std.specs.NonZero.{non_zero_u16_get};
ghost use Rattle.mqtt5_codec.specs.declared.packet.Packet.TheVariants as packets;
ghost use Rattle.mqtt5_session.specs.Packets.{pubcomp_of};
ghost use Rattle.mqtt5_session.specs.Resuming.{resume_of};
ghost use Rattle.mqtt5_session.specs.Ledger.{kept_by};
ghost use Rattle.mqtt5_world.specs.Broker.{serve_publish, reason_for};
ghost use Rattle.mqtt5_network.specs.Connection.{is_sending, connected, sent_in};
ghost use Rattle.mqtt5_network.specs.Subscriptions.{turned, forwarded_to};
ghost use Rattle.mqtt5_network.specs.Asking.{is_ack, identifier_of, subscribed_all, unsubscribed_all, answer_of};
ghost use Rattle.mqtt5_network.specs.Retained.{copies_for};
ghost use Rattle.mqtt5_network.specs.Client.{comes_to};
ghost use Rattle.mqtt5_router.specs.Kept.{new_kept, without_events, without_first, kept_of, alone};
ghost use Rattle.mqtt5_router.specs.Kept.{after_packet, after_pass};

use crate::asking::{identifier_of, subscribe_all, unsubscribe_all};
use crate::queue::forwarded;
use crate::retained::copies_all;
use crate::sessions::{connect, request, take_up};
use crate::subscriptions::turn;
use mqtt5_base::{QoS, Text, copied};
use mqtt5_codec::Packet;
use mqtt5_network::Subscription;
use mqtt5_publish::Publish;
use mqtt5_session::{Ids, MqttState, Request, StateError};
use mqtt5_subscribe::{SubAck, Subscribe, UnsubAck, Unsubscribe};
use mqtt5_world::{puback, pubcomp, pubrec};
use std::alloc::{AllocError, Global};
use std::collections::VecDeque;
use std::marker::Model;
use std::num::NonZeroU16;

/// What a broker keeps for a client: the ids of its publishes of QoS 2 that aren't released, the session by which the broker
/// sends to it, its subscriptions, and the queue of what is still to be sent to it (MQTT 5.0 section 4.1).
#[derive(Debug, Drop)]
pub struct Kept {
    ids: Ids,
    sender: MqttState,
    subscriptions: Vec<Subscription>,
    queue: VecDeque<Publish>,
}

impl Model for Kept {
    ghost use Rattle.std.specs.Coded.{codes};
    ghost use Rattle.mqtt5_base.specs.Codes.{utf8_code};
    ghost use Rattle.mqtt5_base.specs.contracts.quality.QoS as quality;
    ghost use Rattle.mqtt5_publish.specs.contracts.publish.Publish as publish;
    ghost use Rattle.mqtt5_codec.specs.contracts.packet.Packet as packet;
    ghost use Rattle.mqtt5_inflight.specs.Codes.{coded_in_use, coded_aliases, coded_incoming};
    ghost use Rattle.mqtt5_inflight.specs.contracts.event.Event as event;
    ghost use Rattle.mqtt5_network.specs.contracts.subscription.Subscription as subscription;
    ghost use Rattle.mqtt5_router.specs.Kept as model;

    ghost Value = { model.Kept };

    ghost coded = { Prim.hlevel (codes, coded_in_use, coded_aliases, coded_incoming, utf8_code, quality.the_row.coded, event.the_row.coded, packet.the_row.coded, publish.the_row.coded, subscription.the_row.coded) };

    ghost view = { λ a. record {
      ids = a.ids;
      sender = a.sender;
      subscriptions = a.subscriptions.items;
      queue = a.queue.items;
    } };
}

/// What comes of a packet of a client.
#[derive(Debug, Drop)]
pub struct Arrived {
    /// What is sent back to the client, if anything is.
    pub reply: Option<Packet>,
    /// The publish that is handed on to subscribers, if one is: as it came.
    pub handed: Option<Publish>,
}

/// What comes of passing the first of a queue.
#[derive(Debug, Drop)]
pub struct Passed {
    /// What is sent to the client, if anything is.
    pub sent: Option<Packet>,
    /// The publish that left the queue, if one did: it is sent, or waits at the sender for its id.
    pub taken: Option<Publish>,
}

impl Kept {
    /// What is kept for a client of which nothing came, with these subscriptions; `limit` is the greatest packet identifier that
    /// the broker uses to it (2.2.1).
    pub fn new(
        alloc: Global,
        limit: NonZeroU16,
        subscriptions: Vec<Subscription>,
    ) -> Result<Kept, StateError>
        ensures ok { IfOk result
            (λ k. k ≡ new_kept (non_zero_u16_get limit) subscriptions.items) }
        ensures memory { IfErr result (λ e. e ≡ StateError.OutOfMemory) }
    {
        let sender = MqttState::new(alloc, limit.get(), false)?;
        Ok(Kept {
            ids: Ids::new(alloc),
            sender,
            subscriptions,
            queue: VecDeque::new(alloc),
        })
    }

    /// What is kept for the client once its session has ended and it has a new one: the same limit, and nothing else (3.1.2.4).
    pub fn renewed(&self, alloc: Global) -> Result<Kept, StateError>
        ensures ok { IfOk result (λ k. k ≡ new_kept self.now.sender.core.limit []) }
        ensures memory { IfErr result (λ e. e ≡ StateError.OutOfMemory) }
    {
        Ok(Kept {
            ids: Ids::new(alloc),
            sender: MqttState::new(alloc, self.limit(), false)?,
            subscriptions: Vec::new(alloc),
            queue: VecDeque::new(alloc),
        })
    }

    /// The greatest packet identifier that the broker uses to the client; it is 1 at least.
    pub fn limit(&self) -> u16
        ensures limit { result ≡ self.now.sender.core.limit }
        ensures some { 0 < result }
    {
        let _last = self.sender.last_pkid();
        self.sender.max_outgoing_inflight_upper_limit()
    }

    /// The client's subscriptions, in the order of their last Subscribe.
    pub fn subscriptions(&self) -> &[Subscription]
        ensures { result.now ≡ self.now.subscriptions }
    {
        self.subscriptions.as_slice()
    }

    /// The publishes that are still to be sent to it, in order, as they are forwarded.
    pub fn queue(&self) -> &VecDeque<Publish>
        ensures { result.now.items ≡ self.now.queue }
    {
        &self.queue
    }

    /// A packet comes from the client: what is sent back, and what is handed on (3.8.4, 3.10.4 and 4.3). A Subscribe is granted
    /// all that it asks for; a packet that is neither about a publish nor about subscriptions does nothing. S12, which leaves all
    /// as it was.
    #[tactic(auto, using(crate::proofs::Arriving::ack_arrives, crate::proofs::Arriving::other_arrives))]
    pub fn arrive(&mut self, alloc: Global, packet: Packet) -> Result<Arrived, StateError>
        ensures kept { OnOk result (self.new ≡ kept_of (after_packet self.old packet)) }
        // What such a client, of which nothing was on its way, has on its way down then.
        ensures reply { IfOk result
            (λ a. option_to_list a.reply ≡ (after_packet self.old packet).down) }
        // And what was handed on of it.
        ensures handed { IfOk result
            (λ a. option_to_list a.handed ≡ (after_packet self.old packet).receiver.handed) }
        ensures memory { IfErr result (λ e. e ≡ StateError.OutOfMemory) }
        ensures left { OnErr result (self.new ≡ self.old) }
    {
        if is_ack(&packet) {
            return self.hear(packet);
        }
        let arrived = self.answer(alloc, &packet);
        drop(packet);
        arrived
    }

    /// An ack comes to the sender.
    fn hear(&mut self, packet: Packet) -> Result<Arrived, StateError>
        ensures kept { OnOk result
            (self.new ≡ kept_of (comes_to false true (alone self.old) packet)) }
        ensures reply { IfOk result
            (λ a. option_to_list a.reply ≡ (comes_to false true (alone self.old) packet).down) }
        ensures handed { IfOk result (λ a. a.handed ≡ None) }
        ensures memory { IfErr result (λ e. e ≡ StateError.OutOfMemory) }
        ensures left { OnErr result (self.new ≡ self.old) }
    {
        match self.sender.handle_incoming_packet(packet, 0) {
            Ok(reply) => Ok(Arrived {
                reply,
                handed: None,
            }),
            Err(StateError::OutOfMemory) => Err(StateError::OutOfMemory),
            Err(_) => Ok(Arrived {
                reply: None,
                handed: None,
            }),
        }
    }

    /// Another packet comes: to the receiver, or about subscriptions.
    fn answer(&mut self, alloc: Global, packet: &Packet) -> Result<Arrived, StateError>
        ensures kept { OnOk result (self.new
            ≡ kept_of (comes_to (is_sending packet.now) false (alone self.old) packet.now)) }
        ensures reply { IfOk result (λ a. option_to_list a.reply
            ≡ (comes_to (is_sending packet.now) false (alone self.old) packet.now).down) }
        ensures handed { IfOk result (λ a. option_to_list a.handed
            ≡ (comes_to (is_sending packet.now) false (alone self.old)
            packet.now).receiver.handed) }
        ensures memory { IfErr result (λ e. e ≡ StateError.OutOfMemory) }
        ensures left { OnErr result (self.new ≡ self.old) }
    {
        match packet {
            Packet::Publish(publish) => Ok(self.receive_copy(publish)?),
            Packet::PubRel(release) => Ok(self.release(release.pkid)),
            Packet::Subscribe(request) => Ok(self.subscribe(alloc, request)?),
            Packet::Unsubscribe(request) => Ok(self.unsubscribe(alloc, request)?),
            _other => Ok(Arrived {
                reply: None,
                handed: None,
            }),
        }
    }

    /// A publish comes to the receiver.
    fn receive_copy(&mut self, publish: &Publish) -> Result<Arrived, AllocError>
        ensures kept { OnOk result (self.new ≡ record self.old {
          ids
              = (serve_publish publish.now.qos (alone self.old).receiver publish.now).1.ids;
        }) }
        ensures reply { IfOk result (λ a. a.reply
            ≡ (serve_publish publish.now.qos (alone self.old).receiver publish.now).0) }
        ensures handed { IfOk result (λ a. option_to_list a.handed
            ≡ (serve_publish publish.now.qos (alone self.old).receiver publish.now).1.handed) }
        ensures left { OnErr result (self.new ≡ self.old) }
    {
        let publish = copied(publish)?;
        self.receive(publish)
    }

    /// A publish is handed on by its QoS: of QoS 2 once, until its id is released (4.3).
    fn receive(&mut self, publish: Publish) -> Result<Arrived, AllocError>
        ensures kept { OnOk result (self.new ≡ record self.old {
          ids = (serve_publish publish.qos (alone self.old).receiver publish).1.ids;
        }) }
        ensures reply { IfOk result (λ a. a.reply
            ≡ (serve_publish publish.qos (alone self.old).receiver publish).0) }
        ensures handed { IfOk result (λ a. option_to_list a.handed
            ≡ (serve_publish publish.qos (alone self.old).receiver publish).1.handed) }
        ensures left { OnErr result (self.new ≡ self.old) }
    {
        let id = publish.pkid;
        match publish.qos {
            QoS::AtMostOnce => Ok(Arrived {
                reply: None,
                handed: Some(publish),
            }),
            QoS::AtLeastOnce => Ok(Arrived {
                reply: Some(puback(id)),
                handed: Some(publish),
            }),
            QoS::ExactlyOnce => {
                let had = self.ids.contains(id);
                self.ids.insert(id)?;
                Ok(Arrived {
                    reply: Some(pubrec(id)),
                    handed: unless(had, publish),
                })
            }
        }
    }

    /// Releases an id, and answers whether it was there.
    fn release(&mut self, id: u16) -> Arrived
        ensures kept { self.new ≡ record self.old { ids = set.remove self.old.ids id } }
        ensures reply { result.reply
            ≡ Some (pubcomp_of id (reason_for (set.contains self.old.ids id))) }
        ensures handed { result.handed ≡ None }
    {
        let had = self.ids.contains(id);
        self.ids.remove(id);
        Arrived {
            reply: Some(pubcomp(id, had)),
            handed: None,
        }
    }

    fn subscribe(&mut self, alloc: Global, request: &Subscribe) -> Result<Arrived, AllocError>
        ensures kept { OnOk result (self.new ≡ record self.old {
          subscriptions = subscribed_all (identifier_of request.now.properties)
              request.now.filters self.old.subscriptions;
        }) }
        ensures reply { IfOk result (λ a. a.reply
            ≡ answer_of self.old.subscriptions (packets.Subscribe request.now)) }
        ensures handed { IfOk result (λ a. a.handed ≡ None) }
        ensures left { OnErr result (self.new ≡ self.old) }
    {
        let identifier = identifier_of(&request.properties);
        let filters = request.filters.as_slice();
        let codes = subscribe_all(alloc, &mut self.subscriptions, identifier, filters)?;
        let answer = SubAck {
            pkid: request.pkid,
            return_codes: codes,
            properties: None,
        };
        Ok(Arrived {
            reply: Some(Packet::SubAck(answer)),
            handed: None,
        })
    }

    fn unsubscribe(&mut self, alloc: Global, request: &Unsubscribe) -> Result<Arrived, AllocError>
        ensures kept { OnOk result (self.new ≡ record self.old {
          subscriptions = unsubscribed_all request.now.filters self.old.subscriptions;
        }) }
        ensures reply { IfOk result (λ a. a.reply
            ≡ answer_of self.old.subscriptions (packets.Unsubscribe request.now)) }
        ensures handed { IfOk result (λ a. a.handed ≡ None) }
        ensures left { OnErr result (self.new ≡ self.old) }
    {
        let reasons = unsubscribe_all(alloc, &mut self.subscriptions, request.filters.as_slice())?;
        let answer = UnsubAck {
            pkid: request.pkid,
            reasons,
            properties: None,
        };
        Ok(Arrived {
            reply: Some(Packet::UnsubAck(answer)),
            handed: None,
        })
    }

    /// Gives the client the turn in the shared subscription of a topic filter, or takes it, if it has that (4.8.2). Takes no
    /// memory.
    pub fn turn(&mut self, topic_filter: &Text, on: bool)
        ensures { self.new ≡ record self.old {
          subscriptions = turned topic_filter.now on self.old.subscriptions;
        } }
    {
        turn(self.subscriptions.as_mut_slice(), topic_filter, on);
    }

    /// What is forwarded of publishes that are handed on, `own` where the client published them itself, under its subscriptions
    /// as they are now (3.3.4). Nothing is put into the queue yet. Err where memory is refused.
    #[tactic(auto, using(crate::proofs::Arriving::forwarded_next))]
    pub fn forwarded(
        &self,
        alloc: Global,
        own: bool,
        publishes: &[Publish],
    ) -> Result<Vec<Publish>, AllocError>
        ensures { IfOk result (λ ps. ps.items
            ≡ filter_map (forwarded_to own self.now.subscriptions) publishes.now) }
    {
        let mut all = Vec::new(alloc);
        for i in 0..publishes.len() {
            push_some(
                forwarded(alloc, own, self.subscriptions.as_slice(), &publishes[i])?,
                &mut all,
            )?;
        }
        Ok(all)
    }

    /// The copies of retained messages that a packet of the client brings, if it is a Subscribe, filter by filter: to be put into
    /// the queue (3.3.1.3 and 3.8.3.1). Err where memory is refused.
    pub fn copies(
        &self,
        alloc: Global,
        retained: &[Publish],
        packet: &Packet,
    ) -> Result<Vec<Publish>, AllocError>
        ensures { IfOk result (λ ps. ps.items
            ≡ copies_for retained.now self.now.subscriptions packet.now) }
    {
        match packet {
            Packet::Subscribe(request) => copies_all(
                alloc,
                retained,
                identifier_of(&request.properties),
                request.filters.as_slice(),
                self.subscriptions.as_slice(),
            ),
            _other => Ok(Vec::new(alloc)),
        }
    }

    /// Puts publishes at the end of the queue. Err where memory is refused, with the queue as it was.
    pub fn put(&mut self, publishes: Vec<Publish>) -> Result<(), AllocError>
        ensures ok { OnOk result (self.new
            ≡ record self.old { queue = self.old.queue ++ publishes.items }) }
        ensures left { OnErr result (self.new ≡ self.old) }
    {
        let mut more = VecDeque::from(publishes);
        self.queue.append(&mut more)
    }

    /// The first of the queue is asked of the sender, which keeps it until it is acked: what is sent to the client, and the
    /// publish that was taken on. One whose id another one waits for stays the first, and nothing is sent (2.2.1). S12, which
    /// leaves all as it was.
    #[tactic(auto, using(crate::proofs::Arriving::none_passes, crate::proofs::Arriving::none_is_sent, crate::proofs::Arriving::none_is_taken, crate::proofs::Arriving::first_passes, crate::proofs::Arriving::first_stays, crate::proofs::Arriving::first_is_sent, crate::proofs::Arriving::first_is_taken, crate::proofs::Arriving::none_is_taken_on))]
    pub fn pass(&mut self) -> Result<Passed, StateError>
        ensures kept { OnOk result (self.new ≡ kept_of (after_pass self.old)) }
        ensures sent { IfOk result (λ a. option_to_list a.sent ≡ (after_pass self.old).down) }
        ensures taken { IfOk result (λ a. option_to_list a.taken ≡ (after_pass self.old).taken) }
        ensures memory { IfErr result (λ e. e ≡ StateError.OutOfMemory) }
        ensures left { OnErr result (self.new ≡ self.old) }
    {
        if self.queue.is_empty() {
            return Ok(Passed {
                sent: None,
                taken: None,
            });
        }
        let first = copied(&self.queue[0])?;
        let (accepted, sent) = request(&mut self.sender, Request::Publish(first))?;
        if !accepted {
            return Ok(Passed { sent, taken: None });
        }
        Ok(Passed {
            sent,
            taken: self.queue.pop_front(),
        })
    }

    /// The first of the queue is taken out, if there is one, since it has expired (3.3.2.3.3). Takes no memory.
    pub fn expire(&mut self)
        ensures { self.new ≡ without_first self.old }
    {
        drop(self.queue.pop_front());
    }

    /// What the sender sends again on a new connection, where the client says this receive maximum, if it says one (3.1.2.11.3
    /// and 4.4). S12.
    pub fn take_up(
        &mut self,
        alloc: Global,
        receive_max: Option<u16>,
    ) -> Result<VecDeque<Packet>, StateError>
        ensures kept { OnOk result (self.new ≡ record self.old {
          sender = kept_by (connected receive_max self.old.sender)
              (resume_of (connected receive_max self.old.sender) 0);
        }) }
        ensures sent { IfOk result
            (λ way. way.items ≡ sent_in (resume_of (connected receive_max self.old.sender) 0)) }
        ensures memory { IfErr result (λ e. e ≡ StateError.OutOfMemory) }
        // What isn't the sender's is as it was.
        ensures left { OnErr result (self.new ≡ record self.old { sender = self.new.sender }) }
    {
        connect(&mut self.sender, alloc, receive_max)?;
        take_up(&mut self.sender, alloc)
    }

    /// Takes out the events at the sender, by which a session tells its user of what it sends and takes. They are more with each
    /// packet, and what a broker answers doesn't depend on them. Takes no memory.
    pub fn forget_events(&mut self)
        ensures { self.new ≡ without_events self.old }
    {
        forget(&mut self.sender);
    }
}

/// Takes out all events of a session.
fn forget(sender: &mut MqttState)
    ensures { sender.new ≡ record sender.old { events = [] } }
{
    while !sender.events().is_empty() {
        drop(sender.pop_event());
    }
}

/// Whether a packet is the ack of a publish or of a release (4.3).
fn is_ack(packet: &Packet) -> bool
    ensures { result ≡ is_ack packet.now }
{
    matches!(
        packet,
        Packet::PubAck(_) | Packet::PubRec(_) | Packet::PubComp(_)
    )
}

/// A publish, or nothing where the broker had its id.
fn unless(had: bool, publish: Publish) -> Option<Publish>
    ensures { result ≡ (if had then None else Some publish) }
{
    if had { None } else { Some(publish) }
}

/// Puts a publish behind others, if there is one.
fn push_some(publish: Option<Publish>, all: &mut Vec<Publish>) -> Result<(), AllocError>
    ensures { OnOk result (all.new.items ≡ all.old.items ++ option_to_list publish) }
{
    if let Some(publish) = publish {
        all.push(publish)?;
    }
    Ok(())
}
