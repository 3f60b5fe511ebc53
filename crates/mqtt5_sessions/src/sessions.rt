//! What a broker keeps of all its clients.

ghost use Rattle.std.specs.Prelude.{◌≡◌, [], IfOk, IfErr, OnOk, OnErr, length};
ghost use Rattle.std.specs.Option.{option_to_list};
ghost use Rattle.std.specs.NonZero.{non_zero_u16_get};
ghost use Rattle.mqtt5_sessions.specs.Sessions.{joins, arrives, replies, passes, passed, takes_out, loses};
ghost use Rattle.mqtt5_sessions.specs.Sessions.{is_due, dates, is_here, turns, leaves, comes, sent_again, ends};
ghost use Rattle.mqtt5_sessions.specs.Counts.{counts};
ghost use Rattle.mqtt5_sessions.specs.Expiry.{message_expiry, will_expiry, will_is_delayed};
ghost use Rattle.mqtt5_sessions.specs.Shedding.{sheds, surplus_of};
ghost use Rattle.mqtt5_sessions.specs.Waiting.{IsNextWaiting};
ghost use Rattle.mqtt5_sessions.specs.Bringing.{overfills};

use crate::bringing::brings_more;
use crate::client::ClientState;
use crate::coming::{Coming, deliver_all, hand_on, is_publish, of_packet, of_will};
use crate::counts::Counts;
use crate::marks::{arrive, leave};
use crate::waiting::{next_waiting, note};
use mqtt5_base::Text;
use mqtt5_codec::Packet;
use mqtt5_network::Will;
use mqtt5_publish::Publish;
use mqtt5_session::StateError;
use mqtt5_subscribe::Filter;
use mqtt5_topic_index::TopicIndex;
use std::alloc::Global;
use std::collections::{BTreeSet, VecDeque};
use std::marker::Model;
use std::num::NonZeroU16;

/// What a broker keeps of all its clients, which are numbered from 0, and the messages that it retains (MQTT 5.0 sections 3.3.1.3
/// and 4.1). What happens to a client that isn't there is nothing.
#[derive(Debug, Drop)]
pub struct Sessions {
    clients: Vec<ClientState>,
    retained: Vec<Publish>,
    coming: VecDeque<Coming>,
    index: TopicIndex,
    noted: BTreeSet<usize>,
}

impl Model for Sessions {
    ghost use Rattle.std.specs.Coded.{codes};
    ghost use Rattle.mqtt5_base.specs.Codes.{utf8_code};
    ghost use Rattle.mqtt5_base.specs.contracts.quality.QoS as quality;
    ghost use Rattle.mqtt5_publish.specs.contracts.publish.Publish as publish;
    ghost use Rattle.mqtt5_codec.specs.contracts.packet.Packet as packet;
    ghost use Rattle.mqtt5_inflight.specs.Codes.{coded_in_use, coded_aliases, coded_incoming};
    ghost use Rattle.mqtt5_inflight.specs.contracts.event.Event as event;
    ghost use Rattle.mqtt5_network.specs.contracts.subscription.Subscription as subscription;
    ghost use Rattle.mqtt5_sessions.specs.Sessions as model;
    ghost use Rattle.mqtt5_sessions.specs.Coming.{delivered};
    ghost use Rattle.mqtt5_sessions.specs.Followed.{IsFollowed};

    ghost Value = { model.Sessions };

    ghost coded = { Prim.hlevel (codes, coded_in_use, coded_aliases, coded_incoming, utf8_code, quality.the_row.coded, event.the_row.coded, packet.the_row.coded, publish.the_row.coded, subscription.the_row.coded) };

    ghost view = { λ a. record {
      clients = delivered a.coming.items a.clients.items;
      retained = a.retained.items;
    } };

    ghost invariant = { λ a. IsFollowed a.index a.noted a.clients.items };
}

impl Sessions {
    /// Of no client, and nothing is retained. Takes no memory.
    pub fn new(alloc: Global) -> Sessions
        ensures { result ≡ record { clients = []; retained = [] } }
    {
        Sessions {
            clients: Vec::new(alloc),
            retained: Vec::new(alloc),
            coming: VecDeque::new(alloc),
            index: TopicIndex::new(alloc),
            noted: BTreeSet::new(alloc),
        }
    }

    /// The messages that are retained.
    pub fn retained(&self) -> &[Publish]
        ensures { result.now ≡ self.now.retained }
    {
        self.retained.as_slice()
    }

    /// How much is kept for a client: nothing for one that isn't there. S12.
    pub fn count(&mut self, alloc: Global, client: usize) -> Result<Counts, StateError>
        ensures counted { IfOk result (λ n. n ≡ counts client self.old) }
        ensures memory { IfErr result (λ e. e ≡ StateError.OutOfMemory) }
        // In each case nothing changes.
        ensures same { self.new ≡ self.old }
    {
        deliver_all(alloc, &mut self.coming, &mut self.clients, &mut self.noted)?;
        if client >= self.clients.len() {
            return Ok(Counts {
                subscriptions: 0,
                queued: 0,
                bytes: 0,
            });
        }
        Ok(self.clients[client].counts())
    }

    /// Whether a Subscribe to these filters may bring more copies of retained messages than there is room for in a client's queue, in
    /// which so many may be (3.3.1.3). Of filters that are the same each is counted; who isn't there has an empty queue. S12.
    pub fn overfills(
        &mut self,
        alloc: Global,
        client: usize,
        filters: &[Filter],
        most: usize,
    ) -> Result<bool, StateError>
        ensures ok { IfOk result (λ o. o ≡ overfills most client filters.now self.old) }
        ensures memory { IfErr result (λ e. e ≡ StateError.OutOfMemory) }
        // In each case nothing changes.
        ensures same { self.new ≡ self.old }
    {
        deliver_all(alloc, &mut self.coming, &mut self.clients, &mut self.noted)?;
        if client >= self.clients.len() {
            return Ok(brings_more(self.retained.as_slice(), &[], filters, most));
        }
        Ok(self.clients[client].overfills(self.retained.as_slice(), filters, most))
    }

    /// One more client comes to be known, which isn't connected: its number. `limit` is the greatest packet identifier that the
    /// broker uses to it (2.2.1). S12, which leaves all as it was.
    pub fn join(&mut self, alloc: Global, limit: NonZeroU16) -> Result<usize, StateError>
        ensures ok { OnOk result (self.new ≡ joins (non_zero_u16_get limit) self.old) }
        ensures number { IfOk result (λ i. i ≡ length self.old.clients) }
        ensures memory { IfErr result (λ e. e ≡ StateError.OutOfMemory) }
        ensures left { OnErr result (self.new ≡ self.old) }
    {
        deliver_all(alloc, &mut self.coming, &mut self.clients, &mut self.noted)?;
        let client = ClientState::new(alloc, limit)?;
        let number = self.clients.len();
        self.clients.push(client)?;
        Ok(number)
    }

    /// A packet comes from a client: what is sent back, if anything is. A publish is handed on at once to each client of which a
    /// subscription holds for it, into its queue, and is retained, if it asks for that (3.3.1.3, 3.3.4, 3.8.4, 3.10.4 and 4.3). S12,
    /// which leaves all as it was.
    pub fn arrive(
        &mut self,
        alloc: Global,
        client: usize,
        packet: Packet,
    ) -> Result<Option<Packet>, StateError>
        ensures ok { OnOk result (self.new ≡ arrives client packet self.old) }
        ensures reply { IfOk result (λ r. option_to_list r ≡ replies client packet self.old) }
        ensures memory { IfErr result (λ e. e ≡ StateError.OutOfMemory) }
        ensures left { OnErr result (self.new ≡ self.old) }
    {
        deliver_all(alloc, &mut self.coming, &mut self.clients, &mut self.noted)?;
        if client >= self.clients.len() {
            return Ok(None);
        }
        let made = of_packet(
            alloc,
            client,
            &packet,
            self.clients.as_slice(),
            &self.index,
            self.retained.as_slice(),
        )?;
        self.retained.reserve(1)?;
        let publishes = is_publish(&packet);
        let arrived = arrive(
            alloc,
            client,
            packet,
            &mut self.clients[client],
            &mut self.index,
        )?;
        let reply = arrived.reply;
        let handed = arrived.handed;
        if publishes {
            hand_on(handed, made, &mut self.coming, &mut self.retained);
            return Ok(reply);
        }
        self.coming = made;
        Ok(reply)
    }

    /// The first publish of a client's queue is passed on, if there is one, and the client is connected: what is sent to it. One
    /// whose identifier another one waits for stays the first, and nothing is sent (2.2.1). S12, which leaves all as it was.
    pub fn pass(&mut self, alloc: Global, client: usize) -> Result<Option<Packet>, StateError>
        ensures ok { OnOk result (self.new ≡ passes client self.old) }
        ensures sent { IfOk result (λ r. option_to_list r ≡ passed client self.old) }
        ensures memory { IfErr result (λ e. e ≡ StateError.OutOfMemory) }
        ensures left { OnErr result (self.new ≡ self.old) }
    {
        deliver_all(alloc, &mut self.coming, &mut self.clients, &mut self.noted)?;
        if client >= self.clients.len() {
            return Ok(None);
        }
        let sent = self.clients[client].pass()?;
        Ok(sent)
    }

    /// The first client, from a number on, that is connected and has something in its queue, if there is one: to no other is anything
    /// passed on (`waiting_law`). S12.
    pub fn next_waiting(&mut self, alloc: Global, from: usize) -> Result<Option<usize>, StateError>
        ensures next { IfOk result (λ client. IsNextWaiting from client self.old) }
        ensures memory { IfErr result (λ e. e ≡ StateError.OutOfMemory) }
        // In each case nothing changes.
        ensures same { self.new ≡ self.old }
    {
        deliver_all(alloc, &mut self.coming, &mut self.clients, &mut self.noted)?;
        let next = next_waiting(&mut self.noted, from, self.clients.as_slice());
        Ok(next)
    }

    /// The Message Expiry Interval of the first publish of a client's queue, as it came, if there is one and it has one
    /// (3.3.2.3.3). S12.
    pub fn message_expiry(
        &mut self,
        alloc: Global,
        client: usize,
    ) -> Result<Option<u32>, StateError>
        ensures ok { IfOk result (λ n. n ≡ message_expiry client self.old) }
        ensures memory { IfErr result (λ e. e ≡ StateError.OutOfMemory) }
        // In each case nothing changes.
        ensures same { self.new ≡ self.old }
    {
        deliver_all(alloc, &mut self.coming, &mut self.clients, &mut self.noted)?;
        if client >= self.clients.len() {
            return Ok(None);
        }
        Ok(self.clients[client].message_expiry())
    }

    /// The first publish of a client's queue is taken out, if there is one, since it has expired (3.3.2.3.3). S12, which leaves
    /// all as it was.
    pub fn expire(&mut self, alloc: Global, client: usize) -> Result<(), StateError>
        ensures ok { OnOk result (self.new ≡ takes_out client self.old) }
        ensures memory { IfErr result (λ e. e ≡ StateError.OutOfMemory) }
        ensures left { OnErr result (self.new ≡ self.old) }
    {
        deliver_all(alloc, &mut self.coming, &mut self.clients, &mut self.noted)?;
        if client >= self.clients.len() {
            return Ok(());
        }
        self.clients[client].expire();
        Ok(())
    }

    /// Of a client's queue the first publishes are let go, as long as more than `most` wait, or more bytes of their frames than
    /// `bytes`, and they are of QoS 0 (4.3.1), or of any QoS where `any` says so: how many. S12, which leaves all as it was.
    pub fn shed(
        &mut self,
        alloc: Global,
        client: usize,
        any: bool,
        most: usize,
        bytes: u64,
    ) -> Result<usize, StateError>
        ensures ok { OnOk result (self.new ≡ sheds any most bytes client self.old) }
        ensures count { IfOk result (λ n. n ≡ surplus_of any most bytes client self.old) }
        ensures memory { IfErr result (λ e. e ≡ StateError.OutOfMemory) }
        ensures left { OnErr result (self.new ≡ self.old) }
    {
        deliver_all(alloc, &mut self.coming, &mut self.clients, &mut self.noted)?;
        if client >= self.clients.len() {
            return Ok(0);
        }
        let count = self.clients[client].shed(any, most, bytes);
        Ok(count)
    }

    /// A client's connection is lost: its will is published, or waits, if it has a delay (3.1.2.5, 3.1.3.2.2). S12, which leaves
    /// all as it was.
    pub fn lose(&mut self, alloc: Global, client: usize) -> Result<(), StateError>
        ensures ok { OnOk result (self.new ≡ loses client self.old) }
        ensures memory { IfErr result (λ e. e ≡ StateError.OutOfMemory) }
        ensures left { OnErr result (self.new ≡ self.old) }
    {
        deliver_all(alloc, &mut self.coming, &mut self.clients, &mut self.noted)?;
        if client >= self.clients.len() {
            return Ok(());
        }
        let made = of_will(alloc, client, self.clients.as_slice(), &self.index)?;
        self.retained.reserve(1)?;
        let handed = self.clients[client].lose();
        hand_on(handed, made, &mut self.coming, &mut self.retained);
        Ok(())
    }

    /// The delay of a will has passed: of a client that isn't connected the one that waits is published, if there is one
    /// (3.1.3.2.2). S12, which leaves all as it was.
    pub fn due(&mut self, alloc: Global, client: usize) -> Result<(), StateError>
        ensures ok { OnOk result (self.new ≡ is_due client self.old) }
        ensures memory { IfErr result (λ e. e ≡ StateError.OutOfMemory) }
        ensures left { OnErr result (self.new ≡ self.old) }
    {
        deliver_all(alloc, &mut self.coming, &mut self.clients, &mut self.noted)?;
        if client >= self.clients.len() {
            return Ok(());
        }
        let made = of_will(alloc, client, self.clients.as_slice(), &self.index)?;
        self.retained.reserve(1)?;
        let handed = self.clients[client].publish_waiting();
        hand_on(handed, made, &mut self.coming, &mut self.retained);
        Ok(())
    }

    /// The Message Expiry Interval of a client's will, the one of its connection or the one that waits, if there is one and it has one
    /// (3.1.3.2.4).
    pub fn will_expiry(&self, client: usize) -> Option<u32>
        ensures { result ≡ will_expiry client self.now }
    {
        if client >= self.clients.len() {
            return None;
        }
        self.clients[client].will_expiry()
    }

    /// Whether a client's will waits once its connection is lost, since it has a delay (3.1.3.2.2): not where there is none.
    pub fn will_is_delayed(&self, client: usize) -> bool
        ensures { result ≡ will_is_delayed client self.now }
    {
        if client >= self.clients.len() {
            return false;
        }
        self.clients[client].will_is_delayed()
    }

    /// A client's will has this Message Expiry Interval from now on, or none; nothing changes where there is no will, or one without
    /// properties. A broker counts it down from the moment at which it publishes the will (3.1.3.2.4). Takes no memory.
    pub fn set_will_expiry(&mut self, client: usize, interval: Option<u32>)
        ensures { self.new ≡ dates client interval self.old }
    {
        if client >= self.clients.len() {
            return;
        }
        self.clients[client].set_will_expiry(interval);
    }

    /// Whether a client is connected: not one that isn't there.
    pub fn is_here(&self, client: usize) -> bool
        ensures { result ≡ is_here client self.now }
    {
        if client >= self.clients.len() {
            return false;
        }
        self.clients[client].is_here()
    }

    /// A client is given the turn in the shared subscription of a topic filter, or that is taken from it, if it has such a
    /// subscription (4.8.2): only in its turn something is forwarded under that. Takes no memory.
    pub fn turn(&mut self, client: usize, topic_filter: &Text, turn: bool)
        ensures { self.new ≡ turns client topic_filter.now turn self.old }
    {
        if client >= self.clients.len() {
            return;
        }
        self.clients[client].turn(topic_filter, turn);
    }

    /// A client leaves, with a Disconnect of reason 0: its will is dropped (3.14.4). S12, which leaves all as it was.
    pub fn leave(&mut self, alloc: Global, client: usize) -> Result<(), StateError>
        ensures ok { OnOk result (self.new ≡ leaves client self.old) }
        ensures memory { IfErr result (λ e. e ≡ StateError.OutOfMemory) }
        ensures left { OnErr result (self.new ≡ self.old) }
    {
        deliver_all(alloc, &mut self.coming, &mut self.clients, &mut self.noted)?;
        if client >= self.clients.len() {
            return Ok(());
        }
        self.clients[client].leave();
        Ok(())
    }

    /// A client comes on a new connection, with the receive maximum that it says, if it says one, and its will: what is sent again
    /// (4.4). One that is connected takes its own session over (3.1.4): the will of the old connection is published, or dropped, if it
    /// has a delay. A will that waits is dropped. S12.
    pub fn come(
        &mut self,
        alloc: Global,
        client: usize,
        receive_max: Option<u16>,
        will: Option<Will>,
    ) -> Result<VecDeque<Packet>, StateError>
        ensures ok { OnOk result (self.new ≡ comes client receive_max will self.old) }
        ensures sent { IfOk result (λ way. way.items ≡ sent_again client receive_max self.old) }
        ensures memory { IfErr result (λ e. e ≡ StateError.OutOfMemory) }
    {
        deliver_all(alloc, &mut self.coming, &mut self.clients, &mut self.noted)?;
        if client >= self.clients.len() {
            return Ok(VecDeque::new(alloc));
        }
        let made = of_will(alloc, client, self.clients.as_slice(), &self.index)?;
        self.retained.reserve(1)?;
        note(&mut self.noted, client)?;
        let (way, handed) = self.clients[client].come(alloc, receive_max, will)?;
        hand_on(handed, made, &mut self.coming, &mut self.retained);
        Ok(way)
    }

    /// A client's session ends, by a clean start or since it expired, with all that was kept for it, and its will is published, also
    /// one that waits (3.1.2.4, 3.1.3.2.2). S12, which leaves all as it was.
    pub fn end(&mut self, alloc: Global, client: usize) -> Result<(), StateError>
        ensures ok { OnOk result (self.new ≡ ends client self.old) }
        ensures memory { IfErr result (λ e. e ≡ StateError.OutOfMemory) }
        ensures left { OnErr result (self.new ≡ self.old) }
    {
        deliver_all(alloc, &mut self.coming, &mut self.clients, &mut self.noted)?;
        if client >= self.clients.len() {
            return Ok(());
        }
        self.retained.reserve(1)?;
        let renewed = self.clients[client].renewed(alloc)?;
        // (its own subscriptions have ended when its will is published)
        let kept = self.clients[client].swap(renewed);
        match of_will(alloc, client, self.clients.as_slice(), &self.index) {
            Ok(made) => {
                leave(&mut self.index, client, kept.subscriptions());
                drop(kept);
                let handed = self.clients[client].end();
                hand_on(handed, made, &mut self.coming, &mut self.retained);
                Ok(())
            }
            Err(refused) => {
                drop(self.clients[client].swap(kept));
                Err(StateError::from(refused))
            }
        }
    }
}
