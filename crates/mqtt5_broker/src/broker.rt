//! A broker: bytes of connections in, bytes for connections out.

ghost use Rattle.std.specs.Prelude.{◌≡◌, [], Some, not, nat_lt, ◌&&◌, ◌⊎◌, length, max, replicate, OnOk, OnErr, IfOk, IfErr};
ghost use Rattle.std.specs.NonZero.{non_zero_u16_get};
ghost use Rattle.mqtt5_sessions.specs.Waiting.{IsNextWaiting};
ghost use Rattle.mqtt5_broker.specs.Cut.{cut_up, Holds, Breaks};
ghost use Rattle.mqtt5_broker.specs.Connection.{closed, with_sent, connection_at};
ghost use Rattle.mqtt5_broker.specs.Broker.{no_bounds, at_moment, on_connection, name_at};
ghost use Rattle.mqtt5_broker.specs.Serving.{passes_of, passes_on, passes_at, has_passed_of, has_passed};
ghost use Rattle.mqtt5_broker.specs.Receiving.{comes_of, receives_now, receives, opens_now, opens, closes_now, closes, ends_with, reason_for};

use crate::bounds::{Bounds, no_bounds};
use crate::connection::Connection;
use crate::connections::{client_at, hold_at, is_open_at, write_some_at};
use crate::expiry::{counted_some, is_over};
use crate::groups::Group;
use crate::member::{Member, name_in};
use crate::rights::Rights;
use bytes::BytesMut;
use mqtt5_base::{Error, front_laws};
use mqtt5_codec::{Codec, frame_laws};
use mqtt5_control::DisconnectReasonCode;
use mqtt5_session::StateError;
use mqtt5_sessions::Sessions;
use std::alloc::{AllocError, Global};
use std::marker::Model;
use std::num::NonZeroU16;

/// What an operator sets.
#[derive(Debug, Clone, Copy)]
pub struct Limits {
    /// How many connections there are: their numbers are below it.
    pub connections: usize,
    /// The greatest remaining length of a packet that a client may send, in bytes (2.1.4).
    pub longest: u32,
    /// The greatest packet identifier that is used to a client, and so how many publishes of QoS 1 and 2 it is sent ahead of
    /// their acks at most (2.2.1).
    pub ids: NonZeroU16,
    /// For how many milliseconds a connection may be open without a Connect; 0 is any time (3.1.4).
    pub wait: u32,
    /// The greatest topic alias of a client; 0 is none (3.2.2.3.8).
    pub alias_max: u16,
    /// The longest keep alive of a client, in seconds, which one is told that asks for none or for a longer one; 0 is any
    /// (3.2.2.3.14).
    pub keep_alive_max: u16,
    /// The number of the first name that a client is given which says none (3.1.3.1).
    pub first_name: u64,
}

/// A broker: the sessions of its clients, who has them, its connections, which are numbers of the caller's, what its users may do,
/// and who takes part in shared subscriptions (MQTT 5.0 sections 4 and 5.4).
#[derive(Debug, Drop)]
pub struct Broker {
    pub(super) sessions: Sessions,
    pub(super) members: Vec<Option<Member>>,
    pub(super) connections: Vec<Connection>,
    pub(super) rights: Vec<Rights>,
    pub(super) groups: Vec<Group>,
    pub(super) limit: NonZeroU16,
    pub(super) longest: u32,
    pub(super) wait: u32,
    pub(super) alias_max: u16,
    pub(super) keep_alive_max: u16,
    pub(super) bounds: Bounds,
    pub(super) moment: u64,
    pub(super) next_name: u64,
    pub(super) dropped: u64,
}

impl Model for Broker {
    ghost use Rattle.std.specs.Coded.{codes};
    ghost use Rattle.std.specs.NonZero.{non_zero_u16_get};
    ghost use Rattle.mqtt5_base.specs.Codes.{utf8_code};
    ghost use Rattle.mqtt5_base.specs.contracts.quality.QoS as quality;
    ghost use Rattle.mqtt5_publish.specs.contracts.publish.Publish as publish;
    ghost use Rattle.mqtt5_codec.specs.contracts.packet.Packet as packet;
    ghost use Rattle.mqtt5_inflight.specs.Codes.{coded_in_use, coded_aliases, coded_incoming};
    ghost use Rattle.mqtt5_inflight.specs.contracts.event.Event as event;
    ghost use Rattle.mqtt5_network.specs.contracts.subscription.Subscription as subscription;
    ghost use Rattle.mqtt5_broker.specs.contracts.member.Member as member;
    ghost use Rattle.mqtt5_broker.specs.Broker as model;

    ghost Value = { model.Broker };

    ghost coded = { Prim.hlevel (codes, coded_in_use, coded_aliases, coded_incoming, utf8_code, quality.the_row.coded, event.the_row.coded, packet.the_row.coded, publish.the_row.coded, subscription.the_row.coded, member.the_row.coded) };

    ghost view = { λ a. record {
      sessions = a.sessions;
      members = a.members.items;
      connections = a.connections.items;
      rights = a.rights.items;
      groups = a.groups.items;
      limit = non_zero_u16_get a.limit;
      longest = a.longest;
      wait = a.wait;
      alias_max = a.alias_max;
      keep_alive_max = a.keep_alive_max;
      bounds = a.bounds;
      moment = a.moment;
      next_name = a.next_name;
      dropped = a.dropped;
    } };
}

/// So many connections, none of which is there.
fn none_of(alloc: Global, count: usize) -> Result<Vec<Connection>, AllocError>
    ensures { IfOk result (λ all. all.items ≡ replicate count closed) }
{
    let mut all = Vec::new(alloc);
    for i in 0..count {
        all.push(Connection::closed(alloc))?;
    }
    Ok(all)
}

/// Why a connection ends at a fault of its bytes (4.13.1).
fn reason_for(error: &Error) -> DisconnectReasonCode
    ensures { result ≡ reason_for error.now }
{
    match error {
        Error::PayloadSizeLimitExceeded { .. } => DisconnectReasonCode::PacketTooLarge,
        _other => DisconnectReasonCode::MalformedPacket,
    }
}

impl Broker {
    /// A broker without a client, of which nothing else is bounded yet. Err where memory is refused.
    pub fn new(alloc: Global, limits: &Limits) -> Result<Broker, AllocError>
        ensures { IfOk result (λ b. b ≡ record {
          sessions = record { clients = []; retained = [] };
          members = [];
          connections = replicate limits.now.connections closed;
          rights = [];
          groups = [];
          limit = non_zero_u16_get limits.now.ids;
          longest = limits.now.longest;
          wait = limits.now.wait;
          alias_max = limits.now.alias_max;
          keep_alive_max = limits.now.keep_alive_max;
          bounds = no_bounds;
          moment = 0;
          next_name = limits.now.first_name;
          dropped = 0;
        }) }
    {
        Ok(Broker {
            sessions: Sessions::new(alloc),
            members: Vec::new(alloc),
            connections: none_of(alloc, limits.connections)?,
            rights: Vec::new(alloc),
            groups: Vec::new(alloc),
            limit: limits.ids,
            longest: limits.longest,
            wait: limits.wait,
            alias_max: limits.alias_max,
            keep_alive_max: limits.keep_alive_max,
            bounds: no_bounds(),
            moment: 0,
            next_name: limits.first_name,
            dropped: 0,
        })
    }

    /// A moment has come; an earlier one than the last is taken for that.
    pub(super) fn set_moment(&mut self, at: u64)
        ensures { self.new ≡ at_moment at self.old }
    {
        self.moment = at.max(self.moment);
    }

    /// A connection begins at a moment. Whether it does: not where one of that number is open, or there is no such number. What was
    /// still to be sent on one that isn't open is dropped. Takes no memory.
    pub fn open(&mut self, alloc: Global, connection: usize, at: u64) -> bool
        ensures opened { self.new ≡ opens at connection self.old }
        ensures begins { result
            ≡ (nat_lt connection (length self.old.connections)
            && not (connection_at connection self.old.connections).is_open) }
    {
        self.set_moment(at);
        if connection >= self.connections.len() {
            return false;
        }
        if self.connections[connection].is_open() {
            return false;
        }
        self.connections[connection] = Connection::opened(alloc, self.wait, self.moment);
        true
    }

    /// Whether bytes of a connection are taken. Where none are, the caller sends its output, and closes it.
    pub fn is_open(&self, connection: usize) -> bool
        ensures { result ≡ (connection_at connection self.now.connections).is_open }
    {
        is_open_at(self.connections.as_slice(), connection)
    }

    /// The identifier of a connection's client; nothing where it has none.
    pub fn client_name(&self, connection: usize) -> &str
        ensures { result.now ≡ name_at connection self.now }
    {
        let client = client_at(self.connections.as_slice(), connection);
        name_in(client, self.members.as_slice())
    }

    /// The number of a connection's client, if it has one.
    pub fn client_number(&self, connection: usize) -> Option<usize>
        ensures { result ≡ (connection_at connection self.now.connections).client }
    {
        let all = self.connections.as_slice();
        client_at(all, connection)
    }

    /// The bytes that are to be sent on a connection.
    pub fn output(&self, connection: usize) -> &[u8]
        ensures { result.now ≡ (connection_at connection self.now.connections).output }
    {
        if connection >= self.connections.len() {
            return &[];
        }
        self.connections[connection].output()
    }

    /// So many of them were sent, or all, if there are fewer.
    pub fn sent(&mut self, connection: usize, count: usize)
        ensures { self.new ≡ on_connection connection (with_sent count) self.old }
    {
        if connection < self.connections.len() {
            self.connections[connection].sent(count);
        }
    }

    /// A connection has ended at a moment: its client's connection is lost, whose session stays or ends, and its number is free
    /// (3.1.2.11.2). S12, which leaves all as it was, but for the moment.
    pub fn close(&mut self, alloc: Global, connection: usize, at: u64) -> Result<(), StateError>
        ensures ok { OnOk result (self.new ≡ closes at connection self.old) }
        ensures memory { IfErr result (λ e. e ≡ StateError.OutOfMemory) }
        ensures left { OnErr result (self.new ≡ at_moment at self.old) }
    {
        self.set_moment(at);
        self.close_now(alloc, connection)
    }

    /// It has ended now. S12, which leaves all as it was.
    #[tactic(auto, unfolding(crate::specs::Receiving::closes_now))]
    fn close_now(&mut self, alloc: Global, connection: usize) -> Result<(), StateError>
        ensures ok { OnOk result (self.new ≡ closes_now connection self.old) }
        ensures memory { IfErr result (λ e. e ≡ StateError.OutOfMemory) }
        ensures left { OnErr result (self.new ≡ self.old) }
    {
        if let Some(client) = client_at(self.connections.as_slice(), connection) {
            self.lose(alloc, client)?;
        }
        if connection < self.connections.len() {
            self.connections[connection] = Connection::closed(alloc);
        }
        Ok(())
    }

    /// The first publish of the queue of a connection's client is passed on at a moment, if there is one and it may be sent, and
    /// what its session sends of it is written, unless it is longer than the client takes; or it is taken out, where it has expired
    /// (3.3.4, 3.1.2.11.4, 3.3.2.3.3). Whether either was done. S12: the connection is to be closed then.
    pub fn pass(&mut self, alloc: Global, connection: usize, at: u64) -> Result<bool, StateError>
        ensures ok { OnOk result (self.new ≡ passes_at at connection self.old) }
        ensures passed { IfOk result (λ some. some ≡ has_passed connection (at_moment at self.old)) }
        ensures memory { IfErr result (λ e. e ≡ StateError.OutOfMemory) }
    {
        self.set_moment(at);
        self.pass_now(alloc, connection)
    }

    /// It is passed on now. S12.
    #[tactic(auto, unfolding(crate::specs::Serving::passes_on))]
    fn pass_now(&mut self, alloc: Global, connection: usize) -> Result<bool, StateError>
        ensures ok { OnOk result (self.new ≡ passes_on connection self.old) }
        ensures passed { IfOk result (λ some. some ≡ has_passed connection self.old) }
        ensures memory { IfErr result (λ e. e ≡ StateError.OutOfMemory) }
    {
        match client_at(self.connections.as_slice(), connection) {
            Some(client) => self.pass_of(alloc, connection, client),
            None => Ok(false),
        }
    }

    /// So is the first of a client's queue. S12.
    #[tactic(auto, using(crate::proofs::Passed::some_of))]
    fn pass_of(
        &mut self,
        alloc: Global,
        connection: usize,
        client: usize,
    ) -> Result<bool, StateError>
        ensures ok { OnOk result (self.new ≡ passes_of (Some client) connection self.old) }
        ensures passed { IfOk result (λ some. some ≡ has_passed_of (Some client) self.old) }
        ensures memory { IfErr result (λ e. e ≡ StateError.OutOfMemory) }
    {
        let second = self.sessions.message_expiry(alloc, client)?;
        if is_over(self.moment, second) {
            self.sessions.expire(alloc, client)?;
            return Ok(true);
        }
        let sent = self.sessions.pass(alloc, client)?;
        let some = sent.is_some();
        let sent = counted_some(self.moment, sent);
        let written = write_some_at(&mut self.connections, connection, &sent);
        drop(sent);
        written?;
        Ok(some)
    }

    /// The first client, from a number on, that is connected and has something in its queue, if there is one: of another one that is
    /// connected `pass` passes nothing on, and takes nothing out (`waiting_law`). S12.
    pub fn next_waiting(&mut self, alloc: Global, from: usize) -> Result<Option<usize>, StateError>
        ensures next { IfOk result (λ client. IsNextWaiting from client self.old.sessions) }
        ensures memory { IfErr result (λ e. e ≡ StateError.OutOfMemory) }
        // In each case nothing changes.
        ensures same { self.new ≡ self.old }
    {
        self.sessions.next_waiting(alloc, from)
    }

    /// Bytes come on a connection at a moment, in any pieces: each packet that is whole with them is taken, up to the first fault,
    /// which ends the connection, and no other. Where bytes of it aren't taken it does nothing. S12: the connection is to be
    /// closed then.
    pub fn receive(
        &mut self,
        alloc: Global,
        connection: usize,
        bytes: &[u8],
        at: u64,
    ) -> Result<(), StateError>
        ensures ok { OnOk result (self.new ≡ receives at connection bytes.now self.old) }
        ensures memory { IfErr result (λ e. e ≡ StateError.OutOfMemory) }
    {
        self.set_moment(at);
        self.receive_now(alloc, connection, bytes)
    }

    /// They come now. S12.
    #[tactic(auto, unfolding(crate::specs::Receiving::receives_now))]
    fn receive_now(
        &mut self,
        alloc: Global,
        connection: usize,
        bytes: &[u8],
    ) -> Result<(), StateError>
        ensures ok { OnOk result (self.new ≡ receives_now connection bytes.now self.old) }
        ensures memory { IfErr result (λ e. e ≡ StateError.OutOfMemory) }
    {
        let connections = self.connections.as_slice();
        if connection >= connections.len() || !is_open_at(connections, connection) {
            return Ok(());
        }
        let stream = self.connections[connection].take_held(alloc, bytes)?;
        self.take_stream(alloc, connection, stream)?;
        Ok(())
    }

    /// The packets of a stream come, and what is left is held, or its fault ends the connection. S12.
    fn take_stream(
        &mut self,
        alloc: Global,
        connection: usize,
        stream: BytesMut,
    ) -> Result<(), StateError>
        ensures ok { OnOk result (self.new
            ≡ comes_of connection (cut_up (Some self.old.longest) stream.items []) self.old) }
        ensures memory { IfErr result (λ e. e ≡ StateError.OutOfMemory) }
    {
        let mut stream = stream;
        match self.take_frames(alloc, connection, self.longest, &mut stream) {
            Ok(()) => {
                hold_at(&mut self.connections, connection, stream);
                Ok(())
            }
            Err(Error::OutOfMemory) => Err(StateError::OutOfMemory),
            Err(error) => {
                self.dismiss(alloc, connection, reason_for(&error))?;
                Ok(())
            }
        }
    }

    /// Takes each whole frame at the front of a stream.
    fn take_frames(
        &mut self,
        alloc: Global,
        connection: usize,
        longest: u32,
        stream: &mut BytesMut,
    ) -> Result<(), Error>
        ensures more { OnOk result
            (comes_of connection (cut_up (Some longest) stream.old.items []) self.old
            ≡ ends_with connection (Holds stream.new.items) self.new) }
        ensures fault { IfErr result (λ e. (e ≡ Error.OutOfMemory)
            ⊎ (comes_of connection (cut_up (Some longest) stream.old.items []) self.old
            ≡ ends_with connection (Breaks e) self.new)) }
    {
        front_laws();
        frame_laws();
        let codec = Codec {
            max_incoming_size: Some(longest),
            max_outgoing_size: None,
        };
        while let Some(packet) = codec.decode(alloc, stream)? {
            let Ok(()) = self.take(alloc, connection, packet) else {
                return Err(Error::OutOfMemory);
            };
        }
        Ok(())
    }
}
