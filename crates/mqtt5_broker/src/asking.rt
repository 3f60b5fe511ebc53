//! Who wants to connect, which a caller may ask before the answer.

ghost use Rattle.std.specs.Prelude.{◌≡◌, ◌⊎◌, Ok, Some, IfOk, IfErr, OnOk, OnErr};
ghost use Rattle.mqtt5_base.specs.FrontAt.{front};
ghost use Rattle.mqtt5_broker.specs.declared.asking.Asks.TheVariants as asks;
ghost use Rattle.mqtt5_broker.specs.Asking.{kept_on, holds, is_new, sent_by, first_by, asks_of, asks_at, identifies, rejects};
ghost use Rattle.mqtt5_broker.specs.Connection.{with_connection, connection_at};

use crate::broker::Broker;
use crate::connection::Connection;
use crate::reasons::refusal;
use bytes::BytesMut;
use mqtt5_base::{Error, front_laws};
use mqtt5_codec::{Codec, Packet, frame_laws};
use mqtt5_connect::Login;
use mqtt5_control::ConnectReturnCode;
use mqtt5_session::StateError;
use std::alloc::{AllocError, Global};

/// Who wants to connect (MQTT 5.0 sections 3.1.3.5 and 3.1.3.6).
#[derive(Debug, Drop)]
pub enum Asks {
    /// Nobody, or nobody yet: no whole Connect came.
    Nobody,
    /// A client that says no user name and no password.
    Unnamed,
    /// One that says these.
    Named(Login),
}

/// Who sends a packet.
fn sent_by(packet: Packet) -> Asks
    ensures { result ≡ sent_by (Ok packet) }
{
    match packet {
        Packet::Connect(connect, will, login) => {
            drop(connect);
            drop(will);
            match login {
                Some(login) => Asks::Named(login),
                None => Asks::Unnamed,
            }
        }
        other => {
            drop(other);
            Asks::Nobody
        }
    }
}

/// Who sends the first packet of a stream. A fault of it is that of nobody.
fn first_by(alloc: Global, longest: u32, held: &BytesMut) -> Result<Asks, Error>
    ensures ok { IfOk result (λ a. a ≡ first_by (front (Some longest) held.now.items)) }
    ensures fault { IfErr result (λ e. (e ≡ Error.OutOfMemory)
        ⊎ (first_by (front (Some longest) held.now.items) ≡ asks.Nobody)) }
{
    front_laws();
    frame_laws();
    let codec = Codec {
        max_incoming_size: Some(longest),
        max_outgoing_size: None,
    };
    if codec.needs_more(held) {
        return Ok(Asks::Nobody);
    }
    let mut stream = BytesMut::copy_from_slice(alloc, held.as_slice())?;
    match codec.decode(alloc, &mut stream)? {
        Some(packet) => Ok(sent_by(packet)),
        None => Ok(Asks::Nobody),
    }
}

/// The same, where a fault is that of nobody.
fn first_or_nobody(alloc: Global, longest: u32, held: &BytesMut) -> Result<Asks, AllocError>
    ensures { IfOk result (λ a. a ≡ first_by (front (Some longest) held.now.items)) }
{
    match first_by(alloc, longest, held) {
        Ok(asks) => Ok(asks),
        Err(Error::OutOfMemory) => Err(AllocError),
        Err(_fault) => Ok(Asks::Nobody),
    }
}

/// Whether a connection has no client yet.
fn is_new(connection: &Connection) -> bool
    ensures { result ≡ is_new connection.now }
{
    connection.is_open() && connection.client().is_none()
}

/// Who wants to connect on a connection. Takes memory for what it holds, once a packet of it is whole.
#[tactic(auto, unfolding(crate::specs::Asking::asks_of))]
fn asks_of(alloc: Global, longest: u32, connection: &Connection) -> Result<Asks, AllocError>
    ensures { IfOk result (λ a. a ≡ asks_of longest connection.now) }
{
    if !is_new(connection) {
        return Ok(Asks::Nobody);
    }
    first_or_nobody(alloc, longest, connection.held())
}

/// Bytes come on a connection, and are only held. Err where memory is refused.
fn keep_at(
    connections: &mut [Connection],
    connection: usize,
    bytes: &[u8],
) -> Result<(), AllocError>
    ensures ok { OnOk result
        (connections.new ≡ with_connection connection (kept_on bytes.now) connections.old) }
    ensures left { OnErr result (connections.new ≡ connections.old) }
{
    if connection < connections.len() {
        connections[connection].keep(bytes)?;
    }
    Ok(())
}

impl Broker {
    /// Bytes come on a connection, and are only held: they are taken with those that are received next, also if these are none. So
    /// one may ask before who wants to connect. S12, which leaves all as it was.
    pub fn hold(&mut self, connection: usize, bytes: &[u8]) -> Result<(), StateError>
        ensures ok { OnOk result (self.new ≡ holds connection bytes.now self.old) }
        ensures memory { IfErr result (λ e. e ≡ StateError.OutOfMemory) }
        ensures left { OnErr result (self.new ≡ self.old) }
    {
        keep_at(&mut self.connections, connection, bytes)?;
        Ok(())
    }

    /// Who wants to connect on a connection, by the bytes that it holds: nobody where it has a client, or holds no whole packet. S12.
    #[tactic(auto, unfolding(crate::specs::Asking::asks_of))]
    pub fn asks(&self, alloc: Global, connection: usize) -> Result<Asks, StateError>
        ensures ok { IfOk result (λ a. a ≡ asks_at connection self.now) }
        ensures memory { IfErr result (λ e. e ≡ StateError.OutOfMemory) }
    {
        if connection >= self.connections.len() {
            return Ok(Asks::Nobody);
        }
        let asks = asks_of(alloc, self.longest, &self.connections[connection])?;
        Ok(asks)
    }

    /// A client that isn't connected yet will connect as a user: it may publish and subscribe to what that user may, and has sessions of
    /// that user alone. A number that no user has may do nothing, until it has one. Who connects as no user may do everything, with
    /// sessions of no user. Takes no memory.
    pub fn identify(&mut self, connection: usize, user: usize)
        ensures { self.new ≡ identifies connection user self.old }
    {
        if connection < self.connections.len() && is_new(&self.connections[connection]) {
            self.connections[connection].identify(user);
        }
    }

    /// A client that isn't connected yet is turned away, with a ConnAck of this code, and nothing more is taken of its connection. S12,
    /// which leaves all as it was.
    pub fn reject(&mut self, connection: usize, code: ConnectReturnCode) -> Result<(), StateError>
        ensures ok { OnOk result (self.new ≡ rejects connection code self.old) }
        ensures memory { IfErr result (λ e. e ≡ StateError.OutOfMemory) }
        ensures left { OnErr result (self.new ≡ self.old) }
    {
        if connection >= self.connections.len() || !is_new(&self.connections[connection]) {
            return Ok(());
        }
        self.turn_away(connection, refusal(code))
    }
}
