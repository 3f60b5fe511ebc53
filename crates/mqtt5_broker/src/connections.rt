//! The connections of a broker, by their numbers.

ghost use Rattle.std.specs.Prelude.{◌≡◌, ◌∷◌, OnOk, OnErr, IfOk, Some, None, map};
ghost use Rattle.std.specs.Option.{option_to_list};
ghost use Rattle.mqtt5_broker.specs.Expiry.{counted};
ghost use Rattle.mqtt5_broker.specs.Connection.{Connection, heard, learned, learned_topic, taken_by, shut, written, written_all, told, holding, connection_at, with_connection, is_of, connection_of};

use crate::connection::Connection;
use bytes::{Bytes, BytesMut};
use mqtt5_codec::Packet;
use mqtt5_control::DisconnectReasonCode;
use std::alloc::AllocError;
use std::collections::VecDeque;

/// Whether bytes of a connection are taken.
pub(super) fn is_open_at(connections: &[Connection], connection: usize) -> bool
    ensures { result ≡ (connection_at connection connections.now).is_open }
{
    connection < connections.len() && connections[connection].is_open()
}

/// The client of a connection.
pub(super) fn client_at(connections: &[Connection], connection: usize) -> Option<usize>
    ensures { result ≡ (connection_at connection connections.now).client }
{
    if connection >= connections.len() {
        return None;
    }
    connections[connection].client()
}

/// The user that a connection is of.
pub(super) fn user_of(connections: &[Connection], connection: usize) -> Option<usize>
    ensures { result ≡ (connection_at connection connections.now).user }
{
    if connection >= connections.len() {
        return None;
    }
    connections[connection].user()
}

/// Whether a connection is that of a client.
fn is_of(client: usize, connection: &Connection) -> bool
    ensures { result ≡ is_of client connection.now }
{
    match connection.client() {
        Some(number) => number == client,
        None => false,
    }
}

/// The connection of a client, if it has one.
pub(super) fn connection_of(client: usize, connections: &[Connection]) -> Option<usize>
    ensures { result ≡ connection_of client connections.now }
{
    connections
        .iter()
        .position(|connection| is_of(client, connection))
}

/// A connection is heard at a moment.
pub(super) fn hear_at(connections: &mut [Connection], connection: usize, at: u64)
    ensures { connections.new ≡ with_connection connection (heard at) connections.old }
{
    if connection < connections.len() {
        connections[connection].hear(at);
    }
}

/// The topic that an alias stands for on it: no byte where it isn't known. Err where memory is refused.
pub(super) fn topic_at(
    connections: &[Connection],
    connection: usize,
    alias: u16,
) -> Result<Bytes, AllocError>
    ensures { IfOk result
        (λ t. t ≡ learned_topic alias (connection_at connection connections.now)) }
{
    if connection >= connections.len() {
        return Ok(Bytes::new());
    }
    connections[connection].learned_topic(alias)
}

/// An alias stands for a topic on it from now on. Err where memory is refused.
pub(super) fn learn_at(
    connections: &mut [Connection],
    connection: usize,
    alias: u16,
    topic: Bytes,
) -> Result<(), AllocError>
    ensures ok { OnOk result
        (connections.new ≡ with_connection connection (learned alias topic) connections.old) }
    ensures left { OnErr result (connections.new ≡ connections.old) }
{
    if connection < connections.len() {
        connections[connection].learn(alias, topic)?;
    }
    Ok(())
}

/// The moment at which it was silent for too long.
pub(super) fn deadline_at(connections: &[Connection], connection: usize) -> Option<u64>
    ensures { result ≡ (connection_at connection connections.now).deadline }
{
    if connection >= connections.len() {
        return None;
    }
    connections[connection].deadline()
}

/// Nothing more is taken of a connection.
pub(super) fn shut_at(connections: &mut [Connection], connection: usize)
    ensures { connections.new ≡ with_connection connection shut connections.old }
{
    if connection < connections.len() {
        connections[connection].shut();
    }
}

/// Its client is told why it ends.
pub(super) fn tell_at(
    connections: &mut [Connection],
    connection: usize,
    reason: DisconnectReasonCode,
) -> Result<(), AllocError>
    ensures ok { OnOk result
        (connections.new ≡ with_connection connection (told reason) connections.old) }
    ensures left { OnErr result (connections.new ≡ connections.old) }
{
    if connection < connections.len() {
        connections[connection].tell(reason)?;
    }
    Ok(())
}

/// A packet is written to it.
pub(super) fn write_at(
    connections: &mut [Connection],
    connection: usize,
    packet: &Packet,
) -> Result<(), AllocError>
    ensures ok { OnOk result
        (connections.new ≡ with_connection connection (written packet.now) connections.old) }
    ensures left { OnErr result (connections.new ≡ connections.old) }
{
    if connection < connections.len() {
        connections[connection].write(packet)?;
    }
    Ok(())
}

/// A packet is written to it, if there is one.
pub(super) fn write_some_at(
    connections: &mut [Connection],
    connection: usize,
    packet: &Option<Packet>,
) -> Result<(), AllocError>
    ensures ok { OnOk result (connections.new
        ≡ with_connection connection (written_all (option_to_list packet.now)) connections.old) }
    ensures left { OnErr result (connections.new ≡ connections.old) }
{
    if connection < connections.len() {
        connections[connection].write_some(packet)?;
    }
    Ok(())
}

/// The first packet of a connection is refused by this.
pub(super) fn refuse_at(
    connections: &mut [Connection],
    connection: usize,
    refusal: &Packet,
) -> Result<(), AllocError>
    ensures ok { OnOk result (connections.new
        ≡ with_connection connection (λ (l : Connection). shut (written refusal.now l))
        connections.old) }
    ensures left { OnErr result (connections.new ≡ connections.old) }
{
    if connection < connections.len() {
        connections[connection].turn_away(refusal)?;
    }
    Ok(())
}

/// How a client takes what it is sent: packets of this length at most, and it may be silent for so many milliseconds.
#[derive(Clone, Copy)]
pub(super) struct Terms {
    pub(super) longest: Option<u32>,
    pub(super) silence: u32,
}

/// A connection is that of a client from a moment on, which is sent these packets. Err where memory is refused.
pub(super) fn welcome_at(
    connections: &mut [Connection],
    connection: usize,
    client: usize,
    terms: Terms,
    at: u64,
    welcome: &Packet,
    packets: VecDeque<Packet>,
) -> Result<(), AllocError>
    ensures { OnOk result (connections.new ≡ with_connection connection (λ (l : Connection).
        written_all (welcome.now ∷ map (counted at) packets.items)
        (taken_by client terms.longest terms.silence at l)) connections.old) }
{
    if connection < connections.len() {
        connections[connection].welcome(
            client,
            terms.longest,
            terms.silence,
            at,
            welcome,
            packets,
        )?;
    }
    Ok(())
}

/// A connection is that of a client from a moment on, which may be silent for any time.
pub(super) fn own_at(connections: &mut [Connection], connection: usize, client: usize, at: u64)
    ensures { connections.new
        ≡ with_connection connection (taken_by client None 0 at) connections.old }
{
    if connection < connections.len() {
        connections[connection].take(client, None, 0, at);
    }
}

/// Bytes are held on it, where more are taken.
pub(super) fn hold_at(connections: &mut [Connection], connection: usize, bytes: BytesMut)
    ensures { connections.new ≡ with_connection connection (holding bytes.items) connections.old }
{
    if connection < connections.len() {
        connections[connection].hold(bytes);
    }
}
