//! What is due at a moment.

ghost use Rattle.std.specs.Prelude.{◌≡◌, length, OnOk, IfErr};
ghost use Rattle.mqtt5_broker.specs.Broker.{at_moment, member_at};
ghost use Rattle.mqtt5_broker.specs.Connection.{Connection};
ghost use Rattle.mqtt5_broker.specs.Clock.{for_each, silences, silences_all, expires, expires_all, ticks, first_silence, first_of_client, first_expiry, next_moment, ends_now, shuts_down};

use crate::broker::Broker;
use crate::connection::Connection;
use crate::connections::deadline_at;
use crate::member::{Member, has_ended_at, will_is_due_at};
use crate::moments::{earlier, has_come};
use mqtt5_control::DisconnectReasonCode;
use mqtt5_session::StateError;
use std::alloc::Global;

/// The earliest of a moment and of those of connections.
fn first_silence(connections: &[Connection]) -> Option<u64>
    ensures { result ≡ first_silence connections.now None }
{
    let mut first = None;
    for i in 0..connections.len() {
        first = earlier(first, connections[i].deadline());
    }
    first
}

fn first_of_client(member: &Option<Member>, at: Option<u64>) -> Option<u64>
    ensures { result ≡ first_of_client member.now at }
{
    match member {
        Some(member) => earlier(earlier(at, member.ends), member.due),
        None => at,
    }
}

/// And of those of clients.
fn first_expiry(members: &[Option<Member>], at: Option<u64>) -> Option<u64>
    ensures { result ≡ first_expiry members.now at }
{
    let mut first = at;
    for i in 0..members.len() {
        first = first_of_client(&members[i], first);
    }
    first
}

impl Broker {
    /// All that is due at a moment happens: connections that were silent for too long end, with KeepAliveTimeout to a client;
    /// sessions that expired end; and wills are published whose delay has passed (3.1.2.10, 3.1.2.11.2, 3.1.3.2.2). S12.
    pub fn tick(&mut self, alloc: Global, at: u64) -> Result<(), StateError>
        ensures ok { OnOk result (self.new ≡ ticks at self.old) }
        ensures memory { IfErr result (λ e. e ≡ StateError.OutOfMemory) }
    {
        self.set_moment(at);
        self.silence_all(alloc)?;
        self.expire_all(alloc)?;
        Ok(())
    }

    /// The first moment at which something is due, if there is one.
    pub fn next_moment(&self) -> Option<u64>
        ensures { result ≡ next_moment self.now }
    {
        let first = first_silence(self.connections.as_slice());
        first_expiry(self.members.as_slice(), first)
    }

    /// The broker ends: each client is told ServerShuttingDown, and nothing more is taken of any connection (4.13). S12.
    pub fn shut_down(&mut self, alloc: Global, at: u64) -> Result<(), StateError>
        ensures ok { OnOk result (self.new ≡ shuts_down at self.old) }
        ensures memory { IfErr result (λ e. e ≡ StateError.OutOfMemory) }
    {
        self.set_moment(at);
        self.end_all(alloc)?;
        Ok(())
    }

    /// A connection that was silent for too long ends. S12.
    #[tactic(auto, unfolding(crate::specs::Clock::silences))]
    fn silence(&mut self, alloc: Global, connection: usize) -> Result<(), StateError>
        ensures ok { OnOk result (self.new ≡ silences connection self.old) }
        ensures memory { IfErr result (λ e. e ≡ StateError.OutOfMemory) }
    {
        let deadline = deadline_at(self.connections.as_slice(), connection);
        if !has_come(deadline, self.moment) {
            return Ok(());
        }
        self.dismiss(alloc, connection, DisconnectReasonCode::KeepAliveTimeout)?;
        Ok(())
    }

    fn silence_all(&mut self, alloc: Global) -> Result<(), StateError>
        ensures ok { OnOk result (self.new ≡ silences_all self.old) }
        ensures memory { IfErr result (λ e. e ≡ StateError.OutOfMemory) }
    {
        for connection in 0..self.connections.len() {
            self.silence(alloc, connection)?;
        }
        Ok(())
    }

    /// The session of a client ends, or its will is published, where that is due. S12.
    #[tactic(auto, unfolding(crate::specs::Clock::expires))]
    fn expire(&mut self, alloc: Global, client: usize) -> Result<(), StateError>
        ensures ok { OnOk result (self.new ≡ expires client self.old) }
        ensures memory { IfErr result (λ e. e ≡ StateError.OutOfMemory) }
    {
        if has_ended_at(client, self.members.as_slice(), self.moment) {
            self.forget(alloc, client)?;
            return Ok(());
        }
        if will_is_due_at(client, self.members.as_slice(), self.moment) {
            self.publish_will(alloc, client)?;
            return Ok(());
        }
        Ok(())
    }

    fn expire_all(&mut self, alloc: Global) -> Result<(), StateError>
        ensures ok { OnOk result (self.new ≡ expires_all self.old) }
        ensures memory { IfErr result (λ e. e ≡ StateError.OutOfMemory) }
    {
        for client in 0..self.members.len() {
            self.expire(alloc, client)?;
        }
        Ok(())
    }

    /// A connection ends with the broker. S12.
    #[tactic(auto, unfolding(crate::specs::Clock::ends_now))]
    fn end(&mut self, alloc: Global, connection: usize) -> Result<(), StateError>
        ensures ok { OnOk result (self.new ≡ ends_now connection self.old) }
        ensures memory { IfErr result (λ e. e ≡ StateError.OutOfMemory) }
    {
        self.dismiss(alloc, connection, DisconnectReasonCode::ServerShuttingDown)?;
        Ok(())
    }

    fn end_all(&mut self, alloc: Global) -> Result<(), StateError>
        ensures ok { OnOk result
            (self.new ≡ for_each (length self.old.connections) ends_now self.old) }
        ensures memory { IfErr result (λ e. e ≡ StateError.OutOfMemory) }
    {
        for connection in 0..self.connections.len() {
            self.end(alloc, connection)?;
        }
        Ok(())
    }
}
