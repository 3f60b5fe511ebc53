//! What a broker makes of the packets of a client that is connected.

ghost use Rattle.std.specs.Prelude.{◌≡◌, Some, OnOk, OnErr, IfOk, IfErr, if◌then◌else◌};
ghost use Rattle.mqtt5_codec.specs.declared.packet.Packet.TheVariants as packets;
ghost use Rattle.std.specs.Option.{option_to_list};
ghost use Rattle.mqtt5_control.specs.declared.disconnect.DisconnectReasonCode.TheVariants as reasons;
ghost use Rattle.mqtt5_broker.specs.Connection.{written, written_all, shut, told};
ghost use Rattle.mqtt5_broker.specs.Broker.{forgets, loses_client, leaves_client, publishes_will, refuses, dismisses, dismisses_of, on_connection, stays_at};
ghost use Rattle.mqtt5_sessions.specs.Sessions.{arrives, replies};
ghost use Rattle.mqtt5_broker.specs.Groups.{named_in, gives_if, groups_before, sessions_before};
ghost use Rattle.mqtt5_broker.specs.Serving.{has_any, kind_of, comes_to_session, arrives_from, denies, brings, disconnects, fault_of, serves, serves_as};

use crate::broker::Broker;
use crate::connections::{client_at, is_open_at, shut_at, tell_at, write_at, write_some_at};
use crate::expiry::counted_some;
use crate::groups::{Group, give_all, give_left, leave_all, named_in, regrouped, turn_to};
use crate::judging::{client_fault, new_expiry};
use crate::member::{away_at, expiring_at, gone_at, owner_at, stays_at, undue_at};
use crate::rights::{denial, may_do, part_of, suback_for};
use mqtt5_codec::Packet;
use mqtt5_control::DisconnectReasonCode;
use mqtt5_publish::PingResp;
use mqtt5_session::StateError;
use mqtt5_subscribe::Subscribe;
use std::alloc::Global;

/// What a packet of a client asks for.
#[derive(Debug, Clone, Copy, PartialEq, Eq)]
pub enum Kind {
    /// An answer, to know that the broker is there (3.12).
    Ping,
    /// The end of the connection (3.14), and after how many seconds the session is to end, if it says that (3.14.2.2.2).
    Goodbye(DisconnectReasonCode, Option<u32>),
    /// Something of the client's session.
    Message,
}

fn kind_of(packet: &Packet) -> Kind
    ensures { result ≡ kind_of packet.now }
{
    match packet {
        Packet::PingReq(_) => Kind::Ping,
        Packet::Disconnect(disconnect) => {
            Kind::Goodbye(disconnect.reason_code, new_expiry(&disconnect.properties))
        }
        _other => Kind::Message,
    }
}

impl Broker {
    /// The session of a client ends, and nobody has its number. S12, which leaves all as it was.
    #[tactic(auto, unfolding(crate::specs::Broker::forgets))]
    pub(super) fn forget(&mut self, alloc: Global, client: usize) -> Result<(), StateError>
        ensures ok { OnOk result (self.new ≡ forgets client self.old) }
        ensures memory { IfErr result (λ e. e ≡ StateError.OutOfMemory) }
        ensures left { OnErr result (self.new ≡ self.old) }
    {
        self.end_session(alloc, client)?;
        give_left(&mut self.sessions, self.groups.as_slice(), client);
        leave_all(&mut self.groups, client);
        if client < self.members.len() {
            self.members[client] = None;
        }
        Ok(())
    }

    /// A client's connection is lost: its session stays, or ends. S12, which leaves all as it was.
    #[tactic(auto, unfolding(crate::specs::Broker::loses_client))]
    pub(super) fn lose(&mut self, alloc: Global, client: usize) -> Result<(), StateError>
        ensures ok { OnOk result (self.new ≡ loses_client client self.old) }
        ensures memory { IfErr result (λ e. e ≡ StateError.OutOfMemory) }
        ensures left { OnErr result (self.new ≡ self.old) }
    {
        if stays_at(client, self.members.as_slice()) {
            self.lose_connection(alloc, client)?;
            away_at(&mut self.members, client, self.moment);
            return Ok(());
        }
        self.forget(alloc, client)?;
        Ok(())
    }

    /// A client leaves: its will is dropped, and its session stays, or ends. S12.
    #[tactic(auto, unfolding(crate::specs::Broker::leaves_client))]
    fn leave(&mut self, alloc: Global, client: usize) -> Result<(), StateError>
        ensures ok { OnOk result (self.new ≡ leaves_client client self.old) }
        ensures memory { IfErr result (λ e. e ≡ StateError.OutOfMemory) }
    {
        self.sessions.leave(alloc, client)?;
        if stays_at(client, self.members.as_slice()) {
            gone_at(&mut self.members, client, self.moment);
            return Ok(());
        }
        self.forget(alloc, client)?;
        Ok(())
    }

    /// The will of a client that is away is published. S12, which leaves all as it was.
    #[tactic(auto, unfolding(crate::specs::Broker::publishes_will))]
    pub(super) fn publish_will(&mut self, alloc: Global, client: usize) -> Result<(), StateError>
        ensures ok { OnOk result (self.new ≡ publishes_will client self.old) }
        ensures memory { IfErr result (λ e. e ≡ StateError.OutOfMemory) }
        ensures left { OnErr result (self.new ≡ self.old) }
    {
        self.publish_due(alloc, client)?;
        undue_at(&mut self.members, client);
        Ok(())
    }

    /// The client of a connection is told why that ends. S12: nothing more is taken of the connection all the same.
    pub(super) fn tell(
        &mut self,
        connection: usize,
        reason: DisconnectReasonCode,
    ) -> Result<(), StateError>
        ensures ok { OnOk result (self.new ≡ on_connection connection (told reason) self.old) }
        ensures memory { IfErr result (λ e. e ≡ StateError.OutOfMemory) }
        ensures left { OnErr result (self.new ≡ on_connection connection shut self.old) }
    {
        match tell_at(&mut self.connections, connection, reason) {
            Ok(()) => Ok(()),
            Err(refused) => {
                shut_at(&mut self.connections, connection);
                Err(StateError::from(refused))
            }
        }
    }

    /// A client is told why its connection ends, which is lost then. S12.
    #[tactic(auto, unfolding(crate::specs::Broker::refuses))]
    pub(super) fn refuse(
        &mut self,
        alloc: Global,
        connection: usize,
        client: usize,
        reason: DisconnectReasonCode,
    ) -> Result<(), StateError>
        ensures ok { OnOk result (self.new ≡ refuses connection client reason self.old) }
        ensures memory { IfErr result (λ e. e ≡ StateError.OutOfMemory) }
    {
        self.lose(alloc, client)?;
        self.tell(connection, reason)
    }

    /// The connection of a client, or of none, ends for a reason. S12.
    fn dismiss_of(
        &mut self,
        alloc: Global,
        connection: usize,
        client: Option<usize>,
        reason: DisconnectReasonCode,
    ) -> Result<(), StateError>
        ensures ok { OnOk result (self.new ≡ dismisses_of client connection reason self.old) }
        ensures memory { IfErr result (λ e. e ≡ StateError.OutOfMemory) }
    {
        match client {
            Some(client) => {
                self.refuse(alloc, connection, client, reason)?;
                Ok(())
            }
            None => {
                shut_at(&mut self.connections, connection);
                Ok(())
            }
        }
    }

    /// A connection ends for a reason, where it is open. S12.
    #[tactic(auto, unfolding(crate::specs::Broker::dismisses))]
    pub(super) fn dismiss(
        &mut self,
        alloc: Global,
        connection: usize,
        reason: DisconnectReasonCode,
    ) -> Result<(), StateError>
        ensures ok { OnOk result (self.new ≡ dismisses connection reason self.old) }
        ensures memory { IfErr result (λ e. e ≡ StateError.OutOfMemory) }
    {
        if !is_open_at(self.connections.as_slice(), connection) {
            return Ok(());
        }
        let client = client_at(self.connections.as_slice(), connection);
        self.dismiss_of(alloc, connection, client, reason)?;
        Ok(())
    }

    /// A packet of a client comes to its session, where a publish finds the turns of shared subscriptions with the next ones, and a
    /// Subscribe or an Unsubscribe changes who takes part: what is sent back, if anything is (4.3, 4.8.2). S12.
    #[tactic(auto, using(crate::proofs::Turned::regrouped_before))]
    fn come_to_session(
        &mut self,
        alloc: Global,
        client: usize,
        packet: Packet,
    ) -> Result<Option<Packet>, StateError>
        ensures ok { OnOk result (self.new ≡ comes_to_session client packet self.old) }
        ensures reply { IfOk result (λ r. option_to_list r
            ≡ replies client packet (sessions_before packet self.old.groups self.old.sessions)) }
        ensures memory { IfErr result (λ e. e ≡ StateError.OutOfMemory) }
    {
        match regrouped(alloc, self.groups.as_slice(), client, &packet)? {
            Some(groups) => self.regroup(alloc, client, packet, groups),
            None => {
                self.turn_for(&packet);
                Ok(self.sessions.arrive(alloc, client, packet)?)
            }
        }
    }

    /// One comes that changes who takes part, as these do then, if it is answered; of those that it names the first have the turns.
    /// S12.
    fn regroup(
        &mut self,
        alloc: Global,
        client: usize,
        packet: Packet,
        groups: Vec<Group>,
    ) -> Result<Option<Packet>, StateError>
        ensures ok { OnOk result (self.new ≡ record self.old {
          sessions = gives_if (has_any (replies client packet self.old.sessions))
              (named_in packet groups.items) (arrives client packet self.old.sessions);
          groups =
              if has_any (replies client packet self.old.sessions) then groups.items
              else self.old.groups;
        }) }
        ensures reply { IfOk result
            (λ r. option_to_list r ≡ replies client packet self.old.sessions) }
        ensures memory { IfErr result (λ e. e ≡ StateError.OutOfMemory) }
    {
        let named = named_in(alloc, &packet, groups.as_slice())?;
        let reply = self.sessions.arrive(alloc, client, packet)?;
        if reply.is_some() {
            self.groups = groups;
            give_all(&mut self.sessions, named.as_slice());
        }
        Ok(reply)
    }

    /// Before a publish comes the turns go to the next clients that are connected.
    fn turn_for(&mut self, packet: &Packet)
        ensures { self.new ≡ record self.old {
          sessions = sessions_before packet.now self.old.groups self.old.sessions;
          groups = groups_before packet.now self.old.groups self.old.sessions;
        } }
    {
        if let Packet::Publish(publish) = packet {
            turn_to(
                self.groups.as_mut_slice(),
                &mut self.sessions,
                publish.topic.as_slice(),
            );
        }
    }

    /// A packet comes to the session of a client, and what is sent back is written. S12.
    #[tactic(auto, unfolding(crate::specs::Serving::arrives_from))]
    fn arrive(
        &mut self,
        alloc: Global,
        connection: usize,
        client: usize,
        packet: Packet,
    ) -> Result<(), StateError>
        ensures ok { OnOk result (self.new ≡ arrives_from connection client packet self.old) }
        ensures memory { IfErr result (λ e. e ≡ StateError.OutOfMemory) }
    {
        let reply = self.come_to_session(alloc, client, packet)?;
        let reply = counted_some(self.moment, reply);
        let written = write_some_at(&mut self.connections, connection, &reply);
        drop(reply);
        written?;
        Ok(())
    }

    /// Of a Subscribe what its user may subscribe to comes to the session of its client, and the rest is denied. S12.
    #[tactic(auto, unfolding(crate::specs::Serving::denies))]
    fn subscribe_part(
        &mut self,
        alloc: Global,
        connection: usize,
        client: usize,
        user: Option<usize>,
        subscribe: Subscribe,
    ) -> Result<(), StateError>
        ensures ok { OnOk result (self.new
            ≡ denies user connection client (packets.Subscribe subscribe) self.old) }
        ensures memory { IfErr result (λ e. e ≡ StateError.OutOfMemory) }
    {
        let rights = self.rights.as_slice();
        let answer = suback_for(alloc, user, rights, &subscribe)?;
        let part = Packet::Subscribe(part_of(user, rights, subscribe));
        let reply = self.come_to_session(alloc, client, part)?;
        drop(reply);
        let written = write_at(&mut self.connections, connection, &answer);
        drop(answer);
        written?;
        Ok(())
    }

    /// A packet asks for more than its user may do. S12.
    #[tactic(auto, unfolding(crate::specs::Serving::denies))]
    fn deny(
        &mut self,
        alloc: Global,
        connection: usize,
        client: usize,
        user: Option<usize>,
        packet: Packet,
    ) -> Result<(), StateError>
        ensures ok { OnOk result (self.new ≡ denies user connection client packet self.old) }
        ensures memory { IfErr result (λ e. e ≡ StateError.OutOfMemory) }
    {
        match packet {
            Packet::Publish(publish) => {
                let answer = denial(publish.qos, publish.pkid);
                drop(publish);
                let written = write_some_at(&mut self.connections, connection, &answer);
                drop(answer);
                written?;
                Ok(())
            }
            Packet::Subscribe(subscribe) => {
                self.subscribe_part(alloc, connection, client, user, subscribe)
            }
            other => {
                drop(other);
                Ok(())
            }
        }
    }

    /// What a packet asks for is done, where the user whose session its client has may do that. S12.
    #[tactic(auto, unfolding(crate::specs::Serving::brings))]
    fn bring(
        &mut self,
        alloc: Global,
        connection: usize,
        client: usize,
        packet: Packet,
    ) -> Result<(), StateError>
        ensures ok { OnOk result (self.new ≡ brings connection client packet self.old) }
        ensures memory { IfErr result (λ e. e ≡ StateError.OutOfMemory) }
    {
        let user = owner_at(client, self.members.as_slice());
        if may_do(user, self.rights.as_slice(), &packet) {
            return self.arrive(alloc, connection, client, packet);
        }
        self.deny(alloc, connection, client, user, packet)
    }

    /// A client says why it ends its connection. S12.
    #[tactic(auto, unfolding(crate::specs::Serving::disconnects))]
    fn disconnect(
        &mut self,
        alloc: Global,
        connection: usize,
        client: usize,
        reason: DisconnectReasonCode,
        expiry: Option<u32>,
    ) -> Result<(), StateError>
        ensures ok { OnOk result
            (self.new ≡ disconnects connection client reason expiry self.old) }
        ensures memory { IfErr result (λ e. e ≡ StateError.OutOfMemory) }
    {
        expiring_at(&mut self.members, client, expiry);
        match reason {
            DisconnectReasonCode::NormalDisconnection => self.leave(alloc, client)?,
            _other => self.lose(alloc, client)?,
        }
        shut_at(&mut self.connections, connection);
        Ok(())
    }

    /// A packet that isn't refused. S12.
    fn serve_unrefused(
        &mut self,
        alloc: Global,
        connection: usize,
        client: usize,
        packet: Packet,
    ) -> Result<(), StateError>
        ensures ok { OnOk result
            (self.new ≡ serves_as (kind_of packet) connection client packet self.old) }
        ensures memory { IfErr result (λ e. e ≡ StateError.OutOfMemory) }
    {
        match kind_of(&packet) {
            Kind::Ping => {
                drop(packet);
                write_at(
                    &mut self.connections,
                    connection,
                    &Packet::PingResp(PingResp),
                )?;
                Ok(())
            }
            Kind::Goodbye(reason, expiry) => {
                drop(packet);
                self.disconnect(alloc, connection, client, reason, expiry)?;
                Ok(())
            }
            Kind::Message => {
                self.bring(alloc, connection, client, packet)?;
                Ok(())
            }
        }
    }

    /// Why a packet of a client is refused, if it is. S12, which leaves all as it was.
    #[tactic(auto, unfolding(crate::specs::Serving::fault_of))]
    fn fault_of(
        &mut self,
        alloc: Global,
        client: usize,
        packet: &Packet,
    ) -> Result<Option<DisconnectReasonCode>, StateError>
        ensures ok { IfOk result (λ r. r ≡ fault_of client packet.now self.old) }
        ensures memory { IfErr result (λ e. e ≡ StateError.OutOfMemory) }
        ensures same { self.new ≡ self.old }
    {
        let stays = stays_at(client, self.members.as_slice());
        match client_fault(stays, packet) {
            Some(reason) => Ok(Some(reason)),
            None => self.quota_fault(alloc, client, packet),
        }
    }

    /// A packet of a client that is connected. S12.
    #[tactic(auto, unfolding(crate::specs::Serving::serves))]
    pub(super) fn serve(
        &mut self,
        alloc: Global,
        connection: usize,
        client: usize,
        packet: Packet,
    ) -> Result<(), StateError>
        ensures ok { OnOk result (self.new ≡ serves connection client packet self.old) }
        ensures memory { IfErr result (λ e. e ≡ StateError.OutOfMemory) }
    {
        match self.fault_of(alloc, client, &packet)? {
            Some(reason) => {
                drop(packet);
                self.refuse(alloc, connection, client, reason)?;
                Ok(())
            }
            None => {
                self.serve_unrefused(alloc, connection, client, packet)?;
                Ok(())
            }
        }
    }
}
