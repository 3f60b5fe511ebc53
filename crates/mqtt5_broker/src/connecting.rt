//! What a broker makes of the first packet of a connection.

ghost use Rattle.std.specs.Prelude.{◌≡◌, ◌∷◌, Some, None, OnOk, OnErr, IfOk, IfErr, Bool, false, not, length, map, ◌==◌, if◌then◌else◌};
ghost use Rattle.mqtt5_control.specs.declared.disconnect.DisconnectReasonCode.TheVariants as reasons;
ghost use Rattle.mqtt5_codec.specs.declared.packet.Packet.TheVariants as packets;
ghost use Rattle.mqtt5_broker.specs.declared.member.Member.{Member};
ghost use Rattle.mqtt5_broker.specs.Connection.{Connection, shut, written, written_all, heard, taken_by};
ghost use Rattle.mqtt5_broker.specs.Broker.{on_connection, numbers, number_in, number_of, free_number, assigned_name, number_after};
ghost use Rattle.mqtt5_broker.specs.Expiry.{counted};
ghost use Rattle.mqtt5_broker.specs.Serving.{longest_of, silence_of, told_keep_alive, if_any, given_name, offers, connack, rejects_by, welcome, comes_in, displaced, displaces, begins, returns, enters, turns_away, enters_if_room, assigns_by, assigns, returns_to_its, admits_as, admits, entry_fault, connects, begins_with, takes, takes_by, takes_of};

use crate::aliases::alias_used;
use crate::broker::Broker;
use crate::connections::{
    Terms, client_at, connection_of, hear_at, is_open_at, own_at, refuse_at, shut_at, tell_at,
    user_of, welcome_at,
};
use crate::expiry::dated;
use crate::groups::{give_left, leave_all};
use crate::judging::connect_fault;
use crate::member::{
    Member, assigned_name, free_number, has_ended_at, is_same, longest_of, member_of, number_after,
    number_of, owner_at, receive_max_of, silence_of, stays_at, told_keep_alive,
};
use crate::reasons::rejection;
use crate::rights::will_denial;
use crate::wills::will_of;
use mqtt5_base::{Text, copied};
use mqtt5_codec::Packet;
use mqtt5_connect::{Connect, LastWill};
use mqtt5_control::{ConnAck, ConnAckProperties, ConnectReturnCode, DisconnectReasonCode};
use mqtt5_session::StateError;
use std::alloc::{AllocError, Global};
use std::collections::VecDeque;

/// What is told of the longest packet that is taken (3.2.2.3.6).
fn some_length(longest: u32) -> Option<u32>
    ensures { result ≡ if_any longest }
{
    if longest == 0 { None } else { Some(longest) }
}

/// And of the greatest alias (3.2.2.3.8).
fn some_alias(greatest: u16) -> Option<u16>
    ensures { result ≡ if_any greatest }
{
    if greatest == 0 { None } else { Some(greatest) }
}

/// The name that a client is given, if it said none (3.2.2.3.7).
fn given_name(given: bool, name: &Text) -> Result<Option<Text>, AllocError>
    ensures { IfOk result (λ t. t ≡ given_name given name.now) }
{
    if given {
        Ok(Some(copied(name)?))
    } else {
        Ok(None)
    }
}

impl Broker {
    /// What a ConnAck says. Err where memory is refused.
    fn offers(
        &self,
        alloc: Global,
        given: bool,
        connect: &Connect,
    ) -> Result<ConnAckProperties, AllocError>
        ensures { IfOk result (λ p. p ≡ offers given connect.now self.now) }
    {
        let name = given_name(given, &connect.client_id)?;
        let mut offers = ConnAckProperties::new(alloc);
        offers.max_packet_size = some_length(self.longest);
        offers.assigned_client_identifier = name;
        offers.topic_alias_max = some_alias(self.alias_max);
        offers.server_keep_alive = told_keep_alive(self.keep_alive_max, connect.keep_alive);
        Ok(offers)
    }

    /// The answer to a client that is taken, and whether the broker has a session of it (3.2.2.1.1). Err where memory is refused.
    fn connack(
        &self,
        alloc: Global,
        present: bool,
        given: bool,
        connect: &Connect,
    ) -> Result<Packet, AllocError>
        ensures { IfOk result (λ p. p ≡ connack present given connect.now self.now) }
    {
        let offers = self.offers(alloc, given, connect)?;
        Ok(Packet::ConnAck(ConnAck {
            session_present: present,
            code: ConnectReturnCode::Success,
            properties: Some(offers),
        }))
    }

    /// A client is taken on a connection, and sent what its session sends again. S12.
    #[tactic(auto, unfolding(crate::specs::Serving::comes_in))]
    fn come_in(
        &mut self,
        alloc: Global,
        connection: usize,
        client: usize,
        present: bool,
        given: bool,
        connect: &Connect,
        will: &Option<LastWill>,
    ) -> Result<(), StateError>
        ensures ok { OnOk result
            (self.new ≡ comes_in connection client present given connect.now will.now self.old) }
        ensures memory { IfErr result (λ e. e ≡ StateError.OutOfMemory) }
    {
        let max = receive_max_of(&connect.properties);
        let will = will_of(alloc, will)?;
        let packets = self.take_up(alloc, client, max, will)?;
        self.welcome(alloc, connection, client, present, given, connect, packets)?;
        Ok(())
    }

    /// The same. S12: the connection is its own all the same, so it is lost when that is closed.
    fn come_as(
        &mut self,
        alloc: Global,
        connection: usize,
        client: usize,
        present: bool,
        given: bool,
        connect: &Connect,
        will: &Option<LastWill>,
    ) -> Result<(), StateError>
        ensures ok { OnOk result
            (self.new ≡ comes_in connection client present given connect.now will.now self.old) }
        ensures memory { IfErr result (λ e. e ≡ StateError.OutOfMemory) }
    {
        match self.come_in(alloc, connection, client, present, given, connect, will) {
            Ok(()) => Ok(()),
            Err(fault) => {
                own_at(&mut self.connections, connection, client, self.moment);
                Err(fault)
            }
        }
    }

    /// The connection of a client that is taken is its own, and is sent the answer and these packets. Err where memory is refused.
    fn welcome(
        &mut self,
        alloc: Global,
        connection: usize,
        client: usize,
        present: bool,
        given: bool,
        connect: &Connect,
        packets: VecDeque<Packet>,
    ) -> Result<(), AllocError>
        ensures { OnOk result (self.new ≡ on_connection connection (λ (l : Connection).
            written_all
            (connack present given connect.now self.old
            ∷ map (counted self.old.moment) packets.items)
            (taken_by client (longest_of connect.now.properties)
            (silence_of self.old.keep_alive_max connect.now) self.old.moment l)) self.old) }
    {
        let welcome = self.connack(alloc, present, given, connect)?;
        let written = welcome_at(
            &mut self.connections,
            connection,
            client,
            Terms {
                longest: longest_of(&connect.properties),
                silence: silence_of(self.keep_alive_max, connect),
            },
            self.moment,
            &welcome,
            packets,
        );
        drop(welcome);
        written
    }

    /// The connection that a client has, if it has one, is told that another takes its place. S12, which leaves all as it was.
    #[tactic(auto, unfolding(crate::specs::Serving::displaces))]
    fn displace(&mut self, client: usize) -> Result<(), StateError>
        ensures ok { OnOk result (self.new ≡ displaces client self.old) }
        ensures memory { IfErr result (λ e. e ≡ StateError.OutOfMemory) }
        ensures left { OnErr result (self.new ≡ self.old) }
    {
        match connection_of(client, self.connections.as_slice()) {
            Some(connection) => {
                tell_at(
                    &mut self.connections,
                    connection,
                    DisconnectReasonCode::SessionTakenOver,
                )?;
                Ok(())
            }
            None => Ok(()),
        }
    }

    /// A client's session ends, where it starts anew, and it is known by what it says now. S12, which leaves all as it was.
    #[tactic(auto, unfolding(crate::specs::Serving::begins))]
    fn begin(
        &mut self,
        alloc: Global,
        client: usize,
        anew: bool,
        connect: &Connect,
        will: &Option<LastWill>,
    ) -> Result<(), StateError>
        ensures ok { OnOk result (self.new ≡ begins client anew connect.now will.now self.old) }
        ensures memory { IfErr result (λ e. e ≡ StateError.OutOfMemory) }
        ensures left { OnErr result (self.new ≡ self.old) }
    {
        let owner = owner_at(client, self.members.as_slice());
        let member = member_of(owner, connect, will)?;
        if anew {
            self.end_session(alloc, client)?;
            give_left(&mut self.sessions, self.groups.as_slice(), client);
            leave_all(&mut self.groups, client);
        }
        if client < self.members.len() {
            self.members[client] = Some(member);
        }
        Ok(())
    }

    /// A client that is known is taken on a connection, as its session starts anew or goes on. S12: the connection is its own all
    /// the same, so it is lost when that is closed.
    fn come_back(
        &mut self,
        alloc: Global,
        connection: usize,
        client: usize,
        anew: bool,
        connect: &Connect,
        will: &Option<LastWill>,
    ) -> Result<(), StateError>
        ensures ok { OnOk result (self.new
            ≡ comes_in connection client (not anew) false connect.now will.now
            (begins client anew connect.now will.now self.old)) }
        ensures memory { IfErr result (λ e. e ≡ StateError.OutOfMemory) }
    {
        match self.begin(alloc, client, anew, connect, will) {
            Ok(()) => self.come_as(alloc, connection, client, !anew, false, connect, will),
            Err(fault) => {
                own_at(&mut self.connections, connection, client, self.moment);
                Err(fault)
            }
        }
    }

    /// A client comes that is known. S12.
    fn bring_back(
        &mut self,
        alloc: Global,
        connection: usize,
        client: usize,
        connect: &Connect,
        will: &Option<LastWill>,
    ) -> Result<(), StateError>
        ensures ok { OnOk result
            (self.new ≡ returns connection client connect.now will.now self.old) }
        ensures memory { IfErr result (λ e. e ≡ StateError.OutOfMemory) }
    {
        let members = self.members.as_slice();
        let anew = connect.clean_start
            || !stays_at(client, members)
            || has_ended_at(client, members, self.moment);
        self.displace(client)?;
        self.come_back(alloc, connection, client, anew, connect, will)
    }

    /// One more client is known: its number. S12, which leaves all as it was.
    fn number(&mut self, alloc: Global, member: Member) -> Result<usize, StateError>
        ensures ok { OnOk result
            (self.new ≡ numbers member (free_number self.old.members) self.old) }
        ensures number { IfOk result
            (λ i. i ≡ number_in (free_number self.old.members) self.old) }
        ensures memory { IfErr result (λ e. e ≡ StateError.OutOfMemory) }
        ensures left { OnErr result (self.new ≡ self.old) }
    {
        match free_number(self.members.as_slice()) {
            Some(client) => {
                if client < self.members.len() {
                    self.members[client] = Some(member);
                }
                Ok(client)
            }
            None => {
                let client = self.members.len();
                self.members.reserve(1)?;
                let _number = self.sessions.join(alloc, self.limit)?;
                self.members.push_reserved(Some(member));
                Ok(client)
            }
        }
    }

    /// A client comes that isn't known; `given` is whether it was given its name. S12.
    #[tactic(auto, unfolding(crate::specs::Serving::enters))]
    fn enter(
        &mut self,
        alloc: Global,
        connection: usize,
        given: bool,
        connect: &Connect,
        will: &Option<LastWill>,
    ) -> Result<(), StateError>
        ensures ok { OnOk result
            (self.new ≡ enters connection given connect.now will.now self.old) }
        ensures memory { IfErr result (λ e. e ≡ StateError.OutOfMemory) }
    {
        let user = user_of(self.connections.as_slice(), connection);
        let member = member_of(user, connect, will)?;
        let client = self.number(alloc, member)?;
        self.come_as(alloc, connection, client, false, given, connect, will)
    }

    /// One more client enters, where there is room for it. S12.
    fn enter_if_room(
        &mut self,
        alloc: Global,
        connection: usize,
        given: bool,
        connect: &Connect,
        will: &Option<LastWill>,
    ) -> Result<(), StateError>
        ensures ok { OnOk result
            (self.new ≡ enters_if_room connection given connect.now will.now self.old) }
        ensures memory { IfErr result (λ e. e ≡ StateError.OutOfMemory) }
    {
        if self.has_room() {
            self.enter(alloc, connection, given, connect, will)?;
            return Ok(());
        }
        self.reject_as(alloc, connection, connect, ConnectReturnCode::QuotaExceeded)
    }

    /// One that has a name now enters, unless somebody has that. S12.
    fn enter_named(
        &mut self,
        alloc: Global,
        connection: usize,
        connect: &Connect,
        will: &Option<LastWill>,
    ) -> Result<(), StateError>
        ensures ok { OnOk result
            (self.new ≡ assigns_by (number_of connect.now.client_id self.old.members)
            connection connect.now will.now self.old) }
        ensures memory { IfErr result (λ e. e ≡ StateError.OutOfMemory) }
    {
        match number_of(&connect.client_id, self.members.as_slice()) {
            Some(_) => self.reject_as(alloc, connection, connect, ConnectReturnCode::ServerBusy),
            None => {
                self.enter_if_room(alloc, connection, true, connect, will)?;
                Ok(())
            }
        }
    }

    /// A client that says no name is given the next one. S12.
    #[tactic(auto, unfolding(crate::specs::Serving::assigns))]
    fn assign(
        &mut self,
        alloc: Global,
        connection: usize,
        connect: &Connect,
        will: &Option<LastWill>,
    ) -> Result<(), StateError>
        ensures ok { OnOk result (self.new ≡ assigns connection connect.now will.now self.old) }
        ensures memory { IfErr result (λ e. e ≡ StateError.OutOfMemory) }
    {
        let mut named = copied(connect)?;
        named.client_id = assigned_name(alloc, self.next_name)?;
        self.next_name = number_after(self.next_name);
        let entered = self.enter_named(alloc, connection, &named, will);
        drop(named);
        entered?;
        Ok(())
    }

    /// A client comes that is known, and has its session, unless that is another user's. S12.
    fn bring_back_its(
        &mut self,
        alloc: Global,
        connection: usize,
        client: usize,
        connect: &Connect,
        will: &Option<LastWill>,
    ) -> Result<(), StateError>
        ensures ok { OnOk result
            (self.new ≡ returns_to_its connection client connect.now will.now self.old) }
        ensures memory { IfErr result (λ e. e ≡ StateError.OutOfMemory) }
    {
        let user = user_of(self.connections.as_slice(), connection);
        if is_same(user, owner_at(client, self.members.as_slice())) {
            self.bring_back(alloc, connection, client, connect, will)?;
            return Ok(());
        }
        self.reject_as(
            alloc,
            connection,
            connect,
            ConnectReturnCode::ClientIdentifierNotValid,
        )
    }

    /// A client comes that isn't refused. S12.
    #[tactic(auto, unfolding(crate::specs::Serving::admits))]
    fn admit(
        &mut self,
        alloc: Global,
        connection: usize,
        connect: &Connect,
        will: &Option<LastWill>,
    ) -> Result<(), StateError>
        ensures ok { OnOk result (self.new ≡ admits connection connect.now will.now self.old) }
        ensures memory { IfErr result (λ e. e ≡ StateError.OutOfMemory) }
    {
        if connect.client_id.as_bytes().is_empty() {
            return self.assign(alloc, connection, connect, will);
        }
        match number_of(&connect.client_id, self.members.as_slice()) {
            Some(client) => {
                self.bring_back_its(alloc, connection, client, connect, will)?;
                Ok(())
            }
            None => {
                self.enter_if_room(alloc, connection, false, connect, will)?;
                Ok(())
            }
        }
    }

    /// The first packet of a connection is refused by this. S12, which leaves all as it was.
    pub(super) fn turn_away(&mut self, connection: usize, answer: Packet) -> Result<(), StateError>
        ensures ok { OnOk result (self.new ≡ turns_away connection answer self.old) }
        ensures memory { IfErr result (λ e. e ≡ StateError.OutOfMemory) }
        ensures left { OnErr result (self.new ≡ self.old) }
    {
        let refused = refuse_at(&mut self.connections, connection, &answer);
        drop(answer);
        refused?;
        Ok(())
    }

    /// A Connect is refused, and told why. S12, which leaves all as it was.
    fn reject_as(
        &mut self,
        alloc: Global,
        connection: usize,
        connect: &Connect,
        code: ConnectReturnCode,
    ) -> Result<(), StateError>
        ensures ok { OnOk result
            (self.new ≡ turns_away connection (rejects_by connect.now code) self.old) }
        ensures memory { IfErr result (λ e. e ≡ StateError.OutOfMemory) }
        ensures left { OnErr result (self.new ≡ self.old) }
    {
        let answer = rejection(alloc, longest_of(&connect.properties), code)?;
        self.turn_away(connection, answer)
    }

    /// Why a Connect is refused, if it is.
    #[tactic(auto, unfolding(crate::specs::Serving::entry_fault))]
    fn entry_fault(
        &self,
        connection: usize,
        connect: &Connect,
        will: &Option<LastWill>,
    ) -> Option<ConnectReturnCode>
        ensures { result ≡ entry_fault connection connect.now will.now self.now }
    {
        match connect_fault(connect, will) {
            Some(code) => Some(code),
            None => {
                let user = user_of(self.connections.as_slice(), connection);
                will_denial(user, self.rights.as_slice(), will)
            }
        }
    }

    /// A Connect. S12.
    #[tactic(auto, unfolding(crate::specs::Serving::connects))]
    fn connect(
        &mut self,
        alloc: Global,
        connection: usize,
        connect: &Connect,
        will: &Option<LastWill>,
    ) -> Result<(), StateError>
        ensures ok { OnOk result (self.new ≡ connects connection connect.now will.now self.old) }
        ensures memory { IfErr result (λ e. e ≡ StateError.OutOfMemory) }
    {
        match self.entry_fault(connection, connect, will) {
            Some(code) => self.reject_as(alloc, connection, connect, code),
            None => {
                self.admit(alloc, connection, connect, will)?;
                Ok(())
            }
        }
    }

    /// The first packet of a connection: a Connect, or nothing more is taken of it. S12.
    fn begin_with(
        &mut self,
        alloc: Global,
        connection: usize,
        packet: &Packet,
    ) -> Result<(), StateError>
        ensures ok { OnOk result (self.new ≡ begins_with connection packet.now self.old) }
        ensures memory { IfErr result (λ e. e ≡ StateError.OutOfMemory) }
    {
        match packet {
            Packet::Connect(connect, will, _) => {
                self.connect(alloc, connection, connect, will)?;
                Ok(())
            }
            _other => {
                shut_at(&mut self.connections, connection);
                Ok(())
            }
        }
    }

    /// A packet of a client that is connected, by the alias that it uses, if it does. S12.
    fn take_from(
        &mut self,
        alloc: Global,
        connection: usize,
        client: usize,
        alias: Option<u16>,
        packet: Packet,
    ) -> Result<(), StateError>
        ensures ok { OnOk result (self.new ≡ takes_by alias connection client packet self.old) }
        ensures memory { IfErr result (λ e. e ≡ StateError.OutOfMemory) }
    {
        match alias {
            Some(alias) => self.take_under(alloc, connection, client, alias, packet),
            None => self.serve(alloc, connection, client, packet),
        }
    }

    /// A packet of a connection that takes packets, by its client. S12.
    fn take_of(
        &mut self,
        alloc: Global,
        connection: usize,
        client: Option<usize>,
        packet: Packet,
    ) -> Result<(), StateError>
        ensures ok { OnOk result (self.new ≡ takes_of client connection packet self.old) }
        ensures memory { IfErr result (λ e. e ≡ StateError.OutOfMemory) }
    {
        match client {
            Some(client) => {
                let alias = alias_used(self.alias_max, &packet);
                let packet = dated(self.moment, packet);
                self.take_from(alloc, connection, client, alias, packet)
            }
            None => {
                let begun = self.begin_with(alloc, connection, &packet);
                drop(packet);
                begun?;
                Ok(())
            }
        }
    }

    /// A packet of a connection; where that takes none it does nothing. S12.
    #[tactic(auto, unfolding(crate::specs::Serving::takes))]
    pub(super) fn take(
        &mut self,
        alloc: Global,
        connection: usize,
        packet: Packet,
    ) -> Result<(), StateError>
        ensures ok { OnOk result (self.new ≡ takes connection packet self.old) }
        ensures memory { IfErr result (λ e. e ≡ StateError.OutOfMemory) }
    {
        if !is_open_at(self.connections.as_slice(), connection) {
            return Ok(());
        }
        let client = client_at(self.connections.as_slice(), connection);
        hear_at(&mut self.connections, connection, self.moment);
        self.take_of(alloc, connection, client, packet)?;
        Ok(())
    }
}
