//! Who has the sessions of a broker, by name.

ghost use Rattle.std.specs.Prelude.{◌≡◌, ◌++◌, Some, None, is_none, IfOk, codes, string_bytes};
ghost use Rattle.std.specs.Fmt.{decimal};
ghost use Rattle.std.specs.List.{position};
ghost use Rattle.mqtt5_base.specs.Texts.{Utf8};
ghost use Rattle.mqtt5_broker.specs.Broker.{is_named, number_of, free_number, member_at, name_in, name_of, owner_at, owner_of, is_same, assigned_name, number_after, stays_at, stays_of, has_ended, will_is_due, end_of, due_of, away, gone, expiring, undue, on_member};
ghost use Rattle.mqtt5_broker.specs.Serving.{or_else, expiry_of, receive_max_of, longest_of, told_keep_alive, silence_of, member_of};

use crate::moments::{has_come, seconds_after};
use crate::wills::delay_in;
use mqtt5_base::{Text, copied};
use mqtt5_connect::{Connect, ConnectProperties, LastWill};
use std::alloc::{AllocError, Global};

/// A client that is known (MQTT 5.0 sections 3.1.2.11.2, 3.1.3.1 and 3.1.3.2.2).
#[derive(Debug, Drop)]
pub struct Member {
    /// Its client identifier.
    pub name: Text,
    /// The number of the user whose session it has, if it connected as one.
    pub owner: Option<usize>,
    /// After how many seconds its session ends once its connection has: 0 is at once, 4294967295 never.
    pub expiry: u32,
    /// After how many seconds its will is published then, if it has one: 0 is at once.
    pub delay: u32,
    /// The moment at which its session ends, if it is away.
    pub ends: Option<u64>,
    /// The moment at which its will is published, if it is away.
    pub due: Option<u64>,
}

impl Member {
    /// It goes away at a moment.
    fn go_away(&mut self, at: u64)
        ensures { self.new ≡ away at self.old }
    {
        self.ends = end_of(self.expiry, at);
        self.due = due_of(self.delay, at);
    }

    /// It goes away, without its will.
    fn leave(&mut self, at: u64)
        ensures { self.new ≡ gone at self.old }
    {
        self.ends = end_of(self.expiry, at);
        self.due = None;
    }
}

/// The moment at which a session ends of a client that goes away.
fn end_of(expiry: u32, at: u64) -> Option<u64>
    ensures { result ≡ end_of expiry at }
{
    if expiry == 4_294_967_295 {
        None
    } else {
        Some(seconds_after(expiry, at))
    }
}

/// The moment at which its will is published, if that has a delay.
fn due_of(delay: u32, at: u64) -> Option<u64>
    ensures { result ≡ due_of delay at }
{
    if delay == 0 {
        None
    } else {
        Some(seconds_after(delay, at))
    }
}

/// The client of a number goes away at a moment.
pub(super) fn away_at(members: &mut [Option<Member>], client: usize, at: u64)
    ensures { members.new ≡ on_member client (away at) members.old }
{
    if client < members.len() {
        if let Some(member) = &mut members[client] {
            member.go_away(at);
        }
    }
}

/// It goes away, without its will.
pub(super) fn gone_at(members: &mut [Option<Member>], client: usize, at: u64)
    ensures { members.new ≡ on_member client (gone at) members.old }
{
    if client < members.len() {
        if let Some(member) = &mut members[client] {
            member.leave(at);
        }
    }
}

/// Its session ends after so many seconds, if it says how many.
pub(super) fn expiring_at(members: &mut [Option<Member>], client: usize, expiry: Option<u32>)
    ensures { members.new ≡ on_member client (expiring expiry) members.old }
{
    if client < members.len() {
        if let Some(member) = &mut members[client] {
            if let Some(expiry) = expiry {
                member.expiry = expiry;
            }
        }
    }
}

/// Its will isn't due any more.
pub(super) fn undue_at(members: &mut [Option<Member>], client: usize)
    ensures { members.new ≡ on_member client undue members.old }
{
    if client < members.len() {
        if let Some(member) = &mut members[client] {
            member.due = None;
        }
    }
}

/// Whether the moment has come at which the session of a number ends.
pub(super) fn has_ended_at(client: usize, members: &[Option<Member>], now: u64) -> bool
    ensures { result ≡ has_ended now (member_at client members.now) }
{
    if client >= members.len() {
        return false;
    }
    match &members[client] {
        Some(member) => has_come(member.ends, now),
        None => false,
    }
}

/// Whether the one has come at which its will is published, if that waits.
pub(super) fn will_is_due_at(client: usize, members: &[Option<Member>], now: u64) -> bool
    ensures { result ≡ will_is_due now (member_at client members.now) }
{
    if client >= members.len() {
        return false;
    }
    match &members[client] {
        Some(member) => has_come(member.due, now),
        None => false,
    }
}

/// The name of a client, or nothing.
pub(super) fn name_in(client: Option<usize>, members: &[Option<Member>]) -> &str
    ensures { result.now ≡ name_in client members.now }
{
    let Some(client) = client else {
        return "";
    };
    if client >= members.len() {
        return "";
    }
    match &members[client] {
        Some(member) => member.name.as_str(),
        None => "",
    }
}

/// The user whose session the client of a number has.
pub(super) fn owner_at(client: usize, members: &[Option<Member>]) -> Option<usize>
    ensures { result ≡ owner_at client members.now }
{
    if client >= members.len() {
        return None;
    }
    match &members[client] {
        Some(member) => member.owner,
        None => None,
    }
}

/// Whether two users are the same, or both are none.
pub(super) fn is_same(user: Option<usize>, other: Option<usize>) -> bool
    ensures { result ≡ is_same user other }
{
    match (user, other) {
        (None, None) => true,
        (Some(user), Some(other)) => user == other,
        _ => false,
    }
}

/// The name that a client is given that says none, by its number. Err where memory is refused.
pub(super) fn assigned_name(alloc: Global, number: u64) -> Result<Text, AllocError>
    ensures { IfOk result (λ t. t ≡ assigned_name number) }
{
    let text = format!(in alloc; "auto-{number}")?;
    Ok(Text::from(text))
}

/// The number of the next one.
pub(super) fn number_after(number: u64) -> u64
    ensures { result ≡ number_after number }
{
    number.saturating_add(1)
}

/// Whether somebody has this name.
fn is_named(name: &Text, member: &Option<Member>) -> bool
    ensures { result ≡ is_named name.now member.now }
{
    match member {
        Some(member) => member.name.is(name.as_str()),
        None => false,
    }
}

/// The number of the client with a name, if there is one.
pub(super) fn number_of(name: &Text, members: &[Option<Member>]) -> Option<usize>
    ensures { result ≡ number_of name.now members.now }
{
    members.iter().position(|member| is_named(name, member))
}

/// A number that nobody has, if there is one.
pub(super) fn free_number(members: &[Option<Member>]) -> Option<usize>
    ensures { result ≡ free_number members.now }
{
    members.iter().position(|member| member.is_none())
}

/// Whether the session of a number stays.
pub(super) fn stays_at(client: usize, members: &[Option<Member>]) -> bool
    ensures { result ≡ stays_at client members.now }
{
    if client >= members.len() {
        return false;
    }
    match &members[client] {
        Some(member) => member.expiry != 0,
        None => false,
    }
}

/// After how many seconds its session ends (3.1.2.11.2).
pub(super) fn expiry_of(properties: &Option<ConnectProperties>) -> u32
    ensures { result ≡ expiry_of properties.now }
{
    match properties {
        Some(set) => set.session_expiry_interval.unwrap_or(0),
        None => 0,
    }
}

/// How many publishes it takes ahead of their acks (3.1.2.11.3).
pub(super) fn receive_max_of(properties: &Option<ConnectProperties>) -> u16
    ensures { result ≡ receive_max_of properties.now }
{
    match properties {
        Some(set) => set.receive_maximum.unwrap_or(65_535),
        None => 65_535,
    }
}

/// The longest packet that it takes (3.1.2.11.4).
pub(super) fn longest_of(properties: &Option<ConnectProperties>) -> Option<u32>
    ensures { result ≡ longest_of properties.now }
{
    match properties {
        Some(set) => set.max_packet_size,
        None => None,
    }
}

/// The keep alive that it is told, where it asks for none, or for a longer one than the longest (3.2.2.3.14).
pub(super) fn told_keep_alive(most: u16, asked: u16) -> Option<u16>
    ensures { result ≡ told_keep_alive most asked }
{
    if most == 0 {
        return None;
    }
    if asked == 0 || most < asked {
        return Some(most);
    }
    None
}

/// For how many milliseconds it may be silent: one and a half times its keep alive (3.1.2.10).
pub(super) fn silence_of(most: u16, connect: &Connect) -> u32
    ensures { result ≡ silence_of most connect.now }
{
    let seconds = match told_keep_alive(most, connect.keep_alive) {
        Some(told) => told,
        None => connect.keep_alive,
    };
    1500 * seconds as u32
}

/// By what a client is known that sent this, of a user.
pub(super) fn member_of(
    user: Option<usize>,
    connect: &Connect,
    will: &Option<LastWill>,
) -> Result<Member, AllocError>
    ensures { IfOk result (λ m. m ≡ member_of user connect.now will.now) }
{
    Ok(Member {
        name: copied(&connect.client_id)?,
        owner: user,
        expiry: expiry_of(&connect.properties),
        delay: delay_in(will),
        ends: None,
        due: None,
    })
}
