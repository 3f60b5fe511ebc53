//! The shared subscriptions of a broker: who takes part in each, and whose turn it is (MQTT 5.0 section 4.8.2).

ghost use Rattle.std.specs.Prelude.{◌≡◌, Some, None, option_map, map, filter, length, drop, not, ◌==◌, nat_eq, true, IfOk, OnOk, if◌then◌else◌};
ghost use Rattle.std.specs.Cmp.Lexicographic.{pointwise};
ghost use Rattle.mqtt5_subscribe.specs.declared.filter.Filter.{Filter};
ghost use Rattle.mqtt5_sessions.specs.Sessions.{is_here};
ghost use Rattle.std.specs.List.{list_any, position};
ghost use Rattle.mqtt5_network.specs.Asking.{share_of};
ghost use Rattle.mqtt5_broker.specs.Bounds.{is_new_share, shares_too_much};
ghost use Rattle.mqtt5_broker.specs.Groups.{is_group, has_members, has_member, without_member, with_member, next_here, from_next, rotated, turns_of, turns_first, gives_all, meets, turns_met, rotates, rotated_for, turned_for, groups_turned, sessions_turned, joined, joins_by, joins_all, is_among, parts_from, asks_shared, ends_shared, regroups, regrouped, names, named_in, left_in, groups_without};

use mqtt5_base::{Text, copied, matches};
use mqtt5_codec::Packet;
use mqtt5_network::Share;
use mqtt5_router::{is_shared, share_of};
use mqtt5_sessions::Sessions;
use mqtt5_subscribe::Filter;
use std::alloc::{AllocError, Global};
use std::marker::Model;

/// The clients that have a shared subscription, of which it is the first one's turn.
#[derive(Debug, Drop)]
pub struct Group {
    topic_filter: Text,
    pattern: Text,
    members: Vec<usize>,
}

impl Model for Group {
    ghost use Rattle.std.specs.Coded.{codes};
    ghost use Rattle.mqtt5_base.specs.Codes.{utf8_code};
    ghost use Rattle.mqtt5_broker.specs.Groups as model;

    ghost Value = { model.Group };

    ghost coded = { Prim.hlevel (codes, utf8_code) };

    ghost view = { λ a. record {
      topic_filter = a.topic_filter;
      pattern = a.pattern;
      members = a.members.items;
    } };
}

impl Group {
    fn is(&self, topic_filter: &Text) -> bool
        ensures { result ≡ is_group topic_filter.now self.now }
    {
        self.topic_filter.is(topic_filter.as_str())
    }

    fn has_members(&self) -> bool
        ensures { result ≡ has_members self.now }
    {
        !self.members.is_empty()
    }

    fn has(&self, client: usize) -> bool
        ensures { result ≡ has_member client self.now.members }
    {
        self.members.iter().any(|member| *member == client)
    }

    /// Takes a client out. Takes no memory.
    fn remove(&mut self, client: usize)
        ensures { self.new ≡ without_member client self.old }
    {
        remove_member(&mut self.members, client);
    }

    /// Puts a client behind the others, unless it is there. Err where memory is refused.
    fn add(&mut self, client: usize) -> Result<(), AllocError>
        ensures { OnOk result (self.new ≡ with_member client self.old) }
    {
        if !self.has(client) {
            self.members.push(client)?;
        }
        Ok(())
    }

    /// How many clients stand between the first and the next one that is connected, if there is one.
    fn next_here(&self, sessions: &Sessions) -> Option<usize>
        ensures { result ≡ next_here sessions.now self.now.members }
    {
        position_here(after_first(self.members.as_slice()), sessions)
    }

    /// The next client that is connected is the first.
    fn rotate(&mut self, sessions: &Sessions)
        ensures { self.new ≡ rotated sessions.now self.old }
    {
        if let Some(n) = self.next_here(sessions) {
            if n + 1 <= self.members.len() {
                self.members.as_mut_slice().rotate_left(n + 1);
            }
        }
    }

    fn meets(&self, topic: &str) -> bool
        ensures { result ≡ meets topic.now self.now }
    {
        matches(topic, self.pattern.as_str())
    }

    fn rotate_met(&mut self, topic: &str, sessions: &Sessions)
        ensures { self.new ≡ (if meets topic.now self.old
            then rotated sessions.now self.old else self.old) }
    {
        if self.meets(topic) {
            self.rotate(sessions);
        }
    }

    fn remove_met(&mut self, client: usize, filters: &[Text])
        ensures { self.new ≡ (if is_among filters.now self.old.topic_filter
            then without_member client self.old else self.old) }
    {
        if is_among(filters, &self.topic_filter) {
            self.remove(client);
        }
    }

    /// Gives the first client the turn, or takes it.
    fn turn_first(&self, sessions: &mut Sessions, on: bool)
        ensures { sessions.new ≡ turns_first on self.now sessions.old }
    {
        if self.members.is_empty() {
            return;
        }
        sessions.turn(self.members[0], &self.topic_filter, on);
    }

    /// Gives the turn to the first client that isn't this one.
    fn turn_without(&self, client: usize, sessions: &mut Sessions)
        ensures { sessions.new ≡ turns_first true (without_member client self.now) sessions.old }
    {
        for member in self.members.as_slice() {
            if *member != client {
                sessions.turn(*member, &self.topic_filter, true);
                return;
            }
        }
    }

    fn turn_first_met(&self, sessions: &mut Sessions, topic: &str, on: bool)
        ensures { sessions.new ≡ (if meets topic.now self.now
            then turns_first on self.now sessions.old else sessions.old) }
    {
        if self.meets(topic) {
            self.turn_first(sessions, on);
        }
    }

    fn copy(&self, alloc: Global) -> Result<Group, AllocError>
        ensures { IfOk result (λ g. g ≡ self.now) }
    {
        Ok(Group {
            topic_filter: copied(&self.topic_filter)?,
            pattern: copied(&self.pattern)?,
            members: members_of(alloc, self.members.as_slice())?,
        })
    }
}

fn remove_member(members: &mut Vec<usize>, client: usize)
    ensures { members.new.items ≡ filter (λ m. not (m == client)) members.old.items }
{
    members.retain(|member| *member != client);
}

/// All members but the first.
fn after_first(members: &[usize]) -> &[usize]
    ensures { result.now ≡ drop 1 members.now }
{
    if members.is_empty() {
        return &[];
    }
    &members[1..]
}

/// How many stand before the first that is connected, if there is one.
fn position_here(members: &[usize], sessions: &Sessions) -> Option<usize>
    ensures { result ≡ position (λ i. is_here i sessions.now) members.now }
{
    members.iter().position(|member| sessions.is_here(*member))
}

fn members_of(alloc: Global, members: &[usize]) -> Result<Vec<usize>, AllocError>
    ensures { IfOk result (λ copies. copies.items ≡ members.now) }
{
    let mut copies = Vec::new(alloc);
    for member in members {
        copies.push(*member)?;
    }
    Ok(copies)
}

/// Whether a topic filter is one of these.
fn is_among(filters: &[Text], topic_filter: &Text) -> bool
    ensures { result ≡ is_among filters.now topic_filter.now }
{
    filters
        .iter()
        .any(|filter| filter.is(topic_filter.as_str()))
}

/// The first client of each has the turn. Takes no memory.
pub(super) fn give_all(sessions: &mut Sessions, groups: &[Group])
    ensures { sessions.new ≡ gives_all groups.now sessions.old }
{
    for group in groups {
        group.turn_first(sessions, true);
    }
}

/// In each group in which a client is, the first other one has the turn. Takes no memory.
pub(super) fn give_left(sessions: &mut Sessions, groups: &[Group], client: usize)
    ensures { sessions.new ≡ gives_all (left_in client groups.now) sessions.old }
{
    for group in groups {
        if group.has(client) {
            group.turn_without(client, sessions);
        }
    }
}

/// The first client of each that a topic matches is given the turn, or it is taken from it.
fn turn_met(sessions: &mut Sessions, groups: &[Group], topic: &str, on: bool)
    ensures { sessions.new ≡ turns_met on topic.now groups.now sessions.old }
{
    for group in groups {
        group.turn_first_met(sessions, topic, on);
    }
}

fn rotate_met(groups: &mut [Group], topic: &str, sessions: &Sessions)
    ensures { groups.new ≡ rotates topic.now sessions.now groups.old }
{
    for group in groups.iter_mut() {
        group.rotate_met(topic, sessions);
    }
}

/// Before a publish to a topic comes: of each group that it matches the turn goes to the next client that is connected. Takes no
/// memory.
pub(super) fn turn_to(groups: &mut [Group], sessions: &mut Sessions, topic: &[u8])
    ensures groups { groups.new ≡ groups_turned topic.now groups.old sessions.old }
    ensures sessions { sessions.new ≡ sessions_turned topic.now groups.old sessions.old }
{
    match std::str::from_utf8(topic) {
        Ok(text) => turn_text(groups, sessions, text),
        Err(_) => {}
    }
}

/// Whether a topic matches the filter of one.
fn meets_any(groups: &[Group], topic: &str) -> bool
    ensures { result ≡ list_any (meets topic.now) groups.now }
{
    groups.iter().any(|group| group.meets(topic))
}

#[tactic(auto, using(crate::proofs::Grouping::unmet_groups, crate::proofs::Grouping::unmet_sessions))]
fn turn_text(groups: &mut [Group], sessions: &mut Sessions, topic: &str)
    ensures groups { groups.new ≡ rotated_for topic.now groups.old sessions.old }
    ensures sessions { sessions.new ≡ turned_for topic.now groups.old sessions.old }
{
    if !meets_any(groups, topic) {
        return;
    }
    turn_met(sessions, groups, topic, false);
    rotate_met(groups, topic, sessions);
    turn_met(sessions, groups, topic, true);
}

fn copies_of(alloc: Global, groups: &[Group]) -> Result<Vec<Group>, AllocError>
    ensures { IfOk result (λ copies. copies.items ≡ groups.now) }
{
    let mut copies = Vec::new(alloc);
    for group in groups {
        copies.push(group.copy(alloc)?)?;
    }
    Ok(copies)
}

fn position_of(groups: &[Group], topic_filter: &Text) -> Option<usize>
    ensures { result ≡ position (is_group topic_filter.now) groups.now }
{
    groups.iter().position(|group| group.is(topic_filter))
}

/// A client has a shared subscription now.
fn join(
    alloc: Global,
    groups: &mut Vec<Group>,
    client: usize,
    topic_filter: &Text,
    share: Share,
) -> Result<(), AllocError>
    ensures { OnOk result (groups.new.items
        ≡ joined (position (is_group topic_filter.now) groups.old.items)
        client topic_filter.now share groups.old.items) }
{
    match position_of(groups.as_slice(), topic_filter) {
        Some(k) => {
            if k < groups.len() {
                groups[k].add(client)?;
            }
            Ok(())
        }
        None => {
            let mut members = Vec::new(alloc);
            members.push(client)?;
            groups.push(Group {
                topic_filter: copied(topic_filter)?,
                pattern: share.topic_filter,
                members,
            })?;
            Ok(())
        }
    }
}

/// It has the subscription of a filter now, which may be a shared one.
fn join_by(
    alloc: Global,
    groups: &mut Vec<Group>,
    client: usize,
    topic_filter: &Text,
) -> Result<(), AllocError>
    ensures { OnOk result (groups.new.items
        ≡ joins_by (share_of topic_filter.now) client topic_filter.now groups.old.items) }
{
    match share_of(alloc, topic_filter)? {
        Some(share) => join(alloc, groups, client, topic_filter, share),
        None => Ok(()),
    }
}

fn join_all(
    alloc: Global,
    groups: &[Group],
    client: usize,
    filters: &[Filter],
) -> Result<Vec<Group>, AllocError>
    ensures { IfOk result (λ next. next.items ≡ joins_all client filters.now groups.now) }
{
    let mut next = copies_of(alloc, groups)?;
    for filter in filters {
        join_by(alloc, &mut next, client, &filter.path)?;
    }
    Ok(next)
}

fn remove_met(groups: &mut [Group], client: usize, filters: &[Text])
    ensures { groups.new ≡ map (λ (g : Group). if is_among filters.now g.topic_filter
        then without_member client g else g) groups.old }
{
    for group in groups.iter_mut() {
        group.remove_met(client, filters);
    }
}

fn remove_empty(groups: &mut Vec<Group>)
    ensures { groups.new.items ≡ filter has_members groups.old.items }
{
    groups.retain(|group| group.has_members());
}

fn part_from(
    alloc: Global,
    groups: &[Group],
    client: usize,
    filters: &[Text],
) -> Result<Vec<Group>, AllocError>
    ensures { IfOk result (λ next. next.items ≡ parts_from client filters.now groups.now) }
{
    let mut next = copies_of(alloc, groups)?;
    remove_met(next.as_mut_slice(), client, filters);
    remove_empty(&mut next);
    Ok(next)
}

fn asks_shared(filters: &[Filter]) -> bool
    ensures { result ≡ asks_shared filters.now }
{
    filters.iter().any(|filter| is_shared(&filter.path))
}

fn ends_shared(filters: &[Text]) -> bool
    ensures { result ≡ ends_shared filters.now }
{
    filters.iter().any(|filter| is_shared(filter))
}

/// Whether there is one of a topic filter.
fn has_group(groups: &[Group], topic_filter: &Text) -> bool
    ensures { result ≡ list_any (is_group topic_filter.now) groups.now }
{
    groups.iter().any(|group| group.is(topic_filter))
}

/// Whether a filter is that of a shared subscription that nobody has yet.
fn is_new_share(groups: &[Group], filter: &Filter) -> bool
    ensures { result ≡ is_new_share groups.now filter.now }
{
    is_shared(&filter.path) && !has_group(groups, &filter.path)
}

/// How many filters are those of shared subscriptions that nobody has yet.
fn new_shares(groups: &[Group], filters: &[Filter]) -> usize
    ensures { result ≡ length (filter (is_new_share groups.now) filters.now) }
{
    filters
        .iter()
        .filter(|filter| is_new_share(groups, filter))
        .count()
}

/// Whether filters bring more shared subscriptions than there is room for, of all clients.
pub(super) fn shares_too_much(most: usize, filters: &[Filter], groups: &[Group]) -> bool
    ensures { result ≡ shares_too_much most filters.now groups.now }
{
    most.saturating_sub(groups.len()) < new_shares(groups, filters)
}

/// Whether a packet changes who takes part in a shared subscription.
fn regroups(packet: &Packet) -> bool
    ensures { result ≡ regroups packet.now }
{
    match packet {
        Packet::Subscribe(subscribe) => asks_shared(subscribe.filters.as_slice()),
        Packet::Unsubscribe(unsubscribe) => ends_shared(unsubscribe.filters.as_slice()),
        _other => false,
    }
}

/// Who takes part then.
fn regrouped_by(
    alloc: Global,
    groups: &[Group],
    client: usize,
    packet: &Packet,
) -> Result<Vec<Group>, AllocError>
    ensures { IfOk result (λ next. next.items ≡ regrouped client packet.now groups.now) }
{
    match packet {
        Packet::Subscribe(subscribe) => {
            join_all(alloc, groups, client, subscribe.filters.as_slice())
        }
        Packet::Unsubscribe(unsubscribe) => {
            part_from(alloc, groups, client, unsubscribe.filters.as_slice())
        }
        _other => copies_of(alloc, groups),
    }
}

/// Whether a filter of a Subscribe is this topic filter.
fn is_asked(filters: &[Filter], topic_filter: &Text) -> bool
    ensures { result
        ≡ list_any (λ (x : Filter). pointwise nat_eq x.path.bytes topic_filter.now.bytes) filters.now }
{
    filters
        .iter()
        .any(|filter| filter.path.is(topic_filter.as_str()))
}

/// Whether a packet names a topic filter.
fn names(packet: &Packet, topic_filter: &Text) -> bool
    ensures { result ≡ names packet.now topic_filter.now }
{
    match packet {
        Packet::Subscribe(subscribe) => is_asked(subscribe.filters.as_slice(), topic_filter),
        Packet::Unsubscribe(unsubscribe) => is_among(unsubscribe.filters.as_slice(), topic_filter),
        _other => false,
    }
}

/// The groups of the filters that a packet names. Err where memory is refused.
pub(super) fn named_in(
    alloc: Global,
    packet: &Packet,
    groups: &[Group],
) -> Result<Vec<Group>, AllocError>
    ensures { IfOk result (λ named. named.items ≡ named_in packet.now groups.now) }
{
    let mut named = Vec::new(alloc);
    for group in groups {
        if names(packet, &group.topic_filter) {
            named.push(group.copy(alloc)?)?;
        }
    }
    Ok(named)
}

/// Who takes part then, or None where a packet changes nothing of that. Err where memory is refused.
pub(super) fn regrouped(
    alloc: Global,
    groups: &[Group],
    client: usize,
    packet: &Packet,
) -> Result<Option<Vec<Group>>, AllocError>
    ensures { IfOk result (λ next. option_map (λ gs. gs.items) next
        ≡ (if regroups packet.now then Some (regrouped client packet.now groups.now) else None)) }
{
    if regroups(packet) {
        return Ok(Some(regrouped_by(alloc, groups, client, packet)?));
    }
    Ok(None)
}

fn remove_from_all(groups: &mut [Group], client: usize)
    ensures { groups.new ≡ map (without_member client) groups.old }
{
    for group in groups.iter_mut() {
        group.remove(client);
    }
}

/// A client's session ends, and with it its subscriptions. Takes no memory.
pub(super) fn leave_all(groups: &mut Vec<Group>, client: usize)
    ensures { groups.new.items ≡ groups_without client groups.old.items }
{
    remove_from_all(groups.as_mut_slice(), client);
    remove_empty(groups);
}
