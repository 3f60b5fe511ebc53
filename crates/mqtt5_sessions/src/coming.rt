//! Publishes on their way into the queues of clients.
//!
//! What is handed on goes into many queues, and memory may be refused at any of them. So all that goes into them is made first, which
//! changes nothing; then it is taken in with what brought it, which takes no memory; and then it goes into the queues one by one,
//! which changes nothing of what is kept, since a queue is seen with what is on its way to it.

ghost use Rattle.std.specs.Prelude.{◌≡◌, ◌<◌, ◌≤◌, ◌++◌, [], ◌∷◌, not, IfOk, OnOk, OnErr, length};
ghost use Rattle.std.specs.Prelude.{filter, vec_len, vec_capacity};
ghost use Rattle.std.specs.Option.{option_to_list};
ghost use Rattle.mqtt5_network.specs.Retained.{is_to, retains, retained_after};
ghost use Rattle.mqtt5_network.specs.Place.{message_of};
ghost use Rattle.mqtt5_sessions.specs.Sessions.{ClientState, gets, with_client, of_client};
ghost use Rattle.mqtt5_sessions.specs.Coming.{delivered, coming_to, forwarded_at, coming_of};
ghost use Rattle.mqtt5_sessions.specs.Coming.{coming_of_will, is_publish, coming_for, chosen};
ghost use Rattle.mqtt5_topic_index.specs.declared.index.TopicIndex.{TopicIndex};
ghost use Rattle.mqtt5_sessions.specs.Indexed.{IsIndexed};
ghost use Rattle.mqtt5_sessions.specs.Followed.{IsFollowed};

use crate::client::ClientState;
use crate::waiting::note;
use mqtt5_base::copied;
use mqtt5_codec::Packet;
use mqtt5_publish::Publish;
use mqtt5_topic_index::TopicIndex;
use std::alloc::{AllocError, Global};
use std::collections::{BTreeSet, VecDeque};

/// A publish on its way into the queue of a client.
#[derive(Debug, Drop)]
pub struct Coming {
    /// The number of the client.
    pub client: usize,
    /// The publish, as it is forwarded.
    pub publish: Publish,
}

/// What is on its way goes into the queues, and who gets it is noted. Err where memory is refused: what isn't there yet is still on its
/// way.
#[tactic(auto, using(crate::proofs::Delivered::delivers_next))]
pub(super) fn deliver_all(
    alloc: Global,
    coming: &mut VecDeque<Coming>,
    clients: &mut Vec<ClientState>,
    noted: &mut BTreeSet<usize>,
) -> Result<(), AllocError>
    ensures same { delivered coming.new.items clients.new.items
        ≡ delivered coming.old.items clients.old.items }
    ensures none { OnOk result (coming.new.items ≡ []) }
    ensures followed { (x : TopicIndex) → IsFollowed x noted.old clients.old.items
        → IsFollowed x noted.new clients.new.items }
{
    while !coming.is_empty() {
        let client = coming[0].client;
        let publish = copied(&coming[0].publish)?;
        deliver(alloc, client, publish, clients, noted)?;
        drop(coming.pop_front());
    }
    Ok(())
}

/// A publish goes to the end of the queue of the client with a number, if there is one, which is noted.
#[tactic(auto, using(crate::proofs::Delivered::deliver_past, crate::proofs::Delivered::deliver_to))]
fn deliver(
    alloc: Global,
    client: usize,
    publish: Publish,
    clients: &mut Vec<ClientState>,
    noted: &mut BTreeSet<usize>,
) -> Result<(), AllocError>
    ensures ok { OnOk result (clients.new.items
        ≡ with_client client (gets (publish ∷ [])) clients.old.items) }
    ensures left { OnErr result (clients.new.items ≡ clients.old.items) }
    ensures followed { (x : TopicIndex) → IsFollowed x noted.old clients.old.items
        → IsFollowed x noted.new clients.new.items }
{
    if client >= clients.len() {
        return Ok(());
    }
    note(noted, client)?;
    let mut publishes = Vec::new(alloc);
    publishes.push(publish)?;
    clients[client].put(publishes)?;
    Ok(())
}

/// What is forwarded of a publish of a client to each client (3.3.4): those are asked that are found in the index.
#[tactic(auto, using(crate::proofs::Found::all_found))]
fn of_publish(
    alloc: Global,
    client: usize,
    publish: &Publish,
    clients: &[ClientState],
    index: &TopicIndex,
) -> Result<VecDeque<Coming>, AllocError>
    requires { IsIndexed index.now clients.now }
    ensures { IfOk result (λ es. es.items ≡ coming_of client publish.now clients.now) }
{
    let found = index.find(alloc, publish.topic.as_slice())?;
    let mut coming = VecDeque::new(alloc);
    for number in &found {
        push_forwarded(alloc, client, publish, clients, *number, &mut coming)?;
    }
    Ok(coming)
}

/// Adds what is forwarded of it to the client with a number, if there is such a client and anything is.
fn push_forwarded(
    alloc: Global,
    client: usize,
    publish: &Publish,
    clients: &[ClientState],
    number: usize,
    coming: &mut VecDeque<Coming>,
) -> Result<(), AllocError>
    ensures { OnOk result (coming.new.items ≡ coming.old.items
        ++ coming_to number (option_to_list (forwarded_at client publish.now clients.now number))) }
{
    if number >= clients.len() {
        return Ok(());
    }
    let forwarded = clients[number].forwarded(alloc, number == client, publish)?;
    push_back(number, forwarded, coming)?;
    Ok(())
}

/// Adds a publish for a client, if there is one.
fn push_back(
    client: usize,
    publish: Option<Publish>,
    coming: &mut VecDeque<Coming>,
) -> Result<(), AllocError>
    ensures { OnOk result
        (coming.new.items ≡ coming.old.items ++ coming_to client (option_to_list publish)) }
{
    if let Some(publish) = publish {
        coming.push_back(Coming { client, publish })?;
    }
    Ok(())
}

/// What is forwarded of a client's will, if there is one (3.1.2.5).
pub(super) fn of_will(
    alloc: Global,
    client: usize,
    clients: &[ClientState],
    index: &TopicIndex,
) -> Result<VecDeque<Coming>, AllocError>
    requires there { client < length clients.now }
    requires indexed { IsIndexed index.now clients.now }
    ensures { IfOk result (λ es. es.items ≡ coming_of_will client clients.now
        (of_client client (λ c. message_of c.will) clients.now)) }
{
    match clients[client].will() {
        Some(publish) => Ok(of_publish(alloc, client, publish, clients, index)?),
        None => Ok(VecDeque::new(alloc)),
    }
}

/// Whether a packet is a publish.
pub(super) fn is_publish(packet: &Packet) -> bool
    ensures { result ≡ is_publish packet.now }
{
    matches!(packet, Packet::Publish(_))
}

/// What comes of a packet of a client, if it is a publish that is handed on, or a Subscribe.
pub(super) fn of_packet(
    alloc: Global,
    client: usize,
    packet: &Packet,
    clients: &[ClientState],
    index: &TopicIndex,
    retained: &[Publish],
) -> Result<VecDeque<Coming>, AllocError>
    requires there { client < length clients.now }
    requires indexed { IsIndexed index.now clients.now }
    ensures { IfOk result
        (λ es. es.items ≡ coming_for client retained.now clients.now packet.now) }
{
    match packet {
        Packet::Publish(publish) => of_publish(alloc, client, publish, clients, index),
        other => {
            let copies = clients[client].copies(alloc, retained, other)?;
            Ok(to_client(alloc, client, copies)?)
        }
    }
}

/// Publishes for one client.
fn to_client(
    alloc: Global,
    client: usize,
    publishes: Vec<Publish>,
) -> Result<VecDeque<Coming>, AllocError>
    ensures { IfOk result (λ es. es.items ≡ coming_to client publishes.items) }
{
    let mut coming = VecDeque::new(alloc);
    let mut rest = VecDeque::from(publishes);
    while let Some(publish) = rest.pop_front() {
        coming.push_back(Coming { client, publish })?;
    }
    Ok(coming)
}

/// What is handed on, if something is, is taken in: what was made of it is on its way, and it is retained, if it asks for that, in
/// place of the one of its topic (3.3.1.3). Takes no memory.
pub(super) fn hand_on(
    handed: Option<Publish>,
    made: VecDeque<Coming>,
    coming: &mut VecDeque<Coming>,
    retained: &mut Vec<Publish>,
)
    requires none { coming.old.items ≡ [] }
    requires room { vec_len retained.old < vec_capacity retained.old }
    ensures coming { coming.new.items ≡ chosen made.items handed }
    ensures retained { retained.new.items
        ≡ retained_after retained.old.items (option_to_list handed) }
{
    if let Some(publish) = handed {
        *coming = made;
        retain(publish, retained);
    }
}

/// Retains a publish, if it asks for that (3.3.1.3).
fn retain(publish: Publish, retained: &mut Vec<Publish>)
    requires { vec_len retained.old < vec_capacity retained.old }
    ensures { retained.new.items ≡ retains retained.old.items publish }
{
    if !publish.retain {
        return;
    }
    forget(retained, &publish);
    if !publish.payload.is_empty() {
        retained.push_reserved(publish);
    }
}

/// Takes out the message of a publish's topic.
fn forget(retained: &mut Vec<Publish>, publish: &Publish)
    ensures left { retained.new.items
        ≡ filter (λ q. not (is_to publish.now.topic q)) retained.old.items }
    ensures bound { vec_len retained.new ≤ vec_len retained.old }
    ensures capacity { vec_capacity retained.new ≡ vec_capacity retained.old }
{
    retained.retain(|other| other.topic.as_slice() != publish.topic.as_slice());
}
