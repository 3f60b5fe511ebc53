//! A network of a broker and its clients, played until it rests.

ghost use Rattle.std.specs.Prelude.{◌<◌};

use crate::digest::Digest;
use crate::random::Random;
use bytes::Bytes;
use mqtt5_base::{QoS, Sequence, Text};
use mqtt5_client::{Publish, StateError};
use mqtt5_network::{ClientEvent, NetworkEvent, Subscription};
use mqtt5_network_play::{NetworkReport, Profile, play_network_out};
use std::alloc::Global;
use std::num::NonZeroU16;

const TOPICS: [&str; 8] = [
    "home/kitchen/temperature",
    "home/kitchen/humidity",
    "home/cellar/temperature",
    "home/cellar/pump",
    "office/floor-1/door",
    "office/floor-1/light",
    "office/floor-2/door",
    "office/floor-2/light",
];

const FILTERS: [&str; 8] = [
    "home/kitchen/temperature",
    "home/+/temperature",
    "home/cellar/#",
    "office/+/door",
    "office/floor-1/#",
    "office/floor-2/light",
    "+/floor-2/door",
    "nowhere/#",
];

fn qos_of(number: usize) -> QoS {
    match number {
        0 => QoS::AtMostOnce,
        1 => QoS::AtLeastOnce,
        _ => QoS::ExactlyOnce,
    }
}

fn make_profile(alloc: Global, random: &mut Random) -> Result<Profile, StateError> {
    let mut subscriptions = Sequence::new(alloc);
    for _ in 0..random.below(3) {
        subscriptions.push(Subscription {
            topic_filter: Text::from_str(alloc, FILTERS[random.below(8)])?,
            granted: qos_of(random.below(3)),
            no_local: false,
            retain_as_published: false,
            identifier: None,
            share: None,
        })?;
    }
    let limit = random.short() % 100 + 1;
    let sender_limit = random.short() % 100 + 1;
    Ok(Profile {
        limit: NonZeroU16::new(limit).unwrap_or(NonZeroU16::MAX),
        sender_limit: NonZeroU16::new(sender_limit).unwrap_or(NonZeroU16::MAX),
        subscriptions,
    })
}

fn make_publish(alloc: Global, random: &mut Random, number: usize) -> Result<Publish, StateError> {
    let text = format!(in alloc; "{number}: {}", random.short())?;
    let payload = Bytes::from_string(text)?;
    let topic = TOPICS[random.below(8)];
    Ok(Publish::new(alloc, topic, qos_of(random.below(3)), payload, None)?)
}

/// What happens next: where publishes stand first, only a publish, else mostly a packet that arrives.
fn make_event(
    alloc: Global,
    random: &mut Random,
    number: usize,
    first: bool,
) -> Result<ClientEvent, StateError> {
    if first {
        return Ok(ClientEvent::Ask(make_publish(alloc, random, number)?));
    }
    Ok(match random.below(40) {
        0..=7 => ClientEvent::Ask(make_publish(alloc, random, number)?),
        8..=17 => ClientEvent::Up,
        18..=27 => ClientEvent::Down,
        28..=38 => ClientEvent::PassOn,
        _ => ClientEvent::Back(None, None, None),
    })
}

fn add_report(report: &NetworkReport, digest: &mut Digest) {
    for client in &report.clients {
        for publish in &client.shown {
            digest.add_publish(publish);
        }
        for publish in &client.accepted {
            digest.add_publish(publish);
        }
        digest.add(client.lost as u64);
        digest.add(client.queued as u64);
    }
}

/// A network of so many clients, in which so much happens before it comes to rest.
fn run_network(
    alloc: Global,
    random: &mut Random,
    clients: usize,
    events: usize,
    first: bool,
    digest: &mut Digest,
) -> Result<(), StateError>
    requires { 0 < clients }
{
    let mut profiles = Vec::new(alloc);
    for _ in 0..clients {
        profiles.push(make_profile(alloc, random)?)?;
    }
    let mut script = Vec::new(alloc);
    for number in 0..events {
        let client = random.below(clients);
        let what = make_event(alloc, random, number, first)?;
        script.push(NetworkEvent { client, what })?;
    }
    let report = play_network_out(alloc, profiles.as_slice(), script.as_slice())?;
    add_report(&report, digest);
    Ok(())
}

/// In each round two networks of 10 and one of 100 clients come to rest, the second after publishes alone, with new connections
/// else. Answers a digest of their reports.
pub fn network(alloc: Global, seed: u64, rounds: usize) -> Result<u64, StateError> {
    let mut random = Random::new(seed);
    let mut digest = Digest::new();
    for _ in 0..rounds {
        run_network(alloc, &mut random, 10, 1_000, false, &mut digest)?;
        run_network(alloc, &mut random, 10, 200, true, &mut digest)?;
        run_network(alloc, &mut random, 100, 1_000, false, &mut digest)?;
    }
    Ok(digest.value())
}
