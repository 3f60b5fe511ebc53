//! A broker's routing: topics against many filters, and a broker with many clients.

use crate::digest::Digest;
use crate::frames::Frames;
use crate::made::{Made, level, make_topic};
use crate::random::Random;
use broker_core::{Broker, BrokerError};
use bytes::BytesMut;
use mqtt5_base::{matches, valid_filter};
use mqtt5_client::StateError;
use std::alloc::{AllocError, Global};

/// A filter near a topic: with a level as a wildcard, its end cut for one, or another last level.
fn make_filter(alloc: Global, random: &mut Random, prefix: &str) -> Result<String, AllocError> {
    let mut filter = String::from_str(alloc, prefix)?;
    for _ in 0..1 + random.below(3) {
        filter.push_str("/")?;
        let part = if random.chance(1, 4) {
            "+"
        } else {
            level(random)
        };
        filter.push_str(part)?;
    }
    if random.chance(1, 3) {
        filter.push_str("/#")?;
    } else {
        let number = format!(in alloc; "/{}", random.below(1000))?;
        filter.push_str(number.as_str())?;
    }
    Ok(filter)
}

/// Filters of which each twenty have a prefix in common, and one in ten begins with a wildcard.
fn make_filters(
    alloc: Global,
    random: &mut Random,
    count: usize,
    prefixes: &mut Vec<String>,
) -> Result<Vec<String>, AllocError> {
    let mut filters = Vec::new(alloc);
    for _ in 0..count / 20 {
        let prefix = make_topic(alloc, random)?;
        for _ in 0..20 {
            let start = if random.chance(1, 10) {
                "+"
            } else {
                prefix.as_str()
            };
            filters.push(make_filter(alloc, random, start)?)?;
        }
        prefixes.push(prefix)?;
    }
    Ok(filters)
}

/// A topic under one of the prefixes, which most of its filters fail late.
fn near_topic(
    alloc: Global,
    random: &mut Random,
    prefixes: &[String],
) -> Result<String, AllocError> {
    let mut topic = match prefixes.get(random.below(prefixes.len().max(1))) {
        Some(prefix) => String::from_str(alloc, prefix.as_str())?,
        None => String::new(alloc),
    };
    for _ in 0..1 + random.below(3) {
        topic.push_str("/")?;
        topic.push_str(level(random))?;
    }
    let number = format!(in alloc; "/{}", random.below(1000))?;
    topic.push_str(number.as_str())?;
    Ok(topic)
}

fn count_matches(topic: &str, filters: &[String]) -> u64 {
    let mut count: u64 = 0;
    for filter in filters {
        if matches(topic, filter.as_str()) {
            count = count.wrapping_add(1);
        }
    }
    count
}

fn count_valid(filters: &[String]) -> u64 {
    let mut count: u64 = 0;
    for filter in filters {
        if valid_filter(filter.as_str()) {
            count = count.wrapping_add(1);
        }
    }
    count
}

/// 100 topics against 2,000 filters.
fn match_all(alloc: Global, random: &mut Random, digest: &mut Digest) -> Result<(), AllocError> {
    let mut prefixes = Vec::new(alloc);
    let filters = make_filters(alloc, random, 2_000, &mut prefixes)?;
    digest.add(count_valid(filters.as_slice()));
    for _ in 0..100 {
        let topic = near_topic(alloc, random, prefixes.as_slice())?;
        digest.add(count_matches(topic.as_str(), filters.as_slice()));
    }
    Ok(())
}

/// A Connect of a client, without properties.
fn put_connect(stream: &mut BytesMut) -> Result<(), AllocError> {
    stream.extend_from_slice(b"\x10\x0d\x00\x04MQTT\x05\x02\x00\x3c\x00\x00\x00")
}

/// Connects a client that subscribes to so many filters.
fn add_client(
    alloc: Global,
    broker: &mut Broker,
    filters: &[String],
    digest: &mut Digest,
) -> Result<(), BrokerError> {
    let id = broker.accept(alloc)?;
    let mut stream = BytesMut::new(alloc);
    put_connect(&mut stream)?;
    broker.receive(alloc, id, &mut stream)?;
    for filter in filters {
        let mut frames = Frames::new(alloc);
        frames.put_subscribe_to(filter.as_str())?;
        stream.extend_from_slice(frames.bytes.as_slice())?;
        broker.receive(alloc, id, &mut stream)?;
    }
    take_output(alloc, broker, id, digest);
    Ok(())
}

fn take_output(alloc: Global, broker: &mut Broker, id: usize, digest: &mut Digest) {
    if let Some(bytes) = broker.take_output(alloc, id) {
        digest.add_bytes(bytes.as_slice());
    }
}

/// A broker of 100 clients with 20 filters each, through which 100 publishes go.
fn route_all(
    alloc: Global,
    made: &Made,
    random: &mut Random,
    digest: &mut Digest,
) -> Result<(), BrokerError> {
    let mut broker = Broker::new(alloc);
    let mut prefixes = Vec::new(alloc);
    let filters = make_filters(alloc, random, 2_000, &mut prefixes)?;
    for own in filters.as_slice().chunks(20) {
        add_client(alloc, &mut broker, own, digest)?;
    }
    let mut stream = BytesMut::new(alloc);
    for turn in 0..100 {
        let topic = near_topic(alloc, random, prefixes.as_slice())?;
        let mut frames = Frames::new(alloc);
        frames.put_publish_to(topic.as_str(), made.payload(random))?;
        stream.extend_from_slice(frames.bytes.as_slice())?;
        broker.receive(alloc, turn, &mut stream)?;
    }
    for id in 0..100 {
        take_output(alloc, &mut broker, id, digest);
    }
    Ok(())
}

/// In each round 100 topics are tried against 2,000 filters, and 100 publishes go through a broker of as many.
/// Answers a digest of the counts and of what the broker sends.
pub fn routing(alloc: Global, seed: u64, rounds: usize) -> Result<u64, StateError> {
    let mut random = Random::new(seed);
    let made = Made::new(alloc, &mut random)?;
    let mut digest = Digest::new();
    for _ in 0..rounds {
        match_all(alloc, &mut random, &mut digest)?;
        if let Err(_refused) = route_all(alloc, &made, &mut random, &mut digest) {
            return Err(StateError::InvalidState);
        }
    }
    Ok(digest.value())
}
