//! A subscriber: a broker's publishes come in by reads, events and acks are taken out.

use crate::calls::{hand_in, hand_in_pieces, take_events};
use crate::digest::Digest;
use crate::frames::{Frames, put_ack};
use crate::made::Made;
use crate::random::Random;
use mqtt5_client::{Client, StateError};
use std::alloc::{AllocError, Global};
use std::collections::VecDeque;

/// A broker that sends publishes, and releases those of QoS 2 some publishes later.
#[derive(Drop)]
struct Source {
    made: Made,
    random: Random,
    frames: Frames,
    last_id: u16,
    unreleased: VecDeque<u16>,
}

impl Source {
    fn new(alloc: Global, seed: u64) -> Result<Source, AllocError> {
        let mut random = Random::new(seed);
        Ok(Source {
            made: Made::new(alloc, &mut random)?,
            random,
            frames: Frames::new(alloc),
            last_id: 0,
            unreleased: VecDeque::new(alloc),
        })
    }

    fn next_id(&mut self) -> u16 {
        self.last_id = if self.last_id == u16::MAX {
            1
        } else {
            self.last_id + 1
        };
        self.last_id
    }

    /// QoS 0, 1 and 2 about as 6, 3 and 1.
    fn next_qos(&mut self) -> u8 {
        match self.random.below(10) {
            0..=5 => 0,
            6..=8 => 1,
            _ => 2,
        }
    }

    /// A publish, and the release of an earlier one.
    fn send(&mut self) -> Result<(), AllocError> {
        let qos = self.next_qos();
        let id = if qos == 0 { 0 } else { self.next_id() };
        let payload = self.made.payload(&mut self.random);
        self.frames
            .put_publish(&self.made, &mut self.random, qos, id, payload)?;
        if qos == 2 {
            self.unreleased.push_back(id)?;
        }
        if self.unreleased.len() > 8
            && let Some(first) = self.unreleased.pop_front()
        {
            put_ack(&mut self.frames.bytes, 0x62, first)?;
        }
        Ok(())
    }

    /// So many publishes.
    fn send_many(&mut self, count: usize) -> Result<(), AllocError> {
        self.frames.bytes.clear();
        for _ in 0..count {
            self.send()?;
        }
        Ok(())
    }

    /// One publish of 1 to 4 MiB.
    fn send_large(&mut self, alloc: Global) -> Result<(), AllocError> {
        self.frames.bytes.clear();
        let mut payload = Vec::new(alloc);
        for _ in 0..32 + self.random.below(97) {
            let part = self.made.bytes(&mut self.random, 32_768);
            payload.extend_from_slice(part)?;
        }
        let id = self.next_id();
        self.frames
            .put_publish(&self.made, &mut self.random, 1, id, payload.as_slice())
    }
}

/// Hands bytes in by pieces of 1 to 100 bytes.
fn hand_in_small(
    client: &mut Client,
    bytes: &[u8],
    random: &mut Random,
    digest: &mut Digest,
) -> Result<(), StateError> {
    let mut rest = bytes;
    for _ in 0..bytes.len() {
        let count = rest.len().min(1 + random.below(100));
        if count == 0 {
            return Ok(());
        }
        let (piece, left) = rest.split_at(count);
        hand_in(client, piece, digest)?;
        take_events(client, digest);
        rest = left;
    }
    Ok(())
}

fn run_round(
    alloc: Global,
    client: &mut Client,
    source: &mut Source,
    round: usize,
    digest: &mut Digest,
) -> Result<(), StateError> {
    if round % 100 == 99 {
        source.send_large(alloc)?;
        let pieces = [1_460, 8_192, 65_536];
        let piece = pieces[round / 100 % 3];
        return hand_in_pieces(client, source.frames.bytes.as_slice(), piece, digest);
    }
    source.send_many(200)?;
    let bytes = source.frames.bytes.as_slice();
    match round % 5 {
        4 => hand_in_small(client, bytes, &mut source.random, digest),
        0 | 2 => hand_in_pieces(client, bytes, 1_460, digest),
        _ => hand_in_pieces(client, bytes, 8_192, digest),
    }
}

/// In each round 200 publishes come in reads of 1,460, of 8,192 or of 1 to 100 bytes; in one of a hundred, one publish
/// of 1 to 4 MiB. Answers a digest of all events and of all that is sent.
pub fn subscriber(alloc: Global, seed: u64, rounds: usize) -> Result<u64, StateError> {
    let mut source = Source::new(alloc, seed)?;
    let mut client = Client::new(alloc, 100, false)?;
    let mut digest = Digest::new();
    for round in 0..rounds {
        run_round(alloc, &mut client, &mut source, round, &mut digest)?;
    }
    digest.add(u64::from(client.state.inflight()));
    Ok(digest.value())
}
