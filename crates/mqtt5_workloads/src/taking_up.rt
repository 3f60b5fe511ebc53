//! Sessions that are taken up after cuts, and given back.

ghost use Rattle.std.specs.Prelude.{◌<◌};

use crate::calls::{ask, hand_in, send_out, take_events};
use crate::digest::Digest;
use crate::frames::{put_ack, put_connack};
use crate::made::Made;
use crate::publisher::make_publish;
use crate::random::Random;
use mqtt5_client::{Client, MqttOptions, QoS, Request, StateError};
use std::alloc::Global;

/// A client that holds publishes without their acks, over connections that are cut.
#[derive(Drop)]
struct Holder {
    client: Client,
    options: MqttOptions,
    made: Made,
    random: Random,
    frames: Vec<u8>,
    limit: u16,
}

impl Holder {
    fn new(alloc: Global, seed: u64, limit: u16) -> Result<Holder, StateError>
        requires { 0 < limit }
    {
        let mut random = Random::new(seed);
        Ok(Holder {
            client: Client::new(alloc, limit, false)?,
            options: MqttOptions::new(alloc, "client-7", "localhost", 1_883)?,
            made: Made::new(alloc, &mut random)?,
            random,
            frames: Vec::new(alloc),
            limit,
        })
    }

    fn has_room(&self) -> bool {
        self.client.state.inflight() < self.limit && self.client.state.collision().is_none()
    }

    /// Publishes until the limit is reached, or one waits for its id. One in four is of QoS 2.
    fn fill(&mut self, alloc: Global, digest: &mut Digest) -> Result<(), StateError> {
        for _ in 0..self.limit {
            if !self.has_room() {
                break;
            }
            let qos = if self.random.chance(1, 4) {
                QoS::ExactlyOnce
            } else {
                QoS::AtLeastOnce
            };
            let publish = make_publish(alloc, &self.made, &mut self.random, qos)?;
            ask(&mut self.client, Request::Publish(publish))?;
        }
        send_out(&mut self.client, digest);
        take_events(&mut self.client, digest);
        Ok(())
    }

    /// The broker's acks of about one publish in twenty, and of the one whose id is waited for.
    fn acknowledge(&mut self, digest: &mut Digest) -> Result<(), StateError> {
        self.frames.clear();
        let waited = match self.client.state.collision() {
            Some(publish) => publish.pkid,
            None => 0,
        };
        for id in 1..=self.limit {
            if id != waited && !self.random.chance(1, 20) {
                continue;
            }
            if self.client.state.outgoing_rel(id) {
                put_ack(&mut self.frames, 0x70, id)?;
            } else if self.client.state.outgoing_pub(id).is_some() {
                put_ack(&mut self.frames, 0x40, id)?;
            }
        }
        hand_in(&mut self.client, self.frames.as_slice(), digest)?;
        take_events(&mut self.client, digest);
        Ok(())
    }

    /// A new connection.
    fn connect(&mut self, present: bool, digest: &mut Digest) -> Result<(), StateError> {
        self.client.connect(&self.options)?;
        send_out(&mut self.client, digest);
        self.frames.clear();
        put_connack(&mut self.frames, present, self.limit)?;
        hand_in(&mut self.client, self.frames.as_slice(), digest)?;
        take_events(&mut self.client, digest);
        Ok(())
    }

    /// Takes the session up, by one call or by the other.
    fn take_up(&mut self, checked: bool, digest: &mut Digest) -> Result<(), StateError> {
        self.connect(true, digest)?;
        if checked {
            add_requests(self.client.take_up(true, 3)?, digest);
        } else {
            self.client.resume(3)?;
        }
        send_out(&mut self.client, digest);
        take_events(&mut self.client, digest);
        Ok(())
    }

    /// A broker without the session: all is given back, and asked for again.
    fn lose(&mut self, digest: &mut Digest) -> Result<(), StateError> {
        self.connect(false, digest)?;
        let given = self.client.take_up(false, 3)?;
        self.ask_again(given, digest)
    }

    /// A clean start: all is given back, and asked for again.
    fn start_clean(&mut self, digest: &mut Digest) -> Result<(), StateError> {
        let given = self.client.clean()?;
        self.ask_again(given, digest)?;
        self.connect(false, digest)
    }

    fn ask_again(&mut self, given: Vec<Request>, digest: &mut Digest) -> Result<(), StateError> {
        for request in given {
            digest.add_request(&request);
            ask(&mut self.client, request)?;
        }
        send_out(&mut self.client, digest);
        take_events(&mut self.client, digest);
        Ok(())
    }
}

fn add_requests(given: Vec<Request>, digest: &mut Digest) {
    digest.add(given.len() as u64);
    for request in given {
        digest.add_request(&request);
    }
}

/// A cut and what follows it. Between two of them some acks come, and publishes take their places; after seven of eight
/// cuts the session is taken up, else it is given back, by turns as its broker or as its user wants it.
fn cut(
    alloc: Global,
    holder: &mut Holder,
    number: usize,
    digest: &mut Digest,
) -> Result<(), StateError> {
    holder.fill(alloc, digest)?;
    match number % 16 {
        7 => holder.lose(digest)?,
        15 => holder.start_clean(digest)?,
        turn => holder.take_up(turn % 2 == 0, digest)?,
    }
    holder.acknowledge(digest)
}

/// A client over so many cuts.
fn cut_often(
    alloc: Global,
    holder: &mut Holder,
    cuts: usize,
    digest: &mut Digest,
) -> Result<(), StateError> {
    holder.connect(false, digest)?;
    for number in 0..cuts {
        cut(alloc, holder, number, digest)?;
    }
    digest.add(u64::from(holder.client.state.inflight()));
    Ok(())
}

/// A client of this limit over so many cuts.
fn run_cuts(
    alloc: Global,
    seed: u64,
    limit: u16,
    cuts: usize,
    digest: &mut Digest,
) -> Result<(), StateError>
    requires { 0 < limit }
{
    let mut holder = Holder::new(alloc, seed, limit)?;
    cut_often(alloc, &mut holder, cuts, digest)
}

/// In each round a session of 20 publishes has 100 cuts and one of 1,000 has 8, and in one of eight one of 65,535 has 8.
/// Answers a digest of all events, of all that is sent and of all that is given back.
pub fn taking_up(alloc: Global, seed: u64, rounds: usize) -> Result<u64, StateError> {
    let mut digest = Digest::new();
    for round in 0..rounds {
        let seed = seed.wrapping_add(round as u64);
        run_cuts(alloc, seed, 20, 100, &mut digest)?;
        run_cuts(alloc, seed, 1_000, 8, &mut digest)?;
        if round % 8 == 7 {
            run_cuts(alloc, seed, 65_535, 8, &mut digest)?;
        }
    }
    Ok(digest.value())
}
