//! What messages are made of: topics, filters, payloads and properties.

use crate::random::Random;
use std::alloc::{AllocError, Global};

/// How many bytes payloads are cut from.
const POOL: usize = 65_536;

const LEVELS: [&str; 16] = [
    "home",
    "sensors",
    "kitchen",
    "temperature",
    "building-7",
    "floor-03",
    "status",
    "devices",
    "meter",
    "v1",
    "alerts",
    "room-112",
    "pumps",
    "line-a",
    "telemetry",
    "gateway",
];

/// Topics of 3 to 6 levels, and bytes that payloads are cut from.
#[derive(Drop)]
pub struct Made {
    topics: Vec<String>,
    pool: Vec<u8>,
}

impl Made {
    pub fn new(alloc: Global, random: &mut Random) -> Result<Made, AllocError> {
        let mut topics = Vec::new(alloc);
        for _ in 0..1000 {
            topics.push(make_topic(alloc, random)?)?;
        }
        Ok(Made {
            topics,
            pool: make_pool(alloc, random)?,
        })
    }

    /// One of the topics.
    pub fn topic(&self, random: &mut Random) -> &str {
        match self.topics.get(random.below(1000)) {
            Some(topic) => topic.as_str(),
            None => "",
        }
    }

    /// Bytes of this length, of at most 32,768 another.
    pub fn bytes(&self, random: &mut Random, len: usize) -> &[u8] {
        let from = random.below(32_768);
        let rest = match self.pool.as_slice().split_at_checked(from) {
            Some((_front, rest)) => rest,
            None => &[],
        };
        match rest.split_at_checked(len) {
            Some((front, _rest)) => front,
            None => rest,
        }
    }

    /// A payload: mostly of 16 to 300 bytes, one in 25 of 1 to 16 KiB.
    pub fn payload(&self, random: &mut Random) -> &[u8] {
        let len = if random.chance(1, 25) {
            1_024 + random.below(15_361)
        } else {
            16 + random.below(285)
        };
        self.bytes(random, len)
    }
}

fn make_pool(alloc: Global, random: &mut Random) -> Result<Vec<u8>, AllocError> {
    let mut pool = Vec::new(alloc);
    for _ in 0..POOL / 2 {
        pool.extend_from_slice(&random.short().to_be_bytes())?;
    }
    Ok(pool)
}

/// One of the names of levels.
pub fn level(random: &mut Random) -> &'static str {
    LEVELS[random.below(16)]
}

/// A topic of 3 to 6 levels, of which the last has a number.
pub fn make_topic(alloc: Global, random: &mut Random) -> Result<String, AllocError> {
    let mut topic = String::new(alloc);
    for _ in 0..2 + random.below(4) {
        topic.push_str(level(random))?;
        topic.push_str("/")?;
    }
    let number = format!(in alloc; "{}", random.short())?;
    topic.push_str(number.as_str())?;
    Ok(topic)
}
