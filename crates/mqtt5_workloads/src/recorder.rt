//! A recorder or a proxy: each packet of a stream is read and written again.

use crate::digest::Digest;
use crate::frames::{Frames, put_ack};
use crate::made::Made;
use crate::random::Random;
use bytes::BytesMut;
use mqtt5_base::Error;
use mqtt5_codec::{Codec, Packet};
use std::alloc::{AllocError, Global};

/// One of the frames of both sides of many connections: mostly publishes and acks.
fn put_any(frames: &mut Frames, made: &Made, random: &mut Random) -> Result<(), AllocError> {
    let id = random.short() | 1;
    let payload = made.payload(random);
    match random.below(1000) {
        0..=349 => frames.put_publish(made, random, 0, 0, payload),
        350..=649 => frames.put_publish(made, random, 1, id, payload),
        650..=694 => frames.put_publish(made, random, 2, id, payload),
        695..=699 => frames.put_publish_of(made, random, 0, 0, payload, true),
        700..=789 => put_ack(&mut frames.bytes, 0x40, id),
        790..=809 => put_ack(&mut frames.bytes, 0x50, id),
        810..=829 => put_ack(&mut frames.bytes, 0x62, id),
        830..=849 => put_ack(&mut frames.bytes, 0x70, id),
        850..=859 => frames.put_long_ack(made, random, 0x40, id),
        860..=899 => frames.bytes.extend_from_slice(&[0xC0, 0]),
        900..=909 => frames.put_connect(made, random),
        910..=919 => frames.put_connack(made, random),
        920..=949 => frames.put_subscribe(made, random, id),
        950..=979 => frames.put_suback(random, id),
        980..=989 => frames.put_unsubscribe(made, random, id),
        _ => frames.bytes.extend_from_slice(&[0xE0, 0]),
    }
}

/// The next packet of a stream, written behind what was written.
fn record_next(
    alloc: Global,
    codec: &Codec,
    stream: &mut BytesMut,
    record: &mut BytesMut,
    digest: &mut Digest,
) -> Result<bool, Error> {
    let Some(packet) = codec.decode(alloc, stream)? else {
        return Ok(false);
    };
    digest.add_packet(&packet);
    packet.write(record, None)?;
    Ok(true)
}

/// Writes all whole frames of a stream into one buffer.
fn record_all(
    alloc: Global,
    stream: &mut BytesMut,
    record: &mut BytesMut,
    digest: &mut Digest,
) -> Result<(), Error> {
    let codec = Codec::new();
    for _ in 0..stream.len() {
        if !record_next(alloc, &codec, stream, record, digest)? {
            break;
        }
    }
    digest.add_bytes(record.as_slice());
    Ok(())
}

/// Writes each whole frame of a stream into a buffer of its own.
fn record_apart(alloc: Global, stream: &mut BytesMut, digest: &mut Digest) -> Result<(), Error> {
    let codec = Codec::new();
    for _ in 0..stream.len() {
        let mut record = BytesMut::new(alloc);
        if !record_next(alloc, &codec, stream, &mut record, digest)? {
            break;
        }
        digest.add_bytes(record.as_slice());
    }
    Ok(())
}

/// In each round 200 frames of all kinds are read and written, in one of four into a buffer for each. Answers a digest
/// of the packets and of what was written.
pub fn recorder(alloc: Global, seed: u64, rounds: usize) -> Result<u64, Error> {
    let mut random = Random::new(seed);
    let made = Made::new(alloc, &mut random)?;
    let mut digest = Digest::new();
    let mut frames = Frames::new(alloc);
    let mut stream = BytesMut::new(alloc);
    let mut record = BytesMut::new(alloc);
    for round in 0..rounds {
        frames.bytes.clear();
        for _ in 0..200 {
            put_any(&mut frames, &made, &mut random)?;
        }
        stream.extend_from_slice(frames.bytes.as_slice())?;
        if round % 4 == 3 {
            record_apart(alloc, &mut stream, &mut digest)?;
        } else {
            record.clear();
            record_all(alloc, &mut stream, &mut record, &mut digest)?;
        }
    }
    digest.add(stream.len() as u64);
    Ok(digest.value())
}
