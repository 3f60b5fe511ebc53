//! Frames as rows of text, walked by few functions: a frame more is a line of `frames`. The parts of a row stand
//! between blanks; bytes are two digits each, and `-` is none.

mod changed;
mod frames;
mod made;
mod read;
mod sets;
mod streams;
mod written;

use bytes::BytesMut;
use mqtt5_base::Error;
use mqtt5_codec::{Codec, Packet};
use std::alloc::Global;

/// The debug forms of packets and faults, and what the packets are written as behind a byte `AA`, each one after the
/// other.
#[derive(Drop)]
struct Notes {
    shown: String,
    written: BytesMut,
    encoded: BytesMut,
}

impl Notes {
    fn new(alloc: Global) -> Result<Notes, Error> {
        Ok(Notes {
            shown: String::new(alloc),
            written: BytesMut::copy_from_slice(alloc, &[0xAA])?,
            encoded: BytesMut::copy_from_slice(alloc, &[0xAA])?,
        })
    }

    fn are(&self, shown: &str, written: &[u8]) -> bool {
        self.shown.as_str() == shown
            && is_behind(self.written.as_slice(), written)
            && is_behind(self.encoded.as_slice(), written)
    }

    /// Writes a packet under a limit on frames, and notes it. E16 where its size isn't what was written, or it
    /// doesn't equal its copy.
    fn add_packet(&mut self, packet: &Packet, max: Option<u32>) -> Result<(), Error> {
        let codec = Codec {
            max_incoming_size: None,
            max_outgoing_size: max,
        };
        let len = packet.write(&mut self.written, max)?;
        codec.encode(packet.clone()?, &mut self.encoded)?;
        if packet.size() != len || !equals_its_copy(packet)? {
            return Err(Error::MalformedPacket);
        }
        write!(self.shown, "{packet:?}")?;
        Ok(())
    }

    /// Notes a packet or a fault, also of writing it under a limit.
    fn add(&mut self, answer: Result<Packet, Error>, max: Option<u32>) -> Result<(), Error> {
        let added = match answer {
            Ok(packet) => {
                let added = self.add_packet(&packet, max);
                drop(packet);
                added
            }
            Err(fault) => Err(fault),
        };
        if let Err(fault) = added {
            write!(self.shown, "{fault:?}")?;
        }
        Ok(())
    }
}

/// Whether all bytes are a byte `AA` and these.
fn is_behind(all: &[u8], bytes: &[u8]) -> bool {
    match all {
        [first, rest @ ..] => *first == 0xAA && rest == bytes,
        [] => false,
    }
}

/// Whether a packet equals its copy.
fn equals_its_copy(packet: &Packet) -> Result<bool, Error> {
    let copy = packet.clone()?;
    let equal = copy == *packet;
    drop(copy);
    Ok(equal)
}

/// What stands before the first blank of a row, and what behind it.
fn cut(row: &str) -> (&str, &str) {
    row.split_once(' ').unwrap_or((row, ""))
}

/// Bytes of their digits; E16 where they aren't digits.
fn bytes_of(alloc: Global, digits: &str) -> Result<Vec<u8>, Error> {
    if digits == "-" {
        return Ok(Vec::new(alloc));
    }
    match hex::decode(alloc, digits) {
        Ok(bytes) => Ok(bytes),
        Err(_) => Err(Error::MalformedPacket),
    }
}
