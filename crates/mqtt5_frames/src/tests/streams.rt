//! Streams that come in pieces.

ghost use Rattle.std.specs.Prelude.{◌≡◌, [], ◌∷◌, None, Ok};

use super::frames::FRAMES;
use super::{Notes, bytes_of, cut};
use bytes::BytesMut;
use mqtt5_base::{Error, check};
use mqtt5_codec::{Codec, Packet};
use std::alloc::Global;
use std::test::Fail;

/// The first bytes of the longest frame.
const LONGEST: &[u8] = &[0x30, 0xFF, 0xFF, 0xFF, 0x7F];

/// All frames that are written as they are read, one after the other: their bytes, their forms, and where each ends.
#[derive(Drop)]
struct Frames {
    bytes: BytesMut,
    forms: String,
    ends: Vec<usize>,
}

/// Adds the frame of a row, where that is written as it is read.
fn add_row(alloc: Global, all: &mut Frames, row: &str) -> Result<(), Error> {
    let (digits, rest) = cut(row);
    let (again, form) = cut(rest);
    if again == "=" {
        let frame = bytes_of(alloc, digits)?;
        all.bytes.extend_from_slice(frame.as_slice())?;
        all.forms.push_str(form)?;
        all.ends.push(all.bytes.len())?;
    }
    Ok(())
}

fn all_frames(alloc: Global) -> Result<Frames, Error> {
    let mut all = Frames {
        bytes: BytesMut::new(alloc),
        forms: String::new(alloc),
        ends: Vec::new(alloc),
    };
    for row in FRAMES.lines() {
        add_row(alloc, &mut all, row)?;
    }
    Ok(all)
}

/// How many frames end in so many bytes.
fn whole_in(ends: &[usize], len: usize) -> usize {
    let mut whole: usize = 0;
    for end in ends {
        if *end <= len {
            whole = whole.saturating_add(1);
        }
    }
    whole
}

/// Takes the frame at the front of a stream out, and notes its packet. Whether it was whole.
fn decode_one(alloc: Global, stream: &mut BytesMut, notes: &mut Notes) -> Result<bool, Error> {
    match Codec::new().decode(alloc, stream)? {
        Some(packet) => {
            let added = notes.add_packet(&packet, None);
            drop(packet);
            added?;
            Ok(true)
        }
        None => Ok(false),
    }
}

/// Takes whole frames out of a stream, and notes their packets. How many they were.
fn decode_all(
    alloc: Global,
    stream: &mut BytesMut,
    notes: &mut Notes,
    most: usize,
) -> Result<usize, Error> {
    for count in 0..most {
        if !decode_one(alloc, stream, notes)? {
            return Ok(count);
        }
    }
    Ok(most)
}

/// Takes the bytes in, in two pieces, the first of which has so many; where that is 0, byte by byte. Whether each
/// packet is read with the piece that makes it whole.
fn take_in(
    alloc: Global,
    stream: &mut BytesMut,
    notes: &mut Notes,
    all: &Frames,
    at: usize,
) -> Result<bool, Error> {
    let mut len: usize = 0;
    let mut count: usize = 0;
    for byte in all.bytes.as_slice() {
        stream.extend_from_slice(&[*byte])?;
        len = len.saturating_add(1);
        if at == 0 || len == at || len == all.bytes.len() {
            let whole = decode_all(alloc, stream, notes, all.ends.len())?;
            count = count.saturating_add(whole);
            if count != whole_in(all.ends.as_slice(), len) {
                return Ok(false);
            }
        }
    }
    Ok(true)
}

/// Whether all packets are read of a stream in pieces, each with the piece that makes it whole.
fn in_pieces(alloc: Global, all: &Frames, at: usize) -> Result<bool, Error> {
    let mut notes = Notes::new(alloc)?;
    let mut stream = BytesMut::new(alloc);
    let taken = take_in(alloc, &mut stream, &mut notes, all, at);
    let noted = notes.are(all.forms.as_str(), all.bytes.as_slice());
    drop(stream);
    drop(notes);
    Ok(taken? && noted)
}

#[test]
fn frames_in_pieces(rt: HostRuntime) -> Result<(), Fail> {
    let all = all_frames(rt.alloc())?;
    for at in 0..all.bytes.len() {
        assert!(rt; in_pieces(rt.alloc(), &all, at)?, "cut at {at}");
    }
    Ok(())
}

/// What decoding the first bytes of the longest frame answers, by contract also where memory is refused.
fn decode_longest(alloc: Global, stream: &mut BytesMut) -> Result<Option<Packet>, Error>
    requires { stream.old.items ≡ 48 ∷ 255 ∷ 255 ∷ 255 ∷ 127 ∷ [] }
    ensures answer { result ≡ Ok None }
    ensures unchanged { stream.new ≡ stream.old }
{
    let codec = Codec {
        max_incoming_size: None,
        max_outgoing_size: None,
    };
    codec.decode(alloc, stream)
}

/// Whether the first bytes of the longest frame are left as they are, and more are needed.
fn awaits_longest(alloc: Global) -> Result<bool, Error> {
    let mut stream = BytesMut::new(alloc);
    stream.extend_from_slice(&[0x30, 0xFF, 0xFF, 0xFF, 0x7F])?;
    let answer = decode_longest(alloc, &mut stream);
    let awaits = matches!(&answer, Ok(None));
    drop(answer);
    Ok(awaits && stream.as_slice() == LONGEST)
}

#[test]
fn the_longest_frame(rt: HostRuntime) -> Result<(), Fail> {
    let missing = Error::InsufficientBytes(268_435_455);
    assert!(rt; check(LONGEST, None) == Err(missing));
    assert!(rt; awaits_longest(rt.alloc())?);
    Ok(())
}
