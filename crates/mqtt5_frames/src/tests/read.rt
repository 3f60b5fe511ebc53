//! Whole frames, and the front of one.

use super::frames::{BARE, FRAMES};
use super::{Notes, bytes_of, cut};
use bytes::BytesMut;
use mqtt5_base::Error;
use mqtt5_codec::Packet;
use std::alloc::Global;
use std::test::Fail;

/// The first two bytes of a frame of 12.
const FRONT: &[u8] = &[0x32, 0x0A];

/// Reads the front of a stream under a limit on remaining lengths, and notes it.
fn note_read(
    alloc: Global,
    left: &mut BytesMut,
    stream: &[u8],
    max: Option<u32>,
    notes: &mut Notes,
) -> Result<(), Error> {
    left.extend_from_slice(stream)?;
    let answer = Packet::read(alloc, left, max);
    notes.add(answer, None)
}

/// Whether a stream is read as this, which is written as these bytes, and just the rest is left.
fn is_read(
    alloc: Global,
    stream: &[u8],
    max: Option<u32>,
    rest: &[u8],
    again: &[u8],
    form: &str,
) -> Result<bool, Error> {
    let mut notes = Notes::new(alloc)?;
    let mut left = BytesMut::new(alloc);
    let read = note_read(alloc, &mut left, stream, max, &mut notes);
    let noted = notes.are(form, again) && left.as_slice() == rest;
    drop(left);
    drop(notes);
    read?;
    Ok(noted)
}

/// Whether a frame, before a byte that isn't its own, is read as its row says.
fn is_row(alloc: Global, row: &str) -> Result<bool, Error> {
    let (frame, rest) = cut(row);
    let (again, form) = cut(rest);
    let mut stream = bytes_of(alloc, frame)?;
    stream.push(b'z')?;
    let as_read = again == "=" || again == "*";
    let again = bytes_of(alloc, if as_read { frame } else { again })?;
    let answer = is_read(alloc, stream.as_slice(), None, b"z", again.as_slice(), form);
    drop(again);
    drop(stream);
    answer
}

#[test]
fn frames(rt: HostRuntime) -> Result<(), Fail> {
    for row in FRAMES.lines() {
        assert!(rt; is_row(rt.alloc(), row)?, "of {row}");
    }
    Ok(())
}

#[test]
fn frames_without_a_body(rt: HostRuntime) -> Result<(), Fail> {
    for (start, end, again, form) in BARE {
        for first in *start..=*end {
            assert!(rt;
                is_read(rt.alloc(), &[first, 0x00, b'z'], None, b"z", again, form)?,
                "of {first}"
            );
        }
    }
    Ok(())
}

#[test]
fn an_incoming_limit(rt: HostRuntime) -> Result<(), Fail> {
    let limits: &[(u32, &str)] = &[
        (9, "PayloadSizeLimitExceeded { pkt_size: 10, max: 9 }"),
        (10, "InsufficientBytes(10)"),
    ];
    for (max, form) in limits {
        assert!(rt;
            is_read(rt.alloc(), FRONT, Some(*max), FRONT, &[], form)?,
            "under {max}"
        );
    }
    Ok(())
}
