//! How messages are shown.

use super::{bytes_of, cut};
use bytes::Bytes;
use mqtt5_base::{Error, QoS};
use mqtt5_publish::Publish;
use mqtt5_talk::{Lines, Raw, Screen};
use std::alloc::Global;
use std::test::Fail;

/// A payload, and its line.
const LINES: &str = r"-
207E5C  ~\x5c
00091F7F \x00\x09\x1f\x7f
636166C3A9 café
C3A9FF \xc3\xa9\xff
C29B \xc2\x9b
";

/// Shows a payload under topic "t".
fn shows<S: Screen>(alloc: Global, screen: &mut S, payload: &[u8]) -> Result<bool, Error> {
    let payload = Bytes::copy_from_slice(alloc, payload)?;
    let message = Publish::new(alloc, "t", QoS::AtMostOnce, payload, None)?;
    let shown = screen.show(&message);
    drop(message);
    Ok(matches!(shown, Ok(true)))
}

fn is_line(alloc: Global, row: &str) -> Result<bool, Error> {
    let (digits, line) = cut(row, ' ');
    let payload = bytes_of(alloc, digits)?;
    let mut screen = Lines {
        alloc,
        writer: Vec::new(alloc),
        with_topic: false,
    };
    let shown = shows(alloc, &mut screen, payload.as_slice())?;
    Ok(shown && screen.writer.as_slice().split_last() == Some((&b'\n', line.as_bytes())))
}

#[test]
fn lines_are_text(rt: HostRuntime) -> Result<(), Fail> {
    for row in LINES.lines() {
        assert!(rt; is_line(rt.alloc(), row)?, "of {row}");
    }
    Ok(())
}

/// Whether the payload `FF00` is shown as these bytes, without or with its topic and a newline.
fn is_raw(alloc: Global, with_all: bool, bytes: &[u8]) -> Result<bool, Error> {
    let mut screen = Raw {
        alloc,
        writer: Vec::new(alloc),
        with_topic: with_all,
        with_newline: with_all,
    };
    let shown = shows(alloc, &mut screen, b"\xff\x00")?;
    Ok(shown && screen.writer.as_slice() == bytes)
}

#[test]
fn raw_is_the_bytes(rt: HostRuntime) -> Result<(), Fail> {
    let alone = is_raw(rt.alloc(), false, b"\xff\x00")?;
    let with_all = is_raw(rt.alloc(), true, b"t \xff\x00\n")?;
    assert!(rt; alone && with_all);
    Ok(())
}
