//! Lines as messages.

use super::{bytes_of, cut};
use mqtt5_base::QoS;
use mqtt5_talk::{Heading, LineSource, Source, TalkError};
use std::alloc::Global;
use std::test::Fail;

/// Bytes, and the lines of them under identifiers 1, 2 and 1 and so on, each behind `/`.
const LINES: &str = "-=
0A=/
61=/a
610A=/a
610A620A=/a/b
610D0A0A62=/a\r//b
";

/// Adds the next line; false behind the last.
fn adds_line(
    lines: &mut LineSource<'_, &[u8]>,
    pkid: u16,
    text: &mut String,
) -> Result<bool, TalkError> {
    match lines.next(pkid)? {
        Some(message) => {
            text.push('/')?;
            if let Ok(payload) = str::from_utf8(message.payload.as_slice()) {
                text.push_str(payload)?;
            }
            drop(message);
            Ok(true)
        }
        None => Ok(false),
    }
}

/// Lines of topic "t" at QoS 1, under two identifiers.
fn lines_in(alloc: Global, bytes: &[u8]) -> Result<LineSource<'static, &[u8]>, TalkError> {
    let heading = Heading {
        topic: "t",
        qos: QoS::AtLeastOnce,
        retain: true,
    };
    match LineSource::new(alloc, heading, 2, bytes) {
        Ok(lines) => Ok(lines),
        Err(error) => Err(TalkError::Unread(error)),
    }
}

fn is_row(alloc: Global, row: &str) -> Result<bool, TalkError> {
    let (digits, wanted) = cut(row, '=');
    let bytes = bytes_of(alloc, digits)?;
    let mut text = String::new(alloc);
    let mut lines = lines_in(alloc, bytes.as_slice())?;
    for i in 0..9 {
        if !adds_line(&mut lines, 1 + i % 2, &mut text)? {
            break;
        }
    }
    Ok(text.as_str() == wanted)
}

#[test]
fn lines_are_messages(rt: HostRuntime) -> Result<(), Fail> {
    for row in LINES.lines() {
        assert!(rt; matches!(is_row(rt.alloc(), row), Ok(true)), "of {row}");
    }
    Ok(())
}

/// Whether three lines under identifiers 1, 2 and 1 are told by these, and none is waited for but behind a newline.
fn are_placed(alloc: Global) -> Result<bool, TalkError> {
    let mut text = String::new(alloc);
    let mut lines = lines_in(alloc, b"a\nb\nc\nd")?;
    let unread_is_late = lines.is_late();
    adds_line(&mut lines, 1, &mut text)?;
    adds_line(&mut lines, 2, &mut text)?;
    let third_is_late = lines.is_late();
    adds_line(&mut lines, 1, &mut text)?;
    let placed = lines.line_of(1) == 3 && lines.line_of(2) == 2 && lines.line_of(3) == 0;
    Ok(placed && lines.count() == 3 && unread_is_late && !third_is_late && lines.is_late())
}

#[test]
fn lines_have_places(rt: HostRuntime) -> Result<(), Fail> {
    assert!(rt; matches!(are_placed(rt.alloc()), Ok(true)));
    Ok(())
}
