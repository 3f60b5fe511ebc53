//! Delivery over streams of bytes, on worked events.

ghost use Rattle.std.specs.Prelude.{◌<◌};

use super::delivery::{add_looks, named, quality};
use super::walk::{add_fault, cut};
use crate::mqttbytes::{Error, QoS};
use crate::{ByteEvent, StateError, play_bytes};
use std::alloc::{AllocError, Global};
use std::test::Fail;

/// The greatest id, the greatest size of a packet in and out (`-` for none), a quality of service and events, and what is
/// then reported, or the fault that ends the run. `^8` are eight bytes up, `v3` three down, `!` is a loss, and another is
/// the name of a publish. In the rows a loss cuts a frame before its last byte, and the first of those that are sent again;
/// then the last byte comes, and each ack, one of them in two pieces; two frames come at once, each way; the broker no
/// longer has a released id when the release comes again, and says so in six bytes, under and over a limit; and a publish
/// is over the outgoing limit.
const RUNS: &str = "1 - - 2 A,^8,!,^8 handed= ids=1
1 - - 2 A,^8,!,^8,^1,v3,v1,^100,v100 handed=A dups=1 ids=0
2 - - 1 A,B,^18,v8 handed=AB ids=0
1 4 - 2 A,^9,!,^9,v4,^4,!,^4,v6 handed=A ids=0
1 3 - 2 A,^9,!,^9,v4,^4,!,^4,v2 S7(PayloadSizeLimitExceeded { pkt_size: 4, max: 3 })
1 - 8 2 A S9(9,8)
";

/// A number of bytes.
fn count(digits: &str) -> usize {
    digits.parse::<usize>().unwrap_or(0)
}

fn event(alloc: Global, word: &str, qos: QoS) -> Result<ByteEvent, Error> {
    if let Some(digits) = word.strip_prefix('^') {
        return Ok(ByteEvent::Up(count(digits)));
    }
    if let Some(digits) = word.strip_prefix('v') {
        return Ok(ByteEvent::Down(count(digits)));
    }
    match word.as_bytes() {
        [b'!'] => Ok(ByteEvent::Loss(None)),
        [name] => Ok(ByteEvent::Publish(named(alloc, *name, qos)?)),
        _other => Err(Error::MalformedPacket),
    }
}

fn events(alloc: Global, words: &str, qos: QoS) -> Result<Vec<ByteEvent>, Error> {
    let mut events = Vec::new(alloc);
    for word in words.split(',') {
        events.push(event(alloc, word, qos)?)?;
    }
    Ok(events)
}

/// Adds the fault that ended a run.
fn add_end(fault: &StateError, text: &mut String) -> Result<(), AllocError> {
    text.push(' ')?;
    add_fault(fault, text)
}

fn add_played(
    alloc: Global,
    limit: u16,
    sizes: (&str, &str),
    events: &[ByteEvent],
    looks: &str,
    text: &mut String,
) -> Result<(), AllocError>
    requires { 0 < limit }
{
    let incoming = sizes.0.parse::<u32>().ok();
    let outgoing = sizes.1.parse::<u32>().ok();
    match play_bytes(alloc, limit, incoming, outgoing, events) {
        Ok(report) => {
            let added = add_looks(&report, looks, text);
            drop(report);
            added
        }
        Err(fault) => {
            let added = add_end(&fault, text);
            drop(fault);
            added
        }
    }
}

fn is_run(alloc: Global, row: &str) -> Result<bool, Error> {
    let (limit, rest) = cut(row);
    let (incoming, rest) = cut(rest);
    let (outgoing, rest) = cut(rest);
    let (digit, rest) = cut(rest);
    let (words, looks) = cut(rest);
    let Ok(ids) = limit.parse::<u16>() else {
        return Ok(false);
    };
    let mut text = format!(in alloc; "{limit} {incoming} {outgoing} {digit} {words}")?;
    let events = events(alloc, words, quality(digit))?;
    let sizes = (incoming, outgoing);
    let added = add_played(alloc, ids.max(1), sizes, &events, looks, &mut text);
    drop(events);
    added?;
    Ok(text.as_str() == row)
}

#[test]
fn runs(rt: HostRuntime) -> Result<(), Fail> {
    for row in RUNS.lines() {
        assert!(rt; is_run(rt.alloc(), row)?, "of {row}");
    }
    Ok(())
}
