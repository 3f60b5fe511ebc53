//! Whole runs over streams of bytes.

use crate::calls::numbered;
use crate::telling::{TrialError, after, answer, may};
use bytes::Bytes;
use mqtt5_base::{QoS, qos};
use mqtt5_publish::Publish;
use mqtt5_streams::{ByteEvent, play_bytes};
use std::alloc::Global;
use std::io::Write;

/// The limit on ids, and the codec's limits on packets from the broker and to it.
#[derive(Clone, Copy)]
struct Limits {
    ids: u16,
    incoming: Option<u32>,
    outgoing: Option<u32>,
}

/// A limit on packets; 0 is none.
fn limit(number: u16) -> Option<u32> {
    match number {
        0 => None,
        limit => Some(u32::from(limit)),
    }
}

fn publish(alloc: Global, name: &str, qos: QoS) -> Result<ByteEvent, TrialError> {
    let payload = Bytes::copy_from_slice(alloc, name.as_bytes())?;
    let publish = Publish::new(alloc, "a", qos, payload, None)?;
    Ok(ByteEvent::Publish(publish))
}

fn count(digits: &str) -> Result<usize, TrialError> {
    let count = digits.parse::<u16>().map_err(|_| TrialError::Unknown)?;
    Ok(usize::from(count))
}

/// An event by a word: `up` and `down` with a number of bytes, `loss`, or the payload of a publish.
fn event(alloc: Global, word: &str, qos: QoS) -> Result<ByteEvent, TrialError> {
    match word.split_once(':') {
        Some(("up", digits)) => Ok(ByteEvent::Up(count(digits)?)),
        Some(("down", digits)) => Ok(ByteEvent::Down(count(digits)?)),
        Some(_) => Err(TrialError::Unknown),
        None if word == "loss" => Ok(ByteEvent::Loss(None)),
        None => publish(alloc, word, qos),
    }
}

fn events(alloc: Global, words: &str, qos: QoS) -> Result<Vec<ByteEvent>, TrialError> {
    let mut events = Vec::new(alloc);
    for word in words.split(' ') {
        events.push(event(alloc, word, qos)?)?;
    }
    Ok(events)
}

fn play_told<W: Write>(
    alloc: Global,
    limits: Limits,
    events: &[ByteEvent],
    output: &mut W,
) -> Result<(), TrialError> {
    may(output, &events)?;
    let ids = limits.ids.max(1);
    answer(
        output,
        play_bytes(alloc, ids, limits.incoming, limits.outgoing, events),
    )?;
    after(output, &events)
}

fn play_words<W: Write>(
    alloc: Global,
    limits: Limits,
    words: &str,
    output: &mut W,
) -> Result<(), TrialError> {
    let (quality, words) = numbered(words)?;
    let quality = u8::try_from(quality).map_err(|_| TrialError::Unknown)?;
    let quality = qos(quality).ok_or(TrialError::Unknown)?;
    let events = events(alloc, words, quality)?;
    let told = play_told(alloc, limits, events.as_slice(), output);
    drop(events);
    told
}

/// Plays events behind a limit on ids, limits on packets from the broker and to it, and a QoS.
pub fn run_streams<W: Write>(alloc: Global, words: &str, output: &mut W) -> Result<(), TrialError> {
    let (ids, words) = numbered(words)?;
    let (incoming, words) = numbered(words)?;
    let (outgoing, words) = numbered(words)?;
    let limits = Limits {
        ids,
        incoming: limit(incoming),
        outgoing: limit(outgoing),
    };
    play_words(alloc, limits, words, output)
}
