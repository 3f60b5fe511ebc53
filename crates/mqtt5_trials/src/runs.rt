//! Whole runs: the loop, the world, and the same calls without and with a resume.

use crate::calls::{blank, numbered, packet, request};
use crate::telling::{TrialError, after, answer, may};
use bytes::{Bytes, BytesMut};
use mqtt5_base::{QoS, qos};
use mqtt5_codec::Codec;
use mqtt5_drive::{Input, Step, drive, empty_needs_more};
use mqtt5_progress::play_out;
use mqtt5_publish::Publish;
use mqtt5_session::{MqttState, Request, StateError};
use mqtt5_world::{Call, WorldEvent, play, twin};
use std::alloc::Global;
use std::io::Write;

/// The moment of each step.
const AT: u64 = 7;

fn add_bytes(alloc: Global, steps: &mut Vec<Step>, piece: &[u8]) -> Result<(), TrialError> {
    let input = Input::Bytes(Bytes::copy_from_slice(alloc, piece)?);
    steps.push(Step { at: AT, input })?;
    Ok(())
}

/// Adds a piece, whole or cut into single bytes.
fn add_piece(
    alloc: Global,
    steps: &mut Vec<Step>,
    piece: &[u8],
    is_cut: bool,
) -> Result<(), TrialError> {
    if !is_cut {
        return add_bytes(alloc, steps, piece);
    }
    for byte in piece {
        add_bytes(alloc, steps, &[*byte])?;
    }
    Ok(())
}

fn add_request(steps: &mut Vec<Step>, request: Request) -> Result<(), TrialError> {
    let input = Input::Request(request);
    steps.push(Step { at: AT, input })?;
    Ok(())
}

/// Adds the step of a word: a request without its id (`*` and its packet's name), or bytes in hexadecimal.
fn add_step(
    alloc: Global,
    steps: &mut Vec<Step>,
    word: &str,
    is_cut: bool,
) -> Result<(), TrialError> {
    match word.as_bytes() {
        [b'*', name] => add_request(steps, blank(alloc, *name)?),
        _ => {
            let piece = hex::decode(alloc, word).map_err(|_| TrialError::Unprepared)?;
            add_piece(alloc, steps, piece.as_slice(), is_cut)
        }
    }
}

fn steps(alloc: Global, words: &str, is_cut: bool) -> Result<Vec<Step>, TrialError> {
    let mut steps = Vec::new(alloc);
    for word in words.split(' ') {
        add_step(alloc, &mut steps, word, is_cut)?;
    }
    Ok(steps)
}

/// Drives a session by the steps from no input.
fn drive_steps(
    alloc: Global,
    state: &mut MqttState,
    written: &mut BytesMut,
    steps: &[Step],
) -> Result<(), StateError> {
    let mut codec = Codec::new();
    let mut input = BytesMut::new(alloc);
    empty_needs_more();
    drive(alloc, state, &mut codec, &mut input, written, steps)
}

/// What stands after steps, with all that they write, and with what was written before.
fn tell_standing<W: Write>(
    alloc: Global,
    steps: &[Step],
    before: &[u8],
    written: &mut BytesMut,
    output: &mut W,
) -> Result<(), TrialError> {
    let mut state = MqttState::new(alloc, 10, false)?;
    let driven = drive_steps(alloc, &mut state, written, steps);
    let told = tell_both(&state, before, written.as_slice(), output);
    drop(state);
    driven?;
    told
}

fn tell_both<W: Write>(
    state: &MqttState,
    before: &[u8],
    written: &[u8],
    output: &mut W,
) -> Result<(), TrialError> {
    may(output, &(state, before))?;
    may(output, &(state, written))
}

/// What may stand after each number of single bytes and requests.
fn may_stop<W: Write>(alloc: Global, steps: &[Step], output: &mut W) -> Result<(), TrialError> {
    let mut before = BytesMut::new(alloc);
    for count in 0..=steps.len() {
        let mut written = BytesMut::new(alloc);
        tell_standing(
            alloc,
            &steps[..count],
            before.as_slice(),
            &mut written,
            output,
        )?;
        before = written;
    }
    Ok(())
}

fn may_stop_in<W: Write>(alloc: Global, words: &str, output: &mut W) -> Result<(), TrialError> {
    let steps = steps(alloc, words, true)?;
    let told = may_stop(alloc, steps.as_slice(), output);
    drop(steps);
    told
}

fn drive_told<W: Write>(
    alloc: Global,
    state: &mut MqttState,
    written: &mut BytesMut,
    steps: &[Step],
    output: &mut W,
) -> Result<(), TrialError> {
    answer(output, drive_steps(alloc, state, written, steps))?;
    after(output, &(&*state, written.as_slice()))
}

fn drive_new<W: Write>(alloc: Global, steps: &[Step], output: &mut W) -> Result<(), TrialError> {
    let mut state = MqttState::new(alloc, 10, false)?;
    let mut written = BytesMut::new(alloc);
    let told = drive_told(alloc, &mut state, &mut written, steps, output);
    drop(state);
    drop(written);
    told
}

/// Drives a new session by steps. A refusal may leave what stands after some of the moves, with whole frames, at
/// most the last one missing.
pub fn run_loop<W: Write>(alloc: Global, words: &str, output: &mut W) -> Result<(), TrialError> {
    may_stop_in(alloc, words, output)?;
    let steps = steps(alloc, words, false)?;
    let told = drive_new(alloc, steps.as_slice(), output);
    drop(steps);
    told
}

fn publish(alloc: Global, name: u8, qos: QoS) -> Result<WorldEvent, TrialError> {
    let payload = Bytes::copy_from_slice(alloc, &[name])?;
    let publish = Publish::new(alloc, "a", qos, payload, None)?;
    Ok(WorldEvent::Publish(publish))
}

/// An event by a letter: `^` and `v` are Up and Down, `!` is a loss, `2` a loss after which the receive maximum is
/// 2, and another is the payload of a publish.
fn event(alloc: Global, letter: u8, qos: QoS) -> Result<WorldEvent, TrialError> {
    match letter {
        b'^' => Ok(WorldEvent::Up),
        b'v' => Ok(WorldEvent::Down),
        b'!' => Ok(WorldEvent::Loss(None)),
        b'2' => Ok(WorldEvent::Loss(Some(2))),
        name => publish(alloc, name, qos),
    }
}

fn events(alloc: Global, letters: &str, qos: QoS) -> Result<Vec<WorldEvent>, TrialError> {
    let mut events = Vec::new(alloc);
    for letter in letters.as_bytes() {
        events.push(event(alloc, *letter, qos)?)?;
    }
    Ok(events)
}

/// How far a world is played.
#[derive(Clone, Copy, Debug, PartialEq, Eq)]
enum Until {
    /// The last event.
    Last,
    /// Nothing is left to do.
    Settled,
}

fn play_told<W: Write>(
    alloc: Global,
    limit: u16,
    events: &[WorldEvent],
    until: Until,
    output: &mut W,
) -> Result<(), TrialError> {
    may(output, &events)?;
    match until {
        Until::Last => answer(output, play(alloc, limit.max(1), events))?,
        Until::Settled => answer(output, play_out(alloc, limit.max(1), events))?,
    }
    after(output, &events)
}

/// Plays events behind a limit and a QoS.
fn play_words<W: Write>(
    alloc: Global,
    words: &str,
    until: Until,
    output: &mut W,
) -> Result<(), TrialError> {
    let (limit, rest) = numbered(words)?;
    let (quality, letters) = numbered(rest)?;
    let quality = u8::try_from(quality).map_err(|_| TrialError::Unknown)?;
    let quality = qos(quality).ok_or(TrialError::Unknown)?;
    let events = events(alloc, letters, quality)?;
    let told = play_told(alloc, limit, events.as_slice(), until, output);
    drop(events);
    told
}

/// Plays a world up to its last event.
pub fn run_world<W: Write>(alloc: Global, words: &str, output: &mut W) -> Result<(), TrialError> {
    play_words(alloc, words, Until::Last, output)
}

/// Plays a world until nothing is left to do.
pub fn run_settled<W: Write>(alloc: Global, words: &str, output: &mut W) -> Result<(), TrialError> {
    play_words(alloc, words, Until::Settled, output)
}

fn world_call(alloc: Global, words: &str) -> Result<Call, TrialError> {
    match words.as_bytes() {
        [b'<', name] => Ok(Call::Incoming(packet(alloc, *name)?, 4)),
        [b'>', name] => Ok(Call::Outgoing(request(alloc, *name)?, 3)),
        [b'*', name] => Ok(Call::Outgoing(blank(alloc, *name)?, 3)),
        [b'!'] => Ok(Call::ProtocolError),
        _other => Ok(Call::Clean),
    }
}

fn world_calls(alloc: Global, words: &str) -> Result<Vec<Call>, TrialError> {
    let mut calls = Vec::new(alloc);
    for words in words.split(' ') {
        calls.push(world_call(alloc, words)?)?;
    }
    Ok(calls)
}

fn twin_told<W: Write>(
    alloc: Global,
    before: &[Call],
    behind: &[Call],
    output: &mut W,
) -> Result<(), TrialError> {
    may(output, &before)?;
    answer(output, twin(alloc, 10, false, before, behind))?;
    after(output, &before)
}

fn twin_behind<W: Write>(
    alloc: Global,
    before: &[Call],
    behind: &str,
    output: &mut W,
) -> Result<(), TrialError> {
    let behind = world_calls(alloc, behind)?;
    let told = twin_told(alloc, before, behind.as_slice(), output);
    drop(behind);
    told
}

/// Makes calls under ten ids and, behind a `/`, those after, without and with a resume between them.
pub fn run_twins<W: Write>(alloc: Global, words: &str, output: &mut W) -> Result<(), TrialError> {
    let (before, behind) = words.split_once(" / ").ok_or(TrialError::Unknown)?;
    let before = world_calls(alloc, before)?;
    let told = twin_behind(alloc, before.as_slice(), behind, output);
    drop(before);
    told
}
