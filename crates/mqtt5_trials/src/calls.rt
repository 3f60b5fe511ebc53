//! A session walked through calls in words, of which the last is the trial.
//!
//! A call is a packet from the broker (`<` and its name), a request of its content (`>`), one without its id or
//! without its filters (`*`), a clean (`^`), a resume (`~`), a protocol error (`!`), or acks by the user from here
//! on (`+`).

use crate::frames::frame;
use crate::telling::{TrialError, after, answer, may};
use bytes::BytesMut;
use mqtt5_base::Sequence;
use mqtt5_codec::Packet;
use mqtt5_session::{MqttState, Request, StateError};
use std::alloc::Global;
use std::fmt::Debug;
use std::io::Write;

/// The packet of that name.
pub fn packet(alloc: Global, name: u8) -> Result<Packet, StateError> {
    let mut stream = BytesMut::new(alloc);
    stream.extend_from_slice(frame(name))?;
    Ok(Packet::read(alloc, &mut stream, None)?)
}

/// The request of a packet's content; a Disconnect of a packet that no request has.
fn request_of(packet: Packet) -> Request {
    match packet {
        Packet::Publish(publish) => Request::Publish(publish),
        Packet::PubRel(release) => Request::PubRel(release),
        Packet::Subscribe(subscribe) => Request::from(subscribe),
        Packet::Unsubscribe(unsubscribe) => Request::Unsubscribe(unsubscribe),
        other => request_besides(other),
    }
}

/// The same of a packet that takes no id of the client.
fn request_besides(packet: Packet) -> Request {
    match packet {
        Packet::PubAck(ack) => Request::PubAck(ack),
        Packet::PubRec(ack) => Request::PubRec(ack),
        Packet::PubComp(ack) => Request::PubComp(ack),
        Packet::SubAck(ack) => Request::SubAck(ack),
        Packet::UnsubAck(ack) => Request::UnsubAck(ack),
        Packet::PingReq(_) => Request::PingReq,
        Packet::PingResp(_) => Request::PingResp,
        _other => Request::Disconnect,
    }
}

/// The request of that name.
pub fn request(alloc: Global, name: u8) -> Result<Request, StateError> {
    Ok(request_of(packet(alloc, name)?))
}

/// The request of that name without its id, or a Subscribe without its filters.
pub fn blank(alloc: Global, name: u8) -> Result<Request, StateError> {
    let mut request = request(alloc, name)?;
    match &mut request {
        Request::Publish(publish) => publish.pkid = 0,
        Request::PubRel(release) => release.pkid = 0,
        Request::Unsubscribe(unsubscribe) => unsubscribe.pkid = 0,
        Request::Subscribe(subscribe) => subscribe.filters = Sequence::new(alloc),
        _other => (),
    }
    Ok(request)
}

/// What is done with a session's answer.
#[derive(Clone, Copy, PartialEq, Eq)]
enum Turn {
    /// It was a step on the way: memory that is refused ends the trial.
    Way,
    /// It is told.
    Last,
}

/// Tells the answer of the last call, and sees that a call on the way was not refused for memory.
fn tell<W: Write, T: Debug + Drop>(
    turn: Turn,
    given: Result<T, StateError>,
    output: &mut W,
) -> Result<(), TrialError> {
    match (turn, &given) {
        (Turn::Last, _) => answer(output, given),
        (Turn::Way, Err(StateError::OutOfMemory)) => Err(TrialError::Unprepared),
        (Turn::Way, _) => Ok(()),
    }
}

/// Makes a call that is a sign alone.
fn turns<W: Write>(
    state: &mut MqttState,
    sign: u8,
    turn: Turn,
    output: &mut W,
) -> Result<(), TrialError> {
    match sign {
        b'^' => tell(turn, state.clean(), output),
        b'~' => tell(turn, state.resume(5), output),
        b'!' => tell(turn, state.handle_protocol_error(), output),
        _other => {
            state.set_manual_acks(true);
            Ok(())
        }
    }
}

/// Makes a call.
fn take<W: Write>(
    alloc: Global,
    state: &mut MqttState,
    call: &str,
    turn: Turn,
    output: &mut W,
) -> Result<(), TrialError> {
    match call.as_bytes() {
        [b'<', name] => {
            let packet = packet(alloc, *name)?;
            tell(turn, state.handle_incoming_packet(packet, 4), output)
        }
        [b'>', name] => {
            let request = request(alloc, *name)?;
            tell(turn, state.handle_outgoing_packet(request, 3), output)
        }
        [b'*', name] => {
            let request = blank(alloc, *name)?;
            tell(turn, state.handle_outgoing_packet(request, 3), output)
        }
        [sign] => turns(state, *sign, turn, output),
        _other => Ok(()),
    }
}

/// Makes calls, and clones the session then: a clone has no room to spare.
fn walk<W: Write>(
    alloc: Global,
    state: &mut MqttState,
    calls: &str,
    output: &mut W,
) -> Result<MqttState, TrialError> {
    for call in calls.split(' ') {
        take(alloc, state, call, Turn::Way, output)?;
    }
    Ok(state.clone()?)
}

/// A session of so many ids after calls.
fn after_calls<W: Write>(
    alloc: Global,
    limit: u16,
    calls: &str,
    output: &mut W,
) -> Result<MqttState, TrialError> {
    let mut state = MqttState::new(alloc, limit.max(1), false)?;
    let copy = walk(alloc, &mut state, calls, output);
    drop(state);
    copy
}

/// The number in front of words.
pub fn numbered(words: &str) -> Result<(u16, &str), TrialError> {
    let (number, rest) = words.split_once(' ').ok_or(TrialError::Unknown)?;
    let number = number.parse::<u16>().map_err(|_| TrialError::Unknown)?;
    Ok((number, rest))
}

/// Makes the last call.
fn end<W: Write>(
    alloc: Global,
    state: &mut MqttState,
    call: &str,
    output: &mut W,
) -> Result<(), TrialError> {
    may(output, state)?;
    take(alloc, state, call, Turn::Last, output)?;
    after(output, state)
}

/// Makes a new session's calls behind a limit. A refusal of the last one leaves the session.
pub fn call<W: Write>(alloc: Global, words: &str, output: &mut W) -> Result<(), TrialError> {
    let (limit, calls) = numbered(words)?;
    let (before, last) = calls.rsplit_once(' ').unwrap_or(("", calls));
    let mut state = after_calls(alloc, limit, before, output)?;
    let told = end(alloc, &mut state, last, output);
    drop(state);
    told
}

fn copy_told<W: Write>(state: &MqttState, output: &mut W) -> Result<(), TrialError> {
    may(output, state)?;
    answer(output, state.clone().map_err(StateError::from))?;
    after(output, state)
}

/// Clones a new session after the calls behind a limit.
pub fn copy<W: Write>(alloc: Global, words: &str, output: &mut W) -> Result<(), TrialError> {
    let (limit, calls) = numbered(words)?;
    let state = after_calls(alloc, limit, calls, output)?;
    let told = copy_told(&state, output);
    drop(state);
    told
}
