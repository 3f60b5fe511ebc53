//! Walks a session through calls in words, and tells what comes of each.
//!
//! A call is a packet from the broker (`<` and its name), a request of its content (`>`), one without its id or
//! without its filters (`*`), a clean (`^`), a resume (`~`), a protocol error (`!`), acks by the user from here on
//! (`+`), an event taken (`.`), or a look at the moments of the last packets in and out (`?`), at how long the
//! topic of alias 9 is (`#`) and at what stands (`|`).
//!
//! A row is a call, its answer, the events that it adds, and what stands after it. An answer is the packet that is
//! sent, `-` for none, or a fault. An event is the name of a packet that came, or what was sent. A publish with `dup`
//! has a `'` behind its name. What stands is told as by `add_standing`, and `=` is what stood before.

use super::frames::FRAMES;
use crate::mqttbytes::Error;
use crate::mqttbytes::v5::{Packet, Publish, Sequence};
use crate::{Event, MqttState, Request, StateError};
use bytes::BytesMut;
use std::alloc::{AllocError, Global};

/// What stands before the first blank of a row, and what behind it.
pub(super) fn cut(row: &str) -> (&str, &str) {
    row.split_once(' ').unwrap_or((row, ""))
}

/// The digits of the frame of that name; none where none has it.
fn digits_of(name: u8) -> &'static str {
    for row in FRAMES.lines() {
        let (other, digits) = cut(row);
        if other.as_bytes() == [name].as_slice() {
            return digits;
        }
    }
    ""
}

/// The name of the frame of these digits; none where it has none.
fn name_of(digits: &str) -> &'static str {
    for row in FRAMES.lines() {
        let (name, others) = cut(row);
        if others == digits {
            return name;
        }
    }
    ""
}

/// The frame of that name; E16 where none has it.
fn frame(alloc: Global, name: u8) -> Result<BytesMut, Error> {
    let mut frame = BytesMut::new(alloc);
    for digits in digits_of(name).split(' ') {
        match u8::from_str_radix(digits, 16) {
            Ok(byte) => frame.extend_from_slice(&[byte])?,
            Err(_) => return Err(Error::MalformedPacket),
        }
    }
    Ok(frame)
}

/// The name of a frame with this first byte.
fn named(alloc: Global, first: u8, rest: &[u8]) -> Result<&'static str, AllocError> {
    let mut digits = format!(in alloc; "{first:02X}")?;
    for byte in rest {
        write!(digits, " {byte:02X}")?;
    }
    Ok(name_of(digits.as_str()))
}

/// Adds the name of a publish with `dup` whose frame without it has one, and then `'`; else `?`.
fn add_again(alloc: Global, first: u8, rest: &[u8], text: &mut String) -> Result<(), AllocError> {
    let name = named(alloc, first & 0xF7, rest)?;
    if first & 0xF8 == 0x38 && !name.is_empty() {
        return write!(text, "{name}'");
    }
    text.push('?')
}

/// Adds the name of a frame.
fn add_name(alloc: Global, frame: &[u8], text: &mut String) -> Result<(), AllocError> {
    let Some((first, rest)) = frame.split_first() else {
        return text.push('?');
    };
    let name = named(alloc, *first, rest)?;
    if name.is_empty() {
        return add_again(alloc, *first, rest, text);
    }
    text.push_str(name)
}

fn add_packet(alloc: Global, packet: &Packet, text: &mut String) -> Result<(), Error> {
    let mut frame = BytesMut::new(alloc);
    packet.write(&mut frame, None)?;
    Ok(add_name(alloc, frame.as_slice(), text)?)
}

fn add_publish(alloc: Global, publish: &Publish, text: &mut String) -> Result<(), Error> {
    let mut frame = BytesMut::new(alloc);
    publish.write(&mut frame)?;
    Ok(add_name(alloc, frame.as_slice(), text)?)
}

pub(super) fn packet(alloc: Global, name: u8) -> Result<Packet, Error> {
    let mut stream = frame(alloc, name)?;
    Packet::read(alloc, &mut stream, None)
}

/// The request of a packet's content; a Disconnect of a packet that no request has.
fn request_of(packet: Packet) -> Request {
    match packet {
        Packet::Publish(publish) => Request::Publish(publish),
        Packet::PubRel(release) => Request::PubRel(release),
        Packet::Subscribe(subscribe) => Request::from(subscribe),
        Packet::Unsubscribe(unsubscribe) => Request::Unsubscribe(unsubscribe),
        Packet::PubAck(ack) => Request::PubAck(ack),
        Packet::PubRec(ack) => Request::PubRec(ack),
        Packet::PubComp(ack) => Request::PubComp(ack),
        Packet::SubAck(ack) => Request::SubAck(ack),
        Packet::UnsubAck(ack) => Request::UnsubAck(ack),
        Packet::PingReq(_) => Request::PingReq,
        Packet::PingResp(_) => Request::PingResp,
        other => disconnect_for(other),
    }
}

fn disconnect_for(packet: Packet) -> Request {
    drop(packet);
    Request::Disconnect
}

/// Takes the id out of a packet, or the filters of a Subscribe.
fn blank(alloc: Global, packet: &mut Packet) {
    match packet {
        Packet::Publish(publish) => publish.pkid = 0,
        Packet::PubRel(release) => release.pkid = 0,
        Packet::Unsubscribe(unsubscribe) => unsubscribe.pkid = 0,
        Packet::Subscribe(subscribe) => subscribe.filters = Sequence::new(alloc),
        _other => (),
    }
}

/// The request of that name, as it is (`>`), or without its id or its filters (`*`).
pub(super) fn request(alloc: Global, mark: u8, name: u8) -> Result<Request, Error> {
    let mut packet = packet(alloc, name)?;
    if mark == b'*' {
        blank(alloc, &mut packet);
    }
    Ok(request_of(packet))
}

/// Adds a fault by its number, with what it carries.
pub(super) fn add_fault(fault: &StateError, text: &mut String) -> Result<(), AllocError> {
    write!(text, "S{}", fault.number())?;
    match fault {
        StateError::Unsolicited(id) => write!(text, "({id})"),
        StateError::Deserialization(error) => write!(text, "({error:?})"),
        StateError::InvalidAlias { alias, max } => write!(text, "({alias},{max})"),
        StateError::OutgoingPacketTooLarge { pkt_size, max } => write!(text, "({pkt_size},{max})"),
        StateError::ServerDisconnect { reason_code, .. } => write!(text, "({reason_code:?})"),
        StateError::ConnFail { reason } => write!(text, "({reason:?})"),
        _other => Ok(()),
    }
}

/// Adds the name of a reply, `-` where there is none, or a fault.
pub(super) fn add_answer(
    alloc: Global,
    answer: &Result<Option<Packet>, StateError>,
    text: &mut String,
) -> Result<(), Error> {
    match answer {
        Ok(Some(reply)) => add_packet(alloc, reply, text),
        Ok(None) => Ok(text.push('-')?),
        Err(fault) => Ok(add_fault(fault, text)?),
    }
}

/// Adds the answer to a packet from the broker.
fn hears(alloc: Global, state: &mut MqttState, name: u8, text: &mut String) -> Result<(), Error> {
    let packet = packet(alloc, name)?;
    let answer = state.handle_incoming_packet(packet, 4);
    let added = add_answer(alloc, &answer, text);
    drop(answer);
    added
}

/// Adds the answer to a request.
fn asks(
    alloc: Global,
    state: &mut MqttState,
    mark: u8,
    name: u8,
    text: &mut String,
) -> Result<(), Error> {
    let request = request(alloc, mark, name)?;
    let answer = state.handle_outgoing_packet(request, 3);
    let added = add_answer(alloc, &answer, text);
    drop(answer);
    added
}

/// Adds the name of a request that a clean gives.
fn add_request(alloc: Global, request: &Request, text: &mut String) -> Result<(), Error> {
    let mut frame = BytesMut::new(alloc);
    match request {
        Request::Publish(publish) => publish.write(&mut frame)?,
        Request::PubRel(release) => release.write(&mut frame)?,
        _other => 0,
    };
    Ok(add_name(alloc, frame.as_slice(), text)?)
}

/// Adds the names of what a clean gives; `-` where it gives nothing.
pub(super) fn add_requests(
    alloc: Global,
    requests: &[Request],
    text: &mut String,
) -> Result<(), Error> {
    if requests.is_empty() {
        text.push('-')?;
    }
    for (i, request) in requests.iter().enumerate() {
        if i > 0 {
            text.push(',')?;
        }
        add_request(alloc, request, text)?;
    }
    Ok(())
}

/// Adds the names of what is sent again; `-` where nothing is.
pub(super) fn add_packets(
    alloc: Global,
    packets: &[Packet],
    text: &mut String,
) -> Result<(), Error> {
    if packets.is_empty() {
        text.push('-')?;
    }
    for (i, packet) in packets.iter().enumerate() {
        if i > 0 {
            text.push(',')?;
        }
        add_packet(alloc, packet, text)?;
    }
    Ok(())
}

fn add_cleaned(
    alloc: Global,
    answer: &Result<Vec<Request>, StateError>,
    text: &mut String,
) -> Result<(), Error> {
    match answer {
        Ok(requests) => add_requests(alloc, requests.as_slice(), text),
        Err(_) => Err(Error::OutOfMemory),
    }
}

fn cleans(alloc: Global, state: &mut MqttState, text: &mut String) -> Result<(), Error> {
    let answer = state.clean();
    let added = add_cleaned(alloc, &answer, text);
    drop(answer);
    added
}

/// Adds the answer to a resume.
fn add_resent(
    alloc: Global,
    answer: &Result<Vec<Packet>, StateError>,
    text: &mut String,
) -> Result<(), Error> {
    match answer {
        Ok(packets) => add_packets(alloc, packets.as_slice(), text),
        Err(fault) => Ok(add_fault(fault, text)?),
    }
}

fn resumes(alloc: Global, state: &mut MqttState, text: &mut String) -> Result<(), Error> {
    let answer = state.resume(5);
    let added = add_resent(alloc, &answer, text);
    drop(answer);
    added
}

fn ends(alloc: Global, state: &mut MqttState, text: &mut String) -> Result<(), Error> {
    let answer = state.handle_protocol_error();
    let added = add_answer(alloc, &answer, text);
    drop(answer);
    added
}

fn add_taken(alloc: Global, event: &Option<Event>, text: &mut String) -> Result<(), Error> {
    match event {
        Some(event) => add_event(alloc, event, text),
        None => Ok(text.push('-')?),
    }
}

fn pops(alloc: Global, state: &mut MqttState, text: &mut String) -> Result<(), Error> {
    let event = state.pop_event();
    let added = add_taken(alloc, &event, text);
    drop(event);
    added
}

fn add_moments(state: &MqttState, text: &mut String) -> Result<(), AllocError> {
    write!(text, "{},{}", state.last_incoming(), state.last_outgoing())
}

fn add_topic(state: &MqttState, text: &mut String) -> Result<(), AllocError> {
    match state.topic_alises(9) {
        Some(topic) => write!(text, "{}", topic.len()),
        None => text.push('-'),
    }
}

fn acks_by_the_user(state: &mut MqttState, text: &mut String) -> Result<(), AllocError> {
    state.set_manual_acks(true);
    text.push('-')
}

/// Makes a call of one letter, and adds its answer.
fn turns(alloc: Global, state: &mut MqttState, letter: u8, text: &mut String) -> Result<(), Error> {
    match letter {
        b'^' => cleans(alloc, state, text),
        b'~' => resumes(alloc, state, text),
        b'!' => ends(alloc, state, text),
        b'.' => pops(alloc, state, text),
        b'|' => add_standing(alloc, state, text),
        b'?' => Ok(add_moments(state, text)?),
        b'#' => Ok(add_topic(state, text)?),
        _user => Ok(acks_by_the_user(state, text)?),
    }
}

/// Makes a call, and adds its answer.
fn takes(alloc: Global, state: &mut MqttState, call: &str, text: &mut String) -> Result<(), Error> {
    match call.as_bytes() {
        [b'<', name] => hears(alloc, state, *name, text),
        [mark, name] => asks(alloc, state, *mark, *name, text),
        [letter] => turns(alloc, state, *letter, text),
        _other => Ok(()),
    }
}

/// Makes calls one after another.
pub(super) fn makes(alloc: Global, state: &mut MqttState, calls: &str) -> Result<(), Error> {
    let mut answers = String::new(alloc);
    for call in calls.split(' ') {
        takes(alloc, state, call, &mut answers)?;
    }
    Ok(())
}

fn add_event(alloc: Global, event: &Event, text: &mut String) -> Result<(), Error> {
    match event {
        Event::Incoming(packet) => add_packet(alloc, packet, text),
        Event::Outgoing(outgoing) => Ok(write!(text, "{outgoing:?}")?),
    }
}

/// Adds the events from the first so many on; `-` where there are none.
fn add_events(
    alloc: Global,
    state: &MqttState,
    from: usize,
    text: &mut String,
) -> Result<(), Error> {
    if state.events().len() <= from {
        text.push('-')?;
    }
    for (i, event) in state.events().iter().skip(from).enumerate() {
        if i > 0 {
            text.push(',')?;
        }
        add_event(alloc, event, text)?;
    }
    Ok(())
}

/// Adds an id: `.` where it is free, `r` where it is released, and else the name of its publish.
fn add_id(alloc: Global, state: &MqttState, id: u16, text: &mut String) -> Result<(), Error> {
    match state.outgoing_pub(id) {
        Some(publish) => add_publish(alloc, publish, text),
        None if state.outgoing_rel(id) => Ok(text.push('r')?),
        None => Ok(text.push('.')?),
    }
}

/// Adds a mark and a number, where it isn't what it is in a new session.
fn add_number(
    mark: char,
    number: usize,
    at_first: usize,
    text: &mut String,
) -> Result<(), AllocError> {
    if number == at_first {
        return Ok(());
    }
    write!(text, "{mark}{number}")
}

/// Adds the ids of the broker among the first seven.
fn add_incoming(state: &MqttState, text: &mut String) -> Result<(), AllocError> {
    for id in 1..=7 {
        if state.incoming_pub(id) {
            write!(text, "i{id}")?;
        }
    }
    Ok(())
}

fn add_numbers(state: &MqttState, text: &mut String) -> Result<(), AllocError> {
    let limit = state.max_outgoing_inflight_upper_limit();
    add_number('@', usize::from(state.last_pkid()), 0, text)?;
    add_incoming(state, text)?;
    add_number('p', usize::from(state.await_pingresp()), 0, text)?;
    add_number('c', state.collision_ping_count(), 0, text)?;
    add_number(
        'm',
        usize::from(state.max_outgoing_inflight()),
        usize::from(limit),
        text,
    )?;
    add_number('b', usize::from(state.broker_topic_alias_max()), 0, text)?;
    add_number('u', usize::from(state.manual_acks()), 0, text)
}

fn add_ids(alloc: Global, state: &MqttState, text: &mut String) -> Result<(), Error> {
    for id in 1..=state.max_outgoing_inflight_upper_limit().min(5) {
        add_id(alloc, state, id, text)?;
    }
    Ok(())
}

/// Adds what waits for its id.
fn add_waiting(alloc: Global, state: &MqttState, text: &mut String) -> Result<(), Error> {
    if let Some(publish) = state.collision() {
        text.push('+')?;
        add_publish(alloc, publish, text)?;
    }
    Ok(())
}

/// Adds what stands in a session: each id up to 5, the name of what waits, how many ids are in use, and then the last
/// id (`@`), the ids of the broker up to 7 (`i`), whether a ping is awaited (`p`), the pings while a publish waits
/// (`c`), the current maximum (`m`), the broker's greatest alias (`b`) and whether the user acks (`u`), each where
/// a new session has another.
fn add_standing(alloc: Global, state: &MqttState, text: &mut String) -> Result<(), Error> {
    add_ids(alloc, state, text)?;
    add_waiting(alloc, state, text)?;
    write!(text, "/{}", state.inflight())?;
    Ok(add_numbers(state, text)?)
}

/// Adds what stands in a session; `=` where that is what stood there.
fn add_change(
    alloc: Global,
    state: &MqttState,
    stood: &str,
    text: &mut String,
) -> Result<(), Error> {
    let mut stands = String::new(alloc);
    add_standing(alloc, state, &mut stands)?;
    if stands.as_str() == stood {
        return Ok(text.push('=')?);
    }
    Ok(text.push_str(stands.as_str())?)
}

/// Adds the row of a call: its answer, its events, and what stands after it.
fn add_row(
    alloc: Global,
    state: &mut MqttState,
    call: &str,
    text: &mut String,
) -> Result<(), Error> {
    let mut stood = String::new(alloc);
    add_standing(alloc, state, &mut stood)?;
    let told = state.events().len();
    write!(text, "{call} ")?;
    takes(alloc, state, call, text)?;
    text.push(' ')?;
    add_events(alloc, state, told, text)?;
    text.push(' ')?;
    add_change(alloc, state, stood.as_str(), text)
}

/// Makes the call of a row, and answers whether that comes of it.
pub(super) fn is_row(alloc: Global, state: &mut MqttState, row: &str) -> Result<bool, Error> {
    let mut text = String::new(alloc);
    let (call, _answer) = cut(row);
    add_row(alloc, state, call, &mut text)?;
    Ok(text.as_str() == row)
}

/// The first of rows one after another that isn't so; none where all are.
fn first_wrong<'a>(alloc: Global, state: &mut MqttState, rows: &'a str) -> Result<&'a str, Error> {
    for row in rows.lines() {
        if !is_row(alloc, state, row)? {
            return Ok(row);
        }
    }
    Ok("")
}

fn wrong_after<'a>(
    alloc: Global,
    state: &mut MqttState,
    calls: &str,
    rows: &'a str,
) -> Result<&'a str, Error> {
    makes(alloc, state, calls)?;
    first_wrong(alloc, state, rows)
}

/// The first row that isn't so in a session of so many ids after calls; none where all are.
pub(super) fn wrong_row<'a>(
    alloc: Global,
    limit: u16,
    calls: &str,
    rows: &'a str,
) -> Result<&'a str, Error> {
    let Ok(mut state) = MqttState::new(alloc, limit.max(1), false) else {
        return Err(Error::OutOfMemory);
    };
    let wrong = wrong_after(alloc, &mut state, calls, rows);
    drop(state);
    wrong
}
