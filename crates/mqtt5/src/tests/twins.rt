//! Calls without and with a resume between them, in the words of `walk`.

use super::walk::{add_answer, add_fault, add_packets, add_requests, packet, request};
use crate::mqttbytes::Error;
use crate::{Call, Reply, StateError, Twin, twin};
use std::alloc::Global;
use std::test::Fail;

/// The calls before and after, the replies without the resume, what it sends, and the replies with it; or why it is
/// refused. A ping is forgotten, a release is sent again, an alias is above the maximum, and an id of the broker is kept.
const TWINS: &str = ">P ~ >P = S3 ~ - ~ P
*2 <R ~ <C *F = - F ~ L ~ - F
<Z >9 <j ~ ^ = S8(5,4)
<& ~ <) ^ = [ - ~ - ~ [ -
";

fn call(alloc: Global, words: &str) -> Result<Call, Error> {
    match words.as_bytes() {
        [b'<', name] => Ok(Call::Incoming(packet(alloc, *name)?, 4)),
        [mark, name] => Ok(Call::Outgoing(request(alloc, *mark, *name)?, 3)),
        [b'!'] => Ok(Call::ProtocolError),
        _other => Ok(Call::Clean),
    }
}

fn calls(alloc: Global, words: &str) -> Result<Vec<Call>, Error> {
    let mut calls = Vec::new(alloc);
    for words in words.split(' ') {
        calls.push(call(alloc, words)?)?;
    }
    Ok(calls)
}

fn add_reply(alloc: Global, reply: &Reply, text: &mut String) -> Result<(), Error> {
    match reply {
        Reply::Packet(answer) => add_answer(alloc, answer, text),
        Reply::Cleaned(requests) => add_requests(alloc, requests.as_slice(), text),
    }
}

fn add_replies(alloc: Global, replies: &[Reply], text: &mut String) -> Result<(), Error> {
    for reply in replies {
        text.push(' ')?;
        add_reply(alloc, reply, text)?;
    }
    Ok(())
}

/// Adds the replies without the resume, what it sends, and the replies with it.
fn add_twin(alloc: Global, twin: &Twin, text: &mut String) -> Result<(), Error> {
    add_replies(alloc, twin.plain.as_slice(), text)?;
    text.push_str(" ~ ")?;
    add_packets(alloc, twin.resent.as_slice(), text)?;
    text.push_str(" ~")?;
    add_replies(alloc, twin.resumed.as_slice(), text)
}

fn add_ended(
    alloc: Global,
    ended: &Result<Twin, StateError>,
    text: &mut String,
) -> Result<(), Error> {
    match ended {
        Ok(twin) => add_twin(alloc, twin, text),
        Err(fault) => {
            text.push(' ')?;
            Ok(add_fault(fault, text)?)
        }
    }
}

/// Adds what both runs come to under ten ids.
fn add_runs(
    alloc: Global,
    before: &[Call],
    after: &[Call],
    text: &mut String,
) -> Result<(), Error> {
    let ended = twin(alloc, 10, false, before, after);
    let added = add_ended(alloc, &ended, text);
    drop(ended);
    added
}

fn runs_after(alloc: Global, before: &[Call], after: &str, text: &mut String) -> Result<(), Error> {
    let after = calls(alloc, after)?;
    let added = add_runs(alloc, before, after.as_slice(), text);
    drop(after);
    added
}

fn runs(alloc: Global, before: &str, after: &str, text: &mut String) -> Result<(), Error> {
    let before = calls(alloc, before)?;
    let added = runs_after(alloc, before.as_slice(), after, text);
    drop(before);
    added
}

fn is_twin(alloc: Global, row: &str) -> Result<bool, Error> {
    let (words, _told) = row.split_once(" =").unwrap_or((row, ""));
    let (before, after) = words.split_once(" ~ ").unwrap_or((words, ""));
    let mut text = format!(in alloc; "{words} =")?;
    runs(alloc, before, after, &mut text)?;
    Ok(text.as_str() == row)
}

#[test]
fn twins(rt: HostRuntime) -> Result<(), Fail> {
    for row in TWINS.lines() {
        assert!(rt; is_twin(rt.alloc(), row)?, "of {row}");
    }
    Ok(())
}
