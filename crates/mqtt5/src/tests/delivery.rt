//! What is handed on over connections that are lost.

ghost use Rattle.std.specs.Prelude.{◌<◌};

use super::walk::{add_fault, cut};
use crate::mqttbytes::v5::{Packet, Publish};
use crate::mqttbytes::{Error, QoS};
use crate::{Event, MqttState, Report, StateError, WorldEvent, play, play_out};
use bytes::Bytes;
use std::alloc::{AllocError, Global};
use std::test::Fail;

/// The greatest id, a quality of service and events by their letters, and what is then reported. `^` and `v` are Up and
/// Down, `!` is a loss, `2` a loss after which the receive maximum is 2, and another is the name of a publish, which asks
/// for id 2 as `b` and for 3 as `c`. Publishes are told by their names and refused ones with their fault, `dups` has a 1
/// for each that is handed on with `dup`, `reason` is that of the PubComp heard last, and `under` has the ids of the
/// publishes that await an ack under 1 to 5. In the rows one waits and one is refused; one is handed on once over two
/// losses; ids stand over a smaller maximum; and ids are asked for, over a loss.
const RUNS: &str = "1 2 A^vBC^v^v^v handed=AB accepted=AB refused=C:S1 ids=0
1 2 A^!^v^!^v handed=A reason=PacketIdentifierNotFound ids=0
5 1 ABCD^2E^ handed=AA dups=01 under=12345 ids=5 last=0 maximum=2
2 2 cb^!^v^v handed=b accepted=b refused=c:S2(3) ids=0 last=0
";

/// The same, played on until nothing is on its way, stored or waiting: two of which one waits, and for each quality of
/// service one whose ack is lost.
const ENDS: &str = "1 2 AB handed=AB accepted=AB ids=0
1 0 A^! handed=A accepted=A ids=0
1 1 A^! handed=AA accepted=A ids=0
1 2 A^! handed=A accepted=A ids=0
";

/// The quality of service of this digit.
pub(super) fn quality(digit: &str) -> QoS {
    match digit {
        "0" => QoS::AtMostOnce,
        "1" => QoS::AtLeastOnce,
        _two => QoS::ExactlyOnce,
    }
}

/// The packet identifier that is asked for.
fn given_id(name: u8) -> u16 {
    match name {
        b'b' => 2,
        b'c' => 3,
        _other => 0,
    }
}

/// A publish of one byte, its name, to "a": of 9 bytes at QoS 1 and 2.
pub(super) fn named(alloc: Global, name: u8, qos: QoS) -> Result<Publish, Error> {
    let payload = Bytes::copy_from_slice(alloc, &[name])?;
    let mut publish = Publish::new(alloc, "a", qos, payload, None)?;
    publish.pkid = given_id(name);
    Ok(publish)
}

fn event(alloc: Global, letter: u8, qos: QoS) -> Result<WorldEvent, Error> {
    match letter {
        b'^' => Ok(WorldEvent::Up),
        b'v' => Ok(WorldEvent::Down),
        b'!' => Ok(WorldEvent::Loss(None)),
        b'2' => Ok(WorldEvent::Loss(Some(2))),
        name => Ok(WorldEvent::Publish(named(alloc, name, qos)?)),
    }
}

fn events(alloc: Global, letters: &str, qos: QoS) -> Result<Vec<WorldEvent>, Error> {
    let mut events = Vec::new(alloc);
    for letter in letters.as_bytes() {
        events.push(event(alloc, *letter, qos)?)?;
    }
    Ok(events)
}

/// Adds the name of a publish.
fn add_name(publish: &Publish, text: &mut String) -> Result<(), AllocError> {
    for byte in publish.payload.as_slice() {
        text.push(char::from(*byte))?;
    }
    Ok(())
}

fn add_names(publishes: &[Publish], text: &mut String) -> Result<(), AllocError> {
    for publish in publishes {
        add_name(publish, text)?;
    }
    Ok(())
}

fn add_dups(publishes: &[Publish], text: &mut String) -> Result<(), AllocError> {
    for publish in publishes {
        write!(text, "{}", u8::from(publish.dup))?;
    }
    Ok(())
}

fn add_refused(refused: &[(Publish, StateError)], text: &mut String) -> Result<(), AllocError> {
    for (publish, fault) in refused {
        add_name(publish, text)?;
        text.push(':')?;
        add_fault(fault, text)?;
    }
    Ok(())
}

fn add_reason(state: &MqttState, text: &mut String) -> Result<(), AllocError> {
    match state.events().back() {
        Some(Event::Incoming(Packet::PubComp(ack))) => write!(text, "{:?}", ack.reason),
        _other => Ok(()),
    }
}

fn add_under(state: &MqttState, text: &mut String) -> Result<(), AllocError> {
    for id in 1..=5 {
        if let Some(publish) = state.outgoing_pub(id) {
            write!(text, "{}", publish.pkid)?;
        }
    }
    Ok(())
}

/// Adds what is asked for of a report.
fn add_look(report: &Report, look: &str, text: &mut String) -> Result<(), AllocError> {
    match look {
        "handed" => add_names(report.handed.as_slice(), text),
        "accepted" => add_names(report.accepted.as_slice(), text),
        "dups" => add_dups(report.handed.as_slice(), text),
        "refused" => add_refused(report.refused.as_slice(), text),
        "reason" => add_reason(&report.state, text),
        "under" => add_under(&report.state, text),
        "ids" => write!(text, "{}", report.state.inflight()),
        "last" => write!(text, "{}", report.state.last_pkid()),
        _maximum => write!(text, "{}", report.state.max_outgoing_inflight()),
    }
}

/// Adds what is asked for, one after another.
pub(super) fn add_looks(report: &Report, looks: &str, text: &mut String) -> Result<(), AllocError> {
    for look in looks.split(' ') {
        let (name, _told) = look.split_once('=').unwrap_or((look, ""));
        write!(text, " {name}=")?;
        add_look(report, name, text)?;
    }
    Ok(())
}

fn played(
    alloc: Global,
    limit: u16,
    events: &[WorldEvent],
    to_end: bool,
) -> Result<Report, StateError>
    requires { 0 < limit }
{
    if to_end {
        play_out(alloc, limit, events)
    } else {
        play(alloc, limit, events)
    }
}

fn add_played(
    alloc: Global,
    limit: u16,
    events: &[WorldEvent],
    to_end: bool,
    looks: &str,
    text: &mut String,
) -> Result<(), Error>
    requires { 0 < limit }
{
    let Ok(report) = played(alloc, limit, events, to_end) else {
        return Err(Error::OutOfMemory);
    };
    let added = add_looks(&report, looks, text);
    drop(report);
    Ok(added?)
}

fn is_run(alloc: Global, row: &str, to_end: bool) -> Result<bool, Error> {
    let (limit, rest) = cut(row);
    let (digit, rest) = cut(rest);
    let (letters, looks) = cut(rest);
    let Ok(ids) = limit.parse::<u16>() else {
        return Ok(false);
    };
    let mut text = format!(in alloc; "{limit} {digit} {letters}")?;
    let events = events(alloc, letters, quality(digit))?;
    let added = add_played(alloc, ids.max(1), &events, to_end, looks, &mut text);
    drop(events);
    added?;
    Ok(text.as_str() == row)
}

#[test]
fn runs(rt: HostRuntime) -> Result<(), Fail> {
    for row in RUNS.lines() {
        assert!(rt; is_run(rt.alloc(), row, false)?, "of {row}");
    }
    Ok(())
}

#[test]
fn runs_to_their_end(rt: HostRuntime) -> Result<(), Fail> {
    for row in ENDS.lines() {
        assert!(rt; is_run(rt.alloc(), row, true)?, "of {row}");
    }
    Ok(())
}
