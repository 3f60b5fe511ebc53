//! The lines that tell of an outcome. Printing takes no memory.

use crate::outcome::Outcome;
use mqtt5_codec::Packet;
use mqtt5_publish::Publish;
use mqtt5_scripts::{write_fault, write_hex, write_message};
use mqtt5_session::{Event, Outgoing};
use std::io;
use std::io::Write;

/// Prints the bytes written, the events in order, how many ids are in use, and the fault.
pub fn write_outcome<W: Write>(output: &mut W, outcome: &Outcome) -> io::Result<()> {
    output.write_all(b"out ")?;
    write_hex(output, outcome.written.as_slice())?;
    output.write_all(b"\n")?;
    for event in outcome.state.events().iter() {
        write_event(output, event)?;
    }
    writeln!(output, "inflight {}", outcome.state.inflight())?;
    match &outcome.fault {
        Some(fault) => write_fault(output, fault),
        None => Ok(()),
    }
}

fn write_event<W: Write>(output: &mut W, event: &Event) -> io::Result<()> {
    match event {
        Event::Outgoing(outgoing) => write_named(output, "sent", sent(outgoing)),
        Event::Incoming(Packet::Publish(publish)) => write_got(output, publish),
        Event::Incoming(packet) => write_named(output, "got", got(packet)),
    }
}

/// Prints a name, with its id where it has one.
fn write_named<W: Write>(output: &mut W, verb: &str, named: (&str, Option<u16>)) -> io::Result<()> {
    let (name, id) = named;
    match id {
        Some(id) => writeln!(output, "{verb} {name} {id}"),
        None => writeln!(output, "{verb} {name}"),
    }
}

/// A packet's name, and its id where it has one.
fn got(packet: &Packet) -> (&'static str, Option<u16>) {
    match packet {
        Packet::Auth(_) => ("Auth", None),
        Packet::Connect(_, _, _) => ("Connect", None),
        Packet::ConnAck(_) => ("ConnAck", None),
        Packet::Publish(publish) => ("Publish", Some(publish.pkid)),
        Packet::PubAck(ack) => ("PubAck", Some(ack.pkid)),
        Packet::PingReq(_) => ("PingReq", None),
        Packet::PingResp(_) => ("PingResp", None),
        Packet::Subscribe(subscribe) => ("Subscribe", Some(subscribe.pkid)),
        Packet::SubAck(ack) => ("SubAck", Some(ack.pkid)),
        Packet::PubRec(ack) => ("PubRec", Some(ack.pkid)),
        Packet::PubRel(ack) => ("PubRel", Some(ack.pkid)),
        Packet::PubComp(ack) => ("PubComp", Some(ack.pkid)),
        Packet::Unsubscribe(unsubscribe) => ("Unsubscribe", Some(unsubscribe.pkid)),
        Packet::UnsubAck(ack) => ("UnsubAck", Some(ack.pkid)),
        Packet::Disconnect(_) => ("Disconnect", None),
    }
}

fn write_got<W: Write>(output: &mut W, publish: &Publish) -> io::Result<()> {
    write!(output, "got Publish {} ", publish.pkid)?;
    write_message(output, publish)?;
    output.write_all(b"\n")
}

/// The name of what was sent, and its id where it has one.
fn sent(outgoing: &Outgoing) -> (&'static str, Option<u16>) {
    match *outgoing {
        Outgoing::Publish(id) => ("Publish", Some(id)),
        Outgoing::Subscribe(id) => ("Subscribe", Some(id)),
        Outgoing::Unsubscribe(id) => ("Unsubscribe", Some(id)),
        Outgoing::PubAck(id) => ("PubAck", Some(id)),
        Outgoing::PubRec(id) => ("PubRec", Some(id)),
        Outgoing::PubRel(id) => ("PubRel", Some(id)),
        Outgoing::PubComp(id) => ("PubComp", Some(id)),
        Outgoing::PingReq => ("PingReq", None),
        Outgoing::Disconnect => ("Disconnect", None),
        Outgoing::Auth => ("Auth", None),
        Outgoing::AwaitAck(id) => ("AwaitAck", Some(id)),
    }
}
