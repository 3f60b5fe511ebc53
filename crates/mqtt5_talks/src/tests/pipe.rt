//! A client between a reader and a writer that give and take little, are interrupted, and fail.

ghost use Rattle.std.specs.Io.{ReadsAtMost};
ghost use Rattle.mqtt5_client.specs.Client.{IsReady};

use super::talk::{grants, talks};
use super::{add_bytes, cut, number_of, publish_hi, quality_of};
use mqtt5_base::Error;
use mqtt5_client::{Client, Request};
use mqtt5_pipe::{PipeError, run_to_end, turn, write_output};
use mqtt5_talk::{Capabilities, Lines, TalkError, new_client};
use std::alloc::{AllocError, Global};
use std::io;
use std::io::{ErrorKind, Read, Write};
use std::test::Fail;

/// `from` has what each read gives between `/`: a piece, `!` for an interruption, `x` for a failure, `w` for a wait in vain.
/// `room` is a new writer that takes one byte at a time, is interrupted before each write and each flush, and fails once it
/// has so many; `idle` one that takes nothing. With `pings` a talk sends a PingReq at a wait in vain. `write` asks for a publish
/// of "hi" to "a/b" at a quality of service (3.3), or for nothing, and writes; `turn` and `end` are calls that read. `written`
/// is what the writer has, `left` what isn't written, `unread` what the reader still gives. The rows have a publish and its ack
/// (3.4) in pieces; three turns; a publish of QoS 1 under id 7 and the ack of id 5, which awaits none; that publish alone
/// with writers and readers that fail; limits that are set later, and one of a ConnAck (3.2.2.3.6).
const CALLS: &str =
    "pipe; write:1; from:!/40/!/02/!/00/!/01/!; end; written=320A0003612F620001006869; ids=0; events=2
pipe; write:1; from:!/400200/!/01/!; end; written=320A0003612F620001006869; ids=0; events=2
pipe; write:1; from:!/40020001/!; end; written=320A0003612F620001006869; ids=0; events=2
pipe; from:!/320700016100/!/070078/!; turn=6; turn=3; turn=0
pipe; from:!/32/!/07/!/00/!/01/!/61/!/00/!/07/!/00/!/78/!/40/!/02/!/00/!/05/!; end=Received unsolicited ack pkid: 5; written=40020007; left=-
pipe; from:!/32070001610007007840020005/!; end=Received unsolicited ack pkid: 5; written=40020007; left=-
pipe; room:2; from:!/32070001610007007840020005/!; end=Received unsolicited ack pkid: 5, BrokenPipe; written=4002; left=0007
pipe; idle; from:!/320700016100070078/!; end=writes: WriteZero; written=-; left=40020007
pipe; room:2; from:!/320700016100070078/!; turn=writes: BrokenPipe; written=4002; room:100; write; written=0007
pipe; from:!/3207/!/0001/!/61/!/x; end=reads: ConnectionReset; from:!/0007/!/0078/!; end; written=40020007
pipe; out:11; write:1=Cannot send packet of size '12'. It's greater than the broker's maximum packet size of: '11'; written=-
pipe; out:12; write:1; written=320A0003612F620001006869
pipe; from:2008000005270000000A; turn=10; write:1=Cannot send packet of size '12'. It's greater than the broker's maximum packet size of: '10'; written=-
pipe; from:2008000005270000000A; end; write:1=Cannot send packet of size '12'. It's greater than the broker's maximum packet size of: '10'; written=-
pipe; from:!/320A000361/!; end; ready=true; in:3; ready=false
";

/// Gives a piece at each read.
#[derive(Drop)]
pub(super) struct Source {
    rest: &'static str,
}

impl Read for Source {
    fn read(&mut self, buf: &mut [u8]) -> io::Result<usize> {
        let (piece, rest) = cut(self.rest, '/');
        self.rest = rest;
        match piece {
            "!" => Err(ErrorKind::Interrupted.into()),
            "x" => Err(ErrorKind::ConnectionReset.into()),
            "w" => Err(ErrorKind::WouldBlock.into()),
            digits => decode(digits, buf),
        }
    }
}

/// Bytes of their digits.
fn decode(digits: &str, buf: &mut [u8]) -> io::Result<usize>
    ensures { ReadsAtMost result buf.new }
{
    let count = (digits.len() / 2).min(buf.len());
    match hex::decode_to_slice(digits, &mut buf[..count]) {
        Ok(()) => Ok(count),
        Err(_) => Err(ErrorKind::InvalidData.into()),
    }
}

/// Takes at most so many bytes at once, is interrupted before each write and each flush, and fails once it has as many
/// as there is room for.
#[derive(Drop)]
pub(super) struct Sink {
    bytes: Vec<u8>,
    most: usize,
    room: usize,
    interrupts: bool,
}

fn new_sink(alloc: Global, room: usize) -> Sink {
    Sink {
        bytes: Vec::new(alloc),
        most: 1,
        room,
        interrupts: true,
    }
}

impl Write for Sink {
    fn write(&mut self, buf: &[u8]) -> io::Result<usize> {
        if self.interrupts {
            self.interrupts = false;
            return Err(ErrorKind::Interrupted.into());
        }
        self.interrupts = true;
        if self.bytes.len() >= self.room {
            return Err(ErrorKind::BrokenPipe.into());
        }
        let count = buf.len().min(self.most);
        self.bytes.extend_from_slice(&buf[..count])?;
        Ok(count)
    }

    fn flush(&mut self) -> io::Result<()> {
        self.interrupts = !self.interrupts;
        if self.interrupts {
            return Ok(());
        }
        Err(ErrorKind::Interrupted.into())
    }
}

/// What stands round a client.
#[derive(Drop)]
pub(super) struct Ends {
    pub source: Source,
    pub sink: Sink,
    pub screen: Lines<Vec<u8>>,
    pub capabilities: Capabilities,
    /// Whether a ping is sent where the source has nothing.
    pub pings: bool,
}

fn new_ends(alloc: Global) -> Ends {
    Ends {
        source: Source { rest: "" },
        sink: new_sink(alloc, 100),
        screen: Lines {
            alloc,
            writer: Vec::new(alloc),
            with_topic: true,
        },
        capabilities: Capabilities {
            max_qos: None,
            retain: true,
            wildcards: true,
            identifiers: true,
            shared: true,
            keep_alive: None,
        },
        pings: false,
    }
}

fn asks(alloc: Global, client: &mut Client, quality: &str) -> Result<(), TalkError>
    requires { IsReady client.old }
    ensures { IsReady client.new }
{
    let publish = publish_hi(alloc, quality_of(quality))?;
    match client.request(Request::Publish(publish), 0) {
        Ok(()) => Ok(()),
        Err(fault) => Err(TalkError::from(PipeError::from(fault))),
    }
}

/// Asks for a publish, where there is a quality of service, and writes.
fn writes(
    alloc: Global,
    client: &mut Client,
    sink: &mut Sink,
    quality: &str,
) -> Result<(), TalkError>
    requires { IsReady client.old }
{
    if !quality.is_empty() {
        asks(alloc, client, quality)?;
    }
    Ok(write_output(client, sink)?)
}

fn turns(client: &mut Client, ends: &mut Ends, text: &mut String) -> Result<(), TalkError>
    requires { IsReady client.old }
{
    let count = turn(client, 1, &mut ends.source, &mut ends.sink)?;
    Ok(write!(text, "={count}")?)
}

fn runs_to_end(client: &mut Client, ends: &mut Ends) -> Result<(), TalkError>
    requires { IsReady client.old }
{
    Ok(run_to_end(client, 1, &mut ends.source, &mut ends.sink)?)
}

/// Makes a call.
fn calls(
    alloc: Global,
    client: &mut Client,
    ends: &mut Ends,
    call: &str,
    text: &mut String,
) -> Result<(), TalkError>
    requires { IsReady client.old }
{
    let (name, argument) = cut(call, ':');
    match name {
        "write" => writes(alloc, client, &mut ends.sink, argument),
        "turn" => turns(client, ends, text),
        "end" => runs_to_end(client, ends),
        "granted" => grants(client, text),
        _talk => talks(alloc, client, ends, name, argument),
    }
}

/// Sets what stands round a client, or a limit of its codec.
fn sets(
    alloc: Global,
    client: &mut Client,
    ends: &mut Ends,
    call: &'static str,
) -> Result<(), Error> {
    let (name, argument) = cut(call, ':');
    match name {
        "from" => ends.source.rest = argument,
        "room" => ends.sink = new_sink(alloc, number_of(argument)? as usize),
        "idle" => ends.sink.most = 0,
        "pings" => ends.pings = true,
        "in" => client.codec.max_incoming_size = Some(number_of(argument)?),
        _out => client.codec.max_outgoing_size = Some(number_of(argument)?),
    }
    Ok(())
}

/// Adds why a call stopped.
fn add_trouble(trouble: &TalkError, text: &mut String) -> Result<(), AllocError> {
    match trouble {
        TalkError::Failed(PipeError::Read(error)) => write!(text, "=reads: {:?}", error.kind()),
        TalkError::Failed(PipeError::Write(error)) => write!(text, "=writes: {:?}", error.kind()),
        TalkError::Failed(PipeError::Unanswered(fault, error)) => {
            write!(text, "={fault}, {:?}", error.kind())
        }
        other => write!(text, "={other}"),
    }
}

/// Makes a call, and adds why it stopped.
fn makes(
    alloc: Global,
    client: &mut Client,
    ends: &mut Ends,
    call: &str,
    text: &mut String,
) -> Result<(), AllocError>
    requires { IsReady client.old }
{
    let ended = calls(alloc, client, ends, call, text);
    let added = match &ended {
        Ok(()) => Ok(()),
        Err(trouble) => add_trouble(trouble, text),
    };
    drop(ended);
    added
}

/// Adds what is asked for of a client and of what stands round it.
fn looks(
    alloc: Global,
    client: &Client,
    ends: &Ends,
    name: &str,
    text: &mut String,
) -> Result<(), AllocError> {
    match name {
        "ready" => write!(text, "={}", client.needs_more()),
        "ids" => write!(text, "={}", client.state.inflight()),
        "events" => write!(text, "={}", client.state.events().len()),
        "left" => add_bytes(alloc, client.output.as_slice(), text),
        "shown" => add_bytes(alloc, ends.screen.writer.as_slice(), text),
        "unread" => write!(text, "={}", ends.source.rest),
        _written => add_bytes(alloc, ends.sink.bytes.as_slice(), text),
    }
}

/// Makes a call of a row, and adds its answer.
fn takes(
    alloc: Global,
    client: &mut Client,
    ends: &mut Ends,
    call: &'static str,
    text: &mut String,
) -> Result<(), Error> {
    let (name, _argument) = cut(call, ':');
    match name {
        "from" | "room" | "idle" | "pings" | "in" | "out" => sets(alloc, client, ends, call)?,
        "ready" | "ids" | "events" | "left" | "shown" | "unread" | "written" => {
            looks(alloc, client, ends, name, text)?;
        }
        "pipe" | "publisher" | "subscriber" => (),
        _call if client.needs_more() => makes(alloc, client, ends, call, text)?,
        _call => text.push('!')?,
    }
    Ok(())
}

/// Makes the calls of a row, and writes it anew.
fn walks(
    alloc: Global,
    client: &mut Client,
    ends: &mut Ends,
    row: &'static str,
    text: &mut String,
) -> Result<(), Error> {
    for (i, part) in row.split("; ").enumerate() {
        if i > 0 {
            text.push_str("; ")?;
        }
        let (call, _answer) = cut(part, '=');
        text.push_str(call)?;
        takes(alloc, client, ends, call, text)?;
    }
    Ok(())
}

/// The client that a row begins with: of ten ids, or that of a talk, of two, without and with acks by the user.
fn client_of(alloc: Global, row: &str) -> Result<Client, Error> {
    if row.starts_with("publisher") {
        return Ok(new_client(alloc, 2, false));
    }
    if row.starts_with("subscriber") {
        return Ok(new_client(alloc, 2, true));
    }
    match Client::new(alloc, 10, false) {
        Ok(client) => Ok(client),
        Err(_) => Err(Error::OutOfMemory),
    }
}

/// Whether each call of a row has its answer.
pub(super) fn is_row(alloc: Global, row: &'static str) -> Result<bool, Error> {
    let mut client = client_of(alloc, row)?;
    let mut ends = new_ends(alloc);
    let mut text = String::new(alloc);
    let walked = walks(alloc, &mut client, &mut ends, row, &mut text);
    drop(client);
    drop(ends);
    walked?;
    Ok(text.as_str() == row)
}

#[test]
fn pipes(rt: HostRuntime) -> Result<(), Fail> {
    for row in CALLS.lines() {
        assert!(rt; is_row(rt.alloc(), row)?, "of {row}");
    }
    Ok(())
}
