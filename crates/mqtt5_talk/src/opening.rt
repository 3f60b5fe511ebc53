//! How a connection is opened and ended.

ghost use Rattle.std.specs.Prelude.{◌≡◌, ◌⊎◌, ℕ, true, false, List, [], ◌∷◌, OnOk, IfOk, IfErr, IfSome, Ok, None};
ghost use Rattle.std.specs.Io.KnownBytes.{Consumes, IsAtEnd};
ghost use Rattle.std.specs.declared.io.Error.{Error as IoError};
ghost use Rattle.mqtt5_pipe.specs.declared.error.PipeError.TheVariants as faults;
ghost use Rattle.mqtt5_inflight.specs.declared.event.Request.TheVariants.{Disconnect};
ghost use Rattle.mqtt5_drive.specs.Limit.{codec_after};
ghost use Rattle.mqtt5_client.specs.Client.{IsReady, codec_since};
ghost use Rattle.mqtt5_talk.specs.declared.error.TalkError.TheVariants.{Failed};
ghost use Rattle.mqtt5_talk.specs.Answers.{IsAnswered};
ghost use Rattle.mqtt5_talk.specs.Capabilities.{capabilities_of, capabilities_in};
ghost use Rattle.mqtt5_talk.specs.Conversation.{Saying, Opens, Asks, Conversation, Talked, SendsOnly};

use crate::capabilities::Capabilities;
use crate::error::TalkError;
use crate::reason::{ReasonText, reason_in};
use mqtt5_client::{Client, Event, MqttState, Request};
use mqtt5_codec::Packet;
use mqtt5_pipe::{PipeError, turn, write_output};
use std::io::{ErrorKind, Read, Write};

/// Writes the Connect and takes turns until the ConnAck, whose limit on packets holds from then on, and answers what the
/// broker takes. The client's session must be new. `Refused` where the ConnAck is a refusal, `OutOfTurn` where another
/// packet comes first or an event waits before the call, `Ended`, `Closed`; `Failed` of a Connect that can't be written,
/// and as of a turn.
pub fn open<R: Read, W: Write>(
    client: &mut Client,
    connect: &Packet,
    reader: &mut R,
    writer: &mut W,
) -> Result<Capabilities, TalkError>
    requires ready { IsReady client.old }
    // Nothing is said but the Connect.
    ensures talked { (said : List Saying) × Talked false (R.remaining reader.old)
        (R.remaining reader.new) (W.contents writer.old) (W.contents writer.new) client.old said
        client.new × ((said ≡ []) ⊎ (said ≡ Opens connect.now ∷ []))
        × OnOk result (said ≡ Opens connect.now ∷ []) }
    ensures answered { OnOk result (IsAnswered client.new.state.events) }
    ensures takes { IfOk result (λ c. c ≡ capabilities_in client.new.state.events) }
    ensures limit { OnOk result
        (client.new.codec ≡ codec_after client.new.state.events client.old.codec) }
    // So another call may follow.
    ensures ready { OnOk result (IsReady client.new) }
{
    if !client.state.events().is_empty() {
        return Err(TalkError::OutOfTurn);
    }
    client.codec.write(connect, &mut client.output)?;
    client.disconnected = false;
    start_in_words(client, reader, writer)
}

/// Writes what is in the output, and takes turns until the ConnAck. A refusal has its reason string.
fn start_in_words<R: Read, W: Write>(
    client: &mut Client,
    reader: &mut R,
    writer: &mut W,
) -> Result<Capabilities, TalkError>
    requires ready { IsReady client.old }
    requires none { client.old.state.events ≡ [] }
    ensures talked { Talked false (R.remaining reader.old) (R.remaining reader.new)
        (W.contents writer.old) (W.contents writer.new) client.old [] client.new }
    ensures answered { OnOk result (IsAnswered client.new.state.events) }
    ensures takes { IfOk result (λ c. c ≡ capabilities_in client.new.state.events) }
    ensures limit { OnOk result
        (client.new.codec ≡ codec_after client.new.state.events client.old.codec) }
    ensures ready { OnOk result (IsReady client.new) }
{
    match start(client, reader, writer) {
        Err(TalkError::Refused(reason, text)) => {
            drop(text);
            Err(TalkError::Refused(reason, take_reason(client)))
        }
        other => other,
    }
}

/// Takes all events out, and answers the reason string of the last that is a ConnAck.
fn take_reason(client: &mut Client) -> ReasonText
    ensures talks { Conversation client.old [] [] [] client.new }
{
    let mut reason = ReasonText { text: None };
    for _ in 0..u64::MAX {
        if client.state.events().is_empty() {
            break;
        }
        reason = next_reason(client).unwrap_or(reason);
    }
    reason
}

/// Takes the oldest event out, and answers its reason string where it is a ConnAck.
fn next_reason(client: &mut Client) -> Option<ReasonText>
    ensures talks { Conversation client.old [] [] [] client.new }
{
    match client.state.pop_event() {
        Some(Event::Incoming(Packet::ConnAck(ack))) => Some(reason_in!(ack.properties)),
        Some(other) => {
            drop(other);
            None
        }
        None => None,
    }
}

/// Writes what is in the output, and takes turns until the ConnAck.
fn start<R: Read, W: Write>(
    client: &mut Client,
    reader: &mut R,
    writer: &mut W,
) -> Result<Capabilities, TalkError>
    requires ready { IsReady client.old }
    requires none { client.old.state.events ≡ [] }
    ensures talked { Talked false (R.remaining reader.old) (R.remaining reader.new)
        (W.contents writer.old) (W.contents writer.new) client.old [] client.new }
    ensures answered { OnOk result (IsAnswered client.new.state.events) }
    ensures takes { IfOk result (λ c. c ≡ capabilities_in client.new.state.events) }
    ensures limit { OnOk result
        (client.new.codec ≡ codec_after client.new.state.events client.old.codec) }
    ensures ready { OnOk result (IsReady client.new) }
{
    send(client, writer)?;
    await_answer(client, reader, writer)
}

/// Takes turns until the ConnAck.
fn await_answer<R: Read, W: Write>(
    client: &mut Client,
    reader: &mut R,
    writer: &mut W,
) -> Result<Capabilities, TalkError>
    requires ready { IsReady client.old }
    requires none { client.old.state.events ≡ [] }
    ensures talked { Talked false (R.remaining reader.old) (R.remaining reader.new)
        (W.contents writer.old) (W.contents writer.new) client.old [] client.new }
    ensures answered { OnOk result (IsAnswered client.new.state.events) }
    ensures takes { IfOk result (λ c. c ≡ capabilities_in client.new.state.events) }
    ensures limit { OnOk result
        (client.new.codec ≡ codec_after client.new.state.events client.old.codec) }
    ensures ready { OnOk result (IsReady client.new) }
{
    for _ in 0..u64::MAX {
        hear(client, reader, writer)?;
        if let Some(capabilities) = answer_in(&client.state)? {
            return Ok(capabilities);
        }
    }
    Err(endless())
}

/// What the ConnAck says, where it came.
fn answer_in(state: &MqttState) -> Result<Option<Capabilities>, TalkError>
    ensures answered { IfOk result (λ found. IfSome found (λ c. IsAnswered state.now.events
        × (c ≡ capabilities_in state.now.events))) }
    ensures none { result ≡ Ok None → state.now.events ≡ [] }
{
    match state.events().front() {
        None => Ok(None),
        Some(Event::Incoming(Packet::ConnAck(ack))) => Ok(Some(Capabilities::of(ack))),
        Some(_other) => Err(TalkError::OutOfTurn),
    }
}

/// The end of a talk after 2^64 - 1 turns: `Failed` of a read that took too long (`TimedOut`).
pub fn endless() -> TalkError
    ensures { (error : IoError) × (result ≡ Failed (faults.Read error)) }
{
    TalkError::Failed(PipeError::Read(ErrorKind::TimedOut.into()))
}

/// Takes a turn; `Closed` at the end of the stream.
pub(crate) fn hear<R: Read, W: Write>(
    client: &mut Client,
    reader: &mut R,
    writer: &mut W,
) -> Result<(), TalkError>
    requires ready { IsReady client.old }
    ensures talked { Talked false (R.remaining reader.old) (R.remaining reader.new)
        (W.contents writer.old) (W.contents writer.new) client.old [] client.new }
    ensures codec { client.new.codec ≡ codec_since client.old client.new }
    ensures ready { IsReady client.new }
{
    match turn(client, 0, reader, writer) {
        Ok(0) => Err(TalkError::Closed),
        Ok(_count) => Ok(()),
        Err(fault) => Err(TalkError::from(fault)),
    }
}

/// Takes a turn; with `pings` a PingReq is sent where it read in vain for as long as the reader waits.
pub(crate) fn hear_or_ping<R: Read, W: Write>(
    client: &mut Client,
    pings: bool,
    reader: &mut R,
    writer: &mut W,
) -> Result<(), TalkError>
    requires ready { IsReady client.old }
    ensures talked { Talked pings (R.remaining reader.old) (R.remaining reader.new)
        (W.contents writer.old) (W.contents writer.new) client.old [] client.new }
    ensures ready { OnOk result (IsReady client.new) }
{
    match hear(client, reader, writer) {
        Err(trouble) if pings && is_wait(&trouble) => {
            drop(trouble);
            ask(client, Request::PingReq, writer)
        }
        heard => heard,
    }
}

/// Whether the reader waited in vain.
fn is_wait(trouble: &TalkError) -> bool {
    match trouble {
        TalkError::Failed(PipeError::Read(error)) => error.kind() == ErrorKind::WouldBlock,
        _other => false,
    }
}

/// Writes the output.
pub(crate) fn send<W: Write>(client: &mut Client, writer: &mut W) -> Result<(), TalkError>
    ensures told { SendsOnly (W.contents writer.old) (W.contents writer.new) client.old []
        client.new }
    ensures kept { client.new ≡ record client.old { output = client.new.output } }
    ensures whole { OnOk result (client.new.output.items ≡ []) }
    ensures ready { IsReady client.old → IsReady client.new }
{
    match write_output(client, writer) {
        Ok(()) => Ok(()),
        Err(fault) => Err(TalkError::from(fault)),
    }
}

/// Hands a request in, and sends nothing: what the session answers stays in the output. `Failed` where the session refuses it.
pub fn hand_in(client: &mut Client, request: Request) -> Result<(), TalkError>
    requires { IsReady client.old }
    // Nothing is said but that.
    ensures said { Conversation client.old (Asks request ∷ []) [] [] client.new }
    // So another call may follow.
    ensures ready { IsReady client.new }
{
    match client.request(request, 0) {
        Ok(()) => Ok(()),
        Err(fault) => Err(TalkError::from(PipeError::from(fault))),
    }
}

/// Asks the session for one thing, and writes what it answers.
pub(crate) fn ask<W: Write>(
    client: &mut Client,
    wanted: Request,
    writer: &mut W,
) -> Result<(), TalkError>
    requires ready { IsReady client.old }
    ensures told { SendsOnly (W.contents writer.old) (W.contents writer.new) client.old
        (Asks wanted ∷ []) client.new }
    ensures whole { OnOk result (client.new.output.items ≡ []) }
    ensures ready { OnOk result (IsReady client.new) }
{
    hand_in(client, wanted)?;
    send(client, writer)
}

/// Ends the connection by a Disconnect: the broker then forgets the will. `Failed`, as of a request and of a write.
pub fn close<W: Write>(client: &mut Client, writer: &mut W) -> Result<(), TalkError>
    requires ready { IsReady client.old }
    // Nothing is said but the Disconnect.
    ensures told { SendsOnly (W.contents writer.old) (W.contents writer.new) client.old
        (Asks Disconnect ∷ []) client.new }
    // All is written.
    ensures written { OnOk result (client.new.output.items ≡ []) }
    // So another call may follow.
    ensures ready { OnOk result (IsReady client.new) }
{
    ask(client, Request::Disconnect, writer)
}

/// Reads to the end of the stream, and lets go what comes: after a Disconnect the broker closes the connection (3.14.4),
/// and a socket that is closed with bytes unread may take back what was written last. The reader is called again after an
/// interruption. `Failed` is its failure (`Read`), also (`TimedOut`) after 2^64 - 1 reads.
pub fn await_end<R: Read>(reader: &mut R) -> Result<(), TalkError>
    ensures came { (came : List ℕ)
        × Consumes (R.remaining reader.old) (R.remaining reader.new) came }
    ensures end { OnOk result (IsAtEnd (R.remaining reader.new)) }
    ensures fault { IfErr result (λ trouble.
        (error : IoError) × (trouble ≡ Failed (faults.Read error))) }
{
    let mut room = [0; 1024];
    for _ in 0..u64::MAX {
        match reader.read(&mut room) {
            Ok(0) => return Ok(()),
            Ok(_count) => {}
            Err(error) if error.kind() == ErrorKind::Interrupted => {}
            Err(error) => return Err(TalkError::Failed(PipeError::Read(error))),
        }
    }
    Err(endless())
}
