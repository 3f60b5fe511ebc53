//! How messages are published.

ghost use Rattle.std.specs.Prelude.{◌≡◌, List, [], ◌∷◌, None, All, OnOk};
ghost use Rattle.std.specs.FinMap as map;
ghost use Rattle.mqtt5_publish.specs.declared.publish.Publish.{Publish as Message};
ghost use Rattle.mqtt5_client.specs.Client.{IsReady};
ghost use Rattle.mqtt5_talk.specs.Capabilities.{forbidden_message};
ghost use Rattle.mqtt5_talk.specs.Conversation.{Conversation, Talked, SendsOnly};
ghost use Rattle.mqtt5_talk.specs.Answers.{refusal_in, refusal_by};
ghost use Rattle.mqtt5_talk.specs.Published.{asks_of, asks_of_all, Gave, GivesOut};

use crate::capabilities::Capabilities;
use crate::error::{TalkError, unasked};
use crate::opening::{endless, hand_in, hear_or_ping, send};
use crate::reason::{ReasonText, reason_in};
use crate::source::Source;
use mqtt5_base::AckProperties;
use mqtt5_client::{Client, Event, Request};
use mqtt5_codec::Packet;
use mqtt5_publish::{PubAckReason, Publish};
use std::io::{Read, Write};

/// How many bytes of messages are held back at most, to be written together.
const ENOUGH: usize = 65_536;

/// Sends a message, and takes turns until it is delivered: of QoS 0 none, of QoS 1 until its PubAck, of QoS 2
/// until its PubComp; and so until no id is in use. With `pings` a PingReq is sent each time that the reader waited in vain
/// (its read ends in `WouldBlock`, as that of a socket with a limit on waiting), so that the connection is kept alive
/// (MQTT 5.0 section 3.1.2.10). `Forbidden` where the ConnAck says that the broker doesn't take it,
/// `NotPublished` where the PubAck or the PubRec is a refusal, `Ended`, `Closed`; `Failed`, as of a request, of a write
/// and of a turn, and of a ping whose last one isn't answered.
pub fn publish<R: Read, W: Write>(
    client: &mut Client,
    capabilities: Capabilities,
    message: Publish,
    pings: bool,
    reader: &mut R,
    writer: &mut W,
) -> Result<(), TalkError>
    requires ready { IsReady client.old }
    // Nothing is said but the message, and that only where the ConnAck allows it, and pings.
    ensures talked { Talked pings (R.remaining reader.old) (R.remaining reader.new)
        (W.contents writer.old) (W.contents writer.new) client.old (asks_of capabilities message)
        client.new }
    ensures allowed { OnOk result (forbidden_message capabilities message ≡ None) }
    // All is written, and nothing awaits an ack.
    ensures written { OnOk result (client.new.output.items ≡ []) }
    ensures delivered { OnOk result (map.len client.new.state.core.in_use ≡ 0) }
    // So another call may follow.
    ensures ready { OnOk result (IsReady client.new) }
{
    hand_allowed(client, capabilities, message)?;
    await_acks(client, pings, reader, writer)
}

/// Sends the messages of a source in order, as many ahead of their acks as the session has identifiers and the broker
/// takes, and takes turns until all are delivered, as `publish` does. Messages that the source has at hand are written
/// together. Where the source is late, what was sent is delivered before it is asked for more. Faults as of `publish`, of
/// the first message that has one, and those of the source.
pub fn publish_all<R: Read, W: Write, S: Source>(
    client: &mut Client,
    capabilities: Capabilities,
    source: &mut S,
    pings: bool,
    reader: &mut R,
    writer: &mut W,
) -> Result<(), TalkError>
    requires ready { IsReady client.old }
    // Nothing is said but the source's messages, in order, and each only where the ConnAck allows
    // it, and pings; in the end those are all that the source has, and each is allowed.
    ensures talked { (ms : List Message) × Talked pings (R.remaining reader.old)
        (R.remaining reader.new) (W.contents writer.old) (W.contents writer.new) client.old
        (asks_of_all capabilities ms) client.new
        × Gave S.gives source.old ms
        × OnOk result (GivesOut S.gives source.old ms source.new
        × All (λ m. forbidden_message capabilities m ≡ None) ms) }
    // All is written, and nothing awaits an ack.
    ensures written { OnOk result (client.new.output.items ≡ []) }
    ensures delivered { OnOk result (map.len client.new.state.core.in_use ≡ 0) }
    // So another call may follow.
    ensures ready { OnOk result (IsReady client.new) }
{
    match publish_each(client, capabilities, source, pings, reader, writer) {
        Ok(()) => Ok(()),
        Err(trouble) => {
            let _ = send(client, writer);
            Err(trouble)
        }
    }
}

/// The same, but that after a fault messages before it may be unwritten.
fn publish_each<R: Read, W: Write, S: Source>(
    client: &mut Client,
    capabilities: Capabilities,
    source: &mut S,
    pings: bool,
    reader: &mut R,
    writer: &mut W,
) -> Result<(), TalkError>
    requires ready { IsReady client.old }
    ensures talked { (ms : List Message) × Talked pings (R.remaining reader.old)
        (R.remaining reader.new) (W.contents writer.old) (W.contents writer.new) client.old
        (asks_of_all capabilities ms) client.new
        × Gave S.gives source.old ms
        × OnOk result (GivesOut S.gives source.old ms source.new
        × All (λ m. forbidden_message capabilities m ≡ None) ms) }
    ensures written { OnOk result (client.new.output.items ≡ []) }
    ensures delivered { OnOk result (map.len client.new.state.core.in_use ≡ 0) }
    ensures ready { OnOk result (IsReady client.new) }
{
    for _ in 0..u64::MAX {
        make_room(client, source.is_late(), pings, reader, writer)?;
        let Some(message) = source.next(client.next_id())? else {
            return await_acks(client, pings, reader, writer);
        };
        hand_allowed(client, capabilities, message)?;
    }
    Err(endless())
}

/// Hands a message in, unless the ConnAck forbids it (`Forbidden`), and sends nothing. `Failed` where the session refuses it.
pub fn hand_allowed(
    client: &mut Client,
    capabilities: Capabilities,
    message: Publish,
) -> Result<(), TalkError>
    requires ready { IsReady client.old }
    // Nothing is said but the message, and that only where the ConnAck allows it.
    ensures said { Conversation client.old (asks_of capabilities message) [] [] client.new }
    ensures allowed { OnOk result (forbidden_message capabilities message ≡ None) }
    // So another call may follow.
    ensures ready { IsReady client.new }
{
    match capabilities.forbidden_message(&message) {
        Some(why) => {
            drop(message);
            Err(TalkError::Forbidden(why))
        }
        None => hand_in(client, Request::Publish(message)),
    }
}

/// Writes the output where all is to be delivered, or where it is much.
fn send_enough<W: Write>(
    client: &mut Client,
    delivers: bool,
    writer: &mut W,
) -> Result<(), TalkError>
    requires ready { IsReady client.old }
    ensures told { SendsOnly (W.contents writer.old) (W.contents writer.new) client.old []
        client.new }
    ensures ready { IsReady client.new }
{
    if delivers || client.output.len() >= ENOUGH {
        return send(client, writer);
    }
    Ok(())
}

/// Takes turns until the next identifier is free, or where all is to be delivered, until none is in use.
fn make_room<R: Read, W: Write>(
    client: &mut Client,
    delivers: bool,
    pings: bool,
    reader: &mut R,
    writer: &mut W,
) -> Result<(), TalkError>
    requires ready { IsReady client.old }
    ensures talked { Talked pings (R.remaining reader.old) (R.remaining reader.new)
        (W.contents writer.old) (W.contents writer.new) client.old [] client.new }
    ensures ready { OnOk result (IsReady client.new) }
{
    if let Some(refusal) = take_refusal(client) {
        return Err(refusal);
    }
    send_enough(client, delivers, writer)?;
    for _ in 0..u64::MAX {
        if has_room(client, delivers) {
            return Ok(());
        }
        hear_acks(client, pings, reader, writer)?;
    }
    Err(endless())
}

/// Whether the next identifier is free, or where all is to be delivered, none is in use.
fn has_room(client: &Client, delivers: bool) -> bool {
    if delivers {
        return client.state.inflight() == 0;
    }
    let id = client.next_id();
    client.state.outgoing_pub(id).is_none() && !client.state.outgoing_rel(id)
}

/// Takes turns until no id is in use. In the end all of the output is written.
fn await_acks<R: Read, W: Write>(
    client: &mut Client,
    pings: bool,
    reader: &mut R,
    writer: &mut W,
) -> Result<(), TalkError>
    requires ready { IsReady client.old }
    ensures talked { Talked pings (R.remaining reader.old) (R.remaining reader.new)
        (W.contents writer.old) (W.contents writer.new) client.old [] client.new }
    ensures written { OnOk result (client.new.output.items ≡ []) }
    ensures delivered { OnOk result (map.len client.new.state.core.in_use ≡ 0) }
    ensures ready { OnOk result (IsReady client.new) }
{
    for _ in 0..u64::MAX {
        if client.state.inflight() == 0 {
            return send(client, writer);
        }
        hear_acks(client, pings, reader, writer)?;
    }
    Err(endless())
}

/// Writes the output, and takes a turn. A refusal of a message comes before a fault of the turn.
fn hear_acks<R: Read, W: Write>(
    client: &mut Client,
    pings: bool,
    reader: &mut R,
    writer: &mut W,
) -> Result<(), TalkError>
    requires ready { IsReady client.old }
    ensures talked { Talked pings (R.remaining reader.old) (R.remaining reader.new)
        (W.contents writer.old) (W.contents writer.new) client.old [] client.new }
    ensures ready { OnOk result (IsReady client.new) }
{
    send(client, writer)?;
    let heard = hear_or_ping(client, pings, reader, writer);
    match take_refusal(client) {
        Some(refusal) => Err(refusal),
        None => heard,
    }
}

/// Takes all events out, and answers the first refusal of a message among them, or that an Auth came, for which no talk asks.
pub fn take_refusal(client: &mut Client) -> Option<TalkError>
    // Nothing is said.
    ensures talks { Conversation client.old [] [] [] client.new }
    ensures ready { IsReady client.old → IsReady client.new }
{
    let mut refusal = None;
    for _ in 0..u64::MAX {
        if client.state.events().is_empty() {
            break;
        }
        refusal = refusal.or(next_refusal(client));
    }
    refusal
}

/// Takes the oldest event out, and answers its refusal.
fn next_refusal(client: &mut Client) -> Option<TalkError>
    ensures talks { Conversation client.old [] [] [] client.new }
    ensures ready { IsReady client.old → IsReady client.new }
{
    match client.state.pop_event() {
        Some(event) => refusal_in(event),
        None => None,
    }
}

/// Why a message is refused, where the event says so; or that an Auth came, for which no talk asks.
fn refusal_in(event: Event) -> Option<TalkError>
    ensures { result ≡ refusal_in event }
{
    match event {
        Event::Incoming(Packet::PubAck(ack)) => refusal_by(ack.pkid, ack.reason, ack.properties),
        Event::Incoming(Packet::PubRec(ack)) => refusal_by(ack.pkid, ack.reason, ack.properties),
        Event::Incoming(Packet::Auth(auth)) => Some(unasked(auth)),
        other => {
            drop(other);
            None
        }
    }
}

fn refusal_by(
    pkid: u16,
    reason: PubAckReason,
    properties: Option<AckProperties>,
) -> Option<TalkError>
    ensures { result ≡ refusal_by pkid reason properties }
{
    match reason {
        PubAckReason::Success | PubAckReason::NoMatchingSubscribers => {
            drop(properties);
            None
        }
        _other => Some(TalkError::NotPublished {
            pkid,
            reason,
            text: reason_in!(properties),
        }),
    }
}
