//! A client that subscribes, and keeps its session over the end of the process.

ghost use Rattle.std.specs.Prelude.{◌≡◌, [], OnOk};
ghost use Rattle.mqtt5_client.specs.Client.{IsReady};

use crate::framed::Framed;
use crate::keeping::Keeper;
use crate::kept_talk::hear;
use mqtt5_client::{Client, Event, Request};
use mqtt5_codec::Packet;
use mqtt5_publish::{PubRec, Publish};
use mqtt5_talk::{Screen, TalkError, ack_for, endless, hand_in, is_granted};
use std::io::{Read, Write};
use std::rt::Files;

/// Answers anew a message of QoS 2 that comes again, under this identifier, and was shown: the broker doesn't know of the first
/// answer, and a session tells of the message but once (MQTT 5.0 section 4.3.3). Where the session told of it, or doesn't have it,
/// nothing is answered. The answer stays in the output. `Failed` as of a request.
fn answer_again(client: &mut Client, came: Option<u16>) -> Result<(), TalkError>
    requires { IsReady client.old }
    ensures ready { IsReady client.new }
{
    match came {
        Some(id) if client.state.events().is_empty() && client.state.incoming_pub(id) => {
            hand_in(client, Request::PubRec(PubRec::new(id, None)))
        }
        _other => Ok(()),
    }
}

/// Shows each message that comes, as `receive` of `mqtt5_talk` does, but that the session is kept before its answer is sent, and
/// after it was shown. So where the process ends in between, this one alone is shown again. One of QoS 2 that comes again and was
/// shown is answered alone. The reader gives one packet at a time, since a session isn't kept while another message waits to be
/// shown. Faults as of `receive`, and those of `Keeper::keep`.
pub(super) fn receive_kept<F: Files + AllocGlobal, R: Read, W: Write, S: Screen>(
    keeper: &Keeper<'_, F>,
    client: &mut Client,
    screen: &mut S,
    count: u64,
    pings: bool,
    reader: &mut Framed<R>,
    writer: &mut W,
) -> Result<(), TalkError>
    requires { IsReady client.old }
    ensures ready { OnOk result (IsReady client.new) }
{
    let mut left = count;
    for _ in 0..u64::MAX {
        left = show_events(client, screen, left)?;
        keeper.send(client, 0, writer)?;
        if left == 0 {
            return Ok(());
        }
        hear(client, pings, reader)?;
        answer_again(client, reader.take_came())?;
    }
    Err(endless())
}

/// Takes all events out, shows those that are messages, and answers how many are still to come. Faults as of `show` and
/// `is_granted`.
fn show_events<S: Screen>(client: &mut Client, screen: &mut S, count: u64) -> Result<u64, TalkError>
    requires { IsReady client.old }
    ensures ready { IsReady client.new }
{
    let mut left = count;
    for _ in 0..u64::MAX {
        match client.next_event() {
            Some(Event::Incoming(Packet::Publish(publish))) => {
                let shown = show(client, &publish, screen);
                drop(publish);
                left = left.saturating_sub(shown?);
            }
            Some(event) => {
                is_granted(event)?;
            }
            None => break,
        }
    }
    Ok(left)
}

/// Shows a message, and answers it; answers 1 where it is one that is to be shown. `Unshown`, and `Failed` as of a request.
fn show<S: Screen>(client: &mut Client, publish: &Publish, screen: &mut S) -> Result<u64, TalkError>
    requires { IsReady client.old }
    ensures ready { IsReady client.new }
{
    let is_shown = screen.show(publish)?;
    if let Some(answer) = ack_for(publish) {
        hand_in(client, answer)?;
    }
    Ok(is_shown as u64)
}

/// Awaits so many SubAcks and UnsubAcks, and lets go what else comes. Nothing is sent, and what was to be answered is let go
/// too: none of it is kept, so it comes again. `NotSubscribed` and `NotUnsubscribed` where one refuses a filter, `Ended`,
/// `Closed`; `Failed`, as of a read and of what came, and where an Auth comes, for which no talk asks.
pub(super) fn await_kept<R: Read>(
    client: &mut Client,
    count: u64,
    reader: &mut R,
) -> Result<(), TalkError>
    requires { IsReady client.old }
    ensures unsent { OnOk result (client.new.output.items ≡ []) }
    ensures ready { IsReady client.new }
{
    let mut left = count;
    for _ in 0..u64::MAX {
        left = left.saturating_sub(take_answers(client)?);
        if left == 0 {
            client.output.clear();
            return Ok(());
        }
        hear(client, false, reader)?;
    }
    Err(endless())
}

/// Takes all events out, and answers how many SubAcks and UnsubAcks are among them.
fn take_answers(client: &mut Client) -> Result<u64, TalkError>
    requires { IsReady client.old }
    ensures ready { IsReady client.new }
{
    let mut count: u64 = 0;
    for _ in 0..u64::MAX {
        match client.next_event() {
            Some(event) => count = count.saturating_add(is_granted(event)? as u64),
            None => break,
        }
    }
    Ok(count)
}
