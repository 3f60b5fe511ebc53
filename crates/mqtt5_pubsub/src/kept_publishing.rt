//! A client that publishes, and keeps its session over the end of the process.

ghost use Rattle.std.specs.Prelude.{◌≡◌, OnOk, None};
ghost use Rattle.std.specs.FinMap as map;
ghost use Rattle.mqtt5_client.specs.Client.{IsReady};

use crate::keeping::Keeper;
use crate::kept_talk::hear;
use mqtt5_client::Client;
use mqtt5_publish::Publish;
use mqtt5_talk::{Capabilities, Source, TalkError, endless, hand_allowed, take_refusal};
use std::io::{Read, Write};
use std::rt::Files;

/// How many bytes of messages are held back at most, to be written together.
const ENOUGH: usize = 65_536;

/// One message.
#[derive(Drop)]
pub(super) struct Once {
    pub(super) message: Option<Publish>,
}

impl Source for Once {
    ghost gives = { λ old message new. (message ≡ old.message) × (new.message ≡ None) };

    fn is_late(&self) -> bool {
        false
    }

    fn next(&mut self, _pkid: u16) -> Result<Option<Publish>, TalkError> {
        Ok(self.message.take())
    }
}

/// Leaves out so many messages of a source, which were taken before, or all where it has fewer. Faults are those of the source.
pub(super) fn skip<S: Source>(source: &mut S, taken: u64) -> Result<(), TalkError> {
    for _ in 0..taken {
        match source.next(0)? {
            Some(message) => drop(message),
            None => return Ok(()),
        }
    }
    Ok(())
}

/// Sends the messages of a source in order, as `publish_all` of `mqtt5_talk` does, but that each is kept, with how many were
/// taken, before it is sent. In the end nothing awaits an ack, and that is kept. Faults as of `publish_all`, and those of
/// `Keeper::keep`. A message that the broker refuses is no longer kept then. Where the source has a
/// fault, or the next message is one that can't be sent, those before it are kept and sent, and it isn't taken.
pub(super) fn publish_kept<F: Files + AllocGlobal, R: Read, W: Write, S: Source>(
    keeper: &Keeper<'_, F>,
    client: &mut Client,
    capabilities: Capabilities,
    source: &mut S,
    taken: u64,
    pings: bool,
    reader: &mut R,
    writer: &mut W,
) -> Result<(), TalkError>
    requires { IsReady client.old }
    ensures delivered { OnOk result (map.len client.new.state.core.in_use ≡ 0) }
    ensures ready { OnOk result (IsReady client.new) }
{
    let mut taken = taken;
    let mut is_out = false;
    for _ in 0..u64::MAX {
        let more = take_more(client, capabilities, source, is_out, &mut taken);
        send_kept(keeper, client, taken, writer)?;
        is_out = more?;
        if is_out && client.state.inflight() == 0 {
            return keeper.keep(client, taken);
        }
        hear_acks(client, source, is_out, pings, reader)?;
    }
    Err(endless())
}

/// Takes messages, unless the source has none left; answers whether it has none. Faults as of `take_messages`.
fn take_more<S: Source>(
    client: &mut Client,
    capabilities: Capabilities,
    source: &mut S,
    is_out: bool,
    taken: &mut u64,
) -> Result<bool, TalkError>
    requires { IsReady client.old }
    ensures ready { IsReady client.new }
{
    if is_out {
        return Ok(true);
    }
    take_messages(client, capabilities, source, taken)
}

/// Reads where something awaits its ack, and nothing else is to be done. Faults as of `hear`.
fn hear_acks<R: Read, S: Source>(
    client: &mut Client,
    source: &S,
    is_out: bool,
    pings: bool,
    reader: &mut R,
) -> Result<(), TalkError>
    requires { IsReady client.old }
    ensures ready { IsReady client.new }
{
    if client.state.inflight() == 0 {
        return Ok(());
    }
    if !is_out && has_room(client) && !source.is_late() {
        return Ok(());
    }
    hear(client, pings, reader)
}

/// Takes all events out, keeps and sends. A message that the broker refuses is no longer kept (`NotPublished`), and then nothing
/// is sent. Else faults as of `Keeper::send`; `Failed` also of an Auth.
fn send_kept<F: Files + AllocGlobal, W: Write>(
    keeper: &Keeper<'_, F>,
    client: &mut Client,
    taken: u64,
    writer: &mut W,
) -> Result<(), TalkError>
    ensures ready { IsReady client.old → IsReady client.new }
{
    match take_refusal(client) {
        Some(refusal) => {
            keeper.keep(client, taken)?;
            Err(refusal)
        }
        None => keeper.send(client, taken, writer),
    }
}

/// Takes messages as long as the next identifier is free, and the source has one at hand or nothing else is to be done. Answers
/// whether there is none left. Faults as of `hand_allowed`, and those of the source; what was taken before stays in the output.
fn take_messages<S: Source>(
    client: &mut Client,
    capabilities: Capabilities,
    source: &mut S,
    taken: &mut u64,
) -> Result<bool, TalkError>
    requires { IsReady client.old }
    ensures ready { IsReady client.new }
{
    for _ in 0..u64::MAX {
        if client.output.len() >= ENOUGH
            || !has_room(client)
            || (is_busy(client) && source.is_late())
        {
            return Ok(false);
        }
        let Some(message) = source.next(client.next_id())? else {
            return Ok(true);
        };
        hand_allowed(client, capabilities, message)?;
        *taken = taken.saturating_add(1);
    }
    Ok(false)
}

/// Whether something is to be sent, or awaits its ack.
fn is_busy(client: &Client) -> bool {
    client.state.inflight() > 0 || !client.output().is_empty()
}

/// Whether the next identifier is free.
fn has_room(client: &Client) -> bool {
    let id = client.next_id();
    client.state.outgoing_pub(id).is_none() && !client.state.outgoing_rel(id)
}
