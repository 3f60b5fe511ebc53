//! How subscriptions are made and ended, and what comes is shown.

ghost use Rattle.std.specs.Prelude.{◌≡◌, ◌⊎◌, ◌+◌, ◌≤◌, List, [], ◌∷◌, OnOk, IfOk, IfNone, All};
ghost use Rattle.std.specs.Bool.{Decides};
ghost use Rattle.mqtt5_publish.specs.declared.publish.Publish.{Publish as Message};
ghost use Rattle.mqtt5_inflight.specs.declared.event.Request.TheVariants as requests;
ghost use Rattle.mqtt5_client.specs.Client.{IsReady};
ghost use Rattle.mqtt5_talk.specs.Capabilities.{IsPermitted};
ghost use Rattle.mqtt5_talk.specs.Conversation.{Saying, Asks, Conversation, Talked, SendsOnly};
ghost use Rattle.mqtt5_talk.specs.Answers.{ack_of, acks_of, asked_by, is_answer, ShowsAll, Showed, Acknowledges};
ghost use Rattle.mqtt5_talk.specs.Answers.{IsSuccess, IsEnded, IsGranted};

use crate::capabilities::Capabilities;
use crate::error::{TalkError, unasked};
use crate::opening::{ask, endless, hear_or_ping};
use crate::reason::{ReasonText, reason_in};
use crate::show::Screen;
use mqtt5_base::QoS;
use mqtt5_client::{Client, Event, Request};
use mqtt5_codec::Packet;
use mqtt5_control::Auth;
use mqtt5_publish::{PubAck, PubRec, Publish};
use mqtt5_subscribe::{
    SubAck, Subscribe, SubscribeReasonCode, UnsubAck, UnsubAckReason, Unsubscribe,
};
use std::io::{Read, Write};

/// Sends a Subscribe. Its SubAck is judged by `receive` and `await_subscribed`. `Forbidden` where the ConnAck says that the
/// broker doesn't take it, and nothing is sent; `Failed`, as of a request and of a write.
pub fn subscribe<W: Write>(
    client: &mut Client,
    capabilities: Capabilities,
    subscribe: Subscribe,
    writer: &mut W,
) -> Result<(), TalkError>
    requires ready { IsReady client.old }
    // Nothing is said but the Subscribe, and that only where the ConnAck allows it.
    ensures told { (said : List Saying) × SendsOnly (W.contents writer.old) (W.contents writer.new)
        client.old said client.new
        × ((said ≡ []) ⊎ ((said ≡ Asks (requests.Subscribe subscribe) ∷ [])
        × IsPermitted capabilities subscribe))
        × OnOk result (said ≡ Asks (requests.Subscribe subscribe) ∷ []) }
    // All is written.
    ensures written { OnOk result (client.new.output.items ≡ []) }
    // So another call may follow.
    ensures ready { OnOk result (IsReady client.new) }
{
    match capabilities.check_subscribe(&subscribe) {
        Ok(()) => ask(client, Request::Subscribe(subscribe), writer),
        Err(why) => {
            drop(subscribe);
            Err(TalkError::Forbidden(why))
        }
    }
}

/// Sends an Unsubscribe. Its UnsubAck is judged as a SubAck is. `Failed`, as of a request and of a write.
pub fn unsubscribe<W: Write>(
    client: &mut Client,
    unsubscribe: Unsubscribe,
    writer: &mut W,
) -> Result<(), TalkError>
    requires ready { IsReady client.old }
    // Nothing is said but the Unsubscribe.
    ensures told { SendsOnly (W.contents writer.old) (W.contents writer.new) client.old
        (Asks (requests.Unsubscribe unsubscribe) ∷ []) client.new }
    // All is written.
    ensures written { OnOk result (client.new.output.items ≡ []) }
    // So another call may follow.
    ensures ready { OnOk result (IsReady client.new) }
{
    ask(client, Request::Unsubscribe(unsubscribe), writer)
}

/// Takes turns until so many SubAcks and UnsubAcks came. What else comes is let go: a message is neither shown nor
/// acknowledged, so in a session that is kept one of QoS 1 or 2 comes again. The client's session must leave the acks to
/// the user. `pings` is as of `publish`. `NotSubscribed` and `NotUnsubscribed` where one refuses a filter, `Ended`,
/// `Closed`; `Failed`, as of a turn, and where an Auth comes, for which no talk asks.
pub fn await_subscribed<R: Read, W: Write>(
    client: &mut Client,
    count: u64,
    pings: bool,
    reader: &mut R,
    writer: &mut W,
) -> Result<(), TalkError>
    requires ready { IsReady client.old }
    // Nothing is said but pings.
    ensures talked { Talked pings (R.remaining reader.old) (R.remaining reader.new)
        (W.contents writer.old) (W.contents writer.new) client.old [] client.new }
    // So another call may follow.
    ensures ready { OnOk result (IsReady client.new) }
{
    let mut left = count;
    for _ in 0..u64::MAX {
        if left == 0 {
            return Ok(());
        }
        hear_event(client, pings, reader, writer)?;
        if is_subscribed(client)? {
            left -= 1;
        }
    }
    Err(endless())
}

/// Takes a turn where no event is there.
fn hear_event<R: Read, W: Write>(
    client: &mut Client,
    pings: bool,
    reader: &mut R,
    writer: &mut W,
) -> Result<(), TalkError>
    requires ready { IsReady client.old }
    ensures talked { Talked pings (R.remaining reader.old) (R.remaining reader.new)
        (W.contents writer.old) (W.contents writer.new) client.old [] client.new }
    ensures ready { OnOk result (IsReady client.new) }
{
    if client.state.events().is_empty() {
        return hear_or_ping(client, pings, reader, writer);
    }
    Ok(())
}

/// Takes the oldest event out, and answers whether it is a SubAck or an UnsubAck.
fn is_subscribed(client: &mut Client) -> Result<bool, TalkError>
    ensures talks { Conversation client.old [] [] [] client.new }
    ensures ready { IsReady client.old → IsReady client.new }
{
    match client.state.pop_event() {
        Some(event) => is_granted(event),
        None => Ok(false),
    }
}

/// Whether an event is a SubAck or an UnsubAck. `NotSubscribed` of a SubAck that refuses a filter, `NotUnsubscribed` of
/// such an UnsubAck; and `Failed` of an Auth, for which no talk asks.
pub fn is_granted(event: Event) -> Result<bool, TalkError>
    ensures granted { OnOk result (IsGranted event) }
    ensures answer { IfOk result (λ is. is ≡ is_answer event) }
{
    let is_answer = is_answer(&event);
    check_granted(event)?;
    Ok(is_answer)
}

/// Whether an event is a SubAck or an UnsubAck.
fn is_answer(event: &Event) -> bool
    ensures { result ≡ is_answer event.now }
{
    matches!(
        event,
        Event::Incoming(Packet::SubAck(_) | Packet::UnsubAck(_))
    )
}

/// Refuses an event that refuses a filter, and an Auth.
fn check_granted(event: Event) -> Result<(), TalkError>
    ensures { OnOk result (IsGranted event) }
{
    match event {
        Event::Incoming(Packet::SubAck(ack)) => {
            judge(ack)?;
            Ok(())
        }
        Event::Incoming(Packet::UnsubAck(ack)) => {
            judge_end(ack)?;
            Ok(())
        }
        Event::Incoming(Packet::Auth(auth)) => Err(unasked(auth)),
        other => {
            drop(other);
            Ok(())
        }
    }
}

/// Shows each message that came and comes, and then acknowledges it, until so many were shown. One that the screen doesn't
/// show is acknowledged too, and not counted. The client's session must leave the acks to the user. `pings` is as of
/// `publish`. `NotSubscribed` and `NotUnsubscribed` where a SubAck or an UnsubAck refuses a filter, `Unshown`, `Ended`,
/// `Closed`; `Failed`, as of a turn, and where an Auth comes, for which no talk asks. What came with a fault is shown and
/// not acknowledged.
pub fn receive<R: Read, W: Write, S: Screen>(
    client: &mut Client,
    screen: &mut S,
    count: u64,
    pings: bool,
    reader: &mut R,
    writer: &mut W,
) -> Result<(), TalkError>
    requires ready { IsReady client.old }
    // Nothing is said but the acks of messages that the screen was given, and pings; in the end
    // those are all that it was given, of which it showed so many.
    ensures talked { (ps : List Message) × Talked pings (R.remaining reader.old)
        (R.remaining reader.new) (W.contents writer.old) (W.contents writer.new) client.old
        (acks_of ps) client.new
        × Showed S.shows screen.old ps
        × OnOk result (ShowsAll S.shows screen.old ps count screen.new) }
    // So another call may follow.
    ensures ready { OnOk result (IsReady client.new) }
{
    let mut left = count;
    for _ in 0..u64::MAX {
        left = show_events(client, screen, left, writer)?;
        if left == 0 {
            return Ok(());
        }
        hear_messages(client, screen, left, pings, reader, writer)?;
    }
    Err(endless())
}

/// Takes a turn. After a fault it shows what came before that.
fn hear_messages<R: Read, W: Write, S: Screen>(
    client: &mut Client,
    screen: &mut S,
    count: u64,
    pings: bool,
    reader: &mut R,
    writer: &mut W,
) -> Result<(), TalkError>
    requires ready { IsReady client.old }
    ensures talked { Talked pings (R.remaining reader.old) (R.remaining reader.new)
        (W.contents writer.old) (W.contents writer.new) client.old [] client.new }
    ensures screen { OnOk result (screen.new ≡ screen.old) }
    ensures ready { OnOk result (IsReady client.new) }
{
    match hear_or_ping(client, pings, reader, writer) {
        Ok(()) => Ok(()),
        Err(trouble) => {
            show_rest(client, screen, count);
            Err(trouble)
        }
    }
}

/// Shows the messages among the events, and acknowledges none.
fn show_rest<S: Screen>(client: &Client, screen: &mut S, count: u64) {
    let mut left = count;
    for event in client.state.events() {
        if left > 0 && is_shown(event, screen) {
            left -= 1;
        }
    }
}

/// Shows an event that is a message, and answers whether it did.
fn is_shown<S: Screen>(event: &Event, screen: &mut S) -> bool {
    match event {
        Event::Incoming(Packet::Publish(publish)) => matches!(screen.show(publish), Ok(true)),
        _other => false,
    }
}

/// Takes events out until none is left or so many messages were shown, and answers how many are still to come.
fn show_events<W: Write, S: Screen>(
    client: &mut Client,
    screen: &mut S,
    count: u64,
    writer: &mut W,
) -> Result<u64, TalkError>
    requires ready { IsReady client.old }
    ensures told { Acknowledges S.shows (λ shown left. shown + left ≡ count) result
        (W.contents writer.old) (W.contents writer.new) client.old client.new screen.old
        screen.new }
    ensures ready { OnOk result (IsReady client.new) }
{
    let mut left = count;
    for _ in 0..u64::MAX {
        if left == 0 || client.state.events().is_empty() {
            break;
        }
        left -= take_first(client, screen, writer)?;
    }
    Ok(left)
}

/// Takes the oldest event out; answers 1 where it is a message that was shown, else 0.
fn take_first<W: Write, S: Screen>(
    client: &mut Client,
    screen: &mut S,
    writer: &mut W,
) -> Result<u64, TalkError>
    requires ready { IsReady client.old }
    ensures told { Acknowledges S.shows (λ shown n. shown ≡ n) result (W.contents writer.old)
        (W.contents writer.new) client.old client.new screen.old screen.new }
    ensures most { IfOk result (λ shown. shown ≤ 1) }
    ensures ready { OnOk result (IsReady client.new) }
{
    match client.state.pop_event() {
        Some(event) => take_event(client, event, screen, writer),
        None => Ok(0),
    }
}

fn take_event<W: Write, S: Screen>(
    client: &mut Client,
    event: Event,
    screen: &mut S,
    writer: &mut W,
) -> Result<u64, TalkError>
    requires ready { IsReady client.old }
    ensures told { Acknowledges S.shows (λ shown n. shown ≡ n) result (W.contents writer.old)
        (W.contents writer.new) client.old client.new screen.old screen.new }
    ensures most { IfOk result (λ shown. shown ≤ 1) }
    ensures ready { OnOk result (IsReady client.new) }
{
    match event {
        Event::Incoming(Packet::Publish(publish)) => {
            let taken = show(client, &publish, screen, writer);
            drop(publish);
            taken
        }
        Event::Incoming(Packet::SubAck(ack)) => judge(ack),
        Event::Incoming(Packet::UnsubAck(ack)) => judge_end(ack),
        Event::Incoming(Packet::Auth(auth)) => refuse_auth(auth),
        other => {
            drop(other);
            Ok(0)
        }
    }
}

/// An Auth is never awaited.
fn refuse_auth(auth: Auth) -> Result<u64, TalkError>
    ensures none { IfOk result (λ shown. shown ≡ 0) }
{
    Err(unasked(auth))
}

/// 0 where each filter has its subscription.
fn judge(ack: SubAck) -> Result<u64, TalkError>
    ensures none { IfOk result (λ shown. shown ≡ 0) }
    ensures granted { OnOk result (All IsSuccess ack.return_codes) }
{
    let SubAck {
        return_codes,
        properties,
        ..
    } = ack;
    let refusal = first_refusal(return_codes.as_slice());
    drop(return_codes);
    match refusal {
        Some(code) => Err(TalkError::NotSubscribed(code, reason_in!(properties))),
        None => {
            drop(properties);
            Ok(0)
        }
    }
}

fn first_refusal(codes: &[SubscribeReasonCode]) -> Option<SubscribeReasonCode>
    ensures { IfNone result (All IsSuccess codes.now) }
{
    for code in codes {
        if !is_success(*code) {
            return Some(*code);
        }
    }
    None
}

/// 0 where no filter has its subscription any more.
fn judge_end(ack: UnsubAck) -> Result<u64, TalkError>
    ensures none { IfOk result (λ shown. shown ≡ 0) }
    ensures ended { OnOk result (All IsEnded ack.reasons) }
{
    let UnsubAck {
        reasons,
        properties,
        ..
    } = ack;
    let refusal = first_left(reasons.as_slice());
    drop(reasons);
    match refusal {
        Some(reason) => Err(TalkError::NotUnsubscribed(reason, reason_in!(properties))),
        None => {
            drop(properties);
            Ok(0)
        }
    }
}

fn first_left(reasons: &[UnsubAckReason]) -> Option<UnsubAckReason>
    ensures { IfNone result (All IsEnded reasons.now) }
{
    for reason in reasons {
        if !is_ended(*reason) {
            return Some(*reason);
        }
    }
    None
}

fn is_ended(reason: UnsubAckReason) -> bool
    ensures { Decides result (IsEnded reason) }
{
    matches!(
        reason,
        UnsubAckReason::Success | UnsubAckReason::NoSubscriptionExisted
    )
}

fn is_success(code: SubscribeReasonCode) -> bool
    ensures { Decides result (IsSuccess code) }
{
    matches!(code, SubscribeReasonCode::Success(_))
}

/// Shows a message, and acknowledges it; answers 1 where it is one that is to be shown.
fn show<W: Write, S: Screen>(
    client: &mut Client,
    publish: &Publish,
    screen: &mut S,
    writer: &mut W,
) -> Result<u64, TalkError>
    requires ready { IsReady client.old }
    ensures told { Acknowledges S.shows (λ shown n. shown ≡ n) result (W.contents writer.old)
        (W.contents writer.new) client.old client.new screen.old screen.new }
    ensures most { IfOk result (λ shown. shown ≤ 1) }
    ensures ready { OnOk result (IsReady client.new) }
{
    let is_shown = screen.show(publish)?;
    acknowledge(client, publish, writer)?;
    Ok(is_shown as u64)
}

fn acknowledge<W: Write>(
    client: &mut Client,
    publish: &Publish,
    writer: &mut W,
) -> Result<(), TalkError>
    requires ready { IsReady client.old }
    ensures told { SendsOnly (W.contents writer.old) (W.contents writer.new) client.old
        (ack_of publish.now) client.new }
    ensures ready { OnOk result (IsReady client.new) }
{
    match ack_for(publish) {
        Some(request) => ask(client, request, writer),
        None => Ok(()),
    }
}

/// The answer to a message with Success: a PubAck or a PubRec; None of QoS 0.
pub fn ack_for(publish: &Publish) -> Option<Request>
    ensures { asked_by result ≡ ack_of publish.now }
{
    match publish.qos {
        QoS::AtMostOnce => None,
        QoS::AtLeastOnce => Some(Request::PubAck(PubAck::new(publish.pkid, None))),
        QoS::ExactlyOnce => Some(Request::PubRec(PubRec::new(publish.pkid, None))),
    }
}
