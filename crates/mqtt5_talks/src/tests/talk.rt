//! Talks with a broker.

ghost use Rattle.mqtt5_client.specs.Client.{IsReady};

use super::pipe::{Ends, is_row};
use super::{publish_hi, quality_of};
use mqtt5_base::{Error, QoS, Text};
use mqtt5_client::{Client, Event, Request};
use mqtt5_codec::Packet;
use mqtt5_connect::Connect;
use mqtt5_subscribe::{Filter, Subscribe, Unsubscribe};
use mqtt5_talk::{
    Heading, LineSource, TalkError, ack_for, await_end, await_subscribed, close, endless,
    hand_allowed, hand_in, is_granted, open, publish, publish_all, receive, subscribe,
    take_refusal, unsubscribe,
};
use std::alloc::Global;
use std::test::Fail;

/// `open` has clean start, keep alive 0 and no client identifier (3.1), `publish` is "hi" to "a/b" at a quality of service,
/// `lines` are the lines "x", "y", an empty one and "z" to it, `subscribe` and `unsubscribe` are of "a/#" at QoS 2, `receive`
/// shows two messages, `await` waits for two answers of these, and `await_end` reads what comes behind them. Without writing,
/// `ping` and `allowed` hand in a PingReq (3.12) and a publish, `refusal` takes all events out, and `granted` and `ack` the
/// oldest, which is judged and, where it is a message, answered. `endless` is the end after 2^64 - 1 turns. The broker's
/// answers are ConnAcks, some not authorized, one with a maximum packet size of 10, and some without QoS 1, wildcards or
/// shared subscriptions (3.2), acks of ids 1 and 2, some with quota exceeded (3.4 to 3.7), SubAcks and UnsubAcks, some not
/// authorized (3.9, 3.11), PingResps (3.13), a Disconnect for shutting down (3.14), and Auths that go on (3.15). Some have
/// the reason string "no".
const TALKS: &str =
    "publisher; from:2003000000; open; publish:0; close; written=100D00044D5154540502000000000030080003612F62006869E000
publisher; from:2003008700; open=the broker refused the connection: NotAuthorized; written=100D00044D51545405020000000000
publisher; from:; open=the connection was closed; written=100D00044D51545405020000000000
publisher; from:2003000000/40020001; open; publish:1; close; written=100D00044D51545405020000000000320A0003612F620001006869E000
publisher; from:2003000000/4003000197; open; publish:1=the broker refused the message: QuotaExceeded; written=100D00044D51545405020000000000320A0003612F620001006869
publisher; from:2003000000/E0018B; open; publish:1=the broker ended the connection: ServerShuttingDown; written=100D00044D51545405020000000000320A0003612F620001006869
publisher; from:40020001; open=Received unsolicited ack pkid: 1; written=100D00044D51545405020000000000
publisher; from:900400010002; open=the broker didn't answer the connect; written=100D00044D51545405020000000000
publisher; from:2008000005270000000A; open; publish:1=Cannot send packet of size '12'. It's greater than the broker's maximum packet size of: '10'; written=100D00044D51545405020000000000
publisher; from:2003000000/50020001/70020001; open; publish:2; close; written=100D00044D51545405020000000000340A0003612F62000100686962020001E000
publisher; from:2003000000/5003000197; open; publish:2=the broker refused the message: QuotaExceeded; written=100D00044D51545405020000000000340A0003612F620001006869
subscriber; from:2003000000/900400010002/30080003612F62006869/320A0003612F620001006869; open; subscribe; receive; close; written=100D00044D5154540502000000000082090001000003612F230240020001E000; shown=612F622068690A612F622068690A
subscriber; from:2003000000/900400010002/340A0003612F620001006869/62020001/340A0003612F620001006869; open; subscribe; receive; close; written=100D00044D5154540502000000000082090001000003612F2302500200017002000150020001E000; shown=612F622068690A612F622068690A
subscriber; from:2003000000/900400010002/30080003612F62006869/320A0003612F620001006869/!/320A0003612F62/0002/!/006869; open; subscribe; receive; close; unread=!/320A0003612F62/0002/!/006869; await_end; unread=; written=100D00044D5154540502000000000082090001000003612F230240020001E000; shown=612F622068690A612F622068690A
subscriber; from:2003000000/900400010002/30080003612F6200686930080003612F62006869/3008/!/x/00; open; subscribe; receive; close; await_end=reads: ConnectionReset; unread=00; shown=612F622068690A612F622068690A
subscriber; from:2003000000/900400010087; open; subscribe; receive=the broker refused the subscription: NotAuthorized; written=100D00044D5154540502000000000082090001000003612F2302; shown=-
subscriber; from:2003000000/900400010002/E0018B; open; subscribe; receive=the broker ended the connection: ServerShuttingDown; written=100D00044D5154540502000000000082090001000003612F2302; shown=-
subscriber; from:2003000000/900400010002; open; subscribe; receive=the connection was closed; written=100D00044D5154540502000000000082090001000003612F2302; shown=-
publisher; from:20080087051F00026E6F; open=the broker refused the connection: NotAuthorized (\"no\"); written=100D00044D51545405020000000000
publisher; from:2003000000/4009000197051F00026E6F; open; publish:1=the broker refused the message: QuotaExceeded (\"no\"); written=100D00044D51545405020000000000320A0003612F620001006869
publisher; from:2003000000/E0078B051F00026E6F; open; publish:1=the broker ended the connection: ServerShuttingDown (\"no\"); written=100D00044D51545405020000000000320A0003612F620001006869
publisher; from:20050000022400; open; publish:1=the broker takes no message of QoS 1; publish:0; written=100D00044D5154540502000000000030080003612F62006869
publisher; from:20050000022401; open; publish:2=the broker takes no message of QoS 2; written=100D00044D51545405020000000000
publisher; from:2003000000; open; lines:0; events=0; close; written=100D00044D5154540502000000000030070003612F62007830070003612F62007930060003612F620030070003612F62007AE000
publisher; from:2003000000/40020001/40020002/40020001/40020002; open; lines:1; ids=0; close; unread=; written=100D00044D5154540502000000000032090003612F620001007832090003612F620002007932080003612F6200010032090003612F620002007AE000
publisher; from:2003000000/50020001/5002000270020001/70020002/50020001/70020001/50020002/70020002; open; lines:2; ids=0; unread=; written=100D00044D5154540502000000000034090003612F620001007834090003612F6200020079620200016202000234080003612F620001006202000134090003612F620002007A62020002
publisher; from:2003000000/40020001/4003000297/40020001; open; lines:1=the broker refused the message: QuotaExceeded; written=100D00044D5154540502000000000032090003612F620001007832090003612F620002007932080003612F62000100
subscriber; from:20050000022800; open; subscribe=the broker takes no filter with a wildcard; written=100D00044D51545405020000000000
subscriber; from:20050000022A00; open; share=the broker takes no shared subscription; written=100D00044D51545405020000000000
subscriber; from:2003000000/90090001051F00026E6F87; open; subscribe; receive=the broker refused the subscription: NotAuthorized (\"no\"); shown=-
subscriber; from:2003000000/900400010002/30080003612F62006869/B00400020000; open; subscribe; unsubscribe; await; close; shown=-; written=100D00044D5154540502000000000082090001000003612F2302A2080002000003612F23E000
publisher; from:2003000000/w/D000/40020001; pings; open; publish:1; close; written=100D00044D51545405020000000000320A0003612F620001006869C000E000
publisher; from:2003000000/w; open; publish:1=reads: WouldBlock; written=100D00044D51545405020000000000320A0003612F620001006869
publisher; from:w/2003000000; pings; open=reads: WouldBlock; written=100D00044D51545405020000000000
subscriber; from:2003000000/w/900400010002/D000/30080003612F62006869/w/D000/30080003612F62006869; pings; open; subscribe; receive; close; written=100D00044D5154540502000000000082090001000003612F2302C000C000E000; shown=612F622068690A612F622068690A
subscriber; from:2003000000/900400010002/w/w; pings; open; subscribe; receive=Last pingreq isn't acked; written=100D00044D5154540502000000000082090001000003612F2302C000
subscriber; from:2003000000/900400010002/B00400020087; open; subscribe; unsubscribe; await=the broker refused to end the subscription: NotAuthorized; written=100D00044D5154540502000000000082090001000003612F2302A2080002000003612F23
publisher; from:F00618041500016D; open=the broker didn't answer the connect; written=100D00044D51545405020000000000
publisher; from:2003000000/F00618041500016D; open; publish:1=Received a wrong packet while waiting for another packet; written=100D00044D51545405020000000000320A0003612F620001006869
subscriber; from:2003000000/F00618041500016D; open; subscribe; receive=Received a wrong packet while waiting for another packet; written=100D00044D5154540502000000000082090001000003612F2302; shown=-
subscriber; from:2003000000/F00618041500016D; open; subscribe; unsubscribe; await=Received a wrong packet while waiting for another packet; written=100D00044D5154540502000000000082090001000003612F2302A2080002000003612F23
publisher; ping; left=C000; allowed:1; left=C000320A0003612F620001006869; written=-
publisher; from:20050000022400; open; allowed:1=the broker takes no message of QoS 1; left=-; allowed:0; left=30080003612F62006869
publisher; from:2003000000/40020001; open; allowed:1; write; turn=4; refusal; events=0; left=-
publisher; from:2003000000/4003000197; open; allowed:1; write; turn=5; refusal=the broker refused the message: QuotaExceeded; events=0
publisher; from:2003000000/40030001975003000297; open; allowed:1; allowed:2; write; turn=10; ping; refusal=the broker refused the message: QuotaExceeded; events=0; left=C000
publisher; from:F00618041500016D; turn=8; refusal=Received a wrong packet while waiting for another packet; events=0
publisher; endless=reads: TimedOut
subscriber; from:2003000000/900400010002/B00400020000/30080003612F62006869; open; subscribe; unsubscribe; refusal; turn=6; granted=true; turn=6; granted=true; turn=10; granted=false; events=0
subscriber; from:2003000000/900400010087; open; subscribe; refusal; turn=6; granted=the broker refused the subscription: NotAuthorized
subscriber; from:2003000000/B00400010087; open; unsubscribe; refusal; turn=6; granted=the broker refused to end the subscription: NotAuthorized
subscriber; from:F00618041500016D; turn=8; granted=Received a wrong packet while waiting for another packet
subscriber; from:30080003612F62006869; turn=10; ack; left=-
subscriber; from:320A0003612F620001006869; turn=12; ack; left=40020001; written=-
subscriber; from:340A0003612F620001006869; turn=12; ack; left=50020001; written=-
";

fn connect(alloc: Global) -> Result<Packet, Error> {
    let connect = Connect {
        keep_alive: 0,
        client_id: Text::from_str(alloc, "")?,
        clean_start: true,
        properties: None,
    };
    Ok(Packet::Connect(connect, None, None))
}

fn opens(alloc: Global, client: &mut Client, ends: &mut Ends) -> Result<(), TalkError>
    requires { IsReady client.old }
{
    let connect = connect(alloc)?;
    let opened = open(client, &connect, &mut ends.source, &mut ends.sink);
    drop(connect);
    ends.capabilities = opened?;
    Ok(())
}

fn publishes(
    alloc: Global,
    client: &mut Client,
    ends: &mut Ends,
    quality: &str,
) -> Result<(), TalkError>
    requires { IsReady client.old }
{
    let message = publish_hi(alloc, quality_of(quality))?;
    publish(
        client,
        ends.capabilities,
        message,
        ends.pings,
        &mut ends.source,
        &mut ends.sink,
    )
}

fn publishes_lines(
    alloc: Global,
    client: &mut Client,
    ends: &mut Ends,
    quality: &str,
) -> Result<(), TalkError>
    requires { IsReady client.old }
{
    let heading = Heading {
        topic: "a/b",
        qos: quality_of(quality),
        retain: false,
    };
    let text: &[u8] = b"x\ny\n\nz";
    let mut lines = match LineSource::new(alloc, heading, 2, text) {
        Ok(lines) => lines,
        Err(error) => return Err(TalkError::Unread(error)),
    };
    publish_all(
        client,
        ends.capabilities,
        &mut lines,
        ends.pings,
        &mut ends.source,
        &mut ends.sink,
    )
}

fn subscribes(
    alloc: Global,
    client: &mut Client,
    ends: &mut Ends,
    filter: &str,
) -> Result<(), TalkError>
    requires { IsReady client.old }
{
    let filter = Filter::new(alloc, filter, QoS::ExactlyOnce)?;
    let wanted = Subscribe::new(alloc, filter, None)?;
    subscribe(client, ends.capabilities, wanted, &mut ends.sink)
}

fn unsubscribes(alloc: Global, client: &mut Client, ends: &mut Ends) -> Result<(), TalkError>
    requires { IsReady client.old }
{
    let unwanted = Unsubscribe::new(alloc, "a/#", None)?;
    unsubscribe(client, unwanted, &mut ends.sink)
}

fn receives(client: &mut Client, ends: &mut Ends) -> Result<(), TalkError>
    requires { IsReady client.old }
{
    receive(
        client,
        &mut ends.screen,
        2,
        ends.pings,
        &mut ends.source,
        &mut ends.sink,
    )
}

fn hands(alloc: Global, client: &mut Client, ends: &Ends, quality: &str) -> Result<(), TalkError>
    requires { IsReady client.old }
{
    let message = publish_hi(alloc, quality_of(quality))?;
    hand_allowed(client, ends.capabilities, message)
}

fn refuses(client: &mut Client) -> Result<(), TalkError> {
    match take_refusal(client) {
        Some(refusal) => Err(refusal),
        None => Ok(()),
    }
}

/// Takes the oldest event out, and adds whether it is an answer of subscriptions.
pub(super) fn grants(client: &mut Client, text: &mut String) -> Result<(), TalkError> {
    let Some(event) = client.next_event() else {
        return Ok(());
    };
    let is_answer = is_granted(event)?;
    Ok(write!(text, "={is_answer}")?)
}

/// Takes the oldest event out, and hands in its answer, where it is a message.
fn acknowledges(client: &mut Client) -> Result<(), TalkError>
    requires { IsReady client.old }
{
    let answer = match client.next_event() {
        Some(Event::Incoming(Packet::Publish(publish))) => ack_for(&publish),
        _other => None,
    };
    match answer {
        Some(request) => hand_in(client, request),
        None => Ok(()),
    }
}

/// Makes a call of a talk.
pub(super) fn talks(
    alloc: Global,
    client: &mut Client,
    ends: &mut Ends,
    name: &str,
    argument: &str,
) -> Result<(), TalkError>
    requires { IsReady client.old }
{
    match name {
        "open" => opens(alloc, client, ends),
        "publish" => publishes(alloc, client, ends, argument),
        "lines" => publishes_lines(alloc, client, ends, argument),
        "subscribe" => subscribes(alloc, client, ends, "a/#"),
        "share" => subscribes(alloc, client, ends, "$share/g/a"),
        "unsubscribe" => unsubscribes(alloc, client, ends),
        "await" => await_subscribed(client, 2, ends.pings, &mut ends.source, &mut ends.sink),
        "receive" => receives(client, ends),
        "await_end" => await_end(&mut ends.source),
        "ping" => hand_in(client, Request::PingReq),
        "allowed" => hands(alloc, client, ends, argument),
        "refusal" => refuses(client),
        "ack" => acknowledges(client),
        "endless" => Err(endless()),
        _close => close(client, &mut ends.sink),
    }
}

#[test]
fn talks_with_a_broker(rt: HostRuntime) -> Result<(), Fail> {
    for row in TALKS.lines() {
        assert!(rt; is_row(rt.alloc(), row)?, "of {row}");
    }
    Ok(())
}
