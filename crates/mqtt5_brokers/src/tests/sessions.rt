//! What happens to a broker's clients as rows of text, walked by one function: a case more is a line. The parts of a row stand
//! between semicolons, each a call with the number of a client, what comes with it, and its answer behind `=`; a call that is just
//! done answers nothing. A walk makes the calls, writes the row anew with what comes of them, and compares. A packet is its
//! frame, two digits a byte, and `-` is none. Frames are those of MQTT 5.0.

use super::cut;
use bytes::BytesMut;
use mqtt5_base::Error;
use mqtt5_codec::{Codec, Packet};
use mqtt5_network::Will;
use mqtt5_publish::Publish;
use mqtt5_session::StateError;
use mqtt5_sessions::Sessions;
use std::alloc::{AllocError, Global};
use std::collections::VecDeque;
use std::num::NonZeroU16;
use std::test::Fail;

/// `join` is one more client; `up` a packet of it; `pass` what is sent of its queue; `lose`, `leave` and `end` are of its connection
/// and its session; `come` is a new connection with a receive maximum, and a will, which waits in `late` until it is `due`. `until` is
/// the Message Expiry Interval of the first of its queue, which `expire` takes out; `will` is that of its will, `date` writes
/// another one into this, and `waits` is whether the will has a delay. `shed` lets the first of its queue go: any (1) or those of
/// QoS 0 (0), as long as more wait than so many. `next` is the first client from a number on that is connected and has a queue.
/// `over` is whether a Subscribe may bring more copies than there is room for, where so many may wait.
///
/// The first row: a publish of QoS 2 that comes twice is handed on once, to one subscriber at QoS 2, and to another, which is away, at
/// QoS 1, when it is back; each is sent again until it is acked. The second: one more publish waits for its identifier, as the
/// client takes one at a time (3.1.2.11.3). Then wills: one that is retained, which a later Subscribe brings, one with a delay, one of a
/// connection that is replaced, and one that a Disconnect drops. Then a session that ends, with its subscriptions; a retained
/// message that is taken out; No Local; messages of which the first expires; a will whose interval is another one when it is
/// published; a queue of which some are let go; who has one, from each number on, until it is passed on, its client is lost, or it expires;
/// copies of two retained messages, by each Retain Handling, and for a shared subscription; and a client that isn't there.
const EVENTS: &str =
    "join=0; join=1; join=2; come:0:-=-; come:1:-=-; come:2:-=-; up:1:82090001000003612F2302=900400010002; up:2:82090001000003612F2B01=900400010001; leave:2; up:0:34090003612F6200050078=50020005; up:0:3C090003612F6200050078=50020005; pass:1=34090003612F6200010078; pass:1=-; pass:2=-; come:2:10=-; pass:2=32090003612F6200010078; up:1:50020001=62020001; up:1:70020001=-; up:0:62020005=70020005; up:0:62020005=700400059200; lose:2; come:2:10=3A090003612F6200010078; up:2:40020001=-; lose:2; come:2:10=-
join=0; join=1; come:0:-=-; come:1:1=-; up:1:82090001000003612F2301=900400010001; up:0:32090003612F6200010078=40020001; up:0:32090003612F6200020079=40020002; pass:1=32090003612F6200010078; pass:1=-; pass:1=-; up:1:40020001=32090003612F6200010079; pass:1=-
join=0; join=1; join=2; come:0:-:33090003772F3000070067=-; come:1:-=-; come:2:-=-; up:1:82090001000003772F2300=900400010000; lose:0; pass:1=30070003772F300067; pass:1=-; up:2:82090002000003772F2300=900400020000; pass:2=31070003772F300067; pass:2=-
join=0; join=1; late:0:-:32090003772F3000070067=-; come:1:-=-; up:1:82090001000003772F2300=900400010000; due:0; pass:1=-; lose:0; pass:1=-; due:0; pass:1=30070003772F300067; due:0; pass:1=-
join=0; join=1; come:0:-:32090003772F3000070067=-; come:1:-=-; up:1:82090001000003772F2300=900400010000; come:0:-=-; pass:1=30070003772F300067; pass:1=-
join=0; join=1; come:0:-:32090003772F3000070067=-; come:1:-=-; up:1:82090001000003772F2300=900400010000; leave:0; pass:1=-; lose:0; pass:1=-
join=0; join=1; come:0:-:32090003772F3000070067=-; come:1:-=-; up:1:82090001000003772F2300=900400010000; end:0; pass:1=30070003772F300067; end:1; come:0:-=-; come:1:-=-; up:0:30070003772F300068=-; pass:1=-
join=0; join=1; come:0:-=-; come:1:-=-; up:0:31070003772F300067=-; up:0:31060003772F3000=-; up:1:82090001000003772F2300=900400010000; pass:1=-
join=0; join=1; come:0:-=-; come:1:-=-; up:0:82090001000003772F2304=900400010000; up:1:82090001000003772F2304=900400010000; up:0:30070003772F300067=-; pass:0=-; pass:1=30070003772F300067
join=0; join=1; come:0:-=-; come:1:-=-; up:1:82090001000003772F2301=900400010001; until:1=-; up:0:300C0003772F3005020000000967=-; up:0:30070003772F300068=-; until:1=9; lose:1; until:1=9; expire:1; until:1=-; come:1:-=-; pass:1=30070003772F300068; expire:1; pass:1=-; until:7=-; expire:7
join=0; join=1; late:0:-:300C0003772F3005020000000967=-; come:1:-=-; up:1:82090001000003772F2300=900400010000; will:0=9; waits:0=1; will:1=-; waits:1=0; date:1:5; will:1=-; lose:0; will:0=9; date:0:3; will:0=3; waits:0=1; due:0; will:0=-; waits:0=0; pass:1=300C0003772F3005020000000367; will:7=-; waits:7=0; date:7:1; come:0:-:30070003772F300067=-; waits:0=0
join=0; join=1; come:0:-=-; come:1:-=-; up:1:82090001000003772F2301=900400010001; up:0:30070003772F300067=-; up:0:32090003772F3000010068=40020001; up:0:30070003772F300069=-; up:0:32090003772F300002006A=40020002; shed:1:0:4=0; shed:1:0:3=1; shed:1:0:1=0; shed:1:1:2=1; shed:7:1:0=0; pass:1=30070003772F300069; pass:1=32090003772F300001006A; pass:1=-
join=0; join=1; join=2; come:0:-=-; come:1:-=-; come:2:-=-; up:1:82090001000003772F2301=900400010001; up:2:82090001000003772F2301=900400010001; next:0=-; up:0:30070003772F300067=-; next:0=1; next:1=1; next:2=2; next:3=-; pass:1=30070003772F300067; next:0=2; lose:2; next:0=-; come:2:-=-; next:0=2; expire:2; next:0=-; next:7=-
join=0; join=1; come:0:-=-; come:1:-=-; up:0:31070003772F300067=-; up:0:31070003772F310067=-; over:1:1:82090001000003772F2B00=1; over:1:2:82090001000003772F2B00=0; over:1:0:82090001000003772F2B20=0; over:1:1:82090001000003772F2B10=1; up:1:82090001000003772F2B00=900400010000; over:1:3:82090001000003772F2B00=1; over:1:4:82090001000003772F2B00=0; over:1:2:82090001000003772F2B10=0; over:1:0:82090001000003772F2B10=0; over:1:1:82090001000003772F2B20=0; over:1:1:82090001000003772F2B00=1; over:1:2:8210000100000A2473686172652F672F2300=0; over:7:1:82090001000003772F2B00=1; over:7:2:82090001000003772F2B00=0
join=0; up:1:C000=-; pass:1=-; lose:1; leave:1; due:1; end:1; come:1:-=-; up:0:C000=-
";

/// A number of its digits; E16 where they aren't digits.
fn number_of(digits: &str) -> Result<u16, Error> {
    match digits.parse::<u16>() {
        Ok(number) => Ok(number),
        Err(_) => Err(Error::MalformedPacket),
    }
}

/// The packet of a frame; E16 of anything else.
fn packet_of(alloc: Global, digits: &str) -> Result<Packet, Error> {
    let codec = Codec {
        max_incoming_size: None,
        max_outgoing_size: None,
    };
    let Ok(bytes) = hex::decode(alloc, digits) else {
        return Err(Error::MalformedPacket);
    };
    let mut stream = BytesMut::copy_from_slice(alloc, bytes.as_slice())?;
    match codec.decode(alloc, &mut stream)? {
        Some(packet) => Ok(packet),
        None => Err(Error::MalformedPacket),
    }
}

/// The publish of a frame; E16 of anything else.
fn publish_of(alloc: Global, digits: &str) -> Result<Publish, Error> {
    match packet_of(alloc, digits)? {
        Packet::Publish(publish) => Ok(publish),
        _other => Err(Error::MalformedPacket),
    }
}

/// A will of the frame of what is published, if there is one.
fn will_of(alloc: Global, digits: &str, delayed: bool) -> Result<Option<Will>, Error> {
    if digits.is_empty() {
        return Ok(None);
    }
    Ok(Some(Will {
        publish: publish_of(alloc, digits)?,
        delayed,
    }))
}

/// Adds an answer that is packets, as their frames.
fn add_frames(alloc: Global, packets: &VecDeque<Packet>, text: &mut String) -> Result<(), Error> {
    let mut frames = BytesMut::new(alloc);
    for i in 0..packets.len() {
        let _len = packets[i].write(&mut frames, None)?;
    }
    if frames.is_empty() {
        return Ok(text.push_str("=-")?);
    }
    let digits = hex::encode_upper(alloc, frames.as_slice())?;
    Ok(write!(text, "={digits}")?)
}

/// Adds an answer that is a packet, or none.
fn add_frame(alloc: Global, packet: Option<Packet>, text: &mut String) -> Result<(), Error> {
    let mut packets = VecDeque::new(alloc);
    if let Some(packet) = packet {
        packets.push_back(packet)?;
    }
    add_frames(alloc, &packets, text)
}

/// A new connection, with a receive maximum and a will.
fn comes(
    alloc: Global,
    sessions: &mut Sessions,
    client: usize,
    with: &str,
    delayed: bool,
    text: &mut String,
) -> Result<(), StateError> {
    let (max, frame) = cut(with, ':');
    let receive_max = if max == "-" {
        None
    } else {
        Some(number_of(max)?)
    };
    let will = will_of(alloc, frame, delayed)?;
    let packets = sessions.come(alloc, client, receive_max, will)?;
    Ok(add_frames(alloc, &packets, text)?)
}

/// The first of a queue are let go: those of any QoS, or of QoS 0, as long as more wait than so many.
fn sheds(
    alloc: Global,
    sessions: &mut Sessions,
    client: usize,
    with: &str,
    text: &mut String,
) -> Result<(), StateError> {
    let (any, most) = cut(with, ':');
    let most = usize::from(number_of(most)?);
    let count = sessions.shed(alloc, client, any == "1", most, u64::MAX)?;
    Ok(write!(text, "={count}")?)
}

/// Whether a Subscribe may bring so much that more than so many wait.
fn overfills(
    alloc: Global,
    sessions: &mut Sessions,
    client: usize,
    with: &str,
    text: &mut String,
) -> Result<(), StateError> {
    let (most, frame) = cut(with, ':');
    let most = usize::from(number_of(most)?);
    match packet_of(alloc, frame)? {
        Packet::Subscribe(subscribe) => {
            let over = sessions.overfills(alloc, client, subscribe.filters.as_slice(), most)?;
            Ok(text.push_str(if over { "=1" } else { "=0" })?)
        }
        _other => Err(StateError::from(Error::MalformedPacket)),
    }
}

/// Adds an interval, or that there is none.
fn add_interval(interval: Option<u32>, text: &mut String) -> Result<(), StateError> {
    match interval {
        Some(interval) => Ok(write!(text, "={interval}")?),
        None => Ok(text.push_str("=-")?),
    }
}

/// Adds a number, or that there is none.
fn add_number(number: Option<usize>, text: &mut String) -> Result<(), StateError> {
    match number {
        Some(number) => Ok(write!(text, "={number}")?),
        None => Ok(text.push_str("=-")?),
    }
}

/// Makes a call, and adds its answer.
fn calls(
    alloc: Global,
    sessions: &mut Sessions,
    call: &str,
    text: &mut String,
) -> Result<(), StateError> {
    let (word, rest) = cut(call, ':');
    if word == "join" {
        let client = sessions.join(alloc, NonZeroU16::MAX)?;
        return Ok(write!(text, "={client}")?);
    }
    let (digits, with) = cut(rest, ':');
    let client = usize::from(number_of(digits)?);
    match word {
        "up" => {
            let reply = sessions.arrive(alloc, client, packet_of(alloc, with)?)?;
            Ok(add_frame(alloc, reply, text)?)
        }
        "pass" => {
            let sent = sessions.pass(alloc, client)?;
            Ok(add_frame(alloc, sent, text)?)
        }
        "next" => add_number(sessions.next_waiting(alloc, client)?, text),
        "until" => add_interval(sessions.message_expiry(alloc, client)?, text),
        "will" => add_interval(sessions.will_expiry(client), text),
        "waits" => Ok(text.push_str(if sessions.will_is_delayed(client) {
            "=1"
        } else {
            "=0"
        })?),
        "date" => {
            sessions.set_will_expiry(client, Some(u32::from(number_of(with)?)));
            Ok(())
        }
        "over" => overfills(alloc, sessions, client, with, text),
        "shed" => sheds(alloc, sessions, client, with, text),
        "expire" => sessions.expire(alloc, client),
        "come" => comes(alloc, sessions, client, with, false, text),
        "late" => comes(alloc, sessions, client, with, true, text),
        "lose" => sessions.lose(alloc, client),
        "leave" => sessions.leave(alloc, client),
        "due" => sessions.due(alloc, client),
        "end" => sessions.end(alloc, client),
        _other => Err(StateError::from(Error::MalformedPacket)),
    }
}

/// Makes the calls of a row, and writes it anew.
fn walks(
    alloc: Global,
    sessions: &mut Sessions,
    row: &str,
    text: &mut String,
) -> Result<(), StateError> {
    for part in row.split("; ") {
        if !text.is_empty() {
            text.push_str("; ")?;
        }
        let (call, _answer) = cut(part, '=');
        text.push_str(call)?;
        calls(alloc, sessions, call, text)?;
    }
    Ok(())
}

/// Whether each call of a row has its answer.
fn is_row(alloc: Global, row: &str) -> Result<bool, StateError> {
    let mut sessions = Sessions::new(alloc);
    let mut text = String::new(alloc);
    let walked = walks(alloc, &mut sessions, row, &mut text);
    drop(sessions);
    walked?;
    Ok(text.as_str() == row)
}

#[test]
fn events(rt: HostRuntime) -> Result<(), Fail> {
    for row in EVENTS.lines() {
        assert!(rt; is_row(rt.alloc(), row)?, "of {row}");
    }
    Ok(())
}
