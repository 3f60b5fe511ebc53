//! Two clients of a broker: what they send, and what they are sent, as MQTT 5.0 has it.

use crate::{Broker, BrokerError};
use bytes::BytesMut;
use mqtt5_base::Error;
use std::alloc::Global;
use std::test::Fail;

/// A Connect of the client "c", with a keep alive of 60 seconds (3.1).
const CONNECT: &[u8] = b"\x10\x0E\x00\x04MQTT\x05\x02\x00\x3C\x00\x00\x01c";

/// The ConnAck: session expiry 0, maximum QoS 0, and no retained messages, subscription identifiers and shared
/// subscriptions (3.2.2.3).
const CONNACK: &[u8] = b"\x20\x10\x00\x00\x0D\x11\x00\x00\x00\x00\x24\x00\x25\x00\x29\x00\x2A\x00";

/// A Subscribe of `a/+` with id 1 (3.8), and its SubAck (3.9).
const SUBSCRIBE: &[u8] = b"\x82\x09\x00\x01\x00\x00\x03a/+\x00";

const SUBACK: &[u8] = b"\x90\x04\x00\x01\x00\x00";

/// A Subscribe of `a/b` with QoS 1, of `a/#/b` and of `a` without local, with id 2, and its SubAck: QoS 0 is granted, the
/// filter is invalid, and this broker hasn't that option.
const THREE: &[u8] = b"\x82\x15\x00\x02\x00\x00\x03a/b\x01\x00\x05a/#/b\x00\x00\x01a\x04";

const THREE_ACK: &[u8] = b"\x90\x06\x00\x02\x00\x00\x8F\x83";

/// Publishes of "hi" to `a/b` and to `b` (3.3).
const TO_AB: &[u8] = b"\x30\x08\x00\x03a/b\x00hi";

const TO_B: &[u8] = b"\x30\x06\x00\x01b\x00hi";

/// A broker with two clients that have connected, and read their ConnAcks.
fn connected(alloc: Global) -> Result<Broker, BrokerError> {
    let mut broker = Broker::new(alloc);
    for _ in 0..2_usize {
        let id = broker.accept(alloc)?;
        send(alloc, &mut broker, id, CONNECT)?;
        broker.take_output(alloc, id);
    }
    Ok(broker)
}

/// A client sends these bytes, which are whole frames.
fn send(alloc: Global, broker: &mut Broker, id: usize, bytes: &[u8]) -> Result<(), BrokerError> {
    let mut stream = BytesMut::new(alloc);
    stream.extend_from_slice(bytes)?;
    broker.receive(alloc, id, &mut stream)
}

/// Whether these bytes, and no others, were to go to a client.
fn gets(alloc: Global, broker: &mut Broker, id: usize, bytes: &[u8]) -> bool {
    match broker.take_output(alloc, id) {
        Some(output) => output.as_slice() == bytes,
        None => false,
    }
}

/// What comes in pieces is served when it is whole: the first ends within the Connect.
fn connects_in_pieces(alloc: Global) -> Result<[bool; 2], BrokerError> {
    let mut broker = Broker::new(alloc);
    let id = broker.accept(alloc)?;
    let mut stream = BytesMut::new(alloc);
    stream.extend_from_slice(&CONNECT[..9])?;
    broker.receive(alloc, id, &mut stream)?;
    let early = gets(alloc, &mut broker, id, b"");
    stream.extend_from_slice(&CONNECT[9..])?;
    broker.receive(alloc, id, &mut stream)?;
    Ok([early, gets(alloc, &mut broker, id, CONNACK)])
}

/// Client 0 subscribes, client 1 publishes to a topic that matches and to one that doesn't, and both ping.
fn plays(alloc: Global) -> Result<[bool; 5], BrokerError> {
    let mut broker = connected(alloc)?;
    send(alloc, &mut broker, 0, SUBSCRIBE)?;
    let subscribed = gets(alloc, &mut broker, 0, SUBACK);
    send(alloc, &mut broker, 1, TO_AB)?;
    send(alloc, &mut broker, 1, TO_B)?;
    let routed = gets(alloc, &mut broker, 0, TO_AB);
    let apart = gets(alloc, &mut broker, 1, b"");
    send(alloc, &mut broker, 0, b"\xC0\x00")?;
    send(alloc, &mut broker, 1, b"\xC0\x00\xC0\x00")?;
    let once = gets(alloc, &mut broker, 0, b"\xD0\x00");
    Ok([
        subscribed,
        routed,
        apart,
        once,
        gets(alloc, &mut broker, 1, b"\xD0\x00\xD0\x00"),
    ])
}

/// A publish that two filters match comes once, and after the filters are gone not at all.
fn unsubscribes(alloc: Global) -> Result<[bool; 5], BrokerError> {
    let mut broker = connected(alloc)?;
    send(alloc, &mut broker, 0, SUBSCRIBE)?;
    broker.take_output(alloc, 0);
    send(alloc, &mut broker, 0, THREE)?;
    let judged = gets(alloc, &mut broker, 0, THREE_ACK);
    send(alloc, &mut broker, 0, TO_AB)?;
    let once = gets(alloc, &mut broker, 0, TO_AB);
    // Of `a/+`, twice in one packet (3.10): the second time it isn't there (3.11.3).
    send(
        alloc,
        &mut broker,
        0,
        b"\xA2\x0D\x00\x03\x00\x00\x03a/+\x00\x03a/+",
    )?;
    let gone = gets(alloc, &mut broker, 0, b"\xB0\x05\x00\x03\x00\x00\x11");
    send(alloc, &mut broker, 0, TO_AB)?;
    let by_other = gets(alloc, &mut broker, 0, TO_AB);
    send(alloc, &mut broker, 0, b"\xE0\x00")?;
    send(alloc, &mut broker, 1, TO_AB)?;
    Ok([
        judged,
        once,
        gone,
        by_other,
        gets(alloc, &mut broker, 0, b""),
    ])
}

/// What a client that has connected is told of these bytes.
fn refused(alloc: Global, id: usize, bytes: &[u8]) -> Result<(), BrokerError> {
    let mut broker = connected(alloc)?;
    broker.accept(alloc)?;
    send(alloc, &mut broker, id, bytes)
}

/// After its end a client is no longer connected.
fn ends(alloc: Global) -> Result<(), BrokerError> {
    let mut broker = connected(alloc)?;
    broker.end(0);
    send(alloc, &mut broker, 0, b"\xC0\x00")
}

#[test]
fn two_clients(rt: HostRuntime) -> Result<(), Fail> {
    assert_eq!(rt; connects_in_pieces(rt.alloc()), Ok([true; 2]));
    assert_eq!(rt; plays(rt.alloc()), Ok([true; 5]));
    assert_eq!(rt; unsubscribes(rt.alloc()), Ok([true; 5]));
    Ok(())
}

#[test]
fn refusals(rt: HostRuntime) -> Result<(), Fail> {
    let alloc = rt.alloc();
    assert_eq!(rt;
        refused(alloc, 0, CONNECT),
        Err(BrokerError::ConnectedTwice)
    );
    assert_eq!(rt;
        refused(alloc, 2, SUBSCRIBE),
        Err(BrokerError::NotConnected)
    );
    assert_eq!(rt;
        refused(alloc, 3, CONNECT),
        Err(BrokerError::UnknownClient(3))
    );
    // A publish of QoS 1, one to `a/+`, a ConnAck, and packet type 0.
    let of_qos_1 = b"\x32\x08\x00\x01a\x00\x01\x00hi";
    assert_eq!(rt; refused(alloc, 0, of_qos_1), Err(BrokerError::NotOffered));
    let to_filter = b"\x30\x08\x00\x03a/+\x00hi";
    assert_eq!(rt;
        refused(alloc, 0, to_filter),
        Err(BrokerError::InvalidTopic)
    );
    assert_eq!(rt;
        refused(alloc, 0, CONNACK),
        Err(BrokerError::UnexpectedPacket)
    );
    let fault = BrokerError::Codec(Error::InvalidPacketType(0));
    assert_eq!(rt; refused(alloc, 0, b"\x00\x00"), Err(fault));
    assert_eq!(rt; ends(alloc), Err(BrokerError::NotConnected));
    Ok(())
}
