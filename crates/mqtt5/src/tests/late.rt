//! A broker that hands on at the release, and what reaches a subscriber, on worked packets.

use crate::mqttbytes::v5::{Packet, PingReq, PubRel, Publish, Text};
use crate::mqttbytes::{Error, QoS};
use bytes::Bytes;
use mqtt5_progress::{LateBroker, reaches, received};
use std::alloc::Global;
use std::test::Fail;

/// A publish of "x" under an id.
fn publish(alloc: Global, topic: &str, qos: QoS, id: u16) -> Result<Publish, Error> {
    let mut publish = Publish::new(alloc, topic, qos, Bytes::from_static(b"x"), None)?;
    publish.pkid = id;
    Ok(publish)
}

/// How many replies a broker has to these packets, and the ids of what it hands on.
fn served(alloc: Global, packets: &[Packet]) -> Result<(usize, Vec<u16>), Error> {
    let mut broker = LateBroker::new(alloc);
    let mut replies = 0_usize;
    for packet in packets {
        if broker.serve(packet)?.is_some() {
            replies = replies.saturating_add(1);
        }
    }
    let mut ids = Vec::new(alloc);
    for publish in &broker.into_handed() {
        ids.push(publish.pkid)?;
    }
    Ok((replies, ids))
}

/// Two publishes of QoS 2, of which the first comes twice and the second is released first.
fn released(alloc: Global) -> Result<(usize, Vec<u16>), Error> {
    let packets = [
        Packet::Publish(publish(alloc, "a", QoS::ExactlyOnce, 1)?),
        Packet::Publish(publish(alloc, "a", QoS::ExactlyOnce, 2)?),
        Packet::Publish(publish(alloc, "a", QoS::ExactlyOnce, 1)?),
        Packet::PubRel(PubRel::new(2, None)),
        Packet::Publish(publish(alloc, "a", QoS::AtLeastOnce, 3)?),
        Packet::PubRel(PubRel::new(1, None)),
        Packet::PubRel(PubRel::new(1, None)),
        Packet::PingReq(PingReq),
    ];
    served(alloc, &packets)
}

#[test]
fn hands_on_at_the_release(rt: HostRuntime) -> Result<(), Fail> {
    let (replies, ids) = released(rt.alloc())?;
    assert_eq!(rt; replies, 7);
    assert_eq!(rt; ids.as_slice(), [2, 3, 1].as_slice());
    Ok(())
}

/// A subscriber with two filters.
fn filters(alloc: Global) -> Result<[Text; 2], Error> {
    Ok([
        Text::from(String::from_str(alloc, "a/+")?),
        Text::from(String::from_str(alloc, "a/b")?),
    ])
}

/// How many publishes reach it of one that both filters match, one that one matches, one that none matches, and one whose
/// topic isn't text.
fn reached(alloc: Global) -> Result<(usize, bool), Error> {
    let filters = filters(alloc)?;
    let mut no_text = publish(alloc, "a/b", QoS::AtMostOnce, 0)?;
    no_text.topic = Bytes::from_static(b"a/\xff");
    let strange = reaches(&filters, &no_text);
    let handed = [
        publish(alloc, "a/b", QoS::AtMostOnce, 0)?,
        publish(alloc, "a/c", QoS::AtMostOnce, 0)?,
        publish(alloc, "b", QoS::AtMostOnce, 0)?,
        no_text,
    ];
    Ok((received(alloc, &filters, &handed)?.len(), strange))
}

#[test]
fn reaches_once(rt: HostRuntime) -> Result<(), Fail> {
    assert_eq!(rt; reached(rt.alloc()), Ok((2, false)));
    Ok(())
}
