//! What is written by a packet's own type, and what is refused.

use super::made::publish_hi;
use bytes::{Bytes, BytesMut};
use mqtt5_base::{Error, QoS, Sequence, Text};
use mqtt5_publish::{AckProperties, PubRec, Publish};
use std::alloc::Global;
use std::test::Fail;

/// Publishes by their QoS, their packet identifier and the length of their topic, and what comes of writing them.
const PUBLISHES: &[(QoS, u16, usize, Result<usize, Error>)] = &[
    (QoS::AtMostOnce, 0, 65_536, Err(Error::PayloadTooLong)),
    (QoS::AtLeastOnce, 0, 3, Err(Error::PacketIdZero)),
    (QoS::AtLeastOnce, 0, 65_536, Err(Error::PayloadTooLong)),
    (QoS::AtLeastOnce, 1, 3, Ok(12)),
];

/// 130 bytes `61`.
const LETTERS: &str =
    "aaaaaaaaaaaaaaaaaaaaaaaaaaaaaaaaaaaaaaaaaaaaaaaaaaaaaaaaaaaaaaaaaaaaaaaaaaaaaaaaaaaaaaaaaaaaaaaaaaaaaaaaaaaaaaaaaaaaaaaaaaaaaaaaaa";

/// What a PubRec with a pair of "k" and those bytes begins with.
const PUBREC: &[u8] = &[
    0x50, 0x8D, 0x01, 0x00, 0x01, 0x00, 0x88, 0x01, 0x26, 0x00, 0x01, 0x6B, 0x00, 0x82,
];

/// The length of a publish that is written behind `AA`, or why it isn't; E16 where that left more than
/// `AA`.
fn behind_another(alloc: Global, publish: &Publish) -> Result<usize, Error> {
    let mut buffer = BytesMut::new(alloc);
    buffer.extend_from_slice(&[0xAA])?;
    let written = publish.write(&mut buffer);
    let kept = written.is_ok() || buffer.as_slice() == [0xAA].as_slice();
    drop(buffer);
    if kept {
        written
    } else {
        Err(Error::MalformedPacket)
    }
}

fn written_with(alloc: Global, qos: QoS, pkid: u16, topic_len: usize) -> Result<usize, Error> {
    let topic = Bytes::from_vec(vec![in alloc; 0x61; topic_len]?)?;
    let mut publish = publish_hi(alloc)?;
    publish.qos = qos;
    publish.pkid = pkid;
    publish.topic = topic;
    let written = behind_another(alloc, &publish);
    drop(publish);
    written
}

#[test]
fn refused_writes(rt: HostRuntime) {
    for (qos, pkid, topic_len, want) in PUBLISHES {
        assert!(rt;
            written_with(rt.alloc(), *qos, *pkid, *topic_len) == *want,
            "of {want:?}"
        );
    }
}

/// The user property "k" of a value.
fn one_pair(alloc: Global, value: &str) -> Result<Sequence<(Text, Text)>, Error> {
    let key = Text::from(String::from_str(alloc, "k")?);
    let value = Text::from(String::from_str(alloc, value)?);
    let mut pairs = Sequence::new(alloc);
    pairs.push((key, value))?;
    Ok(pairs)
}

/// Writes a PubRec with a long pair, and answers its length.
fn write_pubrec(alloc: Global, buffer: &mut BytesMut) -> Result<usize, Error> {
    let properties = AckProperties {
        reason_string: None,
        user_properties: one_pair(alloc, LETTERS)?,
    };
    let pubrec = PubRec::new(1, Some(properties));
    let written = pubrec.write(buffer);
    drop(pubrec);
    written
}

#[test]
fn pubrec_with_a_long_pair(rt: HostRuntime) -> Result<(), Fail> {
    let mut bytes = BytesMut::new(rt.alloc());
    assert!(rt; matches!(write_pubrec(rt.alloc(), &mut bytes), Ok(144)));
    assert!(rt; bytes.len() == 144 && bytes.as_slice().starts_with(PUBREC));
    Ok(())
}
