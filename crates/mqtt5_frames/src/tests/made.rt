//! Packets that are made, and not read.

use super::Notes;
use bytes::Bytes;
use mqtt5_base::{Error, QoS};
use mqtt5_codec::Packet;
use mqtt5_control::{Auth, AuthReasonCode, Disconnect, DisconnectReasonCode};
use mqtt5_publish::{PingReq, PingResp, PubAck, PubComp, PubCompReason, PubRec, PubRel, Publish};
use std::alloc::Global;
use std::test::Fail;

/// Packets by their letters, what is noted of them under a limit on frames, and what they are written as. All but the
/// two with a limit are also read, of these bytes and in this form, in `read`.
const MADE: &[(u8, Option<u32>, &str, &[u8])] = &[
    (
        b'p',
        None,
        r#"Publish(Publish { dup: false, qos: AtLeastOnce, retain: false, topic: b"a/b", pkid: 1, payload: b"hi", properties: None })"#,
        &[
            0x32, 0x0A, 0x00, 0x03, 0x61, 0x2F, 0x62, 0x00, 0x01, 0x00, 0x68, 0x69,
        ],
    ),
    (
        b'p',
        Some(12),
        r#"Publish(Publish { dup: false, qos: AtLeastOnce, retain: false, topic: b"a/b", pkid: 1, payload: b"hi", properties: None })"#,
        &[
            0x32, 0x0A, 0x00, 0x03, 0x61, 0x2F, 0x62, 0x00, 0x01, 0x00, 0x68, 0x69,
        ],
    ),
    (
        b'p',
        Some(11),
        "OutgoingPacketTooLarge { pkt_size: 12, max: 11 }",
        &[],
    ),
    (
        b'a',
        None,
        "PubAck(PubAck { pkid: 1, reason: Success, properties: None })",
        &[0x40, 0x02, 0x00, 0x01],
    ),
    (
        b'r',
        None,
        "PubRec(PubRec { pkid: 7, reason: Success, properties: None })",
        &[0x50, 0x02, 0x00, 0x07],
    ),
    (
        b'l',
        None,
        "PubRel(PubRel { pkid: 7, reason: Success, properties: None })",
        &[0x62, 0x02, 0x00, 0x07],
    ),
    (
        b'c',
        None,
        "PubComp(PubComp { pkid: 7, reason: PacketIdentifierNotFound, properties: None })",
        &[0x70, 0x04, 0x00, 0x07, 0x92, 0x00],
    ),
    (b'q', None, "PingReq(PingReq)", &[0xC0, 0x00]),
    (b's', None, "PingResp(PingResp)", &[0xD0, 0x00]),
    (
        b'd',
        None,
        "Disconnect(Disconnect { reason_code: NormalDisconnection, properties: None })",
        &[0xE0, 0x00],
    ),
    (
        b'u',
        None,
        "Auth(Auth { code: Continue, properties: None })",
        &[0xF0, 0x02, 0x18, 0x00],
    ),
];

/// A publish of "hi" to "a/b", QoS 1, packet identifier 1.
pub(super) fn publish_hi(alloc: Global) -> Result<Publish, Error> {
    let payload = Bytes::from_static(b"hi");
    let mut publish = Publish::new(alloc, "a/b", QoS::AtLeastOnce, payload, None)?;
    publish.pkid = 1;
    Ok(publish)
}

fn made(alloc: Global, letter: u8) -> Result<Packet, Error> {
    Ok(match letter {
        b'p' => Packet::Publish(publish_hi(alloc)?),
        b'a' => Packet::PubAck(PubAck::new(1, None)),
        b'r' => Packet::PubRec(PubRec::new(7, None)),
        b'l' => Packet::PubRel(PubRel::new(7, None)),
        b'c' => Packet::PubComp(PubComp {
            pkid: 7,
            reason: PubCompReason::PacketIdentifierNotFound,
            properties: None,
        }),
        b'q' => Packet::PingReq(PingReq),
        b's' => Packet::PingResp(PingResp),
        b'd' => Packet::Disconnect(Disconnect::new(DisconnectReasonCode::NormalDisconnection)),
        _other => Packet::Auth(Auth::new(AuthReasonCode::Continue, None)),
    })
}

/// Whether this is noted of a packet, and it is written as these bytes.
fn is_noted(
    alloc: Global,
    letter: u8,
    max: Option<u32>,
    form: &str,
    bytes: &[u8],
) -> Result<bool, Error> {
    let mut notes = Notes::new(alloc)?;
    let added = notes.add(made(alloc, letter), max);
    let noted = notes.are(form, bytes);
    drop(notes);
    added?;
    Ok(noted)
}

#[test]
fn made_packets(rt: HostRuntime) -> Result<(), Fail> {
    for (letter, max, form, bytes) in MADE {
        assert!(rt;
            is_noted(rt.alloc(), *letter, *max, form, bytes)?,
            "of {letter}"
        );
    }
    Ok(())
}
