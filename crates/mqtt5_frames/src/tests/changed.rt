//! Packets that are changed once they are read, and then written.

use super::{Notes, bytes_of, cut};
use bytes::BytesMut;
use mqtt5_base::{Error, Sequence};
use mqtt5_codec::Packet;
use mqtt5_connect::Login;
use mqtt5_control::{ConnectReturnCode, DisconnectProperties};
use mqtt5_subscribe::{SubAck, Subscribe, SubscribeProperties, SubscribeReasonCode};
use std::alloc::Global;
use std::test::Fail;

/// Frames, what their packet is then given by its letter, what it is written as, and its debug form, or why it isn't
/// written: `e` an empty list, `i` a subscription identifier that is too great, `f` the reason Failure, `s` an empty
/// property set, `l` a login of two empty texts, `c` a code of earlier versions.
const CHANGED: &str = r#"82090002000003612F6201 e - EmptySubscription
82090002000003612F6201 i - PayloadTooLong
900400020001 e - MalformedPacket
900400020001 f 900400020080 SubAck(SubAck { pkid: 2, return_codes: [Failure], properties: None })
B00400030000 e - MalformedPacket
E000 s E0020000 Disconnect(Disconnect { reason_code: NormalDisconnection, properties: Some(DisconnectProperties { session_expiry_interval: None, reason_string: None, user_properties: [], server_reference: None }) })
E0028200 s E0028200 Disconnect(Disconnect { reason_code: ProtocolError, properties: Some(DisconnectProperties { session_expiry_interval: None, reason_string: None, user_properties: [], server_reference: None }) })
100E00044D5154540502003C00000163 l 100E00044D5154540502003C00000163 Connect(Connect { keep_alive: 60, client_id: "c", clean_start: true, properties: None }, None, Some(Login { username: "", password: "" }))
2003000000 c - InvalidConnectReturnCode(2)
"#;

fn change_subscribe(alloc: Global, subscribe: &mut Subscribe, letter: &str) {
    if letter == "e" {
        subscribe.filters = Sequence::new(alloc);
    } else {
        let mut properties = SubscribeProperties::new(alloc);
        properties.id = Some(268_435_456);
        subscribe.properties = Some(properties);
    }
}

fn change_suback(alloc: Global, suback: &mut SubAck, letter: &str) {
    let mut codes = Sequence::new(alloc);
    if letter == "f" {
        codes.push(SubscribeReasonCode::Failure).ok();
    }
    suback.return_codes = codes;
}

fn change(alloc: Global, packet: &mut Packet, letter: &str) {
    match packet {
        Packet::Subscribe(subscribe) => change_subscribe(alloc, subscribe, letter),
        Packet::SubAck(suback) => change_suback(alloc, suback, letter),
        Packet::UnsubAck(unsuback) => unsuback.reasons = Sequence::new(alloc),
        Packet::Disconnect(disconnect) => {
            disconnect.properties = Some(DisconnectProperties::new(alloc));
        }
        Packet::Connect(_, _, login) => *login = Login::new(alloc, "", "").ok(),
        Packet::ConnAck(connack) => connack.code = ConnectReturnCode::BadClientId,
        _other => {}
    }
}

fn changed(alloc: Global, digits: &str, letter: &str) -> Result<Packet, Error> {
    let mut stream = BytesMut::from_vec(bytes_of(alloc, digits)?);
    let mut packet = Packet::read(alloc, &mut stream, None)?;
    change(alloc, &mut packet, letter);
    Ok(packet)
}

/// Whether the changed packet of a row is written as that says.
fn is_changed(alloc: Global, row: &str) -> Result<bool, Error> {
    let (digits, rest) = cut(row);
    let (letter, rest) = cut(rest);
    let (again, form) = cut(rest);
    let again = bytes_of(alloc, again)?;
    let mut notes = Notes::new(alloc)?;
    let added = notes.add(changed(alloc, digits, letter), None);
    let noted = notes.are(form, again.as_slice());
    drop(notes);
    added?;
    Ok(noted)
}

#[test]
fn changed_packets(rt: HostRuntime) -> Result<(), Fail> {
    for row in CHANGED.lines() {
        assert!(rt; is_changed(rt.alloc(), row)?, "of {row}");
    }
    Ok(())
}
