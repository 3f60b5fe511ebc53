//! The vectors: frames with the packets that are read from them and written as them, and frames that are refused.

use bytes::{Bytes, BytesMut};
use mqtt5_base::{Error, QoS, Sequence, Text, same};
use mqtt5_codec::Packet;
use mqtt5_connect::{Connect, LastWill, Login};
use mqtt5_control::{Auth, AuthReasonCode, ConnAck, ConnAckProperties, ConnectReturnCode};
use mqtt5_publish::{
    PingReq, PingResp, PubAck, PubComp, PubCompReason, Publish, PublishProperties,
};
use mqtt5_subscribe::{
    Filter, SubAck, Subscribe, SubscribeReasonCode, UnsubAck, UnsubAckReason, Unsubscribe,
};
use std::alloc::Global;
use std::io;
use std::io::Write;

/// The frames of the vectors, in their order: the first 13 and the last 3 are of packets, the others are refused.
pub const FRAMES: [&[u8]; 36] = [
    &[
        0x10, 0x0E, 0x00, 0x04, 0x4D, 0x51, 0x54, 0x54, 0x05, 0x02, 0x00, 0x3C, 0x00, 0x00, 0x01,
        0x63,
    ],
    &[
        0x10, 0x1B, 0x00, 0x04, 0x4D, 0x51, 0x54, 0x54, 0x05, 0xEE, 0x00, 0x3C, 0x00, 0x00, 0x01,
        0x63, 0x00, 0x00, 0x01, 0x77, 0x00, 0x01, 0x6D, 0x00, 0x01, 0x75, 0x00, 0x01, 0x70,
    ],
    &[0x20, 0x06, 0x00, 0x00, 0x03, 0x21, 0x00, 0x02],
    &[
        0x32, 0x0A, 0x00, 0x03, 0x61, 0x2F, 0x62, 0x00, 0x01, 0x00, 0x68, 0x69,
    ],
    &[0x40, 0x02, 0x00, 0x01],
    &[0x70, 0x04, 0x00, 0x07, 0x92, 0x00],
    &[
        0x82, 0x09, 0x00, 0x02, 0x00, 0x00, 0x03, 0x61, 0x2F, 0x62, 0x01,
    ],
    &[0x90, 0x04, 0x00, 0x02, 0x00, 0x01],
    &[0xA2, 0x08, 0x00, 0x03, 0x00, 0x00, 0x03, 0x61, 0x2F, 0x62],
    &[0xB0, 0x04, 0x00, 0x03, 0x00, 0x00],
    &[0xC0, 0x00],
    &[0xD0, 0x00],
    &[0xF0, 0x02, 0x18, 0x00],
    &[0x00, 0x01, 0x00],
    &[0x20, 0x03, 0x00, 0x01, 0x00],
    &[0x36, 0x03, 0x00, 0x01, 0x61],
    &[0x32, 0x06, 0x00, 0x01, 0x61, 0x00, 0x00, 0x00],
    &[0x82, 0x03, 0x00, 0x01, 0x00],
    &[0x82, 0x06, 0x00, 0x01, 0x00, 0x00, 0x00, 0x33],
    &[0x82, 0x06, 0x00, 0x01, 0x00, 0x00, 0x00, 0x03],
    &[0x90, 0x03, 0x00, 0x02, 0x00],
    &[0xF0, 0x01, 0x00],
    &[0x40, 0x05, 0x00, 0x01, 0x00, 0x01, 0x03],
    &[0xE0, 0x01, 0x01],
    &[0x30, 0x06, 0x00, 0x01, 0x61, 0x02, 0x26, 0x00],
    &[
        0x30, 0x09, 0x00, 0x01, 0x61, 0x04, 0x08, 0x00, 0x02, 0x78, 0x79,
    ],
    &[
        0x30, 0x09, 0x00, 0x01, 0x61, 0x05, 0x0B, 0x80, 0x80, 0x80, 0x80,
    ],
    &[0x30, 0x06, 0x00, 0x01, 0x61, 0x02, 0x0B, 0x80],
    &[0x30, 0x08, 0x00, 0x01, 0x61, 0x04, 0x03, 0x00, 0x01, 0xFF],
    &[0x30, 0x06, 0x00, 0x01, 0x61, 0x02, 0x04, 0x00],
    &[0x30, 0x07, 0x00, 0x01, 0x61, 0x80, 0x80, 0x80, 0x80],
    &[0x40, 0x05, 0x00, 0x01, 0x00, 0x05, 0x1F],
    &[
        0x30, 0x09, 0x00, 0x01, 0x61, 0x04, 0x02, 0x00, 0x00, 0x00, 0x01,
    ],
    &[0x30, 0x04, 0x00, 0x01, 0xFF, 0x00],
    &[0x30, 0x08, 0x00, 0x01, 0x61, 0x04, 0x01, 0x00, 0x01, 0x01],
    &[0x30, 0x05, 0x00, 0x01, 0x61, 0x80, 0x00],
];

/// Tries each frame as the vector of its place, and prints whether it is what the vector says.
/// Answers whether all are; None, with nothing more printed, where memory ran out.
pub fn try_vectors<W: Write>(
    alloc: Global,
    frames: &[&[u8]],
    output: &mut W,
) -> io::Result<Option<bool>> {
    let mut all = true;
    for (place, frame) in frames.iter().enumerate() {
        let Ok(good) = is_good(alloc, place, frame) else {
            return Ok(None);
        };
        let verdict = if good { "ok" } else { "bad" };
        writeln!(output, "V{} {verdict}", place.saturating_add(1))?;
        all = all && good;
    }
    Ok(Some(all))
}

/// Whether a frame is what the vector of this place says. E21 alone.
fn is_good(alloc: Global, place: usize, frame: &[u8]) -> Result<bool, Error> {
    let judged = match fault(place) {
        Some(fault) => is_refused(alloc, frame, &fault),
        None => is_of_packet(alloc, place, frame),
    };
    match judged {
        Err(Error::OutOfMemory) => Err(Error::OutOfMemory),
        Err(_) => Ok(false),
        Ok(good) => Ok(good),
    }
}

/// Why the frame of this place, counted from 0, is refused; none of one that isn't.
fn fault(place: usize) -> Option<Error> {
    Some(match place {
        13 => Error::InvalidPacketType(0),
        14 => Error::InvalidConnectReturnCode(1),
        15 => Error::InvalidQoS(3),
        16 => Error::PacketIdZero,
        17 => Error::EmptySubscription,
        18 => Error::InvalidRetainForwardRule(3),
        19 => Error::InvalidQoS(3),
        20 | 21 | 24 | 27 | 32 => Error::MalformedPacket,
        22 => Error::InvalidPropertyType(3),
        23 => Error::InvalidConnectReturnCode(1),
        25 => Error::BoundaryCrossed(2),
        26 | 30 => Error::MalformedRemainingLength,
        28 => Error::TopicNotUtf8,
        29 => Error::InvalidPropertyType(4),
        31 => Error::BoundaryCrossed(5),
        _ => return None,
    })
}

/// Whether the frame is refused with this fault and taken out of its stream. E21.
fn is_refused(alloc: Global, frame: &[u8], fault: &Error) -> Result<bool, Error> {
    let mut stream = BytesMut::new(alloc);
    stream.extend_from_slice(frame)?;
    let read = Packet::read(alloc, &mut stream, None);
    let refused = is_fault(&read, fault);
    drop(read);
    Ok(refused? && stream.is_empty())
}

/// Whether an answer is this fault. E21.
fn is_fault(read: &Result<Packet, Error>, fault: &Error) -> Result<bool, Error> {
    match read {
        Ok(_) => Ok(false),
        Err(Error::OutOfMemory) => Err(Error::OutOfMemory),
        Err(error) => Ok(error == fault),
    }
}

/// Whether the packet of this place is read from the frame, and written as it or as the stricter one.
fn is_of_packet(alloc: Global, place: usize, frame: &[u8]) -> Result<bool, Error> {
    let strict = stricter(place).unwrap_or(frame);
    let packet = packet(alloc, place)?;
    let good = goes_both_ways(alloc, &packet, strict, frame);
    drop(packet);
    good
}

/// Whether the packet is written as the one frame, and read from the other.
fn goes_both_ways(
    alloc: Global,
    packet: &Packet,
    written: &[u8],
    frame: &[u8],
) -> Result<bool, Error> {
    Ok(is_written_as(alloc, packet, written)? && is_read_as(alloc, packet, frame)?)
}

/// What the packet of this place is written as, where that isn't the frame that it is read from: a property once, and
/// the shortest length of no properties.
fn stricter(place: usize) -> Option<&'static [u8]> {
    match place {
        34 => Some(&[0x30, 0x06, 0x00, 0x01, 0x61, 0x02, 0x01, 0x01]),
        35 => Some(&[0x30, 0x04, 0x00, 0x01, 0x61, 0x00]),
        _ => None,
    }
}

fn is_written_as(alloc: Global, packet: &Packet, frame: &[u8]) -> Result<bool, Error> {
    let mut stream = BytesMut::new(alloc);
    packet.write(&mut stream, None)?;
    Ok(stream.as_slice() == frame)
}

fn is_read_as(alloc: Global, packet: &Packet, frame: &[u8]) -> Result<bool, Error> {
    let mut stream = BytesMut::new(alloc);
    stream.extend_from_slice(frame)?;
    let read = Packet::read(alloc, &mut stream, None)?;
    let good = same(&read, packet) && stream.is_empty();
    drop(read);
    Ok(good)
}

/// The packet of this place, counted from 0.
fn packet(alloc: Global, place: usize) -> Result<Packet, Error> {
    match place {
        0 => Ok(Packet::Connect(connect(alloc)?, None, None)),
        1 => connect_with_will(alloc),
        2 => Ok(Packet::ConnAck(connack(alloc))),
        3 => publish(alloc),
        4 => Ok(Packet::PubAck(PubAck::new(1, None))),
        5 => Ok(Packet::PubComp(pubcomp())),
        6 => subscribe(alloc),
        7 => suback(alloc),
        8 => unsubscribe(alloc),
        9 => unsuback(alloc),
        10 => Ok(Packet::PingReq(PingReq)),
        11 => Ok(Packet::PingResp(PingResp)),
        12 => Ok(Packet::Auth(Auth::new(AuthReasonCode::Continue, None))),
        33 => Ok(Packet::Publish(bare_publish(b"\xFF", None))),
        34 => Ok(Packet::Publish(indicated_publish(alloc))),
        _ => Ok(Packet::Publish(bare_publish(b"a", None))),
    }
}

fn text(alloc: Global, text: &str) -> Result<Text, Error> {
    Ok(Text::from(String::from_str(alloc, text)?))
}

fn connect(alloc: Global) -> Result<Connect, Error> {
    Ok(Connect {
        keep_alive: 60,
        client_id: text(alloc, "c")?,
        clean_start: true,
        properties: None,
    })
}

fn connect_with_will(alloc: Global) -> Result<Packet, Error> {
    let message = Vec::from_slice(alloc, b"m")?;
    let will = LastWill::new(alloc, "w", message, QoS::AtLeastOnce, true, None)?;
    let login = Login::new(alloc, "u", "p")?;
    Ok(Packet::Connect(connect(alloc)?, Some(will), Some(login)))
}

fn connack(alloc: Global) -> ConnAck {
    ConnAck {
        session_present: false,
        code: ConnectReturnCode::Success,
        properties: Some(ConnAckProperties {
            session_expiry_interval: None,
            receive_max: Some(2),
            max_qos: None,
            retain_available: None,
            max_packet_size: None,
            assigned_client_identifier: None,
            topic_alias_max: None,
            reason_string: None,
            user_properties: Sequence::new(alloc),
            wildcard_subscription_available: None,
            subscription_identifiers_available: None,
            shared_subscription_available: None,
            server_keep_alive: None,
            response_information: None,
            server_reference: None,
            authentication_method: None,
            authentication_data: None,
        }),
    }
}

fn publish(alloc: Global) -> Result<Packet, Error> {
    let payload = Bytes::copy_from_slice(alloc, b"hi")?;
    let mut publish = Publish::new(alloc, "a/b", QoS::AtLeastOnce, payload, None)?;
    publish.pkid = 1;
    Ok(Packet::Publish(publish))
}

/// A publish of QoS 0 without a payload.
fn bare_publish(topic: &'static [u8], properties: Option<PublishProperties>) -> Publish {
    Publish {
        dup: false,
        qos: QoS::AtMostOnce,
        retain: false,
        topic: Bytes::from_static(topic),
        pkid: 0,
        payload: Bytes::new(),
        properties,
    }
}

fn indicated_publish(alloc: Global) -> Publish {
    let mut properties = PublishProperties::new(alloc);
    properties.payload_format_indicator = Some(1);
    bare_publish(b"a", Some(properties))
}

fn pubcomp() -> PubComp {
    PubComp {
        pkid: 7,
        reason: PubCompReason::PacketIdentifierNotFound,
        properties: None,
    }
}

fn subscribe(alloc: Global) -> Result<Packet, Error> {
    let filter = Filter::new(alloc, "a/b", QoS::AtLeastOnce)?;
    let mut subscribe = Subscribe::new(alloc, filter, None)?;
    subscribe.pkid = 2;
    Ok(Packet::Subscribe(subscribe))
}

fn suback(alloc: Global) -> Result<Packet, Error> {
    let mut return_codes = Sequence::new(alloc);
    return_codes.push(SubscribeReasonCode::Success(QoS::AtLeastOnce))?;
    Ok(Packet::SubAck(SubAck {
        pkid: 2,
        return_codes,
        properties: None,
    }))
}

fn unsubscribe(alloc: Global) -> Result<Packet, Error> {
    let mut unsubscribe = Unsubscribe::new(alloc, "a/b", None)?;
    unsubscribe.pkid = 3;
    Ok(Packet::Unsubscribe(unsubscribe))
}

fn unsuback(alloc: Global) -> Result<Packet, Error> {
    let mut reasons = Sequence::new(alloc);
    reasons.push(UnsubAckReason::Success)?;
    Ok(Packet::UnsubAck(UnsubAck {
        pkid: 3,
        reasons,
        properties: None,
    }))
}
