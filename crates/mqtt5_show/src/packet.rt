//! A packet as a line: its type's name, its fields and its properties. Printing takes no memory.

use crate::connecting::{write_auth, write_connack, write_connect, write_disconnect};
use crate::field::{Fields, LineFields};
use crate::publishing::{write_ack, write_publish};
use crate::subscribing::{write_suback, write_subscribe, write_unsuback, write_unsubscribe};
use mqtt5_codec::Packet;
use std::io;
use std::io::Write;

/// Prints a packet, without the end of the line.
pub fn write_packet<W: Write>(output: &mut W, packet: &Packet) -> io::Result<()> {
    output.write_all(name(packet).as_bytes())?;
    write_fields(&mut LineFields { output }, packet)
}

/// The name of a packet's type (MQTT 5.0 section 2.1.2).
pub fn name(packet: &Packet) -> &'static str {
    match packet {
        Packet::Connect(_, _, _) => "CONNECT",
        Packet::ConnAck(_) => "CONNACK",
        Packet::Publish(_) => "PUBLISH",
        Packet::PubAck(_) => "PUBACK",
        Packet::PubRec(_) => "PUBREC",
        Packet::PubRel(_) => "PUBREL",
        Packet::PubComp(_) => "PUBCOMP",
        Packet::Subscribe(_) => "SUBSCRIBE",
        Packet::SubAck(_) => "SUBACK",
        Packet::Unsubscribe(_) => "UNSUBSCRIBE",
        Packet::UnsubAck(_) => "UNSUBACK",
        Packet::PingReq(_) => "PINGREQ",
        Packet::PingResp(_) => "PINGRESP",
        Packet::Disconnect(_) => "DISCONNECT",
        Packet::Auth(_) => "AUTH",
    }
}

/// The fields of a packet.
pub fn write_fields<F: Fields>(fields: &mut F, packet: &Packet) -> io::Result<()> {
    match packet {
        Packet::Connect(connect, will, login) => write_connect(fields, connect, will, login),
        Packet::ConnAck(ack) => write_connack(fields, ack),
        Packet::Publish(publish) => write_publish(fields, publish),
        Packet::PubAck(ack) => write_ack(fields, ack.pkid, ack.reason.code(), &ack.properties),
        Packet::PubRec(ack) => write_ack(fields, ack.pkid, ack.reason.code(), &ack.properties),
        Packet::PubRel(ack) => write_ack(fields, ack.pkid, ack.reason.code(), &ack.properties),
        Packet::PubComp(ack) => write_ack(fields, ack.pkid, ack.reason.code(), &ack.properties),
        Packet::Subscribe(subscribe) => write_subscribe(fields, subscribe),
        Packet::SubAck(ack) => write_suback(fields, ack),
        Packet::Unsubscribe(unsubscribe) => write_unsubscribe(fields, unsubscribe),
        Packet::UnsubAck(ack) => write_unsuback(fields, ack),
        Packet::PingReq(_) | Packet::PingResp(_) => Ok(()),
        Packet::Disconnect(disconnect) => write_disconnect(fields, disconnect),
        Packet::Auth(auth) => write_auth(fields, auth),
    }
}
