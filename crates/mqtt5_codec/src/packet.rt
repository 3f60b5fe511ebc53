//! Packets of every type.

use crate::codec::Codec;
use bytes::BytesMut;
use mqtt5_base::{Error, check, frame_size};
use mqtt5_connect::{Connect, LastWill, Login};
use mqtt5_control::{Auth, ConnAck, Disconnect};
use mqtt5_publish::{PingReq, PingResp, PubAck, PubComp, PubRec, PubRel, Publish};
use mqtt5_subscribe::{SubAck, Subscribe, UnsubAck, Unsubscribe};
use std::alloc::Global;

/// A packet: a Connect with its will and its login.
#[derive(Debug, Clone, PartialEq, Eq, Drop)]
pub enum Packet {
    Auth(Auth),
    Connect(Connect, Option<LastWill>, Option<Login>),
    ConnAck(ConnAck),
    Publish(Publish),
    PubAck(PubAck),
    PingReq(PingReq),
    PingResp(PingResp),
    Subscribe(Subscribe),
    SubAck(SubAck),
    PubRec(PubRec),
    PubRel(PubRel),
    PubComp(PubComp),
    Unsubscribe(Unsubscribe),
    UnsubAck(UnsubAck),
    Disconnect(Disconnect),
}

impl Packet {
    ghost use Rattle.std.specs.Prelude.{◌≡◌, ◌<◌, length, min, IfOk};
    ghost use Rattle.mqtt5_base.specs.Puts.{Writes};
    ghost use Rattle.mqtt5_codec.specs.Packets.{packet_len, packet_type, packet_writing, writing_under};
    ghost use Rattle.mqtt5_codec.specs.Codecs.{ReadsPacket};

    /// Takes the frame at the front of the stream out and answers its packet. E12, E17 or E19 of
    /// `check`, with the stream unchanged; E5 of a type that isn't read, E13 of one without the body
    /// that it needs, or the first fault of its fields, with just the frame taken out; E21 does one of
    /// the two.
    pub fn read(
        alloc: Global,
        stream: &mut BytesMut,
        max_size: Option<u32>,
    ) -> Result<Packet, Error>
        ensures reads { ReadsPacket result max_size stream.old.items stream.new.items }
        ensures shorter { IfOk result (λ _. length stream.new.items < length stream.old.items) }
    {
        check(stream.as_slice(), max_size)?;
        let codec = Codec {
            max_incoming_size: max_size,
            max_outgoing_size: None,
        };
        match codec.decode(alloc, stream)? {
            Some(packet) => Ok(packet),
            None => unreachable!(),
        }
    }

    /// How many bytes the packet takes, or the greatest `usize` where they are more. Takes no memory.
    pub fn size(&self) -> usize
        ensures { result ≡ min (packet_len self.now) usize.MAX }
    {
        match self {
            Packet::Auth(auth) => auth.size(),
            Packet::Connect(connect, will, login) => connect.size(will, login),
            Packet::ConnAck(ack) => ack.size(),
            Packet::Publish(publish) => publish.size(),
            Packet::PubAck(ack) => ack.size(),
            Packet::PingReq(_) | Packet::PingResp(_) => frame_size(0),
            Packet::Subscribe(subscribe) => subscribe.size(),
            Packet::SubAck(ack) => ack.size(),
            Packet::PubRec(ack) => ack.size(),
            Packet::PubRel(ack) => ack.size(),
            Packet::PubComp(ack) => ack.size(),
            Packet::Unsubscribe(unsubscribe) => unsubscribe.size(),
            Packet::UnsubAck(ack) => ack.size(),
            Packet::Disconnect(disconnect) => disconnect.size(),
        }
    }

    /// The number of its type, 1 to 15 (MQTT 5.0 section 2.1.2). Takes no memory.
    pub fn packet_type(&self) -> u8
        ensures { result ≡ packet_type self.now }
    {
        match self {
            Packet::Connect(_, _, _) => 1,
            Packet::ConnAck(_) => 2,
            Packet::Publish(_) => 3,
            Packet::PubAck(_) => 4,
            Packet::PubRec(_) => 5,
            Packet::PubRel(_) => 6,
            Packet::PubComp(_) => 7,
            Packet::Subscribe(_) => 8,
            Packet::SubAck(_) => 9,
            Packet::Unsubscribe(_) => 10,
            Packet::UnsubAck(_) => 11,
            Packet::PingReq(_) => 12,
            Packet::PingResp(_) => 13,
            Packet::Disconnect(_) => 14,
            Packet::Auth(_) => 15,
        }
    }

    #[inline(always)]
    fn write_frame(&self, buffer: &mut BytesMut) -> Result<usize, Error>
        ensures { Writes length (packet_writing self.now) result buffer.old.items buffer.new.items }
    {
        match self {
            Packet::Auth(auth) => auth.write(buffer),
            Packet::Connect(connect, will, login) => connect.write(will, login, buffer),
            Packet::ConnAck(ack) => ack.write(buffer),
            Packet::Publish(publish) => publish.write(buffer),
            Packet::PubAck(ack) => ack.write(buffer),
            Packet::PingReq(_) => PingReq::write(buffer),
            Packet::PingResp(_) => PingResp::write(buffer),
            Packet::Subscribe(subscribe) => subscribe.write(buffer),
            Packet::SubAck(ack) => ack.write(buffer),
            Packet::PubRec(ack) => ack.write(buffer),
            Packet::PubRel(ack) => ack.write(buffer),
            Packet::PubComp(ack) => ack.write(buffer),
            Packet::Unsubscribe(unsubscribe) => unsubscribe.write(buffer),
            Packet::UnsubAck(ack) => ack.write(buffer),
            Packet::Disconnect(disconnect) => disconnect.write(buffer),
        }
    }

    /// Appends the packet and answers its length. E20 where that is over the limit, with its size or the
    /// greatest `u32`; else the packet type's own: E11 of what is too long, then E9 of a Publish, E10 of a
    /// Subscribe, E16 of a SubAck or UnsubAck, or E1 of a ConnAck; E21. The buffer is then unchanged.
    #[inline(always)]
    pub fn write(&self, buffer: &mut BytesMut, max_size: Option<u32>) -> Result<usize, Error>
        ensures { Writes length (writing_under max_size self.now) result buffer.old.items
            buffer.new.items }
    {
        if let Some(max) = max_size {
            let size = self.size();
            if size > max as usize {
                return Err(Error::OutgoingPacketTooLarge {
                    pkt_size: u32::try_from(size).unwrap_or(u32::MAX),
                    max,
                });
            }
        }
        self.write_frame(buffer)
    }
}
