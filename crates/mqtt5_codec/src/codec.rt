//! The codec of a stream of packets.

ghost use Rattle.std.specs.Prelude.{◌≡◌, ◌<◌, drop, length, IfOk, IfSome};
ghost use Rattle.std.specs.Bool.{Decides};
ghost use Rattle.mqtt5_base.specs.Front.{NeedsMore};
ghost use Rattle.mqtt5_base.specs.FrontAt.{front};
ghost use Rattle.mqtt5_base.specs.Headers.{IsHeader};
ghost use Rattle.mqtt5_base.specs.Puts.{Writes};
ghost use Rattle.mqtt5_codec.specs.Packets.{writing_under};
ghost use Rattle.mqtt5_codec.specs.Codecs.{no_limits, Decodes, Reserves};
ghost use Rattle.mqtt5_codec.specs.Taken.{ReadsBody};

use crate::packet::Packet;
use crate::reading;
use bytes::{Bytes, BytesMut};
use mqtt5_base::{Error, FixedHeader, PacketType, check};
use std::alloc::Global;

/// Limits on the frames of a stream, in bytes: on the remaining length of what comes in, and on whole
/// frames that go out.
#[derive(Debug, Clone, PartialEq, Eq, Drop)]
pub struct Codec {
    /// The greatest remaining length that is read; over it is E12. None is no limit.
    pub max_incoming_size: Option<u32>,
    /// The longest frame that is written; over it is E20. None is no limit.
    pub max_outgoing_size: Option<u32>,
}

impl Codec {
    /// A codec without limits. Takes no memory.
    pub fn new() -> Codec
        ensures { result ≡ no_limits }
    {
        Codec {
            max_incoming_size: None,
            max_outgoing_size: None,
        }
    }

    /// Whether more bytes are needed: no frame is whole yet, and none is refused. Takes no memory.
    pub fn needs_more(&self, input: &BytesMut) -> bool
        ensures { Decides result (NeedsMore (front self.now.max_incoming_size input.now.items)) }
    {
        match check(input.as_slice(), self.max_incoming_size) {
            Err(Error::InsufficientBytes(_)) => true,
            _other => false,
        }
    }

    /// Takes the frame at the front of the stream out and answers its packet, or None, with the stream
    /// unchanged and nothing reserved, where more bytes are needed. Errors as of `Packet::read`, but
    /// E19.
    #[inline(always)]
    pub fn decode(&self, alloc: Global, stream: &mut BytesMut) -> Result<Option<Packet>, Error>
        ensures decodes { Decodes result self.now.max_incoming_size stream.old.items
            stream.new.items }
        ensures reserves { Reserves result stream.old stream.new }
        ensures shorter { IfOk result
            (λ m. IfSome m (λ _. length stream.new.items < length stream.old.items)) }
    {
        let header = match check(stream.as_slice(), self.max_incoming_size) {
            Ok(header) => header,
            Err(Error::InsufficientBytes(_)) => return Ok(None),
            Err(error) => return Err(error),
        };
        let frame = stream.freeze_to(header.frame_length())?;
        read_frame(alloc, header, frame)
    }

    /// Appends the packet's frame. E20, E11, E9, E10, E16, E1 or E21, as of `Packet::write` under the
    /// outgoing limit; the buffer is then unchanged.
    pub fn encode(&self, item: Packet, buffer: &mut BytesMut) -> Result<(), Error>
        ensures { Writes (λ _. tt) (writing_under self.now.max_outgoing_size item) result
            buffer.old.items buffer.new.items }
    {
        let written = self.write(&item, buffer);
        drop(item);
        written
    }

    /// The same of a packet that stays the caller's.
    pub fn write(&self, packet: &Packet, buffer: &mut BytesMut) -> Result<(), Error>
        ensures { Writes (λ _. tt) (writing_under self.now.max_outgoing_size packet.now) result
            buffer.old.items buffer.new.items }
    {
        packet.write(buffer, self.max_outgoing_size)?;
        Ok(())
    }
}

/// The packet of a whole frame, by its type. E5 of type 0.
#[inline(always)]
fn read_frame(alloc: Global, header: FixedHeader, frame: Bytes) -> Result<Option<Packet>, Error>
    requires { IsHeader header frame }
    ensures { ReadsBody result header.byte1 (drop header.fixed_header_len frame) }
{
    // Each arm returns: as the value of the match the answer would be copied once more.
    match header.packet_type()? {
        PacketType::Connect => return reading::read_connect(alloc, header, frame),
        PacketType::ConnAck => return reading::read_connack(alloc, header, frame),
        PacketType::Publish => return reading::read_publish(alloc, header, frame),
        PacketType::PubAck => return reading::read_puback(alloc, header, frame),
        PacketType::PubRec => return reading::read_pubrec(alloc, header, frame),
        PacketType::PubRel => return reading::read_pubrel(alloc, header, frame),
        PacketType::PubComp => return reading::read_pubcomp(alloc, header, frame),
        PacketType::Subscribe => return reading::read_subscribe(alloc, header, frame),
        PacketType::SubAck => return reading::read_suback(alloc, header, frame),
        PacketType::Unsubscribe => return reading::read_unsubscribe(alloc, header, frame),
        PacketType::UnsubAck => return reading::read_unsuback(alloc, header, frame),
        PacketType::PingReq => return reading::read_pingreq(header, frame),
        PacketType::PingResp => return reading::read_pingresp(header, frame),
        PacketType::Disconnect => return reading::read_disconnect(alloc, header, frame),
        PacketType::Auth => return reading::read_auth(alloc, header, frame),
    }
}
