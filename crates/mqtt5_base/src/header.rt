//! The fixed header of a frame.

ghost use Rattle.std.specs.Prelude.{◌≡◌, ◌+◌, ◌/◌, ◌<◌, ◌^◌};

use crate::error::Error;

/// The packet types, with the numbers 1 to 15 in this order (MQTT 5.0 section 2.1.2).
#[derive(Debug, Clone, Copy, PartialEq, Eq)]
pub enum PacketType {
    Connect = 1,
    ConnAck,
    Publish,
    PubAck,
    PubRec,
    PubRel,
    PubComp,
    Subscribe,
    SubAck,
    Unsubscribe,
    UnsubAck,
    PingReq,
    PingResp,
    Disconnect,
    Auth,
}

/// The first byte of a frame, and its lengths in bytes (MQTT 5.0 section 2.1.1).
#[derive(Debug, Clone, Copy, PartialEq, Eq, PartialOrd)]
pub struct FixedHeader {
    /// The packet type in the high four bits, flags in the low four.
    pub byte1: u8,
    /// The first byte and those of the remaining length.
    pub fixed_header_len: usize,
    /// The bytes after them.
    pub remaining_len: usize,
    ghost bounded: { fixed_header_len + remaining_len < 2 ^ 64 },
}

impl FixedHeader {
    ghost use Rattle.mqtt5_base.specs.Headers.{IsType, frame_len};

    /// A header of this first byte, whose remaining length stands in `remaining_len_len` bytes and
    /// says `remaining_len`. With the first byte they are less than 2^64.
    pub fn new(byte1: u8, remaining_len_len: usize, remaining_len: usize) -> FixedHeader
        requires { 1 + remaining_len_len + remaining_len < 2 ^ 64 }
        ensures first { result.byte1 ≡ byte1 }
        ensures header { result.fixed_header_len ≡ 1 + remaining_len_len }
        ensures remaining { result.remaining_len ≡ remaining_len }
    {
        FixedHeader {
            byte1,
            fixed_header_len: 1 + remaining_len_len,
            remaining_len,
        }
    }

    /// The packet type; E5 with 0 where the type's bits are 0.
    pub fn packet_type(&self) -> Result<PacketType, Error>
        ensures { IsType result (self.now.byte1 / 16) }
    {
        Ok(match self.byte1 / 16 {
            1 => PacketType::Connect,
            2 => PacketType::ConnAck,
            3 => PacketType::Publish,
            4 => PacketType::PubAck,
            5 => PacketType::PubRec,
            6 => PacketType::PubRel,
            7 => PacketType::PubComp,
            8 => PacketType::Subscribe,
            9 => PacketType::SubAck,
            10 => PacketType::Unsubscribe,
            11 => PacketType::UnsubAck,
            12 => PacketType::PingReq,
            13 => PacketType::PingResp,
            14 => PacketType::Disconnect,
            15 => PacketType::Auth,
            other => return Err(Error::InvalidPacketType(other)),
        })
    }

    /// How many bytes the frame has.
    pub fn frame_length(&self) -> usize
        ensures { result ≡ frame_len self.now }
    {
        self.fixed_header_len + self.remaining_len
    }
}
