//! Why a packet, a frame or a stream is refused.

ghost use Rattle.std.specs.Prelude.{◌≡◌};
ghost use Rattle.mqtt5_base.specs.declared.error.Error.TheVariants.{OutOfMemory};

use std::alloc::{AllocError, AllocFailed};

/// Why reading or writing was refused. Numbers are those of the documents; a variant without one
/// is never answered.
#[derive(Debug, PartialEq, Eq, Drop, thiserror::Error)]
pub enum Error {
    /// E1: a reason code that the packet doesn't have, or that is never written; its number.
    #[error("Invalid return code received as response for connect = {0}")]
    InvalidConnectReturnCode(u8),
    /// Never answered.
    #[error("Invalid reason = {0}")]
    InvalidReason(u8),
    /// Never answered.
    #[error("Invalid remaining length = {0}")]
    InvalidRemainingLength(usize),
    /// E2: the protocol name isn't `MQTT`.
    #[error("Invalid protocol used")]
    InvalidProtocol,
    /// E3: the protocol version isn't 5, but this.
    #[error("Invalid protocol level")]
    InvalidProtocolLevel(u8),
    /// E4: flags of a will without a will.
    #[error("Invalid packet format")]
    IncorrectPacketFormat,
    /// E5: a packet type that isn't read; its number.
    #[error("Invalid packet type = {0}")]
    InvalidPacketType(u8),
    /// E6: a retain handling option of 3.
    #[error("Invalid retain forward rule = {0}")]
    InvalidRetainForwardRule(u8),
    /// E7: a QoS of 3.
    #[error("Invalid QoS level = {0}")]
    InvalidQoS(u8),
    /// E8: a reason code that a SubAck or UnsubAck doesn't have; its number.
    #[error("Invalid subscribe reason code = {0}")]
    InvalidSubscribeReasonCode(u8),
    /// E9: a publish of QoS 1 or 2 with packet identifier 0.
    #[error("Packet received has id Zero")]
    PacketIdZero,
    /// E10: a Subscribe without a topic filter.
    #[error("Empty Subscription")]
    EmptySubscription,
    /// Never answered.
    #[error("Subscription had id Zero")]
    SubscriptionIdZero,
    /// Never answered.
    #[error("Payload size is incorrect")]
    PayloadSizeIncorrect,
    /// E11: a text or bytes over 65,535 bytes, or a number over 268,435,455 that is written as a
    /// variable byte integer.
    #[error("Payload is too long")]
    PayloadTooLong,
    /// E12: a remaining length, in `pkt_size`, over the limit.
    #[error("Max Payload size of {max:?} has been exceeded by packet of {pkt_size:?} bytes")]
    PayloadSizeLimitExceeded { pkt_size: usize, max: u32 },
    /// E13: a packet without a body, of a type that needs one.
    #[error("Payload is required")]
    PayloadRequired,
    /// Never answered.
    #[error("Payload is required to be UTF-8")]
    PayloadNotUtf8,
    /// E14: a text that isn't UTF-8.
    #[error("Topic not utf-8")]
    TopicNotUtf8,
    /// E15: fewer bytes than the length before them says; that length.
    #[error("Promised boundary crossed, contains {0} bytes")]
    BoundaryCrossed(usize),
    /// E16: a number cut short, a reserved flag of a Disconnect, a reason code that an Auth
    /// doesn't have, or a SubAck or UnsubAck without reason codes.
    #[error("Packet is malformed")]
    MalformedPacket,
    /// E17: a variable byte integer whose fourth byte says that another follows.
    #[error("Remaining length is malformed")]
    MalformedRemainingLength,
    /// E18: a property that is unknown or that the packet doesn't have; its identifier.
    #[error("Invalid property type = {0}")]
    InvalidPropertyType(u8),
    /// E19: the frame isn't whole; so many bytes are missing, or more.
    #[error("Insufficient number of bytes to frame packet, {0} more bytes required")]
    InsufficientBytes(usize),
    /// Never answered.
    #[error("IO")]
    Io,
    /// E20: a packet that is over the outgoing limit; its size, or the greatest `u32` where it is more.
    #[error("Cannot send packet of size '{pkt_size:?}'. It's greater than the broker's maximum packet size of: '{max:?}'")]
    OutgoingPacketTooLarge { pkt_size: u32, max: u32 },
    /// E21: memory that was asked for was refused.
    #[error("Out of memory")]
    OutOfMemory,
}

impl Error {
    ghost use Rattle.mqtt5_base.specs.Numbers.{error_number};

    /// Its number, n of En: 1 to 21; 0 of one that is never answered. Takes no memory.
    pub fn number(&self) -> u8
        ensures { result ≡ error_number self.now }
    {
        match self {
            Error::InvalidConnectReturnCode(_) => 1,
            Error::InvalidProtocol => 2,
            Error::InvalidProtocolLevel(_) => 3,
            Error::IncorrectPacketFormat => 4,
            Error::InvalidPacketType(_) => 5,
            Error::InvalidRetainForwardRule(_) => 6,
            Error::InvalidQoS(_) => 7,
            Error::InvalidSubscribeReasonCode(_) => 8,
            Error::PacketIdZero => 9,
            Error::EmptySubscription => 10,
            Error::PayloadTooLong => 11,
            Error::PayloadSizeLimitExceeded { .. } => 12,
            Error::PayloadRequired => 13,
            Error::TopicNotUtf8 => 14,
            Error::BoundaryCrossed(_) => 15,
            Error::MalformedPacket => 16,
            Error::MalformedRemainingLength => 17,
            Error::InvalidPropertyType(_) => 18,
            Error::InsufficientBytes(_) => 19,
            Error::OutgoingPacketTooLarge { .. } => 20,
            Error::OutOfMemory => 21,
            Error::InvalidReason(_)
            | Error::InvalidRemainingLength(_)
            | Error::SubscriptionIdZero
            | Error::PayloadSizeIncorrect
            | Error::PayloadNotUtf8
            | Error::Io => 0,
        }
    }
}

impl From<AllocError> for Error {
    ghost from_gives = { λ _ e. e ≡ OutOfMemory };

    fn from(_refused: AllocError) -> Error {
        Error::OutOfMemory
    }
}

impl<T: Drop> From<AllocFailed<T>> for Error {
    ghost from_gives = { λ _ e. e ≡ OutOfMemory };

    fn from(_refused: AllocFailed<T>) -> Error {
        Error::OutOfMemory
    }
}
