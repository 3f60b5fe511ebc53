//! Packets, their properties and reason codes, frames and the codec.

pub use mqtt5_base::{FixedHeader, PacketType, PropertyBlock, Sequence, Text, check};
pub use mqtt5_codec::{Codec, Packet};
pub use mqtt5_connect::{Connect, ConnectProperties, LastWill, LastWillProperties, Login};
pub use mqtt5_control::{
    Auth, AuthProperties, AuthReasonCode, ConnAck, ConnAckProperties, ConnectReturnCode,
    Disconnect, DisconnectProperties, DisconnectReasonCode,
};
pub use mqtt5_publish::{
    PingReq, PingResp, PubAck, PubAckProperties, PubAckReason, PubComp, PubCompProperties,
    PubCompReason, PubRec, PubRecProperties, PubRecReason, PubRel, PubRelProperties, PubRelReason,
    Publish, PublishProperties,
};
pub use mqtt5_subscribe::{
    Filter, RetainForwardRule, SubAck, SubAckProperties, Subscribe, SubscribeProperties,
    SubscribeReasonCode, UnsubAck, UnsubAckProperties, UnsubAckReason, Unsubscribe,
    UnsubscribeProperties,
};
