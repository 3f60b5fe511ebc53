//! Codes of reasons, and the sizes of pings.

use bytes::Bytes;
use mqtt5_base::{Error, FixedHeader, QoS};
use mqtt5_control::{AuthReasonCode, ConnectReturnCode, Disconnect, DisconnectReasonCode};
use mqtt5_publish::{PingReq, PingResp, PubAckReason, PubRelReason};
use mqtt5_subscribe::{RetainForwardRule, SubscribeReasonCode, UnsubAckReason};
use std::alloc::Global;

fn codes_of_subscribing() -> [u8; 8] {
    [
        PubAckReason::NotAuthorized.code(),
        PubRelReason::PacketIdentifierNotFound.code(),
        SubscribeReasonCode::Success(QoS::ExactlyOnce).code(),
        SubscribeReasonCode::QuotaExceeded.code(),
        UnsubAckReason::NoSubscriptionExisted.code(),
        RetainForwardRule::OnEverySubscribe.code(),
        RetainForwardRule::OnNewSubscribe.code(),
        RetainForwardRule::Never.code(),
    ]
}

fn codes_of_the_connection() -> [u8; 4] {
    [
        DisconnectReasonCode::ProtocolError.code(),
        DisconnectReasonCode::WildcardSubscriptionsNotSupported.code(),
        ConnectReturnCode::NotAuthorized.code(),
        AuthReasonCode::Continue.code(),
    ]
}

#[test]
fn codes(rt: HostRuntime) {
    assert!(rt; codes_of_subscribing() == [135, 146, 2, 151, 17, 0, 1, 2]);
    assert!(rt; codes_of_the_connection() == [130, 162, 135, 24]);
    assert!(rt;
        DisconnectReasonCode::try_from(139) == Ok(DisconnectReasonCode::ServerShuttingDown)
            && DisconnectReasonCode::try_from(1) == Err(Error::InvalidConnectReturnCode(1))
    );
    assert!(rt; PingReq.size() == 2 && PingResp.size() == 2);
}

/// Why the frame of an Auth isn't read as a Disconnect.
fn why_no_disconnect(alloc: Global) -> Option<Error> {
    let frame = Bytes::from_static(&[0xF0, 0x00]);
    Disconnect::read(alloc, FixedHeader::new(0xF0, 1, 0), frame).err()
}

#[test]
fn no_disconnect(rt: HostRuntime) {
    assert!(rt; why_no_disconnect(rt.alloc()) == Some(Error::InvalidPacketType(15)));
}
