//! Packets made of what they hold: each in a function of its own, which the prover takes a second for.

ghost use Rattle.std.specs.Prelude.{◌≡◌, None, option_map};
ghost use Rattle.mqtt5_session.specs.Requests.{release_of, disconnect_of};

use mqtt5_codec::Packet;
use mqtt5_control::{Auth, ConnAck, Disconnect, DisconnectReasonCode};
use mqtt5_publish::{PingReq, PubAck, PubComp, PubRec, PubRel, Publish};
use mqtt5_subscribe::{Subscribe, Unsubscribe};

/// A publish to send, as a packet.
pub fn as_reply(sent: Option<Publish>) -> Option<Packet>
    ensures { result ≡ option_map Packet.Publish sent }
{
    match sent {
        Some(publish) => Some(as_publish(publish)),
        None => None,
    }
}

pub fn as_publish(publish: Publish) -> Packet
    ensures { result ≡ Packet.Publish publish }
{
    Packet::Publish(publish)
}

pub fn as_puback(ack: PubAck) -> Packet
    ensures { result ≡ Packet.PubAck ack }
{
    Packet::PubAck(ack)
}

pub fn as_pubrec(ack: PubRec) -> Packet
    ensures { result ≡ Packet.PubRec ack }
{
    Packet::PubRec(ack)
}

pub fn as_pubrel(release: PubRel) -> Packet
    ensures { result ≡ Packet.PubRel release }
{
    Packet::PubRel(release)
}

pub fn as_pubcomp(ack: PubComp) -> Packet
    ensures { result ≡ Packet.PubComp ack }
{
    Packet::PubComp(ack)
}

/// A PubRel of success.
pub fn as_release(id: u16) -> Packet
    ensures { result ≡ release_of id }
{
    as_pubrel(PubRel::new(id, None))
}

pub fn as_subscribe(subscribe: Subscribe) -> Packet
    ensures { result ≡ Packet.Subscribe subscribe }
{
    Packet::Subscribe(subscribe)
}

pub fn as_unsubscribe(unsubscribe: Unsubscribe) -> Packet
    ensures { result ≡ Packet.Unsubscribe unsubscribe }
{
    Packet::Unsubscribe(unsubscribe)
}

pub fn as_ping() -> Packet
    ensures { result ≡ Packet.PingReq (record {}) }
{
    Packet::PingReq(PingReq)
}

pub fn as_connack(ack: ConnAck) -> Packet
    ensures { result ≡ Packet.ConnAck ack }
{
    Packet::ConnAck(ack)
}

pub fn disconnect_packet(disconnect: Disconnect) -> Packet
    ensures { result ≡ Packet.Disconnect disconnect }
{
    Packet::Disconnect(disconnect)
}

/// A Disconnect without properties.
pub fn as_disconnect(code: DisconnectReasonCode) -> Packet
    ensures { result ≡ disconnect_of code }
{
    disconnect_packet(Disconnect {
        reason_code: code,
        properties: None,
    })
}

pub fn as_auth(auth: Auth) -> Packet
    ensures { result ≡ Packet.Auth auth }
{
    Packet::Auth(auth)
}
