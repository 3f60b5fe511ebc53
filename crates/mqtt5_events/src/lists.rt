//! Properties that may stand often.

ghost use Rattle.std.specs.Prelude.{◌≡◌};
ghost use Rattle.mqtt5_events.specs.Properties.{of_set, pairs_of, subscriptions_of, pairs_in, subscriptions_in};

use mqtt5_base::{AckProperties, Text};
use mqtt5_codec::Packet;
use mqtt5_control::{AuthProperties, ConnAckProperties, DisconnectProperties};
use mqtt5_inflight::Event;
use mqtt5_publish::PublishProperties;

fn connack_pairs(properties: &Option<ConnAckProperties>) -> &[(Text, Text)]
    ensures { result.now ≡ of_set (λ p. p.user_properties) properties.now }
{
    match properties {
        Some(p) => p.user_properties.as_slice(),
        None => &[],
    }
}

pub(crate) fn publish_pairs(properties: &Option<PublishProperties>) -> &[(Text, Text)]
    ensures { result.now ≡ of_set (λ p. p.user_properties) properties.now }
{
    match properties {
        Some(p) => p.user_properties.as_slice(),
        None => &[],
    }
}

fn ack_pairs(properties: &Option<AckProperties>) -> &[(Text, Text)]
    ensures { result.now ≡ of_set (λ p. p.user_properties) properties.now }
{
    match properties {
        Some(p) => p.user_properties.as_slice(),
        None => &[],
    }
}

fn disconnect_pairs(properties: &Option<DisconnectProperties>) -> &[(Text, Text)]
    ensures { result.now ≡ of_set (λ p. p.user_properties) properties.now }
{
    match properties {
        Some(p) => p.user_properties.as_slice(),
        None => &[],
    }
}

fn auth_pairs(properties: &Option<AuthProperties>) -> &[(Text, Text)]
    ensures { result.now ≡ of_set (λ p. p.user_properties) properties.now }
{
    match properties {
        Some(p) => p.user_properties.as_slice(),
        None => &[],
    }
}

fn packet_pairs(packet: &Packet) -> &[(Text, Text)]
    ensures { result.now ≡ pairs_of packet.now }
{
    match packet {
        Packet::ConnAck(ack) => connack_pairs(&ack.properties),
        Packet::Publish(publish) => publish_pairs(&publish.properties),
        Packet::PubAck(ack) => ack_pairs(&ack.properties),
        Packet::PubRec(ack) => ack_pairs(&ack.properties),
        Packet::PubRel(release) => ack_pairs(&release.properties),
        Packet::PubComp(ack) => ack_pairs(&ack.properties),
        Packet::SubAck(ack) => ack_pairs(&ack.properties),
        Packet::UnsubAck(ack) => ack_pairs(&ack.properties),
        Packet::Disconnect(disconnect) => disconnect_pairs(&disconnect.properties),
        Packet::Auth(auth) => auth_pairs(&auth.properties),
        _other => &[],
    }
}

/// The user properties of a packet that came, in their order; none of another event. Takes no memory.
pub fn pairs_in(event: &Event) -> &[(Text, Text)]
    ensures { result.now ≡ pairs_in event.now }
{
    match event {
        Event::Incoming(packet) => packet_pairs(packet),
        Event::Outgoing(_) => &[],
    }
}

fn publish_subscriptions(properties: &Option<PublishProperties>) -> &[usize]
    ensures { result.now ≡ of_set (λ p. p.subscription_identifiers) properties.now }
{
    match properties {
        Some(p) => p.subscription_identifiers.as_slice(),
        None => &[],
    }
}

/// The subscription identifiers of a Publish that came (MQTT 5.0 section 3.3.2.3.8), in their order; none of another
/// event. Takes no memory.
pub fn subscriptions_in(event: &Event) -> &[usize]
    ensures { result.now ≡ subscriptions_in event.now }
{
    match event {
        Event::Incoming(Packet::Publish(publish)) => publish_subscriptions(&publish.properties),
        _other => &[],
    }
}
