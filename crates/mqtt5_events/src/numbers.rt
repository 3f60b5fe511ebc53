//! Properties that are numbers.

ghost use Rattle.std.specs.Prelude.{◌≡◌};
ghost use Rattle.mqtt5_events.specs.Properties.{at_id, of_set, connack_numbers, publish_numbers, disconnect_numbers, numbers_of, number_in};

use mqtt5_codec::Packet;
use mqtt5_control::{ConnAckProperties, DisconnectProperties};
use mqtt5_inflight::Event;
use mqtt5_publish::PublishProperties;

fn of_byte(number: Option<u8>) -> Option<u32>
    ensures { result ≡ number }
{
    match number {
        Some(n) => Some(u32::from(n)),
        None => None,
    }
}

fn of_two_bytes(number: Option<u16>) -> Option<u32>
    ensures { result ≡ number }
{
    match number {
        Some(n) => Some(u32::from(n)),
        None => None,
    }
}

/// A number of a ConnAck.
fn connack_number(properties: &Option<ConnAckProperties>, id: u32) -> Option<u32>
    ensures { result ≡ at_id (of_set connack_numbers properties.now) id }
{
    let Some(p) = properties else {
        return None;
    };
    match id {
        17 => p.session_expiry_interval,
        19 => of_two_bytes(p.server_keep_alive),
        33 => of_two_bytes(p.receive_max),
        34 => of_two_bytes(p.topic_alias_max),
        36 => of_byte(p.max_qos),
        37 => of_byte(p.retain_available),
        39 => p.max_packet_size,
        40 => of_byte(p.wildcard_subscription_available),
        41 => of_byte(p.subscription_identifiers_available),
        42 => of_byte(p.shared_subscription_available),
        _ => None,
    }
}

pub(crate) fn publish_number(properties: &Option<PublishProperties>, id: u32) -> Option<u32>
    ensures { result ≡ at_id (of_set publish_numbers properties.now) id }
{
    let Some(p) = properties else {
        return None;
    };
    match id {
        1 => of_byte(p.payload_format_indicator),
        2 => p.message_expiry_interval,
        35 => of_two_bytes(p.topic_alias),
        _ => None,
    }
}

fn disconnect_number(properties: &Option<DisconnectProperties>, id: u32) -> Option<u32>
    ensures { result ≡ at_id (of_set disconnect_numbers properties.now) id }
{
    let Some(p) = properties else {
        return None;
    };
    if id == 17 {
        p.session_expiry_interval
    } else {
        None
    }
}

fn packet_number(packet: &Packet, id: u32) -> Option<u32>
    ensures { result ≡ at_id (numbers_of packet.now) id }
{
    match packet {
        Packet::ConnAck(ack) => connack_number(&ack.properties, id),
        Packet::Publish(publish) => publish_number(&publish.properties, id),
        Packet::Disconnect(disconnect) => disconnect_number(&disconnect.properties, id),
        _other => None,
    }
}

/// The number of the property with this identifier (MQTT 5.0 section 2.2.2.2) of a packet that came; None where it has
/// none. Subscription identifiers are `subscriptions_in`. Takes no memory.
pub fn number_in(event: &Event, id: u32) -> Option<u32>
    ensures { result ≡ number_in event.now id }
{
    match event {
        Event::Incoming(packet) => packet_number(packet, id),
        Event::Outgoing(_) => None,
    }
}
