//! Properties that are texts or binary data.

ghost use Rattle.std.specs.Prelude.{◌≡◌, option_copied};
ghost use Rattle.mqtt5_events.specs.Properties.{at_id, of_set, bytes_of, connack_contents, publish_contents, ack_contents, disconnect_contents, auth_contents, contents_of, content_in};

use bytes::Bytes;
use mqtt5_base::{AckProperties, Text};
use mqtt5_codec::Packet;
use mqtt5_control::{AuthProperties, ConnAckProperties, DisconnectProperties};
use mqtt5_inflight::Event;
use mqtt5_publish::PublishProperties;

fn of_text(text: &Option<Text>) -> Option<&[u8]>
    ensures { option_copied result ≡ bytes_of text.now }
{
    match text {
        Some(text) => Some(text.as_bytes()),
        None => None,
    }
}

fn of_bytes(bytes: &Option<Bytes>) -> Option<&[u8]>
    ensures { option_copied result ≡ bytes.now }
{
    match bytes {
        Some(bytes) => Some(bytes.as_slice()),
        None => None,
    }
}

fn connack_content(properties: &Option<ConnAckProperties>, id: u32) -> Option<&[u8]>
    ensures { option_copied result ≡ at_id (of_set connack_contents properties.now) id }
{
    let Some(p) = properties else {
        return None;
    };
    match id {
        18 => of_text(&p.assigned_client_identifier),
        21 => of_text(&p.authentication_method),
        22 => of_bytes(&p.authentication_data),
        26 => of_text(&p.response_information),
        28 => of_text(&p.server_reference),
        31 => of_text(&p.reason_string),
        _ => None,
    }
}

pub(crate) fn publish_content(properties: &Option<PublishProperties>, id: u32) -> Option<&[u8]>
    ensures { option_copied result ≡ at_id (of_set publish_contents properties.now) id }
{
    let Some(p) = properties else {
        return None;
    };
    match id {
        3 => of_text(&p.content_type),
        8 => of_text(&p.response_topic),
        9 => of_bytes(&p.correlation_data),
        _ => None,
    }
}

fn ack_content(properties: &Option<AckProperties>, id: u32) -> Option<&[u8]>
    ensures { option_copied result ≡ at_id (of_set ack_contents properties.now) id }
{
    let Some(p) = properties else {
        return None;
    };
    match id {
        31 => of_text(&p.reason_string),
        _ => None,
    }
}

fn disconnect_content(properties: &Option<DisconnectProperties>, id: u32) -> Option<&[u8]>
    ensures { option_copied result ≡ at_id (of_set disconnect_contents properties.now) id }
{
    let Some(p) = properties else {
        return None;
    };
    match id {
        28 => of_text(&p.server_reference),
        31 => of_text(&p.reason_string),
        _ => None,
    }
}

fn auth_content(properties: &Option<AuthProperties>, id: u32) -> Option<&[u8]>
    ensures { option_copied result ≡ at_id (of_set auth_contents properties.now) id }
{
    let Some(p) = properties else {
        return None;
    };
    match id {
        21 => of_text(&p.method),
        22 => of_bytes(&p.auth_data),
        31 => of_text(&p.reason),
        _ => None,
    }
}

fn packet_content(packet: &Packet, id: u32) -> Option<&[u8]>
    ensures { option_copied result ≡ at_id (contents_of packet.now) id }
{
    match packet {
        Packet::ConnAck(ack) => connack_content(&ack.properties, id),
        Packet::Publish(publish) => publish_content(&publish.properties, id),
        Packet::PubAck(ack) => ack_content(&ack.properties, id),
        Packet::PubRec(ack) => ack_content(&ack.properties, id),
        Packet::PubRel(release) => ack_content(&release.properties, id),
        Packet::PubComp(ack) => ack_content(&ack.properties, id),
        Packet::SubAck(ack) => ack_content(&ack.properties, id),
        Packet::UnsubAck(ack) => ack_content(&ack.properties, id),
        Packet::Disconnect(disconnect) => disconnect_content(&disconnect.properties, id),
        Packet::Auth(auth) => auth_content(&auth.properties, id),
        _other => None,
    }
}

/// The bytes of the property with this identifier (MQTT 5.0 section 2.2.2.2) of a packet that came, a text or binary data;
/// None where it has none. Takes no memory.
pub fn content_in(event: &Event, id: u32) -> Option<&[u8]>
    ensures { option_copied result ≡ content_in event.now id }
{
    match event {
        Event::Incoming(packet) => packet_content(packet, id),
        Event::Outgoing(_) => None,
    }
}
