//! Which packets a broker refuses, and why.

ghost use Rattle.std.specs.Prelude.{◌≡◌};
ghost use Rattle.std.specs.List.{list_any};
ghost use Rattle.mqtt5_broker.specs.Judging.{is_topic_text, is_topic, properties_fault, topic_fault, publish_fault, is_shared, is_wildcard, is_share_name, is_share_at, is_share, is_malformed, is_local_share, identifier_fault, filters_fault, subscribe_fault, packet_fault, is_zero_or_none, new_expiry, expiry_fault, goodbye_fault, client_fault, is_zero, is_short, settings_fault, will_fault, answer_length, connect_fault};

use mqtt5_base::{valid_filter, valid_topic};
use mqtt5_codec::Packet;
use mqtt5_connect::{Connect, ConnectProperties, LastWill};
use mqtt5_control::{ConnectReturnCode, DisconnectProperties, DisconnectReasonCode};
use mqtt5_publish::{Publish, PublishProperties};
use mqtt5_router::slash_in;
use mqtt5_subscribe::{Filter, Subscribe, SubscribeProperties};

/// Whether a text can be the topic of a publish: it isn't empty, and has no wildcard (4.7).
fn is_topic_text(text: &str) -> bool
    ensures { result ≡ is_topic_text text.now }
{
    !text.is_empty() && valid_topic(text)
}

/// Whether bytes are a topic (3.3.2.1).
fn is_topic(bytes: &[u8]) -> bool
    ensures { result ≡ is_topic bytes.now }
{
    match std::str::from_utf8(bytes) {
        Ok(text) => is_topic_text(text),
        Err(_) => false,
    }
}

fn topic_fault(topic: &[u8]) -> Option<DisconnectReasonCode>
    ensures { result ≡ topic_fault topic.now }
{
    if topic.is_empty() {
        return Some(DisconnectReasonCode::ProtocolError);
    }
    if is_topic(topic) {
        None
    } else {
        Some(DisconnectReasonCode::TopicNameInvalid)
    }
}

fn properties_fault(properties: &Option<PublishProperties>) -> Option<DisconnectReasonCode>
    ensures { result ≡ properties_fault properties.now }
{
    match properties {
        Some(set) => {
            if set.topic_alias.is_some() {
                return Some(DisconnectReasonCode::TopicAliasInvalid);
            }
            if set.subscription_identifiers.is_empty() {
                return None;
            }
            Some(DisconnectReasonCode::ProtocolError)
        }
        None => None,
    }
}

/// Why a publish is refused, if it is: TopicAliasInvalid, ProtocolError, TopicNameInvalid.
fn publish_fault(publish: &Publish) -> Option<DisconnectReasonCode>
    ensures { result ≡ publish_fault publish.now }
{
    match properties_fault(&publish.properties) {
        Some(reason) => Some(reason),
        None => topic_fault(publish.topic.as_slice()),
    }
}

/// Whether a filter is that of a shared subscription (4.8.2).
fn is_shared(filter: &Filter) -> bool
    ensures { result ≡ is_shared filter.now }
{
    filter.path.as_bytes().starts_with("$share/".as_bytes())
}

/// Whether so many bytes are a share name, and others stand behind the slash (4.8.2).
fn is_share_at(name: Option<usize>, bytes: &[u8]) -> bool
    ensures { result ≡ is_share_at name bytes.now }
{
    match name {
        None => false,
        Some(n) => n < bytes.len() && n + 1 < bytes.len() && is_share_name(&bytes[..n]),
    }
}

fn is_share_name(name: &[u8]) -> bool
    ensures { result ≡ is_share_name name.now }
{
    !name.is_empty() && !has_wildcard(name)
}

fn has_wildcard(bytes: &[u8]) -> bool
    ensures { result ≡ list_any is_wildcard bytes.now }
{
    bytes.iter().any(|byte| is_wildcard(*byte))
}

fn is_wildcard(byte: u8) -> bool
    ensures { result ≡ is_wildcard byte }
{
    byte == b'#' || byte == b'+'
}

/// Whether bytes are a share name, a slash and more (4.8.2).
fn is_share(bytes: &[u8]) -> bool
    ensures { result ≡ is_share bytes.now }
{
    is_share_at(slash_in(bytes), bytes)
}

/// Whether a text is no topic filter (4.7, 4.8.2).
fn is_malformed(filter: &Filter) -> bool
    ensures { result ≡ is_malformed filter.now }
{
    !valid_filter(filter.path.as_str())
        || (is_shared(filter) && !is_share(&filter.path.as_bytes()[7..]))
}

/// Whether a filter is that of a shared subscription with No Local (3.8.3.1).
fn is_local_share(filter: &Filter) -> bool
    ensures { result ≡ is_local_share filter.now }
{
    filter.nolocal && is_shared(filter)
}

fn has_local_share(filters: &[Filter]) -> bool
    ensures { result ≡ list_any is_local_share filters.now }
{
    filters.iter().any(|filter| is_local_share(filter))
}

fn has_malformed(filters: &[Filter]) -> bool
    ensures { result ≡ list_any is_malformed filters.now }
{
    filters.iter().any(|filter| is_malformed(filter))
}

fn filters_fault(filters: &[Filter]) -> Option<DisconnectReasonCode>
    ensures { result ≡ filters_fault filters.now }
{
    if has_malformed(filters) {
        return Some(DisconnectReasonCode::TopicFilterInvalid);
    }
    if has_local_share(filters) {
        return Some(DisconnectReasonCode::ProtocolError);
    }
    None
}

fn identifier_fault(properties: &Option<SubscribeProperties>) -> Option<DisconnectReasonCode>
    ensures { result ≡ identifier_fault properties.now }
{
    match properties {
        Some(set) => {
            if is_zero_usize(set.id) {
                return Some(DisconnectReasonCode::ProtocolError);
            }
            None
        }
        None => None,
    }
}

fn is_zero_usize(number: Option<usize>) -> bool
    ensures { result ≡ is_zero number }
{
    match number {
        Some(number) => number == 0,
        None => false,
    }
}

/// Why a Subscribe is refused, if it is: ProtocolError, TopicFilterInvalid.
fn subscribe_fault(subscribe: &Subscribe) -> Option<DisconnectReasonCode>
    ensures { result ≡ subscribe_fault subscribe.now }
{
    match identifier_fault(&subscribe.properties) {
        Some(reason) => Some(reason),
        None => filters_fault(subscribe.filters.as_slice()),
    }
}

/// Why a packet of a client that is connected is refused by itself, if it is.
fn packet_fault(packet: &Packet) -> Option<DisconnectReasonCode>
    ensures { result ≡ packet_fault packet.now }
{
    match packet {
        Packet::Publish(publish) => publish_fault(publish),
        Packet::Subscribe(subscribe) => subscribe_fault(subscribe),
        Packet::Unsubscribe(_)
        | Packet::PubAck(_)
        | Packet::PubRec(_)
        | Packet::PubRel(_)
        | Packet::PubComp(_)
        | Packet::PingReq(_)
        | Packet::Disconnect(_) => None,
        _other => Some(DisconnectReasonCode::ProtocolError),
    }
}

/// After how many seconds a session is to end now, if a Disconnect says that (3.14.2.2.2).
pub(super) fn new_expiry(properties: &Option<DisconnectProperties>) -> Option<u32>
    ensures { result ≡ new_expiry properties.now }
{
    match properties {
        Some(set) => set.session_expiry_interval,
        None => None,
    }
}

fn is_zero_or_none(number: Option<u32>) -> bool
    ensures { result ≡ is_zero_or_none number }
{
    match number {
        Some(number) => number == 0,
        None => true,
    }
}

fn expiry_fault(stays: bool, expiry: Option<u32>) -> Option<DisconnectReasonCode>
    ensures { result ≡ expiry_fault stays expiry }
{
    if stays || is_zero_or_none(expiry) {
        None
    } else {
        Some(DisconnectReasonCode::ProtocolError)
    }
}

fn goodbye_fault(stays: bool, packet: &Packet) -> Option<DisconnectReasonCode>
    ensures { result ≡ goodbye_fault stays packet.now }
{
    match packet {
        Packet::Disconnect(disconnect) => expiry_fault(stays, new_expiry(&disconnect.properties)),
        _other => None,
    }
}

/// Why a packet of a client that is connected is refused, if it is; `stays` is whether its session stays when its connection
/// ends.
pub(super) fn client_fault(stays: bool, packet: &Packet) -> Option<DisconnectReasonCode>
    ensures { result ≡ client_fault stays packet.now }
{
    match packet_fault(packet) {
        Some(reason) => Some(reason),
        None => goodbye_fault(stays, packet),
    }
}

fn is_zero_u16(number: Option<u16>) -> bool
    ensures { result ≡ is_zero number }
{
    match number {
        Some(number) => number == 0,
        None => false,
    }
}

fn is_zero_u32(number: Option<u32>) -> bool
    ensures { result ≡ is_zero number }
{
    match number {
        Some(number) => number == 0,
        None => false,
    }
}

/// Whether packets of this length are too short for the answer to a Connect.
fn is_short(least: u32, length: Option<u32>) -> bool
    ensures { result ≡ is_short least length }
{
    match length {
        Some(length) => length < least,
        None => false,
    }
}

fn settings_fault(least: u32, properties: &Option<ConnectProperties>) -> Option<ConnectReturnCode>
    ensures { result ≡ settings_fault least properties.now }
{
    match properties {
        Some(set) => {
            if is_zero_u16(set.receive_maximum) || is_zero_u32(set.max_packet_size) {
                return Some(ConnectReturnCode::ProtocolError);
            }
            if is_short(least, set.max_packet_size) {
                return Some(ConnectReturnCode::PacketTooLarge);
            }
            if set.authentication_method.is_some() {
                return Some(ConnectReturnCode::BadAuthenticationMethod);
            }
            None
        }
        None => None,
    }
}

fn will_fault(will: &Option<LastWill>) -> Option<ConnectReturnCode>
    ensures { result ≡ will_fault will.now }
{
    match will {
        Some(will) => {
            if is_topic(will.topic.as_slice()) {
                return None;
            }
            Some(ConnectReturnCode::TopicNameInvalid)
        }
        None => None,
    }
}

/// The length that the answer to a Connect needs: up to 16 bytes, and up to 44 with a name that is given.
fn answer_length(connect: &Connect) -> u32
    ensures { result ≡ answer_length connect.now }
{
    if connect.client_id.as_bytes().is_empty() {
        44
    } else {
        16
    }
}

/// Why a Connect is refused, if it is: TopicNameInvalid of a will; ProtocolError, PacketTooLarge, BadAuthenticationMethod.
pub(super) fn connect_fault(connect: &Connect, will: &Option<LastWill>) -> Option<ConnectReturnCode>
    ensures { result ≡ connect_fault connect.now will.now }
{
    match will_fault(will) {
        Some(code) => Some(code),
        None => settings_fault(answer_length(connect), &connect.properties),
    }
}
