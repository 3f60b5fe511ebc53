//! What a client is told in words of why it is refused (3.2.2.3.9, 3.14.2.2.3).

ghost use Rattle.std.specs.Prelude.{◌≡◌, IfOk};
ghost use Rattle.mqtt5_base.specs.Texts.{text_of};
ghost use Rattle.mqtt5_broker.specs.Reasons.{is_too_long, fitting, why, disconnect, explained_disconnect, farewell, why_refused, refusal, explained_refusal, rejection};

use mqtt5_base::Text;
use mqtt5_codec::Packet;
use mqtt5_control::{
    ConnAck, ConnAckProperties, ConnectReturnCode, Disconnect, DisconnectProperties,
    DisconnectReasonCode,
};
use std::alloc::{AllocError, Global};

/// Whether a packet is longer than a client takes (3.1.2.11.4).
fn is_too_long(longest: Option<u32>, packet: &Packet) -> bool
    ensures { result ≡ is_too_long longest packet.now }
{
    match longest {
        Some(longest) => packet.size() > longest as usize,
        None => false,
    }
}

/// The one that says why, unless it is, and then the other.
fn fitting(longest: Option<u32>, explained: Packet, bare: Packet) -> Packet
    ensures { result ≡ fitting longest explained bare }
{
    if is_too_long(longest, &explained) {
        drop(explained);
        return bare;
    }
    drop(bare);
    explained
}

/// A text of these words. Err where memory is refused.
fn text_of(alloc: Global, words: &str) -> Result<Text, AllocError>
    ensures { IfOk result (λ t. t ≡ text_of words.now) }
{
    Text::from_str(alloc, words)
}

/// Why a connection ends.
fn why(reason: DisconnectReasonCode) -> &'static str
    ensures { result.now ≡ why reason }
{
    match reason {
        DisconnectReasonCode::MalformedPacket => "bytes that are no packet",
        DisconnectReasonCode::ProtocolError => {
            "a packet that may not come now, or that says what it may not"
        }
        DisconnectReasonCode::ServerShuttingDown => "the server ends",
        DisconnectReasonCode::KeepAliveTimeout => {
            "nothing came for one and a half times the keep alive"
        }
        DisconnectReasonCode::SessionTakenOver => {
            "another connection has this client identifier now"
        }
        DisconnectReasonCode::TopicFilterInvalid => "a topic filter that is none",
        DisconnectReasonCode::TopicNameInvalid => "a topic name that is none",
        DisconnectReasonCode::TopicAliasInvalid => {
            "a topic alias of 0, or over the topic alias maximum"
        }
        DisconnectReasonCode::PacketTooLarge => "a packet over the maximum packet size",
        DisconnectReasonCode::QuotaExceeded => "more than the server keeps",
        _other => "the server ends this connection",
    }
}

/// A Disconnect that says why (3.14.2.2.3). Err where memory is refused.
fn explained_disconnect(alloc: Global, reason: DisconnectReasonCode) -> Result<Packet, AllocError>
    ensures { IfOk result (λ p. p ≡ explained_disconnect reason) }
{
    let mut properties = DisconnectProperties::new(alloc);
    properties.reason_string = Some(text_of(alloc, why(reason))?);
    Ok(Packet::Disconnect(Disconnect {
        reason_code: reason,
        properties: Some(properties),
    }))
}

/// What a client is told at the end of its connection that takes packets of this length at most. Err where memory is refused.
pub(super) fn farewell(
    alloc: Global,
    longest: Option<u32>,
    reason: DisconnectReasonCode,
) -> Result<Packet, AllocError>
    ensures { IfOk result (λ p. p ≡ farewell longest reason) }
{
    let explained = explained_disconnect(alloc, reason)?;
    let bare = Packet::Disconnect(Disconnect::new(reason));
    Ok(fitting(longest, explained, bare))
}

/// Why a Connect is refused.
fn why_refused(code: ConnectReturnCode) -> &'static str
    ensures { result.now ≡ why_refused code }
{
    match code {
        ConnectReturnCode::ProtocolError => "a receive maximum or a maximum packet size of 0",
        ConnectReturnCode::ClientIdentifierNotValid => {
            "this client identifier has a session of another user"
        }
        ConnectReturnCode::NotAuthorized => "the topic of the will isn't allowed",
        ConnectReturnCode::ServerBusy => "the next client identifier is in use",
        ConnectReturnCode::BadAuthenticationMethod => "there is no extended authentication",
        ConnectReturnCode::TopicNameInvalid => "the topic of the will is none",
        ConnectReturnCode::PacketTooLarge => "the maximum packet size is shorter than the answer",
        ConnectReturnCode::QuotaExceeded => "the server has as many clients as it keeps",
        _other => "the server doesn't take this client",
    }
}

/// The answer to a Connect that is refused (3.2.2.2).
pub(super) fn refusal(code: ConnectReturnCode) -> Packet
    ensures { result ≡ refusal code }
{
    Packet::ConnAck(ConnAck {
        session_present: false,
        code,
        properties: None,
    })
}

/// One that says why (3.2.2.3.9). Err where memory is refused.
fn explained_refusal(alloc: Global, code: ConnectReturnCode) -> Result<Packet, AllocError>
    ensures { IfOk result (λ p. p ≡ explained_refusal code) }
{
    let mut properties = ConnAckProperties::new(alloc);
    properties.reason_string = Some(text_of(alloc, why_refused(code))?);
    Ok(Packet::ConnAck(ConnAck {
        session_present: false,
        code,
        properties: Some(properties),
    }))
}

/// What a client is told whose Connect is refused, and that takes packets of this length at most. Err where memory is refused.
pub(super) fn rejection(
    alloc: Global,
    longest: Option<u32>,
    code: ConnectReturnCode,
) -> Result<Packet, AllocError>
    ensures { IfOk result (λ p. p ≡ rejection longest code) }
{
    let explained = explained_refusal(alloc, code)?;
    Ok(fitting(longest, explained, refusal(code)))
}
