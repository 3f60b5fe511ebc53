//! What a broker keeps of a Subscribe.

use mqtt5_base::{QoS, Text};

/// A subscription of a client (MQTT 5.0 sections 3.8.2.1.2, 3.8.3, 3.9.3 and 4.8.2).
#[derive(Debug, Drop)]
pub struct Subscription {
    /// The topic filter. A client has one subscription for each.
    pub topic_filter: Text,
    /// The QoS that the broker granted, the greatest of what it forwards for the filter.
    pub granted: QoS,
    /// No Local: under this subscription what the client itself publishes isn't forwarded to it.
    pub no_local: bool,
    /// Retain As Published: what is forwarded under it keeps its retain flag.
    pub retain_as_published: bool,
    /// The Subscription Identifier, if it has one, which what is forwarded under it has then.
    pub identifier: Option<usize>,
    /// What a shared subscription has beside; none of another.
    pub share: Option<Share>,
}

/// The part of a client in a shared subscription (MQTT 5.0 section 4.8.2).
#[derive(Debug, Drop)]
pub struct Share {
    /// The filter behind the share name, which topics are matched with.
    pub topic_filter: Text,
    /// Whether it is this client's turn: else the subscription holds for nothing.
    pub turn: bool,
}
