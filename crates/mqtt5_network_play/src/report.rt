//! What came of a network.

use mqtt5_base::Sequence;
use mqtt5_network::Subscription;
use mqtt5_publish::Publish;

/// What came of a client, or of a session that ended.
#[derive(Debug, Drop)]
pub struct ClientReport {
    /// The publishes that it was shown, in order, each with its id.
    pub shown: Sequence<Publish>,
    /// The publishes that were put into its queue, in order, as they are forwarded to it.
    pub routed: Sequence<Publish>,
    /// Of these the ones that expired in it, in order.
    pub expired: Sequence<Publish>,
    /// The publishes that its session accepted, in order, as they were asked for.
    pub accepted: Sequence<Publish>,
    /// The wills that the broker published for it, in order.
    pub willed: Sequence<Publish>,
    /// Its subscriptions.
    pub subscriptions: Sequence<Subscription>,
    /// Whether it is connected.
    pub here: bool,
    /// On how many new connections it came.
    pub lost: usize,
    /// How many packets are on their way to the broker.
    pub up: usize,
    /// How many packets are on their way to the client.
    pub down: usize,
    /// How many publishes are in its queue.
    pub queued: usize,
}

/// What came of all clients.
#[derive(Debug, Drop)]
pub struct NetworkReport {
    /// The clients with the sessions that they have, in the order of their profiles.
    pub clients: Sequence<ClientReport>,
    /// The sessions that ended, in order.
    pub ended: Sequence<ClientReport>,
}
