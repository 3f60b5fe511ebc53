//! What is known of an id in use.

use mqtt5_publish::Publish;

/// What is known of a packet identifier in use: the publish that awaits its ack, or that it was released.
#[derive(Clone, Debug, PartialEq, Eq, Drop)]
pub enum Slot {
    /// The publish, under its own id.
    Sent(Publish),
    /// The publish was released.
    Released,
}
