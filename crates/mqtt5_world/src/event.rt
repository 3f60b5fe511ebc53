//! What happens in a world, and what comes of it.

use mqtt5_publish::Publish;
use mqtt5_session::{MqttState, StateError};

/// What happens.
#[derive(Debug, Drop)]
pub enum WorldEvent {
    /// The client asks for a publish.
    Publish(Publish),
    /// The first packet on its way up arrives at the broker, if there is one.
    Up,
    /// The first packet on its way down arrives at the client, if there is one.
    Down,
    /// The connection is lost with all that was on its way, and the client takes up its session on a new one; with the
    /// receive maximum that the broker says then, if it says one.
    Loss(Option<u16>),
}

/// What came of it.
#[derive(Debug, Drop)]
pub struct Report {
    /// What the broker handed on, in order, each with its id.
    pub handed: Vec<Publish>,
    /// The publishes that the session accepted, in order, as they were asked for.
    pub accepted: Vec<Publish>,
    /// Those that it refused, in order, and why.
    pub refused: Vec<(Publish, StateError)>,
    /// The session.
    pub state: MqttState,
}
