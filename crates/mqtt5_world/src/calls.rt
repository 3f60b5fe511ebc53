//! Calls of a session, and what it replies.

use mqtt5_codec::Packet;
use mqtt5_session::{Request, StateError};

/// A call of a session, with its moment where it has one.
#[derive(Debug, Drop)]
pub enum Call {
    /// A request of the client.
    Outgoing(Request, u64),
    /// A packet from the broker.
    Incoming(Packet, u64),
    /// A clean.
    Clean,
    /// A protocol error of the broker.
    ProtocolError,
}

/// What a session replies to a call.
#[derive(Debug, Drop)]
pub enum Reply {
    /// What to send, or why the call is refused.
    Packet(Result<Option<Packet>, StateError>),
    /// What a clean gives back.
    Cleaned(Vec<Request>),
}

/// What came of calls, without and with a resume before them.
#[derive(Debug, Drop)]
pub struct Twin {
    /// What the resume sends.
    pub resent: Vec<Packet>,
    /// The replies without it.
    pub plain: Vec<Reply>,
    /// The replies with it.
    pub resumed: Vec<Reply>,
}
