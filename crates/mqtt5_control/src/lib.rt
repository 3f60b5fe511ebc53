//! The packets that answer a Connect, authenticate, and end a connection.
#![tactic(auto)]

mod auth;
mod connack;
mod disconnect;
mod exact;
mod optional;

pub use auth::{Auth, AuthProperties, AuthReasonCode};
pub use connack::{ConnAck, ConnAckProperties, ConnectReturnCode};
pub use disconnect::{Disconnect, DisconnectProperties, DisconnectReasonCode};
