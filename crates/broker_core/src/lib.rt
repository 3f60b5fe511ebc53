//! The core of a broker of QoS 0: bytes of clients in, bytes for clients out. It opens no socket, and keeps no session and
//! no message. Client identifiers, logins, wills and the keep alive are read and then ignored. Numbers in brackets are
//! sections of MQTT 5.0.
#![tactic(auto)]

mod broker;
mod client;
mod error;
mod filters;
mod laws;
mod publishes;
#[cfg(test)]
mod tests;

pub use broker::{Broker, LONGEST};
pub use error::BrokerError;
pub use laws::broker_error_equality;
