//! The session of an MQTT 5 client, without sockets and clocks.
#![tactic(auto)]

mod laws;
mod packed;
mod parts;
mod reply;
mod state;

pub use laws::{ledger_law, once_law};
pub use mqtt5_inflight::{Event, Ids, Incoming, Outgoing, Request, StateError};
pub use parts::{Numbers, PartsError};
pub use reply::Reply;
pub use state::MqttState;
