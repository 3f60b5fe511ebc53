//! A broker, with no socket, thread or clock: bytes of connections in, bytes for connections out. Numbers in brackets are sections of
//! MQTT 5.0.
#![tactic(auto)]

mod aliases;
mod asking;
mod bounds;
mod broker;
mod clock;
mod connecting;
mod connection;
mod connections;
mod expiry;
mod groups;
mod judging;
mod laws;
mod member;
mod moments;
mod reasons;
mod rights;
mod serving;
mod wills;

pub use asking::Asks;
pub use bounds::Bounds;
pub use broker::{Broker, Limits};
pub use laws::{
    acts_law, any_calls_law, asking_law, clock_law, connections_law, fault_law, pieces_law,
    rights_law, sharing_law, waiting_law,
};
