//! The settings of a client.
#![tactic(auto)]

mod connect_options;
mod options;

pub use options::MqttOptions;
