//! The session of an MQTT 5 client and the loop over it, without sockets and clocks, by the paths of
//! the original.
#![tactic(auto)]

/// Rules, errors, packets and their codec.
pub mod mqttbytes;
#[cfg(test)]
mod tests;

pub use mqtt5_drive::{
    Input, Step, calls_law, cutting, drive, empty_needs_more, take_limit, twice,
};
pub use mqtt5_options::MqttOptions;
pub use mqtt5_progress::{any_order_law, play_out, progress_law};
pub use mqtt5_session::{
    Event, Incoming, MqttState, Outgoing, Request, StateError, ledger_law, once_law,
};
pub use mqtt5_streams::{
    ByteEvent, answers_law, arrival_law, counts_law, play_bytes, reduction_law, wire_law,
};
pub use mqtt5_world::{
    Call, Reply, Report, Twin, WorldEvent, delivery_law, play, tokens_law, twin, twin_law,
};
