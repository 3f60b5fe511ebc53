//! The paths of the original: rules and errors here, packets and their codec in `v5`.

pub use mqtt5_base::{Error, QoS, has_wildcards, matches, qos, valid_filter, valid_topic};

/// Packets, their properties and reason codes, frames and the codec.
pub mod v5;
