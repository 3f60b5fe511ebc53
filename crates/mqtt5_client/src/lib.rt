//! A client of a broker: its session, its codec and the bytes between them and a connection.
#![tactic(auto)]

mod again;
mod asking;
mod client;
mod connecting;
mod numbers;
mod storing;
mod taking_up;

pub use client::{Client, one_run};
pub use mqtt5_base::{Error, QoS, Sequence, Text};
pub use mqtt5_codec::{Codec, Packet};
pub use mqtt5_connect::{LastWill, Login};
pub use mqtt5_control::{
    Auth, AuthProperties, AuthReasonCode, ConnAck, ConnectReturnCode, Disconnect,
    DisconnectProperties, DisconnectReasonCode,
};
pub use mqtt5_options::MqttOptions;
pub use mqtt5_publish::{PubAck, PubRec, Publish};
pub use mqtt5_session::{Event, Incoming, MqttState, Outgoing, Request, StateError};
pub use mqtt5_store::StoreError;
pub use mqtt5_subscribe::{Filter, Subscribe, Unsubscribe};
pub use numbers::{error_number, state_error_number};
pub use taking_up::fitting_law;
