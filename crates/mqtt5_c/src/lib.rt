//! MQTT 5.0 clients for programs in C: numbers and slices of bytes go in and out, and every answer of a client's call is a
//! number.
#![tactic(auto)]

mod ask;
mod client_ptr;
mod connect;
mod dropped;
mod event;
mod filters;
mod handle;
mod id;
mod life;
mod number;
mod properties;
mod say;
mod settings;
mod store;
mod stream;
mod told;
mod topic;
mod version;
