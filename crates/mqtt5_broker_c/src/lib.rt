//! An MQTT 5.0 broker for programs in C: bytes of connections go in and out, and every answer of a broker's call is a number.
#![tactic(auto)]

mod asking;
mod bounds;
mod broker_ptr;
mod clock;
mod connection;
mod handle;
mod life;
mod number;
mod rights;
mod stream;
