//! A client's session and a broker over streams of bytes that may be lost: what of its publishes is handed on.
#![tactic(auto)]

mod event;
mod laws;
mod player;
mod way;
mod world;

pub use event::ByteEvent;
pub use laws::{answers_law, arrival_law, counts_law, reduction_law, wire_law};
pub use player::play_bytes;
