//! Packets of every type, and the codec of a stream of them.
#![tactic(auto)]

mod codec;
mod exact;
mod frames;
mod laws;
mod packet;
mod reading;

pub use codec::Codec;
pub use frames::frame_laws;
pub use packet::Packet;
