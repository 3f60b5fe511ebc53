//! A client's session and a broker over a connection that may be lost: what of its publishes is handed on.
#![tactic(auto)]

mod broker;
mod calls;
mod event;
mod laws;
mod player;
mod twins;
mod world;

pub use broker::{Broker, puback, pubcomp, pubrec};
pub use calls::{Call, Reply, Twin};
pub use event::{Report, WorldEvent};
pub use laws::{delivery_law, tokens_law};
pub use player::play;
pub use twins::{twin, twin_law};
pub use world::{World, taken_back};
