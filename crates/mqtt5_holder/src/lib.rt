//! A client with what its packets have, and what its session let go.
#![tactic(auto)]

mod dropped;
mod holder;

pub use dropped::Dropped;
pub use holder::Holder;
