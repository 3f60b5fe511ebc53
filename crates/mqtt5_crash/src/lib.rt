//! What holds of a session that outlives its client's process.
#![tactic(auto)]

mod laws;

pub use laws::{crash_law, store_law};
