//! What a broker keeps of all its clients, with calls over packets: what comes of one is handed on to those that subscribed to it,
//! and messages are retained.
#![tactic(auto)]

mod bringing;
mod client;
mod coming;
mod counts;
mod laws;
mod marks;
mod sessions;
mod waiting;

pub use counts::Counts;
pub use laws::{bringing_law, quiet_law, run_law, sends_law, sessions_law, waiting_law};
pub use sessions::Sessions;
