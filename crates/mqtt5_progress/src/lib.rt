//! What is left to do in a world, and that all is handed on in the end.
#![tactic(auto)]

mod late;
mod laws;
mod player;
mod subscribers;

pub use late::{LateBroker, late_delivery_law, late_law, late_progress_law};
pub use laws::{any_order_law, progress_law};
pub use player::play_out;
pub use subscribers::{reaches, received, subscribers_law};
