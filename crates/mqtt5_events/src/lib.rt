//! What an event says, the properties and the reason codes of a packet that came, and what a request says, the properties of
//! a Publish.
#![tactic(auto)]

mod asked;
mod contents;
mod lists;
mod numbers;
mod reasons;

pub use asked::{content_asked, number_asked, pairs_asked};
pub use contents::content_in;
pub use lists::{pairs_in, subscriptions_in};
pub use numbers::number_in;
pub use reasons::reason_in;
