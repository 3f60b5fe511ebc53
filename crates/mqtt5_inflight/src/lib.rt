//! What a session of MQTT 5 holds: the packet identifiers in use and the topics of aliases; and what it is
//! asked for, what it tells and why it refuses.
#![tactic(auto)]

mod aliases;
mod error;
mod event;
mod exact;
mod ids;
mod laws;
mod page;
mod pages;
mod slot;
mod slots;
mod table;

pub use aliases::{Aliases, alias_of, alias_over};
pub use error::StateError;
pub use event::{Event, Incoming, Outgoing, Request};
pub use ids::Ids;
pub use laws::state_error_equality;
pub use slot::Slot;
pub use slots::Slots;
