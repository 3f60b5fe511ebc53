//! What a broker keeps for each client, with calls over packets: it takes subscriptions in and out, receives publishes, and sends
//! what it forwards of them from a queue.
#![tactic(auto)]

mod asking;
mod forwarding;
mod kept;
mod laws;
mod queue;
mod retained;
pub mod sessions;
mod subscriptions;

pub use asking::{
    is_shared, share_of, shared_filter, slash_in, subscribe_all, subscriptions_of, unsubscribe_all,
};
pub use forwarding::forward;
pub use kept::{Arrived, Kept, Passed};
pub use laws::kept_law;
pub use queue::{forwarded, route};
pub use retained::retain;
pub use subscriptions::{granted_for, greater};
