//! Subscriptions and their acks: Subscribe, SubAck, Unsubscribe and UnsubAck.
#![tactic(auto)]

mod exact;
mod filter;
mod laws;
mod list_body;
mod listed;
mod suback;
mod subscribe;
mod unsuback;
mod unsubscribe;

pub use filter::{Filter, RetainForwardRule};
pub use laws::default_rule;
pub use suback::{SubAck, SubAckProperties, SubscribeReasonCode};
pub use subscribe::{Subscribe, SubscribeProperties};
pub use unsuback::{UnsubAck, UnsubAckProperties, UnsubAckReason};
pub use unsubscribe::{Unsubscribe, UnsubscribeProperties};
