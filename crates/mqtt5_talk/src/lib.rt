//! A client that talks to a broker over a reader and a writer: it opens a connection, publishes, subscribes, and shows
//! what comes. It has no clock: its reader says when a ping is due.
#![tactic(auto)]

mod capabilities;
mod error;
mod opening;
mod program;
mod publishing;
mod reason;
mod show;
mod source;
mod subscribing;
mod words;

pub use capabilities::{Capabilities, Forbidden};
pub use error::TalkError;
pub use opening::{await_end, close, endless, hand_in, open};
pub use program::{new_client, refuse, refuse_words, tell};
pub use publishing::{hand_allowed, publish, publish_all, take_refusal};
pub use reason::ReasonText;
pub use show::{Lines, Raw, Screen};
pub use source::{Heading, LineSource, Source};
pub use subscribing::{ack_for, await_subscribed, is_granted, receive, subscribe, unsubscribe};
pub use words::{connect_of, connection_options, quality_of};
