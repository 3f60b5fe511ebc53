//! The loop over a reader and a writer: what is read goes to a client, and its output is written.
#![tactic(auto)]

mod error;
mod pipe;

pub use error::PipeError;
pub use mqtt5_client::{Client, Event, Request, StateError};
pub use pipe::{run_to_end, turn, write_output};
