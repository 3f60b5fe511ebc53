//! The loop over the session: bytes in pieces and requests go in, frames and events come out.
#![tactic(auto)]

mod limit;
mod put;
mod run;

pub use limit::take_limit;
pub use put::{put_made, put_puback, put_publish, put_pubrec, put_subscribe, put_unsubscribe};
pub use run::{
    Input, Step, calls_law, cutting, drive, empty_needs_more, take_input, take_piece, twice,
};
