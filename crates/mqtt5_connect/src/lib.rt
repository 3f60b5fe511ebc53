//! The packet that opens a connection, with its will and its login.
#![tactic(auto)]

mod connect;
mod connect_part;
mod exact;
mod login;
mod will;

pub use connect::{Connect, ConnectProperties};
pub use login::Login;
pub use will::{LastWill, LastWillProperties};
