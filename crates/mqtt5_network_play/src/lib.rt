//! A broker and its clients in code: what happens among them is played, and how often each publish
//! is shown to each client is counted.
#![tactic(auto)]

mod client;
mod network;
mod place;
mod player;
mod profile;
mod report;
mod shown;

pub use network::Network;
pub use player::{play_network, play_network_out};
pub use profile::Profile;
pub use report::{ClientReport, NetworkReport};
