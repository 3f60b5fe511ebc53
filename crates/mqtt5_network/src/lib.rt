//! A broker that retains messages, and its clients, which subscribe and unsubscribe as they like, go away and come back, and whose
//! sessions end.
#![tactic(auto)]

mod event;
mod laws;
mod subscription;

pub use event::{ClientEvent, NetworkEvent, Will, dated_will};
pub use laws::{
    answered_law, clients_law, copies_law, granted_law, receiver_law, retained_law, routing_law,
    shown_law, standing_law, steps_law, subscribing_law,
};
pub use subscription::{Share, Subscription};
