//! Publish, its acks and pings.
#![tactic(auto)]

mod ack;
mod exact;
mod ping;
mod puback;
mod pubcomp;
mod publish;
mod pubrec;
mod pubrel;

pub use mqtt5_base::AckProperties;
pub use ping::{PingReq, PingResp};
pub use puback::{PubAck, PubAckProperties, PubAckReason};
pub use pubcomp::{PubComp, PubCompProperties, PubCompReason};
pub use publish::{Publish, PublishProperties};
pub use pubrec::{PubRec, PubRecProperties, PubRecReason};
pub use pubrel::{PubRel, PubRelProperties, PubRelReason};
