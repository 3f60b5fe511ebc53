//! What is to be sent, in short.

ghost use Rattle.std.specs.Prelude.{◌≡◌};
ghost use Rattle.mqtt5_session.specs.Replies.{made_of};
ghost use Rattle.mqtt5_session.specs.Short.{in_short};

use crate::packed::{as_disconnect, as_puback, as_pubcomp, as_pubrec, as_release};
use mqtt5_codec::Packet;
use mqtt5_control::DisconnectReasonCode;
use mqtt5_publish::{PubAck, PubComp, PubCompReason, PubRec};

/// What is to be sent, in short: an ack has no properties, and its reason is Success where none is said.
#[derive(Clone, Copy, Debug, PartialEq, Eq)]
pub enum Reply {
    /// Nothing.
    Nothing,
    /// The publish that awaits its ack under this id.
    Publish(u16),
    /// A PubAck of this id.
    PubAck(u16),
    /// A PubRec of this id.
    PubRec(u16),
    /// A PubRel of this id.
    PubRel(u16),
    /// A PubComp of this id, with its reason.
    PubComp(u16, PubCompReason),
    /// A Disconnect without properties.
    Disconnect(DisconnectReasonCode),
}

impl Reply {
    /// The packet of an ack or a Disconnect; None of nothing, and of a publish, which the session has. Takes no
    /// memory.
    #[inline(always)]
    pub fn packet(self) -> Option<Packet>
        ensures { result ≡ made_of self }
    {
        match self {
            Reply::Nothing => None,
            Reply::PubAck(id) => Some(as_puback(PubAck::new(id, None))),
            other => other.rare_packet(),
        }
    }

    #[inline(never)]
    fn rare_packet(self) -> Option<Packet>
        ensures { result ≡ made_of self }
    {
        match self {
            Reply::Nothing | Reply::Publish(_) => None,
            Reply::PubAck(id) => Some(as_puback(PubAck::new(id, None))),
            Reply::PubRec(id) => Some(as_pubrec(PubRec::new(id, None))),
            Reply::PubRel(id) => Some(as_release(id)),
            Reply::PubComp(pkid, reason) => Some(as_pubcomp(PubComp {
                pkid,
                reason,
                properties: None,
            })),
            Reply::Disconnect(code) => Some(as_disconnect(code)),
        }
    }
}

/// What an answer is in short.
pub fn in_short(answer: &Option<Packet>) -> Reply
    ensures { result ≡ in_short answer.now }
{
    match answer {
        Some(Packet::Publish(publish)) => Reply::Publish(publish.pkid),
        Some(Packet::PubAck(ack)) => Reply::PubAck(ack.pkid),
        Some(Packet::PubRec(ack)) => Reply::PubRec(ack.pkid),
        Some(Packet::PubRel(release)) => Reply::PubRel(release.pkid),
        Some(Packet::PubComp(ack)) => Reply::PubComp(ack.pkid, ack.reason),
        Some(Packet::Disconnect(disconnect)) => Reply::Disconnect(disconnect.reason_code),
        _other => Reply::Nothing,
    }
}
