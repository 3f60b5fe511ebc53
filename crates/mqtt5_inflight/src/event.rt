//! What a session is asked for, and what it tells of.

use mqtt5_codec::Packet;
use mqtt5_publish::{PubAck, PubComp, PubRec, PubRel, Publish};
use mqtt5_subscribe::{SubAck, Subscribe, UnsubAck, Unsubscribe};

/// What the client asks of the session.
#[derive(Clone, Debug, PartialEq, Eq, Drop)]
pub enum Request {
    /// Sends a publish; packet identifier 0 stands for the next one.
    Publish(Publish),
    /// Answers a publish of QoS 1, where the user sends the acks.
    PubAck(PubAck),
    /// Answers a publish of QoS 2, where the user sends the acks.
    PubRec(PubRec),
    /// Refused: the session answers a PubRel itself.
    PubComp(PubComp),
    /// Releases an id; 0 stands for the next one. Only the id is looked at.
    PubRel(PubRel),
    /// Asks whether the broker is there.
    PingReq,
    /// Refused: a broker sends it.
    PingResp,
    /// Subscribes under the next id.
    Subscribe(Subscribe),
    /// Refused: a broker sends it.
    SubAck(SubAck),
    /// Unsubscribes under the next id.
    Unsubscribe(Unsubscribe),
    /// Refused: a broker sends it.
    UnsubAck(UnsubAck),
    /// Ends the connection.
    Disconnect,
}

/// Takes no memory.
impl From<Subscribe> for Request {
    ghost use Rattle.std.specs.Prelude.{◌≡◌};
    ghost use Rattle.mqtt5_inflight.specs.declared.event.Request.TheVariants as requests;

    ghost from_gives = { λ s r. r ≡ requests.Subscribe s };

    fn from(subscribe: Subscribe) -> Request {
        Request::Subscribe(subscribe)
    }
}

/// A packet from the broker.
pub type Incoming = Packet;

/// What was sent, with its packet identifier where it has one.
#[derive(Clone, Copy, Debug, PartialEq, Eq)]
pub enum Outgoing {
    Publish(u16),
    Subscribe(u16),
    Unsubscribe(u16),
    PubAck(u16),
    PubRec(u16),
    PubRel(u16),
    PubComp(u16),
    PingReq,
    Disconnect,
    Auth,
    /// A publish that waits until its id is free.
    AwaitAck(u16),
}

/// What happened, for the user to read.
#[derive(Clone, Debug, PartialEq, Eq, Drop)]
pub enum Event {
    /// A packet that came, also one that was refused. A publish has the topic that its alias stands for.
    Incoming(Incoming),
    /// What was answered to send.
    Outgoing(Outgoing),
}
