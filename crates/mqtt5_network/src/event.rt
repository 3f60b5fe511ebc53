//! What happens among a broker and its clients.

ghost use Rattle.std.specs.Prelude.{◌≡◌, option_map};
ghost use Rattle.mqtt5_network.specs.Place.{expiring_in, expiring};

use mqtt5_base::Text;
use mqtt5_publish::{Publish, PublishProperties};
use mqtt5_subscribe::{Subscribe, Unsubscribe};

/// What happens to a client.
#[derive(Debug, Drop)]
pub enum ClientEvent {
    /// The client asks for a publish, here or away.
    Ask(Publish),
    /// The client asks for subscriptions.
    Subscribe(Subscribe),
    /// The client asks for subscriptions to be taken out.
    Unsubscribe(Unsubscribe),
    /// The first packet on its way up arrives at the broker, if there is one.
    Up,
    /// The first packet on its way down arrives at the client, if there is one.
    Down,
    /// The broker passes the first publish of the client's queue to the client, if there is one and the client is here; where
    /// another one waits for its identifier it stays the first.
    PassOn,
    /// The broker takes the first publish of the client's queue out, if there is one, since it has expired (3.3.2.3.3), or too
    /// much waits there: it isn't passed on any more.
    Expire,
    /// The broker gives the client the turn in the shared subscription of a topic filter, or takes it (4.8.2).
    Turn(Text, bool),
    /// The connection is lost with all that was on its way: the broker publishes its will, or the will waits, where it has a delay.
    Lost,
    /// The delay of a will has passed (3.1.3.2.2): of a client that is away the broker publishes the one that waits, if there is
    /// one.
    Due,
    /// The broker writes another Message Expiry Interval into the client's will, if that has properties: the lifetime of a will begins
    /// once it is published (3.1.3.2.4).
    Dated(Option<u32>),
    /// The client leaves with a Disconnect of reason 0: its will is dropped, and all that was on its way is lost. Nothing changes
    /// of one that is away (3.14.4).
    Left,
    /// The client comes on a new connection, with this will, and both sides take up their session; with the receive maximum
    /// that the broker says then, and the one that the client says, if they say one. A will that waits is dropped. One that is
    /// here takes its own session over (3.1.4): the old connection's will is published, or dropped, where it has a delay.
    Back(Option<u16>, Option<u16>, Option<Will>),
    /// The client's session ends on both sides, by a clean start or since it expired, with all that was kept and all that is
    /// still in its queue, and its will is published; it has a new one, and is away then.
    Ends,
}

/// The will of a connection (MQTT 5.0 section 3.1.2.5).
#[derive(Debug, Drop)]
pub struct Will {
    /// What the broker publishes.
    pub publish: Publish,
    /// Whether it waits once the connection is lost, for a Will Delay Interval that isn't 0 (3.1.3.2.2).
    pub delayed: bool,
}

/// A will with another Message Expiry Interval, if there is one, and it has properties (3.1.3.2.4).
pub fn dated_will(will: Option<Will>, interval: Option<u32>) -> Option<Will>
    ensures { result ≡ option_map (expiring interval) will }
{
    match will {
        Some(will) => Some(Will {
            publish: dated_publish(will.publish, interval),
            delayed: will.delayed,
        }),
        None => None,
    }
}

fn dated_publish(publish: Publish, interval: Option<u32>) -> Publish
    ensures { result ≡ record publish {
      properties = option_map (expiring_in interval) publish.properties;
    } }
{
    let mut publish = publish;
    publish.properties = dated_properties(publish.properties, interval);
    publish
}

fn dated_properties(
    properties: Option<PublishProperties>,
    interval: Option<u32>,
) -> Option<PublishProperties>
    ensures { result ≡ option_map (expiring_in interval) properties }
{
    match properties {
        Some(mut set) => {
            set.message_expiry_interval = interval;
            Some(set)
        }
        None => None,
    }
}

/// What happens in a network.
#[derive(Debug, Drop)]
pub struct NetworkEvent {
    /// To which client, counted from 0; to none where there are fewer.
    pub client: usize,
    /// What.
    pub what: ClientEvent,
}
