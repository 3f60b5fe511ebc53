//! A network by its calls: what one client publishes at QoS 2 is shown to another.

use bytes::Bytes;
use mqtt5_base::{QoS, Sequence, Text};
use mqtt5_network::{ClientEvent, NetworkEvent, Subscription};
use mqtt5_network_play::{Network, Profile};
use mqtt5_publish::Publish;
use mqtt5_session::StateError;
use std::alloc::Global;
use std::num::NonZeroU16;
use std::test::Fail;

/// A client with a filter for which QoS 1 is granted.
fn profile(alloc: Global, filter: &str) -> Result<Profile, StateError> {
    let mut subscriptions = Sequence::new(alloc);
    subscriptions.push(Subscription {
        topic_filter: Text::from_str(alloc, filter)?,
        granted: QoS::AtLeastOnce,
        no_local: false,
        retain_as_published: false,
        identifier: None,
        share: None,
    })?;
    Ok(Profile {
        limit: NonZeroU16::MIN,
        sender_limit: NonZeroU16::MIN,
        subscriptions,
    })
}

/// The publish comes to the broker, is passed on to the second client, and comes to it.
fn events(alloc: Global) -> Result<[NetworkEvent; 4], StateError> {
    let payload = Bytes::copy_from_slice(alloc, b"x")?;
    let publish = Publish::new(alloc, "a/b", QoS::ExactlyOnce, payload, None)?;
    Ok([
        NetworkEvent {
            client: 0,
            what: ClientEvent::Ask(publish),
        },
        NetworkEvent {
            client: 0,
            what: ClientEvent::Up,
        },
        NetworkEvent {
            client: 1,
            what: ClientEvent::PassOn,
        },
        NetworkEvent {
            client: 1,
            what: ClientEvent::Down,
        },
    ])
}

/// How much each client accepted and was shown, whether what was shown is of QoS 1, and whether all is at rest then.
fn counts(network: &Network, alloc: Global) -> Result<([usize; 4], bool), StateError> {
    let shown = network.shown(alloc, 1)?;
    let of_qos_1 = shown
        .as_slice()
        .iter()
        .all(|publish| publish.qos == QoS::AtLeastOnce);
    let counts = [
        network.accepted(0).len(),
        network.accepted(1).len(),
        network.shown(alloc, 0)?.len(),
        shown.len(),
    ];
    Ok((counts, of_qos_1 && !network.rests()))
}

fn played(alloc: Global) -> Result<([usize; 4], bool), StateError> {
    let profiles = [profile(alloc, "b")?, profile(alloc, "a/+")?];
    let mut network = Network::new(alloc, &profiles)?;
    network.play_all(alloc, &events(alloc)?)?;
    counts(&network, alloc)
}

#[test]
fn what_is_published_is_shown(rt: HostRuntime) -> Result<(), Fail> {
    assert_eq!(rt; played(rt.alloc()), Ok(([1, 0, 0, 1], true)));
    Ok(())
}
