//! A publish as a broker forwards it.

ghost use Rattle.std.specs.Prelude.{◌≡◌, IfOk, option_map};
ghost use Rattle.mqtt5_network.specs.Forwarded.{lesser, passed_on, forwarded, with_identifiers, identified};

use mqtt5_base::{QoS, Sequence, copied};
use mqtt5_publish::{Publish, PublishProperties};
use std::alloc::{AllocError, Global};

/// The lesser of two QoS.
fn lesser(qos: QoS, other: QoS) -> QoS
    ensures { result ≡ lesser qos other }
{
    match (qos, other) {
        (QoS::AtMostOnce, _) => QoS::AtMostOnce,
        (QoS::AtLeastOnce, QoS::AtMostOnce) => QoS::AtMostOnce,
        (QoS::AtLeastOnce, _) => QoS::AtLeastOnce,
        (QoS::ExactlyOnce, _) => other,
    }
}

/// A publish as it is forwarded under a granted QoS: at the lesser QoS (MQTT 5.0 section 3.8.4),
/// with no id yet, sent for the first time, not retained, and without its topic alias and its
/// subscription identifiers (3.3.1 and 3.3.2.3). Err where memory is refused.
pub fn forward(alloc: Global, granted: QoS, publish: &Publish) -> Result<Publish, AllocError>
    ensures { IfOk result (λ p. p ≡ forwarded granted publish.now) }
{
    let mut publish = copied(publish)?;
    publish.qos = lesser(publish.qos, granted);
    publish.pkid = 0;
    publish.dup = false;
    publish.retain = false;
    publish.properties = pass_on(alloc, publish.properties);
    Ok(publish)
}

/// The properties that are passed on.
fn pass_on(alloc: Global, properties: Option<PublishProperties>) -> Option<PublishProperties>
    ensures { result ≡ option_map passed_on properties }
{
    match properties {
        Some(mut set) => {
            set.topic_alias = None;
            set.subscription_identifiers = Sequence::new(alloc);
            Some(set)
        }
        None => None,
    }
}

/// A publish with subscription identifiers (3.3.2.3.8). Takes no memory.
pub(super) fn identified(publish: Publish, identifiers: Sequence<usize>, alloc: Global) -> Publish
    ensures { result ≡ identified identifiers publish }
{
    let mut publish = publish;
    publish.properties = with_identifiers(alloc, identifiers, publish.properties);
    publish
}

/// Properties with them, or as they were, where there are none.
fn with_identifiers(
    alloc: Global,
    identifiers: Sequence<usize>,
    properties: Option<PublishProperties>,
) -> Option<PublishProperties>
    ensures { result ≡ with_identifiers identifiers properties }
{
    if identifiers.is_empty() {
        return properties;
    }
    let mut set = match properties {
        Some(set) => set,
        None => PublishProperties::new(alloc),
    };
    set.subscription_identifiers = identifiers;
    Some(set)
}
