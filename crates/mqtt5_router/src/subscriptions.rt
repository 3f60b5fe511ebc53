//! The subscriptions of a client.

ghost use Rattle.std.specs.Prelude.{◌≡◌, ◌++◌, Some, IfOk, OnOk, if◌then◌else◌};
ghost use Rattle.std.specs.List.{list_all};
ghost use Rattle.mqtt5_network.specs.Forwarded.{greater};
ghost use Rattle.mqtt5_network.specs.Subscriptions.{is_of, subscribed, unsubscribed, has_turn, pattern_of, with_turn};
ghost use Rattle.mqtt5_network.specs.Subscriptions.{turned, holds_for, granted_for, holding, identifiers_of, keep_retain};
ghost use Rattle.mqtt5_router.specs.Topics.{holds_to, granted_to, identifier_for, keeps_retain};

use mqtt5_base::{QoS, Sequence, Text, matches};
use mqtt5_network::{Share, Subscription};
use mqtt5_publish::Publish;
use std::alloc::{AllocError, Global};

/// Takes the subscription of a topic filter out, if there is one (MQTT 5.0 section 3.10.4). Takes no memory.
pub(super) fn unsubscribe(subscriptions: &mut Vec<Subscription>, topic_filter: &Text)
    ensures { subscriptions.new.items ≡ unsubscribed topic_filter.now subscriptions.old.items }
{
    subscriptions.retain(|other| !other.topic_filter.is(topic_filter.as_str()));
}

/// Takes a subscription in, in place of the one of its filter (3.8.4). Err where memory is refused.
pub(super) fn subscribe(
    subscriptions: &mut Vec<Subscription>,
    subscription: Subscription,
) -> Result<(), AllocError>
    ensures { OnOk result
        (subscriptions.new.items ≡ subscribed subscription subscriptions.old.items) }
{
    unsubscribe(subscriptions, &subscription.topic_filter);
    subscriptions.push(subscription)?;
    Ok(())
}

/// The greatest QoS that is granted for a publish, `own` where the client published it itself, or None where no subscription
/// holds for it, as where its topic is no text (3.3.4). Takes no memory.
pub fn granted_for(own: bool, subscriptions: &[Subscription], publish: &Publish) -> Option<QoS>
    ensures { result ≡ granted_for own subscriptions.now publish.now }
{
    match std::str::from_utf8(publish.topic.as_slice()) {
        Ok(topic) => granted_to(own, subscriptions, topic),
        Err(_) => None,
    }
}

/// What is granted for a publish to a topic.
#[tactic(auto, using(crate::proofs::Passing::granted_none, crate::proofs::Passing::granted_more))]
fn granted_to(own: bool, subscriptions: &[Subscription], topic: &str) -> Option<QoS>
    ensures { result ≡ granted_to own subscriptions.now topic.now }
{
    let mut granted = None;
    let mut left = subscriptions.len();
    while left > 0 {
        left -= 1;
        granted = widened(own, &subscriptions[left], topic, granted);
    }
    granted
}

/// What is granted with one subscription more.
fn widened(own: bool, subscription: &Subscription, topic: &str, granted: Option<QoS>) -> Option<QoS>
    ensures { result ≡ (if holds_to own subscription.now topic.now
        then Some (greater subscription.now.granted granted) else granted) }
{
    if holds_to(own, subscription, topic) {
        Some(greater(subscription.granted, granted))
    } else {
        granted
    }
}

/// Whether a subscription holds for a publish to a topic, of the client itself or of another.
fn holds_to(own: bool, subscription: &Subscription, topic: &str) -> bool
    ensures { result ≡ holds_to own subscription.now topic.now }
{
    if own && subscription.no_local {
        return false;
    }
    has_turn(&subscription.share) && matches(topic, pattern_of(subscription).as_str())
}

/// Whether it is the client's turn, which it always is where the subscription isn't shared (4.8.2).
fn has_turn(share: &Option<Share>) -> bool
    ensures { result ≡ has_turn share.now }
{
    match share {
        None => true,
        Some(share) => share.turn,
    }
}

/// The filter that topics are matched with: of a shared subscription that behind the share name (4.8.2).
pub(super) fn pattern_of(subscription: &Subscription) -> &Text
    ensures { result.now ≡ pattern_of subscription.now }
{
    match &subscription.share {
        None => &subscription.topic_filter,
        Some(share) => &share.topic_filter,
    }
}

/// Whether a subscription holds for a publish, of the client itself or of another.
fn holds_for(own: bool, subscription: &Subscription, publish: &Publish) -> bool
    ensures { result ≡ holds_for own subscription.now publish.now }
{
    match std::str::from_utf8(publish.topic.as_slice()) {
        Ok(topic) => holds_to(own, subscription, topic),
        Err(_) => false,
    }
}

/// The identifiers of the subscriptions that hold for a publish, in order (3.8.2.1.2). Err where memory is refused.
pub(super) fn identifiers_for(
    alloc: Global,
    own: bool,
    subscriptions: &[Subscription],
    publish: &Publish,
) -> Result<Sequence<usize>, AllocError>
    ensures { IfOk result (λ ns. ns ≡ identifiers_of (holding own subscriptions.now publish.now)) }
{
    let mut identifiers = Sequence::new(alloc);
    for i in 0..subscriptions.len() {
        push_identifier(own, &subscriptions[i], publish, &mut identifiers)?;
    }
    Ok(identifiers)
}

/// Puts the identifier of a subscription behind others, if it has one and holds for a publish.
fn push_identifier(
    own: bool,
    subscription: &Subscription,
    publish: &Publish,
    identifiers: &mut Sequence<usize>,
) -> Result<(), AllocError>
    ensures { OnOk result (identifiers.new ≡ identifiers.old
        ++ identifier_for own publish.now subscription.now) }
{
    if let Some(identifier) = subscription.identifier {
        if holds_for(own, subscription, publish) {
            identifiers.push(identifier)?;
        }
    }
    Ok(())
}

/// Whether each subscription that holds for a publish asks for Retain As Published (3.8.3.1).
pub(super) fn keep_retain(own: bool, subscriptions: &[Subscription], publish: &Publish) -> bool
    ensures { result ≡ keep_retain (holding own subscriptions.now publish.now) }
{
    all_keep(own, subscriptions, publish)
}

/// Whether each does, or doesn't hold for it.
fn all_keep(own: bool, subscriptions: &[Subscription], publish: &Publish) -> bool
    ensures { result ≡ list_all (keeps_retain own publish.now) subscriptions.now }
{
    subscriptions
        .iter()
        .all(|subscription| keeps_retain(own, publish, subscription))
}

fn keeps_retain(own: bool, publish: &Publish, subscription: &Subscription) -> bool
    ensures { result ≡ keeps_retain own publish.now subscription.now }
{
    subscription.retain_as_published || !holds_for(own, subscription, publish)
}

/// Gives the client the turn in the shared subscription of a topic filter, or takes it, if there is one (4.8.2). Takes no memory.
pub(super) fn turn(subscriptions: &mut [Subscription], topic_filter: &Text, on: bool)
    ensures { subscriptions.new ≡ turned topic_filter.now on subscriptions.old }
{
    for subscription in subscriptions.iter_mut() {
        turn_one(subscription, topic_filter, on);
    }
}

/// So it does in a subscription, if that is of the filter.
fn turn_one(subscription: &mut Subscription, topic_filter: &Text, on: bool)
    ensures { subscription.new ≡ (if is_of topic_filter.now subscription.old
        then with_turn on subscription.old else subscription.old) }
{
    if subscription.topic_filter.is(topic_filter.as_str()) {
        if let Some(share) = &mut subscription.share {
            share.turn = on;
        }
    }
}

/// The greater of a QoS and another one, if there is one.
pub fn greater(qos: QoS, other: Option<QoS>) -> QoS
    ensures { result ≡ greater qos other }
{
    match (qos, other) {
        (_, None) => qos,
        (_, Some(QoS::AtMostOnce)) => qos,
        (QoS::ExactlyOnce, Some(_)) => QoS::ExactlyOnce,
        (_, Some(other)) => other,
    }
}
