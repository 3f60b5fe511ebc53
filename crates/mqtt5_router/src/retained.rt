//! The messages that a broker retains, and what a Subscribe gets of them.

ghost use Rattle.std.specs.Prelude.{◌≡◌, ◌++◌, not, IfOk, OnOk, filter};
ghost use Rattle.std.specs.Option.{option_to_list};
ghost use Rattle.std.specs.List.{filter_map};
ghost use Rattle.mqtt5_network.specs.Subscriptions.{subscribed};
ghost use Rattle.mqtt5_network.specs.Asking.{subscription_of};
ghost use Rattle.mqtt5_network.specs.Retained.{is_to, retains, copy_for, gets_copies};
ghost use Rattle.mqtt5_network.specs.Retained.{copies_of, copies_all};

use crate::asking::{is_among, is_shared, subscription_of, subscriptions_of};
use crate::forwarding::{forward, identified};
use crate::subscriptions::{pattern_of, subscribe};
use mqtt5_base::{Sequence, copied};
use mqtt5_network::Subscription;
use mqtt5_progress::reaches;
use mqtt5_publish::Publish;
use mqtt5_subscribe::{Filter, RetainForwardRule};
use std::alloc::{AllocError, Global};
use std::slice;

/// Retains a publish that is handed on, if it asks for that, in place of the one of its topic; one without a payload is retained
/// as none (MQTT 5.0 section 3.3.1.3). Err where memory is refused, and then the one of its topic may be gone.
pub fn retain(retained: &mut Vec<Publish>, publish: &Publish) -> Result<(), AllocError>
    ensures { OnOk result (retained.new.items ≡ retains retained.old.items publish.now) }
{
    if !publish.retain {
        return Ok(());
    }
    forget(retained, publish);
    if !publish.payload.is_empty() {
        retained.push(copied(publish)?)?;
    }
    Ok(())
}

/// Takes out the message of a publish's topic.
fn forget(retained: &mut Vec<Publish>, publish: &Publish)
    ensures { retained.new.items
        ≡ filter (λ q. not (is_to publish.now.topic q)) retained.old.items }
{
    retained.retain(|other| other.topic.as_slice() != publish.topic.as_slice());
}

/// The copies of retained messages for filters, in order, under subscriptions that each filter changes (3.3.1.3 and 3.8.3.1).
/// Err where memory is refused.
pub(super) fn copies_all(
    alloc: Global,
    retained: &[Publish],
    identifier: Option<usize>,
    filters: &[Filter],
    subscriptions: &[Subscription],
) -> Result<Vec<Publish>, AllocError>
    ensures { IfOk result (λ ps. ps.items
        ≡ copies_all retained.now identifier filters.now subscriptions.now) }
{
    let mut next = subscriptions_of(alloc, subscriptions)?;
    let mut all = Vec::new(alloc);
    for filter in filters {
        add_copies(alloc, retained, identifier, filter, &mut next, &mut all)?;
    }
    Ok(all)
}

/// Puts the copies for a filter behind others, and takes its subscription in.
fn add_copies(
    alloc: Global,
    retained: &[Publish],
    identifier: Option<usize>,
    filter: &Filter,
    subscriptions: &mut Vec<Subscription>,
    all: &mut Vec<Publish>,
) -> Result<(), AllocError>
    ensures copies { OnOk result (all.new.items ≡ all.old.items
        ++ copies_of retained.now identifier subscriptions.old.items filter.now) }
    ensures taken_in { OnOk result (subscriptions.new.items
        ≡ subscribed (subscription_of identifier filter.now) subscriptions.old.items) }
{
    let subscription = subscription_of(alloc, identifier, filter)?;
    if !is_shared(&filter.path) && gets_copies(filter, subscriptions.as_slice()) {
        push_copies(alloc, retained, &subscription, all)?;
    }
    subscribe(subscriptions, subscription)?;
    Ok(())
}

/// Whether a filter gets copies, by its Retain Handling (3.8.3.1).
fn gets_copies(filter: &Filter, subscriptions: &[Subscription]) -> bool
    ensures { result
        ≡ gets_copies filter.now.retain_forward_rule filter.now.path subscriptions.now }
{
    match filter.retain_forward_rule {
        RetainForwardRule::OnEverySubscribe => true,
        RetainForwardRule::OnNewSubscribe => !is_among(subscriptions, &filter.path),
        RetainForwardRule::Never => false,
    }
}

/// Puts the copies of those retained messages that a subscription's filter matches behind others.
#[tactic(auto, using(crate::proofs::Copying::copies_next))]
fn push_copies(
    alloc: Global,
    retained: &[Publish],
    subscription: &Subscription,
    all: &mut Vec<Publish>,
) -> Result<(), AllocError>
    ensures { OnOk result (all.new.items
        ≡ all.old.items ++ filter_map (copy_for subscription.now) retained.now) }
{
    for i in 0..retained.len() {
        push_copy(alloc, &retained[i], subscription, all)?;
    }
    Ok(())
}

/// Puts a copy of a retained message behind others, if the filter matches: with retain, at the lesser of both QoS, and with the
/// subscription's identifier.
fn push_copy(
    alloc: Global,
    message: &Publish,
    subscription: &Subscription,
    all: &mut Vec<Publish>,
) -> Result<(), AllocError>
    ensures { OnOk result (all.new.items
        ≡ all.old.items ++ option_to_list (copy_for subscription.now message.now)) }
{
    if reaches(slice::from_ref(pattern_of(subscription)), message) {
        let identifiers = identifiers_of(alloc, subscription)?;
        let mut copy = forward(alloc, subscription.granted, message)?;
        copy.retain = true;
        all.push(identified(copy, identifiers, alloc))?;
    }
    Ok(())
}

/// The identifier of a subscription, if it has one.
fn identifiers_of(alloc: Global, subscription: &Subscription) -> Result<Sequence<usize>, AllocError>
    ensures { IfOk result (λ ns. ns ≡ option_to_list subscription.now.identifier) }
{
    let mut identifiers = Sequence::new(alloc);
    if let Some(identifier) = subscription.identifier {
        identifiers.push(identifier)?;
    }
    Ok(identifiers)
}
