//! A Subscribe and an Unsubscribe of a client, and the reasons of their answers.

ghost use Rattle.std.specs.Prelude.{◌≡◌, ◌+◌, drop, is_some, option_map, map, IfOk, OnOk, OnErr};
ghost use Rattle.std.specs.List.{list_any};
ghost use Rattle.mqtt5_base.specs.Texts.{text_of};
ghost use Rattle.mqtt5_network.specs.Subscriptions.{is_of, unsubscribed};
ghost use Rattle.mqtt5_network.specs.Asking.{identifier_of, slash_in, behind_name, shared_filter, share_in, share_of};
ghost use Rattle.mqtt5_network.specs.Asking.{subscription_of, subscribed_all, code_of};
ghost use Rattle.mqtt5_network.specs.Asking.{unsubscribed_all, reason_of, reasons_of};

use crate::subscriptions::{subscribe, unsubscribe};
use mqtt5_base::{Sequence, Text, copied};
use mqtt5_network::{Share, Subscription};
use mqtt5_subscribe::{Filter, SubscribeProperties, SubscribeReasonCode, UnsubAckReason};
use std::alloc::{AllocError, Global};

/// Takes in what a Subscribe asks for, filter by filter, with the identifier that it says, if it says one, and answers the code of
/// each: the QoS that is asked for is granted (MQTT 5.0 sections 3.8.4 and 3.9.3). Err where memory is refused, with the
/// subscriptions as they were.
pub fn subscribe_all(
    alloc: Global,
    subscriptions: &mut Vec<Subscription>,
    identifier: Option<usize>,
    filters: &[Filter],
) -> Result<Sequence<SubscribeReasonCode>, AllocError>
    ensures codes { IfOk result (λ codes. codes ≡ map code_of filters.now) }
    ensures ok { OnOk result (subscriptions.new.items
        ≡ subscribed_all identifier filters.now subscriptions.old.items) }
    ensures err { OnErr result (subscriptions.new.items ≡ subscriptions.old.items) }
{
    let codes = codes_of(alloc, filters)?;
    let next = with_filters(alloc, subscriptions.as_slice(), identifier, filters)?;
    *subscriptions = next;
    Ok(codes)
}

/// The code of each filter.
fn codes_of(alloc: Global, filters: &[Filter]) -> Result<Sequence<SubscribeReasonCode>, AllocError>
    ensures { IfOk result (λ codes. codes ≡ map code_of filters.now) }
{
    let mut codes = Sequence::new(alloc);
    for filter in filters {
        codes.push(SubscribeReasonCode::Success(filter.qos))?;
    }
    Ok(codes)
}

/// A copy of subscriptions, with those of these filters taken in.
fn with_filters(
    alloc: Global,
    subscriptions: &[Subscription],
    identifier: Option<usize>,
    filters: &[Filter],
) -> Result<Vec<Subscription>, AllocError>
    ensures { IfOk result
        (λ next. next.items ≡ subscribed_all identifier filters.now subscriptions.now) }
{
    let mut next = subscriptions_of(alloc, subscriptions)?;
    for filter in filters {
        let subscription = subscription_of(alloc, identifier, filter)?;
        subscribe(&mut next, subscription)?;
    }
    Ok(next)
}

/// A copy of subscriptions. Err where memory is refused.
pub fn subscriptions_of(
    alloc: Global,
    subscriptions: &[Subscription],
) -> Result<Vec<Subscription>, AllocError>
    ensures { IfOk result (λ copies. copies.items ≡ subscriptions.now) }
{
    let mut copies = Vec::new(alloc);
    for subscription in subscriptions {
        copies.push(copy_of(subscription)?)?;
    }
    Ok(copies)
}

fn copy_of(subscription: &Subscription) -> Result<Subscription, AllocError>
    ensures { IfOk result (λ s. s ≡ subscription.now) }
{
    Ok(Subscription {
        topic_filter: copied(&subscription.topic_filter)?,
        granted: subscription.granted,
        no_local: subscription.no_local,
        retain_as_published: subscription.retain_as_published,
        identifier: subscription.identifier,
        share: copy_of_share(&subscription.share)?,
    })
}

fn copy_of_share(share: &Option<Share>) -> Result<Option<Share>, AllocError>
    ensures { IfOk result (λ s. s ≡ share.now) }
{
    match share {
        None => Ok(None),
        Some(share) => Ok(Some(Share {
            topic_filter: copied(&share.topic_filter)?,
            turn: share.turn,
        })),
    }
}

/// The identifier that a Subscribe says for its subscriptions, if it says one (3.8.2.1.2).
pub(super) fn identifier_of(properties: &Option<SubscribeProperties>) -> Option<usize>
    ensures { result ≡ identifier_of properties.now }
{
    match properties {
        None => None,
        Some(set) => set.id,
    }
}

/// Where the first slash stands.
pub fn slash_in(bytes: &[u8]) -> Option<usize>
    ensures { result ≡ slash_in bytes.now }
{
    bytes.iter().position(|byte| *byte == b'/')
}

/// What stands behind so many bytes and one more.
fn after(bytes: &[u8], count: usize) -> &[u8]
    ensures { result.now ≡ drop (count + 1) bytes.now }
{
    if count >= bytes.len() {
        return &[];
    }
    &bytes[count + 1..]
}

/// What stands behind a share name and a slash.
fn behind_name(rest: &[u8]) -> Option<&[u8]>
    ensures { option_map (λ bytes. bytes.now) result ≡ behind_name rest.now }
{
    match slash_in(rest) {
        None => None,
        Some(n) => Some(after(rest, n)),
    }
}

/// What stands behind `$share/`, a share name and a slash, if a topic filter begins so (4.8.2).
pub fn shared_filter(topic_filter: &[u8]) -> Option<&[u8]>
    ensures { option_map (λ bytes. bytes.now) result ≡ shared_filter topic_filter.now }
{
    if !topic_filter.starts_with("$share/".as_bytes()) {
        return None;
    }
    behind_name(&topic_filter[7..])
}

/// Whether a topic filter is a shared one.
pub fn is_shared(topic_filter: &Text) -> bool
    ensures { result ≡ is_some (share_of topic_filter.now) }
{
    shared_filter(topic_filter.as_bytes()).is_some()
}

/// The client's part in the shared subscription of a filter, if it is one (4.8.2).
pub fn share_of(alloc: Global, topic_filter: &Text) -> Result<Option<Share>, AllocError>
    ensures { IfOk result (λ s. s ≡ share_of topic_filter.now) }
{
    match shared_filter(topic_filter.as_bytes()) {
        None => Ok(None),
        Some(bytes) => Ok(Some(Share {
            topic_filter: text_of(alloc, bytes)?,
            turn: false,
        })),
    }
}

/// The text of bytes; of bytes that aren't UTF-8 the empty one.
fn text_of(alloc: Global, bytes: &[u8]) -> Result<Text, AllocError>
    ensures { IfOk result (λ t. t ≡ text_of bytes.now) }
{
    match std::str::from_utf8(bytes) {
        Ok(text) => made_text(alloc, text),
        Err(_) => made_text(alloc, ""),
    }
}

fn made_text(alloc: Global, text: &str) -> Result<Text, AllocError>
    ensures { IfOk result (λ t. t ≡ text_of text.now) }
{
    let made = Text::from_str(alloc, text)?;
    Ok(made)
}

/// A filter as the subscription that is made of it.
pub(super) fn subscription_of(
    alloc: Global,
    identifier: Option<usize>,
    filter: &Filter,
) -> Result<Subscription, AllocError>
    ensures { IfOk result (λ s. s ≡ subscription_of identifier filter.now) }
{
    Ok(Subscription {
        topic_filter: copied(&filter.path)?,
        granted: filter.qos,
        no_local: filter.nolocal,
        retain_as_published: filter.preserve_retain,
        identifier,
        share: share_of(alloc, &filter.path)?,
    })
}

/// Takes out what an Unsubscribe asks for, filter by filter, and answers the reason of each: whether there was one (3.10.4,
/// 3.11.3). Err where memory is refused, with the subscriptions as they were.
pub fn unsubscribe_all(
    alloc: Global,
    subscriptions: &mut Vec<Subscription>,
    topic_filters: &[Text],
) -> Result<Sequence<UnsubAckReason>, AllocError>
    ensures reasons { IfOk result
        (λ reasons. reasons ≡ reasons_of topic_filters.now subscriptions.old.items) }
    ensures ok { OnOk result
        (subscriptions.new.items ≡ unsubscribed_all topic_filters.now subscriptions.old.items) }
    ensures err { OnErr result (subscriptions.new.items ≡ subscriptions.old.items) }
{
    let mut next = subscriptions_of(alloc, subscriptions.as_slice())?;
    let mut reasons = Sequence::new(alloc);
    for filter in topic_filters {
        reasons.push(take_out(&mut next, filter))?;
    }
    *subscriptions = next;
    Ok(reasons)
}

/// Takes the subscription of a filter out, and answers whether there was one.
fn take_out(subscriptions: &mut Vec<Subscription>, topic_filter: &Text) -> UnsubAckReason
    ensures reason { result ≡ reason_of topic_filter.now subscriptions.old.items }
    ensures left { subscriptions.new.items
        ≡ unsubscribed topic_filter.now subscriptions.old.items }
{
    let had = is_among(subscriptions.as_slice(), topic_filter);
    unsubscribe(subscriptions, topic_filter);
    if had {
        UnsubAckReason::Success
    } else {
        UnsubAckReason::NoSubscriptionExisted
    }
}

/// Whether one of these subscriptions is of a filter.
pub(super) fn is_among(subscriptions: &[Subscription], topic_filter: &Text) -> bool
    ensures { result ≡ list_any (is_of topic_filter.now) subscriptions.now }
{
    subscriptions
        .iter()
        .any(|other| other.topic_filter.is(topic_filter.as_str()))
}
