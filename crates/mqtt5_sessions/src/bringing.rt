//! How many copies of retained messages a Subscribe may bring.

ghost use Rattle.std.specs.Prelude.{◌≡◌, [], ◌∷◌, nat_lt, length};
ghost use Rattle.std.specs.List.{list_any};
ghost use Rattle.mqtt5_progress.specs.Subscribers.{received};
ghost use Rattle.mqtt5_network.specs.Subscriptions.{is_of};
ghost use Rattle.mqtt5_network.specs.Retained.{gets_copies};
ghost use Rattle.mqtt5_sessions.specs.Bringing.{brought_by, brought};

use mqtt5_base::Text;
use mqtt5_network::Subscription;
use mqtt5_progress::reaches;
use mqtt5_publish::Publish;
use mqtt5_router::is_shared;
use mqtt5_subscribe::{Filter, RetainForwardRule};
use std::slice;

/// Whether there is a subscription of a topic filter.
fn has_one(subscriptions: &[Subscription], topic_filter: &Text) -> bool
    ensures { result ≡ list_any (is_of topic_filter.now) subscriptions.now }
{
    subscriptions
        .iter()
        .any(|other| other.topic_filter.is(topic_filter.as_str()))
}

/// Whether a filter gets copies, by its Retain Handling (MQTT 5.0 section 3.8.3.1).
fn gets_copies(filter: &Filter, subscriptions: &[Subscription]) -> bool
    ensures { result
        ≡ gets_copies filter.now.retain_forward_rule filter.now.path subscriptions.now }
{
    match filter.retain_forward_rule {
        RetainForwardRule::OnEverySubscribe => true,
        RetainForwardRule::OnNewSubscribe => !has_one(subscriptions, &filter.path),
        RetainForwardRule::Never => false,
    }
}

/// How many messages a topic filter matches.
fn matched(topic_filter: &Text, messages: &[Publish]) -> usize
    ensures { result ≡ length (received (topic_filter.now ∷ []) messages.now) }
{
    messages
        .iter()
        .filter(|message| reaches(slice::from_ref(topic_filter), message))
        .count()
}

/// How many copies of these messages a filter brings.
fn brought_by(retained: &[Publish], subscriptions: &[Subscription], filter: &Filter) -> usize
    ensures { result ≡ brought_by retained.now subscriptions.now filter.now }
{
    if !is_shared(&filter.path) && gets_copies(filter, subscriptions) {
        matched(&filter.path, retained)
    } else {
        0
    }
}

/// Whether filters may bring more copies than so many. Takes no memory.
pub(super) fn brings_more(
    retained: &[Publish],
    subscriptions: &[Subscription],
    filters: &[Filter],
    most: usize,
) -> bool
    ensures { result ≡ nat_lt most (brought retained.now subscriptions.now filters.now) }
{
    let mut left = most;
    for k in 0..filters.len() {
        let count = brought_by(retained, subscriptions, &filters[k]);
        if left < count {
            return true;
        }
        left -= count;
    }
    false
}
