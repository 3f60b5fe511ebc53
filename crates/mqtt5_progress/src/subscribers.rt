//! What a broker hands on to a subscriber, by its topic filters.

ghost use Rattle.std.specs.Prelude.{◌≡◌, ◌≤◌, ℕ, true, false, List, IfOk, if◌then◌else◌};
ghost use Rattle.mqtt5_base.specs.declared.quality.QoS.TheVariants.{AtLeastOnce, ExactlyOnce};
ghost use Rattle.std.specs.List.{list_any};
ghost use Rattle.mqtt5_base.specs.Texts.{Utf8};
ghost use Rattle.mqtt5_base.specs.Topics.{topic_matches};
ghost use Rattle.mqtt5_publish.specs.declared.publish.Publish.{Publish};
ghost use Rattle.mqtt5_world.specs.declared.event.WorldEvent.{WorldEvent};
ghost use Rattle.mqtt5_world.specs.World.{start, run_world};
ghost use Rattle.mqtt5_world.specs.Delivery.{times};
ghost use Rattle.mqtt5_progress.specs.Progress.{settle};
ghost use Rattle.mqtt5_progress.specs.Late.{run_late, settle_late, start_late};
ghost use Rattle.mqtt5_progress.specs.Subscribers.{hits, received};

use mqtt5_base::{Text, copied, matches};
use mqtt5_publish::Publish;
use std::alloc::{AllocError, Global};

/// Whether a publish reaches a subscriber with these filters: its topic is text and matches one of them (MQTT 5.0 section
/// 4.7). Takes no memory.
pub fn reaches(filters: &[Text], publish: &Publish) -> bool
    ensures { result ≡ hits filters.now publish.now }
{
    match std::str::from_utf8(publish.topic.as_slice()) {
        Ok(topic) => any_matches(filters, topic),
        Err(_) => false,
    }
}

/// Whether a topic matches one of these filters.
fn any_matches(filters: &[Text], topic: &str) -> bool
    ensures { result ≡ list_any (λ f. topic_matches topic.now f.bytes) filters.now }
{
    filters.iter().any(|filter| matches(topic, filter.as_str()))
}

/// What reaches a subscriber with these filters of the publishes that are handed on: in order, and each once, however many
/// of the filters it matches (MQTT 5.0 section 3.3.4). Err where memory is refused.
pub fn received(
    alloc: Global,
    filters: &[Text],
    handed: &[Publish],
) -> Result<Vec<Publish>, AllocError>
    ensures { IfOk result (λ ps. ps.items ≡ received filters.now handed.now) }
{
    let mut received = Vec::new(alloc);
    for publish in handed {
        if reaches(filters, publish) {
            received.push(copied(publish)?)?;
        }
    }
    Ok(received)
}

/// A law, which does nothing when it is called: how often the publishes of a content reach a subscriber.
pub fn subscribers_law()
    // All that were handed on, where a filter matches the content's topic, and else none.
    ensures reach { (filters : List Utf8) (c : Publish) (handed : List Publish)
        → times c (received filters handed) ≡ (if hits filters c then times c handed else 0) }
    ensures no_other { (filters : List Utf8) (c : Publish) (handed : List Publish)
        → hits filters c ≡ false → times c (received filters handed) ≡ 0 }
    // So after four rounds of deliveries, of QoS 2 exactly those that were accepted, and of QoS 1 at least those.
    ensures exactly_once { (filters : List Utf8) (limit : ℕ) (events : List WorldEvent)
        (c : Publish) → hits filters c ≡ true → c.qos ≡ ExactlyOnce
        → times c (received filters (settle 4 (run_world events (start limit))).broker.handed)
        ≡ times c (run_world events (start limit)).accepted }
    ensures at_least_once { (filters : List Utf8) (limit : ℕ) (events : List WorldEvent)
        (c : Publish) → hits filters c ≡ true → c.qos ≡ AtLeastOnce
        → times c (run_world events (start limit)).accepted
        ≤ times c (received filters (settle 4 (run_world events (start limit))).broker.handed) }
    // And so from a broker that hands on at the release.
    ensures late_exactly_once { (filters : List Utf8) (limit : ℕ) (events : List WorldEvent)
        (c : Publish) → hits filters c ≡ true → c.qos ≡ ExactlyOnce
        → times c
        (received filters (settle_late 4 (run_late events (start_late limit))).broker.handed)
        ≡ times c (run_late events (start_late limit)).around.accepted }
    ensures late_at_least_once { (filters : List Utf8) (limit : ℕ) (events : List WorldEvent)
        (c : Publish) → hits filters c ≡ true → c.qos ≡ AtLeastOnce
        → times c (run_late events (start_late limit)).around.accepted
        ≤ times c
        (received filters (settle_late 4 (run_late events (start_late limit))).broker.handed) }
{}
