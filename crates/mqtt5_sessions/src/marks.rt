//! Under which marks of topic filters the clients stand in an index, by which those are found that a publish may go to.

ghost use Rattle.std.specs.Prelude.{◌≡◌, ◌⊎◌, ℕ, ◌==◌, true, false, not, map, filter, IfOk, IfErr, OnOk, OnErr};
ghost use Rattle.std.specs.Option.{option_to_list};
ghost use Rattle.mqtt5_base.specs.Grammar.{is_among};
ghost use Rattle.mqtt5_subscribe.specs.declared.filter.Filter.{Filter};
ghost use Rattle.mqtt5_topic_index.specs.Index.{Stands};
ghost use Rattle.mqtt5_router.specs.Kept.{without_events, kept_of, after_packet};
ghost use Rattle.mqtt5_sessions.specs.Waiting.{waits};
ghost use Rattle.mqtt5_sessions.specs.Indexed.{path_mark, mark_in, marks_in, marks_asked, marks_wanted};

use crate::client::ClientState;
use mqtt5_base::Text;
use mqtt5_codec::Packet;
use mqtt5_network::Subscription;
use mqtt5_router::{Arrived, share_of};
use mqtt5_session::StateError;
use mqtt5_subscribe::Filter;
use mqtt5_topic_index::{TopicIndex, mark_of};
use std::alloc::{AllocError, Global};

/// The mark of a topic filter, of a shared one of that behind the share name (MQTT 5.0 section 4.8.2).
fn path_mark(alloc: Global, topic_filter: &Text) -> Result<u64, AllocError>
    ensures { IfOk result (λ m. m ≡ path_mark topic_filter.now) }
{
    match share_of(alloc, topic_filter)? {
        None => Ok(mark_of(topic_filter.as_bytes())),
        Some(share) => Ok(mark_of(share.topic_filter.as_bytes())),
    }
}

/// The marks of the filters of a Subscribe.
fn marks_of_filters(alloc: Global, filters: &[Filter]) -> Result<Vec<u64>, AllocError>
    ensures { IfOk result (λ ms. ms.items ≡ map (λ (f : Filter). path_mark f.path) filters.now) }
{
    let mut marks = Vec::new(alloc);
    for filter in filters {
        marks.push(path_mark(alloc, &filter.path)?)?;
    }
    Ok(marks)
}

/// Those of an Unsubscribe.
fn marks_of_paths(alloc: Global, topic_filters: &[Text]) -> Result<Vec<u64>, AllocError>
    ensures { IfOk result (λ ms. ms.items ≡ map path_mark topic_filters.now) }
{
    let mut marks = Vec::new(alloc);
    for topic_filter in topic_filters {
        marks.push(path_mark(alloc, topic_filter)?)?;
    }
    Ok(marks)
}

/// Those of the filters that a packet asks for, or takes out.
fn marks_asked(alloc: Global, packet: &Packet) -> Result<Vec<u64>, AllocError>
    ensures { IfOk result (λ ms. ms.items ≡ marks_asked packet.now) }
{
    match packet {
        Packet::Subscribe(subscribe) => marks_of_filters(alloc, subscribe.filters.as_slice()),
        Packet::Unsubscribe(unsubscribe) => marks_of_paths(alloc, unsubscribe.filters.as_slice()),
        _ => Ok(Vec::new(alloc)),
    }
}

/// The mark of a subscription.
fn mark_in(subscription: &Subscription) -> u64
    ensures { result ≡ mark_in subscription.now }
{
    match &subscription.share {
        None => mark_of(subscription.topic_filter.as_bytes()),
        Some(share) => mark_of(share.topic_filter.as_bytes()),
    }
}

/// Takes a mark out of some.
fn without(marks: &mut Vec<u64>, mark: u64)
    ensures { marks.new.items ≡ filter (λ m. not (m == mark)) marks.old.items }
{
    marks.retain(|other| *other != mark);
}

/// Of these marks those that no subscription has. Takes no memory.
fn unheld(subscriptions: &[Subscription], marks: Vec<u64>) -> Vec<u64>
    ensures held { (m : ℕ) → is_among result.items m ≡ true
        → is_among (marks_in subscriptions.now) m ≡ false }
    ensures rest { (m : ℕ) → is_among marks.items m ≡ true
        → is_among (marks_in subscriptions.now) m ≡ false → is_among result.items m ≡ true }
{
    let mut left = marks;
    for subscription in subscriptions {
        without(&mut left, mark_in(subscription));
    }
    left
}

/// Puts a client under marks. Err where memory is refused: then it may stand under some of them.
fn stand(index: &mut TopicIndex, client: usize, marks: &[u64]) -> Result<(), AllocError>
    ensures others { (m n : ℕ) → Stands index.old m n → Stands index.new m n }
    ensures there { OnOk result
        ((m : ℕ) → is_among marks.now m ≡ true → Stands index.new m client) }
{
    for mark in marks {
        index.insert(*mark, client)?;
    }
    Ok(())
}

/// So where a packet is a Subscribe.
fn stand_wanted(
    index: &mut TopicIndex,
    client: usize,
    packet: &Packet,
    marks: &[u64],
) -> Result<(), AllocError>
    requires { marks.now ≡ marks_asked packet.now }
    ensures others { (m n : ℕ) → Stands index.old m n → Stands index.new m n }
    ensures there { OnOk result
        ((m : ℕ) → is_among (marks_wanted packet.now) m ≡ true → Stands index.new m client) }
{
    match packet {
        Packet::Subscribe(_) => stand(index, client, marks),
        _ => Ok(()),
    }
}

/// Takes a client from marks. Takes no memory.
fn take_out(index: &mut TopicIndex, client: usize, marks: &[u64])
    ensures gone { (m : ℕ) → is_among marks.now m ≡ true → Stands index.new m client → ⊥ }
    ensures others { (m n : ℕ) → (n ≡ client → is_among marks.now m ≡ false)
        → Stands index.old m n → Stands index.new m n }
{
    for mark in marks {
        index.remove(*mark, client);
    }
}

/// Takes a client from those of these marks that none of its subscriptions has. Takes no memory.
fn settle(index: &mut TopicIndex, client: usize, subscriptions: &[Subscription], marks: Vec<u64>)
    ensures gone { (m : ℕ) → is_among marks.items m ≡ true
        → is_among (marks_in subscriptions.now) m ≡ false → Stands index.new m client → ⊥ }
    ensures others { (m n : ℕ) → (n ≡ client → is_among (marks_in subscriptions.now) m ≡ true)
        → Stands index.old m n → Stands index.new m n }
{
    if marks.is_empty() {
        return;
    }
    let left = unheld(subscriptions, marks);
    take_out(index, client, left.as_slice());
}

/// Takes a client from the marks of subscriptions that it had. Takes no memory.
pub(super) fn leave(index: &mut TopicIndex, client: usize, subscriptions: &[Subscription])
    ensures gone { (m : ℕ) → is_among (marks_in subscriptions.now) m ≡ true
        → Stands index.new m client → ⊥ }
    ensures others { (m n : ℕ) → (n ≡ client → ⊥) → Stands index.old m n → Stands index.new m n }
{
    for subscription in subscriptions {
        index.remove(mark_in(subscription), client);
    }
}

/// A packet comes from a client, which is put under the marks of a Subscribe before.
#[tactic(auto, using(crate::proofs::Indexed::heard_marks))]
fn arrive_marked(
    alloc: Global,
    number: usize,
    packet: Packet,
    client: &mut ClientState,
    index: &mut TopicIndex,
    marks: &[u64],
) -> Result<Arrived, StateError>
    requires { marks.now ≡ marks_asked packet }
    ensures kept { OnOk result (client.new ≡ record client.old {
      kept = without_events (kept_of (after_packet client.old.kept packet));
    }) }
    ensures reply { IfOk result
        (λ a. option_to_list a.reply ≡ (after_packet client.old.kept packet).down) }
    ensures handed { IfOk result (λ a. option_to_list a.handed
        ≡ (after_packet client.old.kept packet).receiver.handed) }
    ensures memory { IfErr result (λ e. e ≡ StateError.OutOfMemory) }
    ensures left { OnErr result (client.new ≡ client.old) }
    ensures waits { waits client.new ≡ waits client.old }
    ensures others { (m n : ℕ) → Stands index.old m n → Stands index.new m n }
    ensures own { (m : ℕ) → is_among (marks_in client.new.kept.subscriptions) m ≡ true
        → (is_among (marks_in client.old.kept.subscriptions) m ≡ true) ⊎ Stands index.new m number }
{
    stand_wanted(index, number, &packet, marks)?;
    client.arrive(alloc, packet)
}

/// A packet comes from a client: what is sent back, and what is handed on. If the client stood under the marks of its
/// subscriptions, it does so afterwards too, also where memory is refused.
pub(super) fn arrive(
    alloc: Global,
    number: usize,
    packet: Packet,
    client: &mut ClientState,
    index: &mut TopicIndex,
) -> Result<Arrived, StateError>
    ensures kept { OnOk result (client.new ≡ record client.old {
      kept = without_events (kept_of (after_packet client.old.kept packet));
    }) }
    ensures reply { IfOk result
        (λ a. option_to_list a.reply ≡ (after_packet client.old.kept packet).down) }
    ensures handed { IfOk result (λ a. option_to_list a.handed
        ≡ (after_packet client.old.kept packet).receiver.handed) }
    ensures memory { IfErr result (λ e. e ≡ StateError.OutOfMemory) }
    ensures left { OnErr result (client.new ≡ client.old) }
    ensures waits { waits client.new ≡ waits client.old }
    ensures others { (m n : ℕ) → (n ≡ number → ⊥) → Stands index.old m n → Stands index.new m n }
    ensures own { ((m : ℕ) → is_among (marks_in client.old.kept.subscriptions) m ≡ true
        → Stands index.old m number)
        → (m : ℕ) → is_among (marks_in client.new.kept.subscriptions) m ≡ true
        → Stands index.new m number }
{
    let marks = marks_asked(alloc, &packet)?;
    let arrived = arrive_marked(alloc, number, packet, client, index, marks.as_slice());
    settle(index, number, client.subscriptions(), marks);
    arrived
}
