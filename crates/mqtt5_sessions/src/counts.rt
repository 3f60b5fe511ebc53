//! How much is kept for a client.

ghost use Rattle.std.specs.Prelude.{◌≡◌, ◌+◌, ◌<◌, ◌≤◌, drop, length};
ghost use Rattle.mqtt5_sessions.specs.Counts.{sizes_after};
ghost use Rattle.mqtt5_sessions.specs.Shedding.{is_at_most_once, is_over, may_go, surplus};

use mqtt5_base::QoS;
use mqtt5_publish::Publish;
use std::collections::VecDeque;

/// How much is kept for a client (MQTT 5.0 section 4.1).
#[derive(Debug, Clone, Copy, PartialEq, Eq)]
pub struct Counts {
    /// How many subscriptions it has.
    pub subscriptions: usize,
    /// How many publishes are in its queue.
    pub queued: usize,
    /// How many bytes the frames of these have, or 18446744073709551615 where they are more.
    pub bytes: u64,
}

/// How many bytes the frames of publishes have (2.1), from one on. Takes no memory.
pub(super) fn sizes(publishes: &VecDeque<Publish>, from: usize) -> u64
    requires { from ≤ length publishes.now.items }
    ensures { result ≡ sizes_after 0 (drop from publishes.now.items) }
{
    let mut sum: u64 = 0;
    for i in from..publishes.len() {
        sum = sum.saturating_add(publishes[i].size() as u64);
    }
    sum
}

/// How many they have behind one, where those from it on have so many.
fn behind(publishes: &VecDeque<Publish>, at: usize, sum: u64) -> u64
    requires here { at < length publishes.now.items }
    requires sum { sum ≡ sizes_after 0 (drop at publishes.now.items) }
    ensures { result ≡ sizes_after 0 (drop (at + 1) publishes.now.items) }
{
    if sum == u64::MAX {
        return sizes(publishes, at + 1);
    }
    sum - publishes[at].size() as u64
}

/// Whether those from one on, whose frames have so many bytes, are more than so many, or more bytes.
fn is_over(publishes: &VecDeque<Publish>, from: usize, sum: u64, most: usize, bytes: u64) -> bool
    requires here { from ≤ length publishes.now.items }
    requires sum { sum ≡ sizes_after 0 (drop from publishes.now.items) }
    ensures { result ≡ is_over most bytes (drop from publishes.now.items) }
{
    most < publishes.len() - from || bytes < sum
}

fn is_at_most_once(quality: QoS) -> bool
    ensures { result ≡ is_at_most_once quality }
{
    match quality {
        QoS::AtMostOnce => true,
        QoS::AtLeastOnce | QoS::ExactlyOnce => false,
    }
}

/// Whether a message may be let go: any, or one that is handed on at most once.
fn may_go(any: bool, quality: QoS) -> bool
    ensures { result ≡ may_go any quality }
{
    any || is_at_most_once(quality)
}

/// How many publishes at the front of a queue are let go, where more wait than so many, or more bytes of them: those of QoS 0, or
/// of any. Takes no memory.
pub(super) fn surplus(publishes: &VecDeque<Publish>, any: bool, most: usize, bytes: u64) -> usize
    ensures { result ≡ surplus any most bytes publishes.now.items }
{
    let mut count = 0;
    let mut sum = sizes(publishes, 0);
    while count < publishes.len()
        && is_over(publishes, count, sum, most, bytes)
        && may_go(any, publishes[count].qos)
    {
        sum = behind(publishes, count, sum);
        count += 1;
    }
    count
}
