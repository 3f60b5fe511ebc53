//! Messages that expire (MQTT 5.0 section 3.3.2.3.3).

ghost use Rattle.std.specs.Prelude.{◌≡◌, map, option_map};
ghost use Rattle.std.specs.Option.{option_to_list};
ghost use Rattle.mqtt5_broker.specs.Expiry.{second_of, expiry_second, seconds_left, uncounted, begun, is_over, converted, with_interval, with_expiry, dated, counted};

use mqtt5_codec::Packet;
use mqtt5_publish::{Publish, PublishProperties};

/// The second of a moment.
fn second_of(at: u64) -> u64
    ensures { result ≡ second_of at }
{
    at / 1000
}

/// The second at which a message expires that came at a moment with an interval.
fn expiry_second(at: u64, interval: u32) -> u32
    ensures { result ≡ expiry_second at interval }
{
    let second = second_of(at) + interval as u64;
    second.min(2_147_483_647) as u32
}

/// What is left of it at a moment.
fn seconds_left(at: u64, second: u32) -> u32
    ensures { result ≡ seconds_left at second }
{
    (second as u64).saturating_sub(second_of(at)) as u32
}

/// The interval of a will that isn't published yet.
pub(super) fn uncounted(interval: u32) -> u32
    ensures { result ≡ uncounted interval }
{
    2_147_483_648 + interval.min(2_147_483_647)
}

/// That of one that is published at a moment, unless it waits still.
fn begun(waits: bool, at: u64, interval: u32) -> u32
    ensures { result ≡ begun waits at interval }
{
    if waits || interval < 2_147_483_648 {
        return interval;
    }
    expiry_second(at, interval - 2_147_483_648)
}

/// The same, where there is an interval.
pub(super) fn begun_in(waits: bool, at: u64, interval: Option<u32>) -> Option<u32>
    ensures { result ≡ option_map (begun waits at) interval }
{
    match interval {
        Some(interval) => Some(begun(waits, at, interval)),
        None => None,
    }
}

/// Whether a message has expired at a moment.
pub(super) fn is_over(at: u64, second: Option<u32>) -> bool
    ensures { result ≡ is_over at second }
{
    match second {
        Some(second) => (second as u64) < second_of(at) && second < 2_147_483_647,
        None => false,
    }
}

/// The interval of a publish that comes, or is sent, at a moment.
fn converted(comes: bool, at: u64, interval: Option<u32>) -> Option<u32>
    ensures { result ≡ option_map (converted comes at) interval }
{
    match interval {
        Some(interval) => Some(if comes {
            expiry_second(at, interval)
        } else {
            seconds_left(at, interval)
        }),
        None => None,
    }
}

/// The properties of one with it.
fn with_interval(
    comes: bool,
    at: u64,
    properties: Option<PublishProperties>,
) -> Option<PublishProperties>
    ensures { result ≡ option_map (with_interval comes at) properties }
{
    match properties {
        Some(mut set) => {
            set.message_expiry_interval = converted(comes, at, set.message_expiry_interval);
            Some(set)
        }
        None => None,
    }
}

/// One with them.
fn with_expiry(comes: bool, at: u64, publish: Publish) -> Publish
    ensures { result
        ≡ record publish { properties = option_map (with_interval comes at) publish.properties } }
{
    let mut publish = publish;
    publish.properties = with_interval(comes, at, publish.properties);
    publish
}

/// A packet that comes at a moment, as the broker has it.
pub(super) fn dated(at: u64, packet: Packet) -> Packet
    ensures { result ≡ dated at packet }
{
    match packet {
        Packet::Publish(publish) => Packet::Publish(with_expiry(true, at, publish)),
        other => other,
    }
}

/// One of the broker's, as it is sent at a moment.
pub(super) fn counted(at: u64, packet: Packet) -> Packet
    ensures { result ≡ counted at packet }
{
    match packet {
        Packet::Publish(publish) => Packet::Publish(with_expiry(false, at, publish)),
        other => other,
    }
}

/// So is one, if there is one.
pub(super) fn counted_some(at: u64, packet: Option<Packet>) -> Option<Packet>
    ensures { option_to_list result ≡ map (counted at) (option_to_list packet) }
{
    match packet {
        Some(packet) => Some(counted(at, packet)),
        None => None,
    }
}
