//! Moments: numbers of milliseconds of any clock.

ghost use Rattle.std.specs.Prelude.{◌≡◌, ◌<◌, ◌^◌};
ghost use Rattle.mqtt5_broker.specs.Moments.{after, seconds_after, has_come, earlier, unless_zero};

/// So many seconds after a moment.
pub(super) fn seconds_after(count: u32, at: u64) -> u64
    ensures { result ≡ seconds_after count at }
{
    at.saturating_add(1000 * count as u64)
}

/// So many milliseconds after a moment, where 0 is none at all.
pub(super) fn unless_zero(count: u32, at: u64) -> Option<u64>
    ensures { result ≡ unless_zero count at }
{
    if count == 0 {
        None
    } else {
        Some(at.saturating_add(count as u64))
    }
}

/// Whether a moment that may be none has come.
pub(super) fn has_come(at: Option<u64>, now: u64) -> bool
    ensures { result ≡ has_come at now }
{
    match at {
        Some(at) => at <= now,
        None => false,
    }
}

/// The earlier of two.
pub(super) fn earlier(at: Option<u64>, other: Option<u64>) -> Option<u64>
    ensures { result ≡ earlier at other }
{
    match (at, other) {
        (Some(at), Some(other)) => Some(at.min(other)),
        (Some(at), None) => Some(at),
        (None, other) => other,
    }
}
