//! The filters of a Subscribe and of an Unsubscribe: which are kept, which go, and the reason for each.

ghost use Rattle.std.specs.Prelude.{◌≡◌, ◌++◌, map, OnOk, IfOk, IfErr};
ghost use Rattle.std.specs.List.{list_any};
ghost use Rattle.broker_core.specs.Clients.{IsFault, had, had_all, is_kept, is_same, kept_filters, reason_of, without, without_all};

use crate::error::BrokerError;
use mqtt5_base::{QoS, Sequence, Text, copied, valid_filter};
use mqtt5_subscribe::{Filter, SubscribeReasonCode, UnsubAckReason};
use std::alloc::{AllocFailed, Global};

/// Whether a filter is kept: a valid one without no local, which this broker hasn't (3.8.3.1).
fn is_kept(filter: &Filter) -> bool
    ensures { result ≡ is_kept filter.now }
{
    valid_filter(filter.path.as_str()) && !filter.nolocal
}

/// What becomes of a filter (3.9.3).
fn reason_of(filter: &Filter) -> SubscribeReasonCode
    ensures { result ≡ reason_of filter.now }
{
    if is_kept(filter) {
        SubscribeReasonCode::Success(QoS::AtMostOnce)
    } else if filter.nolocal {
        SubscribeReasonCode::ImplementationSpecific
    } else {
        SubscribeReasonCode::TopicFilterInvalid
    }
}

/// A reason for each filter, in order.
pub fn reasons(
    alloc: Global,
    filters: &Sequence<Filter>,
) -> Result<Sequence<SubscribeReasonCode>, AllocFailed<SubscribeReasonCode>>
    ensures { IfOk result (λ reasons. reasons ≡ map reason_of filters.now) }
{
    let mut reasons = Sequence::new(alloc);
    for filter in filters {
        reasons.push(reason_of(filter))?;
    }
    Ok(reasons)
}

/// Adds those that are kept.
pub fn keep(kept: &mut Vec<Text>, filters: &Sequence<Filter>) -> Result<(), BrokerError>
    ensures ok { OnOk result (kept.new.items ≡ kept.old.items ++ kept_filters filters.now) }
    ensures err { IfErr result IsFault }
{
    for filter in filters {
        if is_kept(filter) {
            kept.push(copied(&filter.path)?)?;
        }
    }
    Ok(())
}

/// Whether a filter is among those that are kept.
fn is_among(kept: &[Text], filter: &Text) -> bool
    ensures { result ≡ list_any (is_same filter.now) kept.now }
{
    kept.iter().any(|other| other.is(filter.as_str()))
}

/// Lets a filter go, and answers whether it was there (3.11.3).
fn forget(kept: &mut Vec<Text>, filter: &Text) -> UnsubAckReason
    ensures reason { result ≡ had filter.now kept.old.items }
    ensures filters { kept.new.items ≡ without filter.now kept.old.items }
{
    let had = is_among(kept, filter);
    kept.retain(|other| !other.is(filter.as_str()));
    if had {
        UnsubAckReason::Success
    } else {
        UnsubAckReason::NoSubscriptionExisted
    }
}

/// Lets filters go, one after the other, and answers of each whether it was there (3.10.4).
pub fn forget_all(
    alloc: Global,
    kept: &mut Vec<Text>,
    filters: &Sequence<Text>,
) -> Result<Sequence<UnsubAckReason>, AllocFailed<UnsubAckReason>>
    ensures reasons { IfOk result (λ reasons. reasons ≡ had_all filters.now kept.old.items) }
    ensures filters { OnOk result (kept.new.items ≡ without_all filters.now kept.old.items) }
{
    let mut reasons = Sequence::new(alloc);
    for filter in filters {
        reasons.push(forget(kept, filter))?;
    }
    Ok(reasons)
}
