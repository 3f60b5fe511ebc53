//! Calls that subscribe to several filters at once.

ghost use Rattle.std.specs.Prelude.{◌≡◌, ◌⊎◌, ◌<◌, ◌↔◌, IfOk, IfErr, IfSome, IsSome};
ghost use Rattle.mqtt5_subscribe.specs.Rows.{subscribe_table};
ghost use Rattle.mqtt5_subscribe.specs.Subscribes.{rule_number};
ghost use Rattle.mqtt5_c.specs.Asked.{CantHave, IsBadFilter, IsDeclined, Asked};
ghost use Rattle.mqtt5_c.specs.Filters.{filters_in, cleared, IsFilter, IsSubscribeTo, AddedFilter, FilterAdded};
ghost use Rattle.mqtt5_c.specs.Handles.{IsKept};
ghost use Rattle.mqtt5_c.specs.Properties.{properties_in, emptied};

use crate::ask::ask;
use crate::handle::{Handle, put, take};
use crate::number::{BAD_ARGUMENT, NO_CLIENT, OUT_OF_MEMORY};
use crate::properties::{gather, take_properties};
use crate::topic::topic_filter;
use mqtt5_base::{Property, Sequence, qos};
use mqtt5_session::Request;
use mqtt5_subscribe::{Filter, RetainForwardRule, Subscribe};
use std::alloc::Global;

/// The retain handling option of a number, which is 0, 1 or 2; None of another.
fn rule(num: u8) -> Option<RetainForwardRule>
    ensures known { IsSome result ↔ (num < 3) }
    ensures number { IfSome result (λ r. rule_number r ≡ num) }
{
    match num {
        0 => Some(RetainForwardRule::OnEverySubscribe),
        1 => Some(RetainForwardRule::OnNewSubscribe),
        2 => Some(RetainForwardRule::Never),
        _ => None,
    }
}

/// The filter of C's arguments.
fn filter_of(
    alloc: Global,
    filter: &[u8],
    quality: u8,
    no_local: bool,
    retain_as_published: bool,
    retain_handling: u8,
) -> Result<Filter, u32>
    ensures ok { IfOk result (IsFilter filter.now quality no_local retain_as_published
        retain_handling) }
    ensures err { IfErr result
        (IsDeclined (IsBadFilter filter.now quality ⊎ (2 < retain_handling))) }
{
    let Some(path) = topic_filter(filter) else {
        return Err(BAD_ARGUMENT);
    };
    let Some(quality) = qos(quality) else {
        return Err(BAD_ARGUMENT);
    };
    let Some(rule) = rule(retain_handling) else {
        return Err(BAD_ARGUMENT);
    };
    let Ok(mut filter) = Filter::new(alloc, path, quality) else {
        return Err(OUT_OF_MEMORY);
    };
    filter.nolocal = no_local;
    filter.preserve_retain = retain_as_published;
    filter.retain_forward_rule = rule;
    Ok(filter)
}

/// Adds a filter to the list.
fn add(alloc: Global, h: &mut Handle, filter: Filter) -> u32
    requires { IsKept h.old }
    ensures kept { IsKept h.new }
    ensures answer { AddedFilter filter h.old.client_ptr.value result h.new.client_ptr.value }
{
    let Some(mut holder) = take(alloc, h) else {
        drop(filter);
        return NO_CLIENT;
    };
    let outcome = holder.add_filter(filter);
    put(h, holder);
    match outcome {
        Ok(()) => 0,
        Err(_refused) => OUT_OF_MEMORY,
    }
}

/// Adds a topic filter and its options (MQTT 5.0 section 3.8.3.1) to the list that `mqtt5_client_subscribe_all` takes. 0; 201 of
/// a filter that isn't UTF-8, or a QoS or a retain handling above 2, and 12: the list is then as before.
#[unsafe(no_mangle)]
pub extern "C" fn mqtt5_client_add_filter(
    alloc: Global,
    h: &mut Handle,
    filter: &[u8],
    qos: u8,
    no_local: bool,
    retain_as_published: bool,
    retain_handling: u8,
) -> u32
    requires { IsKept h.old }
    ensures kept { IsKept h.new }
    ensures answer { FilterAdded (IsBadFilter filter.now qos ⊎ (2 < retain_handling))
        (IsFilter filter.now qos no_local retain_as_published retain_handling)
        h.old.client_ptr.value result h.new.client_ptr.value }
{
    match filter_of(
        alloc,
        filter,
        qos,
        no_local,
        retain_as_published,
        retain_handling,
    ) {
        Ok(filter) => add(alloc, h, filter),
        Err(code) => code,
    }
}

/// Takes the list of filters out. Takes no memory.
fn take_filters(alloc: Global, h: &mut Handle) -> Sequence<Filter>
    requires { IsKept h.old }
    ensures kept { IsKept h.new }
    ensures taken { result ≡ filters_in h.old.client_ptr.value }
    ensures left { h.new.client_ptr.value ≡ cleared h.old.client_ptr.value }
{
    let Some(mut holder) = take(alloc, h) else {
        return Sequence::new(alloc);
    };
    let filters = holder.take_filters(alloc);
    put(h, holder);
    filters
}

/// The Subscribe to these filters, with these properties.
fn subscribe_to(
    alloc: Global,
    filters: Sequence<Filter>,
    properties: Sequence<Property>,
) -> Result<Request, u32>
    ensures ok { IfOk result (IsSubscribeTo filters properties) }
    ensures err { IfErr result (IsDeclined (CantHave subscribe_table properties)) }
{
    match gather(alloc, properties) {
        Ok(set) => Ok(Request::Subscribe(Subscribe {
            pkid: 0,
            filters,
            properties: set,
        })),
        Err(code) => Err(code),
    }
}

/// Asks for a subscription to the filters of the list, with the properties of theirs, at a moment; both are emptied. Answers
/// as `mqtt5_client_publish`, and 6 where there is no filter.
#[unsafe(no_mangle)]
pub extern "C" fn mqtt5_client_subscribe_all(alloc: Global, h: &mut Handle, at: u64) -> u32
    requires { IsKept h.old }
    ensures kept { IsKept h.new }
    ensures answer { Asked (CantHave subscribe_table (properties_in h.old.client_ptr.value))
        (IsSubscribeTo (filters_in h.old.client_ptr.value) (properties_in h.old.client_ptr.value))
        at (cleared (emptied h.old.client_ptr.value)) result h.new.client_ptr.value }
{
    let properties = take_properties(alloc, h);
    let filters = take_filters(alloc, h);
    match subscribe_to(alloc, filters, properties) {
        Ok(request) => ask(alloc, h, request, at),
        Err(code) => code,
    }
}
