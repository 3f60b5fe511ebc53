//! Calls that tell of the oldest request that was let go: its properties, while it stays, and itself, which takes it out.

ghost use Rattle.std.specs.Prelude.{◌≡◌, None, IsNone, IfSome, option_copied};
ghost use Rattle.mqtt5_c.specs.Dropped.{request_told, topic_asked, payload_asked, dropped_told, dropped_topic, dropped_payload, fits, TakesOne, TakesOneIn, number_dropped, content_dropped, pair_dropped};
ghost use Rattle.mqtt5_c.specs.Events.{over_if};
ghost use Rattle.mqtt5_c.specs.Handles.{IsKept};
ghost use Rattle.mqtt5_c.specs.Numbers.{no_client};
ghost use Rattle.mqtt5_c.specs.Told.{Tells, TellsBytes, TellsPair};

use crate::event::{EventInfo, NOTHING, came, copy_both, publish_told};
use crate::handle::{Handle, put, take};
use crate::number::{ABSENT, NO_CLIENT, SMALL_BUFFER};
use crate::told::{copy_if_fits, copy_pair, tell_found};
use mqtt5_base::Text;
use mqtt5_client::Request;
use mqtt5_events::{content_asked, number_asked, pairs_asked};
use mqtt5_holder::Dropped;
use std::alloc::Global;

/// A request that was let go as numbers.
fn request_told(request: &Request) -> EventInfo
    ensures { result ≡ request_told request.now }
{
    match request {
        Request::Publish(publish) => EventInfo {
            kind: 4,
            ..publish_told(publish)
        },
        Request::PubRel(release) => EventInfo {
            kind: 4,
            ..came(6, release.pkid, 0)
        },
        _other => EventInfo { kind: 4, ..NOTHING },
    }
}

/// The topic of a Publish; of another request nothing.
fn topic_asked(request: &Request) -> &[u8]
    ensures { result.now ≡ topic_asked request.now }
{
    match request {
        Request::Publish(publish) => publish.topic.as_slice(),
        _other => &[],
    }
}

/// The payload of a Publish; of another request nothing.
fn payload_asked(request: &Request) -> &[u8]
    ensures { result.now ≡ payload_asked request.now }
{
    match request {
        Request::Publish(publish) => publish.payload.as_slice(),
        _other => &[],
    }
}

/// Tells of the oldest request and copies its topic and payload, where they fit; answers whether they do.
fn show(dropped: &Dropped, info: &mut EventInfo, topic: &mut [u8], payload: &mut [u8]) -> bool
    ensures told { info.new ≡ dropped_told dropped.now }
    ensures room { result ≡ fits dropped.now topic.old payload.old }
    ensures topic { topic.new
        ≡ over_if (fits dropped.now topic.old payload.old)
        (dropped_topic dropped.now) topic.old }
    ensures payload { payload.new
        ≡ over_if (fits dropped.now topic.old payload.old)
        (dropped_payload dropped.now) payload.old }
{
    let Some(request) = dropped.first() else {
        *info = NOTHING;
        return true;
    };
    *info = request_told(request);
    copy_both(topic_asked(request), payload_asked(request), topic, payload)
}

/// Shows the oldest request, and takes it out where its topic and payload fit.
fn pop(dropped: &mut Dropped, info: &mut EventInfo, topic: &mut [u8], payload: &mut [u8]) -> u32
    ensures told { info.new ≡ dropped_told dropped.old }
    ensures takes { TakesOne (fits dropped.old topic.old payload.old)
        dropped.old result dropped.new }
    ensures topic { topic.new
        ≡ over_if (fits dropped.old topic.old payload.old)
        (dropped_topic dropped.old) topic.old }
    ensures payload { payload.new
        ≡ over_if (fits dropped.old topic.old payload.old)
        (dropped_payload dropped.old) payload.old }
{
    if !show(dropped, info, topic, payload) {
        return SMALL_BUFFER;
    }
    dropped.pop();
    0
}

/// Tells of the oldest request that the last `mqtt5_client_clean` or `mqtt5_client_take_up` let go, copies the topic and the
/// payload of a Publish, and takes it out. 0, also where there is none; 203 where a buffer is too small: what was told says
/// how many bytes are needed, and the request stays.
#[unsafe(no_mangle)]
pub extern "C" fn mqtt5_client_next_dropped(
    alloc: Global,
    h: &mut Handle,
    info: &mut EventInfo,
    topic: &mut [u8],
    payload: &mut [u8],
) -> u32
    requires { IsKept h.old }
    ensures kept { IsKept h.new }
    ensures none { IsNone h.old.client_ptr.value → (result ≡ no_client)
        × (h.new.client_ptr.value ≡ None) × (info.new ≡ info.old) × (topic.new ≡ topic.old)
        × (payload.new ≡ payload.old) }
    ensures told { IfSome h.old.client_ptr.value
        (λ x. info.new ≡ dropped_told x.dropped) }
    ensures takes { IfSome h.old.client_ptr.value
        (λ x. TakesOneIn (fits x.dropped topic.old payload.old) x
        result h.new.client_ptr.value) }
    ensures topic { IfSome h.old.client_ptr.value (λ x. topic.new
        ≡ over_if (fits x.dropped topic.old payload.old)
        (dropped_topic x.dropped) topic.old) }
    ensures payload { IfSome h.old.client_ptr.value (λ x. payload.new
        ≡ over_if (fits x.dropped topic.old payload.old)
        (dropped_payload x.dropped) payload.old) }
{
    let Some(mut holder) = take(alloc, h) else {
        return NO_CLIENT;
    };
    let code = pop(&mut holder.dropped, info, topic, payload);
    put(h, holder);
    code
}

fn tell_number(dropped: &Dropped, property: u32, number: &mut u32) -> u32
    ensures { Tells (number_dropped dropped.now property) number.old result
        number.new }
{
    let Some(request) = dropped.first() else {
        return ABSENT;
    };
    tell_found!(number_asked(request, property), number)
}

/// Tells the number of the property with this identifier of the Publish that is the oldest request that was let go. 0; 204
/// where it has none: the number is then as before.
#[unsafe(no_mangle)]
pub extern "C" fn mqtt5_client_dropped_number(
    alloc: Global,
    h: &mut Handle,
    property: u32,
    number: &mut u32,
) -> u32
    requires { IsKept h.old }
    ensures kept { IsKept h.new }
    ensures same { h.new.client_ptr.value ≡ h.old.client_ptr.value }
    ensures none { IsNone h.old.client_ptr.value
        → (result ≡ no_client) × (number.new ≡ number.old) }
    ensures told { IfSome h.old.client_ptr.value
        (λ x. Tells (number_dropped x.dropped property) number.old result
        number.new) }
{
    let Some(holder) = take(alloc, h) else {
        return NO_CLIENT;
    };
    let code = tell_number(&holder.dropped, property, number);
    put(h, holder);
    code
}

fn tell_bytes(dropped: &Dropped, property: u32, buffer: &mut [u8], count: &mut usize) -> u32
    ensures { TellsBytes (content_dropped dropped.now property) buffer.old count.old
        result buffer.new count.new }
{
    let Some(request) = dropped.first() else {
        return ABSENT;
    };
    let Some(bytes) = content_asked(request, property) else {
        return ABSENT;
    };
    copy_if_fits(buffer, count, bytes)
}

/// Copies the bytes of the property with this identifier of the Publish that is the oldest request that was let go, a text
/// or binary data, and tells how many they are. 0; 203 where the buffer is too small, and 204 where it has none: the buffer
/// is then as before.
#[unsafe(no_mangle)]
pub extern "C" fn mqtt5_client_dropped_bytes(
    alloc: Global,
    h: &mut Handle,
    property: u32,
    buffer: &mut [u8],
    count: &mut usize,
) -> u32
    requires { IsKept h.old }
    ensures kept { IsKept h.new }
    ensures same { h.new.client_ptr.value ≡ h.old.client_ptr.value }
    ensures none { IsNone h.old.client_ptr.value
        → (result ≡ no_client) × (buffer.new ≡ buffer.old) × (count.new ≡ count.old) }
    ensures told { IfSome h.old.client_ptr.value
        (λ x. TellsBytes (content_dropped x.dropped property) buffer.old count.old
        result buffer.new count.new) }
{
    let Some(holder) = take(alloc, h) else {
        return NO_CLIENT;
    };
    let code = tell_bytes(&holder.dropped, property, buffer, count);
    put(h, holder);
    code
}

/// The user property at a place of the oldest request.
fn first_pair(dropped: &Dropped, index: usize) -> Option<&(Text, Text)>
    ensures { option_copied result ≡ pair_dropped dropped.now index }
{
    let request = dropped.first()?;
    pairs_asked(request).get(index)
}

fn tell_pair(
    dropped: &Dropped,
    index: usize,
    name: &mut [u8],
    name_count: &mut usize,
    value: &mut [u8],
    value_count: &mut usize,
) -> u32
    ensures { TellsPair (pair_dropped dropped.now index) (name.old, value.old)
        (name_count.old, value_count.old) result (name.new, value.new)
        (name_count.new, value_count.new) }
{
    match first_pair(dropped, index) {
        Some(pair) => copy_pair(pair, name, name_count, value, value_count),
        None => ABSENT,
    }
}

/// Copies the name and the value of a user property, from 0 on, of the Publish that is the oldest request that was let go,
/// and tells how many bytes they have. 0; 203 where a buffer is too small, and 204 where it has none: the buffers are then
/// as before.
#[unsafe(no_mangle)]
pub extern "C" fn mqtt5_client_dropped_pair(
    alloc: Global,
    h: &mut Handle,
    index: usize,
    name: &mut [u8],
    name_count: &mut usize,
    value: &mut [u8],
    value_count: &mut usize,
) -> u32
    requires { IsKept h.old }
    ensures kept { IsKept h.new }
    ensures same { h.new.client_ptr.value ≡ h.old.client_ptr.value }
    ensures none { IsNone h.old.client_ptr.value
        → (result ≡ no_client) × (name.new ≡ name.old) × (value.new ≡ value.old)
        × (name_count.new ≡ name_count.old) × (value_count.new ≡ value_count.old) }
    ensures told { IfSome h.old.client_ptr.value
        (λ x. TellsPair (pair_dropped x.dropped index) (name.old, value.old)
        (name_count.old, value_count.old) result (name.new, value.new)
        (name_count.new, value_count.new)) }
{
    let Some(holder) = take(alloc, h) else {
        return NO_CLIENT;
    };
    let code = tell_pair(&holder.dropped, index, name, name_count, value, value_count);
    put(h, holder);
    code
}
