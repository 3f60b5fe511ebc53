//! Calls that tell of the oldest event's properties and reason codes. The event stays.

ghost use Rattle.std.specs.Prelude.{◌≡◌, length, nat_le, Some, option_copied, IsNone, IfSome};
ghost use Rattle.mqtt5_c.specs.Handles.{IsKept};
ghost use Rattle.mqtt5_c.specs.Numbers.{no_client};
ghost use Rattle.mqtt5_c.specs.Told.{number_of, content_of, pair_of, subscription_of, reason_of, Tells, Copies, TellsBytes, TellsPair};

use crate::event::copy_over;
use crate::handle::{Handle, put, take};
use crate::number::{ABSENT, NO_CLIENT, SMALL_BUFFER};
use mqtt5_base::Text;
use mqtt5_client::Event;
use mqtt5_events::{content_in, number_in, pairs_in, reason_in, subscriptions_in};
use std::alloc::Global;
use std::collections::VecDeque;

/// Tells what was found, or that it isn't there.
macro_rules! tell_found {
    ($found:expr, $place:expr) => {{
        let Some(found) = $found else {
            return ABSENT;
        };
        *$place = found;
        0
    }};
}

pub(crate) use tell_found;

fn tell_number(events: &VecDeque<Event>, property: u32, number: &mut u32) -> u32
    ensures { Tells (number_of events.now.items property) number.old result number.new }
{
    let Some(event) = events.front() else {
        return ABSENT;
    };
    tell_found!(number_in(event, property), number)
}

/// Tells the number of the property with this identifier of the packet that the oldest event tells of. 0; 204 where it has
/// none: the number is then as before.
#[unsafe(no_mangle)]
pub extern "C" fn mqtt5_client_event_number(
    alloc: Global,
    h: &mut Handle,
    property: u32,
    number: &mut u32,
) -> u32
    requires { IsKept h.old }
    ensures kept { IsKept h.new }
    ensures same { h.new.client_ptr.value ≡ h.old.client_ptr.value }
    ensures none { IsNone h.old.client_ptr.value
        → (result ≡ no_client) × (number.new ≡ number.old) }
    ensures told { IfSome h.old.client_ptr.value
        (λ x. Tells (number_of x.client.state.events property) number.old result number.new) }
{
    let Some(holder) = take(alloc, h) else {
        return NO_CLIENT;
    };
    let code = tell_number(holder.client.state.events(), property, number);
    put(h, holder);
    code
}

/// Copies bytes where they fit, and tells how many they are.
pub(crate) fn copy_if_fits(buffer: &mut [u8], count: &mut usize, bytes: &[u8]) -> u32
    ensures count { count.new ≡ length bytes.now }
    ensures copied { Copies (nat_le (length bytes.now) (length buffer.old)) bytes.now buffer.old
        result buffer.new }
{
    *count = bytes.len();
    if bytes.len() <= buffer.len() {
        copy_over(buffer, bytes);
        0
    } else {
        SMALL_BUFFER
    }
}

fn tell_bytes(events: &VecDeque<Event>, property: u32, buffer: &mut [u8], count: &mut usize) -> u32
    ensures { TellsBytes (content_of events.now.items property) buffer.old count.old result
        buffer.new count.new }
{
    let Some(event) = events.front() else {
        return ABSENT;
    };
    let Some(bytes) = content_in(event, property) else {
        return ABSENT;
    };
    copy_if_fits(buffer, count, bytes)
}

/// Copies the bytes of the property with this identifier of the packet that the oldest event tells of, a text or binary
/// data, and tells how many they are. 0; 203 where the buffer is too small, and 204 where it has none: the buffer is then
/// as before.
#[unsafe(no_mangle)]
pub extern "C" fn mqtt5_client_event_bytes(
    alloc: Global,
    h: &mut Handle,
    property: u32,
    buffer: &mut [u8],
    count: &mut usize,
) -> u32
    requires { IsKept h.old }
    ensures kept { IsKept h.new }
    ensures same { h.new.client_ptr.value ≡ h.old.client_ptr.value }
    ensures none { IsNone h.old.client_ptr.value
        → (result ≡ no_client) × (buffer.new ≡ buffer.old) × (count.new ≡ count.old) }
    ensures told { IfSome h.old.client_ptr.value
        (λ x. TellsBytes (content_of x.client.state.events property) buffer.old count.old result
        buffer.new count.new) }
{
    let Some(holder) = take(alloc, h) else {
        return NO_CLIENT;
    };
    let code = tell_bytes(holder.client.state.events(), property, buffer, count);
    put(h, holder);
    code
}

/// Copies a name and a value where both fit, and tells how many bytes they have.
pub(crate) fn copy_pair(
    pair: &(Text, Text),
    name: &mut [u8],
    name_count: &mut usize,
    value: &mut [u8],
    value_count: &mut usize,
) -> u32
    ensures { TellsPair (Some pair.now) (name.old, value.old) (name_count.old, value_count.old)
        result (name.new, value.new) (name_count.new, value_count.new) }
{
    let from_name = pair.0.as_bytes();
    let from_value = pair.1.as_bytes();
    *name_count = from_name.len();
    *value_count = from_value.len();
    if from_name.len() <= name.len() && from_value.len() <= value.len() {
        copy_over(name, from_name);
        copy_over(value, from_value);
        0
    } else {
        SMALL_BUFFER
    }
}

/// The user property at a place of the oldest event.
fn first_pair(events: &VecDeque<Event>, index: usize) -> Option<&(Text, Text)>
    ensures { option_copied result ≡ pair_of events.now.items index }
{
    let event = events.front()?;
    pairs_in(event).get(index)
}

fn tell_pair(
    events: &VecDeque<Event>,
    index: usize,
    name: &mut [u8],
    name_count: &mut usize,
    value: &mut [u8],
    value_count: &mut usize,
) -> u32
    ensures { TellsPair (pair_of events.now.items index) (name.old, value.old)
        (name_count.old, value_count.old) result (name.new, value.new)
        (name_count.new, value_count.new) }
{
    match first_pair(events, index) {
        Some(pair) => copy_pair(pair, name, name_count, value, value_count),
        None => ABSENT,
    }
}

/// Copies the name and the value of a user property, from 0 on, of the packet that the oldest event tells of, and tells how
/// many bytes they have. 0; 203 where a buffer is too small, and 204 where it has none: the buffers are then as before.
#[unsafe(no_mangle)]
pub extern "C" fn mqtt5_client_event_pair(
    alloc: Global,
    h: &mut Handle,
    index: usize,
    name: &mut [u8],
    name_count: &mut usize,
    value: &mut [u8],
    value_count: &mut usize,
) -> u32
    requires { IsKept h.old }
    ensures kept { IsKept h.new }
    ensures same { h.new.client_ptr.value ≡ h.old.client_ptr.value }
    ensures none { IsNone h.old.client_ptr.value
        → (result ≡ no_client) × (name.new ≡ name.old) × (value.new ≡ value.old) }
    ensures told { IfSome h.old.client_ptr.value
        (λ x. TellsPair (pair_of x.client.state.events index) (name.old, value.old)
        (name_count.old, value_count.old) result (name.new, value.new)
        (name_count.new, value_count.new)) }
{
    let Some(holder) = take(alloc, h) else {
        return NO_CLIENT;
    };
    let code = tell_pair(
        holder.client.state.events(),
        index,
        name,
        name_count,
        value,
        value_count,
    );
    put(h, holder);
    code
}

fn tell_subscription(events: &VecDeque<Event>, index: usize, identifier: &mut usize) -> u32
    ensures { Tells (subscription_of events.now.items index) identifier.old result
        identifier.new }
{
    let Some(event) = events.front() else {
        return ABSENT;
    };
    let Some(found) = subscriptions_in(event).get(index) else {
        return ABSENT;
    };
    *identifier = *found;
    0
}

/// Tells a subscription identifier, from 0 on, of the Publish that the oldest event tells of. 0; 204 where it has none: the
/// identifier is then as before.
#[unsafe(no_mangle)]
pub extern "C" fn mqtt5_client_event_subscription(
    alloc: Global,
    h: &mut Handle,
    index: usize,
    identifier: &mut usize,
) -> u32
    requires { IsKept h.old }
    ensures kept { IsKept h.new }
    ensures same { h.new.client_ptr.value ≡ h.old.client_ptr.value }
    ensures none { IsNone h.old.client_ptr.value
        → (result ≡ no_client) × (identifier.new ≡ identifier.old) }
    ensures told { IfSome h.old.client_ptr.value
        (λ x. Tells (subscription_of x.client.state.events index) identifier.old result
        identifier.new) }
{
    let Some(holder) = take(alloc, h) else {
        return NO_CLIENT;
    };
    let code = tell_subscription(holder.client.state.events(), index, identifier);
    put(h, holder);
    code
}

fn tell_reason(events: &VecDeque<Event>, index: usize, reason: &mut u8) -> u32
    ensures { Tells (reason_of events.now.items index) reason.old result reason.new }
{
    let Some(event) = events.front() else {
        return ABSENT;
    };
    tell_found!(reason_in(event, index), reason)
}

/// Tells a reason code, from 0 on, of the packet that the oldest event tells of: of a SubAck and an UnsubAck one for each
/// filter, of another packet one where its type has it. 0; 204 where it isn't there: the reason is then as before.
#[unsafe(no_mangle)]
pub extern "C" fn mqtt5_client_event_reason(
    alloc: Global,
    h: &mut Handle,
    index: usize,
    reason: &mut u8,
) -> u32
    requires { IsKept h.old }
    ensures kept { IsKept h.new }
    ensures same { h.new.client_ptr.value ≡ h.old.client_ptr.value }
    ensures none { IsNone h.old.client_ptr.value
        → (result ≡ no_client) × (reason.new ≡ reason.old) }
    ensures told { IfSome h.old.client_ptr.value
        (λ x. Tells (reason_of x.client.state.events index) reason.old result reason.new) }
{
    let Some(holder) = take(alloc, h) else {
        return NO_CLIENT;
    };
    let code = tell_reason(holder.client.state.events(), index, reason);
    put(h, holder);
    code
}
