//! The list of properties that the next packet takes.

ghost use Rattle.std.specs.Prelude.{◌≡◌, ◌⊎◌, None, IfOk, IfErr};
ghost use Rattle.std.specs.Str.{IsUtf8};
ghost use Rattle.mqtt5_properties.specs.Gathering.{gathered, IsSet};
ghost use Rattle.mqtt5_properties.specs.Making.{MayBe, MayHave};
ghost use Rattle.mqtt5_c.specs.Asked.{IsDeclined};
ghost use Rattle.mqtt5_c.specs.Handles.{IsKept};
ghost use Rattle.mqtt5_c.specs.Properties.{properties_in, emptied, HasNumber, HasContent, HasPair, Added, AddedOne};

use crate::handle::{Handle, put, take};
use crate::number::{BAD_ARGUMENT, NO_CLIENT, OUT_OF_MEMORY};
use mqtt5_base::{Property, PropertySet, Sequence};
use mqtt5_properties::{Refusal, bytes_property, number_property, set_of, user_property};
use std::alloc::Global;

/// Takes the list out. Takes no memory.
pub(crate) fn take_properties(alloc: Global, h: &mut Handle) -> Sequence<Property>
    requires { IsKept h.old }
    ensures kept { IsKept h.new }
    ensures taken { result ≡ properties_in h.old.client_ptr.value }
    ensures left { h.new.client_ptr.value ≡ emptied h.old.client_ptr.value }
{
    let Some(mut holder) = take(alloc, h) else {
        return Sequence::new(alloc);
    };
    let properties = holder.take_properties(alloc);
    put(h, holder);
    properties
}

/// The property set of a packet.
pub(crate) fn gather<P: PropertySet>(
    alloc: Global,
    properties: Sequence<Property>,
) -> Result<Option<P>, u32>
    ensures ok { IfOk result (IsSet P.found P.table properties) }
    ensures err { IfErr result (IsDeclined (gathered P.table properties ≡ None)) }
{
    match set_of(alloc, properties) {
        Ok(set) => Ok(set),
        Err(Refusal::NotTaken) => Err(BAD_ARGUMENT),
        Err(Refusal::OutOfMemory) => Err(OUT_OF_MEMORY),
    }
}

/// Adds a property to the list.
fn add(alloc: Global, h: &mut Handle, property: Property) -> u32
    requires { IsKept h.old }
    ensures kept { IsKept h.new }
    ensures answer { AddedOne property h.old.client_ptr.value result h.new.client_ptr.value }
{
    let Some(mut holder) = take(alloc, h) else {
        drop(property);
        return NO_CLIENT;
    };
    let outcome = holder.add_property(property);
    put(h, holder);
    match outcome {
        Ok(()) => 0,
        Err(_refused) => OUT_OF_MEMORY,
    }
}

/// Adds a property that is a number to the list that the next packet takes. 0; 201 where there is no such property or it
/// can't have that number, and 12: the list is then as before.
#[unsafe(no_mangle)]
pub extern "C" fn mqtt5_client_add_number(
    alloc: Global,
    h: &mut Handle,
    property: u32,
    number: u32,
) -> u32
    requires { IsKept h.old }
    ensures kept { IsKept h.new }
    ensures answer { Added (¬ (MayBe property number)) (HasNumber property number)
        h.old.client_ptr.value result h.new.client_ptr.value }
{
    match number_property(property, number) {
        Some(property) => add(alloc, h, property),
        None => BAD_ARGUMENT,
    }
}

/// The same of a property that is a text or binary data.
#[unsafe(no_mangle)]
pub extern "C" fn mqtt5_client_add_bytes(
    alloc: Global,
    h: &mut Handle,
    property: u32,
    bytes: &[u8],
) -> u32
    requires { IsKept h.old }
    ensures kept { IsKept h.new }
    ensures answer { Added (¬ (MayHave property bytes.now)) (HasContent property bytes.now)
        h.old.client_ptr.value result h.new.client_ptr.value }
{
    match bytes_property(alloc, property, bytes) {
        Ok(property) => add(alloc, h, property),
        Err(Refusal::NotTaken) => BAD_ARGUMENT,
        Err(Refusal::OutOfMemory) => OUT_OF_MEMORY,
    }
}

/// The same of a user property.
#[unsafe(no_mangle)]
pub extern "C" fn mqtt5_client_add_pair(
    alloc: Global,
    h: &mut Handle,
    name: &[u8],
    value: &[u8],
) -> u32
    requires { IsKept h.old }
    ensures kept { IsKept h.new }
    ensures answer { Added (¬ (IsUtf8 name.now) ⊎ ¬ (IsUtf8 value.now)) (HasPair name.now value.now)
        h.old.client_ptr.value result h.new.client_ptr.value }
{
    match user_property(alloc, name, value) {
        Ok(property) => add(alloc, h, property),
        Err(Refusal::NotTaken) => BAD_ARGUMENT,
        Err(Refusal::OutOfMemory) => OUT_OF_MEMORY,
    }
}
