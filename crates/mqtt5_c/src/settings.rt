//! Calls that set what each later Connect says, a login and a will, and that forget it.

ghost use Rattle.std.specs.Prelude.{◌≡◌, ◌⊎◌, IfOk, IfErr};
ghost use Rattle.mqtt5_connect.specs.Rows.{will_table};
ghost use Rattle.mqtt5_c.specs.Asked.{CantHave, IsDeclined};
ghost use Rattle.mqtt5_c.specs.Handles.{IsKept};
ghost use Rattle.mqtt5_c.specs.Properties.{properties_in, emptied};
ghost use Rattle.mqtt5_c.specs.Settings.{Sets, with_login, with_will, IsBadWill, IsWill, LoginSet, WillSet, Forgot, Forgets};

use crate::handle::{Handle, put, take};
use crate::number::{BAD_ARGUMENT, NO_CLIENT, OUT_OF_MEMORY};
use crate::properties::{gather, take_properties};
use crate::topic::nonempty_topic;
use bytes::Bytes;
use mqtt5_base::{Sequence, qos};
use mqtt5_connect::{LastWill, LastWillProperties};
use mqtt5_holder::Holder;
use mqtt5_options::MqttOptions;
use std::alloc::Global;

/// Sets a login.
fn log_in(alloc: Global, h: &mut Handle, user_name: &str, password: &str) -> u32
    requires { IsKept h.old }
    ensures kept { IsKept h.new }
    ensures answer { Sets (with_login user_name.now password.now) h.old.client_ptr.value result
        h.new.client_ptr.value }
{
    let Some(mut holder) = take(alloc, h) else {
        return NO_CLIENT;
    };
    let outcome = holder.settings.set_credentials(user_name, password);
    put(h, holder);
    match outcome {
        Ok(()) => 0,
        Err(_refused) => OUT_OF_MEMORY,
    }
}

/// Sets the user name and the password of each later Connect; one that is empty is left out. 0; 201 of one that isn't
/// UTF-8, and 12: they are then as before.
#[unsafe(no_mangle)]
pub extern "C" fn mqtt5_client_set_login(
    alloc: Global,
    h: &mut Handle,
    user_name: &[u8],
    password: &[u8],
) -> u32
    requires { IsKept h.old }
    ensures kept { IsKept h.new }
    ensures answer { LoginSet user_name.now password.now h.old.client_ptr.value result
        h.new.client_ptr.value }
{
    let Ok(user_name) = std::str::from_utf8(user_name) else {
        return BAD_ARGUMENT;
    };
    let Ok(password) = std::str::from_utf8(password) else {
        return BAD_ARGUMENT;
    };
    log_in(alloc, h, user_name, password)
}

/// The will of C's arguments, without properties.
fn will_of(
    alloc: Global,
    topic: &[u8],
    payload: &[u8],
    quality: u8,
    retain: bool,
) -> Result<LastWill, u32>
    ensures ok { IfOk result (IsWill topic.now payload.now quality retain) }
    ensures err { IfErr result (IsDeclined (IsBadWill topic.now quality)) }
{
    let Some(topic) = nonempty_topic(topic) else {
        return Err(BAD_ARGUMENT);
    };
    let Some(qos) = qos(quality) else {
        return Err(BAD_ARGUMENT);
    };
    let Ok(topic) = Bytes::copy_from_slice(alloc, topic.as_bytes()) else {
        return Err(OUT_OF_MEMORY);
    };
    let Ok(message) = Bytes::copy_from_slice(alloc, payload) else {
        return Err(OUT_OF_MEMORY);
    };
    Ok(LastWill {
        topic,
        message,
        qos,
        retain,
        properties: None,
    })
}

/// A will with these properties.
fn will_with(mut will: LastWill, set: Option<LastWillProperties>) -> LastWill
    ensures { result ≡ record will { properties = set } }
{
    will.properties = set;
    will
}

/// Sets a will.
fn keep_will(alloc: Global, h: &mut Handle, will: LastWill) -> u32
    requires { IsKept h.old }
    ensures kept { IsKept h.new }
    ensures answer { Sets (with_will will) h.old.client_ptr.value result h.new.client_ptr.value }
{
    let Some(mut holder) = take(alloc, h) else {
        drop(will);
        return NO_CLIENT;
    };
    holder.settings.set_last_will(will);
    put(h, holder);
    0
}

/// Sets the will of each later Connect, with the properties of the list, which is emptied. 0; 201 of what is no topic or is
/// empty, of a QoS above 2 and of a property that a will can't have, and 12: the will is then as before.
#[unsafe(no_mangle)]
pub extern "C" fn mqtt5_client_set_will(
    alloc: Global,
    h: &mut Handle,
    topic: &[u8],
    payload: &[u8],
    qos: u8,
    retain: bool,
) -> u32
    requires { IsKept h.old }
    ensures kept { IsKept h.new }
    ensures answer { WillSet (IsBadWill topic.now qos
        ⊎ CantHave will_table (properties_in h.old.client_ptr.value))
        (IsWill topic.now payload.now qos retain) (properties_in h.old.client_ptr.value)
        (emptied h.old.client_ptr.value) result h.new.client_ptr.value }
{
    let properties = take_properties(alloc, h);
    let set = match gather(alloc, properties) {
        Ok(set) => set,
        Err(code) => return code,
    };
    match will_of(alloc, topic, payload, qos, retain) {
        Ok(will) => keep_will(alloc, h, will_with(will, set)),
        Err(code) => code,
    }
}

/// Sets all back to what a new client has.
fn forget_in(alloc: Global, holder: &mut Holder) -> u32
    ensures forgot { Forgot holder.old result holder.new }
    ensures client { holder.new.client ≡ holder.old.client }
{
    let Ok(settings) = MqttOptions::new(alloc, "", "", 0) else {
        return OUT_OF_MEMORY;
    };
    holder.settings = settings;
    holder.properties = Sequence::new(alloc);
    holder.filters = Sequence::new(alloc);
    0
}

/// Forgets the login and the will, and empties the lists of properties and of filters. 0; 12: all is then as before.
#[unsafe(no_mangle)]
pub extern "C" fn mqtt5_client_forget(alloc: Global, h: &mut Handle) -> u32
    requires { IsKept h.old }
    ensures kept { IsKept h.new }
    ensures answer { Forgets h.old.client_ptr.value result h.new.client_ptr.value }
{
    let Some(mut holder) = take(alloc, h) else {
        return NO_CLIENT;
    };
    let code = forget_in(alloc, &mut holder);
    put(h, holder);
    code
}
