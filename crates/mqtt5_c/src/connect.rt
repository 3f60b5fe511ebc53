//! The call that begins a connection.

ghost use Rattle.std.specs.Prelude.{◌≡◌, ◌⊎◌, ◌≤◌, IfSome, unwrap_or};
ghost use Rattle.mqtt5_base.specs.Texts.{text_of};
ghost use Rattle.mqtt5_client.specs.Client.{IsReady};
ghost use Rattle.mqtt5_connect.specs.Rows.{connect_table};
ghost use Rattle.mqtt5_connect.specs.Connects.{no_connect_properties};
ghost use Rattle.mqtt5_c.specs.Asked.{CantHave};
ghost use Rattle.mqtt5_c.specs.Connected.{IsBadConnect, settled, Connects, Begins, Connected};
ghost use Rattle.mqtt5_c.specs.Handles.{IsKept};
ghost use Rattle.mqtt5_c.specs.Properties.{properties_in, emptied};

use crate::handle::{Handle, put, take};
use crate::number::{BAD_ARGUMENT, NO_CLIENT, OUT_OF_MEMORY, code_of};
use crate::properties::{gather, take_properties};
use mqtt5_base::Text;
use mqtt5_client::StateError;
use mqtt5_connect::ConnectProperties;
use mqtt5_holder::Holder;
use mqtt5_options::MqttOptions;
use std::alloc::Global;
use std::time::Duration;

/// A copy of a text.
#[tactic(auto, using(mqtt5_base::specs::Codes::text_back))]
fn copy_of(alloc: Global, text: &str) -> Option<Text>
    ensures { IfSome result (λ t. t ≡ text_of text.now) }
{
    match Text::from_str(alloc, text) {
        Ok(text) => Some(text),
        Err(_refused) => None,
    }
}

/// The properties, empty ones where there are none.
fn or_empty(alloc: Global, set: Option<ConnectProperties>) -> ConnectProperties
    ensures { result ≡ unwrap_or set no_connect_properties }
{
    match set {
        Some(set) => set,
        None => ConnectProperties::new(alloc),
    }
}

/// Sets what the Connect says besides login and will.
fn settle(
    settings: &mut MqttOptions,
    client_id: Text,
    keep_alive: u16,
    clean_start: bool,
    session_expiry: u32,
    properties: ConnectProperties,
)
    requires { 5 ≤ keep_alive }
    ensures { settings.new
        ≡ settled client_id keep_alive clean_start session_expiry properties settings.old }
{
    settings.set_client_id(client_id);
    settings.set_keep_alive(Duration::from_secs(u64::from(keep_alive)));
    settings.set_clean_start(clean_start);
    settings.set_connect_properties(properties);
    settings.set_session_expiry_interval(Some(session_expiry));
}

/// Sets what the Connect says, and asks for it.
fn begin_in(
    holder: &mut Holder,
    client_id: Text,
    keep_alive: u16,
    clean_start: bool,
    session_expiry: u32,
    properties: ConnectProperties,
) -> Result<(), StateError>
    requires { 5 ≤ keep_alive }
    ensures begun { Connects
        (settled client_id keep_alive clean_start session_expiry properties holder.old.settings)
        holder.old.client result holder.new.client }
    ensures rest { holder.new ≡ record holder.old {
      client = holder.new.client;
      settings = settled client_id keep_alive clean_start session_expiry properties
          holder.old.settings;
    } }
    ensures ready { IsReady holder.old.client → IsReady holder.new.client }
{
    settle(
        &mut holder.settings,
        client_id,
        keep_alive,
        clean_start,
        session_expiry,
        properties,
    );
    holder.client.connect(&holder.settings)
}

/// Asks a client for its Connect.
#[tactic(auto, using(crate::proofs::CallLemmas::begun, crate::proofs::CallLemmas::unbegun))]
fn begin(
    alloc: Global,
    h: &mut Handle,
    client_id: Text,
    keep_alive: u16,
    clean_start: bool,
    session_expiry: u32,
    properties: ConnectProperties,
) -> u32
    requires kept { IsKept h.old }
    requires alive { 5 ≤ keep_alive }
    ensures kept { IsKept h.new }
    ensures answer { Begins (settled client_id keep_alive clean_start session_expiry properties)
        h.old.client_ptr.value result h.new.client_ptr.value }
{
    let Some(mut holder) = take(alloc, h) else {
        return NO_CLIENT;
    };
    let outcome = begin_in(
        &mut holder,
        client_id,
        keep_alive,
        clean_start,
        session_expiry,
        properties,
    );
    put(h, holder);
    code_of(&outcome)
}

/// Begins a connection: the input is emptied, and the output is the Connect of these arguments, with the login and the will
/// that were set and the properties of the list, which is emptied. `keep_alive` is the longest time in seconds without a
/// packet from the client, at least 5; after `session_expiry` seconds without a connection the broker forgets the session.
/// 0; 111 of what is too long to be written; 201 of an identifier that isn't UTF-8, a keep alive below 5, or a property
/// that a Connect can't have; 12: the client is then as before. For a connection with clean start call
/// `mqtt5_client_clean` before.
#[unsafe(no_mangle)]
pub extern "C" fn mqtt5_client_connect(
    alloc: Global,
    h: &mut Handle,
    client_id: &[u8],
    keep_alive: u16,
    clean_start: bool,
    session_expiry: u32,
) -> u32
    requires { IsKept h.old }
    ensures kept { IsKept h.new }
    ensures answer { Connected (IsBadConnect client_id.now keep_alive
        ⊎ CantHave connect_table (properties_in h.old.client_ptr.value)) client_id.now keep_alive
        clean_start session_expiry (properties_in h.old.client_ptr.value)
        (emptied h.old.client_ptr.value) result h.new.client_ptr.value }
{
    let properties = take_properties(alloc, h);
    let set = match gather(alloc, properties) {
        Ok(set) => or_empty(alloc, set),
        Err(code) => return code,
    };
    let Ok(client_id) = std::str::from_utf8(client_id) else {
        return BAD_ARGUMENT;
    };
    if keep_alive < 5 {
        return BAD_ARGUMENT;
    }
    let Some(client_id) = copy_of(alloc, client_id) else {
        return OUT_OF_MEMORY;
    };
    begin(
        alloc,
        h,
        client_id,
        keep_alive,
        clean_start,
        session_expiry,
        set,
    )
}
