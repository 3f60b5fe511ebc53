//! Calls that say a Disconnect with its reason, or an Auth.

ghost use Rattle.std.specs.Prelude.{◌≡◌, false, IfOk, IfErr, IfSome, IsNone};
ghost use Rattle.mqtt5_base.specs.Grammar.{number, passes};
ghost use Rattle.mqtt5_control.specs.Auths.{auth_code};
ghost use Rattle.mqtt5_control.specs.Disconnects.{disconnect_code};
ghost use Rattle.mqtt5_control.specs.Rows.{auth_codes, disconnect_codes};
ghost use Rattle.mqtt5_codec.specs.declared.packet.Packet.TheVariants as packets;
ghost use Rattle.mqtt5_c.specs.Asked.{IsDeclined};
ghost use Rattle.mqtt5_c.specs.Calls.{Called};
ghost use Rattle.mqtt5_c.specs.Handles.{IsKept};
ghost use Rattle.mqtt5_c.specs.Properties.{properties_in, emptied};
ghost use Rattle.mqtt5_c.specs.Said.{IsAuth, IsBadAuth, IsBadDisconnect, IsDisconnect, Said, Says};

use crate::handle::{Handle, put, take};
use crate::number::{BAD_ARGUMENT, NO_CLIENT, code_of};
use crate::properties::{gather, take_properties};
use mqtt5_base::{Property, Sequence};
use mqtt5_control::{Auth, AuthReasonCode, Disconnect, DisconnectReasonCode};
use std::alloc::Global;

/// Says a Disconnect.
fn leave(alloc: Global, h: &mut Handle, disconnect: Disconnect, at: u64) -> u32
    requires { IsKept h.old }
    ensures kept { IsKept h.new }
    ensures answer { Called (Says (packets.Disconnect disconnect) at) h.old.client_ptr.value result
        h.new.client_ptr.value }
{
    let Some(mut holder) = take(alloc, h) else {
        drop(disconnect);
        return NO_CLIENT;
    };
    let outcome = holder.client.disconnect(disconnect, at);
    put(h, holder);
    code_of(&outcome)
}

/// Says an Auth.
fn authenticate(alloc: Global, h: &mut Handle, auth: Auth, at: u64) -> u32
    requires { IsKept h.old }
    ensures kept { IsKept h.new }
    ensures answer { Called (Says (packets.Auth auth) at) h.old.client_ptr.value result
        h.new.client_ptr.value }
{
    let Some(mut holder) = take(alloc, h) else {
        drop(auth);
        return NO_CLIENT;
    };
    let outcome = holder.client.authenticate(auth, at);
    put(h, holder);
    code_of(&outcome)
}

/// The reason of a Disconnect with this code; None where there is none.
fn disconnect_reason(code: u8) -> Option<DisconnectReasonCode>
    ensures some { IfSome result (λ reason. disconnect_code reason ≡ code) }
    ensures none { IsNone result → passes disconnect_codes (number code) ≡ false }
{
    match DisconnectReasonCode::try_from(code) {
        Ok(reason) => Some(reason),
        Err(refused) => {
            drop(refused);
            None
        }
    }
}

/// The reason of an Auth with this code; None where there is none.
fn auth_reason(code: u8) -> Option<AuthReasonCode>
    ensures some { IfSome result (λ reason. auth_code reason ≡ code) }
    ensures none { IsNone result → passes auth_codes (number code) ≡ false }
{
    match code {
        0 => Some(AuthReasonCode::Success),
        24 => Some(AuthReasonCode::Continue),
        25 => Some(AuthReasonCode::ReAuthentivate),
        _other => None,
    }
}

/// The Disconnect of C's arguments.
fn disconnect_of(
    alloc: Global,
    reason: u8,
    properties: Sequence<Property>,
) -> Result<Disconnect, u32>
    ensures ok { IfOk result (λ p. IsDisconnect reason properties (packets.Disconnect p)) }
    ensures err { IfErr result (IsDeclined (IsBadDisconnect reason properties)) }
{
    let set = match gather(alloc, properties) {
        Ok(set) => set,
        Err(code) => return Err(code),
    };
    match disconnect_reason(reason) {
        Some(reason_code) => Ok(Disconnect {
            reason_code,
            properties: set,
        }),
        None => {
            drop(set);
            Err(BAD_ARGUMENT)
        }
    }
}

/// The Auth of C's arguments.
fn auth_of(alloc: Global, reason: u8, properties: Sequence<Property>) -> Result<Auth, u32>
    ensures ok { IfOk result (λ p. IsAuth reason properties (packets.Auth p)) }
    ensures err { IfErr result (IsDeclined (IsBadAuth reason properties)) }
{
    let set = match gather(alloc, properties) {
        Ok(set) => set,
        Err(code) => return Err(code),
    };
    match auth_reason(reason) {
        Some(code) => Ok(Auth::new(code, set)),
        None => {
            drop(set);
            Err(BAD_ARGUMENT)
        }
    }
}

/// Ends the connection for a reason, by a Disconnect with the properties of the list, at a moment. 0; 1 of a reason that
/// only a broker gives, 9 and 100 + n where it can't be sent, 12, 13 once a Disconnect was asked for; 201 of a number that
/// is no reason of a Disconnect and of a property that it can't have, and 12 where memory is refused before the client is
/// asked. The connection then goes on. The list is empty afterwards in each case.
#[unsafe(no_mangle)]
pub extern "C" fn mqtt5_client_disconnect_with(
    alloc: Global,
    h: &mut Handle,
    reason: u8,
    at: u64,
) -> u32
    requires { IsKept h.old }
    ensures kept { IsKept h.new }
    ensures answer { Said (IsBadDisconnect reason (properties_in h.old.client_ptr.value))
        (IsDisconnect reason (properties_in h.old.client_ptr.value)) at
        (emptied h.old.client_ptr.value) result h.new.client_ptr.value }
{
    let properties = take_properties(alloc, h);
    match disconnect_of(alloc, reason, properties) {
        Ok(disconnect) => leave(alloc, h, disconnect, at),
        Err(code) => code,
    }
}

/// Sends an Auth with the properties of the list, at a moment: reason 24 goes on with the exchange, 25 begins anew. 0; 1 of
/// reason 0, which only a broker gives, and where the list has no method (21); else as `mqtt5_client_disconnect_with`.
#[unsafe(no_mangle)]
pub extern "C" fn mqtt5_client_auth(alloc: Global, h: &mut Handle, reason: u8, at: u64) -> u32
    requires { IsKept h.old }
    ensures kept { IsKept h.new }
    ensures answer { Said (IsBadAuth reason (properties_in h.old.client_ptr.value))
        (IsAuth reason (properties_in h.old.client_ptr.value)) at (emptied h.old.client_ptr.value)
        result h.new.client_ptr.value }
{
    let properties = take_properties(alloc, h);
    match auth_of(alloc, reason, properties) {
        Ok(auth) => authenticate(alloc, h, auth, at),
        Err(code) => code,
    }
}
