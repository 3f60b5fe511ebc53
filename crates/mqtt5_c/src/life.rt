//! Calls that make a client, let it go and begin its connections.

ghost use Rattle.std.specs.Prelude.{◌≡◌, ◌⊎◌, ◌<◌, [], None, Some, IsNone, IsSome, IfOk, IfErr, IfSome, length};
ghost use Rattle.mqtt5_session.specs.Session.{fresh};
ghost use Rattle.mqtt5_client.specs.Client.{IsReady, given_back};
ghost use Rattle.mqtt5_client.specs.TakingUp.{returned};
ghost use Rattle.mqtt5_c.specs.Calls.{Called, LetsGo, dropped_after, Cleans, IsNew, Resumes, TakesUp};
ghost use Rattle.mqtt5_c.specs.Handles.{IsKept};
ghost use Rattle.mqtt5_c.specs.Numbers.{code_of, no_client, has_client, bad_argument, out_of_memory};

use crate::handle::{Handle, put, take};
use crate::number::{BAD_ARGUMENT, HAS_CLIENT, NO_CLIENT, OUT_OF_MEMORY, code_of};
use mqtt5_client::{Client, StateError};
use mqtt5_holder::{Dropped, Holder};
use std::alloc::Global;

/// A client in a box.
fn boxed(alloc: Global, limit: u16, manual_acks: bool) -> Option<Box<Holder>>
    requires { 0 < limit }
    ensures new { IfSome result (λ b. IsNew limit manual_acks b.value) }
    ensures ready { IfSome result (λ b. IsReady b.value.client) }
{
    let Ok(client) = Client::new(alloc, limit, manual_acks) else {
        return None;
    };
    let Ok(holder) = Holder::new(alloc, client) else {
        return None;
    };
    Box::new(alloc, holder).ok()
}

/// Makes a client in an empty handle, without limits on packets. `limit`, at least 1, is the greatest packet
/// identifier, and so the most publishes without an ack at a time; with `manual_acks` the program sends the acks. 0;
/// 12 where memory is refused, 201 of limit 0, 202 where there is a client: then the handle is as before.
#[unsafe(no_mangle)]
pub extern "C" fn mqtt5_client_new(
    alloc: Global,
    h: &mut Handle,
    limit: u16,
    manual_acks: bool,
) -> u32
    requires { IsKept h.old }
    ensures kept { IsKept h.new }
    // A second client isn't made.
    ensures full { IsSome h.old.client_ptr.value → (result ≡ has_client)
        × (h.new.client_ptr.value ≡ h.old.client_ptr.value) }
    ensures made { IsNone h.old.client_ptr.value → 0 < limit
        → ((result ≡ 0) × IsSome h.new.client_ptr.value
        × IfSome h.new.client_ptr.value (IsNew limit manual_acks)) ⊎ ((result ≡ out_of_memory)
        × (h.new.client_ptr.value ≡ None)) }
    ensures none { IsNone h.old.client_ptr.value → limit ≡ 0
        → (result ≡ bad_argument) × (h.new.client_ptr.value ≡ None) }
{
    if let Some(holder) = take(alloc, h) {
        put(h, holder);
        return HAS_CLIENT;
    }
    if limit == 0 {
        return BAD_ARGUMENT;
    }
    match boxed(alloc, limit, manual_acks) {
        Some(holder) => {
            put(h, holder);
            0
        }
        None => OUT_OF_MEMORY,
    }
}

/// Lets the client go, with all that it holds; the handle is empty again. 0; 200 where there is none.
#[unsafe(no_mangle)]
pub extern "C" fn mqtt5_client_free(alloc: Global, h: &mut Handle) -> u32
    requires { IsKept h.old }
    ensures kept { IsKept h.new }
    ensures gone { h.new.client_ptr.value ≡ None }
    ensures none { IsNone h.old.client_ptr.value → result ≡ no_client }
    ensures freed { IsSome h.old.client_ptr.value → result ≡ 0 }
{
    match take(alloc, h) {
        Some(_holder) => 0,
        None => NO_CLIENT,
    }
}

/// Takes the session up on a new connection, once its ConnAck says that the broker has it (an event's
/// `session_present`): all that awaits an ack goes to the end of the output, publishes with dup. 0; 8, 9, 12 and
/// 100 + n: the output is as before, and the call may be made again.
#[unsafe(no_mangle)]
#[tactic(auto, using(crate::proofs::CallLemmas::called, crate::proofs::CallLemmas::uncalled))]
pub extern "C" fn mqtt5_client_resume(alloc: Global, h: &mut Handle, at: u64) -> u32
    requires { IsKept h.old }
    ensures kept { IsKept h.new }
    ensures answer { Called (Resumes at) h.old.client_ptr.value result h.new.client_ptr.value }
{
    let Some(mut holder) = take(alloc, h) else {
        return NO_CLIENT;
    };
    let outcome = holder.client.resume(at);
    put(h, holder);
    code_of(&outcome)
}

/// Ends the session of a holder's client, and keeps what was let go.
fn clean_in(holder: &mut Holder, count: &mut usize) -> Result<(), StateError>
    ensures cleaned { Cleans holder.old.client result holder.new.client }
    ensures rest { holder.new ≡ record holder.old {
      client = holder.new.client;
      dropped = dropped_after result (given_back holder.old.client.state.core)
          holder.old.dropped;
    } }
    ensures count { code_of result ≡ 0
        → count.new ≡ length (given_back holder.old.client.state.core) }
    ensures ready { IsReady holder.old.client → IsReady holder.new.client }
{
    match holder.client.clean() {
        Ok(requests) => {
            *count = requests.len();
            holder.dropped = Dropped::from(requests);
            Ok(())
        }
        Err(fault) => Err(fault),
    }
}

/// Ends the session, for a connection with clean start: what awaits an ack is let go, and `count` tells how many requests
/// that were. `mqtt5_client_next_dropped` gives them out, in place of those of an earlier call. 0; 1 where an event isn't
/// taken out, and 12: the client, and what was let go before, is then as before.
#[unsafe(no_mangle)]
#[tactic(auto, using(crate::proofs::CallLemmas::let_go, crate::proofs::CallLemmas::none_let_go))]
pub extern "C" fn mqtt5_client_clean(alloc: Global, h: &mut Handle, count: &mut usize) -> u32
    requires { IsKept h.old }
    ensures kept { IsKept h.new }
    ensures answer { LetsGo Cleans (λ c. given_back c.state.core) h.old.client_ptr.value result
        h.new.client_ptr.value }
    ensures count { result ≡ 0 → IfSome h.old.client_ptr.value
        (λ x. count.new ≡ length (given_back x.client.state.core)) }
{
    let Some(mut holder) = take(alloc, h) else {
        return NO_CLIENT;
    };
    let outcome = clean_in(&mut holder, count);
    put(h, holder);
    code_of(&outcome)
}

/// Takes the session of a holder's client up, or ends it, and keeps what was let go.
fn take_up_in(
    holder: &mut Holder,
    session_present: bool,
    at: u64,
    count: &mut usize,
) -> Result<(), StateError>
    ensures taken_up { TakesUp session_present at holder.old.client result holder.new.client }
    ensures rest { holder.new ≡ record holder.old {
      client = holder.new.client;
      dropped = dropped_after result (returned session_present holder.old.client)
          holder.old.dropped;
    } }
    ensures count { code_of result ≡ 0
        → count.new ≡ length (returned session_present holder.old.client) }
    ensures ready { IsReady holder.old.client → IsReady holder.new.client }
{
    match holder.client.take_up(session_present, at) {
        Ok(given) => {
            *count = given.len();
            holder.dropped = Dropped::from(given);
            Ok(())
        }
        Err(fault) => Err(fault),
    }
}

/// Takes the session up on a new connection, or ends it, as the ConnAck says whether the broker has it (an event's
/// `session_present`). With it all that awaits an ack goes to the end of the output, publishes with dup, but those that
/// the broker's limit doesn't let pass; without it all that awaits an ack is let go, and the session is a new one.
/// `count` tells how many requests were let go, and `mqtt5_client_next_dropped` gives them out, in place of those of an
/// earlier call. 0; 8, 12 and 100 + n, and 1 where a session ends and an event isn't taken out: the client, and what was let
/// go before, is then as before.
#[unsafe(no_mangle)]
#[tactic(auto, using(crate::proofs::CallLemmas::let_go, crate::proofs::CallLemmas::none_let_go))]
pub extern "C" fn mqtt5_client_take_up(
    alloc: Global,
    h: &mut Handle,
    session_present: bool,
    at: u64,
    count: &mut usize,
) -> u32
    requires { IsKept h.old }
    ensures kept { IsKept h.new }
    ensures answer { LetsGo (TakesUp session_present at) (returned session_present)
        h.old.client_ptr.value result h.new.client_ptr.value }
    ensures count { result ≡ 0
        → IfSome h.old.client_ptr.value
        (λ x. count.new ≡ length (returned session_present x.client)) }
{
    let Some(mut holder) = take(alloc, h) else {
        return NO_CLIENT;
    };
    let outcome = take_up_in(&mut holder, session_present, at, count);
    put(h, holder);
    code_of(&outcome)
}
