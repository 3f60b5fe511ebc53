//! Calls by which C asks who wants to connect, before the answer.

ghost use Rattle.std.specs.Prelude.{◌≡◌, ◌≢◌};
ghost use Rattle.mqtt5_broker.specs.Asking.{holds, asks_at, rejects};
ghost use Rattle.mqtt5_broker_c.specs.Calls.{DoesOrLeaves, told, fitting, over, unchanged, asks_number, user_in, password_in, code_for};
ghost use Rattle.mqtt5_broker_c.specs.Handles.{IsKept};
ghost use Rattle.mqtt5_broker_c.specs.Numbers.{done};

use crate::handle::{Handle, put, take};
use crate::number::{DONE, NO_BROKER, OUT_OF_MEMORY, code_of};
use crate::stream::fill;
use mqtt5_broker::Asks;
use mqtt5_control::ConnectReturnCode;
use std::alloc::Global;

/// Bytes of a connection come, and are only held: they are taken by the next `mqtt5_broker_receive`, also of no bytes. 0; 12: all is
/// as before. 200.
#[unsafe(no_mangle)]
pub extern "C" fn mqtt5_broker_hold(
    alloc: Global,
    h: &mut Handle,
    connection: usize,
    bytes: &[u8],
) -> u32
    requires { IsKept h.old }
    ensures kept { IsKept h.new }
    ensures answer { DoesOrLeaves (holds connection bytes.now) unchanged h.old.broker_ptr.value
        result h.new.broker_ptr.value }
{
    let Some(mut broker) = take(alloc, h) else {
        return NO_BROKER;
    };
    let outcome = broker.hold(connection, bytes);
    put(h, broker);
    code_of(&outcome)
}

/// Who wants to connect, as a number: 0 is nobody.
fn asks_number(asks: &Asks) -> u32
    ensures { result ≡ asks_number asks.now }
{
    match asks {
        Asks::Nobody => 0,
        Asks::Unnamed => 1,
        Asks::Named(_login) => 2,
    }
}

fn user_in(asks: &Asks) -> &[u8]
    ensures { result.now ≡ user_in asks.now }
{
    match asks {
        Asks::Named(login) => login.username.as_bytes(),
        _other => "".as_bytes(),
    }
}

fn password_in(asks: &Asks) -> &[u8]
    ensures { result.now ≡ password_in asks.now }
{
    match asks {
        Asks::Named(login) => login.password.as_bytes(),
        _other => "".as_bytes(),
    }
}

/// Tells who wants to connect on a connection, by what it holds: `asks` is 0 for nobody, or nobody yet, 1 for a client without a
/// name and a password, and 2 for one with these, of which as much as fits is copied, and told how many bytes. 0; 12; 200.
#[unsafe(no_mangle)]
pub extern "C" fn mqtt5_broker_asks(
    alloc: Global,
    h: &mut Handle,
    connection: usize,
    asks: &mut u32,
    user: &mut [u8],
    user_count: &mut usize,
    password: &mut [u8],
    password_count: &mut usize,
) -> u32
    requires { IsKept h.old }
    ensures kept { IsKept h.new }
    ensures answer { DoesOrLeaves unchanged unchanged h.old.broker_ptr.value result
        h.new.broker_ptr.value }
    ensures asks { result ≡ done → asks.new
        ≡ told (λ b. asks_number (asks_at connection b)) h.old.broker_ptr.value asks.old }
    ensures user { result ≡ done → user.new
        ≡ told (λ b. over (user_in (asks_at connection b)) user.old) h.old.broker_ptr.value user.old }
    ensures user_count { result ≡ done → user_count.new
        ≡ told (λ b. fitting (user_in (asks_at connection b)) user.old) h.old.broker_ptr.value
        user_count.old }
    ensures password { result ≡ done → password.new
        ≡ told (λ b. over (password_in (asks_at connection b)) password.old)
        h.old.broker_ptr.value password.old }
    ensures password_count { result ≡ done → password_count.new
        ≡ told (λ b. fitting (password_in (asks_at connection b)) password.old)
        h.old.broker_ptr.value password_count.old }
    ensures rest { result ≢ done → (asks.new ≡ asks.old) × (user.new ≡ user.old)
        × (user_count.new ≡ user_count.old) × (password.new ≡ password.old)
        × (password_count.new ≡ password_count.old) }
{
    let Some(broker) = take(alloc, h) else {
        return NO_BROKER;
    };
    let outcome = broker.asks(alloc, connection);
    put(h, broker);
    match outcome {
        Ok(who) => {
            *asks = asks_number(&who);
            *user_count = fill(user, user_in(&who));
            *password_count = fill(password, password_in(&who));
            DONE
        }
        Err(_fault) => OUT_OF_MEMORY,
    }
}

/// The code of a client that is turned away: of one that said who it is, or of another.
fn code_for(named: bool) -> ConnectReturnCode
    ensures { result ≡ code_for named }
{
    if named {
        ConnectReturnCode::BadUserNamePassword
    } else {
        ConnectReturnCode::NotAuthorized
    }
}

/// A client that isn't connected yet is turned away, with Bad User Name or Password where `named` is true, and else with Not
/// authorized; nothing more is taken of its connection. 0; 12: all is as before. 200.
#[unsafe(no_mangle)]
pub extern "C" fn mqtt5_broker_reject(
    alloc: Global,
    h: &mut Handle,
    connection: usize,
    named: bool,
) -> u32
    requires { IsKept h.old }
    ensures kept { IsKept h.new }
    ensures answer { DoesOrLeaves (rejects connection (code_for named)) unchanged
        h.old.broker_ptr.value result h.new.broker_ptr.value }
{
    let Some(mut broker) = take(alloc, h) else {
        return NO_BROKER;
    };
    let outcome = broker.reject(connection, code_for(named));
    put(h, broker);
    code_of(&outcome)
}
