//! Calls that move bytes between a broker and its connections.

ghost use Rattle.std.specs.Prelude.{◌≡◌, ◌≢◌, false, IfSome};
ghost use Rattle.mqtt5_sessions.specs.Waiting.{IsNextWaiting};
ghost use Rattle.mqtt5_broker.specs.Broker.{on_connection, at_moment};
ghost use Rattle.mqtt5_broker.specs.Connection.{connection_at, with_sent};
ghost use Rattle.mqtt5_broker.specs.Receiving.{receives};
ghost use Rattle.mqtt5_broker.specs.Serving.{passes_at, has_passed};
ghost use Rattle.mqtt5_broker_c.specs.Calls.{Does, DoesOrIsRefused, DoesOrLeaves, Looks, told, fitting, over, unchanged, given, HoldsOf};
ghost use Rattle.mqtt5_broker_c.specs.Handles.{IsKept};
ghost use Rattle.mqtt5_broker_c.specs.Numbers.{done};

use crate::handle::{Handle, put, take};
use crate::number::{DONE, NO_BROKER, OUT_OF_MEMORY, code_of};
use std::alloc::Global;

/// Takes bytes of a connection, in any pieces: each packet that is whole with them, up to the first fault, which ends the
/// connection. 0; 12: the connection is to be closed. 200.
#[unsafe(no_mangle)]
pub extern "C" fn mqtt5_broker_receive(
    alloc: Global,
    h: &mut Handle,
    connection: usize,
    bytes: &[u8],
    at: u64,
) -> u32
    requires { IsKept h.old }
    ensures kept { IsKept h.new }
    ensures answer { DoesOrIsRefused (receives at connection bytes.now) h.old.broker_ptr.value
        result h.new.broker_ptr.value }
{
    let Some(mut broker) = take(alloc, h) else {
        return NO_BROKER;
    };
    let outcome = broker.receive(alloc, connection, bytes, at);
    put(h, broker);
    code_of(&outcome)
}

/// Copies the beginning of the bytes, as many as fit, and answers how many.
pub(crate) fn fill(buffer: &mut [u8], bytes: &[u8]) -> usize
    ensures count { result ≡ fitting bytes.now buffer.old }
    ensures filled { buffer.new ≡ over bytes.now buffer.old }
{
    let count = bytes.len().min(buffer.len());
    buffer[..count].copy_from_slice(&bytes[..count]);
    count
}

/// Copies the first bytes of what is to be sent on a connection, as many as fit, and tells how many; they stay until
/// `mqtt5_broker_sent` says that they are sent. 0; 200.
#[unsafe(no_mangle)]
pub extern "C" fn mqtt5_broker_output(
    alloc: Global,
    h: &mut Handle,
    connection: usize,
    buffer: &mut [u8],
    count: &mut usize,
) -> u32
    requires { IsKept h.old }
    ensures kept { IsKept h.new }
    ensures answer { Looks h.old.broker_ptr.value result h.new.broker_ptr.value }
    ensures count { count.new
        ≡ told (λ b. fitting (connection_at connection b.connections).output buffer.old)
        h.old.broker_ptr.value count.old }
    ensures copied { buffer.new
        ≡ told (λ b. over (connection_at connection b.connections).output buffer.old)
        h.old.broker_ptr.value buffer.old }
{
    let Some(broker) = take(alloc, h) else {
        return NO_BROKER;
    };
    *count = fill(buffer, broker.output(connection));
    put(h, broker);
    DONE
}

/// Takes the first `count` bytes out of the output of a connection, which were sent; all of it where it has fewer. 0; 200.
#[unsafe(no_mangle)]
pub extern "C" fn mqtt5_broker_sent(
    alloc: Global,
    h: &mut Handle,
    connection: usize,
    count: usize,
) -> u32
    requires { IsKept h.old }
    ensures kept { IsKept h.new }
    ensures answer { Does (on_connection connection (with_sent count)) h.old.broker_ptr.value result
        h.new.broker_ptr.value }
{
    let Some(mut broker) = take(alloc, h) else {
        return NO_BROKER;
    };
    broker.sent(connection, count);
    put(h, broker);
    DONE
}

/// The first publish of the queue of a connection's client goes into its output, if there is one and it may be sent, or is taken
/// out, where it has expired; `some` tells whether either was done. 0; 12: the connection is to be closed. 200.
#[unsafe(no_mangle)]
pub extern "C" fn mqtt5_broker_pass(
    alloc: Global,
    h: &mut Handle,
    connection: usize,
    at: u64,
    some: &mut bool,
) -> u32
    requires { IsKept h.old }
    ensures kept { IsKept h.new }
    ensures answer { DoesOrIsRefused (passes_at at connection) h.old.broker_ptr.value result
        h.new.broker_ptr.value }
    ensures some { result ≡ done → some.new
        ≡ told (λ b. has_passed connection (at_moment at b)) h.old.broker_ptr.value some.old }
    ensures rest { result ≢ done → some.new ≡ some.old }
{
    let Some(mut broker) = take(alloc, h) else {
        return NO_BROKER;
    };
    let outcome = broker.pass(alloc, connection, at);
    put(h, broker);
    match outcome {
        Ok(sent) => {
            *some = sent;
            DONE
        }
        Err(_fault) => OUT_OF_MEMORY,
    }
}

/// Tells the first client, from a number on, that is connected and has something in its queue: of any other connected one
/// `mqtt5_broker_pass` passes nothing on, and takes nothing out. `some` tells whether there is one, and where there is none `client` is as before. 0; 12: all is
/// as before. 200.
#[unsafe(no_mangle)]
pub extern "C" fn mqtt5_broker_next_waiting(
    alloc: Global,
    h: &mut Handle,
    from: usize,
    client: &mut usize,
    some: &mut bool,
) -> u32
    requires { IsKept h.old }
    ensures kept { IsKept h.new }
    ensures answer { DoesOrLeaves unchanged unchanged h.old.broker_ptr.value result
        h.new.broker_ptr.value }
    ensures next { result ≡ done
        → HoldsOf (λ b. IsNextWaiting from (given some.new client.new) b.sessions)
        h.old.broker_ptr.value }
    ensures none { some.new ≡ false → client.new ≡ client.old }
    ensures rest { result ≢ done → (some.new ≡ some.old) × (client.new ≡ client.old) }
{
    let Some(mut broker) = take(alloc, h) else {
        return NO_BROKER;
    };
    let outcome = broker.next_waiting(alloc, from);
    put(h, broker);
    match outcome {
        Ok(Some(number)) => {
            *some = true;
            *client = number;
            DONE
        }
        Ok(None) => {
            *some = false;
            DONE
        }
        Err(_fault) => OUT_OF_MEMORY,
    }
}
