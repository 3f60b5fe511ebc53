//! Calls that begin and end connections, and tell of them.

ghost use Rattle.std.specs.Prelude.{◌≡◌, is_some, unwrap_or};
ghost use Rattle.mqtt5_broker.specs.Broker.{at_moment, name_at};
ghost use Rattle.mqtt5_broker.specs.Connection.{connection_at};
ghost use Rattle.mqtt5_broker.specs.Receiving.{opens, closes};
ghost use Rattle.mqtt5_broker_c.specs.Calls.{Does, DoesOrLeaves, Looks, told, fitting, over, may_begin};
ghost use Rattle.mqtt5_broker_c.specs.Handles.{IsKept};

use crate::handle::{Handle, put, take};
use crate::number::{DONE, NO_BROKER, code_of};
use crate::stream::fill;
use std::alloc::Global;

/// A connection begins; `begun` tells whether it does: not where one of that number is open, or there is no such number.
/// What was still to be sent on one that isn't open is dropped. 0; 200.
#[unsafe(no_mangle)]
pub extern "C" fn mqtt5_broker_open(
    alloc: Global,
    h: &mut Handle,
    connection: usize,
    at: u64,
    begun: &mut bool,
) -> u32
    requires { IsKept h.old }
    ensures kept { IsKept h.new }
    ensures answer { Does (opens at connection) h.old.broker_ptr.value result
        h.new.broker_ptr.value }
    ensures begun { begun.new ≡ told (may_begin connection) h.old.broker_ptr.value begun.old }
{
    let Some(mut broker) = take(alloc, h) else {
        return NO_BROKER;
    };
    *begun = broker.open(alloc, connection, at);
    put(h, broker);
    DONE
}

/// Tells whether bytes of a connection are taken. Where none are, its output is to be sent, and then it is to be closed. 0;
/// 200.
#[unsafe(no_mangle)]
pub extern "C" fn mqtt5_broker_is_open(
    alloc: Global,
    h: &mut Handle,
    connection: usize,
    is_open: &mut bool,
) -> u32
    requires { IsKept h.old }
    ensures kept { IsKept h.new }
    ensures answer { Looks h.old.broker_ptr.value result h.new.broker_ptr.value }
    ensures is_open { is_open.new ≡ told (λ b. (connection_at connection b.connections).is_open)
        h.old.broker_ptr.value is_open.old }
{
    let Some(broker) = take(alloc, h) else {
        return NO_BROKER;
    };
    *is_open = broker.is_open(connection);
    put(h, broker);
    DONE
}

/// A connection has ended: its client's connection is lost, and its number is free. 0; 12: all is as before, but that the
/// moment has come. 200.
#[unsafe(no_mangle)]
pub extern "C" fn mqtt5_broker_close(
    alloc: Global,
    h: &mut Handle,
    connection: usize,
    at: u64,
) -> u32
    requires { IsKept h.old }
    ensures kept { IsKept h.new }
    ensures answer { DoesOrLeaves (closes at connection) (at_moment at) h.old.broker_ptr.value
        result h.new.broker_ptr.value }
{
    let Some(mut broker) = take(alloc, h) else {
        return NO_BROKER;
    };
    let outcome = broker.close(alloc, connection, at);
    put(h, broker);
    code_of(&outcome)
}

/// Copies the beginning of the identifier of a connection's client, as much as fits, and tells how many bytes; 0 where it
/// has no client. 0; 200.
#[unsafe(no_mangle)]
pub extern "C" fn mqtt5_broker_client(
    alloc: Global,
    h: &mut Handle,
    connection: usize,
    buffer: &mut [u8],
    count: &mut usize,
) -> u32
    requires { IsKept h.old }
    ensures kept { IsKept h.new }
    ensures answer { Looks h.old.broker_ptr.value result h.new.broker_ptr.value }
    ensures count { count.new ≡ told (λ b. fitting (name_at connection b) buffer.old)
        h.old.broker_ptr.value count.old }
    ensures copied { buffer.new ≡ told (λ b. over (name_at connection b) buffer.old)
        h.old.broker_ptr.value buffer.old }
{
    let Some(broker) = take(alloc, h) else {
        return NO_BROKER;
    };
    *count = fill(buffer, broker.client_name(connection).as_bytes());
    put(h, broker);
    DONE
}

/// Tells the number of a connection's client; `some` tells whether it has one, and where it has none `client` is as before. 0; 200.
#[unsafe(no_mangle)]
pub extern "C" fn mqtt5_broker_number(
    alloc: Global,
    h: &mut Handle,
    connection: usize,
    client: &mut usize,
    some: &mut bool,
) -> u32
    requires { IsKept h.old }
    ensures kept { IsKept h.new }
    ensures answer { Looks h.old.broker_ptr.value result h.new.broker_ptr.value }
    ensures client { client.new ≡ told
        (λ b. unwrap_or (connection_at connection b.connections).client client.old)
        h.old.broker_ptr.value client.old }
    ensures some { some.new ≡ told
        (λ b. is_some (connection_at connection b.connections).client)
        h.old.broker_ptr.value some.old }
{
    let Some(broker) = take(alloc, h) else {
        return NO_BROKER;
    };
    let number = broker.client_number(connection);
    put(h, broker);
    *some = number.is_some();
    *client = number.unwrap_or(*client);
    DONE
}
