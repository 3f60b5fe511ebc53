//! Calls that make a broker and let it go.

ghost use Rattle.std.specs.Prelude.{◌≡◌, ◌⊎◌, ◌<◌, None, Some, IsNone, IsSome, IfOk, IfSome};
ghost use Rattle.std.specs.NonZero.{non_zero_u16_get};
ghost use Rattle.mqtt5_broker_c.specs.Calls.{fresh};
ghost use Rattle.mqtt5_broker_c.specs.Handles.{IsKept};
ghost use Rattle.mqtt5_broker_c.specs.Numbers.{done, no_broker, has_broker, bad_argument, out_of_memory};

use crate::handle::{Handle, put, take};
use crate::number::{BAD_ARGUMENT, DONE, HAS_BROKER, NO_BROKER, OUT_OF_MEMORY};
use mqtt5_broker::{Broker, Limits};
use std::alloc::Global;
use std::num::NonZeroU16;

/// A broker in a box.
fn boxed(alloc: Global, limits: &Limits) -> Option<Box<Broker>>
    ensures { IfSome result (λ b. b.value
        ≡ fresh limits.now.connections limits.now.longest (non_zero_u16_get limits.now.ids)
        limits.now.wait limits.now.alias_max limits.now.keep_alive_max limits.now.first_name) }
{
    let Ok(broker) = Broker::new(alloc, limits) else {
        return None;
    };
    Box::new(alloc, broker).ok()
}

/// Makes a broker in an empty handle, for connections of the numbers 0 to `connections` - 1. `longest` is the greatest
/// remaining length of a packet that a client may send, in bytes; `ids`, at least 1, how many publishes of QoS 1 and 2 a
/// client is sent ahead of their acks at most; `wait` for how many milliseconds a connection may be open without a Connect,
/// or 0 for any time; `alias_max` the greatest topic alias of a client, or 0 for none; `keep_alive_max` its longest keep
/// alive in seconds, or 0 for any; and `first_name` the number of the first name that a client is given which says none.
/// 0; 12 where memory is refused, 201 of `ids` 0, 202 where there is a broker: then the handle is as before.
#[unsafe(no_mangle)]
pub extern "C" fn mqtt5_broker_new(
    alloc: Global,
    h: &mut Handle,
    connections: usize,
    longest: u32,
    ids: u16,
    wait: u32,
    alias_max: u16,
    keep_alive_max: u16,
    first_name: u64,
) -> u32
    requires { IsKept h.old }
    ensures kept { IsKept h.new }
    // A second broker isn't made.
    ensures full { IsSome h.old.broker_ptr.value → (result ≡ has_broker)
        × (h.new.broker_ptr.value ≡ h.old.broker_ptr.value) }
    ensures made { IsNone h.old.broker_ptr.value → 0 < ids
        → ((result ≡ done) × (h.new.broker_ptr.value ≡ Some (fresh connections longest ids wait
        alias_max keep_alive_max first_name)))
        ⊎ ((result ≡ out_of_memory) × (h.new.broker_ptr.value ≡ None)) }
    ensures none { IsNone h.old.broker_ptr.value → ids ≡ 0
        → (result ≡ bad_argument) × (h.new.broker_ptr.value ≡ None) }
{
    if let Some(broker) = take(alloc, h) {
        put(h, broker);
        return HAS_BROKER;
    }
    let Some(ids) = NonZeroU16::new(ids) else {
        return BAD_ARGUMENT;
    };
    let limits = Limits {
        connections,
        longest,
        ids,
        wait,
        alias_max,
        keep_alive_max,
        first_name,
    };
    match boxed(alloc, &limits) {
        Some(broker) => {
            put(h, broker);
            DONE
        }
        None => OUT_OF_MEMORY,
    }
}

/// Lets the broker go, with all that it holds; the handle is empty again. 0; 200 where there is none.
#[unsafe(no_mangle)]
pub extern "C" fn mqtt5_broker_free(alloc: Global, h: &mut Handle) -> u32
    requires { IsKept h.old }
    ensures kept { IsKept h.new }
    ensures gone { h.new.broker_ptr.value ≡ None }
    ensures none { IsNone h.old.broker_ptr.value → result ≡ no_broker }
    ensures freed { IsSome h.old.broker_ptr.value → result ≡ done }
{
    match take(alloc, h) {
        Some(_broker) => DONE,
        None => NO_BROKER,
    }
}
