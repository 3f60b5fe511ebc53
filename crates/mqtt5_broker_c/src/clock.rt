//! Calls that tell a broker of the time, and end it.

ghost use Rattle.std.specs.Prelude.{◌≡◌, is_some, unwrap_or};
ghost use Rattle.mqtt5_broker.specs.Clock.{ticks, next_moment, shuts_down};
ghost use Rattle.mqtt5_broker_c.specs.Calls.{DoesOrIsRefused, Looks, told};
ghost use Rattle.mqtt5_broker_c.specs.Handles.{IsKept};

use crate::handle::{Handle, put, take};
use crate::number::{DONE, NO_BROKER, code_of};
use std::alloc::Global;

/// All that is due at this moment happens. 0; 12; 200.
#[unsafe(no_mangle)]
pub extern "C" fn mqtt5_broker_tick(alloc: Global, h: &mut Handle, at: u64) -> u32
    requires { IsKept h.old }
    ensures kept { IsKept h.new }
    ensures answer { DoesOrIsRefused (ticks at) h.old.broker_ptr.value result
        h.new.broker_ptr.value }
{
    let Some(mut broker) = take(alloc, h) else {
        return NO_BROKER;
    };
    let outcome = broker.tick(alloc, at);
    put(h, broker);
    code_of(&outcome)
}

/// Tells the first moment at which something is due; `some` tells whether there is one, and where there is none `at` is as
/// before. 0; 200.
#[unsafe(no_mangle)]
pub extern "C" fn mqtt5_broker_next_moment(
    alloc: Global,
    h: &mut Handle,
    at: &mut u64,
    some: &mut bool,
) -> u32
    requires { IsKept h.old }
    ensures kept { IsKept h.new }
    ensures answer { Looks h.old.broker_ptr.value result h.new.broker_ptr.value }
    ensures at { at.new ≡ told (λ b. unwrap_or (next_moment b) at.old) h.old.broker_ptr.value
        at.old }
    ensures some { some.new ≡ told (λ b. is_some (next_moment b)) h.old.broker_ptr.value some.old }
{
    let Some(broker) = take(alloc, h) else {
        return NO_BROKER;
    };
    let moment = broker.next_moment();
    put(h, broker);
    *some = moment.is_some();
    *at = moment.unwrap_or(*at);
    DONE
}

/// Tells each client that the broker ends, with reason 0x8B, and takes no more bytes of any connection. 0; 12; 200.
#[unsafe(no_mangle)]
pub extern "C" fn mqtt5_broker_shut_down(alloc: Global, h: &mut Handle, at: u64) -> u32
    requires { IsKept h.old }
    ensures kept { IsKept h.new }
    ensures answer { DoesOrIsRefused (shuts_down at) h.old.broker_ptr.value result
        h.new.broker_ptr.value }
{
    let Some(mut broker) = take(alloc, h) else {
        return NO_BROKER;
    };
    let outcome = broker.shut_down(alloc, at);
    put(h, broker);
    code_of(&outcome)
}
