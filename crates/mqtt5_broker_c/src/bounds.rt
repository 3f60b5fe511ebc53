//! Calls that bound what a broker keeps.

ghost use Rattle.std.specs.Prelude.{◌≡◌};
ghost use Rattle.mqtt5_broker.specs.Bounds.{bounded, trims_at};
ghost use Rattle.mqtt5_broker_c.specs.Calls.{Does, DoesOrIsRefused, Looks, told};
ghost use Rattle.mqtt5_broker_c.specs.Handles.{IsKept};

use crate::handle::{Handle, put, take};
use crate::number::{DONE, NO_BROKER, code_of};
use mqtt5_broker::Bounds;
use std::alloc::Global;

/// These are the bounds from now on: how many clients are known at once, how many subscriptions a client has, how many filters
/// of shared subscriptions there are, how many messages are retained, how many publishes wait in a client's queue, and how many
/// bytes the frames of these have; and whether of a longer queue the oldest publishes of any QoS are let go, and not those of
/// QoS 0 alone. 0; 200.
#[unsafe(no_mangle)]
pub extern "C" fn mqtt5_broker_bound(
    alloc: Global,
    h: &mut Handle,
    clients: usize,
    subscriptions: usize,
    shared: usize,
    retained: usize,
    queued: usize,
    bytes: u64,
    oldest: bool,
) -> u32
    requires { IsKept h.old }
    ensures kept { IsKept h.new }
    ensures answer { Does (bounded (record {
      clients = clients;
      subscriptions = subscriptions;
      shared = shared;
      retained = retained;
      queued = queued;
      bytes = bytes;
      oldest = oldest;
    })) h.old.broker_ptr.value result h.new.broker_ptr.value }
{
    let Some(mut broker) = take(alloc, h) else {
        return NO_BROKER;
    };
    broker.set_bounds(Bounds {
        clients,
        subscriptions,
        shared,
        retained,
        queued,
        bytes,
        oldest,
    });
    put(h, broker);
    DONE
}

/// At this moment messages at the front of queues in which more waits than may are let go, and the session of each client ends for which more is
/// kept all the same: one that is connected is told, with reason 0x97, and nothing more is taken of its connection. 0; 12; 200.
#[unsafe(no_mangle)]
pub extern "C" fn mqtt5_broker_trim(alloc: Global, h: &mut Handle, at: u64) -> u32
    requires { IsKept h.old }
    ensures kept { IsKept h.new }
    ensures answer { DoesOrIsRefused (trims_at at) h.old.broker_ptr.value result
        h.new.broker_ptr.value }
{
    let Some(mut broker) = take(alloc, h) else {
        return NO_BROKER;
    };
    let outcome = broker.trim(alloc, at);
    put(h, broker);
    code_of(&outcome)
}

/// Tells how many messages `mqtt5_broker_trim` has let go of queues. 0; 200.
#[unsafe(no_mangle)]
pub extern "C" fn mqtt5_broker_dropped(alloc: Global, h: &mut Handle, count: &mut u64) -> u32
    requires { IsKept h.old }
    ensures kept { IsKept h.new }
    ensures answer { Looks h.old.broker_ptr.value result h.new.broker_ptr.value }
    ensures count { count.new ≡ told (λ b. b.dropped) h.old.broker_ptr.value count.old }
{
    let Some(broker) = take(alloc, h) else {
        return NO_BROKER;
    };
    let dropped = broker.dropped();
    put(h, broker);
    *count = dropped;
    DONE
}
