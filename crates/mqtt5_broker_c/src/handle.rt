//! What C holds.

ghost use Rattle.std.specs.Prelude.{◌≡◌, None, Some, option_map};
ghost use Rattle.mqtt5_broker_c.specs.Handles.{IsKept};

use crate::broker_ptr::BrokerPtr;
use mqtt5_broker::Broker;
use mqtt5_raw_box::RawBox;
use std::alloc::Global;

/// A place for a broker. All zero is a place without one.
#[repr(C)]
#[derive(Drop)]
pub struct Handle {
    /// Whether it has a broker.
    pub live: bool,
    /// Where the broker is.
    pub broker_ptr: BrokerPtr,
}

/// Takes the broker out, where there is one. Takes no memory.
pub(crate) fn take(alloc: Global, h: &mut Handle) -> Option<Box<Broker>>
    requires { IsKept h.old }
    ensures given { option_map (λ b. b.value) result ≡ h.old.broker_ptr.value }
    ensures left { h.new.broker_ptr.value ≡ None }
    ensures kept { IsKept h.new }
{
    let empty = Handle {
        live: false,
        broker_ptr: BrokerPtr::none(),
    };
    let Handle { live, broker_ptr } = std::mem::replace(h, empty);
    if live {
        Some(broker_ptr.into_raw_box(alloc).into_box())
    } else {
        None
    }
}

/// Puts a broker in; one that was there is leaked. Takes no memory.
pub(crate) fn put(h: &mut Handle, broker: Box<Broker>)
    ensures put { h.new.broker_ptr.value ≡ Some broker.value }
    ensures kept { IsKept h.new }
{
    *h = Handle {
        live: true,
        broker_ptr: BrokerPtr::of(RawBox::of(broker)),
    };
}
