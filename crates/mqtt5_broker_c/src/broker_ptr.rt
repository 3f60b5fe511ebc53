//! Where C keeps a broker: a bare pointer.

ghost use Rattle.std.specs.Coded.{coded_option};
ghost use Rattle.std.specs.Prelude.{◌≡◌, Option, Some, None, is_some, true};
ghost use Rattle.mqtt5_broker_c.specs.Owned.{owned_if_some};
ghost use Rattle.mqtt5_broker.specs.Broker.{Broker};
ghost use Rattle.mqtt5_broker.specs.contracts.broker.Broker as broker;

use mqtt5_broker::Broker;
use mqtt5_raw_box::RawBox;
use std::alloc::Global;
use std::marker::Model;

/// A pointer to a broker, or null where there is none. It is one word of C's, and owns the broker.
#[repr(C)]
#[derive(Drop)]
pub struct BrokerPtr {
    /// Where it lies.
    pub pointer: *mut u8,
    /// The broker.
    pub ghost value: { Option Broker } by { coded_option broker.the_row.coded },
}

impl Model for BrokerPtr {
    ghost also_owns = { λ s. owned_if_some s.pointer s.value };
}

impl BrokerPtr {
    /// No broker.
    pub fn none() -> BrokerPtr
        ensures { result.value ≡ None }
    {
        BrokerPtr {
            pointer: std::ptr::null_mut(),
        }
    }

    /// Keeps a broker.
    pub fn of(raw_box: RawBox<Broker, Global>) -> BrokerPtr
        ensures { result.value ≡ Some raw_box.value }
    {
        let RawBox { pointer, alloc: _ } = raw_box;
        BrokerPtr {
            pointer: pointer as *mut u8,
        }
    }

    /// Gives the broker out.
    pub fn into_raw_box(self, alloc: Global) -> RawBox<Broker, Global>
        requires { is_some self.value ≡ true }
        ensures { self.value ≡ Some result.value }
    {
        let BrokerPtr { pointer } = self;
        RawBox {
            pointer: pointer as *mut Broker,
            alloc,
        }
    }
}
