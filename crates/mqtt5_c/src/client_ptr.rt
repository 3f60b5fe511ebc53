//! Where C keeps a client, with what its packets have: a bare pointer.

ghost use Rattle.std.specs.Coded.{coded_option};
ghost use Rattle.std.specs.Prelude.{◌≡◌, Option, Some, None, is_some, true};
ghost use Rattle.mqtt5_c.specs.Owned.{owned_if_some};
ghost use Rattle.mqtt5_holder.specs.contracts.holder.Holder as holder;
ghost use Rattle.mqtt5_holder.specs.declared.holder.Holder.{Holder};

use mqtt5_holder::Holder;
use mqtt5_raw_box::RawBox;
use std::alloc::Global;
use std::marker::Model;

/// A pointer to a client, or null where there is none. It is one word of C's, and owns the client.
#[repr(C)]
#[derive(Drop)]
pub struct ClientPtr {
    /// Where they lie.
    pub pointer: *mut u8,
    /// The client, and what its packets have.
    pub ghost value: { Option Holder } by { coded_option holder.the_row.coded },
}

impl Model for ClientPtr {
    ghost also_owns = { λ s. owned_if_some s.pointer s.value };
}

impl ClientPtr {
    /// No client.
    pub fn none() -> ClientPtr
        ensures { result.value ≡ None }
    {
        ClientPtr {
            pointer: std::ptr::null_mut(),
        }
    }

    /// Keeps a client.
    pub fn of(raw_box: RawBox<Holder, Global>) -> ClientPtr
        ensures { result.value ≡ Some raw_box.value }
    {
        let RawBox { pointer, alloc: _ } = raw_box;
        ClientPtr {
            pointer: pointer as *mut u8,
        }
    }

    /// Gives the client out.
    pub fn into_raw_box(self, alloc: Global) -> RawBox<Holder, Global>
        requires { is_some self.value ≡ true }
        ensures { self.value ≡ Some result.value }
    {
        let ClientPtr { pointer } = self;
        RawBox {
            pointer: pointer as *mut Holder,
            alloc,
        }
    }
}
