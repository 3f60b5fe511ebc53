//! What C holds.

ghost use Rattle.std.specs.Prelude.{◌≡◌, None, Some, IfSome, option_map};
ghost use Rattle.mqtt5_c.specs.Handles.{IsKept};
ghost use Rattle.mqtt5_client.specs.Client.{IsReady};

use crate::client_ptr::ClientPtr;
use mqtt5_holder::Holder;
use mqtt5_raw_box::RawBox;
use std::alloc::Global;

/// A place for a client. All zero is a place without one.
#[repr(C)]
#[derive(Drop)]
pub struct Handle {
    /// Whether it has a client.
    pub live: bool,
    /// Where the client is.
    pub client_ptr: ClientPtr,
}

/// Takes the client out, where there is one. Takes no memory.
pub(crate) fn take(alloc: Global, h: &mut Handle) -> Option<Box<Holder>>
    requires { IsKept h.old }
    ensures given { option_map (λ b. b.value) result ≡ h.old.client_ptr.value }
    ensures left { h.new.client_ptr.value ≡ None }
    ensures ready { IfSome result (λ b. IsReady b.value.client) }
    ensures kept { IsKept h.new }
{
    let empty = Handle {
        live: false,
        client_ptr: ClientPtr::none(),
    };
    let Handle { live, client_ptr } = std::mem::replace(h, empty);
    if live {
        Some(client_ptr.into_raw_box(alloc).into_box())
    } else {
        None
    }
}

/// Puts a client in; one that was there is leaked. Takes no memory.
pub(crate) fn put(h: &mut Handle, holder: Box<Holder>)
    requires { IsReady holder.value.client }
    ensures put { h.new.client_ptr.value ≡ Some holder.value }
    ensures kept { IsKept h.new }
{
    *h = Handle {
        live: true,
        client_ptr: ClientPtr::of(RawBox::of(holder)),
    };
}
