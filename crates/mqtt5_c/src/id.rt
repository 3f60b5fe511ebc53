//! Calls that tell of the next packet identifier.

ghost use Rattle.std.specs.Prelude.{◌≡◌, IsNone, IfSome, is_none};
ghost use Rattle.std.specs.FinMap as map;
ghost use Rattle.mqtt5_session.specs.Requests.{next_id};
ghost use Rattle.mqtt5_c.specs.Handles.{IsKept};
ghost use Rattle.mqtt5_c.specs.Ids.{is_free};
ghost use Rattle.mqtt5_c.specs.Numbers.{no_client};

use crate::handle::{Handle, put, take};
use crate::number::NO_CLIENT;
use mqtt5_client::Client;
use std::alloc::Global;

#[tactic(auto, using(crate::proofs::Free::is_free))]
fn is_free(client: &Client) -> bool
    ensures { result ≡ is_free client.now.state.core }
{
    let id = client.next_id();
    client.state.outgoing_pub(id).is_none() && !client.state.outgoing_rel(id)
}

/// Tells the packet identifier that the next publish of QoS 1 or 2, subscribe or unsubscribe gets. 0.
#[unsafe(no_mangle)]
pub extern "C" fn mqtt5_client_next_id(alloc: Global, h: &mut Handle, id: &mut u16) -> u32
    requires { IsKept h.old }
    ensures kept { IsKept h.new }
    ensures same { h.new.client_ptr.value ≡ h.old.client_ptr.value }
    ensures none { IsNone h.old.client_ptr.value → (result ≡ no_client) × (id.new ≡ id.old) }
    ensures told { IfSome h.old.client_ptr.value
        (λ x. (result ≡ 0) × (id.new ≡ next_id x.client.state.core)) }
{
    let Some(holder) = take(alloc, h) else {
        return NO_CLIENT;
    };
    *id = holder.client.next_id();
    put(h, holder);
    0
}

/// Tells whether that one is free. Else a publish of QoS 1 or 2 waits, or is refused where one waits. 0.
#[unsafe(no_mangle)]
pub extern "C" fn mqtt5_client_may_publish(alloc: Global, h: &mut Handle, may: &mut bool) -> u32
    requires { IsKept h.old }
    ensures kept { IsKept h.new }
    ensures same { h.new.client_ptr.value ≡ h.old.client_ptr.value }
    ensures none { IsNone h.old.client_ptr.value → (result ≡ no_client) × (may.new ≡ may.old) }
    ensures told { IfSome h.old.client_ptr.value
        (λ x. (result ≡ 0) × (may.new ≡ is_free x.client.state.core)) }
{
    let Some(holder) = take(alloc, h) else {
        return NO_CLIENT;
    };
    *may = is_free(&holder.client);
    put(h, holder);
    0
}
