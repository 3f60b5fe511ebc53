//! Calls that move bytes between a client and its connection.

ghost use Rattle.std.specs.Prelude.{◌≡◌, ◌++◌, IfSome, min, length, take, drop, IsNone};
ghost use Rattle.mqtt5_c.specs.Calls.{Called, Receives, Sends, Looks};
ghost use Rattle.mqtt5_c.specs.Handles.{IsKept};

use crate::handle::{Handle, put, take};
use crate::number::{NO_CLIENT, code_of};
use std::alloc::Global;

/// Takes a piece of the bytes that came in, cut anywhere, at a moment. 0; else a fault: the connection must then be
/// closed, and the input is empty.
#[unsafe(no_mangle)]
#[tactic(auto, using(crate::proofs::CallLemmas::called, crate::proofs::CallLemmas::uncalled))]
pub extern "C" fn mqtt5_client_receive(alloc: Global, h: &mut Handle, bytes: &[u8], at: u64) -> u32
    requires { IsKept h.old }
    ensures kept { IsKept h.new }
    ensures answer { Called (Receives bytes.now at) h.old.client_ptr.value result
        h.new.client_ptr.value }
{
    let Some(mut holder) = take(alloc, h) else {
        return NO_CLIENT;
    };
    let outcome = holder.client.receive(bytes, at);
    put(h, holder);
    code_of(&outcome)
}

/// Copies the beginning of the bytes, as many as fit, and answers how many.
pub(crate) fn fill(buffer: &mut [u8], bytes: &[u8]) -> usize
    ensures count { result ≡ min (length bytes.now) (length buffer.old) }
    ensures filled { buffer.new ≡ take result bytes.now ++ drop result buffer.old }
{
    let count = bytes.len().min(buffer.len());
    buffer[..count].copy_from_slice(&bytes[..count]);
    count
}

/// Copies the first bytes of what is to be sent, as many as fit, and tells how many; they stay until
/// `mqtt5_client_sent` says that they are sent. 0.
#[unsafe(no_mangle)]
#[tactic(auto, using(crate::proofs::CallLemmas::called, crate::proofs::CallLemmas::uncalled))]
pub extern "C" fn mqtt5_client_output(
    alloc: Global,
    h: &mut Handle,
    buffer: &mut [u8],
    count: &mut usize,
) -> u32
    requires { IsKept h.old }
    ensures kept { IsKept h.new }
    ensures answer { Called Looks h.old.client_ptr.value result h.new.client_ptr.value }
    ensures none { IsNone h.old.client_ptr.value → (count.new ≡ count.old)
        × (buffer.new ≡ buffer.old) }
    ensures copied { IfSome h.old.client_ptr.value
        (λ x. (count.new ≡ min (length x.client.output.items) (length buffer.old))
        × (buffer.new ≡ take count.new x.client.output.items ++ drop count.new buffer.old)) }
{
    let Some(holder) = take(alloc, h) else {
        return NO_CLIENT;
    };
    *count = fill(buffer, holder.client.output());
    put(h, holder);
    0
}

/// Takes the first `count` bytes out of the output, which were sent; all of it where it has fewer. 0.
#[unsafe(no_mangle)]
#[tactic(auto, using(crate::proofs::CallLemmas::called, crate::proofs::CallLemmas::uncalled))]
pub extern "C" fn mqtt5_client_sent(alloc: Global, h: &mut Handle, count: usize) -> u32
    requires { IsKept h.old }
    ensures kept { IsKept h.new }
    ensures answer { Called (Sends count) h.old.client_ptr.value result h.new.client_ptr.value }
{
    let Some(mut holder) = take(alloc, h) else {
        return NO_CLIENT;
    };
    holder.client.sent(count);
    put(h, holder);
    0
}
