//! Calls that save a client's session as bytes, and make a client of them again.

ghost use Rattle.std.specs.Prelude.{◌≡◌, ◌++◌, List, ℕ, IsNone, IsSome, IfOk, IfSome, MatchResult};
ghost use Rattle.mqtt5_session.specs.Session.{Core};
ghost use Rattle.mqtt5_session.specs.Parts.{stored_core};
ghost use Rattle.mqtt5_store.specs.Answers.{IsFault};
ghost use Rattle.mqtt5_store.specs.Format.{IsStored, core_at};
ghost use Rattle.mqtt5_client.specs.Client.{IsReady};
ghost use Rattle.mqtt5_c.specs.Handles.{IsKept};
ghost use Rattle.mqtt5_c.specs.Numbers.{no_client, has_client};
ghost use Rattle.mqtt5_c.specs.Stored.{Saves, store_code, IsLoadedOf, Loads, LoadsBack};

use crate::handle::{Handle, put, take};
use crate::number::{HAS_CLIENT, NO_CLIENT, OUT_OF_MEMORY, fault_code};
use crate::told::copy_if_fits;
use bytes::BytesMut;
use mqtt5_client::{Client, StoreError, error_number};
use mqtt5_holder::Holder;
use std::alloc::Global;

/// The number of a fault of stored bytes. Takes no memory.
fn store_code(fault: &StoreError) -> u32
    ensures { result ≡ store_code fault.now }
{
    match fault {
        StoreError::Foreign => 205,
        StoreError::Version(_) => 206,
        StoreError::Cut(_) => 207,
        StoreError::Frame(error) => 100 + u32::from(error_number(error)),
        StoreError::BadNumbers => 208,
        StoreError::NotStored => 209,
        StoreError::OutOfRange(_) => 210,
        StoreError::Twice(_) => 211,
        StoreError::OutOfMemory => OUT_OF_MEMORY,
    }
}

/// Copies a client's session where it fits, and tells how many bytes it has.
#[tactic(auto, unfolding(crate::specs::Stored::Saves))]
fn save_in(alloc: Global, client: &Client, buffer: &mut [u8], count: &mut usize) -> u32
    ensures { Saves client.now buffer.old count.old result buffer.new count.new }
{
    let mut bytes = BytesMut::new(alloc);
    match client.save(&mut bytes) {
        Ok(()) => copy_if_fits(buffer, count, bytes.as_slice()),
        Err(refused) => fault_code(&refused),
    }
}

/// Copies the session as bytes of which `mqtt5_client_load` makes a client, also in another process, and tells how many they
/// are. What isn't sent yet is no part of it. 0; 203 where the buffer is too small, which is then as before; 1 while an event
/// isn't taken out, 12, and 100 + n of a publish that can't be written: buffer and count are then as before.
#[unsafe(no_mangle)]
pub extern "C" fn mqtt5_client_save(
    alloc: Global,
    h: &mut Handle,
    buffer: &mut [u8],
    count: &mut usize,
) -> u32
    requires { IsKept h.old }
    ensures kept { IsKept h.new }
    ensures same { h.new.client_ptr.value ≡ h.old.client_ptr.value }
    ensures none { IsNone h.old.client_ptr.value
        → (result ≡ no_client) × (buffer.new ≡ buffer.old) × (count.new ≡ count.old) }
    ensures saved { IfSome h.old.client_ptr.value
        (λ x. Saves x.client buffer.old count.old result buffer.new count.new) }
{
    let Some(holder) = take(alloc, h) else {
        return NO_CLIENT;
    };
    let code = save_in(alloc, &holder.client, buffer, count);
    put(h, holder);
    code
}

/// A client of stored bytes.
fn holder_of(alloc: Global, bytes: &[u8]) -> Result<Holder, StoreError>
    ensures loads { MatchResult result (λ h. IsLoadedOf bytes.now h)
        (λ e. IsFault e (core_at bytes.now)) }
    ensures back { (stored rest : List ℕ) (core : Core) → IsStored stored core
        → bytes.now ≡ stored ++ rest
        → MatchResult result (λ h. h.client.state.core ≡ stored_core core)
        (λ e. e ≡ StoreError.OutOfMemory) }
    ensures ready { IfOk result (λ h. IsReady h.client) }
{
    let mut stream = BytesMut::copy_from_slice(alloc, bytes)?;
    let client = Client::load(alloc, &mut stream)?;
    drop(stream);
    let holder = Holder::new(alloc, client)?;
    Ok(holder)
}

/// The same in a box.
fn boxed(alloc: Global, bytes: &[u8]) -> Result<Box<Holder>, StoreError>
    ensures loads { MatchResult result (λ b. IsLoadedOf bytes.now b.value)
        (λ e. IsFault e (core_at bytes.now)) }
    ensures back { (stored rest : List ℕ) (core : Core) → IsStored stored core
        → bytes.now ≡ stored ++ rest
        → MatchResult result (λ b. b.value.client.state.core ≡ stored_core core)
        (λ e. e ≡ StoreError.OutOfMemory) }
    ensures ready { IfOk result (λ b. IsReady b.value.client) }
{
    let holder = holder_of(alloc, bytes)?;
    Ok(Box::new(alloc, holder)?)
}

/// Makes a client in an empty handle, whose session is the one that was saved as these bytes; what follows it is looked at no
/// more. Else it is as a new one: a connection begins with `mqtt5_client_connect`, and `mqtt5_client_take_up` sends again what
/// awaits an ack. 0; 202 where there is a client, which stays; else, and there is none: 12, and the first fault of the bytes,
/// 205 to 211, or 100 + n of a frame that can't be read.
#[unsafe(no_mangle)]
pub extern "C" fn mqtt5_client_load(alloc: Global, h: &mut Handle, bytes: &[u8]) -> u32
    requires { IsKept h.old }
    ensures kept { IsKept h.new }
    // A second client isn't made.
    ensures full { IsSome h.old.client_ptr.value → (result ≡ has_client)
        × (h.new.client_ptr.value ≡ h.old.client_ptr.value) }
    ensures loads { IsNone h.old.client_ptr.value
        → Loads bytes.now result h.new.client_ptr.value }
    // What was saved is loaded, whatever follows it.
    ensures back { IsNone h.old.client_ptr.value → (stored rest : List ℕ) (core : Core)
        → IsStored stored core → bytes.now ≡ stored ++ rest
        → LoadsBack core result h.new.client_ptr.value }
{
    if let Some(holder) = take(alloc, h) {
        put(h, holder);
        return HAS_CLIENT;
    }
    match boxed(alloc, bytes) {
        Ok(holder) => {
            put(h, holder);
            0
        }
        Err(refused) => store_code(&refused),
    }
}
