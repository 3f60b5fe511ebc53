//! A session as bytes.

ghost use Rattle.std.specs.Prelude.{◌≡◌, ◌⊎◌, ◌++◌, List, [], ℕ, IfOk, IfErr, MatchResult, OnErr, OnOk};
ghost use Rattle.mqtt5_base.specs.declared.error.Error.{Error};
ghost use Rattle.mqtt5_inflight.specs.Errors.{state_error};
ghost use Rattle.mqtt5_session.specs.Session.{Core};
ghost use Rattle.mqtt5_session.specs.Parts.{stored_core, core_of_parts, session_of};
ghost use Rattle.mqtt5_store.specs.Answers.{Gives};
ghost use Rattle.mqtt5_store.specs.Saving.{CantPutCore, NotSaved};
ghost use Rattle.mqtt5_store.specs.Format.{Appends, IsStored, core_at, core_before};

use crate::error::StoreError;
use crate::frames::{is_waiting, put_packets, put_waiting, read_packets, read_waiting};
use crate::head::{head_known, put_head, read_head};
use bytes::BytesMut;
use mqtt5_codec::Packet;
use mqtt5_publish::Publish;
use mqtt5_session::{MqttState, Numbers, StateError};
use std::alloc::Global;

/// Appends a session. S1 where an event isn't taken out: its message would be lost, since the broker's copy of it would
/// be taken for a duplicate. S7 of a publish that can't be written (E9, E11). S12. After a refusal the buffer is unchanged.
pub fn save(alloc: Global, state: &MqttState, buffer: &mut BytesMut) -> Result<(), StateError>
    // Whatever follows these bytes, they are read as the session's core is stored.
    ensures saved { OnOk result (Appends (λ bytes. IsStored bytes state.now.core) buffer.old.items
        buffer.new.items) }
    ensures told { OnOk result (state.now.events ≡ []) }
    ensures err { IfErr result (λ e. NotSaved e state.now) }
    ensures kept { OnErr result (buffer.new.items ≡ buffer.old.items) }
{
    if !state.events().is_empty() {
        return Err(StateError::InvalidState);
    }
    let mut bytes = BytesMut::new(alloc);
    put_session(alloc, state, &mut bytes)?;
    buffer.extend_from_slice(bytes.as_slice())?;
    Ok(())
}

/// Appends a session to bytes, which are of no use after a refusal.
fn put_session(alloc: Global, state: &MqttState, out: &mut BytesMut) -> Result<(), StateError>
    ensures ok { OnOk result (Appends (λ bytes. IsStored bytes state.now.core) out.old.items
        out.new.items) }
    ensures err { IfErr result (λ e. (e ≡ StateError.OutOfMemory)
        ⊎ ((f : Error) × (e ≡ state_error f) × CantPutCore state.now.core f)) }
{
    let packets = state.stored_packets(alloc)?;
    let waiting = state.collision();
    let numbers = state.numbers();
    let count = packets.len() as u64;
    let waits = is_waiting(waiting);
    head_known(numbers, waits, count);
    put_head(numbers, waits, count, out)?;
    put_waiting(waiting, out)?;
    match put_packets(&packets, out) {
        Ok(()) => {}
        Err(refused) => return Err(StateError::from(refused)),
    }
    Ok(())
}

/// Takes the session at the front out, in which nothing happened. `Cut`, `Foreign`, `Version`, then `Cut` or `Frame` of
/// the first frame that isn't whole or has a fault, or `NotStored` where no publish is there that waits; then
/// `BadNumbers`, `NotStored`, `OutOfRange` or `Twice`. Or memory is refused. After an error the bytes are of no use.
pub fn load(alloc: Global, stream: &mut BytesMut) -> Result<MqttState, StoreError>
    ensures loads { Gives (λ s. (s.core, stream.new.items)) result (core_at stream.old.items) }
    ensures begins { IfOk result (λ s. s ≡ session_of s.core) }
    // What was saved is loaded, whatever follows it.
    ensures back { (bytes rest : List ℕ) (c : Core) → IsStored bytes c
        → stream.old.items ≡ bytes ++ rest
        → MatchResult result (λ s. (s ≡ session_of (stored_core c)) × (stream.new.items ≡ rest))
        (λ e. e ≡ StoreError.OutOfMemory) }
{
    take_session(alloc, stream)
}

fn take_session(alloc: Global, stream: &mut BytesMut) -> Result<MqttState, StoreError>
    ensures loads { Gives (λ s. (s.core, stream.new.items)) result (core_at stream.old.items) }
    ensures begins { IfOk result (λ s. s ≡ session_of s.core) }
{
    let head = read_head(stream)?;
    let waiting = read_waiting(alloc, head.is_waiting(), stream)?;
    match read_packets(alloc, head.count, stream) {
        Ok(packets) => make(alloc, head.numbers(), waiting, packets),
        Err(refused) => {
            drop(waiting);
            Err(refused)
        }
    }
}

/// Makes a session of its parts.
fn make(
    alloc: Global,
    numbers: Numbers,
    waiting: Option<Publish>,
    packets: Vec<Packet>,
) -> Result<MqttState, StoreError>
    ensures loads { (rest : List ℕ) → Gives (λ s. (s.core, rest)) result
        (core_before (core_of_parts numbers waiting packets.items) rest) }
    ensures begins { IfOk result (λ s. s ≡ session_of s.core) }
{
    Ok(MqttState::of_parts(alloc, numbers, waiting, packets)?)
}
