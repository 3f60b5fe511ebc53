//! A client's session as bytes, which outlive its process.

ghost use Rattle.std.specs.Prelude.{◌≡◌, ◌++◌, List, [], ℕ, IfOk, IfErr, MatchResult, OnErr, OnOk};
ghost use Rattle.mqtt5_session.specs.Session.{Core};
ghost use Rattle.mqtt5_session.specs.Parts.{stored_core};
ghost use Rattle.mqtt5_store.specs.Answers.{Gives};
ghost use Rattle.mqtt5_store.specs.Saving.{NotSaved};
ghost use Rattle.mqtt5_store.specs.Format.{Appends, IsStored, core_at};
ghost use Rattle.mqtt5_client.specs.Client.{IsReady};
ghost use Rattle.mqtt5_client.specs.Storing.{IsLoaded};

use crate::client::Client;
use bytes::BytesMut;
use mqtt5_codec::Codec;
use mqtt5_drive::empty_needs_more;
use mqtt5_session::StateError;
use mqtt5_store::{StoreError, load, save};
use std::alloc::Global;

impl Client {
    /// Appends the session to a buffer, as bytes of which `load` makes a client. What isn't sent yet is no part of it: the
    /// session sends it again, once it is taken up. So that the end of the process is no more than a lost connection, a
    /// program takes the events out and shows them, saves, writes that beside the last save, syncs and renames it, and only
    /// then sends what is in the output. S1 while an event isn't taken out: its message would be lost. S7 of a publish that
    /// can't be written (E9, E11). S12. After a refusal the buffer is unchanged.
    pub fn save(&self, buffer: &mut BytesMut) -> Result<(), StateError>
        // Whatever follows these bytes, they are read as the session's core is stored.
        ensures saved { OnOk result (Appends (λ bytes. IsStored bytes self.now.state.core)
            buffer.old.items buffer.new.items) }
        ensures told { OnOk result (self.now.state.events ≡ []) }
        ensures err { IfErr result (λ e. NotSaved e self.now.state) }
        ensures kept { OnErr result (buffer.new.items ≡ buffer.old.items) }
    {
        save(*self.input.allocator(), &self.state, buffer)
    }

    /// Takes the session at the front of the bytes out, and makes a client of it: else it is as a new one, so a connection
    /// begins with `connect`, and `take_up` sends again what awaits an ack. The first fault of the bytes, as of
    /// `mqtt5_store`, or memory is refused. After an error the bytes are of no use.
    pub fn load(alloc: Global, stream: &mut BytesMut) -> Result<Client, StoreError>
        ensures loads { Gives (λ c. (c.state.core, stream.new.items)) result
            (core_at stream.old.items) }
        ensures begins { IfOk result (λ c. IsLoaded c.state.core c) }
        // What was saved is loaded, whatever follows it.
        ensures back { (bytes rest : List ℕ) (core : Core) → IsStored bytes core
            → stream.old.items ≡ bytes ++ rest
            → MatchResult result
            (λ c. (c.state.core ≡ stored_core core) × (stream.new.items ≡ rest))
            (λ e. e ≡ StoreError.OutOfMemory) }
        // So bytes may be received.
        ensures ready { IfOk result IsReady }
    {
        let state = load(alloc, stream)?;
        empty_needs_more();
        Ok(Client {
            state,
            codec: Codec::new(),
            input: BytesMut::new(alloc),
            output: BytesMut::new(alloc),
            disconnected: false,
        })
    }
}
