//! The file that a session is kept in over the end of the process: how many messages of the words were taken, in eight bytes,
//! high byte first, and behind them the session. It is written beside, synced and renamed, so that it is whole at any time. It
//! is of one process at a time: nothing locks it.

ghost use Rattle.std.specs.Prelude.{◌≡◌, ◌<◌, ◌⊎◌, [], IfOk, OnOk};
ghost use Rattle.std.specs.Io.KnownBytes.{Keeps};
ghost use Rattle.mqtt5_client.specs.Client.{IsReady};

use bytes::{Buf, BufMut, BytesMut};
use mqtt5_client::{Client, StoreError};
use mqtt5_codec::Packet;
use mqtt5_pipe::{PipeError, write_output};
use mqtt5_talk::{TalkError, new_client};
use std::fs::OpenFile;
use std::io::{ErrorKind, Write};
use std::rt::Files;
use std::{fs, io};

/// How many bytes stand before the session.
const HEAD: usize = 8;

/// Where a session is kept.
#[derive(Drop)]
pub(super) struct Keeper<'a, F> {
    pub(super) rt: &'a F,
    pub(super) path: &'a str,
}

/// What a talk begins with.
#[derive(Drop)]
pub(super) struct Beginning {
    pub(super) client: Client,
    pub(super) start: Start,
}

/// What the file says beside the session.
#[derive(Clone, Copy)]
pub(super) struct Start {
    /// How many messages of the words were taken.
    pub(super) taken: u64,
    /// Whether there was no file: a session of the broker's is then none of this client.
    pub(super) is_new: bool,
}

impl<F: Files + AllocGlobal> Keeper<'_, F> {
    /// The client of the file; where there is none a new one, of so many identifiers, which leaves the acks to the user or sends
    /// them itself. `Unstored` where it can't be read, `NotASession` where it has no session, or one whose acks are sent
    /// otherwise (`Foreign`). Want of memory is `Failed`, and once the session itself is read `NotASession`.
    pub(super) fn begin(&self, limit: u16, manual_acks: bool) -> Result<Beginning, TalkError>
        requires { 0 < limit }
        ensures ready { IfOk result (λ b. IsReady b.client) }
    {
        match fs::read(self.rt, self.path) {
            Ok(bytes) => self.load(bytes.as_slice(), manual_acks),
            Err(error) if error.kind() == ErrorKind::NotFound => Ok(Beginning {
                client: new_client(self.rt.alloc(), limit, manual_acks),
                start: Start {
                    taken: 0,
                    is_new: true,
                },
            }),
            Err(error) => Err(TalkError::Unstored(error)),
        }
    }

    /// The client of a file's bytes.
    fn load(&self, bytes: &[u8], manual_acks: bool) -> Result<Beginning, TalkError>
        ensures ready { IfOk result (λ b. IsReady b.client) }
    {
        let alloc = self.rt.alloc();
        let mut stream = BytesMut::copy_from_slice(alloc, bytes)?;
        let length = stream.len();
        if length < HEAD {
            return Err(TalkError::NotASession(StoreError::Cut(HEAD - length)));
        }
        let mut head = stream.freeze_to(HEAD)?;
        let taken = head.get_u64();
        drop(head);
        match Client::load(alloc, &mut stream) {
            Ok(client) => goes_on(client, taken, manual_acks),
            Err(fault) => Err(TalkError::NotASession(fault)),
        }
    }

    /// Keeps a client's session, and how many messages of the words were taken. All events must be taken out. `Unstored` where
    /// the file can't be written, and `Failed` as of a save.
    pub(super) fn keep(&self, client: &Client, taken: u64) -> Result<(), TalkError>
        ensures told { OnOk result (client.now.state.events ≡ []) }
    {
        let mut bytes = BytesMut::new(self.rt.alloc());
        bytes.put_u64(taken)?;
        match client.save(&mut bytes) {
            Ok(()) => {}
            Err(fault) => return Err(TalkError::from(PipeError::from(fault))),
        }
        match self.write(bytes.as_slice()) {
            Ok(()) => Ok(()),
            Err(error) => Err(TalkError::Unstored(error)),
        }
    }

    /// Takes all events out, and keeps the session. Faults as of `keep`.
    pub(super) fn forget(&self, client: &mut Client, taken: u64) -> Result<(), TalkError>
        ensures ready { IsReady client.old → IsReady client.new }
    {
        forget_events(client);
        self.keep(client, taken)
    }

    /// Writes the file.
    fn write(&self, bytes: &[u8]) -> io::Result<()> {
        let beside = self.beside()?;
        let mut file = fs::create(self.rt, beside.as_str())?;
        file.write_all(bytes)?;
        file.sync_all()?;
        drop(file);
        fs::rename(self.rt, beside.as_str(), self.path)
    }

    /// Where it is written before it is renamed.
    fn beside(&self) -> io::Result<String> {
        let mut beside = String::new(self.rt.alloc());
        beside.push_str(self.path)?;
        beside.push_str(".new")?;
        Ok(beside)
    }

    /// Sends what is in the output, once the session is kept: so that the end of the process is no more than a lost connection.
    /// Where nothing is there, nothing is kept. All events must be taken out. Faults as of `keep`, and `Failed` of a write.
    pub(super) fn send<W: Write>(
        &self,
        client: &mut Client,
        taken: u64,
        writer: &mut W,
    ) -> Result<(), TalkError>
        ensures told { Keeps (W.contents writer.old) (W.contents writer.new)
            ⊎ (client.old.state.events ≡ []) }
        ensures whole { OnOk result (client.new.output.items ≡ []) }
        ensures same { client.new ≡ record client.old { output = client.new.output } }
        ensures ready { IsReady client.old → IsReady client.new }
    {
        match client.output().first() {
            Some(_byte) => {}
            None => return Ok(()),
        }
        self.keep(client, taken)?;
        match write_output(client, writer) {
            Ok(()) => Ok(()),
            Err(fault) => Err(TalkError::from(fault)),
        }
    }
}

/// A client that a file had, unless it is of the other program, whose acks are sent otherwise.
fn goes_on(client: Client, taken: u64, manual_acks: bool) -> Result<Beginning, TalkError>
    requires { IsReady client }
    ensures ready { IfOk result (λ b. IsReady b.client) }
{
    if client.state.numbers().manual_acks != manual_acks {
        drop(client);
        return Err(TalkError::NotASession(StoreError::Foreign));
    }
    Ok(Beginning {
        client,
        start: Start {
            taken,
            is_new: false,
        },
    })
}

/// Takes all events out.
fn forget_events(client: &mut Client)
    ensures ready { IsReady client.old → IsReady client.new }
{
    for _ in 0..u64::MAX {
        match client.next_event() {
            Some(event) => drop(event),
            None => break,
        }
    }
}

/// A Connect, with a clean start where the session is new.
pub(super) fn begins_with(connect: Packet, is_new: bool) -> Packet {
    match connect {
        Packet::Connect(connect, will, login) => {
            let mut connect = connect;
            connect.clean_start = connect.clean_start || is_new;
            Packet::Connect(connect, will, login)
        }
        other => other,
    }
}
