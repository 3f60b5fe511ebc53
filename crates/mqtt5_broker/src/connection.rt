//! What a broker keeps of a connection.

ghost use Rattle.std.specs.Prelude.{◌≡◌, ◌≢◌, ◌∷◌, ◌++◌, Some, OnOk, OnErr, IfOk, map};
ghost use Rattle.std.specs.Option.{option_to_list};
ghost use Rattle.mqtt5_broker.specs.Connection.{closed, opened, heard, learned, learned_topic, taken_by, shut, written, written_all, told, of_user, emptied, holding, with_sent};
ghost use Rattle.mqtt5_broker.specs.Asking.{kept_on};
ghost use Rattle.mqtt5_broker.specs.Expiry.{counted};

use crate::expiry::counted;
use crate::moments::unless_zero;
use crate::reasons::farewell;
use bytes::{Bytes, BytesMut};
use mqtt5_base::{Error, copied};
use mqtt5_codec::Packet;
use mqtt5_control::DisconnectReasonCode;
use mqtt5_inflight::Aliases;
use std::alloc::{AllocError, Global};
use std::collections::VecDeque;
use std::marker::Model;
use std::mem;

/// A connection of a broker: whether bytes of it are taken, which client connected on it, which user's it is, the longest packet
/// that this client takes, the bytes that came in and are no whole frame yet, those to be sent, for how many milliseconds it may be
/// silent, the moment at which it was silent for too long, and the topics that its client's aliases stand for (MQTT 5.0 sections
/// 3.1.2.10, 3.1.2.11.4, 3.3.2.3.4, 4.2 and 5.4.1).
#[derive(Debug, Drop)]
pub struct Connection {
    is_open: bool,
    client: Option<usize>,
    user: Option<usize>,
    longest: Option<u32>,
    held: BytesMut,
    output: BytesMut,
    silence: u32,
    deadline: Option<u64>,
    aliases: Aliases,
}

impl Model for Connection {
    ghost use Rattle.std.specs.Coded.{codes};
    ghost use Rattle.mqtt5_inflight.specs.Codes.{coded_aliases};
    ghost use Rattle.mqtt5_broker.specs.Connection as model;

    ghost Value = { model.Connection };

    ghost coded = { Prim.hlevel (codes, coded_aliases) };

    ghost view = { λ a. record {
      is_open = a.is_open;
      client = a.client;
      user = a.user;
      longest = a.longest;
      held = a.held.items;
      output = a.output.items;
      silence = a.silence;
      deadline = a.deadline;
      aliases = a.aliases;
    } };
}

/// Err where an error is the want of memory.
fn unless_memory(error: &Error) -> Result<(), AllocError>
    ensures { OnOk result (error.now ≢ Error.OutOfMemory) }
{
    match error {
        Error::OutOfMemory => Err(AllocError),
        _other => Ok(()),
    }
}

impl Connection {
    /// None. Takes no memory.
    pub(super) fn closed(alloc: Global) -> Connection
        ensures { result ≡ closed }
    {
        Connection {
            is_open: false,
            client: None,
            user: None,
            longest: None,
            held: BytesMut::new(alloc),
            output: BytesMut::new(alloc),
            silence: 0,
            deadline: None,
            aliases: Aliases::new(alloc),
        }
    }

    /// One that begins at a moment, of which nothing came; it may be silent for so long. Takes no memory.
    pub(super) fn opened(alloc: Global, silence: u32, at: u64) -> Connection
        ensures { result ≡ opened silence at }
    {
        Connection {
            is_open: true,
            client: None,
            user: None,
            longest: None,
            held: BytesMut::new(alloc),
            output: BytesMut::new(alloc),
            silence,
            deadline: unless_zero(silence, at),
            aliases: Aliases::new(alloc),
        }
    }

    /// It is heard at a moment.
    pub(super) fn hear(&mut self, at: u64)
        ensures { self.new ≡ heard at self.old }
    {
        self.deadline = unless_zero(self.silence, at);
    }

    /// The moment at which it was silent for too long.
    pub(super) fn deadline(&self) -> Option<u64>
        ensures { result ≡ self.now.deadline }
    {
        self.deadline
    }

    /// Whether bytes of it are taken.
    pub(super) fn is_open(&self) -> bool
        ensures { result ≡ self.now.is_open }
    {
        self.is_open
    }

    /// The number of the client that connected on it.
    pub(super) fn client(&self) -> Option<usize>
        ensures { result ≡ self.now.client }
    {
        self.client
    }

    /// The number of the user that it is of.
    pub(super) fn user(&self) -> Option<usize>
        ensures { result ≡ self.now.user }
    {
        self.user
    }

    /// It is of a user.
    pub(super) fn identify(&mut self, user: usize)
        ensures { self.new ≡ of_user user self.old }
    {
        self.user = Some(user);
    }

    /// The topic that an alias stands for: no byte where it isn't known. Err where memory is refused.
    pub(super) fn learned_topic(&self, alias: u16) -> Result<Bytes, AllocError>
        ensures { IfOk result (λ t. t ≡ learned_topic alias self.now) }
    {
        match self.aliases.get(alias) {
            Some(topic) => copied(topic),
            None => Ok(Bytes::new()),
        }
    }

    /// An alias stands for a topic from now on. Err where memory is refused.
    pub(super) fn learn(&mut self, alias: u16, topic: Bytes) -> Result<(), AllocError>
        ensures ok { OnOk result (self.new ≡ learned alias topic self.old) }
        ensures left { OnErr result (self.new ≡ self.old) }
    {
        self.aliases.insert(alias, topic)
    }

    /// The bytes to be sent.
    pub(super) fn output(&self) -> &[u8]
        ensures { result.now ≡ self.now.output }
    {
        self.output.as_slice()
    }

    /// So many of them were sent, or all, if there are fewer.
    pub(super) fn sent(&mut self, count: usize)
        ensures { self.new ≡ with_sent count self.old }
    {
        if count < self.output.len() {
            self.output.advance(count);
        } else {
            self.output.clear();
        }
    }

    /// Nothing more is taken of it; what was written is still to be sent.
    pub(super) fn shut(&mut self)
        ensures { self.new ≡ shut self.old }
    {
        self.is_open = false;
        self.client = None;
        self.held.clear();
        self.deadline = None;
    }

    /// It is that of a client, which takes packets of this length at most, and may be silent for so long from a moment on.
    pub(super) fn take(&mut self, client: usize, longest: Option<u32>, silence: u32, at: u64)
        ensures { self.new ≡ taken_by client longest silence at self.old }
    {
        self.client = Some(client);
        self.longest = longest;
        self.silence = silence;
        self.deadline = unless_zero(silence, at);
    }

    /// Takes the bytes out that are held, with these behind them. Err where memory is refused, with the same held.
    pub(super) fn take_held(&mut self, alloc: Global, bytes: &[u8]) -> Result<BytesMut, AllocError>
        ensures all { IfOk result (λ all. all.items ≡ self.old.held ++ bytes.now) }
        ensures ok { OnOk result (self.new ≡ emptied self.old) }
        ensures left { OnErr result (self.new ≡ self.old) }
    {
        self.held.extend_from_slice(bytes)?;
        Ok(mem::replace(&mut self.held, BytesMut::new(alloc)))
    }

    /// The bytes that came in and aren't taken yet.
    pub(super) fn held(&self) -> &BytesMut
        ensures { result.now.items ≡ self.now.held }
    {
        &self.held
    }

    /// Bytes come in, and are only held, where any are taken. Err where memory is refused.
    pub(super) fn keep(&mut self, bytes: &[u8]) -> Result<(), AllocError>
        ensures ok { OnOk result (self.new ≡ kept_on bytes.now self.old) }
        ensures left { OnErr result (self.new ≡ self.old) }
    {
        if self.is_open {
            return self.held.extend_from_slice(bytes);
        }
        Ok(())
    }

    /// Bytes are held, where more are taken.
    pub(super) fn hold(&mut self, bytes: BytesMut)
        ensures { self.new ≡ holding bytes.items self.old }
    {
        if self.is_open {
            self.held = bytes;
        }
    }

    /// A packet is written to it; one that can't be written, or is longer than its client takes, isn't (3.1.2.11.4). Err where
    /// memory is refused.
    pub(super) fn write(&mut self, packet: &Packet) -> Result<(), AllocError>
        ensures ok { OnOk result (self.new ≡ written packet.now self.old) }
        ensures left { OnErr result (self.new ≡ self.old) }
    {
        let Err(error) = packet.write(&mut self.output, self.longest) else {
            return Ok(());
        };
        unless_memory(&error)?;
        Ok(())
    }

    /// So is a packet, if there is one.
    pub(super) fn write_some(&mut self, packet: &Option<Packet>) -> Result<(), AllocError>
        ensures ok { OnOk result (self.new ≡ written_all (option_to_list packet.now) self.old) }
        ensures left { OnErr result (self.new ≡ self.old) }
    {
        match packet {
            Some(packet) => self.write(packet),
            None => Ok(()),
        }
    }

    /// So are packets of a session, in order, as they are sent at a moment. Err where memory is refused: the first of them may be
    /// written.
    pub(super) fn write_all(&mut self, at: u64, packets: VecDeque<Packet>) -> Result<(), AllocError>
        ensures { OnOk result
            (self.new ≡ written_all (map (counted at) packets.items) self.old) }
    {
        let mut packets = packets;
        while let Some(packet) = packets.pop_front() {
            let packet = counted(at, packet);
            let written = self.write(&packet);
            drop(packet);
            written?;
        }
        Ok(())
    }

    /// Its client is told why it ends, and nothing more is taken of it. Err where memory is refused.
    pub(super) fn tell(&mut self, reason: DisconnectReasonCode) -> Result<(), AllocError>
        ensures ok { OnOk result (self.new ≡ told reason self.old) }
        ensures left { OnErr result (self.new ≡ self.old) }
    {
        let farewell = farewell(*self.held.allocator(), self.longest, reason)?;
        let written = self.write(&farewell);
        drop(farewell);
        written?;
        self.shut();
        Ok(())
    }

    /// Its first packet is refused by this, and nothing more is taken of it. Err where memory is refused.
    pub(super) fn turn_away(&mut self, refusal: &Packet) -> Result<(), AllocError>
        ensures ok { OnOk result (self.new ≡ shut (written refusal.now self.old)) }
        ensures left { OnErr result (self.new ≡ self.old) }
    {
        self.write(refusal)?;
        self.shut();
        Ok(())
    }

    /// It is that of a client, and is sent these. Err where memory is refused; it is that of the client all the same.
    pub(super) fn welcome(
        &mut self,
        client: usize,
        longest: Option<u32>,
        silence: u32,
        at: u64,
        welcome: &Packet,
        packets: VecDeque<Packet>,
    ) -> Result<(), AllocError>
        ensures { OnOk result
            (self.new ≡ written_all (welcome.now ∷ map (counted at) packets.items)
            (taken_by client longest silence at self.old)) }
    {
        self.take(client, longest, silence, at);
        self.write(welcome)?;
        self.write_all(at, packets)?;
        Ok(())
    }
}
