//! One way between a client and a broker, as a stream of bytes.

ghost use Rattle.std.specs.Prelude.{◌≡◌, ◌<◌, length, IfOk, IfSome, OnOk};
ghost use Rattle.mqtt5_codec.specs.Codecs.{Decodes};
ghost use Rattle.mqtt5_streams.specs.Wire.{bytes_of};
ghost use Rattle.mqtt5_streams.specs.ByteWorld.{clear, with_bytes, reply_wire, all_bytes};
ghost use Rattle.mqtt5_streams.specs.Does.{SendsBytes};

use bytes::BytesMut;
use mqtt5_base::Error;
use mqtt5_codec::{Codec, Packet};
use mqtt5_session::StateError;
use std::alloc::{AllocError, Global};
use std::marker::Model;

/// One way: the bytes that its reader has, and those that are on their way.
#[derive(Drop)]
pub struct Way {
    buffer: BytesMut,
    stream: BytesMut,
}

impl Model for Way {
    ghost use Rattle.std.specs.Coded.{codes};
    ghost use Rattle.mqtt5_streams.specs.ByteWorld as model;

    ghost Value = { model.Way };

    ghost coded = { Prim.hlevel codes };

    ghost view = { λ a. record { buffer = a.buffer.items; stream = a.stream.items } };
}

impl Way {
    /// A way without a byte.
    pub fn new(alloc: Global) -> Way
        ensures { result ≡ clear }
    {
        Way {
            buffer: BytesMut::new(alloc),
            stream: BytesMut::new(alloc),
        }
    }

    /// Drops all bytes.
    pub fn clear(&mut self)
        ensures { self.new ≡ clear }
    {
        self.buffer.clear();
        self.stream.clear();
    }

    /// Moves so many bytes to the reader, or all where there are fewer.
    pub fn shift(&mut self, n: usize) -> Result<(), AllocError>
        ensures { OnOk result (self.new ≡ with_bytes n self.old) }
    {
        let all = self.stream.len();
        let n = if n < all { n } else { all };
        self.buffer.extend_from_slice(&self.stream.as_slice()[..n])?;
        self.stream.advance(n);
        Ok(())
    }

    /// Takes the frame at the front of what the reader has out, and answers its packet, under a limit on the
    /// remaining length.
    pub fn next(&mut self, alloc: Global, limit: Option<u32>) -> Result<Option<Packet>, Error>
        ensures decodes { Decodes result limit self.old.buffer self.new.buffer }
        ensures stream { self.new.stream ≡ self.old.stream }
        ensures shorter { IfOk result
            (λ m. IfSome m (λ _. length self.new.buffer < length self.old.buffer)) }
    {
        let codec = Codec {
            max_incoming_size: limit,
            max_outgoing_size: None,
        };
        codec.decode(alloc, &mut self.buffer)
    }

    /// Sends a packet, under a limit on its frame.
    #[tactic(auto, unfolding(crate::specs::Wire::bytes_of))]
    pub fn send(&mut self, limit: Option<u32>, packet: &Packet) -> Result<(), StateError>
        ensures { SendsBytes result (bytes_of limit packet.now) self.old self.new }
    {
        let codec = Codec {
            max_incoming_size: None,
            max_outgoing_size: limit,
        };
        match codec.write(packet, &mut self.stream) {
            Ok(()) => Ok(()),
            Err(error) => Err(StateError::from(error)),
        }
    }

    /// Sends a reply, if there is one.
    pub fn reply(&mut self, limit: Option<u32>, reply: &Option<Packet>) -> Result<(), StateError>
        ensures { SendsBytes result (reply_wire limit reply.now) self.old self.new }
    {
        match reply {
            Some(packet) => self.send(limit, packet),
            None => Ok(()),
        }
    }

    /// Sends packets.
    pub fn send_all(&mut self, limit: Option<u32>, packets: &[Packet]) -> Result<(), StateError>
        ensures { SendsBytes result (all_bytes limit packets.now) self.old self.new }
    {
        for packet in packets {
            self.send(limit, packet)?;
        }
        Ok(())
    }
}
