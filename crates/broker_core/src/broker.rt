//! All clients of a broker, by their numbers.

ghost use Rattle.std.specs.Prelude.{◌≡◌, ◌⊎◌, ℕ, List, None, Some, [], ◌∷◌, ◌++◌, length, map, slice_get, option_map, OnOk, OnErr, IfOk, IfErr};
ghost use Rattle.mqtt5_base.specs.Front.{More};
ghost use Rattle.mqtt5_base.specs.FrontAt.{front};
ghost use Rattle.mqtt5_codec.specs.declared.packet.Packet.{Packet};
ghost use Rattle.broker_core.specs.Clients.{AreServed, AreTaken, IsFault, ended, fresh, passed, refusal_of, served, with_client};

use crate::client::Client;
use crate::error::BrokerError;
use crate::publishes::topic_of;
use bytes::BytesMut;
use mqtt5_codec::{Codec, Packet};
use std::alloc::Global;
use std::marker::Model;

/// The greatest remaining length of a frame that a client may send, in bytes.
pub const LONGEST: u32 = 1_048_576;

const CODEC: Codec = Codec {
    max_incoming_size: Some(LONGEST),
    max_outgoing_size: None,
};

/// A broker: its clients, which are numbers from 0.
#[derive(Drop)]
pub struct Broker {
    clients: Vec<Client>,
}

impl Model for Broker {
    ghost use Rattle.std.specs.Prelude.{List};
    ghost use Rattle.broker_core.specs.Clients as model;

    ghost Value = { List model.Client };

    ghost view = { λ b. b.clients.items };
}

impl Broker {
    /// A broker without a client.
    pub fn new(alloc: Global) -> Broker
        ensures { result ≡ [] }
    {
        Broker {
            clients: Vec::new(alloc),
        }
    }

    /// Adds a client, whose first packet is to be a Connect, and answers its number. Err where memory is refused.
    pub fn accept(&mut self, alloc: Global) -> Result<usize, BrokerError>
        ensures number { IfOk result (λ id. id ≡ length self.old) }
        ensures ok { OnOk result (self.new ≡ self.old ++ fresh ∷ []) }
        ensures err { OnErr result (self.new ≡ self.old) }
    {
        let id = self.clients.len();
        self.clients.push(Client::new(alloc))?;
        Ok(id)
    }

    /// Serves each whole frame at the front of a client's stream. At the first that is refused it answers why, with that
    /// frame taken out, and the client is to be ended.
    pub fn receive(
        &mut self,
        alloc: Global,
        id: usize,
        stream: &mut BytesMut,
    ) -> Result<(), BrokerError>
        ensures more { OnOk result ((n : ℕ) × (front (Some LONGEST) stream.new.items ≡ More n)) }
        ensures served { OnOk result ((packets : List Packet)
            × AreTaken (Some LONGEST) packets stream.old.items stream.new.items
            × AreServed id packets self.old self.new) }
    {
        while let Some(packet) = CODEC.decode(alloc, stream)? {
            let served = self.serve(alloc, id, &packet);
            drop(packet);
            served?;
        }
        Ok(())
    }

    /// Serves a packet of a client: a publish goes to each client that its topic reaches, any other packet is answered.
    /// After `Codec` a part of that may be done.
    pub fn serve(&mut self, alloc: Global, id: usize, packet: &Packet) -> Result<(), BrokerError>
        ensures ok { OnOk result ((refusal_of id packet.now self.old ≡ None)
            × (self.new ≡ served id packet.now self.old)) }
        ensures err { IfErr result
            (λ e. ((refusal_of id packet.now self.old ≡ Some e) × (self.new ≡ self.old))
            ⊎ IsFault e) }
    {
        if id >= self.clients.len() {
            return Err(BrokerError::UnknownClient(id));
        }
        match packet {
            Packet::Publish(publish) => {
                self.clients[id].check_connected()?;
                let topic = topic_of(publish)?;
                route(&mut self.clients, topic, packet)
            }
            _other => self.clients[id].answer(alloc, packet),
        }
    }

    /// Takes the bytes out that are to go to a client; None where no client has this number. Takes no memory.
    pub fn take_output(&mut self, alloc: Global, id: usize) -> Option<BytesMut>
        ensures bytes { option_map (λ bytes. bytes.items) result
            ≡ option_map (λ c. c.output) (slice_get self.old id) }
        ensures rest { self.new ≡ with_client id (λ c. record c { output = [] }) self.old }
    {
        if id >= self.clients.len() {
            return None;
        }
        Some(self.clients[id].take_output(alloc))
    }

    /// Ends a client, whose connection is closed.
    pub fn end(&mut self, id: usize)
        ensures { self.new ≡ with_client id ended self.old }
    {
        if id < self.clients.len() {
            self.clients[id].end();
        }
    }
}

/// Sends a publish to each client that its topic reaches.
fn route(clients: &mut [Client], topic: &str, packet: &Packet) -> Result<(), BrokerError>
    ensures ok { OnOk result (clients.new ≡ map (passed topic.now packet.now) clients.old) }
    ensures err { IfErr result IsFault }
{
    for client in clients.iter_mut() {
        client.pass_on(topic, packet)?;
    }
    Ok(())
}
