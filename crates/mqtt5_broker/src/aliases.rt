//! Topic aliases of clients (MQTT 5.0 section 3.3.2.3.4).

ghost use Rattle.std.specs.Prelude.{◌≡◌, OnOk, IfErr, option_map};
ghost use Rattle.mqtt5_codec.specs.declared.packet.Packet.TheVariants as packets;
ghost use Rattle.mqtt5_broker.specs.Aliases.{up_to, alias_used, no_alias, unaliased, named};
ghost use Rattle.mqtt5_broker.specs.Serving.{serves, takes_under};

use crate::broker::Broker;
use crate::connections::{learn_at, topic_at};
use bytes::Bytes;
use mqtt5_codec::Packet;
use mqtt5_inflight::alias_of;
use mqtt5_publish::{Publish, PublishProperties};
use mqtt5_session::StateError;
use std::alloc::Global;

/// An alias, where it is one of those from 1 to the greatest that is taken.
fn up_to(most: u16, alias: Option<u16>) -> Option<u16>
    ensures { result ≡ up_to most alias }
{
    match alias {
        Some(alias) => {
            if alias == 0 || most < alias {
                None
            } else {
                Some(alias)
            }
        }
        None => None,
    }
}

/// The one that a packet uses.
pub(super) fn alias_used(most: u16, packet: &Packet) -> Option<u16>
    ensures { result ≡ alias_used most packet.now }
{
    match packet {
        Packet::Publish(publish) => up_to(most, alias_of(publish)),
        _other => None,
    }
}

/// The properties of a publish without its alias.
fn no_alias(properties: Option<PublishProperties>) -> Option<PublishProperties>
    ensures { result ≡ option_map no_alias properties }
{
    match properties {
        Some(mut set) => {
            set.topic_alias = None;
            Some(set)
        }
        None => None,
    }
}

/// That without it.
fn unaliased(publish: Publish) -> Publish
    ensures { result ≡ unaliased publish }
{
    let mut publish = publish;
    publish.properties = no_alias(publish.properties);
    publish
}

/// Which has the topic that the alias stands for.
fn named(topic: Bytes, publish: Publish) -> Publish
    ensures { result ≡ named topic publish }
{
    let mut publish = publish;
    publish.topic = topic;
    unaliased(publish)
}

impl Broker {
    /// A packet that uses an alias: a publish with a topic lets the alias stand for that on its connection; one without has the
    /// topic that the alias stands for. S12.
    pub(super) fn take_under(
        &mut self,
        alloc: Global,
        connection: usize,
        client: usize,
        alias: u16,
        packet: Packet,
    ) -> Result<(), StateError>
        ensures ok { OnOk result (self.new ≡ takes_under alias connection client packet self.old) }
        ensures memory { IfErr result (λ e. e ≡ StateError.OutOfMemory) }
    {
        match packet {
            Packet::Publish(publish) => {
                self.take_publish(alloc, connection, client, alias, publish)
            }
            other => self.serve(alloc, connection, client, other),
        }
    }

    /// So does a publish. S12.
    fn take_publish(
        &mut self,
        alloc: Global,
        connection: usize,
        client: usize,
        alias: u16,
        publish: Publish,
    ) -> Result<(), StateError>
        ensures ok { OnOk result
            (self.new ≡ takes_under alias connection client (packets.Publish publish) self.old) }
        ensures memory { IfErr result (λ e. e ≡ StateError.OutOfMemory) }
    {
        if publish.topic.is_empty() {
            let topic = topic_at(self.connections.as_slice(), connection, alias)?;
            let publish = named(topic, publish);
            return self.serve(alloc, connection, client, Packet::Publish(publish));
        }
        let topic = Bytes::copy_from_slice(alloc, publish.topic.as_slice())?;
        learn_at(&mut self.connections, connection, alias, topic)?;
        let publish = unaliased(publish);
        self.serve(alloc, connection, client, Packet::Publish(publish))
    }
}
