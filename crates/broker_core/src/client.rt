//! One client: what a broker knows of it, and the answers to its packets.

ghost use Rattle.std.specs.Prelude.{◌≡◌, ◌⊎◌, true, false, [], ◌++◌, OnOk, OnErr, IfOk, IfErr};
ghost use Rattle.mqtt5_codec.specs.declared.packet.Packet.TheVariants as packets;
ghost use Rattle.broker_core.specs.Clients.{IsFault, answer_refusal, answered, connack, connected_refusal, ended, fresh, is_reached, kept_filters, passed, sent, suback, unsuback, without_all};

use crate::error::BrokerError;
use crate::filters::{forget_all, keep, reasons};
use bytes::BytesMut;
use mqtt5_base::{Text, matches};
use mqtt5_codec::Packet;
use mqtt5_control::{ConnAck, ConnAckProperties, ConnectReturnCode};
use mqtt5_publish::PingResp;
use mqtt5_subscribe::{SubAck, Subscribe, UnsubAck, Unsubscribe};
use std::alloc::Global;
use std::marker::Model;
use std::mem;

/// A client: whether it is connected, its topic filters, and the bytes that are to go to it.
#[derive(Drop)]
pub struct Client {
    is_connected: bool,
    filters: Vec<Text>,
    output: BytesMut,
}

impl Model for Client {
    ghost use Rattle.broker_core.specs.Clients as model;

    ghost Value = { model.Client };

    ghost view = { λ c. record { is_connected = c.is_connected; filters = c.filters.items; output = c.output.items } };
}

impl Client {
    /// A client that has sent nothing.
    pub fn new(alloc: Global) -> Client
        ensures { result ≡ fresh }
    {
        Client {
            is_connected: false,
            filters: Vec::new(alloc),
            output: BytesMut::new(alloc),
        }
    }

    /// `NotConnected` where no Connect was answered, or a Disconnect came since.
    pub fn check_connected(&self) -> Result<(), BrokerError>
        ensures ok { OnOk result (self.now.is_connected ≡ true) }
        ensures err { IfErr result (λ e. (self.now.is_connected ≡ false)
            × (e ≡ BrokerError.NotConnected)) }
    {
        if self.is_connected {
            Ok(())
        } else {
            Err(BrokerError::NotConnected)
        }
    }

    /// Whether a topic matches one of the client's filters (4.7).
    pub fn is_reached(&self, topic: &str) -> bool
        ensures { result ≡ is_reached topic.now self.now }
    {
        self.filters
            .iter()
            .any(|filter| matches(topic, filter.as_str()))
    }

    /// Sends a packet to the client. `Codec`, with nothing sent, where it can't be written.
    pub fn send(&mut self, packet: &Packet) -> Result<(), BrokerError>
        ensures ok { OnOk result (self.new ≡ sent packet.now self.old) }
        ensures err { OnErr result (self.new ≡ self.old) }
        ensures fault { IfErr result IsFault }
    {
        packet.write(&mut self.output, None)?;
        Ok(())
    }

    /// Sends a packet to the client, if a topic reaches it. `Codec`, with nothing sent, where it can't be written.
    pub fn pass_on(&mut self, topic: &str, packet: &Packet) -> Result<(), BrokerError>
        ensures ok { OnOk result (self.new ≡ passed topic.now packet.now self.old) }
        ensures err { OnErr result (self.new ≡ self.old) }
        ensures fault { IfErr result IsFault }
    {
        if self.is_reached(topic) {
            self.send(packet)?;
        }
        Ok(())
    }

    /// Takes the bytes out that are to go to the client. Takes no memory.
    pub fn take_output(&mut self, alloc: Global) -> BytesMut
        ensures bytes { result.items ≡ self.old.output }
        ensures rest { self.new ≡ record self.old { output = [] } }
    {
        mem::replace(&mut self.output, BytesMut::new(alloc))
    }

    /// Ends the client: a publish reaches it no longer.
    pub fn end(&mut self)
        ensures { self.new ≡ ended self.old }
    {
        self.is_connected = false;
        self.filters.clear();
    }

    /// Answers a packet that isn't a publish. `NotConnected`, `ConnectedTwice`, `UnexpectedPacket`, with the client unchanged;
    /// after `Codec` the client is to be ended.
    pub fn answer(&mut self, alloc: Global, packet: &Packet) -> Result<(), BrokerError>
        ensures ok { OnOk result ((answer_refusal packet.now self.old ≡ None)
            × (self.new ≡ answered packet.now self.old)) }
        ensures err { IfErr result
            (λ e. ((answer_refusal packet.now self.old ≡ Some e) × (self.new ≡ self.old))
            ⊎ IsFault e) }
    {
        if self.is_connected {
            self.answer_connected(alloc, packet)
        } else {
            match packet {
                Packet::Connect(_, _, _) => self.connect(alloc),
                _other => Err(BrokerError::NotConnected),
            }
        }
    }

    fn answer_connected(&mut self, alloc: Global, packet: &Packet) -> Result<(), BrokerError>
        ensures ok { OnOk result ((connected_refusal packet.now ≡ None)
            × (self.new ≡ answered packet.now self.old)) }
        ensures err { IfErr result
            (λ e. ((connected_refusal packet.now ≡ Some e) × (self.new ≡ self.old)) ⊎ IsFault e) }
    {
        match packet {
            Packet::Connect(_, _, _) => Err(BrokerError::ConnectedTwice),
            Packet::Subscribe(subscribe) => self.subscribe(alloc, subscribe),
            Packet::Unsubscribe(unsubscribe) => self.unsubscribe(alloc, unsubscribe),
            Packet::PingReq(_) => self.answer_ping(),
            Packet::Disconnect(_) => Ok(self.end()),
            _other => Err(BrokerError::UnexpectedPacket),
        }
    }

    fn connect(&mut self, alloc: Global) -> Result<(), BrokerError>
        ensures ok { OnOk result
            (self.new ≡ sent connack (record self.old { is_connected = true })) }
        ensures err { IfErr result IsFault }
    {
        connack(alloc).write(&mut self.output)?;
        self.is_connected = true;
        Ok(())
    }

    fn subscribe(&mut self, alloc: Global, subscribe: &Subscribe) -> Result<(), BrokerError>
        ensures ok { OnOk result (self.new ≡ sent (suback subscribe.now)
            (record self.old {
              filters = self.old.filters
                  ++ kept_filters subscribe.now.filters;
            })) }
        ensures err { IfErr result IsFault }
    {
        let ack = SubAck {
            pkid: subscribe.pkid,
            return_codes: reasons(alloc, &subscribe.filters)?,
            properties: None,
        };
        keep(&mut self.filters, &subscribe.filters)?;
        ack.write(&mut self.output)?;
        Ok(())
    }

    fn unsubscribe(&mut self, alloc: Global, unsubscribe: &Unsubscribe) -> Result<(), BrokerError>
        ensures ok { OnOk result (self.new ≡ sent (unsuback unsubscribe.now self.old.filters)
            (record self.old { filters = without_all unsubscribe.now.filters self.old.filters })) }
        ensures err { IfErr result IsFault }
    {
        let ack = UnsubAck {
            pkid: unsubscribe.pkid,
            reasons: forget_all(alloc, &mut self.filters, &unsubscribe.filters)?,
            properties: None,
        };
        ack.write(&mut self.output)?;
        Ok(())
    }

    fn answer_ping(&mut self) -> Result<(), BrokerError>
        ensures ok { OnOk result (self.new ≡ sent (packets.PingResp (record {})) self.old) }
        ensures err { IfErr result IsFault }
    {
        PingResp::write(&mut self.output)?;
        Ok(())
    }
}

/// Tells a client what the broker hasn't: sessions, QoS 1 and 2, retained messages, identifiers of subscriptions and shared
/// subscriptions (3.2.2.3).
fn connack(alloc: Global) -> ConnAck
    ensures { packets.ConnAck result ≡ connack }
{
    let mut offers = ConnAckProperties::new(alloc);
    offers.session_expiry_interval = Some(0);
    offers.max_qos = Some(0);
    offers.retain_available = Some(0);
    offers.subscription_identifiers_available = Some(0);
    offers.shared_subscription_available = Some(0);
    ConnAck {
        session_present: false,
        code: ConnectReturnCode::Success,
        properties: Some(offers),
    }
}
