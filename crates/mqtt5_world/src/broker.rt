//! A broker that keeps the session of one client.

ghost use Rattle.std.specs.Prelude.{◌≡◌, ◌∷◌, ◌++◌, [], OnOk, IfOk, Some, None, if◌then◌else◌};
ghost use Rattle.std.specs.FinSet as set;
ghost use Rattle.mqtt5_session.specs.Packets.{puback_of, pubrec_of, pubcomp_of};
ghost use Rattle.mqtt5_world.specs.Broker.{idle, serve, serve_publish, reason_for};

use mqtt5_base::{QoS, copied};
use mqtt5_codec::Packet;
use mqtt5_publish::{PubAck, PubComp, PubCompReason, PubRec, Publish};
use mqtt5_session::Ids;
use std::alloc::{AllocError, Global};
use std::marker::Model;

/// A broker, as the receiver of a client's publishes (MQTT 5.0 section 4.3).
#[derive(Debug, Drop)]
pub struct Broker {
    ids: Ids,
    handed: Vec<Publish>,
}

impl Model for Broker {
    ghost use Rattle.std.specs.Coded.{codes};
    ghost use Rattle.mqtt5_publish.specs.contracts.publish.Publish as publish;
    ghost use Rattle.mqtt5_inflight.specs.Codes.{coded_incoming};
    ghost use Rattle.mqtt5_world.specs.Broker as model;

    ghost Value = { model.Broker };

    ghost coded = { Prim.hlevel (codes, coded_incoming, publish.the_row.coded) };

    ghost view = { λ a. record { ids = a.ids; handed = a.handed.items } };
}

impl Broker {
    /// A broker that has nothing of the client.
    pub fn new(alloc: Global) -> Broker
        ensures { result ≡ idle }
    {
        Broker {
            ids: Ids::new(alloc),
            handed: Vec::new(alloc),
        }
    }

    /// What was handed on so far.
    pub fn handed(&self) -> &[Publish]
        ensures { result.now ≡ self.now.handed }
    {
        self.handed.as_slice()
    }

    /// What was handed on.
    pub fn into_handed(self) -> Vec<Publish>
        ensures { result.items ≡ self.handed }
    {
        self.handed
    }

    /// Takes a packet and answers it.
    pub fn serve(&mut self, packet: &Packet) -> Result<Option<Packet>, AllocError>
        ensures reply { IfOk result (λ reply. reply ≡ (serve self.old packet.now).0) }
        ensures broker { OnOk result (self.new ≡ (serve self.old packet.now).1) }
    {
        match packet {
            Packet::Publish(publish) => self.serve_publish(publish),
            Packet::PubRel(release) => Ok(Some(self.release(release.pkid))),
            _other => Ok(None),
        }
    }

    fn serve_publish(&mut self, publish: &Publish) -> Result<Option<Packet>, AllocError>
        ensures reply { IfOk result (λ reply. reply
            ≡ (serve_publish publish.now.qos self.old publish.now).0) }
        ensures broker { OnOk result
            (self.new ≡ (serve_publish publish.now.qos self.old publish.now).1) }
    {
        let id = publish.pkid;
        match publish.qos {
            QoS::AtMostOnce => {
                self.hand_on(publish)?;
                Ok(None)
            }
            QoS::AtLeastOnce => {
                self.hand_on(publish)?;
                Ok(Some(puback(id)))
            }
            QoS::ExactlyOnce => {
                if !self.ids.contains(id) {
                    self.hand_on(publish)?;
                }
                self.ids.insert(id)?;
                Ok(Some(pubrec(id)))
            }
        }
    }

    /// Hands a publish on.
    fn hand_on(&mut self, publish: &Publish) -> Result<(), AllocError>
        ensures { OnOk result
            (self.new ≡ record self.old { handed = self.old.handed ++ publish.now ∷ [] }) }
    {
        let publish = copied(publish)?;
        self.handed.push(publish)?;
        Ok(())
    }

    /// Releases an id, and answers whether it was there.
    fn release(&mut self, id: u16) -> Packet
        ensures reply { result ≡ pubcomp_of id (reason_for (set.contains self.old.ids id)) }
        ensures broker { self.new ≡ record self.old { ids = set.remove self.old.ids id } }
    {
        let had = self.ids.contains(id);
        self.ids.remove(id);
        pubcomp(id, had)
    }
}

/// The PubAck of a publish of QoS 1: its id, with Success.
pub fn puback(id: u16) -> Packet
    ensures { result ≡ puback_of id }
{
    Packet::PubAck(PubAck::new(id, None))
}

/// The PubRec of a publish of QoS 2: its id, with Success.
pub fn pubrec(id: u16) -> Packet
    ensures { result ≡ pubrec_of id }
{
    Packet::PubRec(PubRec::new(id, None))
}

/// The PubComp of a release: its id, with Success where the broker had it, else with packet identifier not found.
pub fn pubcomp(id: u16, had: bool) -> Packet
    ensures { result ≡ pubcomp_of id (reason_for had) }
{
    let mut answer = PubComp::new(id, None);
    if !had {
        answer.reason = PubCompReason::PacketIdentifierNotFound;
    }
    Packet::PubComp(answer)
}
