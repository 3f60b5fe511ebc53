//! A broker that hands a publish of QoS 2 on at its release.

ghost use Rattle.std.specs.Prelude.{◌≡◌, ◌≢◌, ◌≤◌, ◌+◌, ◌==◌, ℕ, Bool, true, List, [], ◌∷◌, ◌++◌, count_by, OnOk, IfOk, Some, None, not};
ghost use Rattle.std.specs.FinSet as set;
ghost use Rattle.mqtt5_base.specs.declared.quality.QoS.{QoS};
ghost use Rattle.mqtt5_base.specs.declared.quality.QoS.TheVariants.{AtMostOnce, AtLeastOnce, ExactlyOnce};
ghost use Rattle.mqtt5_publish.specs.declared.publish.Publish.{Publish};
ghost use Rattle.mqtt5_codec.specs.declared.packet.Packet.{Packet};
ghost use Rattle.mqtt5_world.specs.declared.event.WorldEvent.{WorldEvent};
ghost use Rattle.mqtt5_world.specs.Broker.{idle, serve};
ghost use Rattle.mqtt5_world.specs.World.{start, run_world};
ghost use Rattle.mqtt5_world.specs.Delivery.{IsClass, stored_in, waiting_in};
ghost use Rattle.mqtt5_progress.specs.Progress.{Settled};
ghost use Rattle.mqtt5_progress.specs.Late.{idle_late, has_id, with_id, without_id, serve_publish_late, release_late, serve_late, start_late, run_late, settle_late, stored_without_late};

use mqtt5_base::{QoS, copied};
use mqtt5_codec::Packet;
use mqtt5_publish::Publish;
use mqtt5_world::{puback, pubcomp, pubrec};
use std::alloc::{AllocError, Global};
use std::marker::Model;

/// A broker that stores a publish of QoS 2 until its release (MQTT 5.0 section 4.3.3).
#[derive(Debug, Drop)]
pub struct LateBroker {
    stored: Vec<Publish>,
    handed: Vec<Publish>,
}

impl Model for LateBroker {
    ghost use Rattle.std.specs.Coded.{codes};
    ghost use Rattle.mqtt5_publish.specs.contracts.publish.Publish as publish;
    ghost use Rattle.mqtt5_progress.specs.Late as model;

    ghost Value = { model.Late };

    ghost coded = { Prim.hlevel (codes, publish.the_row.coded) };

    ghost view = { λ a. record { stored = a.stored.items; handed = a.handed.items } };
}

impl LateBroker {
    /// A broker that has nothing of the client.
    pub fn new(alloc: Global) -> LateBroker
        ensures { result ≡ idle_late }
    {
        LateBroker {
            stored: Vec::new(alloc),
            handed: Vec::new(alloc),
        }
    }

    /// What was handed on, in order.
    pub fn into_handed(self) -> Vec<Publish>
        ensures { result.items ≡ self.handed }
    {
        let LateBroker { handed, .. } = self;
        handed
    }

    /// Takes a packet and answers it.
    pub fn serve(&mut self, packet: &Packet) -> Result<Option<Packet>, AllocError>
        ensures reply { IfOk result (λ reply. reply ≡ (serve_late self.old packet.now).0) }
        ensures broker { OnOk result (self.new ≡ (serve_late self.old packet.now).1) }
    {
        match packet {
            Packet::Publish(publish) => self.serve_publish(publish),
            Packet::PubRel(release) => self.release(release.pkid),
            _other => Ok(None),
        }
    }

    fn serve_publish(&mut self, publish: &Publish) -> Result<Option<Packet>, AllocError>
        ensures reply { IfOk result (λ reply. reply
            ≡ (serve_publish_late publish.now.qos self.old publish.now).0) }
        ensures broker { OnOk result
            (self.new ≡ (serve_publish_late publish.now.qos self.old publish.now).1) }
    {
        let id = publish.pkid;
        match publish.qos {
            QoS::AtMostOnce => {
                self.hand_on(publish)?;
                Ok(None)
            }
            QoS::AtLeastOnce => {
                self.hand_on(publish)?;
                Ok(Some(puback(id)))
            }
            QoS::ExactlyOnce => {
                if !self.stores(id) {
                    self.store(publish)?;
                }
                Ok(Some(pubrec(id)))
            }
        }
    }

    /// Hands a publish on.
    fn hand_on(&mut self, publish: &Publish) -> Result<(), AllocError>
        ensures { OnOk result
            (self.new ≡ record self.old { handed = self.old.handed ++ publish.now ∷ [] }) }
    {
        let publish = copied(publish)?;
        self.handed.push(publish)?;
        Ok(())
    }

    /// Stores a publish until its release.
    fn store(&mut self, publish: &Publish) -> Result<(), AllocError>
        ensures { OnOk result
            (self.new ≡ record self.old { stored = self.old.stored ++ publish.now ∷ [] }) }
    {
        let publish = copied(publish)?;
        self.stored.push(publish)?;
        Ok(())
    }

    /// Whether a publish is stored under an id.
    fn stores(&self, id: u16) -> bool
        ensures { result ≡ has_id id self.now.stored }
    {
        self.stored.iter().any(|publish| publish.pkid == id)
    }

    /// Hands on what is stored under an id, and answers whether anything was.
    fn release(&mut self, id: u16) -> Result<Option<Packet>, AllocError>
        ensures reply { IfOk result (λ reply. reply ≡ (release_late self.old id).0) }
        ensures broker { OnOk result (self.new ≡ (release_late self.old id).1) }
    {
        let had = self.stores(id);
        push_released(id, &self.stored, &mut self.handed)?;
        drop_released(id, &mut self.stored);
        Ok(Some(pubcomp(id, had)))
    }
}

/// Puts the publishes of an id behind others.
fn push_released(id: u16, stored: &[Publish], handed: &mut Vec<Publish>) -> Result<(), AllocError>
    ensures { OnOk result (handed.new.items ≡ handed.old.items ++ with_id id stored.now) }
{
    for publish in stored {
        if publish.pkid == id {
            handed.push(copied(publish)?)?;
        }
    }
    Ok(())
}

/// Drops the publishes of an id.
fn drop_released(id: u16, stored: &mut Vec<Publish>)
    ensures { stored.new.items ≡ without_id id stored.old.items }
{
    stored.retain(|publish| publish.pkid != id);
}

/// A law, which does nothing when it is called: a client can't tell such a broker from one that hands on at once.
pub fn late_law()
    // All but the broker is the same.
    ensures same_world { (limit : ℕ) (events : List WorldEvent)
        → (run_late events (start_late limit)).around
        ≡ record (run_world events (start limit)) { broker = idle } }
    // The same ids are there, and each packet has the same reply.
    ensures same_ids { (limit : ℕ) (events : List WorldEvent) (id : ℕ)
        → has_id id (run_late events (start_late limit)).broker.stored
        ≡ set.contains (run_world events (start limit)).broker.ids id }
    ensures same_replies { (limit : ℕ) (events : List WorldEvent) (packet : Packet)
        → (serve_late (run_late events (start_late limit)).broker packet).0
        ≡ (serve (run_world events (start limit)).broker packet).0 }
    // What it handed on and what it stores is what the other handed on; below QoS 2 it stores nothing.
    ensures moved { (limit : ℕ) (events : List WorldEvent) (test : Publish → Bool)
        → count_by test (run_late events (start_late limit)).broker.handed + count_by test
        (run_late events (start_late limit)).broker.stored
        ≡ count_by test (run_world events (start limit)).broker.handed }
    ensures same_below { (limit : ℕ) (events : List WorldEvent) (qos : QoS) (test : Publish → Bool)
        → IsClass qos test → qos ≢ ExactlyOnce
        → count_by test (run_late events (start_late limit)).broker.handed
        ≡ count_by test (run_world events (start limit)).broker.handed }
{}

/// A law, which does nothing when it is called: how often such a broker hands on the publishes of a class, in every world
/// that a run reaches.
pub fn late_delivery_law()
    ensures at_most_once { (limit : ℕ) (events : List WorldEvent) (qos : QoS)
        (test : Publish → Bool) → IsClass qos test → qos ≢ AtLeastOnce
        → count_by test (run_late events (start_late limit)).broker.handed
        ≤ count_by test (run_late events (start_late limit)).around.accepted }
    ensures at_least_once { (limit : ℕ) (events : List WorldEvent) (qos : QoS)
        (test : Publish → Bool) → IsClass qos test → qos ≢ AtMostOnce
        → count_by test (run_late events (start_late limit)).around.accepted
        ≤ count_by test (run_late events (start_late limit)).broker.handed + count_by test
        (run_late events (start_late limit)).broker.stored + count_by test
        (stored_in (run_late events (start_late limit)).around.session.core) + count_by test
        (waiting_in (run_late events (start_late limit)).around.session.core) }
    ensures ledger { (limit : ℕ) (events : List WorldEvent) (test : Publish → Bool)
        → IsClass ExactlyOnce test
        → count_by test (run_late events (start_late limit)).broker.handed + count_by test
        (run_late events (start_late limit)).broker.stored + count_by test
        (waiting_in (run_late events (start_late limit)).around.session.core) + count_by test
        (stored_without_late (run_late events (start_late limit)))
        ≡ count_by test (run_late events (start_late limit)).around.accepted }
{}

/// A law, which does nothing when it is called: after any run with such a broker, four rounds of deliveries bring everything
/// to its end.
pub fn late_progress_law()
    // Nothing is on its way or waiting, and the broker stores nothing.
    ensures settled { (limit : ℕ) (events : List WorldEvent)
        → Settled (settle_late 4 (run_late events (start_late limit))).around }
    ensures none_stored { (limit : ℕ) (events : List WorldEvent)
        → (settle_late 4 (run_late events (start_late limit))).broker.stored ≡ [] }
    // A class of QoS 2 was handed on exactly as often as it was accepted, and one of QoS 1 at least as often.
    ensures exactly_once { (limit : ℕ) (events : List WorldEvent) (test : Publish → Bool)
        → IsClass ExactlyOnce test
        → count_by test (settle_late 4 (run_late events (start_late limit))).broker.handed
        ≡ count_by test (run_late events (start_late limit)).around.accepted }
    ensures at_least_once { (limit : ℕ) (events : List WorldEvent) (test : Publish → Bool)
        → IsClass AtLeastOnce test
        → count_by test (run_late events (start_late limit)).around.accepted
        ≤ count_by test (settle_late 4 (run_late events (start_late limit))).broker.handed }
{}
