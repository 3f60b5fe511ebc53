//! The packet identifiers in use, and what is known of each.

ghost use Rattle.std.specs.Prelude.{◌≡◌, ◌≢◌, ◌<◌, ◌≤◌, IsTrue, IsSome, IfNone, IfOk, IfSome, IsOk, OnOk, OnErr, ◌++◌, slice_get, length, ℕ, None, Some};
ghost use Rattle.std.specs.FinMap as map;
ghost use Rattle.std.specs.Option.{option_copied, option_to_list};
ghost use Rattle.mqtt5_base.specs.declared.quality.QoS.TheVariants.{AtMostOnce};
ghost use Rattle.mqtt5_inflight.specs.InUse.{HasId, IsWithin, awaiting_ack, is_released};
ghost use Rattle.mqtt5_inflight.specs.Unacked.{again, alias_again, by_id, in_use_again, publish_again, release_again, requests_of};
ghost use Rattle.mqtt5_inflight.specs.Resent.{packet_for, packets_of};

use crate::aliases::alias_over;
use crate::event::Request;
use crate::slot::Slot;
use crate::table::Table;
use mqtt5_base::copied;
use mqtt5_codec::Packet;
use mqtt5_publish::{PubRel, Publish};
use std::alloc::{AllocError, Global};
use std::marker::Model;

/// The ids in use, each within the limit. Contracts see a map.
#[derive(Debug, Drop)]
pub struct Slots {
    limit: u16,
    in_use: Table,
    alloc: Global,
}

impl Model for Slots {
    ghost use Rattle.mqtt5_inflight.specs.InUse.{IsWithin};
    ghost use Rattle.mqtt5_inflight.specs.Codes.{IdMap, coded_ids};

    ghost Value = { IdMap };

    ghost coded = { coded_ids };

    ghost view = { λ a. record { limit = a.limit; in_use = a.in_use } };

    ghost invariant = { λ a. IsWithin a.limit a.in_use };
}

impl Slots {
    /// No id is in use. Takes no memory.
    pub fn new(alloc: Global, limit: u16) -> Slots
        ensures { result ≡ record { limit = limit; in_use = map.empty } }
    {
        Slots {
            limit,
            in_use: Table::new(alloc),
            alloc,
        }
    }

    /// How many ids are in use.
    pub fn len(&self) -> u16
        ensures count { result ≡ map.len self.now.in_use }
        ensures within { IsWithin self.now.limit self.now.in_use }
    {
        let count = self.in_use.len();
        prove!(count <= self.limit as usize);
        count as u16
    }

    /// How high an id may be.
    pub fn limit(&self) -> u16
        ensures { result ≡ self.now.limit }
    {
        self.limit
    }

    /// What is known of an id.
    fn get(&self, id: u16) -> Option<&Slot>
        ensures found { option_copied result ≡ map.get self.now.in_use id }
        ensures low { IsSome result → 0 < id }
        ensures high { IsSome result → id ≤ self.now.limit }
    {
        self.in_use.get(id)
    }

    /// The first id in use above another, and what is known of it.
    fn next_after(&self, after: u16) -> Option<(u16, &Slot)>
        ensures above { IfSome result (λ e. (after < e.0) × (e.0 ≤ self.now.limit)) }
        ensures found { IfSome result (λ e. map.get self.now.in_use e.0 ≡ Some e.1.now) }
        ensures first { IfSome result (λ e.
            (q : ℕ) → after < q → q < e.0 → map.get self.now.in_use q ≡ None) }
        ensures last { IfNone result ((q : ℕ) → after < q → map.get self.now.in_use q ≡ None) }
        ensures within { IsWithin self.now.limit self.now.in_use }
    {
        self.in_use.next_after(after)
    }

    /// Whether an id is in use.
    pub fn contains(&self, id: u16) -> bool
        ensures found { result ≡ map.contains_key self.now.in_use id }
        ensures low { IsTrue result → 0 < id }
        ensures high { IsTrue result → id ≤ self.now.limit }
    {
        self.get(id).is_some()
    }

    /// The publish that awaits an ack under an id.
    pub fn sent(&self, id: u16) -> Option<&Publish>
        ensures found { option_copied result ≡ awaiting_ack (map.get self.now.in_use id) }
        ensures low { IsSome result → 0 < id }
        ensures high { IsSome result → id ≤ self.now.limit }
    {
        match self.get(id)? {
            Slot::Sent(publish) => Some(publish),
            Slot::Released => None,
        }
    }

    /// Whether an id is released.
    pub fn is_released(&self, id: u16) -> bool
        ensures found { result ≡ is_released (map.get self.now.in_use id) }
        ensures low { IsTrue result → 0 < id }
        ensures high { IsTrue result → id ≤ self.now.limit }
    {
        matches!(self.get(id), Some(Slot::Released))
    }

    /// What is to be sent again: the publishes, with `dup`, then the releases, each by rising id.
    pub fn requests(&self) -> Result<Vec<Request>, AllocError>
        ensures items { IfOk result (λ v. v.items ≡ requests_of self.now.limit self.now.in_use) }
        ensures count { IfOk result (λ v. length v.items ≡ map.len self.now.in_use) }
    {
        let mut requests = Vec::with_capacity(self.alloc, self.in_use.len())?;
        push_sent(&mut requests, self)?;
        // No id is released.
        if requests.len() == self.in_use.len() {
            return Ok(requests);
        }
        push_released(&mut requests, self)?;
        Ok(requests)
    }

    /// The packets that these are sent as.
    pub fn packets(&self) -> Result<Vec<Packet>, AllocError>
        ensures { IfOk result (λ v. v.items ≡ packets_of self.now.limit self.now.in_use) }
    {
        let requests = self.requests()?;
        let mut packets = Vec::with_capacity(self.alloc, requests.len())?;
        for request in requests {
            if let Some(packet) = as_packet(request) {
                packets.push(packet)?;
            }
        }
        Ok(packets)
    }

    /// The first topic alias above a maximum, by rising id.
    pub fn alias_over(&self, max: u16) -> Option<u16>
        ensures first { result ≡ slice_get (by_id (alias_again max) self.now.limit self.now.in_use)
            0 }
        ensures within { IsWithin self.now.limit self.now.in_use }
    {
        let mut after = 0;
        while let Some((id, slot)) = self.next_after(after) {
            if let Some(alias) = alias_in(slot, max) {
                return Some(alias);
            }
            after = id;
        }
        None
    }

    /// Sets what is known of an id. Only an id that wasn't in use may take memory.
    pub fn insert(&mut self, id: u16, slot: Slot) -> Result<(), AllocError>
        requires low { 0 < id }
        requires high { id ≤ self.old.limit }
        requires own { HasId id slot }
        ensures ok { OnOk result
            (self.new ≡ record self.old { in_use = map.insert self.old.in_use id slot }) }
        ensures err { OnErr result (self.new ≡ self.old) }
        ensures used { IsSome (map.get self.old.in_use id) → IsOk result }
    {
        self.in_use.insert(id, slot)?;
        Ok(())
    }

    /// Stores a copy of a publish under an id, which becomes its own. Only an id that wasn't in use may
    /// take memory besides the copy's.
    pub fn insert_copy(&mut self, id: u16, publish: &Publish) -> Result<(), AllocError>
        requires low { 0 < id }
        requires high { id ≤ self.old.limit }
        requires counted { publish.now.qos ≢ AtMostOnce }
        ensures ok { OnOk result
            (self.new
            ≡ record self.old {
              in_use = map.insert self.old.in_use id
                  (Slot.Sent (record publish.now { pkid = id }));
            }) }
        ensures err { OnErr result (self.new ≡ self.old) }
    {
        let copy = copied_under(id, publish)?;
        self.in_use.insert(id, copy)?;
        Ok(())
    }

    /// Sets `dup` of each publish, as it is when that is sent again.
    pub fn mark_again(&mut self)
        ensures { self.new ≡ record self.old { in_use = in_use_again self.old.in_use } }
    {
        self.in_use.mark_again();
    }

    /// Makes each id free.
    pub fn clear(&mut self)
        ensures { self.new ≡ record self.old { in_use = map.empty } }
    {
        self.in_use.clear();
    }

    /// Makes an id free.
    pub fn remove(&mut self, id: u16)
        ensures { self.new ≡ record self.old { in_use = map.remove self.old.in_use id } }
    {
        self.in_use.remove(id);
    }
}

impl Clone for Slots {
    ghost is_clone = { λ s copy. copy ≡ s };

    fn clone(&self) -> Result<Slots, AllocError> {
        Ok(Slots {
            limit: self.limit,
            in_use: self.in_use.clone()?,
            alloc: self.alloc,
        })
    }
}

/// Adds the publishes that await an ack.
fn push_sent(requests: &mut Vec<Request>, slots: &Slots) -> Result<(), AllocError>
    ensures { OnOk result (requests.new.items
        ≡ requests.old.items ++ by_id publish_again slots.now.limit slots.now.in_use) }
{
    let mut after = 0;
    while let Some((id, slot)) = slots.next_after(after) {
        push_publish(requests, id, slot)?;
        after = id;
    }
    Ok(())
}

/// Adds the publish of an id, if it awaits its ack.
fn push_publish(requests: &mut Vec<Request>, id: u16, slot: &Slot) -> Result<(), AllocError>
    ensures { OnOk result (requests.new.items
        ≡ requests.old.items ++ publish_again id (Some slot.now)) }
{
    if let Slot::Sent(publish) = slot {
        requests.push(sent_again(publish)?)?;
    }
    Ok(())
}

/// A copy of a publish under an id.
#[inline(always)]
fn copied_under(id: u16, publish: &Publish) -> Result<Slot, AllocError>
    ensures { IfOk result (λ slot. slot ≡ Slot.Sent (record publish.now { pkid = id })) }
{
    let mut copy = copied(publish)?;
    copy.pkid = id;
    Ok(Slot::Sent(copy))
}

/// The request that sends a publish again.
fn sent_again(publish: &Publish) -> Result<Request, AllocError>
    ensures { IfOk result (λ r. r ≡ Request.Publish (again publish.now)) }
{
    let mut copy = copied(publish)?;
    copy.dup = true;
    Ok(Request::Publish(copy))
}

/// Adds the releases.
fn push_released(requests: &mut Vec<Request>, slots: &Slots) -> Result<(), AllocError>
    ensures { OnOk result (requests.new.items
        ≡ requests.old.items ++ by_id release_again slots.now.limit slots.now.in_use) }
{
    let mut after = 0;
    while let Some((id, slot)) = slots.next_after(after) {
        push_release(requests, id, slot)?;
        after = id;
    }
    Ok(())
}

/// Adds the release of an id, if it is released.
fn push_release(requests: &mut Vec<Request>, id: u16, slot: &Slot) -> Result<(), AllocError>
    ensures { OnOk result (requests.new.items
        ≡ requests.old.items ++ release_again id (Some slot.now)) }
{
    if let Slot::Released = slot {
        requests.push(Request::PubRel(PubRel::new(id, None)))?;
    }
    Ok(())
}

/// The packet that a request is sent as.
fn as_packet(request: Request) -> Option<Packet>
    ensures { result ≡ packet_for request }
{
    match request {
        Request::Publish(publish) => Some(Packet::Publish(publish)),
        Request::PubRel(release) => Some(Packet::PubRel(release)),
        other => {
            drop(other);
            None
        }
    }
}

/// The topic alias of a publish that awaits its ack, where it is above a maximum.
fn alias_in(slot: &Slot, max: u16) -> Option<u16>
    ensures { (id : ℕ) → option_to_list result ≡ alias_again max id (Some slot.now) }
{
    match slot {
        Slot::Sent(publish) => alias_over(publish, max),
        Slot::Released => None,
    }
}
