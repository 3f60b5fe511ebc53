//! What is known of each packet identifier in use, by its place. Free places are used again.

ghost use Rattle.std.specs.Prelude.{◌≡◌, ◌+◌, ◌<◌, ℕ, None, Some, IfNone, IfOk, IfSome, IsOk, IsSome, OnErr, OnOk};
ghost use Rattle.std.specs.FinMap as map;
ghost use Rattle.std.specs.Option.{option_copied};
ghost use Rattle.slab.specs.Slab.{ContainsKey, HasRoomFor, SameValues, Updates, get as standing, slab_len};
ghost use Rattle.mqtt5_inflight.specs.Unacked.{in_use_again, slot_again};

use crate::pages::Pages;
use crate::slot::Slot;
use slab::Slab;
use std::alloc::{AllocError, Global};
use std::marker::Model;

/// How many empty places are kept where no id is in use.
const SPARE_PLACES: usize = 1024;

/// What is known of each id in use. Contracts see a map.
#[derive(Debug, Drop)]
pub struct Table {
    places: Pages,
    slots: Slab<Slot>,
    alloc: Global,
}

impl Model for Table {
    ghost use Rattle.mqtt5_inflight.specs.InUse.{InUse};
    ghost use Rattle.mqtt5_inflight.specs.Codes.{coded_in_use};
    ghost use Rattle.mqtt5_inflight.specs.Placed.{IsPlaced, held_in};

    ghost Value = { InUse };

    ghost coded = { coded_in_use };

    ghost view = { λ a. held_in a.slots.slots a.places };

    ghost invariant = { λ a. IsPlaced a.slots.slots a.places };
}

impl Table {
    /// No id is in use. Takes no memory.
    pub fn new(alloc: Global) -> Table
        ensures { result ≡ map.empty }
    {
        Table {
            places: Pages::new(alloc),
            slots: Slab::new(alloc),
            alloc,
        }
    }

    /// How many ids are in use.
    #[inline]
    pub fn len(&self) -> usize
        ensures { result ≡ map.len self.now }
    {
        self.slots.len()
    }

    /// What is known of an id.
    #[inline]
    pub fn get(&self, id: u16) -> Option<&Slot>
        ensures { option_copied result ≡ map.get self.now id }
    {
        let place = self.places.get(id)?;
        self.slots.get(place)
    }

    /// Sets what is known of an id. Only an id that wasn't in use may take memory.
    #[inline(always)]
    pub fn insert(&mut self, id: u16, slot: Slot) -> Result<(), AllocError>
        ensures ok { OnOk result (self.new ≡ map.insert self.old id slot) }
        ensures err { OnErr result (self.new ≡ self.old) }
        ensures used { IsSome (map.get self.old id) → IsOk result }
    {
        if let Some(place) = self.places.get(id) {
            replace(&mut self.slots, place, slot);
            return Ok(());
        }
        add(&mut self.places, &mut self.slots, id, slot)?;
        Ok(())
    }

    /// Makes an id free.
    #[inline]
    pub fn remove(&mut self, id: u16)
        ensures { self.new ≡ map.remove self.old id }
    {
        if let Some(place) = self.places.remove(id) {
            free(&mut self.slots, place);
        }
    }

    /// Makes each id free.
    pub fn clear(&mut self)
        ensures { self.new ≡ map.empty }
    {
        self.places.clear();
        self.slots = Slab::new(self.alloc);
    }

    /// Sets `dup` of each publish.
    pub fn mark_again(&mut self)
        ensures { self.new ≡ in_use_again self.old }
    {
        self.slots.retain(|_, slot| {
            mark_again(slot);
            true
        });
    }

    /// The first id in use above another, and what is known of it.
    pub fn next_after(&self, after: u16) -> Option<(u16, &Slot)>
        ensures found { IfSome result (λ e. (after < e.0) × (map.get self.now e.0 ≡ Some e.1.now)) }
        ensures first { IfSome result (λ e.
            (q : ℕ) → after < q → q < e.0 → map.get self.now q ≡ None) }
        ensures last { IfNone result ((q : ℕ) → after < q → map.get self.now q ≡ None) }
    {
        let (id, place) = self.places.next_after(after)?;
        Some((id, &self.slots[place]))
    }
}

impl Clone for Table {
    ghost is_clone = { λ table copy. copy ≡ table };

    fn clone(&self) -> Result<Table, AllocError> {
        Ok(Table {
            places: self.places.clone()?,
            slots: copied_slots(&self.slots)?,
            alloc: self.alloc,
        })
    }
}

/// A clone of what stands in the places.
fn copied_slots(slots: &Slab<Slot>) -> Result<Slab<Slot>, AllocError>
    ensures { IfOk result (λ copy. copy.slots ≡ slots.now.slots) }
{
    slots.clone()
}

/// Sets `dup` of a publish that awaits an ack.
fn mark_again(slot: &mut Slot)
    ensures { slot.new ≡ slot_again slot.old }
{
    if let Slot::Sent(publish) = slot {
        publish.dup = true;
    }
}

/// Puts another value into a place.
#[inline]
fn replace(slots: &mut Slab<Slot>, place: usize, slot: Slot)
    requires { ContainsKey slots.old place }
    ensures slot { Updates slots.old slots.new place (Some slot) }
    ensures len { slab_len slots.new ≡ slab_len slots.old }
{
    drop(slots.remove(place));
    slots.insert_reserved(slot);
}

/// Empties a place.
#[inline]
fn free(slots: &mut Slab<Slot>, place: usize)
    requires { ContainsKey slots.old place }
    ensures slot { Updates slots.old slots.new place None }
    ensures len { slab_len slots.new + 1 ≡ slab_len slots.old }
{
    slots.remove(place);
    give_back(slots);
}

/// Gives back the memory of many places, once the last is empty.
#[inline]
fn give_back(slots: &mut Slab<Slot>)
    ensures same { SameValues slots.old slots.new }
    ensures len { slab_len slots.new ≡ slab_len slots.old }
{
    if slots.is_empty() && slots.capacity() > SPARE_PLACES {
        slots.shrink_to_fit();
    }
}

/// Gives an id, which is free, a place with what is known of it.
#[inline(always)]
fn add(places: &mut Pages, slots: &mut Slab<Slot>, id: u16, slot: Slot) -> Result<(), AllocError>
    requires { map.get places.old id ≡ None }
    ensures place { OnOk result (places.new ≡ map.insert places.old id slots.old.vacant_key) }
    ensures vacant { standing slots.old slots.old.vacant_key ≡ None }
    ensures slot { OnOk result (Updates slots.old slots.new slots.old.vacant_key (Some slot)) }
    ensures len { OnOk result (slab_len slots.new ≡ slab_len slots.old + 1) }
    ensures err { OnErr result (places.new ≡ places.old) }
    ensures kept { OnErr result (slots.new.slots ≡ slots.old.slots) }
{
    if let Err(refused) = make_room(places, slots, id) {
        drop(slot);
        return Err(refused);
    }
    slots.insert_reserved(slot);
    Ok(())
}

/// Gives an id, which is free, the next place.
#[inline(always)]
fn make_room(places: &mut Pages, slots: &mut Slab<Slot>, id: u16) -> Result<(), AllocError>
    requires { map.get places.old id ≡ None }
    ensures place { OnOk result (places.new ≡ map.insert places.old id slots.old.vacant_key) }
    ensures vacant { standing slots.old slots.old.vacant_key ≡ None }
    ensures room { OnOk result (HasRoomFor slots.new 1) }
    ensures err { OnErr result (places.new ≡ places.old) }
    ensures kept { slots.new ≡ record slots.old { capacity = slots.new.capacity } }
{
    let place = slots.vacant_key();
    slots.reserve(1)?;
    places.insert(id, place)
}
