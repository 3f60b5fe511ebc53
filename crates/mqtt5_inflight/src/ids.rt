//! Sets of packet identifiers: those of publishes of QoS 2 that came and aren't released.

ghost use Rattle.std.specs.Prelude.{◌≡◌, IfOk, OnOk, OnErr};
ghost use Rattle.std.specs.FinSet as set;

use std::alloc::{AllocError, Global};
use std::collections::BTreeSet;
use std::marker::Model;

/// A set of packet identifiers. Contracts see a finite set.
#[derive(Debug, Drop)]
pub struct Ids {
    ids: BTreeSet<u16>,
}

impl Model for Ids {
    ghost use Rattle.std.specs.Ordering.{nat_cmp};
    ghost use Rattle.std.specs.FinSet as set;
    ghost use Rattle.mqtt5_inflight.specs.Codes.{coded_incoming};

    ghost Value = { set.FinSet nat_cmp };

    ghost coded = { coded_incoming };

    ghost view = { λ a. set.from_list a.ids.keys };
}

impl Ids {
    /// No ids. Takes no memory.
    pub fn new(alloc: Global) -> Ids
        ensures { result ≡ set.empty }
    {
        Ids {
            ids: BTreeSet::new(alloc),
        }
    }

    /// Whether an id is among them. Takes no memory.
    pub fn contains(&self, id: u16) -> bool
        ensures { result ≡ set.contains self.now id }
    {
        self.ids.contains(&id)
    }

    /// The ids, rising. Err where memory is refused.
    pub fn list(&self, alloc: Global) -> Result<Vec<u16>, AllocError>
        ensures { IfOk result (λ ids. set.from_list ids.items ≡ self.now) }
    {
        keys_of(alloc, &self.ids)
    }

    /// Adds an id. Only an id that wasn't among them takes memory; where it is refused, they are unchanged.
    pub fn insert(&mut self, id: u16) -> Result<(), AllocError>
        ensures ok { OnOk result (self.new ≡ set.insert self.old id) }
        ensures err { OnErr result (self.new ≡ self.old) }
    {
        self.ids.insert(id)?;
        Ok(())
    }

    /// Takes an id out, if it is among them. Takes no memory.
    pub fn remove(&mut self, id: u16)
        ensures { self.new ≡ set.remove self.old id }
    {
        self.ids.remove(&id);
    }

    /// Takes each id out. Takes no memory.
    pub fn clear(&mut self)
        ensures { self.new ≡ set.empty }
    {
        self.ids.clear();
    }
}

/// A clone has the same ids. Err where memory is refused.
impl Clone for Ids {
    ghost is_clone = { λ a copy. copy ≡ a };

    fn clone(&self) -> Result<Ids, AllocError> {
        Ok(Ids {
            ids: self.ids.clone()?,
        })
    }
}

/// The keys, rising. Err where memory is refused.
fn keys_of(alloc: Global, ids: &BTreeSet<u16>) -> Result<Vec<u16>, AllocError>
    ensures { IfOk result (λ keys. keys.items ≡ ids.now.keys) }
{
    let mut keys = Vec::with_capacity(alloc, ids.len())?;
    for id in ids {
        keys.push(*id)?;
    }
    Ok(keys)
}
