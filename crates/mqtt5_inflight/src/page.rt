//! A page of packet identifiers: where what is known of each of 64 ids in a row stands.

ghost use Rattle.std.specs.Prelude.{◌≡◌, ◌<◌, ◌≤◌, ℕ, IsTrue, IfOk, IfNone, IfSome, None, Some, length, slice_get, slice_index_or, slice_set};
ghost use Rattle.mqtt5_inflight.specs.Paged.{IsBlank};

use std::alloc::{AllocError, Global};
use std::marker::Model;

/// How many ids share a page.
pub const IDS: u16 = 64;

/// The places of the ids of a page, of which each may be free. Contracts see them as a list.
#[derive(Debug, Drop)]
pub struct Page {
    places: Vec<Option<usize>>,
    used: usize,
}

impl Model for Page {
    ghost use Rattle.std.specs.Prelude.{◌≡◌, ℕ, List, Option, length, count_by, is_some};

    ghost Value = { List (Option ℕ) };

    ghost view = { λ a. a.places.items };

    ghost invariant = { λ a. (length a.places.items ≡ 64) × (a.used ≡ count_by is_some a.places.items) };
}

impl Page {
    /// Each id is free.
    pub fn new(alloc: Global) -> Result<Page, AllocError>
        ensures { IfOk result IsBlank }
    {
        Ok(Page {
            places: Vec::from_elem(alloc, None, IDS as usize)?,
            used: 0,
        })
    }

    /// The place of an id.
    #[inline]
    pub fn get(&self, offset: usize) -> Option<usize>
        requires { offset < 64 }
        ensures { result ≡ slice_index_or self.now offset None }
    {
        self.places[offset]
    }

    /// The first id in use from an offset on, and its place.
    #[inline]
    pub fn next_from(&self, offset: usize) -> Option<(usize, usize)>
        ensures within { IfSome result (λ e. (offset ≤ e.0) × (e.0 < 64)) }
        ensures found { IfSome result (λ e. slice_index_or self.now e.0 None ≡ Some e.1) }
        ensures first { IfSome result (λ e.
            (k : ℕ) → offset ≤ k → k < e.0 → slice_index_or self.now k None ≡ None) }
        ensures last { IfNone result (
            (k : ℕ) → offset ≤ k → k < 64 → slice_index_or self.now k None ≡ None) }
    {
        for next in offset..IDS as usize {
            if let Some(place) = self.places[next] {
                return Some((next, place));
            }
        }
        None
    }

    /// Gives an id, which is free, a place.
    #[inline]
    pub fn put(&mut self, offset: usize, place: usize)
        requires within { offset < 64 }
        requires free { slice_index_or self.old offset None ≡ None }
        ensures put { self.new ≡ slice_set self.old offset (Some place) }
        ensures whole { length self.old ≡ 64 }
    {
        self.used += 1;
        self.places[offset] = Some(place);
    }

    /// Makes an id free.
    #[inline]
    pub fn take(&mut self, offset: usize) -> Option<usize>
        requires { offset < 64 }
        ensures place { result ≡ slice_index_or self.old offset None }
        ensures free { self.new ≡ slice_set self.old offset None }
        ensures whole { length self.old ≡ 64 }
    {
        let place = self.places[offset]?;
        self.places[offset] = None;
        self.used -= 1;
        Some(place)
    }

    /// Whether each id is free.
    #[inline]
    pub fn is_blank(&self) -> bool
        ensures { IsTrue result → IsBlank self.now }
    {
        self.used == 0
    }
}

impl Clone for Page {
    ghost is_clone = { λ page copy. copy ≡ page };

    fn clone(&self) -> Result<Page, AllocError> {
        Ok(Page {
            places: self.places.clone()?,
            used: self.used,
        })
    }
}
