//! A list that contracts see as its items.

ghost use Rattle.std.specs.Prelude.{◌≡◌, ◌==◌, ◌<◌, ◌^◌, [], ◌∷◌, ◌++◌, length, slice_get, option_copied, OnOk, OnErr, IfErr};
ghost use Rattle.std.specs.Iterator.Adapters.{IterYieldsInOrder};
ghost use Rattle.std.specs.Slice.Iter.{iter_rest};
ghost use Rattle.std.specs.Cmp.Lexicographic.{pointwise, lists_per, lists_equiv};

use crate::exact::Exact;
use std::alloc::{AllocError, AllocFailed, Global};
use std::marker::Model;
use std::{fmt, slice};

/// A list. Contracts see its items.
#[derive(Drop)]
pub struct Sequence<T> {
    items: Vec<T>,
}

impl<T> Model for Sequence<T> {
    ghost use Rattle.std.specs.Prelude.{List};

    ghost Value = { List T };

    ghost view = { λ s. s.items.items };
}

impl<T> Sequence<T> {
    /// A list without items. Takes no memory.
    pub fn new(alloc: Global) -> Sequence<T>
        ensures { result ≡ [] }
    {
        Sequence {
            items: Vec::new(alloc),
        }
    }

    /// The items.
    pub fn as_slice(&self) -> &[T]
        ensures { result.now ≡ self.now }
    {
        self.items.as_slice()
    }

    /// How many items there are.
    pub fn len(&self) -> usize
        ensures { result ≡ length self.now }
    {
        self.items.len()
    }

    /// Whether there are no items.
    pub fn is_empty(&self) -> bool
        ensures { result ≡ (length self.now == 0) }
    {
        self.items.is_empty()
    }

    /// The item at a place, the first at 0, or None past the end.
    pub fn get(&self, index: usize) -> Option<&T>
        ensures { option_copied result ≡ slice_get self.now index }
    {
        self.as_slice().get(index)
    }

    /// An iterator over the items, in order.
    pub fn iter(&self) -> slice::Iter<'_, T>
        ensures items { iter_rest result ≡ self.now }
        ensures in_order { IterYieldsInOrder T }
    {
        self.as_slice().iter()
    }

    /// Adds an item at the end. Where memory is refused the list is unchanged, and the item comes back.
    pub fn push(&mut self, item: T) -> Result<(), AllocFailed<T>>
        ensures ok { OnOk result (self.new ≡ self.old ++ item ∷ []) }
        ensures err { OnErr result (self.new ≡ self.old) }
        ensures value_returned { IfErr result (λ e. e.value ≡ item) }
    {
        self.items.push(item)
    }

    /// The items as a `Vec`. Takes no memory.
    pub fn into_vec(self) -> Vec<T>
        ensures { result.items ≡ self }
    {
        let Sequence { items } = self;
        items
    }
}

impl<'a, T> IntoIterator for &'a Sequence<T> {
    type Item = &'a T;

    type IntoIter = slice::Iter<'a, T>;

    ghost into_iter_gives = { λ s it. (iter_rest it ≡ s.now) × (length (iter_rest it) < 2 ^ 64) × IterYieldsInOrder T };

    fn into_iter(self) -> slice::Iter<'a, T> {
        self.iter()
    }
}

impl<T> From<Vec<T>> for Sequence<T> {
    ghost from_gives = { λ v s. s ≡ v.items };

    fn from(items: Vec<T>) -> Sequence<T> {
        Sequence { items }
    }
}

impl<T: Exact> Clone for Sequence<T> {
    ghost is_clone = { λ s copy. copy ≡ s };

    fn clone(&self) -> Result<Sequence<T>, AllocError> {
        Ok(Sequence {
            items: self.items.clone()?,
        })
    }
}

impl<T: PartialEq> PartialEq for Sequence<T> {
    ghost eq = { pointwise T.eq };

    ghost laws = { lists_per T.laws };

    fn eq(&self, other: &Self) -> bool {
        self.items == other.items
    }
}

impl<T: Eq> Eq for Sequence<T> {
    ghost laws = { lists_equiv T.Eq.laws };
}

impl<T: fmt::Debug> fmt::Debug for Sequence<T> {
    fn fmt<W: fmt::Write>(&self, f: &mut fmt::Formatter<W>) -> fmt::Result {
        fmt::Debug::fmt(&self.items, f)
    }
}
