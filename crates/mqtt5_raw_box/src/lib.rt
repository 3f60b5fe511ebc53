//! A box taken apart: its pointer and its allocator, where a box itself cannot stand.
#![tactic(auto)]

ghost use Rattle.std.specs.Prelude.{◌≡◌};
ghost use Rattle.std_alloc.specs.Box.Ownership.{box_owns};

use std::alloc::Allocator;
use std::marker::Model;

#[cfg(test)]
mod tests;

/// The pointer of a box, and the allocator that the box was made by. It owns what the box owned: only
/// [`RawBox::into_box`] lets it go again.
pub struct RawBox<T, A: Allocator> {
    /// Where the value lies. Never null.
    pub pointer: *mut T,
    /// The allocator that frees it.
    pub alloc: A,
    /// The value that lies there.
    pub ghost value: { T },
}

impl<T, A: Allocator> Model for RawBox<T, A> {
    ghost also_owns = { λ u. box_owns (A.dealloc_token u.alloc) T.row u.pointer u.value };
}

impl<T: Drop, A: Allocator> RawBox<T, A> {
    /// Takes a box apart.
    pub fn of(value: Box<T, A>) -> RawBox<T, A>
        ensures { result.value ≡ value.value }
    {
        let (pointer, alloc) = Box::into_raw_with_allocator(value);
        RawBox { pointer, alloc }
    }

    /// Puts the box together again.
    pub fn into_box(self) -> Box<T, A>
        ensures { result.value ≡ self.value }
    {
        let RawBox { pointer, alloc } = self;
        unsafe { Box::from_raw(alloc, pointer) }
    }
}
