//! Numbers that a seed stands for.

ghost use Rattle.std.specs.Prelude.{◌<◌};

use rand_core::{Rng, SeedableRng};
use rand_xoshiro::SplitMix64;

/// A list of numbers without end that a seed stands for.
#[derive(Drop)]
pub struct Random {
    words: SplitMix64,
}

impl Random {
    pub fn new(seed: u64) -> Random {
        Random {
            words: SplitMix64::seed_from_u64(seed),
        }
    }

    /// The next number, below `count`.
    pub(crate) fn below(&mut self, count: usize) -> usize
        requires { 0 < count }
        ensures { result < count }
    {
        self.words.next_u64() as usize % count
    }

    /// The next number, below 65,536.
    pub fn short(&mut self) -> u16 {
        (self.words.next_u64() & 0xFFFF) as u16
    }

    /// Whether the next number is one of `few` in `many`.
    pub(crate) fn chance(&mut self, few: usize, many: usize) -> bool
        requires { 0 < many }
    {
        self.below(many) < few
    }
}
