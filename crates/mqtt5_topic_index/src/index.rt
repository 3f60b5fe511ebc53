//! The numbers, by the marks of filters.

ghost use Rattle.std.specs.Prelude.{◌≡◌, ℕ, [], ◌∷◌, ◌==◌, IfOk, OnOk, OnErr, if◌then◌else◌};
ghost use Rattle.mqtt5_topic_index.specs.Marks.{mixed};
ghost use Rattle.mqtt5_topic_index.specs.Index.{entry, Stands, Finds};
ghost use Rattle.mqtt5_topic_index.specs.Gathering.{number_in, Gathers, Keeps};

use crate::marks::{mixed, reach};
use std::alloc::{AllocError, Global};
use std::collections::BTreeSet;

/// Numbers that stand under topic filters: a set of pairs of a filter's mark and a number.
#[derive(Debug, Drop)]
pub struct TopicIndex {
    entries: BTreeSet<u128>,
}

impl TopicIndex {
    /// No number stands under any filter. Takes no memory.
    pub fn new(alloc: Global) -> TopicIndex
        ensures { (m n : ℕ) → Stands result m n → ⊥ }
    {
        TopicIndex {
            entries: BTreeSet::new(alloc),
        }
    }

    /// Puts a number under the filters of a mark. Err where memory is refused, and all is as it was.
    pub fn insert(&mut self, mark: u64, number: usize) -> Result<(), AllocError>
        ensures there { OnOk result (Stands self.new mark number) }
        ensures others { (m n : ℕ) → Stands self.old m n → Stands self.new m n }
        ensures only { (m n : ℕ) → (m ≡ mark → n ≡ number → ⊥)
            → Stands self.new m n → Stands self.old m n }
        ensures left { OnErr result (self.new ≡ self.old) }
    {
        self.entries.insert(entry(mark, number))?;
        Ok(())
    }

    /// Takes a number from the filters of a mark, if it stands there. Takes no memory.
    pub fn remove(&mut self, mark: u64, number: usize)
        ensures gone { Stands self.new mark number → ⊥ }
        ensures others { (m n : ℕ) → (m ≡ mark → n ≡ number → ⊥)
            → Stands self.old m n → Stands self.new m n }
        ensures only { (m n : ℕ) → Stands self.new m n → Stands self.old m n }
    {
        self.entries.remove(&entry(mark, number));
    }

    /// What is found by a topic: each number that stands under the mark of a filter which it matches, and maybe others. At most 130
    /// marks are looked up. Err where memory is refused.
    pub fn find(&self, alloc: Global, topic: &[u8]) -> Result<BTreeSet<usize>, AllocError>
        ensures { IfOk result (Finds self.now topic.now) }
    {
        let mut found = BTreeSet::new(alloc);
        let mut mark = 0;
        gather(&self.entries, mark, &mut found)?;
        for i in 0..reach() {
            if i >= topic.len() {
                gather(&self.entries, mixed(mark, b'/'), &mut found)?;
                return Ok(found);
            }
            mark = step(&self.entries, mark, topic[i], &mut found)?;
        }
        Ok(found)
    }
}

/// Puts the numbers that stand under a mark into a set.
fn gather(
    entries: &BTreeSet<u128>,
    mark: u64,
    found: &mut BTreeSet<usize>,
) -> Result<(), AllocError>
    ensures kept { OnOk result (Keeps found.old found.new) }
    ensures all { OnOk result (Gathers entries.now (mark ∷ []) found.new) }
{
    for one in entries.range(entry(mark, 0)..=entry(mark, usize::MAX)) {
        found.insert(number_in(*one))?;
    }
    Ok(())
}

/// The mark of a topic with one byte more, and the numbers under it, where a level ends there.
fn step(
    entries: &BTreeSet<u128>,
    mark: u64,
    byte: u8,
    found: &mut BTreeSet<usize>,
) -> Result<u64, AllocError>
    ensures mark { IfOk result (λ m. m ≡ mixed mark byte) }
    ensures kept { OnOk result (Keeps found.old found.new) }
    ensures all { OnOk result
        (Gathers entries.now (if byte == 47 then mixed mark byte ∷ [] else []) found.new) }
{
    let mark = mixed(mark, byte);
    if byte == b'/' {
        gather(entries, mark, found)?;
    }
    Ok(mark)
}

/// A mark and a number in one.
fn entry(mark: u64, number: usize) -> u128
    ensures { result ≡ entry mark number }
{
    mark as u128 * 0x1_0000_0000_0000_0000 + number as u128
}

/// The number in one.
fn number_in(entry: u128) -> usize
    ensures { result ≡ number_in entry }
{
    (entry % 0x1_0000_0000_0000_0000) as usize
}
