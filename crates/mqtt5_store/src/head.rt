//! The head of a stored session: 26 bytes.

ghost use Rattle.std.specs.Prelude.{◌≡◌, ◌++◌, List, ℕ, length, OnOk, Ok};
ghost use Rattle.mqtt5_store.specs.Answers.{Gives};
ghost use Rattle.mqtt5_store.specs.Format.{flag, head_at, head_bytes, head_for, head_of, is_set};

use crate::error::StoreError;
use bytes::{Buf, BufMut, Bytes, BytesMut};
use mqtt5_session::Numbers;
use std::alloc::AllocError;

/// How many bytes a head has.
const HEAD: usize = 26;

/// The first four bytes, `MQ5S`.
const MAGIC: u32 = 1_297_167_699;

/// The version of the format.
const VERSION: u16 = 1;

/// The numbers of a head, in the order of its bytes.
#[derive(Clone, Copy, Debug, PartialEq, Eq)]
pub(super) struct Head {
    pub(super) magic: u32,
    pub(super) version: u16,
    pub(super) limit: u16,
    pub(super) current: u16,
    pub(super) last: u16,
    pub(super) alias_max: u16,
    /// Not 0 where the user sends the acks.
    pub(super) manual_acks: u16,
    /// Not 0 where a publish waits, whose frame is then the first.
    pub(super) waits: u16,
    /// How many frames follow, beside that one.
    pub(super) count: u64,
}

impl Head {
    /// The session's numbers.
    pub(super) fn numbers(&self) -> Numbers
        ensures { result ≡ record {
          limit = self.now.limit;
          current = self.now.current;
          last = self.now.last;
          alias_max = self.now.alias_max;
          manual_acks = is_set self.now.manual_acks;
        } }
    {
        Numbers {
            limit: self.limit,
            current: self.current,
            last: self.last,
            alias_max: self.alias_max,
            manual_acks: is_set(self.manual_acks),
        }
    }

    /// Whether a publish waits.
    pub(super) fn is_waiting(&self) -> bool
        ensures { result ≡ is_set self.now.waits }
    {
        is_set(self.waits)
    }
}

/// Appends a head. Err where memory is refused.
pub(super) fn put_head(
    numbers: Numbers,
    waits: bool,
    count: u64,
    out: &mut BytesMut,
) -> Result<(), AllocError>
    ensures { OnOk result (out.new.items ≡ out.old.items ++ head_bytes numbers waits count) }
{
    out.put_u32(MAGIC)?;
    out.put_u16(VERSION)?;
    out.put_u16(numbers.limit)?;
    out.put_u16(numbers.current)?;
    out.put_u16(numbers.last)?;
    out.put_u16(numbers.alias_max)?;
    out.put_u16(flag(numbers.manual_acks))?;
    out.put_u16(flag(waits))?;
    out.put_u64(count)?;
    Ok(())
}

/// The bytes of a head are read as its numbers, whatever follows. A law: the body only looks at the numbers, which says
/// what their types do.
pub(super) fn head_known(numbers: Numbers, waits: bool, count: u64)
    ensures { (rest : List ℕ) → head_at (head_bytes numbers waits count ++ rest)
        ≡ Ok (head_for numbers waits count, rest) }
{
    let _limit = numbers.limit;
    let _current = numbers.current;
    let _last = numbers.last;
    let _alias_max = numbers.alias_max;
}

/// Takes the head at the front out. `Cut`, `Foreign` or `Version`.
#[tactic(auto, unfolding(crate::specs::Format::head_at))]
pub(super) fn read_head(stream: &mut BytesMut) -> Result<Head, StoreError>
    ensures { Gives (λ h. (h, stream.new.items)) result (head_at stream.old.items) }
{
    let there = stream.len();
    if there < HEAD {
        return Err(StoreError::Cut(HEAD - there));
    }
    let mut front = stream.freeze_to(HEAD)?;
    let head = head_of(&mut front);
    drop(front);
    if head.magic != MAGIC {
        return Err(StoreError::Foreign);
    }
    if head.version != VERSION {
        return Err(StoreError::Version(head.version));
    }
    Ok(head)
}

/// The numbers of a head.
fn head_of(bytes: &mut Bytes) -> Head
    requires { length bytes.old ≡ 26 }
    ensures { result ≡ head_of bytes.old }
{
    let magic = bytes.get_u32();
    let version = bytes.get_u16();
    let limit = bytes.get_u16();
    let current = bytes.get_u16();
    let last = bytes.get_u16();
    let alias_max = bytes.get_u16();
    let manual_acks = bytes.get_u16();
    let waits = bytes.get_u16();
    let count = bytes.get_u64();
    Head {
        magic,
        version,
        limit,
        current,
        last,
        alias_max,
        manual_acks,
        waits,
        count,
    }
}

/// A flag as a number.
fn flag(set: bool) -> u16
    ensures { result ≡ flag set }
{
    if set { 1 } else { 0 }
}

/// Whether a flag is set.
fn is_set(flag: u16) -> bool
    ensures { result ≡ is_set flag }
{
    flag != 0
}
