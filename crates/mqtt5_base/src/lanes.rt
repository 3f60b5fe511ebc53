//! The first bytes of a topic or a filter, compared together, as many as a vector holds.

ghost use Rattle.std.specs.Prelude.{◌≡◌, ◌<◌, ◌≤◌, ◌==◌, if◌then◌else◌, length, None, Some, IfSome, MatchOption};
ghost use Rattle.std.specs.Int.{trailing_zeros, w64};
ghost use Rattle.mqtt5_base.specs.Walk.{common_len, level_len, plain_len};

use std::simd::prelude::*;

/// How many bytes a vector holds: each x86-64 processor compares as many at once.
pub(crate) const LANES: usize = 16;

/// How many bytes come before the first that is marked; None where none is.
fn first_marked(marks: u64) -> Option<usize>
    ensures { result ≡ (if marks == 0 then None else Some (trailing_zeros w64 marks)) }
{
    if marks == 0 {
        None
    } else {
        Some(marks.trailing_zeros() as usize)
    }
}

/// How many bytes at the start of both texts are equal and in the first level; None where the first `LANES` are.
pub(crate) fn common_end(topic: &[u8], filter: &[u8]) -> Option<usize>
    requires in_topic { LANES ≤ length topic.now }
    requires in_filter { LANES ≤ length filter.now }
    ensures value { MatchOption result
        (LANES ≤ common_len topic.now filter.now)
        (λ len. len ≡ common_len topic.now filter.now) }
    ensures near { IfSome result (λ len. len < LANES) }
{
    let bytes = u8x16::from_slice(topic);
    let ends = bytes.simd_ne(u8x16::from_slice(filter)) | bytes.simd_eq(u8x16::splat(b'/'));
    first_marked(ends.to_bitmask())
}

/// How many bytes of a text come before the first `/`; None where the first `LANES` do.
pub(crate) fn slash_end(text: &[u8]) -> Option<usize>
    requires { LANES ≤ length text.now }
    ensures value { MatchOption result
        (LANES ≤ level_len text.now)
        (λ len. len ≡ level_len text.now) }
    ensures near { IfSome result (λ len. len < LANES) }
{
    let slashes = u8x16::from_slice(text).simd_eq(u8x16::splat(b'/'));
    first_marked(slashes.to_bitmask())
}

/// How many bytes at the start of a text are neither `/` nor a wildcard; None where the first `LANES` are.
pub(crate) fn plain_end(text: &[u8]) -> Option<usize>
    requires { LANES ≤ length text.now }
    ensures value { MatchOption result
        (LANES ≤ plain_len text.now)
        (λ len. len ≡ plain_len text.now) }
    ensures near { IfSome result (λ len. len < LANES) }
{
    let bytes = u8x16::from_slice(text);
    let ends = bytes.simd_eq(u8x16::splat(b'/'))
        | bytes.simd_eq(u8x16::splat(b'+'))
        | bytes.simd_eq(u8x16::splat(b'#'));
    first_marked(ends.to_bitmask())
}
