//! The start of a frame: its first byte and its remaining length.

ghost use Rattle.std.specs.Prelude.{◌≡◌, ℕ, ◌<◌, List, length, min};
ghost use Rattle.mqtt5_base.specs.Puts.{Starts};
ghost use Rattle.mqtt5_base.specs.Layout.{frame_of};

use crate::error::Error;
use crate::value::{FieldValue, varint_len};
use bytes::BytesMut;

/// How many bytes a frame has whose body has so many, or the greatest `usize` where they are more.
#[tactic(auto, using(crate::proofs::Saturated::lengths))]
pub fn frame_size(body_len: usize) -> usize
    ensures { (first : ℕ) (body : List ℕ) → body_len ≡ min (length body) usize.MAX
        → result ≡ min (length (frame_of first body)) usize.MAX }
{
    body_len
        .saturating_add(varint_len(body_len))
        .saturating_add(1)
}

/// Makes room for a frame and appends its first byte and its remaining length, at most 268,435,455;
/// answers the length of the whole frame. E21; then the bytes are unchanged.
pub fn start_frame(first: u8, body_len: usize, out: &mut BytesMut) -> Result<usize, Error>
    requires { body_len < 268435456 }
    ensures { Starts first body_len result out.old out.new }
{
    let size = 1 + varint_len(body_len) + body_len;
    out.reserve(size)?;
    first.put_field(out);
    body_len.put_field(out);
    Ok(size)
}
