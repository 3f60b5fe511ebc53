//! Fields at the front of bytes. A reader answers the field's value and leaves the bytes after it.
//! After a refusal the bytes are unchanged.

ghost use Rattle.std.specs.Prelude.{◌≡◌, ◌≢◌, ◌+◌, ◌*◌, ◌^◌, ◌<◌, ◌≤◌, ℕ, take, drop, length, OnErr, IfOk, IfErr, IsOk, IsErrOf};
ghost use Rattle.std.specs.Int.{w8, w16, w32};
ghost use Rattle.mqtt5_base.specs.declared.error.Error.TheVariants.{OutOfMemory};
ghost use Rattle.mqtt5_base.specs.Answers.{Finds, Gives};
ghost use Rattle.mqtt5_base.specs.Reading.{number_at, bytes_at, text_at, var_int_at};
ghost use Rattle.mqtt5_base.specs.Lengths.{length_at};
ghost use Rattle.mqtt5_base.specs.Lengths.{Lengths};

use crate::error::Error;
use crate::text::Text;
use bytes::{Buf, Bytes};
use std::alloc::Global;

/// A one byte integer. E16 where there is no byte, and nothing is taken.
pub fn read_u8(stream: &mut Bytes) -> Result<u8, Error>
    ensures read { Finds (λ n. (n, stream.new)) result (number_at w8 stream.old) }
    ensures kept { OnErr result (stream.new ≡ stream.old) }
{
    if stream.len() < 1 {
        return Err(Error::MalformedPacket);
    }
    Ok(stream.get_u8())
}

/// A two byte integer, the high byte first. E16 where it is cut short, and nothing is taken.
pub fn read_u16(stream: &mut Bytes) -> Result<u16, Error>
    ensures read { Finds (λ n. (n, stream.new)) result (number_at w16 stream.old) }
    ensures kept { OnErr result (stream.new ≡ stream.old) }
{
    if stream.len() < 2 {
        return Err(Error::MalformedPacket);
    }
    Ok(stream.get_u16())
}

/// A four byte integer, the high byte first. E16 where it is cut short, and nothing is taken.
pub fn read_u32(stream: &mut Bytes) -> Result<u32, Error>
    ensures read { Finds (λ n. (n, stream.new)) result (number_at w32 stream.old) }
    ensures kept { OnErr result (stream.new ≡ stream.old) }
{
    if stream.len() < 4 {
        return Err(Error::MalformedPacket);
    }
    Ok(stream.get_u32())
}

/// The bytes behind the two byte length at the front.
#[tactic(auto, unfolding(crate::specs::Reading::bytes_at))]
fn front_slice(stream: &[u8]) -> Result<&[u8], Error>
    ensures read { Gives (λ b. (b.now, drop (2 + length b.now) stream.now)) result
        (bytes_at stream.now) }
    ensures place { IfOk result (λ b. b.now ≡ take (length b.now) (drop 2 stream.now)) }
    ensures within { IfOk result (λ b. 2 + length b.now ≤ length stream.now) }
    ensures fault { IfErr result (λ e. e ≢ OutOfMemory) }
{
    match stream {
        [high, low, rest @ ..] => {
            let len = usize::from(u16::from_be_bytes([*high, *low]));
            if rest.len() < len {
                return Err(Error::BoundaryCrossed(len));
            }
            Ok(&rest[..len])
        }
        _ => Err(Error::MalformedPacket),
    }
}

/// A two byte length and that many bytes, cut from the stream. E16 where the length is cut short,
/// E15 with the length where fewer bytes are there, E21 only where all are. After a refusal the bytes
/// are unchanged.
pub fn read_bytes(stream: &mut Bytes) -> Result<Bytes, Error>
    ensures read { Gives (λ b. (b, stream.new)) result (bytes_at stream.old) }
    ensures kept { OnErr result (stream.new ≡ stream.old) }
    ensures memory { IsErrOf result OutOfMemory → IsOk (bytes_at stream.old) }
{
    let len = front_slice(stream.as_slice())?.len();
    let mut content = stream.clone()?;
    content.advance(2);
    content.truncate(len);
    stream.advance(2 + len);
    Ok(content)
}

/// A text: a two byte length and that many bytes. E16 where the length is cut short, E15 with the
/// length where fewer bytes are there, E14 where they aren't UTF-8, E21 only where a text is there.
/// After a refusal the bytes are unchanged.
#[tactic(auto, using(crate::proofs::Utf8Lemmas::utf8), unfolding(crate::specs::Reading::text_at))]
pub fn read_text(alloc: Global, stream: &mut Bytes) -> Result<Text, Error>
    ensures read { Gives (λ t. (t.bytes, stream.new)) result (text_at stream.old) }
    ensures kept { OnErr result (stream.new ≡ stream.old) }
    ensures memory { IsErrOf result OutOfMemory → IsOk (text_at stream.old) }
{
    let content = front_slice(stream.as_slice())?;
    let len = content.len();
    let Ok(text) = std::str::from_utf8(content) else {
        return Err(Error::TopicNotUtf8);
    };
    let text = Text::from(String::from_str(alloc, text)?);
    stream.advance(2 + len);
    Ok(text)
}

/// The variable byte integer at the front, in at most so many bytes: the count of its bytes, and its
/// value. E19 where it isn't finished, E17 where each of so many bytes says that another follows. Most have one byte or two.
#[inline(always)]
#[tactic(auto, using(crate::proofs::Powers::power), unfolding(crate::specs::Lengths::length_at))]
pub(crate) fn varint_in(bytes: &[u8], most: u8) -> Result<(usize, usize), Error>
    requires { most ≤ 4 }
    ensures value { Lengths result (length_at most bytes.now) }
    ensures count { IfOk result (λ r. r.0 ≤ most) }
    ensures within { IfOk result (λ r. r.0 ≤ length bytes.now) }
    ensures bound { IfOk result (λ r. r.1 < 128 ^ most) }
{
    match bytes {
        [a, ..] if most > 0 && *a < 128 => Ok((1, *a as usize)),
        [a, b, ..] if most > 1 && *a >= 128 && *b < 128 => {
            Ok((2, (*a % 128) as usize + 128 * *b as usize))
        }
        _ => long_varint_in(bytes, most),
    }
}

/// The same, a byte after the other.
#[inline(never)]
#[tactic(auto, using(crate::proofs::Powers::power), unfolding(crate::specs::Lengths::length_at))]
fn long_varint_in(bytes: &[u8], most: u8) -> Result<(usize, usize), Error>
    requires { most ≤ 4 }
    ensures value { Lengths result (length_at most bytes.now) }
    ensures count { IfOk result (λ r. r.0 ≤ most) }
    ensures within { IfOk result (λ r. r.0 ≤ length bytes.now) }
    ensures bound { IfOk result (λ r. r.1 < 128 ^ most) }
{
    if most == 0 {
        return Err(Error::MalformedRemainingLength);
    }
    match bytes {
        [] => Err(Error::InsufficientBytes(1)),
        [b, rest @ ..] => {
            if *b < 128 {
                Ok((1, *b as usize))
            } else {
                let (count, n) = long_varint_in(rest, most - 1)?;
                Ok((count + 1, (*b % 128) as usize + 128 * n))
            }
        }
    }
}

/// A variable byte integer of one to four bytes, also where fewer would do. E16 where it is cut short,
/// E17 where its fourth byte says that another follows. After a refusal the bytes are unchanged.
#[tactic(auto, unfolding(crate::specs::Reading::var_int_at))]
pub fn read_varint(stream: &mut Bytes) -> Result<usize, Error>
    ensures read { Finds (λ n. (n, stream.new)) result (var_int_at stream.old) }
    ensures kept { OnErr result (stream.new ≡ stream.old) }
{
    let (count, n) = front_varint(stream.as_slice())?;
    stream.advance(count);
    Ok(n)
}

/// The variable byte integer at the front: the count of its bytes, and its value.
#[tactic(auto, unfolding(crate::specs::Reading::var_int_at))]
pub(crate) fn front_varint(stream: &[u8]) -> Result<(usize, usize), Error>
    ensures read { Finds (λ r. (r.1, drop r.0 stream.now)) result (var_int_at stream.now) }
    ensures within { IfOk result (λ r. r.0 ≤ length stream.now) }
{
    match varint_in(stream, 4) {
        Ok(found) => Ok(found),
        Err(Error::InsufficientBytes(_)) => Err(Error::MalformedPacket),
        Err(_unfinished) => Err(Error::MalformedRemainingLength),
    }
}
