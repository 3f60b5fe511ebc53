//! What PubAck, PubRec, PubRel and PubComp share.

ghost use Rattle.std.specs.Prelude.{◌≡◌, ℕ, ◌+◌, ◌≤◌, true, drop, length, min, option_map};
ghost use Rattle.mqtt5_base.specs.Grammar.{Test, number, passes, content_of, Content};
ghost use Rattle.mqtt5_base.specs.Answers.{Finds, Gives};
ghost use Rattle.mqtt5_base.specs.Reading.{judged, values_in};
ghost use Rattle.mqtt5_base.specs.Puts.{Puts, Writes};
ghost use Rattle.mqtt5_base.specs.Layout.{block_fits, layout, writing, content_of_packet};
ghost use Rattle.mqtt5_publish.specs.Rows.{ack_row};
ghost use Rattle.mqtt5_publish.specs.Acks.{ack_packet};
ghost use Rattle.mqtt5_publish.specs.AckBody.{ack_is_short, ack_body};

use bytes::{Bytes, BytesMut};
use mqtt5_base::{
    Error, FieldValue, FixedHeader, PropertySet, block_fits, block_len, frame_size, put_block,
    read_block, read_u8, read_u16, start_frame,
};
use std::alloc::Global;

/// A reason of an ack.
pub trait Reason: Copy {
    /// The codes that the ack has.
    ghost codes: { Test };

    /// The reason's code.
    ghost code: { Self → ℕ };

    /// Each reason's code is one of them.
    ghost known: { (r : Self) → passes codes (number (code r)) ≡ true };

    /// The reason of a code; E1 with the code of one that the ack doesn't have.
    fn of(num: u8) -> Result<Self, Error>
        ensures { Finds (λ r. number (code r)) result
            (judged codes Error.InvalidConnectReturnCode (number num)) };

    /// The code.
    fn code(self) -> u8
        ensures { result ≡ code self };

    /// The reason with code 0.
    fn success() -> Self
        ensures { code result ≡ 0 };
}

/// The identifier, reason and properties of an ack.
#[inline(always)]
pub(crate) fn read_ack<R: Reason, P: PropertySet>(
    alloc: Global,
    header: FixedHeader,
    bytes: Bytes,
) -> Result<(u16, R, Option<P>), Error>
    requires { length bytes ≡ header.fixed_header_len + header.remaining_len }
    ensures { Gives
        (λ a. content_of_packet (ack_packet 0 a.0 (R.code a.1) (option_map P.found a.2))) result
        (values_in (ack_row R.codes P.table) header.byte1 header.remaining_len
        (drop header.fixed_header_len bytes)) }
{
    let mut stream = bytes;
    stream.advance(header.fixed_header_len);
    let pkid = read_u16(&mut stream)?;
    if header.remaining_len <= 2 {
        return Ok((pkid, R::success(), None));
    }
    let code = read_u8(&mut stream)?;
    if header.remaining_len <= 3 {
        return Ok((pkid, R::of(code)?, None));
    }
    let properties = read_block(alloc, &mut stream)?;
    Ok((pkid, R::of(code)?, properties))
}

/// Whether an ack is written without reason and properties.
fn is_short<R: Reason, P: PropertySet>(reason: R, properties: &Option<P>) -> bool
    ensures { result ≡ ack_is_short (R.code reason) (option_map P.found properties.now) }
{
    reason.code() == 0 && properties.is_none()
}

fn body_len<R: Reason, P: PropertySet>(reason: R, properties: &Option<P>) -> usize
    ensures { result
        ≡ min (length (ack_body P.table 0 (R.code reason) (option_map P.found properties.now)))
        usize.MAX }
{
    if is_short(reason, properties) {
        2
    } else {
        block_len(properties).saturating_add(3)
    }
}

fn put_body<R: Reason, P: PropertySet>(
    pkid: u16,
    reason: R,
    properties: &Option<P>,
    out: &mut BytesMut,
)
    requires fits { block_fits P.table (option_map P.found properties.now) ≡ true }
    requires room { length (ack_body P.table pkid (R.code reason)
        (option_map P.found properties.now)) ≤ out.old.spare }
    ensures { Puts out.old out.new
        (ack_body P.table pkid (R.code reason) (option_map P.found properties.now)) }
{
    pkid.put_field(out);
    if !is_short(reason, properties) {
        reason.code().put_field(out);
        put_block(properties, out);
    }
}

/// How many bytes an ack takes, or the greatest `usize` where they are more.
pub(crate) fn ack_size<R: Reason, P: PropertySet>(reason: R, properties: &Option<P>) -> usize
    ensures { (first id : ℕ)
        → result
        ≡ min
        (length
        (layout (ack_row R.codes P.table)
        (ack_packet first id (R.code reason) (option_map P.found properties.now)))) usize.MAX }
{
    frame_size(body_len(reason, properties))
}

/// Appends an ack and answers its length. E11, E21; then the buffer is unchanged.
#[inline(always)]
pub(crate) fn write_ack<R: Reason, P: PropertySet>(
    first: u8,
    pkid: u16,
    reason: R,
    properties: &Option<P>,
    out: &mut BytesMut,
) -> Result<usize, Error>
    ensures { Writes length
        (writing (ack_row R.codes P.table)
        (ack_packet first pkid (R.code reason)
        (option_map P.found properties.now))) result out.old.items out.new.items }
{
    if !block_fits(properties) {
        return Err(Error::PayloadTooLong);
    }
    let len = body_len(reason, properties);
    if !len.fits() {
        return Err(Error::PayloadTooLong);
    }
    let size = start_frame(first, len, out)?;
    put_body(pkid, reason, properties, out);
    Ok(size)
}
