//! What the packets share that are an identifier, properties and a list.

ghost use Rattle.std.specs.Prelude.{◌≡◌, ◌+◌, [], ◌∷◌, Ok, true, cond, Some, None, map, option_map, drop, length, min, IfOk};
ghost use Rattle.mqtt5_base.specs.Grammar.{more};
ghost use Rattle.mqtt5_base.specs.Answers.{Gives};
ghost use Rattle.mqtt5_base.specs.Reading.{values_in};
ghost use Rattle.mqtt5_base.specs.Puts.{Writes};
ghost use Rattle.mqtt5_base.specs.Layout.{content_of_packet, frame_of, writing};
ghost use Rattle.mqtt5_subscribe.specs.Rows.{listed_row};
ghost use Rattle.mqtt5_subscribe.specs.Lists.{listed_packet};
ghost use Rattle.mqtt5_subscribe.specs.ListBody.{list_body, list_body_fits};

use crate::listed::{Listed, list_len, put_list, read_list, writable_list_len};
use bytes::{Bytes, BytesMut};
use mqtt5_base::{
    Error, FieldValue, FixedHeader, PropertySet, Sequence, block_fits, block_len, frame_size,
    put_block, read_block, read_u16, start_frame,
};
use std::alloc::Global;

/// The identifier, the properties and the items of a packet that has one item at least; of none that fault.
pub(crate) fn read_some<P: PropertySet, T: Listed>(
    alloc: Global,
    header: FixedHeader,
    bytes: Bytes,
    lack: Error,
) -> Result<(u16, Option<P>, Sequence<T>), Error>
    requires { length bytes ≡ header.fixed_header_len + header.remaining_len }
    ensures read { Gives
        (λ a. content_of_packet (listed_packet 0 a.0 (option_map P.found a.1) (map T.written a.2)))
        result
        (values_in (listed_row P.table (more lack ∷ []) T.first T.others) header.byte1
        header.remaining_len (drop header.fixed_header_len bytes)) }
    ensures known { IfOk result (λ a. map T.settled a.2 ≡ a.2) }
{
    let mut stream = bytes;
    stream.advance(header.fixed_header_len);
    let pkid = read_u16(&mut stream)?;
    let properties = read_block(alloc, &mut stream)?;
    if stream.is_empty() {
        return Err(lack);
    }
    let items = read_list(alloc, stream)?;
    Ok((pkid, properties, items))
}

fn body_len<P: PropertySet, T: Listed>(properties: &Option<P>, items: &Sequence<T>) -> usize
    ensures { result
        ≡ min
        (length (list_body P.table T.first T.others 0 (option_map P.found properties.now)
        (map T.written items.now))) usize.MAX }
{
    block_len(properties)
        .saturating_add(list_len(items))
        .saturating_add(2)
}

/// The length of the body, where the properties, the items and that length can be written.
pub(crate) fn writable_len<P: PropertySet, T: Listed>(
    properties: &Option<P>,
    items: &Sequence<T>,
) -> Option<usize>
    ensures { result
        ≡ cond (list_body_fits P.table T.first T.others (option_map P.found properties.now)
        (map T.written items.now)) (Some
        (length (list_body P.table T.first T.others 0 (option_map P.found properties.now)
        (map T.written items.now)))) None }
{
    let items_len = writable_list_len(items)?;
    let len = block_len(properties)
        .saturating_add(items_len)
        .saturating_add(2);
    if block_fits(properties) && len.fits() {
        Some(len)
    } else {
        None
    }
}

/// How many bytes the packet takes, or the greatest `usize` where they are more.
pub(crate) fn listed_size<P: PropertySet, T: Listed>(
    properties: &Option<P>,
    items: &Sequence<T>,
) -> usize
    ensures { result
        ≡ min
        (length
        (frame_of 0 (list_body P.table T.first T.others 0 (option_map P.found properties.now)
        (map T.written items.now)))) usize.MAX }
{
    frame_size(body_len(properties, items))
}

/// Appends the packet, whose body has so many bytes, and answers its length. E21; then the buffer is unchanged.
pub(crate) fn write_listed<P: PropertySet, T: Listed>(
    first: u8,
    pkid: u16,
    properties: &Option<P>,
    items: &Sequence<T>,
    body_len: usize,
    out: &mut BytesMut,
) -> Result<usize, Error>
    requires len { body_len
        ≡ length (list_body P.table T.first T.others 0 (option_map P.found properties.now)
        (map T.written items.now)) }
    requires fits { list_body_fits P.table T.first T.others (option_map P.found properties.now)
        (map T.written items.now) ≡ true }
    ensures { Writes length
        (Ok
        (frame_of first (list_body P.table T.first T.others pkid (option_map P.found properties.now)
        (map T.written items.now)))) result out.old.items out.new.items }
{
    let size = start_frame(first, body_len, out)?;
    pkid.put_field(out);
    put_block(properties, out);
    put_list(items, out);
    Ok(size)
}

/// The same of a packet that has one item at least, where it can be written; of none that error.
pub(crate) fn write_some<P: PropertySet, T: Listed>(
    first: u8,
    pkid: u16,
    properties: &Option<P>,
    items: &Sequence<T>,
    lack: Error,
    out: &mut BytesMut,
) -> Result<usize, Error>
    ensures { Writes length (writing (listed_row P.table (more lack ∷ []) T.first T.others)
        (listed_packet first pkid (option_map P.found properties.now)
        (map T.written items.now))) result out.old.items out.new.items }
{
    let Some(len) = writable_len(properties, items) else {
        return Err(Error::PayloadTooLong);
    };
    if items.is_empty() {
        return Err(lack);
    }
    write_listed(first, pkid, properties, items, len, out)
}
