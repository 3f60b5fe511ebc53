//! Lists that go on to the end of their packet.

ghost use Rattle.std.specs.Prelude.{◌≡◌, ◌≤◌, List, [], Some, None, cond, map, true, length, min, IfOk};
ghost use Rattle.mqtt5_base.specs.Grammar.{Field, Step};
ghost use Rattle.mqtt5_base.specs.Fields.{repeated};
ghost use Rattle.mqtt5_base.specs.Answers.{Gives};
ghost use Rattle.mqtt5_base.specs.Reading.{kept_at, repeated_within};
ghost use Rattle.mqtt5_base.specs.Puts.{Puts};
ghost use Rattle.mqtt5_base.specs.Layout.{Written, all_kept, written_bytes, written_fits, listed_bytes, listed_fit};

use bytes::{Bytes, BytesMut};
use mqtt5_base::{Error, Sequence};
use std::alloc::Global;

/// An item of such a list.
pub trait Listed: Drop {
    /// The field that an item begins with.
    ghost first: { Field };

    /// The steps behind it.
    ghost others: { List Step };

    /// The item's values as they are written.
    ghost written: { Self → Written };

    /// The item as it is read again.
    ghost settled: { Self → Self };

    /// Takes an item from the front. The fault of its first field that can't be read; E21. Of the stream
    /// nothing is said then.
    fn read_item(alloc: Global, stream: &mut Bytes) -> Result<Self, Error>
        ensures read { Gives (λ item. ((written item).kept, stream.new)) result
            (kept_at (repeated first others) 0 stream.old) }
        ensures known { IfOk result (λ item. settled item ≡ item) };

    /// Whether it can be written.
    fn item_fits(&self) -> bool
        ensures { result ≡ written_fits (repeated first others) (written self.now) };

    /// How many bytes it takes, or the greatest `usize` where they are more.
    fn item_len(&self) -> usize
        ensures { result ≡ min (length (written_bytes (repeated first others) 0 (written self.now)))
            usize.MAX };

    /// Appends it.
    fn put_item(&self, out: &mut BytesMut)
        requires fits { written_fits (repeated first others) (written self.now) ≡ true }
        requires room { length (written_bytes (repeated first others) 0 (written self.now))
            ≤ out.old.spare }
        ensures { Puts out.old out.new
            (written_bytes (repeated first others) 0 (written self.now)) };
}

/// The items to the end of the bytes. The fault of the first that can't be read; E21.
pub(crate) fn read_list<T: Listed>(alloc: Global, mut stream: Bytes) -> Result<Sequence<T>, Error>
    ensures read { Gives (λ items. all_kept (map T.written items)) result
        (repeated_within (length stream) (repeated T.first T.others) [] stream) }
    ensures known { IfOk result (λ items. map T.settled items ≡ items) }
{
    let mut items = Sequence::new(alloc);
    while !stream.is_empty() {
        let item = T::read_item(alloc, &mut stream)?;
        items.push(item)?;
    }
    Ok(items)
}

/// How many bytes the items take, or the greatest `usize` where they are more; None where one can't be written.
pub(crate) fn writable_list_len<T: Listed>(items: &Sequence<T>) -> Option<usize>
    ensures { result ≡ cond (listed_fit (repeated T.first T.others) (map T.written items.now))
        (Some
        (min (length (listed_bytes (repeated T.first T.others) (map T.written items.now)))
        usize.MAX)) None }
{
    let mut len: usize = 0;
    for item in items.as_slice() {
        if !item.item_fits() {
            return None;
        }
        len = len.saturating_add(item.item_len());
    }
    Some(len)
}

/// How many bytes the items take, or the greatest `usize` where they are more.
pub(crate) fn list_len<T: Listed>(items: &Sequence<T>) -> usize
    ensures { result
        ≡ min (length (listed_bytes (repeated T.first T.others) (map T.written items.now)))
        usize.MAX }
{
    let mut len: usize = 0;
    for item in items.as_slice() {
        len = len.saturating_add(item.item_len());
    }
    len
}

/// Appends the items.
pub(crate) fn put_list<T: Listed>(items: &Sequence<T>, out: &mut BytesMut)
    requires fits { listed_fit (repeated T.first T.others) (map T.written items.now) ≡ true }
    requires room { length (listed_bytes (repeated T.first T.others) (map T.written items.now))
        ≤ out.old.spare }
    ensures { Puts out.old out.new
        (listed_bytes (repeated T.first T.others) (map T.written items.now)) }
{
    for item in items.as_slice() {
        item.put_item(out);
    }
}
