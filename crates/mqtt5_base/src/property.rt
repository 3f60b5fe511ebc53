//! Properties, the sets of them that packets have, and the blocks that they stand in.

ghost use Rattle.std.specs.Prelude.{◌≡◌, ◌≤◌, Some, List, drop, length, OnOk, OnErr, IfOk, option_map, true, min};
ghost use Rattle.mqtt5_base.specs.Grammar.{Entry, Found, allows};
ghost use Rattle.mqtt5_base.specs.Answers.{Gives, ReadsBlock};
ghost use Rattle.mqtt5_base.specs.Reading.{none_of, with_item, property_at, item_at, items_within, block_at};
ghost use Rattle.mqtt5_base.specs.Items.{item_of};
ghost use Rattle.mqtt5_base.specs.Sets.{IsSetOf, IsBlockOf};
ghost use Rattle.mqtt5_base.specs.Puts.{Puts, Writes};
ghost use Rattle.mqtt5_base.specs.Layout.{items_bytes, items_fit, block_bytes, block_fits, block_writing};

use crate::error::Error;
use crate::fields::{
    front_varint, read_bytes, read_text, read_u8, read_u16, read_u32, read_varint,
};
use crate::text::Text;
use crate::value::{FieldValue, varint_len};
use bytes::{Bytes, BytesMut};
use std::alloc::{AllocError, Global};

/// A property of a block, with its value (MQTT 5.0 section 2.2.2.2). Each says its identifier, and what
/// its value is or counts. No number is judged.
#[derive(Debug, Drop)]
pub enum Property {
    /// 1: 0 where the payload is bytes, 1 where it is UTF-8.
    PayloadFormatIndicator(u8),
    /// 2: seconds.
    MessageExpiryInterval(u32),
    /// 3.
    ContentType(Text),
    /// 8: a topic.
    ResponseTopic(Text),
    /// 9.
    CorrelationData(Bytes),
    /// 11: written up to 268,435,455.
    SubscriptionIdentifier(usize),
    /// 17: seconds.
    SessionExpiryInterval(u32),
    /// 18.
    AssignedClientIdentifier(Text),
    /// 19: seconds.
    ServerKeepAlive(u16),
    /// 21.
    AuthenticationMethod(Text),
    /// 22.
    AuthenticationData(Bytes),
    /// 23: 0 or 1.
    RequestProblemInformation(u8),
    /// 24: seconds.
    WillDelayInterval(u32),
    /// 25: 0 or 1.
    RequestResponseInformation(u8),
    /// 26.
    ResponseInformation(Text),
    /// 28.
    ServerReference(Text),
    /// 31.
    ReasonString(Text),
    /// 33: publishes of QoS 1 and 2.
    ReceiveMaximum(u16),
    /// 34: the greatest alias.
    TopicAliasMaximum(u16),
    /// 35.
    TopicAlias(u16),
    /// 36: 0 or 1.
    MaximumQos(u8),
    /// 37: 0 or 1.
    RetainAvailable(u8),
    /// 38: a name and a value.
    UserProperty(Text, Text),
    /// 39: bytes.
    MaximumPacketSize(u32),
    /// 40: 0 or 1.
    WildcardSubscriptionAvailable(u8),
    /// 41: 0 or 1.
    SubscriptionIdentifierAvailable(u8),
    /// 42: 0 or 1.
    SharedSubscriptionAvailable(u8),
}

#[tactic(auto, unfolding(crate::specs::Reading::property_at))]
fn read_property(alloc: Global, id: u8, block: &mut Bytes) -> Result<Property, Error>
    ensures read { Gives (λ p. ((item_of p).1, block.new)) result (property_at id block.old) }
    ensures id { IfOk result (λ p. (item_of p).0 ≡ id) }
{
    Ok(match id {
        1 => Property::PayloadFormatIndicator(read_u8(block)?),
        2 => Property::MessageExpiryInterval(read_u32(block)?),
        3 => Property::ContentType(read_text(alloc, block)?),
        8 => Property::ResponseTopic(read_text(alloc, block)?),
        9 => Property::CorrelationData(read_bytes(block)?),
        11 => Property::SubscriptionIdentifier(read_varint(block)?),
        17 => Property::SessionExpiryInterval(read_u32(block)?),
        18 => Property::AssignedClientIdentifier(read_text(alloc, block)?),
        19 => Property::ServerKeepAlive(read_u16(block)?),
        21 => Property::AuthenticationMethod(read_text(alloc, block)?),
        22 => Property::AuthenticationData(read_bytes(block)?),
        23 => Property::RequestProblemInformation(read_u8(block)?),
        24 => Property::WillDelayInterval(read_u32(block)?),
        25 => Property::RequestResponseInformation(read_u8(block)?),
        26 => Property::ResponseInformation(read_text(alloc, block)?),
        28 => Property::ServerReference(read_text(alloc, block)?),
        31 => Property::ReasonString(read_text(alloc, block)?),
        33 => Property::ReceiveMaximum(read_u16(block)?),
        34 => Property::TopicAliasMaximum(read_u16(block)?),
        35 => Property::TopicAlias(read_u16(block)?),
        36 => Property::MaximumQos(read_u8(block)?),
        37 => Property::RetainAvailable(read_u8(block)?),
        38 => {
            let key = read_text(alloc, block)?;
            Property::UserProperty(key, read_text(alloc, block)?)
        }
        39 => Property::MaximumPacketSize(read_u32(block)?),
        40 => Property::WildcardSubscriptionAvailable(read_u8(block)?),
        41 => Property::SubscriptionIdentifierAvailable(read_u8(block)?),
        42 => Property::SharedSubscriptionAvailable(read_u8(block)?),
        _ => return Err(Error::InvalidPropertyType(id)),
    })
}

/// The properties that one kind of packet may have: what a set is read and written by.
pub trait PropertySet: Drop {
    /// Which they are, in the order of writing.
    ghost table: { List Entry };

    /// Their values, in that order.
    ghost found: { Self → Found };

    /// The set without values. Takes no memory.
    fn empty(alloc: Global) -> Self
        ensures { found result ≡ none_of table };

    /// Whether an identifier is of the set.
    fn may_have(id: u8) -> bool
        ensures { result ≡ allows table id };

    /// Adds an item that was read: to a list at its end, else in place of the last value. One that isn't
    /// of the set changes nothing. Err where memory is refused; the set is then unchanged.
    fn add(&mut self, property: Property) -> Result<(), AllocError>
        ensures added { OnOk result (found self.new ≡ with_item table (item_of property).0
            (item_of property).1 (found self.old)) }
        ensures kept { OnErr result (self.new ≡ self.old) };

    /// Whether each of its values can be written: no text or bytes are over 65,535 bytes, and no
    /// subscription identifier is over 268,435,455.
    fn set_fits(&self) -> bool
        ensures { result ≡ items_fit table (found self.now) };

    /// How many bytes its items take, or the greatest `usize` where they are more.
    fn set_len(&self) -> usize
        ensures { result ≡ min (length (items_bytes table (found self.now))) usize.MAX };

    /// Appends its items, which can be written, in room that is there.
    fn put_set(&self, out: &mut BytesMut)
        requires fits { items_fit table (found self.now) ≡ true }
        requires room { length (items_bytes table (found self.now)) ≤ out.old.spare }
        ensures { Puts out.old out.new (items_bytes table (found self.now)) };

    /// Says of its values what the types of its fields do. A law: it changes nothing.
    fn set_known(&self)
        ensures { IsSetOf table (found self.now) };
}

#[tactic(auto, unfolding(crate::specs::Reading::item_at))]
fn read_item<P: PropertySet>(alloc: Global, set: &mut P, block: &mut Bytes) -> Result<(), Error>
    ensures { Gives (λ _. (P.found set.new, block.new)) result
        (item_at P.table (P.found set.old) block.old) }
{
    let id = read_u8(block)?;
    if !P::may_have(id) {
        return Err(Error::InvalidPropertyType(id));
    }
    let property = read_property(alloc, id, block)?;
    set.add(property)?;
    Ok(())
}

fn read_items<P: PropertySet>(alloc: Global, set: &mut P, mut block: Bytes) -> Result<(), Error>
    ensures { Gives (λ _. P.found set.new) result
        (items_within (length block) P.table (P.found set.old) block) }
{
    while !block.is_empty() {
        read_item(alloc, set, &mut block)?;
    }
    Ok(())
}

/// A block: the length of its items, and the items; None where the length is 0. E16 or E17 of the
/// length, E15 with the length where fewer bytes are there, else the fault of the first item that can't
/// be read: E18 of its identifier, E14 to E17 of its value; E21. After a refusal the bytes are
/// unchanged.
#[tactic(auto, unfolding(crate::specs::Reading::block_at))]
pub fn read_block<P: PropertySet>(alloc: Global, stream: &mut Bytes) -> Result<Option<P>, Error>
    ensures read { Gives (λ p. (option_map P.found p, stream.new)) result
        (block_at P.table stream.old) }
    ensures kept { OnErr result (stream.new ≡ stream.old) }
{
    let (count, len) = front_varint(stream.as_slice())?;
    if len == 0 {
        stream.advance(count);
        return Ok(None);
    }
    if stream.len() - count < len {
        return Err(Error::BoundaryCrossed(len));
    }
    let mut block = stream.clone()?;
    block.advance(count);
    block.truncate(len);
    let mut set = P::empty(alloc);
    read_items(alloc, &mut set, block)?;
    stream.advance(count + len);
    Ok(Some(set))
}

/// Whether a block can be written: each value can, and its items take no more than 268,435,455 bytes.
/// One that is absent can.
pub fn block_fits<P: PropertySet>(properties: &Option<P>) -> bool
    ensures { result ≡ block_fits P.table (option_map P.found properties.now) }
{
    match properties {
        Some(set) => set.set_fits() && set.set_len().fits(),
        None => true,
    }
}

/// How many bytes a block takes with its length, or the greatest `usize` where they are more.
#[tactic(auto, using(crate::proofs::Saturated::lengths))]
pub fn block_len<P: PropertySet>(properties: &Option<P>) -> usize
    ensures { result ≡ min (length (block_bytes P.table (option_map P.found properties.now)))
        usize.MAX }
{
    match properties {
        Some(set) => {
            let len = set.set_len();
            len.saturating_add(varint_len(len))
        }
        None => 1,
    }
}

/// Appends a block that can be written, in room that is there; one that is absent is a length of 0.
pub fn put_block<P: PropertySet>(properties: &Option<P>, out: &mut BytesMut)
    requires fits { block_fits P.table (option_map P.found properties.now) ≡ true }
    requires room { length (block_bytes P.table (option_map P.found properties.now))
        ≤ out.old.spare }
    ensures { Puts out.old out.new (block_bytes P.table (option_map P.found properties.now)) }
{
    match properties {
        Some(set) => {
            set.set_len().put_field(out);
            set.put_set(out);
        }
        None => 0u8.put_field(out),
    }
}

/// A property set that is read and written as a block by itself.
pub trait PropertyBlock: PropertySet {
    /// The set of the block at the front, or None of a block of length 0, and takes the block out.
    /// E16 or E17 of the length, E15 with the length where fewer bytes are there, else the fault of
    /// the first item that can't be read: E18 of its identifier, E14 to E17 of its value; E21. After a
    /// refusal the bytes are unchanged.
    #[tactic(auto, using(crate::proofs::AnswersLemmas::block_said))]
    final fn read(alloc: Global, stream: &mut Bytes) -> Result<Option<Self>, Error>
    where
        Self: Sized,
        ensures read { ReadsBlock (λ p. (option_map Self.found p, stream.new)) Self.table stream.old
            result }
        ensures kept { OnErr result (stream.new ≡ stream.old) }
    {
        read_block(alloc, stream)
    }

    /// Appends the set as a block. E11 where a text or bytes are over 65,535 bytes, or a subscription
    /// identifier or the block's length over 268,435,455; E21. The buffer is then unchanged.
    final fn write(&self, buffer: &mut BytesMut) -> Result<(), Error>
        ensures { Writes (λ _. tt) (block_writing Self.table (Some (Self.found self.now))) result
            buffer.old.items buffer.new.items }
    {
        let len = self.set_len();
        if !self.set_fits() || !len.fits() {
            return Err(Error::PayloadTooLong);
        }
        buffer.reserve(varint_len(len) + len)?;
        len.put_field(buffer);
        self.put_set(buffer);
        Ok(())
    }
}

/// Says of a block's values what the types of its fields do. A law: it changes nothing.
pub fn block_known<P: PropertySet>(properties: &Option<P>)
    ensures { IsBlockOf P.table (option_map P.found properties.now) }
{
    if let Some(set) = properties {
        set.set_known();
    }
}
