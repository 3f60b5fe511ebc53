//! A request to end subscriptions.

ghost use Rattle.std.specs.Prelude.{◌≡◌, ◌+◌, [], ◌∷◌, drop, length, min, IfOk, IfErr};
ghost use Rattle.mqtt5_base.specs.Texts.{Utf8};
ghost use Rattle.mqtt5_base.specs.Grammar.{one, text};
ghost use Rattle.mqtt5_base.specs.Answers.{Gives, ReadsRow};
ghost use Rattle.mqtt5_base.specs.Reading.{values_in};
ghost use Rattle.mqtt5_base.specs.Puts.{Writes};
ghost use Rattle.mqtt5_base.specs.Layout.{layout, writing, content_of_packet};
ghost use Rattle.mqtt5_subscribe.specs.Rows.{unsubscribe_table, unsubscribe_row};
ghost use Rattle.mqtt5_subscribe.specs.Unsubscribes.{path_written, unsubscribe_found, unsubscribe_packet, no_unsubscribe_properties};

use crate::list_body::{listed_size, writable_len, write_listed};
use crate::listed::{Listed, read_list};
use bytes::{Bytes, BytesMut};
use mqtt5_base::{
    Error, FieldValue, FixedHeader, Property, PropertyBlock, PropertySet, Sequence, Tagged, Text,
    read_block, read_text, read_u16,
};
use std::alloc::{AllocError, Global};

/// The properties of an Unsubscribe (MQTT 5.0 section 3.10.2.1).
#[derive(Debug, Clone, PartialEq, Eq, Drop)]
pub struct UnsubscribeProperties {
    /// Names and values, in order; a name may stand often.
    pub user_properties: Sequence<(Text, Text)>,
}

impl UnsubscribeProperties {
    /// The set without values. Takes no memory.
    pub fn new(alloc: Global) -> UnsubscribeProperties
        ensures { result ≡ no_unsubscribe_properties }
    {
        UnsubscribeProperties {
            user_properties: Sequence::new(alloc),
        }
    }
}

impl PropertySet for UnsubscribeProperties {
    ghost table = { unsubscribe_table };

    ghost found = { unsubscribe_found };

    fn empty(alloc: Global) -> UnsubscribeProperties {
        UnsubscribeProperties::new(alloc)
    }

    fn may_have(id: u8) -> bool {
        id == 38
    }

    fn add(&mut self, property: Property) -> Result<(), AllocError> {
        match property {
            Property::UserProperty(key, value) => self.user_properties.push((key, value))?,
            other => drop(other),
        }
        Ok(())
    }

    fn set_fits(&self) -> bool {
        self.user_properties.values_fit()
    }

    fn set_len(&self) -> usize {
        self.user_properties.values_len(38)
    }

    fn put_set(&self, out: &mut BytesMut) {
        self.user_properties.put_values(38, out);
    }

    fn set_known(&self) {
        self.user_properties.values_known();
    }
}

impl PropertyBlock for UnsubscribeProperties {}

/// A topic filter of an Unsubscribe (MQTT 5.0 section 3.10.3).
impl Listed for Text {
    ghost first = { one text };

    ghost others = { [] };

    ghost written = { path_written };

    ghost settled = { λ t. t };

    fn read_item(alloc: Global, stream: &mut Bytes) -> Result<Text, Error> {
        read_text(alloc, stream)
    }

    fn item_fits(&self) -> bool {
        self.fits()
    }

    fn item_len(&self) -> usize {
        self.field_len()
    }

    fn put_item(&self, out: &mut BytesMut) {
        self.put_field(out);
    }
}

/// An Unsubscribe (MQTT 5.0 section 3.10).
#[derive(Debug, Clone, PartialEq, Eq, Drop)]
pub struct Unsubscribe {
    /// The packet identifier. It isn't judged.
    pub pkid: u16,
    /// Topic filters, which aren't judged, also none.
    pub filters: Sequence<Text>,
    /// An empty set is read again as None.
    pub properties: Option<UnsubscribeProperties>,
}

impl Unsubscribe {
    /// An Unsubscribe of this one filter and properties, with packet identifier 0. E21.
    pub fn new(
        alloc: Global,
        filter: &str,
        properties: Option<UnsubscribeProperties>,
    ) -> Result<Unsubscribe, Error>
        ensures ok { IfOk result (λ u. (path : Utf8) × (path.bytes ≡ filter.now)
            × (u ≡ record { pkid = 0; filters = path ∷ []; properties = properties })) }
        ensures err { IfErr result (λ e. e ≡ Error.OutOfMemory) }
    {
        let path = Text::from(String::from_str(alloc, filter)?);
        let mut filters = Sequence::new(alloc);
        filters.push(path)?;
        Ok(Unsubscribe {
            pkid: 0,
            filters,
            properties,
        })
    }

    fn read_values(alloc: Global, header: FixedHeader, bytes: Bytes) -> Result<Unsubscribe, Error>
        requires { length bytes ≡ header.fixed_header_len + header.remaining_len }
        ensures { Gives (λ p. content_of_packet (unsubscribe_packet p)) result
            (values_in unsubscribe_row header.byte1 header.remaining_len
            (drop header.fixed_header_len bytes)) }
    {
        let mut stream = bytes;
        stream.advance(header.fixed_header_len);
        let pkid = read_u16(&mut stream)?;
        let properties = read_block(alloc, &mut stream)?;
        let filters = read_list(alloc, stream)?;
        Ok(Unsubscribe {
            pkid,
            filters,
            properties,
        })
    }

    /// The Unsubscribe of a frame's bytes, of which the header is, also without filters. E14 to E18 of a
    /// field that can't be read; E21.
    #[tactic(auto, using(mqtt5_base::proofs::AnswersLemmas::row_said))]
    pub fn read(alloc: Global, header: FixedHeader, bytes: Bytes) -> Result<Unsubscribe, Error>
        requires { length bytes ≡ header.fixed_header_len + header.remaining_len }
        ensures row { ReadsRow (λ p. content_of_packet (unsubscribe_packet p)) unsubscribe_row
            header bytes result }
        ensures values { Gives (λ p. content_of_packet (unsubscribe_packet p)) result
            (values_in unsubscribe_row header.byte1 header.remaining_len
            (drop header.fixed_header_len bytes)) }
    {
        Unsubscribe::read_values(alloc, header, bytes)
    }

    /// Appends the Unsubscribe and answers its length. E11 where a text is over 65,535 bytes, or the
    /// properties or the body over 268,435,455; E21. The buffer is then unchanged.
    pub fn write(&self, buffer: &mut BytesMut) -> Result<usize, Error>
        ensures { Writes length (writing unsubscribe_row (unsubscribe_packet self.now)) result
            buffer.old.items buffer.new.items }
    {
        let Some(len) = writable_len(&self.properties, &self.filters) else {
            return Err(Error::PayloadTooLong);
        };
        write_listed(
            0xA2,
            self.pkid,
            &self.properties,
            &self.filters,
            len,
            buffer,
        )
    }

    /// How many bytes it takes, or the greatest `usize` where they are more. Takes no memory.
    pub fn size(&self) -> usize
        ensures { result ≡ min (length (layout unsubscribe_row (unsubscribe_packet self.now)))
            usize.MAX }
    {
        listed_size(&self.properties, &self.filters)
    }
}
