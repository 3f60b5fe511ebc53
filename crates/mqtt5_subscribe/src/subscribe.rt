//! A request for subscriptions.

ghost use Rattle.std.specs.Prelude.{◌≡◌, ◌+◌, [], ◌∷◌, List, drop, length, min, IfOk, IfErr};
ghost use Rattle.std.specs.Iterator.{Drains, IsFinite};
ghost use Rattle.mqtt5_base.specs.Answers.{Gives, ReadsRow};
ghost use Rattle.mqtt5_base.specs.Reading.{values_in};
ghost use Rattle.mqtt5_base.specs.Puts.{Writes};
ghost use Rattle.mqtt5_base.specs.Layout.{layout, writing, content_of_packet};
ghost use Rattle.mqtt5_subscribe.specs.Rows.{subscribe_table, subscribe_row};
ghost use Rattle.mqtt5_subscribe.specs.Subscribes.{subscribe_found, subscribe_packet, no_subscribe_properties};

use crate::filter::Filter;
use crate::list_body::{listed_size, read_some, write_some};
use bytes::{Bytes, BytesMut};
use mqtt5_base::{
    Error, FixedHeader, Property, PropertyBlock, PropertySet, Sequence, Tagged, Text,
};
use std::alloc::{AllocError, Global};

/// The properties of a Subscribe (MQTT 5.0 section 3.8.2.1).
#[derive(Debug, Clone, PartialEq, Eq, Drop)]
pub struct SubscribeProperties {
    /// The subscription identifier, written up to 268,435,455. It isn't judged.
    pub id: Option<usize>,
    /// Names and values, in order; a name may stand often.
    pub user_properties: Sequence<(Text, Text)>,
}

impl SubscribeProperties {
    /// The set without values. Takes no memory.
    pub fn new(alloc: Global) -> SubscribeProperties
        ensures { result ≡ no_subscribe_properties }
    {
        SubscribeProperties {
            id: None,
            user_properties: Sequence::new(alloc),
        }
    }
}

impl PropertySet for SubscribeProperties {
    ghost table = { subscribe_table };

    ghost found = { subscribe_found };

    fn empty(alloc: Global) -> SubscribeProperties {
        SubscribeProperties::new(alloc)
    }

    fn may_have(id: u8) -> bool {
        matches!(id, 11 | 38)
    }

    fn add(&mut self, property: Property) -> Result<(), AllocError> {
        match property {
            Property::SubscriptionIdentifier(n) => self.id = Some(n),
            Property::UserProperty(key, value) => self.user_properties.push((key, value))?,
            other => drop(other),
        }
        Ok(())
    }

    fn set_fits(&self) -> bool {
        self.id.values_fit() && self.user_properties.values_fit()
    }

    fn set_len(&self) -> usize {
        self.id
            .values_len(11)
            .saturating_add(self.user_properties.values_len(38))
    }

    fn put_set(&self, out: &mut BytesMut) {
        self.id.put_values(11, out);
        self.user_properties.put_values(38, out);
    }

    fn set_known(&self) {
        self.id.values_known();
        self.user_properties.values_known();
    }
}

impl PropertyBlock for SubscribeProperties {}

/// A Subscribe (MQTT 5.0 section 3.8).
#[derive(Debug, Clone, PartialEq, Eq, Drop)]
pub struct Subscribe {
    /// The packet identifier. It isn't judged.
    pub pkid: u16,
    /// One at least where it is read or written.
    pub filters: Sequence<Filter>,
    /// An empty set is read again as None.
    pub properties: Option<SubscribeProperties>,
}

impl Subscribe {
    /// A Subscribe of this one filter and properties, with packet identifier 0. E21.
    pub fn new(
        alloc: Global,
        filter: Filter,
        properties: Option<SubscribeProperties>,
    ) -> Result<Subscribe, Error>
        ensures ok { IfOk result
            (λ s. s ≡ record { pkid = 0; filters = filter ∷ []; properties = properties }) }
        ensures err { IfErr result (λ e. e ≡ Error.OutOfMemory) }
    {
        let mut filters = Sequence::new(alloc);
        filters.push(filter)?;
        Ok(Subscribe {
            pkid: 0,
            filters,
            properties,
        })
    }

    /// A Subscribe of all filters of an iterator that may be walked and ends, in order, also of none,
    /// and of properties, with packet identifier 0. E21.
    pub fn new_many<F: Iterator<Item = Filter> + Drop>(
        alloc: Global,
        filters: F,
        properties: Option<SubscribeProperties>,
    ) -> Result<Subscribe, Error>
        requires can { F.can_next filters }
        requires ends { IsFinite (F.remaining filters) }
        ensures ok { IfOk result (λ s. (all : List Filter) × Drains F.next_gives filters all
            × (s ≡ record { pkid = 0; filters = all; properties = properties })) }
        ensures err { IfErr result (λ e. e ≡ Error.OutOfMemory) }
    {
        let mut all = Sequence::new(alloc);
        for filter in filters {
            all.push(filter)?;
        }
        Ok(Subscribe {
            pkid: 0,
            filters: all,
            properties,
        })
    }

    /// The Subscribe of a frame's bytes, of which the header is. E10 without filters, E6 of a retain
    /// handling option of 3, E7 of a QoS of 3, E14 to E18 of a field that can't be read; E21.
    #[tactic(auto, using(mqtt5_base::proofs::AnswersLemmas::row_said))]
    pub fn read(alloc: Global, header: FixedHeader, bytes: Bytes) -> Result<Subscribe, Error>
        requires { length bytes ≡ header.fixed_header_len + header.remaining_len }
        ensures row { ReadsRow (λ p. content_of_packet (subscribe_packet p)) subscribe_row header
            bytes result }
        ensures values { Gives (λ p. content_of_packet (subscribe_packet p)) result
            (values_in subscribe_row header.byte1 header.remaining_len
            (drop header.fixed_header_len bytes)) }
    {
        let (pkid, properties, filters) = read_some(
            alloc,
            header,
            bytes,
            Error::EmptySubscription,
        )?;
        Ok(Subscribe {
            pkid,
            filters,
            properties,
        })
    }

    /// Appends the Subscribe and answers its length. E11 where a text is over 65,535 bytes, or the
    /// subscription identifier, the properties or the body over 268,435,455; else E10 without filters;
    /// E21. The buffer is then unchanged.
    pub fn write(&self, buffer: &mut BytesMut) -> Result<usize, Error>
        ensures { Writes length (writing subscribe_row (subscribe_packet self.now)) result
            buffer.old.items buffer.new.items }
    {
        write_some(
            0x82,
            self.pkid,
            &self.properties,
            &self.filters,
            Error::EmptySubscription,
            buffer,
        )
    }

    /// How many bytes it takes, or the greatest `usize` where they are more. Takes no memory.
    pub fn size(&self) -> usize
        ensures { result ≡ min (length (layout subscribe_row (subscribe_packet self.now)))
            usize.MAX }
    {
        listed_size(&self.properties, &self.filters)
    }
}
