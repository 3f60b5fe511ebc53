//! The properties of an ack, which are the same for every packet that acknowledges another.

ghost use Rattle.std.specs.Prelude.{◌≡◌};
ghost use Rattle.mqtt5_base.specs.AckSets.{ack_table, ack_found, no_ack_properties};

use crate::exact::Exact;
use crate::property::{Property, PropertyBlock, PropertySet};
use crate::sequence::Sequence;
use crate::tagged::Tagged;
use crate::text::Text;
use bytes::BytesMut;
use std::alloc::{AllocError, Global};

/// A reason string and user properties (MQTT 5.0 sections 3.4.2.2, 3.5.2.2, 3.6.2.2, 3.7.2.2, 3.9.2.1
/// and 3.11.2.1).
#[derive(Debug, Clone, PartialEq, Eq, Drop)]
pub struct AckProperties {
    /// Why, as a text for people.
    pub reason_string: Option<Text>,
    /// Names and values, in order; a name may stand often.
    pub user_properties: Sequence<(Text, Text)>,
}

impl AckProperties {
    /// The set without values. Takes no memory.
    pub fn new(alloc: Global) -> AckProperties
        ensures { result ≡ no_ack_properties }
    {
        AckProperties {
            reason_string: None,
            user_properties: Sequence::new(alloc),
        }
    }
}

impl PropertySet for AckProperties {
    ghost table = { ack_table };

    ghost found = { ack_found };

    fn empty(alloc: Global) -> AckProperties {
        AckProperties::new(alloc)
    }

    fn may_have(id: u8) -> bool {
        matches!(id, 31 | 38)
    }

    fn add(&mut self, property: Property) -> Result<(), AllocError> {
        match property {
            Property::ReasonString(text) => self.reason_string = Some(text),
            Property::UserProperty(key, value) => self.user_properties.push((key, value))?,
            other => drop(other),
        }
        Ok(())
    }

    fn set_fits(&self) -> bool {
        self.reason_string.values_fit() && self.user_properties.values_fit()
    }

    fn set_len(&self) -> usize {
        self.reason_string
            .values_len(31)
            .saturating_add(self.user_properties.values_len(38))
    }

    fn put_set(&self, out: &mut BytesMut) {
        self.reason_string.put_values(31, out);
        self.user_properties.put_values(38, out);
    }

    fn set_known(&self) {
        self.reason_string.values_known();
        self.user_properties.values_known();
    }
}

impl PropertyBlock for AckProperties {}

/// A clone is the same set, and `==` decides equality.
impl Exact for AckProperties {
    ghost use Rattle.std.proofs.Common.{rules};
    ghost use Rattle.mqtt5_base.specs.Sound.{ack_properties_sound};

    ghost same = { Prim.search rules };

    ghost sound = { ack_properties_sound };
}
