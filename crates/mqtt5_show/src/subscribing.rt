//! The fields of the packets that subscribe and unsubscribe, and of their acks (MQTT 5.0 sections 3.8 to 3.11).

use crate::field::{Fields, write_optional};
use crate::publishing::write_ack_properties;
use mqtt5_subscribe::{SubAck, Subscribe, UnsubAck, Unsubscribe};
use std::io;

/// Prints a subscribe: each topic filter before its options.
pub fn write_subscribe<F: Fields>(fields: &mut F, subscribe: &Subscribe) -> io::Result<()> {
    fields.field("packet_identifier", &subscribe.pkid)?;
    if let Some(set) = &subscribe.properties {
        write_optional(fields, "subscription_identifier", &set.id)?;
        fields.each("user_property", set.user_properties.as_slice())?;
    }
    fields.each("topic_filter", subscribe.filters.as_slice())
}

/// Prints the ack of a subscribe: a reason code for each topic filter.
pub fn write_suback<F: Fields>(fields: &mut F, ack: &SubAck) -> io::Result<()> {
    fields.field("packet_identifier", &ack.pkid)?;
    write_ack_properties(fields, &ack.properties)?;
    fields.each("reason_code", ack.return_codes.as_slice())
}

/// Prints an unsubscribe.
pub fn write_unsubscribe<F: Fields>(fields: &mut F, unsubscribe: &Unsubscribe) -> io::Result<()> {
    fields.field("packet_identifier", &unsubscribe.pkid)?;
    if let Some(set) = &unsubscribe.properties {
        fields.each("user_property", set.user_properties.as_slice())?;
    }
    fields.each("topic_filter", unsubscribe.filters.as_slice())
}

/// Prints the ack of an unsubscribe: a reason code for each topic filter.
pub fn write_unsuback<F: Fields>(fields: &mut F, ack: &UnsubAck) -> io::Result<()> {
    fields.field("packet_identifier", &ack.pkid)?;
    write_ack_properties(fields, &ack.properties)?;
    fields.each("reason_code", ack.reasons.as_slice())
}
