//! The fields of a publish and of the acks of publishes (MQTT 5.0 sections 3.3 to 3.7).

use crate::field::{Fields, write_optional};
use crate::value::{Code, Message, Quoted};
use mqtt5_base::{AckProperties, QoS};
use mqtt5_publish::{Publish, PublishProperties};
use std::io;

/// Prints a publish; its packet identifier where its QoS has one.
pub fn write_publish<F: Fields>(fields: &mut F, publish: &Publish) -> io::Result<()> {
    fields.field("dup", &publish.dup)?;
    fields.field("qos", &(publish.qos as u8))?;
    fields.field("retain", &publish.retain)?;
    fields.field("topic_name", &Quoted(publish.topic.as_slice()))?;
    if publish.qos != QoS::AtMostOnce {
        fields.field("packet_identifier", &publish.pkid)?;
    }
    if let Some(properties) = &publish.properties {
        write_publish_properties(fields, properties)?;
    }
    fields.field("payload", &Message(publish.payload.as_slice()))
}

fn write_publish_properties<F: Fields>(fields: &mut F, set: &PublishProperties) -> io::Result<()> {
    write_optional(
        fields,
        "payload_format_indicator",
        &set.payload_format_indicator,
    )?;
    write_optional(
        fields,
        "message_expiry_interval",
        &set.message_expiry_interval,
    )?;
    write_optional(fields, "topic_alias", &set.topic_alias)?;
    write_optional(fields, "response_topic", &set.response_topic)?;
    write_optional(fields, "correlation_data", &set.correlation_data)?;
    fields.each("user_property", set.user_properties.as_slice())?;
    fields.each(
        "subscription_identifier",
        set.subscription_identifiers.as_slice(),
    )?;
    write_optional(fields, "content_type", &set.content_type)
}

/// Prints an ack of a publish.
pub fn write_ack<F: Fields>(
    fields: &mut F,
    id: u16,
    reason: u8,
    properties: &Option<AckProperties>,
) -> io::Result<()> {
    fields.field("packet_identifier", &id)?;
    fields.field("reason_code", &Code(reason))?;
    write_ack_properties(fields, properties)
}

/// Prints the properties of any ack.
pub fn write_ack_properties<F: Fields>(
    fields: &mut F,
    properties: &Option<AckProperties>,
) -> io::Result<()> {
    match properties {
        Some(set) => {
            write_optional(fields, "reason_string", &set.reason_string)?;
            fields.each("user_property", set.user_properties.as_slice())
        }
        None => Ok(()),
    }
}
