//! The fields of the packets that open and close a connection (MQTT 5.0 sections 3.1, 3.2, 3.14 and 3.15).

use crate::field::{Fields, write_optional};
use crate::value::{Code, Message, Quoted};
use mqtt5_connect::{Connect, ConnectProperties, LastWill, LastWillProperties, Login};
use mqtt5_control::{Auth, AuthProperties, ConnAck, ConnAckProperties, Disconnect};
use std::io;

/// Prints a connect. The will's flags, properties and payload have `will_` before their names.
pub fn write_connect<F: Fields>(
    fields: &mut F,
    connect: &Connect,
    will: &Option<LastWill>,
    login: &Option<Login>,
) -> io::Result<()> {
    fields.field("clean_start", &connect.clean_start)?;
    if let Some(will) = will {
        fields.field("will_qos", &(will.qos as u8))?;
        fields.field("will_retain", &will.retain)?;
    }
    fields.field("keep_alive", &connect.keep_alive)?;
    if let Some(properties) = &connect.properties {
        write_connect_properties(fields, properties)?;
    }
    fields.field("client_identifier", &connect.client_id)?;
    if let Some(will) = will {
        write_will(fields, will)?;
    }
    match login {
        Some(login) => write_login(fields, login),
        None => Ok(()),
    }
}

fn write_connect_properties<F: Fields>(fields: &mut F, set: &ConnectProperties) -> io::Result<()> {
    write_optional(
        fields,
        "session_expiry_interval",
        &set.session_expiry_interval,
    )?;
    write_optional(fields, "receive_maximum", &set.receive_maximum)?;
    write_optional(fields, "maximum_packet_size", &set.max_packet_size)?;
    write_optional(fields, "topic_alias_maximum", &set.topic_alias_max)?;
    write_optional(
        fields,
        "request_response_information",
        &set.request_response_info,
    )?;
    write_optional(
        fields,
        "request_problem_information",
        &set.request_problem_info,
    )?;
    fields.each("user_property", set.user_properties.as_slice())?;
    write_optional(fields, "authentication_method", &set.authentication_method)?;
    write_optional(fields, "authentication_data", &set.authentication_data)
}

fn write_will<F: Fields>(fields: &mut F, will: &LastWill) -> io::Result<()> {
    if let Some(properties) = &will.properties {
        write_will_properties(fields, properties)?;
    }
    fields.field("will_topic", &Quoted(will.topic.as_slice()))?;
    fields.field("will_payload", &Message(will.message.as_slice()))
}

fn write_will_properties<F: Fields>(fields: &mut F, set: &LastWillProperties) -> io::Result<()> {
    write_optional(fields, "will_delay_interval", &set.delay_interval)?;
    write_optional(
        fields,
        "will_payload_format_indicator",
        &set.payload_format_indicator,
    )?;
    write_optional(
        fields,
        "will_message_expiry_interval",
        &set.message_expiry_interval,
    )?;
    write_optional(fields, "will_content_type", &set.content_type)?;
    write_optional(fields, "will_response_topic", &set.response_topic)?;
    write_optional(fields, "will_correlation_data", &set.correlation_data)?;
    fields.each("will_user_property", set.user_properties.as_slice())
}

/// The user name and the password, of which an empty one is the same as none.
fn write_login<F: Fields>(fields: &mut F, login: &Login) -> io::Result<()> {
    if !login.username.as_bytes().is_empty() {
        fields.field("user_name", &login.username)?;
    }
    if !login.password.as_bytes().is_empty() {
        fields.field("password", &login.password)?;
    }
    Ok(())
}

/// Prints the answer to a connect.
pub fn write_connack<F: Fields>(fields: &mut F, ack: &ConnAck) -> io::Result<()> {
    fields.field("session_present", &ack.session_present)?;
    fields.field("reason_code", &Code(ack.code.code()))?;
    match &ack.properties {
        Some(set) => {
            write_limits(fields, set)?;
            write_abilities(fields, set)?;
            write_references(fields, set)
        }
        None => Ok(()),
    }
}

/// The properties of sections 3.2.2.3.2 to 3.2.2.3.8.
fn write_limits<F: Fields>(fields: &mut F, set: &ConnAckProperties) -> io::Result<()> {
    write_optional(
        fields,
        "session_expiry_interval",
        &set.session_expiry_interval,
    )?;
    write_optional(fields, "receive_maximum", &set.receive_max)?;
    write_optional(fields, "maximum_qos", &set.max_qos)?;
    write_optional(fields, "retain_available", &set.retain_available)?;
    write_optional(fields, "maximum_packet_size", &set.max_packet_size)?;
    write_optional(
        fields,
        "assigned_client_identifier",
        &set.assigned_client_identifier,
    )?;
    write_optional(fields, "topic_alias_maximum", &set.topic_alias_max)
}

/// The properties of sections 3.2.2.3.9 to 3.2.2.3.13.
fn write_abilities<F: Fields>(fields: &mut F, set: &ConnAckProperties) -> io::Result<()> {
    write_optional(fields, "reason_string", &set.reason_string)?;
    fields.each("user_property", set.user_properties.as_slice())?;
    write_optional(
        fields,
        "wildcard_subscription_available",
        &set.wildcard_subscription_available,
    )?;
    write_optional(
        fields,
        "subscription_identifiers_available",
        &set.subscription_identifiers_available,
    )?;
    write_optional(
        fields,
        "shared_subscription_available",
        &set.shared_subscription_available,
    )
}

/// The properties of sections 3.2.2.3.14 to 3.2.2.3.18.
fn write_references<F: Fields>(fields: &mut F, set: &ConnAckProperties) -> io::Result<()> {
    write_optional(fields, "server_keep_alive", &set.server_keep_alive)?;
    write_optional(fields, "response_information", &set.response_information)?;
    write_optional(fields, "server_reference", &set.server_reference)?;
    write_optional(fields, "authentication_method", &set.authentication_method)?;
    write_optional(fields, "authentication_data", &set.authentication_data)
}

/// Prints the end of a connection.
pub fn write_disconnect<F: Fields>(fields: &mut F, disconnect: &Disconnect) -> io::Result<()> {
    fields.field("reason_code", &Code(disconnect.reason_code.code()))?;
    match &disconnect.properties {
        Some(set) => {
            write_optional(
                fields,
                "session_expiry_interval",
                &set.session_expiry_interval,
            )?;
            write_optional(fields, "reason_string", &set.reason_string)?;
            fields.each("user_property", set.user_properties.as_slice())?;
            write_optional(fields, "server_reference", &set.server_reference)
        }
        None => Ok(()),
    }
}

/// Prints a step of an authentication.
pub fn write_auth<F: Fields>(fields: &mut F, auth: &Auth) -> io::Result<()> {
    fields.field("reason_code", &Code(auth.code.code()))?;
    match &auth.properties {
        Some(set) => write_auth_properties(fields, set),
        None => Ok(()),
    }
}

fn write_auth_properties<F: Fields>(fields: &mut F, set: &AuthProperties) -> io::Result<()> {
    write_optional(fields, "authentication_method", &set.method)?;
    write_optional(fields, "authentication_data", &set.auth_data)?;
    write_optional(fields, "reason_string", &set.reason)?;
    fields.each("user_property", set.user_properties.as_slice())
}
