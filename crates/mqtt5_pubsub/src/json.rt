//! Messages as JSON, with the members of mosquitto_sub's `%j` and `%J`.

use jiff::Timestamp;
use mqtt5_base::Text;
use mqtt5_publish::{Publish, PublishProperties};
use serde_json::{Map, Value};
use std::alloc::{AllocError, Global};

/// When a message came, in Coordinated Universal Time as RFC 3339 has it.
const MOMENT: &str = "%Y-%m-%dT%H:%M:%S.%6fZ";

/// How messages are shown as JSON.
#[derive(Clone, Copy)]
pub struct Form {
    /// Whether the payload is read as JSON; where it isn't any, it is a text.
    pub reads_payload: bool,
    /// Whether it takes several lines.
    pub is_pretty: bool,
}

/// An object, member by member.
#[derive(Drop)]
struct Object {
    alloc: Global,
    members: Map<String, Value>,
}

impl Object {
    fn new(alloc: Global) -> Object {
        Object {
            alloc,
            members: Map::new(alloc),
        }
    }

    fn insert(&mut self, name: &str, value: Value) -> Result<(), AllocError> {
        let name = String::from_str(self.alloc, name)?;
        let before = self.members.insert(name, value)?;
        drop(before);
        Ok(())
    }

    fn number(&mut self, name: &str, number: u64) -> Result<(), AllocError> {
        self.insert(name, Value::from(number))
    }

    /// A text where the bytes are UTF-8, else their hexadecimal digits.
    fn bytes(&mut self, name: &str, bytes: &[u8]) -> Result<(), AllocError> {
        let value = value_of(self.alloc, bytes)?;
        self.insert(name, value)
    }

    fn optional(&mut self, name: &str, number: Option<u64>) -> Result<(), AllocError> {
        match number {
            Some(number) => self.number(name, number),
            None => Ok(()),
        }
    }

    fn text(&mut self, name: &str, text: &Option<Text>) -> Result<(), AllocError> {
        match text {
            Some(text) => self.bytes(name, text.as_bytes()),
            None => Ok(()),
        }
    }

    fn into_value(self) -> Value {
        let Object { members, .. } = self;
        Value::Object(members)
    }
}

/// A text where the bytes are UTF-8, else an object that has their hexadecimal digits as `hex`.
fn value_of(alloc: Global, bytes: &[u8]) -> Result<Value, AllocError> {
    if let Ok(text) = str::from_utf8(bytes) {
        return Value::try_from_str(alloc, text);
    }
    let digits = hex::encode(alloc, bytes)?;
    let mut object = Object::new(alloc);
    let value = Value::try_from_str(alloc, digits.as_str())?;
    object.insert("hex", value)?;
    Ok(object.into_value())
}

/// A message as JSON, which came at this moment, where that is known.
pub fn json_of(
    alloc: Global,
    publish: &Publish,
    moment: Option<Timestamp>,
    form: Form,
) -> Result<String, AllocError> {
    let value = message_value(alloc, publish, moment, form)?;
    if form.is_pretty {
        value.to_string_pretty(alloc)
    } else {
        value.to_string(alloc)
    }
}

fn message_value(
    alloc: Global,
    publish: &Publish,
    moment: Option<Timestamp>,
    form: Form,
) -> Result<Value, AllocError> {
    let mut object = Object::new(alloc);
    add_moment(&mut object, moment)?;
    object.bytes("topic", publish.topic.as_slice())?;
    object.number("qos", publish.qos as u64)?;
    object.number("retain", publish.retain as u64)?;
    object.number("payloadlen", publish.payload.len() as u64)?;
    if publish.pkid > 0 {
        object.number("mid", publish.pkid as u64)?;
    }
    if let Some(properties) = &publish.properties {
        let set = properties_value(alloc, properties)?;
        object.insert("properties", set)?;
    }
    let payload = payload_value(alloc, publish.payload.as_slice(), form)?;
    object.insert("payload", payload)?;
    Ok(object.into_value())
}

fn add_moment(object: &mut Object, moment: Option<Timestamp>) -> Result<(), AllocError> {
    let Some(moment) = moment else {
        return Ok(());
    };
    match moment.strftime(object.alloc, MOMENT) {
        Ok(text) => object.bytes("tst", text.as_bytes()),
        Err(_) => Ok(()),
    }
}

/// The payload; null where there is none.
fn payload_value(alloc: Global, payload: &[u8], form: Form) -> Result<Value, AllocError> {
    if payload.is_empty() {
        return Ok(Value::Null);
    }
    if form.reads_payload {
        if let Ok(value) = Value::from_slice(alloc, payload) {
            return Ok(value);
        }
    }
    value_of(alloc, payload)
}

/// The properties (MQTT 5.0 section 3.3.2.3).
fn properties_value(alloc: Global, properties: &PublishProperties) -> Result<Value, AllocError> {
    let mut object = Object::new(alloc);
    object.optional(
        "payload-format-indicator",
        properties.payload_format_indicator.map(|n| n as u64),
    )?;
    object.optional(
        "message-expiry-interval",
        properties.message_expiry_interval.map(|n| n as u64),
    )?;
    object.optional("topic-alias", properties.topic_alias.map(|n| n as u64))?;
    object.text("content-type", &properties.content_type)?;
    object.text("response-topic", &properties.response_topic)?;
    if let Some(data) = &properties.correlation_data {
        object.bytes("correlation-data", data.as_slice())?;
    }
    add_identifiers(&mut object, properties)?;
    add_pairs(&mut object, properties)?;
    Ok(object.into_value())
}

fn add_identifiers(object: &mut Object, properties: &PublishProperties) -> Result<(), AllocError> {
    let ids = properties.subscription_identifiers.as_slice();
    if ids.is_empty() {
        return Ok(());
    }
    let mut array = Vec::new(object.alloc);
    for id in ids {
        array.push(Value::from(*id))?;
    }
    object.insert("subscription-identifier", Value::Array(array))
}

/// The user properties as an object, in which of one name the last counts.
fn add_pairs(object: &mut Object, properties: &PublishProperties) -> Result<(), AllocError> {
    let pairs = properties.user_properties.as_slice();
    if pairs.is_empty() {
        return Ok(());
    }
    let mut set = Object::new(object.alloc);
    for (name, value) in pairs {
        set.bytes(name.as_str(), value.as_bytes())?;
    }
    let value = set.into_value();
    object.insert("user-properties", value)
}
