//! Packets, and how they end, as JSON.

use crate::ending::Stop;
use crate::field::Fields;
use crate::meaning::meaning_of;
use crate::packet::{name, write_fields};
use crate::value::Value;
use mqtt5_codec::Packet;
use serde_json::Map;
use std::alloc::{AllocError, Global};
use std::io;
use std::io::Write;

/// Fields in an object: a field that may stand often is an array, and left out where it stands never.
#[derive(Drop)]
pub struct Object {
    alloc: Global,
    members: Map<String, serde_json::Value>,
}

impl Object {
    /// One without fields.
    pub fn new(alloc: Global) -> Object {
        Object {
            alloc,
            members: Map::new(alloc),
        }
    }

    /// Its value.
    pub fn into_value(self) -> serde_json::Value {
        let Object { members, .. } = self;
        serde_json::Value::Object(members)
    }

    fn insert(&mut self, name: &str, value: serde_json::Value) -> Result<(), AllocError> {
        let name = String::from_str(self.alloc, name)?;
        let before = self.members.insert(name, value)?;
        drop(before);
        Ok(())
    }

    /// A field of a text.
    fn text(&mut self, name: &str, text: &str) -> Result<(), AllocError> {
        let value = serde_json::Value::try_from_str(self.alloc, text)?;
        self.insert(name, value)
    }
}

impl Fields for Object {
    fn field<T: Value>(&mut self, name: &str, value: &T) -> io::Result<()> {
        let value = value.json(self.alloc)?;
        Ok(self.insert(name, value)?)
    }

    fn each<T: Value>(&mut self, name: &str, values: &[T]) -> io::Result<()> {
        if values.is_empty() {
            return Ok(());
        }
        let mut array = Vec::new(self.alloc);
        for value in values {
            array.push(value.json(self.alloc)?)?;
        }
        Ok(self.insert(name, serde_json::Value::Array(array))?)
    }
}

/// Prints a packet as a line: its type's name as `packet`, and its fields.
pub fn write_json<W: Write>(alloc: Global, output: &mut W, packet: &Packet) -> io::Result<()> {
    let mut object = Object::new(alloc);
    object.text("packet", name(packet))?;
    write_fields(&mut object, packet)?;
    write_line(alloc, output, object)
}

fn write_line<W: Write>(alloc: Global, output: &mut W, object: Object) -> io::Result<()> {
    let value = object.into_value();
    let text = value.to_string(alloc);
    drop(value);
    let text = text?;
    output.write_all(text.as_bytes())?;
    output.write_all(b"\n")
}

/// Prints why the packets ended as a line: which `error` it is, and what belongs to it.
pub fn write_json_stop<W: Write>(
    alloc: Global,
    output: &mut W,
    offset: u64,
    stop: &Stop,
) -> io::Result<()> {
    let mut object = Object::new(alloc);
    match stop {
        Stop::Fault(error) => {
            let number = format!(in alloc; "E{}", error.number())?;
            object.text("error", number.as_str())?;
            object.text("text", format!(in alloc; "{error}")?.as_str())?;
            object.text("meaning", meaning_of(error))?;
            object.insert("offset", serde_json::Value::from(offset))?;
        }
        Stop::Incomplete(missing) => {
            object.text("error", "incomplete")?;
            object.insert("missing", serde_json::Value::from(*missing))?;
            object.insert("offset", serde_json::Value::from(offset))?;
        }
        Stop::NoDigit(place) => {
            object.text("error", "no hexadecimal digit")?;
            object.insert("offset_of_input", serde_json::Value::from(*place))?;
        }
        Stop::OneDigit => object.text("error", "one digit alone")?,
        Stop::Unread(_error) => object.text("error", "stdin")?,
        Stop::Unprinted(_error) => return Ok(()),
    }
    write_line(alloc, output, object)
}
