//! The fields of a packet: a name and a value each.

use crate::value::Value;
use std::io;
use std::io::Write;

/// Where the fields of a packet go, in the order of the frame.
pub trait Fields {
    /// A field.
    fn field<T: Value>(&mut self, name: &str, value: &T) -> io::Result<()>;

    /// A field that may stand often.
    fn each<T: Value>(&mut self, name: &str, values: &[T]) -> io::Result<()>;
}

/// A field that may be absent, which is then left out.
pub fn write_optional<F: Fields, T: Value>(
    fields: &mut F,
    name: &str,
    value: &Option<T>,
) -> io::Result<()> {
    match value {
        Some(value) => fields.field(name, value),
        None => Ok(()),
    }
}

/// Fields in a line: a space, the name, `=` and the value.
#[derive(Drop)]
pub struct LineFields<'a, W> {
    pub output: &'a mut W,
}

impl<W: Write> Fields for LineFields<'_, W> {
    fn field<T: Value>(&mut self, name: &str, value: &T) -> io::Result<()> {
        self.output.write_all(b" ")?;
        self.output.write_all(name.as_bytes())?;
        self.output.write_all(b"=")?;
        value.write(self.output)
    }

    fn each<T: Value>(&mut self, name: &str, values: &[T]) -> io::Result<()> {
        for value in values {
            self.field(name, value)?;
        }
        Ok(())
    }
}
