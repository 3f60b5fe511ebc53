//! Tables of rows of text, each walked by one function: it writes of each row what is answered, in the form of the
//! row, and what it wrote is the table where all is as that says. The parts of a row stand between blanks; bytes are
//! two digits each, and `-` is none.

mod codes;
mod fields;
mod held;
mod lists;
mod options;
mod parts;
mod subscribing;
mod topics;

use bytes::Bytes;
use mqtt5_base::Error;
use std::alloc::Global;
use std::fmt::Debug;

/// What stands before the first blank of a row, and what behind it.
fn cut(row: &str) -> (&str, &str) {
    row.split_once(' ').unwrap_or((row, ""))
}

/// Bytes of their digits; E16 where they aren't digits.
fn bytes_of(alloc: Global, digits: &str) -> Result<Bytes, Error> {
    if digits == "-" {
        return Ok(Bytes::new());
    }
    match hex::decode(alloc, digits) {
        Ok(bytes) => Ok(Bytes::from_vec(bytes)?),
        Err(_) => Err(Error::MalformedPacket),
    }
}

/// The digits of bytes.
fn digits_of(alloc: Global, bytes: &[u8]) -> Result<String, Error> {
    if bytes.is_empty() {
        return Ok(String::from_str(alloc, "-")?);
    }
    Ok(hex::encode_upper(alloc, bytes)?)
}

/// A number; E16 where it is none.
fn number_of(digits: &str) -> Result<usize, Error> {
    digits.parse().map_err(|_| Error::MalformedPacket)
}

/// A text of which `-` is the empty one.
fn text_of(text: &str) -> &str {
    if text == "-" { "" } else { text }
}

/// Debug of a value, which is then let go, behind a blank.
fn show<T: Debug + Drop>(text: &mut String, value: T) -> Result<(), Error> {
    write!(text, " {value:?}")?;
    Ok(())
}

/// The same in a line of its own.
fn write_line<T: Debug + Drop>(text: &mut String, value: T) -> Result<(), Error> {
    writeln!(text, "{value:?}")?;
    Ok(())
}
