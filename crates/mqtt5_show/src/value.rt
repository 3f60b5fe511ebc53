//! How the values of a packet are printed: numbers in decimal, flags as 0 or 1, texts in quotes, binary data in
//! hexadecimal. Printing takes no memory.

ghost use Rattle.std.specs.Prelude.{◌<◌};

use crate::field::{Fields, LineFields};
use crate::json::Object;
use bytes::Bytes;
use mqtt5_base::Text;
use mqtt5_subscribe::{Filter, SubscribeReasonCode, UnsubAckReason};
use serde_json::{Map, Value as Json};
use std::alloc::{AllocError, Global};
use std::io;
use std::io::Write;

/// A value that stands in a line.
pub trait Value {
    /// Prints it: bytes of ASCII that print, and in a text also others of UTF-8; no line feed and no control character.
    fn write<W: Write>(&self, output: &mut W) -> io::Result<()>;

    /// The same as a value of JSON. Err for want of memory.
    fn json(&self, alloc: Global) -> Result<Json, AllocError>;
}

/// A reason code.
#[derive(Clone, Copy, Debug, PartialEq, Eq)]
pub struct Code(pub u8);

/// Bytes that are printed as a text.
#[derive(Clone, Copy, Debug, PartialEq, Eq)]
pub struct Quoted<'a>(pub &'a [u8]);

/// Bytes that are printed as a text where they are one (`is_text`), else in hexadecimal.
#[derive(Clone, Copy, Debug, PartialEq, Eq)]
pub struct Message<'a>(pub &'a [u8]);

impl Value for u8 {
    fn write<W: Write>(&self, output: &mut W) -> io::Result<()> {
        write!(output, "{}", *self)
    }

    fn json(&self, _alloc: Global) -> Result<Json, AllocError> {
        Ok(Json::from(*self))
    }
}

impl Value for u16 {
    fn write<W: Write>(&self, output: &mut W) -> io::Result<()> {
        write!(output, "{}", *self)
    }

    fn json(&self, _alloc: Global) -> Result<Json, AllocError> {
        Ok(Json::from(*self))
    }
}

impl Value for u32 {
    fn write<W: Write>(&self, output: &mut W) -> io::Result<()> {
        write!(output, "{}", *self)
    }

    fn json(&self, _alloc: Global) -> Result<Json, AllocError> {
        Ok(Json::from(*self))
    }
}

impl Value for usize {
    fn write<W: Write>(&self, output: &mut W) -> io::Result<()> {
        write!(output, "{}", *self)
    }

    fn json(&self, _alloc: Global) -> Result<Json, AllocError> {
        Ok(Json::from(*self))
    }
}

impl Value for bool {
    fn write<W: Write>(&self, output: &mut W) -> io::Result<()> {
        output.write_all(if *self { b"1" } else { b"0" })
    }

    fn json(&self, _alloc: Global) -> Result<Json, AllocError> {
        Ok(Json::Bool(*self))
    }
}

impl Value for Code {
    fn write<W: Write>(&self, output: &mut W) -> io::Result<()> {
        output.write_all(b"0x")?;
        write_digits(output, self.0)
    }

    fn json(&self, _alloc: Global) -> Result<Json, AllocError> {
        Ok(Json::from(self.0))
    }
}

impl Value for SubscribeReasonCode {
    fn write<W: Write>(&self, output: &mut W) -> io::Result<()> {
        Code(self.code()).write(output)
    }

    fn json(&self, alloc: Global) -> Result<Json, AllocError> {
        Code(self.code()).json(alloc)
    }
}

impl Value for UnsubAckReason {
    fn write<W: Write>(&self, output: &mut W) -> io::Result<()> {
        Code(self.code()).write(output)
    }

    fn json(&self, alloc: Global) -> Result<Json, AllocError> {
        Code(self.code()).json(alloc)
    }
}

impl Value for Text {
    fn write<W: Write>(&self, output: &mut W) -> io::Result<()> {
        write_text(output, self.as_bytes())
    }

    fn json(&self, alloc: Global) -> Result<Json, AllocError> {
        Json::try_from_str(alloc, self.as_str())
    }
}

/// A topic filter, behind which its options stand.
impl Value for Filter {
    fn write<W: Write>(&self, output: &mut W) -> io::Result<()> {
        self.path.write(output)?;
        write_options(&mut LineFields { output }, self)
    }

    fn json(&self, alloc: Global) -> Result<Json, AllocError> {
        let mut object = Object::new(alloc);
        match write_filter(&mut object, self) {
            Ok(()) => Ok(object.into_value()),
            Err(_) => Err(AllocError),
        }
    }
}

fn write_filter<F: Fields>(fields: &mut F, filter: &Filter) -> io::Result<()> {
    fields.field("topic_filter", &filter.path)?;
    write_options(fields, filter)
}

fn write_options<F: Fields>(fields: &mut F, filter: &Filter) -> io::Result<()> {
    fields.field("maximum_qos", &(filter.qos as u8))?;
    fields.field("no_local", &filter.nolocal)?;
    fields.field("retain_as_published", &filter.preserve_retain)?;
    fields.field("retain_handling", &filter.retain_forward_rule.code())
}

impl Value for (Text, Text) {
    fn write<W: Write>(&self, output: &mut W) -> io::Result<()> {
        write_text(output, self.0.as_bytes())?;
        output.write_all(b":")?;
        write_text(output, self.1.as_bytes())
    }

    fn json(&self, alloc: Global) -> Result<Json, AllocError> {
        let mut pair = Vec::new(alloc);
        pair.push(self.0.json(alloc)?)?;
        pair.push(self.1.json(alloc)?)?;
        Ok(Json::Array(pair))
    }
}

impl Value for Bytes {
    fn write<W: Write>(&self, output: &mut W) -> io::Result<()> {
        write_hex(output, self.as_slice())
    }

    fn json(&self, alloc: Global) -> Result<Json, AllocError> {
        hex_of(alloc, self.as_slice())
    }
}

impl<'a> Value for Quoted<'a> {
    fn write<W: Write>(&self, output: &mut W) -> io::Result<()> {
        write_text(output, self.0)
    }

    fn json(&self, alloc: Global) -> Result<Json, AllocError> {
        text_or_hex(alloc, self.0)
    }
}

impl<'a> Value for Message<'a> {
    fn write<W: Write>(&self, output: &mut W) -> io::Result<()> {
        if is_text(self.0) {
            write_text(output, self.0)
        } else {
            write_hex(output, self.0)
        }
    }

    fn json(&self, alloc: Global) -> Result<Json, AllocError> {
        text_or_hex(alloc, self.0)
    }
}

/// A text where the bytes are UTF-8, else an object with their digits as `hex`.
fn text_or_hex(alloc: Global, bytes: &[u8]) -> Result<Json, AllocError> {
    match str::from_utf8(bytes) {
        Ok(text) => Json::try_from_str(alloc, text),
        Err(_) => hex_of(alloc, bytes),
    }
}

fn hex_of(alloc: Global, bytes: &[u8]) -> Result<Json, AllocError> {
    let digits = hex::encode(alloc, bytes)?;
    let mut members = Map::new(alloc);
    let before = members.insert(String::from_str(alloc, "hex")?, Json::String(digits))?;
    drop(before);
    Ok(Json::Object(members))
}

/// A text in quotes, in which a quote, a backslash and a control character, and unless it is a text
/// (`is_text`) each byte beyond ASCII, is `\x` and its two digits.
fn write_text<W: Write>(output: &mut W, bytes: &[u8]) -> io::Result<()> {
    let is_text = is_text(bytes);
    output.write_all(b"\"")?;
    for byte in bytes {
        write_char(output, is_text, *byte)?;
    }
    output.write_all(b"\"")
}

fn write_char<W: Write>(output: &mut W, is_text: bool, byte: u8) -> io::Result<()> {
    if is_plain(is_text, byte) {
        return output.write_all(&[byte]);
    }
    output.write_all(b"\\x")?;
    write_digits(output, byte)
}

/// Whether a byte of a text stands as it is.
fn is_plain(is_text: bool, byte: u8) -> bool {
    (byte >= 32 && byte < 127 && byte != b'"' && byte != b'\\') || (is_text && byte >= 128)
}

/// Two digits a byte, or `-` for none.
fn write_hex<W: Write>(output: &mut W, bytes: &[u8]) -> io::Result<()> {
    if bytes.is_empty() {
        return output.write_all(b"-");
    }
    for byte in bytes {
        write_digits(output, *byte)?;
    }
    Ok(())
}

fn write_digits<W: Write>(output: &mut W, byte: u8) -> io::Result<()> {
    output.write_all(&[digit(byte / 16), digit(byte % 16)])
}

fn digit(number: u8) -> u8
    requires { number < 16 }
{
    if number < 10 {
        48 + number
    } else {
        87 + number
    }
}

/// Whether the bytes are UTF-8 without a character beyond ASCII that ends a line, that a terminal
/// may act on, or that turns or hides what stands beside it.
fn is_text(bytes: &[u8]) -> bool {
    match str::from_utf8(bytes) {
        Ok(text) => !text.chars().any(|c| acts(c)),
        Err(_) => false,
    }
}

fn acts(c: char) -> bool {
    matches!(
        c,
        '\u{80}'..='\u{9f}'
            | '\u{200b}'..='\u{200f}'
            | '\u{2028}'..='\u{202e}'
            | '\u{2060}'..='\u{206f}'
            | '\u{feff}'
    )
}
