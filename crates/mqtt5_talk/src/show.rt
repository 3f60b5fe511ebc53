//! How messages are shown.

ghost use Rattle.std.specs.Prelude.{◌≡◌, ◌++◌, ◌<◌, Bool, true, List, ℕ, IfOk, OnOk};
ghost use Rattle.std.specs.Io.KnownBytes.{Appends};
ghost use Rattle.mqtt5_talk.specs.Shown.{digit, is_plain, shown_byte, escaped, IsLine, raw};

use crate::error::TalkError;
use mqtt5_publish::Publish;
use std::alloc::{AllocError, Global};
use std::io::Write;

/// Where messages are shown.
pub trait Screen {
    ghost use Rattle.std.specs.Prelude.{Bool, IfOk};
    ghost use Rattle.mqtt5_publish.specs.declared.publish.Publish.{Publish as Message};

    ghost shows: { Self → Message → Bool → Self → Type 0 };

    /// Shows a message, and answers whether it is one that is to be shown. `Unshown` where that fails, and want of memory.
    fn show(&mut self, publish: &Publish) -> Result<bool, TalkError>
        ensures { IfOk result (λ is_shown. shows self.old publish.now is_shown self.new) };
}

/// Each message is one line of text, in which no control character and no other byte than those of UTF-8 stands: such a
/// byte, and the backslash, is `\x` and its two hexadecimal digits.
#[derive(Drop)]
pub struct Lines<W> {
    pub alloc: Global,
    pub writer: W,
    /// Whether the topic and a space stand before the payload.
    pub with_topic: bool,
}

impl<W: Write> Screen for Lines<W> {
    ghost shows = { λ old p is_shown new. (is_shown ≡ true) × (line : List ℕ) × IsLine old.with_topic p line × Appends (W.contents old.writer) (W.contents new.writer) line };

    fn show(&mut self, publish: &Publish) -> Result<bool, TalkError> {
        let line = line_of(self.alloc, self.with_topic, publish)?;
        write(&mut self.writer, line.as_slice())?;
        Ok(true)
    }
}

/// Each message is its bytes.
#[derive(Drop)]
pub struct Raw<W> {
    pub alloc: Global,
    pub writer: W,
    /// Whether the topic and a space stand before the payload.
    pub with_topic: bool,
    /// Whether a newline stands behind it.
    pub with_newline: bool,
}

impl<W: Write> Screen for Raw<W> {
    ghost shows = { λ old p is_shown new. (is_shown ≡ true) × Appends (W.contents old.writer) (W.contents new.writer) (raw old.with_topic old.with_newline p) };

    fn show(&mut self, publish: &Publish) -> Result<bool, TalkError> {
        let bytes = raw_of(self.alloc, self.with_topic, self.with_newline, publish)?;
        write(&mut self.writer, bytes.as_slice())?;
        Ok(true)
    }
}

fn write<W: Write>(writer: &mut W, bytes: &[u8]) -> Result<(), TalkError>
    ensures { OnOk result (Appends (W.contents writer.old) (W.contents writer.new) bytes.now) }
{
    match writer.write_all(bytes) {
        Ok(()) => Ok(()),
        Err(error) => Err(TalkError::Unshown(error)),
    }
}

fn raw_of(
    alloc: Global,
    with_topic: bool,
    with_newline: bool,
    publish: &Publish,
) -> Result<Vec<u8>, AllocError>
    ensures { IfOk result (λ bytes. bytes.items ≡ raw with_topic with_newline publish.now) }
{
    let mut bytes = Vec::new(alloc);
    if with_topic {
        bytes.extend_from_slice(publish.topic.as_slice())?;
        bytes.push(b' ')?;
    }
    bytes.extend_from_slice(publish.payload.as_slice())?;
    if with_newline {
        bytes.push(b'\n')?;
    }
    Ok(bytes)
}

fn line_of(alloc: Global, with_topic: bool, publish: &Publish) -> Result<Vec<u8>, AllocError>
    ensures { IfOk result (λ line. IsLine with_topic publish.now line.items) }
{
    let mut line = Vec::new(alloc);
    if with_topic {
        escape(&mut line, publish.topic.as_slice())?;
        line.push(b' ')?;
    }
    escape(&mut line, publish.payload.as_slice())?;
    line.push(b'\n')?;
    Ok(line)
}

/// Adds the bytes as they are shown.
fn escape(line: &mut Vec<u8>, bytes: &[u8]) -> Result<(), AllocError>
    ensures { OnOk result ((is_text : Bool)
        × (line.new.items ≡ line.old.items ++ escaped is_text bytes.now)) }
{
    let is_text = is_text(bytes);
    for byte in bytes {
        escape_byte(line, is_text, *byte)?;
    }
    Ok(())
}

fn escape_byte(line: &mut Vec<u8>, is_text: bool, byte: u8) -> Result<(), AllocError>
    ensures { OnOk result (line.new.items ≡ line.old.items ++ shown_byte is_text byte) }
{
    if is_plain(is_text, byte) {
        line.push(byte)?;
        return Ok(());
    }
    line.extend_from_slice(&[b'\\', b'x', digit(byte / 16), digit(byte % 16)])
}

/// Whether a byte is shown as it is.
fn is_plain(is_text: bool, byte: u8) -> bool
    ensures { result ≡ is_plain is_text byte }
{
    (byte >= 32 && byte < 127 && byte != 92) || (is_text && byte >= 128)
}

fn digit(number: u8) -> u8
    requires { number < 16 }
    ensures { result ≡ digit number }
{
    if number < 10 {
        48 + number
    } else {
        87 + number
    }
}

/// Whether the bytes are UTF-8 without control characters beyond ASCII, which a terminal may act on.
fn is_text(bytes: &[u8]) -> bool {
    match str::from_utf8(bytes) {
        Ok(text) => !text.chars().any(|c| matches!(c, '\u{80}'..='\u{9f}')),
        Err(_) => false,
    }
}
