//! Messages by a format, as that of mosquitto_sub's `-F`.

ghost use Rattle.std.specs.Prelude.{◌≡◌, ◌<◌, true, length};

use crate::json::{Form, json_of};
use jiff::Timestamp;
use mqtt5_publish::{Publish, PublishProperties};
use mqtt5_talk::{Screen, TalkError};
use std::alloc::{AllocError, Global};
use std::io::Write;
use std::time::Clock;

/// The letters behind `%`, and those behind a backslash.
const FIELDS: &[u8] = b"%ACDEFIJPRSUXjlmpqrtx";

/// A moment in Coordinated Universal Time (ISO 8601).
const MOMENT: &str = "%Y-%m-%dT%H:%M:%S%z";

const ESCAPES: &[u8] = b"\\0aenrtv";

/// Whether each `%` and each backslash of a format has its letter.
pub fn is_format(format: &str) -> bool {
    let mut left = format.as_bytes();
    for _ in 0..format.len() {
        let Some((byte, rest)) = left.split_first() else {
            break;
        };
        left = match byte {
            b'%' if has_letter(rest, FIELDS) => &rest[1..],
            b'\\' if has_letter(rest, ESCAPES) => &rest[1..],
            b'%' | b'\\' => return false,
            _plain => rest,
        };
    }
    true
}

fn has_letter(rest: &[u8], letters: &[u8]) -> bool
    ensures { result ≡ true → 0 < length rest.now }
{
    match rest.first() {
        Some(letter) => letters.contains(letter),
        None => false,
    }
}

/// Each message is what a format makes of it.
#[derive(Drop)]
pub struct Formatted<'a, W, F> {
    pub alloc: Global,
    pub writer: W,
    pub format: &'a str,
    pub clock: &'a F,
    /// Whether JSON takes several lines.
    pub is_pretty: bool,
    /// Whether a newline stands behind it.
    pub with_newline: bool,
}

impl<W: Write, F: Clock> Screen for Formatted<'_, W, F> {
    ghost shows = { λ old p is_shown new. is_shown ≡ true };

    fn show(&mut self, publish: &Publish) -> Result<bool, TalkError> {
        let mut text = Vec::new(self.alloc);
        self.add_all(&mut text, publish)?;
        if self.with_newline {
            text.push(b'\n')?;
        }
        match self.writer.write_all(text.as_slice()) {
            Ok(()) => Ok(true),
            Err(error) => Err(TalkError::Unshown(error)),
        }
    }
}

impl<W, F: Clock> Formatted<'_, W, F> {
    fn add_all(&self, text: &mut Vec<u8>, publish: &Publish) -> Result<(), AllocError> {
        let mut mark = b' ';
        for byte in self.format.as_bytes() {
            match mark {
                b'%' => self.add_field(text, *byte, publish)?,
                b'\\' => text.push(escape_of(*byte))?,
                _none if *byte == b'%' || *byte == b'\\' => {
                    mark = *byte;
                    continue;
                }
                _none => text.push(*byte)?,
            }
            mark = b' ';
        }
        Ok(())
    }

    /// What a letter behind `%` stands for.
    fn add_field(
        &self,
        text: &mut Vec<u8>,
        letter: u8,
        publish: &Publish,
    ) -> Result<(), AllocError> {
        match letter {
            b'I' | b'U' => self.add_moment(text, letter),
            b'j' | b'J' => {
                let form = Form {
                    reads_payload: letter == b'J',
                    is_pretty: self.is_pretty,
                };
                let json = json_of(self.alloc, publish, self.moment(), form)?;
                text.extend_from_slice(json.as_bytes())
            }
            other => add_field(text, other, publish),
        }
    }

    /// The moment that it is, where the clock can be read.
    fn moment(&self) -> Option<Timestamp> {
        Timestamp::now(self.clock).ok()
    }

    /// The moment, of `U` in seconds since 1970; nothing where the clock can't be read.
    fn add_moment(&self, text: &mut Vec<u8>, letter: u8) -> Result<(), AllocError> {
        let Some(moment) = self.moment() else {
            return Ok(());
        };
        let format = if letter == b'U' { "%s.%9f" } else { MOMENT };
        match moment.strftime(self.alloc, format) {
            Ok(words) => text.extend_from_slice(words.as_bytes()),
            Err(_) => Ok(()),
        }
    }
}

/// The byte that a letter behind a backslash stands for.
fn escape_of(letter: u8) -> u8 {
    match letter {
        b'0' => 0,
        b'a' => 7,
        b'e' => 27,
        b'n' => b'\n',
        b'r' => b'\r',
        b't' => b'\t',
        b'v' => 11,
        other => other,
    }
}

/// What a letter behind `%` stands for that is neither the time nor JSON.
fn add_field(text: &mut Vec<u8>, letter: u8, publish: &Publish) -> Result<(), AllocError> {
    let alloc = *text.allocator();
    match letter {
        b'%' => text.push(b'%')?,
        b't' => text.extend_from_slice(publish.topic.as_slice())?,
        b'p' => text.extend_from_slice(publish.payload.as_slice())?,
        b'x' => {
            let digits = hex::encode(alloc, publish.payload.as_slice())?;
            text.extend_from_slice(digits.as_bytes())?
        }
        b'X' => {
            let digits = hex::encode_upper(alloc, publish.payload.as_slice())?;
            text.extend_from_slice(digits.as_bytes())?
        }
        b'l' => add_number(text, publish.payload.len() as u64)?,
        b'm' => add_number(text, publish.pkid as u64)?,
        b'q' => add_number(text, publish.qos as u64)?,
        b'r' => add_number(text, publish.retain as u64)?,
        property => {
            if let Some(properties) = &publish.properties {
                add_property(text, property, properties)?;
            }
        }
    }
    Ok(())
}

fn add_number(text: &mut Vec<u8>, number: u64) -> Result<(), AllocError> {
    let digits = format!(in *text.allocator(); "{number}")?;
    text.extend_from_slice(digits.as_bytes())
}

/// What a letter of a property stands for (MQTT 5.0 section 3.3.2.3).
fn add_property(
    text: &mut Vec<u8>,
    letter: u8,
    properties: &PublishProperties,
) -> Result<(), AllocError> {
    match letter {
        b'A' => add_optional(text, properties.topic_alias.map(|alias| alias as u64)),
        b'E' => add_optional(text, properties.message_expiry_interval.map(|n| n as u64)),
        b'F' => add_optional(text, properties.payload_format_indicator.map(|n| n as u64)),
        b'S' => add_identifiers(text, properties.subscription_identifiers.as_slice()),
        b'P' => add_pairs(text, properties),
        b'C' => match &properties.content_type {
            Some(content) => text.extend_from_slice(content.as_bytes()),
            None => Ok(()),
        },
        b'R' => match &properties.response_topic {
            Some(topic) => text.extend_from_slice(topic.as_bytes()),
            None => Ok(()),
        },
        _data => match &properties.correlation_data {
            Some(data) => text.extend_from_slice(data.as_slice()),
            None => Ok(()),
        },
    }
}

fn add_optional(text: &mut Vec<u8>, number: Option<u64>) -> Result<(), AllocError> {
    match number {
        Some(number) => add_number(text, number),
        None => Ok(()),
    }
}

/// Numbers, with a space between.
fn add_identifiers(text: &mut Vec<u8>, ids: &[usize]) -> Result<(), AllocError> {
    for (i, id) in ids.iter().enumerate() {
        if i > 0 {
            text.push(b' ')?;
        }
        add_number(text, *id as u64)?;
    }
    Ok(())
}

/// User properties, a name and its value with `:` between, and a space between them.
fn add_pairs(text: &mut Vec<u8>, properties: &PublishProperties) -> Result<(), AllocError> {
    for (i, (name, value)) in properties.user_properties.as_slice().iter().enumerate() {
        if i > 0 {
            text.push(b' ')?;
        }
        text.extend_from_slice(name.as_bytes())?;
        text.push(b':')?;
        text.extend_from_slice(value.as_bytes())?;
    }
    Ok(())
}
