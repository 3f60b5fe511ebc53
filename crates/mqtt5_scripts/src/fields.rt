//! The fields of a line, and why a line says nothing.

ghost use Rattle.std.specs.Prelude.{◌≡◌, ◌↔◌, ◌++◌, None, IfSome, codes};
ghost use Rattle.hex.specs.declared.error.FromHexError.TheVariants as hex_errors;
ghost use Rattle.mqtt5_base.specs.declared.error.Error.TheVariants as base_errors;
ghost use Rattle.mqtt5_scripts.specs.declared.fields.LineError.TheVariants as line_errors;

use bytes::Bytes;
use hex::FromHexError;
use mqtt5_base::{Error, QoS, qos};
use mqtt5_publish::Publish;
use std::alloc::{AllocFailed, Global};
use std::num::NonZeroU16;

/// Why a line says nothing.
#[derive(Clone, Copy, Debug, PartialEq, Eq)]
pub enum LineError {
    /// It has no such form.
    Bad,
    OutOfMemory,
}

impl<T: Drop> From<AllocFailed<T>> for LineError {
    ghost from_gives = { λ _ e. e ≡ line_errors.OutOfMemory };

    fn from(_refused: AllocFailed<T>) -> LineError {
        LineError::OutOfMemory
    }
}

impl From<FromHexError> for LineError {
    ghost from_gives = { λ h e. (e ≡ line_errors.OutOfMemory) ↔ (h ≡ hex_errors.OutOfMemory) };

    fn from(error: FromHexError) -> LineError {
        match error {
            FromHexError::OutOfMemory => LineError::OutOfMemory,
            _other => LineError::Bad,
        }
    }
}

impl From<Error> for LineError {
    ghost from_gives = { λ b e. (e ≡ line_errors.OutOfMemory) ↔ (b ≡ base_errors.OutOfMemory) };

    fn from(error: Error) -> LineError {
        match error {
            Error::OutOfMemory => LineError::OutOfMemory,
            _other => LineError::Bad,
        }
    }
}

/// What a text of a script says.
pub trait Field: Drop {
    /// Takes the whole text for it.
    fn parse(alloc: Global, text: &str) -> Result<Self, LineError>;
}

/// A number of decimal digits alone.
impl Field for u64 {
    fn parse(_alloc: Global, text: &str) -> Result<u64, LineError> {
        if !text.bytes().all(|byte| byte.is_ascii_digit()) {
            return Err(LineError::Bad);
        }
        match text.parse::<u64>() {
            Ok(number) => Ok(number),
            Err(_) => Err(LineError::Bad),
        }
    }
}

/// The same, up to 65535.
impl Field for u16 {
    fn parse(alloc: Global, text: &str) -> Result<u16, LineError> {
        let number = <u64 as Field>::parse(alloc, text)?;
        u16::try_from(number).map_err(|_| LineError::Bad)
    }
}

/// The same, from 1 on.
impl Field for NonZeroU16 {
    fn parse(alloc: Global, text: &str) -> Result<NonZeroU16, LineError> {
        let number = <u16 as Field>::parse(alloc, text)?;
        NonZeroU16::new(number).ok_or(LineError::Bad)
    }
}

/// 0, 1 or 2.
impl Field for QoS {
    fn parse(alloc: Global, text: &str) -> Result<QoS, LineError> {
        let number = <u64 as Field>::parse(alloc, text)?;
        let number = u8::try_from(number).map_err(|_| LineError::Bad)?;
        qos(number).ok_or(LineError::Bad)
    }
}

/// Bytes of two hexadecimal digits each, at least one, or none as `-`.
impl Field for Vec<u8> {
    fn parse(alloc: Global, text: &str) -> Result<Vec<u8>, LineError> {
        match text {
            "" => Err(LineError::Bad),
            "-" => Ok(Vec::new(alloc)),
            digits => Ok(hex::decode(alloc, digits)?),
        }
    }
}

/// The same.
impl Field for Bytes {
    fn parse(alloc: Global, text: &str) -> Result<Bytes, LineError> {
        let bytes = <Vec<u8> as Field>::parse(alloc, text)?;
        Bytes::from_vec(bytes).map_err(|_| LineError::OutOfMemory)
    }
}

/// The same, of a text in UTF-8.
impl Field for String {
    fn parse(alloc: Global, text: &str) -> Result<String, LineError> {
        let bytes = <Vec<u8> as Field>::parse(alloc, text)?;
        String::from_utf8(bytes).map_err(|_| LineError::Bad)
    }
}

/// The QOS, TOPIC and PAYLOAD of a publish.
impl Field for Publish {
    fn parse(alloc: Global, text: &str) -> Result<Publish, LineError> {
        let (quality, text) = text.split_once(' ').ok_or(LineError::Bad)?;
        let (topic, payload) = text.split_once(' ').ok_or(LineError::Bad)?;
        let quality = <QoS as Field>::parse(alloc, quality)?;
        let topic = <String as Field>::parse(alloc, topic)?;
        let payload = <Bytes as Field>::parse(alloc, payload)?;
        Ok(Publish::new(alloc, topic.as_str(), quality, payload, None)?)
    }
}

/// The text up to the first space, and what is behind that.
pub fn split_word(text: &str) -> (&str, Option<&str>)
    ensures alone { result.1 ≡ None → result.0.now ≡ text.now }
    ensures parts { IfSome result.1 (λ rest. text.now ≡ result.0.now ++ codes " " ++ rest.now) }
{
    match text.split_once(" ") {
        Some((word, rest)) => (word, Some(rest)),
        None => (text, None),
    }
}
