//! Calls as rows of text, walked by few functions: a case more is a line. The parts of a row stand between semicolons,
//! each a call with its argument behind `:` and its answer behind `=`; a call that is just done answers nothing. A walk
//! makes the calls, writes the row anew with what comes of them, and compares. Bytes are two digits each, and `-` is
//! none. Frames are those of MQTT 5.0.

mod client;
mod drive;
mod kept;
mod laws;
mod pipe;
mod shown;
mod source;
mod store;
mod talk;
mod words;

use bytes::Bytes;
use mqtt5_base::{Error, QoS};
use mqtt5_publish::Publish;
use std::alloc::{AllocError, Global};

/// What stands before the first mark of a text, and what behind it.
fn cut<'a>(text: &'a str, mark: char) -> (&'a str, &'a str) {
    text.split_once(mark).unwrap_or((text, ""))
}

/// Bytes of their digits; E16 where they aren't digits.
fn bytes_of(alloc: Global, digits: &str) -> Result<Vec<u8>, Error> {
    if digits == "-" {
        return Ok(Vec::new(alloc));
    }
    match hex::decode(alloc, digits) {
        Ok(bytes) => Ok(bytes),
        Err(_) => Err(Error::MalformedPacket),
    }
}

/// A number of its digits; E16 where they aren't digits.
fn number_of(digits: &str) -> Result<u32, Error> {
    match digits.parse::<u32>() {
        Ok(number) => Ok(number),
        Err(_) => Err(Error::MalformedPacket),
    }
}

/// Adds an answer that is bytes.
fn add_bytes(alloc: Global, bytes: &[u8], text: &mut String) -> Result<(), AllocError> {
    if bytes.is_empty() {
        return text.push_str("=-");
    }
    let digits = hex::encode_upper(alloc, bytes)?;
    write!(text, "={digits}")
}

/// The quality of service of a digit, 0 where there is none.
fn quality_of(digit: &str) -> QoS {
    match digit {
        "1" => QoS::AtLeastOnce,
        "2" => QoS::ExactlyOnce,
        _other => QoS::AtMostOnce,
    }
}

/// A publish of "hi" to "a/b".
fn publish_hi(alloc: Global, quality: QoS) -> Result<Publish, Error> {
    let payload = Bytes::from_static(b"hi");
    Publish::new(alloc, "a/b", quality, payload, None)
}
