//! The parts of a packet by themselves: filters, a will and a login.

use crate::packets::full_buffer;
use crate::telling::{TrialError, after, answer, may};
use bytes::{Bytes, BytesMut};
use mqtt5_base::{Error, QoS};
use mqtt5_connect::{LastWill, Login};
use mqtt5_subscribe::Filter;
use std::alloc::Global;
use std::io::Write;

/// Two filters, as in a Subscribe.
const FILTERS: &[u8] = &[0x00, 0x01, 0x61, 0x01, 0x00, 0x01, 0x62, 0x02];

/// A will with the content type "t", the topic "w" and the message "m", as in a Connect.
const WILL: &[u8] = &[
    0x04, 0x03, 0x00, 0x01, 0x74, 0x00, 0x01, 0x77, 0x00, 0x01, 0x6D,
];

/// A login "u" with the password "p", as in a Connect.
const LOGIN: &[u8] = &[0x00, 0x01, 0x75, 0x00, 0x01, 0x70];

/// The flags of a Connect with a will of QoS 1 that is retained, a user name and a password.
const FLAGS: u8 = 0xEE;

fn read_bytes<W: Write>(
    alloc: Global,
    name: &str,
    bytes: &mut Bytes,
    output: &mut W,
) -> Result<(), TrialError> {
    may(output, &bytes.as_slice())?;
    match name {
        "filters" => answer(output, Filter::read(alloc, bytes))?,
        "will" => answer(output, LastWill::read(alloc, FLAGS, bytes))?,
        _ => answer(output, Login::read(alloc, FLAGS, bytes))?,
    }
    after(output, &bytes.as_slice())
}

/// Reads the part of that name. A refusal leaves the bytes.
pub fn read<W: Write>(alloc: Global, name: &str, output: &mut W) -> Result<(), TrialError> {
    let part = match name {
        "filters" => FILTERS,
        "will" => WILL,
        "login" => LOGIN,
        _ => return Err(TrialError::Unknown),
    };
    let mut bytes = Bytes::copy_from_slice(alloc, part)?;
    let told = read_bytes(alloc, name, &mut bytes, output);
    drop(bytes);
    told
}

/// A will with a content type.
pub fn will(alloc: Global) -> Result<Option<LastWill>, Error> {
    let mut bytes = Bytes::copy_from_slice(alloc, WILL)?;
    let will = LastWill::read(alloc, FLAGS, &mut bytes);
    drop(bytes);
    will
}

fn write_filter<W: Write>(
    alloc: Global,
    buffer: &mut BytesMut,
    output: &mut W,
) -> Result<(), TrialError> {
    let filter = Filter::new(alloc, "a/b", QoS::AtLeastOnce)?;
    let written = filter.write(buffer);
    drop(filter);
    answer(output, written)
}

fn write_will<W: Write>(
    alloc: Global,
    buffer: &mut BytesMut,
    output: &mut W,
) -> Result<(), TrialError> {
    let message = Vec::from_slice(alloc, b"m")?;
    let will = LastWill::new(alloc, "w", message, QoS::AtLeastOnce, true, None)?;
    let written = will.write(buffer);
    drop(will);
    answer(output, written)
}

fn write_login<W: Write>(
    alloc: Global,
    buffer: &mut BytesMut,
    output: &mut W,
) -> Result<(), TrialError> {
    let login = Login::new(alloc, "u", "p")?;
    let written = login.write(buffer);
    drop(login);
    answer(output, written)
}

fn write_named<W: Write>(
    alloc: Global,
    name: &str,
    buffer: &mut BytesMut,
    output: &mut W,
) -> Result<(), TrialError> {
    may(output, &buffer.as_slice())?;
    match name {
        "filter" => write_filter(alloc, buffer, output)?,
        "will" => write_will(alloc, buffer, output)?,
        "login" => write_login(alloc, buffer, output)?,
        _ => return Err(TrialError::Unknown),
    }
    after(output, &buffer.as_slice())
}

/// Writes the part of that name. A refusal leaves the buffer.
pub fn write<W: Write>(alloc: Global, name: &str, output: &mut W) -> Result<(), TrialError> {
    let mut buffer = full_buffer(alloc)?;
    let told = write_named(alloc, name, &mut buffer, output);
    drop(buffer);
    told
}
