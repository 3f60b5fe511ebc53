//! Wills, logins and property sets by themselves.

use super::{bytes_of, cut, digits_of};
use bytes::{Bytes, BytesMut};
use mqtt5_base::{Error, Exact, PropertyBlock, QoS, copied};
use mqtt5_connect::{LastWill, LastWillProperties, Login};
use mqtt5_control::{Disconnect, DisconnectProperties, DisconnectReasonCode};
use mqtt5_subscribe::{SubAckProperties, SubscribeProperties, UnsubscribeProperties};
use std::alloc::Global;
use std::fmt::Debug;
use std::test::Fail;

/// The flags of a Connect, bytes, how many of them are left when a will is read, what is read, and the flags and the
/// bytes of the will when it is written behind `AA`.
const WILLS: &str =
    r#"EE 0000017700016D00 1 Ok(Some(LastWill { topic: b"w", message: b"m", qos: AtLeastOnce, retain: true, properties: None })) 2C AA0000017700016D
C2 0000017700016D00 8 Ok(None)
22 000261 3 Err(IncorrectPacketFormat)
04 072600016B00017600017700016D 0 Ok(Some(LastWill { topic: b"w", message: b"m", qos: AtMostOnce, retain: false, properties: Some(LastWillProperties { delay_interval: None, payload_format_indicator: None, message_expiry_interval: None, content_type: None, response_topic: None, correlation_data: None, user_properties: [("k", "v")] }) })) 04 AA072600016B00017600017700016D
"#;

/// The same of a login.
const LOGINS: &str =
    r#"EE 00017500017000 1 Ok(Some(Login { username: "u", password: "p" })) C0 AA000175000170
2E 00017500017000 7 Ok(None)
82 000261 3 Err(BoundaryCrossed(2))
"#;

/// The letters of property sets, blocks, what is read of each, what that is written as, and how many bytes were left.
const SETS: &str =
    r#"s 020B05 Ok(Some(SubscribeProperties { id: Some(5), user_properties: [] })) 020B05 0
u 0726000161000162 Ok(Some(UnsubscribeProperties { user_properties: [("a", "b")] })) 0726000161000162 0
a 051F00026E6F Ok(Some(AckProperties { reason_string: Some("no"), user_properties: [] })) 051F00026E6F 0
w 051800000005 Ok(Some(LastWillProperties { delay_interval: Some(5), payload_format_indicator: None, message_expiry_interval: None, content_type: None, response_topic: None, correlation_data: None, user_properties: [] })) 051800000005 0
d 2011000004D21F000474657374260004746573740004746573741C000474657374 Ok(Some(DisconnectProperties { session_expiry_interval: Some(1234), reason_string: Some("test"), user_properties: [("test", "test")], server_reference: Some("test") })) 2011000004D21F000474657374260004746573740004746573741C000474657374 0
"#;

/// A part of a Connect.
trait Part: Exact + Debug + Drop {
    fn read_under(alloc: Global, flags: u8, stream: &mut Bytes) -> Result<Option<Self>, Error>;

    fn put(&self, buffer: &mut BytesMut) -> Result<u8, Error>;
}

impl Part for LastWill {
    fn read_under(alloc: Global, flags: u8, stream: &mut Bytes) -> Result<Option<LastWill>, Error> {
        LastWill::read(alloc, flags, stream)
    }

    fn put(&self, buffer: &mut BytesMut) -> Result<u8, Error> {
        self.write(buffer)
    }
}

impl Part for Login {
    fn read_under(alloc: Global, flags: u8, stream: &mut Bytes) -> Result<Option<Login>, Error> {
        Login::read(alloc, flags, stream)
    }

    fn put(&self, buffer: &mut BytesMut) -> Result<u8, Error> {
        self.write(buffer)
    }
}

/// The flags of two digits; E16 where they are none.
fn flags_of(digits: &str) -> Result<u8, Error> {
    u8::from_str_radix(digits, 16).map_err(|_| Error::MalformedPacket)
}

/// Writes the flags and the bytes of a part behind a byte that isn't its own.
fn write_again<P: Part>(alloc: Global, part: &P, text: &mut String) -> Result<(), Error> {
    let mut buffer = BytesMut::new(alloc);
    buffer.extend_from_slice(&[0xAA])?;
    let flags = part.put(&mut buffer)?;
    let digits = digits_of(alloc, buffer.as_slice())?;
    write!(text, " {flags:02X} {digits}")?;
    Ok(())
}

/// Writes a copy of what was read.
fn write_copy<P: Part>(alloc: Global, read: &Option<P>, text: &mut String) -> Result<(), Error> {
    let copy = copied(read)?;
    write!(text, " Ok({copy:?})")?;
    match &copy {
        Some(part) => write_again(alloc, part, text),
        None => Ok(()),
    }
}

fn write_read<P: Part>(
    alloc: Global,
    read: Result<Option<P>, Error>,
    text: &mut String,
) -> Result<(), Error> {
    match &read {
        Ok(part) => write_copy(alloc, part, text),
        Err(fault) => Ok(write!(text, " Err({fault:?})")?),
    }
}

fn write_part<P: Part>(alloc: Global, row: &str, text: &mut String) -> Result<(), Error> {
    let (flags, rest) = cut(row);
    let (digits, _answers) = cut(rest);
    let mut stream = bytes_of(alloc, digits)?;
    let read = P::read_under(alloc, flags_of(flags)?, &mut stream);
    write!(text, "{flags} {digits} {}", stream.len())?;
    write_read(alloc, read, text)?;
    text.push('\n')?;
    Ok(())
}

#[test]
fn wills(rt: HostRuntime) -> Result<(), Fail> {
    let mut text = String::new(rt.alloc());
    for row in WILLS.lines() {
        write_part::<LastWill>(rt.alloc(), row, &mut text)?;
    }
    assert!(rt; text.as_str() == WILLS, "{text}");
    Ok(())
}

#[test]
fn logins(rt: HostRuntime) -> Result<(), Fail> {
    let mut text = String::new(rt.alloc());
    for row in LOGINS.lines() {
        write_part::<Login>(rt.alloc(), row, &mut text)?;
    }
    assert!(rt; text.as_str() == LOGINS, "{text}");
    Ok(())
}

/// What writing a part answers, and how many bytes are then written.
fn written<P: Part>(
    alloc: Global,
    part: Result<P, Error>,
) -> Result<(Result<u8, Error>, usize), Error> {
    let part = part?;
    let mut buffer = BytesMut::new(alloc);
    let answer = part.put(&mut buffer);
    Ok((answer, buffer.len()))
}

#[test]
fn a_will_that_is_too_long(rt: HostRuntime) -> Result<(), Fail> {
    let message = vec![in rt.alloc(); 0x61; 65_536]?;
    let will = LastWill::new(rt.alloc(), "w", message, QoS::AtMostOnce, false, None);
    assert!(rt; written(rt.alloc(), will)? == (Err(Error::PayloadTooLong), 0));
    Ok(())
}

/// Writes the digits of a set.
fn write_set<P: PropertyBlock>(alloc: Global, set: &P, text: &mut String) -> Result<(), Error> {
    let mut buffer = BytesMut::new(alloc);
    set.write(&mut buffer)?;
    let digits = digits_of(alloc, buffer.as_slice())?;
    write!(text, " {digits}")?;
    Ok(())
}

/// Writes what was read of a block, and that as a block.
fn write_block<P: PropertyBlock + Debug + Drop>(
    alloc: Global,
    read: Result<Option<P>, Error>,
    text: &mut String,
) -> Result<(), Error> {
    write!(text, " {read:?}")?;
    match &read {
        Ok(Some(set)) => write_set(alloc, set, text),
        _ => Ok(()),
    }
}

/// Writes the digits of a Disconnect with that set, without its type, its length and its reason.
fn write_disconnect(
    alloc: Global,
    properties: Option<DisconnectProperties>,
    text: &mut String,
) -> Result<(), Error> {
    let mut buffer = BytesMut::new(alloc);
    let disconnect = Disconnect {
        reason_code: DisconnectReasonCode::NormalDisconnection,
        properties,
    };
    let written = disconnect.write(&mut buffer);
    drop(disconnect);
    if written? < 3 {
        return Err(Error::MalformedPacket);
    }
    let digits = digits_of(alloc, &buffer.as_slice()[3..])?;
    write!(text, " {digits}")?;
    Ok(())
}

/// Extracts a Disconnect's set, and writes what was read and that as its block.
fn write_extracted(alloc: Global, stream: &mut Bytes, text: &mut String) -> Result<(), Error> {
    let read = DisconnectProperties::extract(alloc, stream);
    write!(text, " {read:?}")?;
    write_disconnect(alloc, read?, text)
}

/// Reads a set by its letter, and writes it.
fn write_letter(
    alloc: Global,
    letter: &str,
    stream: &mut Bytes,
    text: &mut String,
) -> Result<(), Error> {
    match letter {
        "s" => write_block(alloc, SubscribeProperties::read(alloc, stream), text),
        "u" => write_block(alloc, UnsubscribeProperties::read(alloc, stream), text),
        "a" => write_block(alloc, SubAckProperties::read(alloc, stream), text),
        "w" => write_block(alloc, LastWillProperties::read(alloc, stream), text),
        _ => write_extracted(alloc, stream, text),
    }
}

fn write_row(alloc: Global, row: &str, text: &mut String) -> Result<(), Error> {
    let (letter, rest) = cut(row);
    let (digits, _answers) = cut(rest);
    let mut stream = bytes_of(alloc, digits)?;
    write!(text, "{letter} {digits}")?;
    write_letter(alloc, letter, &mut stream, text)?;
    writeln!(text, " {}", stream.len())?;
    Ok(())
}

#[test]
fn property_sets(rt: HostRuntime) -> Result<(), Fail> {
    let mut text = String::new(rt.alloc());
    for row in SETS.lines() {
        write_row(rt.alloc(), row, &mut text)?;
    }
    assert!(rt; text.as_str() == SETS, "{text}");
    Ok(())
}
