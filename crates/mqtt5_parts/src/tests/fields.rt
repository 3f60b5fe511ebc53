//! Fields, variable byte integers, the fronts of streams and QoS levels.

use super::{bytes_of, cut, digits_of, number_of, show};
use bytes::{Bytes, BytesMut};
use mqtt5_base::{
    Error, FieldValue, QoS, check, frame_size, front_laws, grammar_laws, qos, qos_laws, read_bytes,
    read_qos, read_text, read_u8, read_u16, read_u32, read_varint, shortest_form, start_frame,
    varint_len,
};
use std::alloc::Global;
use std::test::Fail;

/// Bytes, the letters of the fields that are read from them in a row, how many bytes are then left, and what each
/// field is read as. One that is refused takes nothing.
const FIELDS: &str =
    r#"05003C000004D2000268690003612F620002C32801 124bttb21 0 Ok(5) Ok(60) Ok(1234) Ok(b"hi") Ok("a/b") Err(TopicNotUtf8) Ok(b"\xc3(") Err(MalformedPacket) Ok(1)
00 v 0 Ok(0)
7F v 0 Ok(127)
8001 v 0 Ok(128)
FF7F v 0 Ok(16383)
808001 v 0 Ok(16384)
FFFF7F v 0 Ok(2097151)
80808001 v 0 Ok(2097152)
FFFFFF7F v 0 Ok(268435455)
8000 v 0 Ok(0)
"#;

/// Numbers, how many bytes each takes as a variable byte integer, and these; `- -` where it has no such form.
const NUMBERS: &str = "0 1 00
127 1 7F
128 2 8001
16383 2 FF7F
16384 3 808001
2097151 3 FFFF7F
2097152 4 80808001
268435455 4 FFFFFF7F
268435456 - -
";

/// Streams, a limit on their remaining lengths, and the first byte, the length and the type of the frame at the
/// front, or why there is none.
const FRONTS: &str = "- - Err(InsufficientBytes(2))
30 - Err(InsufficientBytes(1))
3080 - Err(InsufficientBytes(1))
300A - Err(InsufficientBytes(10))
3080808080 - Err(MalformedRemainingLength)
320A 9 Err(PayloadSizeLimitExceeded { pkt_size: 10, max: 9 })
320A 10 Err(InsufficientBytes(10))
4002000140 - Ok((64, 4, Ok(PubAck)))
F0020000 - Ok((240, 4, Ok(Auth)))
0F020000 - Ok((15, 4, Err(InvalidPacketType(0))))
";

/// Numbers, and the QoS that each is and is read as.
const QUALITIES: &str = "2 Some(ExactlyOnce) Ok(ExactlyOnce)
3 None Err(InvalidQoS(3))
";

/// Reads a field by its letter, and writes what it is read as.
fn write_field(
    alloc: Global,
    letter: u8,
    stream: &mut Bytes,
    answers: &mut String,
) -> Result<(), Error> {
    match letter {
        b'1' => show(answers, read_u8(stream)),
        b'2' => show(answers, read_u16(stream)),
        b'4' => show(answers, read_u32(stream)),
        b'b' => show(answers, read_bytes(stream)),
        b't' => show(answers, read_text(alloc, stream)),
        _other => show(answers, read_varint(stream)),
    }
}

fn write_fields(alloc: Global, row: &str, text: &mut String) -> Result<(), Error> {
    let (digits, rest) = cut(row);
    let (letters, _answers) = cut(rest);
    let mut stream = bytes_of(alloc, digits)?;
    let mut answers = String::new(alloc);
    for letter in letters.as_bytes() {
        write_field(alloc, *letter, &mut stream, &mut answers)?;
    }
    writeln!(text, "{digits} {letters} {}{answers}", stream.len())?;
    Ok(())
}

#[test]
fn fields(rt: HostRuntime) -> Result<(), Fail> {
    grammar_laws();
    let mut text = String::new(rt.alloc());
    for row in FIELDS.lines() {
        write_fields(rt.alloc(), row, &mut text)?;
    }
    assert!(rt; text.as_str() == FIELDS, "{text}");
    Ok(())
}

fn write_number(alloc: Global, n: usize, text: &mut String) -> Result<(), Error> {
    if !n.fits() {
        writeln!(text, "{n} - -")?;
        return Ok(());
    }
    let len = varint_len(n);
    let mut out = BytesMut::new(alloc);
    out.reserve(len)?;
    n.put_field(&mut out);
    let digits = digits_of(alloc, out.as_slice())?;
    writeln!(text, "{n} {len} {digits}")?;
    Ok(())
}

#[test]
fn variable_byte_integers(rt: HostRuntime) -> Result<(), Fail> {
    shortest_form();
    let mut text = String::new(rt.alloc());
    for row in NUMBERS.lines() {
        write_number(rt.alloc(), number_of(cut(row).0)?, &mut text)?;
    }
    assert!(rt; text.as_str() == NUMBERS, "{text}");
    Ok(())
}

/// A limit, or none for `-`.
fn limit_of(digits: &str) -> Option<u32> {
    digits.parse().ok()
}

fn write_front(alloc: Global, row: &str, text: &mut String) -> Result<(), Error> {
    let (digits, rest) = cut(row);
    let (limit, _answer) = cut(rest);
    let stream = bytes_of(alloc, digits)?;
    let front = check(stream.as_slice(), limit_of(limit));
    let answer = front.map(|h| (h.byte1, h.frame_length(), h.packet_type()));
    writeln!(text, "{digits} {limit} {answer:?}")?;
    Ok(())
}

#[test]
fn fronts(rt: HostRuntime) -> Result<(), Fail> {
    front_laws();
    let mut text = String::new(rt.alloc());
    for row in FRONTS.lines() {
        write_front(rt.alloc(), row, &mut text)?;
    }
    assert!(rt; text.as_str() == FRONTS, "{text}");
    Ok(())
}

fn write_quality(row: &str, text: &mut String) -> Result<(), Error> {
    let number = u8::try_from(number_of(cut(row).0)?).map_err(|_| Error::MalformedPacket)?;
    writeln!(text, "{number} {:?} {:?}", qos(number), read_qos(number))?;
    Ok(())
}

#[test]
fn qualities(rt: HostRuntime) -> Result<(), Fail> {
    qos_laws();
    let mut text = String::new(rt.alloc());
    for row in QUALITIES.lines() {
        write_quality(row, &mut text)?;
    }
    assert!(rt; text.as_str() == QUALITIES, "{text}");
    assert!(rt; QoS::default() == QoS::AtMostOnce && QoS::AtMostOnce < QoS::ExactlyOnce);
    Ok(())
}

#[test]
fn a_frame_begins(rt: HostRuntime) -> Result<(), Fail> {
    let mut out = BytesMut::new(rt.alloc());
    let started = start_frame(0x40, 2, &mut out);
    let shown = format!(in rt.alloc(); "{}", Error::InvalidQoS(3))?;
    assert!(rt;
        started == Ok(4) && out.as_slice() == [0x40, 0x02].as_slice() && frame_size(2) == 4
    );
    assert!(rt; shown.as_str() == "Invalid QoS level = 3");
    Ok(())
}
