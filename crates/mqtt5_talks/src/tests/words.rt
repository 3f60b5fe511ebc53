//! What the words of both programs say, and how they end.

use super::{add_bytes, cut};
use bytes::BytesMut;
use clap::{ArgMatches, Command};
use mqtt5_base::Error;
use mqtt5_codec::{Codec, Packet};
use mqtt5_talk::{
    TalkError, connect_of, connection_options, quality_of, refuse, refuse_words, tell,
};
use std::alloc::{AllocError, Global};
use std::io::ErrorKind;
use std::test::Fail;

/// The words of a client, and its Connect (3.1) with the quality of its will, or the exit status of a program that refuses
/// them.
const WORDS: &str = "-=100D00044D51545405020000000000 AtMostOnce
-i me -u u -P p -c=101A00044D51545405C000000511FFFFFFFF00026D65000175000170 AtMostOnce
-k 60=100D00044D5154540502003C000000 AtMostOnce
-x 7 --will-topic t --will-payload m --will-qos 2 --will-retain=101900044D5154540536000005110000000700000000017400016D ExactlyOnce
--help=0
--nothing=2
";

fn words_of(alloc: Global, row: &'static str) -> Result<Vec<&'static str>, AllocError> {
    let mut words = Vec::new(alloc);
    for word in row.split(' ') {
        if word != "-" {
            words.push(word)?;
        }
    }
    Ok(words)
}

fn add_frame(alloc: Global, packet: &Packet, text: &mut String) -> Result<(), Error> {
    let mut frame = BytesMut::new(alloc);
    Codec::new().write(packet, &mut frame)?;
    Ok(add_bytes(alloc, frame.as_slice(), text)?)
}

fn add_connect(alloc: Global, matches: &ArgMatches<'_>, text: &mut String) -> Result<(), Error> {
    let connect = connect_of(alloc, matches)?;
    let added = add_frame(alloc, &connect, text);
    drop(connect);
    added?;
    let quality = quality_of(matches, "will-qos");
    Ok(write!(text, " {quality:?}")?)
}

fn add_status(alloc: Global, error: &clap::Error, text: &mut String) -> Result<(), AllocError> {
    let mut log = Vec::new(alloc);
    let status = refuse(error, &mut log);
    write!(text, "={status}")
}

/// Adds what words say.
fn add_said(alloc: Global, words: &[&str], text: &mut String) -> Result<(), Error> {
    let command = Command::new(alloc, "test").no_binary_name(true);
    match connection_options(alloc, command)?.try_get_matches_from(words) {
        Ok(matches) => add_connect(alloc, &matches, text),
        Err(error) => Ok(add_status(alloc, &error, text)?),
    }
}

fn is_row(alloc: Global, row: &'static str) -> Result<bool, Error> {
    let (call, _said) = cut(row, '=');
    let words = words_of(alloc, call)?;
    let mut text = String::from_str(alloc, call)?;
    add_said(alloc, words.as_slice(), &mut text)?;
    Ok(text.as_str() == row)
}

#[test]
fn words_say_the_connect(rt: HostRuntime) -> Result<(), Fail> {
    for row in WORDS.lines() {
        assert!(rt; is_row(rt.alloc(), row)?, "of {row}");
    }
    Ok(())
}

#[test]
fn ends_have_a_status(rt: HostRuntime) {
    let mut log = Vec::new(rt.alloc());
    let done = tell(Ok::<(), TalkError>(()), &mut log);
    let closed = tell(Err(TalkError::Closed), &mut log);
    let told = log.as_slice() == b"error: the connection was closed\n".as_slice();
    let unread = refuse_words(&ErrorKind::InvalidData.into(), &mut log);
    assert!(rt; done == 0 && closed == 1 && told && unread == 2);
}
