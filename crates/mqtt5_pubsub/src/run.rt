//! What the program does with its words, its input and its output.

ghost use Rattle.std.specs.Prelude.{◌≡◌, ◌<◌, ◌⊎◌};

use crate::{publishing, relay, subscribing};
use std::io::{Read, Write};
use std::rt::Files;
use std::time::Clock;

/// Runs the client that the first word names, `pub` or `sub`, on the words behind it, and answers its exit status: 0; 1
/// after a fault, 3 after one that another connection may mend, 27 where the time is over; 2 where the words are refused, as
/// those without such a first word are. The log tells why, and has the messages of a subscriber. After `relay` it hands the
/// input on in chunks: 0 or 1.
pub fn run<F: Files + AllocGlobal + Clock, R: Read, W: Write, E: Write>(
    rt: &F,
    words: &[String],
    reader: &mut R,
    writer: &mut W,
    log: &mut E,
) -> u8
    ensures { (result < 4) ⊎ (result ≡ 27) }
{
    let Some((first, others)) = words.split_first() else {
        return refuse_first(log);
    };
    match first.as_str() {
        "pub" => publishing::run(rt, others, reader, writer, log),
        "sub" => subscribing::run(rt, others, reader, writer, log),
        "relay" => relay::run(reader, writer),
        _other => refuse_first(log),
    }
}

/// Tells the log which first words there are, and answers the exit status 2.
fn refuse_first<E: Write>(log: &mut E) -> u8
    ensures { result ≡ 2 }
{
    let _ = writeln!(log, "usage: mqtt5 pub OPTIONS | mqtt5 sub OPTIONS");
    2
}
