//! What the program does with its words, its input and its output.

ghost use Rattle.std.specs.Prelude.{◌≡◌, ◌<◌, IfOk};
ghost use Rattle.mqtt5_show.specs.declared.ending.Status.TheVariants.{Refused};

use crate::capture::Capture;
use crate::ending::{Status, write_ending, write_memory_fault};
use crate::screen::{JsonLines, Lines};
use crate::words::{Asked, parse_words};
use std::alloc::Global;
use std::io;
use std::io::{ErrorKind, Read, Write};

/// Runs the program on the words after its name, and answers its exit status: 0 where the input ends with a whole
/// frame; 1 after a fault, a frame that isn't whole, and a failing read or write; 2 where the words are refused.
pub fn run<R: Read, W: Write>(alloc: Global, words: &[String], input: &mut R, output: &mut W) -> u8
    ensures { result < 3 }
{
    let printed = match parse_words(words) {
        Some(asked) => show_all(alloc, asked, input, output),
        None => write_usage(output),
    };
    printed.unwrap_or(Status::Fault) as u8
}

/// Ends the program where its words can't be had: one isn't UTF-8, or memory ran out. Never by 0.
pub fn refuse_words<W: Write>(error: &io::Error, output: &mut W) -> u8
    ensures status { result < 3 }
    ensures refused { 0 < result }
{
    let printed = match error.kind() {
        ErrorKind::OutOfMemory => write_memory_fault(output),
        _ => write_usage(output),
    };
    printed.unwrap_or(Status::Fault) as u8
}

fn show_all<R: Read, W: Write>(
    alloc: Global,
    asked: Asked,
    input: &mut R,
    output: &mut W,
) -> io::Result<Status> {
    let mut capture = Capture::new(alloc, asked);
    let ended = if asked.json {
        let mut lines = JsonLines {
            alloc,
            output: &mut *output,
        };
        capture.show_all(input, &mut lines)
    } else {
        let mut lines = Lines {
            output: &mut *output,
        };
        capture.show_all(input, &mut lines)
    };
    write_ending(alloc, asked.json, output, capture.offset(), ended)
}

fn write_usage<W: Write>(output: &mut W) -> io::Result<Status>
    ensures { IfOk result (λ s. s ≡ Refused) }
{
    output.write_all(b"usage: mqtt5 show [--hex] [--json] [--limit N]\n")?;
    Ok(Status::Refused)
}
