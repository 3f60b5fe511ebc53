//! What the program does with its words, its input and its output.

ghost use Rattle.std.specs.Prelude.{◌≡◌, ◌<◌, IsSome, length};

use crate::contents::{Asks, Contents, write_contents};
use crate::script::{ByteScript, WorldScript};
use mqtt5_progress::play_out;
use mqtt5_scripts::{
    Field, Status, read_script, write_ending, write_memory_fault, write_refusal, write_usage,
};
use mqtt5_streams::{ByteEvent, play_bytes};
use mqtt5_world::{Report, play};
use std::alloc::Global;
use std::io;
use std::io::{Read, Write};
use std::num::NonZeroU16;

/// What the words ask for.
#[derive(Clone, Copy, Debug, PartialEq, Eq)]
enum Task {
    World(NonZeroU16),
    Bytes(NonZeroU16),
}

/// Runs the program on the words after its name, and answers its exit status: 0; 1 after a fault or a
/// failing write; 2 where the words or the script are refused, as all but two words are. Nothing is played before
/// the whole script is read.
pub fn run<R: Read, W: Write>(alloc: Global, words: &[String], input: &mut R, output: &mut W) -> u8
    ensures status { result < 3 }
    ensures words { result ≡ 0 → length words.now ≡ 2 }
{
    let printed = match parse_words(alloc, words) {
        Some(Task::World(limit)) => run_world(alloc, limit, input, output),
        Some(Task::Bytes(limit)) => run_bytes(alloc, limit, input, output),
        None => write_usage(output),
    };
    printed.unwrap_or(Status::Fault) as u8
}

/// None of words that ask for nothing. A limit is 1 to 65535.
fn parse_words(alloc: Global, words: &[String]) -> Option<Task>
    ensures { IsSome result → length words.now ≡ 2 }
{
    match words {
        [word, limit] => {
            let limit = <NonZeroU16 as Field>::parse(alloc, limit.as_str()).ok()?;
            limited_task(word.as_str(), limit)
        }
        _ => None,
    }
}

fn limited_task(word: &str, limit: NonZeroU16) -> Option<Task> {
    match word {
        "world" => Some(Task::World(limit)),
        "bytes" => Some(Task::Bytes(limit)),
        _ => None,
    }
}

fn run_world<R: Read, W: Write>(
    alloc: Global,
    limit: NonZeroU16,
    input: &mut R,
    output: &mut W,
) -> io::Result<Status> {
    match read_script::<WorldScript, R>(alloc, input) {
        Ok(script) => play_all(alloc, limit, &script, output),
        Err(error) => write_refusal(output, &error),
    }
}

fn play_all<W: Write>(
    alloc: Global,
    limit: NonZeroU16,
    script: &WorldScript,
    output: &mut W,
) -> io::Result<Status> {
    let events = script.events.as_slice();
    let played = if script.settles {
        play_out(alloc, limit.get(), events)
    } else {
        play(alloc, limit.get(), events)
    };
    match played {
        Ok(report) => write_report(alloc, events, &report, output),
        Err(fault) => write_ending(output, &fault),
    }
}

fn run_bytes<R: Read, W: Write>(
    alloc: Global,
    limit: NonZeroU16,
    input: &mut R,
    output: &mut W,
) -> io::Result<Status> {
    match read_script::<ByteScript, R>(alloc, input) {
        Ok(script) => play_all_bytes(alloc, limit, script.events.as_slice(), output),
        Err(error) => write_refusal(output, &error),
    }
}

/// Plays without limits on packets.
fn play_all_bytes<W: Write>(
    alloc: Global,
    limit: NonZeroU16,
    events: &[ByteEvent],
    output: &mut W,
) -> io::Result<Status> {
    match play_bytes(alloc, limit.get(), None, None, events) {
        Ok(report) => write_report(alloc, events, &report, output),
        Err(fault) => write_ending(output, &fault),
    }
}

/// Counts the contents, and prints them. Where memory for the counts is refused, that is all that is told.
fn write_report<W: Write, E: Asks>(
    alloc: Global,
    events: &[E],
    report: &Report,
    output: &mut W,
) -> io::Result<Status> {
    match Contents::count(alloc, events, report) {
        Ok(contents) => {
            write_contents(output, &contents, report)?;
            Ok(Status::Done)
        }
        Err(_refused) => write_memory_fault(output),
    }
}
