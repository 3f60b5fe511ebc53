//! What the program does with its words, its input and its output.

ghost use Rattle.std.specs.Prelude.{◌≡◌, ◌<◌, length, true};

use crate::contents::{Counts, write_counts};
use crate::routed::{Routes, write_routes};
use crate::script::NetworkScript;
use mqtt5_network_play::{NetworkReport, play_network, play_network_out};
use mqtt5_scripts::{
    Status, read_script, write_ending, write_memory_fault, write_refusal, write_usage,
};
use std::alloc::Global;
use std::io;
use std::io::{Read, Write};

/// Runs the program on the words after its name, and answers its exit status: 0; 1 after a fault or a failing write; 2
/// where the words or the script are refused, as all but one word are. Nothing is played before the whole script is
/// read.
pub fn run<R: Read, W: Write>(alloc: Global, words: &[String], input: &mut R, output: &mut W) -> u8
    ensures status { result < 3 }
    ensures words { result ≡ 0 → length words.now ≡ 1 }
{
    let printed = if is_network(words) {
        run_network(alloc, input, output)
    } else {
        write_usage(output)
    };
    printed.unwrap_or(Status::Fault) as u8
}

/// Whether the words are the one word.
fn is_network(words: &[String]) -> bool
    ensures { result ≡ true → length words.now ≡ 1 }
{
    match words {
        [word] => word.as_str() == "network",
        _ => false,
    }
}

fn run_network<R: Read, W: Write>(
    alloc: Global,
    input: &mut R,
    output: &mut W,
) -> io::Result<Status> {
    match read_script::<NetworkScript, R>(alloc, input) {
        Ok(script) => play_all(alloc, &script, output),
        Err(error) => write_refusal(output, &error),
    }
}

fn play_all<W: Write>(alloc: Global, script: &NetworkScript, output: &mut W) -> io::Result<Status> {
    let profiles = script.profiles.as_slice();
    let events = script.events.as_slice();
    let played = if script.settles {
        play_network_out(alloc, profiles, events)
    } else {
        play_network(alloc, profiles, events)
    };
    match played {
        Ok(report) => write_report(alloc, script, &report, output),
        Err(fault) => write_ending(output, &fault),
    }
}

/// Counts the contents, and prints the counts. Where memory for them is refused, that is all that is told.
fn write_report<W: Write>(
    alloc: Global,
    script: &NetworkScript,
    report: &NetworkReport,
    output: &mut W,
) -> io::Result<Status> {
    if script.changes {
        return write_routed(alloc, script, report, output);
    }
    match Counts::of(alloc, script.events.as_slice(), report) {
        Ok(counts) => {
            write_counts(output, &counts)?;
            Ok(Status::Done)
        }
        Err(_refused) => write_memory_fault(output),
    }
}

/// The same of a network whose subscriptions or sessions change.
fn write_routed<W: Write>(
    alloc: Global,
    script: &NetworkScript,
    report: &NetworkReport,
    output: &mut W,
) -> io::Result<Status> {
    match Routes::of(alloc, script.events.as_slice(), report) {
        Ok(routes) => {
            write_routes(output, &routes)?;
            Ok(Status::Done)
        }
        Err(_refused) => write_memory_fault(output),
    }
}
