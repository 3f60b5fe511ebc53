//! What the program does with its words, its input and its output.

ghost use Rattle.std.specs.Prelude.{◌≡◌, ◌<◌, IsSome, length};

use crate::bench::{FRAMES, try_vectors};
use crate::outcome::run_steps;
use crate::report::write_outcome;
use crate::script::StepScript;
use mqtt5_drive::Step;
use mqtt5_scripts::{
    Field, Status, read_script, write_ending, write_memory_fault, write_refusal, write_usage,
};
use std::alloc::Global;
use std::io;
use std::io::{Read, Write};
use std::num::NonZeroU16;

/// What the words ask for.
#[derive(Clone, Copy, Debug, PartialEq, Eq)]
enum Task {
    Bench,
    Drive(NonZeroU16),
}

/// Runs the program on the words after its name, and answers its exit status: 0; 1 after a fault or a
/// failing write; 2 where the words or the script are refused, as none and more than two words are.
/// Nothing runs before the whole script is read.
pub fn run<R: Read, W: Write>(alloc: Global, words: &[String], input: &mut R, output: &mut W) -> u8
    ensures status { result < 3 }
    ensures words { result ≡ 0 → (0 < length words.now) × (length words.now < 3) }
{
    let printed = match parse_words(alloc, words) {
        Some(Task::Bench) => run_bench(alloc, output),
        Some(Task::Drive(limit)) => run_drive(alloc, limit, input, output),
        None => write_usage(output),
    };
    printed.unwrap_or(Status::Fault) as u8
}

/// None of words that ask for nothing. A limit is 1 to 65535.
fn parse_words(alloc: Global, words: &[String]) -> Option<Task>
    ensures { IsSome result → (0 < length words.now) × (length words.now < 3) }
{
    match words {
        [word] if word.as_str() == "bench" => Some(Task::Bench),
        [word, limit] if word.as_str() == "drive" => {
            let limit = <NonZeroU16 as Field>::parse(alloc, limit.as_str()).ok()?;
            Some(Task::Drive(limit))
        }
        _ => None,
    }
}

fn run_bench<W: Write>(alloc: Global, output: &mut W) -> io::Result<Status> {
    match try_vectors(alloc, &FRAMES, output)? {
        Some(true) => Ok(Status::Done),
        Some(false) => Ok(Status::Fault),
        None => write_memory_fault(output),
    }
}

fn run_drive<R: Read, W: Write>(
    alloc: Global,
    limit: NonZeroU16,
    input: &mut R,
    output: &mut W,
) -> io::Result<Status> {
    match read_script::<StepScript, R>(alloc, input) {
        Ok(script) => run_all(alloc, limit, script.steps.as_slice(), output),
        Err(error) => write_refusal(output, &error),
    }
}

fn run_all<W: Write>(
    alloc: Global,
    limit: NonZeroU16,
    steps: &[Step],
    output: &mut W,
) -> io::Result<Status> {
    match run_steps(alloc, limit, steps) {
        Ok(outcome) => {
            write_outcome(output, &outcome)?;
            Ok(if outcome.fault.is_none() {
                Status::Done
            } else {
                Status::Fault
            })
        }
        Err(fault) => write_ending(output, &fault),
    }
}
