//! Trials of want of memory, for a run in which a request for memory is refused. Without a word the program lists
//! its trials, each behind `asks` or `none`: whether its call asks for memory. With a trial as its word it makes
//! the call's state, makes the call, and prints a line `may` for each state that a refusal of the call may leave,
//! the line `answer` and the line `after`. The status is 0; 2 for an unknown trial; 10 where memory was refused
//! before the call, and 11 where it was refused after it.
#![tactic(auto)]

mod calls;
mod frames;
mod made;
mod packets;
mod parts;
mod runs;
mod settings;
mod streams;
mod telling;
mod trials;

use crate::telling::TrialError;
use crate::trials::{list, run};
use std::alloc::Global;
use std::env::Env;
use std::io::{BufWriter, Write};
use std::process::ExitCode;
use std::{env, io};

/// The words after the program's name.
fn words(rt: &(impl Env + AllocGlobal)) -> io::Result<Vec<String>> {
    Ok(env::args(rt)?.skip(1).collect(rt.alloc())?)
}

fn obey<W: Write>(alloc: Global, words: &[String], output: &mut W) -> Result<(), TrialError> {
    match words {
        [] => list(output)?,
        [trial] => run(alloc, trial.as_str(), output)?,
        _ => return Err(TrialError::Unknown),
    }
    Ok(output.flush()?)
}

/// Prints through a buffer. That is made last before the trial, so that a trial whose state takes no memory has a
/// request before its call.
fn print_all(rt: &HostRuntime) -> Result<(), TrialError> {
    let words = words(rt).map_err(|_| TrialError::Unprepared)?;
    match BufWriter::new(rt.alloc(), io::writer(rt)) {
        Ok(mut output) => obey(rt.alloc(), words.as_slice(), &mut output),
        Err(_refused) => Err(TrialError::Unprepared),
    }
}

fn main(rt: HostRuntime) -> ExitCode {
    ExitCode::from(match print_all(&rt) {
        Ok(()) => 0,
        Err(failure) => failure.status(),
    })
}
