//! A script, which is read whole before anything of it runs.

use crate::fields::LineError;
use std::alloc::Global;
use std::io::{ErrorKind, Read};

/// How many bytes a script may have.
const LONGEST: usize = 1_000_000;

/// Why a script isn't run.
#[derive(Debug, PartialEq, Eq, Drop)]
pub enum ScriptError {
    /// The line of this number, from 1, says nothing; 0 where the script is too long or isn't UTF-8.
    Bad(usize),
    /// A read failed.
    Stdin,
    OutOfMemory,
}

impl LineError {
    fn at(self, number: usize) -> ScriptError {
        match self {
            LineError::Bad => ScriptError::Bad(number),
            LineError::OutOfMemory => ScriptError::OutOfMemory,
        }
    }
}

/// The lines of a script.
pub trait Script: Drop {
    /// A script without a line.
    fn new(alloc: Global) -> Self;

    /// Takes a line apart, which isn't empty, and adds it.
    fn add(&mut self, alloc: Global, line: &str) -> Result<(), LineError>;
}

/// Reads a script and takes its lines apart; empty lines count, and say nothing.
pub fn read_script<S: Script, R: Read>(alloc: Global, input: &mut R) -> Result<S, ScriptError> {
    let bytes = read_bytes(alloc, input)?;
    match str::from_utf8(bytes.as_slice()) {
        Ok(text) => parse_script(alloc, text),
        Err(_) => Err(ScriptError::Bad(0)),
    }
}

fn read_bytes<R: Read>(alloc: Global, input: &mut R) -> Result<Vec<u8>, ScriptError> {
    let mut bytes = Vec::new(alloc);
    match input.take(LONGEST as u64 + 1).read_to_end(&mut bytes) {
        Ok(_) if bytes.len() > LONGEST => Err(ScriptError::Bad(0)),
        Ok(_) => Ok(bytes),
        Err(error) if error.kind() == ErrorKind::OutOfMemory => Err(ScriptError::OutOfMemory),
        Err(_) => Err(ScriptError::Stdin),
    }
}

fn parse_script<S: Script>(alloc: Global, text: &str) -> Result<S, ScriptError> {
    let mut script = S::new(alloc);
    let mut number = 0usize;
    for line in text.split('\n') {
        number = number.saturating_add(1);
        if !line.is_empty() {
            script.add(alloc, line).map_err(|error| error.at(number))?;
        }
    }
    Ok(script)
}
