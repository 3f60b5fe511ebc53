//! How a program ends.

ghost use Rattle.std.specs.Prelude.{◌≡◌, ◌≢◌, ◌<◌, ◌⊎◌, IfOk};
ghost use Rattle.mqtt5_scripts.specs.declared.ending.Status.TheVariants.{Done, Fault, Refused};

use crate::printing::write_fault;
use crate::script::ScriptError;
use mqtt5_inflight::StateError;
use std::env::Env;
use std::io::{ErrorKind, Write};
use std::{env, io};

/// How a program ends, as its exit status.
#[derive(Clone, Copy, Debug, PartialEq, Eq)]
pub enum Status {
    /// It ran to its end.
    Done = 0,
    /// A fault ended it, or what it prints can't be written.
    Fault = 1,
    /// The words or the script are refused.
    Refused = 2,
}

/// The words after the program's name.
pub fn words(rt: &(impl Env + AllocGlobal)) -> io::Result<Vec<String>> {
    Ok(env::args(rt)?.skip(1).collect(rt.alloc())?)
}

/// Writes what is printed out, and answers the program's exit status: 1 where that fails.
pub fn written_out<W: Write>(output: &mut W, status: u8) -> u8
    ensures { (result ≡ status) ⊎ (result ≡ 1) }
{
    match output.flush() {
        Ok(()) => status,
        Err(_failed) => 1,
    }
}

/// Ends a program where its words can't be had: one isn't UTF-8, or memory ran out. Never by 0.
pub fn refuse_words<W: Write>(error: &io::Error, output: &mut W) -> u8
    ensures status { result < 3 }
    ensures refused { 0 < result }
{
    let printed = match error.kind() {
        ErrorKind::OutOfMemory => write_memory_fault(output),
        _ => write_usage(output),
    };
    printed.unwrap_or(Status::Fault) as u8
}

/// Tells why a script isn't run.
pub fn write_refusal<W: Write>(output: &mut W, error: &ScriptError) -> io::Result<Status>
    ensures { IfOk result (λ s. s ≢ Done) }
{
    match error {
        ScriptError::Bad(number) => {
            writeln!(output, "line {number}: bad")?;
            Ok(Status::Refused)
        }
        ScriptError::Stdin => {
            output.write_all(b"fault stdin\n")?;
            Ok(Status::Fault)
        }
        ScriptError::OutOfMemory => write_memory_fault(output),
    }
}

/// Tells that memory was refused.
pub fn write_memory_fault<W: Write>(output: &mut W) -> io::Result<Status>
    ensures { IfOk result (λ s. s ≡ Fault) }
{
    write_ending(output, &StateError::OutOfMemory)
}

/// Prints the fault that the program ends by.
pub fn write_ending<W: Write>(output: &mut W, fault: &StateError) -> io::Result<Status>
    ensures { IfOk result (λ s. s ≡ Fault) }
{
    write_fault(output, fault)?;
    Ok(Status::Fault)
}

/// Says which words there are.
pub fn write_usage<W: Write>(output: &mut W) -> io::Result<Status>
    ensures { IfOk result (λ s. s ≡ Refused) }
{
    output.write_all(
        b"usage: mqtt5 drive LIMIT | mqtt5 world LIMIT | mqtt5 bytes LIMIT | mqtt5 bench | mqtt5 network\n",
    )?;
    Ok(Status::Refused)
}
