//! How the program ends, and what it prints of that.

ghost use Rattle.std.specs.Prelude.{◌≡◌, IfOk, Ok};
ghost use Rattle.mqtt5_show.specs.declared.ending.Status.TheVariants.{Done, Fault};

use crate::json::write_json_stop;
use crate::meaning::meaning_of;
use mqtt5_base::Error;
use std::alloc::{AllocError, Global};
use std::io;
use std::io::Write;

/// How the program ends, as its exit status.
#[derive(Clone, Copy, Debug, PartialEq, Eq)]
pub enum Status {
    Done = 0,
    Fault = 1,
    Refused = 2,
}

/// Why the packets end before the input does, or in the midst of a frame.
#[derive(Debug, Drop)]
pub enum Stop {
    /// The next frame isn't read, or memory ran out.
    Fault(Error),
    /// The input ends in a frame that needs so many bytes more, at least.
    Incomplete(usize),
    /// This byte of the input, counted from 0, is no hexadecimal digit and no white space.
    NoDigit(u64),
    /// The input ends behind the first of the two digits of a byte.
    OneDigit,
    /// The input can't be read.
    Unread(io::Error),
    /// A line can't be printed.
    Unprinted(io::Error),
}

impl From<AllocError> for Stop {
    ghost use Rattle.mqtt5_base.specs.declared.error.Error.{Error as Refusal};
    ghost use Rattle.mqtt5_base.specs.declared.error.Error.TheVariants.{OutOfMemory};
    ghost use Rattle.mqtt5_show.specs.declared.ending.Stop.TheVariants.{Fault as Faulty};

    ghost from_gives = { λ _ e. e ≡ Faulty OutOfMemory };

    fn from(_refused: AllocError) -> Stop {
        Stop::Fault(Error::OutOfMemory)
    }
}

/// Prints why the packets ended, with the offset of the first byte that is of no whole frame; nothing where the input
/// ended with a frame, and then alone the status is Done. It is a line of text, or of JSON.
pub fn write_ending<W: Write>(
    alloc: Global,
    as_json: bool,
    output: &mut W,
    offset: u64,
    ended: Result<(), Stop>,
) -> io::Result<Status>
    ensures { IfOk result (λ s. s ≡ Done → ended ≡ Ok tt) }
{
    match ended {
        Ok(()) => Ok(Status::Done),
        Err(stop) => {
            if as_json {
                write_json_stop(alloc, output, offset, &stop)?;
            } else {
                write_stop(output, offset, &stop)?;
            }
            Ok(Status::Fault)
        }
    }
}

fn write_stop<W: Write>(output: &mut W, offset: u64, stop: &Stop) -> io::Result<()> {
    match stop {
        Stop::Fault(error) => writeln!(
            output,
            "fault E{} at byte {offset}: {error}: {}",
            error.number(),
            meaning_of(error)
        ),
        Stop::Incomplete(missing) => writeln!(
            output,
            "incomplete at byte {offset}: {missing} more bytes are needed"
        ),
        Stop::NoDigit(place) => writeln!(
            output,
            "no hexadecimal digit at byte {place} of the input"
        ),
        Stop::OneDigit => writeln!(output, "the last byte of the input has one digit alone"),
        Stop::Unread(_error) => writeln!(output, "fault stdin"),
        Stop::Unprinted(_error) => Ok(()),
    }
}

/// Prints that memory ran out before the input was read.
pub fn write_memory_fault<W: Write>(output: &mut W) -> io::Result<Status>
    ensures { IfOk result (λ s. s ≡ Fault) }
{
    write_stop(output, 0, &Stop::Fault(Error::OutOfMemory))?;
    Ok(Status::Fault)
}
