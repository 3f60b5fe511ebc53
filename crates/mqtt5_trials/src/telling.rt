//! What a trial prints.

use mqtt5_base::Error;
use mqtt5_session::StateError;
use std::alloc::{AllocError, AllocFailed};
use std::fmt::Debug;
use std::io;
use std::io::Write;

/// Why a trial says nothing of its call.
#[derive(Clone, Copy, Debug)]
pub enum TrialError {
    /// No trial has this name.
    Unknown,
    /// Memory was refused before the call, or there is another fault in what the call needs.
    Unprepared,
    /// Memory was refused after the call, or a write failed.
    Unprinted,
}

impl TrialError {
    pub fn status(self) -> u8 {
        match self {
            TrialError::Unknown => 2,
            TrialError::Unprepared => 10,
            TrialError::Unprinted => 11,
        }
    }
}

impl From<AllocError> for TrialError {
    fn from(_refused: AllocError) -> TrialError {
        TrialError::Unprepared
    }
}

impl<T: Drop> From<AllocFailed<T>> for TrialError {
    fn from(_refused: AllocFailed<T>) -> TrialError {
        TrialError::Unprepared
    }
}

impl From<Error> for TrialError {
    fn from(_error: Error) -> TrialError {
        TrialError::Unprepared
    }
}

impl From<StateError> for TrialError {
    fn from(_fault: StateError) -> TrialError {
        TrialError::Unprepared
    }
}

impl From<io::Error> for TrialError {
    fn from(_error: io::Error) -> TrialError {
        TrialError::Unprinted
    }
}

/// A state that a refusal may leave.
pub fn may<W: Write, T: Debug>(output: &mut W, state: &T) -> Result<(), TrialError> {
    Ok(writeln!(output, "may {state:?}")?)
}

/// What the call answered, which is then let go.
pub fn answer<W: Write, T: Debug + Drop>(output: &mut W, answer: T) -> Result<(), TrialError> {
    Ok(writeln!(output, "answer {answer:?}")?)
}

/// The state after the call.
pub fn after<W: Write, T: Debug>(output: &mut W, state: &T) -> Result<(), TrialError> {
    Ok(writeln!(output, "after {state:?}")?)
}
