//! Why a call of a pipe stops.

ghost use Rattle.std.specs.Prelude.{◌≡◌};
ghost use Rattle.mqtt5_pipe.specs.declared.error.PipeError.TheVariants as faults;

use mqtt5_session::StateError;
use std::io;

/// Why a call of a pipe stops.
#[derive(Debug, Drop, thiserror::Error)]
pub enum PipeError {
    /// The reader failed, or there is no memory for what it gives. Nothing is lost.
    #[error("the reader failed: {0}")]
    Read(io::Error),
    /// The writer failed. What it didn't take stays in the output.
    #[error("the writer failed: {0}")]
    Write(io::Error),
    /// The session, or its codec, stopped; what it had answered is written.
    #[error("{0}")]
    Session(StateError),
    /// The session, or its codec, stopped, and the writer failed on what it had answered.
    #[error("{0}; the writer failed: {1}")]
    Unanswered(StateError, io::Error),
}

/// A fault of the session.
impl From<StateError> for PipeError {
    ghost from_gives = { λ e fault. fault ≡ faults.Session e };

    fn from(fault: StateError) -> PipeError {
        PipeError::Session(fault)
    }
}
