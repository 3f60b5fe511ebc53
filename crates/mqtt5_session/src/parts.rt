//! What a session is made of again, beside its packets.

ghost use Rattle.std.specs.Prelude.{◌≡◌};
ghost use Rattle.mqtt5_session.specs.declared.parts.PartsError.TheVariants.{OutOfMemory};

use std::alloc::{AllocError, AllocFailed};

/// The numbers of a session, and whether the user sends the acks.
#[derive(Clone, Copy, Debug, PartialEq, Eq)]
pub struct Numbers {
    /// The limit on ids.
    pub limit: u16,
    /// The current maximum of ids in use, at most the limit.
    pub current: u16,
    /// The last id that was given, below the limit.
    pub last: u16,
    /// The broker's maximum of topic aliases.
    pub alias_max: u16,
    /// Whether the user sends the acks.
    pub manual_acks: bool,
}

/// Why no session is made of these parts.
#[derive(Clone, Copy, Debug, PartialEq, Eq, thiserror::Error)]
pub enum PartsError {
    /// The last id isn't below the limit, or the current maximum is above it.
    #[error("Numbers that no session has")]
    BadNumbers,
    /// A packet that isn't stored: not a Publish of QoS 1 or 2, a PubRel or a PubRec.
    #[error("A packet that is not stored")]
    NotStored,
    /// An id that is 0 or above the limit.
    #[error("Packet identifier {0} is out of range")]
    OutOfRange(u16),
    /// An id that is in use twice.
    #[error("Packet identifier {0} is in use twice")]
    Twice(u16),
    /// Memory that was asked for was refused.
    #[error("Out of memory")]
    OutOfMemory,
}

impl From<AllocError> for PartsError {
    ghost from_gives = { λ _ e. e ≡ OutOfMemory };

    fn from(_refused: AllocError) -> PartsError {
        PartsError::OutOfMemory
    }
}

impl<T: Drop> From<AllocFailed<T>> for PartsError {
    ghost from_gives = { λ _ e. e ≡ OutOfMemory };

    fn from(_refused: AllocFailed<T>) -> PartsError {
        PartsError::OutOfMemory
    }
}
