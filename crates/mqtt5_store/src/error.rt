//! Why bytes aren't a session.

ghost use Rattle.std.specs.Prelude.{◌≡◌};
ghost use Rattle.mqtt5_store.specs.declared.error.StoreError.TheVariants.{OutOfMemory};
ghost use Rattle.mqtt5_store.specs.Errors.{fault_of, fault_of_parts};

use mqtt5_base::Error;
use mqtt5_session::PartsError;
use std::alloc::{AllocError, AllocFailed};

/// Why bytes aren't a session.
#[derive(Debug, PartialEq, Eq, Drop, thiserror::Error)]
pub enum StoreError {
    /// The bytes don't begin as a stored session does.
    #[error("Not a stored session")]
    Foreign,
    /// They are of another version of the format, this one.
    #[error("A stored session of version {0}")]
    Version(u16),
    /// They are cut short; so many are missing, or more.
    #[error("Cut short, {0} more bytes required")]
    Cut(usize),
    /// A frame has a fault, E1 to E18.
    #[error("A frame of a stored session: {0}")]
    Frame(Error),
    /// The last id isn't below the limit, or the current maximum is above it.
    #[error("Numbers that no session has")]
    BadNumbers,
    /// A frame that isn't stored: not a Publish of QoS 1 or 2, a PubRel or a PubRec.
    #[error("A frame that is not stored")]
    NotStored,
    /// An id in use that is 0 or above the limit.
    #[error("Packet identifier {0} is out of range")]
    OutOfRange(u16),
    /// An id that is in use twice.
    #[error("Packet identifier {0} is in use twice")]
    Twice(u16),
    /// Memory that was asked for was refused.
    #[error("Out of memory")]
    OutOfMemory,
}

/// E19 says what is missing, and E21 is want of memory.
impl From<Error> for StoreError {
    ghost from_gives = { λ e s. s ≡ fault_of e };

    fn from(error: Error) -> StoreError {
        match error {
            Error::InsufficientBytes(missing) => StoreError::Cut(missing),
            Error::OutOfMemory => StoreError::OutOfMemory,
            other => StoreError::Frame(other),
        }
    }
}

impl From<PartsError> for StoreError {
    ghost from_gives = { λ e s. s ≡ fault_of_parts e };

    fn from(fault: PartsError) -> StoreError {
        match fault {
            PartsError::BadNumbers => StoreError::BadNumbers,
            PartsError::NotStored => StoreError::NotStored,
            PartsError::OutOfRange(id) => StoreError::OutOfRange(id),
            PartsError::Twice(id) => StoreError::Twice(id),
            PartsError::OutOfMemory => StoreError::OutOfMemory,
        }
    }
}

impl From<AllocError> for StoreError {
    ghost from_gives = { λ _ e. e ≡ OutOfMemory };

    fn from(_refused: AllocError) -> StoreError {
        StoreError::OutOfMemory
    }
}

impl<T: Drop> From<AllocFailed<T>> for StoreError {
    ghost from_gives = { λ _ e. e ≡ OutOfMemory };

    fn from(_refused: AllocFailed<T>) -> StoreError {
        StoreError::OutOfMemory
    }
}
