//! Why a broker refuses.

ghost use Rattle.std.specs.Prelude.{◌≡◌};
ghost use Rattle.mqtt5_base.specs.declared.error.Error.TheVariants.{OutOfMemory};
ghost use Rattle.broker_core.specs.declared.error.BrokerError.TheVariants.{Codec};

use mqtt5_base::Error;
use std::alloc::{AllocError, AllocFailed};

/// Why a broker refused what a client sent.
#[derive(Debug, PartialEq, Eq, Drop, thiserror::Error)]
pub enum BrokerError {
    /// No client has this number.
    #[error("No client has the number {0}")]
    UnknownClient(usize),
    /// The first packet isn't a Connect (3.1.0).
    #[error("The client isn't connected")]
    NotConnected,
    /// A second Connect (3.1.0).
    #[error("The client is connected already")]
    ConnectedTwice,
    /// A packet that a client doesn't send to this broker.
    #[error("The broker doesn't take such a packet")]
    UnexpectedPacket,
    /// A publish of QoS 1 or 2, with dup or retain, with a topic alias or with a subscription identifier: the ConnAck
    /// doesn't offer these (3.2.2.3).
    #[error("The ConnAck doesn't offer such a publish")]
    NotOffered,
    /// A topic that is empty, has a wildcard or isn't UTF-8 (3.3.2.1).
    #[error("The topic of a publish is invalid")]
    InvalidTopic,
    /// A frame can't be read, or a packet can't be written; why.
    #[error("A packet can't be read or written: {0}")]
    Codec(Error),
}

impl From<Error> for BrokerError {
    ghost from_gives = { λ e b. b ≡ Codec e };

    fn from(error: Error) -> BrokerError {
        BrokerError::Codec(error)
    }
}

impl From<AllocError> for BrokerError {
    ghost from_gives = { λ _ b. b ≡ Codec OutOfMemory };

    fn from(_refused: AllocError) -> BrokerError {
        BrokerError::Codec(Error::OutOfMemory)
    }
}

impl<T: Drop> From<AllocFailed<T>> for BrokerError {
    ghost from_gives = { λ _ b. b ≡ Codec OutOfMemory };

    fn from(_refused: AllocFailed<T>) -> BrokerError {
        BrokerError::Codec(Error::OutOfMemory)
    }
}
