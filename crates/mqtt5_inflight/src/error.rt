//! Why a session refuses.

ghost use Rattle.std.specs.Prelude.{◌≡◌};
ghost use Rattle.mqtt5_inflight.specs.declared.error.StateError.TheVariants.{OutOfMemory};
ghost use Rattle.mqtt5_inflight.specs.Errors.{state_error};

use mqtt5_base::{Error, Text};
use mqtt5_control::{ConnectReturnCode, DisconnectReasonCode};
use std::alloc::{AllocError, AllocFailed};

/// Why a session refused. Numbers are those of the documents; a variant without one is never answered.
#[derive(Debug, PartialEq, Eq, Drop, thiserror::Error)]
pub enum StateError {
    /// Never answered.
    #[error("Io error")]
    Io,
    /// Never answered.
    #[error("Conversion error")]
    Coversion,
    /// S1: the session is in no state for the request: a publish whose id is in use while another waits, a
    /// PubRel of an id whose publish isn't acked, or a request that a client never sends.
    #[error("Invalid state for a given operation")]
    InvalidState,
    /// S2: an ack of an id that awaits none, or a request under an id above the limit; that id.
    #[error("Received unsolicited ack pkid: {0}")]
    Unsolicited(u16),
    /// S3: the last ping isn't answered.
    #[error("Last pingreq isn't acked")]
    AwaitPingResp,
    /// S4: a packet that a client doesn't take.
    #[error("Received a wrong packet while waiting for another packet")]
    WrongPacket,
    /// S5: a second ping while a publish waits for its id.
    #[error("Timeout while waiting to resolve collision")]
    CollisionTimeout,
    /// S6: a subscribe without filters.
    #[error("A Subscribe packet must contain atleast one filter")]
    EmptySubscription,
    /// S7: a frame that can't be read, or a packet that can't be written; why.
    #[error("Mqtt serialization/deserialization error: {0}")]
    Deserialization(Error),
    /// S8: a topic alias above the broker's maximum.
    #[error("Cannot use topic alias '{alias:?}'. It's greater than the broker's maximum of '{max:?}'.")]
    InvalidAlias {
        alias: u16,
        max: u16,
    },
    /// S9: a packet over the outgoing limit; its size, or the greatest `u32` where it is more.
    #[error("Cannot send packet of size '{pkt_size:?}'. It's greater than the broker's maximum packet size of: '{max:?}'")]
    OutgoingPacketTooLarge {
        pkt_size: u32,
        max: u32,
    },
    /// Never answered.
    #[error("Cannot receive packet of size '{pkt_size:?}'. It's greater than the client's maximum packet size of: '{max:?}'")]
    IncomingPacketTooLarge {
        pkt_size: usize,
        max: usize,
    },
    /// S10: the broker ended the connection; why, and its text for people.
    #[error("Server sent disconnect with reason `{reason_string:?}` and code '{reason_code:?}' ")]
    ServerDisconnect {
        reason_code: DisconnectReasonCode,
        reason_string: Option<Text>,
    },
    /// S11: the broker refused the connection; why.
    #[error("Connection failed with reason '{reason:?}' ")]
    ConnFail {
        reason: ConnectReturnCode,
    },
    /// Never answered.
    #[error("Connection closed by peer abruptly")]
    ConnectionAborted,
    /// S12: memory that was asked for was refused.
    #[error("Out of memory")]
    OutOfMemory,
    /// S13: a request behind a Disconnect, which ends what a client sends on a connection.
    #[error("Disconnect was sent")]
    Disconnected,
}

impl StateError {
    ghost use Rattle.mqtt5_inflight.specs.Numbers.{state_error_number};

    /// Its number, n of Sn: 1 to 13; 0 of one that is never answered. Why a frame can't be read or a packet can't
    /// be written (7) has a number of its own. Takes no memory.
    pub fn number(&self) -> u8
        ensures { result ≡ state_error_number self.now }
    {
        match self {
            StateError::InvalidState => 1,
            StateError::Unsolicited(_) => 2,
            StateError::AwaitPingResp => 3,
            StateError::WrongPacket => 4,
            StateError::CollisionTimeout => 5,
            StateError::EmptySubscription => 6,
            StateError::Deserialization(_) => 7,
            StateError::InvalidAlias { .. } => 8,
            StateError::OutgoingPacketTooLarge { .. } => 9,
            StateError::ServerDisconnect { .. } => 10,
            StateError::ConnFail { .. } => 11,
            StateError::OutOfMemory => 12,
            StateError::Disconnected => 13,
            StateError::Io
            | StateError::Coversion
            | StateError::IncomingPacketTooLarge { .. }
            | StateError::ConnectionAborted => 0,
        }
    }
}

/// E20 is S9, E21 is S12, every other S7.
impl From<Error> for StateError {
    ghost from_gives = { λ e s. s ≡ state_error e };

    fn from(error: Error) -> StateError {
        match error {
            Error::OutgoingPacketTooLarge { pkt_size, max } => StateError::OutgoingPacketTooLarge {
                pkt_size,
                max,
            },
            Error::OutOfMemory => StateError::OutOfMemory,
            other => StateError::Deserialization(other),
        }
    }
}

impl From<AllocError> for StateError {
    ghost from_gives = { λ _ e. e ≡ OutOfMemory };

    fn from(_refused: AllocError) -> StateError {
        StateError::OutOfMemory
    }
}

impl<T: Drop> From<AllocFailed<T>> for StateError {
    ghost from_gives = { λ _ e. e ≡ OutOfMemory };

    fn from(_refused: AllocFailed<T>) -> StateError {
        StateError::OutOfMemory
    }
}
