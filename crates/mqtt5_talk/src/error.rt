//! Why a talk with a broker stops.

ghost use Rattle.std.specs.Prelude.{◌≡◌, None, Some, IfOk, IfErr};
ghost use Rattle.mqtt5_talk.specs.declared.error.TalkError.TheVariants.{Failed, Forbidden as OfForbidden};
ghost use Rattle.mqtt5_talk.specs.TalkErrors.{error_of, broker_said, unasked};
ghost use Rattle.mqtt5_pipe.specs.declared.error.PipeError.TheVariants as faults;
ghost use Rattle.mqtt5_inflight.specs.declared.error.StateError.TheVariants.{OutOfMemory};
ghost use Rattle.mqtt5_inflight.specs.Errors.{state_error};

use crate::capabilities::Forbidden;
use crate::reason::ReasonText;
use mqtt5_base::Error;
use mqtt5_client::StoreError;
use mqtt5_control::{Auth, ConnectReturnCode, DisconnectReasonCode};
use mqtt5_pipe::PipeError;
use mqtt5_publish::PubAckReason;
use mqtt5_session::StateError;
use mqtt5_subscribe::{SubscribeReasonCode, UnsubAckReason};
use std::alloc::{AllocError, AllocFailed};
use std::io;

/// Why a talk with a broker stops.
#[derive(Debug, Drop, thiserror::Error)]
pub enum TalkError {
    /// The ConnAck refuses the connection; why.
    #[error("the broker refused the connection: {0:?}{1}")]
    Refused(ConnectReturnCode, ReasonText),
    /// The stream of the broker's bytes came to its end.
    #[error("the connection was closed")]
    Closed,
    /// The broker sent a Disconnect; why.
    #[error("the broker ended the connection: {0:?}{1}")]
    Ended(DisconnectReasonCode, ReasonText),
    /// The broker's first packet is no ConnAck.
    #[error("the broker didn't answer the connect")]
    OutOfTurn,
    /// The SubAck refuses a filter; the first such reason.
    #[error("the broker refused the subscription: {0:?}{1}")]
    NotSubscribed(SubscribeReasonCode, ReasonText),
    /// The UnsubAck refuses to end a subscription; the first such reason.
    #[error("the broker refused to end the subscription: {0:?}{1}")]
    NotUnsubscribed(UnsubAckReason, ReasonText),
    /// The PubAck or PubRec refuses the message of this packet identifier; why.
    #[error("the broker refused the message: {reason:?}{text}")]
    NotPublished {
        pkid: u16,
        reason: PubAckReason,
        text: ReasonText,
    },
    /// The ConnAck says that the broker doesn't take this, so it isn't sent.
    #[error("the broker takes no {0}")]
    Forbidden(Forbidden),
    /// What is to be published can't be read.
    #[error("the file can't be read: {0}")]
    Unread(io::Error),
    /// A message couldn't be shown. It isn't acknowledged.
    #[error("a message can't be shown: {0}")]
    Unshown(io::Error),
    /// The file that the session is kept in can't be read or written. What would have been sent then isn't.
    #[error("the session can't be stored: {0}")]
    Unstored(io::Error),
    /// That file has no session.
    #[error("no stored session: {0}")]
    NotASession(StoreError),
    /// Messages of a session that was kept are let go: the broker has the session no more, or takes none of their length.
    #[error("{0} messages are let go: the broker lost the session, or they are too long for it")]
    LetGo(u64),
    /// Every other fault.
    #[error("{0}")]
    Failed(PipeError),
}

/// Why a talk stops where an Auth comes, for which it never asks.
pub(crate) fn unasked(auth: Auth) -> TalkError
    ensures { result ≡ unasked }
{
    drop(auth);
    TalkError::Failed(PipeError::Session(StateError::WrongPacket))
}

/// What the broker said, where that is why a session stopped; else that fault.
fn said(fault: StateError) -> Result<TalkError, StateError>
    ensures said { IfOk result (λ trouble. broker_said fault ≡ Some trouble) }
    ensures fault { IfErr result (λ kept. (kept ≡ fault) × (broker_said fault ≡ None)) }
{
    match fault {
        StateError::ConnFail { reason } => Ok(TalkError::Refused(
            reason,
            ReasonText { text: None },
        )),
        StateError::ServerDisconnect {
            reason_code,
            reason_string,
        } => Ok(TalkError::Ended(
            reason_code,
            ReasonText {
                text: reason_string,
            },
        )),
        other => Err(other),
    }
}

/// What the broker said, where that is why a session stopped.
fn of_session(fault: StateError) -> TalkError
    ensures { result ≡ error_of (faults.Session fault) }
{
    match said(fault) {
        Ok(trouble) => trouble,
        Err(fault) => TalkError::Failed(PipeError::Session(fault)),
    }
}

/// The same where the writer failed too.
fn of_unanswered(fault: StateError, error: io::Error) -> TalkError
    ensures { result ≡ error_of (faults.Unanswered fault error) }
{
    match said(fault) {
        Ok(trouble) => trouble,
        Err(fault) => TalkError::Failed(PipeError::Unanswered(fault, error)),
    }
}

/// What the broker said where that is the fault, also where the writer failed too; else the fault.
impl From<PipeError> for TalkError {
    ghost from_gives = { λ fault trouble. trouble ≡ error_of fault };

    fn from(fault: PipeError) -> TalkError {
        match fault {
            PipeError::Session(why) => of_session(why),
            PipeError::Unanswered(why, error) => of_unanswered(why, error),
            other => TalkError::Failed(other),
        }
    }
}

/// What the ConnAck forbids.
impl From<Forbidden> for TalkError {
    ghost from_gives = { λ forbidden trouble. trouble ≡ OfForbidden forbidden };

    fn from(forbidden: Forbidden) -> TalkError {
        TalkError::Forbidden(forbidden)
    }
}

/// A packet that can't be written.
impl From<Error> for TalkError {
    ghost from_gives = { λ error trouble. trouble ≡ Failed (faults.Session (state_error error)) };

    fn from(error: Error) -> TalkError {
        TalkError::Failed(PipeError::Session(StateError::from(error)))
    }
}

/// Want of memory.
impl From<AllocError> for TalkError {
    ghost from_gives = { λ _ trouble. trouble ≡ Failed (faults.Session OutOfMemory) };

    fn from(_refused: AllocError) -> TalkError {
        TalkError::Failed(PipeError::Session(StateError::OutOfMemory))
    }
}

/// Want of memory.
impl<T: Drop> From<AllocFailed<T>> for TalkError {
    ghost from_gives = { λ _ trouble. trouble ≡ Failed (faults.Session OutOfMemory) };

    fn from(_refused: AllocFailed<T>) -> TalkError {
        TalkError::Failed(PipeError::Session(StateError::OutOfMemory))
    }
}
