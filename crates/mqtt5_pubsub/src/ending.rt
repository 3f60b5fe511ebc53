//! How a talk ended: what is told of it, and the exit status.

ghost use Rattle.std.specs.Prelude.{◌≡◌, ◌≢◌, ◌<◌, ◌⊎◌};

use mqtt5_client::StateError;
use mqtt5_control::{ConnectReturnCode, DisconnectReasonCode};
use mqtt5_pipe::PipeError;
use mqtt5_talk::TalkError;
use std::fmt::Display;
use std::io::{ErrorKind, Write};

/// The exit status where the connection is lost, so that it may be made again.
const LOST: u8 = 3;

/// The exit status where the time is over, as that of mosquitto's clients.
const OVER: u8 = 27;

/// The exit status of a fault: 3 of a connection that is lost, 27 where the time is over, else 1.
pub fn status_of(trouble: &TalkError) -> u8
    ensures status { (result < 4) ⊎ (result ≡ 27) }
    // 0 is of a talk that goes well, and 2 of words that are refused.
    ensures fault { (0 < result) × (result ≢ 2) }
{
    if is_over(trouble) {
        OVER
    } else if is_lost(trouble) {
        LOST
    } else {
        1
    }
}

/// Whether the time is over.
pub fn is_over(trouble: &TalkError) -> bool {
    match trouble {
        TalkError::Failed(PipeError::Read(error)) => error.kind() == ErrorKind::TimedOut,
        _other => false,
    }
}

/// Whether another connection may go better.
fn is_lost(trouble: &TalkError) -> bool {
    match trouble {
        TalkError::Closed => true,
        TalkError::Failed(PipeError::Read(_) | PipeError::Write(_)) => true,
        TalkError::Failed(PipeError::Session(StateError::AwaitPingResp)) => true,
        TalkError::Refused(code, _) => matches!(
            code,
            ConnectReturnCode::UnspecifiedError
                | ConnectReturnCode::ServerUnavailable
                | ConnectReturnCode::ServerBusy
                | ConnectReturnCode::ConnectionRateExceeded
        ),
        TalkError::Ended(reason, _) => matches!(
            reason,
            DisconnectReasonCode::ServerBusy
                | DisconnectReasonCode::ServerShuttingDown
                | DisconnectReasonCode::KeepAliveTimeout
                | DisconnectReasonCode::ConnectionRateExceeded
                | DisconnectReasonCode::MaximumConnectTime
        ),
        _other => false,
    }
}

/// Tells the log why a talk stopped that has this status, and answers the status.
pub fn tell_end<T: Display, E: Write>(trouble: &T, status: u8, log: &mut E) -> u8
    ensures { result ≡ status }
{
    let _ = if status == OVER {
        writeln!(log, "error: the time is over")
    } else {
        writeln!(log, "error: {trouble}")
    };
    status
}
