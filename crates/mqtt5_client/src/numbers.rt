//! Faults as numbers, for a caller that has no enums.

ghost use Rattle.std.specs.Prelude.{◌≡◌};
ghost use Rattle.mqtt5_client.specs.Numbers.{error_number, state_error_number};

use mqtt5_base::Error;
use mqtt5_session::StateError;

/// The number of an error of reading or writing, n of En: 1 to 21; 0 of one that is never answered. Takes no
/// memory.
pub fn error_number(error: &Error) -> u8
    ensures { result ≡ error_number error.now }
{
    error.number()
}

/// The number of a fault of a session, n of Sn: 1 to 13; 0 of one that is never answered. Why a frame can't be
/// read or a packet can't be written (7) has a number of its own, of `error_number`. Takes no memory.
pub fn state_error_number(fault: &StateError) -> u8
    ensures { result ≡ state_error_number fault.now }
{
    fault.number()
}
