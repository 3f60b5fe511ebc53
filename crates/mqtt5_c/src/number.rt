//! Outcomes as numbers.

ghost use Rattle.std.specs.Prelude.{◌≡◌};
ghost use Rattle.mqtt5_c.specs.Numbers.{fault_code, code_of};

use mqtt5_client::{StateError, error_number, state_error_number};

/// The handle has no client.
pub(crate) const NO_CLIENT: u32 = 200;

/// An argument isn't taken.
pub(crate) const BAD_ARGUMENT: u32 = 201;

/// The handle has a client already.
pub(crate) const HAS_CLIENT: u32 = 202;

/// A buffer is too small.
pub(crate) const SMALL_BUFFER: u32 = 203;

/// The oldest event, or the oldest request that was let go, hasn't what is asked for.
pub(crate) const ABSENT: u32 = 204;

/// Memory ran out: S12.
pub(crate) const OUT_OF_MEMORY: u32 = 12;

/// The number of a fault. Takes no memory.
pub(crate) fn fault_code(fault: &StateError) -> u32
    ensures { result ≡ fault_code fault.now }
{
    match fault {
        StateError::Deserialization(error) => 100 + u32::from(error_number(error)),
        other => u32::from(state_error_number(other)),
    }
}

/// The number of an outcome. Takes no memory.
pub(crate) fn code_of(outcome: &Result<(), StateError>) -> u32
    ensures { result ≡ code_of outcome.now }
{
    match outcome {
        Ok(()) => 0,
        Err(fault) => fault_code(fault),
    }
}
