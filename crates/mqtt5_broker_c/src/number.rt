//! What a call answers.

ghost use Rattle.std.specs.Prelude.{◌≡◌, OnOk, OnErr};
ghost use Rattle.mqtt5_broker_c.specs.Numbers.{done, out_of_memory};

use mqtt5_session::StateError;

/// It is done.
pub(crate) const DONE: u32 = 0;

/// Memory ran out: S12, which is the only fault of a broker's calls.
pub(crate) const OUT_OF_MEMORY: u32 = 12;

/// The handle has no broker.
pub(crate) const NO_BROKER: u32 = 200;

/// An argument isn't taken.
pub(crate) const BAD_ARGUMENT: u32 = 201;

/// The handle has a broker already.
pub(crate) const HAS_BROKER: u32 = 202;

/// The number of an outcome. Takes no memory.
pub(crate) fn code_of(outcome: &Result<(), StateError>) -> u32
    ensures ok { OnOk outcome.now (result ≡ done) }
    ensures refused { OnErr outcome.now (result ≡ out_of_memory) }
{
    match outcome {
        Ok(()) => DONE,
        Err(_fault) => OUT_OF_MEMORY,
    }
}
