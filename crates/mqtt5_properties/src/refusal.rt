//! Why there is no such property, or no such set.

use std::alloc::AllocError;

/// Why there is no such property, or no such set.
#[derive(Debug, Clone, Copy, PartialEq, Eq)]
pub enum Refusal {
    /// It can't have that identifier, number or bytes, or the packet can't have it.
    NotTaken,
    /// Memory was refused.
    OutOfMemory,
}

/// Takes no memory.
impl From<AllocError> for Refusal {
    ghost use Rattle.std.specs.Prelude.{◌≡◌};
    ghost use Rattle.mqtt5_properties.specs.declared.refusal.Refusal.TheVariants.{OutOfMemory};

    ghost from_gives = { λ e r. r ≡ OutOfMemory };

    fn from(_error: AllocError) -> Refusal {
        Refusal::OutOfMemory
    }
}
