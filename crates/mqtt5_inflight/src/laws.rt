//! What is promised of a session's errors, as the contract of a function with an empty body.

ghost use Rattle.mqtt5_base.specs.Laws.{IsEquality};

use crate::error::StateError;

/// The `==` of a session's errors holds of equal values, and of them alone.
pub fn state_error_equality()
    ensures { IsEquality ⟦<StateError as PartialEq>⟧.eq }
{}
