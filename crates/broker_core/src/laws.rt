//! What is promised of a broker's errors, as the contract of a function with an empty body.

ghost use Rattle.mqtt5_base.specs.Laws.{IsEquality};

use crate::error::BrokerError;

/// The `==` of a broker's errors holds of equal values, and of them alone.
pub fn broker_error_equality()
    ensures { IsEquality ⟦<BrokerError as PartialEq>⟧.eq }
{}
