//! What the definitions promise, as contracts of functions with empty bodies.

ghost use Rattle.mqtt5_base.specs.Laws.{IsEquality, IsGrammar, IsQos, IsShortest};

use crate::error::Error;

/// Reading answers values exactly where the grammar's relation holds of them, and a fault exactly where it is the
/// first; of every frame exactly one of the two.
pub fn grammar_laws()
    ensures { IsGrammar }
{}

/// The shortest form of a variable byte integer stands for its number, up to 268,435,455, and no shorter
/// bytes do.
pub fn shortest_form()
    ensures { IsShortest }
{}

/// A QoS is ordered as its number, and the default is the least.
pub fn qos_laws()
    ensures { IsQos }
{}

/// The `==` of errors holds of equal values, and of them alone.
pub fn error_equality()
    ensures { IsEquality ⟦<Error as PartialEq>⟧.eq }
{}
