//! Property blocks that a short body doesn't have.

ghost use Rattle.std.specs.Prelude.{◌≡◌, Some, None, option_map};
ghost use Rattle.mqtt5_base.specs.Grammar.{properties, block};
ghost use Rattle.mqtt5_base.specs.Answers.{Gives};
ghost use Rattle.mqtt5_base.specs.Reading.{optional_at};

use bytes::Bytes;
use mqtt5_base::{Error, PropertySet, read_block};
use std::alloc::Global;

/// The block at the front of the body, where there is one; else no properties.
pub(crate) fn read_block_if<P: PropertySet>(
    alloc: Global,
    there: bool,
    body: &mut Bytes,
) -> Result<Option<P>, Error>
    ensures { Gives (λ p. (properties (option_map P.found p), body.new)) result
        (optional_at there (block P.table) (properties None) body.old) }
{
    if !there {
        return Ok(None);
    }
    read_block(alloc, body)
}
