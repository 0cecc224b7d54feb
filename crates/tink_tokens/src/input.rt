//! An input that is held whole.

ghost use Rattle.std.specs.Prelude.{◌+◌, ◌≤◌, IfErr, IfOk};
ghost use Rattle.tink_io.specs.declared.error.Kind.TheVariants.{InputTooLong};
ghost use Rattle.tink_keyset_io.specs.Reading.{IsUnreadText};
ghost use Rattle.tink_io.specs.Taken.{LosesAtMost};
ghost use Rattle.tink_tokens.specs.Inputs.{ReadsInput, input_limit};

use std::alloc::Global;
use tink_io::{Kind, Source, TinkError};
use tink_keyset_io::read_whole;

// The most bytes of input.
const MOST: usize = 16_777_216;

/// All bytes that the source has left, 16,777,216 at most. Of a longer input at most one byte more is taken.
///
/// # Errors
/// `ReadFault` where the source failed; `InputTooLong` exactly where it has more; `OutOfMemory`.
pub fn read_input<S: Source>(alloc: Global, source: &mut S) -> Result<Vec<u8>, TinkError>
    ensures input { IfOk result (λ v. ReadsInput (S.left source.old) (S.left source.new) v.items) }
    ensures refused { IfErr result (λ e. IsUnreadText input_limit InputTooLong (S.left source.old) e.kind
        (S.faults source.old) (S.faults source.new)) }
    ensures taken { LosesAtMost (input_limit + 1) (S.left source.old) (S.left source.new) }
    ensures later { S.faults source.old ≤ S.faults source.new }
    ensures same { S.same source.old source.new }
{
    read_whole(alloc, source, MOST, Kind::InputTooLong)
}
