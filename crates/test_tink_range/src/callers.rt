//! The caller that the library's README shows.

ghost use Rattle.std.specs.Prelude.{◌≡◌};

use std::sync::ledger::Ledger;
use tink_io::{Sink, TinkError};
use tink_range::{RangeReader, ReadAt, Steps};

/// A page of 4,096 bytes of a sealed file.
pub fn page<A: ReadAt, K: Sink, L: Ledger>(
    file: &mut RangeReader<A>,
    number: u32,
    sink: &mut K,
    steps: &mut Steps<L>,
) -> Result<u64, TinkError>
    ensures { file.new.opening ≡ file.old.opening }
{
    file.read_range(u64::from(number) * 4096, 4096, sink, steps)
}
