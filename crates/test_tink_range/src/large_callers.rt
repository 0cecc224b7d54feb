//! The caller that the README of `tink_large` shows.

ghost use Rattle.std.specs.Prelude.{◌≡◌, IfOk};
ghost use Rattle.stream_model.specs.Sealing.{chunk_count};
ghost use Rattle.tink_large.specs.Large.{large_key, large_text};

use std::alloc::Global;
use tink_io::{Draws, TinkError};
use tink_large::measure;

// In how many segments the large text of a number is sealed.
pub fn segments_of(alloc: Global, n: u32, draws: &mut Draws) -> Result<u64, TinkError>
    ensures segments { IfOk result (λ count. count ≡ chunk_count large_key (large_text n)) }
{
    let measured = measure(alloc, n, draws)?;
    Ok(measured.segments)
}
