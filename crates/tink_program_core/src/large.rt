//! The command that measures a large text.

ghost use Rattle.std.specs.Prelude.{◌≡◌, IfErr, IfOk};
ghost use Rattle.tink_io.specs.declared.error.Kind.TheVariants.{OutOfMemory};
ghost use Rattle.tink_program_core.specs.Large.{WritesLarge, lines_of};
ghost use Rattle.tink_tokens.specs.Inputs.{IsUnwritten};

use crate::words::first_draws;
use std::alloc::Global;
use tink_io::{Draws, Sink, TinkError, write_all};
use tink_large::{lines, measure};

// The seed of every large text.
const SEED: [u8; 32] = [0; 32];

/// Writes the four lines of the large text of a number, with the random bytes of the seed of zeros.
///
/// # Errors
/// `OutOfMemory`, with nothing written; `WriteFault` if the sink failed, with a prefix of the lines written.
pub fn write_large<K: Sink>(alloc: Global, n: u32, sink: &mut K) -> Result<(), TinkError>
    ensures answer { WritesLarge n (K.got sink.old) (K.got sink.new) (K.faults sink.old) (K.faults sink.new) result }
    ensures early { IfErr result (λ e. IsUnwritten e.kind → sink.new ≡ sink.old) }
    ensures sink { K.same sink.old sink.new }
{
    let text = text_of(alloc, n)?;
    write_all(sink, &text)
}

// These lines.
fn text_of(alloc: Global, n: u32) -> Result<Vec<u8>, TinkError>
    ensures lines { IfOk result (λ v. v.items ≡ lines_of n) }
    ensures refused { IfErr result (λ e. e ≡ record { kind = OutOfMemory }) }
{
    let mut draws = Draws::new(first_draws(alloc, SEED)?);
    let measured = measure(alloc, n, &mut draws)?;
    lines(alloc, &measured)
}
