//! The two commands that make keysets.

ghost use Rattle.std.specs.Prelude.{◌≡◌, IfErr, string_bytes};
ghost use Rattle.tink_program_core.specs.Keysets.{GivesLine, WritesLine, of_keyset, of_no_keys};
ghost use Rattle.tink_tokens.specs.Inputs.{IsUnwritten};

use crate::words::{RotateArgs, Seed, first_draws};
use std::alloc::Global;
use tink_io::{Draws, Sink, TinkError, write_all};
use tink_keygen::{key_line, keygen, rotate};

/// Writes the line of a keyset of one new key, with the random bytes of the seed.
///
/// # Errors
/// `WriteFault` if the sink failed, with a prefix of the line written. Each other error leaves the sink as it is:
/// `UnknownTemplate` if no template has the name; `NoFreshId` if no fresh id was drawn; `OutOfMemory`.
pub fn write_new<K: Sink>(
    alloc: Global,
    template: &str,
    seed: Seed,
    sink: &mut K,
) -> Result<(), TinkError>
    ensures answer { WritesLine (of_no_keys template.now seed)
        (K.got sink.old) (K.got sink.new) (K.faults sink.old) (K.faults sink.new) result }
    ensures early { IfErr result (λ e. IsUnwritten e.kind → sink.new ≡ sink.old) }
    ensures sink { K.same sink.old sink.new }
{
    let line = new_line(alloc, template, seed)?;
    write_all(sink, &line)
}

/// Writes the line of a keyset with a new key as its primary key, with the random bytes of the seed.
///
/// # Errors
/// `WriteFault` if the sink failed, with a prefix of the line written. Each other error leaves the sink as it is:
/// `BadKeyset` or `InvalidKeyset` if the keyset given is not valid; `UnknownTemplate` if no template has the name;
/// `NoFreshId` if no fresh id was drawn; `OutOfMemory`.
pub fn write_rotated<K: Sink>(
    alloc: Global,
    args: &RotateArgs,
    seed: Seed,
    sink: &mut K,
) -> Result<(), TinkError>
    ensures answer { WritesLine (of_keyset args.now.keyset.items (string_bytes args.now.template) seed)
        (K.got sink.old) (K.got sink.new) (K.faults sink.old) (K.faults sink.new) result }
    ensures early { IfErr result (λ e. IsUnwritten e.kind → sink.new ≡ sink.old) }
    ensures sink { K.same sink.old sink.new }
{
    let line = rotated_line(alloc, args, seed)?;
    write_all(sink, &line)
}

// The line of a keyset of one new key.
fn new_line(alloc: Global, template: &str, seed: Seed) -> Result<Vec<u8>, TinkError>
    ensures { GivesLine (of_no_keys template.now seed) result }
{
    let mut draws = Draws::new(first_draws(alloc, seed)?);
    let keyset = keygen(alloc, template, &mut draws)?;
    key_line(alloc, &keyset)
}

// The line of a keyset with a new key.
fn rotated_line(alloc: Global, args: &RotateArgs, seed: Seed) -> Result<Vec<u8>, TinkError>
    ensures { GivesLine (of_keyset args.now.keyset.items (string_bytes args.now.template) seed) result }
{
    let mut draws = Draws::new(first_draws(alloc, seed)?);
    let keyset = rotate(alloc, &args.keyset, args.template.as_str(), &mut draws)?;
    key_line(alloc, &keyset)
}
