//! The three commands of streams.

ghost use Rattle.std.specs.Prelude.{[]};
ghost use Rattle.tink_run.specs.declared.report.Command.TheVariants.{Seal, Open};
ghost use Rattle.tink_io.specs.Outside.{outside};
ghost use Rattle.tink_program_core.specs.Draws.{draws_in};
ghost use Rattle.tink_program_core.specs.Streams.{Moved, Ran, SparesEnds};
ghost use Rattle.tink_program_core.specs.Words.{sides_of};

use crate::words::{OpenArgs, RewrapArgs, SealArgs, Seed, first_draws};
use std::alloc::Global;
use tink_io::{Draws, Sink, Source, TinkError};
use tink_rewrap::rewrap::rewrap;
use tink_run::report::{Command, Report};
use tink_run::run::run;

/// Encrypts a stream with the random bytes of the seed.
///
/// # Errors
/// As `run` lists them for encryption.
pub fn run_seal<S: Source, K: Sink>(
    alloc: Global,
    args: &SealArgs,
    seed: Seed,
    source: &mut S,
    sink: &mut K,
) -> Result<Report, TinkError>
    ensures ran { Ran Seal args.now.keyset.items args.now.aad.items (draws_in seed 256)
        (outside S.Source K.Sink source.old sink.old)
        (outside S.Source K.Sink source.new sink.new)
        result }
    ensures ends { SparesEnds result source.old source.new sink.old sink.new }
    ensures source { S.same source.old source.new }
    ensures sink { K.same sink.old sink.new }
{
    let mut draws = Draws::new(first_draws(alloc, seed)?);
    run(
        alloc,
        Command::Seal,
        &args.keyset,
        &args.aad,
        &mut draws,
        source,
        sink,
    )
}

/// Decrypts a stream, without random bytes.
///
/// # Errors
/// As `run` lists them for decryption.
pub fn run_open<S: Source, K: Sink>(
    alloc: Global,
    args: &OpenArgs,
    source: &mut S,
    sink: &mut K,
) -> Result<Report, TinkError>
    ensures ran { Ran Open args.now.keyset.items args.now.aad.items []
        (outside S.Source K.Sink source.old sink.old)
        (outside S.Source K.Sink source.new sink.new)
        result }
    ensures ends { SparesEnds result source.old source.new sink.old sink.new }
    ensures source { S.same source.old source.new }
    ensures sink { K.same sink.old sink.new }
{
    let none = Vec::new(alloc);
    let mut draws = Draws::new(none);
    run(
        alloc,
        Command::Open,
        &args.keyset,
        &args.aad,
        &mut draws,
        source,
        sink,
    )
}

/// Rewraps a stream with the random bytes of the seed.
///
/// # Errors
/// As `rewrap` lists them.
pub fn run_rewrap<S: Source, K: Sink>(
    alloc: Global,
    args: &RewrapArgs,
    seed: Seed,
    source: &mut S,
    sink: &mut K,
) -> Result<Report, TinkError>
    ensures moved { Moved (sides_of args.now) (draws_in seed 256)
        (outside S.Source K.Sink source.old sink.old)
        (outside S.Source K.Sink source.new sink.new)
        result }
    ensures ends { SparesEnds result source.old source.new sink.old sink.new }
    ensures source { S.same source.old source.new }
    ensures sink { K.same sink.old sink.new }
{
    let mut draws = Draws::new(first_draws(alloc, seed)?);
    rewrap(
        alloc,
        &args.from,
        &args.from_aad,
        &args.to,
        &args.to_aad,
        &mut draws,
        source,
        sink,
    )
}
