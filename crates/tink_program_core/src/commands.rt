//! All of the commands, by what was read of the words.

ghost use Rattle.std.specs.Prelude.{◌≡◌, true};
ghost use Rattle.tink_io.specs.Outside.{outside};
ghost use Rattle.tink_program_core.specs.Program.{CommandMeans, DoesAsked, IsUnwrittenBy, Leaves, Promises, reads_first, status_of, takes_no_input};
ghost use Rattle.tink_program_core.specs.Words.{asked_of};

use crate::keysets::{write_new, write_rotated};
use crate::large::write_large;
use crate::outcomes::{Outcome, outcome_of};
use crate::ranges::write_range;
use crate::streams::{run_open, run_rewrap, run_seal};
use crate::words::{Parsed, Seed};
use std::alloc::Global;
use tink_io::{Sink, Source};
use tink_tokens::{write_payload, write_token};

/// Runs a parsed command, with the random bytes of `seed`.
///
/// # Errors
/// The outcome is the kind of the command's error; `CommandMeans` lists those of each command.
pub fn run_parsed<S: Source, K: Sink>(
    alloc: Global,
    parsed: Parsed,
    seed: Seed,
    source: &mut S,
    sink: &mut K,
) -> Outcome
    ensures means { CommandMeans (asked_of parsed seed)
        (outside S.Source K.Sink source.old sink.old)
        (outside S.Source K.Sink source.new sink.new)
        result }
    ensures early { Leaves (reads_first (asked_of parsed seed)) (λ kind. IsUnwrittenBy (asked_of parsed seed) kind)
        result source.old source.new sink.old sink.new }
    ensures kept { takes_no_input (asked_of parsed seed) ≡ true → source.new ≡ source.old }
    ensures promised { Promises (asked_of parsed seed)
        (outside S.Source K.Sink source.old sink.old)
        (outside S.Source K.Sink source.new sink.new)
        (status_of result) }
    ensures source { S.same source.old source.new }
    ensures sink { K.same sink.old sink.new }
{
    done_by(alloc, &parsed, seed, source, sink)
}

// What `run_parsed` answers. It lets go of nothing, and all that `run_parsed` promises follows from its clause.
fn done_by<S: Source, K: Sink>(
    alloc: Global,
    parsed: &Parsed,
    seed: Seed,
    source: &mut S,
    sink: &mut K,
) -> Outcome
    ensures { DoesAsked S.same K.same (asked_of parsed.now seed)
        (outside S.Source K.Sink source.old sink.old)
        (outside S.Source K.Sink source.new sink.new)
        result source.old source.new sink.old sink.new }
{
    match parsed {
        Parsed::Seal(args) => outcome_of(run_seal(alloc, args, seed, source, sink)),
        Parsed::Open(args) => outcome_of(run_open(alloc, args, source, sink)),
        Parsed::Keygen(template) => outcome_of(write_new(alloc, template.as_str(), seed, sink)),
        Parsed::Rotate(args) => outcome_of(write_rotated(alloc, args, seed, sink)),
        Parsed::Large(n) => outcome_of(write_large(alloc, *n, sink)),
        Parsed::Range(args) => outcome_of(write_range(alloc, args, source, sink)),
        Parsed::Sign(keyset) => outcome_of(write_token(alloc, keyset, source, sink)),
        Parsed::Verify(keyset) => outcome_of(write_payload(alloc, keyset, source, sink)),
        Parsed::Rewrap(args) => outcome_of(run_rewrap(alloc, args, seed, source, sink)),
    }
}
