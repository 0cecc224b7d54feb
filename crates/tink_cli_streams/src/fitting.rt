//! A task whose result can be read again.

ghost use Rattle.std.specs.Io.KnownBytes.{Appends};
ghost use Rattle.std.specs.Prelude.{◌≡◌, ◌≤◌, ◌<◌, ◌+◌, ℕ, List, [], length, None, Ok, Err, true, false, IfErr, IfOk, OnErr, OnOk};
ghost use Rattle.std.specs.declared.option.Option.{Option};
ghost use Rattle.tink_cli_files.specs.Streams.{IsShownWhole, RanAndEnded};
ghost use Rattle.tink_cli_files.specs.declared.tasks.Task.TheVariants.{Sign};
ghost use Rattle.tink_cli_streams.specs.Fitting.{FittingMeans, HoldsToken, IsDoneFitting, beside, signs, unheld};
ghost use Rattle.tink_io.specs.Faults.{Rose};
ghost use Rattle.tink_io.specs.Outside.{FaultsStay, AreKnown, outside, outside_of};
ghost use Rattle.tink_io.specs.Written.{AppendsPrefix};
ghost use Rattle.tink_io.specs.declared.error.Kind.TheVariants.{InputTooLong, WriteFault};
ghost use Rattle.tink_tokens.specs.Inputs.{input_limit};

use std::alloc::Global;
use tink_cli_files::{Task, write_task};
use tink_io::saving::finish;
use tink_io::{Draws, Kind, Place, Sink, Source, SureSink, TinkError, write_all};
use tink_run::report::Report;

// The most bytes of a token: as many as `verify` reads.
const MOST: usize = 16_777_216;

/// Writes what a task makes, as `write_task`. A token that is longer than `verify` reads is not written.
///
/// # Errors
/// Those of `write_task`. `InputTooLong` also if the token has more than 16,777,216 bytes. Nothing is written then.
pub fn write_fitting<S: Source, K: Sink>(
    alloc: Global,
    task: Task<'_>,
    keyset: &[u8],
    aad: &[u8],
    draws: &mut Draws,
    source: &mut S,
    sink: &mut K,
) -> Result<Option<Report>, TinkError>
    ensures means { FittingMeans task.entry keyset.now aad.now draws.old draws.new
        (outside S.Source K.Sink source.old sink.old)
        (outside S.Source K.Sink source.new sink.new) result }
    ensures ok { IfOk result (λ report. (T G : List ℕ)
        → AreKnown (outside S.Source K.Sink source.old sink.old) T G
        → IsDoneFitting task.entry keyset.now aad.now draws.old draws.new T G
        (outside S.Source K.Sink source.new sink.new) report) }
    ensures later { FaultsStay (outside S.Source K.Sink source.old sink.old)
        (outside S.Source K.Sink source.new sink.new) }
    ensures source { S.same source.old source.new }
    ensures sink { K.same sink.old sink.new }
{
    if signs(task) {
        return write_token(alloc, task, keyset, aad, draws, source, sink);
    }
    write_task(alloc, task, keyset, aad, draws, source, sink)
}

// Whether a task makes a token.
fn signs(task: Task<'_>) -> bool
    ensures { result ≡ signs task.entry }
{
    match task {
        Task::Sign => true,
        _ => false,
    }
}

// Writes the token of the source's bytes, if it is not too long.
fn write_token<S: Source, K: Sink>(
    alloc: Global,
    task: Task<'_>,
    keyset: &[u8],
    aad: &[u8],
    draws: &mut Draws,
    source: &mut S,
    sink: &mut K,
) -> Result<Option<Report>, TinkError>
    requires { signs task ≡ true }
    ensures means { FittingMeans task.entry keyset.now aad.now draws.old draws.new
        (outside S.Source K.Sink source.old sink.old)
        (outside S.Source K.Sink source.new sink.new) result }
    ensures ok { IfOk result (λ report. (T G : List ℕ)
        → AreKnown (outside S.Source K.Sink source.old sink.old) T G
        → IsDoneFitting task.entry keyset.now aad.now draws.old draws.new T G
        (outside S.Source K.Sink source.new sink.new) report) }
    ensures later { FaultsStay (outside S.Source K.Sink source.old sink.old)
        (outside S.Source K.Sink source.new sink.new) }
    ensures source { S.same source.old source.new }
    ensures sink { K.same sink.old sink.new }
{
    match held_token(alloc, keyset, aad, draws, source) {
        Ok(token) => put_token(sink, &token),
        Err(e) => Err(e),
    }
}

// Writes a token, which has no report.
fn put_token<K: Sink>(sink: &mut K, token: &Vec<u8>) -> Result<Option<Report>, TinkError>
    ensures none { IfOk result (λ report. report ≡ None) }
    ensures written { OnOk result (Appends (K.got sink.old) (K.got sink.new) token.now.items) }
    ensures prefix { OnErr result (AppendsPrefix (K.got sink.old) (K.got sink.new) token.now.items) }
    ensures refused { IfErr result (λ e. e ≡ record { kind = WriteFault }) }
    ensures cause { OnErr result (Rose (K.faults sink.old) (K.faults sink.new)) }
    ensures later { K.faults sink.old ≤ K.faults sink.new }
    ensures same { K.same sink.old sink.new }
{
    match write_all(sink, token) {
        Ok(()) => Ok(None),
        Err(e) => Err(e),
    }
}

// The token of the source's bytes. It is held whole, so that none of one that is too long is written.
fn held_token<S: Source>(
    alloc: Global,
    keyset: &[u8],
    aad: &[u8],
    draws: &mut Draws,
    source: &mut S,
) -> Result<Vec<u8>, TinkError>
    ensures held { IfOk result (λ token. (got : Option (List ℕ)) (writes : ℕ) → HoldsToken keyset.now draws.old draws.new
        (beside (S.left source.old) (S.faults source.old) got writes)
        (beside (S.left source.new) (S.faults source.new) got writes) token.items) }
    ensures refused { IfErr result (λ e. (got : Option (List ℕ)) (writes : ℕ) → FittingMeans Sign keyset.now aad.now draws.old draws.new
        (beside (S.left source.old) (S.faults source.old) got writes)
        (beside (S.left source.new) (S.faults source.new) got writes) (Err e)) }
    ensures later { S.faults source.old ≤ S.faults source.new }
    ensures same { S.same source.old source.new }
{
    let mut token = SureSink::new(alloc);
    match token.reserve(alloc, MOST + 1) {
        Ok(()) => hold(alloc, keyset, aad, draws, source, token),
        Err(e) => Err(e),
    }
}

// The same, in memory that has room for a byte more.
fn hold<S: Source>(
    alloc: Global,
    keyset: &[u8],
    aad: &[u8],
    draws: &mut Draws,
    source: &mut S,
    mut token: SureSink,
) -> Result<Vec<u8>, TinkError>
    requires { token ≡ record { got = []; room = input_limit + 1; piece = 0; fails = []; calls = 0; faults = 0 } }
    ensures held { IfOk result (λ token. (got : Option (List ℕ)) (writes : ℕ) → HoldsToken keyset.now draws.old draws.new
        (beside (S.left source.old) (S.faults source.old) got writes)
        (beside (S.left source.new) (S.faults source.new) got writes) token.items) }
    ensures refused { IfErr result (λ e. (got : Option (List ℕ)) (writes : ℕ) → FittingMeans Sign keyset.now aad.now draws.old draws.new
        (beside (S.left source.old) (S.faults source.old) got writes)
        (beside (S.left source.new) (S.faults source.new) got writes) (Err e)) }
    ensures later { S.faults source.old ≤ S.faults source.new }
    ensures same { S.same source.old source.new }
{
    match write_task(alloc, Task::Sign, keyset, aad, draws, source, &mut token) {
        Ok(_) => short(token.into_bytes()),
        Err(e) => Err(unheld(e)),
    }
}

// A token that is not too long.
fn short(token: Vec<u8>) -> Result<Vec<u8>, TinkError>
    ensures ok { IfOk result (λ v. (v.items ≡ token.items) × (length token.items ≤ input_limit)) }
    ensures long { IfErr result (λ e. (e.kind ≡ InputTooLong) × (input_limit < length token.items)) }
{
    if token.len() > MOST {
        return Err(TinkError::new(Kind::InputTooLong));
    }
    Ok(token)
}

// The error of a token that is held: there was no room for it, or that of the input.
fn unheld(e: TinkError) -> TinkError
    ensures { result.kind ≡ unheld e.kind }
{
    match e.kind {
        Kind::WriteFault => TinkError::new(Kind::InputTooLong),
        _ => e,
    }
}

/// The same into a draft, which is shown if all was done, and else taken away.
///
/// # Errors
/// Those of `write_fitting`, and `WriteFault` if the draft could not be shown. The file stays then.
pub fn save_fitting<S: Source, P: Place>(
    alloc: Global,
    task: Task<'_>,
    keyset: &[u8],
    aad: &[u8],
    draws: &mut Draws,
    source: &mut S,
    place: &mut P,
) -> Result<Option<Report>, TinkError>
    requires { P.has_draft place.old ≡ true }
    ensures ran { RanAndEnded P.got P.faults (λ draft answer. FittingMeans task.entry keyset.now aad.now
        draws.old draws.new (outside_of S.left S.faults P.got P.faults source.old place.old)
        (outside_of S.left S.faults P.got P.faults source.new draft) answer)
        (P.replaces place.old) (P.shown place.old) (P.shown place.new) (P.faults place.new) result }
    ensures ok { IfOk result (λ report. IsShownWhole P.got (λ draft value. (T G : List ℕ)
        → AreKnown (outside_of S.left S.faults P.got P.faults source.old place.old) T G
        → IsDoneFitting task.entry keyset.now aad.now draws.old draws.new T G
        (outside_of S.left S.faults P.got P.faults source.new draft) value)
        (P.replaces place.old) (P.shown place.old) (P.shown place.new) report) }
    ensures err { OnErr result (P.shown place.new ≡ P.shown place.old) }
    ensures gone { P.has_draft place.new ≡ false }
    ensures place { P.rest place.old place.new }
    ensures source { S.same source.old source.new }
{
    let answer = write_fitting(alloc, task, keyset, aad, draws, source, place);
    finish(place, answer)
}
