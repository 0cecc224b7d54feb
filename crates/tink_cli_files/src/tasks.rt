//! Tasks over the bytes of a source. They make a stream, its text, a rewrapped stream, a token or its
//! payload.

ghost use Rattle.std.specs.Prelude.{◌≡◌, ℕ, List, Some, None, true, false, IfErr, IfOk, OnErr};
ghost use Rattle.tink_io.specs.Outside.{FaultsStay, outside, outside_of, AreKnown};
ghost use Rattle.tink_cli_files.specs.Streams.{IsShownWhole, RanAndEnded, Succeeds};
ghost use Rattle.tink_cli_files.specs.Tasks.{CanDo, IsBeforeReading, IsBeforeWriting, IsDone, LeavesOrMoves};
ghost use Rattle.tink_cli_files.specs.Tasks.{TaskMeans, answered_as};

use std::alloc::Global;
use tink_io::saving::finish;
use tink_io::{Draws, Place, Sink, Source, TinkError};
use tink_rewrap::rewrap::rewrap;
use tink_run::report::{Command, Report};
use tink_run::run::run;
use tink_tokens::{write_payload, write_token};

/// A task over the bytes of a source under a keyset.
#[derive(Clone, Copy)]
pub enum Task<'k> {
    /// A stream is sealed or opened.
    Run(Command),
    /// A stream is moved to the primary key of the keyset `to`, with the associated data `to_aad`.
    Rewrap { to: &'k [u8], to_aad: &'k [u8] },
    /// A token is made, by the primary key's MAC.
    Sign,
    /// The payload of a token is given, whose MAC a key accepts.
    Verify,
}

/// Writes what a task makes of a source's bytes, and answers the report of a stream; a token has none. `aad` is the
/// associated data of the stream that is sealed, opened or moved. It is not read for a token. Only a stream that is
/// made takes draws.
///
/// # Errors
/// Those of `run` of `tink_run`, `rewrap` of `tink_rewrap`, or `write_token` or `write_payload` of
/// `tink_tokens`.
pub fn write_task<S: Source, K: Sink>(
    alloc: Global,
    task: Task<'_>,
    keyset: &[u8],
    aad: &[u8],
    draws: &mut Draws,
    source: &mut S,
    sink: &mut K,
) -> Result<Option<Report>, TinkError>
    // Each answer has its cause, and says what stands after it, and how far the source was read where that is bounded.
    ensures means { TaskMeans task.entry keyset.now aad.now draws.old draws.new
        (outside S.Source K.Sink source.old sink.old)
        (outside S.Source K.Sink source.new sink.new) result }

    // Known bytes: exactly what the task makes of the whole input was written.
    ensures ok { IfOk result (λ report. (T G : List ℕ)
        → AreKnown (outside S.Source K.Sink source.old sink.old) T G
        → IsDone task.entry keyset.now aad.now draws.old draws.new T G
        (outside S.Source K.Sink source.new sink.new) report) }

    // Known bytes: where no end fails and the task can be done, it is, or there is no memory.
    ensures succeeds { (T G : List ℕ)
        → AreKnown (outside S.Source K.Sink source.old sink.old) T G
        → CanDo task.entry keyset.now aad.now draws.old T
        → Succeeds (S.faults source.old) (S.faults source.new) (K.faults sink.old) (K.faults sink.new) result }

    // A refusal that comes before anything was read leaves the source itself as it was, and one that comes before
    // anything was written the sink, whatever they tell.
    ensures unread { IfErr result (λ e. IsBeforeReading task.entry e.kind → source.new ≡ source.old) }
    ensures unwritten { IfErr result (λ e. IsBeforeWriting task.entry e.kind → sink.new ≡ sink.old) }

    // A refused move of a stream has chosen a key, or has left the sink itself as it was.
    ensures begun { IfErr result (λ e. LeavesOrMoves task.entry keyset.now aad.now
        (outside S.Source K.Sink source.old sink.old) sink.old sink.new) }
    ensures later { FaultsStay (outside S.Source K.Sink source.old sink.old)
        (outside S.Source K.Sink source.new sink.new) }
    ensures source { S.same source.old source.new }
    ensures sink { K.same sink.old sink.new }
{
    match task {
        Task::Run(command) => with_report(run(alloc, command, keyset, aad, draws, source, sink)),
        Task::Rewrap { to, to_aad } => {
            with_report(rewrap(alloc, keyset, aad, to, to_aad, draws, source, sink))
        }
        Task::Sign => without_report(write_token(alloc, keyset, source, sink)),
        Task::Verify => without_report(write_payload(alloc, keyset, source, sink)),
    }
}

/// Writes what a task makes of a source's bytes into a draft, which is shown where all of it was done, and
/// else taken away.
///
/// # Errors
/// Those of `write_task`, and `WriteFault` where the draft could not be shown: what was shown stays.
pub fn save_task<S: Source, P: Place>(
    alloc: Global,
    task: Task<'_>,
    keyset: &[u8],
    aad: &[u8],
    draws: &mut Draws,
    source: &mut S,
    place: &mut P,
) -> Result<Option<Report>, TinkError>
    requires { P.has_draft place.old ≡ true }

    // The task wrote the draft, and by its answer the draft was shown or taken away.
    ensures ran { RanAndEnded P.got P.faults (λ draft answer. TaskMeans task.entry keyset.now aad.now
        draws.old draws.new (outside_of S.left S.faults P.got P.faults source.old place.old)
        (outside_of S.left S.faults P.got P.faults source.new draft) answer)
        (P.replaces place.old) (P.shown place.old) (P.shown place.new) (P.faults place.new) result }

    // Known bytes: what is shown is exactly what the task makes of the whole input.
    ensures ok { IfOk result (λ report. IsShownWhole P.got (λ draft value. (T G : List ℕ)
        → AreKnown (outside_of S.left S.faults P.got P.faults source.old place.old) T G
        → IsDone task.entry keyset.now aad.now draws.old draws.new T G
        (outside_of S.left S.faults P.got P.faults source.new draft) value)
        (P.replaces place.old) (P.shown place.old) (P.shown place.new) report) }

    // Known bytes: where no end fails and the task can be done, it is, or there is no memory.
    ensures succeeds { (T G : List ℕ)
        → AreKnown (outside_of S.left S.faults P.got P.faults source.old place.old) T G
        → CanDo task.entry keyset.now aad.now draws.old T
        → Succeeds (S.faults source.old) (S.faults source.new) (P.faults place.old) (P.faults place.new)
        result }
    ensures err { OnErr result (P.shown place.new ≡ P.shown place.old) }
    ensures unread { IfErr result (λ e. IsBeforeReading task.entry e.kind → source.new ≡ source.old) }

    // Whatever the answer, no draft is left, and the rest of the place stays.
    ensures place { (P.has_draft place.new ≡ false) × P.rest place.old place.new }

    // Whatever the answer, no count of faults fell, and what calls keep of the source is kept.
    ensures stays { FaultsStay (outside_of S.left S.faults P.got P.faults source.old place.old)
        (outside_of S.left S.faults P.got P.faults source.new place.new)
        × S.same source.old source.new }
{
    let answer = write_task(alloc, task, keyset, aad, draws, source, place);
    finish(place, answer)
}

// The answer about a stream.
fn with_report(answer: Result<Report, TinkError>) -> Result<Option<Report>, TinkError>
    ensures { result ≡ answered_as (λ report. Some report) answer }
{
    match answer {
        Ok(report) => Ok(Some(report)),
        Err(e) => Err(e),
    }
}

// The answer about a token.
fn without_report(answer: Result<(), TinkError>) -> Result<Option<Report>, TinkError>
    ensures { result ≡ answered_as (λ done. None) answer }
{
    match answer {
        Ok(()) => Ok(None),
        Err(e) => Err(e),
    }
}
