//! The command over a range of a stream's text.

ghost use Rattle.std.specs.Prelude.{◌≡◌, ◌≤◌, ◌<◌, ℕ, List, None, Some, Ok, true, false, IfErr, IfSome, IsErrAnd, OnErr, OnOk, option_map};
ghost use Rattle.tink_cli_jobs.specs.Outputs.{IsInFile, IsPut, KeepsFiles, KeepsOtherFiles};
ghost use Rattle.tink_cli_ranges.specs.Leaving.{LeavesRange, MayStop, StaysOr, StopsOf};
ghost use Rattle.tink_cli_ranges.specs.Ranges.{IsRanged, IsRangedOf, IsSliceOf};
ghost use Rattle.tink_cli_ranges.specs.Refusing.{CannotWrite, HasCauseOf, HasRangeCause, IsRangeRefused, MayEnd};
ghost use Rattle.tink_io.specs.Faults.{Rose};
ghost use Rattle.tink_system.specs.States.{KeepsSystem};
ghost use Rattle.tink_system.specs.Statuses.{refusal_status, trouble_status};

use std::alloc::Global;
use std::marker::Brand;
use std::sync::ledger::{Blank, Ledger};
use tink_cli_files::range_to;
use tink_cli_jobs::protecting::keyset_for;
use tink_cli_jobs::{Job, WRITE_FAULT, how_of, job_of};
use tink_cli_words::Line;
use tink_io::{Kind, Sink, TinkError};
use tink_range::Steps;
use tink_rewrap::ranges::run_range;
use tink_system::{System, Trouble};

/// `range`: the bytes of the text from the start on, and no more than the length that the words name.
///
/// # Errors
/// Those of `run_range` of `tink_rewrap`, of `keyset_for`, and 11 and 12 of the input and the output, by their statuses.
/// No file is changed then.
pub fn range<'w, Y: System, K: Sink>(
    alloc: Global,
    system: &mut Y,
    line: &Line<'w>,
    sink: &mut K,
) -> Result<(), Trouble<'w>>
    ensures done { OnOk result ((Y.state system.old).is_known ≡ true → IsRanged line.now
        (Y.state system.old) (Y.state system.new) (K.got sink.old) (K.got sink.new)) }
    ensures left { IfErr result (λ t. (Y.state system.old).is_known ≡ true → LeavesRange line.now (Y.state system.old)
        (K.got sink.old) (K.got sink.new) (trouble_status t)) }
    ensures cause { IfErr result (λ t. (Y.state system.old).is_known ≡ true → HasRangeCause line.now (Y.state system.old)
        (Y.faults system.old) (Y.faults system.new) (K.faults sink.old) (K.faults sink.new) (trouble_status t)) }
    ensures kept { OnErr result ((Y.state system.old).is_known ≡ true → KeepsFiles (Y.state system.old) (Y.state system.new)) }
    ensures system { KeepsSystem (Y.state system.old) (Y.state system.new) }
    ensures random { (Y.state system.new).random ≡ (Y.state system.old).random }
    ensures later { Y.faults system.old ≤ Y.faults system.new }
    ensures sink { K.same sink.old sink.new }
{
    let (Some(job), Some(start), Some(length)) = (job_of(line), line.start(), line.length()) else {
        return Err(Trouble::Usage);
    };
    match keyset_for(alloc, system, &job) {
        Ok(keyset) => range_under(alloc, system, keyset.as_slice(), &job, start, length, sink),
        Err(trouble) => Err(trouble),
    }
}

// The range of the job's input.
fn range_under<'w, Y: System, K: Sink>(
    alloc: Global,
    system: &mut Y,
    keyset: &[u8],
    job: &Job<'w>,
    start: u64,
    length: u64,
    sink: &mut K,
) -> Result<(), Trouble<'w>>
    ensures done { OnOk result ((Y.state system.old).is_known ≡ true → IsRangedOf keyset.now job.now start length
        (Y.state system.old) (Y.state system.new) (K.got sink.old) (K.got sink.new)) }
    ensures left { IfErr result (λ t. (Y.state system.old).is_known ≡ true → StaysOr (option_map (λ n. n.now) job.now.output)
        (K.got sink.old) (K.got sink.new) (StopsOf start length keyset.now job.now.aad.now (Y.state system.old)
        (option_map (λ n. n.now) job.now.input) (K.got sink.old) (K.got sink.new) (trouble_status t))) }
    ensures cause { IfErr result (λ t. (Y.state system.old).is_known ≡ true → HasCauseOf (IsRangeRefused start length)
        (CannotWrite (option_map (λ n. n.now) job.now.output) (K.faults sink.old) (K.faults sink.new)) keyset.now job.now.aad.now
        (Y.state system.old) (option_map (λ n. n.now) job.now.input) (Y.faults system.old) (Y.faults system.new) (trouble_status t)) }
    ensures kept { OnErr result ((Y.state system.old).is_known ≡ true → KeepsFiles (Y.state system.old) (Y.state system.new)) }
    ensures system { KeepsSystem (Y.state system.old) (Y.state system.new) }
    ensures random { (Y.state system.new).random ≡ (Y.state system.old).random }
    ensures later { Y.faults system.old ≤ Y.faults system.new }
    ensures sink { K.same sink.old sink.new }
{
    let Some(input) = job.input else {
        return Err(Trouble::Unusable(b"standard input", "a range is read of a file: name one", 2));
    };
    match system.open_at(input, length, job.is_quiet) {
        Ok(mut object) => range_of(alloc, system, keyset, job, &mut object, start, length, sink),
        Err(trouble) => Err(trouble),
    }
}

// The range of an object that is open.
fn range_of<'w, Y: System, K: Sink>(
    alloc: Global,
    system: &mut Y,
    keyset: &[u8],
    job: &Job<'w>,
    object: &mut Y::Object,
    start: u64,
    length: u64,
    sink: &mut K,
) -> Result<(), Trouble<'w>>
    ensures done { OnOk result ((Y.state system.old).is_known ≡ true → (X : List ℕ) → Y.Object.bytes object.old ≡ Some X
        → IsPut (λ before after. IsSliceOf keyset.now job.now.aad.now start length X before after) job.now.keeps_output
        (Y.state system.old) (Y.state system.new) (option_map (λ n. n.now) job.now.output) (K.got sink.old) (K.got sink.new)) }
    ensures left { IfErr result (λ t. StaysOr (option_map (λ n. n.now) job.now.output) (K.got sink.old) (K.got sink.new)
        (MayStop start length keyset.now job.now.aad.now (Y.Object.bytes object.old) (K.got sink.old) (K.got sink.new) (trouble_status t))) }
    ensures cause { IfErr result (λ t. MayEnd (IsRangeRefused start length)
        (CannotWrite (option_map (λ n. n.now) job.now.output) (K.faults sink.old) (K.faults sink.new)) keyset.now job.now.aad.now
        (Y.Object.bytes object.old) (trouble_status t)) }
    ensures kept { OnErr result ((Y.state system.old).is_known ≡ true → KeepsFiles (Y.state system.old) (Y.state system.new)) }
    ensures system { KeepsSystem (Y.state system.old) (Y.state system.new) }
    ensures random { (Y.state system.new).random ≡ (Y.state system.old).random }
    ensures later { Y.faults system.old ≤ Y.faults system.new }
    ensures sink { K.same sink.old sink.new }
{
    put_range_by::<Brand, Y, K>(
        alloc,
        system,
        keyset,
        job,
        object,
        start,
        length,
        sink,
        Blank::new(1),
    )
}

// The same by a ledger of steps.
fn put_range_by<'w, L: Ledger, Y: System, K: Sink>(
    alloc: Global,
    system: &mut Y,
    keyset: &[u8],
    job: &Job<'w>,
    object: &mut Y::Object,
    start: u64,
    length: u64,
    sink: &mut K,
    blank: Blank,
) -> Result<(), Trouble<'w>>
    requires name { blank.name ≡ L.name }
    requires parts { blank.parts ≡ L.parts }
    requires some { 0 < blank.parts }
    ensures done { OnOk result ((Y.state system.old).is_known ≡ true → (X : List ℕ) → Y.Object.bytes object.old ≡ Some X
        → IsPut (λ before after. IsSliceOf keyset.now job.now.aad.now start length X before after) job.now.keeps_output
        (Y.state system.old) (Y.state system.new) (option_map (λ n. n.now) job.now.output) (K.got sink.old) (K.got sink.new)) }
    ensures left { IfErr result (λ t. StaysOr (option_map (λ n. n.now) job.now.output) (K.got sink.old) (K.got sink.new)
        (MayStop start length keyset.now job.now.aad.now (Y.Object.bytes object.old) (K.got sink.old) (K.got sink.new) (trouble_status t))) }
    ensures cause { IfErr result (λ t. MayEnd (IsRangeRefused start length)
        (CannotWrite (option_map (λ n. n.now) job.now.output) (K.faults sink.old) (K.faults sink.new)) keyset.now job.now.aad.now
        (Y.Object.bytes object.old) (trouble_status t)) }
    ensures kept { OnErr result ((Y.state system.old).is_known ≡ true → KeepsFiles (Y.state system.old) (Y.state system.new)) }
    ensures system { KeepsSystem (Y.state system.old) (Y.state system.new) }
    ensures random { (Y.state system.new).random ≡ (Y.state system.old).random }
    ensures later { Y.faults system.old ≤ Y.faults system.new }
    ensures sink { K.same sink.old sink.new }
{
    let mut steps = Steps::<L>::new(blank);
    match job.output {
        None => put(
            alloc, system, keyset, job, object, start, length, sink, &mut steps,
        ),
        Some(output) => put_to(
            alloc, system, keyset, job, object, start, length, output, &mut steps,
        ),
    }
}

// Writes it to a sink, as it comes.
fn put<'w, L: Ledger, Y: System, K: Sink>(
    alloc: Global,
    system: &mut Y,
    keyset: &[u8],
    job: &Job<'w>,
    object: &mut Y::Object,
    start: u64,
    length: u64,
    sink: &mut K,
    steps: &mut Steps<L>,
) -> Result<(), Trouble<'w>>
    ensures done { OnOk result ((X before : List ℕ) → Y.Object.bytes object.old ≡ Some X → K.got sink.old ≡ Some before
        → IsSliceOf keyset.now job.now.aad.now start length X before (K.got sink.new)) }
    ensures left { IfErr result (λ t. StaysOr None (K.got sink.old) (K.got sink.new)
        (MayStop start length keyset.now job.now.aad.now (Y.Object.bytes object.old) (K.got sink.old) (K.got sink.new) (trouble_status t))) }
    ensures cause { IfErr result (λ t. MayEnd (IsRangeRefused start length) (Rose (K.faults sink.old) (K.faults sink.new)) keyset.now job.now.aad.now
        (Y.Object.bytes object.old) (trouble_status t)) }
    ensures still { system.new ≡ system.old }
    ensures sink { K.same sink.old sink.new }
{
    let answer = run_range(alloc, keyset, job.aad, object, start, length, sink, steps);
    end_range(system, answer, object, job, WRITE_FAULT)
}

// Writes it to a stream or to a file.
fn put_to<'w, L: Ledger, Y: System>(
    alloc: Global,
    system: &mut Y,
    keyset: &[u8],
    job: &Job<'w>,
    object: &mut Y::Object,
    start: u64,
    length: u64,
    output: &'w [u8],
    steps: &mut Steps<L>,
) -> Result<(), Trouble<'w>>
    ensures done { OnOk result ((Y.state system.old).is_known ≡ true → (X : List ℕ) → Y.Object.bytes object.old ≡ Some X
        → IsInFile (λ before after. IsSliceOf keyset.now job.now.aad.now start length X before after) job.now.keeps_output
        (Y.state system.old) (Y.state system.new) output.now) }
    ensures cause { IfErr result (λ t. MayEnd (IsRangeRefused start length) (Unit {0}) keyset.now job.now.aad.now
        (Y.Object.bytes object.old) (trouble_status t)) }
    ensures kept { OnErr result ((Y.state system.old).is_known ≡ true → KeepsFiles (Y.state system.old) (Y.state system.new)) }
    ensures system { KeepsSystem (Y.state system.old) (Y.state system.new) }
    ensures random { (Y.state system.new).random ≡ (Y.state system.old).random }
    ensures later { Y.faults system.old ≤ Y.faults system.new }
{
    if system.is_stream(output) {
        return put_to_stream(
            alloc, system, keyset, job, object, start, length, output, steps,
        );
    }
    put_to_file(
        alloc, system, keyset, job, object, start, length, output, steps,
    )
}

// Writes it to a draft, which becomes the file if all was done.
fn put_to_file<'w, L: Ledger, Y: System>(
    alloc: Global,
    system: &mut Y,
    keyset: &[u8],
    job: &Job<'w>,
    object: &mut Y::Object,
    start: u64,
    length: u64,
    output: &'w [u8],
    steps: &mut Steps<L>,
) -> Result<(), Trouble<'w>>
    ensures done { OnOk result ((Y.state system.old).is_known ≡ true → (X : List ℕ) → Y.Object.bytes object.old ≡ Some X
        → IsInFile (λ before after. IsSliceOf keyset.now job.now.aad.now start length X before after) job.now.keeps_output
        (Y.state system.old) (Y.state system.new) output.now) }
    ensures cause { IfErr result (λ t. MayEnd (IsRangeRefused start length) (Unit {0}) keyset.now job.now.aad.now
        (Y.Object.bytes object.old) (trouble_status t)) }
    ensures kept { OnErr result ((Y.state system.old).is_known ≡ true → KeepsFiles (Y.state system.old) (Y.state system.new)) }
    ensures system { KeepsSystem (Y.state system.old) (Y.state system.new) }
    ensures random { (Y.state system.new).random ≡ (Y.state system.old).random }
    ensures later { Y.faults system.old ≤ Y.faults system.new }
{
    match system.begin(output, how_of(job)) {
        Ok(draft) => put_to_draft(
            alloc, system, keyset, job, object, start, length, output, draft, steps,
        ),
        Err(trouble) => Err(trouble),
    }
}

// Writes it to a pipe or a device.
fn put_to_stream<'w, L: Ledger, Y: System>(
    alloc: Global,
    system: &mut Y,
    keyset: &[u8],
    job: &Job<'w>,
    object: &mut Y::Object,
    start: u64,
    length: u64,
    output: &'w [u8],
    steps: &mut Steps<L>,
) -> Result<(), Trouble<'w>>
    ensures cause { IfErr result (λ t. MayEnd (IsRangeRefused start length) (Unit {0}) keyset.now job.now.aad.now
        (Y.Object.bytes object.old) (trouble_status t)) }
    ensures state { Y.state system.new ≡ Y.state system.old }
    ensures later { Y.faults system.old ≤ Y.faults system.new }
{
    match system.open_stream(output) {
        Ok(mut stream) => {
            let answer = run_range(
                alloc,
                keyset,
                job.aad,
                object,
                start,
                length,
                &mut stream,
                steps,
            );
            let reason = system.reason_of_stream(&stream);
            end_range(system, answer, object, job, reason)
        }
        Err(trouble) => Err(trouble),
    }
}

// The same to a draft that is begun.
fn put_to_draft<'w, L: Ledger, Y: System>(
    alloc: Global,
    system: &mut Y,
    keyset: &[u8],
    job: &Job<'w>,
    object: &mut Y::Object,
    start: u64,
    length: u64,
    output: &'w [u8],
    mut draft: Y::Draft,
    steps: &mut Steps<L>,
) -> Result<(), Trouble<'w>>
    requires { Y.Draft.has_draft draft ≡ true }
    ensures done { OnOk result ((X before : List ℕ) → Y.Object.bytes object.old ≡ Some X → Y.Draft.got draft ≡ Some before
        → IsSliceOf keyset.now job.now.aad.now start length X before ((Y.state system.new).file output.now)) }
    ensures cause { IfErr result (λ t. MayEnd (IsRangeRefused start length) (Unit {0}) keyset.now job.now.aad.now
        (Y.Object.bytes object.old) (trouble_status t)) }
    ensures fresh { OnOk result (Y.Draft.replaces draft ≡ false → IfSome (Y.Draft.shown draft) (λ file. file ≡ None)) }
    ensures others { KeepsOtherFiles (Y.state system.old) (Y.state system.new) output.now }
    ensures kept { OnErr result (Y.Draft.shown draft ≡ Some ((Y.state system.old).file output.now)
        → KeepsFiles (Y.state system.old) (Y.state system.new)) }
    ensures system { KeepsSystem (Y.state system.old) (Y.state system.new) }
    ensures random { (Y.state system.new).random ≡ (Y.state system.old).random }
    ensures later { Y.faults system.old ≤ Y.faults system.new }
{
    let answer = range_to(
        alloc, keyset, job.aad, object, start, length, &mut draft, steps,
    );
    let reason = system.reason_of_draft(&draft);
    match system.settle(alloc, output, draft) {
        Ok(()) => end_range(system, answer, object, job, reason),
        Err(trouble) => Err(trouble),
    }
}

// The end of a range by its answer: an error is that of a file, and `reason` is why the output failed, if it did.
fn end_range<'w, Y: System>(
    system: &Y,
    answer: Result<u64, TinkError>,
    object: &Y::Object,
    job: &Job<'w>,
    reason: &'static str,
) -> Result<(), Trouble<'w>>
    ensures ok { OnOk answer (result ≡ Ok tt) }
    ensures refused { IfErr answer (λ e. IsErrAnd result (λ t. trouble_status t ≡ refusal_status e.kind)) }
{
    system.end_object(object);
    match answer {
        Ok(_) => Ok(()),
        Err(e) => Err(trouble_of(system, object, job, e.kind, reason)),
    }
}

/// An error, and the file that it is of: `reason` is why the output failed, if it did.
pub fn trouble_of<'w, Y: System>(
    system: &Y,
    object: &Y::Object,
    job: &Job<'w>,
    kind: Kind,
    reason: &'static str,
) -> Trouble<'w>
    ensures { trouble_status result ≡ refusal_status kind }
{
    match kind {
        Kind::ReadFault => {
            Trouble::Unusable(job.input_name(), system.reason_of_object(object), 11)
        }
        Kind::WriteFault => Trouble::Unusable(job.output_name(), reason, 12),
        kind => job.trouble_of_kind(kind),
    }
}
