//! A task is done: of an input, to an output.

ghost use Rattle.std.specs.Prelude.{◌≡◌, ◌≤◌, ℕ, List, Some, None, Ok, true, false, IfErr, IfOk, IfSome, IsErrAnd, OnErr, OnOk, option_map};
ghost use Rattle.tink_cli_jobs.specs.Outputs.{IsInFile, IsPut, KeepsFiles, KeepsOtherFiles};
ghost use Rattle.tink_cli_streams.specs.Breaking.{IsUnperformed, MayBreak, drawn_by};
ghost use Rattle.tink_cli_streams.specs.Causes.{HasTaskCause, MayEnd};
ghost use Rattle.tink_cli_streams.specs.Performing.{IsPerformed, Makes, Spends, takes_random, text_for, trims};
ghost use Rattle.tink_cli_streams.specs.Trimming.{unread};
ghost use Rattle.tink_io.specs.Faults.{Rose};
ghost use Rattle.tink_system.specs.States.{IsOfCause, KeepsSystem, known_content};
ghost use Rattle.tink_system.specs.Statuses.{refusal_status, trouble_status};

use crate::fitting::{save_fitting, write_fitting};
use crate::trimming::Trimmed;
use std::alloc::Global;
use tink_cli_files::Task;
use tink_cli_jobs::{DRAWN, Job, WRITE_FAULT, how_of};
use tink_io::{Draws, Kind, Sink, TinkError};
use tink_run::report::{Command, Report};
use tink_system::{System, Trouble};

/// Does a task of the job's input, under a keyset and the job's associated data, to the job's output.
///
/// # Errors
/// Those of the task by their statuses. 11 if the input cannot be read. 12 if the output cannot be written. 35 if the
/// system gives no random bytes. 10. No file is changed then.
pub fn perform<'w, Y: System, K: Sink>(
    alloc: Global,
    system: &mut Y,
    task: Task<'_>,
    keyset: &[u8],
    job: &Job<'w>,
    sink: &mut K,
) -> Result<(), Trouble<'w>>
    ensures done { OnOk result ((Y.state system.old).is_known ≡ true → IsPerformed task.entry keyset.now job.now.aad.now job.now.keeps_output
        (option_map (λ n. n.now) job.now.input) (option_map (λ n. n.now) job.now.output)
        (Y.state system.old) (Y.state system.new) (K.got sink.old) (K.got sink.new)) }
    ensures broken { IfErr result (λ t. (Y.state system.old).is_known ≡ true → IsUnperformed (option_map (λ n. n.now) job.now.output)
        task.entry keyset.now job.now.aad.now (option_map (λ n. n.now) job.now.input) (Y.state system.old) (K.got sink.old) (K.got sink.new) (trouble_status t)) }
    ensures cause { IfErr result (λ t. (Y.state system.old).is_known ≡ true → HasTaskCause task.entry keyset.now job.now.aad.now
        (drawn_by (takes_random task.entry) (Y.state system.old)) (Y.state system.old) (option_map (λ n. n.now) job.now.input)
        (Y.faults system.old) (Y.faults system.new) (trouble_status t)) }
    ensures kept { OnErr result ((Y.state system.old).is_known ≡ true → KeepsFiles (Y.state system.old) (Y.state system.new)) }
    ensures system { KeepsSystem (Y.state system.old) (Y.state system.new) }
    ensures later { Y.faults system.old ≤ Y.faults system.new }
    ensures sink { K.same sink.old sink.new }
{
    match draws_for(alloc, system, task) {
        Ok(mut draws) => perform_by(alloc, system, task, keyset, job, &mut draws, sink),
        Err(trouble) => Err(trouble),
    }
}

// The random bytes of a task: only one that makes a stream takes any.
fn draws_for<Y: System>(
    alloc: Global,
    system: &mut Y,
    task: Task<'_>,
) -> Result<Draws, Trouble<'static>>
    ensures drawn { IfOk result (λ d. (Y.state system.old).is_known ≡ true
        → Spends (takes_random task.entry) (Y.state system.old) (Y.state system.new) d) }
    ensures refused { IfErr result (IsOfCause 35 (Rose (Y.faults system.old) (Y.faults system.new))) }
    ensures files { KeepsFiles (Y.state system.old) (Y.state system.new) }
    ensures system { KeepsSystem (Y.state system.old) (Y.state system.new) }
    ensures later { Y.faults system.old ≤ Y.faults system.new }
{
    match task {
        Task::Run(Command::Seal) | Task::Rewrap { to: _, to_aad: _ } => system.draws(alloc, DRAWN),
        _ => Ok(Draws::new(Vec::new(alloc))),
    }
}

// The same by these random bytes.
fn perform_by<'w, Y: System, K: Sink>(
    alloc: Global,
    system: &mut Y,
    task: Task<'_>,
    keyset: &[u8],
    job: &Job<'w>,
    draws: &mut Draws,
    sink: &mut K,
) -> Result<(), Trouble<'w>>
    ensures done { OnOk result ((Y.state system.old).is_known ≡ true → (text : List ℕ)
        × (known_content (Y.state system.old) (option_map (λ n. n.now) job.now.input) ≡ Some text)
        × IsPut (λ before after. Makes task.entry keyset.now job.now.aad.now draws.old (text_for task.entry text) before after)
        job.now.keeps_output (Y.state system.old) (Y.state system.new) (option_map (λ n. n.now) job.now.output) (K.got sink.old) (K.got sink.new)) }
    ensures broken { IfErr result (λ t. MayBreak (option_map (λ n. n.now) job.now.output) task.entry keyset.now job.now.aad.now draws.old
        (option_map (text_for task.entry) (known_content (Y.state system.old) (option_map (λ n. n.now) job.now.input)))
        (K.got sink.old) (K.got sink.new) (trouble_status t)) }
    ensures cause { IfErr result (λ t. (Y.state system.old).is_known ≡ true → HasTaskCause task.entry keyset.now job.now.aad.now draws.old
        (Y.state system.old) (option_map (λ n. n.now) job.now.input) (Y.faults system.old) (Y.faults system.new) (trouble_status t)) }
    ensures kept { OnErr result ((Y.state system.old).is_known ≡ true → KeepsFiles (Y.state system.old) (Y.state system.new)) }
    ensures system { KeepsSystem (Y.state system.old) (Y.state system.new) }
    ensures random { (Y.state system.new).random ≡ (Y.state system.old).random }
    ensures later { Y.faults system.old ≤ Y.faults system.new }
    ensures sink { K.same sink.old sink.new }
{
    match system.open(job.input, job.is_quiet) {
        Ok(source) => {
            let mut input = Trimmed::new(source, trims(task));
            perform_on(alloc, system, task, keyset, job, draws, &mut input, sink)
        }
        Err(trouble) => Err(trouble),
    }
}

// Whether one newline at the end of the input of a task is not part of it: only of a token.
fn trims(task: Task<'_>) -> bool
    ensures { result ≡ trims task.entry }
{
    match task {
        Task::Verify => true,
        _ => false,
    }
}

// The same of an input that is open.
fn perform_on<'w, Y: System, K: Sink>(
    alloc: Global,
    system: &mut Y,
    task: Task<'_>,
    keyset: &[u8],
    job: &Job<'w>,
    draws: &mut Draws,
    input: &mut Trimmed<Y::Input>,
    sink: &mut K,
) -> Result<(), Trouble<'w>>
    ensures done { OnOk result ((Y.state system.old).is_known ≡ true → (text : List ℕ) → unread input.old.trims input.old.held (Y.Input.left input.old.source) ≡ Some text
        → IsPut (λ before after. Makes task.entry keyset.now job.now.aad.now draws.old text before after) job.now.keeps_output
        (Y.state system.old) (Y.state system.new) (option_map (λ n. n.now) job.now.output) (K.got sink.old) (K.got sink.new)) }
    ensures broken { IfErr result (λ t. MayBreak (option_map (λ n. n.now) job.now.output) task.entry keyset.now job.now.aad.now draws.old
        (unread input.old.trims input.old.held (Y.Input.left input.old.source)) (K.got sink.old) (K.got sink.new) (trouble_status t)) }
    ensures cause { IfErr result (λ t. MayEnd task.entry keyset.now job.now.aad.now draws.old
        (unread input.old.trims input.old.held (Y.Input.left input.old.source)) (trouble_status t)) }
    ensures kept { OnErr result ((Y.state system.old).is_known ≡ true → KeepsFiles (Y.state system.old) (Y.state system.new)) }
    ensures system { KeepsSystem (Y.state system.old) (Y.state system.new) }
    ensures random { (Y.state system.new).random ≡ (Y.state system.old).random }
    ensures later { Y.faults system.old ≤ Y.faults system.new }
    ensures sink { K.same sink.old sink.new }
{
    match job.output {
        None => put(alloc, system, task, keyset, job, draws, input, sink),
        Some(output) => put_to(alloc, system, task, keyset, job, draws, input, output),
    }
}

// Writes what the task makes to standard output, as it comes.
fn put<'w, Y: System, K: Sink>(
    alloc: Global,
    system: &mut Y,
    task: Task<'_>,
    keyset: &[u8],
    job: &Job<'w>,
    draws: &mut Draws,
    input: &mut Trimmed<Y::Input>,
    sink: &mut K,
) -> Result<(), Trouble<'w>>
    ensures done { OnOk result ((text before : List ℕ) → unread input.old.trims input.old.held (Y.Input.left input.old.source) ≡ Some text → K.got sink.old ≡ Some before
        → Makes task.entry keyset.now job.now.aad.now draws.old text before (K.got sink.new)) }
    ensures broken { IfErr result (λ t. MayBreak None task.entry keyset.now job.now.aad.now draws.old
        (unread input.old.trims input.old.held (Y.Input.left input.old.source)) (K.got sink.old) (K.got sink.new) (trouble_status t)) }
    ensures cause { IfErr result (λ t. MayEnd task.entry keyset.now job.now.aad.now draws.old
        (unread input.old.trims input.old.held (Y.Input.left input.old.source)) (trouble_status t)) }
    ensures still { system.new ≡ system.old }
    ensures sink { K.same sink.old sink.new }
{
    let answer = write_fitting(alloc, task, keyset, job.aad, draws, input, sink);
    end_task(system, answer, &input.source, job, WRITE_FAULT)
}

// Writes it to a stream or to a file.
fn put_to<'w, Y: System>(
    alloc: Global,
    system: &mut Y,
    task: Task<'_>,
    keyset: &[u8],
    job: &Job<'w>,
    draws: &mut Draws,
    input: &mut Trimmed<Y::Input>,
    output: &'w [u8],
) -> Result<(), Trouble<'w>>
    ensures done { OnOk result ((Y.state system.old).is_known ≡ true → (text : List ℕ) → unread input.old.trims input.old.held (Y.Input.left input.old.source) ≡ Some text
        → IsInFile (λ before after. Makes task.entry keyset.now job.now.aad.now draws.old text before after) job.now.keeps_output
        (Y.state system.old) (Y.state system.new) output.now) }
    ensures cause { IfErr result (λ t. MayEnd task.entry keyset.now job.now.aad.now draws.old
        (unread input.old.trims input.old.held (Y.Input.left input.old.source)) (trouble_status t)) }
    ensures kept { OnErr result ((Y.state system.old).is_known ≡ true → KeepsFiles (Y.state system.old) (Y.state system.new)) }
    ensures system { KeepsSystem (Y.state system.old) (Y.state system.new) }
    ensures random { (Y.state system.new).random ≡ (Y.state system.old).random }
    ensures later { Y.faults system.old ≤ Y.faults system.new }
{
    if system.is_stream(output) {
        return put_to_stream(alloc, system, task, keyset, job, draws, input, output);
    }
    put_to_file(alloc, system, task, keyset, job, draws, input, output)
}

// Writes it to a pipe or a device, as it comes.
fn put_to_stream<'w, Y: System>(
    alloc: Global,
    system: &mut Y,
    task: Task<'_>,
    keyset: &[u8],
    job: &Job<'w>,
    draws: &mut Draws,
    input: &mut Trimmed<Y::Input>,
    output: &'w [u8],
) -> Result<(), Trouble<'w>>
    ensures cause { IfErr result (λ t. MayEnd task.entry keyset.now job.now.aad.now draws.old
        (unread input.old.trims input.old.held (Y.Input.left input.old.source)) (trouble_status t)) }
    ensures state { Y.state system.new ≡ Y.state system.old }
    ensures later { Y.faults system.old ≤ Y.faults system.new }
{
    match system.open_stream(output) {
        Ok(mut stream) => {
            let answer = write_fitting(alloc, task, keyset, job.aad, draws, input, &mut stream);
            let reason = system.reason_of_stream(&stream);
            end_task(system, answer, &input.source, job, reason)
        }
        Err(trouble) => Err(trouble),
    }
}

// Writes it to a draft, which becomes the file if all was done.
fn put_to_file<'w, Y: System>(
    alloc: Global,
    system: &mut Y,
    task: Task<'_>,
    keyset: &[u8],
    job: &Job<'w>,
    draws: &mut Draws,
    input: &mut Trimmed<Y::Input>,
    output: &'w [u8],
) -> Result<(), Trouble<'w>>
    ensures done { OnOk result ((Y.state system.old).is_known ≡ true → (text : List ℕ) → unread input.old.trims input.old.held (Y.Input.left input.old.source) ≡ Some text
        → IsInFile (λ before after. Makes task.entry keyset.now job.now.aad.now draws.old text before after) job.now.keeps_output
        (Y.state system.old) (Y.state system.new) output.now) }
    ensures cause { IfErr result (λ t. MayEnd task.entry keyset.now job.now.aad.now draws.old
        (unread input.old.trims input.old.held (Y.Input.left input.old.source)) (trouble_status t)) }
    ensures kept { OnErr result ((Y.state system.old).is_known ≡ true → KeepsFiles (Y.state system.old) (Y.state system.new)) }
    ensures system { KeepsSystem (Y.state system.old) (Y.state system.new) }
    ensures random { (Y.state system.new).random ≡ (Y.state system.old).random }
    ensures later { Y.faults system.old ≤ Y.faults system.new }
{
    match system.begin(output, how_of(job)) {
        Ok(draft) => put_to_draft(
            alloc, system, task, keyset, job, draws, input, output, draft,
        ),
        Err(trouble) => Err(trouble),
    }
}

// The same to a draft that is begun.
fn put_to_draft<'w, Y: System>(
    alloc: Global,
    system: &mut Y,
    task: Task<'_>,
    keyset: &[u8],
    job: &Job<'w>,
    draws: &mut Draws,
    input: &mut Trimmed<Y::Input>,
    output: &'w [u8],
    mut draft: Y::Draft,
) -> Result<(), Trouble<'w>>
    requires { Y.Draft.has_draft draft ≡ true }
    ensures done { OnOk result ((text before : List ℕ) → unread input.old.trims input.old.held (Y.Input.left input.old.source) ≡ Some text → Y.Draft.got draft ≡ Some before
        → Makes task.entry keyset.now job.now.aad.now draws.old text before ((Y.state system.new).file output.now)) }
    ensures cause { IfErr result (λ t. MayEnd task.entry keyset.now job.now.aad.now draws.old
        (unread input.old.trims input.old.held (Y.Input.left input.old.source)) (trouble_status t)) }
    ensures fresh { OnOk result (Y.Draft.replaces draft ≡ false → IfSome (Y.Draft.shown draft) (λ file. file ≡ None)) }
    ensures others { KeepsOtherFiles (Y.state system.old) (Y.state system.new) output.now }
    ensures kept { OnErr result (Y.Draft.shown draft ≡ Some ((Y.state system.old).file output.now)
        → KeepsFiles (Y.state system.old) (Y.state system.new)) }
    ensures system { KeepsSystem (Y.state system.old) (Y.state system.new) }
    ensures random { (Y.state system.new).random ≡ (Y.state system.old).random }
    ensures later { Y.faults system.old ≤ Y.faults system.new }
{
    let answer = save_fitting(alloc, task, keyset, job.aad, draws, input, &mut draft);
    let reason = system.reason_of_draft(&draft);
    match system.settle(alloc, output, draft) {
        Ok(()) => end_task(system, answer, &input.source, job, reason),
        Err(trouble) => Err(trouble),
    }
}

/// The end of a task by its answer. `reason` is why the output failed, if it did.
///
/// # Errors
/// That of the task, by its status: 11 if the input failed, 12 if the output failed, else the status of the error's
/// kind.
pub fn end_task<'w, Y: System>(
    system: &Y,
    answer: Result<Option<Report>, TinkError>,
    input: &Y::Input,
    job: &Job<'w>,
    reason: &'static str,
) -> Result<(), Trouble<'w>>
    ensures ok { OnOk answer (result ≡ Ok tt) }
    ensures refused { IfErr answer (λ e. IsErrAnd result (λ t. trouble_status t ≡ refusal_status e.kind)) }
{
    system.end_input(input);
    match answer {
        Ok(_) => Ok(()),
        Err(e) => Err(match e.kind {
            Kind::ReadFault => Trouble::Unusable(
                job.input_name(),
                system.reason_of_input(input),
                11,
            ),
            Kind::WriteFault => Trouble::Unusable(job.output_name(), reason, 12),
            kind => job.trouble_of_kind(kind),
        }),
    }
}
