//! The command that opens a whole stream and writes nothing.

ghost use Rattle.std.specs.Prelude.{◌≡◌, ◌≤◌, ℕ, List, Some, true, false, IfErr, IfOk, OnOk, option_map};
ghost use Rattle.std.specs.declared.option.Option.{Option};
ghost use Rattle.tink_cli_jobs.specs.Loading.{named};
ghost use Rattle.tink_cli_jobs.specs.Protecting.{names_twice};
ghost use Rattle.tink_cli_streams.specs.Causes.{HasMakeCause, MayStop};
ghost use Rattle.tink_cli_streams.specs.Streams.{IsChecked, IsMade, IsOpenable, IsOpened, MayFail, TellsOut};
ghost use Rattle.tink_cli_words.specs.LineRead.{LineRead};
ghost use Rattle.tink_cli_words.specs.declared.form.Action.TheVariants.{Decrypt};
ghost use Rattle.tink_run.specs.Run.{CanOpen};
ghost use Rattle.tink_system.specs.States.{SystemState, content, known_content};
ghost use Rattle.tink_system.specs.Statuses.{trouble_status};

use crate::performing::end_task;
use crate::streams::make;
use std::alloc::Global;
use tink_cli_files::{Task, write_task};
use tink_cli_jobs::keys::keyset_of;
use tink_cli_jobs::protecting::spare_input;
use tink_cli_jobs::{Job, WRITE_FAULT, job_of};
use tink_cli_words::{Action, Line};
use tink_io::{Discard, Draws, Sink};
use tink_run::report::Command;
use tink_system::{System, Trouble};

/// A stream that `check` opens, or that `decrypt` decrypts where what the output gets is known, is `IsOpenable`. So if `decrypt`
/// returns 0, `check` does too, if no call of the system fails and there is memory. And if `check` returned 0, `decrypt` does,
/// and if the output can be written.
pub fn law_checked_is_decrypted()
    ensures checked { (line : LineRead) (s : SystemState) → IsChecked line s → IsOpenable line s }
    ensures decrypted { (line : LineRead) (old new : SystemState) (got got_after : Option (List ℕ)) → TellsOut old (named line.output) got
        → IsMade Decrypt line old new got got_after → IsOpenable line old }
    ensures decrypts { (line : LineRead) (s : SystemState) (before now status : ℕ) → IsChecked line s
        → HasMakeCause Decrypt line s before now status → MayStop before now status }
{}

/// An instance of the law: the words are checked, and the same words are decrypted. The answer of the decryption is inside
/// that of the check.
///
/// # Errors
/// Those of `check`. If it gave none, an error of the decryption is for want of memory, or the output could not be
/// written, or a call of the system failed.
pub fn decrypt_checked<'w, Y: System, K: Sink>(
    alloc: Global,
    system: &mut Y,
    line: &Line<'w>,
    sink: &mut K,
) -> Result<Result<(), Trouble<'w>>, Trouble<'w>>
    ensures { IfOk result (λ answer. IfErr answer (λ t. (Y.state system.old).is_known ≡ true
        → MayStop (Y.faults system.old) (Y.faults system.new) (trouble_status t))) }
{
    match check(alloc, system, line) {
        Ok(()) => Ok(make(alloc, system, Action::Decrypt, line, sink)),
        Err(trouble) => Err(trouble),
    }
}

/// `check`: the whole input is opened under the keyset and the associated data that the words name, and nothing is written.
///
/// # Errors
/// Those of `decrypt` but 12.
pub fn check<'w, Y: System>(
    alloc: Global,
    system: &mut Y,
    line: &Line<'w>,
) -> Result<(), Trouble<'w>>
    ensures done { OnOk result ((Y.state system.old).is_known ≡ true → IsChecked line.now (Y.state system.old)) }

    // If the keyset loads and the input is a stream, the answer is Ok, there is no memory, or a call of the system failed.
    ensures succeeds { IfErr result (λ t. (Y.state system.old).is_known ≡ true → IsOpenable line.now (Y.state system.old)
        → names_twice line.now ≡ false → MayFail (Y.faults system.old) (Y.faults system.new) (trouble_status t)) }
    ensures state { Y.state system.new ≡ Y.state system.old }
    ensures later { Y.faults system.old ≤ Y.faults system.new }
{
    let Some(job) = job_of(line) else {
        return Err(Trouble::Usage);
    };
    if let Err(trouble) = spare_input(&job) {
        return Err(trouble);
    }
    match keyset_of(alloc, system, job.keys) {
        Ok(keyset) => check_under(alloc, system, keyset.as_slice(), &job),
        Err(trouble) => Err(trouble),
    }
}

// Under a keyset that is loaded.
fn check_under<'w, Y: System>(
    alloc: Global,
    system: &mut Y,
    keyset: &[u8],
    job: &Job<'w>,
) -> Result<(), Trouble<'w>>
    ensures done { OnOk result ((Y.state system.old).is_known ≡ true → (text : List ℕ)
        × (known_content (Y.state system.old) (option_map (λ n. n.now) job.now.input) ≡ Some text)
        × IsOpened keyset.now job.now.aad.now text) }
    ensures succeeds { IfErr result (λ t. (Y.state system.old).is_known ≡ true → (text : List ℕ)
        → content (Y.state system.old) (option_map (λ n. n.now) job.now.input) ≡ Some text → CanOpen keyset.now job.now.aad.now text
        → MayFail (Y.faults system.old) (Y.faults system.new) (trouble_status t)) }
    ensures state { Y.state system.new ≡ Y.state system.old }
    ensures later { Y.faults system.old ≤ Y.faults system.new }
{
    match system.open(job.input, job.is_quiet) {
        Ok(mut input) => check_all(alloc, system, keyset, job, &mut input),
        Err(trouble) => Err(trouble),
    }
}

// All of an input that is open.
fn check_all<'w, Y: System>(
    alloc: Global,
    system: &mut Y,
    keyset: &[u8],
    job: &Job<'w>,
    input: &mut Y::Input,
) -> Result<(), Trouble<'w>>
    ensures done { OnOk result ((text : List ℕ) → Y.Input.left input.old ≡ Some text → IsOpened keyset.now job.now.aad.now text) }
    ensures succeeds { IfErr result (λ t. (text : List ℕ) → Y.Input.left input.old ≡ Some text
        → CanOpen keyset.now job.now.aad.now text → trouble_status t ≡ 10) }
    ensures still { system.new ≡ system.old }
{
    let mut draws = Draws::new(Vec::new(alloc));
    let mut nothing = Discard::new();
    let task = Task::Run(Command::Open);
    let answer = write_task(
        alloc,
        task,
        keyset,
        job.aad,
        &mut draws,
        input,
        &mut nothing,
    );
    end_task(system, answer, input, job, WRITE_FAULT)
}
