//! The commands over streams and tokens.

ghost use Rattle.std.specs.Prelude.{◌≡◌, ◌≤◌, false, true, OnErr, OnOk, IfErr};
ghost use Rattle.tink_cli_jobs.specs.Outputs.{KeepsFiles};
ghost use Rattle.tink_cli_jobs.specs.Jobs.{IsJob, IsKeysetOf};
ghost use Rattle.tink_cli_jobs.specs.Protecting.{names_twice};
ghost use Rattle.tink_cli_streams.specs.Breaking.{IsUnmade};
ghost use Rattle.tink_cli_streams.specs.Causes.{HasMakeCause, HasMoveCause, IsMakeable, MayStop};
ghost use Rattle.tink_cli_streams.specs.Streams.{IsMade, IsMoved, IsMovedFrom, IsMovedTo, own_task};
ghost use Rattle.tink_cli_words.specs.LineRead.{LineRead};
ghost use Rattle.tink_system.specs.States.{KeepsSystem};
ghost use Rattle.tink_system.specs.Statuses.{trouble_status};

use crate::performing::perform;
use std::alloc::Global;
use tink_cli_files::Task;
use tink_cli_jobs::keys::keyset_of;
use tink_cli_jobs::protecting::keyset_for;
use tink_cli_jobs::{Job, job_of};
use tink_cli_words::{Action, Line};
use tink_io::{Kind, Sink};
use tink_proto::Bytes;
use tink_run::load::load;
use tink_run::report::Command;
use tink_system::{End, System, Trouble};

/// `encrypt`, `decrypt`, `sign` and `verify`. The command takes the whole input, under the keyset and with the
/// associated data that the words name.
///
/// # Errors
/// Those of the task, of `keyset_for` and `perform`, by their statuses. No file is changed then.
pub fn make<'w, Y: System, K: Sink>(
    alloc: Global,
    system: &mut Y,
    action: Action,
    line: &Line<'w>,
    sink: &mut K,
) -> Result<(), Trouble<'w>>
    ensures done { OnOk result ((Y.state system.old).is_known ≡ true → IsMade action line.now
        (Y.state system.old) (Y.state system.new) (K.got sink.old) (K.got sink.new)) }
    ensures broken { IfErr result (λ t. (Y.state system.old).is_known ≡ true → IsUnmade action line.now
        (Y.state system.old) (K.got sink.old) (K.got sink.new) (trouble_status t)) }
    ensures cause { IfErr result (λ t. (Y.state system.old).is_known ≡ true → HasMakeCause action line.now (Y.state system.old)
        (Y.faults system.old) (Y.faults system.new) (trouble_status t)) }

    // If the keyset loads and the task can be done with the input, the answer is Ok, there is no memory, the output could not be
    // written, or a call of the system failed.
    ensures succeeds { IfErr result (λ t. (Y.state system.old).is_known ≡ true → IsMakeable action line.now (Y.state system.old)
        → names_twice line.now ≡ false → MayStop (Y.faults system.old) (Y.faults system.new) (trouble_status t)) }
    ensures kept { OnErr result ((Y.state system.old).is_known ≡ true → KeepsFiles (Y.state system.old) (Y.state system.new)) }
    ensures system { KeepsSystem (Y.state system.old) (Y.state system.new) }
    ensures later { Y.faults system.old ≤ Y.faults system.new }
    ensures sink { K.same sink.old sink.new }
{
    make_of_words(alloc, system, action, line, sink)
}

// What `make` answers. All that it promises follows from this.
fn make_of_words<'w, Y: System, K: Sink>(
    alloc: Global,
    system: &mut Y,
    action: Action,
    line: &Line<'w>,
    sink: &mut K,
) -> Result<(), Trouble<'w>>
    ensures done { OnOk result ((Y.state system.old).is_known ≡ true → IsMade action line.now
        (Y.state system.old) (Y.state system.new) (K.got sink.old) (K.got sink.new)) }
    ensures broken { IfErr result (λ t. (Y.state system.old).is_known ≡ true → IsUnmade action line.now
        (Y.state system.old) (K.got sink.old) (K.got sink.new) (trouble_status t)) }
    ensures cause { IfErr result (λ t. (Y.state system.old).is_known ≡ true → HasMakeCause action line.now (Y.state system.old)
        (Y.faults system.old) (Y.faults system.new) (trouble_status t)) }
    ensures kept { OnErr result ((Y.state system.old).is_known ≡ true → KeepsFiles (Y.state system.old) (Y.state system.new)) }
    ensures system { KeepsSystem (Y.state system.old) (Y.state system.new) }
    ensures later { Y.faults system.old ≤ Y.faults system.new }
    ensures sink { K.same sink.old sink.new }
{
    let Some(task) = task_of(action) else {
        return Err(Trouble::Usage);
    };
    let Some(job) = job_of(line) else {
        return Err(Trouble::Usage);
    };
    if let Err(trouble) = spare_terminal(system, task, &job) {
        return Err(trouble);
    }
    match keyset_for(alloc, system, &job) {
        Ok(keyset) => perform(alloc, system, task, keyset.as_slice(), &job, sink),
        Err(trouble) => Err(trouble),
    }
}

/// `rewrap`: the stream is moved to the primary key of the new keyset.
///
/// # Errors
/// Those of `make`, and of the new keyset.
pub fn rewrap<'w, Y: System, K: Sink>(
    alloc: Global,
    system: &mut Y,
    line: &Line<'w>,
    sink: &mut K,
) -> Result<(), Trouble<'w>>
    ensures done { OnOk result ((Y.state system.old).is_known ≡ true → IsMoved line.now
        (Y.state system.old) (Y.state system.new) (K.got sink.old) (K.got sink.new)) }
    ensures cause { IfErr result (λ t. (Y.state system.old).is_known ≡ true → HasMoveCause line.now (Y.state system.old)
        (Y.faults system.old) (Y.faults system.new) (trouble_status t)) }
    ensures kept { OnErr result ((Y.state system.old).is_known ≡ true → KeepsFiles (Y.state system.old) (Y.state system.new)) }
    ensures system { KeepsSystem (Y.state system.old) (Y.state system.new) }
    ensures later { Y.faults system.old ≤ Y.faults system.new }
    ensures sink { K.same sink.old sink.new }
{
    let Some(job) = job_of(line) else {
        return Err(Trouble::Usage);
    };
    match keyset_for(alloc, system, &job) {
        Ok(keyset) => rewrap_from(alloc, system, &keyset, &job, sink),
        Err(trouble) => Err(trouble),
    }
}

// From this keyset.
fn rewrap_from<'w, Y: System, K: Sink>(
    alloc: Global,
    system: &mut Y,
    keyset: &Bytes,
    job: &Job<'w>,
    sink: &mut K,
) -> Result<(), Trouble<'w>>
    ensures done { OnOk result ((Y.state system.old).is_known ≡ true → IsMovedFrom keyset.now job.now
        (Y.state system.old) (Y.state system.new) (K.got sink.old) (K.got sink.new)) }
    ensures cause { IfErr result (λ t. (Y.state system.old).is_known ≡ true → (line : LineRead) → IsJob line job.now
        → IsKeysetOf line (Y.state system.old) line.keys keyset.now → HasMoveCause line (Y.state system.old)
        (Y.faults system.old) (Y.faults system.new) (trouble_status t)) }
    ensures kept { OnErr result ((Y.state system.old).is_known ≡ true → KeepsFiles (Y.state system.old) (Y.state system.new)) }
    ensures system { KeepsSystem (Y.state system.old) (Y.state system.new) }
    ensures later { Y.faults system.old ≤ Y.faults system.new }
    ensures sink { K.same sink.old sink.new }
{
    let Some(words) = job.new_keys else {
        return Err(Trouble::Usage);
    };
    match keyset_of(alloc, system, words) {
        Ok(to) => rewrap_to(alloc, system, keyset, &to, job, sink),
        Err(trouble) => Err(trouble),
    }
}

// To that one.
fn rewrap_to<'w, Y: System, K: Sink>(
    alloc: Global,
    system: &mut Y,
    keyset: &Bytes,
    to: &Bytes,
    job: &Job<'w>,
    sink: &mut K,
) -> Result<(), Trouble<'w>>
    ensures done { OnOk result ((Y.state system.old).is_known ≡ true → IsMovedTo keyset.now to.now job.now
        (Y.state system.old) (Y.state system.new) (K.got sink.old) (K.got sink.new)) }
    ensures cause { IfErr result (λ t. (Y.state system.old).is_known ≡ true → (line : LineRead) → IsJob line job.now
        → IsKeysetOf line (Y.state system.old) line.keys keyset.now → IsKeysetOf line (Y.state system.old) line.to to.now
        → HasMoveCause line (Y.state system.old) (Y.faults system.old) (Y.faults system.new) (trouble_status t)) }
    ensures kept { OnErr result ((Y.state system.old).is_known ≡ true → KeepsFiles (Y.state system.old) (Y.state system.new)) }
    ensures system { KeepsSystem (Y.state system.old) (Y.state system.new) }
    ensures later { Y.faults system.old ≤ Y.faults system.new }
    ensures sink { K.same sink.old sink.new }
{
    let task = Task::Rewrap {
        to: to.as_slice(),
        to_aad: job.new_aad,
    };
    if let Err(trouble) = spare_terminal(system, task, job) {
        return Err(trouble);
    }
    match perform(alloc, system, task, keyset.as_slice(), job, sink) {
        Ok(()) => Ok(()),
        Err(trouble) => Err(blame_new_keys(alloc, keyset.as_slice(), job, trouble)),
    }
}

// The error of a move, and the file that it is of: that of the new keys, if the first keyset loads.
fn blame_new_keys<'w>(
    alloc: Global,
    keyset: &[u8],
    job: &Job<'w>,
    trouble: Trouble<'w>,
) -> Trouble<'w>
    ensures { trouble_status result ≡ trouble_status trouble.entry }
{
    match (trouble, job.new_file()) {
        (Trouble::Refused(_, kind), Some(file)) if is_of_keys(kind) && loads(alloc, keyset) => {
            Trouble::Refused(file, kind)
        }
        _ => trouble,
    }
}

// Whether an error is of a keyset.
fn is_of_keys(kind: Kind) -> bool {
    match kind {
        Kind::BadKeyset
        | Kind::InvalidKeyset
        | Kind::UnsupportedKeyType
        | Kind::InvalidKey
        | Kind::NoPrimary
        | Kind::WrongPrimitive
        | Kind::UnsupportedHash => true,
        _ => false,
    }
}

// Whether a keyset loads.
fn loads(alloc: Global, keyset: &[u8]) -> bool {
    match load(alloc, keyset) {
        Ok(_) => true,
        Err(_) => false,
    }
}

// What a command makes of its input under its own keys; a move is to others.
fn task_of(action: Action) -> Option<Task<'static>>
    ensures { result ≡ own_task action }
{
    match action {
        Action::Encrypt => Some(Task::Run(Command::Seal)),
        Action::Decrypt => Some(Task::Run(Command::Open)),
        Action::Sign => Some(Task::Sign),
        Action::Verify => Some(Task::Verify),
        _ => None,
    }
}

// Ciphertext goes to a terminal only if the words force it.
fn spare_terminal<'w, Y: System>(
    system: &mut Y,
    task: Task<'_>,
    job: &Job<'w>,
) -> Result<(), Trouble<'w>>
    ensures refused { IfErr result (λ t. trouble_status t ≡ 12) }
    ensures still { system.new ≡ system.old }
{
    let makes_stream = match task {
        Task::Run(Command::Seal) | Task::Rewrap { to: _, to_aad: _ } => true,
        _ => false,
    };
    if !makes_stream || job.is_forced {
        return Ok(());
    }
    match job.output {
        None => {
            if system.is_terminal(End::Output) {
                return Err(refuse_unforced(
                    b"standard output",
                    "it is a terminal, and ciphertext is no text: give -o OUT, redirect it, or force it by --force",
                ));
            }
        }
        Some(output) => {
            if system.leads_to_terminal(output) {
                return Err(refuse_unforced(
                    output,
                    "it is a terminal, and ciphertext is no text: name a file, or force it by --force",
                ));
            }
        }
    }
    Ok(())
}

// The refusal of an output that has to be forced.
fn refuse_unforced<'w>(output: &'w [u8], why: &'static str) -> Trouble<'w>
    ensures { trouble_status result ≡ 12 }
{
    Trouble::Unusable(output, why, 12)
}
