//! The file that is written is none of the files of keys that are needed to read it, and standard input is read for one thing.

ghost use Rattle.std.specs.Prelude.{◌≡◌, ◌≤◌, false, true, IfErr, IfOk, OnErr, OnOk, Some, option_map};
ghost use Rattle.tink_cli_jobs.specs.Loading.{Fails, Gives, keyset_of};
ghost use Rattle.tink_cli_jobs.specs.Protecting.{AreSparedBy, AreSparedOthers, Differ, HasNoKeyset, IsNotFor, are_two, has_none, has_some, is_input, is_shared, reads_twice};
ghost use Rattle.tink_system.specs.Statuses.{trouble_status};

use crate::job::{Job, name_of_file};
use crate::keys::keyset_of;
use std::alloc::Global;
use tink_proto::Bytes;
use tink_system::{System, Trouble};

/// The keyset of a job whose output is none of its files of keys, and which reads standard input for one thing alone.
///
/// # Errors
/// Those of `spare_input`, `spare_keys` and `keyset_of`, each with its cause.
pub fn keyset_for<'w, Y: System>(
    alloc: Global,
    system: &mut Y,
    job: &Job<'w>,
) -> Result<Bytes, Trouble<'w>>
    ensures loaded { IfOk result (λ keyset. Gives (Y.state system.old) (keyset_of (Y.state system.old) job.now.keys) keyset) }
    ensures spared { OnOk result ((Y.state system.old).is_known ≡ true → AreSparedBy (Y.state system.old) job.now) }
    ensures once { OnOk result (reads_twice job.now ≡ false) }
    ensures refused { IfErr result (IsNotFor (Y.state system.old) job.now (Y.faults system.old) (Y.faults system.new)) }
    ensures state { Y.state system.new ≡ Y.state system.old }
    ensures later { Y.faults system.old ≤ Y.faults system.new }
{
    match spare_input(job) {
        Ok(()) => spared_keyset(alloc, system, job),
        Err(trouble) => Err(trouble),
    }
}

// The same, whatever is read from standard input.
fn spared_keyset<'w, Y: System>(
    alloc: Global,
    system: &mut Y,
    job: &Job<'w>,
) -> Result<Bytes, Trouble<'w>>
    ensures loaded { IfOk result (λ keyset. Gives (Y.state system.old) (keyset_of (Y.state system.old) job.now.keys) keyset) }
    ensures spared { OnOk result ((Y.state system.old).is_known ≡ true → AreSparedBy (Y.state system.old) job.now) }
    ensures refused { IfErr result (HasNoKeyset (Y.state system.old) job.now (Y.faults system.old) (Y.faults system.new)) }
    ensures state { Y.state system.new ≡ Y.state system.old }
    ensures later { Y.faults system.old ≤ Y.faults system.new }
{
    match spare_keys(system, job) {
        Ok(()) => keyset_of(alloc, system, job.keys),
        Err(trouble) => Err(trouble),
    }
}

/// Refuses a job that reads standard input for two things, for example for the keys and for a text.
///
/// # Errors
/// Status 11, exactly then.
pub fn spare_input<'w>(job: &Job<'w>) -> Result<(), Trouble<'w>>
    ensures once { OnOk result (reads_twice job.now ≡ false) }
    ensures refused { IfErr result (λ t. trouble_status t ≡ 11) }
    ensures cause { OnErr result (reads_twice job.now ≡ true) }
{
    let is_twice = reads_twice(job);
    if is_twice {
        return Err(Trouble::Unusable(
            b"standard input",
            "it is named for two things and can be read for one: give a file for the other",
            11,
        ));
    }
    Ok(())
}

// Whether standard input is named for two things.
fn reads_twice(job: &Job<'_>) -> bool
    ensures { result ≡ reads_twice job.now }
{
    names_two(job) || is_shared(job.keys.master, job.new_file())
}

// Whether two of the names of a job are standard input.
fn names_two(job: &Job<'_>) -> bool
    ensures { result ≡ are_two (has_none (option_map (λ n. n.now) job.now.input)) (is_input (Some job.now.keys.keys.now))
        (is_input (option_map (λ n. n.now) job.now.keys.master)) (is_input (option_map (λ w. w.keys.now) job.now.new_keys)) }
{
    are_two(
        job.input.is_none(),
        is_input(Some(job.keys.keys)),
        is_input(job.keys.master),
        is_input(job.new_file()),
    )
}

// Whether a master is standard input and is read for two files of keys.
fn is_shared(master: Option<&[u8]>, new_keys: Option<&[u8]>) -> bool
    ensures { result ≡ is_shared (option_map (λ n. n.now) master.entry) (option_map (λ n. n.now) new_keys.entry) }
{
    is_input(master) && has_some(new_keys)
}

// Whether there is a name.
fn has_some(name: Option<&[u8]>) -> bool
    ensures { result ≡ has_some (option_map (λ n. n.now) name.entry) }
{
    match name {
        Some(_) => true,
        None => false,
    }
}

// Whether two of these hold.
fn are_two(input: bool, keys: bool, master: bool, new_keys: bool) -> bool
    ensures { result ≡ are_two input keys master new_keys }
{
    match (input, keys) {
        (true, true) => true,
        (false, false) => master && new_keys,
        _ => master || new_keys,
    }
}

// Whether a name is standard input.
fn is_input(name: Option<&[u8]>) -> bool
    ensures { result ≡ is_input (option_map (λ n. n.now) name.entry) }
{
    match name {
        Some(name) => name == b"-".as_slice(),
        None => false,
    }
}

/// Refuses a job whose output is its file of keys, its master or its new file of keys.
///
/// # Errors
/// Status 12.
pub fn spare_keys<'w, Y: System>(system: &mut Y, job: &Job<'w>) -> Result<(), Trouble<'w>>
    ensures spared { OnOk result ((Y.state system.old).is_known ≡ true → AreSparedBy (Y.state system.old) job.now) }
    ensures refused { IfErr result (λ t. trouble_status t ≡ 12) }
    ensures cause { OnErr result ((Y.state system.old).is_known ≡ true → AreSparedBy (Y.state system.old) job.now → ⊥) }
    ensures still { system.new ≡ system.old }
{
    match spare_file(system, job.output, name_of_file(Some(job.keys.keys))) {
        Ok(()) => spare_others(system, job),
        Err(trouble) => Err(trouble),
    }
}

// Refuses one whose output is its master or its new file of keys.
fn spare_others<'w, Y: System>(system: &mut Y, job: &Job<'w>) -> Result<(), Trouble<'w>>
    ensures spared { OnOk result ((Y.state system.old).is_known ≡ true → AreSparedOthers (Y.state system.old) job.now) }
    ensures refused { IfErr result (λ t. trouble_status t ≡ 12) }
    ensures cause { OnErr result ((Y.state system.old).is_known ≡ true → AreSparedOthers (Y.state system.old) job.now → ⊥) }
    ensures still { system.new ≡ system.old }
{
    match spare_file(system, job.output, name_of_file(job.keys.master)) {
        Ok(()) => spare_file(system, job.output, name_of_file(job.new_file())),
        Err(trouble) => Err(trouble),
    }
}

/// Refuses an output that is this file.
///
/// # Errors
/// Status 12.
pub fn spare_file<'w, Y: System>(
    system: &mut Y,
    output: Option<&'w [u8]>,
    file: Option<&'w [u8]>,
) -> Result<(), Trouble<'w>>
    ensures spared { OnOk result ((Y.state system.old).is_known ≡ true
        → Differ (Y.state system.old) (option_map (λ n. n.now) output.entry) (option_map (λ n. n.now) file.entry)) }
    ensures refused { IfErr result (λ t. trouble_status t ≡ 12) }
    ensures cause { OnErr result ((Y.state system.old).is_known ≡ true
        → Differ (Y.state system.old) (option_map (λ n. n.now) output.entry) (option_map (λ n. n.now) file.entry) → ⊥) }
    ensures still { system.new ≡ system.old }
{
    match output {
        Some(output) => spare_named(system, output, file),
        None => Ok(()),
    }
}

// The same of an output that has a name.
fn spare_named<'w, Y: System>(
    system: &mut Y,
    output: &'w [u8],
    file: Option<&'w [u8]>,
) -> Result<(), Trouble<'w>>
    ensures spared { OnOk result ((Y.state system.old).is_known ≡ true
        → Differ (Y.state system.old) (Some output.now) (option_map (λ n. n.now) file.entry)) }
    ensures refused { IfErr result (λ t. trouble_status t ≡ 12) }
    ensures cause { OnErr result ((Y.state system.old).is_known ≡ true
        → Differ (Y.state system.old) (Some output.now) (option_map (λ n. n.now) file.entry) → ⊥) }
    ensures still { system.new ≡ system.old }
{
    match file {
        Some(file) if system.are_one(output, file) => Err(Trouble::Unusable(
            output,
            "it is a file of keys that this command reads: give another name for the output",
            12,
        )),
        _ => Ok(()),
    }
}
