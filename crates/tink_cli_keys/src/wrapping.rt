//! The commands that keep a file of keys under a master keyset.

ghost use Rattle.std.specs.Prelude.{◌≡◌, ◌⊎◌, ◌≤◌, true, false, IfErr, IfOk, OnErr, OnOk, Some};
ghost use Rattle.tink_cli_keys.specs.Refusing.{HasUnwrapCause, HasWrapCause, LeavesOut, LeavesOutAs, made_of_file, unwrapped_by, wrapped_by};
ghost use Rattle.tink_cli_keys.specs.Saving.{readable};
ghost use Rattle.tink_cli_keys.specs.Wrapping.{AreSparedWords, AreWordsOf, IsBarredBy, IsUnputBy, IsUnwrapped, IsUnwrappedBy, IsWrapped, IsWrappedBy, IsWrappedKeys, read_twice, unwrap_made, wrap_made};
ghost use Rattle.tink_cli_files.specs.Masters.{IsMaster, MasterKeys};
ghost use Rattle.tink_cli_jobs.specs.Loading.{Fails, IsMasterOf, master_of_file, named};
ghost use Rattle.tink_cli_jobs.specs.Outputs.{KeepsFiles};
ghost use Rattle.tink_cli_jobs.specs.Protecting.{is_input};
ghost use Rattle.tink_system.specs.States.{KeepsSystem};
ghost use Rattle.tink_system.specs.Statuses.{trouble_status};

use crate::saving::save_new;
use crate::words::format_of;
use std::alloc::Global;
use tink_cli_files::under_master::{Master, unwrap_file, wrap_file};
use tink_cli_jobs::keys::{master_in, read_keys};
use tink_cli_jobs::protecting::spare_file;
use tink_cli_jobs::{DRAWN, data_of, name_of_file};
use tink_cli_words::Line;
use tink_io::{Draws, Sink};
use tink_keyset_io::key_files::Format;
use tink_system::{System, Trouble};

// What the words say.
#[derive(Clone, Copy)]
struct Words<'w> {
    master: &'w [u8],
    input: &'w [u8],
    output: &'w [u8],
    aad: &'w [u8],
    format: Format,
}

fn words_of<'w>(line: &Line<'w>) -> Option<Words<'w>>
    ensures { AreWordsOf line.now result }
{
    let (Some(master), Some(output), Some(input)) = (line.keys(), line.output(), line.first())
    else {
        return None;
    };
    Some(Words {
        master,
        input,
        output,
        aad: data_of(line.aad()),
        format: format_of(line),
    })
}

/// `wrap`: a new file has the keyset of a file of keys, encrypted by the primary key of a master.
///
/// # Errors
/// - 11, 13, 14 and 30 if a file cannot be read or is no file of keys;
/// - 15 to 18 if the master does not load as AEADs;
/// - 34 if the master refuses;
/// - 35 if the system gives no random bytes;
/// - 12 if the output is the master, a file has its name, or it cannot be written;
/// - 11 if the master and the file of keys are both standard input;
/// - 10.
///
/// No file is changed then.
pub fn wrap<'w, Y: System, K: Sink>(
    alloc: Global,
    system: &mut Y,
    line: &Line<'w>,
    sink: &mut K,
) -> Result<(), Trouble<'w>>
    ensures done { OnOk result ((Y.state system.old).is_known ≡ true → IsWrapped line.now
        (Y.state system.old) (Y.state system.new) (K.got sink.old) (K.got sink.new)) }
    ensures refused { IfErr result (λ t. (Y.state system.old).is_known ≡ true → HasWrapCause line.now (Y.state system.old)
        (Y.faults system.old) (Y.faults system.new) (K.faults sink.old) (K.faults sink.new) (trouble_status t)) }
    ensures left { OnErr result ((Y.state system.old).is_known ≡ true → LeavesOutAs (wrapped_by line.now (Y.state system.old)) (named line.now.output)
        (K.got sink.old) (K.got sink.new)) }
    ensures kept { OnErr result ((Y.state system.old).is_known ≡ true → KeepsFiles (Y.state system.old) (Y.state system.new)) }
    ensures system { KeepsSystem (Y.state system.old) (Y.state system.new) }
    ensures later { Y.faults system.old ≤ Y.faults system.new }
    ensures sink { K.same sink.old sink.new }
{
    let Some(words) = words_of(line) else {
        return Err(Trouble::Usage);
    };
    match master_for(alloc, system, words) {
        Ok(master) => wrap_under(alloc, system, words, &master, sink),
        Err(trouble) => Err(trouble),
    }
}

// Under a master that is loaded.
fn wrap_under<'w, Y: System, K: Sink>(
    alloc: Global,
    system: &mut Y,
    words: Words<'w>,
    master: &Master,
    sink: &mut K,
) -> Result<(), Trouble<'w>>
    ensures done { OnOk result ((Y.state system.old).is_known ≡ true → (m : MasterKeys) → IsMaster m master.now
        → IsWrappedBy m words.entry (Y.state system.old) (Y.state system.new) (K.got sink.old) (K.got sink.new)) }
    ensures refused { IfErr result (λ t. (Y.state system.old).is_known ≡ true → (m : MasterKeys) → IsMaster m master.now
        → IsUnputBy words.entry (Y.state system.old) (Y.faults system.old) (Y.faults system.new) (K.faults sink.old) (K.faults sink.new)
        (made_of_file (wrap_made m words.entry (Y.state system.old)) (Y.state system.old) (named (Some words.entry.input.now))) (trouble_status t)) }
    ensures left { OnErr result ((Y.state system.old).is_known ≡ true → (m : MasterKeys) → IsMaster m master.now
        → LeavesOut (made_of_file (wrap_made m words.entry (Y.state system.old)) (Y.state system.old) (named (Some words.entry.input.now)))
        (named (Some words.entry.output.now)) (K.got sink.old) (K.got sink.new)) }
    ensures kept { OnErr result ((Y.state system.old).is_known ≡ true → KeepsFiles (Y.state system.old) (Y.state system.new)) }
    ensures system { KeepsSystem (Y.state system.old) (Y.state system.new) }
    ensures later { Y.faults system.old ≤ Y.faults system.new }
    ensures sink { K.same sink.old sink.new }
{
    match read_keys(alloc, system, words.input) {
        Ok(keys) => wrap_keys(alloc, system, words, master, keys, sink),
        Err(trouble) => Err(trouble),
    }
}

// Of a file of keys that is read.
fn wrap_keys<'w, Y: System, K: Sink>(
    alloc: Global,
    system: &mut Y,
    words: Words<'w>,
    master: &Master,
    keys: Vec<u8>,
    sink: &mut K,
) -> Result<(), Trouble<'w>>
    ensures done { OnOk result ((Y.state system.old).is_known ≡ true → (m : MasterKeys) → IsMaster m master.now
        → IsWrappedKeys m keys.items words.entry (Y.state system.old) (Y.state system.new) (K.got sink.old) (K.got sink.new)) }
    ensures refused { IfErr result (λ t. (Y.state system.old).is_known ≡ true → (m : MasterKeys) → IsMaster m master.now
        → IsUnputBy words.entry (Y.state system.old) (Y.faults system.old) (Y.faults system.new) (K.faults sink.old) (K.faults sink.new)
        (readable (wrap_made m words.entry (Y.state system.old) keys.items)) (trouble_status t)) }
    ensures left { OnErr result ((Y.state system.old).is_known ≡ true → (m : MasterKeys) → IsMaster m master.now
        → LeavesOut (readable (wrap_made m words.entry (Y.state system.old) keys.items))
        (named (Some words.entry.output.now)) (K.got sink.old) (K.got sink.new)) }
    ensures kept { OnErr result ((Y.state system.old).is_known ≡ true → KeepsFiles (Y.state system.old) (Y.state system.new)) }
    ensures system { KeepsSystem (Y.state system.old) (Y.state system.new) }
    ensures later { Y.faults system.old ≤ Y.faults system.new }
    ensures sink { K.same sink.old sink.new }
{
    match system.draws(alloc, DRAWN) {
        Ok(mut draws) => {
            let made = wrap_file(alloc, master, keys, words.aad, words.format, &mut draws);
            save_new(alloc, system, made, words.input, words.output, sink)
        }
        Err(trouble) => Err(trouble),
    }
}

/// `unwrap`: a new file has the keyset that a master decrypts of a wrapped file.
///
/// # Errors
/// - 11, 13, 14 and 30 if a file cannot be read or is no wrapped file;
/// - 15 to 18 if the master does not load as AEADs;
/// - 34 if no key of the master decrypts it with these data;
/// - 12 if the output is the master or the wrapped file, a file has its name, or it cannot be written;
/// - 11 if the master and the wrapped file are both standard input;
/// - 10.
///
/// No file is changed then.
pub fn unwrap<'w, Y: System, K: Sink>(
    alloc: Global,
    system: &mut Y,
    line: &Line<'w>,
    sink: &mut K,
) -> Result<(), Trouble<'w>>
    ensures done { OnOk result ((Y.state system.old).is_known ≡ true → IsUnwrapped line.now
        (Y.state system.old) (Y.state system.new) (K.got sink.old) (K.got sink.new)) }
    ensures refused { IfErr result (λ t. (Y.state system.old).is_known ≡ true → HasUnwrapCause line.now (Y.state system.old)
        (Y.faults system.old) (Y.faults system.new) (K.faults sink.old) (K.faults sink.new) (trouble_status t)) }
    ensures left { OnErr result ((Y.state system.old).is_known ≡ true → LeavesOutAs (unwrapped_by line.now (Y.state system.old)) (named line.now.output)
        (K.got sink.old) (K.got sink.new)) }
    ensures kept { OnErr result ((Y.state system.old).is_known ≡ true → KeepsFiles (Y.state system.old) (Y.state system.new)) }
    ensures system { KeepsSystem (Y.state system.old) (Y.state system.new) }
    ensures random { (Y.state system.new).random ≡ (Y.state system.old).random }
    ensures later { Y.faults system.old ≤ Y.faults system.new }
    ensures sink { K.same sink.old sink.new }
{
    let Some(words) = words_of(line) else {
        return Err(Trouble::Usage);
    };
    match master_for(alloc, system, words) {
        Ok(master) => unwrap_under(alloc, system, words, &master, sink),
        Err(trouble) => Err(trouble),
    }
}

// Under a master that is loaded.
fn unwrap_under<'w, Y: System, K: Sink>(
    alloc: Global,
    system: &mut Y,
    words: Words<'w>,
    master: &Master,
    sink: &mut K,
) -> Result<(), Trouble<'w>>
    ensures done { OnOk result ((Y.state system.old).is_known ≡ true → (m : MasterKeys) → IsMaster m master.now
        → IsUnwrappedBy m words.entry (Y.state system.old) (Y.state system.new) (K.got sink.old) (K.got sink.new)) }
    ensures refused { IfErr result (λ t. (Y.state system.old).is_known ≡ true → (m : MasterKeys) → IsMaster m master.now
        → IsUnputBy words.entry (Y.state system.old) (Y.faults system.old) (Y.faults system.new) (K.faults sink.old) (K.faults sink.new)
        (made_of_file (unwrap_made m words.entry) (Y.state system.old) (named (Some words.entry.input.now))) (trouble_status t)) }
    ensures left { OnErr result ((Y.state system.old).is_known ≡ true → (m : MasterKeys) → IsMaster m master.now
        → LeavesOut (made_of_file (unwrap_made m words.entry) (Y.state system.old) (named (Some words.entry.input.now)))
        (named (Some words.entry.output.now)) (K.got sink.old) (K.got sink.new)) }
    ensures kept { OnErr result ((Y.state system.old).is_known ≡ true → KeepsFiles (Y.state system.old) (Y.state system.new)) }
    ensures system { KeepsSystem (Y.state system.old) (Y.state system.new) }
    ensures random { (Y.state system.new).random ≡ (Y.state system.old).random }
    ensures later { Y.faults system.old ≤ Y.faults system.new }
    ensures sink { K.same sink.old sink.new }
{
    match read_keys(alloc, system, words.input) {
        Ok(file) => {
            let made = unwrap_file(alloc, master, &file, words.aad, words.format);
            save_new(alloc, system, made, words.input, words.output, sink)
        }
        Err(trouble) => Err(trouble),
    }
}

// The master of words that read standard input for one thing alone, and whose output is neither the master nor the file that is
// read.
fn master_for<'w, Y: System>(
    alloc: Global,
    system: &mut Y,
    words: Words<'w>,
) -> Result<Master, Trouble<'w>>
    ensures loaded { IfOk result (λ master. IsMasterOf (Y.state system.old) words.entry.master.now master) }
    ensures spared { OnOk result ((Y.state system.old).is_known ≡ true → AreSparedWords (Y.state system.old) words.entry) }
    ensures once { OnOk result (read_twice words.entry ≡ false) }
    ensures refused { IfErr result (λ t. (Y.state system.old).is_known ≡ true → IsBarredBy (Y.state system.old) words.entry (trouble_status t)
        ⊎ Fails (Y.state system.old) (Y.faults system.old) (Y.faults system.new) (master_of_file (Y.state system.old) words.entry.master.now) t) }
    ensures state { Y.state system.new ≡ Y.state system.old }
    ensures later { Y.faults system.old ≤ Y.faults system.new }
{
    match spare_input(words) {
        Ok(()) => spared_master(alloc, system, words),
        Err(trouble) => Err(trouble),
    }
}

// Refuses words that read standard input for two things.
fn spare_input<'w>(words: Words<'w>) -> Result<(), Trouble<'w>>
    ensures once { OnOk result (read_twice words.entry ≡ false) }
    ensures refused { IfErr result (λ t. (trouble_status t ≡ 11) × (read_twice words.entry ≡ true)) }
{
    if is_input(words.master) && is_input(words.input) {
        return Err(Trouble::Unusable(
            b"standard input",
            "it is named for two things and can be read for one: give a file for the other",
            11,
        ));
    }
    Ok(())
}

// Whether a name is standard input.
fn is_input(name: &[u8]) -> bool
    ensures { result ≡ is_input (Some name.now) }
{
    name == b"-".as_slice()
}

// The same, whatever is read from standard input.
fn spared_master<'w, Y: System>(
    alloc: Global,
    system: &mut Y,
    words: Words<'w>,
) -> Result<Master, Trouble<'w>>
    ensures loaded { IfOk result (λ master. IsMasterOf (Y.state system.old) words.entry.master.now master) }
    ensures spared { OnOk result ((Y.state system.old).is_known ≡ true → AreSparedWords (Y.state system.old) words.entry) }
    ensures refused { IfErr result (λ t. (Y.state system.old).is_known ≡ true → IsBarredBy (Y.state system.old) words.entry (trouble_status t)
        ⊎ Fails (Y.state system.old) (Y.faults system.old) (Y.faults system.new) (master_of_file (Y.state system.old) words.entry.master.now) t) }
    ensures state { Y.state system.new ≡ Y.state system.old }
    ensures later { Y.faults system.old ≤ Y.faults system.new }
{
    match spare_words(system, words) {
        Ok(()) => master_in(alloc, system, words.master),
        Err(trouble) => Err(trouble),
    }
}

// The output is neither the master nor the file that is read.
fn spare_words<'w, Y: System>(system: &mut Y, words: Words<'w>) -> Result<(), Trouble<'w>>
    ensures spared { OnOk result ((Y.state system.old).is_known ≡ true → AreSparedWords (Y.state system.old) words.entry) }
    ensures refused { IfErr result (λ t. trouble_status t ≡ 12) }
    ensures cause { OnErr result ((Y.state system.old).is_known ≡ true → AreSparedWords (Y.state system.old) words.entry → ⊥) }
    ensures still { system.new ≡ system.old }
{
    let output = name_of_file(Some(words.output));
    match spare_file(system, output, name_of_file(Some(words.master))) {
        Ok(()) => spare_file(system, output, name_of_file(Some(words.input))),
        Err(trouble) => Err(trouble),
    }
}
