//! The keyset that a command is given.

ghost use Rattle.std.specs.Prelude.{◌≡◌, ◌≤◌, IfErr, IfOk, Ok, Some};
ghost use Rattle.tink_cli_files.specs.Masters.{IsMaster, MasterKeys, master_of};
ghost use Rattle.tink_cli_files.specs.Wrapping.{unwrapped_file};
ghost use Rattle.tink_keyset_io.specs.Files.{wire_of};
ghost use Rattle.tink_keyset_io.specs.declared.key_files.formats.Format.TheVariants.{Binary};
ghost use Rattle.tink_cli_jobs.specs.Loading.{Fails, Gives, IsMasterOf, RefusesBy, keyset_of, master_of_file, named, plain_keyset, unwrapped_keyset, whole_of, wrapped_keyset};

use crate::job::name_of_file;
use std::alloc::Global;
use tink_cli_files::under_master::{Master, load_master, unwrap_file};
use tink_keyset_io::key_files::{Format, wire_bytes};
use tink_proto::Bytes;
use tink_system::{System, Trouble};

/// The bytes that a file of keys has at most.
pub const LIMIT: u64 = 1 << 24;

/// Which keyset a command is given.
#[derive(Clone, Copy)]
pub struct KeyWords<'w> {
    /// The file of keys; a dash is standard input.
    pub keys: &'w [u8],
    /// The file of the master keyset, if the file of keys is wrapped.
    pub master: Option<&'w [u8]>,
    /// The associated data of the wrapped file.
    pub master_aad: &'w [u8],
}

/// The keyset, in the wire format.
///
/// # Errors
/// Status 11 if a file is not there or cannot be read. 13, 14, 30 if it is no file of keys, or has more than
/// 16,777,216 bytes. With a master, 15 to 18 if it does not load as AEADs, and 34 if none of its keys decrypts the
/// wrapped file. 10.
pub fn keyset_of<'w, Y: System>(
    alloc: Global,
    system: &mut Y,
    words: KeyWords<'w>,
) -> Result<Bytes, Trouble<'w>>
    ensures loaded { IfOk result (λ keyset. Gives (Y.state system.old) (keyset_of (Y.state system.old) words.entry) keyset) }
    ensures refused { IfErr result (λ t. Fails (Y.state system.old) (Y.faults system.old) (Y.faults system.new)
        (keyset_of (Y.state system.old) words.entry) t) }
    ensures state { Y.state system.new ≡ Y.state system.old }
    ensures later { Y.faults system.old ≤ Y.faults system.new }
{
    match words.master {
        None => plain_keyset(alloc, system, words.keys),
        Some(master) => wrapped_keyset(alloc, system, words, master),
    }
}

/// A whole file of keys, or standard input: at most 16,777,216 bytes.
///
/// # Errors
/// Status 11 if the file is not there or cannot be read; 13 if it has more bytes; 10.
pub fn read_keys<'w, Y: System>(
    alloc: Global,
    system: &mut Y,
    name: &'w [u8],
) -> Result<Vec<u8>, Trouble<'w>>
    ensures read { IfOk result (λ file. Gives (Y.state system.old) (whole_of (Y.state system.old) (named (Some name.now))) file.items) }
    ensures refused { IfErr result (λ t. Fails (Y.state system.old) (Y.faults system.old) (Y.faults system.new)
        (whole_of (Y.state system.old) (named (Some name.now))) t) }
    ensures state { Y.state system.new ≡ Y.state system.old }
    ensures later { Y.faults system.old ≤ Y.faults system.new }
{
    system.read_whole(alloc, name_of_file(Some(name)), LIMIT)
}

/// The AEADs of a file of keys, or of standard input.
///
/// # Errors
/// Those of `keyset_of`, and 15 to 18 if a key does not build, there is no primary key, or a key is no AEAD.
pub fn master_in<'w, Y: System>(
    alloc: Global,
    system: &mut Y,
    name: &'w [u8],
) -> Result<Master, Trouble<'w>>
    ensures loaded { IfOk result (λ master. IsMasterOf (Y.state system.old) name.now master) }
    ensures refused { IfErr result (λ t. Fails (Y.state system.old) (Y.faults system.old) (Y.faults system.new)
        (master_of_file (Y.state system.old) name.now) t) }
    ensures state { Y.state system.new ≡ Y.state system.old }
    ensures later { Y.faults system.old ≤ Y.faults system.new }
{
    match read_keys(alloc, system, name) {
        Ok(file) => master_of(alloc, name, file),
        Err(trouble) => Err(trouble),
    }
}

// The AEADs of a file's bytes.
fn master_of<'w>(alloc: Global, name: &'w [u8], file: Vec<u8>) -> Result<Master, Trouble<'w>>
    ensures loaded { IfOk result (λ master. (m : MasterKeys) × (master_of file.items ≡ Ok m) × IsMaster m master) }
    ensures refused { IfErr result (RefusesBy (master_of file.items)) }
{
    match load_master(alloc, file) {
        Ok(master) => Ok(master),
        Err(e) => Err(Trouble::Refused(name, e.kind)),
    }
}

// The keyset of a file of keys that is not wrapped.
fn plain_keyset<'w, Y: System>(
    alloc: Global,
    system: &mut Y,
    keys: &'w [u8],
) -> Result<Bytes, Trouble<'w>>
    ensures loaded { IfOk result (λ keyset. Gives (Y.state system.old) (plain_keyset (Y.state system.old) keys.now) keyset) }
    ensures refused { IfErr result (λ t. Fails (Y.state system.old) (Y.faults system.old) (Y.faults system.new)
        (plain_keyset (Y.state system.old) keys.now) t) }
    ensures state { Y.state system.new ≡ Y.state system.old }
    ensures later { Y.faults system.old ≤ Y.faults system.new }
{
    match read_keys(alloc, system, keys) {
        Ok(file) => wire_keyset(alloc, keys, file),
        Err(trouble) => Err(trouble),
    }
}

// The keyset of a file's bytes.
fn wire_keyset<'w>(alloc: Global, keys: &'w [u8], file: Vec<u8>) -> Result<Bytes, Trouble<'w>>
    ensures loaded { IfOk result (λ keyset. wire_of file.items ≡ Ok keyset) }
    ensures refused { IfErr result (RefusesBy (wire_of file.items)) }
{
    match wire_bytes(alloc, file) {
        Ok(keyset) => Ok(keyset),
        Err(e) => Err(Trouble::Refused(keys, e.kind)),
    }
}

// The keyset of a wrapped file.
fn wrapped_keyset<'w, Y: System>(
    alloc: Global,
    system: &mut Y,
    words: KeyWords<'w>,
    master: &'w [u8],
) -> Result<Bytes, Trouble<'w>>
    ensures loaded { IfOk result (λ keyset. Gives (Y.state system.old) (wrapped_keyset (Y.state system.old) words.entry master.now) keyset) }
    ensures refused { IfErr result (λ t. Fails (Y.state system.old) (Y.faults system.old) (Y.faults system.new)
        (wrapped_keyset (Y.state system.old) words.entry master.now) t) }
    ensures state { Y.state system.new ≡ Y.state system.old }
    ensures later { Y.faults system.old ≤ Y.faults system.new }
{
    match master_in(alloc, system, master) {
        Ok(master) => unwrapped_keyset(alloc, system, words, &master),
        Err(trouble) => Err(trouble),
    }
}

// The keyset that a master decrypts.
fn unwrapped_keyset<'w, Y: System>(
    alloc: Global,
    system: &mut Y,
    words: KeyWords<'w>,
    master: &Master,
) -> Result<Bytes, Trouble<'w>>
    ensures loaded { (m : MasterKeys) → IsMaster m master.now
        → IfOk result (λ keyset. Gives (Y.state system.old) (unwrapped_keyset (Y.state system.old) words.entry m) keyset) }
    ensures refused { (m : MasterKeys) → IsMaster m master.now
        → IfErr result (λ t. Fails (Y.state system.old) (Y.faults system.old) (Y.faults system.new)
        (unwrapped_keyset (Y.state system.old) words.entry m) t) }
    ensures state { Y.state system.new ≡ Y.state system.old }
    ensures later { Y.faults system.old ≤ Y.faults system.new }
{
    match read_keys(alloc, system, words.keys) {
        Ok(file) => unwrapped_file(alloc, words, master, &file),
        Err(trouble) => Err(trouble),
    }
}

// The keyset that a master decrypts of a file's bytes.
fn unwrapped_file<'w>(
    alloc: Global,
    words: KeyWords<'w>,
    master: &Master,
    file: &[u8],
) -> Result<Bytes, Trouble<'w>>
    ensures loaded { (m : MasterKeys) → IsMaster m master.now
        → IfOk result (λ keyset. unwrapped_file m file.now words.entry.master_aad.now Binary ≡ Ok keyset) }
    ensures refused { (m : MasterKeys) → IsMaster m master.now
        → IfErr result (RefusesBy (unwrapped_file m file.now words.entry.master_aad.now Binary)) }
{
    match unwrap_file(alloc, master, file, words.master_aad, Format::Binary) {
        Ok(keyset) => Ok(keyset),
        Err(e) => Err(Trouble::Refused(words.keys, e.kind)),
    }
}
