//! Files of keys are encrypted under a master keyset, and decrypted.

ghost use Rattle.std.specs.Prelude.{◌≡◌, ℕ, List};
ghost use Rattle.std.specs.declared.result.Result.{Result};
ghost use Rattle.tink_io.specs.declared.error.Kind.{Kind};
ghost use Rattle.tink_io.specs.Answering.{Answers};
ghost use Rattle.tink_cli_files.specs.Masters.{GivesMaster, IsMaster, MasterKeys, master_of};
ghost use Rattle.tink_cli_files.specs.Wrapping.{unwrapped_file, wrapped_file};
ghost use Rattle.tink_c_keysets.specs.Formats.{Lacks, format_by, had_random, has_random, unwrapped_under, wrapped_under, wrapped_with};

use crate::making::format_by;
use std::alloc::Global;
use tink_c_bytes::{copy_of, draws_of};
use tink_cli_files::under_master::{Master, load_master, unwrap_file, wrap_file};
use tink_io::{Kind, TinkError};
use tink_primitives::Aead;
use tink_proto::Bytes;

/// The keyset of a file, encrypted by the primary key of a master with the associated data, in JSON or in the wire
/// format.
///
/// # Errors
/// Those of `load_master`; then `RandomFault` if there are fewer random bytes than the primary key of the master takes;
/// then those of `wrapped` of `tink_cli_files`.
pub fn wrap(
    alloc: Global,
    master: &[u8],
    file: &[u8],
    associated_data: &[u8],
    json: bool,
    random: &[u8],
) -> Result<Bytes, TinkError>
    ensures { Answers result (wrapped_under master.now file.now associated_data.now json random.now) }
{
    let master = master_in(alloc, master)?;
    wrap_by(alloc, &master, file, associated_data, json, random)
}

/// The keyset that a master decrypts of a file that `wrap` made with the same associated data, in JSON or in the wire
/// format.
///
/// # Errors
/// Those of `load_master` and then of `unwrapped` of `tink_cli_files`.
pub fn unwrap(
    alloc: Global,
    master: &[u8],
    wrapped: &[u8],
    associated_data: &[u8],
    json: bool,
) -> Result<Bytes, TinkError>
    ensures { Answers result (unwrapped_under master.now wrapped.now associated_data.now json) }
{
    let master = master_in(alloc, master)?;
    unwrap_file(alloc, &master, wrapped, associated_data, format_by(json))
}

// The AEADs of a file of keys.
fn master_in(alloc: Global, file: &[u8]) -> Result<Master, TinkError>
    ensures { GivesMaster result (master_of file.now) }
{
    let file = copy_of(alloc, file)?;
    load_master(alloc, file)
}

// The keyset of a file, encrypted by a master, if the random bytes suffice.
fn wrap_by(
    alloc: Global,
    master: &Master,
    file: &[u8],
    associated_data: &[u8],
    json: bool,
    random: &[u8],
) -> Result<Bytes, TinkError>
    ensures { (m : MasterKeys) → IsMaster m master.now
        → Answers result (wrapped_with file.now associated_data.now json random.now m) }
{
    check_random(alloc, master, associated_data, random)?;
    wrap_now(alloc, master, file, associated_data, json, random)
}

// Ok if the random bytes suffice for the primary key of a master.
fn check_random(
    alloc: Global,
    master: &Master,
    associated_data: &[u8],
    random: &[u8],
) -> Result<(), TinkError>
    ensures { (m : MasterKeys) → IsMaster m master.now
        → Answers result (has_random m associated_data.now random.now) }
{
    let mut draws = draws_of(alloc, random)?;
    unless_short(master.encrypt(alloc, b"", associated_data, &mut draws))
}

// Ok if an encryption was not refused for want of random bytes.
fn unless_short(encrypted: Result<Bytes, TinkError>) -> Result<(), TinkError>
    ensures { (told : Result (List ℕ) Kind) → Answers encrypted told → Answers result (had_random told) }
{
    match encrypted {
        Ok(ciphertext) => {
            drop(ciphertext);
            Ok(())
        }
        Err(e) => lack(e),
    }
}

// The error, if it is for want of random bytes or of memory.
fn lack(e: TinkError) -> Result<(), TinkError>
    ensures { Lacks e.kind result }
{
    match e.kind {
        Kind::OutOfMemory | Kind::RandomFault => Err(e),
        _ => Ok(()),
    }
}

// The keyset of a file, encrypted by a master.
fn wrap_now(
    alloc: Global,
    master: &Master,
    file: &[u8],
    associated_data: &[u8],
    json: bool,
    random: &[u8],
) -> Result<Bytes, TinkError>
    ensures { (m : MasterKeys) → IsMaster m master.now
        → Answers result (wrapped_file m file.now associated_data.now (format_by json) random.now) }
{
    let mut draws = draws_of(alloc, random)?;
    let file = copy_of(alloc, file)?;
    wrap_file(
        alloc,
        master,
        file,
        associated_data,
        format_by(json),
        &mut draws,
    )
}
