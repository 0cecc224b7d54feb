//! What holds of a keyset that is wrapped and unwrapped again.

ghost use Rattle.std.specs.Prelude.{◌≡◌, ℕ, List, Ok};
ghost use Rattle.tink_io.specs.Answering.{Answers};
ghost use Rattle.tink_keysets.specs.Through.{LeavesDraws};
ghost use Rattle.tink_cli_files.specs.Masters.{IsMaster, MasterKeys, master_of};
ghost use Rattle.tink_cli_files.specs.ThereAndBack.{OpensWhatItWraps, WrappedOutlives, returned_file};
ghost use Rattle.tink_cli_files.specs.Wrapping.{unspent_file};

use crate::under_master::{Master, unwrap_file, wrap_file};
use std::alloc::Global;
use tink_io::{Draws, TinkError};
use tink_keyset_io::key_files::Format;
use tink_proto::Bytes;

/// Wraps a file of keys in the wire format, and unwraps it under the same master with the same associated data. If no
/// key of the master decrypts the ciphertext to another plaintext, the same keyset comes back.
///
/// # Errors
/// That of loading the file of keys; then `MasterFailed` if the master refuses to encrypt. `OutOfMemory`.
pub fn law_wrapped_is_unwrapped(
    alloc: Global,
    master: &Master,
    keys: Vec<u8>,
    aad: &[u8],
    format: Format,
    draws: &mut Draws,
) -> Result<Bytes, TinkError>
    ensures answer { (file : List ℕ) (m : MasterKeys) → master_of file ≡ Ok m → IsMaster m master.now
        → OpensWhatItWraps m keys.items aad.now draws.old
        → Answers result (returned_file m keys.items aad.now draws.old format) }

    // Exactly the draws that the encryption took are spent.
    ensures rest { (m : MasterKeys) → IsMaster m master.now
        → LeavesDraws result (unspent_file m keys.items aad.now draws.old) draws.old draws.new }
{
    let file = wrap_file(alloc, master, keys, aad, Format::Binary, draws)?;
    unwrap_file(alloc, master, file.as_slice(), aad, format)
}

/// A master wraps a keyset, and then commands edit the master. If none disables, destroys or deletes a key of its
/// primary id, the master still unwraps it. The premise: none of its keys opens the ciphertext to another text.
pub fn law_wrapped_outlives_commands()
    ensures { WrappedOutlives }
{}
