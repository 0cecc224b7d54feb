//! A file of keys under a master, and back.

ghost use Rattle.std.specs.Prelude.{◌≡◌, IfOk, OnOk, Ok};
ghost use Rattle.wire_format.specs.Message.{encoded};
ghost use Rattle.tink_io.specs.Answering.{Answers};
ghost use Rattle.tink_proto.specs.Messages.{keyset};
ghost use Rattle.tink_proto.specs.declared.messages.keys.Keyset.{Keyset};
ghost use Rattle.tink_keysets.specs.Encrypted.{handle_of_bytes};
ghost use Rattle.tink_keysets.specs.Through.{LeavesDraws};
ghost use Rattle.tink_keyset_io.specs.declared.key_files.formats.Format.TheVariants.{Binary};
ghost use Rattle.tink_cli_files.specs.Masters.{IsMaster, MasterKeys, valid_in_file};
ghost use Rattle.tink_cli_files.specs.Wrapping.{unspent_file, unwrapped_file, unwrapped_keys, wrapped_file, wrapped_in, wrapped_keys};

use crate::under_master::encrypting::{decrypt, encrypt};
use crate::under_master::master::{Master, valid_in_file};
use crate::under_master::text::{wrapped_in, wrapped_text};
use std::alloc::Global;
use tink_io::{Draws, TinkError};
use tink_keyset_io::key_files::{Format, as_file};
use tink_keysets::keyset::{Handle, insecure};
use tink_proto::{Bytes, EncryptedKeyset, Keyset};

/// The keyset of a file of keys, encrypted by the primary key of a master with the associated data, as a file of this
/// format. It is an `EncryptedKeyset` of Tink: it has the ids, statuses and types of its keys in the clear.
///
/// # Errors
/// `BadJson`, `BadKeyset` and `InvalidKeyset` exactly if the file of keys is no valid keyset, as `load_master`.
/// Then `MasterFailed` exactly if the master refuses: the keyset is too long for it, or too few draws are left.
/// `OutOfMemory` may come in place of each.
pub fn wrap_file(
    alloc: Global,
    master: &Master,
    keys: Vec<u8>,
    aad: &[u8],
    format: Format,
    draws: &mut Draws,
) -> Result<Bytes, TinkError>
    ensures answer { (m : MasterKeys) → IsMaster m master.now
        → Answers result (wrapped_file m keys.items aad.now format draws.old) }

    // A file in the wire format is read as what was encrypted.
    ensures again { IfOk result (λ file. (m : MasterKeys) → IsMaster m master.now → format ≡ Binary
        → wrapped_in file ≡ wrapped_keys m keys.items aad.now draws.old) }

    // What was encrypted are the bytes of a handle of the keyset.
    ensures held { OnOk result ((ks : Keyset) → valid_in_file keys.items ≡ Ok ks
        → handle_of_bytes (encoded keyset.write ks) ≡ Ok ks) }

    // Exactly the draws that the encryption took are spent.
    ensures rest { (m : MasterKeys) → IsMaster m master.now
        → LeavesDraws result (unspent_file m keys.items aad.now draws.old) draws.old draws.new }
{
    let encrypted = encrypted_keys(alloc, master, keys, aad, draws)?;
    wrapped_text(alloc, format, &encrypted)
}

/// The keyset that a master decrypts with the associated data, as a file of keys of this format. `wrap_file` or Tink
/// made the encrypted file.
///
/// # Errors
/// `BadJson` exactly if the file is JSON by its first byte, and spells no encrypted keyset. `BadKeyset` exactly if it
/// is not JSON, and spells no encrypted keyset. Then `MasterFailed` exactly if no key of the master decrypts it with
/// this data. Then `BadKeyset` and `InvalidKeyset` exactly if the decrypted bytes are no keyset that a handle may
/// hold. Then `KeysetTooLong` exactly if the file has no room. `OutOfMemory` may come in place of each.
pub fn unwrap_file(
    alloc: Global,
    master: &Master,
    wrapped: &[u8],
    aad: &[u8],
    format: Format,
) -> Result<Bytes, TinkError>
    ensures { (m : MasterKeys) → IsMaster m master.now
        → Answers result (unwrapped_file m wrapped.now aad.now format) }
{
    let keyset = unwrapped_keys(alloc, master, wrapped, aad)?;
    as_file(alloc, format, &keyset)
}

// The keyset of a file of keys, encrypted by the primary key of a master.
fn encrypted_keys(
    alloc: Global,
    master: &Master,
    keys: Vec<u8>,
    aad: &[u8],
    draws: &mut Draws,
) -> Result<EncryptedKeyset, TinkError>
    ensures answer { (m : MasterKeys) → IsMaster m master.now
        → Answers result (wrapped_keys m keys.items aad.now draws.old) }
    ensures held { OnOk result ((ks : Keyset) → valid_in_file keys.items ≡ Ok ks
        → handle_of_bytes (encoded keyset.write ks) ≡ Ok ks) }
    ensures rest { (m : MasterKeys) → IsMaster m master.now
        → LeavesDraws result (unspent_file m keys.items aad.now draws.old) draws.old draws.new }
{
    let handle = valid_in_file(alloc, keys)?;
    encrypt(alloc, &handle, master, aad, draws)
}

// The keyset that a master decrypts of a file.
fn unwrapped_keys(
    alloc: Global,
    master: &Master,
    wrapped: &[u8],
    aad: &[u8],
) -> Result<Keyset, TinkError>
    ensures { (m : MasterKeys) → IsMaster m master.now → Answers result (unwrapped_keys m wrapped.now aad.now) }
{
    let handle = unwrapped_handle(alloc, master, wrapped, aad)?;
    insecure::keyset_material(alloc, &handle)
}

// A handle of it.
fn unwrapped_handle(
    alloc: Global,
    master: &Master,
    wrapped: &[u8],
    aad: &[u8],
) -> Result<Handle, TinkError>
    ensures { (m : MasterKeys) → IsMaster m master.now → Answers result (unwrapped_keys m wrapped.now aad.now) }
{
    let encrypted = wrapped_in(alloc, wrapped)?;
    decrypt(alloc, encrypted, master, aad)
}
