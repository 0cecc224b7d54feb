//! Keys that are made, rotated and disabled. The old ciphertext still decrypts, until the old key is disabled.
#![tactic(auto)]

ghost use Rattle.keyset_model.specs.Edits as edits;
ghost use Rattle.tink_keysets.specs.Editing.{Edits};

use example_aead::encrypt_value;
use std::alloc::Global;
use tink::aead::aes256_gcm_key_template;
use tink::keyset::{Handle, Manager};
use tink::{Aead, Draws, Managers, Registry, TinkError};
use tink_proto::Bytes;

/// Adds a key, which encrypts from now on. Returns its id.
///
/// # Errors
/// `RandomFault` if too few random bytes are left; `NoFreshId`; `OutOfMemory`.
pub fn add_key(
    alloc: Global,
    registry: &Registry<Managers>,
    keys: &mut Manager,
    draws: &mut Draws,
) -> Result<u32, TinkError> {
    match aes256_gcm_key_template(alloc) {
        Ok(template) => keys.rotate(alloc, &template, registry, draws),
        Err(e) => Err(e),
    }
}

/// Disables a key: it decrypts nothing from now on.
///
/// # Errors
/// `IsPrimary` if the key encrypts; `KeyNotFound`; `WrongStatus` if it was destroyed.
pub fn retire(keys: &mut Manager, id: u32) -> Result<(), TinkError>
    ensures { Edits result keys.old keys.new (edits.disable keys.old id) }
{
    keys.disable(id)
}

/// The ciphertext of a row's value by the primary key.
///
/// # Errors
/// Those of `tink::aead::new`; `RandomFault`; `OutOfMemory`.
pub fn encrypt_row(
    alloc: Global,
    registry: &Registry<Managers>,
    keyset: &Handle,
    row: &[u8],
    value: &[u8],
    draws: &mut Draws,
) -> Result<Bytes, TinkError> {
    match tink::aead::new(alloc, keyset, registry) {
        Ok(aead) => encrypt_value(alloc, &aead, row, value, draws),
        Err(e) => Err(e),
    }
}

/// The value of a row by any enabled key.
///
/// # Errors
/// Those of `tink::aead::new`; `DecryptFailed` if no key decrypts the ciphertext under this name; `OutOfMemory`.
pub fn decrypt_row(
    alloc: Global,
    registry: &Registry<Managers>,
    keyset: &Handle,
    row: &[u8],
    ciphertext: &[u8],
) -> Result<Bytes, TinkError> {
    match tink::aead::new(alloc, keyset, registry) {
        Ok(aead) => aead.decrypt(alloc, ciphertext, row),
        Err(e) => Err(e),
    }
}
