//! What the primitives of a file of keys answer.

ghost use Rattle.tink_io.specs.Answering.{Answers};
ghost use Rattle.tink_aead.specs.AeadKinds.{kind_encrypts};
ghost use Rattle.tink_aead.specs.Wrapped.{primary_encrypts};
ghost use Rattle.tink_c_bytes.specs.Delivered.{MadeBy};
ghost use Rattle.tink_c_primitives.specs.Primitives.{PrfGives, PrfRefuses, aead_decrypted, aead_encrypted, daead_decrypted, daead_encrypted, mac_computed, mac_verified};

use crate::loading::{aeads_in_file, daeads_in_file, macs_in_file, prfs_in_file};
use std::alloc::Global;
use tink_aead::{AeadKind, WrappedAead};
use tink_c_bytes::draws_of;
use tink_io::TinkError;
use tink_primitives::{Aead, DeterministicAead, Mac};
use tink_proto::Bytes;

/// The ciphertext by the primary key of a file of AEADs.
///
/// # Errors
/// Those of `aeads_in_file`; then `TextTooLong` or `DataTooLong` if there are more bytes than
/// the cipher takes, and `RandomFault` if fewer random bytes were handed in than the nonce has.
pub fn aead_encrypt(
    alloc: Global,
    file: &[u8],
    plaintext: &[u8],
    associated_data: &[u8],
    random: &[u8],
) -> Result<Bytes, TinkError>
    ensures { Answers result (aead_encrypted file.now plaintext.now associated_data.now random.now) }
{
    let aead = aeads_in_file(alloc, file)?;
    encrypt(alloc, &aead, plaintext, associated_data, random)
}

/// The plaintext by a key of a file of AEADs.
///
/// # Errors
/// Those of `aeads_in_file`; then `DecryptFailed` exactly if no key decrypts it.
pub fn aead_decrypt(
    alloc: Global,
    file: &[u8],
    ciphertext: &[u8],
    associated_data: &[u8],
) -> Result<Bytes, TinkError>
    ensures { Answers result (aead_decrypted file.now ciphertext.now associated_data.now) }
{
    let aead = aeads_in_file(alloc, file)?;
    aead.decrypt(alloc, ciphertext, associated_data)
}

/// The ciphertext by the primary key of AEADs, with the random bytes that were handed in.
///
/// # Errors
/// Those of `encrypt` of `Aead`.
pub fn encrypt(
    alloc: Global,
    aead: &WrappedAead<AeadKind>,
    plaintext: &[u8],
    associated_data: &[u8],
    random: &[u8],
) -> Result<Bytes, TinkError>
    ensures { Answers result
        (primary_encrypts kind_encrypts aead.now.ps.primary plaintext.now associated_data.now random.now).0 }
{
    let mut draws = draws_of(alloc, random)?;
    aead.encrypt(alloc, plaintext, associated_data, &mut draws)
}

/// The ciphertext by the primary key of a file of deterministic AEADs.
///
/// # Errors
/// Those of `daeads_in_file`; then `TextTooLong` if there are more bytes than the cipher takes.
pub fn daead_encrypt(
    alloc: Global,
    file: &[u8],
    plaintext: &[u8],
    associated_data: &[u8],
) -> Result<Bytes, TinkError>
    ensures { Answers result (daead_encrypted file.now plaintext.now associated_data.now) }
{
    let daead = daeads_in_file(alloc, file)?;
    daead.encrypt_deterministically(alloc, plaintext, associated_data)
}

/// The plaintext by a key of a file of deterministic AEADs.
///
/// # Errors
/// Those of `daeads_in_file`; then `DecryptFailed` exactly if no key decrypts it.
pub fn daead_decrypt(
    alloc: Global,
    file: &[u8],
    ciphertext: &[u8],
    associated_data: &[u8],
) -> Result<Bytes, TinkError>
    ensures { Answers result (daead_decrypted file.now ciphertext.now associated_data.now) }
{
    let daead = daeads_in_file(alloc, file)?;
    daead.decrypt_deterministically(alloc, ciphertext, associated_data)
}

/// The MAC of a message by the primary key of a file of MACs.
///
/// # Errors
/// Those of `macs_in_file`.
pub fn mac_compute(alloc: Global, file: &[u8], message: &[u8]) -> Result<Bytes, TinkError>
    ensures { Answers result (mac_computed file.now message.now) }
{
    let mac = macs_in_file(alloc, file)?;
    mac.compute_mac(alloc, message)
}

/// Ok if a key of a file of MACs accepts the MAC for the message.
///
/// # Errors
/// Those of `macs_in_file`; then `MacMismatch` exactly if no key accepts it.
pub fn mac_verify(alloc: Global, file: &[u8], mac: &[u8], message: &[u8]) -> Result<(), TinkError>
    ensures { Answers result (mac_verified file.now mac.now message.now) }
{
    let macs = macs_in_file(alloc, file)?;
    macs.verify_mac(alloc, mac, message)
}

/// The first bytes of the primary pseudorandom function of a file for an input.
///
/// # Errors
/// Those of `prfs_in_file`; then `OutputTooLong` if the function has no output of this length.
pub fn prf_compute(
    alloc: Global,
    file: &[u8],
    input: &[u8],
    output_length: usize,
) -> Result<Bytes, TinkError>
    ensures { MadeBy (PrfGives file.now input.now output_length) (PrfRefuses file.now input.now output_length) result }
{
    let prfs = prfs_in_file(alloc, file)?;
    prfs.compute_primary_prf(alloc, input, output_length)
}
