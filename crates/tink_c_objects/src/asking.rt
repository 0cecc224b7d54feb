//! What objects of AEADs, of deterministic AEADs and of pseudorandom functions answer. An object answers again and again:
//! no call changes it.

ghost use Rattle.std.specs.Prelude.{◌≡◌, Some};
ghost use Rattle.tink_io.specs.Answering.{Answers};
ghost use Rattle.tink_sets.specs.Groups.{group_of};
ghost use Rattle.tink_keysets.specs.Decrypting.{any_decrypts};
ghost use Rattle.tink_prf.specs.PrfKinds.{kind_output};
ghost use Rattle.tink_prf.specs.Sets.{primary_output};
ghost use Rattle.tink_daead.specs.AesSiv.{aes_siv_decrypts, aes_siv_encrypts};
ghost use Rattle.tink_daead.specs.Wrapped as daeads;
ghost use Rattle.tink_aead.specs.AeadKinds.{kind_decrypts, kind_encrypts};
ghost use Rattle.tink_aead.specs.Wrapped as aeads;
ghost use Rattle.tink_c_objects.specs.Objects.{by_aead, by_daead, by_prfs, held_by};

use crate::object::Object;
use crate::owner::Owner;
use std::alloc::Global;
use tink_c_primitives::encrypt;
use tink_io::{Kind, TinkError};
use tink_primitives::{Aead, DeterministicAead};
use tink_proto::Bytes;

/// The ciphertext by the primary key of AEADs.
///
/// # Errors
/// `Closed` if there is no object of AEADs; then those of `encrypt` of `tink_c_primitives`.
pub fn aead_encrypt(
    alloc: Global,
    owner: &mut Owner,
    plaintext: &[u8],
    associated_data: &[u8],
    random: &[u8],
) -> Result<Bytes, TinkError>
    ensures answer { Answers result (by_aead (λ w. (aeads.primary_encrypts kind_encrypts w.ps.primary plaintext.now associated_data.now random.now).0) (held_by owner.old)) }
    ensures kept { held_by owner.new ≡ held_by owner.old }
{
    let Some(object) = owner.take(alloc) else {
        return Err(TinkError::new(Kind::Closed));
    };
    let answer = aead_encrypt_by(alloc, &object, plaintext, associated_data, random);
    owner.put(alloc, object);
    answer
}

// The same of an object.
fn aead_encrypt_by(
    alloc: Global,
    object: &Object,
    plaintext: &[u8],
    associated_data: &[u8],
    random: &[u8],
) -> Result<Bytes, TinkError>
    ensures { Answers result (by_aead (λ w. (aeads.primary_encrypts kind_encrypts w.ps.primary plaintext.now associated_data.now random.now).0) (Some object.now)) }
{
    match object {
        Object::Aead(aead) => encrypt(alloc, aead, plaintext, associated_data, random),
        Object::Daead(_)
        | Object::Mac(_)
        | Object::Prfs(_)
        | Object::Writer(_)
        | Object::Ranges(_)
        | Object::Reader(_) => Err(TinkError::new(Kind::Closed)),
    }
}

/// The plaintext by a key of AEADs.
///
/// # Errors
/// `Closed` if there is no object of AEADs; then `DecryptFailed` exactly if no key decrypts it.
pub fn aead_decrypt(
    alloc: Global,
    owner: &mut Owner,
    ciphertext: &[u8],
    associated_data: &[u8],
) -> Result<Bytes, TinkError>
    ensures answer { Answers result (by_aead (λ w. any_decrypts kind_decrypts (group_of w.ps.entries) ciphertext.now associated_data.now) (held_by owner.old)) }
    ensures kept { held_by owner.new ≡ held_by owner.old }
{
    let Some(object) = owner.take(alloc) else {
        return Err(TinkError::new(Kind::Closed));
    };
    let answer = aead_decrypt_by(alloc, &object, ciphertext, associated_data);
    owner.put(alloc, object);
    answer
}

// The same of an object.
fn aead_decrypt_by(
    alloc: Global,
    object: &Object,
    ciphertext: &[u8],
    associated_data: &[u8],
) -> Result<Bytes, TinkError>
    ensures { Answers result (by_aead (λ w. any_decrypts kind_decrypts (group_of w.ps.entries) ciphertext.now associated_data.now) (Some object.now)) }
{
    match object {
        Object::Aead(aead) => aead.decrypt(alloc, ciphertext, associated_data),
        Object::Daead(_)
        | Object::Mac(_)
        | Object::Prfs(_)
        | Object::Writer(_)
        | Object::Ranges(_)
        | Object::Reader(_) => Err(TinkError::new(Kind::Closed)),
    }
}

/// The ciphertext by the primary key of deterministic AEADs.
///
/// # Errors
/// `Closed` if there is no object of deterministic AEADs; then `TextTooLong` if there are more bytes than
/// the cipher takes.
pub fn daead_encrypt(
    alloc: Global,
    owner: &mut Owner,
    plaintext: &[u8],
    associated_data: &[u8],
) -> Result<Bytes, TinkError>
    ensures answer { Answers result (by_daead (λ w. daeads.primary_encrypts aes_siv_encrypts w.ps.primary plaintext.now associated_data.now) (held_by owner.old)) }
    ensures kept { held_by owner.new ≡ held_by owner.old }
{
    let Some(object) = owner.take(alloc) else {
        return Err(TinkError::new(Kind::Closed));
    };
    let answer = daead_encrypt_by(alloc, &object, plaintext, associated_data);
    owner.put(alloc, object);
    answer
}

// The same of an object.
fn daead_encrypt_by(
    alloc: Global,
    object: &Object,
    plaintext: &[u8],
    associated_data: &[u8],
) -> Result<Bytes, TinkError>
    ensures { Answers result (by_daead (λ w. daeads.primary_encrypts aes_siv_encrypts w.ps.primary plaintext.now associated_data.now) (Some object.now)) }
{
    match object {
        Object::Daead(daead) => daead.encrypt_deterministically(alloc, plaintext, associated_data),
        Object::Aead(_)
        | Object::Mac(_)
        | Object::Prfs(_)
        | Object::Writer(_)
        | Object::Ranges(_)
        | Object::Reader(_) => Err(TinkError::new(Kind::Closed)),
    }
}

/// The plaintext by a key of deterministic AEADs.
///
/// # Errors
/// `Closed` if there is no object of deterministic AEADs; then `DecryptFailed` exactly if no key decrypts it.
pub fn daead_decrypt(
    alloc: Global,
    owner: &mut Owner,
    ciphertext: &[u8],
    associated_data: &[u8],
) -> Result<Bytes, TinkError>
    ensures answer { Answers result (by_daead (λ w. any_decrypts aes_siv_decrypts (group_of w.ps.entries) ciphertext.now associated_data.now) (held_by owner.old)) }
    ensures kept { held_by owner.new ≡ held_by owner.old }
{
    let Some(object) = owner.take(alloc) else {
        return Err(TinkError::new(Kind::Closed));
    };
    let answer = daead_decrypt_by(alloc, &object, ciphertext, associated_data);
    owner.put(alloc, object);
    answer
}

// The same of an object.
fn daead_decrypt_by(
    alloc: Global,
    object: &Object,
    ciphertext: &[u8],
    associated_data: &[u8],
) -> Result<Bytes, TinkError>
    ensures { Answers result (by_daead (λ w. any_decrypts aes_siv_decrypts (group_of w.ps.entries) ciphertext.now associated_data.now) (Some object.now)) }
{
    match object {
        Object::Daead(daead) => daead.decrypt_deterministically(alloc, ciphertext, associated_data),
        Object::Aead(_)
        | Object::Mac(_)
        | Object::Prfs(_)
        | Object::Writer(_)
        | Object::Ranges(_)
        | Object::Reader(_) => Err(TinkError::new(Kind::Closed)),
    }
}

/// The first bytes of the primary pseudorandom function for an input.
///
/// # Errors
/// `Closed` if there is no object of pseudorandom functions; then `OutputTooLong` if the function has no
/// output of this length.
pub fn prf_compute(
    alloc: Global,
    owner: &mut Owner,
    input: &[u8],
    output_length: usize,
) -> Result<Bytes, TinkError>
    ensures answer { Answers result (by_prfs (λ w. primary_output kind_output w input.now output_length) (held_by owner.old)) }
    ensures kept { held_by owner.new ≡ held_by owner.old }
{
    let Some(object) = owner.take(alloc) else {
        return Err(TinkError::new(Kind::Closed));
    };
    let answer = prf_compute_by(alloc, &object, input, output_length);
    owner.put(alloc, object);
    answer
}

// The same of an object.
fn prf_compute_by(
    alloc: Global,
    object: &Object,
    input: &[u8],
    output_length: usize,
) -> Result<Bytes, TinkError>
    ensures { Answers result (by_prfs (λ w. primary_output kind_output w input.now output_length) (Some object.now)) }
{
    match object {
        Object::Prfs(prfs) => prfs.compute_primary_prf(alloc, input, output_length),
        Object::Aead(_)
        | Object::Daead(_)
        | Object::Mac(_)
        | Object::Writer(_)
        | Object::Ranges(_)
        | Object::Reader(_) => Err(TinkError::new(Kind::Closed)),
    }
}
