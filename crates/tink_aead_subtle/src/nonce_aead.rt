//! AEADs whose output is a nonce of 12 bytes, a ciphertext and a tag of 16 bytes.

ghost use Rattle.std.specs.Prelude.{◌≡◌, ◌≤◌, ◌+◌, ◌-◌, ◌^◌, ◌++◌, ℕ, List, length, OnErr};
ghost use Rattle.gcm.specs.Answers.{IsOpened, IsSealed};
ghost use Rattle.gcm.specs.Limits.{MOST_GCM, MOST_GCM_SIV};
ghost use Rattle.gcm.specs.Siv.{cipher_of};
ghost use Rattle.standards.specs.Gcm.{gcm};
ghost use Rattle.standards.specs.GcmSiv.{encryption_key, gcm_siv};
ghost use Rattle.tink_io.specs.Answering.{Answers, Replies, Tells};
ghost use Rattle.tink_aead_subtle.specs.NonceAeads.{decryption, encryption, gcm_siv_text_of, gcm_text_of};
ghost use Rattle.tink_aead_subtle.specs.NonceAeads.{kind_of, limited};

use crate::aes_gcm::{AES_GCM_IV_SIZE, AES_GCM_TAG_SIZE};
use cipher::{BlockCipherEncrypt, KeyInit};
use gcm::{Gcm, GcmError, GcmSiv};
use std::alloc::Global;
use tink_io::{Draws, Kind, TinkError};
use tink_proto::Bytes;

// The bytes of a nonce, and of nonce and tag.
const NONCE_SIZE: usize = AES_GCM_IV_SIZE;

const LEAST_SIZE: usize = AES_GCM_IV_SIZE + AES_GCM_TAG_SIZE;

// The most bytes of associated data.
const MOST_DATA: usize = 1 << 36;

/// An AEAD under a nonce of 12 bytes, whose ciphertexts end with a tag of 16 bytes.
pub trait NonceAead {
    // The encryption of a text under a nonce and associated data.
    ghost seals: { Self → List ℕ → List ℕ → List ℕ → List ℕ };

    // The text of what was sealed under a nonce.
    ghost opens: { Self → List ℕ → List ℕ → List ℕ };

    // The most bytes of a text.
    ghost most: { ℕ };

    /// The bytes that a plaintext has at most.
    fn most_text() -> usize
        ensures { result ≡ most };

    /// Writes the ciphertext and the tag of a text into `out`, which has 16 bytes more than the text.
    ///
    /// # Errors
    /// `DataTooLong` if the associated data have more than 2^36 bytes; then `TextTooLong` if the text has more than
    /// `most_text` bytes. `out` is as before.
    fn seal_into(
        &self,
        nonce: &[u8],
        additional_data: &[u8],
        text: &[u8],
        out: &mut [u8],
    ) -> Result<(), GcmError>
        requires nonce { length nonce.now ≡ 12 }
        requires room { length out.old ≡ length text.now + 16 }
        ensures { IsSealed (seals self.now nonce.now additional_data.now) most additional_data.now text.now
            out.old out.new result };

    /// Writes the plaintext of a ciphertext and its tag into `out`, which has 16 bytes less.
    ///
    /// # Errors
    /// The first that applies:
    /// - `DataTooLong` if the associated data have more than 2^36 bytes;
    /// - `TextTooLong` if the ciphertext and its tag have more than `most_text` and 16 bytes;
    /// - `DecryptFailed` if no plaintext is encrypted to them.
    ///
    /// `out` is as before.
    fn open_into(
        &self,
        nonce: &[u8],
        additional_data: &[u8],
        sealed: &[u8],
        out: &mut [u8],
    ) -> Result<(), GcmError>
        requires nonce { length nonce.now ≡ 12 }
        requires room { length out.old ≡ length sealed.now - 16 }
        ensures { IsOpened (seals self.now nonce.now additional_data.now) most additional_data.now sealed.now
            out.old out.new result };

    // The text of what was sealed is had back.
    ghost gives_back: { (a : Self) (nonce additional_data text : List ℕ)
        → opens a nonce (seals a nonce additional_data text) ≡ text };
}

impl<C: BlockCipherEncrypt<16>> NonceAead for Gcm<C> {
    ghost use Rattle.tink_aead_subtle.specs.NonceAeadLaws.{gcm_gives_back};

    ghost seals = { λ a. gcm (C.encrypts a.cipher) };

    ghost opens = { λ a. gcm_text_of (C.encrypts a.cipher) };

    ghost most = { MOST_GCM };

    fn most_text() -> usize {
        (1 << 36) - 32
    }

    fn seal_into(
        &self,
        nonce: &[u8],
        additional_data: &[u8],
        text: &[u8],
        out: &mut [u8],
    ) -> Result<(), GcmError> {
        Gcm::seal_into(self, nonce, additional_data, text, out)
    }

    fn open_into(
        &self,
        nonce: &[u8],
        additional_data: &[u8],
        sealed: &[u8],
        out: &mut [u8],
    ) -> Result<(), GcmError> {
        Gcm::open_into(self, nonce, additional_data, sealed, out)
    }

    ghost gives_back = { λ a nonce aad text. gcm_gives_back (C.encrypts a.cipher) nonce aad text };
}

impl<C: KeyInit<K> + BlockCipherEncrypt<16> + Drop, const K: usize> NonceAead for GcmSiv<C, K> {
    ghost use Rattle.tink_aead_subtle.specs.NonceAeadLaws.{gcm_siv_gives_back};

    ghost seals = { λ a. gcm_siv (cipher_of C.keyed C.encrypts) a.key };

    ghost opens = { λ a. gcm_siv_text_of (cipher_of C.keyed C.encrypts) a.key };

    ghost most = { MOST_GCM_SIV };

    fn most_text() -> usize {
        1 << 36
    }

    fn seal_into(
        &self,
        nonce: &[u8],
        additional_data: &[u8],
        text: &[u8],
        out: &mut [u8],
    ) -> Result<(), GcmError> {
        GcmSiv::seal_into(self, nonce, additional_data, text, out)
    }

    fn open_into(
        &self,
        nonce: &[u8],
        additional_data: &[u8],
        sealed: &[u8],
        out: &mut [u8],
    ) -> Result<(), GcmError> {
        GcmSiv::open_into(self, nonce, additional_data, sealed, out)
    }

    ghost gives_back = { λ a nonce aad text. gcm_siv_gives_back (cipher_of C.keyed C.encrypts) a.key nonce aad text
        (λ block e. C.sized (C.keyed (encryption_key (cipher_of C.keyed C.encrypts) a.key nonce)) block e) };
}

// The kind of a refusal.
fn kind_of(e: GcmError) -> Kind
    ensures { result ≡ kind_of e }
{
    match e {
        GcmError::DataTooLong => Kind::DataTooLong,
        GcmError::TextTooLong => Kind::TextTooLong,
        GcmError::DecryptFailed => Kind::DecryptFailed,
    }
}

// Refuses associated data and a text by their lengths.
fn check_lengths(additional_data: usize, text: usize, most: usize) -> Result<(), TinkError>
    ensures { Tells result (limited most additional_data text) }
{
    if additional_data > MOST_DATA {
        return Err(TinkError::new(Kind::DataTooLong));
    }
    if text > most {
        return Err(TinkError::new(Kind::TextTooLong));
    }
    Ok(())
}

// Fills `out` with the nonce and what is sealed under it.
fn seal_behind<A: NonceAead>(
    aead: &A,
    nonce: &[u8; 12],
    additional_data: &[u8],
    text: &[u8],
    out: &mut [u8],
)
    requires aad { length additional_data.now ≤ 2 ^ 36 }
    requires text { length text.now ≤ A.most }
    requires room { length out.old ≡ length text.now + 28 }
    ensures { out.new ≡ nonce.now ++ A.seals aead.now nonce.now additional_data.now text.now }
{
    out[..NONCE_SIZE].copy_from_slice(nonce);
    match aead.seal_into(nonce, additional_data, text, &mut out[NONCE_SIZE..]) {
        Ok(()) => {}
        Err(_) => unreachable!(),
    }
}

/// Draws a nonce of 12 bytes, last. The answer is the nonce, the ciphertext under it and a tag of 16 bytes.
///
/// # Errors
/// The first that applies:
/// - `DataTooLong` if the associated data have more than 2^36 bytes;
/// - `TextTooLong` if the plaintext has more than `most_text` bytes;
/// - `RandomFault` if fewer than 12 random bytes are left.
///
/// `OutOfMemory`. No random bytes are taken then.
pub fn encrypt<A: NonceAead>(
    aead: &A,
    alloc: Global,
    plaintext: &[u8],
    additional_data: &[u8],
    draws: &mut Draws,
) -> Result<Bytes, TinkError>
    ensures replies { Replies result (encryption (A.seals aead.now) A.most plaintext.now additional_data.now draws.old)
        draws.old draws.new }
    ensures rest { OnErr result (draws.new ≡ draws.old) }
{
    check_lengths(additional_data.len(), plaintext.len(), A::most_text())?;
    if draws.left() < NONCE_SIZE {
        return Err(TinkError::new(Kind::RandomFault));
    }
    let mut out = vec![in alloc; 0; plaintext.len() + LEAST_SIZE]?;
    let mut nonce = [0; NONCE_SIZE];
    draws.take_into(&mut nonce)?;
    seal_behind(aead, &nonce, additional_data, plaintext, &mut out);
    Ok(Bytes::from_vec(out))
}

/// The plaintext of a nonce of 12 bytes, a ciphertext and a tag of 16 bytes.
///
/// # Errors
/// The first that applies:
/// - `TooShort` if there are fewer than 28 bytes;
/// - `DataTooLong` if the associated data have more than 2^36 bytes;
/// - `TextTooLong` if the plaintext has more than `most_text` bytes;
/// - `DecryptFailed` if it is the ciphertext of no plaintext with these associated data.
///
/// `OutOfMemory`.
pub fn decrypt<A: NonceAead>(
    aead: &A,
    alloc: Global,
    ciphertext: &[u8],
    additional_data: &[u8],
) -> Result<Bytes, TinkError>
    ensures { Answers result (decryption (A.seals aead.now) (A.opens aead.now) A.most
        ciphertext.now additional_data.now) }
{
    if ciphertext.len() < LEAST_SIZE {
        return Err(TinkError::new(Kind::TooShort));
    }
    let text_size = ciphertext.len() - LEAST_SIZE;
    check_lengths(additional_data.len(), text_size, A::most_text())?;
    let mut out = vec![in alloc; 0; text_size]?;
    let nonce = &ciphertext[..NONCE_SIZE];
    match aead.open_into(nonce, additional_data, &ciphertext[NONCE_SIZE..], &mut out) {
        Ok(()) => Ok(Bytes::from_vec(out)),
        Err(e) => Err(TinkError::new(kind_of(e))),
    }
}
