//! Keys of AES-GCM, and what a prepared one keeps.

ghost use Rattle.std.specs.Prelude.{◌≡◌, ⊤, ℕ, List, MatchOption, OnErr};
ghost use Rattle.tink_io.specs.Answering.{Answers, Replies};
ghost use Rattle.tink_aead_subtle.specs.AesAeads.{gcm_decrypts, gcm_encrypts};
ghost use Rattle.tink_aead_subtle.specs.GcmKeys.{IsKeyedBy};

use crate::aes_key::AesKey;
use crate::nonce_aead;
use aes_block::{Aes128, Aes256};
use cipher::KeyInit;
use gcm::Gcm;
use std::alloc::Global;
use std::marker::Model;
use tink_io::{Draws, TinkError};
use tink_primitives::CloneIn;
use tink_proto::Bytes;

/// A key of AES-GCM (SP 800-38D) of 16 or 32 bytes. A contract sees its bytes. A prepared one keeps the schedule and the
/// tables of its hash key, some 19 KB. Any other holds its bytes alone, and each call makes them.
#[derive(Drop)]
pub struct GcmKey {
    key: AesKey,
    kept: Option<Box<KeyedGcm>>,
}

// AES-GCM under a key of 16 or of 32 bytes.
#[derive(Drop)]
enum KeyedGcm {
    Short(Gcm<Aes128>),
    Long(Gcm<Aes256>),
}

impl Model for GcmKey {
    ghost use Rattle.std.specs.Prelude.{ℕ, List, ⊤, MatchOption};
    ghost use Rattle.tink_aead_subtle.specs.GcmKeys.{IsKeyedBy};

    ghost Value = { List ℕ };

    ghost view = { λ k. k.key };

    ghost invariant = { λ k. MatchOption k.kept ⊤ (λ aead. IsKeyedBy aead.value k.key) };
}

impl GcmKey {
    /// The key. It holds its bytes alone.
    pub fn new(key: AesKey) -> GcmKey
        ensures { result ≡ key }
    {
        GcmKey { key, kept: None }
    }

    /// Draws a nonce of 12 bytes. The answer is the nonce, the ciphertext under it and a tag of 16 bytes.
    ///
    /// # Errors
    /// The first that applies:
    /// - `DataTooLong` if the associated data have more than 2^36 bytes;
    /// - `TextTooLong` if the plaintext has more bytes than AES-GCM takes;
    /// - `RandomFault` if fewer than 12 random bytes are left.
    ///
    /// `OutOfMemory`. No random bytes are taken then.
    pub fn encrypt(
        &self,
        alloc: Global,
        plaintext: &[u8],
        additional_data: &[u8],
        draws: &mut Draws,
    ) -> Result<Bytes, TinkError>
        ensures replies { Replies result (gcm_encrypts self.now plaintext.now additional_data.now draws.old)
            draws.old draws.new }
        ensures rest { OnErr result (draws.new ≡ draws.old) }
    {
        match &self.kept {
            Some(kept) => kept.encrypt(alloc, plaintext, additional_data, draws),
            None => encrypt_once(&self.key, alloc, plaintext, additional_data, draws),
        }
    }

    /// The plaintext of a nonce of 12 bytes, a ciphertext and a tag of 16 bytes.
    ///
    /// # Errors
    /// The first that applies:
    /// - `TooShort` if there are fewer than 28 bytes;
    /// - `DataTooLong` if the associated data have more than 2^36 bytes;
    /// - `TextTooLong` if the plaintext has more bytes than AES-GCM takes;
    /// - `DecryptFailed` if it is the ciphertext of no plaintext with these associated data.
    ///
    /// `OutOfMemory`.
    pub fn decrypt(
        &self,
        alloc: Global,
        ciphertext: &[u8],
        additional_data: &[u8],
    ) -> Result<Bytes, TinkError>
        ensures { Answers result (gcm_decrypts self.now ciphertext.now additional_data.now) }
    {
        match &self.kept {
            Some(kept) => kept.decrypt(alloc, ciphertext, additional_data),
            None => decrypt_once(&self.key, alloc, ciphertext, additional_data),
        }
    }
}

impl KeyedGcm {
    fn encrypt(
        &self,
        alloc: Global,
        plaintext: &[u8],
        additional_data: &[u8],
        draws: &mut Draws,
    ) -> Result<Bytes, TinkError>
        ensures replies { (key : List ℕ) → IsKeyedBy self.now key
            → Replies result (gcm_encrypts key plaintext.now additional_data.now draws.old) draws.old draws.new }
        ensures rest { OnErr result (draws.new ≡ draws.old) }
    {
        match self {
            KeyedGcm::Short(aead) => {
                nonce_aead::encrypt(aead, alloc, plaintext, additional_data, draws)
            }
            KeyedGcm::Long(aead) => {
                nonce_aead::encrypt(aead, alloc, plaintext, additional_data, draws)
            }
        }
    }

    fn decrypt(
        &self,
        alloc: Global,
        ciphertext: &[u8],
        additional_data: &[u8],
    ) -> Result<Bytes, TinkError>
        ensures answers { (key : List ℕ) → IsKeyedBy self.now key
            → Answers result (gcm_decrypts key ciphertext.now additional_data.now) }
    {
        match self {
            KeyedGcm::Short(aead) => {
                nonce_aead::decrypt(aead, alloc, ciphertext, additional_data)
            }
            KeyedGcm::Long(aead) => {
                nonce_aead::decrypt(aead, alloc, ciphertext, additional_data)
            }
        }
    }
}

// AES-GCM under this key.
fn keyed_by(key: &AesKey) -> KeyedGcm
    ensures { IsKeyedBy result key.now }
{
    match key.small() {
        Some(key) => KeyedGcm::Short(Gcm::new(Aes128::new(key))),
        None => KeyedGcm::Long(Gcm::new(Aes256::new(key.large()))),
    }
}

// The encryption by a schedule and tables that are made for it.
#[inline(never)]
fn encrypt_once(
    key: &AesKey,
    alloc: Global,
    plaintext: &[u8],
    additional_data: &[u8],
    draws: &mut Draws,
) -> Result<Bytes, TinkError>
    ensures replies { Replies result (gcm_encrypts key.now plaintext.now additional_data.now draws.old)
        draws.old draws.new }
    ensures rest { OnErr result (draws.new ≡ draws.old) }
{
    let aead = keyed_by(key);
    aead.encrypt(alloc, plaintext, additional_data, draws)
}

// The decryption by a schedule and tables that are made for it.
#[inline(never)]
fn decrypt_once(
    key: &AesKey,
    alloc: Global,
    ciphertext: &[u8],
    additional_data: &[u8],
) -> Result<Bytes, TinkError>
    ensures { Answers result (gcm_decrypts key.now ciphertext.now additional_data.now) }
{
    let aead = keyed_by(key);
    aead.decrypt(alloc, ciphertext, additional_data)
}

// The schedule and the tables of a key on the heap, if there is memory.
fn kept_of(alloc: Global, key: &AesKey) -> Option<Box<KeyedGcm>>
    ensures { MatchOption result ⊤ (λ aead. IsKeyedBy aead.value key.now) }
{
    match Box::new(alloc, keyed_by(key)) {
        Ok(aead) => Some(aead),
        Err(_) => None,
    }
}

impl CloneIn for GcmKey {
    // The copy holds its bytes alone.
    fn try_clone(&self, alloc: Global) -> Result<Self, TinkError> {
        Ok(GcmKey::new(self.key.try_clone(alloc)?))
    }

    // Where there is no memory for schedule and tables, the copy works without them.
    fn try_prepared(&self, alloc: Global) -> Result<Self, TinkError> {
        let key = self.key.try_clone(alloc)?;
        let kept = kept_of(alloc, &key);
        Ok(GcmKey { key, kept })
    }
}
