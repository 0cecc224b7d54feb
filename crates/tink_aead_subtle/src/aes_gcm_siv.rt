//! AES-GCM-SIV (RFC 8452).

ghost use Rattle.std.specs.Prelude.{◌≡◌, length, OnErr};
ghost use Rattle.gcm.specs.Limits.{MOST_GCM_SIV};
ghost use Rattle.standards.specs.AesKeys.{aes};
ghost use Rattle.standards.specs.GcmSiv.{gcm_siv};
ghost use Rattle.tink_io.specs.Answering.{Answers, Replies};
ghost use Rattle.tink_aead_subtle.specs.KeySizes.{sized};
ghost use Rattle.tink_aead_subtle.specs.NonceAeads.{gcm_siv_text_of};
ghost use Rattle.tink_aead_subtle.specs.AesAeads.{gcm_siv_decrypts, gcm_siv_encrypts};

use crate::aes_gcm::{AES_GCM_IV_SIZE, AES_GCM_TAG_SIZE};
use crate::aes_key::AesKey;
use crate::nonce_aead::{decrypt, encrypt};
use aes_block::{Aes128, Aes256};
use gcm::GcmSiv;
use std::alloc::Global;
use tink_io::{Draws, TinkError};
use tink_primitives::{Aead, CloneIn};
use tink_proto::Bytes;

/// The size of a nonce in bytes.
pub const AES_GCM_SIV_NONCE_SIZE: usize = AES_GCM_IV_SIZE;

/// The size of a tag in bytes.
pub const AES_GCM_SIV_TAG_SIZE: usize = AES_GCM_TAG_SIZE;

/// AES-GCM-SIV (RFC 8452) under a key of 16 or 32 bytes. What it makes of a text is a nonce of 12
/// draws, the ciphertext and a tag of 16 bytes.
#[derive(Drop)]
pub struct AesGcmSiv {
    key: AesKey,
}

impl AesGcmSiv {
    /// The AEAD under this key.
    ///
    /// # Errors
    /// `BadKeySize`, unless the key has 16 or 32 bytes, and `OutOfMemory`.
    pub fn new(alloc: Global, key: &[u8]) -> Result<AesGcmSiv, TinkError>
        ensures { Answers result (sized key.now (record { key = key.now })) }
    {
        Ok(AesGcmSiv {
            key: AesKey::new(alloc, key)?,
        })
    }
}

impl CloneIn for AesGcmSiv {
    fn try_clone(&self, alloc: Global) -> Result<Self, TinkError> {
        Ok(AesGcmSiv {
            key: self.key.try_clone(alloc)?,
        })
    }
}

impl Aead for AesGcmSiv {
    ghost use Rattle.tink_aead_subtle.specs.NonceAeadTold.{decryption_told, encryption_told};

    ghost encrypts = { λ a text aad draws. gcm_siv_encrypts a.key text aad draws };

    ghost decrypts = { λ a input aad. gcm_siv_decrypts a.key input aad };

    /// # Errors
    /// `DataTooLong` where the associated data has more than 2^36 bytes, else `TextTooLong` where
    /// the text has, else `RandomFault` where fewer than 12 draws are left. `OutOfMemory` may come
    /// in place of each. No refusal takes a draw.
    fn encrypt(
        &self,
        alloc: Global,
        plaintext: &[u8],
        additional_data: &[u8],
        draws: &mut Draws,
    ) -> Result<Bytes, TinkError>
        ensures replies { Replies result (gcm_siv_encrypts self.now.key plaintext.now additional_data.now draws.old)
            draws.old draws.new }
        ensures rest { OnErr result (draws.new ≡ draws.old) }
    {
        match self.key.small() {
            Some(key) => {
                let aead = GcmSiv::<Aes128, 16>::new(key);
                encrypt(&aead, alloc, plaintext, additional_data, draws)
            }
            None => {
                let aead = GcmSiv::<Aes256, 32>::new(self.key.large());
                encrypt(&aead, alloc, plaintext, additional_data, draws)
            }
        }
    }

    /// # Errors
    /// `TooShort` if the ciphertext has fewer than 28 bytes. Else `DataTooLong` and `TextTooLong` as for
    /// encryption. Else `DecryptFailed` if it is the encryption of no text with this associated data.
    /// `OutOfMemory` may come in place of each.
    fn decrypt(
        &self,
        alloc: Global,
        ciphertext: &[u8],
        additional_data: &[u8],
    ) -> Result<Bytes, TinkError> {
        match self.key.small() {
            Some(key) => {
                let aead = GcmSiv::<Aes128, 16>::new(key);
                decrypt(&aead, alloc, ciphertext, additional_data)
            }
            None => {
                let aead = GcmSiv::<Aes256, 32>::new(self.key.large());
                decrypt(&aead, alloc, ciphertext, additional_data)
            }
        }
    }

    ghost encrypts_told = { λ a text aad draws. encryption_told (gcm_siv aes a.key) MOST_GCM_SIV text aad draws };

    ghost decrypts_told = { λ a input aad.
        decryption_told (gcm_siv aes a.key) (gcm_siv_text_of aes a.key) MOST_GCM_SIV input aad };
}
