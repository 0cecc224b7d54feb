//! AES-GCM (SP 800-38D).

ghost use Rattle.std.specs.Prelude.{◌≡◌, length, OnErr};
ghost use Rattle.gcm.specs.Limits.{MOST_GCM};
ghost use Rattle.standards.specs.AesKeys.{aes};
ghost use Rattle.standards.specs.Gcm.{gcm};
ghost use Rattle.tink_io.specs.Answering.{Answers, Replies};
ghost use Rattle.tink_aead_subtle.specs.KeySizes.{sized};
ghost use Rattle.tink_aead_subtle.specs.NonceAeads.{gcm_text_of};
ghost use Rattle.tink_aead_subtle.specs.AesAeads.{gcm_decrypts, gcm_encrypts};

use crate::aes_key::AesKey;
use crate::gcm_key::GcmKey;
use std::alloc::Global;
use tink_io::{Draws, TinkError};
use tink_primitives::{Aead, CloneIn};
use tink_proto::Bytes;

/// The size of a nonce in bytes.
pub const AES_GCM_IV_SIZE: usize = 12;

/// The size of a tag in bytes.
pub const AES_GCM_TAG_SIZE: usize = 16;

/// AES-GCM (SP 800-38D) under a key of 16 or 32 bytes. What it makes of a text is a nonce of 12
/// draws, the ciphertext and a tag of 16 bytes. `try_prepared` gives one that keeps the key schedule and the
/// tables of GHASH, some 19 KB on the heap. Any other makes them in each call.
#[derive(Drop)]
pub struct AesGcm {
    key: GcmKey,
}

impl AesGcm {
    /// The AEAD under this key.
    ///
    /// # Errors
    /// `BadKeySize`, unless the key has 16 or 32 bytes, and `OutOfMemory`.
    pub fn new(alloc: Global, key: &[u8]) -> Result<AesGcm, TinkError>
        ensures { Answers result (sized key.now (record { key = key.now })) }
    {
        Ok(AesGcm {
            key: GcmKey::new(AesKey::new(alloc, key)?),
        })
    }
}

impl CloneIn for AesGcm {
    fn try_clone(&self, alloc: Global) -> Result<Self, TinkError> {
        Ok(AesGcm {
            key: self.key.try_clone(alloc)?,
        })
    }

    fn try_prepared(&self, alloc: Global) -> Result<Self, TinkError> {
        Ok(AesGcm {
            key: self.key.try_prepared(alloc)?,
        })
    }
}

impl Aead for AesGcm {
    ghost use Rattle.tink_aead_subtle.specs.NonceAeadTold.{decryption_told, encryption_told};

    ghost encrypts = { λ a text aad draws. gcm_encrypts a.key text aad draws };

    ghost decrypts = { λ a input aad. gcm_decrypts a.key input aad };

    /// # Errors
    /// `DataTooLong` if the associated data has more than 2^36 bytes. Else `TextTooLong` if the text has more
    /// than 2^36 - 32. Else `RandomFault` if fewer than 12 draws are left. `OutOfMemory` may come in place of
    /// each. No refusal takes a draw.
    fn encrypt(
        &self,
        alloc: Global,
        plaintext: &[u8],
        additional_data: &[u8],
        draws: &mut Draws,
    ) -> Result<Bytes, TinkError>
        ensures replies { Replies result (gcm_encrypts self.now.key plaintext.now additional_data.now draws.old)
            draws.old draws.new }
        ensures rest { OnErr result (draws.new ≡ draws.old) }
    {
        self.key.encrypt(alloc, plaintext, additional_data, draws)
    }

    /// # Errors
    /// `TooShort` if the ciphertext has fewer than 28 bytes. Else `DataTooLong` and `TextTooLong` as for
    /// encryption. Else `DecryptFailed` if it is the encryption of no text with this associated data.
    /// `OutOfMemory` may come in place of each.
    fn decrypt(
        &self,
        alloc: Global,
        ciphertext: &[u8],
        additional_data: &[u8],
    ) -> Result<Bytes, TinkError> {
        self.key.decrypt(alloc, ciphertext, additional_data)
    }

    ghost encrypts_told = { λ a text aad draws. encryption_told (gcm (aes a.key)) MOST_GCM text aad draws };

    ghost decrypts_told = { λ a input aad.
        decryption_told (gcm (aes a.key)) (gcm_text_of (aes a.key)) MOST_GCM input aad };
}
