//! One AEAD of any kind.

ghost use Rattle.tink_aead.specs.AeadKinds.{kind_decrypts, kind_decrypts_told, kind_encrypts, kind_encrypts_told};

use crate::subtle::{AesCtr, AesGcm, AesGcmSiv, EncryptThenAuthenticate};
use std::alloc::Global;
use tink_io::{Draws, TinkError};
use tink_mac::subtle::Hmac;
use tink_primitives::{Aead, CloneIn, Kinds, Never};
use tink_proto::Bytes;

/// An AEAD of one of the kinds.
#[derive(Drop)]
pub enum AeadKind {
    /// AES in counter mode, and then HMAC.
    AesCtrHmac(EncryptThenAuthenticate<AesCtr, Hmac>),
    /// AES-GCM.
    AesGcm(AesGcm),
    /// AES-GCM-SIV.
    AesGcmSiv(AesGcmSiv),
}

impl CloneIn for AeadKind {
    fn try_clone(&self, alloc: Global) -> Result<Self, TinkError> {
        match self {
            AeadKind::AesCtrHmac(aead) => Ok(AeadKind::AesCtrHmac(aead.try_clone(alloc)?)),
            AeadKind::AesGcm(aead) => Ok(AeadKind::AesGcm(aead.try_clone(alloc)?)),
            AeadKind::AesGcmSiv(aead) => Ok(AeadKind::AesGcmSiv(aead.try_clone(alloc)?)),
        }
    }

    fn try_prepared(&self, alloc: Global) -> Result<Self, TinkError> {
        match self {
            AeadKind::AesCtrHmac(aead) => Ok(AeadKind::AesCtrHmac(aead.try_prepared(alloc)?)),
            AeadKind::AesGcm(aead) => Ok(AeadKind::AesGcm(aead.try_prepared(alloc)?)),
            AeadKind::AesGcmSiv(aead) => Ok(AeadKind::AesGcmSiv(aead.try_prepared(alloc)?)),
        }
    }
}

impl Aead for AeadKind {
    ghost encrypts = { kind_encrypts };

    ghost decrypts = { kind_decrypts };

    fn encrypt(
        &self,
        alloc: Global,
        plaintext: &[u8],
        additional_data: &[u8],
        draws: &mut Draws,
    ) -> Result<Bytes, TinkError> {
        match self {
            AeadKind::AesCtrHmac(aead) => aead.encrypt(alloc, plaintext, additional_data, draws),
            AeadKind::AesGcm(aead) => aead.encrypt(alloc, plaintext, additional_data, draws),
            AeadKind::AesGcmSiv(aead) => aead.encrypt(alloc, plaintext, additional_data, draws),
        }
    }

    fn decrypt(
        &self,
        alloc: Global,
        ciphertext: &[u8],
        additional_data: &[u8],
    ) -> Result<Bytes, TinkError> {
        match self {
            AeadKind::AesCtrHmac(aead) => aead.decrypt(alloc, ciphertext, additional_data),
            AeadKind::AesGcm(aead) => aead.decrypt(alloc, ciphertext, additional_data),
            AeadKind::AesGcmSiv(aead) => aead.decrypt(alloc, ciphertext, additional_data),
        }
    }

    ghost encrypts_told = { kind_encrypts_told };

    ghost decrypts_told = { kind_decrypts_told };
}

/// The family whose one sort is AEADs.
pub struct AeadKinds;

impl Kinds for AeadKinds {
    type Aead = AeadKind;

    type DeterministicAead = Never;

    type HybridDecrypt = Never;

    type HybridEncrypt = Never;

    type Mac = Never;

    type Prf = Never;

    type Signer = Never;

    type StreamingAead = Never;

    type Verifier = Never;
}
