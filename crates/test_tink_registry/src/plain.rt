//! A primitive of each sort.

ghost use Rattle.std.specs.Prelude.{[], Ok, Err};
ghost use Rattle.std.proofs.Common.{refl};
ghost use Rattle.tink_io.specs.declared.error.Kind.TheVariants.{WrongPrimitive};

use std::alloc::Global;
use tink_io::{Draws, Kind, TinkError};
use tink_primitives::{
    Aead, CloneIn, DeterministicAead, HybridDecrypt, HybridEncrypt, Kinds, Mac, Prf, Signer,
    Verifier,
};
use tink_proto::Bytes;

/// As an AEAD it gives back what it is given. As any other sort it makes nothing, and accepts all.
#[derive(Drop)]
pub struct Plain;

/// A family with `Plain` for each sort.
pub struct Plains;

impl Kinds for Plains {
    type Aead = Plain;

    type DeterministicAead = Plain;

    type HybridDecrypt = Plain;

    type HybridEncrypt = Plain;

    type Mac = Plain;

    type Prf = Plain;

    type Signer = Plain;

    type StreamingAead = Plain;

    type Verifier = Plain;
}

impl CloneIn for Plain {
    fn try_clone(&self, _alloc: Global) -> Result<Self, TinkError> {
        Ok(Plain)
    }
}

impl Aead for Plain {
    ghost encrypts = { λ _ text _ draws. (Ok text, draws) };

    ghost decrypts = { λ _ text _. Ok text };

    fn encrypt(
        &self,
        alloc: Global,
        plaintext: &[u8],
        _additional_data: &[u8],
        _draws: &mut Draws,
    ) -> Result<Bytes, TinkError> {
        Ok(Bytes::from_slice(alloc, plaintext)?)
    }

    fn decrypt(
        &self,
        alloc: Global,
        ciphertext: &[u8],
        _additional_data: &[u8],
    ) -> Result<Bytes, TinkError> {
        Ok(Bytes::from_slice(alloc, ciphertext)?)
    }

    ghost encrypts_told = { λ _ _ _ _. record { answer = tt; ends = ([], refl) } };

    ghost decrypts_told = { λ _ _ _. tt };
}

impl DeterministicAead for Plain {
    ghost encrypts = { λ _ _ _. Err WrongPrimitive };

    ghost decrypts = { λ _ _ _. Err WrongPrimitive };

    fn encrypt_deterministically(
        &self,
        _alloc: Global,
        _plaintext: &[u8],
        _additional_data: &[u8],
    ) -> Result<Bytes, TinkError> {
        Err(TinkError::new(Kind::WrongPrimitive))
    }

    fn decrypt_deterministically(
        &self,
        _alloc: Global,
        _ciphertext: &[u8],
        _additional_data: &[u8],
    ) -> Result<Bytes, TinkError> {
        Err(TinkError::new(Kind::WrongPrimitive))
    }

    ghost encrypts_told = { λ _ _ _. tt };

    ghost decrypts_told = { λ _ _ _. tt };
}

impl HybridDecrypt for Plain {
    ghost decrypts = { λ _ _ _. Err WrongPrimitive };

    fn decrypt(
        &self,
        _alloc: Global,
        _ciphertext: &[u8],
        _context_info: &[u8],
    ) -> Result<Bytes, TinkError> {
        Err(TinkError::new(Kind::WrongPrimitive))
    }

    ghost decrypts_told = { λ _ _ _. tt };
}

impl HybridEncrypt for Plain {
    ghost encrypts = { λ _ _ _ draws. (Err WrongPrimitive, draws) };

    fn encrypt(
        &self,
        _alloc: Global,
        _plaintext: &[u8],
        _context_info: &[u8],
        _draws: &mut Draws,
    ) -> Result<Bytes, TinkError> {
        Err(TinkError::new(Kind::WrongPrimitive))
    }

    ghost encrypts_told = { λ _ _ _ _. record { answer = tt; ends = ([], refl) } };
}

impl Mac for Plain {
    ghost computes = { λ _ _. Err WrongPrimitive };

    ghost verifies = { λ _ _ _. Ok tt };

    fn compute_mac(&self, _alloc: Global, _message: &[u8]) -> Result<Bytes, TinkError> {
        Err(TinkError::new(Kind::WrongPrimitive))
    }

    fn verify_mac(&self, _alloc: Global, _mac: &[u8], _message: &[u8]) -> Result<(), TinkError> {
        Ok(())
    }

    ghost computes_told = { λ _ _. tt };

    ghost verifies_told = { λ _ _ _. tt };
}

impl Prf for Plain {
    ghost computes = { λ _ _ _. Err WrongPrimitive };

    fn compute_prf(
        &self,
        _alloc: Global,
        _input: &[u8],
        _output_length: usize,
    ) -> Result<Bytes, TinkError> {
        Err(TinkError::new(Kind::WrongPrimitive))
    }

    ghost computes_told = { λ _ _ _. tt };
}

impl Signer for Plain {
    ghost signs = { λ _ _ draws. (Err WrongPrimitive, draws) };

    fn sign(
        &self,
        _alloc: Global,
        _message: &[u8],
        _draws: &mut Draws,
    ) -> Result<Bytes, TinkError> {
        Err(TinkError::new(Kind::WrongPrimitive))
    }

    ghost signs_told = { λ _ _ _. record { answer = tt; ends = ([], refl) } };
}

impl Verifier for Plain {
    ghost verifies = { λ _ _ _. Ok tt };

    fn verify(&self, _alloc: Global, _signature: &[u8], _message: &[u8]) -> Result<(), TinkError> {
        Ok(())
    }

    ghost verifies_told = { λ _ _ _. tt };
}
