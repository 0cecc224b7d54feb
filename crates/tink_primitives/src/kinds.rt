//! Families of primitives.

ghost use Rattle.std.specs.Prelude.{[], Err};
ghost use Rattle.std.proofs.Common.{refl};
ghost use Rattle.tink_io.specs.declared.error.Kind.TheVariants.{WrongPrimitive, MacMismatch};

use crate::{
    Aead, CloneIn, DeterministicAead, HybridDecrypt, HybridEncrypt, Mac, Prf, Signer, Verifier,
};
use std::alloc::Global;
use tink_io::{Draws, Kind, TinkError};
use tink_proto::Bytes;

/// A family of primitives: one type of each sort, `Never` for a sort that it does not have.
pub trait Kinds {
    type Aead: Aead + CloneIn;

    type DeterministicAead: DeterministicAead + CloneIn;

    type HybridDecrypt: HybridDecrypt + CloneIn;

    type HybridEncrypt: HybridEncrypt + CloneIn;

    type Mac: Mac + CloneIn;

    type Prf: Prf + CloneIn;

    type Signer: Signer + CloneIn;

    type StreamingAead: CloneIn;

    type Verifier: Verifier + CloneIn;
}

/// The primitive of a sort that a family does not have. No call makes one. It refuses whatever it
/// is asked by `WrongPrimitive`, and each MAC by `MacMismatch`.
#[derive(Drop)]
pub struct Never {
    _none: (),
}

impl CloneIn for Never {
    fn try_clone(&self, _alloc: Global) -> Result<Self, TinkError> {
        Ok(Never { _none: () })
    }
}

impl Aead for Never {
    ghost encrypts = { λ _ _ _ draws. (Err WrongPrimitive, draws) };

    ghost decrypts = { λ _ _ _. Err WrongPrimitive };

    fn encrypt(
        &self,
        _alloc: Global,
        _plaintext: &[u8],
        _additional_data: &[u8],
        _draws: &mut Draws,
    ) -> Result<Bytes, TinkError> {
        Err(TinkError::new(Kind::WrongPrimitive))
    }

    fn decrypt(
        &self,
        _alloc: Global,
        _ciphertext: &[u8],
        _additional_data: &[u8],
    ) -> Result<Bytes, TinkError> {
        Err(TinkError::new(Kind::WrongPrimitive))
    }

    ghost encrypts_told = { λ _ _ _ _. record { answer = tt; ends = ([], refl) } };

    ghost decrypts_told = { λ _ _ _. tt };
}

impl DeterministicAead for Never {
    ghost encrypts = { λ _ _ _. Err WrongPrimitive };

    ghost decrypts = { λ _ _ _. Err WrongPrimitive };

    fn encrypt_deterministically(
        &self,
        _alloc: Global,
        _plaintext: &[u8],
        _additional_data: &[u8],
    ) -> Result<Bytes, TinkError> {
        Err(TinkError::new(Kind::WrongPrimitive))
    }

    fn decrypt_deterministically(
        &self,
        _alloc: Global,
        _ciphertext: &[u8],
        _additional_data: &[u8],
    ) -> Result<Bytes, TinkError> {
        Err(TinkError::new(Kind::WrongPrimitive))
    }

    ghost encrypts_told = { λ _ _ _. tt };

    ghost decrypts_told = { λ _ _ _. tt };
}

impl HybridDecrypt for Never {
    ghost decrypts = { λ _ _ _. Err WrongPrimitive };

    fn decrypt(
        &self,
        _alloc: Global,
        _ciphertext: &[u8],
        _context_info: &[u8],
    ) -> Result<Bytes, TinkError> {
        Err(TinkError::new(Kind::WrongPrimitive))
    }

    ghost decrypts_told = { λ _ _ _. tt };
}

impl HybridEncrypt for Never {
    ghost encrypts = { λ _ _ _ draws. (Err WrongPrimitive, draws) };

    fn encrypt(
        &self,
        _alloc: Global,
        _plaintext: &[u8],
        _context_info: &[u8],
        _draws: &mut Draws,
    ) -> Result<Bytes, TinkError> {
        Err(TinkError::new(Kind::WrongPrimitive))
    }

    ghost encrypts_told = { λ _ _ _ _. record { answer = tt; ends = ([], refl) } };
}

impl Mac for Never {
    ghost computes = { λ _ _. Err WrongPrimitive };

    ghost verifies = { λ _ _ _. Err MacMismatch };

    fn compute_mac(&self, _alloc: Global, _message: &[u8]) -> Result<Bytes, TinkError> {
        Err(TinkError::new(Kind::WrongPrimitive))
    }

    fn verify_mac(&self, _alloc: Global, _mac: &[u8], _message: &[u8]) -> Result<(), TinkError> {
        Err(TinkError::new(Kind::MacMismatch))
    }

    ghost computes_told = { λ _ _. tt };

    ghost verifies_told = { λ _ _ _. tt };
}

impl Prf for Never {
    ghost computes = { λ _ _ _. Err WrongPrimitive };

    fn compute_prf(
        &self,
        _alloc: Global,
        _input: &[u8],
        _output_length: usize,
    ) -> Result<Bytes, TinkError> {
        Err(TinkError::new(Kind::WrongPrimitive))
    }

    ghost computes_told = { λ _ _ _. tt };
}

impl Signer for Never {
    ghost signs = { λ _ _ draws. (Err WrongPrimitive, draws) };

    fn sign(
        &self,
        _alloc: Global,
        _message: &[u8],
        _draws: &mut Draws,
    ) -> Result<Bytes, TinkError> {
        Err(TinkError::new(Kind::WrongPrimitive))
    }

    ghost signs_told = { λ _ _ _. record { answer = tt; ends = ([], refl) } };
}

impl Verifier for Never {
    ghost verifies = { λ _ _ _. Err WrongPrimitive };

    fn verify(&self, _alloc: Global, _signature: &[u8], _message: &[u8]) -> Result<(), TinkError> {
        Err(TinkError::new(Kind::WrongPrimitive))
    }

    ghost verifies_told = { λ _ _ _. tt };
}
