//! The primitives, each by its meaning. For the arguments of a call it is the one answer, a value or a kind. For a call
//! that draws it is the draws then left too. `OutOfMemory` alone is no part of a meaning.

ghost use Rattle.std.specs.Prelude.{List, ℕ, Result};
ghost use Rattle.tink_io.specs.declared.error.Kind.{Kind};
ghost use Rattle.tink_io.specs.Answering.{Answers, Replies};
ghost use Rattle.tink_primitives.specs.Meaning.{IsTold, IsDrawn, IsMatch};

use std::alloc::Global;
use tink_io::{Draws, TinkError};
use tink_proto::Bytes;

/// Encryption with associated data.
pub trait Aead {
    // The ciphertext for a text, associated data and the draws.
    ghost encrypts: { Self → List ℕ → List ℕ → List ℕ → Result (List ℕ) Kind × List ℕ };

    // The text for a ciphertext and associated data.
    ghost decrypts: { Self → List ℕ → List ℕ → Result (List ℕ) Kind };

    /// The ciphertext of `plaintext`, bound to `additional_data`.
    ///
    /// # Errors
    /// Those of the meaning `encrypts`, by the type. `OutOfMemory`.
    fn encrypt(
        &self,
        alloc: Global,
        plaintext: &[u8],
        additional_data: &[u8],
        draws: &mut Draws,
    ) -> Result<Bytes, TinkError>
        ensures replies { Replies result
            (encrypts self.now plaintext.now additional_data.now draws.old) draws.old draws.new };

    /// The text of `ciphertext`, which is bound to `additional_data`.
    ///
    /// # Errors
    /// Those of the meaning `decrypts`, by the type. `OutOfMemory`.
    fn decrypt(
        &self,
        alloc: Global,
        ciphertext: &[u8],
        additional_data: &[u8],
    ) -> Result<Bytes, TinkError>
        ensures answer { Answers result (decrypts self.now ciphertext.now additional_data.now) };

    // Each answer is given, and draws are taken in their order.
    ghost encrypts_told: { (p : Self) (plaintext additional_data draws : List ℕ)
        → IsDrawn draws (encrypts p plaintext additional_data draws) };

    ghost decrypts_told: { (p : Self) (ciphertext additional_data : List ℕ)
        → IsTold (decrypts p ciphertext additional_data) };
}

/// Encryption with associated data that gives equal bytes for equal arguments.
pub trait DeterministicAead {
    // The ciphertext for a text and associated data.
    ghost encrypts: { Self → List ℕ → List ℕ → Result (List ℕ) Kind };

    // The text for a ciphertext and associated data.
    ghost decrypts: { Self → List ℕ → List ℕ → Result (List ℕ) Kind };

    /// The ciphertext of `plaintext`, bound to `additional_data`.
    ///
    /// # Errors
    /// Those of the meaning `encrypts`, by the type. `OutOfMemory`.
    fn encrypt_deterministically(
        &self,
        alloc: Global,
        plaintext: &[u8],
        additional_data: &[u8],
    ) -> Result<Bytes, TinkError>
        ensures answer { Answers result (encrypts self.now plaintext.now additional_data.now) };

    /// The text of `ciphertext`, which is bound to `additional_data`.
    ///
    /// # Errors
    /// Those of the meaning `decrypts`, by the type. `OutOfMemory`.
    fn decrypt_deterministically(
        &self,
        alloc: Global,
        ciphertext: &[u8],
        additional_data: &[u8],
    ) -> Result<Bytes, TinkError>
        ensures answer { Answers result (decrypts self.now ciphertext.now additional_data.now) };

    // Each answer is given.
    ghost encrypts_told: { (p : Self) (plaintext additional_data : List ℕ)
        → IsTold (encrypts p plaintext additional_data) };

    ghost decrypts_told: { (p : Self) (ciphertext additional_data : List ℕ)
        → IsTold (decrypts p ciphertext additional_data) };
}

/// Encryption to a public key.
pub trait HybridEncrypt {
    // The ciphertext for a text, a context and the draws.
    ghost encrypts: { Self → List ℕ → List ℕ → List ℕ → Result (List ℕ) Kind × List ℕ };

    /// The ciphertext of `plaintext`, bound to `context_info`.
    ///
    /// # Errors
    /// Those of the meaning `encrypts`, by the type. `OutOfMemory`.
    fn encrypt(
        &self,
        alloc: Global,
        plaintext: &[u8],
        context_info: &[u8],
        draws: &mut Draws,
    ) -> Result<Bytes, TinkError>
        ensures replies { Replies result
            (encrypts self.now plaintext.now context_info.now draws.old) draws.old draws.new };

    // Each answer is given, and draws are taken in their order.
    ghost encrypts_told: { (p : Self) (plaintext context_info draws : List ℕ)
        → IsDrawn draws (encrypts p plaintext context_info draws) };
}

/// Decryption with a private key.
pub trait HybridDecrypt {
    // The text for a ciphertext and a context.
    ghost decrypts: { Self → List ℕ → List ℕ → Result (List ℕ) Kind };

    /// The text of `ciphertext`, which is bound to `context_info`.
    ///
    /// # Errors
    /// Those of the meaning `decrypts`, by the type. `OutOfMemory`.
    fn decrypt(
        &self,
        alloc: Global,
        ciphertext: &[u8],
        context_info: &[u8],
    ) -> Result<Bytes, TinkError>
        ensures answer { Answers result (decrypts self.now ciphertext.now context_info.now) };

    // Each answer is given.
    ghost decrypts_told: { (p : Self) (ciphertext context_info : List ℕ)
        → IsTold (decrypts p ciphertext context_info) };
}

/// Message authentication.
pub trait Mac {
    // The MAC of a message.
    ghost computes: { Self → List ℕ → Result (List ℕ) Kind };

    // Whether a MAC is accepted for a message.
    ghost verifies: { Self → List ℕ → List ℕ → Result (Unit {0}) Kind };

    /// The MAC of `message`.
    ///
    /// # Errors
    /// Those of the meaning `computes`, by the type. `OutOfMemory`.
    fn compute_mac(&self, alloc: Global, message: &[u8]) -> Result<Bytes, TinkError>
        ensures answer { Answers result (computes self.now message.now) };

    /// Ok if `mac` is accepted for `message`.
    ///
    /// # Errors
    /// `MacMismatch` if it is not, as the meaning `verifies` says. `OutOfMemory`.
    fn verify_mac(&self, alloc: Global, mac: &[u8], message: &[u8]) -> Result<(), TinkError>
        ensures answer { Answers result (verifies self.now mac.now message.now) };

    // Each answer is given.
    ghost computes_told: { (p : Self) (message : List ℕ) → IsTold (computes p message) };

    // There is one refusal.
    ghost verifies_told: { (p : Self) (mac message : List ℕ) → IsMatch (verifies p mac message) };
}

/// A pseudorandom function.
pub trait Prf {
    // The output for an input and a length.
    ghost computes: { Self → List ℕ → ℕ → Result (List ℕ) Kind };

    /// The first `output_length` bytes of the PRF's output for `input`.
    ///
    /// # Errors
    /// Those of the meaning `computes`, by the type. `OutOfMemory`.
    fn compute_prf(
        &self,
        alloc: Global,
        input: &[u8],
        output_length: usize,
    ) -> Result<Bytes, TinkError>
        ensures answer { Answers result (computes self.now input.now output_length) };

    // Each answer is given.
    ghost computes_told: { (p : Self) (input : List ℕ) (output_length : ℕ) → IsTold (computes p input output_length) };
}

/// Signing with a private key.
pub trait Signer {
    // The signature of a message under the draws.
    ghost signs: { Self → List ℕ → List ℕ → Result (List ℕ) Kind × List ℕ };

    /// The signature of `message`.
    ///
    /// # Errors
    /// Those of the meaning `signs`, by the type. `OutOfMemory`.
    fn sign(&self, alloc: Global, message: &[u8], draws: &mut Draws) -> Result<Bytes, TinkError>
        ensures replies { Replies result (signs self.now message.now draws.old) draws.old draws.new };

    // Each answer is given, and draws are taken in their order.
    ghost signs_told: { (p : Self) (message draws : List ℕ) → IsDrawn draws (signs p message draws) };
}

/// Verification of signatures under a public key.
pub trait Verifier {
    // Whether a signature is accepted for a message.
    ghost verifies: { Self → List ℕ → List ℕ → Result (Unit {0}) Kind };

    /// Ok if `signature` is accepted for `message`.
    ///
    /// # Errors
    /// Those of the meaning `verifies`, by the type. `OutOfMemory`.
    fn verify(&self, alloc: Global, signature: &[u8], message: &[u8]) -> Result<(), TinkError>
        ensures answer { Answers result (verifies self.now signature.now message.now) };

    // Each answer is given.
    ghost verifies_told: { (p : Self) (signature message : List ℕ) → IsTold (verifies p signature message) };
}
