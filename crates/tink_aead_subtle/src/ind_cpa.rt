//! Encryption that hides a text and does not protect it from changes.

ghost use Rattle.std.specs.Prelude.{List, ℕ, Result};
ghost use Rattle.tink_io.specs.declared.error.Kind.{Kind};
ghost use Rattle.tink_io.specs.Answering.{Answers, Replies};
ghost use Rattle.tink_primitives.specs.Meaning.{IsTold, IsDrawn};

use std::alloc::Global;
use tink_io::{Draws, TinkError};
use tink_proto::Bytes;

/// Encryption that no MAC protects. Its meaning gives for the arguments of each call the one answer
/// and the draws then left; `OutOfMemory` alone is no part of it.
pub trait IndCpaCipher {
    // The ciphertext for a text and the draws.
    ghost encrypts: { Self → List ℕ → List ℕ → Result (List ℕ) Kind × List ℕ };

    // The text for a ciphertext.
    ghost decrypts: { Self → List ℕ → Result (List ℕ) Kind };

    /// The ciphertext of `plaintext`.
    ///
    /// # Errors
    /// What the meaning `encrypts` gives for the plaintext and the random bytes left. `OutOfMemory`.
    fn encrypt(
        &self,
        alloc: Global,
        plaintext: &[u8],
        draws: &mut Draws,
    ) -> Result<Bytes, TinkError>
        ensures replies { Replies result (encrypts self.now plaintext.now draws.old) draws.old draws.new };

    /// The text of `ciphertext`.
    ///
    /// # Errors
    /// What the meaning `decrypts` gives for the ciphertext. `OutOfMemory`.
    fn decrypt(&self, alloc: Global, ciphertext: &[u8]) -> Result<Bytes, TinkError>
        ensures answer { Answers result (decrypts self.now ciphertext.now) };

    // Each answer is known, and what is taken is a prefix of the draws.
    ghost encrypts_told: { (c : Self) (plaintext draws : List ℕ) → IsDrawn draws (encrypts c plaintext draws) };

    ghost decrypts_told: { (c : Self) (ciphertext : List ℕ) → IsTold (decrypts c ciphertext) };
}
