//! AES (FIPS 197): the block ciphers with keys of 16, 24 and 32 bytes. Blocks go together by bit planes, one alone and
//! the key expansion by tables of bytes.
#![tactic(auto)]

ghost use Rattle.std.specs.Prelude.{◌≡◌, ◌≤◌, ◌<◌, ℕ, List, length};
ghost use Rattle.standards.specs.Aes.{inverse, times};
ghost use Rattle.standards.specs.Lists.{AreBytes};
ghost use Rattle.aes_block.specs.Ciphers.{IsKeySize, decrypted, encrypted};

mod aes;
mod blocks;
mod decryption;
mod encryption;
mod key_expansion;
mod key_sizes;
mod planes;
mod schedule;
mod tables;

pub use aes::{Aes, Aes128, Aes192, Aes256};
pub use key_sizes::{AesKeySize, KeySizes};

/// Under each key of 16, 24 or 32 bytes, decryption undoes encryption, and encryption undoes decryption, at every
/// block of 16 bytes.
pub fn law_round_trip()
    ensures decryption_undoes { (n : ℕ) (key block : List ℕ) → IsKeySize n
        → length block ≡ 16 → AreBytes key → AreBytes block
        → decrypted n key (encrypted n key block) ≡ block }
    ensures encryption_undoes { (n : ℕ) (key block : List ℕ) → IsKeySize n
        → length block ≡ 16 → AreBytes key → AreBytes block
        → encrypted n key (decrypted n key block) ≡ block }
{}

/// SubBytes takes the inverse of a byte in the field (FIPS 197, 4.2). The product of a byte but 0 and its inverse is
/// 1, and the inverse of 0 is 0.
pub fn law_inverse()
    ensures undoes { (a : ℕ) → 1 ≤ a → a < 256 → times a (inverse a) ≡ 1 }
    ensures of_zero { inverse 0 ≡ 0 }
{}
