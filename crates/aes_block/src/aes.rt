//! AES with keys of N bytes, which are 16, 24 or 32.

ghost use Rattle.std.proofs.Common.{lit<, lit≤};
ghost use Rattle.std.specs.Prelude.{◌≡◌, ⊤, length, codes};
ghost use Rattle.aes_block.specs.Ciphers.{decrypted, encrypted};
ghost use Rattle.aes_block.specs.Lengths.{length-decrypted, length-encrypted};

use crate::blocks::{Decryption, Encryption, run};
use crate::key_sizes::{AesKeySize, KeySizes};
use crate::schedule::Schedule;
use cipher::{
    AlgorithmName, BlockCipherDecBackend, BlockCipherDecClosure, BlockCipherDecrypt,
    BlockCipherEncBackend, BlockCipherEncClosure, BlockCipherEncrypt, InOut, InOutBuf, KeyInit,
};
use std::alloc::AllocError;
use std::fmt;
use std::marker::Model;

/// AES (FIPS 197) with keys of 16 bytes, in 10 rounds.
pub type Aes128 = Aes<16>;

/// AES (FIPS 197) with keys of 24 bytes, in 12 rounds.
pub type Aes192 = Aes<24>;

/// AES (FIPS 197) with keys of 32 bytes, in 14 rounds.
pub type Aes256 = Aes<32>;

/// AES under a key of N bytes, which contracts see as the key (FIPS 197, 5). It is its own backend: blocks
/// go together by bit planes, up to sixteen by a call, and one alone by tables.
#[derive(Drop)]
pub struct Aes<const N: usize> {
    schedule: Schedule,
}

impl<const N: usize> Model for Aes<N> {
    ghost use Rattle.std.specs.Prelude.{◌≡◌, List, ℕ, length};

    ghost Value = { List ℕ };

    ghost view = { λ a. a.schedule };

    ghost invariant = { λ a. length a.schedule ≡ N };
}

impl KeyInit<16> for Aes128 {
    ghost keyed = { λ key. key };

    fn new(key: &[u8; 16]) -> Aes128 {
        Aes {
            schedule: Schedule::new(key),
        }
    }

    ghost key_size = { (lit≤ tt, lit< tt) };
}

impl KeyInit<24> for Aes192 {
    ghost keyed = { λ key. key };

    fn new(key: &[u8; 24]) -> Aes192 {
        Aes {
            schedule: Schedule::new(key),
        }
    }

    ghost key_size = { (lit≤ tt, lit< tt) };
}

impl KeyInit<32> for Aes256 {
    ghost keyed = { λ key. key };

    fn new(key: &[u8; 32]) -> Aes256 {
        Aes {
            schedule: Schedule::new(key),
        }
    }

    ghost key_size = { (lit≤ tt, lit< tt) };
}

impl<const N: usize> BlockCipherEncBackend<16> for Aes<N> {
    ghost encrypts = { encrypted N };

    ghost lanes = { λ _. 16 };

    fn width(&self) -> usize {
        16
    }

    fn encrypt_block(&self, block: &mut InOut<'_, '_, [u8; 16]>) {
        self.schedule.encrypt(&mut *block.output, block.input);
    }

    fn encrypt_par_blocks(&self, blocks: &mut InOutBuf<'_, '_, [u8; 16]>) {
        run::<Encryption>(&self.schedule, &mut *blocks.output, blocks.input);
    }

    fn encrypt_tail_blocks(&self, blocks: &mut InOutBuf<'_, '_, [u8; 16]>) {
        run::<Encryption>(&self.schedule, &mut *blocks.output, blocks.input);
    }

    ghost block_size = { (lit≤ tt, lit< tt) };
}

impl<const N: usize> BlockCipherEncrypt<16> for Aes<N>
where
    KeySizes: AesKeySize<N>,
{
    ghost encrypts = { encrypted N };

    fn encrypt_with_backend<F: BlockCipherEncClosure<16>>(&self, f: &mut F) {
        f.call(self);
    }

    ghost block_size = { (lit≤ tt, lit< tt) };

    ghost sized = { length-encrypted N ⟦<KeySizes as AesKeySize<N>>⟧.long };
}

impl<const N: usize> BlockCipherDecBackend<16> for Aes<N> {
    ghost decrypts = { decrypted N };

    ghost lanes = { λ _. 16 };

    fn width(&self) -> usize {
        16
    }

    fn decrypt_block(&self, block: &mut InOut<'_, '_, [u8; 16]>) {
        self.schedule.decrypt(&mut *block.output, block.input);
    }

    fn decrypt_par_blocks(&self, blocks: &mut InOutBuf<'_, '_, [u8; 16]>) {
        run::<Decryption>(&self.schedule, &mut *blocks.output, blocks.input);
    }

    fn decrypt_tail_blocks(&self, blocks: &mut InOutBuf<'_, '_, [u8; 16]>) {
        run::<Decryption>(&self.schedule, &mut *blocks.output, blocks.input);
    }

    ghost block_size = { (lit≤ tt, lit< tt) };
}

impl<const N: usize> BlockCipherDecrypt<16> for Aes<N>
where
    KeySizes: AesKeySize<N>,
{
    ghost decrypts = { decrypted N };

    fn decrypt_with_backend<F: BlockCipherDecClosure<16>>(&self, f: &mut F) {
        f.call(self);
    }

    ghost block_size = { (lit≤ tt, lit< tt) };

    ghost sized = { length-decrypted N ⟦<KeySizes as AesKeySize<N>>⟧.long };
}

impl AlgorithmName for Aes128 {
    ghost name = { codes "Aes128" };

    fn write_alg_name<W: fmt::Write>(f: &mut fmt::Formatter<W>) -> fmt::Result {
        f.write_str("Aes128")
    }
}

impl AlgorithmName for Aes192 {
    ghost name = { codes "Aes192" };

    fn write_alg_name<W: fmt::Write>(f: &mut fmt::Formatter<W>) -> fmt::Result {
        f.write_str("Aes192")
    }
}

impl AlgorithmName for Aes256 {
    ghost name = { codes "Aes256" };

    fn write_alg_name<W: fmt::Write>(f: &mut fmt::Formatter<W>) -> fmt::Result {
        f.write_str("Aes256")
    }
}

impl<const N: usize> Clone for Aes<N> {
    ghost is_clone = { λ a b. b ≡ a };

    ghost is_infallible = { λ _. ⊤ };

    fn clone(&self) -> Result<Aes<N>, AllocError> {
        Ok(Aes {
            schedule: self.schedule.clone()?,
        })
    }
}
