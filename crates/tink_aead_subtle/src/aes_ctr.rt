//! AES in counter mode (SP 800-38A, 6.5).

ghost use Rattle.std.specs.Prelude.{◌≡◌, ◌≤◌, ◌+◌, ◌++◌, length, take, OnErr};
ghost use Rattle.std.specs.Int.{w64};
ghost use Rattle.standards.specs.AesKeys.{aes};
ghost use Rattle.standards.specs.Counter.{ctr, plus_be};
ghost use Rattle.tink_io.specs.Answering.{Answers, Replies};
ghost use Rattle.tink_aead_subtle.specs.CounterMode.{counter_block, ctr_decrypts, ctr_encrypts, drawn_block};
ghost use Rattle.tink_aead_subtle.specs.CounterMode.{sized_with_iv};

use crate::aes_key::AesKey;
use crate::ind_cpa::IndCpaCipher;
use aes_block::{Aes128, Aes256};
use cipher::{BlockCipherEncrypt, InnerIvInit, KeyInit};
use cipher_stream::StreamCipher;
use ctr::{Ctr64BE, CtrCore, flavors};
use std::alloc::Global;
use tink_io::{Draws, Kind, TinkError};
use tink_primitives::CloneIn;
use tink_proto::Bytes;

/// The least size of an initialization vector in bytes.
pub const AES_CTR_MIN_IV_SIZE: usize = 12;

/// The size of a block in bytes, and the most of an initialization vector.
pub const AES_BLOCK_SIZE_IN_BYTES: usize = 16;

/// AES in counter mode (SP 800-38A, section 6.5) under a key of 16 or 32 bytes. Its output for a text is an
/// initialization vector of `iv_size` draws and the ciphertext. The counter blocks are the vector and zeros,
/// and count in their last eight bytes.
///
/// Nothing protects the ciphertext from changes.
#[derive(Drop)]
pub struct AesCtr {
    key: AesKey,
    /// The size of an initialization vector in bytes.
    pub iv_size: usize,
}

impl AesCtr {
    /// The cipher under this key, with initialization vectors of `iv_size` bytes.
    ///
    /// # Errors
    /// `BadKeySize`, unless the key has 16 or 32 bytes, and else `BadIvSize`, unless `iv_size` is
    /// from 12 to 16. `OutOfMemory` may come in place of each.
    pub fn new(alloc: Global, key: &[u8], iv_size: usize) -> Result<AesCtr, TinkError>
        ensures { Answers result (sized_with_iv key.now iv_size (record { key = key.now; iv_size = iv_size })) }
    {
        let key = AesKey::new(alloc, key)?;
        if iv_size < AES_CTR_MIN_IV_SIZE || iv_size > AES_BLOCK_SIZE_IN_BYTES {
            return Err(TinkError::new(Kind::BadIvSize));
        }
        Ok(AesCtr { key, iv_size })
    }

    /// The size of the key in bytes.
    pub fn key_len(&self) -> usize
        ensures { result ≡ length self.now.key }
    {
        self.key.len()
    }

    // Puts the bytes in counter mode, in their place.
    fn apply(&self, block: &[u8; 16], bytes: &mut [u8])
        ensures { bytes.new ≡ ctr (aes self.now.key) (plus_be w64) block.now bytes.old }
    {
        match self.key.small() {
            Some(key) => apply_counter_mode(Aes128::new(key), block, bytes),
            None => apply_counter_mode(Aes256::new(self.key.large()), block, bytes),
        }
    }

    // Fills `out` with the vector, which is a prefix of the block, and the text in counter mode.
    fn encrypt_behind(&self, block: &[u8; 16], text: &[u8], out: &mut [u8])
        requires size { self.now.iv_size ≤ 16 }
        requires room { length out.old ≡ self.now.iv_size + length text.now }
        ensures { out.new ≡ take self.now.iv_size block.now ++ ctr (aes self.now.key) (plus_be w64) block.now text.now }
    {
        let n = self.iv_size;
        out[..n].copy_from_slice(&block[..n]);
        out[n..].copy_from_slice(text);
        self.apply(block, &mut out[n..]);
    }
}

// Puts the bytes in counter mode from this block on, in their place.
fn apply_counter_mode<C: BlockCipherEncrypt<16> + Drop>(
    cipher: C,
    block: &[u8; 16],
    bytes: &mut [u8],
)
    ensures { bytes.new ≡ ctr (C.encrypts cipher) (plus_be w64) block.now bytes.old }
{
    let core = CtrCore::<C, flavors::Ctr64BE, 16>::inner_iv_init(cipher, block);
    let mut stream = Ctr64BE::from_core(core);
    stream.apply_keystream(bytes);
}

// The first counter block of an initialization vector.
fn block_of(iv: &[u8]) -> [u8; 16]
    requires { length iv.now ≤ 16 }
    ensures { result ≡ counter_block iv.now }
{
    let mut block = [0u8; 16];
    block[..iv.len()].copy_from_slice(iv);
    block
}

// The first counter block of a vector that is drawn.
fn draw_block(iv_size: usize, draws: &mut Draws) -> Result<[u8; 16], TinkError>
    requires { iv_size ≤ 16 }
    ensures replies { Replies result (drawn_block iv_size draws.old) draws.old draws.new }
    ensures rest { OnErr result (draws.new ≡ draws.old) }
{
    let mut block = [0u8; 16];
    draws.take_into(&mut block[..iv_size])?;
    Ok(block)
}

impl CloneIn for AesCtr {
    fn try_clone(&self, alloc: Global) -> Result<Self, TinkError> {
        Ok(AesCtr {
            key: self.key.try_clone(alloc)?,
            iv_size: self.iv_size,
        })
    }
}

impl IndCpaCipher for AesCtr {
    ghost use Rattle.tink_aead_subtle.specs.CounterModeLaws.{ctr_decrypts_told, ctr_encrypts_told};

    ghost encrypts = { λ a text draws. ctr_encrypts a.key a.iv_size text draws };

    ghost decrypts = { λ a input. ctr_decrypts a.key a.iv_size input };

    /// # Errors
    /// `BadIvSize` where `iv_size` was set above 16, else `RandomFault` where fewer draws are left.
    /// `OutOfMemory` may come in place of each. No refusal takes a draw.
    fn encrypt(
        &self,
        alloc: Global,
        plaintext: &[u8],
        draws: &mut Draws,
    ) -> Result<Bytes, TinkError>
        ensures replies { Replies result (ctr_encrypts self.now.key self.now.iv_size plaintext.now draws.old)
            draws.old draws.new }
        ensures rest { OnErr result (draws.new ≡ draws.old) }
    {
        if self.iv_size > AES_BLOCK_SIZE_IN_BYTES {
            return Err(TinkError::new(Kind::BadIvSize));
        }
        if draws.left() < self.iv_size {
            return Err(TinkError::new(Kind::RandomFault));
        }
        let mut out = vec![in alloc; 0; self.iv_size + plaintext.len()]?;
        let block = draw_block(self.iv_size, draws)?;
        self.encrypt_behind(&block, plaintext, &mut out);
        Ok(Bytes::from_vec(out))
    }

    /// # Errors
    /// `BadIvSize` where `iv_size` was set above 16, else `TooShort` where the ciphertext has fewer
    /// bytes. `OutOfMemory` may come in place of each.
    fn decrypt(&self, alloc: Global, ciphertext: &[u8]) -> Result<Bytes, TinkError> {
        if self.iv_size > AES_BLOCK_SIZE_IN_BYTES {
            return Err(TinkError::new(Kind::BadIvSize));
        }
        if ciphertext.len() < self.iv_size {
            return Err(TinkError::new(Kind::TooShort));
        }
        let mut out = ciphertext[self.iv_size..].to_vec(alloc)?;
        let block = block_of(&ciphertext[..self.iv_size]);
        self.apply(&block, &mut out);
        Ok(Bytes::from_vec(out))
    }

    ghost encrypts_told = { λ a text draws. ctr_encrypts_told a.key a.iv_size text draws };

    ghost decrypts_told = { λ a input. ctr_decrypts_told a.key a.iv_size input };
}
