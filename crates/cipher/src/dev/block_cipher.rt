//! Tests of block ciphers by vectors.

ghost use Rattle.std.specs.Prelude.{◌≡◌, ◌↔◌, ◌≢◌, ℕ, ◌<◌, ◌≤◌, length, map, IsTrue, IsOk, IfOk, OnErr, MatchResult, codes};
ghost use Rattle.cipher.specs.BlockVectors.{Reports, first, block_fault, block_size_fault, encryption_fault, decryption_fault, encrypt_decrypt_fault, encrypt_fault, decrypt_fault};

use crate::blocks::{BlockCipherDecrypt, BlockCipherEncrypt};
use crate::init::KeyInit;

/// A key, a block and what the block is encrypted to.
#[derive(Clone, Copy, Debug)]
pub struct TestVector {
    /// The key.
    pub key: &'static [u8],
    /// The block.
    pub plaintext: &'static [u8],
    /// The encrypted block.
    pub ciphertext: &'static [u8],
}

/// Whether a cipher encrypts and decrypts as a vector says.
///
/// # Errors
/// The first text whose case holds: `cipher initialization failure` (the key's length), `unexpected size of plaintext
/// block`, `unexpected size of ciphertext block`, `single block encryption failure`, `single block decryption
/// failure`.
pub fn encrypt_decrypt_test<
    C: KeyInit<K> + BlockCipherEncrypt<B> + BlockCipherDecrypt<B> + Drop,
    const K: usize,
    const B: usize,
>(tv: &TestVector) -> Result<(), &'static str>
    ensures told { Reports result (encrypt_decrypt_fault K B C.keyed C.encrypts C.decrypts tv.now) }
{
    match C::new_from_slice(tv.key) {
        Ok(cipher) => test_both(&cipher, tv),
        Err(_) => Err("cipher initialization failure"),
    }
}

/// Whether a cipher encrypts as a vector says.
///
/// # Errors
/// As `encrypt_decrypt_test`, without `single block decryption failure`.
pub fn encrypt_test<C: KeyInit<K> + BlockCipherEncrypt<B> + Drop, const K: usize, const B: usize>(
    tv: &TestVector,
) -> Result<(), &'static str>
    ensures told { Reports result (encrypt_fault K B C.keyed C.encrypts tv.now) }
{
    match C::new_from_slice(tv.key) {
        Ok(cipher) => test_encrypted(&cipher, tv),
        Err(_) => Err("cipher initialization failure"),
    }
}

/// Whether a cipher decrypts as a vector says.
///
/// # Errors
/// As `encrypt_decrypt_test`, without `single block encryption failure`.
pub fn decrypt_test<C: KeyInit<K> + BlockCipherDecrypt<B> + Drop, const K: usize, const B: usize>(
    tv: &TestVector,
) -> Result<(), &'static str>
    ensures told { Reports result (decrypt_fault K B C.keyed C.decrypts tv.now) }
{
    match C::new_from_slice(tv.key) {
        Ok(cipher) => test_decrypted(&cipher, tv),
        Err(_) => Err("cipher initialization failure"),
    }
}

// the same by a cipher that is lent
fn test_both<C: BlockCipherEncrypt<B> + BlockCipherDecrypt<B>, const B: usize>(
    cipher: &C,
    tv: &TestVector,
) -> Result<(), &'static str>
    ensures told { Reports result (first
        (first (block_size_fault B tv.now) (encryption_fault (C.encrypts cipher.now) tv.now))
        (decryption_fault (C.decrypts cipher.now) tv.now)) }
{
    match test_encrypted(cipher, tv) {
        Ok(()) => test_decrypted(cipher, tv),
        Err(text) => Err(text),
    }
}

fn test_encrypted<C: BlockCipherEncrypt<B>, const B: usize>(
    cipher: &C,
    tv: &TestVector,
) -> Result<(), &'static str>
    ensures told { Reports result
        (first (block_size_fault B tv.now) (encryption_fault (C.encrypts cipher.now) tv.now)) }
{
    let plaintext = match <&[u8; B]>::try_from(tv.plaintext) {
        Ok(block) => block,
        Err(_) => return Err("unexpected size of plaintext block"),
    };
    let ciphertext = match <&[u8; B]>::try_from(tv.ciphertext) {
        Ok(block) => block,
        Err(_) => return Err("unexpected size of ciphertext block"),
    };
    test_encryption(cipher, plaintext, ciphertext)
}

fn test_decrypted<C: BlockCipherDecrypt<B>, const B: usize>(
    cipher: &C,
    tv: &TestVector,
) -> Result<(), &'static str>
    ensures told { Reports result
        (first (block_size_fault B tv.now) (decryption_fault (C.decrypts cipher.now) tv.now)) }
{
    let plaintext = match <&[u8; B]>::try_from(tv.plaintext) {
        Ok(block) => block,
        Err(_) => return Err("unexpected size of plaintext block"),
    };
    let ciphertext = match <&[u8; B]>::try_from(tv.ciphertext) {
        Ok(block) => block,
        Err(_) => return Err("unexpected size of ciphertext block"),
    };
    test_decryption(cipher, plaintext, ciphertext)
}

fn test_encryption<C: BlockCipherEncrypt<B>, const B: usize>(
    cipher: &C,
    plaintext: &[u8; B],
    ciphertext: &[u8; B],
) -> Result<(), &'static str>
    ensures told { Reports result (block_fault (C.encrypts cipher.now plaintext.now) ciphertext.now
        (codes "single block encryption failure")) }
{
    let mut block = *plaintext;
    cipher.encrypt_block(&mut block);
    if block != *ciphertext {
        return Err("single block encryption failure");
    }
    if !encrypts_alike(cipher, plaintext) {
        return Err("multi-block encryption failure");
    }
    Ok(())
}

// 101 blocks are encrypted together as they are one by one
fn encrypts_alike<C: BlockCipherEncrypt<B>, const B: usize>(cipher: &C, block: &[u8; B]) -> bool
    ensures value { IsTrue result }
{
    let mut together = [*block; 101];
    number(&mut together);
    let mut singly = together;
    cipher.encrypt_blocks(&mut together);
    encrypt_singly(cipher, &mut singly);
    together == singly
}

fn encrypt_singly<C: BlockCipherEncrypt<B>, const B: usize>(cipher: &C, blocks: &mut [[u8; B]])
    ensures value { blocks.new ≡ map (C.encrypts cipher.now) blocks.old }
{
    for i in 0..blocks.len() {
        cipher.encrypt_block(&mut blocks[i]);
    }
}

fn test_decryption<C: BlockCipherDecrypt<B>, const B: usize>(
    cipher: &C,
    plaintext: &[u8; B],
    ciphertext: &[u8; B],
) -> Result<(), &'static str>
    ensures told { Reports result (block_fault (C.decrypts cipher.now ciphertext.now) plaintext.now
        (codes "single block decryption failure")) }
{
    let mut block = *ciphertext;
    cipher.decrypt_block(&mut block);
    if block != *plaintext {
        return Err("single block decryption failure");
    }
    if !decrypts_alike(cipher, ciphertext) {
        return Err("multi-block decryption failure");
    }
    Ok(())
}

// 101 blocks are decrypted together as they are one by one
fn decrypts_alike<C: BlockCipherDecrypt<B>, const B: usize>(cipher: &C, block: &[u8; B]) -> bool
    ensures value { IsTrue result }
{
    let mut together = [*block; 101];
    number(&mut together);
    let mut singly = together;
    cipher.decrypt_blocks(&mut together);
    decrypt_singly(cipher, &mut singly);
    together == singly
}

fn decrypt_singly<C: BlockCipherDecrypt<B>, const B: usize>(cipher: &C, blocks: &mut [[u8; B]])
    ensures value { blocks.new ≡ map (C.decrypts cipher.now) blocks.old }
{
    for i in 0..blocks.len() {
        cipher.decrypt_block(&mut blocks[i]);
    }
}

// each block's first byte xor the block's place
fn number<const B: usize>(blocks: &mut [[u8; B]; 101])
    requires { (1 ≤ B) × (B < 256) }
{
    for i in 0..101u8 {
        blocks[i as usize][0] ^= i;
    }
}
