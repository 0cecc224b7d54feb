//! Tests of block modes by vectors.

ghost use Rattle.std.specs.Prelude.{◌≡◌, ℕ, ◌+◌, ◌-◌, ◌*◌, ◌/◌, ◌%◌, ◌<◌, ◌≤◌, List, length, take, drop, IsTrue, codes, bytes_eq};
ghost use Rattle.cipher.specs.BlockVectors.{Reports, first, block_fault};
ghost use Rattle.cipher_modes.specs.Padded.{bytes_run};
ghost use Rattle.cipher_modes.specs.Steps.{run_of, state_after};
ghost use Rattle.cipher_modes.specs.ModeVectors.{encrypt_fault, decrypt_fault, size_fault};

use crate::directions::{Decrypting, Encrypting, Runs};
use crate::modes::{BlockModeDecrypt, BlockModeEncrypt};
use crate::padded::run_bytes;
use cipher::KeyIvInit;

const MAX_MSG_LEN: usize = 4096;

/// A key, an initialization vector, a message of whole blocks and what it is encrypted to.
#[derive(Clone, Copy, Debug)]
pub struct TestVector {
    /// The key.
    pub key: &'static [u8],
    /// The initialization vector.
    pub iv: &'static [u8],
    /// The message.
    pub plaintext: &'static [u8],
    /// The encrypted message.
    pub ciphertext: &'static [u8],
}

/// Whether a mode encrypts as a vector says. The test also tries several blocks together.
///
/// # Errors
/// The first text whose case holds: `ciphertext is bigger than MAX_MSG_LEN bytes` (4,096), `plaintext/ciphertext
/// length mismatch`, `plaintext/ciphertext length is not multiple of block size`, `cipher initialization failure` (the
/// key's or the vector's length), `single block encryption failure`. The text `multi-block encryption failure` never
/// comes.
pub fn encrypt<
    C: KeyIvInit<K, I> + BlockModeEncrypt<B>,
    const K: usize,
    const I: usize,
    const B: usize,
>(tv: &TestVector) -> Result<(), &'static str>
    ensures told { Reports result (encrypt_fault K I B C.keyed C.step tv.now) }
{
    check_vector::<Encrypting, C, K, I, B>(
        tv,
        tv.plaintext,
        tv.ciphertext,
        "ciphertext is bigger than MAX_MSG_LEN bytes",
        "single block encryption failure",
        "multi-block encryption failure",
    )
}

/// Whether a mode decrypts as a vector says. The test also tries several blocks together.
///
/// # Errors
/// The first text whose case holds: `plaintext is bigger than MAX_MSG_LEN bytes` (4,096), `plaintext/ciphertext length
/// mismatch`, `plaintext/ciphertext length is not multiple of block size`, `cipher initialization failure` (the key's
/// or the vector's length), `single block decryption failure`. The text `multi-block decryption failure` never comes.
pub fn decrypt<
    C: KeyIvInit<K, I> + BlockModeDecrypt<B>,
    const K: usize,
    const I: usize,
    const B: usize,
>(tv: &TestVector) -> Result<(), &'static str>
    ensures told { Reports result (decrypt_fault K I B C.keyed C.step tv.now) }
{
    check_vector::<Decrypting, C, K, I, B>(
        tv,
        tv.ciphertext,
        tv.plaintext,
        "plaintext is bigger than MAX_MSG_LEN bytes",
        "single block decryption failure",
        "multi-block decryption failure",
    )
}

// whether a mode under the key and the initialization vector of a test makes of some bytes what is wanted
fn check_vector<D, C: KeyIvInit<K, I> + Runs<D, B>, const K: usize, const I: usize, const B: usize>(
    tv: &TestVector,
    from: &[u8],
    wanted: &[u8],
    too_big: &'static str,
    single: &'static str,
    multi: &'static str,
) -> Result<(), &'static str>
    ensures told { Reports result (first (size_fault K I B tv.now wanted.now from.now too_big.now)
        (block_fault (bytes_run C.step (C.keyed tv.now.key.now tv.now.iv.now) B from.now) wanted.now single.now)) }
{
    let n = wanted.len();
    if n > MAX_MSG_LEN {
        return Err(too_big);
    }
    if from.len() != n {
        return Err("plaintext/ciphertext length mismatch");
    }
    if n % B != 0 {
        return Err("plaintext/ciphertext length is not multiple of block size");
    }
    match C::new_from_slices(tv.key, tv.iv) {
        Ok(mut mode) => { tested_by::<D, C, K, I, B>(&mut mode, tv, from, wanted, single, multi) }
        Err(_) => Err("cipher initialization failure"),
    }
}

// the same by a mode that is lent
fn tested_by<D, C: KeyIvInit<K, I> + Runs<D, B>, const K: usize, const I: usize, const B: usize>(
    mode: &mut C,
    tv: &TestVector,
    from: &[u8],
    wanted: &[u8],
    single: &'static str,
    multi: &'static str,
) -> Result<(), &'static str>
    requires few { length wanted.now ≤ 4096 }
    requires same_length { length from.now ≡ length wanted.now }
    requires whole { length wanted.now % B ≡ 0 }
    ensures told { Reports result
        (block_fault (bytes_run C.step mode.old B from.now) wanted.now single.now) }
{
    let mut buffer = [0; MAX_MSG_LEN];
    if !makes::<D, C, B>(mode, &mut buffer[..wanted.len()], from, wanted) {
        return Err(single);
    }
    if !runs_alike::<D, C, K, I, B>(tv.key, tv.iv, from) {
        return Err(multi);
    }
    Ok(())
}

// whether these bytes are made, block by block
fn makes<D, C: Runs<D, B>, const B: usize>(
    mode: &mut C,
    buffer: &mut [u8],
    from: &[u8],
    wanted: &[u8],
) -> bool
    requires size { length buffer.old ≡ length from.now }
    requires whole { length from.now % B ≡ 0 }
    ensures value { result ≡ bytes_eq (bytes_run C.step mode.old B from.now) wanted.now }
{
    buffer.copy_from_slice(from);
    run_bytes::<D, C, B>(mode, buffer);
    *buffer == *wanted
}

// two modes of one key and vector make the same of the blocks together, eight at a time, and of one by one
fn runs_alike<D, C: KeyIvInit<K, I> + Runs<D, B>, const K: usize, const I: usize, const B: usize>(
    key: &[u8],
    iv: &[u8],
    bytes: &[u8],
) -> bool
    ensures value { IsTrue result }
{
    match C::new_from_slices(key, iv) {
        Ok(mut mode) => runs_like_another::<D, C, K, I, B>(&mut mode, key, iv, bytes),
        Err(_) => true,
    }
}

fn runs_like_another<
    D,
    C: KeyIvInit<K, I> + Runs<D, B>,
    const K: usize,
    const I: usize,
    const B: usize,
>(mode: &mut C, key: &[u8], iv: &[u8], bytes: &[u8]) -> bool
    requires { mode.old ≡ C.keyed key.now iv.now }
    ensures value { IsTrue result }
{
    match C::new_from_slices(key, iv) {
        Ok(mut other) => parts_alike::<D, C, B>(mode, &mut other, bytes),
        Err(_) => true,
    }
}

fn parts_alike<D, M: Runs<D, B>, const B: usize>(mode: &mut M, other: &mut M, bytes: &[u8]) -> bool
    requires { mode.old ≡ other.old }
    ensures value { IsTrue result }
{
    let mut at = 0;
    while at < bytes.len() {
        if !eight_alike::<D, M, B>(mode, other, &mut eight_blocks(&bytes[at..])) {
            return false;
        }
        at += 8 * B;
    }
    true
}

fn eight_alike<D, M: Runs<D, B>, const B: usize>(
    mode: &mut M,
    other: &mut M,
    together: &mut [[u8; B]; 8],
) -> bool
    requires same { mode.old ≡ other.old }
    ensures alike { IsTrue result × (mode.new ≡ other.new) }
{
    let mut singly = *together;
    mode.run_blocks(together);
    run_singly::<D, M, B>(other, &mut singly);
    *together == singly
}

fn run_singly<D, M: Runs<D, B>, const B: usize>(mode: &mut M, blocks: &mut [[u8; B]])
    ensures value { blocks.new ≡ run_of M.step mode.old blocks.old }
    ensures stepped { mode.new ≡ state_after M.step mode.old blocks.old }
{
    for i in 0..blocks.len() {
        mode.run_block(&mut blocks[i]);
    }
}

// eight blocks that begin with the whole blocks of these bytes
fn eight_blocks<const B: usize>(bytes: &[u8]) -> [[u8; B]; 8]
    requires { (1 ≤ B) × (B < 256) }
{
    let mut blocks = [[0; B]; 8];
    let (whole, _) = bytes.as_chunks::<B>();
    for i in 0..whole.len().min(8) {
        blocks[i] = whole[i];
    }
    blocks
}
