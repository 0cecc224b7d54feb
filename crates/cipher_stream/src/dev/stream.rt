//! Tests of stream ciphers by vectors.

ghost use Rattle.std.specs.Prelude.{◌≡◌, ℕ, ◌+◌, ◌-◌, ◌<◌, ◌≤◌, List, length, take, drop, Ok, IsOk, OnOk, IsTrue, ◌↔◌};
ghost use Rattle.cipher_stream.specs.Keystream.{xored};
ghost use Rattle.cipher_stream.specs.ByteStream.{ByteStream, to_come, HasMoved, LeavesRoom};
ghost use Rattle.cipher_stream.specs.StreamVectors.{Passes, PieceTold, BytesTold, VectorTold};

use crate::ciphers::StreamCipher;
use cipher::KeyIvInit;

/// A key, an initialization vector, a text and what it is encrypted to.
#[derive(Clone, Copy, Debug)]
pub struct TestVector {
    /// The key.
    pub key: &'static [u8],
    /// The initialization vector.
    pub iv: &'static [u8],
    /// The text.
    pub plaintext: &'static [u8],
    /// The encrypted text.
    pub ciphertext: &'static [u8],
}

/// Whether a stream cipher encrypts as a vector says, in pieces of 1 to 255 bytes.
///
/// # Errors
/// `mismatch of plaintext and ciphertext lengths`, then `cipher initialization failure` (the key's or the vector's
/// length). After them the text that comes first of `end of keystream reached` and `ciphertext mismatch`.
pub fn stream_cipher_test<C: KeyIvInit<K, I> + StreamCipher + Drop, const K: usize, const I: usize>(
    tv: &TestVector,
) -> Result<(), &'static str>
    ensures told { VectorTold K I C.keyed C.stream C.has tv.now result }
{
    if tv.plaintext.len() != tv.ciphertext.len() {
        return Err("mismatch of plaintext and ciphertext lengths");
    }
    if let Err(text) = test_anew::<C, K, I>(tv, 1) {
        return Err(text);
    }
    for size in 2..256 {
        if let Err(text) = test_anew::<C, K, I>(tv, size) {
            return Err(text);
        }
    }
    Ok(())
}

// by a cipher of its own, in pieces of this size
fn test_anew<C: KeyIvInit<K, I> + StreamCipher + Drop, const K: usize, const I: usize>(
    tv: &TestVector,
    size: usize,
) -> Result<(), &'static str>
    requires some { 1 ≤ size }
    requires few { size < 256 }
    requires same_length { length tv.now.plaintext.now ≡ length tv.now.ciphertext.now }
    ensures told { size ≡ 1 → VectorTold K I C.keyed C.stream C.has tv.now result }
    ensures again { VectorTold K I C.keyed C.stream C.has tv.now (Ok tt) → IsOk result }
{
    match C::new_from_slices(tv.key, tv.iv) {
        Ok(mut cipher) => test_pieces(&mut cipher, tv.plaintext, tv.ciphertext, size),
        Err(_) => Err("cipher initialization failure"),
    }
}

// in pieces of this size
fn test_pieces<C: StreamCipher>(
    cipher: &mut C,
    from: &[u8],
    wanted: &[u8],
    size: usize,
) -> Result<(), &'static str>
    requires some { 1 ≤ size }
    requires few { size < 256 }
    requires same_length { length from.now ≡ length wanted.now }
    ensures bytes { size ≡ 1 → BytesTold (C.stream cipher.old) (C.has cipher.old) from.now wanted.now result }
    ensures again { Passes (C.stream cipher.old) (C.has cipher.old) from.now wanted.now (length from.now)
        → IsOk result }
{
    let n = from.len();
    let mut at = 0;
    while at < n {
        let count = size.min(n - at);
        let told = test_piece(cipher, &from[at..at + count], &wanted[at..at + count]);
        if let Err(text) = told {
            return Err(text);
        }
        at += count;
    }
    Ok(())
}

fn test_piece<C: StreamCipher>(
    cipher: &mut C,
    from: &[u8],
    wanted: &[u8],
) -> Result<(), &'static str>
    requires few { length from.now < 256 }
    requires same_length { length from.now ≡ length wanted.now }
    ensures told { PieceTold (C.stream cipher.old) (C.has cipher.old) from.now wanted.now result }
    ensures moved { OnOk result (HasMoved (C.stream cipher.old) (length from.now) (C.stream cipher.new)) }
    ensures leaves { OnOk result (LeavesRoom (C.has cipher.old) (length from.now) (C.has cipher.new)) }
{
    let mut buffer = [0; 255];
    let n = from.len();
    test_in(cipher, &mut buffer[..n], from, wanted)
}

// the piece is copied into this buffer
fn test_in<C: StreamCipher>(
    cipher: &mut C,
    buffer: &mut [u8],
    from: &[u8],
    wanted: &[u8],
) -> Result<(), &'static str>
    requires room { length buffer.old ≡ length from.now }
    requires same_length { length from.now ≡ length wanted.now }
    ensures told { PieceTold (C.stream cipher.old) (C.has cipher.old) from.now wanted.now result }
    ensures moved { OnOk result (HasMoved (C.stream cipher.old) (length from.now) (C.stream cipher.new)) }
    ensures leaves { OnOk result (LeavesRoom (C.has cipher.old) (length from.now) (C.has cipher.new)) }
{
    buffer.copy_from_slice(from);
    if cipher.try_apply_keystream(buffer).is_err() {
        return Err("end of keystream reached");
    }
    if same_bytes(buffer, wanted) {
        return Ok(());
    }
    Err("ciphertext mismatch")
}

fn same_bytes(left: &[u8], right: &[u8]) -> bool
    ensures value { IsTrue result ↔ (left.now ≡ right.now) }
{
    *left == *right
}
