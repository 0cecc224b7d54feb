// AES of eight or sixteen blocks together by their bit planes: circuits of ands, xors and moves of bytes, which read no
// table. They are written once, for planes of each width.
ghost use Rattle.std.specs.Prelude.{◌≡◌, ◌+◌, ◌<◌, ◌≤◌, ℕ, List, map, length};
ghost use Rattle.standards.specs.Aes.{cipher};
ghost use Rattle.standards.specs.AesInverse.{inv_cipher};
ghost use Rattle.aes_block.specs.BitPlanes.{AreKeys, IsKey};

mod inverse_rounds;
mod inverse_substitution;
mod plane;
mod rounds;
mod substitution;
mod transposition;
mod vectors;
mod wide;

use inverse_rounds::decipher_planes;
use plane::Plane;
use rounds::encipher_planes;
use std::simd::prelude::*;
use transposition::transpose;
use vectors::{arrays, vectors, wide_arrays, wide_vectors};

// Plane j has bit j of each byte of the blocks. Each of its parts is of eight blocks: that of block i is bit i of the
// part's byte.
pub(crate) type Planes<P> = [P; 8];

// Those of a round key, which is the same for each block.
#[derive(Clone, Copy)]
pub(crate) struct KeyPlanes {
    planes: [[u8; 16]; 8],
}

fn key_planes(key: &[u8; 16]) -> KeyPlanes
    ensures { IsKey key.now result.planes }
{
    let v = u8x16::from_array(*key);
    KeyPlanes {
        planes: arrays(transpose([v, v, v, v, v, v, v, v])),
    }
}

// Those of the round keys of so many rounds, one key more than rounds.
pub(crate) fn round_key_planes(keys: &[[u8; 16]; 15], rounds: usize) -> [KeyPlanes; 15]
    requires { rounds ≤ 14 }
    ensures { AreKeys rounds keys.now result }
{
    let none = KeyPlanes {
        planes: [[0; 16]; 8],
    };
    let mut planes = [none; 15];
    'each: for r in 0..rounds + 1 {
        planes[r] = key_planes(&keys[r]);
    }
    planes
}

// Eight vectors of blocks, each block enciphered.
#[inline(always)]
fn encipher_vectors<P: Plane>(keys: &[KeyPlanes; 15], rounds: usize, v: Planes<P>) -> Planes<P>
    requires some { 1 ≤ rounds }
    requires few { rounds ≤ 14 }
    ensures { (h : ℕ) (ks : List (List ℕ)) → AreKeys rounds ks keys.now
        → map (P.part h) result ≡ map (cipher rounds ks) (map (P.part h) v) }
{
    transpose(encipher_planes(keys, rounds, transpose(v)))
}

// Eight blocks, each enciphered in so many rounds, with the planes of these round keys.
pub(crate) fn encipher_eight(
    keys: &[KeyPlanes; 15],
    rounds: usize,
    blocks: &[[u8; 16]],
) -> [[u8; 16]; 8]
    requires some { 1 ≤ rounds }
    requires few { rounds ≤ 14 }
    requires eight { length blocks.now ≡ 8 }
    ensures { (ks : List (List ℕ)) → AreKeys rounds ks keys.now → result ≡ map (cipher rounds ks) blocks.now }
{
    arrays(encipher_vectors(keys, rounds, vectors(blocks)))
}

// Sixteen blocks, each enciphered as above.
pub(crate) fn encipher_sixteen(
    keys: &[KeyPlanes; 15],
    rounds: usize,
    blocks: &[[u8; 16]],
) -> [[u8; 16]; 16]
    requires some { 1 ≤ rounds }
    requires few { rounds ≤ 14 }
    requires sixteen { length blocks.now ≡ 16 }
    ensures { (ks : List (List ℕ)) → AreKeys rounds ks keys.now → result ≡ map (cipher rounds ks) blocks.now }
{
    wide_arrays(encipher_vectors(keys, rounds, wide_vectors(blocks)))
}

// Eight vectors of blocks, each block deciphered.
#[inline(always)]
fn decipher_vectors<P: Plane>(keys: &[KeyPlanes; 15], rounds: usize, v: Planes<P>) -> Planes<P>
    requires some { 1 ≤ rounds }
    requires few { rounds ≤ 14 }
    ensures { (h : ℕ) (ks : List (List ℕ)) → AreKeys rounds ks keys.now
        → map (P.part h) result ≡ map (inv_cipher rounds ks) (map (P.part h) v) }
{
    transpose(decipher_planes(keys, rounds, transpose(v)))
}

// Eight blocks, each deciphered in so many rounds, with the planes of the cipher's round keys.
pub(crate) fn decipher_eight(
    keys: &[KeyPlanes; 15],
    rounds: usize,
    blocks: &[[u8; 16]],
) -> [[u8; 16]; 8]
    requires some { 1 ≤ rounds }
    requires few { rounds ≤ 14 }
    requires eight { length blocks.now ≡ 8 }
    ensures { (ks : List (List ℕ)) → AreKeys rounds ks keys.now → result ≡ map (inv_cipher rounds ks) blocks.now }
{
    arrays(decipher_vectors(keys, rounds, vectors(blocks)))
}

// Sixteen blocks, each deciphered as above.
pub(crate) fn decipher_sixteen(
    keys: &[KeyPlanes; 15],
    rounds: usize,
    blocks: &[[u8; 16]],
) -> [[u8; 16]; 16]
    requires some { 1 ≤ rounds }
    requires few { rounds ≤ 14 }
    requires sixteen { length blocks.now ≡ 16 }
    ensures { (ks : List (List ℕ)) → AreKeys rounds ks keys.now → result ≡ map (inv_cipher rounds ks) blocks.now }
{
    wide_arrays(decipher_vectors(keys, rounds, wide_vectors(blocks)))
}
