// Blocks, or the planes of a key, as arrays and as vectors.
ghost use Rattle.std.specs.Prelude.{◌≡◌, ◌+◌, ◌≤◌, ◌++◌, ℕ, length, map, take, drop, get_or, []};
ghost use Rattle.aes_block.specs.Parts.{half};

use crate::planes::Planes;
use crate::planes::plane::Plane;
use crate::planes::wide::joined;
use std::simd::prelude::*;

// Eight arrays, each in each part of a vector.
#[inline(always)]
pub(crate) fn repeated<P: Plane>(arrays: &[[u8; 16]; 8]) -> Planes<P>
    ensures { (h : ℕ) → map (P.part h) result ≡ arrays.now }
{
    [
        P::repeated(&arrays[0]),
        P::repeated(&arrays[1]),
        P::repeated(&arrays[2]),
        P::repeated(&arrays[3]),
        P::repeated(&arrays[4]),
        P::repeated(&arrays[5]),
        P::repeated(&arrays[6]),
        P::repeated(&arrays[7]),
    ]
}

// Eight arrays as vectors.
#[inline(always)]
pub(crate) fn vectors(arrays: &[[u8; 16]]) -> [u8x16; 8]
    requires { length arrays.now ≡ 8 }
    ensures { result ≡ arrays.now }
{
    [
        u8x16::from_array(arrays[0]),
        u8x16::from_array(arrays[1]),
        u8x16::from_array(arrays[2]),
        u8x16::from_array(arrays[3]),
        u8x16::from_array(arrays[4]),
        u8x16::from_array(arrays[5]),
        u8x16::from_array(arrays[6]),
        u8x16::from_array(arrays[7]),
    ]
}

// Eight vectors as arrays.
#[inline(always)]
pub(crate) fn arrays(v: [u8x16; 8]) -> [[u8; 16]; 8]
    ensures { result ≡ v }
{
    let [v0, v1, v2, v3, v4, v5, v6, v7] = v;
    [
        v0.to_array(),
        v1.to_array(),
        v2.to_array(),
        v3.to_array(),
        v4.to_array(),
        v5.to_array(),
        v6.to_array(),
        v7.to_array(),
    ]
}

// A block and the one that is eight behind it.
#[inline(always)]
fn pair(arrays: &[[u8; 16]], i: usize) -> u8x32
    requires { i + 9 ≤ length arrays.now }
    ensures first { half 0 result ≡ get_or arrays.now i [] }
    ensures second { half 1 result ≡ get_or arrays.now (i + 8) [] }
{
    joined(
        u8x16::from_array(arrays[i]),
        u8x16::from_array(arrays[i + 8]),
    )
}

// Sixteen arrays as vectors.
#[inline(always)]
pub(crate) fn wide_vectors(arrays: &[[u8; 16]]) -> [u8x32; 8]
    requires { length arrays.now ≡ 16 }
    ensures first { map (half 0) result ≡ take 8 arrays.now }
    ensures second { map (half 1) result ≡ drop 8 arrays.now }
{
    [
        pair(arrays, 0),
        pair(arrays, 1),
        pair(arrays, 2),
        pair(arrays, 3),
        pair(arrays, 4),
        pair(arrays, 5),
        pair(arrays, 6),
        pair(arrays, 7),
    ]
}

// The first 16 bytes of a vector.
#[inline(always)]
fn first(v: u8x32) -> [u8; 16]
    ensures { result ≡ half 0 v }
{
    v.extract::<0, 16>().to_array()
}

// The last 16 bytes of a vector.
#[inline(always)]
fn second(v: u8x32) -> [u8; 16]
    ensures { result ≡ half 1 v }
{
    v.extract::<16, 16>().to_array()
}

// Eight vectors as sixteen arrays.
#[inline(always)]
pub(crate) fn wide_arrays(v: [u8x32; 8]) -> [[u8; 16]; 16]
    ensures { result ≡ map (half 0) v ++ map (half 1) v }
{
    let [v0, v1, v2, v3, v4, v5, v6, v7] = v;
    [
        first(v0),
        first(v1),
        first(v2),
        first(v3),
        first(v4),
        first(v5),
        first(v6),
        first(v7),
        second(v0),
        second(v1),
        second(v2),
        second(v3),
        second(v4),
        second(v5),
        second(v6),
        second(v7),
    ]
}
