// A key of GHASH or POLYVAL for long texts, by tables of 256 multiples.
ghost use Rattle.std.specs.Prelude.{◌≡◌, ◌<◌, ◌≤◌, ◌+◌, ◌/◌, ◌%◌, ◌^◌, ℕ, slice_index};
ghost use Rattle.standards.specs.Ghash.{product};
ghost use Rattle.gcm.specs.Carries.{AreEightBytes, IsSummed, bytes_of, entries, rest};
ghost use Rattle.gcm.specs.Multiples.{sum4};

use crate::hash_key::{HashKey, Products};
use crate::large_multiples::LargeMultiples;
use crate::vectors::{carry_of, number_of, shifted, sum_of, zeros};
use std::marker::Model;
use std::simd::prelude::*;

// A contract sees the element.
#[derive(Drop)]
pub(crate) struct LongHashKey {
    first: LargeMultiples,
    second: LargeMultiples,
    third: LargeMultiples,
    fourth: LargeMultiples,
}

impl Model for LongHashKey {
    ghost use Rattle.std.specs.Prelude.{ℕ};
    ghost use Rattle.gcm.specs.Multiples.{ArePowers};

    ghost Value = { ℕ };

    ghost view = { λ k. k.first };

    ghost invariant = { λ k. ArePowers k.first k.second k.third k.fourth };
}

// The product with x^128, where the lowest eight bits are 0.
#[inline(always)]
fn rest_of(low: u128) -> u128
    requires { low % 256 ≡ 0 }
    ensures { result ≡ rest low }
{
    (low >> 7) ^ (low >> 2) ^ (low >> 1) ^ low
}

// The sum of the multiples of four numbers by the lowest bytes of four others.
#[inline(always)]
fn entries(
    p: &LargeMultiples,
    q: &LargeMultiples,
    r: &LargeMultiples,
    s: &LargeMultiples,
    x: [u64; 4],
) -> u8x16
    ensures bytes { result ≡ bytes_of (entries p.now q.now r.now s.now
        (slice_index x 0) (slice_index x 1) (slice_index x 2) (slice_index x 3) 0) }
    ensures below { entries p.now q.now r.now s.now
        (slice_index x 0) (slice_index x 1) (slice_index x 2) (slice_index x 3) 0 < 2 ^ 128 }
{
    sum_of(
        sum_of(p.entry_bytes(x[0]), q.entry_bytes(x[1])),
        sum_of(r.entry_bytes(x[2]), s.entry_bytes(x[3])),
    )
}

// The sum of the products of four numbers with eight bytes more of four others, a byte of each at a time. What is shifted
// out is reduced once, at the end.
#[inline(always)]
fn eight_bytes(
    p: &LargeMultiples,
    q: &LargeMultiples,
    r: &LargeMultiples,
    s: &LargeMultiples,
    x: [u64; 4],
    from: (u8x16, u8x16),
) -> (u8x16, u8x16)
    ensures { (a b c d i : ℕ) → i ≤ 8 → AreEightBytes a b c d i x
        → IsSummed p.now q.now r.now s.now a b c d i from.0 from.1
        → IsSummed p.now q.now r.now s.now a b c d (i + 8) result.0 result.1 }
{
    let [mut a, mut b, mut c, mut d] = x;
    let (mut high, mut low) = from;
    for k in 0..8u32 {
        low = carry_of(high, low);
        high = sum_of(shifted(high), entries(p, q, r, s, [a, b, c, d]));
        a >>= 8;
        b >>= 8;
        c >>= 8;
        d >>= 8;
    }
    (high, low)
}

// The lowest 64 bits.
#[inline(always)]
fn lower(x: u128) -> u64
    ensures { result ≡ x % 2 ^ 64 }
{
    (x % (1 << 64)) as u64
}

// The other bits.
#[inline(always)]
fn upper(x: u128) -> u64
    ensures { result ≡ x / 2 ^ 64 % 2 ^ 64 }
{
    lower(x >> 64)
}

// The sum of the products of four numbers with four others.
fn sum_of_long_products(
    p: &LargeMultiples,
    q: &LargeMultiples,
    r: &LargeMultiples,
    s: &LargeMultiples,
    x: [u128; 4],
) -> u128
    ensures { result ≡ sum4 (product (slice_index x 0) p.now) (product (slice_index x 1) q.now)
        (product (slice_index x 2) r.now) (product (slice_index x 3) s.now) }
{
    let [a, b, c, d] = x;
    let first = [lower(a), lower(b), lower(c), lower(d)];
    let second = [upper(a), upper(b), upper(c), upper(d)];
    let half = eight_bytes(p, q, r, s, first, (zeros(), zeros()));
    let (high, low) = eight_bytes(p, q, r, s, second, half);
    number_of(high) ^ rest_of(number_of(low))
}

impl LongHashKey {
    // The same key.
    pub(crate) fn new(key: &HashKey) -> LongHashKey
        ensures { result ≡ key.now }
    {
        LongHashKey {
            first: LargeMultiples::new(&key.first),
            second: LargeMultiples::new(&key.second),
            third: LargeMultiples::new(&key.third),
            fourth: LargeMultiples::new(&key.fourth),
        }
    }
}

impl Products for LongHashKey {
    ghost element = { λ k. k };

    fn times(&self, x: u128) -> u128 {
        self.first.times(x)
    }

    fn horner(&self, x: [u128; 4]) -> u128 {
        sum_of_long_products(&self.fourth, &self.third, &self.second, &self.first, x)
    }
}
