// Numbers of 128 bits as vectors of their bytes, the lowest first.
ghost use Rattle.std.specs.Prelude.{◌≡◌, ◌/◌, ◌<◌, ◌^◌, ℕ, bit_xor};
ghost use Rattle.gcm.specs.Carries.{bytes_of, carried};

use std::simd::prelude::*;

// The number 0.
#[inline(always)]
pub(crate) fn zeros() -> u8x16
    ensures { result ≡ bytes_of 0 }
{
    u8x16::splat(0)
}

// The sum of two numbers.
#[inline(always)]
pub(crate) fn sum_of(v: u8x16, w: u8x16) -> u8x16
    ensures { (m n : ℕ) → v ≡ bytes_of m → w ≡ bytes_of n → result ≡ bytes_of (bit_xor m n) }
{
    v ^ w
}

// A number without its lowest byte.
#[inline(always)]
pub(crate) fn shifted(v: u8x16) -> u8x16
    ensures { (n : ℕ) → n < 2 ^ 128 → v ≡ bytes_of n → result ≡ bytes_of (n / 256) }
{
    v.shuffle(
        u8x16::splat(0),
        [1, 2, 3, 4, 5, 6, 7, 8, 9, 10, 11, 12, 13, 14, 15, 16],
    )
}

// What was shifted out, a byte more: its highest bit is the coefficient of x^128.
#[inline(always)]
pub(crate) fn carry_of(high: u8x16, low: u8x16) -> u8x16
    ensures { (h l : ℕ) → l < 2 ^ 128 → high ≡ bytes_of h → low ≡ bytes_of l → result ≡ bytes_of (carried h l) }
{
    low.shuffle(
        high,
        [1, 2, 3, 4, 5, 6, 7, 8, 9, 10, 11, 12, 13, 14, 15, 16],
    )
}

// The number of a vector.
#[inline(always)]
pub(crate) fn number_of(v: u8x16) -> u128
    ensures { (n : ℕ) → n < 2 ^ 128 → v ≡ bytes_of n → result ≡ n }
{
    u128::from_le_bytes(v.to_array())
}
