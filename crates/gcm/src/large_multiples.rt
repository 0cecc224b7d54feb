// Products with one number by a table of its 256 multiples, eight bits at a time.
ghost use Rattle.std.specs.Prelude.{◌≡◌, ◌%◌, ◌<◌, ◌^◌, ℕ, [], bit_xor, get_or};
ghost use Rattle.standards.specs.Ghash.{product};
ghost use Rattle.gcm.specs.Carries.{bytes_of};
ghost use Rattle.gcm.specs.Multiples.{IsLargeTable, eight, four, multiple, multiple8};

use crate::multiples::{Multiples, shift};
use crate::vectors::{number_of, sum_of};
use std::marker::Model;
use std::simd::prelude::*;

// What is left of eight bits that are shifted out, in the highest 16 bits.
pub(crate) const REDUCED_BYTE: [u16; 256] = [
    0x0000, 0x01c2, 0x0384, 0x0246, 0x0708, 0x06ca, 0x048c, 0x054e, 0x0e10, 0x0fd2, 0x0d94, 0x0c56,
    0x0918, 0x08da, 0x0a9c, 0x0b5e, 0x1c20, 0x1de2, 0x1fa4, 0x1e66, 0x1b28, 0x1aea, 0x18ac, 0x196e,
    0x1230, 0x13f2, 0x11b4, 0x1076, 0x1538, 0x14fa, 0x16bc, 0x177e, 0x3840, 0x3982, 0x3bc4, 0x3a06,
    0x3f48, 0x3e8a, 0x3ccc, 0x3d0e, 0x3650, 0x3792, 0x35d4, 0x3416, 0x3158, 0x309a, 0x32dc, 0x331e,
    0x2460, 0x25a2, 0x27e4, 0x2626, 0x2368, 0x22aa, 0x20ec, 0x212e, 0x2a70, 0x2bb2, 0x29f4, 0x2836,
    0x2d78, 0x2cba, 0x2efc, 0x2f3e, 0x7080, 0x7142, 0x7304, 0x72c6, 0x7788, 0x764a, 0x740c, 0x75ce,
    0x7e90, 0x7f52, 0x7d14, 0x7cd6, 0x7998, 0x785a, 0x7a1c, 0x7bde, 0x6ca0, 0x6d62, 0x6f24, 0x6ee6,
    0x6ba8, 0x6a6a, 0x682c, 0x69ee, 0x62b0, 0x6372, 0x6134, 0x60f6, 0x65b8, 0x647a, 0x663c, 0x67fe,
    0x48c0, 0x4902, 0x4b44, 0x4a86, 0x4fc8, 0x4e0a, 0x4c4c, 0x4d8e, 0x46d0, 0x4712, 0x4554, 0x4496,
    0x41d8, 0x401a, 0x425c, 0x439e, 0x54e0, 0x5522, 0x5764, 0x56a6, 0x53e8, 0x522a, 0x506c, 0x51ae,
    0x5af0, 0x5b32, 0x5974, 0x58b6, 0x5df8, 0x5c3a, 0x5e7c, 0x5fbe, 0xe100, 0xe0c2, 0xe284, 0xe346,
    0xe608, 0xe7ca, 0xe58c, 0xe44e, 0xef10, 0xeed2, 0xec94, 0xed56, 0xe818, 0xe9da, 0xeb9c, 0xea5e,
    0xfd20, 0xfce2, 0xfea4, 0xff66, 0xfa28, 0xfbea, 0xf9ac, 0xf86e, 0xf330, 0xf2f2, 0xf0b4, 0xf176,
    0xf438, 0xf5fa, 0xf7bc, 0xf67e, 0xd940, 0xd882, 0xdac4, 0xdb06, 0xde48, 0xdf8a, 0xddcc, 0xdc0e,
    0xd750, 0xd692, 0xd4d4, 0xd516, 0xd058, 0xd19a, 0xd3dc, 0xd21e, 0xc560, 0xc4a2, 0xc6e4, 0xc726,
    0xc268, 0xc3aa, 0xc1ec, 0xc02e, 0xcb70, 0xcab2, 0xc8f4, 0xc936, 0xcc78, 0xcdba, 0xcffc, 0xce3e,
    0x9180, 0x9042, 0x9204, 0x93c6, 0x9688, 0x974a, 0x950c, 0x94ce, 0x9f90, 0x9e52, 0x9c14, 0x9dd6,
    0x9898, 0x995a, 0x9b1c, 0x9ade, 0x8da0, 0x8c62, 0x8e24, 0x8fe6, 0x8aa8, 0x8b6a, 0x892c, 0x88ee,
    0x83b0, 0x8272, 0x8034, 0x81f6, 0x84b8, 0x857a, 0x873c, 0x86fe, 0xa9c0, 0xa802, 0xaa44, 0xab86,
    0xaec8, 0xaf0a, 0xad4c, 0xac8e, 0xa7d0, 0xa612, 0xa454, 0xa596, 0xa0d8, 0xa11a, 0xa35c, 0xa29e,
    0xb5e0, 0xb422, 0xb664, 0xb7a6, 0xb2e8, 0xb32a, 0xb16c, 0xb0ae, 0xbbf0, 0xba32, 0xb874, 0xb9b6,
    0xbcf8, 0xbd3a, 0xbf7c, 0xbebe,
];

// The multiples of a number by each polynomial of eight bits, the highest bit of an index being the coefficient of x^0.
// Each is its bytes, the lowest first. A contract sees the number.
#[derive(Drop)]
pub(crate) struct LargeMultiples {
    number: u128,
    table: [[u8; 16]; 256],
}

impl Model for LargeMultiples {
    ghost use Rattle.std.specs.Prelude.{ℕ};
    ghost use Rattle.gcm.specs.Multiples.{AreLargeMultiples};

    ghost Value = { ℕ };

    ghost view = { λ m. m.number };

    ghost invariant = { λ m. AreLargeMultiples m.number m.table };
}

// The multiples by the lowest four bits, where four more follow.
fn make_low_rows(m: &Multiples) -> [[u8; 16]; 16]
    ensures { (n : ℕ) → n < 16 → get_or result n [] ≡ bytes_of (four (multiple m.now n)) }
{
    let mut rows = [[0u8; 16]; 16];
    for n in 0..16usize {
        rows[n] = shift(m.entry(n as u128)).to_le_bytes();
    }
    rows
}

// The multiples by the highest four bits.
fn make_high_rows(m: &Multiples) -> [[u8; 16]; 16]
    ensures { (n : ℕ) → n < 16 → get_or result n [] ≡ bytes_of (multiple m.now n) }
{
    let mut rows = [[0u8; 16]; 16];
    for n in 0..16usize {
        rows[n] = m.entry(n as u128).to_le_bytes();
    }
    rows
}

// The sum of two numbers by their bytes.
#[inline(always)]
fn sum_of_bytes(v: &[u8; 16], w: &[u8; 16]) -> [u8; 16]
    ensures { (m n : ℕ) → v.now ≡ bytes_of m → w.now ≡ bytes_of n → result ≡ bytes_of (bit_xor m n) }
{
    sum_of(u8x16::from_array(*v), u8x16::from_array(*w)).to_array()
}

// The 256 multiples.
fn make_large_table(m: &Multiples) -> [[u8; 16]; 256]
    ensures { IsLargeTable m.now result }
{
    let low = make_low_rows(m);
    let high = make_high_rows(m);
    let mut table = [[0u8; 16]; 256];
    for n in 0..256usize {
        table[n] = sum_of_bytes(&low[n % 16], &high[n / 16]);
    }
    table
}

// The lowest eight bits.
#[inline(always)]
fn low_byte(x: u128) -> usize
    ensures { result ≡ x % 256 }
{
    (x & 255) as usize
}

// The product with x^8.
#[inline(always)]
pub(crate) fn shift_byte(z: u128) -> u128
    ensures { result ≡ eight z }
{
    (z >> 8) ^ (u128::from(REDUCED_BYTE[low_byte(z)]) << 112)
}

impl LargeMultiples {
    // Those of a number, from its table of 16.
    pub(crate) fn new(m: &Multiples) -> LargeMultiples
        ensures { result ≡ m.now }
    {
        LargeMultiples {
            number: m.entry(8),
            table: make_large_table(m),
        }
    }

    // The multiple by the lowest eight bits.
    #[inline(always)]
    fn entry(&self, x: u128) -> u128
        ensures { result ≡ multiple8 self.now (x % 256) }
    {
        number_of(u8x16::from_array(self.table[low_byte(x)]))
    }

    // The bytes of the multiple by the lowest eight bits.
    #[inline(always)]
    pub(crate) fn entry_bytes(&self, x: u64) -> u8x16
        ensures bytes { result ≡ bytes_of (multiple8 self.now (x % 256)) }
        ensures below { multiple8 self.now (x % 256) < 2 ^ 128 }
    {
        u8x16::from_array(self.table[(x & 255) as usize])
    }

    // The product with `x`, whose highest powers stand in its lowest bits.
    pub(crate) fn times(&self, x: u128) -> u128
        ensures { result ≡ product x self.now }
    {
        let mut z = 0u128;
        let mut rest = x;
        for i in 0..16u32 {
            z = shift_byte(z) ^ self.entry(rest);
            rest >>= 8;
        }
        z
    }
}
