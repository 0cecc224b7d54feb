// Products with one number by a table of its 16 multiples, four bits at a time.
ghost use Rattle.std.specs.Prelude.{◌≡◌, ◌%◌, ◌<◌};
ghost use Rattle.standards.specs.Ghash.{product};
ghost use Rattle.gcm.specs.Multiples.{IsTable, four, multiple};

use crate::field::{if_odd, times_x};
use std::marker::Model;

// What is left of four bits that are shifted out, in the highest 16 bits.
pub(crate) const REDUCED: [u16; 16] = [
    0x0000, 0x1c20, 0x3840, 0x2460, 0x7080, 0x6ca0, 0x48c0, 0x54e0, 0xe100, 0xfd20, 0xd940, 0xc560,
    0x9180, 0x8da0, 0xa9c0, 0xb5e0,
];

// The multiples of a number by each polynomial of four bits, the highest bit of an index being the coefficient of x^0.
// A contract sees the number.
#[derive(Drop)]
pub(crate) struct Multiples {
    table: [u128; 16],
}

impl Model for Multiples {
    ghost use Rattle.std.specs.Prelude.{ℕ, get_or};
    ghost use Rattle.gcm.specs.Multiples.{IsTable};

    ghost Value = { ℕ };

    ghost view = { λ m. get_or m.table 8 0 };

    ghost invariant = { λ m. IsTable (get_or m.table 8 0) m.table };
}

// The product of a number and four bits.
fn multiple(n: u128, y: u128) -> u128
    ensures { result ≡ multiple y n }
{
    let once = times_x(y);
    let twice = times_x(once);
    let thrice = times_x(twice);
    if_odd(n, thrice) ^ if_odd(n / 2, twice) ^ if_odd(n / 4, once) ^ if_odd(n / 8, y)
}

// The 16 multiples.
fn make_table(y: u128) -> [u128; 16]
    ensures { IsTable y result }
{
    let mut table = [0u128; 16];
    for n in 0..16usize {
        table[n] = multiple(n as u128, y);
    }
    table
}

// The lowest four bits.
#[inline(always)]
fn nibble(x: u128) -> usize
    ensures { result ≡ x % 16 }
{
    (x & 15) as usize
}

// The product with x^4.
#[inline(always)]
pub(crate) fn shift(z: u128) -> u128
    ensures { result ≡ four z }
{
    (z >> 4) ^ (u128::from(REDUCED[nibble(z)]) << 112)
}

impl Multiples {
    // Those of a number.
    pub(crate) fn new(y: u128) -> Multiples
        ensures { result ≡ y }
    {
        Multiples {
            table: make_table(y),
        }
    }

    // The multiple by the lowest four bits.
    #[inline(always)]
    pub(crate) fn entry(&self, x: u128) -> u128
        ensures { result ≡ multiple self.now (x % 16) }
    {
        self.table[nibble(x)]
    }

    // The product with `x`, whose highest powers stand in its lowest bits.
    pub(crate) fn times(&self, x: u128) -> u128
        ensures { result ≡ product x self.now }
    {
        let mut z = 0u128;
        let mut rest = x;
        for i in 0..32u32 {
            z = shift(z) ^ self.entry(rest);
            rest >>= 4;
        }
        z
    }
}
