// A key of GHASH or POLYVAL: the multiples of its element and of that element's powers, for four blocks in one pass.
ghost use Rattle.std.specs.Prelude.{◌≡◌, ℕ, slice_index};
ghost use Rattle.standards.specs.Ghash.{product};
ghost use Rattle.gcm.specs.Multiples.{horner, sum4};

use crate::multiples::{Multiples, shift};
use std::marker::Model;

// What hashes: the products with an element.
pub(crate) trait Products {
    // the element
    ghost element: { Self → ℕ };

    // The product with a number.
    fn times(&self, x: u128) -> u128
        ensures { result ≡ product x (element self.now) };

    // The first number times the element, and each of the others added and their sum times the element.
    fn horner(&self, x: [u128; 4]) -> u128
        ensures { result ≡ horner (element self.now)
            (slice_index x 0) (slice_index x 1) (slice_index x 2) (slice_index x 3) };
}

// By tables of 16 multiples, which are soon made. A contract sees the element.
#[derive(Drop)]
pub(crate) struct HashKey {
    pub(crate) first: Multiples,
    pub(crate) second: Multiples,
    pub(crate) third: Multiples,
    pub(crate) fourth: Multiples,
}

impl Model for HashKey {
    ghost use Rattle.std.specs.Prelude.{ℕ};
    ghost use Rattle.gcm.specs.Multiples.{ArePowers};

    ghost Value = { ℕ };

    ghost view = { λ k. k.first };

    ghost invariant = { λ k. ArePowers k.first k.second k.third k.fourth };
}

// The sum of the products of four numbers with four others.
fn sum_of_products(p: &Multiples, q: &Multiples, r: &Multiples, s: &Multiples, x: [u128; 4]) -> u128
    ensures { result ≡ sum4 (product (slice_index x 0) p.now) (product (slice_index x 1) q.now)
        (product (slice_index x 2) r.now) (product (slice_index x 3) s.now) }
{
    let [mut a, mut b, mut c, mut d] = x;
    let mut z = 0u128;
    for i in 0..32u32 {
        z = shift(z) ^ (p.entry(a) ^ q.entry(b) ^ r.entry(c) ^ s.entry(d));
        a >>= 4;
        b >>= 4;
        c >>= 4;
        d >>= 4;
    }
    z
}

impl HashKey {
    // That of an element.
    pub(crate) fn new(h: u128) -> HashKey
        ensures { result ≡ h }
    {
        let first = Multiples::new(h);
        let h2 = first.times(h);
        let h3 = first.times(h2);
        let h4 = first.times(h3);
        HashKey {
            first,
            second: Multiples::new(h2),
            third: Multiples::new(h3),
            fourth: Multiples::new(h4),
        }
    }
}

impl Products for HashKey {
    ghost element = { λ k. k };

    fn times(&self, x: u128) -> u128 {
        self.first.times(x)
    }

    fn horner(&self, x: [u128; 4]) -> u128 {
        sum_of_products(&self.fourth, &self.third, &self.second, &self.first, x)
    }
}
