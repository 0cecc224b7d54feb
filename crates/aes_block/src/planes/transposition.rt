// Eight vectors of blocks as eight bit planes, and back. Each part is transposed alike.
ghost use Rattle.std.specs.Prelude.{◌≡◌, ℕ, map};
ghost use Rattle.aes_block.specs.Transposition.{IsSwap, IsTransposed};

use crate::planes::Planes;
use crate::planes::plane::Plane;

// Bits 0, 2, 4, 6 of the second change places with bits 1, 3, 5, 7 of the first.
#[inline(always)]
fn swap_ones<P: Plane>(a: P, b: P) -> (P, P)
    ensures { (h : ℕ) → IsSwap 1 (P.part h a) (P.part h b) (P.part h result.0) (P.part h result.1) }
{
    let b = b.of_bytes();
    let t = a.of_bytes().down(1).xor(b).and(P::splat(0x55));
    (a.xor(t.up(1)), b.xor(t))
}

// Bits 0, 1, 4, 5 of the second change places with bits 2, 3, 6, 7 of the first.
#[inline(always)]
fn swap_twos<P: Plane>(a: P, b: P) -> (P, P)
    ensures { (h : ℕ) → IsSwap 2 (P.part h a) (P.part h b) (P.part h result.0) (P.part h result.1) }
{
    let b = b.of_bytes();
    let t = a.of_bytes().down(2).xor(b).and(P::splat(0x33));
    (a.xor(t.up(2)), b.xor(t))
}

// Bits 0 to 3 of the second change places with bits 4 to 7 of the first.
#[inline(always)]
fn swap_fours<P: Plane>(a: P, b: P) -> (P, P)
    ensures { (h : ℕ) → IsSwap 4 (P.part h a) (P.part h b) (P.part h result.0) (P.part h result.1) }
{
    let b = b.of_bytes();
    let t = a.of_bytes().down(4).xor(b).and(P::splat(0x0f));
    (a.xor(t.up(4)), b.xor(t))
}

// Bit i of vector j becomes bit j of vector i.
#[inline(always)]
pub(crate) fn transpose<P: Plane>(q: Planes<P>) -> Planes<P>
    ensures { (h : ℕ) → IsTransposed (map (P.part h) q) (map (P.part h) result) }
{
    let [a, b, c, d, e, f, g, h] = q;
    let (a1, b1) = swap_ones(a, b);
    let (c1, d1) = swap_ones(c, d);
    let (e1, f1) = swap_ones(e, f);
    let (g1, h1) = swap_ones(g, h);
    let (a2, c2) = swap_twos(a1, c1);
    let (b2, d2) = swap_twos(b1, d1);
    let (e2, g2) = swap_twos(e1, g1);
    let (f2, h2) = swap_twos(f1, h1);
    let (a3, e3) = swap_fours(a2, e2);
    let (b3, f3) = swap_fours(b2, f2);
    let (c3, g3) = swap_fours(c2, g2);
    let (d3, h3) = swap_fours(d2, h2);
    [a3, b3, c3, d3, e3, f3, g3, h3]
}
