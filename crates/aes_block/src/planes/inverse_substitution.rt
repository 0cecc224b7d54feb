// InvSubBytes of eight bit planes (FIPS 197, 5.3.2): the inverse of the affine map before and after the circuit of
// SubBytes, whose own affine map the second undoes.
ghost use Rattle.std.specs.Prelude.{ℕ, map};
ghost use Rattle.standards.specs.AesInverse.{inv_affine_bits, inv_sub_byte};
ghost use Rattle.aes_block.specs.Wires.{ArePlanes};

use crate::planes::Planes;
use crate::planes::plane::Plane;
use crate::planes::substitution::sub_planes;

// The inverse of the affine map of each block.
#[inline(always)]
fn undo_affine<P: Plane>(q: Planes<P>) -> Planes<P>
    ensures { (h : ℕ) (X : ℕ → ℕ → ℕ) → ArePlanes X (map (P.part h) q)
        → ArePlanes (λ k i. inv_affine_bits (X k i) 8) (map (P.part h) result) }
{
    let [b0, b1, b2, b3, b4, b5, b6, b7] = q;
    let ones = P::splat(255);
    [
        b2.xor(b5).xor(b7).xor(ones),
        b3.xor(b6).xor(b0),
        b4.xor(b7).xor(b1).xor(ones),
        b5.xor(b0).xor(b2),
        b6.xor(b1).xor(b3),
        b7.xor(b2).xor(b4),
        b0.xor(b3).xor(b5),
        b1.xor(b4).xor(b6),
    ]
}

// InvSubBytes of each block.
#[inline(always)]
pub(crate) fn inv_sub_planes<P: Plane>(q: Planes<P>) -> Planes<P>
    ensures { (h : ℕ) (X : ℕ → ℕ → ℕ) → ArePlanes X (map (P.part h) q)
        → ArePlanes (λ k i. inv_sub_byte (X k i)) (map (P.part h) result) }
{
    undo_affine(sub_planes(undo_affine(q)))
}
