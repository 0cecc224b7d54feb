// The rounds of the inverse cipher on bit planes (FIPS 197, 5.3). It takes the round keys from the last to the first.
ghost use Rattle.std.specs.Prelude.{◌≡◌, ◌≤◌, ℕ, List, map};
ghost use Rattle.standards.specs.Aes.{add_round_key};
ghost use Rattle.standards.specs.AesInverse.{inv_cipher, inv_mix_columns, inv_shift_rows, inv_sub_bytes};
ghost use Rattle.aes_block.specs.BitPlanes.{AreBlocks, AreKeys, IsKey, spread};

use crate::planes::inverse_substitution::inv_sub_planes;
use crate::planes::plane::Plane;
use crate::planes::rounds::{add_planes, key_at, mix_planes};
use crate::planes::{KeyPlanes, Planes};

// InvShiftRows.
#[inline(always)]
fn inv_shift_planes<P: Plane>(q: Planes<P>) -> Planes<P>
    ensures { (h : ℕ) (b : List (List ℕ)) → AreBlocks b (map (P.part h) q)
        → AreBlocks (map inv_shift_rows b) (map (P.part h) result) }
{
    let [a, b, c, d, e, f, g, h] = q;
    [
        a.inv_shift_rows(),
        b.inv_shift_rows(),
        c.inv_shift_rows(),
        d.inv_shift_rows(),
        e.inv_shift_rows(),
        f.inv_shift_rows(),
        g.inv_shift_rows(),
        h.inv_shift_rows(),
    ]
}

// To each byte 4 times its sum with the one two further in its column.
#[inline(always)]
fn spread_planes<P: Plane>(q: Planes<P>) -> Planes<P>
    ensures { (h : ℕ) (b : List (List ℕ)) → AreBlocks b (map (P.part h) q)
        → AreBlocks (map spread b) (map (P.part h) result) }
{
    let [q0, q1, q2, q3, q4, q5, q6, q7] = q;
    let e0 = q0.xor(q0.second_on());
    let e1 = q1.xor(q1.second_on());
    let e2 = q2.xor(q2.second_on());
    let e3 = q3.xor(q3.second_on());
    let e4 = q4.xor(q4.second_on());
    let e5 = q5.xor(q5.second_on());
    let e6 = q6.xor(q6.second_on());
    let e7 = q7.xor(q7.second_on());
    let e67 = e6.xor(e7);
    [
        q0.xor(e6),
        q1.xor(e67),
        q2.xor(e0.xor(e7)),
        q3.xor(e1.xor(e6)),
        q4.xor(e2.xor(e67)),
        q5.xor(e3.xor(e7)),
        q6.xor(e4),
        q7.xor(e5),
    ]
}

// InvMixColumns: the circulant 14, 11, 13, 9 is that of MixColumns times 5, 0, 4, 0.
#[inline(always)]
fn inv_mix_planes<P: Plane>(q: Planes<P>) -> Planes<P>
    ensures { (h : ℕ) (b : List (List ℕ)) → AreBlocks b (map (P.part h) q)
        → AreBlocks (map inv_mix_columns b) (map (P.part h) result) }
{
    mix_planes(spread_planes(q))
}

// InvSubBytes.
#[inline(always)]
fn inv_substitute<P: Plane>(q: Planes<P>) -> Planes<P>
    ensures { (h : ℕ) (b : List (List ℕ)) → AreBlocks b (map (P.part h) q)
        → AreBlocks (map inv_sub_bytes b) (map (P.part h) result) }
{
    inv_sub_planes(q)
}

// The last round, which has no InvMixColumns.
#[inline(always)]
fn last_round<P: Plane>(q: Planes<P>, k: Planes<P>) -> Planes<P>
    ensures { (h : ℕ) (b : List (List ℕ)) (key : List ℕ) → AreBlocks b (map (P.part h) q)
        → IsKey key (map (P.part h) k)
        → AreBlocks (map (λ v. add_round_key (inv_sub_bytes (inv_shift_rows v)) key) b) (map (P.part h) result) }
{
    add_planes(inv_substitute(inv_shift_planes(q)), k)
}

// A whole round.
#[inline(always)]
fn round<P: Plane>(q: Planes<P>, k: Planes<P>) -> Planes<P>
    ensures { (h : ℕ) (b : List (List ℕ)) (key : List ℕ) → AreBlocks b (map (P.part h) q)
        → IsKey key (map (P.part h) k)
        → AreBlocks (map (λ v. inv_mix_columns (add_round_key (inv_sub_bytes (inv_shift_rows v)) key)) b) (map (P.part h) result) }
{
    inv_mix_planes(last_round(q, k))
}

// Blocks deciphered in so many rounds, with the planes of the cipher's round keys.
pub(crate) fn decipher_planes<P: Plane>(
    keys: &[KeyPlanes; 15],
    rounds: usize,
    q: Planes<P>,
) -> Planes<P>
    requires some { 1 ≤ rounds }
    requires few { rounds ≤ 14 }
    ensures { (h : ℕ) (b ks : List (List ℕ)) → AreBlocks b (map (P.part h) q) → AreKeys rounds ks keys.now
        → AreBlocks (map (inv_cipher rounds ks) b) (map (P.part h) result) }
{
    let mut s = add_planes(q, key_at(keys, rounds));
    'rounds: for i in 1..rounds {
        let next = round(s, key_at(keys, rounds - i));
        s = next;
    }
    last_round(s, key_at(keys, 0))
}
