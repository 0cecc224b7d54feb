// The rounds on bit planes (FIPS 197, 5.1). A plane moves its bytes as each block does, since byte k of a plane is of
// byte k of the blocks.
ghost use Rattle.std.specs.Prelude.{◌≡◌, ◌≤◌, ◌<◌, ℕ, List, map};
ghost use Rattle.standards.specs.Aes.{add_round_key, cipher, mix_columns, shift_rows, sub_bytes};
ghost use Rattle.aes_block.specs.BitPlanes.{AreBlocks, AreKeys, IsKey, planes_at};

use crate::planes::plane::Plane;
use crate::planes::substitution::sub_planes;
use crate::planes::vectors::repeated;
use crate::planes::{KeyPlanes, Planes};

// ShiftRows.
#[inline(always)]
fn shift_planes<P: Plane>(q: Planes<P>) -> Planes<P>
    ensures { (h : ℕ) (b : List (List ℕ)) → AreBlocks b (map (P.part h) q)
        → AreBlocks (map shift_rows b) (map (P.part h) result) }
{
    let [a, b, c, d, e, f, g, h] = q;
    [
        a.shift_rows(),
        b.shift_rows(),
        c.shift_rows(),
        d.shift_rows(),
        e.shift_rows(),
        f.shift_rows(),
        g.shift_rows(),
        h.shift_rows(),
    ]
}

// MixColumns. The product with x moves each bit up by one, and adds bit 7 to bits 0, 1, 3 and 4.
#[inline(always)]
pub(crate) fn mix_planes<P: Plane>(q: Planes<P>) -> Planes<P>
    ensures { (h : ℕ) (b : List (List ℕ)) → AreBlocks b (map (P.part h) q)
        → AreBlocks (map mix_columns b) (map (P.part h) result) }
{
    let [q0, q1, q2, q3, q4, q5, q6, q7] = q;
    let r0 = q0.first_on();
    let r1 = q1.first_on();
    let r2 = q2.first_on();
    let r3 = q3.first_on();
    let r4 = q4.first_on();
    let r5 = q5.first_on();
    let r6 = q6.first_on();
    let r7 = q7.first_on();
    let d0 = q0.xor(r0);
    let d1 = q1.xor(r1);
    let d2 = q2.xor(r2);
    let d3 = q3.xor(r3);
    let d4 = q4.xor(r4);
    let d5 = q5.xor(r5);
    let d6 = q6.xor(r6);
    let d7 = q7.xor(r7);
    [
        d7.xor(r0).xor(d0.second_on()),
        d0.xor(d7).xor(r1).xor(d1.second_on()),
        d1.xor(r2).xor(d2.second_on()),
        d2.xor(d7).xor(r3).xor(d3.second_on()),
        d3.xor(d7).xor(r4).xor(d4.second_on()),
        d4.xor(r5).xor(d5.second_on()),
        d5.xor(r6).xor(d6.second_on()),
        d6.xor(r7).xor(d7.second_on()),
    ]
}

// AddRoundKey.
#[inline(always)]
pub(crate) fn add_planes<P: Plane>(q: Planes<P>, k: Planes<P>) -> Planes<P>
    ensures { (h : ℕ) (b : List (List ℕ)) (key : List ℕ) → AreBlocks b (map (P.part h) q)
        → IsKey key (map (P.part h) k)
        → AreBlocks (map (λ v. add_round_key v key) b) (map (P.part h) result) }
{
    let [a, b, c, d, e, f, g, h] = q;
    let [s, t, u, v, w, x, y, z] = k;
    [
        a.xor(s),
        b.xor(t),
        c.xor(u),
        d.xor(v),
        e.xor(w),
        f.xor(x),
        g.xor(y),
        h.xor(z),
    ]
}

// SubBytes.
#[inline(always)]
fn substitute<P: Plane>(q: Planes<P>) -> Planes<P>
    ensures { (h : ℕ) (b : List (List ℕ)) → AreBlocks b (map (P.part h) q)
        → AreBlocks (map sub_bytes b) (map (P.part h) result) }
{
    sub_planes(q)
}

// A whole round.
#[inline(always)]
fn round<P: Plane>(q: Planes<P>, k: Planes<P>) -> Planes<P>
    ensures { (h : ℕ) (b : List (List ℕ)) (key : List ℕ) → AreBlocks b (map (P.part h) q)
        → IsKey key (map (P.part h) k)
        → AreBlocks (map (λ v. add_round_key (mix_columns (shift_rows (sub_bytes v))) key) b) (map (P.part h) result) }
{
    add_planes(mix_planes(shift_planes(substitute(q))), k)
}

// The last round, which has no MixColumns.
#[inline(always)]
fn last_round<P: Plane>(q: Planes<P>, k: Planes<P>) -> Planes<P>
    ensures { (h : ℕ) (b : List (List ℕ)) (key : List ℕ) → AreBlocks b (map (P.part h) q)
        → IsKey key (map (P.part h) k)
        → AreBlocks (map (λ v. add_round_key (shift_rows (sub_bytes v)) key) b) (map (P.part h) result) }
{
    add_planes(shift_planes(substitute(q)), k)
}

#[inline(always)]
pub(crate) fn key_at<P: Plane>(keys: &[KeyPlanes; 15], i: usize) -> Planes<P>
    requires { i < 15 }
    ensures { (h : ℕ) → map (P.part h) result ≡ planes_at keys.now i }
{
    repeated(&keys[i].planes)
}

// Blocks enciphered in so many rounds, with the planes of these round keys.
pub(crate) fn encipher_planes<P: Plane>(
    keys: &[KeyPlanes; 15],
    rounds: usize,
    q: Planes<P>,
) -> Planes<P>
    requires some { 1 ≤ rounds }
    requires few { rounds ≤ 14 }
    ensures { (h : ℕ) (b ks : List (List ℕ)) → AreBlocks b (map (P.part h) q) → AreKeys rounds ks keys.now
        → AreBlocks (map (cipher rounds ks) b) (map (P.part h) result) }
{
    let mut s = add_planes(q, key_at(keys, 0));
    'rounds: for i in 1..rounds {
        let next = round(s, key_at(keys, i));
        s = next;
    }
    last_round(s, key_at(keys, rounds))
}
