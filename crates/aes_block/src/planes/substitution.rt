// SubBytes of eight bit planes (FIPS 197, 5.1.1) by the circuit of Boyar and Peralta (2010), 115 gates in five steps.
// x0 is the highest bit of a byte, and s0 that of the byte in its place.
ghost use Rattle.std.specs.Prelude.{◌≡◌, ℕ, map};
ghost use Rattle.aes_block.specs.Wires.{AreWires, AreBelow, ArePlanes};
ghost use Rattle.aes_block.specs.TruthTables.{BITS, FACTORS, SUMS, INVERSE, TERMS, SUBSTITUTED};
ghost use Rattle.standards.specs.Aes.{sub_byte};

use crate::planes::Planes;
use crate::planes::plane::Plane;

// The factors of the products below: sums of bits. x7 stands in the place of y0.
#[inline(always)]
fn factors<P: Plane>(q: Planes<P>) -> [P; 22]
    ensures { (h : ℕ) (X : ℕ → ℕ → ℕ) → AreWires X BITS (map (P.part h) q)
        → AreWires X FACTORS (map (P.part h) result) }
{
    let [x7, x6, x5, x4, x3, x2, x1, x0] = q;
    let y14 = x3.xor(x5);
    let y13 = x0.xor(x6);
    let y9 = x0.xor(x3);
    let y8 = x0.xor(x5);
    let t0 = x1.xor(x2);
    let y1 = t0.xor(x7);
    let y4 = y1.xor(x3);
    let y12 = y13.xor(y14);
    let y2 = y1.xor(x0);
    let y5 = y1.xor(x6);
    let y3 = y5.xor(y8);
    let t1 = x4.xor(y12);
    let y15 = t1.xor(x5);
    let y20 = t1.xor(x1);
    let y6 = y15.xor(x7);
    let y10 = y15.xor(t0);
    let y11 = y20.xor(y9);
    let y7 = x7.xor(y11);
    let y17 = y10.xor(y11);
    let y19 = y10.xor(y8);
    let y16 = t0.xor(y11);
    let y21 = y13.xor(y16);
    let y18 = x0.xor(y16);
    [
        x7, y1, y2, y3, y4, y5, y6, y7, y8, y9, y10, y11, y12, y13, y14, y15, y16, y17, y18, y19,
        y20, y21,
    ]
}

// Four bits, an element of the field of 16, whose inverse gives that of the byte.
#[inline(always)]
fn sums<P: Plane>(y: [P; 22]) -> [P; 4]
    ensures { (h : ℕ) (X : ℕ → ℕ → ℕ) → AreWires X FACTORS (map (P.part h) y)
        → AreWires X SUMS (map (P.part h) result) }
{
    let t2 = y[12].and(y[15]);
    let t3 = y[3].and(y[6]);
    let t4 = t3.xor(t2);
    let t5 = y[4].and(y[0]);
    let t6 = t5.xor(t2);
    let t7 = y[13].and(y[16]);
    let t8 = y[5].and(y[1]);
    let t9 = t8.xor(t7);
    let t10 = y[2].and(y[7]);
    let t11 = t10.xor(t7);
    let t12 = y[9].and(y[11]);
    let t13 = y[14].and(y[17]);
    let t14 = t13.xor(t12);
    let t15 = y[8].and(y[10]);
    let t16 = t15.xor(t12);
    let t17 = t4.xor(t14);
    let t18 = t6.xor(t16);
    let t19 = t9.xor(t14);
    let t20 = t11.xor(t16);
    let t21 = t17.xor(y[20]);
    let t22 = t18.xor(y[19]);
    let t23 = t19.xor(y[21]);
    let t24 = t20.xor(y[18]);
    [t21, t22, t23, t24]
}

// The inverse in the field of 16, and sums of its bits.
#[inline(always)]
fn inverse<P: Plane>(t: [P; 4]) -> [P; 9]
    ensures { (h : ℕ) (X : ℕ → ℕ → ℕ) → AreWires X SUMS (map (P.part h) t)
        → AreWires X INVERSE (map (P.part h) result) }
{
    let [t21, t22, t23, t24] = t;
    let t25 = t21.xor(t22);
    let t26 = t21.and(t23);
    let t27 = t24.xor(t26);
    let t28 = t25.and(t27);
    let t29 = t28.xor(t22);
    let t30 = t23.xor(t24);
    let t31 = t22.xor(t26);
    let t32 = t31.and(t30);
    let t33 = t32.xor(t24);
    let t34 = t23.xor(t33);
    let t35 = t27.xor(t33);
    let t36 = t24.and(t35);
    let t37 = t36.xor(t34);
    let t38 = t27.xor(t36);
    let t39 = t29.and(t38);
    let t40 = t25.xor(t39);
    let t41 = t40.xor(t37);
    let t42 = t29.xor(t33);
    let t43 = t29.xor(t40);
    let t44 = t33.xor(t37);
    let t45 = t42.xor(t41);
    [t29, t33, t37, t40, t41, t42, t43, t44, t45]
}

// Products of both, of which the inverse of the byte has sums.
#[inline(always)]
fn terms<P: Plane>(y: [P; 22], t: [P; 9]) -> [P; 18]
    ensures { (h : ℕ) (X : ℕ → ℕ → ℕ) → AreWires X FACTORS (map (P.part h) y)
        → AreWires X INVERSE (map (P.part h) t) → AreWires X TERMS (map (P.part h) result) }
{
    let [t29, t33, t37, t40, t41, t42, t43, t44, t45] = t;
    let z0 = t44.and(y[15]);
    let z1 = t37.and(y[6]);
    let z2 = t33.and(y[0]);
    let z3 = t43.and(y[16]);
    let z4 = t40.and(y[1]);
    let z5 = t29.and(y[7]);
    let z6 = t42.and(y[11]);
    let z7 = t45.and(y[17]);
    let z8 = t41.and(y[10]);
    let z9 = t44.and(y[12]);
    let z10 = t37.and(y[3]);
    let z11 = t33.and(y[4]);
    let z12 = t43.and(y[13]);
    let z13 = t40.and(y[5]);
    let z14 = t29.and(y[2]);
    let z15 = t42.and(y[9]);
    let z16 = t45.and(y[14]);
    let z17 = t41.and(y[8]);
    [
        z0, z1, z2, z3, z4, z5, z6, z7, z8, z9, z10, z11, z12, z13, z14, z15, z16, z17,
    ]
}

// The bits of the affine map of the inverse, from the lowest.
#[inline(always)]
fn bits<P: Plane>(z: [P; 18]) -> Planes<P>
    ensures { (h : ℕ) (X : ℕ → ℕ → ℕ) → AreBelow X → AreWires X TERMS (map (P.part h) z)
        → AreWires X SUBSTITUTED (map (P.part h) result) }
{
    let [
        z0,
        z1,
        z2,
        z3,
        z4,
        z5,
        z6,
        z7,
        z8,
        z9,
        z10,
        z11,
        z12,
        z13,
        z14,
        z15,
        z16,
        z17,
    ] = z;
    let ones = P::splat(255);
    let t46 = z15.xor(z16);
    let t47 = z10.xor(z11);
    let t48 = z5.xor(z13);
    let t49 = z9.xor(z10);
    let t50 = z2.xor(z12);
    let t51 = z2.xor(z5);
    let t52 = z7.xor(z8);
    let t53 = z0.xor(z3);
    let t54 = z6.xor(z7);
    let t55 = z16.xor(z17);
    let t56 = z12.xor(t48);
    let t57 = t50.xor(t53);
    let t58 = z4.xor(t46);
    let t59 = z3.xor(t54);
    let t60 = t46.xor(t57);
    let t61 = z14.xor(t57);
    let t62 = t52.xor(t58);
    let t63 = t49.xor(t58);
    let t64 = z4.xor(t59);
    let t65 = t61.xor(t62);
    let t66 = z1.xor(t63);
    let s0 = t59.xor(t63);
    let s6 = t56.xor(t62.xor(ones));
    let s7 = t48.xor(t60.xor(ones));
    let t67 = t64.xor(t65);
    let s3 = t53.xor(t66);
    let s4 = t51.xor(t66);
    let s5 = t47.xor(t65);
    let s1 = t64.xor(s3.xor(ones));
    let s2 = t55.xor(t67.xor(ones));
    [s7, s6, s5, s4, s3, s2, s1, s0]
}

// SubBytes of each block.
#[inline(always)]
pub(crate) fn sub_planes<P: Plane>(q: Planes<P>) -> Planes<P>
    ensures { (h : ℕ) (X : ℕ → ℕ → ℕ) → ArePlanes X (map (P.part h) q)
        → ArePlanes (λ k i. sub_byte (X k i)) (map (P.part h) result) }
{
    let y = factors(q);
    let t = inverse(sums(y));
    bits(terms(y, t))
}
