// Polynomials over two elements modulo x^128 + x^7 + x^2 + x + 1 (SP 800-38D, 6.3), as numbers of 128 bits:
// the highest bit is the coefficient of x^0. Those of POLYVAL (RFC 8452, 3) are the same field with the bits
// in the other order, bit i being the coefficient of x^i, and a factor of x^-127 in each product.
ghost use Rattle.std.specs.Prelude.{◌≡◌, ◌*◌, ◌%◌};
ghost use Rattle.standards.specs.Ghash.{times_x};

// x^128 reduced: x^7 + x^2 + x + 1.
const REDUCED: u128 = 0xe100_0000_0000_0000_0000_0000_0000_0000;

// The term if the number is odd, and else 0.
#[inline(always)]
pub(crate) fn if_odd(n: u128, term: u128) -> u128
    ensures { result ≡ n % 2 * term }
{
    if n % 2 == 1 { term } else { 0 }
}

// The product with x.
#[inline(always)]
pub(crate) fn times_x(v: u128) -> u128
    ensures { result ≡ times_x v }
{
    (v >> 1) ^ if_odd(v, REDUCED)
}
