//! Bytes xor bytes, sixteen at a time.

ghost use Rattle.std.specs.Prelude.{◌≡◌, ◌≤◌, length};
ghost use Rattle.standards.specs.Lists.{xor_bytes};

use std::simd::prelude::*;

/// Writes the first bytes of `output` xor `bytes`, which are no more. The places behind them stay.
#[inline(always)]
pub fn xor_in_place(output: &mut [u8], bytes: &[u8])
    requires { length bytes.now ≤ length output.old }
    ensures value { output.new ≡ xor_bytes output.old bytes.now }
{
    let whole = bytes.len() / 16;
    'lanes: for i in 0..whole {
        let at = 16 * i;
        let v = u8x16::from_slice(&output[at..]) ^ u8x16::from_slice(&bytes[at..]);
        v.copy_to_slice(&mut output[at..]);
    }
    'rest: for i in 16 * whole..bytes.len() {
        output[i] ^= bytes[i];
    }
}
