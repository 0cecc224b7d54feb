//! S2V (RFC 5297, 2.4) over any cipher with blocks of 16 bytes, with one component of associated data.

ghost use Rattle.std.specs.Prelude.{◌≡◌, ◌≤◌, ◌<◌, length};
ghost use Rattle.standards.specs.Blocks.{bit_padded};
ghost use Rattle.standards.specs.Cmac.{cmac, double_block};
ghost use Rattle.standards.specs.Lists.{xor_bytes};
ghost use Rattle.standards.specs.Siv.{s2v, s2v_data, xor_end};

use crate::cmac::{bit_padded, chain, cmac_from, cmac_of, double_block};
use cipher::{BlockCipherEncrypt, xor_in_place};

// D after the data, which is a component also where it is empty.
fn s2v_data<C: BlockCipherEncrypt<16>>(c: &C, aad: &[u8]) -> [u8; 16]
    ensures { result ≡ s2v_data (C.encrypts c.now) aad.now }
{
    let code = cmac_of(c, aad);
    let mut d = double_block(cmac_of(c, &[0u8; 16]));
    xor_in_place(&mut d, &code);
    d
}

// The CMAC of a text of less than a block, padded, with D doubled and added.
fn cmac_padded<C: BlockCipherEncrypt<16>>(c: &C, d: [u8; 16], text: &[u8]) -> [u8; 16]
    requires { length text.now < 16 }
    ensures { result ≡ cmac (C.encrypts c.now) (xor_bytes (double_block d) (bit_padded text.now)) }
{
    let mut block = double_block(d);
    xor_in_place(&mut block, &bit_padded(text));
    cmac_of(c, &block)
}

// Fills `out` with the text, with D added to its last 16 bytes.
fn xor_end(d: &[u8; 16], text: &[u8], out: &mut [u8])
    requires long { 16 ≤ length text.now }
    requires room { length out.old ≡ length text.now }
    ensures { out.new ≡ xor_end text.now d.now }
{
    let front = text.len() - 16;
    out.copy_from_slice(text);
    xor_in_place(&mut out[front..], d);
}

// The CMAC of a text of a block or more with D added to its last 16 bytes. The blocks before these are chained as they
// stand, so that the text is not copied.
fn cmac_xor_end<C: BlockCipherEncrypt<16>>(c: &C, d: [u8; 16], text: &[u8]) -> [u8; 16]
    requires { 16 ≤ length text.now }
    ensures { result ≡ cmac (C.encrypts c.now) (xor_end text.now d) }
{
    let whole = text.len() / 16 - 1;
    let rest = &text[16 * whole..];
    let n = rest.len();
    let mut end = [0u8; 32];
    xor_end(&d, rest, &mut end[..n]);
    let start = chain(c, [0u8; 16], text, whole);
    cmac_from(c, start, &end[..n])
}

/// Writes into `out` S2V (RFC 5297, 2.4) of the associated data and the text under the cipher `c`, all 16 bytes. The
/// data is one component, also where it is empty.
pub fn s2v_into<C: BlockCipherEncrypt<16>>(c: &C, aad: &[u8], text: &[u8], out: &mut [u8; 16])
    ensures written { out.new ≡ s2v (C.encrypts c.now) aad.now text.now }
{
    let d = s2v_data(c, aad);
    *out = if text.len() < 16 {
        cmac_padded(c, d, text)
    } else {
        cmac_xor_end(c, d, text)
    };
}
