//! CMAC (SP 800-38B) over any cipher with blocks of 16 bytes.

ghost use Rattle.std.specs.Prelude.{◌≡◌, ◌≤◌, ◌<◌, ◌*◌, length};
ghost use Rattle.standards.specs.Blocks.{bit_padded, over_blocks};
ghost use Rattle.standards.specs.Cmac.{chain_step, cmac, double_block, last_block, subkey_1};
ghost use Rattle.hash_keys.specs.CmacParts.{cmac_from};

use cipher::{BlockCipherEncrypt, xor_in_place};

// What is added where doubling shifts a bit out (5.3).
const REDUCTION: u128 = 0x87;

// The bit that ends an incomplete last block (6.2, step 4).
const END: u8 = 0x80;

// A block times two, as a number whose high byte is first.
pub(crate) fn double_block(block: [u8; 16]) -> [u8; 16]
    ensures { result ≡ double_block block }
{
    let n = u128::from_be_bytes(block);
    let out = n >> 127;
    ((n << 1) ^ (out * REDUCTION)).to_be_bytes()
}

// K1 (6.1).
fn subkey<C: BlockCipherEncrypt<16>>(c: &C) -> [u8; 16]
    ensures { result ≡ subkey_1 (C.encrypts c.now) }
{
    let mut block = [0u8; 16];
    c.encrypt_block(&mut block);
    double_block(block)
}

// The chain over the first n blocks, from the block `start` on.
pub(crate) fn chain<C: BlockCipherEncrypt<16>>(
    c: &C,
    start: [u8; 16],
    text: &[u8],
    n: usize,
) -> [u8; 16]
    requires { 16 * n ≤ length text.now }
    ensures { result ≡ over_blocks (chain_step (C.encrypts c.now)) start text.now n }
{
    let mut block = start;
    for i in 0..n {
        xor_in_place(&mut block, &text[16 * i..16 * i + 16]);
        c.encrypt_block(&mut block);
    }
    block
}

// Less than a block, a bit 1 and zeros.
pub(crate) fn bit_padded(rest: &[u8]) -> [u8; 16]
    requires { length rest.now < 16 }
    ensures { result ≡ bit_padded rest.now }
{
    let n = rest.len();
    let mut block = [0u8; 16];
    block[..n].copy_from_slice(rest);
    block[n] = END;
    block
}

// The last block under its subkey: padded with one bit and zeros unless it is whole.
fn last_block<C: BlockCipherEncrypt<16>>(c: &C, rest: &[u8]) -> [u8; 16]
    requires { length rest.now ≤ 16 }
    ensures { result ≡ last_block (C.encrypts c.now) rest.now }
{
    let first = subkey(c);
    let second = double_block(first);
    if rest.len() == 16 {
        let mut block = first;
        block.copy_from_slice(rest);
        xor_in_place(&mut block, &first);
        return block;
    }
    let mut block = bit_padded(rest);
    xor_in_place(&mut block, &second);
    block
}

// The CMAC whose chain stands at `start` before the text.
pub(crate) fn cmac_from<C: BlockCipherEncrypt<16>>(c: &C, start: [u8; 16], text: &[u8]) -> [u8; 16]
    ensures { result ≡ cmac_from (C.encrypts c.now) start text.now }
{
    let n = text.len().saturating_sub(1) / 16;
    let last = last_block(c, &text[16 * n..]);
    let mut block = chain(c, start, text, n);
    xor_in_place(&mut block, &last);
    c.encrypt_block(&mut block);
    block
}

// The CMAC of a text.
pub(crate) fn cmac_of<C: BlockCipherEncrypt<16>>(c: &C, text: &[u8]) -> [u8; 16]
    ensures { result ≡ cmac (C.encrypts c.now) text.now }
{
    cmac_from(c, [0u8; 16], text)
}

/// Writes into `out` the CMAC of `text` (SP 800-38B, 6.2) under the cipher `c`, all 16 bytes.
pub fn cmac_into<C: BlockCipherEncrypt<16>>(c: &C, text: &[u8], out: &mut [u8; 16])
    ensures written { out.new ≡ cmac (C.encrypts c.now) text.now }
{
    *out = cmac_of(c, text);
}
