//! Definitions of public standards, for contracts to cite. One step of theirs is code here: a block with zeros behind
//! a part of it.
#![tactic(auto)]

ghost use Rattle.std.specs.Prelude.{◌≡◌, ◌<◌, ◌*◌, length};
ghost use Rattle.standards.specs.Blocks.{block_at, zero_padded};

/// Block `i` of 16 bytes, with zeros up to a whole block if the bytes end in it. GHASH (SP 800-38D, 7.1, step 4) and
/// POLYVAL (RFC 8452, 4) take data and text so.
pub fn padded_block(bytes: &[u8], i: usize) -> [u8; 16]
    requires { 16 * i < length bytes.now }
    ensures { result ≡ block_at (zero_padded bytes.now) i }
{
    let n = (bytes.len() - 16 * i).min(16);
    let mut block = [0u8; 16];
    block[..n].copy_from_slice(&bytes[16 * i..16 * i + n]);
    block
}
