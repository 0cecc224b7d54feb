// Blocks of 16 bytes.
ghost use Rattle.std.specs.Prelude.{◌≡◌, ◌↔◌, ◌≤◌, length, IsTrue};
ghost use Rattle.standards.specs.Lists.{xor_bytes};

use cipher::xor_in_place;

// A block with bytes added to its front.
pub(crate) fn xor_of(block: &[u8; 16], bytes: &[u8]) -> [u8; 16]
    requires { length bytes.now ≤ 16 }
    ensures { result ≡ xor_bytes block.now bytes.now }
{
    let mut out = *block;
    xor_in_place(&mut out, bytes);
    out
}

// Whether these are the same bytes, compared as one number.
pub(crate) fn is_same(tag: &[u8; 16], bytes: &[u8]) -> bool
    requires { length bytes.now ≡ 16 }
    ensures { IsTrue result ↔ (tag.now ≡ bytes.now) }
{
    let mut other = [0u8; 16];
    other.copy_from_slice(bytes);
    u128::from_be_bytes(*tag) ^ u128::from_be_bytes(other) == 0
}
