// POLYVAL of a text that is only had from its ciphertext, a part at a time and in no place of the caller.
ghost use Rattle.std.specs.Prelude.{◌≡◌, ◌≤◌, ◌<◌, ◌+◌, ◌*◌, ◌/◌, ◌^◌, length};
ghost use Rattle.std.specs.Int.{w32};
ghost use Rattle.standards.specs.Counter.{ctr, plus_le};
ghost use Rattle.gcm.specs.Orders.{absorbed, block_of, counted, hash_of};

use crate::counter::apply_keystream;
use crate::hash_key::{HashKey, Products};
use crate::hashing::{absorb_lengths, absorb_padded, is_long};
use crate::long_hash_key::LongHashKey;
use crate::order::{ByteOrder, block_of, counter_after};
use cipher::BlockCipherEncrypt;

// The blocks of a part, and their bytes.
const LANES: usize = 8;

const PART: usize = 128;

// A part of the text, from block `first` on, after the state.
fn absorb_part<C: BlockCipherEncrypt<16>, K: Products>(
    c: &C,
    block: &[u8; 16],
    key: &K,
    state: u128,
    part: &[u8],
) -> u128
    requires { length part.now ≤ 128 }
    ensures { result ≡ absorbed ByteOrder.LittleEndian (K.element key.now) state
        (ctr (C.encrypts c.now) (counted ByteOrder.LittleEndian) block.now part.now) (length part.now) }
{
    let mut text = [0u8; PART];
    absorb_in(&mut text[..part.len()], c, block, key, state, part)
}

// The same in a place of the part's length.
fn absorb_in<C: BlockCipherEncrypt<16>, K: Products>(
    text: &mut [u8],
    c: &C,
    block: &[u8; 16],
    key: &K,
    state: u128,
    part: &[u8],
) -> u128
    requires place { length text.old ≡ length part.now }
    requires part { length part.now ≤ 128 }
    ensures { result ≡ absorbed ByteOrder.LittleEndian (K.element key.now) state
        (ctr (C.encrypts c.now) (counted ByteOrder.LittleEndian) block.now part.now) (length part.now) }
{
    text.copy_from_slice(part);
    apply_keystream(c, ByteOrder::LittleEndian, block, text);
    absorb_padded(ByteOrder::LittleEndian, key, state, text)
}

// The whole text after y, under the key.
fn absorb_opened<C: BlockCipherEncrypt<16>, K: Products>(
    c: &C,
    block: &[u8; 16],
    key: &K,
    y: u128,
    ciphertext: &[u8],
) -> u128
    ensures { result ≡ absorbed ByteOrder.LittleEndian (K.element key.now) y
        (ctr (C.encrypts c.now) (counted ByteOrder.LittleEndian) block.now ciphertext.now) (length ciphertext.now) }
{
    let mut state = y;
    for i in 0..ciphertext.len().div_ceil(PART) {
        let start = PART * i;
        let n = (ciphertext.len() - start).min(PART);
        let from = counter_after(ByteOrder::LittleEndian, block, (LANES * i) as u64);
        let next = absorb_part(c, &from, key, state, &ciphertext[start..start + n]);
        state = next;
    }
    state
}

// The hash of data and of the ciphertext in counter mode from `block` on, under the key.
fn hashed_under<C: BlockCipherEncrypt<16>, K: Products>(
    c: &C,
    block: &[u8; 16],
    key: &K,
    aad: &[u8],
    ciphertext: &[u8],
) -> [u8; 16]
    ensures { result ≡ block_of ByteOrder.LittleEndian (hash_of ByteOrder.LittleEndian (K.element key.now) aad.now
        (ctr (C.encrypts c.now) (plus_le w32) block.now ciphertext.now)) }
{
    let order = ByteOrder::LittleEndian;
    let data = absorb_padded(order, key, 0, aad);
    let both = absorb_opened(c, block, key, data, ciphertext);
    block_of(
        order,
        absorb_lengths(order, key, both, aad.len(), ciphertext.len()),
    )
}

// The same under a key that is used once: for a long text its large tables pay.
pub(crate) fn hashed_as_opened<C: BlockCipherEncrypt<16>>(
    c: &C,
    block: &[u8; 16],
    key: &HashKey,
    aad: &[u8],
    ciphertext: &[u8],
) -> [u8; 16]
    ensures { result ≡ block_of ByteOrder.LittleEndian (hash_of ByteOrder.LittleEndian key.now aad.now
        (ctr (C.encrypts c.now) (plus_le w32) block.now ciphertext.now)) }
{
    if is_long(aad) || is_long(ciphertext) {
        return hashed_as_opened_long(c, block, key, aad, ciphertext);
    }
    hashed_under(c, block, key, aad, ciphertext)
}

// By the large tables.
#[inline(never)]
fn hashed_as_opened_long<C: BlockCipherEncrypt<16>>(
    c: &C,
    block: &[u8; 16],
    key: &HashKey,
    aad: &[u8],
    ciphertext: &[u8],
) -> [u8; 16]
    ensures { result ≡ block_of ByteOrder.LittleEndian (hash_of ByteOrder.LittleEndian key.now aad.now
        (ctr (C.encrypts c.now) (plus_le w32) block.now ciphertext.now)) }
{
    hashed_under(c, block, &LongHashKey::new(key), aad, ciphertext)
}
