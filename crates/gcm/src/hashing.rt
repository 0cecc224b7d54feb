// GHASH (SP 800-38D, 6.4) and POLYVAL (RFC 8452, 3) of data and text, each padded, and their lengths.
ghost use Rattle.std.specs.Prelude.{◌≡◌, ◌≤◌, ◌<◌, ◌+◌, ◌*◌, ◌/◌, ◌%◌, ◌^◌, length};
ghost use Rattle.standards.specs.Blocks.{block_at, zero_padded};
ghost use Rattle.standards.specs.Ghash.{ghash, times_x};
ghost use Rattle.std.specs.Int.{w128, from_be_bytes, from_le_bytes};
ghost use Rattle.standards.specs.Polyval.{polyval};
ghost use Rattle.gcm.specs.Orders.{absorb, absorbed, block_of, four_absorbed, hash_of, number_of, pair_of};

use crate::field::times_x;
use crate::hash_key::{HashKey, Products};
use crate::long_hash_key::LongHashKey;
use crate::order::{ByteOrder, block_of, number_of, pair_of};
use standards::padded_block;

// The bytes from which on large tables pay for one text.
const LONG: usize = 8192;

// One block more after y, under the key.
fn absorb<K: Products>(order: ByteOrder, key: &K, y: u128, block: [u8; 16]) -> u128
    ensures { result ≡ absorb order (K.element key.now) y block }
{
    key.times(y ^ number_of(order, block))
}

// The number of block i of the bytes, which is whole.
#[inline(always)]
fn whole_block(order: ByteOrder, bytes: &[u8], i: usize) -> u128
    requires { 16 * i + 16 ≤ length bytes.now }
    ensures { result ≡ number_of order (block_at (zero_padded bytes.now) i) }
{
    let mut block = [0u8; 16];
    block.copy_from_slice(&bytes[16 * i..16 * i + 16]);
    number_of(order, block)
}

// The four blocks from block i on after y, under the key.
fn absorb_four<K: Products>(order: ByteOrder, key: &K, y: u128, bytes: &[u8], i: usize) -> u128
    requires { 16 * i + 64 ≤ length bytes.now }
    ensures { result ≡ four_absorbed order (K.element key.now) y bytes.now i }
{
    key.horner([
        y ^ whole_block(order, bytes, i),
        whole_block(order, bytes, i + 1),
        whole_block(order, bytes, i + 2),
        whole_block(order, bytes, i + 3),
    ])
}

// All bytes after y, padded, under the key, four blocks in a pass while there are as many.
pub(crate) fn absorb_padded<K: Products>(order: ByteOrder, key: &K, y: u128, bytes: &[u8]) -> u128
    ensures { result ≡ absorbed order (K.element key.now) y bytes.now (length bytes.now) }
{
    let fours = bytes.len() / 64;
    let mut state = y;
    'fours: for i in 0..fours {
        let next = absorb_four(order, key, state, bytes, 4 * i);
        state = next;
    }
    'rest: for i in 4 * fours..bytes.len().div_ceil(16) {
        let next = absorb(order, key, state, padded_block(bytes, i));
        state = next;
    }
    state
}

// The lengths in bits, modulo 2^64, after y, under the key.
pub(crate) fn absorb_lengths<K: Products>(
    order: ByteOrder,
    key: &K,
    y: u128,
    aad: usize,
    text: usize,
) -> u128
    ensures { result ≡ absorb order (K.element key.now) y (pair_of order (8 * aad % 2 ^ 64) (8 * text % 2 ^ 64)) }
{
    let aad_bits = 8u64.wrapping_mul(aad as u64);
    let text_bits = 8u64.wrapping_mul(text as u64);
    absorb(order, key, y, pair_of(order, aad_bits, text_bits))
}

// Data, text and their lengths under the key.
pub(crate) fn hash_of<K: Products>(order: ByteOrder, key: &K, aad: &[u8], text: &[u8]) -> [u8; 16]
    ensures { result ≡ block_of order (hash_of order (K.element key.now) aad.now text.now) }
{
    let data = absorb_padded(order, key, 0, aad);
    let both = absorb_padded(order, key, data, text);
    block_of(
        order,
        absorb_lengths(order, key, both, aad.len(), text.len()),
    )
}

// The same under a key that is used once: for a long text its large tables pay.
pub(crate) fn hashed_once(order: ByteOrder, key: &HashKey, aad: &[u8], text: &[u8]) -> [u8; 16]
    ensures { result ≡ block_of order (hash_of order key.now aad.now text.now) }
{
    if is_long(aad) || is_long(text) {
        return hashed_long(order, key, aad, text);
    }
    hash_of(order, key, aad, text)
}

// By the large tables.
#[inline(never)]
fn hashed_long(order: ByteOrder, key: &HashKey, aad: &[u8], text: &[u8]) -> [u8; 16]
    ensures { result ≡ block_of order (hash_of order key.now aad.now text.now) }
{
    hash_of(order, &LongHashKey::new(key), aad, text)
}

// Whether large tables, once made, take less time than the small ones take longer.
pub(crate) fn is_long(bytes: &[u8]) -> bool {
    bytes.len() >= LONG
}

// The element of a key of GHASH.
pub(crate) fn ghash_key(key: &[u8; 16]) -> HashKey
    ensures { result ≡ from_be_bytes w128 key.now }
{
    HashKey::new(u128::from_be_bytes(*key))
}

// The element of a key of POLYVAL, with the factor x that its products lack.
pub(crate) fn polyval_key(key: &[u8; 16]) -> HashKey
    ensures { result ≡ times_x (from_le_bytes w128 key.now) }
{
    HashKey::new(times_x(u128::from_le_bytes(*key)))
}

/// GHASH under the key, of data and text, and of their lengths in bits modulo 2^64 (SP 800-38D, 7.1, step 5). Zeros
/// fill data and text up to whole blocks of 16 bytes.
pub fn ghash(key: &[u8; 16], aad: &[u8], text: &[u8]) -> [u8; 16]
    ensures value { result ≡ ghash key.now aad.now text.now }
{
    hashed_once(ByteOrder::BigEndian, &ghash_key(key), aad, text)
}

/// POLYVAL under the key, of data and text, and of their lengths in bits modulo 2^64 (RFC 8452, 3 and 4). Zeros
/// fill data and text up to whole blocks of 16 bytes.
pub fn polyval(key: &[u8; 16], aad: &[u8], text: &[u8]) -> [u8; 16]
    ensures value { result ≡ polyval key.now aad.now text.now }
{
    hashed_once(ByteOrder::LittleEndian, &polyval_key(key), aad, text)
}
