//! HMAC (FIPS 198-1), under a key for one text or for many.

ghost use Rattle.std.specs.Prelude.{◌≡◌, ◌≤◌, ◌++◌, ℕ, List, [], ⊤, length, take};
ghost use Rattle.standards.specs.Hmac.{block_key, pad};
ghost use Rattle.hash_keys.specs.Hash.{block_size, digest_size, hash_of, hmac_of};

use crate::hasher::{Hasher, copy_of};
use crate::{Hash, MAX_BLOCK, MAX_DIGEST};
use std::alloc::AllocError;

// The bytes of HMAC's inner and outer pads (2.3).
const INNER_PAD: u8 = 0x36;

const OUTER_PAD: u8 = 0x5c;

/// A key of HMAC (FIPS 198-1) under a hash. It is kept as the states of the hash after its two padded blocks
/// (section 6). So a tag costs no compressions beyond those of its text and of one digest.
///
/// A contract says by `IsHmacKey` which key it is of.
#[derive(Drop)]
pub struct HmacKey {
    hash: Hash,
    inner: Hasher,
    outer: Hasher,
}

// The key as one block, as a prefix of the result.
fn key_block(h: Hash, key: &[u8]) -> [u8; MAX_BLOCK]
    ensures { take (block_size h) result ≡ block_key (hash_of h) (block_size h) key.now }
{
    let mut block = [0u8; MAX_BLOCK];
    if key.len() > h.block_size() {
        let size = h.digest_size();
        let digest = digest_of(h, key);
        block[..size].copy_from_slice(&digest[..size]);
    } else {
        block[..key.len()].copy_from_slice(key);
    }
    block
}

// Each byte xor one byte.
fn xor_byte(block: &[u8; MAX_BLOCK], byte: u8) -> [u8; MAX_BLOCK]
    ensures { result ≡ pad block.now byte }
{
    let mut out = [0u8; MAX_BLOCK];
    for i in 0..MAX_BLOCK {
        out[i] = block[i] ^ byte;
    }
    out
}

// The digest of bytes, as a prefix of the result.
pub(crate) fn digest_of(h: Hash, bytes: &[u8]) -> [u8; MAX_DIGEST]
    ensures { take (digest_size h) result ≡ hash_of h bytes.now }
{
    let mut hasher = Hasher::new(h);
    hasher.update(bytes);
    hasher.finalize()
}

impl HmacKey {
    ghost use Rattle.hash_keys.specs.Hashers.{IsHmacKey};

    /// That of a key of any length.
    pub fn new(h: Hash, key: &[u8]) -> HmacKey
        ensures of_key { IsHmacKey result h key.now }
    {
        let size = h.block_size();
        let block = key_block(h, key);
        let inner_pad = xor_byte(&block, INNER_PAD);
        let outer_pad = xor_byte(&block, OUTER_PAD);
        let mut inner = Hasher::new(h);
        inner.update(&inner_pad[..size]);
        let mut outer = Hasher::new(h);
        outer.update(&outer_pad[..size]);
        HmacKey {
            hash: h,
            inner,
            outer,
        }
    }

    // HMAC of the joined parts, as a prefix of the result, by the kept states themselves.
    pub(crate) fn finish(self, a: &[u8], b: &[u8], c: &[u8]) -> [u8; MAX_DIGEST]
        ensures { (h : Hash) (key : List ℕ) → IsHmacKey self h key
            → take (digest_size h) result ≡ hmac_of h key (a.now ++ b.now ++ c.now) }
    {
        let HmacKey {
            hash,
            mut inner,
            mut outer,
        } = self;
        inner.update(a);
        inner.update(b);
        inner.update(c);
        let digest = inner.finalize();
        outer.update(&digest[..hash.digest_size()]);
        outer.finalize()
    }

    // The same by copies of them.
    pub(crate) fn code_of(&self, a: &[u8], b: &[u8], c: &[u8]) -> [u8; MAX_DIGEST]
        ensures { (h : Hash) (key : List ℕ) → IsHmacKey self.now h key
            → take (digest_size h) result ≡ hmac_of h key (a.now ++ b.now ++ c.now) }
    {
        let copy = HmacKey {
            hash: self.hash,
            inner: copy_of(&self.inner),
            outer: copy_of(&self.outer),
        };
        copy.finish(a, b, c)
    }

    /// Fills `out`, of at most a digest's bytes, with a prefix of HMAC under the key. The text is `a`, `b` and `c`
    /// joined.
    pub fn tag_into(&self, a: &[u8], b: &[u8], c: &[u8], out: &mut [u8])
        requires { length out.old ≤ digest_size self.now.hash }
        ensures written { (h : Hash) (key : List ℕ) → IsHmacKey self.now h key
            → out.new ≡ take (length out.old) (hmac_of h key (a.now ++ b.now ++ c.now)) }
    {
        let code = self.code_of(a, b, c);
        out.copy_from_slice(&code[..out.len()]);
    }
}

impl Clone for HmacKey {
    ghost is_clone = { λ x y. y ≡ x };

    ghost is_infallible = { λ _. ⊤ };

    fn clone(&self) -> Result<HmacKey, AllocError> {
        Ok(HmacKey {
            hash: self.hash,
            inner: copy_of(&self.inner),
            outer: copy_of(&self.outer),
        })
    }
}

/// Fills `out`, of at most a digest's bytes, with a prefix of HMAC (4) under `key`. The text is `a`, `b` and `c`
/// joined.
///
/// Each part goes to the hash as it is, so that no part is copied.
pub fn hmac_into(h: Hash, key: &[u8], a: &[u8], b: &[u8], c: &[u8], out: &mut [u8])
    requires { length out.old ≤ digest_size h }
    ensures written { out.new ≡ take (length out.old) (hmac_of h key.now (a.now ++ b.now ++ c.now)) }
{
    let code = HmacKey::new(h, key).finish(a, b, c);
    out.copy_from_slice(&code[..out.len()]);
}
