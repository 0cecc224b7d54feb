//! Hashes, HMAC, HKDF and CMAC over whole texts, without memory.
//!
//! ```rust
//! use hash_keys::{hmac_into, Hash};
//!
//! let mut tag = [0u8; 16];
//! hmac_into(Hash::Sha256, key, nonce, text, &[], &mut tag);
//! ```
#![tactic(auto)]

ghost use Rattle.std.specs.Prelude.{◌≡◌, ◌≤◌, ◌<◌, ◌+◌, ◌*◌, ◌/◌, ◌-◌, ◌↔◌, length, take, codes, Some, IsOk, OnOk, OnErr};
ghost use Rattle.standards.specs.Hkdf.{expand};
ghost use Rattle.hash_keys.specs.Hash.{hash_of, block_size, digest_size, hkdf_of};

use crate::hmac::digest_of;
use std::error::Error;
use std::fmt;

mod cmac;
mod hasher;
mod hmac;
mod s2v;

pub use cmac::cmac_into;
pub use hmac::{HmacKey, hmac_into};
pub use s2v::s2v_into;

// The bytes of the largest digest and of the largest block.
const MAX_DIGEST: usize = 64;

const MAX_BLOCK: usize = 128;

/// A hash function by name (FIPS 180-4).
#[derive(Clone, Copy, Debug, PartialEq, Eq)]
pub enum Hash {
    /// SHA-1, which is broken as a cryptographic hash.
    Sha1,
    /// SHA-224.
    Sha224,
    /// SHA-256.
    Sha256,
    /// SHA-384.
    Sha384,
    /// SHA-512.
    Sha512,
}

impl Hash {
    /// The bytes of a digest, from 20 to 64.
    pub fn digest_size(self) -> usize
        ensures value { result ≡ digest_size self }
        ensures at_least { 20 ≤ result }
        ensures at_most { result ≤ 64 }
    {
        match self {
            Hash::Sha1 => 20,
            Hash::Sha224 => 28,
            Hash::Sha256 => 32,
            Hash::Sha384 => 48,
            Hash::Sha512 => 64,
        }
    }

    /// The bytes of a block, 64 or 128.
    pub fn block_size(self) -> usize
        ensures value { result ≡ block_size self }
        ensures at_most { result ≤ 128 }
        ensures holds_digest { digest_size self ≤ result }
    {
        match self {
            Hash::Sha1 | Hash::Sha224 | Hash::Sha256 => 64,
            Hash::Sha384 | Hash::Sha512 => 128,
        }
    }

    /// Fills `out`, of at most a digest's bytes, with a prefix of the digest of `message`.
    pub fn hash_into(self, message: &[u8], out: &mut [u8])
        requires { length out.old ≤ digest_size self }
        ensures written { out.new ≡ take (length out.old) (hash_of self message.now) }
    {
        let digest = digest_of(self, message);
        out.copy_from_slice(&digest[..out.len()]);
    }
}

/// More bytes were asked of HKDF than 255 digests have.
#[derive(Clone, Copy, Debug, PartialEq, Eq)]
pub struct OutputTooLong;

impl fmt::Display for OutputTooLong {
    ghost output = { λ _. Some (codes "more output was asked for than 255 digests") };

    fn fmt<W: fmt::Write>(&self, f: &mut fmt::Formatter<W>) -> fmt::Result {
        f.write_str("more output was asked for than 255 digests")
    }
}

impl Error for OutputTooLong {}

/// Fills `out` with a prefix of HKDF's output (RFC 5869) from the input key material `ikm`, under
/// `salt` and `info`.
///
/// # Errors
/// `OutputTooLong` exactly where `out` has more bytes than 255 digests; `out` is then as before.
pub fn hkdf_into(
    h: Hash,
    ikm: &[u8],
    salt: &[u8],
    info: &[u8],
    out: &mut [u8],
) -> Result<(), OutputTooLong>
    ensures succeeds { IsOk result ↔ (length out.old ≤ 255 * digest_size h) }
    ensures ok { OnOk result (out.new ≡ hkdf_of h ikm.now salt.now info.now (length out.old)) }
    ensures err { OnErr result (out.new ≡ out.old) }
{
    if out.len() > 255 * h.digest_size() {
        return Err(OutputTooLong);
    }
    let key = HmacKey::new(h, salt).finish(ikm, &[], &[]);
    expand_into(h, &key[..h.digest_size()], info, out);
    Ok(())
}

// T (1) ++ T (2) ++ .., as far as `out` goes (RFC 5869, section 2.3).
fn expand_into(h: Hash, key: &[u8], info: &[u8], out: &mut [u8])
    requires { length out.old ≤ 255 * digest_size h }
    ensures { out.new ≡ take (length out.old)
        (expand (hash_of h) (block_size h) key.now info.now ((length out.old + digest_size h - 1) / digest_size h)) }
{
    let size = h.digest_size();
    let kept = HmacKey::new(h, key);
    let mut last = [0u8; MAX_DIGEST];
    let mut have = 0;
    let mut done = 0;
    let mut number: u8 = 0;
    while done < out.len() {
        number += 1;
        let next = kept.code_of(&last[..have], info, &[number]);
        last = next;
        have = size;
        let n = (out.len() - done).min(size);
        out[done..done + n].copy_from_slice(&last[..n]);
        done += n;
    }
}
