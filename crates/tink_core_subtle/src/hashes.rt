//! Hashes and key derivation by the types of hashes.

ghost use Rattle.std.specs.Prelude.{◌≡◌, ◌↔◌, ◌<◌, ◌*◌, Ok, IsTrue, length, option_map};
ghost use Rattle.hash_keys.specs.Hash.{digest_size, hash_of};
ghost use Rattle.tink_io.specs.Answering.{Answers, Tells};
ghost use Rattle.tink_core_subtle.specs.Hashes.{derived, hash_named, is_sha224, size_told};

use hash_keys::{Hash, hkdf_into};
use std::alloc::Global;
use tink_io::{Kind, TinkError};
use tink_proto::{Bytes, HashType};

// The fewest bytes that are derived.
const MIN_TAG_SIZE: usize = 10;

/// A hash by its name.
#[derive(Clone, Copy, Debug, PartialEq, Eq)]
pub struct HashFunc {
    /// Which hash it is.
    pub hash: Hash,
}

fn hash_named(hash: HashType) -> Option<Hash>
    ensures { result ≡ hash_named hash }
{
    match hash {
        HashType::UnknownHash => None,
        HashType::Sha1 => Some(Hash::Sha1),
        HashType::Sha224 => Some(Hash::Sha224),
        HashType::Sha256 => Some(Hash::Sha256),
        HashType::Sha384 => Some(Hash::Sha384),
        HashType::Sha512 => Some(Hash::Sha512),
    }
}

/// The bytes of a digest (FIPS 180-4).
///
/// # Errors
/// `UnknownHash` exactly for the unknown hash.
pub fn get_hash_digest_size(hash: HashType) -> Result<usize, TinkError>
    ensures { Tells result (size_told (hash_named hash)) }
{
    match hash_named(hash) {
        Some(hash) => Ok(hash.digest_size()),
        None => Err(TinkError::new(Kind::UnknownHash)),
    }
}

/// The hash of a type, or none for the unknown hash.
pub fn get_hash_func(hash: HashType) -> Option<HashFunc>
    ensures { result ≡ option_map (λ h. record { hash = h }) (hash_named hash) }
{
    match hash_named(hash) {
        Some(hash) => Some(HashFunc { hash }),
        None => None,
    }
}

/// The digest of a message.
///
/// # Errors
/// `OutOfMemory` alone.
pub fn compute_hash(alloc: Global, hash_func: &HashFunc, message: &[u8]) -> Result<Bytes, TinkError>
    ensures { Answers result (Ok (hash_of hash_func.now.hash message.now)) }
{
    let hash = hash_func.hash;
    let mut digest = vec![in alloc; 0u8; hash.digest_size()]?;
    hash.hash_into(message, &mut digest);
    Ok(Bytes::from_vec(digest))
}

/// HKDF (RFC 5869) of a key, under a salt and an info: `tag_size` bytes.
///
/// # Errors
/// The first that applies: `UnknownHash`; `OutputTooLong` above 255 digests; `TagTooSmall` under 10 bytes;
/// `UnsupportedHash` for SHA-224. `OutOfMemory` may come in place of each.
pub fn compute_hkdf(
    alloc: Global,
    hash: HashType,
    key: &[u8],
    salt: &[u8],
    info: &[u8],
    tag_size: usize,
) -> Result<Bytes, TinkError>
    ensures { Answers result (derived (hash_named hash) key.now salt.now info.now tag_size) }
{
    let Some(hash) = hash_named(hash) else {
        return Err(TinkError::new(Kind::UnknownHash));
    };
    if tag_size > 255 * hash.digest_size() {
        return Err(TinkError::new(Kind::OutputTooLong));
    }
    if tag_size < MIN_TAG_SIZE {
        return Err(TinkError::new(Kind::TagTooSmall));
    }
    if is_sha224(hash) {
        return Err(TinkError::new(Kind::UnsupportedHash));
    }
    let mut out = vec![in alloc; 0u8; tag_size]?;
    match hkdf_into(hash, key, salt, info, &mut out) {
        Ok(()) => Ok(Bytes::from_vec(out)),
        Err(_) => unreachable!(),
    }
}

fn is_sha224(hash: Hash) -> bool
    ensures { result ≡ is_sha224 hash }
{
    match hash {
        Hash::Sha224 => true,
        _ => false,
    }
}

/// Whether these are the same bytes. Lists of one length are compared to their end.
pub fn constant_time_compare(a: &[u8], b: &[u8]) -> bool
    ensures { IsTrue result ↔ (a.now ≡ b.now) }
{
    if a.len() != b.len() {
        return false;
    }
    let mut differ = false;
    for i in 0..a.len() {
        differ |= a[i] != b[i];
    }
    !differ
}
