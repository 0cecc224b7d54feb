//! A pseudorandom function by HKDF (RFC 5869).

ghost use Rattle.std.specs.Prelude.{◌≡◌};
ghost use Rattle.tink_core_subtle.specs.Hashes.{hash_named};
ghost use Rattle.tink_io.specs.Answering.{Answers, Tells};
ghost use Rattle.tink_prf_subtle.specs.Hkdf.{hkdf_key, hkdf_output, hkdf_output_told, hkdf_params};

use hash_keys::{Hash, hkdf_into};
use std::alloc::Global;
use std::marker::Model;
use tink_core_subtle::get_hash_func;
use tink_io::{Kind, TinkError};
use tink_primitives::{CloneIn, Prf};
use tink_proto::{Bytes, HashType};

// Larger than the least size of other keys: a pseudorandom function may have many users.
const MIN_HKDF_KEY_SIZE_IN_BYTES: usize = 32;

/// HKDF (RFC 5869) with a hash, from a key and under a salt. A contract sees these three. An output is HKDF's with
/// the input as its info, at most 255 digests.
#[derive(Drop)]
pub struct HkdfPrf {
    hash: Hash,
    key: Bytes,
    salt: Bytes,
}

impl Model for HkdfPrf {
    ghost use Rattle.tink_prf_subtle.specs.Hkdf.{HkdfKey};

    ghost Value = { HkdfKey };

    ghost view = { λ prf. record { hash = prf.hash; key = prf.key; salt = prf.salt } };
}

impl HkdfPrf {
    /// HKDF from a key, the input key material, and under a salt, both of any length.
    ///
    /// # Errors
    /// `UnsupportedHash` exactly where the hash is not SHA-1, SHA-256 or SHA-512. `OutOfMemory` may come in its place.
    pub fn new(alloc: Global, hash: HashType, key: &[u8], salt: &[u8]) -> Result<HkdfPrf, TinkError>
        ensures { Answers result (hkdf_key (hash_named hash) key.now salt.now) }
    {
        let hash = match hash {
            HashType::Sha1 => Hash::Sha1,
            HashType::Sha256 => Hash::Sha256,
            HashType::Sha512 => Hash::Sha512,
            HashType::UnknownHash | HashType::Sha224 | HashType::Sha384 => {
                return Err(TinkError::new(Kind::UnsupportedHash));
            }
        };
        Ok(HkdfPrf {
            hash,
            key: Bytes::from_slice(alloc, key)?,
            salt: Bytes::from_slice(alloc, salt)?,
        })
    }
}

/// Whether Tink makes HKDF keys of this hash and this size in bytes, under any salt.
///
/// # Errors
/// `BadKeySize` exactly if the size is under 32. Then `UnknownHash` exactly for the unknown hash. Then
/// `UnsupportedHash` exactly if the hash is neither SHA-256 nor SHA-512.
pub fn validate_hkdf_prf_params(
    hash: HashType,
    key_size: usize,
    _salt: &[u8],
) -> Result<(), TinkError>
    ensures { Tells result (hkdf_params (hash_named hash) key_size) }
{
    if key_size < MIN_HKDF_KEY_SIZE_IN_BYTES {
        return Err(TinkError::new(Kind::BadKeySize));
    }
    match get_hash_func(hash) {
        None => Err(TinkError::new(Kind::UnknownHash)),
        Some(func) => match func.hash {
            Hash::Sha256 | Hash::Sha512 => Ok(()),
            _ => Err(TinkError::new(Kind::UnsupportedHash)),
        },
    }
}

impl CloneIn for HkdfPrf {
    fn try_clone(&self, alloc: Global) -> Result<Self, TinkError> {
        Ok(HkdfPrf {
            hash: self.hash,
            key: self.key.try_clone(alloc)?,
            salt: self.salt.try_clone(alloc)?,
        })
    }
}

impl Prf for HkdfPrf {
    ghost computes = { hkdf_output };

    fn compute_prf(
        &self,
        alloc: Global,
        input: &[u8],
        output_length: usize,
    ) -> Result<Bytes, TinkError> {
        if output_length > 255 * self.hash.digest_size() {
            return Err(TinkError::new(Kind::OutputTooLong));
        }
        let mut out = vec![in alloc; 0u8; output_length]?;
        let key = self.key.as_slice();
        let salt = self.salt.as_slice();
        match hkdf_into(self.hash, key, salt, input, &mut out) {
            Ok(()) => Ok(Bytes::from_vec(out)),
            Err(_) => unreachable!(),
        }
    }

    ghost computes_told = { hkdf_output_told };
}
