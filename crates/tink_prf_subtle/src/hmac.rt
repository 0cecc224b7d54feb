//! A pseudorandom function by HMAC (FIPS 198-1).

ghost use Rattle.std.specs.Prelude.{◌≡◌, ⊤, MatchOption};
ghost use Rattle.hash_keys.specs.Hashers.{IsHmacKey};
ghost use Rattle.tink_core_subtle.specs.Hashes.{hash_named};
ghost use Rattle.tink_io.specs.Answering.{Answers, Tells};
ghost use Rattle.tink_prf_subtle.specs.Hmac.{hmac_key, hmac_output, hmac_output_told, hmac_params};

use hash_keys::{Hash, HmacKey, hmac_into};
use std::alloc::Global;
use std::marker::Model;
use tink_core_subtle::get_hash_func;
use tink_io::{Kind, TinkError};
use tink_primitives::{CloneIn, Prf};
use tink_proto::{Bytes, HashType};

const MIN_HMAC_KEY_SIZE_IN_BYTES: usize = 16;

/// HMAC (FIPS 198-1) with a hash under a key. A contract sees these two. An output is the first bytes of the HMAC
/// of the input, at most a digest. A prepared one keeps the states of the hash after the key's two blocks. Any other
/// hashes these blocks in each call.
#[derive(Drop)]
pub struct HmacPrf {
    hash: Hash,
    key: Bytes,
    // Of that key under the hash. It has some 450 bytes: on the heap, so that a primitive of any sort is small.
    kept: Option<Box<HmacKey>>,
}

impl Model for HmacPrf {
    ghost use Rattle.std.specs.Prelude.{⊤, MatchOption};
    ghost use Rattle.hash_keys.specs.Hashers.{IsHmacKey};
    ghost use Rattle.tink_prf_subtle.specs.Hmac.{HmacKey};

    ghost Value = { HmacKey };

    ghost view = { λ prf. record { hash = prf.hash; key = prf.key } };

    ghost invariant = { λ prf. MatchOption prf.kept ⊤ (λ mac. IsHmacKey mac.value prf.hash prf.key) };
}

impl HmacPrf {
    /// HMAC under a key of any length.
    ///
    /// # Errors
    /// `UnknownHash` exactly for the unknown hash. `OutOfMemory` may come in its place.
    pub fn new(alloc: Global, hash: HashType, key: &[u8]) -> Result<HmacPrf, TinkError>
        ensures { Answers result (hmac_key (hash_named hash) key.now) }
    {
        let Some(func) = get_hash_func(hash) else {
            return Err(TinkError::new(Kind::UnknownHash));
        };
        Ok(HmacPrf {
            hash: func.hash,
            key: Bytes::from_slice(alloc, key)?,
            kept: None,
        })
    }
}

// The states of a key under a hash on the heap, if there is memory.
fn kept_of(alloc: Global, hash: Hash, key: &[u8]) -> Option<Box<HmacKey>>
    ensures { MatchOption result ⊤ (λ mac. IsHmacKey mac.value hash key.now) }
{
    match Box::new(alloc, HmacKey::new(hash, key)) {
        Ok(mac) => Some(mac),
        Err(_) => None,
    }
}

/// Whether Tink makes HMAC keys for a pseudorandom function of this hash and this size in bytes.
///
/// # Errors
/// `BadKeySize` exactly where the size is under 16; then `UnknownHash` exactly for the unknown hash.
pub fn validate_hmac_prf_params(hash: HashType, key_size: usize) -> Result<(), TinkError>
    ensures { Tells result (hmac_params (hash_named hash) key_size) }
{
    if key_size < MIN_HMAC_KEY_SIZE_IN_BYTES {
        return Err(TinkError::new(Kind::BadKeySize));
    }
    match get_hash_func(hash) {
        Some(_) => Ok(()),
        None => Err(TinkError::new(Kind::UnknownHash)),
    }
}

impl CloneIn for HmacPrf {
    // The copy holds its hash and its key alone.
    fn try_clone(&self, alloc: Global) -> Result<Self, TinkError> {
        Ok(HmacPrf {
            hash: self.hash,
            key: self.key.try_clone(alloc)?,
            kept: None,
        })
    }

    // Where there is no memory for the states, the copy works without them.
    fn try_prepared(&self, alloc: Global) -> Result<Self, TinkError> {
        let key = self.key.try_clone(alloc)?;
        let kept = kept_of(alloc, self.hash, key.as_slice());
        Ok(HmacPrf {
            hash: self.hash,
            key,
            kept,
        })
    }
}

impl Prf for HmacPrf {
    ghost computes = { hmac_output };

    fn compute_prf(
        &self,
        alloc: Global,
        input: &[u8],
        output_length: usize,
    ) -> Result<Bytes, TinkError> {
        if output_length > self.hash.digest_size() {
            return Err(TinkError::new(Kind::OutputTooLong));
        }
        let mut out = vec![in alloc; 0u8; output_length]?;
        match &self.kept {
            Some(mac) => mac.tag_into(input, &[], &[], &mut out),
            None => hmac_into(self.hash, self.key.as_slice(), input, &[], &[], &mut out),
        }
        Ok(Bytes::from_vec(out))
    }

    ghost computes_told = { hmac_output_told };
}
