//! A MAC by HMAC (FIPS 198-1).

ghost use Rattle.std.specs.Prelude.{◌≡◌, ◌↔◌, ◌≤◌, IsTrue, Ok};
ghost use Rattle.tink_core_subtle.specs.Hashes.{hash_named};
ghost use Rattle.tink_io.specs.Answering.{Answers, Tells};
ghost use Rattle.tink_mac.specs.Tags.{hmac_params, hmac_tag, hmac_tags, own_tag};
ghost use Rattle.tink_mac.specs.TagLaws.{own_tag_match};

use crate::subtle::compare_tags;
use std::alloc::Global;
use std::marker::Model;
use tink_core_subtle::get_hash_digest_size;
use tink_io::{Kind, TinkError};
use tink_prf_subtle::HmacPrf;
use tink_primitives::{CloneIn, Mac, Prf};
use tink_proto::{Bytes, HashType};

const MIN_KEY_SIZE_IN_BYTES: usize = 16;

const MIN_TAG_SIZE_IN_BYTES: usize = 10;

/// HMAC under a key, with tags of a size, which contracts see as the hash, the key and the size. A tag is the first
/// bytes of the HMAC of the message (FIPS 198-1): 10 to a digest. Exactly a message's own tag is accepted.
#[derive(Drop)]
pub struct Hmac {
    prf: HmacPrf,
    tag_size: usize,
}

impl Model for Hmac {
    ghost use Rattle.std.specs.Prelude.{◌≤◌};
    ghost use Rattle.hash_keys.specs.Hash.{digest_size};
    ghost use Rattle.tink_mac.specs.Tags.{HmacTags};

    ghost Value = { HmacTags };

    ghost view = { λ m. record { hmac = m.prf; tag_size = m.tag_size } };

    ghost invariant = { λ m. m.tag_size ≤ digest_size m.prf.hash };
}

impl Hmac {
    /// HMAC under a key, with tags of `tag_size` bytes.
    ///
    /// # Errors
    /// As `validate_hmac_params`. `OutOfMemory` may come in place of each.
    pub fn new(
        alloc: Global,
        hash: HashType,
        key: &[u8],
        tag_size: usize,
    ) -> Result<Hmac, TinkError>
        ensures { Answers result (hmac_tags (hash_named hash) key.now tag_size) }
    {
        match validate_hmac_params(hash, key.len(), tag_size) {
            Ok(()) => {
                let prf = HmacPrf::new(alloc, hash, key)?;
                Ok(Hmac { prf, tag_size })
            }
            Err(e) => Err(e),
        }
    }
}

/// Whether there is an HMAC with this hash, a key and tags of these sizes in bytes.
///
/// # Errors
/// `UnknownHash` exactly for the unknown hash. Then `BadTagSize` exactly if a tag has fewer than 10 bytes or more
/// than a digest. Then `BadKeySize` exactly if the key has fewer than 16 bytes.
pub fn validate_hmac_params(
    hash: HashType,
    key_size: usize,
    tag_size: usize,
) -> Result<(), TinkError>
    ensures { Tells result (hmac_params (hash_named hash) key_size tag_size) }
{
    let digest_size = get_hash_digest_size(hash)?;
    if tag_size < MIN_TAG_SIZE_IN_BYTES || tag_size > digest_size {
        return Err(TinkError::new(Kind::BadTagSize));
    }
    if key_size < MIN_KEY_SIZE_IN_BYTES {
        return Err(TinkError::new(Kind::BadKeySize));
    }
    Ok(())
}

impl CloneIn for Hmac {
    fn try_clone(&self, alloc: Global) -> Result<Self, TinkError> {
        Ok(Hmac {
            prf: self.prf.try_clone(alloc)?,
            tag_size: self.tag_size,
        })
    }

    fn try_prepared(&self, alloc: Global) -> Result<Self, TinkError> {
        Ok(Hmac {
            prf: self.prf.try_prepared(alloc)?,
            tag_size: self.tag_size,
        })
    }
}

impl Mac for Hmac {
    ghost computes = { λ m message. Ok (hmac_tag m message) };

    ghost verifies = { λ m tag message. own_tag (hmac_tag m message) tag };

    fn compute_mac(&self, alloc: Global, message: &[u8]) -> Result<Bytes, TinkError> {
        self.prf.compute_prf(alloc, message, self.tag_size)
    }

    fn verify_mac(&self, alloc: Global, mac: &[u8], message: &[u8]) -> Result<(), TinkError> {
        let own = self.prf.compute_prf(alloc, message, self.tag_size)?;
        compare_tags(own.as_slice(), mac)
    }

    ghost computes_told = { λ _ _. tt };

    ghost verifies_told = { λ m tag message. own_tag_match (hmac_tag m message) tag };
}
