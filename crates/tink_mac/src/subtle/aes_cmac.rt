//! A MAC by CMAC (SP 800-38B) over AES (FIPS 197).

ghost use Rattle.std.specs.Prelude.{◌≡◌, ◌≤◌, Ok};
ghost use Rattle.tink_io.specs.Answering.{Answers, Tells};
ghost use Rattle.tink_mac.specs.Tags.{cmac_params, cmac_tag, cmac_tags, is_outside, own_tag};
ghost use Rattle.tink_mac.specs.TagLaws.{own_tag_match};

use crate::subtle::compare_tags;
use std::alloc::Global;
use std::marker::Model;
use tink_io::{Kind, TinkError};
use tink_prf_subtle::AesCmacPrf;
use tink_primitives::{CloneIn, Mac, Prf};
use tink_proto::Bytes;

const MIN_CMAC_KEY_SIZE_IN_BYTES: usize = 16;

const RECOMMENDED_CMAC_KEY_SIZE_IN_BYTES: usize = 32;

const MIN_TAG_LENGTH_IN_BYTES: usize = 10;

const MAX_TAG_LENGTH_IN_BYTES: usize = 16;

/// AES-CMAC under a key, with tags of a size, which contracts see as the key and the size. A tag is the first bytes of
/// the CMAC of the message (SP 800-38B, 6.2): 10 to 16. Exactly a message's own tag is accepted.
#[derive(Drop)]
pub struct AesCmac {
    prf: AesCmacPrf,
    tag_size: usize,
}

impl Model for AesCmac {
    ghost use Rattle.std.specs.Prelude.{◌≤◌};
    ghost use Rattle.tink_mac.specs.Tags.{CmacTags};

    ghost Value = { CmacTags };

    ghost view = { λ m. record { key = m.prf; tag_size = m.tag_size } };

    ghost invariant = { λ m. m.tag_size ≤ 16 };
}

impl AesCmac {
    /// AES-CMAC under a key, with tags of `tag_size` bytes.
    ///
    /// # Errors
    /// The first that applies: `BadKeySize` if the key has fewer than 16 bytes. Then `BadTagSize` if a tag has fewer
    /// than 10 bytes or more than 16. Then `BadKeySize` if the key has not 16, 24 or 32 bytes. `OutOfMemory` may come
    /// in place of each.
    pub fn new(alloc: Global, key: &[u8], tag_size: usize) -> Result<AesCmac, TinkError>
        ensures { Answers result (cmac_tags key.now tag_size) }
    {
        if key.len() < MIN_CMAC_KEY_SIZE_IN_BYTES {
            return Err(TinkError::new(Kind::BadKeySize));
        }
        if is_no_tag_size(tag_size) {
            return Err(TinkError::new(Kind::BadTagSize));
        }
        let prf = AesCmacPrf::new(alloc, key)?;
        Ok(AesCmac { prf, tag_size })
    }
}

fn is_no_tag_size(tag_size: usize) -> bool
    ensures { result ≡ is_outside 10 16 tag_size }
{
    tag_size < MIN_TAG_LENGTH_IN_BYTES || tag_size > MAX_TAG_LENGTH_IN_BYTES
}

/// Whether Tink makes AES-CMAC keys with a key and tags of these sizes in bytes.
///
/// # Errors
/// `BadKeySize` exactly where the key has not 32 bytes; then `BadTagSize` exactly where a tag has fewer than 10 bytes
/// or more than 16.
pub fn validate_cmac_params(key_size: usize, tag_size: usize) -> Result<(), TinkError>
    ensures { Tells result (cmac_params key_size tag_size) }
{
    if key_size != RECOMMENDED_CMAC_KEY_SIZE_IN_BYTES {
        return Err(TinkError::new(Kind::BadKeySize));
    }
    if is_no_tag_size(tag_size) {
        return Err(TinkError::new(Kind::BadTagSize));
    }
    Ok(())
}

impl CloneIn for AesCmac {
    fn try_clone(&self, alloc: Global) -> Result<Self, TinkError> {
        Ok(AesCmac {
            prf: self.prf.try_clone(alloc)?,
            tag_size: self.tag_size,
        })
    }

    fn try_prepared(&self, alloc: Global) -> Result<Self, TinkError> {
        Ok(AesCmac {
            prf: self.prf.try_prepared(alloc)?,
            tag_size: self.tag_size,
        })
    }
}

impl Mac for AesCmac {
    ghost computes = { λ m message. Ok (cmac_tag m message) };

    ghost verifies = { λ m tag message. own_tag (cmac_tag m message) tag };

    fn compute_mac(&self, alloc: Global, message: &[u8]) -> Result<Bytes, TinkError> {
        self.prf.compute_prf(alloc, message, self.tag_size)
    }

    fn verify_mac(&self, alloc: Global, mac: &[u8], message: &[u8]) -> Result<(), TinkError> {
        let own = self.prf.compute_prf(alloc, message, self.tag_size)?;
        compare_tags(own.as_slice(), mac)
    }

    ghost computes_told = { λ _ _. tt };

    ghost verifies_told = { λ m tag message. own_tag_match (cmac_tag m message) tag };
}
