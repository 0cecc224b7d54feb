//! Keys of streams in counter mode with HMAC.

ghost use Rattle.tink_core_subtle.specs.Hashes.{hash_named};
ghost use Rattle.tink_io.specs.Answering.{Answers, Tells};
ghost use Rattle.tink_streaming_keys.specs.StreamingKeys.{ctr_hmac_key, ctr_hmac_sizes};

use crate::stream_params::{SegmentParams, StreamParams, is_key_size, is_small};
use crate::streaming_key::StreamingKey;
use std::alloc::Global;
use tink_core_subtle::get_hash_func;
use tink_io::{Kind, TinkError};
use tink_proto::HashType;
use tink_streaming_ciphers::CtrHmacSegment;

// The fewest bytes of a tag.
const MIN_TAG_SIZE: usize = 10;

/// A key of streams whose segments are in AES counter mode (SP 800-38A, section 6.5). Behind each are the
/// first bytes of an HMAC (FIPS 198-1). The AES key and the HMAC key of a stream are derived from the main
/// key by HKDF (RFC 5869).
pub type AesCtrHmac = StreamingKey<CtrHmacSegment>;

impl StreamingKey<CtrHmacSegment> {
    /// A key from whose `main_key` HKDF with `hkdf_alg` derives an AES key of `key_size` bytes and an HMAC
    /// key of 32 for each stream. Tags have `tag_size` bytes of HMAC with `tag_alg`, and segments
    /// `ciphertext_segment_size`. The first segment is shorter by `first_segment_offset` and by the header,
    /// which has `key_size` + 8 bytes. A hash of HKDF that is unknown, or SHA-224, is refused where keys are
    /// derived.
    ///
    /// # Errors
    /// The first that applies:
    /// - `BadKeySize` if the main key has fewer than 16 bytes or fewer than `key_size`, or `key_size` is not
    ///   16 or 32;
    /// - `BadTagSize` under 10 bytes;
    /// - `UnknownHash` for an unknown `tag_alg`;
    /// - `BadTagSize` above its digest;
    /// - `SegmentTooSmall` exactly if the segment size is at most the sum of offset, header and tag.
    ///
    /// `OutOfMemory` may come in place of each.
    pub fn new(
        alloc: Global,
        main_key: &[u8],
        hkdf_alg: HashType,
        key_size: usize,
        tag_alg: HashType,
        tag_size: usize,
        ciphertext_segment_size: u32,
        first_segment_offset: u32,
    ) -> Result<AesCtrHmac, TinkError>
        ensures { Answers result (ctr_hmac_key main_key.now (hash_named hkdf_alg) key_size
            (hash_named tag_alg) tag_size ciphertext_segment_size first_segment_offset) }
    {
        match ctr_hmac_params(
            main_key.len(),
            hkdf_alg,
            key_size,
            tag_alg,
            tag_size,
            ciphertext_segment_size,
            first_segment_offset,
        ) {
            Ok(params) => StreamingKey::with_main(alloc, main_key, params),
            Err(e) => Err(e),
        }
    }
}

// The hashes and sizes of a key whose main key has so many bytes.
#[tactic(auto, using(std::proofs::lemmas::Bool::Decides::nat_tests))]
fn ctr_hmac_params(
    main: usize,
    hkdf_alg: HashType,
    derived: usize,
    tag_alg: HashType,
    tag: usize,
    segment: u32,
    offset: u32,
) -> Result<StreamParams, TinkError>
    ensures { Tells result (ctr_hmac_sizes main (hash_named hkdf_alg) derived (hash_named tag_alg) tag segment offset) }
{
    if !is_key_size(main, derived) {
        return Err(TinkError::new(Kind::BadKeySize));
    }
    if tag < MIN_TAG_SIZE {
        return Err(TinkError::new(Kind::BadTagSize));
    }
    let Some(func) = get_hash_func(tag_alg) else {
        return Err(TinkError::new(Kind::UnknownHash));
    };
    if tag > func.hash.digest_size() {
        return Err(TinkError::new(Kind::BadTagSize));
    }
    let cipher = SegmentParams::CtrHmac(func.hash, tag);
    if is_small(derived, cipher, segment, offset) {
        return Err(TinkError::new(Kind::SegmentTooSmall));
    }
    Ok(StreamParams::new(hkdf_alg, derived, cipher, segment, offset))
}
