//! Keys of streams by AES-GCM.

ghost use Rattle.tink_core_subtle.specs.Hashes.{hash_named};
ghost use Rattle.tink_io.specs.Answering.{Answers, Tells};
ghost use Rattle.tink_streaming_keys.specs.StreamingKeys.{gcm_hkdf_key, gcm_hkdf_sizes};

use crate::stream_params::{SegmentParams, StreamParams, is_key_size, is_small};
use crate::streaming_key::StreamingKey;
use std::alloc::Global;
use tink_io::{Kind, TinkError};
use tink_proto::HashType;
use tink_streaming_ciphers::GcmSegment;

/// A key of streams whose segments are by AES-GCM (SP 800-38D). The AES key of a stream is derived
/// from the main key by HKDF (RFC 5869).
pub type AesGcmHkdf = StreamingKey<GcmSegment>;

impl StreamingKey<GcmSegment> {
    /// A key from whose `main_key` an AES key of `key_size` bytes is derived for each stream, by
    /// HKDF with `hkdf_alg`. Segments have `ciphertext_segment_size` bytes, and the last 16 of these are a
    /// tag. The first segment is shorter by `first_segment_offset` and by the header, which has `key_size` +
    /// 8 bytes. A hash of HKDF that is unknown, or SHA-224, is refused where keys are derived.
    ///
    /// # Errors
    /// The first that applies: `BadKeySize` if the main key has fewer than 16 bytes or fewer than `key_size`,
    /// or `key_size` is not 16 or 32. Then `SegmentTooSmall` exactly if the segment size is at most the sum
    /// of offset, header and tag. `OutOfMemory` may come in place of each.
    pub fn new(
        alloc: Global,
        main_key: &[u8],
        hkdf_alg: HashType,
        key_size: usize,
        ciphertext_segment_size: u32,
        first_segment_offset: u32,
    ) -> Result<AesGcmHkdf, TinkError>
        ensures { Answers result (gcm_hkdf_key main_key.now (hash_named hkdf_alg) key_size ciphertext_segment_size
            first_segment_offset) }
    {
        match gcm_hkdf_params(
            main_key.len(),
            hkdf_alg,
            key_size,
            ciphertext_segment_size,
            first_segment_offset,
        ) {
            Ok(params) => StreamingKey::with_main(alloc, main_key, params),
            Err(e) => Err(e),
        }
    }
}

// The hashes and sizes of a key whose main key has so many bytes.
#[tactic(auto, using(std::proofs::lemmas::Bool::Decides::nat_tests))]
fn gcm_hkdf_params(
    main: usize,
    hkdf_alg: HashType,
    derived: usize,
    segment: u32,
    offset: u32,
) -> Result<StreamParams, TinkError>
    ensures { Tells result (gcm_hkdf_sizes main (hash_named hkdf_alg) derived segment offset) }
{
    if !is_key_size(main, derived) {
        return Err(TinkError::new(Kind::BadKeySize));
    }
    let cipher = SegmentParams::Gcm;
    if is_small(derived, cipher, segment, offset) {
        return Err(TinkError::new(Kind::SegmentTooSmall));
    }
    Ok(StreamParams::new(hkdf_alg, derived, cipher, segment, offset))
}
