//! Segments of either kind.

ghost use Rattle.std.specs.Prelude.{◌≡◌};

use crate::ctr_hmac_segment::CtrHmacSegment;
use crate::gcm_segment::GcmSegment;
use tink_io::TinkError;
use tink_streaming_segment::{SegmentDecrypter, SegmentEncrypter};

/// Segments by one of the two ciphers, as a stream's key says.
///
/// A contract sees the case, with what it sees of the cipher in it.
#[derive(Drop)]
pub enum StreamSegment {
    /// AES in counter mode with HMAC.
    CtrHmac(CtrHmacSegment),
    /// AES-GCM.
    Gcm(GcmSegment),
}

impl SegmentEncrypter for StreamSegment {
    ghost use Rattle.tink_streaming_ciphers.specs.StreamSegments.{length-segment_by, nonce_length_by, overhead_by, segment_by, segment_by_same};

    ghost seg = { segment_by };

    ghost overhead_of = { overhead_by };

    ghost nonce_length = { nonce_length_by };

    ghost longer = { length-segment_by };

    ghost one_text = { segment_by_same };

    fn overhead(&self) -> usize {
        match self {
            StreamSegment::CtrHmac(cipher) => SegmentEncrypter::overhead(cipher),
            StreamSegment::Gcm(cipher) => SegmentEncrypter::overhead(cipher),
        }
    }

    fn encrypt_segment_in_place(&self, segment: &mut [u8], nonce: &[u8]) {
        match self {
            StreamSegment::CtrHmac(cipher) => cipher.encrypt_segment_in_place(segment, nonce),
            StreamSegment::Gcm(cipher) => cipher.encrypt_segment_in_place(segment, nonce),
        }
    }
}

impl SegmentDecrypter for StreamSegment {
    ghost use Rattle.tink_streaming_ciphers.specs.StreamSegments.{length-segment_by, nonce_length_by, overhead_by, segment_by, segment_by_same};

    ghost seg = { segment_by };

    ghost overhead_of = { overhead_by };

    ghost nonce_length = { nonce_length_by };

    ghost longer = { length-segment_by };

    ghost one_text = { segment_by_same };

    fn overhead(&self) -> usize {
        match self {
            StreamSegment::CtrHmac(cipher) => SegmentDecrypter::overhead(cipher),
            StreamSegment::Gcm(cipher) => SegmentDecrypter::overhead(cipher),
        }
    }

    fn decrypt_segment_into(
        &self,
        segment: &[u8],
        nonce: &[u8],
        out: &mut [u8],
    ) -> Result<(), TinkError> {
        match self {
            StreamSegment::CtrHmac(cipher) => cipher.decrypt_segment_into(segment, nonce, out),
            StreamSegment::Gcm(cipher) => cipher.decrypt_segment_into(segment, nonce, out),
        }
    }
}
