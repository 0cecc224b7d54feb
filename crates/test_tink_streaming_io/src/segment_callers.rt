//! The callers that the READMEs of `tink_streaming_segment` and `tink_streaming_ciphers` show.

ghost use Rattle.std.specs.Prelude.{◌≡◌, ◌<◌, ◌^◌, length, IfOk};
ghost use Rattle.stream_model.specs.Key.{gcm_segment};

use std::alloc::Global;
use tink_io::TinkError;
use tink_proto::Bytes;
use tink_streaming_ciphers::GcmSegment;
use tink_streaming_segment::SegmentEncrypter;

// The segment of a text by any cipher.
pub fn segment_by<E: SegmentEncrypter>(
    alloc: Global,
    cipher: &E,
    nonce: &[u8],
    text: &[u8],
) -> Result<Bytes, TinkError>
    requires nonce { length nonce.now ≡ E.nonce_length cipher.now }
    requires size { length text.now < 2 ^ 32 }
    ensures { IfOk result (λ segment. segment ≡ E.seg cipher.now nonce.now text.now) }
{
    cipher.encrypt_segment(alloc, text, nonce)
}

// The segment of a text by AES-GCM: the ciphertext and its tag.
pub fn segment_by_gcm(
    alloc: Global,
    key: &[u8; 16],
    nonce: &[u8; 12],
    text: &[u8],
) -> Result<Bytes, TinkError>
    requires { length text.now < 2 ^ 32 }
    ensures { IfOk result (λ segment. segment ≡ gcm_segment key.now nonce.now text.now) }
{
    GcmSegment::new(key).encrypt_segment(alloc, text, nonce)
}
