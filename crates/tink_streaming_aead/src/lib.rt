//! Keys of streams that are sealed and opened segment by segment, and the streaming AEADs of keysets.
#![tactic(auto)]

pub use decrypt_reader::DecryptReader;
pub use factory::{WrappedStreamingAead, entries_of, new, room_of};
pub use laws::{
    law_candidates, law_first_read, law_keyset_order, law_one_key, law_sealed_opens,
    law_whole_reading, law_whole_stream,
};
pub use tink_primitives::UPSTREAM_VERSION;
pub use tink_streaming_ciphers::{
    AES_CTR_HMAC_KEY_SIZE_IN_BYTES, AES_CTR_HMAC_NONCE_PREFIX_SIZE_IN_BYTES,
    AES_CTR_HMAC_NONCE_SIZE_IN_BYTES, AES_GCM_HKDF_NONCE_PREFIX_SIZE_IN_BYTES,
    AES_GCM_HKDF_NONCE_SIZE_IN_BYTES, AES_GCM_HKDF_TAG_SIZE_IN_BYTES, AesVariant, CtrHmacSegment,
    GcmSegment, StreamSegment, validate_aes_key_size,
};
pub use tink_streaming_io::{
    Begun, Buffers, Kept, Mode, Opener, Progress, Reader, ReaderParams, Sealer, SegmentReader,
    SegmentWriter, TextReader, Writer, WriterBuffers, WriterParams, law_any_cutting,
    law_empty_buffer, law_for_good, law_full_segments, law_whole_text, open_front, open_held,
};
pub use tink_streaming_keys::{
    DerivesStreams, StreamEncrypter, StreamKind, StreamKinds, Trial, begin_stream, choose, start,
};
pub use tink_streaming_managers::{
    AES_CTR_HMAC_KEY_VERSION, AES_CTR_HMAC_TYPE_URL, AES_GCM_HKDF_KEY_VERSION,
    AES_GCM_HKDF_TYPE_URL, AesCtrHmacKeyManager, AesCtrHmacKeys, AesGcmHkdfKeyManager,
    AesGcmHkdfKeys, aes128_ctr_hmac_sha256_segment_1mb_key_template,
    aes128_ctr_hmac_sha256_segment_4kb_key_template, aes128_gcm_hkdf_1mb_key_template,
    aes128_gcm_hkdf_4kb_key_template, aes256_ctr_hmac_sha256_segment_1mb_key_template,
    aes256_ctr_hmac_sha256_segment_4kb_key_template, aes256_gcm_hkdf_1mb_key_template,
    aes256_gcm_hkdf_4kb_key_template, ctr_hmac_streaming_key, init,
};
pub use tink_streaming_segment::{SegmentDecrypter, SegmentEncrypter, generate_segment_nonce};

mod decrypt_reader;
mod factory;
mod laws;
pub mod subtle;
