//! Streaming AEADs: their keys, templates and managers, writers and readers, and those of a keyset as one.

pub use tink_streaming_aead::{
    AES_CTR_HMAC_KEY_SIZE_IN_BYTES, AES_CTR_HMAC_KEY_VERSION,
    AES_CTR_HMAC_NONCE_PREFIX_SIZE_IN_BYTES, AES_CTR_HMAC_NONCE_SIZE_IN_BYTES,
    AES_CTR_HMAC_TYPE_URL, AES_GCM_HKDF_KEY_VERSION, AES_GCM_HKDF_NONCE_PREFIX_SIZE_IN_BYTES,
    AES_GCM_HKDF_NONCE_SIZE_IN_BYTES, AES_GCM_HKDF_TAG_SIZE_IN_BYTES, AES_GCM_HKDF_TYPE_URL,
    AesCtrHmacKeyManager, AesCtrHmacKeys, AesGcmHkdfKeyManager, AesGcmHkdfKeys, AesVariant, Begun,
    Buffers, CtrHmacSegment, DecryptReader, DerivesStreams, GcmSegment, Kept, Mode, Opener,
    Progress, Reader, ReaderParams, Sealer, SegmentDecrypter, SegmentEncrypter, SegmentReader,
    SegmentWriter, StreamKind, StreamKinds, StreamSegment, TextReader, Trial, UPSTREAM_VERSION,
    WrappedStreamingAead, Writer, WriterBuffers, WriterParams,
    aes128_ctr_hmac_sha256_segment_1mb_key_template,
    aes128_ctr_hmac_sha256_segment_4kb_key_template, aes128_gcm_hkdf_1mb_key_template,
    aes128_gcm_hkdf_4kb_key_template, aes256_ctr_hmac_sha256_segment_1mb_key_template,
    aes256_ctr_hmac_sha256_segment_4kb_key_template, aes256_gcm_hkdf_1mb_key_template,
    aes256_gcm_hkdf_4kb_key_template, begin_stream, choose, ctr_hmac_streaming_key,
    generate_segment_nonce, init, law_any_cutting, law_empty_buffer, law_first_read, law_for_good,
    law_full_segments, law_sealed_opens, law_whole_reading, law_whole_stream, law_whole_text, new,
    open_front, open_held, start, subtle, validate_aes_key_size,
};
