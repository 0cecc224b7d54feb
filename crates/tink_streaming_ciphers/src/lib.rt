//! The segments of streams by AES in counter mode with HMAC, and by AES-GCM.
#![tactic(auto)]

mod aes_variant;
mod ctr_hmac_segment;
mod gcm_segment;
mod segment_cipher;
mod stream_segment;

pub use aes_variant::{AesVariant, validate_aes_key_size};
pub use ctr_hmac_segment::{
    AES_CTR_HMAC_KEY_SIZE_IN_BYTES, AES_CTR_HMAC_NONCE_PREFIX_SIZE_IN_BYTES,
    AES_CTR_HMAC_NONCE_SIZE_IN_BYTES, CtrHmacSegment,
};
pub use gcm_segment::{
    AES_GCM_HKDF_NONCE_PREFIX_SIZE_IN_BYTES, AES_GCM_HKDF_NONCE_SIZE_IN_BYTES,
    AES_GCM_HKDF_TAG_SIZE_IN_BYTES, GcmSegment,
};
pub use stream_segment::StreamSegment;
