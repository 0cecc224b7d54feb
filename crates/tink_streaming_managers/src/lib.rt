//! The types of keys of streams: their managers, their templates, and what registers these.
#![tactic(auto)]

pub use aes_ctr_hmac_key_manager::{
    AES_CTR_HMAC_KEY_VERSION, AES_CTR_HMAC_TYPE_URL, AesCtrHmacKeyManager, AesCtrHmacKeys,
    ctr_hmac_streaming_key,
};
pub use aes_gcm_hkdf_key_manager::{
    AES_GCM_HKDF_KEY_VERSION, AES_GCM_HKDF_TYPE_URL, AesGcmHkdfKeyManager, AesGcmHkdfKeys,
};
pub use key_templates::{
    aes128_ctr_hmac_sha256_segment_1mb_key_template,
    aes128_ctr_hmac_sha256_segment_4kb_key_template, aes128_gcm_hkdf_1mb_key_template,
    aes128_gcm_hkdf_4kb_key_template, aes256_ctr_hmac_sha256_segment_1mb_key_template,
    aes256_ctr_hmac_sha256_segment_4kb_key_template, aes256_gcm_hkdf_1mb_key_template,
    aes256_gcm_hkdf_4kb_key_template,
};
pub use registering::init;

mod aes_ctr_hmac_key_manager;
mod aes_gcm_hkdf_key_manager;
mod key_sizes;
mod key_templates;
mod registering;
