//! The keys of streams, and what streams are made of.

pub mod noncebased;

pub use tink_streaming_ciphers::{
    AES_CTR_HMAC_KEY_SIZE_IN_BYTES, AES_CTR_HMAC_NONCE_PREFIX_SIZE_IN_BYTES,
    AES_CTR_HMAC_NONCE_SIZE_IN_BYTES, AES_GCM_HKDF_NONCE_PREFIX_SIZE_IN_BYTES,
    AES_GCM_HKDF_NONCE_SIZE_IN_BYTES, AES_GCM_HKDF_TAG_SIZE_IN_BYTES, AesVariant,
    validate_aes_key_size,
};
pub use tink_streaming_keys::{AesCtrHmac, AesGcmHkdf};
