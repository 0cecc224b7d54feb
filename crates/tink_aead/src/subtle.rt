//! The AEADs by AES under one key.

pub use tink_aead_subtle::{
    AES_BLOCK_SIZE_IN_BYTES, AES_CTR_MIN_IV_SIZE, AES_GCM_IV_SIZE, AES_GCM_SIV_NONCE_SIZE,
    AES_GCM_SIV_TAG_SIZE, AES_GCM_TAG_SIZE, AesCtr, AesGcm, AesGcmSiv, EncryptThenAuthenticate,
    IndCpaCipher, validate_aes_key_size,
};
