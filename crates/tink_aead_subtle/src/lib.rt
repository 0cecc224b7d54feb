//! The AEADs by AES under one key: GCM, GCM-SIV, and counter mode with a MAC.
#![tactic(auto)]

pub use aes_ctr::{AES_BLOCK_SIZE_IN_BYTES, AES_CTR_MIN_IV_SIZE, AesCtr};
pub use aes_gcm::{AES_GCM_IV_SIZE, AES_GCM_TAG_SIZE, AesGcm};
pub use aes_gcm_siv::{AES_GCM_SIV_NONCE_SIZE, AES_GCM_SIV_TAG_SIZE, AesGcmSiv};
pub use aes_key::validate_aes_key_size;
pub use encrypt_then_authenticate::EncryptThenAuthenticate;
pub use ind_cpa::IndCpaCipher;
pub use laws::{law_aes_ctr, law_aes_ctr_then_mac, law_aes_gcm, law_aes_gcm_siv};

mod aes_ctr;
mod aes_gcm;
mod aes_gcm_siv;
mod aes_key;
mod encrypt_then_authenticate;
mod gcm_key;
mod ind_cpa;
mod laws;
mod nonce_aead;
