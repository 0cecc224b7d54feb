//! Authenticated encryption with associated data by AES: GCM, GCM-SIV, counter mode with a MAC, envelopes over a remote
//! key, and the AEADs of a keyset as one.
#![tactic(auto)]

pub use aead_kind::{AeadKind, AeadKinds};
pub use aes_ctr_hmac_aead_key_manager::{
    AES_CTR_HMAC_AEAD_KEY_VERSION, AES_CTR_HMAC_AEAD_TYPE_URL, AesCtrHmacAeadKeyManager,
    AesCtrHmacAeadKeys,
};
pub use aes_gcm_key_manager::{
    AES_GCM_KEY_VERSION, AES_GCM_TYPE_URL, AesGcmKeyManager, AesGcmKeys,
};
pub use aes_gcm_siv_key_manager::{
    AES_GCM_SIV_KEY_VERSION, AES_GCM_SIV_TYPE_URL, AesGcmSivKeyManager, AesGcmSivKeys,
};
pub use factory::{WrappedAead, new};
pub use key_templates::{
    aes128_ctr_hmac_sha256_key_template, aes128_gcm_key_template, aes128_gcm_siv_key_template,
    aes256_ctr_hmac_sha256_key_template, aes256_ctr_hmac_sha512_key_template,
    aes256_gcm_key_template, aes256_gcm_no_prefix_key_template, aes256_gcm_siv_key_template,
    aes256_gcm_siv_no_prefix_key_template, kms_envelope_aead_key_template,
};
pub use kms_envelope_aead::{
    KMS_ENVELOPE_AEAD_KEY_VERSION, KMS_ENVELOPE_AEAD_TYPE_URL, KmsEnvelopeAead, law_envelopes_open,
};
pub use laws::{
    law_aes_ctr_hmac, law_built_aeads_are_sound, law_ciphertexts_outlive_commands,
    law_old_ciphertexts_open,
};
pub use registering::init;
pub use tink_aead_subtle::{law_aes_ctr, law_aes_ctr_then_mac, law_aes_gcm, law_aes_gcm_siv};
pub use tink_primitives::UPSTREAM_VERSION;

mod aead_kind;
mod aes_ctr_hmac_aead_key_manager;
mod aes_gcm_key_manager;
mod aes_gcm_siv_key_manager;
mod factory;
mod key_templates;
mod kms_envelope_aead;
mod laws;
mod registering;
pub mod subtle;
mod versioned_key;
