//! AEADs: their keys, templates and manager, and the AEADs of a keyset as one.

pub use tink_aead::{
    AES_CTR_HMAC_AEAD_KEY_VERSION, AES_CTR_HMAC_AEAD_TYPE_URL, AES_GCM_KEY_VERSION,
    AES_GCM_SIV_KEY_VERSION, AES_GCM_SIV_TYPE_URL, AES_GCM_TYPE_URL, AeadKind, AeadKinds,
    AesCtrHmacAeadKeyManager, AesCtrHmacAeadKeys, AesGcmKeyManager, AesGcmKeys,
    AesGcmSivKeyManager, AesGcmSivKeys, KMS_ENVELOPE_AEAD_KEY_VERSION, KMS_ENVELOPE_AEAD_TYPE_URL,
    KmsEnvelopeAead, UPSTREAM_VERSION, WrappedAead, aes128_ctr_hmac_sha256_key_template,
    aes128_gcm_key_template, aes128_gcm_siv_key_template, aes256_ctr_hmac_sha256_key_template,
    aes256_ctr_hmac_sha512_key_template, aes256_gcm_key_template,
    aes256_gcm_no_prefix_key_template, aes256_gcm_siv_key_template,
    aes256_gcm_siv_no_prefix_key_template, init, kms_envelope_aead_key_template, law_aes_ctr,
    law_aes_ctr_hmac, law_aes_ctr_then_mac, law_aes_gcm, law_aes_gcm_siv,
    law_built_aeads_are_sound, law_ciphertexts_outlive_commands, law_envelopes_open,
    law_old_ciphertexts_open, new, subtle,
};
