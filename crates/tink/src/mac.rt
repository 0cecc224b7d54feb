//! MACs: their keys, templates and managers, and the MACs of a keyset as one.

pub use tink_mac::{
    AesCmacKeyManager, AesCmacKeys, CMAC_KEY_VERSION, CMAC_TYPE_URL, HMAC_KEY_VERSION,
    HMAC_TYPE_URL, HmacKeyManager, HmacKeys, MacKind, MacKinds, UPSTREAM_VERSION, WrappedMac,
    aes_cmac_tag128_key_template, are_hmac_params, hmac_by_params, hmac_sha256_tag128_key_template,
    hmac_sha256_tag256_key_template, hmac_sha512_tag256_key_template,
    hmac_sha512_tag512_key_template, init, law_built_macs_are_sound, law_macs_outlive_commands,
    law_old_macs_verify, law_own_tags_accepted, new, subtle,
};
