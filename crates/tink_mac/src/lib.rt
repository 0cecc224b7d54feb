//! Message authentication: HMAC, AES-CMAC, the MACs of a keyset as one, and tokens that they sign.
#![tactic(auto)]

pub use aes_cmac_key_manager::{AesCmacKeyManager, AesCmacKeys, CMAC_KEY_VERSION, CMAC_TYPE_URL};
pub use factory::{WrappedMac, new};
pub use hmac_key_manager::{
    HMAC_KEY_VERSION, HMAC_TYPE_URL, HmacKeyManager, HmacKeys, are_hmac_params, hmac_by_params,
};
pub use key_templates::{
    aes_cmac_tag128_key_template, hmac_sha256_tag128_key_template, hmac_sha256_tag256_key_template,
    hmac_sha512_tag256_key_template, hmac_sha512_tag512_key_template,
};
pub use laws::{
    law_built_macs_are_sound, law_macs_outlive_commands, law_old_macs_verify, law_own_tags_accepted,
};
pub use mac_kind::{MacKind, MacKinds};
pub use registering::init;
pub use tink_primitives::UPSTREAM_VERSION;

mod aes_cmac_key_manager;
mod factory;
mod hmac_key_manager;
mod key_templates;
mod laws;
mod mac_kind;
mod registering;
pub mod subtle;
pub mod tokens;
