//! Pseudorandom functions over AES-CMAC, HKDF and HMAC, their keys, and those of a keyset.
#![tactic(auto)]

mod aes_cmac_prf_key_manager;
mod hkdf_prf_key_manager;
mod hmac_prf_key_manager;
mod key_templates;
mod prf_kind;
mod registering;
mod set_factory;
pub mod subtle;

pub use aes_cmac_prf_key_manager::{
    AES_CMAC_PRF_KEY_VERSION, AES_CMAC_PRF_TYPE_URL, AesCmacPrfKeyManager, AesCmacPrfKeys,
};
pub use hkdf_prf_key_manager::{
    HKDF_PRF_KEY_VERSION, HKDF_PRF_TYPE_URL, HkdfPrfKeyManager, HkdfPrfKeys,
};
pub use hmac_prf_key_manager::{
    HMAC_PRF_KEY_VERSION, HMAC_PRF_TYPE_URL, HmacPrfKeyManager, HmacPrfKeys,
};
pub use key_templates::{
    aes_cmac_prf_key_template, hkdf_sha256_prf_key_template, hmac_sha256_prf_key_template,
    hmac_sha512_prf_key_template,
};
pub use prf_kind::{PrfKind, PrfKinds};
pub use registering::init;
pub use set_factory::Set;
pub use tink_primitives::UPSTREAM_VERSION;
