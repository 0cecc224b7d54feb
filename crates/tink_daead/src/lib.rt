//! Deterministic authenticated encryption with associated data by AES-SIV, and the deterministic AEADs of a keyset as
//! one.
#![tactic(auto)]

pub use aes_siv_key_manager::{
    AES_SIV_KEY_VERSION, AES_SIV_TYPE_URL, AesSivKeyManager, AesSivKeys,
};
pub use daead_kinds::DaeadKinds;
pub use factory::{WrappedDeterministicAead, new};
pub use key_templates::aes_siv_key_template;
pub use laws::{
    law_built_daeads_are_sound, law_ciphertexts_outlive_commands, law_keysets_decrypt_exactly,
    law_old_ciphertexts_open,
};
pub use registering::init;
pub use subtle::law_aes_siv;
pub use tink_primitives::UPSTREAM_VERSION;

mod aes_siv_key_manager;
mod daead_kinds;
mod factory;
mod key_templates;
mod laws;
mod registering;
pub mod subtle;
