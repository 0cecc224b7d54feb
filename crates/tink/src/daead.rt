//! Deterministic AEADs: their keys, template and manager, and the deterministic AEADs of a keyset as one.

pub use tink_daead::{
    AES_SIV_KEY_VERSION, AES_SIV_TYPE_URL, AesSivKeyManager, AesSivKeys, DaeadKinds,
    UPSTREAM_VERSION, WrappedDeterministicAead, aes_siv_key_template, init, law_aes_siv,
    law_built_daeads_are_sound, law_ciphertexts_outlive_commands, law_keysets_decrypt_exactly,
    law_old_ciphertexts_open, new, subtle,
};
