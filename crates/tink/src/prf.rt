//! Pseudorandom functions: their keys, templates and managers, and those of a keyset.

pub use tink_prf::{
    AES_CMAC_PRF_KEY_VERSION, AES_CMAC_PRF_TYPE_URL, AesCmacPrfKeyManager, AesCmacPrfKeys,
    HKDF_PRF_KEY_VERSION, HKDF_PRF_TYPE_URL, HMAC_PRF_KEY_VERSION, HMAC_PRF_TYPE_URL,
    HkdfPrfKeyManager, HkdfPrfKeys, HmacPrfKeyManager, HmacPrfKeys, PrfKind, PrfKinds, Set,
    UPSTREAM_VERSION, aes_cmac_prf_key_template, hkdf_sha256_prf_key_template,
    hmac_sha256_prf_key_template, hmac_sha512_prf_key_template, init, subtle,
};
