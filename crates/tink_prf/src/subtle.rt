//! The pseudorandom functions, each under a key.

pub use tink_prf_subtle::{
    AesCmacPrf, HkdfPrf, HmacPrf, validate_aes_cmac_prf_params, validate_hkdf_prf_params,
    validate_hmac_prf_params,
};
