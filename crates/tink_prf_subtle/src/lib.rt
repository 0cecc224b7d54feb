//! The pseudorandom functions, each under a key.
#![tactic(auto)]

pub use aes_cmac::{AesCmacPrf, validate_aes_cmac_prf_params};
pub use hkdf::{HkdfPrf, validate_hkdf_prf_params};
pub use hmac::{HmacPrf, validate_hmac_prf_params};

mod aes_cmac;
mod hkdf;
mod hmac;
