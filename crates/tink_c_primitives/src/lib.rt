//! AEADs, deterministic AEADs, MACs, pseudorandom functions and tokens by the bytes of a file of keys.
#![tactic(auto)]

mod asking;
mod loading;
mod tokens;

pub use asking::{
    aead_decrypt, aead_encrypt, daead_decrypt, daead_encrypt, encrypt, mac_compute, mac_verify,
    prf_compute,
};
pub use loading::{aeads_in_file, daeads_in_file, macs_in_file, prfs_in_file};
pub use tokens::{token_sign, token_verify};
