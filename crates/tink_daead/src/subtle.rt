//! AES-SIV under one key.

mod aes_siv;
mod siv;

pub use aes_siv::{AES_SIV_KEY_SIZE, AesSiv, law_aes_siv};
