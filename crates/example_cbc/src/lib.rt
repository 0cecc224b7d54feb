//! Cipher block chaining (NIST SP 800-38A, section 6.2) over any block cipher: an example of modes over the traits
//! of `cipher_modes`.
#![tactic(auto)]

mod decryptor;
mod encryptor;

pub use decryptor::Decryptor;
pub use encryptor::Encryptor;
