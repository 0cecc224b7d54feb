//! What the Tink primitives do, as traits with a written meaning, and one primitive of any of the nine sorts.
#![tactic(auto)]

pub use clone_in::CloneIn;
pub use kinds::{Kinds, Never};
pub use primitive::Primitive;
pub use primitive_traits::{
    Aead, DeterministicAead, HybridDecrypt, HybridEncrypt, Mac, Prf, Signer, Verifier,
};
pub use streams::{DecryptingRead, EncryptingWrite, Refused, StreamingAead};

mod clone_in;
mod kinds;
mod primitive;
mod primitive_traits;
mod streams;

/// The id of a key in its keyset.
pub type KeyId = u32;

/// The version of upstream that this is written after.
pub const UPSTREAM_VERSION: &str = "1.6.0";
