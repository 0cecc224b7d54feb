//! What the types of keys share: random bytes, and hashes and key derivation by the types of hashes.
#![tactic(auto)]

mod hashes;
pub mod random;

pub use hashes::{
    HashFunc, compute_hash, compute_hkdf, constant_time_compare, get_hash_digest_size,
    get_hash_func,
};
