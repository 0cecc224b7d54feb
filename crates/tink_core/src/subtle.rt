//! Hashes and key derivation by the types of hashes, and random bytes.

pub use tink_core_subtle::{
    HashFunc, compute_hash, compute_hkdf, constant_time_compare, get_hash_digest_size,
    get_hash_func, random,
};
