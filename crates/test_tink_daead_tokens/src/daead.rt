//! AES-SIV under one key, its keys and template, and the deterministic AEADs of keysets.

pub mod keyset_tests;
pub mod siv_tests;
