//! Keysets in use: handles, their manager, what validates them, and the set of one sort that a handle gives.
#![tactic(auto)]

pub mod factory;
pub mod keyset;
