//! Streams under Tink keysets: their keys and sizes, ranges of their plaintexts, and their move to another keyset.
#![tactic(auto)]

pub mod info;
pub mod ranges;
pub mod rewrap;
