//! Seals and opens streams under Tink keysets, from any source to any sink.
#![tactic(auto)]

pub mod keys;
pub mod laws;
pub mod load;
pub mod open;
pub mod report;
pub mod run;
pub mod seal;
pub mod together;
