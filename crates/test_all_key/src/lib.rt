//! The test of each crate of rows on the primitives of keys: no row of it fails.
#![tactic(auto)]

#[cfg(test)]
mod tests;
