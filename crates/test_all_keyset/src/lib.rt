//! The test of each crate of rows on registries and keysets: no row of it fails.
#![tactic(auto)]

#[cfg(test)]
mod tests;
