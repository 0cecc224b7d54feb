//! The test of each crate of rows on streams: no row of it fails.
#![tactic(auto)]

#[cfg(test)]
mod tests;
