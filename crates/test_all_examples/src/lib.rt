//! The test of each crate of rows on examples and on the commands over files: no row of it fails.
#![tactic(auto)]

#[cfg(test)]
mod tests;
