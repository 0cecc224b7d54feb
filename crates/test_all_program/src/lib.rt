//! The test of each crate of rows on tasks, files and the program: no row of it fails.
#![tactic(auto)]

#[cfg(test)]
mod tests;
