//! Signed tokens.

mod keysets;
pub mod rows;
mod texts;
