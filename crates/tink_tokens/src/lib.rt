//! Tokens of what a source has, by the MACs of a keyset, from any source to any sink.
#![tactic(auto)]

pub use input::read_input;
pub use writing::{write_payload, write_token};

mod input;
mod writing;
