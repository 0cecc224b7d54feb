//! The commands of the program over streams: their words, what each does over any source and any sink, and their outcomes.
#![tactic(auto)]

mod commands;
mod keysets;
mod large;
mod outcomes;
mod ranges;
mod streams;
mod words;

pub use commands::run_parsed;
pub use outcomes::{Outcome, status, tell};
pub use words::{Parsed, Seed, number_of, parse};
