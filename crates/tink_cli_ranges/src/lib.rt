//! The commands over a part of a stream, by their words, over any system: a range of its text, and its key and sizes.
#![tactic(auto)]

pub mod informing;
pub mod ranges;
