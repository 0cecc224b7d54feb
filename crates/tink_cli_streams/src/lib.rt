//! The commands over streams and tokens, by their words, over any system.
#![tactic(auto)]

pub mod checking;
mod fitting;
mod performing;
pub mod streams;
mod trimming;
