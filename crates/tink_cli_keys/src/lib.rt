//! The commands over files of keys, by their words, over any system.
#![tactic(auto)]

pub mod keys;
mod saving;
mod words;
pub mod wrapping;
