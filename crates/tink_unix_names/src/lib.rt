//! What the real system is asked by names: links, descriptors, drafts that were left, and the words of the process.
#![tactic(auto)]

pub mod file_id;
pub mod leftovers;
pub mod meter;
pub mod names;
pub mod notes;
pub mod reasons;
pub mod standard;
mod words;

pub use words::words_of_process;
