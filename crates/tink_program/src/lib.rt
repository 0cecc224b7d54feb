//! The program by its words: all of its commands, over any source and any sinks.
#![tactic(auto)]

pub mod program;

pub use tink_program_core::number_of;
