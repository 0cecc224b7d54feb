//! The system as the commands over files need it: files by their names, drafts that become files, standard input,
//! random bytes and the terminal. A trait says this, so that a contract sees the files. A system over memory is one;
//! the real one is in `tink_unix`.
#![tactic(auto)]

pub mod lines;
mod mem_system;
mod system;
pub mod trouble;

pub use mem_system::MemSystem;
pub use system::{End, How, System};
pub use trouble::Trouble;
