//! The commands over files, over any place where a file appears. They make, change, wrap and unwrap files of keys.
//! They encrypt, decrypt and rewrap streams, and read ranges of them. They sign and verify tokens. A file appears
//! whole or not at all. Streams, their texts and tokens also go into any sink.
#![tactic(auto)]

mod key_files;
mod made_files;
mod ranges;
mod saved;
mod tasks;
pub mod under_master;
mod wrapping;

pub use key_files::{edit_keys, new_keys, rotate_keys};
pub use made_files::{added_file, converted_file, new_file, rotated_file};
pub use ranges::range_to;
pub use saved::save_answer;
pub use tasks::{Task, save_task, write_task};
pub use wrapping::{unwrap_keys, wrap_keys};
