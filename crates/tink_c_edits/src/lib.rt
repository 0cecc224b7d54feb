//! A file of keys in memory, with one key changed, and its keys as a list.
#![tactic(auto)]

mod editing;
mod listing;

pub use editing::edit;
pub use listing::{list, list_json};
