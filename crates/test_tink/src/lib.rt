//! Whole tasks of a user, and the registry of all managers.
#![tactic(auto)]

pub use tests::rows;

mod edited;
mod tasks;
mod templates;
mod tests;
