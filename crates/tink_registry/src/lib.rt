//! Managers of keys, and a registry of them by their URLs, with templates by their names.
#![tactic(auto)]

pub use key_manager::KeyManager;
pub use registry::Registry;

mod key_manager;
mod managers;
mod registry;
mod templates;
