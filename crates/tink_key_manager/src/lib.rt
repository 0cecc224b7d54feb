//! Key managers by the types of their keys.
#![tactic(auto)]

mod hashes;
mod key_type;
mod manager;
mod templates;

pub use hashes::hash_type_of;
pub use key_type::KeyType;
pub use manager::SymmetricKeyManager;
pub use templates::{add_template, new_template};
