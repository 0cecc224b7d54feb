//! What a registry makes of the keys of a keyset, key by key: the set of their primitives, and their public parts.
#![tactic(auto)]

pub use building::{build_set, is_enabled};
pub use public_parts::public_keys;

mod building;
mod public_parts;
