//! Managers of keys, by their URLs.

pub use tink_registry::{KeyManager, Registry};
