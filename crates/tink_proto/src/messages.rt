//! The messages of keysets. Each reads and writes what its table in `specs/Messages` says.

mod infos;
mod keys;

pub use infos::{EncryptedKeyset, KeyInfo, KeysetInfo};
pub use keys::{Key, KeyData, KeyTemplate, Keyset};
