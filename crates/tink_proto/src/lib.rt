//! The messages of keysets and the wire format that they are read from and written in.
//!
//! `Keyset::decode(alloc, bytes)` reads a message, `encode` writes it, and `try_clone` makes it again: the trait
//! [`Message`] has them. A contract sees a message by value. It sees bytes and texts as lists of bytes, a repeated
//! field as a list and an enum as a signed number.
#![tactic(auto)]

mod enums;
mod error;
mod messages;
mod values;
pub mod wire;

pub use enums::{HashType, KeyMaterialType, KeyStatusType, OutputPrefixType, UnknownValue};
pub use error::ProtoError;
pub use messages::{EncryptedKeyset, Key, KeyData, KeyInfo, KeyTemplate, Keyset, KeysetInfo};
pub use values::{Bytes, Repeated, Text};
pub use wire::Message;
