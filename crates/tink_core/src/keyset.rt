//! Keysets: what holds them, what edits them, and what reads and writes them.

pub use tink_keysets::keyset::{
    Handle, Manager, MemReaderWriter, Reader, Writer, insecure, validate, validate_key,
    validate_key_version,
};
