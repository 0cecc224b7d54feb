//! Keysets: what holds them, what edits them, and what reads and writes them, in memory, in the wire format and in JSON.

pub use tink_keyset_io::{BinaryReader, BinaryWriter, JsonReader, JsonWriter};
pub use tink_keysets::keyset::{
    Handle, Manager, MemReaderWriter, Reader, Writer, insecure, validate, validate_key,
    validate_key_version,
};
