//! Keysets of a template, and of three keys of both types.

use crate::one_of::Streams;
use std::alloc::Global;
use test_util::{draws_of, template};
use tink_io::{Kind, TinkError};
use tink_keysets::keyset::Handle;
use tink_proto::{KeyTemplate, OutputPrefixType};
use tink_registry::Registry;
use tink_streaming_aead::{WrappedStreamingAead, new};

/// A keyset.
pub enum Keys {
    /// Of a new key of the template of a name, with a prefix of this type. What is drawn are sevens.
    Named(&'static str, OutputPrefixType),
    /// Of these bytes.
    Wire(&'static [u8]),
}

// Keysets of three keys of the bytes 0 to 15, from which AES keys of 16 are derived with SHA-256: in counter mode with
// tags of ten bytes and segments of 50; by AES-GCM with segments of 4,096 and of 50. The first two are RAW keys, and the
// last one is the primary key, with the prefix that gives the keyset its name.
/// Three RAW keys.
pub const RAW: Keys = Keys::Wire(
    b"\x08\x03\x12\x6b\x0a\x63\x0a\x3dtype.googleapis.com/google.crypto.tink.AesCtrHmacStreamingKey\x12\x20\x12\x0c\x08\x32\x10\x10\x18\x03\x22\x04\x08\x03\x10\x0a\x1a\x10\x00\x01\x02\x03\x04\x05\x06\x07\x08\x09\x0a\x0b\x0c\x0d\x0e\x0f\x18\x01\x10\x01\x18\x01\x20\x03\x12\x66\x0a\x5e\x0a\x3dtype.googleapis.com/google.crypto.tink.AesGcmHkdfStreamingKey\x12\x1b\x12\x07\x08\x80\x20\x10\x10\x18\x03\x1a\x10\x00\x01\x02\x03\x04\x05\x06\x07\x08\x09\x0a\x0b\x0c\x0d\x0e\x0f\x18\x01\x10\x01\x18\x02\x20\x03\x12\x65\x0a\x5d\x0a\x3dtype.googleapis.com/google.crypto.tink.AesGcmHkdfStreamingKey\x12\x1a\x12\x06\x08\x32\x10\x10\x18\x03\x1a\x10\x00\x01\x02\x03\x04\x05\x06\x07\x08\x09\x0a\x0b\x0c\x0d\x0e\x0f\x18\x01\x10\x01\x18\x03\x20\x03",
);

/// Two RAW keys, and a TINK one.
pub const TINK: Keys = Keys::Wire(
    b"\x08\x03\x12\x6b\x0a\x63\x0a\x3dtype.googleapis.com/google.crypto.tink.AesCtrHmacStreamingKey\x12\x20\x12\x0c\x08\x32\x10\x10\x18\x03\x22\x04\x08\x03\x10\x0a\x1a\x10\x00\x01\x02\x03\x04\x05\x06\x07\x08\x09\x0a\x0b\x0c\x0d\x0e\x0f\x18\x01\x10\x01\x18\x01\x20\x03\x12\x66\x0a\x5e\x0a\x3dtype.googleapis.com/google.crypto.tink.AesGcmHkdfStreamingKey\x12\x1b\x12\x07\x08\x80\x20\x10\x10\x18\x03\x1a\x10\x00\x01\x02\x03\x04\x05\x06\x07\x08\x09\x0a\x0b\x0c\x0d\x0e\x0f\x18\x01\x10\x01\x18\x02\x20\x03\x12\x65\x0a\x5d\x0a\x3dtype.googleapis.com/google.crypto.tink.AesGcmHkdfStreamingKey\x12\x1a\x12\x06\x08\x32\x10\x10\x18\x03\x1a\x10\x00\x01\x02\x03\x04\x05\x06\x07\x08\x09\x0a\x0b\x0c\x0d\x0e\x0f\x18\x01\x10\x01\x18\x03\x20\x01",
);

/// Two RAW keys, and a LEGACY one.
pub const LEGACY: Keys = Keys::Wire(
    b"\x08\x03\x12\x6b\x0a\x63\x0a\x3dtype.googleapis.com/google.crypto.tink.AesCtrHmacStreamingKey\x12\x20\x12\x0c\x08\x32\x10\x10\x18\x03\x22\x04\x08\x03\x10\x0a\x1a\x10\x00\x01\x02\x03\x04\x05\x06\x07\x08\x09\x0a\x0b\x0c\x0d\x0e\x0f\x18\x01\x10\x01\x18\x01\x20\x03\x12\x66\x0a\x5e\x0a\x3dtype.googleapis.com/google.crypto.tink.AesGcmHkdfStreamingKey\x12\x1b\x12\x07\x08\x80\x20\x10\x10\x18\x03\x1a\x10\x00\x01\x02\x03\x04\x05\x06\x07\x08\x09\x0a\x0b\x0c\x0d\x0e\x0f\x18\x01\x10\x01\x18\x02\x20\x03\x12\x65\x0a\x5d\x0a\x3dtype.googleapis.com/google.crypto.tink.AesGcmHkdfStreamingKey\x12\x1a\x12\x06\x08\x32\x10\x10\x18\x03\x1a\x10\x00\x01\x02\x03\x04\x05\x06\x07\x08\x09\x0a\x0b\x0c\x0d\x0e\x0f\x18\x01\x10\x01\x18\x03\x20\x02",
);

fn of_template(
    alloc: Global,
    registry: &Registry<Streams>,
    kt: &KeyTemplate,
    prefix: OutputPrefixType,
) -> Result<Handle, TinkError> {
    let kt = template(
        alloc,
        kt.type_url.as_str(),
        kt.value.as_slice(),
        prefix as i32,
    )?;
    let mut draws = draws_of(alloc, &[7; 40])?;
    Handle::new(alloc, &kt, registry, &mut draws)
}

fn handle(alloc: Global, registry: &Registry<Streams>, keys: &Keys) -> Result<Handle, TinkError> {
    match *keys {
        Keys::Wire(keyset) => test_util::handle(alloc, keyset),
        Keys::Named(name, prefix) => match registry.get_template_generator(name) {
            Some(kt) => of_template(alloc, registry, kt, prefix),
            None => Err(TinkError::new(Kind::UnknownTemplate)),
        },
    }
}

/// The streaming AEADs of a keyset.
pub fn aeads_of(
    alloc: Global,
    registry: &Registry<Streams>,
    keys: &Keys,
) -> Result<WrappedStreamingAead, TinkError> {
    match handle(alloc, registry, keys) {
        Ok(h) => new(alloc, &h, registry),
        Err(e) => Err(e),
    }
}
