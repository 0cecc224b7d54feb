//! Keys, keysets and what holds them, each in one call.

use std::alloc::Global;
use tink_io::{Draws, Kind, TinkError};
use tink_keysets::keyset::Handle;
use tink_keysets::keyset::insecure::{keyset_material, new_handle};
use tink_proto::{
    Bytes, Key, KeyData, KeyTemplate, Keyset, Message, OutputPrefixType, Repeated, Text,
};
use tink_registry::{KeyManager, Registry};

/// The URL of the test keys.
pub const URL: &str = "type.test/key";

/// The kind of a refusal, or `None` of a value.
pub fn kind_of<T: Drop>(answer: Result<T, TinkError>) -> Option<Kind> {
    match answer {
        Ok(_) => None,
        Err(e) => Some(e.kind),
    }
}

/// Whether a call gave these bytes, or how it was refused.
pub fn gives(made: Result<Bytes, TinkError>, want: &[u8]) -> Result<bool, TinkError> {
    match made {
        Ok(bytes) => Ok(bytes.as_slice() == want),
        Err(e) => Err(e),
    }
}

/// Data of this URL, value and material.
pub fn data_of(
    alloc: Global,
    type_url: &str,
    value: &[u8],
    key_material_type: i32,
) -> Result<KeyData, TinkError> {
    Ok(KeyData {
        type_url: Text::from_str(alloc, type_url)?,
        value: Bytes::from_slice(alloc, value)?,
        key_material_type,
    })
}

/// A TINK key of the test URL and two bytes, which are aa and bb.
pub fn key(alloc: Global, material: i32, status: i32, id: u32) -> Result<Key, TinkError> {
    let key_data = data_of(alloc, URL, b"\xaa\xbb", material)?;
    Ok(Key {
        key_data: Some(key_data),
        status,
        key_id: id,
        output_prefix_type: 1,
    })
}

/// An enabled symmetric key.
pub fn enabled_key(
    alloc: Global,
    type_url: &str,
    value: &[u8],
    prefix: OutputPrefixType,
    id: u32,
) -> Result<Key, TinkError> {
    let key_data = data_of(alloc, type_url, value, 1)?;
    Ok(Key {
        key_data: Some(key_data),
        status: 1,
        key_id: id,
        output_prefix_type: prefix as i32,
    })
}

/// A RAW key without data.
pub fn bare(status: i32, id: u32) -> Key {
    Key {
        key_data: None,
        status,
        key_id: id,
        output_prefix_type: 3,
    }
}

/// The keyset of these keys.
pub fn keyset(primary_key_id: u32, keys: Vec<Key>) -> Keyset {
    Keyset {
        primary_key_id,
        key: Repeated::from_vec(keys),
    }
}

/// The handle of these keys.
pub fn handle_of(primary_key_id: u32, keys: Vec<Key>) -> Result<Handle, TinkError> {
    new_handle(keyset(primary_key_id, keys))
}

/// The bytes of a handle's keyset.
pub fn bytes_of(alloc: Global, h: &Handle) -> Result<Bytes, TinkError> {
    match keyset_material(alloc, h)?.encode(alloc) {
        Ok(bytes) => Ok(bytes),
        Err(_) => Err(TinkError::new(Kind::OutOfMemory)),
    }
}

/// The registry of one manager.
pub fn registry_of<M: KeyManager + Drop>(
    alloc: Global,
    manager: M,
) -> Result<Registry<M>, TinkError> {
    let mut registry = Registry::new(alloc);
    registry.register_key_manager(alloc, manager)?;
    Ok(registry)
}

/// A template of this URL, format and number of a prefix type.
pub fn template(
    alloc: Global,
    type_url: &str,
    format: &[u8],
    prefix: i32,
) -> Result<KeyTemplate, TinkError> {
    Ok(KeyTemplate {
        type_url: Text::from_str(alloc, type_url)?,
        value: Bytes::from_slice(alloc, format)?,
        output_prefix_type: prefix,
    })
}

/// These draws.
pub fn draws_of(alloc: Global, bytes: &[u8]) -> Result<Draws, TinkError> {
    Ok(Draws::new(Vec::from_slice(alloc, bytes)?))
}
