//! Keysets, keys and templates.

use crate::wire::{
    Field, Message, clone_list, clone_option, put_bytes, put_enum, put_list, put_message,
    put_number, put_text, read_bytes, read_enum, read_list, read_message, read_number, read_text,
};
use crate::{Bytes, ProtoError, Repeated, Text};
use std::alloc::{AllocError, Global};

/// A keyset: keys, and the id of the primary one.
#[derive(Drop)]
pub struct Keyset {
    /// The id of the key that encrypts, signs or computes.
    pub primary_key_id: u32,
    /// The keys, in order.
    pub key: Repeated<Key>,
}

impl Message for Keyset {
    ghost use Rattle.tink_proto.specs.Messages.{keyset};

    ghost table = { keyset };

    fn new(alloc: Global) -> Keyset {
        Keyset {
            primary_key_id: 0,
            key: Repeated::new(alloc),
        }
    }

    fn read_field(&mut self, alloc: Global, field: &Field) -> Result<(), ProtoError> {
        match field.number {
            1 => read_number(&mut self.primary_key_id, &field.content),
            2 => read_list(&mut self.key, alloc, &field.content),
            _ => Ok(()),
        }
    }

    #[tactic(auto, using(std::proofs::Common::append_assoc, wire_format::proofs::WritingLaws::spelling_append))]
    fn write_fields(&self, alloc: Global, out: &mut Vec<u8>) -> Result<(), AllocError> {
        put_number(out, 1, self.primary_key_id)?;
        put_list(out, alloc, 2, &self.key)
    }

    fn try_clone(&self, alloc: Global) -> Result<Keyset, ProtoError> {
        Ok(Keyset {
            primary_key_id: self.primary_key_id,
            key: clone_list(&self.key, alloc)?,
        })
    }
}

/// A key of a keyset.
#[derive(Drop)]
pub struct Key {
    /// Absent where the key was destroyed.
    pub key_data: Option<KeyData>,
    /// A number of `KeyStatusType`.
    pub status: i32,
    /// The id of the key.
    pub key_id: u32,
    /// A number of `OutputPrefixType`.
    pub output_prefix_type: i32,
}

impl Message for Key {
    ghost use Rattle.tink_proto.specs.Messages.{key};

    ghost table = { key };

    fn new(_alloc: Global) -> Key {
        Key {
            key_data: None,
            status: 0,
            key_id: 0,
            output_prefix_type: 0,
        }
    }

    fn read_field(&mut self, alloc: Global, field: &Field) -> Result<(), ProtoError> {
        match field.number {
            1 => read_message(&mut self.key_data, alloc, &field.content),
            2 => read_enum(&mut self.status, &field.content),
            3 => read_number(&mut self.key_id, &field.content),
            4 => read_enum(&mut self.output_prefix_type, &field.content),
            _ => Ok(()),
        }
    }

    #[tactic(auto, using(std::proofs::Common::append_assoc, wire_format::proofs::WritingLaws::spelling_append))]
    fn write_fields(&self, alloc: Global, out: &mut Vec<u8>) -> Result<(), AllocError> {
        put_message(out, alloc, 1, &self.key_data)?;
        put_enum(out, 2, self.status)?;
        put_number(out, 3, self.key_id)?;
        put_enum(out, 4, self.output_prefix_type)?;
        Ok(())
    }

    fn try_clone(&self, alloc: Global) -> Result<Key, ProtoError> {
        Ok(Key {
            key_data: clone_option(&self.key_data, alloc)?,
            status: self.status,
            key_id: self.key_id,
            output_prefix_type: self.output_prefix_type,
        })
    }
}

/// The data of a key, and which kind of key it is.
#[derive(Drop)]
pub struct KeyData {
    /// Names the message that `value` is.
    pub type_url: Text,
    /// The key, as the bytes of that message.
    pub value: Bytes,
    /// A number of `KeyMaterialType`.
    pub key_material_type: i32,
}

impl Message for KeyData {
    ghost use Rattle.tink_proto.specs.Messages.{key_data};

    ghost table = { key_data };

    fn new(alloc: Global) -> KeyData {
        KeyData {
            type_url: Text::new(alloc),
            value: Bytes::new(alloc),
            key_material_type: 0,
        }
    }

    fn read_field(&mut self, alloc: Global, field: &Field) -> Result<(), ProtoError> {
        match field.number {
            1 => read_text(&mut self.type_url, alloc, &field.content),
            2 => read_bytes(&mut self.value, alloc, &field.content),
            3 => read_enum(&mut self.key_material_type, &field.content),
            _ => Ok(()),
        }
    }

    #[tactic(auto, using(std::proofs::Common::append_assoc, wire_format::proofs::WritingLaws::spelling_append))]
    fn write_fields(&self, _alloc: Global, out: &mut Vec<u8>) -> Result<(), AllocError> {
        put_text(out, 1, self.type_url.as_str())?;
        put_bytes(out, 2, self.value.as_slice())?;
        put_enum(out, 3, self.key_material_type)
    }

    fn try_clone(&self, alloc: Global) -> Result<KeyData, ProtoError> {
        Ok(KeyData {
            type_url: self.type_url.try_clone(alloc)?,
            value: self.value.try_clone(alloc)?,
            key_material_type: self.key_material_type,
        })
    }
}

/// What a new key is to be.
#[derive(Drop)]
pub struct KeyTemplate {
    /// Names the key's message.
    pub type_url: Text,
    /// The bytes of the key's format.
    pub value: Bytes,
    /// A number of `OutputPrefixType`.
    pub output_prefix_type: i32,
}

impl Message for KeyTemplate {
    ghost use Rattle.tink_proto.specs.Messages.{key_template};

    ghost table = { key_template };

    fn new(alloc: Global) -> KeyTemplate {
        KeyTemplate {
            type_url: Text::new(alloc),
            value: Bytes::new(alloc),
            output_prefix_type: 0,
        }
    }

    fn read_field(&mut self, alloc: Global, field: &Field) -> Result<(), ProtoError> {
        match field.number {
            1 => read_text(&mut self.type_url, alloc, &field.content),
            2 => read_bytes(&mut self.value, alloc, &field.content),
            3 => read_enum(&mut self.output_prefix_type, &field.content),
            _ => Ok(()),
        }
    }

    #[tactic(auto, using(std::proofs::Common::append_assoc, wire_format::proofs::WritingLaws::spelling_append))]
    fn write_fields(&self, _alloc: Global, out: &mut Vec<u8>) -> Result<(), AllocError> {
        put_text(out, 1, self.type_url.as_str())?;
        put_bytes(out, 2, self.value.as_slice())?;
        put_enum(out, 3, self.output_prefix_type)
    }

    fn try_clone(&self, alloc: Global) -> Result<KeyTemplate, ProtoError> {
        Ok(KeyTemplate {
            type_url: self.type_url.try_clone(alloc)?,
            value: self.value.try_clone(alloc)?,
            output_prefix_type: self.output_prefix_type,
        })
    }
}
