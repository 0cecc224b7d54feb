//! What of a keyset may be shown, and a keyset under another key.

use crate::wire::{
    Field, Message, clone_list, clone_option, put_bytes, put_enum, put_list, put_message,
    put_number, put_text, read_bytes, read_enum, read_list, read_message, read_number, read_text,
};
use crate::{Bytes, ProtoError, Repeated, Text};
use std::alloc::{AllocError, Global};

/// A keyset without the data of its keys.
#[derive(Drop)]
pub struct KeysetInfo {
    /// The id of the primary key.
    pub primary_key_id: u32,
    /// The keys, without their data.
    pub key_info: Repeated<KeyInfo>,
}

impl Message for KeysetInfo {
    ghost use Rattle.tink_proto.specs.Messages.{keyset_info};

    ghost table = { keyset_info };

    fn new(alloc: Global) -> KeysetInfo {
        KeysetInfo {
            primary_key_id: 0,
            key_info: Repeated::new(alloc),
        }
    }

    fn read_field(&mut self, alloc: Global, field: &Field) -> Result<(), ProtoError> {
        match field.number {
            1 => read_number(&mut self.primary_key_id, &field.content),
            2 => read_list(&mut self.key_info, alloc, &field.content),
            _ => Ok(()),
        }
    }

    #[tactic(auto, using(std::proofs::Common::append_assoc, wire_format::proofs::WritingLaws::spelling_append))]
    fn write_fields(&self, alloc: Global, out: &mut Vec<u8>) -> Result<(), AllocError> {
        put_number(out, 1, self.primary_key_id)?;
        put_list(out, alloc, 2, &self.key_info)
    }

    fn try_clone(&self, alloc: Global) -> Result<KeysetInfo, ProtoError> {
        Ok(KeysetInfo {
            primary_key_id: self.primary_key_id,
            key_info: clone_list(&self.key_info, alloc)?,
        })
    }
}

/// A key without its data.
#[derive(Drop)]
pub struct KeyInfo {
    /// The URL of the key.
    pub type_url: Text,
    /// A number of `KeyStatusType`.
    pub status: i32,
    /// The id of the key.
    pub key_id: u32,
    /// A number of `OutputPrefixType`.
    pub output_prefix_type: i32,
}

impl Message for KeyInfo {
    ghost use Rattle.tink_proto.specs.Messages.{key_info};

    ghost table = { key_info };

    fn new(alloc: Global) -> KeyInfo {
        KeyInfo {
            type_url: Text::new(alloc),
            status: 0,
            key_id: 0,
            output_prefix_type: 0,
        }
    }

    fn read_field(&mut self, alloc: Global, field: &Field) -> Result<(), ProtoError> {
        match field.number {
            1 => read_text(&mut self.type_url, alloc, &field.content),
            2 => read_enum(&mut self.status, &field.content),
            3 => read_number(&mut self.key_id, &field.content),
            4 => read_enum(&mut self.output_prefix_type, &field.content),
            _ => Ok(()),
        }
    }

    #[tactic(auto, using(std::proofs::Common::append_assoc, wire_format::proofs::WritingLaws::spelling_append))]
    fn write_fields(&self, _alloc: Global, out: &mut Vec<u8>) -> Result<(), AllocError> {
        put_text(out, 1, self.type_url.as_str())?;
        put_enum(out, 2, self.status)?;
        put_number(out, 3, self.key_id)?;
        put_enum(out, 4, self.output_prefix_type)
    }

    fn try_clone(&self, alloc: Global) -> Result<KeyInfo, ProtoError> {
        Ok(KeyInfo {
            type_url: self.type_url.try_clone(alloc)?,
            status: self.status,
            key_id: self.key_id,
            output_prefix_type: self.output_prefix_type,
        })
    }
}

/// A keyset under another key.
#[derive(Drop)]
pub struct EncryptedKeyset {
    /// The encryption of the bytes of a keyset.
    pub encrypted_keyset: Bytes,
    /// The keyset without the data of its keys.
    pub keyset_info: Option<KeysetInfo>,
}

impl Message for EncryptedKeyset {
    ghost use Rattle.tink_proto.specs.Messages.{encrypted_keyset};

    ghost table = { encrypted_keyset };

    fn new(alloc: Global) -> EncryptedKeyset {
        EncryptedKeyset {
            encrypted_keyset: Bytes::new(alloc),
            keyset_info: None,
        }
    }

    fn read_field(&mut self, alloc: Global, field: &Field) -> Result<(), ProtoError> {
        match field.number {
            2 => read_bytes(&mut self.encrypted_keyset, alloc, &field.content),
            3 => read_message(&mut self.keyset_info, alloc, &field.content),
            _ => Ok(()),
        }
    }

    #[tactic(auto, using(std::proofs::Common::append_assoc, wire_format::proofs::WritingLaws::spelling_append))]
    fn write_fields(&self, alloc: Global, out: &mut Vec<u8>) -> Result<(), AllocError> {
        put_bytes(out, 2, self.encrypted_keyset.as_slice())?;
        put_message(out, alloc, 3, &self.keyset_info)
    }

    fn try_clone(&self, alloc: Global) -> Result<EncryptedKeyset, ProtoError> {
        Ok(EncryptedKeyset {
            encrypted_keyset: self.encrypted_keyset.try_clone(alloc)?,
            keyset_info: clone_option(&self.keyset_info, alloc)?,
        })
    }
}
