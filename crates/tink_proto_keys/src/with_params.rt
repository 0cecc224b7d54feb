//! Keys and formats of keys whose parameters are a message of their own: what all of them share.

use crate::fields::{clone_fields, read_fields, write_fields};
use std::alloc::{AllocError, Global};
use tink_proto::wire::{Field, Message};
use tink_proto::{Bytes, ProtoError};

/// A key with parameters `P`.
#[derive(Drop)]
pub struct KeyWith<P> {
    pub version: u32,
    pub params: Option<P>,
    pub key_value: Bytes,
}

impl<P: Message> Message for KeyWith<P> {
    ghost use Rattle.tink_proto_keys.specs.WithParams.{key_with};

    ghost table = { key_with P.table };

    fn new(alloc: Global) -> KeyWith<P> {
        KeyWith {
            version: 0,
            params: None,
            key_value: Bytes::new(alloc),
        }
    }

    fn read_field(&mut self, alloc: Global, field: &Field) -> Result<(), ProtoError> {
        read_fields!(self, alloc, field; 1 number version, 2 message params, 3 bytes key_value)
    }

    #[tactic(auto, using(std::proofs::Common::append_assoc, wire_format::proofs::WritingLaws::spelling_append))]
    fn write_fields(&self, alloc: Global, out: &mut Vec<u8>) -> Result<(), AllocError> {
        write_fields!(self, alloc, out; 1 number version, 2 message params, 3 bytes key_value)
    }

    fn try_clone(&self, alloc: Global) -> Result<KeyWith<P>, ProtoError> {
        clone_fields!(KeyWith, self, alloc; number version, message params, bytes key_value)
    }
}

/// What a new key with parameters `P` is to be.
#[derive(Drop)]
pub struct FormatWith<P> {
    pub params: Option<P>,
    /// In bytes.
    pub key_size: u32,
    pub version: u32,
}

impl<P: Message> Message for FormatWith<P> {
    ghost use Rattle.tink_proto_keys.specs.WithParams.{format_with};

    ghost table = { format_with P.table };

    fn new(_alloc: Global) -> FormatWith<P> {
        FormatWith {
            params: None,
            key_size: 0,
            version: 0,
        }
    }

    fn read_field(&mut self, alloc: Global, field: &Field) -> Result<(), ProtoError> {
        read_fields!(self, alloc, field; 1 message params, 2 number key_size, 3 number version)
    }

    #[tactic(auto, using(std::proofs::Common::append_assoc, wire_format::proofs::WritingLaws::spelling_append))]
    fn write_fields(&self, alloc: Global, out: &mut Vec<u8>) -> Result<(), AllocError> {
        write_fields!(self, alloc, out; 1 message params, 2 number key_size, 3 number version)
    }

    fn try_clone(&self, alloc: Global) -> Result<FormatWith<P>, ProtoError> {
        clone_fields!(FormatWith, self, alloc; message params, number key_size, number version)
    }
}
