//! Keys of deterministic AEAD and their formats.

use crate::fields::{clone_fields, read_fields, write_fields};
use std::alloc::{AllocError, Global};
use tink_proto::wire::{Field, Message};
use tink_proto::{Bytes, ProtoError};

/// A key of AES-SIV.
#[derive(Drop)]
pub struct AesSivKey {
    pub version: u32,
    pub key_value: Bytes,
}

impl Message for AesSivKey {
    ghost use Rattle.tink_proto_keys.specs.Daead.{aes_siv_key};

    ghost table = { aes_siv_key };

    fn new(alloc: Global) -> AesSivKey {
        AesSivKey {
            version: 0,
            key_value: Bytes::new(alloc),
        }
    }

    fn read_field(&mut self, alloc: Global, field: &Field) -> Result<(), ProtoError> {
        read_fields!(self, alloc, field; 1 number version, 2 bytes key_value)
    }

    #[tactic(auto, using(std::proofs::Common::append_assoc, wire_format::proofs::WritingLaws::spelling_append))]
    fn write_fields(&self, _alloc: Global, out: &mut Vec<u8>) -> Result<(), AllocError> {
        write_fields!(self, _alloc, out; 1 number version, 2 bytes key_value)
    }

    fn try_clone(&self, alloc: Global) -> Result<AesSivKey, ProtoError> {
        clone_fields!(AesSivKey, self, alloc; number version, bytes key_value)
    }
}

/// What a new such key is to be.
#[derive(Drop)]
pub struct AesSivKeyFormat {
    /// In bytes.
    pub key_size: u32,
    pub version: u32,
}

impl Message for AesSivKeyFormat {
    ghost use Rattle.tink_proto_keys.specs.Daead.{aes_siv_key_format};

    ghost table = { aes_siv_key_format };

    fn new(_alloc: Global) -> AesSivKeyFormat {
        AesSivKeyFormat {
            key_size: 0,
            version: 0,
        }
    }

    fn read_field(&mut self, _alloc: Global, field: &Field) -> Result<(), ProtoError> {
        read_fields!(self, _alloc, field; 1 number key_size, 2 number version)
    }

    #[tactic(auto, using(std::proofs::Common::append_assoc, wire_format::proofs::WritingLaws::spelling_append))]
    fn write_fields(&self, _alloc: Global, out: &mut Vec<u8>) -> Result<(), AllocError> {
        write_fields!(self, _alloc, out; 1 number key_size, 2 number version)
    }

    fn try_clone(&self, _alloc: Global) -> Result<AesSivKeyFormat, ProtoError> {
        clone_fields!(AesSivKeyFormat, self, _alloc; number key_size, number version)
    }
}
