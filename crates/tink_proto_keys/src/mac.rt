//! Keys of MACs and their formats.

use crate::fields::{clone_fields, read_fields, write_fields};
use crate::with_params::{FormatWith, KeyWith};
use std::alloc::{AllocError, Global};
use tink_proto::wire::{Field, Message};
use tink_proto::{Bytes, ProtoError};

/// The hash of an HMAC and the size of its tag.
#[derive(Drop)]
pub struct HmacParams {
    /// A number of `HashType`.
    pub hash: i32,
    /// In bytes.
    pub tag_size: u32,
}

impl Message for HmacParams {
    ghost use Rattle.tink_proto_keys.specs.Mac.{hmac_params};

    ghost table = { hmac_params };

    fn new(_alloc: Global) -> HmacParams {
        HmacParams {
            hash: 0,
            tag_size: 0,
        }
    }

    fn read_field(&mut self, _alloc: Global, field: &Field) -> Result<(), ProtoError> {
        read_fields!(self, _alloc, field; 1 choice hash, 2 number tag_size)
    }

    #[tactic(auto, using(std::proofs::Common::append_assoc, wire_format::proofs::WritingLaws::spelling_append))]
    fn write_fields(&self, _alloc: Global, out: &mut Vec<u8>) -> Result<(), AllocError> {
        write_fields!(self, _alloc, out; 1 choice hash, 2 number tag_size)
    }

    fn try_clone(&self, _alloc: Global) -> Result<HmacParams, ProtoError> {
        clone_fields!(HmacParams, self, _alloc; choice hash, number tag_size)
    }
}

/// A key of HMAC.
pub type HmacKey = KeyWith<HmacParams>;

/// What a new such key is to be.
pub type HmacKeyFormat = FormatWith<HmacParams>;

/// The size of the tag of AES-CMAC.
#[derive(Drop)]
pub struct AesCmacParams {
    /// In bytes.
    pub tag_size: u32,
}

impl Message for AesCmacParams {
    ghost use Rattle.tink_proto_keys.specs.Mac.{aes_cmac_params};

    ghost table = { aes_cmac_params };

    fn new(_alloc: Global) -> AesCmacParams {
        AesCmacParams { tag_size: 0 }
    }

    fn read_field(&mut self, _alloc: Global, field: &Field) -> Result<(), ProtoError> {
        read_fields!(self, _alloc, field; 1 number tag_size)
    }

    fn write_fields(&self, _alloc: Global, out: &mut Vec<u8>) -> Result<(), AllocError> {
        write_fields!(self, _alloc, out; 1 number tag_size)
    }

    fn try_clone(&self, _alloc: Global) -> Result<AesCmacParams, ProtoError> {
        clone_fields!(AesCmacParams, self, _alloc; number tag_size)
    }
}

/// A key of AES-CMAC.
#[derive(Drop)]
pub struct AesCmacKey {
    pub version: u32,
    pub key_value: Bytes,
    pub params: Option<AesCmacParams>,
}

impl Message for AesCmacKey {
    ghost use Rattle.tink_proto_keys.specs.Mac.{aes_cmac_key};

    ghost table = { aes_cmac_key };

    fn new(alloc: Global) -> AesCmacKey {
        AesCmacKey {
            version: 0,
            key_value: Bytes::new(alloc),
            params: None,
        }
    }

    fn read_field(&mut self, alloc: Global, field: &Field) -> Result<(), ProtoError> {
        read_fields!(self, alloc, field; 1 number version, 2 bytes key_value, 3 message params)
    }

    #[tactic(auto, using(std::proofs::Common::append_assoc, wire_format::proofs::WritingLaws::spelling_append))]
    fn write_fields(&self, alloc: Global, out: &mut Vec<u8>) -> Result<(), AllocError> {
        write_fields!(self, alloc, out; 1 number version, 2 bytes key_value, 3 message params)
    }

    fn try_clone(&self, alloc: Global) -> Result<AesCmacKey, ProtoError> {
        clone_fields!(AesCmacKey, self, alloc; number version, bytes key_value, message params)
    }
}

/// What a new such key is to be.
#[derive(Drop)]
pub struct AesCmacKeyFormat {
    /// In bytes.
    pub key_size: u32,
    pub params: Option<AesCmacParams>,
}

impl Message for AesCmacKeyFormat {
    ghost use Rattle.tink_proto_keys.specs.Mac.{aes_cmac_key_format};

    ghost table = { aes_cmac_key_format };

    fn new(_alloc: Global) -> AesCmacKeyFormat {
        AesCmacKeyFormat {
            key_size: 0,
            params: None,
        }
    }

    fn read_field(&mut self, alloc: Global, field: &Field) -> Result<(), ProtoError> {
        read_fields!(self, alloc, field; 1 number key_size, 2 message params)
    }

    #[tactic(auto, using(std::proofs::Common::append_assoc, wire_format::proofs::WritingLaws::spelling_append))]
    fn write_fields(&self, alloc: Global, out: &mut Vec<u8>) -> Result<(), AllocError> {
        write_fields!(self, alloc, out; 1 number key_size, 2 message params)
    }

    fn try_clone(&self, alloc: Global) -> Result<AesCmacKeyFormat, ProtoError> {
        clone_fields!(AesCmacKeyFormat, self, alloc; number key_size, message params)
    }
}
