//! Keys of AEAD and their formats.

use crate::fields::{clone_fields, read_fields, write_fields};
use std::alloc::{AllocError, Global};
use tink_proto::wire::{Field, Message};
use tink_proto::{Bytes, ProtoError};

/// A key of AES-GCM.
#[derive(Drop)]
pub struct AesGcmKey {
    pub version: u32,
    pub key_value: Bytes,
}

impl Message for AesGcmKey {
    ghost use Rattle.tink_proto_keys.specs.Aead.{aes_gcm_key};

    ghost table = { aes_gcm_key };

    fn new(alloc: Global) -> AesGcmKey {
        AesGcmKey {
            version: 0,
            key_value: Bytes::new(alloc),
        }
    }

    fn read_field(&mut self, alloc: Global, field: &Field) -> Result<(), ProtoError> {
        read_fields!(self, alloc, field; 1 number version, 3 bytes key_value)
    }

    #[tactic(auto, using(std::proofs::Common::append_assoc, wire_format::proofs::WritingLaws::spelling_append))]
    fn write_fields(&self, _alloc: Global, out: &mut Vec<u8>) -> Result<(), AllocError> {
        write_fields!(self, _alloc, out; 1 number version, 3 bytes key_value)
    }

    fn try_clone(&self, alloc: Global) -> Result<AesGcmKey, ProtoError> {
        clone_fields!(AesGcmKey, self, alloc; number version, bytes key_value)
    }
}

/// What a new such key is to be.
#[derive(Drop)]
pub struct AesGcmKeyFormat {
    /// In bytes.
    pub key_size: u32,
    pub version: u32,
}

impl Message for AesGcmKeyFormat {
    ghost use Rattle.tink_proto_keys.specs.Aead.{aes_gcm_key_format};

    ghost table = { aes_gcm_key_format };

    fn new(_alloc: Global) -> AesGcmKeyFormat {
        AesGcmKeyFormat {
            key_size: 0,
            version: 0,
        }
    }

    fn read_field(&mut self, _alloc: Global, field: &Field) -> Result<(), ProtoError> {
        read_fields!(self, _alloc, field; 2 number key_size, 3 number version)
    }

    #[tactic(auto, using(std::proofs::Common::append_assoc, wire_format::proofs::WritingLaws::spelling_append))]
    fn write_fields(&self, _alloc: Global, out: &mut Vec<u8>) -> Result<(), AllocError> {
        write_fields!(self, _alloc, out; 2 number key_size, 3 number version)
    }

    fn try_clone(&self, _alloc: Global) -> Result<AesGcmKeyFormat, ProtoError> {
        clone_fields!(AesGcmKeyFormat, self, _alloc; number key_size, number version)
    }
}

/// A key of AES-GCM-SIV.
#[derive(Drop)]
pub struct AesGcmSivKey {
    pub version: u32,
    pub key_value: Bytes,
}

impl Message for AesGcmSivKey {
    ghost use Rattle.tink_proto_keys.specs.Aead.{aes_gcm_siv_key};

    ghost table = { aes_gcm_siv_key };

    fn new(alloc: Global) -> AesGcmSivKey {
        AesGcmSivKey {
            version: 0,
            key_value: Bytes::new(alloc),
        }
    }

    fn read_field(&mut self, alloc: Global, field: &Field) -> Result<(), ProtoError> {
        read_fields!(self, alloc, field; 1 number version, 3 bytes key_value)
    }

    #[tactic(auto, using(std::proofs::Common::append_assoc, wire_format::proofs::WritingLaws::spelling_append))]
    fn write_fields(&self, _alloc: Global, out: &mut Vec<u8>) -> Result<(), AllocError> {
        write_fields!(self, _alloc, out; 1 number version, 3 bytes key_value)
    }

    fn try_clone(&self, alloc: Global) -> Result<AesGcmSivKey, ProtoError> {
        clone_fields!(AesGcmSivKey, self, alloc; number version, bytes key_value)
    }
}

/// What a new such key is to be.
#[derive(Drop)]
pub struct AesGcmSivKeyFormat {
    pub version: u32,
    /// In bytes.
    pub key_size: u32,
}

impl Message for AesGcmSivKeyFormat {
    ghost use Rattle.tink_proto_keys.specs.Aead.{aes_gcm_siv_key_format};

    ghost table = { aes_gcm_siv_key_format };

    fn new(_alloc: Global) -> AesGcmSivKeyFormat {
        AesGcmSivKeyFormat {
            version: 0,
            key_size: 0,
        }
    }

    fn read_field(&mut self, _alloc: Global, field: &Field) -> Result<(), ProtoError> {
        read_fields!(self, _alloc, field; 1 number version, 2 number key_size)
    }

    #[tactic(auto, using(std::proofs::Common::append_assoc, wire_format::proofs::WritingLaws::spelling_append))]
    fn write_fields(&self, _alloc: Global, out: &mut Vec<u8>) -> Result<(), AllocError> {
        write_fields!(self, _alloc, out; 1 number version, 2 number key_size)
    }

    fn try_clone(&self, _alloc: Global) -> Result<AesGcmSivKeyFormat, ProtoError> {
        clone_fields!(AesGcmSivKeyFormat, self, _alloc; number version, number key_size)
    }
}
