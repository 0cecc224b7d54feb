//! Keys of PRFs and their formats.

use crate::fields::{clone_fields, read_fields, write_fields};
use crate::with_params::{FormatWith, KeyWith};
use std::alloc::{AllocError, Global};
use tink_proto::wire::{Field, Message};
use tink_proto::{Bytes, ProtoError};

/// The hash and the salt of HKDF.
#[derive(Drop)]
pub struct HkdfPrfParams {
    /// A number of `HashType`.
    pub hash: i32,
    pub salt: Bytes,
}

impl Message for HkdfPrfParams {
    ghost use Rattle.tink_proto_keys.specs.Prf.{hkdf_prf_params};

    ghost table = { hkdf_prf_params };

    fn new(alloc: Global) -> HkdfPrfParams {
        HkdfPrfParams {
            hash: 0,
            salt: Bytes::new(alloc),
        }
    }

    fn read_field(&mut self, alloc: Global, field: &Field) -> Result<(), ProtoError> {
        read_fields!(self, alloc, field; 1 choice hash, 2 bytes salt)
    }

    #[tactic(auto, using(std::proofs::Common::append_assoc, wire_format::proofs::WritingLaws::spelling_append))]
    fn write_fields(&self, _alloc: Global, out: &mut Vec<u8>) -> Result<(), AllocError> {
        write_fields!(self, _alloc, out; 1 choice hash, 2 bytes salt)
    }

    fn try_clone(&self, alloc: Global) -> Result<HkdfPrfParams, ProtoError> {
        clone_fields!(HkdfPrfParams, self, alloc; choice hash, bytes salt)
    }
}

/// A key of HKDF as a PRF.
#[derive(Drop)]
pub struct HkdfPrfKey {
    pub version: u32,
    pub params: Option<HkdfPrfParams>,
    pub key_value: Bytes,
}

impl Message for HkdfPrfKey {
    ghost use Rattle.tink_proto_keys.specs.Prf.{hkdf_prf_key};

    ghost table = { hkdf_prf_key };

    fn new(alloc: Global) -> HkdfPrfKey {
        HkdfPrfKey {
            version: 0,
            params: None,
            key_value: Bytes::new(alloc),
        }
    }

    fn read_field(&mut self, alloc: Global, field: &Field) -> Result<(), ProtoError> {
        read_fields!(self, alloc, field; 1 number version, 2 message params, 3 bytes key_value)
    }

    #[tactic(auto, using(std::proofs::Common::append_assoc, wire_format::proofs::WritingLaws::spelling_append))]
    fn write_fields(&self, alloc: Global, out: &mut Vec<u8>) -> Result<(), AllocError> {
        write_fields!(self, alloc, out; 1 number version, 2 message params, 3 bytes key_value)
    }

    fn try_clone(&self, alloc: Global) -> Result<HkdfPrfKey, ProtoError> {
        clone_fields!(HkdfPrfKey, self, alloc; number version, message params, bytes key_value)
    }
}

/// What a new such key is to be.
#[derive(Drop)]
pub struct HkdfPrfKeyFormat {
    pub params: Option<HkdfPrfParams>,
    /// In bytes.
    pub key_size: u32,
    pub version: u32,
}

impl Message for HkdfPrfKeyFormat {
    ghost use Rattle.tink_proto_keys.specs.Prf.{hkdf_prf_key_format};

    ghost table = { hkdf_prf_key_format };

    fn new(_alloc: Global) -> HkdfPrfKeyFormat {
        HkdfPrfKeyFormat {
            params: None,
            key_size: 0,
            version: 0,
        }
    }

    fn read_field(&mut self, alloc: Global, field: &Field) -> Result<(), ProtoError> {
        read_fields!(self, alloc, field; 1 message params, 2 number key_size, 3 number version)
    }

    #[tactic(auto, using(std::proofs::Common::append_assoc, wire_format::proofs::WritingLaws::spelling_append))]
    fn write_fields(&self, alloc: Global, out: &mut Vec<u8>) -> Result<(), AllocError> {
        write_fields!(self, alloc, out; 1 message params, 2 number key_size, 3 number version)
    }

    fn try_clone(&self, alloc: Global) -> Result<HkdfPrfKeyFormat, ProtoError> {
        clone_fields!(HkdfPrfKeyFormat, self, alloc; message params, number key_size, number version)
    }
}

/// The hash of HMAC as a PRF.
#[derive(Drop)]
pub struct HmacPrfParams {
    /// A number of `HashType`.
    pub hash: i32,
}

impl Message for HmacPrfParams {
    ghost use Rattle.tink_proto_keys.specs.Prf.{hmac_prf_params};

    ghost table = { hmac_prf_params };

    fn new(_alloc: Global) -> HmacPrfParams {
        HmacPrfParams { hash: 0 }
    }

    fn read_field(&mut self, _alloc: Global, field: &Field) -> Result<(), ProtoError> {
        read_fields!(self, _alloc, field; 1 choice hash)
    }

    fn write_fields(&self, _alloc: Global, out: &mut Vec<u8>) -> Result<(), AllocError> {
        write_fields!(self, _alloc, out; 1 choice hash)
    }

    fn try_clone(&self, _alloc: Global) -> Result<HmacPrfParams, ProtoError> {
        clone_fields!(HmacPrfParams, self, _alloc; choice hash)
    }
}

/// A key of HMAC as a PRF.
pub type HmacPrfKey = KeyWith<HmacPrfParams>;

/// What a new such key is to be.
pub type HmacPrfKeyFormat = FormatWith<HmacPrfParams>;

/// A key of AES-CMAC as a PRF.
#[derive(Drop)]
pub struct AesCmacPrfKey {
    pub version: u32,
    pub key_value: Bytes,
}

impl Message for AesCmacPrfKey {
    ghost use Rattle.tink_proto_keys.specs.Prf.{aes_cmac_prf_key};

    ghost table = { aes_cmac_prf_key };

    fn new(alloc: Global) -> AesCmacPrfKey {
        AesCmacPrfKey {
            version: 0,
            key_value: Bytes::new(alloc),
        }
    }

    fn read_field(&mut self, alloc: Global, field: &Field) -> Result<(), ProtoError> {
        read_fields!(self, alloc, field; 1 number version, 2 bytes key_value)
    }

    #[tactic(auto, using(std::proofs::Common::append_assoc, wire_format::proofs::WritingLaws::spelling_append))]
    fn write_fields(&self, _alloc: Global, out: &mut Vec<u8>) -> Result<(), AllocError> {
        write_fields!(self, _alloc, out; 1 number version, 2 bytes key_value)
    }

    fn try_clone(&self, alloc: Global) -> Result<AesCmacPrfKey, ProtoError> {
        clone_fields!(AesCmacPrfKey, self, alloc; number version, bytes key_value)
    }
}

/// What a new such key is to be.
#[derive(Drop)]
pub struct AesCmacPrfKeyFormat {
    /// In bytes.
    pub key_size: u32,
    pub version: u32,
}

impl Message for AesCmacPrfKeyFormat {
    ghost use Rattle.tink_proto_keys.specs.Prf.{aes_cmac_prf_key_format};

    ghost table = { aes_cmac_prf_key_format };

    fn new(_alloc: Global) -> AesCmacPrfKeyFormat {
        AesCmacPrfKeyFormat {
            key_size: 0,
            version: 0,
        }
    }

    fn read_field(&mut self, _alloc: Global, field: &Field) -> Result<(), ProtoError> {
        read_fields!(self, _alloc, field; 1 number key_size, 2 number version)
    }

    #[tactic(auto, using(std::proofs::Common::append_assoc, wire_format::proofs::WritingLaws::spelling_append))]
    fn write_fields(&self, _alloc: Global, out: &mut Vec<u8>) -> Result<(), AllocError> {
        write_fields!(self, _alloc, out; 1 number key_size, 2 number version)
    }

    fn try_clone(&self, _alloc: Global) -> Result<AesCmacPrfKeyFormat, ProtoError> {
        clone_fields!(AesCmacPrfKeyFormat, self, _alloc; number key_size, number version)
    }
}
