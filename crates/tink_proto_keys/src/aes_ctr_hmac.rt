//! Keys of AEAD by AES-CTR and HMAC and their formats.

use crate::fields::{clone_fields, read_fields, write_fields};
use crate::mac::{HmacKey, HmacKeyFormat};
use crate::with_params::KeyWith;
use std::alloc::{AllocError, Global};
use tink_proto::wire::{Field, Message};
use tink_proto::{Bytes, ProtoError};

/// The size of the IV of AES-CTR.
#[derive(Drop)]
pub struct AesCtrParams {
    /// In bytes.
    pub iv_size: u32,
}

impl Message for AesCtrParams {
    ghost use Rattle.tink_proto_keys.specs.AesCtrHmac.{aes_ctr_params};

    ghost table = { aes_ctr_params };

    fn new(_alloc: Global) -> AesCtrParams {
        AesCtrParams { iv_size: 0 }
    }

    fn read_field(&mut self, _alloc: Global, field: &Field) -> Result<(), ProtoError> {
        read_fields!(self, _alloc, field; 1 number iv_size)
    }

    fn write_fields(&self, _alloc: Global, out: &mut Vec<u8>) -> Result<(), AllocError> {
        write_fields!(self, _alloc, out; 1 number iv_size)
    }

    fn try_clone(&self, _alloc: Global) -> Result<AesCtrParams, ProtoError> {
        clone_fields!(AesCtrParams, self, _alloc; number iv_size)
    }
}

/// A key of AES-CTR.
pub type AesCtrKey = KeyWith<AesCtrParams>;

/// What a new such key is to be.
#[derive(Drop)]
pub struct AesCtrKeyFormat {
    pub params: Option<AesCtrParams>,
    /// In bytes.
    pub key_size: u32,
}

impl Message for AesCtrKeyFormat {
    ghost use Rattle.tink_proto_keys.specs.AesCtrHmac.{aes_ctr_key_format};

    ghost table = { aes_ctr_key_format };

    fn new(_alloc: Global) -> AesCtrKeyFormat {
        AesCtrKeyFormat {
            params: None,
            key_size: 0,
        }
    }

    fn read_field(&mut self, alloc: Global, field: &Field) -> Result<(), ProtoError> {
        read_fields!(self, alloc, field; 1 message params, 2 number key_size)
    }

    #[tactic(auto, using(std::proofs::Common::append_assoc, wire_format::proofs::WritingLaws::spelling_append))]
    fn write_fields(&self, alloc: Global, out: &mut Vec<u8>) -> Result<(), AllocError> {
        write_fields!(self, alloc, out; 1 message params, 2 number key_size)
    }

    fn try_clone(&self, alloc: Global) -> Result<AesCtrKeyFormat, ProtoError> {
        clone_fields!(AesCtrKeyFormat, self, alloc; message params, number key_size)
    }
}

/// A key of AES-CTR and one of HMAC, which encrypt and then authenticate.
#[derive(Drop)]
pub struct AesCtrHmacAeadKey {
    pub version: u32,
    pub aes_ctr_key: Option<AesCtrKey>,
    pub hmac_key: Option<HmacKey>,
}

impl Message for AesCtrHmacAeadKey {
    ghost use Rattle.tink_proto_keys.specs.AesCtrHmac.{aes_ctr_hmac_aead_key};

    ghost table = { aes_ctr_hmac_aead_key };

    fn new(_alloc: Global) -> AesCtrHmacAeadKey {
        AesCtrHmacAeadKey {
            version: 0,
            aes_ctr_key: None,
            hmac_key: None,
        }
    }

    fn read_field(&mut self, alloc: Global, field: &Field) -> Result<(), ProtoError> {
        read_fields!(self, alloc, field; 1 number version, 2 message aes_ctr_key, 3 message hmac_key)
    }

    #[tactic(auto, using(std::proofs::Common::append_assoc, wire_format::proofs::WritingLaws::spelling_append))]
    fn write_fields(&self, alloc: Global, out: &mut Vec<u8>) -> Result<(), AllocError> {
        write_fields!(self, alloc, out; 1 number version, 2 message aes_ctr_key, 3 message hmac_key)
    }

    fn try_clone(&self, alloc: Global) -> Result<AesCtrHmacAeadKey, ProtoError> {
        clone_fields!(AesCtrHmacAeadKey, self, alloc; number version, message aes_ctr_key, message hmac_key)
    }
}

/// What two such keys are to be.
#[derive(Drop)]
pub struct AesCtrHmacAeadKeyFormat {
    pub aes_ctr_key_format: Option<AesCtrKeyFormat>,
    pub hmac_key_format: Option<HmacKeyFormat>,
}

impl Message for AesCtrHmacAeadKeyFormat {
    ghost use Rattle.tink_proto_keys.specs.AesCtrHmac.{aes_ctr_hmac_aead_key_format};

    ghost table = { aes_ctr_hmac_aead_key_format };

    fn new(_alloc: Global) -> AesCtrHmacAeadKeyFormat {
        AesCtrHmacAeadKeyFormat {
            aes_ctr_key_format: None,
            hmac_key_format: None,
        }
    }

    fn read_field(&mut self, alloc: Global, field: &Field) -> Result<(), ProtoError> {
        read_fields!(self, alloc, field; 1 message aes_ctr_key_format, 2 message hmac_key_format)
    }

    #[tactic(auto, using(std::proofs::Common::append_assoc, wire_format::proofs::WritingLaws::spelling_append))]
    fn write_fields(&self, alloc: Global, out: &mut Vec<u8>) -> Result<(), AllocError> {
        write_fields!(self, alloc, out; 1 message aes_ctr_key_format, 2 message hmac_key_format)
    }

    fn try_clone(&self, alloc: Global) -> Result<AesCtrHmacAeadKeyFormat, ProtoError> {
        clone_fields!(AesCtrHmacAeadKeyFormat, self, alloc; message aes_ctr_key_format, message hmac_key_format)
    }
}
