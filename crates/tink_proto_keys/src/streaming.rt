//! Keys of streaming encryption and their formats.

use crate::fields::{clone_fields, read_fields, write_fields};
use crate::mac::HmacParams;
use crate::with_params::{FormatWith, KeyWith};
use std::alloc::{AllocError, Global};
use tink_proto::wire::{Field, Message};
use tink_proto::{Bytes, ProtoError};

/// How a text is cut and its segments sealed by AES-CTR and HMAC.
#[derive(Drop)]
pub struct AesCtrHmacStreamingParams {
    /// In bytes.
    pub ciphertext_segment_size: u32,
    /// In bytes.
    pub derived_key_size: u32,
    /// A number of `HashType`.
    pub hkdf_hash_type: i32,
    pub hmac_params: Option<HmacParams>,
}

impl Message for AesCtrHmacStreamingParams {
    ghost use Rattle.tink_proto_keys.specs.Streaming.{aes_ctr_hmac_streaming_params};

    ghost table = { aes_ctr_hmac_streaming_params };

    fn new(_alloc: Global) -> AesCtrHmacStreamingParams {
        AesCtrHmacStreamingParams {
            ciphertext_segment_size: 0,
            derived_key_size: 0,
            hkdf_hash_type: 0,
            hmac_params: None,
        }
    }

    fn read_field(&mut self, alloc: Global, field: &Field) -> Result<(), ProtoError> {
        read_fields!(
            self, alloc, field;
            1 number ciphertext_segment_size, 2 number derived_key_size, 3 choice hkdf_hash_type, 4 message hmac_params
        )
    }

    #[tactic(auto, using(std::proofs::Common::append_assoc, wire_format::proofs::WritingLaws::spelling_append))]
    fn write_fields(&self, alloc: Global, out: &mut Vec<u8>) -> Result<(), AllocError> {
        write_fields!(
            self, alloc, out;
            1 number ciphertext_segment_size, 2 number derived_key_size, 3 choice hkdf_hash_type, 4 message hmac_params
        )
    }

    fn try_clone(&self, alloc: Global) -> Result<AesCtrHmacStreamingParams, ProtoError> {
        clone_fields!(
            AesCtrHmacStreamingParams, self, alloc;
            number ciphertext_segment_size, number derived_key_size, choice hkdf_hash_type, message hmac_params
        )
    }
}

/// A key of streaming encryption by AES-CTR and HMAC.
pub type AesCtrHmacStreamingKey = KeyWith<AesCtrHmacStreamingParams>;

/// What a new such key is to be.
pub type AesCtrHmacStreamingKeyFormat = FormatWith<AesCtrHmacStreamingParams>;

/// How a text is cut and its segments sealed by AES-GCM.
#[derive(Drop)]
pub struct AesGcmHkdfStreamingParams {
    /// In bytes.
    pub ciphertext_segment_size: u32,
    /// In bytes.
    pub derived_key_size: u32,
    /// A number of `HashType`.
    pub hkdf_hash_type: i32,
}

impl Message for AesGcmHkdfStreamingParams {
    ghost use Rattle.tink_proto_keys.specs.Streaming.{aes_gcm_hkdf_streaming_params};

    ghost table = { aes_gcm_hkdf_streaming_params };

    fn new(_alloc: Global) -> AesGcmHkdfStreamingParams {
        AesGcmHkdfStreamingParams {
            ciphertext_segment_size: 0,
            derived_key_size: 0,
            hkdf_hash_type: 0,
        }
    }

    fn read_field(&mut self, _alloc: Global, field: &Field) -> Result<(), ProtoError> {
        read_fields!(
            self, _alloc, field;
            1 number ciphertext_segment_size, 2 number derived_key_size, 3 choice hkdf_hash_type
        )
    }

    #[tactic(auto, using(std::proofs::Common::append_assoc, wire_format::proofs::WritingLaws::spelling_append))]
    fn write_fields(&self, _alloc: Global, out: &mut Vec<u8>) -> Result<(), AllocError> {
        write_fields!(
            self, _alloc, out;
            1 number ciphertext_segment_size, 2 number derived_key_size, 3 choice hkdf_hash_type
        )
    }

    fn try_clone(&self, _alloc: Global) -> Result<AesGcmHkdfStreamingParams, ProtoError> {
        clone_fields!(
            AesGcmHkdfStreamingParams, self, _alloc;
            number ciphertext_segment_size, number derived_key_size, choice hkdf_hash_type
        )
    }
}

/// A key of streaming encryption by AES-GCM.
pub type AesGcmHkdfStreamingKey = KeyWith<AesGcmHkdfStreamingParams>;

/// What a new such key is to be.
pub type AesGcmHkdfStreamingKeyFormat = FormatWith<AesGcmHkdfStreamingParams>;
