//! Envelope encryption.

use crate::fields::{clone_fields, read_fields, write_fields};
use std::alloc::{AllocError, Global};
use tink_proto::wire::{Field, Message};
use tink_proto::{KeyTemplate, ProtoError, Text};

/// The URI of the key that encrypts new keys, and what the new keys are to be.
#[derive(Drop)]
pub struct KmsEnvelopeAeadKeyFormat {
    pub kek_uri: Text,
    pub dek_template: Option<KeyTemplate>,
}

impl Message for KmsEnvelopeAeadKeyFormat {
    ghost use Rattle.tink_proto_keys.specs.Envelope.{kms_envelope_aead_key_format};

    ghost table = { kms_envelope_aead_key_format };

    fn new(alloc: Global) -> KmsEnvelopeAeadKeyFormat {
        KmsEnvelopeAeadKeyFormat {
            kek_uri: Text::new(alloc),
            dek_template: None,
        }
    }

    fn read_field(&mut self, alloc: Global, field: &Field) -> Result<(), ProtoError> {
        read_fields!(self, alloc, field; 1 text kek_uri, 2 message dek_template)
    }

    #[tactic(auto, using(std::proofs::Common::append_assoc, wire_format::proofs::WritingLaws::spelling_append))]
    fn write_fields(&self, alloc: Global, out: &mut Vec<u8>) -> Result<(), AllocError> {
        write_fields!(self, alloc, out; 1 text kek_uri, 2 message dek_template)
    }

    fn try_clone(&self, alloc: Global) -> Result<KmsEnvelopeAeadKeyFormat, ProtoError> {
        clone_fields!(KmsEnvelopeAeadKeyFormat, self, alloc; text kek_uri, message dek_template)
    }
}
