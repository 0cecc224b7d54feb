//! Keys of streams of either kind.

use crate::aes_ctr_hmac::AesCtrHmac;
use crate::aes_gcm_hkdf::AesGcmHkdf;
use crate::stream_params::{DerivesStreams, StreamParams};
use std::alloc::Global;
use tink_io::TinkError;
use tink_primitives::{CloneIn, Kinds, Never};
use tink_sets::TypedEntry;

/// A key of streams.
#[derive(Drop)]
pub enum StreamKind {
    /// Segments in AES counter mode, with HMAC.
    CtrHmac(AesCtrHmac),
    /// Segments by AES-GCM.
    GcmHkdf(AesGcmHkdf),
}

impl DerivesStreams for StreamKind {
    ghost use Rattle.tink_streaming_keys.specs.StreamKinds as kinds;

    ghost key_of = { kinds.key_of };

    fn main_key(&self) -> &[u8] {
        match self {
            StreamKind::CtrHmac(key) => key.main_key(),
            StreamKind::GcmHkdf(key) => key.main_key(),
        }
    }

    fn params(&self) -> &StreamParams {
        match self {
            StreamKind::CtrHmac(key) => key.params(),
            StreamKind::GcmHkdf(key) => key.params(),
        }
    }

    fn output_prefix(&self) -> &[u8] {
        match self {
            StreamKind::CtrHmac(key) => key.output_prefix(),
            StreamKind::GcmHkdf(key) => key.output_prefix(),
        }
    }
}

/// A key of a set, with its output prefix before the header of its streams.
impl DerivesStreams for TypedEntry<StreamKind> {
    ghost use Rattle.tink_streaming_keys.specs.StreamKinds as kinds;

    ghost key_of = { kinds.key_in_set };

    fn main_key(&self) -> &[u8] {
        self.primitive.main_key()
    }

    fn params(&self) -> &StreamParams {
        self.primitive.params()
    }

    fn output_prefix(&self) -> &[u8] {
        self.prefix.as_slice()
    }
}

impl CloneIn for StreamKind {
    fn try_clone(&self, alloc: Global) -> Result<Self, TinkError> {
        match self {
            StreamKind::CtrHmac(key) => Ok(StreamKind::CtrHmac(key.try_clone(alloc)?)),
            StreamKind::GcmHkdf(key) => Ok(StreamKind::GcmHkdf(key.try_clone(alloc)?)),
        }
    }
}

/// The family whose one sort is streaming AEADs.
pub struct StreamKinds;

impl Kinds for StreamKinds {
    type Aead = Never;

    type DeterministicAead = Never;

    type HybridDecrypt = Never;

    type HybridEncrypt = Never;

    type Mac = Never;

    type Prf = Never;

    type Signer = Never;

    type StreamingAead = StreamKind;

    type Verifier = Never;
}
