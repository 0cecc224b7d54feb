//! One MAC of either kind.

ghost use Rattle.tink_mac.specs.MacKinds.{kind_computes, kind_verifies, kind_verifies_told};

use crate::subtle::{AesCmac, Hmac};
use std::alloc::Global;
use tink_io::TinkError;
use tink_primitives::{CloneIn, Kinds, Mac, Never};
use tink_proto::Bytes;

/// A MAC of one of the two kinds.
#[derive(Drop)]
pub enum MacKind {
    /// A prefix of a CMAC.
    AesCmac(AesCmac),
    /// A prefix of an HMAC.
    Hmac(Hmac),
}

impl CloneIn for MacKind {
    fn try_clone(&self, alloc: Global) -> Result<Self, TinkError> {
        match self {
            MacKind::AesCmac(mac) => Ok(MacKind::AesCmac(mac.try_clone(alloc)?)),
            MacKind::Hmac(mac) => Ok(MacKind::Hmac(mac.try_clone(alloc)?)),
        }
    }

    fn try_prepared(&self, alloc: Global) -> Result<Self, TinkError> {
        match self {
            MacKind::AesCmac(mac) => Ok(MacKind::AesCmac(mac.try_prepared(alloc)?)),
            MacKind::Hmac(mac) => Ok(MacKind::Hmac(mac.try_prepared(alloc)?)),
        }
    }
}

impl Mac for MacKind {
    ghost computes = { kind_computes };

    ghost verifies = { kind_verifies };

    fn compute_mac(&self, alloc: Global, message: &[u8]) -> Result<Bytes, TinkError> {
        match self {
            MacKind::AesCmac(mac) => mac.compute_mac(alloc, message),
            MacKind::Hmac(mac) => mac.compute_mac(alloc, message),
        }
    }

    fn verify_mac(&self, alloc: Global, mac: &[u8], message: &[u8]) -> Result<(), TinkError> {
        match self {
            MacKind::AesCmac(own) => own.verify_mac(alloc, mac, message),
            MacKind::Hmac(own) => own.verify_mac(alloc, mac, message),
        }
    }

    ghost computes_told = { λ _ _. tt };

    ghost verifies_told = { kind_verifies_told };
}

/// The family whose one sort is MACs.
pub struct MacKinds;

impl Kinds for MacKinds {
    type Aead = Never;

    type DeterministicAead = Never;

    type HybridDecrypt = Never;

    type HybridEncrypt = Never;

    type Mac = MacKind;

    type Prf = Never;

    type Signer = Never;

    type StreamingAead = Never;

    type Verifier = Never;
}
