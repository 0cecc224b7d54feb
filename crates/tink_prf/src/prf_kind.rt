//! One pseudorandom function of any of the three kinds.

ghost use Rattle.tink_prf.specs.PrfKinds.{kind_output, kind_output_told};

use crate::subtle::{AesCmacPrf, HkdfPrf, HmacPrf};
use std::alloc::Global;
use tink_io::TinkError;
use tink_primitives::{CloneIn, Kinds, Never, Prf};
use tink_proto::Bytes;

/// A pseudorandom function of one of the three kinds.
#[derive(Drop)]
pub enum PrfKind {
    /// A prefix of a CMAC.
    AesCmac(AesCmacPrf),
    /// HKDF's output.
    Hkdf(HkdfPrf),
    /// A prefix of an HMAC.
    Hmac(HmacPrf),
}

impl CloneIn for PrfKind {
    fn try_clone(&self, alloc: Global) -> Result<Self, TinkError> {
        match self {
            PrfKind::AesCmac(prf) => Ok(PrfKind::AesCmac(prf.try_clone(alloc)?)),
            PrfKind::Hkdf(prf) => Ok(PrfKind::Hkdf(prf.try_clone(alloc)?)),
            PrfKind::Hmac(prf) => Ok(PrfKind::Hmac(prf.try_clone(alloc)?)),
        }
    }

    fn try_prepared(&self, alloc: Global) -> Result<Self, TinkError> {
        match self {
            PrfKind::AesCmac(prf) => Ok(PrfKind::AesCmac(prf.try_prepared(alloc)?)),
            PrfKind::Hkdf(prf) => Ok(PrfKind::Hkdf(prf.try_prepared(alloc)?)),
            PrfKind::Hmac(prf) => Ok(PrfKind::Hmac(prf.try_prepared(alloc)?)),
        }
    }
}

impl Prf for PrfKind {
    ghost computes = { kind_output };

    fn compute_prf(
        &self,
        alloc: Global,
        input: &[u8],
        output_length: usize,
    ) -> Result<Bytes, TinkError> {
        match self {
            PrfKind::AesCmac(prf) => prf.compute_prf(alloc, input, output_length),
            PrfKind::Hkdf(prf) => prf.compute_prf(alloc, input, output_length),
            PrfKind::Hmac(prf) => prf.compute_prf(alloc, input, output_length),
        }
    }

    ghost computes_told = { kind_output_told };
}

/// The family whose one sort is pseudorandom functions.
pub struct PrfKinds;

impl Kinds for PrfKinds {
    type Aead = Never;

    type DeterministicAead = Never;

    type HybridDecrypt = Never;

    type HybridEncrypt = Never;

    type Mac = Never;

    type Prf = PrfKind;

    type Signer = Never;

    type StreamingAead = Never;

    type Verifier = Never;
}
