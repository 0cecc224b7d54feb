//! The family of deterministic AEADs.

use crate::subtle::AesSiv;
use tink_primitives::{Kinds, Never};

/// The family whose one sort is deterministic AEADs.
pub struct DaeadKinds;

impl Kinds for DaeadKinds {
    type Aead = Never;

    type DeterministicAead = AesSiv;

    type HybridDecrypt = Never;

    type HybridEncrypt = Never;

    type Mac = Never;

    type Prf = Never;

    type Signer = Never;

    type StreamingAead = Never;

    type Verifier = Never;
}
