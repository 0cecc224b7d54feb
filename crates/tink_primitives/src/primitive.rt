//! A primitive of any sort.

ghost use Rattle.std.specs.Prelude.{◌≡◌};
ghost use Rattle.tink_io.specs.declared.error.Kind.TheVariants.{WrongPrimitive};
ghost use Rattle.tink_io.specs.Answering.{Tells};
ghost use Rattle.tink_primitives.specs.Sorts.{as_aead, as_deterministic_aead, as_hybrid_decrypt, as_hybrid_encrypt};
ghost use Rattle.tink_primitives.specs.Sorts.{as_mac, as_prf, as_signer, as_streaming_aead, as_verifier};

use crate::{CloneIn, Kinds};
use std::alloc::Global;
use tink_io::{Kind, TinkError};

/// A primitive of one of the nine sorts.
#[derive(Drop)]
pub enum Primitive<K: Kinds> {
    Aead(K::Aead),
    DeterministicAead(K::DeterministicAead),
    HybridDecrypt(K::HybridDecrypt),
    HybridEncrypt(K::HybridEncrypt),
    Mac(K::Mac),
    Prf(K::Prf),
    Signer(K::Signer),
    StreamingAead(K::StreamingAead),
    Verifier(K::Verifier),
}

impl<K: Kinds> Primitive<K> {
    // Gives a primitive of another sort up, and says so.
    fn into_wrong(self) -> TinkError
        ensures value { result ≡ record { kind = WrongPrimitive } }
    {
        TinkError::new(Kind::WrongPrimitive)
    }

    /// The AEAD.
    ///
    /// # Errors
    /// `WrongPrimitive` exactly if it is of another sort.
    pub fn into_aead(self) -> Result<K::Aead, TinkError>
        ensures value { Tells result (as_aead self) }
    {
        match self {
            Primitive::Aead(p) => Ok(p),
            other => Err(other.into_wrong()),
        }
    }

    /// The deterministic AEAD.
    ///
    /// # Errors
    /// `WrongPrimitive` exactly if it is of another sort.
    pub fn into_deterministic_aead(self) -> Result<K::DeterministicAead, TinkError>
        ensures value { Tells result (as_deterministic_aead self) }
    {
        match self {
            Primitive::DeterministicAead(p) => Ok(p),
            other => Err(other.into_wrong()),
        }
    }

    /// The hybrid decryption.
    ///
    /// # Errors
    /// `WrongPrimitive` exactly if it is of another sort.
    pub fn into_hybrid_decrypt(self) -> Result<K::HybridDecrypt, TinkError>
        ensures value { Tells result (as_hybrid_decrypt self) }
    {
        match self {
            Primitive::HybridDecrypt(p) => Ok(p),
            other => Err(other.into_wrong()),
        }
    }

    /// The hybrid encryption.
    ///
    /// # Errors
    /// `WrongPrimitive` exactly if it is of another sort.
    pub fn into_hybrid_encrypt(self) -> Result<K::HybridEncrypt, TinkError>
        ensures value { Tells result (as_hybrid_encrypt self) }
    {
        match self {
            Primitive::HybridEncrypt(p) => Ok(p),
            other => Err(other.into_wrong()),
        }
    }

    /// The MAC.
    ///
    /// # Errors
    /// `WrongPrimitive` exactly if it is of another sort.
    pub fn into_mac(self) -> Result<K::Mac, TinkError>
        ensures value { Tells result (as_mac self) }
    {
        match self {
            Primitive::Mac(p) => Ok(p),
            other => Err(other.into_wrong()),
        }
    }

    /// The pseudorandom function.
    ///
    /// # Errors
    /// `WrongPrimitive` exactly if it is of another sort.
    pub fn into_prf(self) -> Result<K::Prf, TinkError>
        ensures value { Tells result (as_prf self) }
    {
        match self {
            Primitive::Prf(p) => Ok(p),
            other => Err(other.into_wrong()),
        }
    }

    /// The signer.
    ///
    /// # Errors
    /// `WrongPrimitive` exactly if it is of another sort.
    pub fn into_signer(self) -> Result<K::Signer, TinkError>
        ensures value { Tells result (as_signer self) }
    {
        match self {
            Primitive::Signer(p) => Ok(p),
            other => Err(other.into_wrong()),
        }
    }

    /// The streaming AEAD.
    ///
    /// # Errors
    /// `WrongPrimitive` exactly if it is of another sort.
    pub fn into_streaming_aead(self) -> Result<K::StreamingAead, TinkError>
        ensures value { Tells result (as_streaming_aead self) }
    {
        match self {
            Primitive::StreamingAead(p) => Ok(p),
            other => Err(other.into_wrong()),
        }
    }

    /// The verifier.
    ///
    /// # Errors
    /// `WrongPrimitive` exactly if it is of another sort.
    pub fn into_verifier(self) -> Result<K::Verifier, TinkError>
        ensures value { Tells result (as_verifier self) }
    {
        match self {
            Primitive::Verifier(p) => Ok(p),
            other => Err(other.into_wrong()),
        }
    }
}

impl<K: Kinds> CloneIn for Primitive<K> {
    fn try_clone(&self, alloc: Global) -> Result<Self, TinkError> {
        Ok(match self {
            Primitive::Aead(p) => Primitive::Aead(p.try_clone(alloc)?),
            Primitive::DeterministicAead(p) => Primitive::DeterministicAead(p.try_clone(alloc)?),
            Primitive::HybridDecrypt(p) => Primitive::HybridDecrypt(p.try_clone(alloc)?),
            Primitive::HybridEncrypt(p) => Primitive::HybridEncrypt(p.try_clone(alloc)?),
            Primitive::Mac(p) => Primitive::Mac(p.try_clone(alloc)?),
            Primitive::Prf(p) => Primitive::Prf(p.try_clone(alloc)?),
            Primitive::Signer(p) => Primitive::Signer(p.try_clone(alloc)?),
            Primitive::StreamingAead(p) => Primitive::StreamingAead(p.try_clone(alloc)?),
            Primitive::Verifier(p) => Primitive::Verifier(p.try_clone(alloc)?),
        })
    }

    fn try_prepared(&self, alloc: Global) -> Result<Self, TinkError> {
        Ok(match self {
            Primitive::Aead(p) => Primitive::Aead(p.try_prepared(alloc)?),
            Primitive::DeterministicAead(p) => Primitive::DeterministicAead(p.try_prepared(alloc)?),
            Primitive::HybridDecrypt(p) => Primitive::HybridDecrypt(p.try_prepared(alloc)?),
            Primitive::HybridEncrypt(p) => Primitive::HybridEncrypt(p.try_prepared(alloc)?),
            Primitive::Mac(p) => Primitive::Mac(p.try_prepared(alloc)?),
            Primitive::Prf(p) => Primitive::Prf(p.try_prepared(alloc)?),
            Primitive::Signer(p) => Primitive::Signer(p.try_prepared(alloc)?),
            Primitive::StreamingAead(p) => Primitive::StreamingAead(p.try_prepared(alloc)?),
            Primitive::Verifier(p) => Primitive::Verifier(p.try_prepared(alloc)?),
        })
    }
}
