//! The nine sorts of primitives, as types by which a caller names one.

ghost use Rattle.std.specs.Prelude.{◌≡◌, ◌⊎◌, Result, Ok, Err, IfOk, IfErr};
ghost use Rattle.tink_io.specs.declared.error.Kind.{Kind};
ghost use Rattle.tink_io.specs.declared.error.Kind.TheVariants.{OutOfMemory, WrongPrimitive};
ghost use Rattle.tink_io.specs.Answering.{Answers, Tells};
ghost use Rattle.tink_primitives.specs.Sorts.{as_aead, as_deterministic_aead, as_hybrid_decrypt, as_hybrid_encrypt, as_mac, as_prf, as_signer, as_streaming_aead, as_verifier};
ghost use Rattle.tink_primitives.specs.declared.primitive.Primitive.{Primitive};
ghost use Rattle.tink_sets.specs.Entries.{typed_by, with_primitive};
ghost use Rattle.tink_sets.specs.SortLaws.{aead_or_wrong, deterministic_aead_or_wrong, hybrid_decrypt_or_wrong, hybrid_encrypt_or_wrong, mac_or_wrong, prf_or_wrong, signer_or_wrong, streaming_aead_or_wrong, verifier_or_wrong};

use crate::entry::{beside, clone_parts, prepared_parts};
use crate::{Entry, TypedEntry};
use std::alloc::Global;
use tink_io::TinkError;
use tink_primitives::{CloneIn, Kinds, Primitive};
use tink_proto::Bytes;
use tink_set_groups::Convert;

/// A sort of the primitives of a family.
pub trait Sort<K: Kinds> {
    /// The family's type of this sort.
    type Of: Drop;

    // A primitive as one of the sort.
    ghost picks: { Primitive K K.Aead K.DeterministicAead K.HybridDecrypt K.HybridEncrypt K.Mac K.Prf K.Signer K.StreamingAead K.Verifier → Result Self.Of Kind };

    /// The primitive as one of the sort.
    ///
    /// # Errors
    /// `WrongPrimitive` exactly if it is of another sort.
    fn pick(p: Primitive<K>) -> Result<Self::Of, TinkError>
        ensures value { Tells result (picks p) };

    // A primitive is of the sort, or of another.
    ghost one_refusal: { (p : Primitive K K.Aead K.DeterministicAead K.HybridDecrypt K.HybridEncrypt K.Mac K.Prf K.Signer K.StreamingAead K.Verifier) (k : Kind) → picks p ≡ Err k → k ≡ WrongPrimitive };
}

// Entries of a sort, each with a copy of its primitive.
pub(crate) struct Typed<S>(S);

impl<K: Kinds, S: Sort<K>> Convert<Entry<K>> for Typed<S> {
    type To = TypedEntry<S::Of>;

    ghost gives = { typed_by S.picks };

    fn convert(alloc: Global, from: &Entry<K>) -> Result<TypedEntry<S::Of>, TinkError> {
        match clone_parts(alloc, &from.primitive, &from.prefix) {
            Ok((primitive, prefix)) => typed_entry::<K, S>(primitive, prefix, from),
            Err(e) => Err(e),
        }
    }
}

// Entries of a sort, each with a primitive that is prepared for many calls.
pub(crate) struct Prepared<S>(S);

impl<K: Kinds, S: Sort<K>> Convert<Entry<K>> for Prepared<S> {
    type To = TypedEntry<S::Of>;

    ghost gives = { typed_by S.picks };

    fn convert(alloc: Global, from: &Entry<K>) -> Result<TypedEntry<S::Of>, TinkError> {
        match prepared_parts(alloc, &from.primitive, &from.prefix) {
            Ok((primitive, prefix)) => typed_entry::<K, S>(primitive, prefix, from),
            Err(e) => Err(e),
        }
    }
}

// An entry as one of a sort, by copies of its primitive and its prefix.
fn typed_entry<K: Kinds, S: Sort<K>>(
    primitive: Primitive<K>,
    prefix: Bytes,
    from: &Entry<K>,
) -> Result<TypedEntry<S::Of>, TinkError>
    requires primitive { primitive ≡ from.now.primitive }
    requires prefix { prefix ≡ from.now.prefix }
    ensures answer { Answers result (typed_by S.picks from.now) }
{
    match beside(prefix, S::pick(primitive)) {
        Ok((prefix, primitive)) => Ok(TypedEntry {
            key_id: from.key_id,
            primitive,
            prefix,
            prefix_type: from.prefix_type,
            status: from.status,
        }),
        Err(e) => Err(e),
    }
}

/// The sort of AEADs.
pub struct Aeads;

impl<K: Kinds> Sort<K> for Aeads {
    type Of = K::Aead;

    ghost picks = { as_aead };

    fn pick(p: Primitive<K>) -> Result<K::Aead, TinkError>
        ensures value { Tells result (as_aead p) }
    {
        p.into_aead()
    }

    ghost one_refusal = { aead_or_wrong };
}

/// The sort of deterministic AEADs.
pub struct DeterministicAeads;

impl<K: Kinds> Sort<K> for DeterministicAeads {
    type Of = K::DeterministicAead;

    ghost picks = { as_deterministic_aead };

    fn pick(p: Primitive<K>) -> Result<K::DeterministicAead, TinkError>
        ensures value { Tells result (as_deterministic_aead p) }
    {
        p.into_deterministic_aead()
    }

    ghost one_refusal = { deterministic_aead_or_wrong };
}

/// The sort of hybrid decryptions.
pub struct HybridDecrypters;

impl<K: Kinds> Sort<K> for HybridDecrypters {
    type Of = K::HybridDecrypt;

    ghost picks = { as_hybrid_decrypt };

    fn pick(p: Primitive<K>) -> Result<K::HybridDecrypt, TinkError>
        ensures value { Tells result (as_hybrid_decrypt p) }
    {
        p.into_hybrid_decrypt()
    }

    ghost one_refusal = { hybrid_decrypt_or_wrong };
}

/// The sort of hybrid encryptions.
pub struct HybridEncrypters;

impl<K: Kinds> Sort<K> for HybridEncrypters {
    type Of = K::HybridEncrypt;

    ghost picks = { as_hybrid_encrypt };

    fn pick(p: Primitive<K>) -> Result<K::HybridEncrypt, TinkError>
        ensures value { Tells result (as_hybrid_encrypt p) }
    {
        p.into_hybrid_encrypt()
    }

    ghost one_refusal = { hybrid_encrypt_or_wrong };
}

/// The sort of MACs.
pub struct Macs;

impl<K: Kinds> Sort<K> for Macs {
    type Of = K::Mac;

    ghost picks = { as_mac };

    fn pick(p: Primitive<K>) -> Result<K::Mac, TinkError>
        ensures value { Tells result (as_mac p) }
    {
        p.into_mac()
    }

    ghost one_refusal = { mac_or_wrong };
}

/// The sort of pseudorandom functions.
pub struct Prfs;

impl<K: Kinds> Sort<K> for Prfs {
    type Of = K::Prf;

    ghost picks = { as_prf };

    fn pick(p: Primitive<K>) -> Result<K::Prf, TinkError>
        ensures value { Tells result (as_prf p) }
    {
        p.into_prf()
    }

    ghost one_refusal = { prf_or_wrong };
}

/// The sort of signers.
pub struct Signers;

impl<K: Kinds> Sort<K> for Signers {
    type Of = K::Signer;

    ghost picks = { as_signer };

    fn pick(p: Primitive<K>) -> Result<K::Signer, TinkError>
        ensures value { Tells result (as_signer p) }
    {
        p.into_signer()
    }

    ghost one_refusal = { signer_or_wrong };
}

/// The sort of streaming AEADs.
pub struct StreamingAeads;

impl<K: Kinds> Sort<K> for StreamingAeads {
    type Of = K::StreamingAead;

    ghost picks = { as_streaming_aead };

    fn pick(p: Primitive<K>) -> Result<K::StreamingAead, TinkError>
        ensures value { Tells result (as_streaming_aead p) }
    {
        p.into_streaming_aead()
    }

    ghost one_refusal = { streaming_aead_or_wrong };
}

/// The sort of verifiers.
pub struct Verifiers;

impl<K: Kinds> Sort<K> for Verifiers {
    type Of = K::Verifier;

    ghost picks = { as_verifier };

    fn pick(p: Primitive<K>) -> Result<K::Verifier, TinkError>
        ensures value { Tells result (as_verifier p) }
    {
        p.into_verifier()
    }

    ghost one_refusal = { verifier_or_wrong };
}
