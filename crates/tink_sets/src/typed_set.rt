//! Sets of primitives of one sort.

ghost use Rattle.std.specs.Prelude.{◌≡◌, ◌⊎◌, [], None, Some, IfOk, IfErr, MatchOption};
ghost use Rattle.tink_io.specs.declared.error.Kind.TheVariants.{OutOfMemory, WrongPrimitive};
ghost use Rattle.tink_primitives.specs.Sorts.{as_aead, as_deterministic_aead, as_hybrid_decrypt, as_hybrid_encrypt, as_mac, as_prf, as_signer, as_streaming_aead, as_verifier};
ghost use Rattle.tink_set_groups.specs.Groups.{group_at, HaveSameGroups};
ghost use Rattle.tink_set_groups.specs.Converting.{HasRefused};
ghost use Rattle.tink_sets.specs.Entries.{typed_by, AreNotTyped, AreTyped, IsTypedPrimary, IsRefusedPrimary};

use crate::copying::{clone_set, is_small};
use crate::cryptofmt::RAW_PREFIX;
use crate::sorts::{
    Aeads, DeterministicAeads, HybridDecrypters, HybridEncrypters, Macs, Prepared, Prfs, Signers,
    Sort, StreamingAeads, Typed, Verifiers,
};
use crate::{Entry, PrimitiveSet, TypedEntry};
use std::alloc::Global;
use std::collections::BTreeMap;
use tink_io::TinkError;
use tink_primitives::{CloneIn, Kinds};
use tink_proto::Repeated;
use tink_set_groups::{Convert, convert_groups, group_at};

/// The primitives of one sort of a keyset by the prefixes of their keys.
#[derive(Drop)]
pub struct TypedPrimitiveSet<P> {
    /// The entry of the primary key.
    pub primary: Option<TypedEntry<P>>,
    /// The entries of each prefix, in the order in which they were added.
    pub entries: BTreeMap<Vec<u8>, Repeated<TypedEntry<P>>>,
}

impl<P> TypedPrimitiveSet<P> {
    /// The entries without a prefix, in the order in which they were added, or `None` exactly where the set has none.
    pub fn raw_entries(&self) -> Option<&[TypedEntry<P>]>
        ensures value { MatchOption result (group_at self.now.entries [] ≡ None)
            (λ group. group_at self.now.entries [] ≡ Some group.now) }
    {
        self.entries_for_prefix(&RAW_PREFIX)
    }

    /// The entries of a prefix, in the order in which they were added, or `None` exactly where the set has none.
    pub fn entries_for_prefix(&self, prefix: &[u8]) -> Option<&[TypedEntry<P>]>
        ensures value { MatchOption result (group_at self.now.entries prefix.now ≡ None)
            (λ group. group_at self.now.entries prefix.now ≡ Some group.now) }
    {
        group_at(&self.entries, prefix)
    }

    /// The set as one of the sort `S`.
    ///
    /// # Errors
    /// `WrongPrimitive` exactly if an entry or the primary entry is of another sort, or `OutOfMemory`.
    pub fn from_set_of_sort<K: Kinds, S: Sort<K, Of = P>>(
        alloc: Global,
        set: &PrimitiveSet<K>,
    ) -> Result<Self, TinkError>
    where
        P: Drop,
        ensures primary { IfOk result (λ typed. IsTypedPrimary S.picks set.now.primary typed.primary) }
        ensures entries { IfOk result (λ typed. AreTyped S.picks set.now.entries typed.entries) }
        ensures cause { IfErr result (λ e. AreNotTyped S.picks e.kind set.now.primary set.now.entries) }
    {
        from_set::<K, S>(alloc, set)
    }

    /// The set as one of AEADs.
    ///
    /// # Errors
    /// `WrongPrimitive` exactly if an entry or the primary entry is of another sort, or `OutOfMemory`.
    pub fn from_set_aead<K: Kinds<Aead = P>>(
        alloc: Global,
        set: PrimitiveSet<K>,
    ) -> Result<Self, TinkError>
    where
        P: Drop,
        ensures primary { IfOk result (λ typed. IsTypedPrimary as_aead set.primary typed.primary) }
        ensures entries { IfOk result (λ typed. AreTyped as_aead set.entries typed.entries) }
        ensures cause { IfErr result (λ e. AreNotTyped as_aead e.kind set.primary set.entries) }
    {
        from_owned::<K, Aeads>(alloc, set)
    }

    /// The set as one of deterministic AEADs.
    ///
    /// # Errors
    /// `WrongPrimitive` exactly if an entry or the primary entry is of another sort, or `OutOfMemory`.
    pub fn from_set_deterministic_aead<K: Kinds<DeterministicAead = P>>(
        alloc: Global,
        set: PrimitiveSet<K>,
    ) -> Result<Self, TinkError>
    where
        P: Drop,
        ensures primary { IfOk result (λ typed. IsTypedPrimary as_deterministic_aead set.primary typed.primary) }
        ensures entries { IfOk result (λ typed. AreTyped as_deterministic_aead set.entries typed.entries) }
        ensures cause { IfErr result (λ e. AreNotTyped as_deterministic_aead e.kind set.primary set.entries) }
    {
        from_owned::<K, DeterministicAeads>(alloc, set)
    }

    /// The set as one of hybrid decryptions.
    ///
    /// # Errors
    /// `WrongPrimitive` exactly if an entry or the primary entry is of another sort, or `OutOfMemory`.
    pub fn from_set_hybrid_decrypt<K: Kinds<HybridDecrypt = P>>(
        alloc: Global,
        set: PrimitiveSet<K>,
    ) -> Result<Self, TinkError>
    where
        P: Drop,
        ensures primary { IfOk result (λ typed. IsTypedPrimary as_hybrid_decrypt set.primary typed.primary) }
        ensures entries { IfOk result (λ typed. AreTyped as_hybrid_decrypt set.entries typed.entries) }
        ensures cause { IfErr result (λ e. AreNotTyped as_hybrid_decrypt e.kind set.primary set.entries) }
    {
        from_owned::<K, HybridDecrypters>(alloc, set)
    }

    /// The set as one of hybrid encryptions.
    ///
    /// # Errors
    /// `WrongPrimitive` exactly if an entry or the primary entry is of another sort, or `OutOfMemory`.
    pub fn from_set_hybrid_encrypt<K: Kinds<HybridEncrypt = P>>(
        alloc: Global,
        set: PrimitiveSet<K>,
    ) -> Result<Self, TinkError>
    where
        P: Drop,
        ensures primary { IfOk result (λ typed. IsTypedPrimary as_hybrid_encrypt set.primary typed.primary) }
        ensures entries { IfOk result (λ typed. AreTyped as_hybrid_encrypt set.entries typed.entries) }
        ensures cause { IfErr result (λ e. AreNotTyped as_hybrid_encrypt e.kind set.primary set.entries) }
    {
        from_owned::<K, HybridEncrypters>(alloc, set)
    }

    /// The set as one of MACs.
    ///
    /// # Errors
    /// `WrongPrimitive` exactly if an entry or the primary entry is of another sort, or `OutOfMemory`.
    pub fn from_set_mac<K: Kinds<Mac = P>>(
        alloc: Global,
        set: PrimitiveSet<K>,
    ) -> Result<Self, TinkError>
    where
        P: Drop,
        ensures primary { IfOk result (λ typed. IsTypedPrimary as_mac set.primary typed.primary) }
        ensures entries { IfOk result (λ typed. AreTyped as_mac set.entries typed.entries) }
        ensures cause { IfErr result (λ e. AreNotTyped as_mac e.kind set.primary set.entries) }
    {
        from_owned::<K, Macs>(alloc, set)
    }

    /// The set as one of pseudorandom functions.
    ///
    /// # Errors
    /// `WrongPrimitive` exactly if an entry or the primary entry is of another sort, or `OutOfMemory`.
    pub fn from_set_prf<K: Kinds<Prf = P>>(
        alloc: Global,
        set: PrimitiveSet<K>,
    ) -> Result<Self, TinkError>
    where
        P: Drop,
        ensures primary { IfOk result (λ typed. IsTypedPrimary as_prf set.primary typed.primary) }
        ensures entries { IfOk result (λ typed. AreTyped as_prf set.entries typed.entries) }
        ensures cause { IfErr result (λ e. AreNotTyped as_prf e.kind set.primary set.entries) }
    {
        from_owned::<K, Prfs>(alloc, set)
    }

    /// The set as one of signers.
    ///
    /// # Errors
    /// `WrongPrimitive` exactly if an entry or the primary entry is of another sort, or `OutOfMemory`.
    pub fn from_set_signer<K: Kinds<Signer = P>>(
        alloc: Global,
        set: PrimitiveSet<K>,
    ) -> Result<Self, TinkError>
    where
        P: Drop,
        ensures primary { IfOk result (λ typed. IsTypedPrimary as_signer set.primary typed.primary) }
        ensures entries { IfOk result (λ typed. AreTyped as_signer set.entries typed.entries) }
        ensures cause { IfErr result (λ e. AreNotTyped as_signer e.kind set.primary set.entries) }
    {
        from_owned::<K, Signers>(alloc, set)
    }

    /// The set as one of streaming AEADs.
    ///
    /// # Errors
    /// `WrongPrimitive` exactly if an entry or the primary entry is of another sort, or `OutOfMemory`.
    pub fn from_set_streaming_aead<K: Kinds<StreamingAead = P>>(
        alloc: Global,
        set: PrimitiveSet<K>,
    ) -> Result<Self, TinkError>
    where
        P: Drop,
        ensures primary { IfOk result (λ typed. IsTypedPrimary as_streaming_aead set.primary typed.primary) }
        ensures entries { IfOk result (λ typed. AreTyped as_streaming_aead set.entries typed.entries) }
        ensures cause { IfErr result (λ e. AreNotTyped as_streaming_aead e.kind set.primary set.entries) }
    {
        from_owned::<K, StreamingAeads>(alloc, set)
    }

    /// The set as one of verifiers.
    ///
    /// # Errors
    /// `WrongPrimitive` exactly if an entry or the primary entry is of another sort, or `OutOfMemory`.
    pub fn from_set_verifier<K: Kinds<Verifier = P>>(
        alloc: Global,
        set: PrimitiveSet<K>,
    ) -> Result<Self, TinkError>
    where
        P: Drop,
        ensures primary { IfOk result (λ typed. IsTypedPrimary as_verifier set.primary typed.primary) }
        ensures entries { IfOk result (λ typed. AreTyped as_verifier set.entries typed.entries) }
        ensures cause { IfErr result (λ e. AreNotTyped as_verifier e.kind set.primary set.entries) }
    {
        from_owned::<K, Verifiers>(alloc, set)
    }
}

impl<P: CloneIn> TypedPrimitiveSet<P> {
    /// A set with the same primary entry and the same entries under each prefix.
    ///
    /// # Errors
    /// `OutOfMemory` alone.
    pub fn try_clone(&self, alloc: Global) -> Result<Self, TinkError>
        ensures primary { IfOk result (λ copy. copy.primary ≡ self.now.primary) }
        ensures entries { IfOk result (λ copy. HaveSameGroups self.now.entries copy.entries) }
        ensures cause { IfErr result (λ e. e.kind ≡ OutOfMemory) }
    {
        match clone_set(alloc, &self.primary, &self.entries) {
            Ok((primary, entries)) => Ok(TypedPrimitiveSet { primary, entries }),
            Err(e) => Err(e),
        }
    }
}

// The primary entry as one of a sort. It is prepared for many calls.
fn typed_primary<K: Kinds, S: Sort<K>>(
    alloc: Global,
    primary: &Option<Entry<K>>,
) -> Result<Option<TypedEntry<S::Of>>, TinkError>
    ensures ok { IfOk result (λ typed. IsTypedPrimary S.picks primary.now typed) }
    ensures cause { IfErr result (λ e. (e.kind ≡ OutOfMemory)
        ⊎ ((e.kind ≡ WrongPrimitive) × IsRefusedPrimary S.picks primary.now WrongPrimitive)) }
{
    match primary {
        Some(entry) => match Prepared::<S>::convert(alloc, entry) {
            Ok(typed) => Ok(Some(typed)),
            Err(e) => Err(e),
        },
        None => Ok(None),
    }
}

// The other entries as some of a sort. Those of a small set are prepared for many calls.
fn typed_groups<K: Kinds, S: Sort<K>>(
    alloc: Global,
    groups: &BTreeMap<Vec<u8>, Repeated<Entry<K>>>,
) -> Result<BTreeMap<Vec<u8>, Repeated<TypedEntry<S::Of>>>, TinkError>
    ensures ok { IfOk result (λ typed. AreTyped S.picks groups.now typed) }
    ensures cause { IfErr result (λ e. (e.kind ≡ OutOfMemory)
        ⊎ ((e.kind ≡ WrongPrimitive) × HasRefused (typed_by S.picks) groups.now WrongPrimitive)) }
{
    if is_small(groups) {
        return prepared_groups::<K, S>(alloc, groups);
    }
    copied_groups::<K, S>(alloc, groups)
}

// The other entries as some of a sort, each with a copy of its primitive.
fn copied_groups<K: Kinds, S: Sort<K>>(
    alloc: Global,
    groups: &BTreeMap<Vec<u8>, Repeated<Entry<K>>>,
) -> Result<BTreeMap<Vec<u8>, Repeated<TypedEntry<S::Of>>>, TinkError>
    ensures ok { IfOk result (λ typed. AreTyped S.picks groups.now typed) }
    ensures cause { IfErr result (λ e. (e.kind ≡ OutOfMemory)
        ⊎ ((e.kind ≡ WrongPrimitive) × HasRefused (typed_by S.picks) groups.now WrongPrimitive)) }
{
    match convert_groups::<Entry<K>, Typed<S>>(alloc, groups) {
        Ok(typed) => Ok(typed),
        Err(e) => Err(e),
    }
}

// The other entries as some of a sort, each with a prepared primitive.
fn prepared_groups<K: Kinds, S: Sort<K>>(
    alloc: Global,
    groups: &BTreeMap<Vec<u8>, Repeated<Entry<K>>>,
) -> Result<BTreeMap<Vec<u8>, Repeated<TypedEntry<S::Of>>>, TinkError>
    ensures ok { IfOk result (λ typed. AreTyped S.picks groups.now typed) }
    ensures cause { IfErr result (λ e. (e.kind ≡ OutOfMemory)
        ⊎ ((e.kind ≡ WrongPrimitive) × HasRefused (typed_by S.picks) groups.now WrongPrimitive)) }
{
    match convert_groups::<Entry<K>, Prepared<S>>(alloc, groups) {
        Ok(typed) => Ok(typed),
        Err(e) => Err(e),
    }
}

// The set as one of a sort.
fn from_set<K: Kinds, S: Sort<K>>(
    alloc: Global,
    set: &PrimitiveSet<K>,
) -> Result<TypedPrimitiveSet<S::Of>, TinkError>
    ensures primary { IfOk result (λ typed. IsTypedPrimary S.picks set.now.primary typed.primary) }
    ensures entries { IfOk result (λ typed. AreTyped S.picks set.now.entries typed.entries) }
    ensures cause { IfErr result (λ e. AreNotTyped S.picks e.kind set.now.primary set.now.entries) }
{
    let primary = match typed_primary::<K, S>(alloc, &set.primary) {
        Ok(primary) => primary,
        Err(e) => return Err(e),
    };
    match typed_groups::<K, S>(alloc, &set.entries) {
        Ok(entries) => Ok(TypedPrimitiveSet { primary, entries }),
        Err(e) => Err(e),
    }
}

// The set as one of a sort, and nothing of it is left.
fn from_owned<K: Kinds, S: Sort<K>>(
    alloc: Global,
    set: PrimitiveSet<K>,
) -> Result<TypedPrimitiveSet<S::Of>, TinkError>
    ensures primary { IfOk result (λ typed. IsTypedPrimary S.picks set.primary typed.primary) }
    ensures entries { IfOk result (λ typed. AreTyped S.picks set.entries typed.entries) }
    ensures cause { IfErr result (λ e. AreNotTyped S.picks e.kind set.primary set.entries) }
{
    let typed = from_set::<K, S>(alloc, &set);
    let PrimitiveSet { primary, entries } = set;
    let_go(primary, entries);
    typed
}

// Nothing of a set is left.
fn let_go<E: Drop>(_primary: Option<E>, _entries: BTreeMap<Vec<u8>, Repeated<E>>) {}
