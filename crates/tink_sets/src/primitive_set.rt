//! Sets of primitives of any sorts.

ghost use mathlib.Core.Option.{none};
ghost use Rattle.std.specs.Prelude.{◌≡◌, ◌⊎◌, ⊤, [], ℕ, List, None, Ok, Err, IfOk, IfErr, OnOk, OnErr};
ghost use Rattle.std.specs.Borrow.{sem, follows_so};
ghost use Rattle.tink_io.specs.declared.error.Kind.TheVariants.{OutOfMemory};
ghost use Rattle.tink_io.specs.Answering.{Answers};
ghost use Rattle.tink_set_groups.specs.Groups.{group_at, group_of, Adds, AddsLast, AreGroupsOf, EndsBy, HaveSameGroups};
ghost use Rattle.tink_sets.specs.Entries.{may_stand, own_prefix, entry_of, prefix_of, SetAfterAdding};

use crate::Entry;
use crate::copying::clone_set;
use crate::cryptofmt::RAW_PREFIX;
use crate::entry::standing_prefix;
use std::alloc::Global;
use std::collections::BTreeMap;
use tink_io::TinkError;
use tink_primitives::{Kinds, Primitive};
use tink_proto::{Bytes, Key, Repeated};
use tink_set_groups::{group_of, newest, put_in_group};

/// The primitives of a keyset by the prefixes of their keys.
#[derive(Drop)]
pub struct PrimitiveSet<K: Kinds> {
    /// The entry of the primary key.
    pub primary: Option<Entry<K>>,
    /// The entries of each prefix, in the order in which they were added.
    pub entries: BTreeMap<Vec<u8>, Repeated<Entry<K>>>,
}

impl<K: Kinds> PrimitiveSet<K> {
    ghost use Rattle.tink_sets.specs.contracts.primitive_set.PrimitiveSet.{the_row};

    /// A set of nothing.
    pub fn new(alloc: Global) -> Self
        ensures primary { result.primary ≡ None }
        ensures none { (prefix : List ℕ) → group_at result.entries prefix ≡ None }
        ensures entries { AreGroupsOf prefix_of [] result.entries }
    {
        PrimitiveSet {
            primary: None,
            entries: BTreeMap::new(alloc),
        }
    }

    /// The entries without a prefix, in the order in which they were added.
    pub fn raw_entries(&self) -> &[Entry<K>]
        ensures value { result.now ≡ group_of self.now.entries [] }
    {
        self.entries_for_prefix(&RAW_PREFIX)
    }

    /// The entries of a prefix, in the order in which they were added; none where it has none.
    pub fn entries_for_prefix(&self, prefix: &[u8]) -> &[Entry<K>]
        ensures value { result.now ≡ group_of self.now.entries prefix.now }
    {
        group_of(&self.entries, prefix)
    }

    /// Adds the entry of a key and its primitive behind those of its prefix, and lends it.
    ///
    /// # Errors
    /// `NotEnabled` if the key is not enabled, then `UnknownPrefix` if its prefix type is none that is known.
    /// `OutOfMemory`. The set is then as before.
    pub fn add(&mut self, alloc: Global, p: Primitive<K>, key: &Key) -> Result<&Entry<K>, TinkError>
        ensures entry { IfOk result (λ entry. entry.now ≡ entry_of p key.now) }
        ensures stands { OnOk result (may_stand key.now ≡ Ok tt) }
        ensures cause { IfErr result (λ e. (e.kind ≡ OutOfMemory) ⊎ (may_stand key.now ≡ Err e.kind)) }
        ensures* after { let row = the_row K.row K.Aead.row K.DeterministicAead.row K.HybridDecrypt.row
            K.HybridEncrypt.row K.Mac.row K.Prf.row K.Signer.row K.StreamingAead.row K.Verifier.row in
            sem 𝓛 (follows_so row row self.entry.ghost_name none (λ _ _. ⊤)
            (λ set. SetAfterAdding (entry_of p key.now) result self.old set)) }
    {
        match self.put_entry(alloc, p, key) {
            Ok(prefix) => Ok(newest(self.entries_for_prefix(prefix.as_slice()))),
            Err(e) => Err(e),
        }
    }

    /// Adds the entry of a key and its primitive as `add` does, and lends nothing.
    ///
    /// # Errors
    /// As `add`.
    pub fn put(&mut self, alloc: Global, p: Primitive<K>, key: &Key) -> Result<(), TinkError>
        ensures answer { Answers result (may_stand key.now) }
        ensures ok { OnOk result (Adds (own_prefix key.now) (entry_of p key.now) self.old.entries self.new.entries) }
        ensures entries { OnOk result (AddsLast prefix_of (entry_of p key.now) self.old.entries self.new.entries) }
        ensures err { OnErr result (HaveSameGroups self.old.entries self.new.entries) }
        ensures primary { self.new.primary ≡ self.old.primary }
    {
        match self.put_entry(alloc, p, key) {
            Ok(_) => Ok(()),
            Err(e) => Err(e),
        }
    }

    // Puts the entry of a key behind those of its prefix, and answers the prefix.
    fn put_entry(&mut self, alloc: Global, p: Primitive<K>, key: &Key) -> Result<Bytes, TinkError>
        ensures value { IfOk result (λ prefix. prefix ≡ own_prefix key.now) }
        ensures stands { OnOk result (may_stand key.now ≡ Ok tt) }
        ensures cause { IfErr result (λ e. (e.kind ≡ OutOfMemory) ⊎ (may_stand key.now ≡ Err e.kind)) }
        ensures after { SetAfterAdding (entry_of p key.now) result self.old self.new }
        ensures newest { OnOk result
            (EndsBy (own_prefix key.now) (entry_of p key.now) self.old.entries self.new.entries) }
    {
        match Entry::new(alloc, p, key) {
            Ok(entry) => put_by_key(&mut self.entries, alloc, key, entry),
            Err(e) => Err(e),
        }
    }

    /// A set with the same primary entry and the same entries under each prefix.
    ///
    /// # Errors
    /// `OutOfMemory` alone.
    pub fn try_clone(&self, alloc: Global) -> Result<Self, TinkError>
        ensures primary { IfOk result (λ copy. copy.primary ≡ self.now.primary) }
        ensures entries { IfOk result (λ copy. HaveSameGroups self.now.entries copy.entries) }
        ensures cause { IfErr result (λ e. e.kind ≡ OutOfMemory) }
    {
        match clone_set(alloc, &self.primary, &self.entries) {
            Ok((primary, entries)) => Ok(PrimitiveSet { primary, entries }),
            Err(e) => Err(e),
        }
    }
}

// Puts an entry behind those of the prefix of its key, and answers the prefix.
fn put_by_key<E: Drop>(
    groups: &mut BTreeMap<Vec<u8>, Repeated<E>>,
    alloc: Global,
    key: &Key,
    entry: E,
) -> Result<Bytes, TinkError>
    ensures value { IfOk result (λ prefix. prefix ≡ own_prefix key.now) }
    ensures stands { OnOk result (may_stand key.now ≡ Ok tt) }
    ensures cause { IfErr result (λ e. (e.kind ≡ OutOfMemory) ⊎ (may_stand key.now ≡ Err e.kind)) }
    ensures ok { OnOk result (Adds (own_prefix key.now) entry groups.old groups.new) }
    ensures err { OnErr result (HaveSameGroups groups.old groups.new) }
{
    let prefix = match standing_prefix(alloc, key) {
        Ok(prefix) => prefix,
        Err(e) => return Err(e),
    };
    match put_in_group(groups, alloc, prefix.as_slice(), entry) {
        Ok(()) => Ok(prefix),
        Err(e) => Err(e),
    }
}
