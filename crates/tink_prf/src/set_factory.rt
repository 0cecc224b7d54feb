//! The pseudorandom functions of a keyset by the ids of their keys.

ghost use Rattle.std.specs.Prelude.{◌≡◌, None, is_ok, IfOk, IfErr, OnOk};
ghost use Rattle.std.specs.Ordering.{nat_cmp};
ghost use Rattle.std.specs.BTreeMap.{IsFromIterResult};
ghost use Rattle.tink_io.specs.declared.error.Kind.TheVariants.{OutOfMemory};
ghost use Rattle.tink_io.specs.Answering.{Answers, and_then};
ghost use Rattle.tink_primitives.specs.Sorts.{as_prf};
ghost use Rattle.tink_sets.specs.Converting.{converted};
ghost use Rattle.tink_sets.specs.Entries.{entry_of};
ghost use Rattle.tink_keysets.specs.Built.{built_entries, GivesSet};
ghost use Rattle.tink_prf.specs.Sets.{primary_output, prf_of, prfs_of, GivesPrfs, HasPrfs, PutsAt, TellsRaw};

use std::alloc::Global;
use std::collections::BTreeMap;
use tink_io::{Kind, TinkError};
use tink_keysets::keyset::Handle;
use tink_primitives::{CloneIn, KeyId, Kinds, Prf, Primitive};
use tink_proto::{Bytes, Repeated};
use tink_registry::{KeyManager, Registry};
use tink_sets::{Entry, PrimitiveSet};

// The most functions of a set that are prepared.
const MOST_PREPARED: usize = 16;

/// The pseudorandom functions of a keyset by the ids of their keys.
#[derive(Drop)]
pub struct Set<P> {
    /// The id of the primary key.
    pub primary_id: KeyId,
    /// The function of each id.
    pub prfs: BTreeMap<KeyId, P>,
}

impl<P: Prf + Drop> Set<P> {
    /// The functions of a keyset's enabled keys, each built by the registry's manager of its URL. Where several of them
    /// have one id, it has the function of the last.
    ///
    /// # Errors
    /// The first that applies:
    /// - those of `Handle::primitives`;
    /// - `NoPrimary` if no enabled key has the primary id;
    /// - `WrongPrimitive` if the primary key is of another sort;
    /// - `NotRawOnly` unless every enabled key is of the prefix type RAW;
    /// - `WrongPrimitive` if another enabled key is of another sort.
    ///
    /// `OutOfMemory` may come in place of each.
    pub fn new<M: KeyManager>(
        alloc: Global,
        h: &Handle,
        registry: &Registry<M>,
    ) -> Result<Set<P>, TinkError>
    where
        M::Family: Kinds<Prf = P>,
        ensures { GivesSet (HasPrfs h.now.primary_key_id) result
            (and_then (built_entries M.url M.supports M.builds entry_of registry.now.managers None h.now)
            (prfs_of h.now.primary_key_id)) }
    {
        let set = match h.primitives(alloc, registry) {
            Ok(set) => set,
            Err(e) => return Err(e),
        };
        prf_set(alloc, &set)
    }

    /// The primary function's output, as its own `compute_prf` gives it.
    ///
    /// # Errors
    /// `NoPrimary` exactly where there is no function of the primary id, else the primary function's. `OutOfMemory` may
    /// come in place of each.
    pub fn compute_primary_prf(
        &self,
        alloc: Global,
        input: &[u8],
        output_length: usize,
    ) -> Result<Bytes, TinkError>
        ensures { Answers result (primary_output P.computes self.now input.now output_length) }
    {
        match self.prfs.get(&self.primary_id) {
            Some(prf) => prf.compute_prf(alloc, input, output_length),
            None => Err(TinkError::new(Kind::NoPrimary)),
        }
    }
}

// The functions of a set whose entries must all be raw and of this sort.
fn prf_set<K: Kinds>(alloc: Global, set: &PrimitiveSet<K>) -> Result<Set<K::Prf>, TinkError>
    ensures { GivesPrfs set.now.primary set.now.entries result }
{
    let Some(primary) = &set.primary else {
        return Err(TinkError::new(Kind::NoPrimary));
    };
    if !is_prf(&primary.primitive) {
        return Err(TinkError::new(Kind::WrongPrimitive));
    }
    if !are_raw(&set.entries) {
        return Err(TinkError::new(Kind::NotRawOnly));
    }
    set_of_raw(alloc, primary.key_id, set.raw_entries())
}

// The functions of entries of this sort, of which those of an id are primary.
fn set_of_raw<K: Kinds>(
    alloc: Global,
    primary_id: KeyId,
    entries: &[Entry<K>],
) -> Result<Set<K::Prf>, TinkError>
    ensures { GivesSet (HasPrfs primary_id) result (converted prf_of entries.now) }
{
    match prfs_by_id(alloc, entries) {
        Ok(prfs) => Ok(Set { primary_id, prfs }),
        Err(e) => Err(e),
    }
}

fn is_prf<K: Kinds>(p: &Primitive<K>) -> bool
    ensures { result ≡ is_ok (as_prf p.now) }
{
    match p {
        Primitive::Prf(_) => true,
        _ => false,
    }
}

// Whether no entry has a prefix.
fn are_raw<K: Kinds>(groups: &BTreeMap<Vec<u8>, Repeated<Entry<K>>>) -> bool
    ensures { TellsRaw groups.now result }
{
    for (prefix, group) in groups {
        if !prefix.is_empty() && !group.as_slice().is_empty() {
            return false;
        }
    }
    true
}

// An equal primitive, for a set of this size. Those of a small set are prepared for many calls.
fn same_primitive<K: Kinds>(
    alloc: Global,
    p: &Primitive<K>,
    count: usize,
) -> Result<Primitive<K>, TinkError>
    ensures value { IfOk result (λ copy. copy ≡ p.now) }
    ensures cause { IfErr result (λ e. e.kind ≡ OutOfMemory) }
{
    if count <= MOST_PREPARED {
        return p.try_prepared(alloc);
    }
    p.try_clone(alloc)
}

// The function of each id, that of the last entry that has it.
fn prfs_by_id<K: Kinds>(
    alloc: Global,
    entries: &[Entry<K>],
) -> Result<BTreeMap<KeyId, K::Prf>, TinkError>
    ensures { GivesSet (IsFromIterResult nat_cmp) result (converted prf_of entries.now) }
{
    let mut prfs = BTreeMap::new(alloc);
    for entry in entries {
        let copied = same_primitive(alloc, &entry.primitive, entries.len())?;
        let prf = match copied.into_prf() {
            Ok(prf) => prf,
            Err(e) => return Err(e),
        };
        put_prf(&mut prfs, entry.key_id, prf)?;
    }
    Ok(prfs)
}

// Puts a function under an id, in place of one that is there.
fn put_prf<P: Drop>(prfs: &mut BTreeMap<KeyId, P>, id: KeyId, prf: P) -> Result<(), TinkError>
    ensures ok { OnOk result (PutsAt id prf prfs.old prfs.new) }
    ensures err { IfErr result (λ e. e.kind ≡ OutOfMemory) }
{
    prfs.insert(id, prf)?;
    Ok(())
}
