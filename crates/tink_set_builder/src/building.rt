//! The set of a keyset's primitives.

ghost use Rattle.std.specs.Prelude.{◌≡◌, ◌⊎◌, ℕ, List, [], None, Some, Ok, Err, IfOk, IfErr, OnOk, IsTrue, true, filter, option_copied};
ghost use Rattle.std.specs.List.{list_all};
ghost use Rattle.tink_io.specs.Answering.{Answers};
ghost use Rattle.tink_io.specs.declared.error.Kind.TheVariants.{OutOfMemory};
ghost use Rattle.tink_sets.specs.Entries.{entry_of, may_stand, prefix_of};
ghost use Rattle.tink_sets.specs.Groups.{AreGroupsOf, group_at};
ghost use Rattle.keyset_model.specs.Keys as key_words;
ghost use Rattle.keyset_model.specs.Validity as validity;
ghost use Rattle.tink_set_builder.specs.Built.{built_data, built_entry, primary_after, FillsSet, GivesSet, HasOneMore, IsSetOf, TakesKey};
ghost use Rattle.tink_set_builder.specs.Given.{given_each};

use std::alloc::Global;
use tink_io::{Kind, TinkError};
use tink_primitives::{CloneIn, Kinds, Primitive};
use tink_proto::{Key, KeyData, KeyStatusType};
use tink_registry::{KeyManager, Registry};
use tink_sets::{Entry, PrimitiveSet};

/// Whether a key is enabled.
pub fn is_enabled(key: &Key) -> bool
    ensures { result ≡ key_words.is_enabled key.now }
{
    key.status == KeyStatusType::Enabled as i32
}

// The primitive of a key's data.
fn build<M: KeyManager>(
    alloc: Global,
    key_data: &Option<KeyData>,
    registry: &Registry<M>,
    km: Option<&M>,
) -> Result<Primitive<M::Family>, TinkError>
    ensures { Answers result
        (built_data M.url M.supports M.builds registry.now.managers (option_copied km.entry) key_data.now) }
{
    let Some(data_there) = key_data else {
        return Err(TinkError::new(Kind::InvalidKeyset));
    };
    if let Some(given) = km {
        if given.does_support(data_there.type_url.as_str()) {
            return given.primitive(alloc, data_there.value.as_slice());
        }
    }
    registry.primitive_from_key_data(alloc, data_there)
}

// Makes the key's entry the primary one, where it has the id and is the first one that has it.
fn put_primary<K: Kinds>(
    alloc: Global,
    set: &mut PrimitiveSet<K>,
    p: &Primitive<K>,
    key: &Key,
    id: u32,
) -> Result<(), TinkError>
    requires { may_stand key.now ≡ Ok tt }
    ensures primary { OnOk result
        (set.new.primary ≡ primary_after (λ e. e.key_id) id set.old.primary (entry_of p.now key.now)) }
    ensures entries { set.new.entries ≡ set.old.entries }
    ensures err { IfErr result (λ e. e.kind ≡ OutOfMemory) }
{
    if set.primary.is_some() || key.key_id != id {
        return Ok(());
    }
    let copied = match p.try_clone(alloc) {
        Ok(copied) => copied,
        Err(e) => return Err(e),
    };
    match Entry::new(alloc, copied, key) {
        Ok(entry) => {
            fill(&mut set.primary, entry);
            Ok(())
        }
        Err(e) => Err(e),
    }
}

// Puts a value in a place.
fn fill<E: Drop>(place: &mut Option<E>, value: E)
    ensures { place.new ≡ Some value }
{
    *place = Some(value);
}

// Adds the entry of a primitive and its key.
fn put_entry<K: Kinds>(
    alloc: Global,
    set: &mut PrimitiveSet<K>,
    p: Primitive<K>,
    key: &Key,
    id: u32,
) -> Result<(), TinkError>
    requires { may_stand key.now ≡ Ok tt }
    ensures ok { OnOk result (HasOneMore id (entry_of p key.now) set.old set.new) }
    ensures err { IfErr result (λ e. e.kind ≡ OutOfMemory) }
{
    match put_primary(alloc, set, &p, key, id) {
        Ok(()) => set.put(alloc, p, key),
        Err(e) => Err(e),
    }
}

// Adds the entry of a key, where it is enabled.
fn put_key<M: KeyManager>(
    alloc: Global,
    set: &mut PrimitiveSet<M::Family>,
    key: &Key,
    id: u32,
    registry: &Registry<M>,
    km: Option<&M>,
) -> Result<(), TinkError>
    requires { IsTrue (validity.is_well_formed key.now) }
    ensures ok { OnOk result (TakesKey id (key_words.is_enabled key.now)
        (built_entry M.url M.supports M.builds entry_of registry.now.managers (option_copied km.entry) key.now)
        set.old set.new) }
    ensures err { IfErr result (λ e. (e.kind ≡ OutOfMemory) ⊎ ((key_words.is_enabled key.now ≡ true)
        × (built_entry M.url M.supports M.builds entry_of registry.now.managers (option_copied km.entry) key.now
        ≡ Err e.kind))) }
{
    if !is_enabled(key) {
        return Ok(());
    }
    let p = match build(alloc, &key.key_data, registry, km) {
        Ok(p) => p,
        Err(e) => return Err(e),
    };
    put_entry(alloc, set, p, key, id)
}

// Adds the entries of the enabled keys to a set of nothing. The set is lent, so that no refusal lets it go.
fn put_keys<M: KeyManager>(
    alloc: Global,
    set: &mut PrimitiveSet<M::Family>,
    keys: &[Key],
    id: u32,
    registry: &Registry<M>,
    km: Option<&M>,
) -> Result<(), TinkError>
    requires well_formed { IsTrue (list_all validity.is_well_formed keys.now) }
    requires no_primary { set.old.primary ≡ None }
    requires no_entries { AreGroupsOf prefix_of [] set.old.entries }
    requires no_lists { (prefix : List ℕ) → group_at set.old.entries prefix ≡ None }
    ensures { FillsSet id result (given_each
        (built_entry M.url M.supports M.builds entry_of registry.now.managers (option_copied km.entry))
        (filter key_words.is_enabled keys.now)) set.new }
{
    for key in keys {
        match put_key(alloc, set, key, id, registry, km) {
            Ok(()) => {}
            Err(e) => return Err(e),
        }
    }
    Ok(())
}

/// The set of the enabled keys' primitives, with the primary entry of the id. Where a manager is given, it alone
/// decides each key for whose URL its `does_support` says true, also on an empty value.
///
/// # Errors
/// For the first enabled key that doesn't build: `InvalidKeyset` if it has no data. Those of the given manager if that
/// one decides it. Else `InvalidKey` if its value is empty, `UnsupportedKeyType` if no manager has its URL, else the
/// manager's. `OutOfMemory` may come in place of each.
pub fn build_set<M: KeyManager>(
    alloc: Global,
    keys: &[Key],
    id: u32,
    registry: &Registry<M>,
    km: Option<&M>,
) -> Result<PrimitiveSet<M::Family>, TinkError>
    requires { IsTrue (list_all validity.is_well_formed keys.now) }
    ensures { GivesSet (IsSetOf id) result (given_each
        (built_entry M.url M.supports M.builds entry_of registry.now.managers (option_copied km.entry))
        (filter key_words.is_enabled keys.now)) }
{
    let mut set = PrimitiveSet::new(alloc);
    match put_keys(alloc, &mut set, keys, id, registry, km) {
        Ok(()) => Ok(set),
        Err(e) => Err(e),
    }
}
