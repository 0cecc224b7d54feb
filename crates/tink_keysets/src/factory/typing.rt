//! The set of one sort from a handle.

ghost use Rattle.std.specs.Prelude.{◌≡◌, true, is_some, None, IfOk};
ghost use Rattle.tink_sets.specs.Entries.{entry_of};
ghost use Rattle.tink_keysets.specs.Built.{built_entries, GivesSet};
ghost use Rattle.tink_keysets.specs.Typing.{typed_entries, GivesTyped, IsTypedSetOf};

use crate::keyset::Handle;
use std::alloc::Global;
use std::collections::BTreeMap;
use tink_io::{Kind, TinkError};
use tink_primitives::Kinds;
use tink_proto::Repeated;
use tink_registry::{KeyManager, Registry};
use tink_sets::sorts::Sort;
use tink_sets::{PrimitiveSet, TypedPrimitiveSet};

/// The set of the enabled keys' primitives as one of the sort `S`. It has a primary entry.
///
/// # Errors
/// As `Handle::primitives`; then `NoPrimary` exactly where no entry has the primary id; then `WrongPrimitive` exactly
/// where an entry is of another sort. `OutOfMemory` may come in place of each.
pub fn typed_primitives<M: KeyManager, S: Sort<M::Family>>(
    alloc: Global,
    h: &Handle,
    registry: &Registry<M>,
) -> Result<TypedPrimitiveSet<S::Of>, TinkError>
    ensures set { GivesSet (IsTypedSetOf h.now.primary_key_id) result (typed_entries S.picks h.now.primary_key_id
        (built_entries M.url M.supports M.builds entry_of registry.now.managers None h.now)) }
    ensures primary { IfOk result (λ set. is_some set.primary ≡ true) }
{
    match h.primitives(alloc, registry) {
        Ok(built) => {
            let typed = lent_as::<M::Family, S>(alloc, &built);
            let PrimitiveSet { primary, entries } = built;
            let_go(primary, entries);
            typed
        }
        Err(e) => Err(e),
    }
}

// What was built as a set of one sort.
fn lent_as<K: Kinds, S: Sort<K>>(
    alloc: Global,
    built: &PrimitiveSet<K>,
) -> Result<TypedPrimitiveSet<S::Of>, TinkError>
    ensures set { GivesTyped S.picks built.now result }
    ensures primary { IfOk result (λ set. is_some set.primary ≡ true) }
{
    if built.primary.is_none() {
        return Err(TinkError::new(Kind::NoPrimary));
    }
    TypedPrimitiveSet::from_set_of_sort::<K, S>(alloc, built)
}

// Nothing of a set is left.
fn let_go<E: Drop>(_primary: Option<E>, _entries: BTreeMap<Vec<u8>, Repeated<E>>) {}
