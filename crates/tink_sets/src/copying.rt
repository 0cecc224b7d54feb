//! Sets once more: their lists of entries and their primary entry.

ghost use Rattle.std.specs.Prelude.{◌≡◌, Result, Ok, IfOk, IfErr};
ghost use Rattle.tink_io.specs.declared.error.Kind.{Kind};
ghost use Rattle.tink_io.specs.declared.error.Kind.TheVariants.{OutOfMemory};
ghost use Rattle.tink_set_groups.specs.Groups.{HaveSameGroups};

use std::alloc::Global;
use std::collections::BTreeMap;
use tink_io::TinkError;
use tink_primitives::CloneIn;
use tink_proto::Repeated;
use tink_set_groups::{Convert, convert_groups};

// The most entries of a set that is prepared whole. An entry of AES-GCM keeps some 19 KB then.
const MOST_PREPARED: usize = 16;

/// The conversion that leaves each value as it is.
pub struct Copies;

impl<E: CloneIn> Convert<E> for Copies {
    type To = E;

    ghost gives = { λ e. Ok e };

    fn convert(alloc: Global, from: &E) -> Result<E, TinkError> {
        from.try_clone(alloc)
    }
}

// The same, prepared for many calls.
struct PreparedCopies;

impl<E: CloneIn> Convert<E> for PreparedCopies {
    type To = E;

    ghost gives = { λ e. Ok e };

    fn convert(alloc: Global, from: &E) -> Result<E, TinkError> {
        from.try_prepared(alloc)
    }
}

// Whether a set has so few entries that all may be prepared.
pub(crate) fn is_small<E>(groups: &BTreeMap<Vec<u8>, Repeated<E>>) -> bool {
    let mut count = 0usize;
    for (_, group) in groups {
        count = count.saturating_add(group.as_slice().len());
    }
    count <= MOST_PREPARED
}

/// Equal copies of a set's primary entry and of its lists of entries.
///
/// # Errors
/// `OutOfMemory` alone.
pub fn clone_set<E: CloneIn>(
    alloc: Global,
    primary: &Option<E>,
    groups: &BTreeMap<Vec<u8>, Repeated<E>>,
) -> Result<(Option<E>, BTreeMap<Vec<u8>, Repeated<E>>), TinkError>
    ensures primary { IfOk result (λ copy. copy.0 ≡ primary.now) }
    ensures entries { IfOk result (λ copy. HaveSameGroups groups.now copy.1) }
    ensures cause { IfErr result (λ e. e.kind ≡ OutOfMemory) }
{
    let copied = clone_groups(alloc, groups)?;
    Ok((clone_primary(alloc, primary)?, copied))
}

// The same entry, where there is one. Most calls ask it: it is prepared.
fn clone_primary<E: CloneIn>(alloc: Global, primary: &Option<E>) -> Result<Option<E>, TinkError>
    ensures value { IfOk result (λ copy. copy ≡ primary.now) }
    ensures cause { IfErr result (λ e. e.kind ≡ OutOfMemory) }
{
    match primary {
        Some(entry) => Ok(Some(entry.try_prepared(alloc)?)),
        None => Ok(None),
    }
}

// The same lists under the same prefixes. Those of a small set are prepared.
fn clone_groups<E: CloneIn>(
    alloc: Global,
    groups: &BTreeMap<Vec<u8>, Repeated<E>>,
) -> Result<BTreeMap<Vec<u8>, Repeated<E>>, TinkError>
    ensures ok { IfOk result (λ copy. HaveSameGroups groups.now copy) }
    ensures cause { IfErr result (λ e. e.kind ≡ OutOfMemory) }
{
    if is_small(groups) {
        return prepared_groups(alloc, groups);
    }
    copied_groups(alloc, groups)
}

// The same lists, of copies.
#[tactic(auto, using(tink_set_groups::proofs::Converted::copied, tink_set_groups::proofs::Converted::never_refused))]
fn copied_groups<E: CloneIn>(
    alloc: Global,
    groups: &BTreeMap<Vec<u8>, Repeated<E>>,
) -> Result<BTreeMap<Vec<u8>, Repeated<E>>, TinkError>
    ensures ok { IfOk result (λ copy. HaveSameGroups groups.now copy) }
    ensures cause { IfErr result (λ e. e.kind ≡ OutOfMemory) }
{
    match convert_groups::<E, Copies>(alloc, groups) {
        Ok(copy) => Ok(copy),
        Err(e) => Err(e),
    }
}

// The same lists, of prepared copies.
#[tactic(auto, using(tink_set_groups::proofs::Converted::copied, tink_set_groups::proofs::Converted::never_refused))]
fn prepared_groups<E: CloneIn>(
    alloc: Global,
    groups: &BTreeMap<Vec<u8>, Repeated<E>>,
) -> Result<BTreeMap<Vec<u8>, Repeated<E>>, TinkError>
    ensures ok { IfOk result (λ copy. HaveSameGroups groups.now copy) }
    ensures cause { IfErr result (λ e. e.kind ≡ OutOfMemory) }
{
    match convert_groups::<E, PreparedCopies>(alloc, groups) {
        Ok(copy) => Ok(copy),
        Err(e) => Err(e),
    }
}
