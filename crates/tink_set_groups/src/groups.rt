//! Lists of entries by their prefixes.

ghost use Rattle.std.specs.Prelude.{◌≡◌, ◌<◌, ◌++◌, ◌∷◌, [], List, None, Some, length, IfOk, OnOk, OnErr, IfErr, MatchOption};
ghost use Rattle.tink_io.specs.declared.error.Kind.TheVariants.{OutOfMemory};
ghost use Rattle.tink_set_groups.specs.Groups.{group_at, group_of, Adds, HaveSameGroups, PutsGroup};

use std::alloc::Global;
use std::collections::BTreeMap;
use tink_io::TinkError;
use tink_proto::Repeated;

/// The list of a prefix, if there is one.
pub fn group_at<'a, E>(groups: &'a BTreeMap<Vec<u8>, Repeated<E>>, prefix: &[u8]) -> Option<&'a [E]>
    ensures value { MatchOption result (group_at groups.now prefix.now ≡ None)
        (λ g. group_at groups.now prefix.now ≡ Some g.now) }
{
    match groups.get(prefix) {
        Some(group) => Some(group.as_slice()),
        None => None,
    }
}

/// The entries of a prefix, in the order in which they were added; none where it has no list.
pub fn group_of<'a, E>(groups: &'a BTreeMap<Vec<u8>, Repeated<E>>, prefix: &[u8]) -> &'a [E]
    ensures value { result.now ≡ group_of groups.now prefix.now }
{
    match groups.get(prefix) {
        Some(group) => group.as_slice(),
        None => &[],
    }
}

/// The newest entry of a list, which has one.
pub fn newest<E>(entries: &[E]) -> &E
    requires some { 0 < length entries.now }
    ensures value { (xs : List E) (e : E) → entries.now ≡ xs ++ e ∷ [] → result.now ≡ e }
{
    &entries[entries.len() - 1]
}

/// Puts an entry behind those of its prefix.
///
/// # Errors
/// `OutOfMemory`; the lists are as before then.
pub fn put_in_group<E: Drop>(
    groups: &mut BTreeMap<Vec<u8>, Repeated<E>>,
    alloc: Global,
    prefix: &[u8],
    entry: E,
) -> Result<(), TinkError>
    ensures ok { OnOk result (Adds prefix.now entry groups.old groups.new) }
    ensures err { OnErr result (HaveSameGroups groups.old groups.new) }
    ensures cause { IfErr result (λ e. e ≡ record { kind = OutOfMemory }) }
{
    match groups.get_mut(prefix) {
        Some(group) => {
            group.push(entry)?;
            Ok(())
        }
        None => begin_group(groups, alloc, prefix, entry),
    }
}

// Begins the list of a prefix that has none. It has room for one entry: most keys are alone with their prefix.
fn begin_group<E: Drop>(
    groups: &mut BTreeMap<Vec<u8>, Repeated<E>>,
    alloc: Global,
    prefix: &[u8],
    entry: E,
) -> Result<(), TinkError>
    requires none { group_at groups.old prefix.now ≡ None }
    ensures ok { OnOk result (Adds prefix.now entry groups.old groups.new) }
    ensures err { OnErr result (HaveSameGroups groups.old groups.new) }
    ensures cause { IfErr result (λ e. e ≡ record { kind = OutOfMemory }) }
{
    let key = prefix.to_vec(alloc)?;
    let mut group = Repeated::from_vec(Vec::with_capacity(alloc, 1)?);
    group.push(entry)?;
    groups.insert(key, group)?;
    Ok(())
}

/// Puts a list under a prefix, in place of the one that is there.
///
/// # Errors
/// `OutOfMemory`; the lists are as before then.
pub fn put_list<E: Drop>(
    groups: &mut BTreeMap<Vec<u8>, Repeated<E>>,
    alloc: Global,
    prefix: &[u8],
    list: Repeated<E>,
) -> Result<(), TinkError>
    ensures ok { OnOk result (PutsGroup prefix.now list groups.old groups.new) }
    ensures err { OnErr result (HaveSameGroups groups.old groups.new) }
    ensures cause { IfErr result (λ e. e ≡ record { kind = OutOfMemory }) }
{
    let key = prefix.to_vec(alloc)?;
    groups.insert(key, list)?;
    Ok(())
}
