//! Entries of one form from entries of another, list by list.

ghost use Rattle.std.specs.Prelude.{◌≡◌, ◌⊎◌, Result, IfOk, IfErr};
ghost use Rattle.tink_io.specs.declared.error.Kind.{Kind};
ghost use Rattle.tink_io.specs.declared.error.Kind.TheVariants.{OutOfMemory};
ghost use Rattle.tink_io.specs.Answering.{Answers};
ghost use Rattle.tink_set_groups.specs.Converting.{converted, AreConverted, HasRefused};

use crate::groups::put_list;
use std::alloc::Global;
use std::collections::BTreeMap;
use tink_io::TinkError;
use tink_proto::Repeated;

/// A way to make a value of another, or to refuse it.
pub trait Convert<E> {
    type To: Drop;

    ghost gives: { E → Result Self.To Kind };

    /// The value of another.
    ///
    /// # Errors
    /// `OutOfMemory`, and what `gives` refuses it by.
    fn convert(alloc: Global, from: &E) -> Result<Self::To, TinkError>
        ensures answer { Answers result (gives from.now) };
}

// Each of a list, or the first refusal. There is room for no more entries than the list has.
#[tactic(auto, using(crate::proofs::Converted::none_before))]
fn convert_list<E, C: Convert<E>>(
    alloc: Global,
    entries: &[E],
) -> Result<Repeated<C::To>, TinkError>
    ensures answer { Answers result (converted C.gives entries.now) }
{
    let mut out = Repeated::from_vec(Vec::with_capacity(alloc, entries.len())?);
    for entry in entries {
        match C::convert(alloc, entry) {
            Ok(it) => out.push(it)?,
            Err(refusal) => return Err(refusal),
        }
    }
    Ok(out)
}

/// The lists of a map, each entry converted, under the same prefixes.
///
/// # Errors
/// `OutOfMemory`, and the refusal of an entry of some list.
pub fn convert_groups<E, C: Convert<E>>(
    alloc: Global,
    groups: &BTreeMap<Vec<u8>, Repeated<E>>,
) -> Result<BTreeMap<Vec<u8>, Repeated<C::To>>, TinkError>
    ensures ok { IfOk result (λ out. AreConverted C.gives groups.now out) }
    ensures cause { IfErr result (λ e. (e.kind ≡ OutOfMemory) ⊎ HasRefused C.gives groups.now e.kind) }
{
    let mut out = BTreeMap::new(alloc);
    for (prefix, group) in groups {
        match convert_list::<E, C>(alloc, group.as_slice()) {
            Ok(list) => put_list(&mut out, alloc, prefix, list)?,
            Err(e) => return Err(e),
        }
    }
    Ok(out)
}
