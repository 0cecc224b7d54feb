//! The MACs of a keyset as one.

ghost use Rattle.std.specs.Prelude.{◌≡◌, ◌++◌, ◌∷◌, [], None, true, is_some, IfOk, IfErr};
ghost use Rattle.tink_io.specs.declared.error.Kind.TheVariants.{OutOfMemory};
ghost use Rattle.tink_io.specs.Answering.{Answers};
ghost use Rattle.tink_primitives.specs.Sorts.{as_mac};
ghost use Rattle.tink_sets.specs.Entries.{entry_of};
ghost use Rattle.tink_sets.specs.Groups.{group_of, HaveSameGroups};
ghost use Rattle.tink_keysets.specs.Built.{built_entries, GivesSet};
ghost use Rattle.tink_keysets.specs.Typing.{typed_entries};
ghost use Rattle.tink_mac.specs.Wrapped.{any_verifies, covered, entry_mac, entry_verifies, primary_mac, IsMacOf};
ghost use Rattle.tink_mac.specs.WrappedLaws.{primary_mac_told, any_verifies_told, entry_verifies_told};

use std::alloc::Global;
use tink_io::{Kind, TinkError};
use tink_keysets::factory::{Question, ask_behind_prefix, typed_primitives};
use tink_keysets::keyset::Handle;
use tink_primitives::{CloneIn, Kinds, Mac};
use tink_proto::{Bytes, OutputPrefixType};
use tink_registry::{KeyManager, Registry};
use tink_sets::sorts::Macs;
use tink_sets::{TypedEntry, TypedPrimitiveSet};

/// The MACs of a keyset as one: MACs are computed by the primary key, and accepted where any key accepts them. A
/// contract sees the set of the keys' entries, `ps`, which has a primary one.
#[derive(Drop)]
pub struct WrappedMac<P> {
    ps: TypedPrimitiveSet<P>,
    ghost has_primary: { is_some ps.primary ≡ true },
}

/// The MACs of a handle's enabled keys as one.
///
/// # Errors
/// As `Handle::primitives`; then `NoPrimary` exactly where no entry has the primary id; then `WrongPrimitive` exactly
/// where an entry is no MAC. `OutOfMemory` may come in place of each.
pub fn new<M: KeyManager, P: Mac>(
    alloc: Global,
    h: &Handle,
    registry: &Registry<M>,
) -> Result<WrappedMac<P>, TinkError>
where
    M::Family: Kinds<Mac = P>,
    ensures { GivesSet
        (λ es w. IsMacOf P.computes P.verifies h.now.primary_key_id es w.ps.primary w.ps.entries) result
        (typed_entries as_mac h.now.primary_key_id
        (built_entries M.url M.supports M.builds entry_of registry.now.managers None h.now)) }
{
    match typed_primitives::<M, Macs>(alloc, h, registry) {
        Ok(ps) => Ok(WrappedMac { ps }),
        Err(e) => Err(e),
    }
}

impl<P: Mac + CloneIn> WrappedMac<P> {
    /// The MACs of the same entries: a copy computes and accepts what its source does.
    ///
    /// # Errors
    /// `OutOfMemory` alone.
    pub fn try_clone(&self, alloc: Global) -> Result<Self, TinkError>
        ensures primary { IfOk result (λ copy. copy.ps.primary ≡ self.now.ps.primary) }
        ensures entries { IfOk result (λ copy. HaveSameGroups self.now.ps.entries copy.ps.entries) }
        ensures cause { IfErr result (λ e. e.kind ≡ OutOfMemory) }
    {
        let ps = self.ps.try_clone(alloc)?;
        Ok(WrappedMac { ps })
    }
}

impl<P: Mac> Mac for WrappedMac<P> {
    ghost computes = { λ w message. primary_mac P.computes w.ps.primary message };

    ghost verifies = { λ w mac message. any_verifies P.verifies (group_of w.ps.entries) mac message };

    /// The primary key's MAC of `data`, or its refusal, behind the key's prefix. A LEGACY key's MAC covers the data and
    /// one zero byte.
    fn compute_mac(&self, alloc: Global, data: &[u8]) -> Result<Bytes, TinkError> {
        match &self.ps.primary {
            Some(primary) => prefixed_mac(alloc, primary, data),
            None => unreachable!(),
        }
    }

    /// Ok if an entry accepts `mac` for `data`. The entries of its first five bytes try the rest, and then those
    /// without a prefix the whole. A LEGACY key is asked on the data and one zero byte.
    ///
    /// # Errors
    /// `MacMismatch` exactly where `mac` has five bytes or fewer, or no entry accepts; `OutOfMemory`.
    fn verify_mac(&self, alloc: Global, mac: &[u8], data: &[u8]) -> Result<(), TinkError> {
        let question = Verifies { message: data };
        ask_behind_prefix(alloc, &self.ps, &question, mac, Kind::MacMismatch)
    }

    ghost computes_told = { λ w message. primary_mac_told P.computes P.computes_told w.ps.primary message };

    ghost verifies_told = { λ w mac message. any_verifies_told P.verifies (group_of w.ps.entries) mac message };
}

// Whether an entry accepts a MAC for a message.
#[derive(Drop)]
struct Verifies<'a> {
    message: &'a [u8],
}

impl<P: Mac> Question<P> for Verifies<'_> {
    type Answer = ();

    ghost answers = { λ q e mac. entry_verifies P.verifies q.message.now e mac };

    fn ask(&self, alloc: Global, entry: &TypedEntry<P>, mac: &[u8]) -> Result<(), TinkError> {
        match entry.prefix_type {
            OutputPrefixType::Legacy => {
                let longer = with_zero(alloc, self.message)?;
                entry.primitive.verify_mac(alloc, mac, &longer)
            }
            _ => entry.primitive.verify_mac(alloc, mac, self.message),
        }
    }

    ghost answers_told = { λ q e mac. entry_verifies_told P.verifies P.verifies_told q.message.now e mac };
}

// An entry's MAC of a message, behind its prefix.
fn prefixed_mac<P: Mac>(
    alloc: Global,
    entry: &TypedEntry<P>,
    message: &[u8],
) -> Result<Bytes, TinkError>
    ensures { Answers result (entry_mac P.computes entry.now message.now) }
{
    let tag = entry_tag(alloc, entry, message)?;
    let mut mac = entry.prefix.as_slice().to_vec(alloc)?;
    mac.extend_from_slice(tag.as_slice())?;
    Ok(Bytes::from_vec(mac))
}

// An entry's MAC of a message.
fn entry_tag<P: Mac>(
    alloc: Global,
    entry: &TypedEntry<P>,
    message: &[u8],
) -> Result<Bytes, TinkError>
    ensures { Answers result (P.computes entry.now.primitive (covered entry.now.prefix_type message.now)) }
{
    match entry.prefix_type {
        OutputPrefixType::Legacy => {
            let longer = with_zero(alloc, message)?;
            entry.primitive.compute_mac(alloc, &longer)
        }
        _ => entry.primitive.compute_mac(alloc, message),
    }
}

// A message and one zero byte.
fn with_zero(alloc: Global, message: &[u8]) -> Result<Vec<u8>, TinkError>
    ensures value { IfOk result (λ longer. longer.items ≡ message.now ++ 0 ∷ []) }
    ensures cause { IfErr result (λ e. e.kind ≡ OutOfMemory) }
{
    let mut longer = message.to_vec(alloc)?;
    longer.push(0)?;
    Ok(longer)
}
