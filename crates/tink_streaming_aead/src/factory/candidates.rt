//! The entries of a keyset's streaming AEADs.

ghost use Rattle.std.specs.Prelude.{◌≡◌, ℕ, List, length, map, IfOk, IfErr};
ghost use Rattle.tink_io.specs.declared.error.Kind.TheVariants.{OutOfMemory};
ghost use Rattle.stream_model.specs.Order.{with_prefix};
ghost use Rattle.tink_sets.specs.Entries.{typed_prefix_of};
ghost use Rattle.tink_sets.specs.Groups.{AreGroupsOf, group_of};
ghost use Rattle.tink_sets.specs.declared.entry.TypedEntry.{TypedEntry};
ghost use Rattle.tink_streaming_keys.specs.StreamKinds.{key_in_set};
ghost use Rattle.tink_streaming_keys.specs.declared.stream_kind.StreamKind.{StreamKind};
ghost use Rattle.tink_streaming_aead.specs.Candidates.{prefix_at};
ghost use Rattle.tink_streaming_aead.specs.Wrapped.{ArePure, all_entries, entries_with, keys_in};

use crate::factory::{WrappedStreamingAead, entries_of};
use std::alloc::Global;
use tink_io::TinkError;
use tink_sets::cryptofmt::NON_RAW_PREFIX_SIZE;
use tink_sets::{TypedEntry, TypedPrimitiveSet};
use tink_streaming_keys::StreamKind;

/// A law: if a set is built of entries, each of its lists has exactly the keys of its prefix, in their order.
pub fn own_groups(ps: &TypedPrimitiveSet<StreamKind>)
    ensures pure { (entries : List (TypedEntry StreamKind)) → AreGroupsOf typed_prefix_of entries ps.now.entries
        → ArePure ps.now.entries }
    ensures groups { ArePure ps.now.entries → (prefix : List ℕ)
        → keys_in (group_of ps.now.entries prefix) ≡ with_prefix prefix (keys_in (all_entries ps.now.entries)) }
    ensures entries { ArePure ps.now.entries → (prefix : List ℕ)
        → group_of ps.now.entries prefix ≡ entries_with prefix (all_entries ps.now.entries) }
{
    let _ = (&ps.entries).into_iter();
}

// The entries of a prefix.
fn group<'a>(ps: &'a TypedPrimitiveSet<StreamKind>, prefix: &[u8]) -> &'a [TypedEntry<StreamKind>]
    ensures value { result.now ≡ group_of ps.now.entries prefix.now }
{
    match ps.entries_for_prefix(prefix) {
        Some(entries) => entries,
        None => &[],
    }
}

impl WrappedStreamingAead {
    /// The entries of all keys, those of one prefix in their order.
    ///
    /// # Errors
    /// `OutOfMemory`.
    pub fn entries(&self, alloc: Global) -> Result<Vec<&TypedEntry<StreamKind>>, TinkError>
        ensures keys { IfOk result (λ es. map (λ e. key_in_set e.now) es.items ≡ self.now.keys) }
        ensures entries { IfOk result (λ es. map (λ e. e.now) es.items ≡ self.now.entries) }
        ensures cause { IfErr result (λ e. e ≡ record { kind = OutOfMemory }) }
    {
        match entries_of(alloc, &self.ps) {
            Ok(entries) => Ok(entries),
            Err(e) => Err(e),
        }
    }

    /// The entries of the keys under which a stream with these first bytes may begin, in their order, and the bytes of
    /// their output prefix. If the first byte is 0 or 1, they are those of the first five bytes, and else those
    /// without a prefix. For fewer than five bytes it is those without a prefix.
    pub fn candidates(&self, start: &[u8]) -> (&[TypedEntry<StreamKind>], usize)
        ensures keys { keys_in result.0.now ≡ with_prefix (prefix_at start.now) self.now.keys }
        ensures entries { result.0.now ≡ entries_with (prefix_at start.now) self.now.entries }
        ensures prefix { result.1 ≡ length (prefix_at start.now) }
    {
        own_groups(&self.ps);
        if start.len() < NON_RAW_PREFIX_SIZE || start[0] > 1 {
            return (group(&self.ps, &[]), 0);
        }
        (
            group(&self.ps, &start[..NON_RAW_PREFIX_SIZE]),
            NON_RAW_PREFIX_SIZE,
        )
    }
}
