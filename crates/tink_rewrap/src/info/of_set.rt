//! The key and the sizes of a stream under the keys of a set.

ghost use Rattle.std.specs.Prelude.{◌≡◌, ◌≤◌, ◌+◌, length, map};
ghost use Rattle.tink_range.specs.Objects.{LeavesObject};
ghost use Rattle.tink_streaming_aead.specs.Wrapped.{KeepsOrder, all_entries};
ghost use Rattle.tink_rewrap.specs.StreamInfos.{InfoMeans, IsIdInSet, KeepsEntries, LeavesEarly, entry_key};

use std::alloc::Global;
use std::sync::ledger::Ledger;
use tink_io::TinkError;
use tink_range::{ReadAt, Steps, sizes_under};
use tink_sets::TypedPrimitiveSet;
use tink_streaming_aead::{AES_CTR_HMAC_NONCE_SIZE_IN_BYTES, entries_of, room_of};
use tink_streaming_keys::{DerivesStreams, StreamKind, Trial};

/// What opening a sealed stream would find, by its header, its first and its last segment, and its length.
#[derive(Clone, Copy, Debug, PartialEq, Eq)]
pub struct StreamInfo {
    /// The id of the key that opens it.
    pub key_id: u32,
    /// How many segments it has.
    pub segments: u64,
    /// The bytes of its plaintext.
    pub plaintext_len: u64,
    /// The bytes of a whole segment, its tag among them.
    pub segment_len: u32,
}

// Whichever entries a set has, its lists have no others.
fn keeps_entries(set: &TypedPrimitiveSet<StreamKind>)
    ensures entries { KeepsEntries set.now.entries }
{
    let _ = (&set.entries).into_iter();
}

/// The key and the sizes of the stream that `object` is. The key is the first of the set under which the stream
/// begins. Only its first and its last segment are opened. At most a step is taken for each key, and one for the last
/// segment.
///
/// # Errors
/// `OutOfMemory` before anything was read. `NoMatchingKey` if the object begins under no key. `TooManySegments` if it
/// has more than 2^32 segments. If the last one is the segment of no text, `Truncated` if it is shorter than any
/// segment, and else `BadSegment`. `ReadFault` if the object failed.
pub fn info_of_set<A: ReadAt, L: Ledger>(
    alloc: Global,
    set: &TypedPrimitiveSet<StreamKind>,
    aad: &[u8],
    object: &mut A,
    steps: &mut Steps<L>,
) -> Result<StreamInfo, TinkError>
    // Whichever keys the set holds, each answer has its cause under them.
    ensures answer { InfoMeans (map (entry_key aad.now) (all_entries set.now.entries))
        (IsIdInSet aad.now (all_entries set.now.entries)) (A.bytes object.old) (A.length_of object.old)
        (A.faults object.old) (A.faults object.new) result }
    ensures ticks { steps.new ≤ steps.old + length (all_entries set.now.entries) + 1 }
    ensures order { KeepsOrder set.now.entries }
    ensures entries { KeepsEntries set.now.entries }
    ensures early { LeavesEarly result object.old object.new }
    ensures kept { LeavesObject A.length_of A.bytes A.faults object.old object.new result }
    ensures object { A.same object.old object.new }
{
    keeps_entries(set);
    let keys = entries_of(alloc, set)?;
    let trial = Trial::reserve(alloc, room_of(&keys), AES_CTR_HMAC_NONCE_SIZE_IN_BYTES)?;
    let sizes = sizes_under(&keys, aad, trial, object, steps)?;
    let key = keys[sizes.place];
    Ok(StreamInfo {
        key_id: key.key_id,
        segments: sizes.segments,
        plaintext_len: sizes.text_len,
        segment_len: key.segment_size(),
    })
}
