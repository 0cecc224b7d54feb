//! A range of a stream's text under the keys of a set.

ghost use Rattle.std.specs.Prelude.{◌≡◌, ◌≤◌, ◌+◌, ◌*◌, map, vec_len, vec_capacity};
ghost use Rattle.stream_model.specs.Opening.{opening_key};
ghost use Rattle.tink_range.specs.ChunkReading.{ends_of};
ghost use Rattle.tink_range.specs.KeyRanges.{RangesUnder, TakesRangeSteps};
ghost use Rattle.tink_range.specs.Objects.{LeavesObject};
ghost use Rattle.tink_range.specs.ReadCounts.{TakesRangeBytes};
ghost use Rattle.tink_streaming_keys.specs.Memory.{trial_memory};
ghost use Rattle.tink_streaming_keys.specs.Rooms.{HasRoomForEach};
ghost use Rattle.tink_run.specs.OpenReads.{room_under};
ghost use Rattle.tink_streaming_aead.specs.Wrapped.{KeepsOrder, all_entries, keys_in};
ghost use Rattle.tink_rewrap.specs.SetRanges.{LeavesRangeEnds, LeavesUnwritten, RangesOf};

use std::alloc::Global;
use std::sync::ledger::Ledger;
use tink_io::{Sink, TinkError};
use tink_range::{ReadAt, Steps, range_under};
use tink_sets::TypedPrimitiveSet;
use tink_streaming_aead::{AES_CTR_HMAC_NONCE_SIZE_IN_BYTES, entries_of, room_of};
use tink_streaming_keys::{DerivesStreams, StreamKind, Trial};

/// Writes a range of the text of the stream that `object` is: the bytes from place `start` on and below `start + len`
/// that there are. The key is the first of the set under which the stream begins. It answers how many. At most a step
/// is taken for each key. If one is chosen, at most a step more is taken for each chunk that the range's own length
/// fills, and two more.
///
/// # Errors
/// - With nothing written: `OutOfMemory`, and nothing was read. `NoMatchingKey` if the object begins under no key.
///   `TooManySegments` if it has more than 2^32 chunks. `Truncated` or `BadSegment` if the last chunk is the
///   segment of no text.
/// - `BadSegment` of the first touched chunk that is the segment of no text. The range's bytes before it are
///   written then.
/// - `ReadFault` and `WriteFault` if an end failed.
pub fn range_of_set<A: ReadAt, K: Sink, L: Ledger>(
    alloc: Global,
    set: &TypedPrimitiveSet<StreamKind>,
    aad: &[u8],
    object: &mut A,
    start: u64,
    len: u64,
    sink: &mut K,
    steps: &mut Steps<L>,
) -> Result<u64, TinkError>
    // Whichever keys the set holds, each answer has its cause under them, and says what stands after it.
    ensures answer { RangesOf K.got K.faults (map (opening_key aad.now) (keys_in (all_entries set.now.entries)))
        (A.length_of object.old) start len
        (ends_of A.bytes A.faults object.old object.new sink.old sink.new) result }
    ensures ticks { TakesRangeSteps (map (opening_key aad.now) (keys_in (all_entries set.now.entries)))
        (A.bytes object.old) (A.length_of object.old) start len steps.old steps.new }
    ensures taken { TakesRangeBytes (map (opening_key aad.now) (keys_in (all_entries set.now.entries)))
        (A.bytes object.old) (A.length_of object.old) start len
        (room_under (map (opening_key aad.now) (keys_in (all_entries set.now.entries))))
        (A.taken object.old) (A.taken object.new) }
    ensures order { KeepsOrder set.now.entries }
    ensures early { LeavesRangeEnds result object.old object.new sink.old sink.new }
    ensures unwritten { LeavesUnwritten result sink.old sink.new }
    ensures kept { LeavesObject A.length_of A.bytes A.faults object.old object.new result }
    ensures later { K.faults sink.old ≤ K.faults sink.new }
    ensures object { A.same object.old object.new }
    ensures sink { K.same sink.old sink.new }
{
    let keys = entries_of(alloc, set)?;
    let trial = Trial::reserve(alloc, room_of(&keys), AES_CTR_HMAC_NONCE_SIZE_IN_BYTES)?;
    range_within(&keys, aad, trial, object, start, len, sink, steps)
}

// `range_under` in the memory of a trial, which has twice as much as the longest output prefix and segment of the keys
// have together, and 25 bytes.
fn range_within<A: ReadAt, T: DerivesStreams, K: Sink, L: Ledger>(
    keys: &[T],
    aad: &[u8],
    trial: Trial,
    object: &mut A,
    start: u64,
    len: u64,
    sink: &mut K,
    steps: &mut Steps<L>,
) -> Result<u64, TinkError>
    requires memory { trial_memory trial ≡ 2 * room_under (map (λ k. opening_key aad.now (T.key_of k)) keys.now) + 23 }
    requires room { HasRoomForEach T.key_of keys.now (vec_len trial.kept.buffer) (vec_capacity trial.opened)
        (vec_len trial.nonce) (vec_capacity trial.prefix) }
    ensures answer { RangesUnder K.got K.faults (map (λ k. opening_key aad.now (T.key_of k)) keys.now)
        (A.length_of object.old) start len
        (ends_of A.bytes A.faults object.old object.new sink.old sink.new) result }
    ensures ticks { TakesRangeSteps (map (λ k. opening_key aad.now (T.key_of k)) keys.now) (A.bytes object.old)
        (A.length_of object.old) start len steps.old steps.new }
    ensures taken { TakesRangeBytes (map (λ k. opening_key aad.now (T.key_of k)) keys.now) (A.bytes object.old)
        (A.length_of object.old) start len (vec_len trial.kept.buffer) (A.taken object.old) (A.taken object.new) }
    ensures kept { LeavesObject A.length_of A.bytes A.faults object.old object.new result }
    ensures later { K.faults sink.old ≤ K.faults sink.new }
    ensures object { A.same object.old object.new }
    ensures sink { K.same sink.old sink.new }
{
    range_under(keys, aad, trial, object, start, len, sink, steps)
}
