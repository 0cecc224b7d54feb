ghost use Rattle.std.specs.Prelude.{◌≡◌, ◌≤◌, map, vec_len, vec_capacity};
ghost use Rattle.stream_model.specs.Opening.{opening_key};
ghost use Rattle.tink_range.specs.ChunkReading.{ends_of};
ghost use Rattle.tink_range.specs.KeyRanges.{RangesUnder, TakesRangeSteps};
ghost use Rattle.tink_range.specs.Objects.{LeavesObject};
ghost use Rattle.tink_range.specs.ReadCounts.{TakesRangeBytes};
ghost use Rattle.tink_streaming_keys.specs.Rooms.{HasRoomForEach};

use crate::range_reading::read_range;
use crate::read_at::ReadAt;
use crate::starting_at::start_at;
use crate::steps::Steps;
use std::sync::ledger::Ledger;
use tink_io::{Sink, TinkError};
use tink_streaming_keys::{DerivesStreams, Trial};

/// Writes a range of the text of the stream that an object is, in the memory of `trial`. The key is the first under
/// which the object begins. It answers how many bytes, as `RangeReader::read_range` does.
///
/// # Errors
/// `NoMatchingKey` if the object begins under none of the keys, `ReadFault` if it failed before one was chosen:
/// nothing is written then. Those of `RangeReader::read_range`.
pub fn range_under<A: ReadAt, T: DerivesStreams, K: Sink, L: Ledger>(
    keys: &[T],
    aad: &[u8],
    trial: Trial,
    object: &mut A,
    start: u64,
    len: u64,
    sink: &mut K,
    steps: &mut Steps<L>,
) -> Result<u64, TinkError>
    requires room { HasRoomForEach T.key_of keys.now (vec_len trial.kept.buffer) (vec_capacity trial.opened)
        (vec_len trial.nonce) (vec_capacity trial.prefix) }
    ensures answer { RangesUnder K.got K.faults (map (λ k. opening_key aad.now (T.key_of k)) keys.now)
        (A.length_of object.old) start len
        (ends_of A.bytes A.faults object.old object.new sink.old sink.new) result }
    ensures ticks { TakesRangeSteps (map (λ k. opening_key aad.now (T.key_of k)) keys.now) (A.bytes object.old)
        (A.length_of object.old) start len steps.old steps.new }
    ensures taken { TakesRangeBytes (map (λ k. opening_key aad.now (T.key_of k)) keys.now) (A.bytes object.old)
        (A.length_of object.old) start len (vec_len trial.kept.buffer) (A.taken object.old) (A.taken object.new) }
    ensures kept { LeavesObject A.length_of A.bytes A.faults object.old object.new result }
    ensures later { K.faults sink.old ≤ K.faults sink.new }
    ensures object { A.same object.old object.new }
    ensures sink { K.same sink.old sink.new }
{
    match start_at(keys, aad, trial, object, steps) {
        Ok(mut core) => read_range(&mut core, object, start, len, sink, steps),
        Err(e) => Err(e),
    }
}
