//! A range of a stream's text under a keyset.

ghost use Rattle.std.specs.Prelude.{◌≡◌, ◌≤◌, IfOk};
ghost use Rattle.tink_range.specs.ChunkReading.{ends_of};
ghost use Rattle.tink_range.specs.Objects.{LeavesObject};
ghost use Rattle.tink_rewrap.specs.KeysetRanges.{GivesSlice, IsRangeComplete, KeysetRangeMeans, TakesKeysetBytes, TakesKeysetSteps};
ghost use Rattle.tink_rewrap.specs.SetRanges.{LeavesRangeEnds, LeavesUnwritten};

use crate::ranges::of_set::range_of_set;
use std::alloc::Global;
use std::sync::ledger::Ledger;
use tink_io::{Sink, TinkError};
use tink_range::{ReadAt, Steps};
use tink_run::load::load;

/// Writes a range of the text of the stream that `object` is: the bytes from place `start` on and below `start + len`
/// that there are. The keyset is in the wire format. The key is the first under which the stream begins with the
/// associated data. It answers how many.
///
/// # Errors
/// Those of loading the keyset, with nothing read or written: `BadKeyset`, `InvalidKeyset`, `UnsupportedKeyType`,
/// `InvalidKey`, `NoPrimary` and `WrongPrimitive`. Then those of `range_of_set`. `OutOfMemory` comes before
/// anything was read or written.
pub fn run_range<A: ReadAt, K: Sink, L: Ledger>(
    alloc: Global,
    keyset: &[u8],
    aad: &[u8],
    object: &mut A,
    start: u64,
    len: u64,
    sink: &mut K,
    steps: &mut Steps<L>,
) -> Result<u64, TinkError>
    // Each answer has its cause, and says what stands after it.
    ensures answer { KeysetRangeMeans K.got K.faults keyset.now aad.now (A.length_of object.old) start len
        object.old object.new (ends_of A.bytes A.faults object.old object.new sink.old sink.new) result }

    // Known bytes: of a stream of the chosen key that slice of its text was written.
    ensures slice { IfOk result (λ n. GivesSlice K.got keyset.now aad.now start len
        (ends_of A.bytes A.faults object.old object.new sink.old sink.new) n) }

    // Known bytes: where neither end fails, the keyset loads and the object is a stream of the chosen key, the range is
    // given, or there is no memory.
    ensures succeeds { IsRangeComplete K.faults keyset.now aad.now
        (ends_of A.bytes A.faults object.old object.new sink.old sink.new) result }

    // At most a step for each key and, where one is chosen, for each chunk that the range's own length fills and two
    // more; none where the keyset does not load.
    ensures ticks { TakesKeysetSteps keyset.now aad.now (A.bytes object.old) (A.length_of object.old) start len
        steps.old steps.new }

    // For each key at most one byte more is read than the longest output prefix and segment of the keys have together.
    // Where a key is chosen, at most the whole segments follow that are opened. None is read where the keyset does not
    // load.
    ensures taken { TakesKeysetBytes keyset.now aad.now (A.bytes object.old) (A.length_of object.old) start len
        (A.taken object.old) (A.taken object.new) }

    // A refusal that comes before anything was read leaves the ends themselves as they were, and one that comes before
    // anything was written the sink.
    ensures early { LeavesRangeEnds result object.old object.new sink.old sink.new }
    ensures unwritten { LeavesUnwritten result sink.old sink.new }
    ensures kept { LeavesObject A.length_of A.bytes A.faults object.old object.new result }
    ensures later { K.faults sink.old ≤ K.faults sink.new }
    ensures object { A.same object.old object.new }
    ensures sink { K.same sink.old sink.new }
{
    let keys = load(alloc, keyset)?;
    range_of_set(alloc, &keys, aad, object, start, len, sink, steps)
}
