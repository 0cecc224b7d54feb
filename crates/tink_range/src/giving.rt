ghost use Rattle.std.specs.Prelude.{◌≡◌, ◌≤◌, ◌<◌, ◌+◌, ◌*◌, ◌-◌, ◌/◌, ◌^◌};
ghost use Rattle.tink_range.specs.ChunkReading.{ends_of};
ghost use Rattle.tink_range.specs.Giving.{GiveMeans};
ghost use Rattle.tink_range.specs.Objects.{LeavesObject};
ghost use Rattle.tink_range.specs.RangeCores.{IsSameCore, cutting_of};
ghost use Rattle.tink_range.specs.Ranges.{chunk_count, text_length};
ghost use Rattle.tink_range.specs.Shapes.{BeginsRange};
ghost use Rattle.tink_range.specs.StepCounts.{TakesTouched};

use crate::chunks::RangeCore;
use crate::read_at::ReadAt;
use crate::shape::{Place, next_place, place_of};
use crate::steps::Steps;
use std::sync::ledger::Ledger;
use tink_io::{Sink, TinkError};
use tink_streaming_segment::SegmentDecrypter;

// Writes the range's parts of the texts of the chunks that it touches, from the first of them on.
fn give_from<A: ReadAt, D: SegmentDecrypter, K: Sink, L: Ledger>(
    core: &mut RangeCore<D>,
    object: &mut A,
    from: Place,
    lo: u64,
    hi: u64,
    sink: &mut K,
    steps: &mut Steps<L>,
) -> Result<u64, TinkError>
    requires object { core.old.front + core.old.behind ≡ A.length_of object.old }
    requires chunks { chunk_count core.old.opener.first core.old.opener.size core.old.behind ≤ 2 ^ 32 }
    requires begins { BeginsRange core.old.opener.first core.old.opener.size core.old.opener.overhead core.old.behind lo
        hi from.number from.start from.text }
    ensures answer { GiveMeans K.got K.faults (cutting_of core.old) lo hi
        (ends_of A.bytes A.faults object.old object.new sink.old sink.new) result }
    ensures ticks { steps.new ≤ steps.old + (hi - lo + (core.old.opener.size - core.old.opener.overhead) - 1)
        / (core.old.opener.size - core.old.opener.overhead) + 1 }
    ensures touched { TakesTouched (cutting_of core.old) lo hi 0 steps.old steps.new result }
    ensures taken { A.taken object.new ≤ A.taken object.old
        + ((hi - lo + (core.old.opener.size - core.old.opener.overhead) - 1)
        / (core.old.opener.size - core.old.opener.overhead) + 1) * core.old.opener.size }
    ensures core { IsSameCore core.old core.new }
    ensures kept { LeavesObject A.length_of A.bytes A.faults object.old object.new result }
    ensures later { K.faults sink.old ≤ K.faults sink.new }
    ensures object { A.same object.old object.new }
    ensures sink { K.same sink.old sink.new }
{
    let first = core.opener.first as u64;
    let size = core.opener.size as u64;
    let over = core.opener.overhead as u64;
    let behind = core.behind;
    let mut place = from;
    let mut given = 0;
    while place.text < hi {
        match core.give_chunk(object, place, lo, hi, sink, steps) {
            Ok(count) => given += count,
            Err(e) => return Err(e),
        }
        place = next_place(first, size, over, behind, place);
    }
    Ok(given)
}

/// Writes the range's parts of the texts of the chunks that the range touches, none if it is empty. The answer is how
/// many bytes it wrote.
///
/// # Errors
/// `ReadFault` or `WriteFault` if the object or the sink failed: a prefix of the parts of some touched chunks is
/// written then. `BadSegment` of the first touched chunk that is the segment of no text, with the parts before it
/// written.
pub fn give_range<A: ReadAt, D: SegmentDecrypter, K: Sink, L: Ledger>(
    core: &mut RangeCore<D>,
    object: &mut A,
    lo: u64,
    hi: u64,
    sink: &mut K,
    steps: &mut Steps<L>,
) -> Result<u64, TinkError>
    requires object { core.old.front + core.old.behind ≡ A.length_of object.old }
    requires chunks { chunk_count core.old.opener.first core.old.opener.size core.old.behind ≤ 2 ^ 32 }
    requires within { hi ≤ text_length core.old.opener.first core.old.opener.size core.old.opener.overhead
        core.old.behind }
    ensures answer { GiveMeans K.got K.faults (cutting_of core.old) lo hi
        (ends_of A.bytes A.faults object.old object.new sink.old sink.new) result }
    ensures ticks { steps.new ≤ steps.old + (hi - lo + (core.old.opener.size - core.old.opener.overhead) - 1)
        / (core.old.opener.size - core.old.opener.overhead) + 1 }
    ensures touched { TakesTouched (cutting_of core.old) lo hi 0 steps.old steps.new result }
    ensures taken { A.taken object.new ≤ A.taken object.old
        + ((hi - lo + (core.old.opener.size - core.old.opener.overhead) - 1)
        / (core.old.opener.size - core.old.opener.overhead) + 1) * core.old.opener.size }
    ensures core { IsSameCore core.old core.new }
    ensures kept { LeavesObject A.length_of A.bytes A.faults object.old object.new result }
    ensures later { K.faults sink.old ≤ K.faults sink.new }
    ensures object { A.same object.old object.new }
    ensures sink { K.same sink.old sink.new }
{
    if hi <= lo {
        return Ok(0);
    }
    let from = place_of(
        core.opener.first as u64,
        core.opener.size as u64,
        core.opener.overhead as u64,
        core.behind,
        lo,
    );
    give_from(core, object, from, lo, hi, sink, steps)
}
