ghost use Rattle.std.specs.Prelude.{◌≡◌, ◌≤◌, ◌<◌, ◌+◌, ◌*◌, ◌-◌, ◌/◌, ℕ, List, length, IfOk};
ghost use Rattle.tink_range.specs.ChunkReading.{ends_of};
ghost use Rattle.tink_range.specs.Objects.{LeavesObject};
ghost use Rattle.tink_range.specs.RangeCores.{IsSameCore, cutting_of};
ghost use Rattle.tink_range.specs.RangeReading.{EndMeans, RangeMeans, range_end, range_start};
ghost use Rattle.tink_range.specs.Shapes.{HasShape};
ghost use Rattle.tink_range.specs.StepCounts.{TakesOneStep, TakesTouched};

use crate::chunks::RangeCore;
use crate::giving::give_range;
use crate::read_at::ReadAt;
use crate::shape::Shape;
use crate::steps::Steps;
use std::sync::ledger::Ledger;
use tink_io::{Kind, Sink, TinkError};
use tink_streaming_segment::SegmentDecrypter;

/// The shape of an object's chunks, after the last chunk was decrypted.
///
/// # Errors
/// `TooManySegments` exactly if there are more than 2^32 chunks; then those of `check_last`.
pub fn check_end<A: ReadAt, D: SegmentDecrypter, L: Ledger>(
    core: &mut RangeCore<D>,
    object: &mut A,
    steps: &mut Steps<L>,
) -> Result<Shape, TinkError>
    requires object { core.old.front + core.old.behind ≡ A.length_of object.old }
    ensures answer { EndMeans (cutting_of core.old) core.old.behind (A.bytes object.old)
        (A.faults object.old) (A.faults object.new) result }
    ensures shape { IfOk result (λ s. (X : List ℕ) → length X ≡ core.old.behind
        → HasShape core.old.opener.first core.old.opener.size core.old.opener.overhead X s.count s.text s.last) }
    ensures ticks { TakesOneStep steps.old steps.new result }
    ensures taken { A.taken object.new ≤ A.taken object.old + core.old.opener.size }
    ensures core { IsSameCore core.old core.new }
    ensures kept { LeavesObject A.length_of A.bytes A.faults object.old object.new result }
    ensures same { A.same object.old object.new }
{
    let shape = core.shape();
    let number = shape.count - 1;
    if number > u64::from(u32::MAX) {
        return Err(TinkError::new(Kind::TooManySegments));
    }
    match core.check_last(object, number, shape.last, steps) {
        Ok(()) => Ok(shape),
        Err(e) => Err(e),
    }
}

/// Writes a range of the text of an object's chunks, after the last chunk was decrypted. The answer is how many bytes
/// it wrote.
///
/// # Errors
/// Those of `check_end`, with nothing written; then those of `give_range`.
pub fn read_range<A: ReadAt, D: SegmentDecrypter, K: Sink, L: Ledger>(
    core: &mut RangeCore<D>,
    object: &mut A,
    start: u64,
    len: u64,
    sink: &mut K,
    steps: &mut Steps<L>,
) -> Result<u64, TinkError>
    requires object { core.old.front + core.old.behind ≡ A.length_of object.old }
    ensures answer { RangeMeans K.got K.faults (cutting_of core.old) core.old.behind start len
        (ends_of A.bytes A.faults object.old object.new sink.old sink.new) result }
    ensures ticks { steps.new ≤ steps.old + (range_end (cutting_of core.old) core.old.behind start len
        - range_start (cutting_of core.old) core.old.behind start
        + (core.old.opener.size - core.old.opener.overhead) - 1)
        / (core.old.opener.size - core.old.opener.overhead) + 2 }
    ensures touched { TakesTouched (cutting_of core.old) (range_start (cutting_of core.old) core.old.behind start)
        (range_end (cutting_of core.old) core.old.behind start len) 1 steps.old steps.new result }
    ensures taken { A.taken object.new ≤ A.taken object.old
        + ((range_end (cutting_of core.old) core.old.behind start len
        - range_start (cutting_of core.old) core.old.behind start
        + (core.old.opener.size - core.old.opener.overhead) - 1)
        / (core.old.opener.size - core.old.opener.overhead) + 2) * core.old.opener.size }
    ensures core { IsSameCore core.old core.new }
    ensures kept { LeavesObject A.length_of A.bytes A.faults object.old object.new result }
    ensures later { K.faults sink.old ≤ K.faults sink.new }
    ensures object { A.same object.old object.new }
    ensures sink { K.same sink.old sink.new }
{
    match check_end(core, object, steps) {
        Ok(shape) => {
            let lo = start.min(shape.text);
            let hi = start.saturating_add(len).min(shape.text);
            give_range(core, object, lo, hi, sink, steps)
        }
        Err(e) => Err(e),
    }
}
