//! The command of ranges.

ghost use Rattle.std.specs.Prelude.{◌≡◌, ◌⊎◌, ◌+◌, ◌<◌, IfErr, Some, length};
ghost use Rattle.loading_model.specs.Loading.{AreUsable, Loaded, opening_keys};
ghost use Rattle.tink_io.specs.Taken.{LosesAtMost};
ghost use Rattle.tink_program_core.specs.Ranges.{HoldsNoInput, RangeAnswer};
ghost use Rattle.tink_run.specs.HeldKeys.{HoldsLoaded};
ghost use Rattle.tink_io.specs.Outside.{outside};
ghost use Rattle.tink_rewrap.specs.SetRanges.{LeavesRangeEnds, LeavesUnwritten, RangesOf, WritesNoRange};
ghost use Rattle.tink_tokens.specs.Inputs.{IsUnloadable, input_limit};

use crate::words::RangeArgs;
use std::alloc::Global;
use std::marker::Brand;
use std::sync::ledger::{Blank, Ledger};
use tink_io::{Sink, Source, TinkError};
use tink_range::{Steps, SureAt};
use tink_rewrap::ranges::range_of_set;
use tink_run::load::load;
use tink_sets::TypedPrimitiveSet;
use tink_streaming_keys::StreamKind;
use tink_tokens::read_input;

/// Writes a range of the text of the stream that the source has, which is held whole, and answers how many bytes.
///
/// # Errors
/// The first that applies:
/// - those of loading the keyset, with nothing read;
/// - `ReadFault`;
/// - `InputTooLong` exactly if the source has more than 16,777,216 bytes;
/// - those of `range_of_set`.
///
/// `OutOfMemory` may come in place of each. Each but `WriteFault` and `BadSegment` leaves the sink as it is.
pub fn write_range<S: Source, K: Sink>(
    alloc: Global,
    args: &RangeArgs,
    source: &mut S,
    sink: &mut K,
) -> Result<u64, TinkError>
    ensures answer { RangeAnswer args.now.keyset.items args.now.aad.items args.now.start args.now.len
        (outside S.Source K.Sink source.old sink.old)
        (outside S.Source K.Sink source.new sink.new)
        result }
    ensures taken { LosesAtMost (input_limit + 1) (S.left source.old) (S.left source.new) }
    ensures unread { IfErr result (λ e. IsUnloadable e.kind → source.new ≡ source.old) }
    ensures unwritten { IfErr result (λ e. HoldsNoInput e.kind ⊎ WritesNoRange e.kind → sink.new ≡ sink.old) }
    ensures source { S.same source.old source.new }
    ensures sink { K.same sink.old sink.new }
{
    let keys = load(alloc, &args.keyset)?;
    let input = read_input(alloc, source)?;
    let mut object = SureAt::new(input);
    counted_range::<K, Brand>(
        alloc,
        &keys,
        &args.aad,
        &mut object,
        args.start,
        args.len,
        sink,
        Blank::new(1),
    )
}

// The range of what is held, by a ledger of steps.
fn counted_range<K: Sink, L: Ledger>(
    alloc: Global,
    keys: &TypedPrimitiveSet<StreamKind>,
    aad: &[u8],
    object: &mut SureAt,
    start: u64,
    len: u64,
    sink: &mut K,
    blank: Blank,
) -> Result<u64, TinkError>
    requires name { blank.name ≡ L.name }
    requires parts { blank.parts ≡ L.parts }
    requires some { 0 < blank.parts }
    ensures answer { (l : Loaded) → AreUsable l.keys → HoldsLoaded l keys.now
        → RangesOf K.got K.faults (opening_keys aad.now l) (length object.old) start len
        (record { all = Some object.old; reads_before = 0; reads_after = 0; old = sink.old; new = sink.new }) result }
    ensures early { LeavesRangeEnds result object.old object.new sink.old sink.new }
    ensures unwritten { LeavesUnwritten result sink.old sink.new }
    ensures sink { K.same sink.old sink.new }
{
    let mut steps = Steps::<L>::new(blank);
    range_of_set(alloc, keys, aad, object, start, len, sink, &mut steps)
}
