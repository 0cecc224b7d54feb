//! A range of a stream's text is written into a place.

ghost use Rattle.std.specs.Prelude.{◌≡◌, ℕ, List, Some, true, false, IfErr, IfOk, OnErr};
ghost use Rattle.tink_range.specs.ChunkReading.{ends_of};
ghost use Rattle.tink_range.specs.Objects.{LeavesObject};
ghost use Rattle.tink_run.specs.Run.{CanOpen, IsEarly};
ghost use Rattle.tink_rewrap.specs.KeysetRanges.{GivesSlice, KeysetRangeMeans, TakesKeysetSteps};
ghost use Rattle.tink_cli_files.specs.Streams.{IsShownWhole, RanAndEnded, Succeeds};

use std::alloc::Global;
use std::sync::ledger::Ledger;
use tink_io::saving::finish;
use tink_io::{Place, TinkError};
use tink_range::{ReadAt, Steps};
use tink_rewrap::ranges::run_range;

/// Writes a range of the text of the stream that an object is into a draft, as `run_range` of `tink_rewrap`.
/// If all of it was done, the draft is shown, and else it is discarded.
///
/// # Errors
/// Those of `run_range`, and `WriteFault` where the draft could not be shown: what was shown stays.
pub fn range_to<A: ReadAt, P: Place, L: Ledger>(
    alloc: Global,
    keyset: &[u8],
    aad: &[u8],
    object: &mut A,
    start: u64,
    len: u64,
    place: &mut P,
    steps: &mut Steps<L>,
) -> Result<u64, TinkError>
    requires { P.has_draft place.old ≡ true }

    // `run_range` wrote the draft, and by its answer the draft was shown or taken away.
    ensures ran { RanAndEnded P.got P.faults
        (λ draft answer. KeysetRangeMeans P.got P.faults keyset.now aad.now (A.length_of object.old) start len
        object.old object.new (ends_of A.bytes A.faults object.old object.new place.old draft) answer)
        (P.replaces place.old) (P.shown place.old) (P.shown place.new) (P.faults place.new) result }

    // Known bytes: of a stream of the chosen key what is shown is that slice of its text.
    ensures ok { IfOk result (λ n. IsShownWhole P.got
        (λ draft value. GivesSlice P.got keyset.now aad.now start len
        (ends_of A.bytes A.faults object.old object.new place.old draft) value)
        (P.replaces place.old) (P.shown place.old) (P.shown place.new) n) }

    // At most a step for each key and, where one is chosen, for each chunk that the range's own length fills and two
    // more; none where the keyset does not load.
    ensures ticks { TakesKeysetSteps keyset.now aad.now (A.bytes object.old) (A.length_of object.old) start len
        steps.old steps.new }

    // Known bytes: where no end fails, the keyset loads and the object is a stream of the chosen key, the range is
    // shown, or there is no memory.
    ensures succeeds { (X : List ℕ) → A.bytes object.old ≡ Some X → CanOpen keyset.now aad.now X
        → Succeeds (A.faults object.old) (A.faults object.new) (P.faults place.old) (P.faults place.new) result }

    // A refusal that comes before anything was read leaves the object itself as it was.
    ensures early { IfErr result (λ e. IsEarly e.kind → object.new ≡ object.old) }
    ensures err { OnErr result (P.shown place.new ≡ P.shown place.old) }
    ensures gone { P.has_draft place.new ≡ false }
    ensures place { P.rest place.old place.new }
    ensures kept { LeavesObject A.length_of A.bytes A.faults object.old object.new result }
    ensures object { A.same object.old object.new }
{
    let answer = run_range(alloc, keyset, aad, object, start, len, place, steps);
    finish(place, answer)
}
