//! The key and the sizes of a stream under a keyset.

ghost use Rattle.std.specs.Prelude.{◌≡◌};
ghost use Rattle.tink_range.specs.Objects.{LeavesObject};
ghost use Rattle.tink_rewrap.specs.StreamInfos.{IsInfoComplete, KeysetInfoMeans, LeavesEarly, TakesInfoSteps, TellsStream};

use crate::info::of_set::{StreamInfo, info_of_set};
use std::alloc::Global;
use std::sync::ledger::Ledger;
use tink_io::TinkError;
use tink_range::{ReadAt, Steps};
use tink_run::load::load;

/// The key and the sizes of the stream that `object` is, under a keyset in the wire format and the associated data.
/// They are the key's id, the segments, the bytes of the plaintext and those of a whole segment. The key is the first
/// under which the stream begins. Only the first and the last segment are opened. So an object that was cut is
/// refused, and the segments between them are not checked.
///
/// # Errors
/// The first that applies: the refusals of loading the keyset, `BadKeyset`, `InvalidKeyset`, `UnsupportedKeyType`,
/// `InvalidKey`, `NoPrimary` and `WrongPrimitive`, with nothing read; then those of `info_of_set`. `OutOfMemory` comes
/// before anything was read.
pub fn stream_info<A: ReadAt, L: Ledger>(
    alloc: Global,
    keyset: &[u8],
    aad: &[u8],
    object: &mut A,
    steps: &mut Steps<L>,
) -> Result<StreamInfo, TinkError>
    // Each answer has its cause, and says what stands after it.
    ensures answer { KeysetInfoMeans keyset.now aad.now (A.bytes object.old) (A.length_of object.old)
        (A.faults object.old) (A.faults object.new) object.old object.new result }

    // Known bytes: of a stream of the chosen key its segments and the bytes of its text.
    ensures stream { TellsStream keyset.now aad.now (A.bytes object.old) result }

    // Known bytes: where the object does not fail, the keyset loads and the object is a stream of the chosen key, it is
    // told, or there is no memory.
    ensures succeeds { IsInfoComplete keyset.now aad.now (A.bytes object.old) (A.faults object.old)
        (A.faults object.new) result }

    // At most a step for each key and one more; none where the keyset does not load.
    ensures ticks { TakesInfoSteps keyset.now steps.old steps.new }

    // A refusal that comes before anything was read leaves the object itself as it was.
    ensures early { LeavesEarly result object.old object.new }
    ensures kept { LeavesObject A.length_of A.bytes A.faults object.old object.new result }
    ensures object { A.same object.old object.new }
{
    let keys = load(alloc, keyset)?;
    info_of_set(alloc, &keys, aad, object, steps)
}
