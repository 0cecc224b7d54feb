//! A rewrap to a sink that gets small pieces together.

ghost use Rattle.std.specs.Prelude.{◌≡◌, map, vec_capacity};
ghost use Rattle.stream_model.specs.Opening as opening;
ghost use Rattle.tink_streaming_keys.specs.StreamKinds.{key_in_set};
ghost use Rattle.tink_streaming_aead.specs.Wrapped.{KeepsOrder, all_entries, keys_in};
ghost use Rattle.tink_io.specs.Outside.{FaultsStay, outside};
ghost use Rattle.tink_run.specs.Run.{LeavesEnds, LeavesSinkItself};
ghost use Rattle.tink_rewrap.specs.Rewrapping.{LeavesOrBegins, RewrapEnds};

use crate::rewrap::between::rewrap_between;
use std::alloc::Global;
use tink_io::{Draws, Gathered, Sink, Source, TinkError};
use tink_run::report::Report;
use tink_run::together::end_call;
use tink_sets::{TypedEntry, TypedPrimitiveSet};
use tink_streaming_keys::StreamKind;

// `rewrap_between` to a sink that gets small pieces together, in memory that is lent.
pub(crate) fn rewrap_together<S: Source, K: Sink>(
    alloc: Global,
    from: &TypedPrimitiveSet<StreamKind>,
    from_aad: &[u8],
    to: &TypedEntry<StreamKind>,
    to_aad: &[u8],
    draws: &mut Draws,
    source: &mut S,
    sink: &mut K,
    waiting: &mut Vec<u8>,
) -> Result<Report, TinkError>
    requires waiting { vec_capacity waiting.old ≡ 65536 }
    ensures answer { RewrapEnds
        (map (opening.opening_key from_aad.now) (keys_in (all_entries from.now.entries)))
        (key_in_set to.now) to_aad.now draws.old draws.new
        (outside S.Source K.Sink source.old sink.old)
        (outside S.Source K.Sink source.new sink.new)
        result }
    ensures order { KeepsOrder from.now.entries }
    ensures early { LeavesEnds result source.old source.new sink.old sink.new }
    ensures unwritten { LeavesSinkItself result sink.old sink.new }
    ensures begun { LeavesOrBegins
        (map (opening.opening_key from_aad.now) (keys_in (all_entries from.now.entries)))
        (outside S.Source K.Sink source.old sink.old) result sink.old sink.new }
    ensures later { FaultsStay (outside S.Source K.Sink source.old sink.old)
        (outside S.Source K.Sink source.new sink.new) }
    ensures source { S.same source.old source.new }
    ensures sink { K.same sink.old sink.new }
{
    let mut gathered = Gathered::new(sink, waiting);
    let answer = rewrap_between(
        alloc,
        from,
        from_aad,
        to,
        to_aad,
        draws,
        source,
        &mut gathered,
    );
    end_call(answer, &mut gathered)
}
