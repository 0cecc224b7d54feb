//! Sealing and opening to a sink that gets small pieces together.

ghost use Rattle.std.specs.Prelude.{◌≡◌, ◌≤◌, [], map, vec_capacity, Err};
ghost use Rattle.std.specs.Io.KnownBytes.{append_known};
ghost use Rattle.stream_model.specs.Opening as opening;
ghost use Rattle.tink_streaming_keys.specs.StreamKinds.{key_in_set};
ghost use Rattle.tink_streaming_aead.specs.Wrapped.{KeepsOrder, all_entries, keys_in};
ghost use Rattle.tink_io.specs.declared.error.Kind.TheVariants.{WriteFault};
ghost use Rattle.tink_io.specs.Gathering.{OnlyGrows};
ghost use Rattle.tink_run.specs.Endings.{EndsAs, IsEndedBy};
ghost use Rattle.tink_run.specs.OpenReads.{OpensReading};
ghost use Rattle.tink_io.specs.Outside.{FaultsStay, outside};
ghost use Rattle.tink_run.specs.Run.{LeavesEnds, LeavesSinkItself};
ghost use Rattle.tink_run.specs.SealSteps.{SealsUnder};

use crate::open::open;
use crate::report::Report;
use crate::seal::seal;
use std::alloc::Global;
use tink_io::{Draws, Gathered, Kind, Sink, Source, TinkError};
use tink_sets::{TypedEntry, TypedPrimitiveSet};
use tink_streaming_aead::StreamKind;

/// Ends a call over a gathered sink. If the sink has failed, now or before, it has got a prefix of the bytes given.
/// Else all of them are handed on, nothing waits, and the answer stays.
///
/// # Errors
/// That of the answer; WriteFault where the sink fails now.
pub fn end_call<K: Sink>(
    answer: Result<Report, TinkError>,
    sink: &mut Gathered<'_, K>,
) -> Result<Report, TinkError>
    ensures ends { IsEndedBy (append_known (K.got sink.old.sink.now) sink.old.waiting.now.items)
        (K.got sink.new.sink.now) (K.faults sink.old.sink.now) (K.faults sink.new.sink.now) answer result }
    ensures still { sink.old.waiting.now.items ≡ [] → (result ≡ answer) × (sink.new.sink.now ≡ sink.old.sink.now) }
    ensures empty { (result ≡ Err (record { kind = WriteFault }) → ⊥) → sink.new.waiting.now.items ≡ [] }
    ensures grows { OnlyGrows (K.got sink.old.sink.now) (K.got sink.new.sink.now) }
    ensures later { K.faults sink.old.sink.now ≤ K.faults sink.new.sink.now }
    ensures lent { sink.new.sink.ghost_name ≡ sink.old.sink.ghost_name }
    ensures memory { sink.new.waiting.ghost_name ≡ sink.old.waiting.ghost_name }
    ensures same { K.same sink.old.sink.now sink.new.sink.now }
{
    match answer {
        Err(
            TinkError {
                kind: Kind::WriteFault,
            },
        ) => answer,
        _ => match sink.flush() {
            Ok(()) => answer,
            Err(error) => Err(error),
        },
    }
}

// `seal` to a sink that gets small pieces together, in memory that is lent.
pub(crate) fn seal_together<S: Source, K: Sink>(
    alloc: Global,
    key: &TypedEntry<StreamKind>,
    aad: &[u8],
    draws: &mut Draws,
    source: &mut S,
    sink: &mut K,
    waiting: &mut Vec<u8>,
) -> Result<Report, TinkError>
    requires waiting { vec_capacity waiting.old ≡ 65536 }
    ensures answer { SealsUnder (key_in_set key.now) aad.now draws.old draws.new
        (outside S.Source K.Sink source.old sink.old)
        (outside S.Source K.Sink source.new sink.new)
        result }
    ensures early { LeavesEnds result source.old source.new sink.old sink.new }
    ensures later { FaultsStay (outside S.Source K.Sink source.old sink.old)
        (outside S.Source K.Sink source.new sink.new) }
    ensures source { S.same source.old source.new }
    ensures sink { K.same sink.old sink.new }
{
    let mut gathered = Gathered::new(sink, waiting);
    let answer = seal(alloc, key, aad, draws, source, &mut gathered);
    end_call(answer, &mut gathered)
}

// `open` to a sink that gets small pieces together, in memory that is lent.
pub(crate) fn open_together<S: Source, K: Sink>(
    alloc: Global,
    set: &TypedPrimitiveSet<StreamKind>,
    aad: &[u8],
    source: &mut S,
    sink: &mut K,
    waiting: &mut Vec<u8>,
) -> Result<Report, TinkError>
    requires waiting { vec_capacity waiting.old ≡ 65536 }
    ensures answer { EndsAs (OpensReading (map (opening.opening_key aad.now) (keys_in (all_entries set.now.entries)))
        (outside S.Source K.Sink source.old sink.old))
        (outside S.Source K.Sink source.old sink.old)
        (outside S.Source K.Sink source.new sink.new)
        result }
    ensures order { KeepsOrder set.now.entries }
    ensures early { LeavesEnds result source.old source.new sink.old sink.new }
    ensures unwritten { LeavesSinkItself result sink.old sink.new }
    ensures later { FaultsStay (outside S.Source K.Sink source.old sink.old)
        (outside S.Source K.Sink source.new sink.new) }
    ensures source { S.same source.old source.new }
    ensures sink { K.same sink.old sink.new }
{
    let mut gathered = Gathered::new(sink, waiting);
    let answer = open(alloc, set, aad, source, &mut gathered);
    end_call(answer, &mut gathered)
}
