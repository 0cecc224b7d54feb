ghost use Rattle.std.specs.Prelude.{◌≡◌, ◌≤◌, ℕ, List, [], length, Option, IfOk, IfErr, vec_len, vec_capacity};
ghost use Rattle.tink_io.specs.declared.error.Kind.TheVariants.{OutOfMemory};
ghost use Rattle.stream_model.specs.Key.{StreamKey};
ghost use Rattle.tink_streaming_io.specs.Sealers.{held_text, segment_map, writer_moment};
ghost use Rattle.tink_streaming_io.specs.declared.writing.Mode.TheVariants.{Open};
ghost use Rattle.tink_streaming_keys.specs.Encrypting.{IsNewStream};
ghost use Rattle.tink_streaming_keys.specs.StreamKinds.{key_in_set};
ghost use Rattle.tink_io.specs.Outside.{FaultsStay, outside};
ghost use Rattle.tink_run.specs.Run.{IsEarly, LeavesEnds};
ghost use Rattle.tink_run.specs.SealSteps.{SealsUnder, kind_not_begun};

use crate::report::Report;
use std::alloc::Global;
use tink_io::{Draws, Kind, Sink, Source, TinkError};
use tink_sets::TypedEntry;
use tink_streaming_aead::{StreamKind, begin_stream};
use tink_streaming_io::{SegmentWriter, pour};
use tink_streaming_segment::{SegmentEncrypter, zeros};

// The bytes that are read at once.
const PIECE: usize = 65_536;

// Memory for what is read at once, and for no more.
fn piece_of(alloc: Global) -> Result<Vec<u8>, TinkError>
    ensures exact { IfOk result (λ piece. (vec_len piece ≡ 65536) × (vec_capacity piece ≡ 65536)) }
    ensures refused { IfErr result (λ e. e ≡ record { kind = OutOfMemory }) }
{
    zeros(alloc, PIECE)
}

/// Seals what the source has left under a key.
///
/// # Errors
/// `OutOfMemory` before anything was read, written or drawn. `RandomFault` if too few draws are left: they
/// stay. `UnsupportedHash` if no keys are derived. `ReadFault`, `WriteFault`. `TooManySegments` if the text
/// has more than 2^32 chunks.
pub fn seal<S: Source, K: Sink>(
    alloc: Global,
    key: &TypedEntry<StreamKind>,
    aad: &[u8],
    draws: &mut Draws,
    source: &mut S,
    sink: &mut K,
) -> Result<Report, TinkError>
    ensures answer { SealsUnder (key_in_set key.now) aad.now draws.old draws.new
        (outside S.Source K.Sink source.old sink.old)
        (outside S.Source K.Sink source.new sink.new)
        result }
    ensures early { LeavesEnds result source.old source.new sink.old sink.new }
    ensures later { FaultsStay (outside S.Source K.Sink source.old sink.old)
        (outside S.Source K.Sink source.new sink.new) }
    ensures source { S.same source.old source.new }
    ensures sink { K.same sink.old sink.new }
{
    let mut piece = piece_of(alloc)?;
    match begin_stream(alloc, key, draws, sink, aad) {
        Ok(mut writer) => seal_begun(&mut writer, &mut piece, source, sink),
        Err(error) => Err(not_begun(error)),
    }
}

// Seals what the source has left into a stream that was begun, in no more memory than that which it is handed, and lets
// go of nothing.
fn seal_begun<S: Source, K: Sink, E: SegmentEncrypter + Drop>(
    writer: &mut SegmentWriter<E>,
    piece: &mut [u8],
    source: &mut S,
    sink: &mut K,
) -> Result<Report, TinkError>
    requires open { writer.old.mode ≡ Open }
    requires fresh { writer.old.segments ≡ 0 }
    requires empty { held_text writer.old ≡ [] }
    requires piece { length piece.old ≡ 65536 }
    ensures answer { (k : StreamKey) (aad draws left_draws : List ℕ) (got : Option (List ℕ)) (writes : ℕ)
        → IsNewStream k aad draws left_draws got (segment_map writer.old.sealer) writer.old.sealer.first
        writer.old.sealer.room (writer_moment K.got K.faults writer.old sink.old)
        → writes ≤ K.faults sink.old
        → SealsUnder k aad draws left_draws
        (record { left = S.left source.old; read_faults = S.faults source.old; got = got; write_faults = writes })
        (outside S.Source K.Sink source.new sink.new)
        result }
    ensures early { IfErr result (λ e. IsEarly e.kind → ⊥) }
    ensures later { FaultsStay (outside S.Source K.Sink source.old sink.old)
        (outside S.Source K.Sink source.new sink.new) }
    ensures source { S.same source.old source.new }
    ensures sink { K.same sink.old sink.new }
{
    let bytes = pour(writer, piece, source, sink)?;
    writer.close(sink)?;
    Ok(Report {
        segments: writer.segments(),
        bytes,
    })
}

/// Why a stream that was not begun is not sealed: a hash that is unknown is unsupported too.
pub fn not_begun(error: TinkError) -> TinkError
    ensures { result ≡ record { kind = kind_not_begun error.kind } }
{
    match error.kind {
        Kind::UnknownHash => TinkError::new(Kind::UnsupportedHash),
        _ => error,
    }
}
