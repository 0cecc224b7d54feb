ghost use Rattle.std.specs.Prelude.{◌≡◌, ◌≤◌, ◌<◌, ◌+◌, ◌*◌, ◌^◌, map, vec_len, vec_capacity};
ghost use Rattle.tink_streaming_keys.specs.Memory.{trial_memory};
ghost use Rattle.stream_model.specs.Opening as opening;
ghost use Rattle.tink_streaming_io.specs.declared.progress.Progress.TheVariants.{Running};
ghost use Rattle.tink_streaming_keys.specs.Rooms.{HasRoomForEach};
ghost use Rattle.tink_streaming_io.specs.Openers.{reader_memory, reader_moment, reader_rest, segment_map};
ghost use Rattle.tink_io.specs.Outside.{FaultsStay, outside};
ghost use Rattle.tink_streaming_aead.specs.Wrapped.{KeepsOrder, all_entries, keys_in};
ghost use Rattle.tink_run.specs.OpenAnswers.{OpeningMeans};
ghost use Rattle.tink_run.specs.OpenReads.{FirstReads, ReaderReads, ReadsWithin, room_under};
ghost use Rattle.tink_run.specs.Run.{LeavesEnds, LeavesSinkItself};
ghost use Rattle.tink_run.specs.OpenSteps.{FirstFailed, FirstMeans, OpensUnder, ReaderMeans, held_outside};

use crate::report::Report;
use std::alloc::Global;
use tink_io::{Kind, Sink, Source, TinkError, write_all};
use tink_sets::TypedPrimitiveSet;
use tink_streaming_aead::{
    AES_CTR_HMAC_NONCE_SIZE_IN_BYTES, DerivesStreams, Progress, SegmentDecrypter, SegmentReader,
    StreamKind, Trial, entries_of, room_of, start,
};

/// Opens what the source has left under the first key of a set that it begins under.
///
/// # Errors
/// `OutOfMemory` before anything was read or written. `NoMatchingKey` if the stream begins under no key.
/// `Truncated` and `BadSegment` if a later segment is shorter than a tag or the segment of no text.
/// `TooManySegments` if bytes follow 2^32 segments. `ReadFault` and `WriteFault`. Texts whose segments lead
/// the stream were written then, and by `WriteFault` a prefix of these texts.
///
/// At most a byte more was read than the longest output prefix and segment of the keys have together. This
/// counts from the stream's beginning if no key was chosen, and from the beginning of the chunk that was
/// refused. Else it counts from behind the chunks of those texts. By `ReadFault` it was no more than one
/// chunk behind them: no text was lost but perhaps the first or that of the last segment.
pub fn open<S: Source, K: Sink>(
    alloc: Global,
    set: &TypedPrimitiveSet<StreamKind>,
    aad: &[u8],
    source: &mut S,
    sink: &mut K,
) -> Result<Report, TinkError>
    ensures answer { OpensUnder (map (opening.opening_key aad.now) (keys_in (all_entries set.now.entries)))
        (outside S.Source K.Sink source.old sink.old)
        (outside S.Source K.Sink source.new sink.new)
        result }
    // How far the source was read by a refusal, and what was written before a fault.
    ensures read { ReadsWithin (room_under (map (opening.opening_key aad.now) (keys_in (all_entries set.now.entries))))
        (map (opening.opening_key aad.now) (keys_in (all_entries set.now.entries)))
        (outside S.Source K.Sink source.old sink.old)
        (outside S.Source K.Sink source.new sink.new)
        result }
    ensures order { KeepsOrder set.now.entries }
    ensures early { LeavesEnds result source.old source.new sink.old sink.new }
    ensures unwritten { LeavesSinkItself result sink.old sink.new }
    ensures later { FaultsStay (outside S.Source K.Sink source.old sink.old)
        (outside S.Source K.Sink source.new sink.new) }
    ensures source { S.same source.old source.new }
    ensures sink { K.same sink.old sink.new }
{
    let keys = entries_of(alloc, set)?;
    let trial = Trial::reserve(alloc, room_of(&keys), AES_CTR_HMAC_NONCE_SIZE_IN_BYTES)?;
    open_under(&keys, aad, trial, source, sink)
}

/// Opens what the source has left under the first key that it begins under, in the memory of a trial. This has twice as
/// much as the longest output prefix and segment of the keys together, and 25 bytes.
///
/// # Errors
/// NoMatchingKey, ReadFault, and those of `open_stream`.
fn open_under<S: Source, K: Sink, T: DerivesStreams>(
    keys: &[T],
    aad: &[u8],
    trial: Trial,
    source: &mut S,
    sink: &mut K,
) -> Result<Report, TinkError>
    requires filled { trial.kept.filled ≡ 0 }
    requires memory { trial_memory trial
        ≡ 2 * room_under (map (λ k. opening.opening_key aad.now (T.key_of k)) keys.now) + 23 }
    requires room { HasRoomForEach T.key_of keys.now (vec_len trial.kept.buffer) (vec_capacity trial.opened)
        (vec_len trial.nonce) (vec_capacity trial.prefix) }
    ensures answer { OpeningMeans (map (λ k. opening.opening_key aad.now (T.key_of k)) keys.now)
        (outside S.Source K.Sink source.old sink.old)
        (outside S.Source K.Sink source.new sink.new) result
        × ReadsWithin (vec_len trial.kept.buffer) (map (λ k. opening.opening_key aad.now (T.key_of k)) keys.now)
        (outside S.Source K.Sink source.old sink.old)
        (outside S.Source K.Sink source.new sink.new) result }
    ensures unwritten { LeavesSinkItself result sink.old sink.new }
    ensures later { FaultsStay (outside S.Source K.Sink source.old sink.old)
        (outside S.Source K.Sink source.new sink.new) }
    ensures source { S.same source.old source.new }
    ensures sink { K.same sink.old sink.new }
{
    let mut reader = start(keys, aad, trial, source)?;
    open_stream(&mut reader, source, sink)
}

/// Opens and writes all segments that a reader finds.
///
/// # Errors
/// WriteFault; ReadFault, Truncated, BadSegment and TooManySegments of the reader behind the first
/// segment, and those of `open_first`.
fn open_stream<S: Source, K: Sink, D: SegmentDecrypter + Drop>(
    reader: &mut SegmentReader<D>,
    source: &mut S,
    sink: &mut K,
) -> Result<Report, TinkError>
    requires running { reader.old.progress ≡ Running }
    requires fresh { reader.old.segments ≡ 0 }
    ensures answer { ReaderMeans (segment_map reader.old.opener) reader.old.opener.first reader.old.opener.size
        reader.old.opener.overhead
        (held_outside S.left S.faults K.got K.faults reader.old source.old sink.old)
        (outside S.Source K.Sink source.new sink.new)
        result }
    ensures read { ReaderReads (vec_len reader.old.buffer) (segment_map reader.old.opener) reader.old.opener.first
        reader.old.opener.size (held_outside S.left S.faults K.got K.faults reader.old source.old sink.old)
        (outside S.Source K.Sink source.new sink.new)
        result }
    ensures unwritten { LeavesSinkItself result sink.old sink.new }
    ensures later { FaultsStay (outside S.Source K.Sink source.old sink.old)
        (outside S.Source K.Sink source.new sink.new) }
    ensures source { S.same source.old source.new }
    ensures sink { K.same sink.old sink.new }
{
    open_first(reader, source)?;
    let mut bytes: u64 = 0;
    loop {
        let text = reader.plaintext();
        write_all(sink, text)?;
        bytes += text.len() as u64;
        match reader.progress() {
            Progress::Ended => {
                return Ok(Report {
                    segments: reader.segments(),
                    bytes,
                });
            }
            _ => reader.open_next(source)?,
        }
    }
}

/// Opens the first segment.
///
/// # Errors
/// ReadFault; NoMatchingKey where it is the segment of no text. If a trial saw it open before, the source has
/// gone on after its end.
pub fn open_first<S: Source, D: SegmentDecrypter + Drop>(
    reader: &mut SegmentReader<D>,
    source: &mut S,
) -> Result<(), TinkError>
    requires running { reader.old.progress ≡ Running }
    requires fresh { reader.old.segments ≡ 0 }
    ensures answer { FirstMeans (segment_map reader.old.opener) reader.old.opener.first reader.old.opener.size
        (reader_moment S.left S.faults reader.old source.old) (reader_moment S.left S.faults reader.new source.new)
        result }
    ensures failed { FirstFailed (segment_map reader.old.opener) reader.old.opener.first reader.old.opener.size
        reader.old.opener.overhead (reader_moment S.left S.faults reader.old source.old)
        (reader_moment S.left S.faults reader.new source.new) result }
    ensures opener { reader.new.opener ≡ reader.old.opener }
    ensures memory { reader_memory reader.new ≡ reader_memory reader.old }
    ensures small { vec_len reader.new.opened < 2 ^ 32 }
    ensures read { FirstReads (vec_len reader.old.buffer) reader.old.opener.first
        (reader_rest S.left reader.old source.old) (S.left source.new) result }
    ensures room { vec_len reader.new.buffer ≡ vec_len reader.old.buffer }
    ensures later { S.faults source.old ≤ S.faults source.new }
    ensures same { S.same source.old source.new }
{
    match reader.open_next(source) {
        Ok(()) => Ok(()),
        Err(
            TinkError {
                kind: Kind::ReadFault,
            },
        ) => Err(TinkError::new(Kind::ReadFault)),
        Err(_) => Err(TinkError::new(Kind::NoMatchingKey)),
    }
}
