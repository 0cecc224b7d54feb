//! The text of one stream into another, segment by segment.

ghost use Rattle.std.specs.Prelude.{◌≡◌, ◌≤◌, ◌+◌, ◌*◌, [], map, vec_len};
ghost use Rattle.tink_streaming_keys.specs.Memory.{trial_memory};
ghost use Rattle.tink_run.specs.OpenReads.{room_under};
ghost use Rattle.stream_model.specs.Opening as opening;
ghost use Rattle.tink_streaming_io.specs.Openers as openers;
ghost use Rattle.tink_streaming_io.specs.Sealers as sealers;
ghost use Rattle.tink_streaming_io.specs.declared.progress.Progress.TheVariants.{Running};
ghost use Rattle.tink_streaming_io.specs.declared.writing.Mode.TheVariants.{Open};
ghost use Rattle.tink_run.specs.OpenSteps.{held_outside};
ghost use Rattle.tink_io.specs.Outside.{FaultsStay, outside};
ghost use Rattle.tink_run.specs.Run.{LeavesSinkItself};
ghost use Rattle.tink_rewrap.specs.Passing.{FinishMeans, FitsKeys, IsUnbegun, LeadsUnder, LeadsWithin, OpensWithin};
ghost use Rattle.tink_rewrap.specs.Passing.{PassMeans, ReaderMeansWithin, anywhere, bytes_by};
ghost use Rattle.tink_rewrap.specs.Rewrapping.{HasKey, LeavesOrBegins};

use tink_io::{Sink, Source, TinkError};
use tink_run::open::open_first;
use tink_run::report::Report;
use tink_streaming_io::{Progress, SegmentReader, SegmentWriter};
use tink_streaming_keys::{DerivesStreams, Front, NewStream, Trial, start};
use tink_streaming_segment::{SegmentDecrypter, SegmentEncrypter};

// Writes the last segment of a text of so many bytes.
fn finish<K: Sink, E: SegmentEncrypter + Drop>(
    writer: &mut SegmentWriter<E>,
    bytes: u64,
    sink: &mut K,
) -> Result<Report, TinkError>
    ensures answer { FinishMeans (sealers.segment_map writer.old.sealer)
        (sealers.writer_moment K.got K.faults writer.old sink.old)
        (sealers.writer_moment K.got K.faults writer.new sink.new) bytes result }
    ensures later { K.faults sink.old ≤ K.faults sink.new }
    ensures same { K.same sink.old sink.new }
{
    writer.close(sink)?;
    Ok(Report {
        segments: writer.segments(),
        bytes,
    })
}

/// Passes all texts that a reader opens on to a new stream, whose front is written once the first
/// of them was opened.
///
/// # Errors
/// `ReadFault` and `NoMatchingKey` of `open_first`, with nothing written. Then `WriteFault`. Those of the
/// reader behind the first segment: the new stream then has no last segment. `TooManySegments` of the writer.
pub fn pass<S: Source, K: Sink, D: SegmentDecrypter + Drop, E: SegmentEncrypter + Drop>(
    reader: &mut SegmentReader<D>,
    front: &Front<'_>,
    writer: &mut SegmentWriter<E>,
    source: &mut S,
    sink: &mut K,
) -> Result<Report, TinkError>
    requires running { reader.old.progress ≡ Running }
    requires first { reader.old.segments ≡ 0 }
    requires open { writer.old.mode ≡ Open }
    requires fresh { writer.old.segments ≡ 0 }
    requires empty { sealers.held_text writer.old ≡ [] }
    ensures answer { PassMeans
        (ReaderMeansWithin (vec_len reader.old.buffer) (openers.segment_map reader.old.opener)
        reader.old.opener.first reader.old.opener.size reader.old.opener.overhead)
        (LeadsWithin (vec_len reader.old.buffer) (openers.segment_map reader.old.opener)
        reader.old.opener.first reader.old.opener.size)
        anywhere
        (bytes_by front.now (sealers.segment_map writer.old.sealer) writer.old.sealer.first
        writer.old.sealer.room)
        (held_outside S.left S.faults K.got K.faults reader.old source.old sink.old)
        (outside S.Source K.Sink source.new sink.new)
        result }
    ensures unwritten { LeavesSinkItself result sink.old sink.new }
    ensures later { FaultsStay (outside S.Source K.Sink source.old sink.old)
        (outside S.Source K.Sink source.new sink.new) }
    ensures source { S.same source.old source.new }
    ensures sink { K.same sink.old sink.new }
{
    open_first(reader, source)?;
    front.write(sink)?;
    let mut bytes: u64 = 0;
    loop {
        let text = reader.plaintext();
        writer.write(sink, text)?;
        bytes += text.len() as u64;
        match reader.progress() {
            Progress::Ended => return finish(writer, bytes, sink),
            _ => match reader.open_next(source) {
                Ok(()) => {}
                // The new stream is left without a last segment.
                Err(error) => return Err(error),
            },
        }
    }
}

/// Passes the text of a source on to a new stream, by the first key that the source begins under, in the memory of a
/// trial. This has twice as much as the longest output prefix and segment of the keys together, and 25 bytes.
///
/// # Errors
/// NoMatchingKey where it begins under none, ReadFault, and those of `pass`.
pub(crate) fn pass_under<S: Source, K: Sink, T: DerivesStreams>(
    keys: &[T],
    aad: &[u8],
    trial: Trial,
    stream: &mut NewStream<'_>,
    source: &mut S,
    sink: &mut K,
) -> Result<Report, TinkError>
    requires trial { FitsKeys T.key_of keys.now trial }
    requires memory { trial_memory trial
        ≡ 2 * room_under (map (λ k. opening.opening_key aad.now (T.key_of k)) keys.now) + 23 }
    requires stream { IsUnbegun stream.old.writer.mode stream.old.writer.segments
        (sealers.held_text stream.old.writer) }
    ensures answer { PassMeans
        (OpensWithin (vec_len trial.kept.buffer) (map (λ k. opening.opening_key aad.now (T.key_of k)) keys.now))
        (LeadsUnder (vec_len trial.kept.buffer) (map (λ k. opening.opening_key aad.now (T.key_of k)) keys.now))
        (HasKey (map (λ k. opening.opening_key aad.now (T.key_of k)) keys.now))
        (bytes_by stream.old.front (sealers.segment_map stream.old.writer.sealer) stream.old.writer.sealer.first
        stream.old.writer.sealer.room)
        (outside S.Source K.Sink source.old sink.old)
        (outside S.Source K.Sink source.new sink.new)
        result }
    ensures unwritten { LeavesSinkItself result sink.old sink.new }
    ensures begun { LeavesOrBegins (map (λ k. opening.opening_key aad.now (T.key_of k)) keys.now)
        (outside S.Source K.Sink source.old sink.old) result sink.old sink.new }
    ensures later { FaultsStay (outside S.Source K.Sink source.old sink.old)
        (outside S.Source K.Sink source.new sink.new) }
    ensures source { S.same source.old source.new }
    ensures sink { K.same sink.old sink.new }
{
    let mut reader = start(keys, aad, trial, source)?;
    pass(&mut reader, &stream.front, &mut stream.writer, source, sink)
}
