//! Callers of the readers and of the writer, whose clauses follow from those of the calls.

ghost use Rattle.std.specs.Prelude.{◌≡◌, [], false, IfOk, OnOk};
ghost use Rattle.std.specs.Io.KnownBytes.{Appends};
ghost use Rattle.stream_model.specs.Cut.{sealed};
ghost use Rattle.tink_streaming_io.specs.declared.writing.Mode.TheVariants.{Open};
ghost use Rattle.tink_streaming_io.specs.Readers.{moment_of};
ghost use Rattle.tink_streaming_io.specs.TextReading.{AtEnd};
ghost use Rattle.tink_streaming_io.specs.Writers.{seg_of};

use tink_io::{Sink, Source, TinkError};
use tink_streaming_io::{Reader, Writer};
use tink_streaming_segment::{SegmentDecrypter, SegmentEncrypter};

// Seals a whole text. After `Ok` the sink of a writer that had written nothing got its segments.
fn seal_text<W: Sink + Drop, E: SegmentEncrypter + Drop>(
    writer: &mut Writer<W, E>,
    text: &[u8],
) -> Result<(), TinkError>
    requires open { writer.old.mode ≡ Open }
    requires first { writer.old.number ≡ 0 }
    requires empty { writer.old.held ≡ [] }
    ensures written { OnOk result (Appends (W.got writer.old.sink) (W.got writer.new.sink)
        (sealed (seg_of E.seg writer.old.sealing) writer.old.sealing.first writer.old.sealing.room text.now)) }
{
    writer.write(text)?;
    writer.close()
}

// Reads the next bytes of a text. `false` says that the last segment's text was given, and that no byte is left.
fn read_some<R: Source + Drop, D: SegmentDecrypter + Drop>(
    reader: &mut Reader<R, D>,
    buf: &mut [u8; 16],
) -> Result<bool, TinkError>
    ensures end { IfOk result (λ more. more ≡ false → AtEnd (moment_of R.left R.faults reader.new)) }
{
    let n = reader.read(buf)?;
    Ok(n > 0)
}
