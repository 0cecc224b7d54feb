ghost use Rattle.std.specs.Prelude.{◌≡◌, ◌≤◌, ◌<◌, [], length};
ghost use Rattle.tink_streaming_io.specs.Pouring.{PourMeans};
ghost use Rattle.tink_streaming_io.specs.declared.writing.Mode.TheVariants.{Open};
ghost use Rattle.tink_streaming_io.specs.Sealers.{held_text, segment_map, writer_memory, writer_moment};

use crate::writing::SegmentWriter;
use tink_io::{Kind, Sink, Source, TinkError};
use tink_streaming_segment::SegmentEncrypter;

/// Writes all that the source has left, a piece at a time, and answers how many bytes these are. The stream is not
/// closed. The writer keeps the memory that it has.
///
/// # Errors
/// ReadFault, and the writer's. The text that was read before was written.
pub fn pour<S: Source, K: Sink, E: SegmentEncrypter + Drop>(
    writer: &mut SegmentWriter<E>,
    piece: &mut [u8],
    source: &mut S,
    sink: &mut K,
) -> Result<u64, TinkError>
    requires open { writer.old.mode ≡ Open }
    requires fresh { writer.old.segments ≡ 0 }
    requires empty { held_text writer.old ≡ [] }
    requires piece { 0 < length piece.old }
    ensures answer { PourMeans (segment_map writer.old.sealer) writer.old.sealer.first writer.old.sealer.room
        (S.left source.old) (S.left source.new) (S.faults source.old) (S.faults source.new)
        (writer_moment K.got K.faults writer.old sink.old) (writer_moment K.got K.faults writer.new sink.new)
        result }
    ensures sealer { writer.new.sealer ≡ writer.old.sealer }
    ensures memory { writer_memory writer.new ≡ writer_memory writer.old }
    ensures read_count { S.faults source.old ≤ S.faults source.new }
    ensures write_count { K.faults sink.old ≤ K.faults sink.new }
    ensures source { S.same source.old source.new }
    ensures sink { K.same sink.old sink.new }
{
    let mut bytes: u64 = 0;
    loop {
        match source.read(piece) {
            Ok(0) => return Ok(bytes),
            Ok(n) => {
                writer.write(sink, &piece[..n])?;
                bytes += n as u64;
            }
            Err(_) => return Err(TinkError::new(Kind::ReadFault)),
        }
    }
}
