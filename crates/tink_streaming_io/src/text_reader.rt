ghost use Rattle.std.specs.Prelude.{◌≡◌, ◌≤◌, length, take, drop, min, IfOk, vec_len};
ghost use Rattle.tink_io.specs.Taken.{LosesAtMost};
ghost use Rattle.tink_streaming_io.specs.Reading.{HasNotFailed};

use crate::progress::Progress;
use crate::reading::SegmentReader;
use tink_io::{Kind, Source, TinkError};
use tink_streaming_segment::SegmentDecrypter;

/// A reader of the text of segments, from a source that each call is given.
#[derive(Drop)]
pub struct TextReader<D: SegmentDecrypter> {
    pub reader: SegmentReader<D>,
    /// How many bytes of the text that was opened last were given.
    pub given: usize,
    ghost within: { given ≤ vec_len reader.opened },
}

// Gives of a text what there is room for.
fn give(text: &[u8], buf: &mut [u8]) -> usize
    ensures count { result ≡ min (length buf.old) (length text.now) }
    ensures given { take result buf.new ≡ take result text.now }
    ensures behind { drop result buf.new ≡ drop result buf.old }
{
    let n = text.len().min(buf.len());
    buf[..n].copy_from_slice(&text[..n]);
    n
}

impl<D: SegmentDecrypter + Drop> TextReader<D> {
    ghost use Rattle.tink_streaming_io.specs.TextReading.{IsDue, ReadMeans, ReadyMeans};
    ghost use Rattle.tink_streaming_io.specs.Openers.{EndsEmpty, held_bytes, reader_lacks, reader_memory, segment_map, text_moment};

    // Opens the next segment where no opened text is left to give and more may come.
    fn make_ready<S: Source>(&mut self, source: &mut S) -> Result<(), TinkError>
        requires lives { HasNotFailed self.old.reader.progress }
        requires at_end { EndsEmpty S.left self.old.reader source.old }
        ensures answer { ReadyMeans (segment_map self.old.reader.opener) self.old.reader.opener.first
            self.old.reader.opener.size self.old.reader.opener.overhead
            (text_moment S.left S.faults self.old source.old) (text_moment S.left S.faults self.new source.new)
            result }
        // where no segment is due, nothing is read
        ensures idle { (IsDue (text_moment S.left S.faults self.old source.old) 1 → ⊥)
            → (source.new ≡ source.old) × (held_bytes self.new.reader ≡ held_bytes self.old.reader) }
        ensures read { LosesAtMost (reader_lacks self.old.reader) (S.left source.old) (S.left source.new) }
        ensures opener { self.new.reader.opener ≡ self.old.reader.opener }
        ensures room { vec_len self.new.reader.buffer ≡ vec_len self.old.reader.buffer }
        ensures memory { reader_memory self.new.reader ≡ reader_memory self.old.reader }
        ensures later { S.faults source.old ≤ S.faults source.new }
        ensures same { S.same source.old source.new }
    {
        if self.given < self.reader.opened.len() {
            return Ok(());
        }
        match self.reader.progress {
            Progress::Running => {
                self.given = 0;
                self.reader.open_next(source)
            }
            _ => Ok(()),
        }
    }

    /// Gives the next bytes of the text, as many as are opened and `buf` has room for, and answers how many.
    /// If no opened text is left, the next segment is opened first. For it no more is read than its chunk and
    /// a byte behind it. `Ok(0)` comes on an empty buffer, which reads nothing, and at the end, for good. The
    /// reader keeps the memory that it has.
    ///
    /// # Errors
    /// ReadFault, TooManySegments, BadSegment and Truncated where the next segment was not opened, as in
    /// [`SegmentReader::open_next`]; FailedBefore where an earlier call failed.
    pub fn read<S: Source>(&mut self, source: &mut S, buf: &mut [u8]) -> Result<usize, TinkError>
        requires at_end { EndsEmpty S.left self.old.reader source.old }
        ensures answer { ReadMeans (segment_map self.old.reader.opener) self.old.reader.opener.first
            self.old.reader.opener.size self.old.reader.opener.overhead
            (text_moment S.left S.faults self.old source.old)
            (text_moment S.left S.faults self.new source.new) buf.old buf.new result }
        ensures within { IfOk result (λ n. n ≤ length buf.new) }
        ensures at_end { EndsEmpty S.left self.new.reader source.new }
        // where no segment is due, nothing is read
        ensures idle { (IsDue (text_moment S.left S.faults self.old source.old) (length buf.old) → ⊥)
            → (source.new ≡ source.old) × (held_bytes self.new.reader ≡ held_bytes self.old.reader) }
        // whatever the answer, no more is read than the next chunk and a byte behind it
        ensures read { LosesAtMost (reader_lacks self.old.reader) (S.left source.old) (S.left source.new) }
        ensures keeps { (self.new.reader.opener ≡ self.old.reader.opener)
            × (vec_len self.new.reader.buffer ≡ vec_len self.old.reader.buffer)
            × (reader_memory self.new.reader ≡ reader_memory self.old.reader) }
        ensures stays { (S.faults source.old ≤ S.faults source.new) × S.same source.old source.new }
    {
        if let Progress::Failed(c) = self.reader.progress {
            return Err(TinkError::new(Kind::FailedBefore(c)));
        }
        if buf.is_empty() {
            return Ok(0);
        }
        self.make_ready(source)?;
        let n = give(&self.reader.opened[self.given..], buf);
        self.given += n;
        Ok(n)
    }
}
