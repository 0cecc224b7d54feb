ghost use Rattle.std.specs.Prelude.{◌≡◌, ◌≤◌, ◌<◌, ◌+◌, ◌-◌, ◌^◌, ◌++◌, [], false, length, take, min, vec_len, vec_capacity};
ghost use Rattle.stream_model.specs.Cut.{room_at};
ghost use Rattle.tink_streaming_io.specs.declared.writing.Mode.TheVariants.{Open};

use crate::buffers::WriterBuffers;
use tink_io::{Cause, Kind, Sink, TinkError};
use tink_streaming_segment::{Sealer, SegmentEncrypter, room_of, send};

/// The greatest number of a segment.
const LAST_NUMBER: u64 = 4294967295;

/// Whether a writer takes text.
#[derive(Clone, Copy, Debug, PartialEq, Eq)]
pub enum Mode {
    /// It takes text.
    Open,
    /// It was closed.
    Closed,
    /// A call failed, by this cause.
    Failed(Cause),
}

/// A writer of segments, to a sink that each call is given. A caller that sets its fields may have two segments made
/// under one nonce.
///
/// The text of the next segment is held where the segment is made. A full chunk is held until more text comes, since
/// the last segment is marked.
#[derive(Drop)]
pub struct SegmentWriter<E: SegmentEncrypter> {
    /// How the segments are made.
    pub sealer: Sealer<E>,
    /// Whether it takes text.
    pub mode: Mode,
    /// The number of segments written whole so far.
    pub segments: u64,
    /// The memory of a segment, in whose place its text is held.
    pub segment: Vec<u8>,
    /// The number of bytes of text that are held: the first ones of `segment`.
    pub filled: usize,
    /// The memory of a nonce.
    pub nonce: Vec<u8>,
    ghost held_fits: { filled ≤ room_at sealer.first sealer.room segments },
    ghost segment_fits: { sealer.room + sealer.overhead ≤ vec_len segment },
    ghost nonce_fits: { vec_len nonce ≡ sealer.nonce_size },
    ghost few: { segments ≤ 2 ^ 32 },
    ghost open_few: { mode ≡ Open → segments < 2 ^ 32 },
}

impl<E: SegmentEncrypter + Drop> SegmentWriter<E> {
    ghost use Rattle.tink_streaming_io.specs.Writing.{CloseMeans, IsAllHeld, PutMeans, WriteMeans};
    ghost use Rattle.tink_streaming_io.specs.Sealers.{held_text, segment_map, writer_memory, writer_moment};

    /// A writer that has written nothing, of parts that fit.
    pub fn from_parts(sealer: Sealer<E>, buffers: WriterBuffers) -> SegmentWriter<E>
        requires segment_room { sealer.room + sealer.overhead ≤ vec_len buffers.segment }
        requires nonce_room { vec_len buffers.nonce ≡ sealer.nonce_size }
        ensures mode { result.mode ≡ Open }
        ensures segments { result.segments ≡ 0 }
        ensures held { held_text result ≡ [] }
        ensures memory { writer_memory result ≡ vec_capacity buffers.segment + vec_capacity buffers.nonce + vec_capacity
            sealer.prefix }
        ensures sealer { result.sealer ≡ sealer }
    {
        SegmentWriter {
            sealer,
            mode: Mode::Open,
            segments: 0,
            segment: buffers.segment,
            filled: 0,
            nonce: buffers.nonce,
        }
    }

    // Holds text of `buf`, as much as the next segment has room for.
    fn hold(&mut self, buf: &[u8]) -> usize
        ensures count { result ≡ min (room_at self.old.sealer.first self.old.sealer.room self.old.segments
            - self.old.filled) (length buf.now) }
        ensures filled { self.new.filled ≡ self.old.filled + result }
        ensures held { held_text self.new ≡ held_text self.old ++ take result buf.now }
        ensures sealer { self.new.sealer ≡ self.old.sealer }
        ensures memory { writer_memory self.new ≡ writer_memory self.old }
        ensures mode { self.new.mode ≡ self.old.mode }
        ensures segments { self.new.segments ≡ self.old.segments }
    {
        let at = self.filled;
        let n = (room_of(&self.sealer, self.segments) - at).min(buf.len());
        self.segment[at..at + n].copy_from_slice(&buf[..n]);
        self.filled = at + n;
        n
    }

    // Writes the segment of what is held.
    fn put<K: Sink>(&mut self, sink: &mut K, last: bool) -> Result<(), TinkError>
        requires open { self.old.mode ≡ Open }
        requires more { last ≡ false → self.old.segments + 1 < 2 ^ 32 }
        ensures answer { PutMeans (segment_map self.old.sealer) last (writer_moment K.got K.faults self.old sink.old)
            (writer_moment K.got K.faults self.new sink.new) result }
        ensures sealer { self.new.sealer ≡ self.old.sealer }
        ensures memory { writer_memory self.new ≡ writer_memory self.old }
        ensures later { K.faults sink.old ≤ K.faults sink.new }
        ensures same { K.same sink.old sink.new }
    {
        let sent = send(
            sink,
            &self.sealer,
            self.segments,
            last,
            self.filled,
            &mut self.nonce,
            &mut self.segment,
        );
        self.filled = 0;
        match sent {
            Ok(()) => {
                self.segments += 1;
                if last {
                    self.mode = Mode::Closed;
                }
                Ok(())
            }
            Err(e) => {
                self.mode = Mode::Failed(Cause::WriteFault);
                Err(e)
            }
        }
    }

    // Writes the chunks that are full, and holds the last one.
    fn put_text<K: Sink>(&mut self, sink: &mut K, buf: &[u8]) -> Result<usize, TinkError>
        requires { self.old.mode ≡ Open }
        ensures answer { WriteMeans (segment_map self.old.sealer) self.old.sealer.first self.old.sealer.room
            (writer_moment K.got K.faults self.old sink.old) (writer_moment K.got K.faults self.new sink.new)
            buf.now result }
        ensures still { IsAllHeld self.old.sealer.first self.old.sealer.room
            (writer_moment K.got K.faults self.old sink.old) buf.now → sink.new ≡ sink.old }
        ensures sealer { self.new.sealer ≡ self.old.sealer }
        ensures memory { writer_memory self.new ≡ writer_memory self.old }
        ensures later { K.faults sink.old ≤ K.faults sink.new }
        ensures same { K.same sink.old sink.new }
    {
        let mut at = self.hold(buf);
        while at < buf.len() {
            if self.segments == LAST_NUMBER {
                self.filled = 0;
                self.mode = Mode::Failed(Cause::TooManySegments);
                return Err(TinkError::new(Kind::TooManySegments));
            }
            self.put(sink, false)?;
            at += self.hold(&buf[at..]);
        }
        Ok(buf.len())
    }

    /// Takes all of `buf`: the segments of the chunks that are full and have text behind them are
    /// written, and the last chunk is held.
    ///
    /// # Errors
    /// WriteFault where the sink failed, TooManySegments where a number above 2^32 - 1 is needed,
    /// Closed after `close`, FailedBefore after another of these.
    pub fn write<K: Sink>(&mut self, sink: &mut K, buf: &[u8]) -> Result<usize, TinkError>
        ensures answer { WriteMeans (segment_map self.old.sealer) self.old.sealer.first self.old.sealer.room
            (writer_moment K.got K.faults self.old sink.old) (writer_moment K.got K.faults self.new sink.new)
            buf.now result }
        // where no segment is due the sink stays as it is
        ensures still { IsAllHeld self.old.sealer.first self.old.sealer.room
            (writer_moment K.got K.faults self.old sink.old) buf.now → sink.new ≡ sink.old }
        // a writer that takes no text, and the sink, stay as they are
        ensures idle { (self.old.mode ≡ Open → ⊥) → (self.new ≡ self.old) × (sink.new ≡ sink.old) }
        ensures sealer { self.new.sealer ≡ self.old.sealer }
        ensures memory { writer_memory self.new ≡ writer_memory self.old }
        ensures later { K.faults sink.old ≤ K.faults sink.new }
        ensures same { K.same sink.old sink.new }
    {
        match self.mode {
            Mode::Open => self.put_text(sink, buf),
            Mode::Closed => Err(TinkError::new(Kind::Closed)),
            Mode::Failed(c) => Err(TinkError::new(Kind::FailedBefore(c))),
        }
    }

    /// Writes the held text as the last segment, which is marked. A second call does nothing.
    ///
    /// # Errors
    /// WriteFault where the sink failed, FailedBefore after a refusal.
    pub fn close<K: Sink>(&mut self, sink: &mut K) -> Result<(), TinkError>
        ensures answer { CloseMeans (segment_map self.old.sealer) (writer_moment K.got K.faults self.old sink.old)
            (writer_moment K.got K.faults self.new sink.new) result }
        // a writer that is not open, and the sink, stay as they are
        ensures idle { (self.old.mode ≡ Open → ⊥) → (self.new ≡ self.old) × (sink.new ≡ sink.old) }
        ensures sealer { self.new.sealer ≡ self.old.sealer }
        ensures memory { writer_memory self.new ≡ writer_memory self.old }
        ensures later { K.faults sink.old ≤ K.faults sink.new }
        ensures same { K.same sink.old sink.new }
    {
        match self.mode {
            Mode::Open => self.put(sink, true),
            Mode::Closed => Ok(()),
            Mode::Failed(c) => Err(TinkError::new(Kind::FailedBefore(c))),
        }
    }

    /// The number of segments written whole so far.
    pub fn segments(&self) -> u64
        ensures { result ≡ self.now.segments }
    {
        self.segments
    }
}
