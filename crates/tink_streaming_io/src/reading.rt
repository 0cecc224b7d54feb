ghost use Rattle.std.specs.Prelude.{◌≡◌, ◌≤◌, ◌<◌, ◌+◌, ◌-◌, ◌^◌, [], take, vec_len, vec_capacity};
ghost use Rattle.stream_model.specs.Cut.{room_at};
ghost use Rattle.tink_io.specs.Taken.{LosesAtMost};
ghost use Rattle.tink_streaming_io.specs.Reading.{HasNotFailed};
ghost use Rattle.tink_streaming_io.specs.declared.progress.Progress.TheVariants.{Running, Ended};

use crate::buffers::Buffers;
use crate::progress::Progress;
use tink_io::{Cause, Kind, Source, TinkError};
use tink_streaming_segment::{Opener, SegmentDecrypter, carry, hold, open_front, size_of};

/// A reader of segments, from a source that each call is given.
///
/// A byte behind a full chunk is read before the chunk is opened, since the last segment is marked.
/// So more bytes than a chunk may be held.
#[derive(Drop)]
pub struct SegmentReader<D: SegmentDecrypter> {
    /// How the segments are opened.
    pub opener: Opener<D>,
    /// The progress of the reader.
    pub progress: Progress,
    /// The number of segments opened so far.
    pub segments: u64,
    /// The memory of the bytes that are held.
    pub buffer: Vec<u8>,
    /// The number of bytes that are held: the first ones of `buffer`.
    pub filled: usize,
    /// The text of the segment that was opened last.
    pub opened: Vec<u8>,
    /// The memory of a nonce.
    pub nonce: Vec<u8>,
    ghost buffer_fits: { opener.size < vec_len buffer },
    ghost reserved: { opener.size ≤ vec_capacity opened },
    ghost nonce_fits: { opener.nonce_size ≤ vec_len nonce },
    ghost few: { segments ≤ 2 ^ 32 },
    ghost filled_in: { filled ≤ vec_len buffer },
    ghost carried: { progress ≡ Running → 0 < segments → 0 < filled },
    ghost ended_some: { progress ≡ Ended → 0 < segments },
    ghost ended_held: { progress ≡ Ended → filled ≡ 0 },
}

// Nothing is held behind the last segment.
fn progress_after(filled: usize) -> Progress
    ensures lives { HasNotFailed result }
    ensures running { result ≡ Running → 0 < filled }
    ensures ended { result ≡ Ended → filled ≡ 0 }
{
    if filled == 0 {
        Progress::Ended
    } else {
        Progress::Running
    }
}

impl<D: SegmentDecrypter + Drop> SegmentReader<D> {
    ghost use Rattle.tink_streaming_io.specs.Reading.{HoldsByFault, OpenNextMeans};
    ghost use Rattle.tink_streaming_io.specs.Openers.{held_bytes, reader_memory, reader_moment, segment_map};
    ghost use Rattle.tink_streaming_io.specs.Rooms.{HasBuffersFor};

    /// A reader that has opened nothing, and holds the first `filled` bytes of `buffers.sealed`.
    pub fn from_parts(opener: Opener<D>, buffers: Buffers, filled: usize) -> SegmentReader<D>
        requires room { HasBuffersFor opener buffers }
        requires filled { filled ≤ vec_len buffers.sealed }
        ensures progress { result.progress ≡ Running }
        ensures segments { result.segments ≡ 0 }
        ensures held { held_bytes result ≡ take filled buffers.sealed.items }
        ensures room { vec_len result.buffer ≡ vec_len buffers.sealed }
        ensures opened { result.opened.items ≡ [] }
        ensures memory { reader_memory result ≡ vec_capacity buffers.sealed + vec_capacity buffers.text + vec_capacity
            buffers.nonce + vec_capacity opener.prefix }
        ensures opener { result.opener ≡ opener }
    {
        SegmentReader {
            opener,
            progress: Progress::Running,
            segments: 0,
            buffer: buffers.sealed,
            filled,
            opened: buffers.text,
            nonce: buffers.nonce,
        }
    }

    /// Opens the next segment. Its text is `plaintext`, and after the last one the reader has ended.
    ///
    /// # Errors
    /// `ReadFault` if the source failed. `TooManySegments` if bytes follow the segment of number 2^32 - 1. `Truncated`
    /// if fewer bytes are left than the overhead. `BadSegment` if the next chunk is the segment of no text. The reader
    /// has then failed, and has opened nothing. It holds what was read: at most the next chunk and one byte, and by
    /// ReadFault at most the next chunk.
    pub fn open_next<S: Source>(&mut self, source: &mut S) -> Result<(), TinkError>
        requires running { self.old.progress ≡ Running }
        ensures answer { OpenNextMeans (segment_map self.old.opener) self.old.opener.first self.old.opener.size
            self.old.opener.overhead (reader_moment S.left S.faults self.old source.old)
            (reader_moment S.left S.faults self.new source.new) result }
        ensures opener { self.new.opener ≡ self.old.opener }
        ensures room { vec_len self.new.buffer ≡ vec_len self.old.buffer }
        ensures memory { reader_memory self.new ≡ reader_memory self.old }
        ensures small { vec_len self.new.opened < 2 ^ 32 }
        ensures read { LosesAtMost
            (room_at self.old.opener.first self.old.opener.size self.old.segments + 1 - self.old.filled)
            (S.left source.old) (S.left source.new) }
        ensures short { HoldsByFault (room_at self.old.opener.first self.old.opener.size self.old.segments)
            self.new.filled result }
        ensures later { S.faults source.old ≤ S.faults source.new }
        ensures same { S.same source.old source.new }
    {
        let size = size_of(&self.opener, self.segments);
        match hold(source, &mut self.buffer, &mut self.filled, size) {
            Ok(()) => {}
            Err(_) => {
                self.opened.clear();
                self.progress = Progress::Failed(Cause::ReadFault);
                return Err(TinkError::new(Kind::ReadFault));
            }
        }
        let Ok(number) = u32::try_from(self.segments) else {
            self.opened.clear();
            self.progress = Progress::Failed(Cause::TooManySegments);
            return Err(TinkError::new(Kind::TooManySegments));
        };
        if !open_front(
            &self.opener,
            self.segments,
            &self.buffer[..self.filled],
            &mut self.nonce,
            &mut self.opened,
        ) {
            if self.filled < self.opener.overhead.max(1) {
                self.progress = Progress::Failed(Cause::Truncated(number));
                return Err(TinkError::new(Kind::Truncated(number)));
            }
            self.progress = Progress::Failed(Cause::BadSegment(number));
            return Err(TinkError::new(Kind::BadSegment(number)));
        }
        self.segments += 1;
        let n = self.filled.min(size);
        carry(&mut self.buffer, n, self.filled);
        self.filled -= n;
        self.progress = progress_after(self.filled);
        Ok(())
    }

    /// The text of the segment that was opened last, none after a refusal.
    pub fn plaintext(&self) -> &[u8]
        ensures { result.now ≡ self.now.opened.items }
    {
        &self.opened
    }

    /// The progress of the reader.
    pub fn progress(&self) -> Progress
        ensures { result ≡ self.now.progress }
    {
        self.progress
    }

    /// The number of segments opened so far.
    pub fn segments(&self) -> u64
        ensures { result ≡ self.now.segments }
    {
        self.segments
    }
}
