ghost use Rattle.std.specs.Prelude.{◌≡◌, ◌≤◌, ◌<◌, ◌+◌, ◌-◌, [], List, ℕ, length, take, None, Some, IfOk, OnOk, IfErr, vec_len, vec_capacity};
ghost use Rattle.tink_io.specs.Taken.{LosesAtMost};
ghost use Rattle.tink_streaming_segment.specs.Sizes.{sizes_fault};
ghost use Rattle.tink_streaming_io.specs.declared.progress.Progress.TheVariants.{Running};

use crate::buffers::Buffers;
use crate::reading::SegmentReader;
use crate::text_reader::TextReader;
use std::marker::Model;
use tink_io::{Source, TinkError};
use tink_primitives::DecryptingRead;
use tink_streaming_segment::{Opener, SegmentDecrypter, check_sizes};

/// The parts of a reader. They are a source, the one-shot map of its segments, the size and prefix of nonces,
/// a segment's size, and the offset of the first. Sizes are in bytes.
#[derive(Drop)]
pub struct ReaderParams<R, D: SegmentDecrypter> {
    /// The source.
    pub r: R,
    /// The one-shot map of a segment.
    pub segment_decrypter: D,
    /// The bytes of a nonce, five more at least than its prefix.
    pub nonce_size: usize,
    /// The prefix of all nonces.
    pub nonce_prefix: Vec<u8>,
    /// The bytes of a segment.
    pub ciphertext_segment_size: u32,
    /// The bytes that the first segment is shorter.
    pub first_ciphertext_segment_offset: u32,
}

/// A reader of the text of segments, from a source that it owns.
///
/// A byte behind a segment is read before the segment is opened, since the last one is marked. No
/// text is given before its segment was opened.
#[derive(Drop)]
pub struct Reader<R: Source, D: SegmentDecrypter> {
    source: R,
    text: TextReader<D>,
}

impl<R: Source, D: SegmentDecrypter> Model for Reader<R, D> {
    ghost use Rattle.tink_streaming_io.specs.Readers.{ReaderState};
    ghost use Rattle.tink_streaming_io.specs.Openers.{EndsEmpty, pending_text, reader_state};

    ghost Value = { ReaderState R D };

    ghost view = { λ r. reader_state r.text.reader (pending_text r.text) r.source };

    ghost invariant = { λ r. EndsEmpty R.left r.text.reader r.source };
}

impl<R: Source + Drop, D: SegmentDecrypter + Drop> Reader<R, D> {
    ghost use Rattle.tink_streaming_io.specs.TextReading.{IsDue, ReadMeans};
    ghost use Rattle.tink_streaming_io.specs.Readers.{ReaderState, lacks, moment_of, seg_of};
    ghost use Rattle.tink_streaming_io.specs.Openers.{reader_state};

    /// A reader that has read nothing, with memory by `Buffers::reserve` for these sizes. The
    /// nonce's size, where it is not too short, is that of the decrypter.
    ///
    /// # Errors
    /// `NonceTooShort` if a nonce has not five bytes more than its prefix. `OffsetTooBig` if the offset is
    /// beyond the segment. `SegmentTooSmall` if the first segment has no room for text.
    pub fn new(params: ReaderParams<R, D>, buffers: Buffers) -> Result<Reader<R, D>, TinkError>
        requires text { buffers.text.items ≡ [] }
        requires text_room { params.ciphertext_segment_size < vec_capacity buffers.text }
        requires sealed_room { params.ciphertext_segment_size < vec_len buffers.sealed }
        requires nonce_room { vec_len buffers.nonce ≡ params.nonce_size }
        requires nonce { vec_len params.nonce_prefix + 5 ≤ params.nonce_size
            → params.nonce_size ≡ D.nonce_length params.segment_decrypter }
        ensures ok { OnOk result (sizes_fault params.nonce_size
            (vec_len params.nonce_prefix) params.ciphertext_segment_size
            params.first_ciphertext_segment_offset (D.overhead_of params.segment_decrypter) ≡ None) }
        ensures fresh { IfOk result (λ r. r ≡ record {
          opening = record {
            decrypter = params.segment_decrypter;
            prefix = params.nonce_prefix.items;
            nonce_size = params.nonce_size;
            overhead = D.overhead_of params.segment_decrypter;
            first = params.ciphertext_segment_size - params.first_ciphertext_segment_offset;
            size = params.ciphertext_segment_size;
          };
          progress = Running;
          number = 0;
          pending = [];
          held = [];
          room = vec_len buffers.sealed;
          memory = vec_capacity buffers.sealed + vec_capacity buffers.text + vec_capacity buffers.nonce
              + vec_capacity params.nonce_prefix;
          source = params.r;
        }) }
        ensures refused { IfErr result (λ e. sizes_fault params.nonce_size
            (vec_len params.nonce_prefix) params.ciphertext_segment_size
            params.first_ciphertext_segment_offset (D.overhead_of params.segment_decrypter) ≡ Some e.kind) }
    {
        let ReaderParams {
            r,
            segment_decrypter,
            nonce_size,
            nonce_prefix,
            ciphertext_segment_size,
            first_ciphertext_segment_offset,
        } = params;
        let overhead = segment_decrypter.overhead();
        check_sizes(
            nonce_size,
            &nonce_prefix,
            ciphertext_segment_size,
            first_ciphertext_segment_offset,
            overhead,
        )?;
        let size = ciphertext_segment_size as usize;
        let opener = Opener {
            decrypter: segment_decrypter,
            prefix: nonce_prefix,
            nonce_size,
            overhead,
            first: size - first_ciphertext_segment_offset as usize,
            size,
        };
        Ok(Reader {
            source: r,
            text: TextReader {
                reader: SegmentReader::from_parts(opener, buffers, 0),
                given: 0,
            },
        })
    }

    /// A reader of the text of segments, from the source that it is given for good.
    pub fn over(source: R, reader: SegmentReader<D>) -> Reader<R, D>
        requires running { reader.progress ≡ Running }
        ensures { result ≡ reader_state reader reader.opened.items source }
    {
        Reader {
            source,
            text: TextReader { reader, given: 0 },
        }
    }

    /// Gives the next bytes of the text, as many as are opened and `buf` has room for, and answers
    /// how many. If no opened text is left, the next segment is opened first. For it no more is read than its
    /// chunk and a byte behind it. `Ok(0)` comes on an empty buffer, which reads nothing, and at the end, for
    /// good. It keeps the memory that it has.
    ///
    /// # Errors
    /// `ReadFault` if the source failed. `TooManySegments` if bytes follow the segment of number 2^32 - 1.
    /// `Truncated` if fewer bytes are left than the overhead. `BadSegment` if the next chunk is the segment
    /// of no text. `FailedBefore` after another of these.
    pub fn read(&mut self, buf: &mut [u8]) -> Result<usize, TinkError>
        ensures answer { ReadMeans (seg_of D.seg self.old.opening) self.old.opening.first self.old.opening.size
            self.old.opening.overhead
            (moment_of R.left R.faults self.old) (moment_of R.left R.faults self.new) buf.old buf.new result }
        ensures within { IfOk result (λ n. n ≤ length buf.new) }
        // where no segment is due, nothing is read
        ensures idle { (IsDue (moment_of R.left R.faults self.old) (length buf.old) → ⊥)
            → (self.new.source ≡ self.old.source) × (self.new.held ≡ self.old.held) }
        // whatever the answer, no more is read than the next chunk and a byte behind it
        ensures read { LosesAtMost (lacks self.old) (R.left self.old.source) (R.left self.new.source) }
        ensures opening { self.new.opening ≡ self.old.opening }
        ensures room { self.new.room ≡ self.old.room }
        ensures memory { self.new.memory ≡ self.old.memory }
        ensures kept { length self.new.held ≤ self.new.room }
        ensures later { R.faults self.old.source ≤ R.faults self.new.source }
        ensures same { R.same self.old.source self.new.source }
    {
        self.text.read(&mut self.source, buf)
    }

    /// The number of segments opened so far.
    pub fn segments(&self) -> u64
        ensures { result ≡ self.now.number }
    {
        self.text.reader.segments()
    }

    /// The source, as the last call left it. Bytes that are held, and text that was not given yet, are
    /// dropped.
    pub fn into_inner(self) -> R
        ensures { result ≡ self.source }
    {
        self.source
    }
}

impl<R: Source + Drop, D: SegmentDecrypter + Drop> DecryptingRead for Reader<R, D> {
    ghost use Rattle.std.specs.Io.{ReadsAtMost};
    ghost use Rattle.tink_streaming_io.specs.TextReading.{IsDue, ReadMeans};
    ghost use Rattle.tink_streaming_io.specs.Readers.{lacks, moment_of, seg_of};

    fn read(&mut self, buf: &mut [u8]) -> Result<usize, TinkError>
        ensures bound { ReadsAtMost result buf.new }
        ensures answer { ReadMeans (seg_of D.seg self.old.opening) self.old.opening.first self.old.opening.size
            self.old.opening.overhead
            (moment_of R.left R.faults self.old) (moment_of R.left R.faults self.new) buf.old buf.new result }
        ensures idle { (IsDue (moment_of R.left R.faults self.old) (length buf.old) → ⊥)
            → (self.new.source ≡ self.old.source) × (self.new.held ≡ self.old.held) }
        ensures read { LosesAtMost (lacks self.old) (R.left self.old.source) (R.left self.new.source) }
        ensures opening { self.new.opening ≡ self.old.opening }
        ensures room { self.new.room ≡ self.old.room }
        ensures memory { self.new.memory ≡ self.old.memory }
        ensures kept { length self.new.held ≤ self.new.room }
        ensures later { R.faults self.old.source ≤ R.faults self.new.source }
        ensures same { R.same self.old.source self.new.source }
    {
        Reader::read(self, buf)
    }
}
