ghost use Rattle.std.specs.Prelude.{◌≡◌, ◌≤◌, ◌<◌, ◌+◌, ◌-◌, [], None, Some, Ok, IfOk, IfErr, OnOk, vec_len, vec_capacity};
ghost use Rattle.tink_streaming_segment.specs.Sizes.{sizes_fault};
ghost use Rattle.tink_streaming_io.specs.declared.writing.Mode.TheVariants.{Open};

use crate::buffers::WriterBuffers;
use crate::writing::SegmentWriter;
use std::marker::Model;
use tink_io::{Sink, TinkError};
use tink_primitives::EncryptingWrite;
use tink_streaming_segment::{Sealer, SegmentEncrypter, check_sizes};

/// What a writer is made of. Sizes are in bytes.
#[derive(Drop)]
pub struct WriterParams<W, E: SegmentEncrypter> {
    /// Where the segments go.
    pub w: W,
    /// What makes a segment of a text.
    pub segment_encrypter: E,
    /// The size of a nonce, five more at least than its prefix.
    pub nonce_size: usize,
    /// The prefix of all nonces.
    pub nonce_prefix: Vec<u8>,
    /// The size of a segment of ciphertext.
    pub ciphertext_segment_size: u32,
    /// The bytes that the first segment is shorter, since a header is before it.
    pub first_ciphertext_segment_offset: u32,
}

/// A writer of segments to a sink that it owns.
///
/// The text of the last segment is held until `close`, which marks it. A writer that is dropped
/// writes nothing.
#[derive(Drop)]
pub struct Writer<W, E: SegmentEncrypter> {
    sink: W,
    inner: SegmentWriter<E>,
}

impl<W, E: SegmentEncrypter> Model for Writer<W, E> {
    ghost use Rattle.tink_streaming_io.specs.Writers.{WriterState};
    ghost use Rattle.tink_streaming_io.specs.Sealers.{writer_state};

    ghost Value = { WriterState W E };

    ghost view = { λ w. writer_state w.inner w.sink };
}

impl<W: Sink + Drop, E: SegmentEncrypter + Drop> Writer<W, E> {
    ghost use Rattle.tink_streaming_io.specs.Writing.{CloseMeans, IsAllHeld, WriteMeans};
    ghost use Rattle.tink_streaming_io.specs.Writers.{moment_of, seg_of};
    ghost use Rattle.tink_streaming_io.specs.Sealers.{writer_state};

    /// A writer that has written nothing, with memory by `WriterBuffers::reserve` for these sizes. The
    /// nonce's size, where it is not too short, is that of the encrypter.
    ///
    /// # Errors
    /// `NonceTooShort` if a nonce has not five bytes more than its prefix. `OffsetTooBig` if the offset is
    /// beyond the segment. `SegmentTooSmall` if the first segment has no room for text.
    pub fn new(
        params: WriterParams<W, E>,
        buffers: WriterBuffers,
    ) -> Result<Writer<W, E>, TinkError>
        requires segment_room { params.ciphertext_segment_size ≤ vec_len buffers.segment }
        requires nonce_room { vec_len buffers.nonce ≡ params.nonce_size }
        requires nonce { vec_len params.nonce_prefix + 5 ≤ params.nonce_size
            → params.nonce_size ≡ E.nonce_length params.segment_encrypter }
        ensures ok { OnOk result (sizes_fault params.nonce_size
            (vec_len params.nonce_prefix) params.ciphertext_segment_size
            params.first_ciphertext_segment_offset (E.overhead_of params.segment_encrypter) ≡ None) }
        ensures fresh { IfOk result (λ w. w ≡ record {
          sealing = record {
            encrypter = params.segment_encrypter;
            prefix = params.nonce_prefix.items;
            nonce_size = params.nonce_size;
            first = params.ciphertext_segment_size - params.first_ciphertext_segment_offset - E.overhead_of
                params.segment_encrypter;
            room = params.ciphertext_segment_size - E.overhead_of params.segment_encrypter;
          };
          mode = Open;
          number = 0;
          held = [];
          memory = vec_capacity buffers.segment + vec_capacity buffers.nonce
              + vec_capacity params.nonce_prefix;
          sink = params.w;
        }) }
        ensures refused { IfErr result (λ e. sizes_fault params.nonce_size
            (vec_len params.nonce_prefix) params.ciphertext_segment_size
            params.first_ciphertext_segment_offset (E.overhead_of params.segment_encrypter) ≡ Some e.kind) }
    {
        let WriterParams {
            w,
            segment_encrypter,
            nonce_size,
            nonce_prefix,
            ciphertext_segment_size,
            first_ciphertext_segment_offset,
        } = params;
        let overhead = segment_encrypter.overhead();
        check_sizes(
            nonce_size,
            &nonce_prefix,
            ciphertext_segment_size,
            first_ciphertext_segment_offset,
            overhead,
        )?;
        let room = ciphertext_segment_size as usize - overhead;
        let sealer = Sealer {
            encrypter: segment_encrypter,
            prefix: nonce_prefix,
            nonce_size,
            overhead,
            first: room - first_ciphertext_segment_offset as usize,
            room,
        };
        Ok(Writer {
            sink: w,
            inner: SegmentWriter::from_parts(sealer, buffers),
        })
    }

    /// A writer of segments, to the sink that it is given for good.
    pub fn over(sink: W, inner: SegmentWriter<E>) -> Writer<W, E>
        ensures { result ≡ writer_state inner sink }
    {
        Writer { sink, inner }
    }

    /// Takes all of `buf`: the segments of the chunks that are full and have text behind them are
    /// written, and the last chunk is held. It keeps the memory that it has.
    ///
    /// # Errors
    /// WriteFault where the sink failed, TooManySegments where a number above 2^32 - 1 is needed,
    /// Closed after `close`, FailedBefore after another of these.
    pub fn write(&mut self, buf: &[u8]) -> Result<usize, TinkError>
        ensures answer { WriteMeans (seg_of E.seg self.old.sealing) self.old.sealing.first self.old.sealing.room
            (moment_of W.got W.faults self.old) (moment_of W.got W.faults self.new) buf.now result }
        // where no segment is due its sink stays as it is
        ensures still { IsAllHeld self.old.sealing.first self.old.sealing.room (moment_of W.got W.faults self.old)
            buf.now → self.new.sink ≡ self.old.sink }
        // a writer that takes no text stays as it is, and its sink too
        ensures idle { (self.old.mode ≡ Open → ⊥) → self.new ≡ self.old }
        ensures sealing { self.new.sealing ≡ self.old.sealing }
        ensures memory { self.new.memory ≡ self.old.memory }
        // the rooms that `law_any_cutting` asks for
        ensures rooms { (0 < self.new.sealing.first) × (self.new.sealing.first ≤ self.new.sealing.room) }
        ensures later { W.faults self.old.sink ≤ W.faults self.new.sink }
        ensures same { W.same self.old.sink self.new.sink }
    {
        self.inner.write(&mut self.sink, buf)
    }

    /// Does nothing: the text that is held is written before more text or by `close`.
    ///
    /// # Errors
    /// None: the answer is Ok.
    pub fn flush(&mut self) -> Result<(), TinkError>
        ensures answer { result ≡ Ok tt }
        ensures same { self.new ≡ self.old }
    {
        Ok(())
    }

    /// Writes the held text as the last segment, which is marked. A second call does nothing. It
    /// keeps the memory that it has.
    ///
    /// # Errors
    /// WriteFault where the sink failed, FailedBefore after a refusal.
    pub fn close(&mut self) -> Result<(), TinkError>
        ensures answer { CloseMeans (seg_of E.seg self.old.sealing) (moment_of W.got W.faults self.old)
            (moment_of W.got W.faults self.new) result }
        // a writer that is not open stays as it is, and its sink too
        ensures idle { (self.old.mode ≡ Open → ⊥) → self.new ≡ self.old }
        ensures sealing { self.new.sealing ≡ self.old.sealing }
        ensures memory { self.new.memory ≡ self.old.memory }
        ensures later { W.faults self.old.sink ≤ W.faults self.new.sink }
        ensures same { W.same self.old.sink self.new.sink }
    {
        self.inner.close(&mut self.sink)
    }

    /// The number of segments written whole so far.
    pub fn segments(&self) -> u64
        ensures { result ≡ self.now.number }
    {
        self.inner.segments()
    }

    /// The sink, as the last call left it. The text that is held is dropped.
    pub fn into_inner(self) -> W
        ensures { result ≡ self.sink }
    {
        self.sink
    }
}

impl<W: Sink + Drop, E: SegmentEncrypter + Drop> EncryptingWrite for Writer<W, E> {
    ghost use Rattle.std.specs.Io.{WritesAtMost};
    ghost use Rattle.tink_streaming_io.specs.Writing.{CloseMeans, IsAllHeld, WriteMeans};
    ghost use Rattle.tink_streaming_io.specs.Writers.{moment_of, seg_of};

    fn write(&mut self, buf: &[u8]) -> Result<usize, TinkError>
        ensures bound { WritesAtMost result buf.now }
        ensures answer { WriteMeans (seg_of E.seg self.old.sealing) self.old.sealing.first self.old.sealing.room
            (moment_of W.got W.faults self.old) (moment_of W.got W.faults self.new) buf.now result }
        ensures still { IsAllHeld self.old.sealing.first self.old.sealing.room (moment_of W.got W.faults self.old)
            buf.now → self.new.sink ≡ self.old.sink }
        ensures idle { (self.old.mode ≡ Open → ⊥) → self.new ≡ self.old }
        ensures sealing { self.new.sealing ≡ self.old.sealing }
        ensures memory { self.new.memory ≡ self.old.memory }
        ensures rooms { (0 < self.new.sealing.first) × (self.new.sealing.first ≤ self.new.sealing.room) }
        ensures later { W.faults self.old.sink ≤ W.faults self.new.sink }
        ensures same { W.same self.old.sink self.new.sink }
    {
        Writer::write(self, buf)
    }

    fn flush(&mut self) -> Result<(), TinkError>
        ensures answer { result ≡ Ok tt }
        ensures same { self.new ≡ self.old }
    {
        Writer::flush(self)
    }

    fn close(&mut self) -> Result<(), TinkError>
        ensures answer { CloseMeans (seg_of E.seg self.old.sealing) (moment_of W.got W.faults self.old)
            (moment_of W.got W.faults self.new) result }
        ensures idle { (self.old.mode ≡ Open → ⊥) → self.new ≡ self.old }
        ensures sealing { self.new.sealing ≡ self.old.sealing }
        ensures memory { self.new.memory ≡ self.old.memory }
        ensures later { W.faults self.old.sink ≤ W.faults self.new.sink }
        ensures same { W.same self.old.sink self.new.sink }
    {
        Writer::close(self)
    }
}
