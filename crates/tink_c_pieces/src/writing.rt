//! A writer of a stream in pieces.

ghost use Rattle.std.specs.Prelude.{◌≡◌, ◌≤◌, ◌<◌, ◌+◌, ◌-◌, ◌^◌, ◌++◌, ℕ, List, length, drop, vec_len, IfOk, IfErr};
ghost use Rattle.tink_io.specs.declared.error.Kind.TheVariants.{TooManySegments};
ghost use Rattle.tink_streaming_io.specs.declared.writing.Mode.TheVariants.{Open};
ghost use Rattle.tink_c_bytes.specs.Delivered.{handed};
ghost use Rattle.tink_c_bytes.specs.Statuses.{c_status};

use crate::due::{bytes_due, chunks_due};
use crate::putting::{put, put_text};
use tink_c_bytes::{OK, TOO_LITTLE_ROOM, status};
use tink_io::{Cause, Kind, TinkError};
use tink_streaming_io::{Mode, SegmentWriter};
use tink_streaming_segment::{SegmentEncrypter, room_of};

// How many segments a stream has at most.
const MOST: u64 = 4_294_967_296;

/// A writer of a stream whose text comes in pieces. It puts what it writes into buffers that each call is lent.
///
/// The text of the next segment is held. A full chunk is held until more text comes, since the last segment is marked.
#[derive(Drop)]
pub struct PieceWriter<E: SegmentEncrypter> {
    /// What precedes the segments, until it was given.
    pub front: Vec<u8>,
    /// The writer of the segments.
    pub writer: SegmentWriter<E>,
    ghost short: { vec_len front < 2 ^ 16 },
}

// The status of an error that gives nothing.
fn refuse(kind: Kind, written: &mut usize) -> u8
    ensures status { result ≡ c_status kind }
    ensures written { written.new ≡ 0 }
{
    *written = 0;
    status(kind)
}

impl<E: SegmentEncrypter + Drop> PieceWriter<E> {
    ghost use Rattle.tink_streaming_segment.specs.Sealers.{segment_map};
    ghost use Rattle.tink_streaming_io.specs.Sealers.{held_text, writer_memory};
    ghost use Rattle.tink_c_pieces.specs.Moments.{behind_front, piece_moment};
    ghost use Rattle.tink_c_pieces.specs.Pieces.{BoundMeans, EndMeans, HasNumbers, IsLengthOf, PieceMeans, Took, filled, given};

    /// Takes a piece of text, and puts at the beginning of `out` what it gives. That is what precedes the segments, if it
    /// was not given before, and the segments of the chunks that are full and have text behind them. It writes how many
    /// bytes these are, answers the status, and needs no memory.
    ///
    /// If they are longer than `out`, the writer and `out` stay as they are, and their length is written.
    ///
    /// # Errors
    /// By its status: `TooManySegments` exactly if the text needs more than 2^32 segments: then the writer is spent.
    /// `Closed` after the end, `FailedBefore` if it is spent. `out` stays as it is, and 0 is written.
    pub fn write(&mut self, piece: &[u8], out: &mut [u8], written: &mut usize) -> u8
        ensures answer { PieceMeans (segment_map self.old.writer.sealer) self.old.writer.sealer.first
            self.old.writer.sealer.room (piece_moment self.old) (piece_moment self.new) piece.now
            (handed out.old out.new written.new result) }
        ensures unchanged { result ≡ 42 → self.new ≡ self.old }
        ensures sealer { self.new.writer.sealer ≡ self.old.writer.sealer }
        ensures memory { writer_memory self.new.writer ≡ writer_memory self.old.writer }
    {
        match self.writer.mode {
            Mode::Open => self.take(piece, out, written),
            Mode::Closed => refuse(Kind::Closed, written),
            Mode::Failed(cause) => refuse(Kind::FailedBefore(cause), written),
        }
    }

    /// Puts the last segment at the beginning of `out`, behind what precedes the segments, if that was not given before. It
    /// writes how many bytes these are, answers the status, and needs no memory. The writer is closed then.
    ///
    /// If they are longer than `out`, the writer and `out` stay as they are, and their length is written.
    ///
    /// # Errors
    /// By its status: `Closed` after the end, `FailedBefore` if the writer is spent. `out` stays as it is, and 0 is
    /// written.
    pub fn end(&mut self, out: &mut [u8], written: &mut usize) -> u8
        ensures answer { EndMeans (segment_map self.old.writer.sealer) self.old.writer.sealer.first
            self.old.writer.sealer.room (piece_moment self.old) (piece_moment self.new)
            (handed out.old out.new written.new result) }
        ensures unchanged { (result ≡ 0 → ⊥) → self.new ≡ self.old }
        ensures sealer { self.new.writer.sealer ≡ self.old.writer.sealer }
        ensures memory { writer_memory self.new.writer ≡ writer_memory self.old.writer }
    {
        match self.writer.mode {
            Mode::Open => self.give_last(out, written),
            Mode::Closed => refuse(Kind::Closed, written),
            Mode::Failed(cause) => refuse(Kind::FailedBefore(cause), written),
        }
    }

    /// Writes how many bytes each piece of `more` bytes gives, and a whole segment more: with these the last segment has
    /// room too. It answers the status.
    ///
    /// # Errors
    /// By its status: `TooManySegments` exactly if the text would need more than 2^32 segments, `Closed` after the end,
    /// `FailedBefore` if the writer is spent. 0 is written then.
    pub fn bound(&self, more: usize, needed: &mut usize) -> u8
        ensures { BoundMeans (segment_map self.now.writer.sealer) self.now.writer.sealer.first
            self.now.writer.sealer.room (self.now.writer.sealer.room + self.now.writer.sealer.overhead)
            (piece_moment self.now) more needed.new result }
    {
        match self.writer.mode {
            Mode::Open => self.bound_open(more, needed),
            Mode::Closed => refuse(Kind::Closed, needed),
            Mode::Failed(cause) => refuse(Kind::FailedBefore(cause), needed),
        }
    }

    // The same of a writer that takes text.
    fn bound_open(&self, more: usize, needed: &mut usize) -> u8
        requires { self.now.writer.mode ≡ Open }
        ensures { BoundMeans (segment_map self.now.writer.sealer) self.now.writer.sealer.first
            self.now.writer.sealer.room (self.now.writer.sealer.room + self.now.writer.sealer.overhead)
            (piece_moment self.now) more needed.new result }
    {
        match self.length_of(more) {
            Err(e) => refuse(e.kind, needed),
            Ok(n) => {
                *needed = n + (self.writer.sealer.room + self.writer.sealer.overhead);
                OK
            }
        }
    }

    // What a piece gives.
    fn take(&mut self, piece: &[u8], out: &mut [u8], written: &mut usize) -> u8
        requires { self.old.writer.mode ≡ Open }
        ensures answer { PieceMeans (segment_map self.old.writer.sealer) self.old.writer.sealer.first
            self.old.writer.sealer.room (piece_moment self.old) (piece_moment self.new) piece.now
            (handed out.old out.new written.new result) }
        ensures unchanged { result ≡ 42 → self.new ≡ self.old }
        ensures sealer { self.new.writer.sealer ≡ self.old.writer.sealer }
        ensures memory { writer_memory self.new.writer ≡ writer_memory self.old.writer }
    {
        match self.length_of(piece.len()) {
            Err(e) => {
                self.writer.mode = Mode::Failed(Cause::TooManySegments);
                refuse(e.kind, written)
            }
            Ok(n) => {
                *written = n;
                if out.len() < n {
                    return TOO_LITTLE_ROOM;
                }
                self.put_piece(piece, out);
                OK
            }
        }
    }

    // How many bytes each piece of `more` bytes gives.
    fn length_of(&self, more: usize) -> Result<usize, TinkError>
        requires { self.now.writer.mode ≡ Open }
        ensures ok { IfOk result (λ n. (piece : List ℕ) → length piece ≡ more → IsLengthOf (segment_map self.now.writer.sealer)
            self.now.writer.sealer.first self.now.writer.sealer.room (piece_moment self.now) piece n) }
        ensures most { IfOk result (λ n. n < 2 ^ 64 - 2 ^ 32) }
        ensures kind { IfErr result (λ e. e ≡ record { kind = TooManySegments }) }
        ensures many { IfErr result (λ e. (piece : List ℕ) → length piece ≡ more → 2 ^ 32 ≤ self.now.writer.segments
            + length (filled (segment_map self.now.writer.sealer) self.now.writer.sealer.first
            self.now.writer.sealer.room (piece_moment self.now) piece)) }
    {
        let first = room_of(&self.writer.sealer, self.writer.segments);
        let room = self.writer.sealer.room;
        let over = self.writer.sealer.overhead;
        let count = chunks_due(first, room, self.writer.filled, more);
        if count >= MOST - self.writer.segments {
            return Err(TinkError::new(Kind::TooManySegments));
        }
        Ok(self.front.len() + bytes_due(first + over, room + over, count))
    }

    // Puts what a piece gives at the beginning of a buffer that has room for it.
    fn put_piece(&mut self, piece: &[u8], out: &mut [u8])
        requires open { self.old.writer.mode ≡ Open }
        requires few { HasNumbers (segment_map self.old.writer.sealer) self.old.writer.sealer.first
            self.old.writer.sealer.room (piece_moment self.old) piece.now }
        requires room { length (given (segment_map self.old.writer.sealer) self.old.writer.sealer.first
            self.old.writer.sealer.room (piece_moment self.old) piece.now) ≤ length out.old }
        ensures put { out.new ≡ given (segment_map self.old.writer.sealer) self.old.writer.sealer.first
            self.old.writer.sealer.room (piece_moment self.old) piece.now ++ drop (length (given
            (segment_map self.old.writer.sealer) self.old.writer.sealer.first self.old.writer.sealer.room
            (piece_moment self.old) piece.now)) out.old }
        ensures took { Took (segment_map self.old.writer.sealer) self.old.writer.sealer.first
            self.old.writer.sealer.room (piece_moment self.old) (piece_moment self.new) piece.now }
        ensures sealer { self.new.writer.sealer ≡ self.old.writer.sealer }
        ensures memory { writer_memory self.new.writer ≡ writer_memory self.old.writer }
    {
        let n = self.front.len();
        out[..n].copy_from_slice(&self.front);
        self.front.clear();
        put_text(&mut self.writer, piece, &mut out[n..]);
    }

    // What the end gives.
    fn give_last(&mut self, out: &mut [u8], written: &mut usize) -> u8
        requires { self.old.writer.mode ≡ Open }
        ensures answer { EndMeans (segment_map self.old.writer.sealer) self.old.writer.sealer.first
            self.old.writer.sealer.room (piece_moment self.old) (piece_moment self.new)
            (handed out.old out.new written.new result) }
        ensures unchanged { (result ≡ 0 → ⊥) → self.new ≡ self.old }
        ensures sealer { self.new.writer.sealer ≡ self.old.writer.sealer }
        ensures memory { writer_memory self.new.writer ≡ writer_memory self.old.writer }
    {
        let at = self.front.len();
        let n = at + (self.writer.filled + self.writer.sealer.overhead);
        *written = n;
        if out.len() < n {
            return TOO_LITTLE_ROOM;
        }
        out[..at].copy_from_slice(&self.front);
        self.front.clear();
        put(&mut self.writer, true, out, at);
        OK
    }
}
