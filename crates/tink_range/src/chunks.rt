//! The chunks of an object behind a stream's front. A core is handed its object at each call.

ghost use Rattle.std.specs.Prelude.{◌≡◌, ◌≤◌, ◌<◌, ◌+◌, ◌-◌, ◌^◌, ℕ, List, length, min, true, vec_len, vec_capacity, IfOk, MatchResult};
ghost use Rattle.stream_model.specs.Cut.{room_at};
ghost use Rattle.tink_range.specs.ChunkReading.{OneMeans, OpensAt, ends_of};
ghost use Rattle.tink_range.specs.Objects.{LeavesObject, ReadsObject};
ghost use Rattle.tink_range.specs.RangeReading.{LastMeans};
ghost use Rattle.tink_range.specs.Ranges.{TouchesPlaces, text_length};
ghost use Rattle.tink_range.specs.Shapes.{HasShape, IsLast};
ghost use Rattle.tink_range.specs.StepCounts.{TakesOneStep};
ghost use Rattle.tink_streaming_io.specs.Openers.{segment_map};

use crate::opening_at::open_at;
use crate::read_at::ReadAt;
use crate::shape::{Place, Shape, shape_of};
use crate::steps::Steps;
use crate::writing_part::write_part;
use std::sync::ledger::Ledger;
use tink_io::{Failed, Kind, Sink, TinkError};
use tink_streaming_io::{Buffers, Opener};
use tink_streaming_segment::SegmentDecrypter;

/// How the chunks of a stream are opened, the bytes of its front and those behind it, and memory for a chunk.
#[derive(Drop)]
pub struct RangeCore<D: SegmentDecrypter> {
    /// How the segments are opened.
    pub opener: Opener<D>,
    /// The bytes of the output prefix and the header.
    pub front: u64,
    /// The bytes of the segments.
    pub behind: u64,
    /// The memory of a chunk.
    pub buffers: Buffers,
    ghost sealed: { opener.size ≤ vec_len buffers.sealed },
    ghost text: { opener.size ≤ vec_capacity buffers.text },
    ghost nonce: { opener.nonce_size ≤ vec_len buffers.nonce },
    ghost some: { 0 < behind },
    ghost fits: { front + behind < 2 ^ 64 },
}

impl<D: SegmentDecrypter> RangeCore<D> {
    ghost use Rattle.tink_range.specs.RangeCores.{IsSameCore, chunk_in, cutting_of};

    /// Decrypts the chunk of that number, which begins at byte `start` behind the front, in one step. The answer is
    /// whether it is the segment of a text, which is then in the buffer.
    ///
    /// # Errors
    /// `Failed` if the object failed. No step is counted then.
    pub fn open_chunk<A: ReadAt, L: Ledger>(
        &mut self,
        object: &mut A,
        number: u64,
        start: u64,
        steps: &mut Steps<L>,
    ) -> Result<bool, Failed>
        requires number { number < 2 ^ 32 }
        requires start { start < self.old.behind }
        requires object { self.old.front + self.old.behind ≡ A.length_of object.old }
        ensures answer { IfOk result (λ ok. OpensAt (segment_map self.old.opener) (chunk_in self.old number start)
            (A.bytes object.old) ok self.new.buffers.text.items) }
        ensures length { IfOk result (λ ok. ok ≡ true → vec_len self.new.buffers.text + self.old.opener.overhead
            ≡ min (self.old.behind - start) (room_at self.old.opener.first self.old.opener.size number)) }
        ensures ticks { MatchResult result (λ _. steps.new ≡ steps.old + 1) (λ _. steps.new ≡ steps.old) }
        ensures taken { A.taken object.new ≤ A.taken object.old + self.old.opener.size }
        ensures core { IsSameCore self.old self.new }
        ensures read { ReadsObject A.length_of A.bytes A.faults A.same object.old object.new result }
    {
        open_at(
            &self.opener,
            object,
            &mut self.buffers.sealed,
            &mut self.buffers.text,
            &mut self.buffers.nonce,
            number,
            self.front + start,
            self.behind - start,
            steps,
        )
    }

    /// Writes the range's part of the text of a chunk that the range touches, in one step. The answer is how many
    /// bytes it wrote.
    ///
    /// # Errors
    /// `ReadFault` if the object failed, and `BadSegment` if the chunk is the segment of no text: nothing is written
    /// then. `WriteFault` if the sink failed, with a prefix of the part written.
    pub fn give_chunk<A: ReadAt, K: Sink, L: Ledger>(
        &mut self,
        object: &mut A,
        place: Place,
        lo: u64,
        hi: u64,
        sink: &mut K,
        steps: &mut Steps<L>,
    ) -> Result<u64, TinkError>
        requires place { (place.number < 2 ^ 32) × (place.start < self.old.behind) }
        requires object { self.old.front + self.old.behind ≡ A.length_of object.old }
        requires touched { TouchesPlaces lo hi place.text (min (self.old.behind - place.start)
            (room_at self.old.opener.first self.old.opener.size place.number) - self.old.opener.overhead) }
        ensures answer { OneMeans K.got K.faults (segment_map self.old.opener)
            (chunk_in self.old place.number place.start) self.old.opener.overhead lo hi place.text
            (ends_of A.bytes A.faults object.old object.new sink.old sink.new) result }
        ensures ticks { TakesOneStep steps.old steps.new result }
        ensures taken { A.taken object.new ≤ A.taken object.old + self.old.opener.size }
        ensures core { IsSameCore self.old self.new }
        ensures kept { LeavesObject A.length_of A.bytes A.faults object.old object.new result }
        ensures later { K.faults sink.old ≤ K.faults sink.new }
        ensures object { A.same object.old object.new }
        ensures sink { K.same sink.old sink.new }
    {
        match self.open_chunk(object, place.number, place.start, steps) {
            Ok(true) => write_part(sink, &self.buffers.text, place.text, lo, hi),
            Ok(false) => Err(TinkError::new(Kind::BadSegment(place.number as u32))),
            Err(_) => Err(TinkError::new(Kind::ReadFault)),
        }
    }

    /// The number of chunks, the bytes of their text, and the byte at which the last one begins.
    pub fn shape(&self) -> Shape
        ensures shape { (X : List ℕ) → length X ≡ self.now.behind
            → HasShape self.now.opener.first self.now.opener.size self.now.opener.overhead X
            result.count result.text result.last }
        ensures inside { result.last < self.now.behind }
        ensures room { self.now.behind
            ≤ result.last + room_at self.now.opener.first self.now.opener.size (result.count - 1) }
        ensures some { 0 < result.count }
    {
        shape_of(
            self.opener.first as u64,
            self.opener.size as u64,
            self.opener.overhead as u64,
            self.behind,
        )
    }

    /// The bytes of the text of all chunks.
    pub fn text_len(&self) -> u64
        ensures { result ≡ text_length self.now.opener.first self.now.opener.size self.now.opener.overhead
            self.now.behind }
    {
        let shape = self.shape();
        shape.text
    }

    /// Decrypts the last chunk, which begins at byte `start` behind the front, in one step.
    ///
    /// # Errors
    /// `ReadFault` if the object failed. If the chunk is the segment of no text, `Truncated` if it is shorter than the
    /// overhead, and else `BadSegment`.
    pub fn check_last<A: ReadAt, L: Ledger>(
        &mut self,
        object: &mut A,
        number: u64,
        start: u64,
        steps: &mut Steps<L>,
    ) -> Result<(), TinkError>
        requires number { number < 2 ^ 32 }
        requires start { start < self.old.behind }
        requires object { self.old.front + self.old.behind ≡ A.length_of object.old }
        requires shape { (X : List ℕ) → length X ≡ self.old.behind
            → IsLast self.old.opener.first self.old.opener.size X number start }
        requires room { self.old.behind ≤ start + room_at self.old.opener.first self.old.opener.size number }
        ensures answer { LastMeans (cutting_of self.old) self.old.behind (A.bytes object.old)
            (A.faults object.old) (A.faults object.new) result }
        ensures ticks { TakesOneStep steps.old steps.new result }
        ensures taken { A.taken object.new ≤ A.taken object.old + self.old.opener.size }
        ensures core { IsSameCore self.old self.new }
        ensures kept { LeavesObject A.length_of A.bytes A.faults object.old object.new result }
        ensures same { A.same object.old object.new }
    {
        match self.open_chunk(object, number, start, steps) {
            Ok(true) => Ok(()),
            Ok(false) => {
                if self.behind - start < self.opener.overhead as u64 {
                    return Err(TinkError::new(Kind::Truncated(number as u32)));
                }
                Err(TinkError::new(Kind::BadSegment(number as u32)))
            }
            Err(_) => Err(TinkError::new(Kind::ReadFault)),
        }
    }
}
