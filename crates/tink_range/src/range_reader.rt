//! Readers of ranges of a stream's text.

ghost use Rattle.std.specs.Prelude.{◌≡◌, ◌≤◌, ◌+◌, ◌-◌, ◌*◌, ◌/◌, length, map, IfOk, IfErr, IfSome};
ghost use Rattle.stream_model.specs.Opening.{opening_key};
ghost use Rattle.tink_io.specs.declared.error.Kind.TheVariants.{NoMatchingKey};
ghost use Rattle.tink_range.specs.ChoosingAt.{NewRefused, Tries};
ghost use Rattle.tink_range.specs.ChunkReading.{ends_of};
ghost use Rattle.tink_range.specs.Objects.{LeavesObject};
ghost use Rattle.tink_range.specs.RangeReaders.{answer_of, cut_by, object_of};
ghost use Rattle.tink_range.specs.RangeReading.{IsGivenExactly, RangeMeans, filled_chunks, range_end, range_start};
ghost use Rattle.tink_range.specs.Ranges.{text_length};
ghost use Rattle.tink_range.specs.StepCounts.{TakesTouched};
ghost use Rattle.tink_streaming_aead.specs.DecryptReaders.{largest};
ghost use Rattle.tink_streaming_io.specs.Choosing.{Found};

use crate::chunks::RangeCore;
use crate::range_reading::read_range;
use crate::read_at::ReadAt;
use crate::starting_at::begin_at;
use crate::steps::Steps;
use std::alloc::Global;
use std::marker::Model;
use std::sync::ledger::Ledger;
use tink_io::{Sink, TinkError};
use tink_primitives::Refused;
use tink_streaming_aead::WrappedStreamingAead;
use tink_streaming_ciphers::StreamSegment;

/// A reader of ranges of the text of the stream that an object is. An object whose last chunk is the last segment of no
/// text gives nothing, as one that was cut, but by chance.
#[derive(Drop)]
pub struct RangeReader<A: ReadAt> {
    object: A,
    core: RangeCore<StreamSegment>,
}

impl<A: ReadAt> Model for RangeReader<A> {
    ghost use Rattle.std.specs.Prelude.{◌≡◌, ◌+◌};
    ghost use Rattle.tink_range.specs.RangeReaders.{RangeState, range_state};

    ghost Value = { RangeState A };

    ghost view = { λ r. range_state r.core r.object };

    ghost invariant = { λ r. r.core.front + r.core.behind ≡ A.length_of r.object };
}

impl<A: ReadAt> RangeReader<A> {
    /// A reader of the stream of `object` under the first key of `w` under which it begins with the associated data.
    /// It takes one step, the decryption of the first segment, for each key that it tries, up to the chosen one. It
    /// tries a key if the object begins with a front of the key, has bytes behind it, and the key's hash derives keys.
    /// By `OutOfMemory` or `ReadFault` it takes no more steps than there are keys.
    ///
    /// # Errors
    /// The refusal hands back the object. `OutOfMemory`, with the object as before; `ReadFault` where the object
    /// failed; `NoMatchingKey` exactly where the stream begins under none of the keys.
    pub fn new<L: Ledger>(
        alloc: Global,
        w: &WrappedStreamingAead,
        object: A,
        aad: &[u8],
        steps: &mut Steps<L>,
    ) -> Result<RangeReader<A>, Refused<A>>
        ensures found { IfOk result (λ r. IfSome (A.bytes object) (λ S.
            Found (map (opening_key aad.now) w.now.keys) S (cut_by r).seg (cut_by r).front (cut_by r).first
            (cut_by r).size (cut_by r).over)) }
        ensures whole { IfOk result (λ r. r.front + r.behind ≡ A.length_of r.object) }
        ensures refused { IfErr result (λ refused. NewRefused A.bytes A.faults (map (opening_key aad.now) w.now.keys)
            object refused.inner refused.error.kind) }
        ensures tried { IfOk result (λ _. IfSome (A.bytes object)
            (λ S. Tries (map (opening_key aad.now) w.now.keys) S (steps.new - steps.old))) }
        ensures tried_all { IfErr result (λ refused. refused.error.kind ≡ NoMatchingKey → IfSome (A.bytes object)
            (λ S. Tries (map (opening_key aad.now) w.now.keys) S (steps.new - steps.old))) }
        ensures ticks { steps.new ≤ steps.old + length w.now.keys }
        ensures taken { A.taken (object_of result) ≤ A.taken object
            + length w.now.keys * (largest w.now.keys + 1) }
        ensures kept { LeavesObject A.length_of A.bytes A.faults object (object_of result) (answer_of result) }
        ensures same { A.same object (object_of result) }
    {
        let mut object = object;
        match begin_at(alloc, w, &mut object, aad, steps) {
            Ok(core) => Ok(RangeReader { object, core }),
            Err(error) => Err(Refused {
                error,
                inner: object,
            }),
        }
    }

    /// How many bytes the text has, by the lengths of the chunks. A last chunk that is shorter than any segment counts
    /// as 0.
    pub fn text_len(&self) -> u64
        ensures { result ≡ text_length self.now.opening.first self.now.opening.size self.now.opening.overhead
            self.now.behind }
    {
        self.core.text_len()
    }

    /// Writes the bytes of the text from place `start` on and below `start + len`, as far as there are such,
    /// and answers how many. If the answer is Ok, it took one step for each chunk that the range touches, and
    /// one for the last chunk of the stream. Whatever the answer, it took at most two more than the chunks
    /// that the range's own length fills. The reader is then as before but for the object, and keeps the
    /// memory that it has.
    ///
    /// # Errors
    /// - `ReadFault` or `WriteFault` if the object or the sink failed. A prefix is then written of what some
    ///   touched chunks give.
    /// - `TooManySegments` exactly if there are more than 2^32 chunks. Nothing is written then.
    /// - If the last chunk is the segment of no text, `Truncated` if it is shorter than any segment, and else
    ///   `BadSegment`. Nothing is written then.
    /// - `BadSegment` of the first touched chunk that is the segment of no text. The range's bytes before it
    ///   are written then.
    pub fn read_range<K: Sink, L: Ledger>(
        &mut self,
        start: u64,
        len: u64,
        sink: &mut K,
        steps: &mut Steps<L>,
    ) -> Result<u64, TinkError>
        ensures answer { RangeMeans K.got K.faults (cut_by self.old) self.old.behind start len
            (ends_of A.bytes A.faults self.old.object self.new.object sink.old sink.new) result }
        // Known bytes: where neither count rose, the answer is Ok exactly where the range can be given.
        ensures given { IsGivenExactly K.faults (cut_by self.old) self.old.behind start len
            (ends_of A.bytes A.faults self.old.object self.new.object sink.old sink.new) result }
        ensures ticks { (steps.new ≤ steps.old + filled_chunks (cut_by self.old) self.old.behind start len + 2)
            × TakesTouched (cut_by self.old) (range_start (cut_by self.old) self.old.behind start)
            (range_end (cut_by self.old) self.old.behind start len) 1 steps.old steps.new result }
        ensures taken { A.taken self.new.object ≤ A.taken self.old.object
            + (filled_chunks (cut_by self.old) self.old.behind start len + 2) * self.old.opening.size }
        ensures opening { self.new.opening ≡ self.old.opening }
        ensures sizes { (self.new.front ≡ self.old.front) × (self.new.behind ≡ self.old.behind)
            × (self.new.memory ≡ self.old.memory) }
        ensures kept { LeavesObject A.length_of A.bytes A.faults self.old.object self.new.object result }
        ensures stays { A.same self.old.object self.new.object
            × (K.faults sink.old ≤ K.faults sink.new) × K.same sink.old sink.new }
    {
        read_range(&mut self.core, &mut self.object, start, len, sink, steps)
    }

    /// The object.
    pub fn into_inner(self) -> A
        ensures { result ≡ self.object }
    {
        let RangeReader { object, core: _ } = self;
        object
    }
}
