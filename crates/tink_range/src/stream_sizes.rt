//! How many segments a stream has, and how much text.

ghost use Rattle.std.specs.Prelude.{◌≡◌, ◌≤◌, ◌+◌, length, vec_len, vec_capacity};
ghost use Rattle.stream_model.specs.Opening.{opening_key};
ghost use Rattle.tink_range.specs.Objects.{LeavesObject};
ghost use Rattle.tink_range.specs.StreamSizes.{SizesMean};
ghost use Rattle.tink_streaming_keys.specs.Rooms.{HasRoomForEach};

use crate::range_reading::check_end;
use crate::read_at::ReadAt;
use crate::starting_at::{StartedAt, start_placed};
use crate::steps::Steps;
use std::sync::ledger::Ledger;
use tink_io::TinkError;
use tink_streaming_keys::{DerivesStreams, Trial};

/// The sizes of a stream: the place of its key in a list, its segments, and the bytes of its text.
#[derive(Clone, Copy, Debug, PartialEq, Eq)]
pub struct StreamSizes {
    /// The place in the list of keys, from 0 on.
    pub place: usize,
    /// How many segments there are.
    pub segments: u64,
    /// The bytes of the text: those of the segments without their tags.
    pub text_len: u64,
}

/// The sizes of the stream that an object is, under the first of the keys that it begins under, in the memory of
/// `trial`. Only the first segment and the last one are opened: how many there are is known by the object's length. It
/// takes a step for each key at most, and one for the last segment.
///
/// # Errors
/// `NoMatchingKey` if the object begins under none of the keys. `TooManySegments` exactly if it has more than 2^32
/// segments. If the last one is the segment of no text, `Truncated` if it is shorter than any segment, and else
/// `BadSegment`. `ReadFault` if the object failed.
pub fn sizes_under<A: ReadAt, T: DerivesStreams, L: Ledger>(
    keys: &[T],
    aad: &[u8],
    trial: Trial,
    object: &mut A,
    steps: &mut Steps<L>,
) -> Result<StreamSizes, TinkError>
    requires room { HasRoomForEach T.key_of keys.now (vec_len trial.kept.buffer) (vec_capacity trial.opened)
        (vec_len trial.nonce) (vec_capacity trial.prefix) }
    ensures answer { SizesMean (λ k. opening_key aad.now (T.key_of k)) keys.now (A.bytes object.old)
        (A.length_of object.old) (A.faults object.old) (A.faults object.new) result }
    ensures ticks { steps.new ≤ steps.old + length keys.now + 1 }
    ensures kept { LeavesObject A.length_of A.bytes A.faults object.old object.new result }
    ensures object { A.same object.old object.new }
{
    match start_placed(keys, aad, trial, object, steps) {
        Ok(StartedAt { mut core, place }) => match check_end(&mut core, object, steps) {
            Ok(shape) => Ok(StreamSizes {
                place,
                segments: shape.count,
                text_len: shape.text,
            }),
            Err(e) => Err(e),
        },
        Err(e) => Err(e),
    }
}
