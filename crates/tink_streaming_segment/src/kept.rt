ghost use Rattle.std.specs.Prelude.{◌≡◌, ◌≤◌, ◌<◌, ◌+◌, max, OnErr, vec_len, vec_capacity};
ghost use Rattle.tink_io.specs.Faults.{Rose};
ghost use Rattle.tink_streaming_segment.specs.Opening.{HoldsOrFails};

use crate::held::hold;
use tink_io::{Failed, Source};

/// The first bytes of a source: they were read and are kept.
#[derive(Drop)]
pub struct Kept {
    /// The memory of the bytes.
    pub buffer: Vec<u8>,
    /// The number of bytes that were read: the first ones of `buffer`.
    pub filled: usize,
    ghost filled_in: { filled ≤ vec_len buffer },
}

impl Kept {
    ghost use Rattle.tink_streaming_segment.specs.Keeping.{kept_bytes, kept_rest};

    /// Keeps more than `size` bytes, or all. What was read before the source failed is kept too.
    ///
    /// # Errors
    /// Failed where the source failed.
    pub fn keep<S: Source>(&mut self, source: &mut S, size: usize) -> Result<(), Failed>
        requires size { size < vec_len self.old.buffer }
        ensures held { HoldsOrFails size (kept_rest S.left self.old source.old) (kept_bytes self.new)
            (S.left source.new) result }
        ensures most { self.new.filled ≤ max self.old.filled (size + 1) }
        ensures more { self.old.filled ≤ self.new.filled }
        ensures len { vec_len self.new.buffer ≡ vec_len self.old.buffer }
        ensures capacity { vec_capacity self.new.buffer ≡ vec_capacity self.old.buffer }
        ensures later { S.faults source.old ≤ S.faults source.new }
        ensures rose { OnErr result (Rose (S.faults source.old) (S.faults source.new)) }
        ensures same { S.same source.old source.new }
    {
        hold(source, &mut self.buffer, &mut self.filled, size)
    }
}
