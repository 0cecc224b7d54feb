ghost use Rattle.std.specs.Prelude.{◌≡◌, ◌≤◌, ◌<◌, ◌+◌, ◌-◌, length, take, drop, max, OnOk, OnErr, vec_len, vec_capacity};
ghost use Rattle.std.specs.Io.KnownBytes.{Keeps, IsAtEnd, prepend_known};
ghost use Rattle.tink_io.specs.Faults.{Rose};
ghost use Rattle.tink_io.specs.Taken.{LosesAtMost};
ghost use Rattle.tink_streaming_segment.specs.Opening.{HoldsOrFails};

use tink_io::{Failed, Source};

/// Reads into `buffer`, whose first `filled` bytes are there, up to its place `want` or the source's end.
///
/// # Errors
/// `Failed` if the source failed. The bytes that were read before are in the buffer.
pub fn fill<S: Source>(
    source: &mut S,
    buffer: &mut [u8],
    filled: &mut usize,
    want: usize,
) -> Result<(), Failed>
    requires filled { filled.old ≤ length buffer.old }
    requires want { want ≤ length buffer.old }
    ensures within { filled.new ≤ max filled.old want }
    ensures more { filled.old ≤ filled.new }
    ensures end { OnOk result (filled.new < want → IsAtEnd (S.left source.new)) }
    ensures rest { Keeps (prepend_known (take filled.old buffer.old) (S.left source.old))
        (prepend_known (take filled.new buffer.new) (S.left source.new)) }
    ensures read { LosesAtMost (want - filled.old) (S.left source.old) (S.left source.new) }
    ensures short { OnErr result (filled.new < want) }
    ensures later { S.faults source.old ≤ S.faults source.new }
    ensures rose { OnErr result (Rose (S.faults source.old) (S.faults source.new)) }
    ensures same { S.same source.old source.new }
{
    while *filled < want {
        match source.read(&mut buffer[*filled..want]) {
            Ok(0) => return Ok(()),
            Ok(count) => *filled += count,
            Err(e) => return Err(e),
        }
    }
    Ok(())
}

/// Reads into `buffer`, whose first `filled` bytes are held, until more than `size` are, or to the source's end.
///
/// # Errors
/// `Failed` if the source failed. The bytes that were read before are held.
#[tactic(auto, using(crate::proofs::HeldFacts::holds_or_fails))]
pub fn hold<S: Source>(
    source: &mut S,
    buffer: &mut Vec<u8>,
    filled: &mut usize,
    size: usize,
) -> Result<(), Failed>
    requires filled { filled.old ≤ vec_len buffer.old }
    requires size { size < vec_len buffer.old }
    ensures count { (filled.old ≤ filled.new) × (filled.new ≤ max filled.old (size + 1)) }
    ensures held { HoldsOrFails size (prepend_known (take filled.old buffer.old.items) (S.left source.old))
        (take filled.new buffer.new.items) (S.left source.new) result }
    ensures read { LosesAtMost (size + 1 - filled.old) (S.left source.old) (S.left source.new) }
    ensures short { OnErr result (filled.new < size + 1) }
    ensures later { S.faults source.old ≤ S.faults source.new }
    ensures rose { OnErr result (Rose (S.faults source.old) (S.faults source.new)) }
    ensures same { S.same source.old source.new }
    ensures len { vec_len buffer.new ≡ vec_len buffer.old }
    ensures capacity { vec_capacity buffer.new ≡ vec_capacity buffer.old }
{
    fill(source, buffer, filled, size + 1)
}

/// Brings the bytes from `place` up to `filled` to the start.
pub fn carry(buffer: &mut Vec<u8>, place: usize, filled: usize)
    requires place { place ≤ filled }
    requires filled { filled ≤ vec_len buffer.old }
    ensures bytes { take (filled - place) buffer.new.items ≡ drop place (take filled buffer.old.items) }
    ensures len { vec_len buffer.new ≡ vec_len buffer.old }
    ensures capacity { vec_capacity buffer.new ≡ vec_capacity buffer.old }
{
    buffer.copy_within(place..filled, 0);
}
