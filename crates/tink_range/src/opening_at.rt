ghost use Rattle.std.specs.Prelude.{◌≡◌, ◌≤◌, ◌<◌, ◌+◌, ◌^◌, min, true, length, take, drop, vec_len, vec_capacity, IfOk, IfSome, MatchResult};
ghost use Rattle.stream_model.specs.Cut.{room_at};
ghost use Rattle.tink_range.specs.ChunkReading.{OpensAt, ChunkOpensTo};
ghost use Rattle.tink_range.specs.Objects.{ReadsObject};
ghost use Rattle.tink_range.specs.Rooms.{HasRoomFor, KeepsBuffers};
ghost use Rattle.tink_streaming_io.specs.Openers.{segment_map};
ghost use Rattle.tink_streaming_io.specs.Rooms.{KeepsNonceAndText};

use crate::read_at::ReadAt;
use crate::reading_at::fill_at;
use crate::steps::Steps;
use std::sync::ledger::Ledger;
use tink_io::Failed;
use tink_streaming_io::{Opener, open_held};
use tink_streaming_segment::SegmentDecrypter;

/// The bytes that a segment of this number has at most: `first` for segment 0, which follows the front, and else
/// `size`.
pub fn room_of<D: SegmentDecrypter>(opener: &Opener<D>, number: u64) -> usize
    ensures value { result ≡ room_at opener.now.first opener.now.size number }
    ensures most { result ≤ opener.now.size }
{
    if number == 0 {
        opener.first
    } else {
        opener.size
    }
}

// Reads a chunk that begins at place `at`, and opens it as the segment of that number, in one step.
fn open_into<A: ReadAt, D: SegmentDecrypter, L: Ledger>(
    opener: &Opener<D>,
    object: &mut A,
    chunk: &mut [u8],
    text: &mut Vec<u8>,
    nonce: &mut Vec<u8>,
    number: u64,
    at: u64,
    last: bool,
    steps: &mut Steps<L>,
) -> Result<bool, Failed>
    requires number { number < 2 ^ 32 }
    requires inside { (at + length chunk.old ≤ A.length_of object.old) × (at + length chunk.old < 2 ^ 64) }
    requires room { (length chunk.old ≤ opener.now.size) × (opener.now.size ≤ vec_capacity text.old)
        × (opener.now.nonce_size ≤ vec_len nonce.old) }
    ensures answer { IfOk result (λ ok. IfSome (A.bytes object.old) (λ S. ChunkOpensTo (segment_map opener.now) number
        last (take (length chunk.old) (drop at S)) ok text.new.items)) }
    ensures length { IfOk result (λ ok. ok ≡ true
        → vec_len text.new + opener.now.overhead ≡ length chunk.old) }
    ensures ticks { MatchResult result (λ _. steps.new ≡ steps.old + 1) (λ _. steps.new ≡ steps.old) }
    ensures room { KeepsNonceAndText nonce.old nonce.new text.old text.new }
    ensures taken { A.taken object.new ≤ A.taken object.old + length chunk.old }
    ensures read { ReadsObject A.length_of A.bytes A.faults A.same object.old object.new result }
{
    match fill_at(object, at, chunk) {
        Ok(()) => {
            steps.tick();
            Ok(open_held(opener, number, last, chunk, nonce, text))
        }
        Err(e) => Err(e),
    }
}

/// Decrypts the chunk of that number, in one step. From its place `at` on the object has `rest` bytes. If the segment
/// has room for all of them, the chunk is the last one. The answer is whether it is the segment of a text, which is
/// then in `text`.
///
/// # Errors
/// `Failed` if the object failed. No step is counted then.
pub fn open_at<A: ReadAt, D: SegmentDecrypter, L: Ledger>(
    opener: &Opener<D>,
    object: &mut A,
    sealed: &mut Vec<u8>,
    text: &mut Vec<u8>,
    nonce: &mut Vec<u8>,
    number: u64,
    at: u64,
    rest: u64,
    steps: &mut Steps<L>,
) -> Result<bool, Failed>
    requires number { number < 2 ^ 32 }
    requires inside { (at + rest ≡ A.length_of object.old) × (at + rest < 2 ^ 64) }
    requires room { HasRoomFor opener.now.size opener.now.nonce_size (vec_len sealed.old) (vec_capacity text.old)
        (vec_len nonce.old) }
    ensures answer { IfOk result (λ ok. OpensAt (segment_map opener.now)
        (record { number = number; start = at; rest = rest; room = room_at opener.now.first opener.now.size number })
        (A.bytes object.old) ok text.new.items) }
    ensures length { IfOk result (λ ok. ok ≡ true → vec_len text.new + opener.now.overhead
        ≡ min rest (room_at opener.now.first opener.now.size number)) }
    ensures ticks { MatchResult result (λ _. steps.new ≡ steps.old + 1) (λ _. steps.new ≡ steps.old) }
    ensures room { KeepsBuffers sealed.old sealed.new text.old text.new nonce.old nonce.new }
    ensures taken { A.taken object.new ≤ A.taken object.old + room_at opener.now.first opener.now.size number }
    ensures read { ReadsObject A.length_of A.bytes A.faults A.same object.old object.new result }
{
    let room = room_of(opener, number);
    let len = rest.min(room as u64) as usize;
    let last = rest <= room as u64;
    open_into(
        opener,
        object,
        &mut sealed[..len],
        text,
        nonce,
        number,
        at,
        last,
        steps,
    )
}
