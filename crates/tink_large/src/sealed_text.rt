//! The stream of a large text, made while it is read.

ghost use Rattle.std.specs.Prelude.{◌≡◌, ◌≤◌, ◌<◌, ◌+◌, ◌*◌, ◌-◌, ◌^◌, ◌++◌, ℕ, List, [], true, false, Some, length, vec_capacity};
ghost use Rattle.tink_streaming_io.specs.Sealers.{held_text};
ghost use Rattle.tink_streaming_io.specs.declared.writing.Mode.TheVariants.{Open, Closed};
ghost use Rattle.tink_large.specs.Coming.{KeepsPlace, TakesSegment, comes, left_of, pending_bytes};
ghost use Rattle.tink_large.specs.Large.{text_from, text_length};

use crate::measuring::Measured;
use crate::pending::Pending;
use crate::text::{fill_piece, text_length};
use sha2::{Digest, Sha256};
use tink_io::{Failed, Source};
use tink_streaming_ciphers::StreamSegment;
use tink_streaming_io::{Mode, SegmentWriter};

/// The bytes of the text that are sealed at once.
pub const PIECE: usize = 2048;

/// A source of the stream of a text, which is sealed piece by piece as the stream is read. What was
/// read is counted and hashed.
#[derive(Drop)]
pub struct SealedText {
    n: u32,
    at: u64,
    writer: SegmentWriter<StreamSegment>,
    piece: Vec<u8>,
    pending: Pending,
    hash: Sha256,
    count: u64,
    ghost at_in: { at ≤ text_length n },
    ghost piece_room: { 2048 ≤ vec_capacity piece },
    ghost wide: { 2048 ≤ writer.sealer.first },
    ghost pending_room: { writer.sealer.room + writer.sealer.overhead < pending.room },
    ghost few: { writer.mode ≡ Open → 2 * writer.segments + writer.filled ≤ at },
    ghost bounded: { count + length (left_of n at writer pending) < 2 ^ 64 },
}

// Seals a piece of text.
fn seal_piece(writer: &mut SegmentWriter<StreamSegment>, pending: &mut Pending, piece: &[u8])
    requires open { writer.old.mode ≡ Open }
    requires takes { TakesSegment writer.old pending.old }
    requires piece { length piece.now ≤ writer.old.sealer.first }
    requires wide { 2 ≤ writer.old.sealer.first }
    requires few { writer.old.segments + 1 < 2 ^ 32 }
    ensures left { (text : List ℕ) → pending.new.bytes.items ++ comes writer.new text
        ≡ comes writer.old (piece.now ++ text) }
    ensures few { 2 * writer.new.segments + writer.new.filled
        ≤ 2 * writer.old.segments + writer.old.filled + length piece.now }
    ensures open { writer.new.mode ≡ Open }
    ensures sealer { writer.new.sealer ≡ writer.old.sealer }
    ensures kept { KeepsPlace pending.old pending.new }
{
    match writer.write(pending, piece) {
        Ok(_) => {}
        Err(_) => unreachable!(),
    }
}

// Seals the last segment.
fn seal_last(writer: &mut SegmentWriter<StreamSegment>, pending: &mut Pending)
    requires open { writer.old.mode ≡ Open }
    requires takes { TakesSegment writer.old pending.old }
    ensures left { pending.new.bytes.items ++ comes writer.new [] ≡ comes writer.old [] }
    ensures closed { writer.new.mode ≡ Closed }
    ensures sealer { writer.new.sealer ≡ writer.old.sealer }
    ensures kept { KeepsPlace pending.old pending.new }
{
    match writer.close(pending) {
        Ok(()) => {}
        Err(_) => unreachable!(),
    }
}

impl SealedText {
    ghost use Rattle.sha2.specs.Hashers.{Holds256};
    ghost use Rattle.sha2.specs.Sha256.{sha256};
    ghost use Rattle.tink_large.specs.SealedText.{stream_left, turns_left};

    /// The stream that a writer begins whose sink has its front.
    pub fn new(
        n: u32,
        writer: SegmentWriter<StreamSegment>,
        piece: Vec<u8>,
        pending: Pending,
    ) -> SealedText
        requires piece { 2048 ≤ vec_capacity piece }
        requires wide { 2048 ≤ writer.sealer.first }
        requires room { writer.sealer.room + writer.sealer.overhead < pending.room }
        requires number { writer.segments ≡ 0 }
        requires held { held_text writer ≡ [] }
        requires bounded { length (left_of n 0 writer pending) < 2 ^ 64 }
        ensures left { stream_left result ≡ left_of n 0 writer pending }
        ensures number { result.n ≡ n }
        ensures count { result.count ≡ 0 }
        ensures hash { Holds256 result.hash [] }
    {
        SealedText {
            n,
            at: 0,
            writer,
            piece,
            pending,
            hash: Sha256::new(),
            count: 0,
        }
    }

    // Whether nothing is pending and some text, or the end, is still to be sealed.
    fn is_due(&self) -> bool
        ensures open { result ≡ true → self.now.writer.mode ≡ Open }
        ensures given { result ≡ true → pending_bytes self.now.pending ≡ [] }
        ensures done { result ≡ false → pending_bytes self.now.pending ≡ [] → stream_left self.now ≡ [] }
    {
        match self.writer.mode {
            Mode::Open => self.pending.is_given(),
            _ => false,
        }
    }

    // Seals the next piece of the text, or the last segment behind it.
    fn refill(&mut self)
        requires open { self.old.writer.mode ≡ Open }
        requires given { pending_bytes self.old.pending ≡ [] }
        ensures left { stream_left self.new ≡ stream_left self.old }
        ensures fewer { turns_left self.new < turns_left self.old }
        ensures number { self.new.n ≡ self.old.n }
        ensures hash { self.new.hash ≡ self.old.hash }
        ensures count { self.new.count ≡ self.old.count }
    {
        self.pending.clear();
        let rest = text_length(self.n) - self.at;
        if rest == 0 {
            seal_last(&mut self.writer, &mut self.pending);
            return;
        }
        let count = rest.min(PIECE as u64);
        fill_piece(self.n, self.at, count as usize, &mut self.piece);
        seal_piece(&mut self.writer, &mut self.pending, &self.piece);
        self.at += count;
    }

    /// The size and the digest of the stream that was read, with these numbers of bytes of text and of
    /// segments.
    pub fn into_measures(self, text: u64, segments: u64) -> Measured
        ensures text { result.text ≡ text }
        ensures stream { result.stream ≡ self.count }
        ensures segments { result.segments ≡ segments }
        ensures sha256 { (m : List ℕ) → Holds256 self.hash m → result.sha256 ≡ sha256 m }
    {
        Measured {
            text,
            stream: self.count,
            segments,
            sha256: self.hash.finalize(),
        }
    }
}

impl Source for SealedText {
    ghost use Rattle.tink_large.specs.SealedText.{Passed, stream_left};
    ghost use Rattle.tink_large.specs.Passing.{Passed-refl, Passed-trans};

    ghost left = { λ s. Some (stream_left s) };

    ghost faults = { λ _. 0 };

    ghost same = { Passed };

    fn read(&mut self, buf: &mut [u8]) -> Result<usize, Failed> {
        'refills: while self.is_due() {
            self.refill();
        }
        let n = self.pending.give(buf);
        self.hash.update(&buf[..n]);
        self.count += n as u64;
        Ok(n)
    }

    ghost same_refl = { Passed-refl };

    ghost same_trans = { Passed-trans };
}
