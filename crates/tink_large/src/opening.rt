//! The key of large texts, the beginning of a stream, and its opening.

ghost use Rattle.std.specs.Prelude.{◌≡◌, ◌≤◌, ◌<◌, ◌^◌, [], Some, length, IfOk, IfErr, vec_len, vec_capacity};
ghost use Rattle.stream_model.specs.Sealing.{chunk_count};
ghost use Rattle.tink_io.specs.declared.error.Kind.TheVariants.{OutOfMemory};
ghost use Rattle.tink_streaming_io.specs.Openers.{reader_rest, segment_map};
ghost use Rattle.tink_streaming_io.specs.declared.progress.Progress.TheVariants.{Running};
ghost use Rattle.tink_large.specs.Large.{MeasureRefused, large_key, large_text};
ghost use Rattle.tink_large.specs.Opening.{AllRemains, HasLargeRoom, IsBegun, IsLargeStream};
ghost use Rattle.tink_large.specs.SealedText.{Passed, stream_left};

use crate::pending::Pending;
use crate::sealed_text::SealedText;
use std::alloc::Global;
use tink_io::{Draws, TinkError};
use tink_proto::HashType;
use tink_streaming_ciphers::StreamSegment;
use tink_streaming_io::{Progress, SegmentReader, SegmentWriter};
use tink_streaming_keys::{AesCtrHmac, Trial, begin_stream, start};

/// The bytes of a segment of ciphertext.
pub const SEGMENT_SIZE: u32 = 4096;

// The bytes from which keys are derived.
const MAIN_KEY: [u8; 16] = [0, 1, 2, 3, 4, 5, 6, 7, 8, 9, 10, 11, 12, 13, 14, 15];

// The bytes of a derived AES key.
const KEY_SIZE: usize = 16;

// The bytes of a tag.
const TAG_SIZE: usize = 32;

/// The key of large texts.
///
/// # Errors
/// `OutOfMemory`.
pub fn large_key(alloc: Global) -> Result<AesCtrHmac, TinkError>
    ensures key { IfOk result (λ k. k ≡ large_key) }
    ensures refused { IfErr result (λ e. e ≡ record { kind = OutOfMemory }) }
{
    AesCtrHmac::new(
        alloc,
        &MAIN_KEY,
        HashType::Sha256,
        KEY_SIZE,
        HashType::Sha256,
        TAG_SIZE,
        SEGMENT_SIZE,
        0,
    )
}

/// The writer of a new stream, whose header is pending.
///
/// # Errors
/// `OutOfMemory`; `RandomFault` exactly where fewer than 23 draws are left. Nothing was drawn then.
pub fn begin(
    alloc: Global,
    key: &AesCtrHmac,
    draws: &mut Draws,
    pending: &mut Pending,
) -> Result<SegmentWriter<StreamSegment>, TinkError>
    requires key { key.now ≡ large_key }
    requires empty { pending.old.bytes.items ≡ [] }
    requires given { pending.old.given ≡ 0 }
    requires room { 4096 < pending.old.room }
    ensures begun { IfOk result (λ w. IsBegun draws.old draws.new w pending.new) }
    ensures refused { IfErr result (λ e. MeasureRefused draws.old draws.new e.kind) }
    ensures room { pending.new.room ≡ pending.old.room }
{
    begin_stream(alloc, key, draws, pending, &[])
}

/// The reader of the stream of a large text, whose header was read.
pub fn start_reading(
    key: &AesCtrHmac,
    trial: Trial,
    source: &mut SealedText,
) -> SegmentReader<StreamSegment>
    requires key { key.now ≡ large_key }
    requires filled { trial.kept.filled ≡ 0 }
    requires room { HasLargeRoom trial }
    requires number { source.old.n < 2 ^ 32 }
    requires stream { IsLargeStream source.old.n (stream_left source.old) }
    ensures running { result.progress ≡ Running }
    ensures first { result.segments ≡ 0 }
    ensures overhead { result.opener.overhead ≡ 32 }
    ensures remains { AllRemains (segment_map result.opener) result.opener.first result.opener.size 0
        (reader_rest (λ s. Some (stream_left s)) result source.new) 0 source.new.n }
    ensures same { Passed source.old source.new }
{
    match start(&[key], &[], trial, source) {
        Ok(reader) => reader,
        Err(_) => unreachable!(),
    }
}

/// Opens all segments, and answers how many bytes of text they have.
pub fn open_all(reader: &mut SegmentReader<StreamSegment>, source: &mut SealedText) -> u64
    requires running { reader.old.progress ≡ Running }
    requires first { reader.old.segments ≡ 0 }
    requires overhead { reader.old.opener.overhead ≡ 32 }
    requires number { source.old.n < 2 ^ 32 }
    requires remains { AllRemains (segment_map reader.old.opener) reader.old.opener.first reader.old.opener.size 0
        (reader_rest (λ s. Some (stream_left s)) reader.old source.old) 0 source.old.n }
    ensures bytes { result ≡ length (large_text source.old.n) }
    ensures segments { reader.new.segments ≡ chunk_count large_key (large_text source.old.n) }
    ensures end { stream_left source.new ≡ [] }
    ensures same { Passed source.old source.new }
{
    let mut bytes: u64 = 0;
    'segments: while reader.progress() == Progress::Running {
        match reader.open_next(source) {
            Ok(()) => bytes += reader.plaintext().len() as u64,
            Err(_) => unreachable!(),
        }
    }
    bytes
}
