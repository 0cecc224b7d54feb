//! What a large text and its stream are.

ghost use Rattle.std.specs.Prelude.{IfOk, IfErr};
ghost use Rattle.tink_large.specs.Large.{IsMeasured, MeasureRefused};

use crate::opening::{SEGMENT_SIZE, begin, large_key, open_all, start_reading};
use crate::pending::Pending;
use crate::sealed_text::{PIECE, SealedText};
use std::alloc::Global;
use tink_io::{Draws, TinkError};
use tink_streaming_ciphers::AES_CTR_HMAC_NONCE_SIZE_IN_BYTES;
use tink_streaming_keys::Trial;

/// What a large text and its stream are.
#[derive(Drop)]
pub struct Measured {
    /// The bytes of the text.
    pub text: u64,
    /// The bytes of its stream.
    pub stream: u64,
    /// The segments of the stream.
    pub segments: u64,
    /// The SHA-256 digest of the stream (FIPS 180-4).
    pub sha256: [u8; 32],
}

// The bytes that may be pending: more than a segment.
const PENDING: usize = SEGMENT_SIZE as usize + 1;

/// Answers how many bytes the large text of a number has, and the bytes, the segments and the digest of its
/// stream. The text has 1,000,000 + n bytes, and byte i of it is (31 * i + n) mod
/// 251. Its stream is that under a fixed key without associated data whose salt and prefix are the
/// first draws. The body seals the text, opens the stream as it comes, and holds neither as a whole.
///
/// # Errors
/// `OutOfMemory`; `RandomFault` exactly where fewer than 23 draws are left. Nothing was drawn then.
pub fn measure(alloc: Global, n: u32, draws: &mut Draws) -> Result<Measured, TinkError>
    ensures measured { IfOk result (λ m. IsMeasured n draws.old draws.new m) }
    ensures refused { IfErr result (λ e. MeasureRefused draws.old draws.new e.kind) }
{
    let key = large_key(alloc)?;
    let trial = Trial::reserve(
        alloc,
        SEGMENT_SIZE as usize + 1,
        AES_CTR_HMAC_NONCE_SIZE_IN_BYTES,
    )?;
    let piece = Vec::with_capacity(alloc, PIECE)?;
    let mut pending = Pending::reserve(alloc, PENDING)?;
    let writer = begin(alloc, &key, draws, &mut pending)?;
    let mut source = SealedText::new(n, writer, piece, pending);
    let mut reader = start_reading(&key, trial, &mut source);
    let text = open_all(&mut reader, &mut source);
    Ok(source.into_measures(text, reader.segments()))
}
