//! `run` under keysets that a manager edited: those that `test_tink` has edited, to the byte.

use crate::support::{counting_bytes, decrypt_stream, stream_of};
use std::alloc::Global;
use test_util::{CTR_4096, CTR_4096_AND_DESTROYED, CTR_4096_ROTATED, Verdict};
use tink_io::TinkError;

// The bytes of a text of two segments.
const TWO_SEGMENTS: usize = 4041;

// Whether a stream opens to the text of two segments.
fn opens(alloc: Global, keyset: &[u8], stream: Vec<u8>) -> Result<bool, TinkError> {
    let text = counting_bytes(alloc, TWO_SEGMENTS)?;
    match decrypt_stream(alloc, keyset, stream) {
        Ok(got) => Ok(got.as_slice() == text.as_slice()),
        Err(e) => Err(e),
    }
}

// Whether the edited keyset seals to other bytes than the keyset did exactly where it is to, and opens both streams.
fn seals_and_opens(alloc: Global, edited: &[u8], to_other: bool) -> Result<bool, TinkError> {
    let old = stream_of(alloc, CTR_4096, TWO_SEGMENTS)?;
    let new = stream_of(alloc, edited, TWO_SEGMENTS)?;
    let as_wanted = (old != new) == to_other;
    match (opens(alloc, edited, old), opens(alloc, edited, new)) {
        (Ok(old), Ok(new)) => Ok(old & new & as_wanted),
        (Err(e), _) | (Ok(_), Err(e)) => Err(e),
    }
}

pub fn edited_keysets_run(alloc: Global, verdict: &mut Verdict) {
    let destroyed = seals_and_opens(alloc, CTR_4096_AND_DESTROYED, false);
    verdict.expect(destroyed, Ok(true), "a key is added and destroyed");
    let rotated = seals_and_opens(alloc, CTR_4096_ROTATED, true);
    verdict.expect(rotated, Ok(true), "a stream opens after a rotation");
}
