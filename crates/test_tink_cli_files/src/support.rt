//! Streams of a counted text in memory.

use std::alloc::Global;
use test_util::sink_of;
use tink_io::{Draws, SureSource, TinkError};
use tink_run::report::Command;
use tink_run::run::run;

/// A text whose bytes count up from 0 to 250, over and over.
pub fn counting_bytes(alloc: Global, count: usize) -> Result<Vec<u8>, TinkError> {
    let mut text = Vec::new(alloc);
    let mut byte = 0u8;
    for _ in 0..count {
        text.push(byte)?;
        byte = if byte < 250 { byte + 1 } else { 0 };
    }
    Ok(text)
}

// What a command writes of an input, without associated data and by 1,024 draws.
fn output_of(
    alloc: Global,
    command: Command,
    keyset: &[u8],
    input: &mut SureSource,
) -> Result<Vec<u8>, TinkError> {
    let mut draws = Draws::new(counting_bytes(alloc, 1024)?);
    let mut sink = sink_of(alloc, 20000)?;
    match run(alloc, command, keyset, &[], &mut draws, input, &mut sink) {
        Ok(_) => Ok(sink.into_bytes()),
        Err(e) => Err(e),
    }
}

/// The stream of the counted text of this number of bytes.
pub fn stream_of(alloc: Global, keyset: &[u8], count: usize) -> Result<Vec<u8>, TinkError> {
    let mut text = SureSource::new(counting_bytes(alloc, count)?);
    output_of(alloc, Command::Seal, keyset, &mut text)
}

/// The text of a stream.
pub fn decrypt_stream(alloc: Global, keyset: &[u8], stream: Vec<u8>) -> Result<Vec<u8>, TinkError> {
    output_of(alloc, Command::Open, keyset, &mut SureSource::new(stream))
}
