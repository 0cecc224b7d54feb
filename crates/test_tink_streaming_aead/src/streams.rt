//! Streams by the keys of a keyset, with the associated data "data": what is written, and what is read.

use crate::callers::stream_in;
use std::alloc::{AllocError, Global};
use test_util::draws_of;
use tink_io::{Draws, Kind, Lent, MemSink, MemSource, TinkError};
use tink_streaming_aead::{DecryptReader, StreamSegment, WrappedStreamingAead, Writer};

// Salts and prefixes: 64, 65 and so on.
const DRAWS: &[u8; 39] =
    b"\x40\x41\x42\x43\x44\x45\x46\x47\x48\x49\x4a\x4b\x4c\x4d\x4e\x4f\x50\x51\x52\x53\x54\x55\x56\x57\x58\x59\x5a\x5b\x5c\x5d\x5e\x5f\x60\x61\x62\x63\x64\x65\x66";

/// How a text is written: in pieces of so many bytes, whether each is flushed, and whether the writer is closed, or dropped.
pub struct Way {
    pieces: usize,
    flushes: bool,
    closes: bool,
}

/// At once, and closed.
pub const AT_ONCE: Way = Way {
    pieces: usize::MAX,
    flushes: false,
    closes: true,
};

/// In pieces of ten, each flushed, and closed.
pub const PIECES: Way = Way {
    pieces: 10,
    flushes: true,
    closes: true,
};

/// The same, and the writer is dropped.
pub const DROPPED: Way = Way {
    pieces: 10,
    flushes: true,
    closes: false,
};

fn write_by(
    writer: &mut Writer<Lent<MemSink>, StreamSegment>,
    text: &[u8],
    way: &Way,
) -> Result<(), TinkError> {
    for piece in text.chunks(way.pieces.max(1)) {
        writer.write(piece)?;
        if way.flushes {
            writer.flush()?;
        }
    }
    if way.closes { writer.close() } else { Ok(()) }
}

fn write_into(
    alloc: Global,
    aeads: &WrappedStreamingAead,
    sink: &mut MemSink,
    draws: &mut Draws,
    text: &[u8],
    way: &Way,
) -> Result<(), TinkError> {
    match aeads.new_encrypting_writer(alloc, draws, Lent(sink), b"data") {
        Ok(mut writer) => write_by(&mut writer, text, way),
        Err(refused) => Err(refused.error),
    }
}

/// What stands in a sink, with room for 9,000 bytes, of which a call takes ten, after a text was written by the primary key.
pub fn encrypt_text(
    alloc: Global,
    aeads: &WrappedStreamingAead,
    text: &[u8],
    way: &Way,
) -> Result<Vec<u8>, TinkError> {
    let mut draws = draws_of(alloc, DRAWS)?;
    let mut sink = MemSink::new(alloc, 10, Vec::new(alloc));
    sink.reserve(alloc, 9000)?;
    match write_into(alloc, aeads, &mut sink, &mut draws, text, way) {
        Ok(()) => Ok(sink.into_bytes()),
        Err(e) => Err(e),
    }
}

/// A stream with one byte changed, if it has one in that place.
pub fn flip_bit(alloc: Global, stream: &[u8], place: usize) -> Result<Vec<u8>, AllocError> {
    let mut bytes = stream.to_vec(alloc)?;
    if let Some(byte) = bytes.get_mut(place) {
        *byte ^= 1;
    }
    Ok(bytes)
}

/// A reader of a stream from a source that gives ten bytes in a call, of which that one fails.
pub fn reader_by(
    alloc: Global,
    aeads: &WrappedStreamingAead,
    stream: Result<Vec<u8>, AllocError>,
    fails: u32,
) -> Result<DecryptReader<MemSource>, TinkError> {
    let source = MemSource::new(stream?, 10, vec![in alloc; fails]?);
    match stream_in(alloc, aeads, source, b"data") {
        Ok(reader) => Ok(reader),
        Err(refused) => Err(refused.error),
    }
}

/// Whether reads to a buffer of ten bytes up to the end give the first bytes of a text, so many, and are refused by this.
pub fn gives(
    reader: &mut DecryptReader<MemSource>,
    text: &[u8],
    bytes: usize,
    refused: Option<Kind>,
) -> bool {
    let mut buf = [0u8; 10];
    let mut got = 0usize;
    for _ in 0..1000 {
        match reader.read(&mut buf) {
            Ok(0) => return (got == bytes) & refused.is_none(),
            Ok(n) => match text.get(got..) {
                Some(rest) if rest.starts_with(&buf[..n]) => got = got.saturating_add(n),
                _ => return false,
            },
            Err(e) => return (got == bytes) & (refused == Some(e.kind)),
        }
    }
    false
}
