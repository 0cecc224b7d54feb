//! Keys of streams of either kind, memory to write to and read from, and streams that Python made.

use std::alloc::Global;
use tink_io::{Draws, Kind, MemSink, MemSource, TinkError};
use tink_primitives::{Refused, StreamingAead};
use tink_proto::HashType;
use tink_streaming_ciphers::StreamSegment;
use tink_streaming_io::{Reader, Writer};
use tink_streaming_keys::{AesCtrHmac, AesGcmHkdf, StreamKind};

/// The text.
pub const TEXT: &[u8; 60] = b"sixty bytes of text, which are in three segments of a stream";

/// The main key 0, 1, .., 15.
pub const MAIN: &[u8; 16] = b"\x00\x01\x02\x03\x04\x05\x06\x07\x08\x09\x0a\x0b\x0c\x0d\x0e\x0f";

/// A salt and a prefix: 64, 65, .., 86.
pub const DRAWS: &[u8; 23] =
    b"\x40\x41\x42\x43\x44\x45\x46\x47\x48\x49\x4a\x4b\x4c\x4d\x4e\x4f\x50\x51\x52\x53\x54\x55\x56";

/// The text's stream with "data" in segments of 50 bytes: HKDF and HMAC with SHA-256, AES-128, tags of ten bytes.
pub const IN_COUNTER_MODE: &[u8; 114] =
    b"\x18\x40\x41\x42\x43\x44\x45\x46\x47\x48\x49\x4a\x4b\x4c\x4d\x4e\x4f\x50\x51\x52\x53\x54\x55\x56\x7e\x26\xff\x8c\x0b\xfe\x26\x08\xf2\x9b\x93\xdc\x9a\x0c\x55\x6f\x72\x72\x9d\x8a\xc0\x04\x62\xb4\x31\xa8\xb1\x47\xb3\x3b\x7b\xc6\x11\x4e\xbc\x2c\x94\x48\xcc\xf8\x59\x41\x9a\x95\xf7\xbf\x4b\x40\xcc\x13\x33\xc5\x53\xcf\xd1\xab\xc8\x1b\xd3\x3c\xc6\xe9\xdf\x88\xf2\xf9\x5f\x28\x70\xc5\xe0\x2a\x7e\x87\x3c\x66\x88\x2e\x03\x57\x9b\x7f\x29\xae\x5f\x3b\xcb\x6e\xc0\xc1";

/// The same by AES-128-GCM.
pub const BY_GCM: &[u8; 132] =
    b"\x18\x40\x41\x42\x43\x44\x45\x46\x47\x48\x49\x4a\x4b\x4c\x4d\x4e\x4f\x50\x51\x52\x53\x54\x55\x56\xa1\x5b\x4e\xa4\xd6\x54\xd6\xc5\xe9\xa5\x28\xcf\xbb\xbe\xde\x87\x10\xa3\xa3\x2d\xd9\xf0\x17\x84\x99\xf7\x80\x73\xcf\xaf\x9e\xdc\xe4\xf5\x04\xa3\x7b\x7f\x95\xb1\x80\x39\x03\x8b\x23\x25\xbb\xde\xe5\x06\x06\xb0\x11\x5f\x58\x06\xb7\x55\xb7\x7b\xc7\x16\x91\x4c\x88\xfb\x28\x65\x92\x99\x22\x50\xbd\x8e\x94\x4c\xc2\x1d\x03\x62\xd9\xd2\x40\x33\x35\x07\xb1\x7e\x33\x4f\x7b\xca\x4e\x3b\xd7\x66\xf3\x14\xa0\x76\xb2\xaf\x3b\x55\xd3\x2a\x30\xa1";

/// A key in counter mode with tags of ten bytes, or one by AES-GCM.
pub fn key_of(
    alloc: Global,
    in_counter_mode: bool,
    hkdf_alg: HashType,
    segment: u32,
) -> Result<StreamKind, TinkError> {
    if in_counter_mode {
        let key = AesCtrHmac::new(alloc, MAIN, hkdf_alg, 16, HashType::Sha256, 10, segment, 0)?;
        Ok(StreamKind::CtrHmac(key))
    } else {
        let key = AesGcmHkdf::new(alloc, MAIN, hkdf_alg, 16, segment, 0)?;
        Ok(StreamKind::GcmHkdf(key))
    }
}

/// A sink with room for 200 bytes, of which a call takes ten, and those of these numbers fail.
pub fn sink(alloc: Global, fails: &[u32]) -> Result<MemSink, TinkError> {
    let mut sink = MemSink::new(alloc, 10, fails.to_vec(alloc)?);
    sink.reserve(alloc, 200)?;
    Ok(sink)
}

// A source of these bytes, of which a call gives ten, and those of these numbers fail.
fn source(alloc: Global, bytes: &[u8], fails: &[u32]) -> Result<MemSource, TinkError> {
    Ok(MemSource::new(bytes.to_vec(alloc)?, 10, fails.to_vec(alloc)?))
}

/// These draws.
pub fn draws(alloc: Global, bytes: &[u8]) -> Result<Draws, TinkError> {
    Ok(Draws::new(bytes.to_vec(alloc)?))
}

/// A writer of a new stream with "data", by the trait's call.
pub fn new_writer(
    alloc: Global,
    key: &StreamKind,
    draws: &mut Draws,
    w: MemSink,
) -> Result<Writer<MemSink, StreamSegment>, Refused<MemSink>> {
    match key {
        StreamKind::CtrHmac(key) => {
            <AesCtrHmac as StreamingAead<MemSource, MemSink>>::new_encrypting_writer(
                key, alloc, draws, w, b"data",
            )
        }
        StreamKind::GcmHkdf(key) => {
            <AesGcmHkdf as StreamingAead<MemSource, MemSink>>::new_encrypting_writer(
                key, alloc, draws, w, b"data",
            )
        }
    }
}

// A reader of a stream with "data", by the trait's call.
fn new_reader(
    alloc: Global,
    key: &StreamKind,
    r: MemSource,
) -> Result<Reader<MemSource, StreamSegment>, Refused<MemSource>> {
    match key {
        StreamKind::CtrHmac(key) => {
            <AesCtrHmac as StreamingAead<MemSource, MemSink>>::new_decrypting_reader(
                key, alloc, r, b"data",
            )
        }
        StreamKind::GcmHkdf(key) => {
            <AesGcmHkdf as StreamingAead<MemSource, MemSink>>::new_decrypting_reader(
                key, alloc, r, b"data",
            )
        }
    }
}

// A writer of a stream of these draws.
fn writer_of(
    alloc: Global,
    key: &StreamKind,
    drawn: &[u8],
) -> Result<Writer<MemSink, StreamSegment>, TinkError> {
    let mut draws = draws(alloc, drawn)?;
    let sink = sink(alloc, &[])?;
    match new_writer(alloc, key, &mut draws, sink) {
        Ok(writer) => Ok(writer),
        Err(refused) => Err(refused.error),
    }
}

/// The stream of a text of these draws, written in pieces of so many bytes with a flush behind each.
pub fn encrypt_in_pieces(
    alloc: Global,
    key: &StreamKind,
    drawn: &[u8],
    text: &[u8],
    piece: usize,
) -> Result<Vec<u8>, TinkError> {
    let mut writer = writer_of(alloc, key, drawn)?;
    write_pieces(&mut writer, text, piece)?;
    Ok(writer.into_inner().into_bytes())
}

fn write_pieces(
    writer: &mut Writer<MemSink, StreamSegment>,
    text: &[u8],
    piece: usize,
) -> Result<(), TinkError> {
    for part in text.chunks(piece.max(1)) {
        writer.write(part)?;
        writer.flush()?;
    }
    writer.close()
}

// Reads in pieces of ten bytes up to the end, and answers by what a read or the reader is refused.
fn open_into(
    alloc: Global,
    key: &StreamKind,
    stream: MemSource,
    text: &mut Vec<u8>,
) -> Result<Option<Kind>, TinkError> {
    match new_reader(alloc, key, stream) {
        Ok(mut reader) => read_pieces(&mut reader, text),
        Err(refused) => Ok(Some(refused.error.kind)),
    }
}

fn read_pieces(
    reader: &mut Reader<MemSource, StreamSegment>,
    text: &mut Vec<u8>,
) -> Result<Option<Kind>, TinkError> {
    let mut buf = [0u8; 10];
    for _ in 0..100 {
        match reader.read(&mut buf) {
            Ok(0) => return Ok(None),
            Ok(n) => text.extend_from_slice(&buf[..n])?,
            Err(e) => return Ok(Some(e.kind)),
        }
    }
    Ok(Some(Kind::TooManySegments))
}

/// Whether a stream, from a source whose calls of these numbers fail, opens to this text, up to what it is refused by.
pub fn opens(
    alloc: Global,
    key: &StreamKind,
    stream: &[u8],
    fails: &[u32],
    (text, refused): (&[u8], Option<Kind>),
) -> Result<bool, TinkError> {
    let stream = source(alloc, stream, fails)?;
    let mut told = Vec::new(alloc);
    Ok(open_into(alloc, key, stream, &mut told)? == refused && told.as_slice() == text)
}
