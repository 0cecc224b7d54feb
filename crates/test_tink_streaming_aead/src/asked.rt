//! What is asked of the keys of a keyset, and the one answer.

use crate::streams::{PIECES, Way, encrypt_text, flip_bit, gives, reader_by};
use std::alloc::Global;
use tink_io::{Kind, MemSource, TinkError};
use tink_streaming_aead::{DecryptReader, WrappedStreamingAead};

// The text of the stream that Python made.
const TEXT: &[u8; 60] = b"sixty bytes of text, which are in three segments of a stream";

/// The text's stream with "data" in segments of 50 bytes: HKDF with SHA-256, AES-128-GCM.
pub const BY_GCM: &[u8; 132] =
    b"\x18\x40\x41\x42\x43\x44\x45\x46\x47\x48\x49\x4a\x4b\x4c\x4d\x4e\x4f\x50\x51\x52\x53\x54\x55\x56\xa1\x5b\x4e\xa4\xd6\x54\xd6\xc5\xe9\xa5\x28\xcf\xbb\xbe\xde\x87\x10\xa3\xa3\x2d\xd9\xf0\x17\x84\x99\xf7\x80\x73\xcf\xaf\x9e\xdc\xe4\xf5\x04\xa3\x7b\x7f\x95\xb1\x80\x39\x03\x8b\x23\x25\xbb\xde\xe5\x06\x06\xb0\x11\x5f\x58\x06\xb7\x55\xb7\x7b\xc7\x16\x91\x4c\x88\xfb\x28\x65\x92\x99\x22\x50\xbd\x8e\x94\x4c\xc2\x1d\x03\x62\xd9\xd2\x40\x33\x35\x07\xb1\x7e\x33\x4f\x7b\xca\x4e\x3b\xd7\x66\xf3\x14\xa0\x76\xb2\xaf\x3b\x55\xd3\x2a\x30\xa1";

/// What the reads of a stream give, after one to no bytes, which chooses no key: the place of a byte that is changed, if the
/// stream has one there, which call of the source fails, how many bytes of the text they give, by what they are refused, and
/// the reads behind them, and how many segments were opened.
pub struct Reading {
    pub changed: usize,
    pub fails: u32,
    pub bytes: usize,
    pub refused: Option<Kind>,
    pub again: Option<Kind>,
    pub segments: u64,
}

/// Reads of Python's whole text, and at its end.
pub const WHOLE: Reading = Reading {
    changed: usize::MAX,
    fails: 0,
    bytes: 60,
    refused: None,
    again: None,
    segments: 3,
};

/// What a text is sealed to: how it is written, the first bytes of the stream, how many it has, and how many the one has of
/// which it is the front, which is written in pieces and closed; and what its reads give.
pub struct Sealing {
    pub way: Way,
    pub front: &'static [u8],
    pub length: usize,
    pub closed: usize,
    pub reading: Reading,
}

/// What is asked.
pub enum Asked {
    /// What a text of so many bytes is sealed to, no two neighbours of which are the same.
    Seals(usize, Sealing),
    /// What Python's text is sealed to, before the last bytes, which are Python's stream.
    SealsTo(Sealing),
    /// What reads of a stream of Python's text give.
    Reads(&'static [u8], Reading),
}

// So many bytes, no two neighbours of which are the same.
fn text_of(alloc: Global, n: usize) -> Result<Vec<u8>, TinkError> {
    let mut text = vec![in alloc; 0u8; n]?;
    for (place, byte) in text.iter_mut().enumerate() {
        *byte = (place % 251) as u8;
    }
    Ok(text)
}

fn gives_twice(reader: &mut DecryptReader<MemSource>, text: &[u8], asked: &Reading) -> bool {
    let nothing = (reader.read(&mut []) == Ok(0)) & (reader.segments() == 0);
    let first = gives(reader, text, asked.bytes, asked.refused);
    let opened = reader.segments() == asked.segments;
    let again = gives(reader, text, 0, asked.again);
    nothing & first & opened & again & (reader.segments() == asked.segments)
}

fn reads(
    alloc: Global,
    aeads: &WrappedStreamingAead,
    stream: &[u8],
    text: &[u8],
    asked: &Reading,
) -> Result<bool, TinkError> {
    match reader_by(
        alloc,
        aeads,
        flip_bit(alloc, stream, asked.changed),
        asked.fails,
    ) {
        Ok(mut reader) => Ok(gives_twice(&mut reader, text, asked)),
        Err(e) => Err(e),
    }
}

// Whether a stream is the front of one that is written in pieces and closed, of so many bytes.
fn is_front(
    alloc: Global,
    aeads: &WrappedStreamingAead,
    stream: &[u8],
    text: &[u8],
    closed: usize,
) -> Result<bool, TinkError> {
    match encrypt_text(alloc, aeads, text, &PIECES) {
        Ok(whole) => Ok(whole.starts_with(stream) & (whole.len() == closed)),
        Err(e) => Err(e),
    }
}

fn is_sealed(
    alloc: Global,
    aeads: &WrappedStreamingAead,
    stream: &[u8],
    text: &[u8],
    back: &[u8],
    asked: &Sealing,
) -> Result<bool, TinkError> {
    if stream.starts_with(asked.front) & stream.ends_with(back) & (stream.len() == asked.length) {
        match is_front(alloc, aeads, stream, text, asked.closed) {
            Ok(true) => reads(alloc, aeads, stream, text, &asked.reading),
            told => told,
        }
    } else {
        Ok(false)
    }
}

fn seals(
    alloc: Global,
    aeads: &WrappedStreamingAead,
    text: &[u8],
    back: &[u8],
    asked: &Sealing,
) -> Result<bool, TinkError> {
    match encrypt_text(alloc, aeads, text, &asked.way) {
        Ok(stream) => is_sealed(alloc, aeads, &stream, text, back, asked),
        Err(e) => Err(e),
    }
}

fn seals_long(
    alloc: Global,
    aeads: &WrappedStreamingAead,
    n: usize,
    asked: &Sealing,
) -> Result<bool, TinkError> {
    match text_of(alloc, n) {
        Ok(text) => seals(alloc, aeads, &text, b"", asked),
        Err(e) => Err(e),
    }
}

/// Whether the keys of a keyset do what is asked.
pub fn answer_row(
    alloc: Global,
    aeads: &WrappedStreamingAead,
    asked: &Asked,
) -> Result<bool, TinkError> {
    match *asked {
        Asked::Seals(n, ref asked) => seals_long(alloc, aeads, n, asked),
        Asked::SealsTo(ref asked) => seals(alloc, aeads, TEXT, BY_GCM, asked),
        Asked::Reads(stream, ref asked) => reads(alloc, aeads, stream, TEXT, asked),
    }
}
