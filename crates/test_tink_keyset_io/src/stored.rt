//! A keyset of one raw key for streams, its binary form, and how both kinds of ends are read and written.

use crate::{binary_tests, json_tests};
use std::alloc::Global;
use test_util::{Answer, Verdict, enabled_key, keyset, succeeds};
use tink_io::{Kind, MemSink, MemSource, Source, TinkError};
use tink_keyset_io::{BinaryReader, BinaryWriter, JsonReader, JsonWriter};
use tink_keysets::keyset::{Reader, Writer};
use tink_proto::{Bytes, EncryptedKeyset, Keyset, Message, OutputPrefixType};

/// The binary form.
pub const KEYSET: &[u8] =
    b"\x08\x84\x86\x88\x08\x12\x6f\x0a\x64\x0a\x3dtype.googleapis.com/google.crypto.tink.AesCtrHmacStreamingKey\x12\x21\x12\x0d\x08\x80\x20\x10\x10\x18\x03\x22\x04\x08\x03\x10\x20\x1a\x10\x00\x01\x02\x03\x04\x05\x06\x07\x08\x09\x0a\x0b\x0c\x0d\x0e\x0f\x18\x01\x10\x01\x18\x84\x86\x88\x08\x20\x03";

const VALUE: &[u8] =
    b"\x12\x0d\x08\x80\x20\x10\x10\x18\x03\x22\x04\x08\x03\x10\x20\x1a\x10\x00\x01\x02\x03\x04\x05\x06\x07\x08\x09\x0a\x0b\x0c\x0d\x0e\x0f";

const STREAM_URL: &str = "type.googleapis.com/google.crypto.tink.AesCtrHmacStreamingKey";

// The keyset.
fn stream_keyset(alloc: Global) -> Result<Keyset, TinkError> {
    let id = 0x01020304;
    let key = enabled_key(alloc, STREAM_URL, VALUE, OutputPrefixType::Raw, id)?;
    Ok(keyset(id, vec![in alloc; key]?))
}

/// The forms of a keyset.
pub enum Form {
    Binary,
    Json,
}

// ---- reading

/// What is read.
pub enum Asked {
    /// A keyset of this binary form.
    Keyset(&'static [u8]),
    /// An encrypted keyset without info.
    Encrypted,
}

/// What a source has, how much it gives at once, and the calls at which it fails; what is read from it, in order; and
/// whether it is at its end then.
pub struct Reading {
    pub bytes: &'static [u8],
    pub piece: usize,
    pub fails: &'static [u32],
    pub rows: &'static [(&'static str, Asked, Answer)],
    pub ends: bool,
}

// A source that fails at these calls.
fn source(alloc: Global, reading: &Reading) -> Result<MemSource, TinkError> {
    let bytes = Vec::from_slice(alloc, reading.bytes)?;
    let fails = Vec::from_slice(alloc, reading.fails)?;
    Ok(MemSource::new(bytes, reading.piece, fails))
}

// Whether the keyset that is read has this binary form.
fn is_keyset(
    alloc: Global,
    read: Result<Keyset, TinkError>,
    want: &[u8],
) -> Result<bool, TinkError> {
    match read?.encode(alloc) {
        Ok(bytes) => Ok(bytes.as_slice() == want),
        Err(_) => Err(TinkError::new(Kind::OutOfMemory)),
    }
}

// Whether the encrypted keyset that is read has no info.
fn has_no_info(read: Result<EncryptedKeyset, TinkError>) -> Result<bool, TinkError> {
    match read {
        Ok(ks) => Ok(ks.keyset_info.is_none()),
        Err(e) => Err(e),
    }
}

fn read<R: Reader>(verdict: &mut Verdict, alloc: Global, reader: &mut R, reading: &Reading) {
    for (row, asked, want) in reading.rows {
        let got = match asked {
            Asked::Keyset(bytes) => is_keyset(alloc, reader.read(alloc), bytes),
            Asked::Encrypted => has_no_info(reader.read_encrypted(alloc)),
        };
        verdict.expect(got, *want, row);
    }
}

fn is_at_end(mut source: MemSource) -> bool {
    source.read(&mut [0; 1]) == Ok(0)
}

// Whether the source is at its end after its rows.
fn ends(
    verdict: &mut Verdict,
    alloc: Global,
    form: &Form,
    reading: &Reading,
) -> Result<bool, TinkError> {
    let source = source(alloc, reading)?;
    match form {
        Form::Binary => {
            let mut reader = BinaryReader::new(source);
            read(verdict, alloc, &mut reader, reading);
            Ok(is_at_end(reader.into_inner()))
        }
        Form::Json => {
            let mut reader = JsonReader::new(source);
            read(verdict, alloc, &mut reader, reading);
            Ok(is_at_end(reader.into_inner()))
        }
    }
}

const READINGS: &[(Form, &[Reading])] = &[
    (Form::Binary, binary_tests::READINGS),
    (Form::Json, json_tests::READINGS),
];

pub fn keysets_are_read_in_pieces_or_refused(alloc: Global, verdict: &mut Verdict) {
    for (form, readings) in READINGS {
        for reading in *readings {
            let got = ends(verdict, alloc, form, reading);
            verdict.expect(got, Ok(reading.ends), "the source");
        }
    }
}

// ---- writing

/// How much a sink takes at once, and the calls at which it fails; the bytes of an encrypted keyset that is written
/// after the keyset; and what the sink has taken: so many bytes of the first form, and the other.
pub struct Writing {
    pub name: &'static str,
    pub piece: usize,
    pub fails: &'static [u32],
    pub encrypted: &'static [u8],
    pub want: Answer,
    pub first: &'static [u8],
    pub size: usize,
    pub other: &'static [u8],
}

// A sink with room for both forms that fails at these calls.
fn sink(alloc: Global, writing: &Writing) -> Result<MemSink, TinkError> {
    let fails = Vec::from_slice(alloc, writing.fails)?;
    let mut sink = MemSink::new(alloc, writing.piece, fails);
    sink.reserve(alloc, 500)?;
    Ok(sink)
}

/// Writes a keyset.
pub fn put<W: Writer>(
    alloc: Global,
    writer: &mut W,
    ks: Result<Keyset, TinkError>,
) -> Result<(), TinkError> {
    match ks {
        Ok(ks) => writer.write(alloc, &ks),
        Err(e) => Err(e),
    }
}

/// Writes an encrypted keyset of these bytes, without info.
pub fn put_encrypted<W: Writer>(
    alloc: Global,
    writer: &mut W,
    bytes: &[u8],
) -> Result<(), TinkError> {
    let ks = EncryptedKeyset {
        encrypted_keyset: Bytes::from_slice(alloc, bytes)?,
        keyset_info: None,
    };
    writer.write_encrypted(alloc, &ks)
}

// Writes the keyset, and then an encrypted one.
fn write<W: Writer>(alloc: Global, writer: &mut W, writing: &Writing) -> Result<(), TinkError> {
    match put(alloc, writer, stream_keyset(alloc)) {
        Ok(()) => put_encrypted(alloc, writer, writing.encrypted),
        Err(e) => Err(e),
    }
}

// The answer, where the sink has taken what the row says.
fn answer_if_written(
    answer: Result<(), TinkError>,
    sink: &MemSink,
    writing: &Writing,
) -> Result<bool, TinkError> {
    let bytes = sink.bytes();
    let first = &writing.first[..writing.size.min(writing.first.len())];
    let both = bytes.len() == first.len() + writing.other.len();
    if both && bytes.starts_with(first) && bytes.ends_with(writing.other) {
        succeeds(answer)
    } else {
        Ok(false)
    }
}

fn is_written(alloc: Global, form: &Form, writing: &Writing) -> Result<bool, TinkError> {
    let sink = sink(alloc, writing)?;
    match form {
        Form::Binary => {
            let mut writer = BinaryWriter::new(sink);
            let answer = write(alloc, &mut writer, writing);
            answer_if_written(answer, &writer.into_inner(), writing)
        }
        Form::Json => {
            let mut writer = JsonWriter::new(sink);
            let answer = write(alloc, &mut writer, writing);
            answer_if_written(answer, &writer.into_inner(), writing)
        }
    }
}

const WRITINGS: &[(Form, &[Writing])] = &[
    (Form::Binary, binary_tests::WRITINGS),
    (Form::Json, json_tests::WRITINGS),
];

pub fn keysets_are_written_in_pieces_or_refused(alloc: Global, verdict: &mut Verdict) {
    for (form, writings) in WRITINGS {
        for writing in *writings {
            let got = is_written(alloc, form, writing);
            verdict.expect(got, writing.want, writing.name);
        }
    }
}
