//! Keysets under an AES-GCM master key, over memory and over ends in the wire format and in JSON.

use std::alloc::Global;
use test_util::{Answer, Ask, Verdict, ask_made, bytes_of, draws_of, gives, handle};
use tink_aead::subtle::AesGcm;
use tink_core::keyset::{Handle, MemReaderWriter, Reader, Writer};
use tink_core::{Kind, MemSink, MemSource, TinkError};
use tink_keyset_io::{BinaryReader, BinaryWriter, JsonReader, JsonWriter};
use tink_proto::wire::Message;
use tink_proto::{EncryptedKeyset, KeysetInfo};

// A keyset of one raw key for streams.
const KEYSET: &[u8] =
    b"\x08\x84\x86\x88\x08\x12\x6f\x0a\x64\x0a\x3dtype.googleapis.com/google.crypto.tink.AesCtrHmacStreamingKey\x12\x21\x12\x0d\x08\x80\x20\x10\x10\x18\x03\x22\x04\x08\x03\x10\x20\x1a\x10\x00\x01\x02\x03\x04\x05\x06\x07\x08\x09\x0a\x0b\x0c\x0d\x0e\x0f\x18\x01\x10\x01\x18\x84\x86\x88\x08\x20\x03";

// Its info: the primary id, and of its one key the URL, status 1, that id, and prefix 3.
const INFO: &[u8] =
    b"\x08\x84\x86\x88\x08\x12\x48\x0a\x3dtype.googleapis.com/google.crypto.tink.AesCtrHmacStreamingKey\x10\x01\x18\x84\x86\x88\x08\x20\x03";

// The keyset under a master key of sixteen bytes 9, by twelve draws of 7, as pyca/cryptography 48 gives it.
const ENCRYPTED: &[u8] =
    b"\x07\x07\x07\x07\x07\x07\x07\x07\x07\x07\x07\x07\x9f\xe8\xd6\x73\x68\x91\x52\x25\x40\x28\x7e\xf0\xae\xb2\x9d\xc6\x81\x1e\x09\xe1\xce\xd4\x8a\x32\xd1\x8b\xe9\x3d\xe8\x51\xd6\xf9\x09\x56\x7f\xd3\xd8\x74\x55\xa0\x12\xaf\x01\x47\xcc\xa6\xa3\xf3\xda\x1b\x92\xd8\x81\x74\x97\xa7\xc4\x24\x81\x1e\x95\x82\xb2\x93\x5a\x43\x3c\x22\xef\xc6\x39\x6c\xd1\x40\x05\x81\xd3\x46\x3f\xab\xf8\x40\xb1\x31\xa0\x49\xcb\xdc\x6a\x12\x7f\xcb\x18\x3a\x8c\x51\xbc\x25\x82\x4a\x1b\xe5\xc3\xad\xd7\x66\xc5\x57\x47\xdc\x58\x6c\x91\xf2\xb3\x05\x64\xb0\x58\x5a\x82\x5d\x34\x17\x9d\x8b\xda\x0c\xe8\xe8\xfe\xc5\xcd\xf9";

// The master key and the keyset.
#[derive(Drop)]
struct Kept {
    master: AesGcm,
    h: Handle,
}

fn is_info(alloc: Global, info: &KeysetInfo) -> Result<bool, TinkError> {
    match info.encode(alloc) {
        Ok(bytes) => Ok(bytes.as_slice() == INFO),
        Err(_) => Err(TinkError::new(Kind::OutOfMemory)),
    }
}

fn has_info(alloc: Global, info: Result<KeysetInfo, TinkError>) -> Result<bool, TinkError> {
    match info {
        Ok(info) => is_info(alloc, &info),
        Err(e) => Err(e),
    }
}

fn is_the_keyset(alloc: Global, h: &Handle) -> Result<bool, TinkError> {
    match has_info(alloc, h.keyset_info(alloc)) {
        Ok(true) => gives(bytes_of(alloc, h), KEYSET),
        other => other,
    }
}

// Whether it is a handle of the keyset, with its info.
fn is_of_the_keyset(alloc: Global, read: Result<Handle, TinkError>) -> Result<bool, TinkError> {
    match read {
        Ok(h) => is_the_keyset(alloc, &h),
        Err(e) => Err(e),
    }
}

// Writes the keyset under the master key, by twelve draws of 7, with this data where there are some.
fn write<W: Writer>(
    alloc: Global,
    writer: &mut W,
    master: &AesGcm,
    h: &Handle,
    data: Option<&[u8]>,
) -> Result<(), TinkError> {
    match draws_of(alloc, &[7; 12]) {
        Ok(mut draws) => match data {
            Some(data) => { h.write_with_associated_data(alloc, writer, master, data, &mut draws) }
            None => h.write(alloc, writer, master, &mut draws),
        },
        Err(e) => Err(e),
    }
}

// Whether the keyset is read under the master key, with this data where there are some.
fn is_read<R: Reader>(
    alloc: Global,
    reader: &mut R,
    master: &AesGcm,
    data: Option<&[u8]>,
) -> Result<bool, TinkError> {
    let read = match data {
        Some(data) => Handle::read_with_associated_data(alloc, reader, master, data),
        None => Handle::read(alloc, reader, master),
    };
    is_of_the_keyset(alloc, read)
}

// ---- memory

// Whether it is the outside encryption of the keyset, beside its info.
fn is_encrypted(alloc: Global, ends: &Option<EncryptedKeyset>) -> Result<bool, TinkError> {
    let Some(encrypted) = ends else {
        return Ok(false);
    };
    let same = encrypted.encrypted_keyset.as_slice() == ENCRYPTED;
    match &encrypted.keyset_info {
        Some(info) if same => is_info(alloc, info),
        _ => Ok(false),
    }
}

// Whether it is read back from memory, and no keyset lies beside it.
fn is_alone(alloc: Global, ends: &mut MemReaderWriter, master: &AesGcm) -> Result<bool, TinkError> {
    match is_read(alloc, ends, master, None) {
        Ok(read) => Ok(read & ends.keyset.is_none()),
        Err(e) => Err(e),
    }
}

// Whether it is written to memory as that, and read back.
impl Ask<MemReaderWriter> for Kept {
    fn answer(&self, alloc: Global, ends: &mut MemReaderWriter) -> Result<bool, TinkError> {
        match write(alloc, ends, &self.master, &self.h, None) {
            Ok(()) => match is_encrypted(alloc, &ends.encrypted_keyset) {
                Ok(true) => is_alone(alloc, ends, &self.master),
                other => other,
            },
            Err(e) => Err(e),
        }
    }
}

// ---- the wire format and JSON

// The first member, whose bytes are base64.
const JSON: &[u8] =
    b"{\n  \"encryptedKeyset\": \"BwcHBwcHBwcHBwcHn+jWc2iRUiVAKH7wrrKdxoEeCeHO1Ioy0YvpPehR1vkJVn/T2HRVoBKvAUfMpqPz2huS2IF0l6fEJIEelYKyk1pDPCLvxjls0UAFgdNGP6v4QLExoEnL3GoSf8sYOoxRvCWCShvlw63XZsVXR9xYbJHyswVksFhagl00F52L2gzo6P7Fzfk=\",\n  \"keysetInfo\": {";

enum Format {
    Wire,
    Json,
}

// A sink of 50 bytes a call, with room for 600.
fn sink_of(alloc: Global) -> Result<MemSink, TinkError> {
    let mut sink = MemSink::new(alloc, 50, Vec::new(alloc));
    sink.reserve(alloc, 600)?;
    Ok(sink)
}

// What a sink has, where all was written.
fn text_of(told: Result<(), TinkError>, sink: MemSink) -> Result<Vec<u8>, TinkError> {
    match told {
        Ok(()) => Ok(sink.into_bytes()),
        Err(e) => Err(e),
    }
}

fn in_wire(
    alloc: Global,
    sink: MemSink,
    kept: &Kept,
    data: Option<&[u8]>,
) -> Result<Vec<u8>, TinkError> {
    let mut writer = BinaryWriter::new(sink);
    let told = write(alloc, &mut writer, &kept.master, &kept.h, data);
    text_of(told, writer.into_inner())
}

fn in_json(
    alloc: Global,
    sink: MemSink,
    kept: &Kept,
    data: Option<&[u8]>,
) -> Result<Vec<u8>, TinkError> {
    let mut writer = JsonWriter::new(sink);
    let told = write(alloc, &mut writer, &kept.master, &kept.h, data);
    text_of(told, writer.into_inner())
}

fn write_row(alloc: Global, kept: &Kept, row: &Row) -> Result<Vec<u8>, TinkError> {
    match sink_of(alloc) {
        Ok(sink) => match row.format {
            Format::Wire => in_wire(alloc, sink, kept, row.written_with),
            Format::Json => in_json(alloc, sink, kept, row.written_with),
        },
        Err(e) => Err(e),
    }
}

// Whether this text is one of the keyset.
fn is_read_of(alloc: Global, text: Vec<u8>, master: &AesGcm, row: &Row) -> Result<bool, TinkError> {
    let source = MemSource::new(text, 50, Vec::new(alloc));
    match row.format {
        Format::Wire => is_read(alloc, &mut BinaryReader::new(source), master, row.read_with),
        Format::Json => is_read(alloc, &mut JsonReader::new(source), master, row.read_with),
    }
}

// Whether the keyset is written so that its text begins and ends so, and read from it.
fn is_kept_as(alloc: Global, kept: &Kept, row: &Row) -> Result<bool, TinkError> {
    match write_row(alloc, kept, row) {
        Ok(text) => {
            let framed = text.starts_with(row.begins) & text.ends_with(row.ends);
            match is_read_of(alloc, text, &kept.master, row) {
                Ok(read) => Ok(read & framed),
                Err(e) => Err(e),
            }
        }
        Err(e) => Err(e),
    }
}

struct Row {
    format: Format,
    written_with: Option<&'static [u8]>,
    read_with: Option<&'static [u8]>,
    begins: &'static [u8],
    ends: &'static [u8],
}

// How the keyset is kept.
enum Asked {
    Memory,
    Text(Row),
}

impl Ask<Kept> for Asked {
    fn answer(&self, alloc: Global, kept: &mut Kept) -> Result<bool, TinkError> {
        match *self {
            Asked::Memory => ask_made(alloc, Ok(MemReaderWriter::default()), kept),
            Asked::Text(ref row) => is_kept_as(alloc, kept, row),
        }
    }
}

const BEGINS: &[u8] = b"\x12\x92\x01\x07\x07";

const FAILED: Answer = Err(Kind::MasterFailed);

const ROWS: &[(&str, Asked, Answer)] = &[
    ("the encryption and the info", Asked::Memory, Ok(true)),
    (
        "the wire format",
        Asked::Text(Row {
            format: Format::Wire,
            written_with: Some(b""),
            read_with: Some(b""),
            begins: BEGINS,
            ends: INFO,
        }),
        Ok(true),
    ),
    (
        "JSON",
        Asked::Text(Row {
            format: Format::Json,
            written_with: None,
            read_with: None,
            begins: JSON,
            ends: b"",
        }),
        Ok(true),
    ),
    (
        "the same data",
        Asked::Text(Row {
            format: Format::Wire,
            written_with: Some(b"\xaa"),
            read_with: Some(b"\xaa"),
            begins: BEGINS,
            ends: INFO,
        }),
        Ok(true),
    ),
    (
        "other data",
        Asked::Text(Row {
            format: Format::Wire,
            written_with: Some(b"\xaa"),
            read_with: Some(b"\xab"),
            begins: BEGINS,
            ends: INFO,
        }),
        FAILED,
    ),
    (
        "no data",
        Asked::Text(Row {
            format: Format::Wire,
            written_with: Some(b"\xaa"),
            read_with: Some(b""),
            begins: BEGINS,
            ends: INFO,
        }),
        FAILED,
    ),
];

fn master_and_keyset(alloc: Global) -> Result<Kept, TinkError> {
    match handle(alloc, KEYSET) {
        Ok(h) => match AesGcm::new(alloc, &[9; 16]) {
            Ok(master) => Ok(Kept { master, h }),
            Err(e) => Err(e),
        },
        Err(e) => Err(e),
    }
}

pub fn a_keyset_is_kept_in_memory_and_in_a_text(alloc: Global, verdict: &mut Verdict) {
    verdict.walk_made(
        alloc,
        master_and_keyset(alloc),
        "the master key and the keyset",
        ROWS,
    );
}
