ghost use Rattle.tink_io.specs.Answering.{Answers};
ghost use Rattle.tink_keyset_io.specs.Edited.{edited_file};
ghost use Rattle.tink_keyset_io.specs.declared.key_files.editing.Edit.TheVariants.{Disable};

use std::alloc::Global;
use test_util::{Answer, Verdict, gives};
use tink_io::{Kind, TinkError};
use tink_keyset_io::key_files::{Edit, Format, edited_file, list, wire_bytes};
use tink_proto::Bytes;

// A public keyset of two keys in JSON, of which the second is disabled.
const KEYS: &[u8] = b" {\"primaryKeyId\": 7, \"key\": [
 {\"keyData\": {\"typeUrl\": \"type.googleapis.com/google.crypto.tink.AesGcmHkdfStreamingKey\", \"value\": \"AAEC\",
 \"keyMaterialType\": \"SYMMETRIC\"}, \"status\": \"ENABLED\", \"keyId\": 7, \"outputPrefixType\": \"RAW\"},
 {\"keyData\": {\"typeUrl\": \"other\\u001bkey\", \"value\": \"AAEC\", \"keyMaterialType\": \"SYMMETRIC\"},
 \"status\": \"DISABLED\", \"keyId\": 8, \"outputPrefixType\": \"TINK\"}]}";

const LINES: &[u8] =
    b"7\tenabled\tRAW\tAesGcmHkdfStreamingKey\tprimary\n8\tdisabled\tTINK\tother?key\n";

const ENABLED: &[u8] =
    b"7\tenabled\tRAW\tAesGcmHkdfStreamingKey\tprimary\n8\tenabled\tTINK\tother?key\n";

// The same keys, of which none is the primary one.
const UNPROMOTED: &[u8] = b" {\"primaryKeyId\": 9, \"key\": [
 {\"keyData\": {\"typeUrl\": \"type.googleapis.com/google.crypto.tink.AesGcmHkdfStreamingKey\", \"value\": \"AAEC\",
 \"keyMaterialType\": \"SYMMETRIC\"}, \"status\": \"ENABLED\", \"keyId\": 7, \"outputPrefixType\": \"RAW\"},
 {\"keyData\": {\"typeUrl\": \"other\\u001bkey\", \"value\": \"AAEC\", \"keyMaterialType\": \"SYMMETRIC\"},
 \"status\": \"DISABLED\", \"keyId\": 8, \"outputPrefixType\": \"TINK\"}]}";

// The first key, and a destroyed one without data.
const DESTROYED: &[u8] = b"{\"primaryKeyId\": 7, \"key\": [
 {\"keyData\": {\"typeUrl\": \"type.googleapis.com/google.crypto.tink.AesGcmHkdfStreamingKey\", \"value\": \"AAEC\",
 \"keyMaterialType\": \"SYMMETRIC\"}, \"status\": \"ENABLED\", \"keyId\": 7, \"outputPrefixType\": \"RAW\"},
 {\"status\": \"DESTROYED\", \"keyId\": 8, \"outputPrefixType\": \"TINK\"}]}";

const DESTROYED_LINES: &[u8] =
    b"7\tenabled\tRAW\tAesGcmHkdfStreamingKey\tprimary\n8\tdestroyed\tTINK\t-\n";

// The file with the first key of an id disabled, in the format that it has.
fn disable_in_file(alloc: Global, file: Vec<u8>, id: u32) -> Result<Bytes, TinkError>
    ensures { Answers result (edited_file file.items Disable id) }
{
    edited_file(alloc, file, Edit::Disable, id)
}

// Whether the keys of a file are these.
fn lists(alloc: Global, file: Vec<u8>, lines: &[u8]) -> Result<bool, TinkError> {
    match wire_bytes(alloc, file) {
        Ok(keyset) => gives(list(alloc, keyset.as_slice()), lines),
        Err(e) => Err(e),
    }
}

fn edit_of(alloc: Global, file: Vec<u8>, edit: Edit, id: u32) -> Result<Bytes, TinkError> {
    match edit {
        Edit::Disable => disable_in_file(alloc, file, id),
        _ => edited_file(alloc, file, edit, id),
    }
}

// Whether a file is in JSON and lists these keys.
fn lists_json(
    alloc: Global,
    file: Result<Bytes, TinkError>,
    lines: &[u8],
) -> Result<bool, TinkError> {
    match file {
        Ok(bytes) => {
            if Format::of_file(bytes.as_slice()) == Format::Json {
                Ok(lists(alloc, bytes.into_vec(), lines) == Ok(true))
            } else {
                Ok(false)
            }
        }
        Err(e) => Err(e),
    }
}

// Whether a file lists these keys, which after an edit of the key of an id is in JSON, or how the edit is refused.
fn answer_row(
    alloc: Global,
    file: Vec<u8>,
    edit: &Option<(Edit, u32)>,
    lines: &[u8],
) -> Result<bool, TinkError> {
    match edit {
        Some((edit, id)) => lists_json(alloc, edit_of(alloc, file, *edit, *id), lines),
        None => lists(alloc, file, lines),
    }
}

// A file, an edit, and the keys after it.
const FILES: &[(&str, &[u8], Option<(Edit, u32)>, &[u8], Answer)] = &[
    ("the keys", KEYS, None, LINES, Ok(true)),
    (
        "a destroyed key",
        DESTROYED,
        None,
        DESTROYED_LINES,
        Ok(true),
    ),
    (
        "the keys after an edit",
        KEYS,
        Some((Edit::Enable, 8)),
        ENABLED,
        Ok(true),
    ),
    (
        "the primary key disabled",
        KEYS,
        Some((Edit::Disable, 7)),
        b"",
        Err(Kind::IsPrimary),
    ),
    (
        "no key deleted",
        KEYS,
        Some((Edit::Delete, 9)),
        b"",
        Err(Kind::KeyNotFound),
    ),
    (
        "a disabled key as primary",
        KEYS,
        Some((Edit::Promote, 8)),
        b"",
        Err(Kind::NotEnabled),
    ),
    (
        "a primary key again",
        UNPROMOTED,
        Some((Edit::Promote, 7)),
        LINES,
        Ok(true),
    ),
    (
        "no primary key after an edit",
        UNPROMOTED,
        Some((Edit::Enable, 8)),
        b"",
        Err(Kind::InvalidKeyset),
    ),
    (
        "no primary key before an edit",
        UNPROMOTED,
        Some((Edit::Delete, 8)),
        b"",
        Err(Kind::InvalidKeyset),
    ),
    (
        "no keyset in JSON",
        b"{\"key\": 1}",
        Some((Edit::Enable, 8)),
        b"",
        Err(Kind::BadJson),
    ),
    (
        "no keyset",
        b"no keyset",
        Some((Edit::Enable, 8)),
        b"",
        Err(Kind::BadKeyset),
    ),
];

pub fn files_of_keys_are_listed_and_edited(alloc: Global, verdict: &mut Verdict) {
    for (row, file, edit, lines, want) in FILES {
        let got = match Vec::from_slice(alloc, file) {
            Ok(file) => answer_row(alloc, file, edit, lines),
            Err(_) => Err(TinkError::new(Kind::OutOfMemory)),
        };
        verdict.expect(got, *want, row);
    }
}

// What a file begins with, what comes after it so many times, and whether the file is taken.
const LARGE: &[(&str, &[u8], &[u8], usize, Answer)] = &[
    ("65,536 keys", b"", b"\x12\x00", 65536, Ok(true)),
    (
        "65,537 keys",
        b"",
        b"\x12\x00",
        65537,
        Err(Kind::KeysetTooLong),
    ),
    (
        "room for 1,048,576 values",
        b"{",
        b",",
        1048575,
        Err(Kind::BadJson),
    ),
    (
        "room for 1,048,577 values",
        b"{",
        b",",
        1048576,
        Err(Kind::KeysetTooLong),
    ),
];

// The file of a row.
fn large_file(
    alloc: Global,
    start: &[u8],
    piece: &[u8],
    times: usize,
) -> Result<Vec<u8>, TinkError> {
    let mut file = Vec::from_slice(alloc, start)?;
    for _ in 0..times {
        file.extend_from_slice(piece)?;
    }
    Ok(file)
}

fn is_taken(alloc: Global, file: Result<Vec<u8>, TinkError>) -> Result<bool, TinkError> {
    match file {
        Ok(file) => wire_bytes(alloc, file).map(|_| true),
        Err(e) => Err(e),
    }
}

pub fn large_files_of_keys_are_refused(alloc: Global, verdict: &mut Verdict) {
    for (row, start, piece, times, want) in LARGE {
        let got = is_taken(alloc, large_file(alloc, start, piece, *times));
        verdict.expect(got, *want, row);
    }
}
