//! Files of keys that are made, grown by a key and converted, as bytes.

use crate::saving_tests::{KEYS, MASTER, PROMOTED, ROTATED};
use std::alloc::Global;
use test_util::{Verdict, draws_of};
use tink_cli_files::{added_file, converted_file, new_file, rotated_file};
use tink_io::{Kind, TinkError};
use tink_keyset_io::key_files::Format;
use tink_proto::{Bytes, OutputPrefixType};

// KEYS in JSON, by Python's `json`.
const KEYS_JSON: &[u8] = b"\
    {\n  \
    \"key\": [\n    \
    {\n      \
    \"keyData\": {\n        \
    \"keyMaterialType\": \"SYMMETRIC\",\n        \
    \"typeUrl\": \"type.googleapis.com/google.crypto.tink.AesGcmKey\",\n        \
    \"value\": \"GhBmZWRjYmE5ODc2NTQzMjEw\"\n      \
    },\n      \
    \"keyId\": 1499027801,\n      \
    \"outputPrefixType\": \"RAW\",\n      \
    \"status\": \"ENABLED\"\n    \
    }\n  \
    ],\n  \
    \"primaryKeyId\": 1499027801\n\
    }";

// What is made: of a template's name, a file and random bytes.
enum Made {
    New(&'static [u8], Option<OutputPrefixType>, &'static [u8]),
    Rotated(&'static [u8], &'static [u8], bool, &'static [u8]),
    Added(&'static [u8], &'static [u8], &'static [u8]),
    Converted(&'static [u8], Format),
}

const RANDOM: &[u8] = b"0123456789abcdefYYYYZZZZ";

const MACS: &[u8] = b"HMAC_SHA256_128BITTAG";

const ROWS: &[(&str, Made, Result<&[u8], Kind>)] = &[
    (
        "new",
        Made::New(b"AES128_GCM", None, b"0123456789abcdefMMMM"),
        Ok(MASTER),
    ),
    (
        "new with another prefix",
        Made::New(
            b"AES128_GCM",
            Some(OutputPrefixType::Raw),
            b"fedcba9876543210YYYY",
        ),
        Ok(KEYS),
    ),
    (
        "a name that is no UTF-8",
        Made::New(b"AES128_GCM\xff", None, RANDOM),
        Err(Kind::UnknownTemplate),
    ),
    (
        "rotated",
        Made::Rotated(KEYS, b"AES128_GCM", false, RANDOM),
        Ok(ROTATED),
    ),
    (
        "rotated to any",
        Made::Rotated(KEYS, b"AES128_GCM", true, RANDOM),
        Ok(ROTATED),
    ),
    (
        "rotated to MACs",
        Made::Rotated(KEYS, MACS, false, RANDOM),
        Err(Kind::WrongPrimitive),
    ),
    (
        "rotated to MACs with few random bytes",
        Made::Rotated(KEYS, MACS, true, RANDOM),
        Err(Kind::RandomFault),
    ),
    (
        "added",
        Made::Added(KEYS, b"AES128_GCM", RANDOM),
        Ok(PROMOTED),
    ),
    (
        "added to none",
        Made::Added(b"{", b"AES128_GCM", RANDOM),
        Err(Kind::BadJson),
    ),
    (
        "to JSON",
        Made::Converted(KEYS, Format::Json),
        Ok(KEYS_JSON),
    ),
    (
        "from JSON",
        Made::Converted(KEYS_JSON, Format::Binary),
        Ok(KEYS),
    ),
    (
        "converted without a key",
        Made::Converted(b"{}", Format::Binary),
        Err(Kind::InvalidKeyset),
    ),
];

// The file that is made.
fn file_of(alloc: Global, made: &Made) -> Result<Bytes, TinkError> {
    match *made {
        Made::New(template, prefix, random) => {
            let mut draws = draws_of(alloc, random)?;
            new_file(alloc, template, prefix, Format::Binary, &mut draws)
        }
        Made::Rotated(file, template, to_any, random) => {
            let mut draws = draws_of(alloc, random)?;
            let file = Vec::from_slice(alloc, file)?;
            rotated_file(alloc, file, template, to_any, &mut draws)
        }
        Made::Added(file, template, random) => {
            let mut draws = draws_of(alloc, random)?;
            let file = Vec::from_slice(alloc, file)?;
            added_file(alloc, file, template, &mut draws)
        }
        Made::Converted(file, format) => {
            converted_file(alloc, Vec::from_slice(alloc, file)?, format)
        }
    }
}

// Whether it is the wanted one, or is refused so.
fn is_made(alloc: Global, made: &Made, want: Result<&[u8], Kind>) -> bool {
    match (file_of(alloc, made), want) {
        (Ok(file), Ok(want)) => file.as_slice() == want,
        (Err(e), Err(kind)) => e.kind == kind,
        _ => false,
    }
}

pub fn files_of_keys_are_made_to_the_byte(alloc: Global, verdict: &mut Verdict) {
    for row in ROWS {
        verdict.expect(Ok(is_made(alloc, &row.1, row.2)), Ok(true), row.0);
    }
}
