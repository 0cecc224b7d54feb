//! The rows.

use crate::asked::{Asked, BY_GCM, Reading, Sealing, WHOLE, answer_row};
use crate::keysets::{Keys, LEGACY, RAW, TINK, aeads_of};
use crate::one_of::Streams;
use crate::streams::{AT_ONCE, DROPPED, PIECES};
use std::alloc::Global;
use test_util::{Answer, Ask, Verdict};
use tink_io::{Cause, Kind, TinkError};
use tink_proto::OutputPrefixType;
use tink_registry::Registry;
use tink_streaming_aead::init;

const GCM: Keys = Keys::Named("AES128_GCM_HKDF_4KB", OutputPrefixType::Raw);

const CTR: Keys = Keys::Named("AES128_CTR_HMAC_SHA256_4KB", OutputPrefixType::Raw);

// What is asked of the keys of a keyset.
struct Of(Keys, Asked);

impl Ask<Registry<Streams>> for Of {
    fn answer(&self, alloc: Global, registry: &mut Registry<Streams>) -> Result<bool, TinkError> {
        match aeads_of(alloc, registry, &self.0) {
            Ok(aeads) => answer_row(alloc, &aeads, &self.1),
            Err(e) => Err(e),
        }
    }
}

// No key opens a stream.
const NOTHING: Reading = Reading {
    changed: usize::MAX,
    fails: 0,
    bytes: 0,
    refused: Some(Kind::NoMatchingKey),
    again: Some(Kind::FailedBefore(Cause::NoMatchingKey)),
    segments: 0,
};

// All so many bytes of a text are read, in so many segments.
macro_rules! all {
    ($bytes:literal, $segments:literal) => {
        Reading {
            changed: usize::MAX,
            fails: 0,
            bytes: $bytes,
            refused: None,
            again: None,
            segments: $segments,
        }
    };
}

// That Python's text is sealed to the prefix and Python's stream, of so many bytes together.
macro_rules! seals_to {
    ($prefix:literal, $length:literal) => {
        Asked::SealsTo(Sealing {
            way: AT_ONCE,
            front: $prefix,
            length: $length,
            closed: $length,
            reading: WHOLE,
        })
    };
}

// That a new key of a template, with a prefix of this type, seals 60 bytes of text to so many, which begin with the prefix
// and the length of the header.
macro_rules! new_key {
    ($name:literal, $prefix:ident, $length:literal, $front:literal) => {
        (
            $name,
            Of(
                Keys::Named($name, OutputPrefixType::$prefix),
                Asked::Seals(
                    60,
                    Sealing {
                        way: PIECES,
                        front: $front,
                        length: $length,
                        closed: $length,
                        reading: all!(60, 1),
                    },
                ),
            ),
            Ok(true),
        )
    };
}

const ROWS: &[(&str, Of, Answer)] = &[
    // 8,205 bytes of text in three segments: 4,056, 4,080 and 69.
    (
        "a handle seals in pieces of ten",
        Of(
            GCM,
            Asked::Seals(
                8205,
                Sealing {
                    way: PIECES,
                    front: b"\x18",
                    length: 8277,
                    closed: 8277,
                    reading: all!(8205, 3),
                },
            ),
        ),
        Ok(true),
    ),
    // Of 4,041 bytes of text 4,040 are in the first segment, which is not marked.
    (
        "a dropped writer leaves no marked segment",
        Of(
            CTR,
            Asked::Seals(
                4041,
                Sealing {
                    way: DROPPED,
                    front: b"\x18",
                    length: 4096,
                    closed: 4129,
                    reading: NOTHING,
                },
            ),
        ),
        Ok(true),
    ),
    (
        "the first key that agrees opens",
        Of(RAW, Asked::Reads(BY_GCM, WHOLE)),
        Ok(true),
    ),
    (
        "a stream without a prefix",
        Of(RAW, seals_to!(b"", 132)),
        Ok(true),
    ),
    (
        "a TINK stream",
        Of(TINK, seals_to!(b"\x01\0\0\0\x03", 137)),
        Ok(true),
    ),
    (
        "a LEGACY stream",
        Of(LEGACY, seals_to!(b"\0\0\0\0\x03", 137)),
        Ok(true),
    ),
    (
        "a whole stream",
        Of(RAW, Asked::Reads(BY_GCM, WHOLE)),
        Ok(true),
    ),
    (
        "a TINK stream without its prefix",
        Of(TINK, Asked::Reads(BY_GCM, NOTHING)),
        Ok(true),
    ),
    (
        "a LEGACY stream without its prefix",
        Of(LEGACY, Asked::Reads(BY_GCM, NOTHING)),
        Ok(true),
    ),
    ("no stream", Of(RAW, Asked::Reads(b"", NOTHING)), Ok(true)),
    (
        "a header alone",
        Of(RAW, Asked::Reads(HEADER, NOTHING)),
        Ok(true),
    ),
    (
        "another salt",
        Of(RAW, Asked::Reads(&[24; 100], NOTHING)),
        Ok(true),
    ),
    (
        "no length of a header",
        Of(RAW, Asked::Reads(&[25; 100], NOTHING)),
        Ok(true),
    ),
    (
        "a source that fails in the choice is no want of a key",
        Of(
            RAW,
            Asked::Reads(
                BY_GCM,
                Reading {
                    changed: usize::MAX,
                    fails: 2,
                    bytes: 0,
                    refused: Some(Kind::ReadFault),
                    again: Some(Kind::FailedBefore(Cause::ReadFault)),
                    segments: 0,
                },
            ),
        ),
        Ok(true),
    ),
    (
        "a damaged segment goes to no other key",
        Of(
            RAW,
            Asked::Reads(
                BY_GCM,
                Reading {
                    changed: 60,
                    fails: 0,
                    bytes: 10,
                    refused: Some(Kind::BadSegment(1)),
                    again: Some(Kind::FailedBefore(Cause::BadSegment(1))),
                    segments: 1,
                },
            ),
        ),
        Ok(true),
    ),
];

const HEADER: &[u8; 24] =
    b"\x18\x40\x41\x42\x43\x44\x45\x46\x47\x48\x49\x4a\x4b\x4c\x4d\x4e\x4f\x50\x51\x52\x53\x54\x55\x56";

// Each template with a prefix of each type, where the id is drawn as sevens, of 60 bytes of text. The stream has the
// prefix, the header, the text and a tag. Its header begins with its own length.
const NEW_KEYS: &[(&str, Of, Answer)] = &[
    new_key!(
        "AES128_CTR_HMAC_SHA256_4KB",
        Tink,
        121,
        b"\x01\x07\x07\x07\x07\x18"
    ),
    new_key!(
        "AES128_CTR_HMAC_SHA256_4KB",
        Legacy,
        121,
        b"\0\x07\x07\x07\x07\x18"
    ),
    new_key!(
        "AES128_CTR_HMAC_SHA256_4KB",
        Crunchy,
        121,
        b"\0\x07\x07\x07\x07\x18"
    ),
    new_key!("AES128_CTR_HMAC_SHA256_4KB", Raw, 116, b"\x18"),
    new_key!(
        "AES128_CTR_HMAC_SHA256_1MB",
        Tink,
        121,
        b"\x01\x07\x07\x07\x07\x18"
    ),
    new_key!(
        "AES128_CTR_HMAC_SHA256_1MB",
        Legacy,
        121,
        b"\0\x07\x07\x07\x07\x18"
    ),
    new_key!(
        "AES128_CTR_HMAC_SHA256_1MB",
        Crunchy,
        121,
        b"\0\x07\x07\x07\x07\x18"
    ),
    new_key!("AES128_CTR_HMAC_SHA256_1MB", Raw, 116, b"\x18"),
    new_key!(
        "AES256_CTR_HMAC_SHA256_4KB",
        Tink,
        137,
        b"\x01\x07\x07\x07\x07\x28"
    ),
    new_key!(
        "AES256_CTR_HMAC_SHA256_4KB",
        Legacy,
        137,
        b"\0\x07\x07\x07\x07\x28"
    ),
    new_key!(
        "AES256_CTR_HMAC_SHA256_4KB",
        Crunchy,
        137,
        b"\0\x07\x07\x07\x07\x28"
    ),
    new_key!("AES256_CTR_HMAC_SHA256_4KB", Raw, 132, b"\x28"),
    new_key!(
        "AES256_CTR_HMAC_SHA256_1MB",
        Tink,
        137,
        b"\x01\x07\x07\x07\x07\x28"
    ),
    new_key!(
        "AES256_CTR_HMAC_SHA256_1MB",
        Legacy,
        137,
        b"\0\x07\x07\x07\x07\x28"
    ),
    new_key!(
        "AES256_CTR_HMAC_SHA256_1MB",
        Crunchy,
        137,
        b"\0\x07\x07\x07\x07\x28"
    ),
    new_key!("AES256_CTR_HMAC_SHA256_1MB", Raw, 132, b"\x28"),
    new_key!(
        "AES128_GCM_HKDF_4KB",
        Tink,
        105,
        b"\x01\x07\x07\x07\x07\x18"
    ),
    new_key!(
        "AES128_GCM_HKDF_4KB",
        Legacy,
        105,
        b"\0\x07\x07\x07\x07\x18"
    ),
    new_key!(
        "AES128_GCM_HKDF_4KB",
        Crunchy,
        105,
        b"\0\x07\x07\x07\x07\x18"
    ),
    new_key!("AES128_GCM_HKDF_4KB", Raw, 100, b"\x18"),
    new_key!(
        "AES128_GCM_HKDF_1MB",
        Tink,
        105,
        b"\x01\x07\x07\x07\x07\x18"
    ),
    new_key!(
        "AES128_GCM_HKDF_1MB",
        Legacy,
        105,
        b"\0\x07\x07\x07\x07\x18"
    ),
    new_key!(
        "AES128_GCM_HKDF_1MB",
        Crunchy,
        105,
        b"\0\x07\x07\x07\x07\x18"
    ),
    new_key!("AES128_GCM_HKDF_1MB", Raw, 100, b"\x18"),
    new_key!(
        "AES256_GCM_HKDF_4KB",
        Tink,
        121,
        b"\x01\x07\x07\x07\x07\x28"
    ),
    new_key!(
        "AES256_GCM_HKDF_4KB",
        Legacy,
        121,
        b"\0\x07\x07\x07\x07\x28"
    ),
    new_key!(
        "AES256_GCM_HKDF_4KB",
        Crunchy,
        121,
        b"\0\x07\x07\x07\x07\x28"
    ),
    new_key!("AES256_GCM_HKDF_4KB", Raw, 116, b"\x28"),
    new_key!(
        "AES256_GCM_HKDF_1MB",
        Tink,
        121,
        b"\x01\x07\x07\x07\x07\x28"
    ),
    new_key!(
        "AES256_GCM_HKDF_1MB",
        Legacy,
        121,
        b"\0\x07\x07\x07\x07\x28"
    ),
    new_key!(
        "AES256_GCM_HKDF_1MB",
        Crunchy,
        121,
        b"\0\x07\x07\x07\x07\x28"
    ),
    new_key!("AES256_GCM_HKDF_1MB", Raw, 116, b"\x28"),
];

// The registry of both managers and their templates.
fn registry(alloc: Global) -> Result<Registry<Streams>, TinkError> {
    let mut registry = Registry::new(alloc);
    match init(alloc, &mut registry) {
        Ok(()) => Ok(registry),
        Err(e) => Err(e),
    }
}

fn new_keys(alloc: Global, verdict: &mut Verdict) {
    verdict.walk_made(alloc, registry(alloc), "the registry", NEW_KEYS);
}

pub fn rows(alloc: Global, verdict: &mut Verdict) {
    verdict.walk_made(alloc, registry(alloc), "the registry", ROWS);
    new_keys(alloc, verdict);
}
