//! The ciphers of a stream's segments, which a key gives by the stream's header.

use crate::streams::{BY_GCM, IN_COUNTER_MODE, TEXT, key_of};
use std::alloc::Global;
use tink_io::{Kind, TinkError};
use tink_proto::{Bytes, HashType};
use tink_streaming_ciphers::StreamSegment;
use tink_streaming_segment::{SegmentDecrypter, SegmentEncrypter};

// The header of both streams, and the same with another salt, with another first byte, and longer.
const HEADER: &[u8] =
    b"\x18\x40\x41\x42\x43\x44\x45\x46\x47\x48\x49\x4a\x4b\x4c\x4d\x4e\x4f\x50\x51\x52\x53\x54\x55\x56";

const OTHER_SALT: &[u8] =
    b"\x18\x40\x41\x42\x43\x44\x45\x46\x47\x48\x49\x4a\x4b\x4c\x4d\x4e\x4e\x50\x51\x52\x53\x54\x55\x56";

const OTHER_MARK: &[u8] =
    b"\x28\x40\x41\x42\x43\x44\x45\x46\x47\x48\x49\x4a\x4b\x4c\x4d\x4e\x4f\x50\x51\x52\x53\x54\x55\x56";

const LONGER: &[u8] =
    b"\x18\x40\x41\x42\x43\x44\x45\x46\x47\x48\x49\x4a\x4b\x4c\x4d\x4e\x4f\x50\x51\x52\x53\x54\x55\x56\x57";

// A segment: its number, where it stands in its stream, and where its text stands in the text.
type Place = (u8, usize, usize, usize, usize);

const PLACES_IN_COUNTER_MODE: [Place; 3] = [
    (0, 24, 50, 0, 16),
    (1, 50, 100, 16, 56),
    (2, 100, 114, 56, 60),
];

const PLACES_BY_GCM: [Place; 3] = [
    (0, 24, 50, 0, 10),
    (1, 50, 100, 10, 44),
    (2, 100, 132, 44, 60),
];

// What is asked of a cipher: that it opens the stream's segments to the texts, or that it makes them.
#[derive(Clone, Copy)]
enum Asked {
    Opens,
    Makes,
}

/// The segment of at most 60 bytes of text.
pub fn encrypt_short(
    alloc: Global,
    cipher: &StreamSegment,
    text: &[u8],
    nonce: &[u8; 16],
) -> Result<Bytes, TinkError> {
    let text = &text[..text.len().min(60)];
    match cipher {
        StreamSegment::CtrHmac(cipher) => cipher.encrypt_segment(alloc, text, nonce),
        StreamSegment::Gcm(cipher) => cipher.encrypt_segment(alloc, text, &nonce[..12]),
    }
}

/// The text of at most 60 bytes of a segment.
pub fn decrypt_short(
    alloc: Global,
    cipher: &StreamSegment,
    segment: &[u8],
    nonce: &[u8; 16],
) -> Result<Bytes, TinkError> {
    let segment = &segment[..segment.len().min(60)];
    match cipher {
        StreamSegment::CtrHmac(cipher) => cipher.decrypt_segment(alloc, segment, nonce),
        StreamSegment::Gcm(cipher) => cipher.decrypt_segment(alloc, segment, &nonce[..12]),
    }
}

/// Whether these are the bytes, or how they are refused.
pub fn is(told: Result<Bytes, TinkError>, want: &[u8]) -> Result<bool, TinkError> {
    match told {
        Ok(bytes) => Ok(bytes.as_slice() == want),
        Err(e) => Err(e),
    }
}

// Whether a cipher does what is asked at one segment. The nonce is the header's prefix, the number, the mark of the last
// segment, and zeros.
fn does_at(
    alloc: Global,
    cipher: &StreamSegment,
    asked: Asked,
    stream: &[u8],
    place: &Place,
) -> Result<bool, TinkError> {
    let (number, from, to, text_from, text_to) = *place;
    let segment = stream.get(from..to).unwrap_or(&[]);
    let text = TEXT.get(text_from..text_to).unwrap_or(&[]);
    let mark = number / 2;
    let nonce = [
        80, 81, 82, 83, 84, 85, 86, 0, 0, 0, number, mark, 0, 0, 0, 0,
    ];
    match asked {
        Asked::Opens => is(decrypt_short(alloc, cipher, segment, &nonce), text),
        Asked::Makes => is(encrypt_short(alloc, cipher, text, &nonce), segment),
    }
}

// The same at each segment of a stream.
fn does(
    alloc: Global,
    cipher: &StreamSegment,
    asked: Asked,
    stream: &[u8],
    places: &[Place; 3],
) -> Result<bool, TinkError> {
    for place in places {
        if !does_at(alloc, cipher, asked, stream, place)? {
            return Ok(false);
        }
    }
    Ok(true)
}

// The cipher that a key gives by a header.
fn cipher_of(
    alloc: Global,
    asked: Asked,
    in_counter_mode: bool,
    hkdf_alg: HashType,
    header: &[u8],
    aad: &[u8],
) -> Result<StreamSegment, TinkError> {
    let key = key_of(alloc, in_counter_mode, hkdf_alg, 50)?;
    match asked {
        Asked::Opens => key.decrypter(header, aad),
        Asked::Makes => key.encrypter(header, aad),
    }
}

// What is asked, of which kind of key, with which hash of HKDF, by which header, with which associated data; whether it
// is so, or by what it is refused.
type Row = (
    &'static str,
    Asked,
    bool,
    HashType,
    &'static [u8],
    &'static [u8],
    Result<bool, Kind>,
);

use Asked::{Makes, Opens};
use HashType::{Sha224, Sha256, UnknownHash};
use test_util::Verdict;

const ROWS: &[Row] = &[
    ("ctr opens", Opens, true, Sha256, HEADER, b"data", Ok(true)),
    ("ctr makes", Makes, true, Sha256, HEADER, b"data", Ok(true)),
    ("gcm opens", Opens, false, Sha256, HEADER, b"data", Ok(true)),
    ("gcm makes", Makes, false, Sha256, HEADER, b"data", Ok(true)),
    // other associated data, and another salt
    (
        "data, ctr",
        Opens,
        true,
        Sha256,
        HEADER,
        b"date",
        Err(Kind::DecryptFailed),
    ),
    ("data, gcm", Makes, false, Sha256, HEADER, b"", Ok(false)),
    (
        "salt, ctr",
        Makes,
        true,
        Sha256,
        OTHER_SALT,
        b"data",
        Ok(false),
    ),
    (
        "salt, gcm",
        Opens,
        false,
        Sha256,
        OTHER_SALT,
        b"data",
        Err(Kind::DecryptFailed),
    ),
    // no header of the key: by its length, or by its first byte
    (
        "empty",
        Opens,
        true,
        Sha256,
        b"",
        b"data",
        Err(Kind::NoMatchingKey),
    ),
    (
        "shorter",
        Makes,
        true,
        Sha256,
        &[24; 23],
        b"data",
        Err(Kind::NoMatchingKey),
    ),
    (
        "longer",
        Opens,
        false,
        Sha256,
        LONGER,
        b"data",
        Err(Kind::NoMatchingKey),
    ),
    (
        "a key of 32",
        Makes,
        false,
        Sha256,
        &[40; 40],
        b"data",
        Err(Kind::NoMatchingKey),
    ),
    (
        "mark, ctr",
        Opens,
        true,
        Sha256,
        OTHER_MARK,
        b"data",
        Err(Kind::NoMatchingKey),
    ),
    (
        "mark, gcm",
        Makes,
        false,
        Sha256,
        OTHER_MARK,
        b"data",
        Err(Kind::NoMatchingKey),
    ),
    // hashes are refused behind the header
    (
        "unknown, ctr",
        Opens,
        true,
        UnknownHash,
        HEADER,
        b"data",
        Err(Kind::UnknownHash),
    ),
    (
        "unknown, gcm",
        Makes,
        false,
        UnknownHash,
        HEADER,
        b"data",
        Err(Kind::UnknownHash),
    ),
    (
        "sha-224, ctr",
        Makes,
        true,
        Sha224,
        HEADER,
        b"data",
        Err(Kind::UnsupportedHash),
    ),
    (
        "sha-224, gcm",
        Opens,
        false,
        Sha224,
        HEADER,
        b"data",
        Err(Kind::UnsupportedHash),
    ),
    (
        "unknown, mark",
        Opens,
        true,
        UnknownHash,
        OTHER_MARK,
        b"",
        Err(Kind::NoMatchingKey),
    ),
    (
        "sha-224, longer",
        Makes,
        false,
        Sha224,
        LONGER,
        b"",
        Err(Kind::NoMatchingKey),
    ),
];

fn answer_row(alloc: Global, row: &Row) -> Result<bool, TinkError> {
    let (_, asked, in_counter_mode, hkdf_alg, header, aad, _) = *row;
    let cipher = cipher_of(alloc, asked, in_counter_mode, hkdf_alg, header, aad)?;
    if in_counter_mode {
        does(
            alloc,
            &cipher,
            asked,
            IN_COUNTER_MODE,
            &PLACES_IN_COUNTER_MODE,
        )
    } else {
        does(alloc, &cipher, asked, BY_GCM, &PLACES_BY_GCM)
    }
}

pub fn a_header_gives_its_streams_cipher(alloc: Global, verdict: &mut Verdict) {
    for row in ROWS {
        verdict.expect(answer_row(alloc, row), row.6, row.0);
    }
}
