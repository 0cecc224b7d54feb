//! Which keys of streams are made, and segments that Python made under derived keys.

use crate::header_tests::{decrypt_short, encrypt_short, is};
use std::alloc::Global;
use tink_core::CloneIn;
use tink_io::{Kind, TinkError};
use tink_proto::HashType;
use tink_streaming_ciphers::StreamSegment;
use tink_streaming_keys::{AesCtrHmac, AesGcmHkdf, DerivesStreams, StreamKind};

const TEXT: &[u8; 38] = b"a text of more than two blocks, by ten";

// The main key 16, 17, .., 47.
const MAIN: &[u8; 32] =
    b"\x10\x11\x12\x13\x14\x15\x16\x17\x18\x19\x1a\x1b\x1c\x1d\x1e\x1f\x20\x21\x22\x23\x24\x25\x26\x27\x28\x29\x2a\x2b\x2c\x2d\x2e\x2f";

// The salt 64, 65, .., 95.
const SALT: &[u8; 32] =
    b"\x40\x41\x42\x43\x44\x45\x46\x47\x48\x49\x4a\x4b\x4c\x4d\x4e\x4f\x50\x51\x52\x53\x54\x55\x56\x57\x58\x59\x5a\x5b\x5c\x5d\x5e\x5f";

// The text's segment under the nonce 1, 2, .., 16, with "associated": HKDF with SHA-256, AES-256, HMAC with SHA-512, a
// tag of 20 bytes.
const IN_COUNTER_MODE: &[u8; 58] =
    b"\xbf\xcf\x0c\x76\x9b\x15\x47\xaa\x31\xdb\x6c\x99\x62\x11\xbc\xde\x5e\x01\xfc\xdc\x41\x46\x3e\x79\xab\x70\x15\x4d\xe4\x5d\xd9\xd1\xfb\x98\x33\xbb\xa3\x25\x77\x1a\x46\xee\x35\xbf\xc0\x34\x72\x09\xc7\x5b\xbc\xc0\x12\xff\x58\xdb\x60\x0f";

// The text's segment under the nonce 1, 2, .., 12 and a prefix of the salt, with "associated": HKDF with SHA-512,
// AES-128.
const BY_GCM: &[u8; 54] =
    b"\x2a\x87\x2e\x1e\x7a\x0d\x61\x9f\x8c\x74\xed\x02\x57\x99\x5e\x98\x6b\xeb\x8b\xb5\xec\x51\x35\x1c\xce\x42\x64\xe5\xfd\xa3\xe3\xad\x3f\x6c\xfa\xdc\xe3\xfe\x18\xfd\xf4\x5a\x6b\x7c\x3e\x79\xc4\x77\xad\xa7\xf0\x05\x56\x86";

const NONCE: &[u8; 16] = b"\x01\x02\x03\x04\x05\x06\x07\x08\x09\x0a\x0b\x0c\x0d\x0e\x0f\x10";

// What is asked.
#[derive(Clone, Copy)]
enum Asked {
    // that a key in counter mode is made of so many bytes of the main key, with this derived size, hash and size of a tag,
    // and size of segments
    Ctr(usize, usize, HashType, usize, u32),
    // the same of a key by GCM, with these sizes of segments and of their offset
    Gcm(usize, usize, u32, u32),
    // that a key by GCM with this hash of HKDF derives a cipher
    DerivesBy(HashType),
    // that a key has so long a header, and a copy of it derives Python's segment
    CtrSegment(usize),
    GcmSegment(usize),
}

// A key in counter mode with the whole main key.
fn counter_mode_key(alloc: Global) -> Result<AesCtrHmac, TinkError> {
    let sha = HashType::Sha256;
    AesCtrHmac::new(alloc, MAIN, sha, 32, HashType::Sha512, 20, 4096, 0)
}

// A key by GCM with the whole main key.
fn gcm_key(alloc: Global, hkdf_alg: HashType) -> Result<AesGcmHkdf, TinkError> {
    AesGcmHkdf::new(alloc, MAIN, hkdf_alg, 16, 4096, 0)
}

// Whether the text has this segment, which opens to the text.
fn does(alloc: Global, cipher: &StreamSegment, segment: &[u8]) -> Result<bool, TinkError> {
    let is_made = is(encrypt_short(alloc, cipher, TEXT, NONCE), segment)?;
    Ok(is(decrypt_short(alloc, cipher, segment, NONCE), TEXT)? && is_made)
}

// Whether what a copy of a key derives with a salt makes this segment.
fn derives(
    alloc: Global,
    key: &StreamKind,
    salt: &[u8],
    segment: &[u8],
) -> Result<bool, TinkError> {
    let cipher = key.try_clone(alloc)?.derive(salt, b"associated")?;
    does(alloc, &cipher, segment)
}

fn ctr_segment(alloc: Global, header: usize) -> Result<bool, TinkError> {
    let key = counter_mode_key(alloc)?;
    let is_long = key.header_length() == header;
    Ok(derives(alloc, &StreamKind::CtrHmac(key), SALT, IN_COUNTER_MODE)? && is_long)
}

fn gcm_segment(alloc: Global, header: usize) -> Result<bool, TinkError> {
    let key = gcm_key(alloc, HashType::Sha512)?;
    let is_long = key.header_length() == header;
    Ok(derives(alloc, &StreamKind::GcmHkdf(key), &SALT[..16], BY_GCM)? && is_long)
}

// Whether something is made, or why it is refused.
fn is_made<T: Drop>(told: Result<T, TinkError>) -> Result<bool, TinkError> {
    match told {
        Ok(_) => Ok(true),
        Err(e) => Err(e),
    }
}

// Whether a key that is made derives a cipher.
fn derives_by(alloc: Global, hkdf_alg: HashType) -> Result<bool, TinkError> {
    match gcm_key(alloc, hkdf_alg) {
        Ok(key) => is_made(key.derive(&SALT[..16], &[])),
        Err(_) => Ok(false),
    }
}

fn main_key(n: usize) -> &'static [u8] {
    MAIN.get(..n).unwrap_or(MAIN)
}

fn answer_row(alloc: Global, asked: Asked) -> Result<bool, TinkError> {
    let sha = HashType::Sha256;
    match asked {
        Asked::Ctr(main, derived, alg, tag, segment) => is_made(AesCtrHmac::new(
            alloc,
            main_key(main),
            sha,
            derived,
            alg,
            tag,
            segment,
            0,
        )),
        Asked::Gcm(main, derived, segment, offset) => is_made(AesGcmHkdf::new(
            alloc,
            main_key(main),
            sha,
            derived,
            segment,
            offset,
        )),
        Asked::DerivesBy(hkdf_alg) => derives_by(alloc, hkdf_alg),
        Asked::CtrSegment(header) => ctr_segment(alloc, header),
        Asked::GcmSegment(header) => gcm_segment(alloc, header),
    }
}

use HashType::{Sha224, Sha256, Sha384, UnknownHash};
use test_util::Verdict;

const ROWS: &[(&str, Asked, Result<bool, Kind>)] = &[
    (
        "ctr 15, 16, 16, 4096",
        Asked::Ctr(15, 16, Sha256, 16, 4096),
        Err(Kind::BadKeySize),
    ),
    (
        "ctr 31, 32, 16, 4096",
        Asked::Ctr(31, 32, Sha256, 16, 4096),
        Err(Kind::BadKeySize),
    ),
    (
        "ctr 32, 24, 16, 4096",
        Asked::Ctr(32, 24, Sha256, 16, 4096),
        Err(Kind::BadKeySize),
    ),
    (
        "ctr 32, 16, 9, 4096",
        Asked::Ctr(32, 16, Sha256, 9, 4096),
        Err(Kind::BadTagSize),
    ),
    (
        "ctr 32, 16, 33, 4096",
        Asked::Ctr(32, 16, Sha256, 33, 4096),
        Err(Kind::BadTagSize),
    ),
    (
        "ctr 32, 16, 9, 4096, no hash",
        Asked::Ctr(32, 16, UnknownHash, 9, 4096),
        Err(Kind::BadTagSize),
    ),
    (
        "ctr 32, 16, 10, 4096, no hash",
        Asked::Ctr(32, 16, UnknownHash, 10, 4096),
        Err(Kind::UnknownHash),
    ),
    (
        "ctr 32, 16, 10, 34",
        Asked::Ctr(32, 16, Sha256, 10, 34),
        Err(Kind::SegmentTooSmall),
    ),
    (
        "ctr 32, 16, 10, 35",
        Asked::Ctr(32, 16, Sha256, 10, 35),
        Ok(true),
    ),
    (
        "gcm 15, 16, 4096, 0",
        Asked::Gcm(15, 16, 4096, 0),
        Err(Kind::BadKeySize),
    ),
    (
        "gcm 31, 32, 4096, 0",
        Asked::Gcm(31, 32, 4096, 0),
        Err(Kind::BadKeySize),
    ),
    (
        "gcm 32, 24, 4096, 0",
        Asked::Gcm(32, 24, 4096, 0),
        Err(Kind::BadKeySize),
    ),
    (
        "gcm 32, 16, 40, 0",
        Asked::Gcm(32, 16, 40, 0),
        Err(Kind::SegmentTooSmall),
    ),
    ("gcm 32, 16, 41, 0", Asked::Gcm(32, 16, 41, 0), Ok(true)),
    (
        "gcm 32, 16, 41, 1",
        Asked::Gcm(32, 16, 41, 1),
        Err(Kind::SegmentTooSmall),
    ),
    (
        "gcm 32, 16, most, most",
        Asked::Gcm(32, 16, u32::MAX, u32::MAX),
        Err(Kind::SegmentTooSmall),
    ),
    (
        "derives by no hash",
        Asked::DerivesBy(UnknownHash),
        Err(Kind::UnknownHash),
    ),
    (
        "derives by SHA-224",
        Asked::DerivesBy(Sha224),
        Err(Kind::UnsupportedHash),
    ),
    ("derives by SHA-384", Asked::DerivesBy(Sha384), Ok(true)),
    (
        "derives a segment in counter mode",
        Asked::CtrSegment(40),
        Ok(true),
    ),
    ("derives a segment by GCM", Asked::GcmSegment(24), Ok(true)),
];

pub fn keys_are_made_and_derive(alloc: Global, verdict: &mut Verdict) {
    for (row, asked, want) in ROWS {
        verdict.expect(answer_row(alloc, *asked), *want, row);
    }
}
