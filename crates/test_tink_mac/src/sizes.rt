//! The sizes of keys and of tags.

use crate::asked::{Asked, Of, Row};
use std::alloc::Global;
use test_util::{Answer, Verdict};
use tink_io::Kind;
use tink_proto::HashType;

const BAD_KEY: Answer = Err(Kind::BadKeySize);

const BAD_TAG: Answer = Err(Kind::BadTagSize);

const UNKNOWN: Answer = Err(Kind::UnknownHash);

const NO_HASH: HashType = HashType::UnknownHash;

const SIZES: &[Row] = &[
    // Params of HMAC, and a new HMAC.
    (
        "params of HMAC with SHA-1",
        Asked::HmacParams(HashType::Sha1, 16, 20),
        Ok(true),
    ),
    (
        "params of HMAC, no hash",
        Asked::HmacParams(NO_HASH, 15, 9),
        UNKNOWN,
    ),
    (
        "params of HMAC with SHA-1, tags of 21",
        Asked::HmacParams(HashType::Sha1, 15, 21),
        BAD_TAG,
    ),
    (
        "params of HMAC with SHA-512, tags of 9",
        Asked::HmacParams(HashType::Sha512, 15, 9),
        BAD_TAG,
    ),
    (
        "params of HMAC with SHA-512, 15 bytes",
        Asked::HmacParams(HashType::Sha512, 15, 64),
        BAD_KEY,
    ),
    (
        "HMAC with SHA-1",
        Asked::New(Of::Hmac(HashType::Sha1, 20), 16),
        Ok(true),
    ),
    (
        "HMAC, no hash",
        Asked::New(Of::Hmac(NO_HASH, 9), 15),
        UNKNOWN,
    ),
    (
        "HMAC with SHA-1, tags of 21",
        Asked::New(Of::Hmac(HashType::Sha1, 21), 15),
        BAD_TAG,
    ),
    (
        "HMAC with SHA-512, tags of 9",
        Asked::New(Of::Hmac(HashType::Sha512, 9), 15),
        BAD_TAG,
    ),
    (
        "HMAC with SHA-512, 15 bytes",
        Asked::New(Of::Hmac(HashType::Sha512, 64), 15),
        BAD_KEY,
    ),
    // A new AES-CMAC, and params of the keys that are made.
    (
        "AES-CMAC, 16 bytes, tags of 10",
        Asked::New(Of::AesCmac(10), 16),
        Ok(true),
    ),
    (
        "AES-CMAC, 24 bytes, tags of 16",
        Asked::New(Of::AesCmac(16), 24),
        Ok(true),
    ),
    (
        "AES-CMAC, 15 bytes, tags of 9",
        Asked::New(Of::AesCmac(9), 15),
        BAD_KEY,
    ),
    (
        "AES-CMAC, 17 bytes, tags of 9",
        Asked::New(Of::AesCmac(9), 17),
        BAD_TAG,
    ),
    (
        "AES-CMAC, 16 bytes, tags of 17",
        Asked::New(Of::AesCmac(17), 16),
        BAD_TAG,
    ),
    (
        "AES-CMAC, 33 bytes, tags of 16",
        Asked::New(Of::AesCmac(16), 33),
        BAD_KEY,
    ),
    ("params of AES-CMAC", Asked::AesCmacParams(32, 10), Ok(true)),
    (
        "params of AES-CMAC, 16 bytes",
        Asked::AesCmacParams(16, 9),
        BAD_KEY,
    ),
    (
        "params of AES-CMAC, tags of 9",
        Asked::AesCmacParams(32, 9),
        BAD_TAG,
    ),
    (
        "params of AES-CMAC, tags of 17",
        Asked::AesCmacParams(32, 17),
        BAD_TAG,
    ),
];

pub fn rows(alloc: Global, verdict: &mut Verdict) {
    verdict.walk(alloc, false, SIZES);
}
