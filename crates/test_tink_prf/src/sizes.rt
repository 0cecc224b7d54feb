//! The sizes of keys and of outputs.

use crate::asked::{Asked, Of, Row};
use std::alloc::Global;
use test_util::{Answer, Verdict};
use tink_io::Kind;
use tink_proto::HashType;

const BAD_KEY: Answer = Err(Kind::BadKeySize);

const UNKNOWN: Answer = Err(Kind::UnknownHash);

const UNSUPPORTED: Answer = Err(Kind::UnsupportedHash);

const TOO_LONG: Answer = Err(Kind::OutputTooLong);

const NO_HASH: HashType = HashType::UnknownHash;

const SIZES: &[Row] = &[
    // Functions with keys of AES-CMAC are made of 32 bytes.
    (
        "params of the AES-CMAC PRF",
        Asked::AesCmacParams(32),
        Ok(true),
    ),
    (
        "params of the AES-CMAC PRF, 16 bytes",
        Asked::AesCmacParams(16),
        BAD_KEY,
    ),
    (
        "params of the AES-CMAC PRF, 24 bytes",
        Asked::AesCmacParams(24),
        BAD_KEY,
    ),
    (
        "params of the AES-CMAC PRF, 31 bytes",
        Asked::AesCmacParams(31),
        BAD_KEY,
    ),
    (
        "params of the AES-CMAC PRF, 33 bytes",
        Asked::AesCmacParams(33),
        BAD_KEY,
    ),
    // Those of HKDF, of some sizes and hashes.
    (
        "params of HKDF with SHA-256",
        Asked::HkdfParams(HashType::Sha256, 32),
        Ok(true),
    ),
    (
        "params of HKDF with SHA-512",
        Asked::HkdfParams(HashType::Sha512, 64),
        Ok(true),
    ),
    (
        "params of HKDF, 31 bytes",
        Asked::HkdfParams(NO_HASH, 31),
        BAD_KEY,
    ),
    (
        "params of HKDF, no hash",
        Asked::HkdfParams(NO_HASH, 32),
        UNKNOWN,
    ),
    (
        "params of HKDF with SHA-1",
        Asked::HkdfParams(HashType::Sha1, 32),
        UNSUPPORTED,
    ),
    (
        "params of HKDF with SHA-384",
        Asked::HkdfParams(HashType::Sha384, 32),
        UNSUPPORTED,
    ),
    // And those of HMAC.
    (
        "params of the HMAC PRF",
        Asked::HmacParams(HashType::Sha224, 16),
        Ok(true),
    ),
    (
        "params of the HMAC PRF, 15 bytes",
        Asked::HmacParams(NO_HASH, 15),
        BAD_KEY,
    ),
    (
        "params of the HMAC PRF, no hash",
        Asked::HmacParams(NO_HASH, 16),
        UNKNOWN,
    ),
    // Functions with other hashes are refused.
    (
        "HKDF, no hash",
        Asked::Length(Of::Hkdf(NO_HASH, b""), 40, 16),
        UNSUPPORTED,
    ),
    (
        "HKDF with SHA-224",
        Asked::Length(Of::Hkdf(HashType::Sha224, b""), 40, 16),
        UNSUPPORTED,
    ),
    (
        "HKDF with SHA-384",
        Asked::Length(Of::Hkdf(HashType::Sha384, b""), 40, 16),
        UNSUPPORTED,
    ),
    (
        "the HMAC PRF, no hash",
        Asked::Length(Of::Hmac(NO_HASH), 40, 16),
        UNKNOWN,
    ),
    // The lengths of outputs.
    (
        "16 bytes of AES-CMAC",
        Asked::Length(Of::AesCmac, 32, 16),
        Ok(true),
    ),
    (
        "16320 bytes of HKDF",
        Asked::Length(Of::Hkdf(HashType::Sha512, b""), 32, 16320),
        Ok(true),
    ),
    (
        "48 bytes of HMAC",
        Asked::Length(Of::Hmac(HashType::Sha384), 32, 48),
        Ok(true),
    ),
    (
        "no bytes of HMAC",
        Asked::Length(Of::Hmac(HashType::Sha384), 32, 0),
        Ok(true),
    ),
    (
        "17 bytes of AES-CMAC",
        Asked::Length(Of::AesCmac, 32, 17),
        TOO_LONG,
    ),
    (
        "16321 bytes of HKDF",
        Asked::Length(Of::Hkdf(HashType::Sha512, b""), 32, 16321),
        TOO_LONG,
    ),
    (
        "49 bytes of HMAC",
        Asked::Length(Of::Hmac(HashType::Sha384), 32, 49),
        TOO_LONG,
    ),
];

// A key of so many bytes, of which AES-CMAC makes 16.
macro_rules! cmac_key {
    ($size:literal, $want:expr) => {
        (
            "a key of the AES-CMAC PRF",
            Asked::Length(Of::AesCmac, $size, 16),
            $want,
        )
    };
}

// AES-CMAC takes keys of 0 to 40 bytes exactly where they are keys of AES.
const CMAC_KEYS: &[Row] = &[
    cmac_key!(0, BAD_KEY),
    cmac_key!(1, BAD_KEY),
    cmac_key!(2, BAD_KEY),
    cmac_key!(3, BAD_KEY),
    cmac_key!(4, BAD_KEY),
    cmac_key!(5, BAD_KEY),
    cmac_key!(6, BAD_KEY),
    cmac_key!(7, BAD_KEY),
    cmac_key!(8, BAD_KEY),
    cmac_key!(9, BAD_KEY),
    cmac_key!(10, BAD_KEY),
    cmac_key!(11, BAD_KEY),
    cmac_key!(12, BAD_KEY),
    cmac_key!(13, BAD_KEY),
    cmac_key!(14, BAD_KEY),
    cmac_key!(15, BAD_KEY),
    cmac_key!(16, Ok(true)),
    cmac_key!(17, BAD_KEY),
    cmac_key!(18, BAD_KEY),
    cmac_key!(19, BAD_KEY),
    cmac_key!(20, BAD_KEY),
    cmac_key!(21, BAD_KEY),
    cmac_key!(22, BAD_KEY),
    cmac_key!(23, BAD_KEY),
    cmac_key!(24, Ok(true)),
    cmac_key!(25, BAD_KEY),
    cmac_key!(26, BAD_KEY),
    cmac_key!(27, BAD_KEY),
    cmac_key!(28, BAD_KEY),
    cmac_key!(29, BAD_KEY),
    cmac_key!(30, BAD_KEY),
    cmac_key!(31, BAD_KEY),
    cmac_key!(32, Ok(true)),
    cmac_key!(33, BAD_KEY),
    cmac_key!(34, BAD_KEY),
    cmac_key!(35, BAD_KEY),
    cmac_key!(36, BAD_KEY),
    cmac_key!(37, BAD_KEY),
    cmac_key!(38, BAD_KEY),
    cmac_key!(39, BAD_KEY),
    cmac_key!(40, BAD_KEY),
];

pub fn rows(alloc: Global, verdict: &mut Verdict) {
    verdict.walk(alloc, false, SIZES);
    verdict.walk(alloc, false, CMAC_KEYS);
}
