//! Keys of functions: which build, and which are made.

use crate::asked::{ABC, Asked, Of, Row};
use std::alloc::Global;
use test_util::{Answer, Verdict};
use tink_io::Kind;

/// Bytes, each its own place.
pub const COUNT: &[u8; 40] =
    b"\x01\x02\x03\x04\x05\x06\x07\x08\x09\x0a\x0b\x0c\x0d\x0e\x0f\x10\x11\x12\x13\x14\x15\x16\x17\x18\x19\x1a\x1b\x1c\x1d\x1e\x1f\x20\x21\x22\x23\x24\x25\x26\x27\x28";

// The draws of most formats.
const SEVENS: &[u8] = &[7; 100];

const NO_KEY: Answer = Err(Kind::InvalidKey);

const NO_FORMAT: Answer = Err(Kind::InvalidFormat);

// The version is field 1 of a key and field 3 of a format, the hash field 1 of the params. A format's version is of no
// account.
const HMAC_PRF: &[Row] = &[
    (
        "HMAC PRF key, SHA-1, 16 bytes",
        Asked::Output(
            Of::HmacKey,
            b"\x12\x02\x08\x01\x1a\x100123456789abcdef",
            ABC,
            b"\x3b\x94\xaa\xdc\xbd\x56\x6b\x83\xa1\xe5\xe2\x57\x54\x73\x55\xf8",
        ),
        Ok(true),
    ),
    (
        "HMAC PRF format, SHA-1, 16 bytes",
        Asked::Make(
            Of::HmacKey,
            b"\x0a\x02\x08\x01\x10\x10",
            SEVENS,
            84,
            b"\x00\xd2\x13\xf4\x5c\x67\x59\x47\x47\xe1\x0b\xed\xce\x5a\xb2\xf9",
        ),
        Ok(true),
    ),
    (
        "HMAC PRF key, SHA-224, 64 bytes",
        Asked::Output(
            Of::HmacKey,
            b"\x12\x02\x08\x05\x1a\x400123456789abcdefghijklmnopqrstuvwxyzABCDEFGHIJKLMNOPQRSTUVWXYZ+-",
            ABC,
            b"\xc8\xf4\x01\x98\xd5\xb8\xb5\x65\xb0\x9b\xb8\xf2\x43\xc7\xba\x93",
        ),
        Ok(true),
    ),
    (
        "HMAC PRF format, SHA-224, 64 bytes",
        Asked::Make(
            Of::HmacKey,
            b"\x0a\x02\x08\x05\x10\x40",
            SEVENS,
            36,
            b"\xb4\x0d\x4e\x26\x83\xa8\x4b\xde\xf7\x50\x23\x39\x66\x70\x1e\xdb",
        ),
        Ok(true),
    ),
    (
        "HMAC PRF key, 15 bytes",
        Asked::Output(
            Of::HmacKey,
            b"\x12\x02\x08\x03\x1a\x0f0123456789abcde",
            ABC,
            b"",
        ),
        NO_KEY,
    ),
    (
        "HMAC PRF format, 15 bytes",
        Asked::Make(Of::HmacKey, b"\x0a\x02\x08\x03\x10\x0f", SEVENS, 100, b""),
        NO_FORMAT,
    ),
    (
        "HMAC PRF key, no hash",
        Asked::Output(Of::HmacKey, b"\x12\x00\x1a\x100123456789abcdef", ABC, b""),
        NO_KEY,
    ),
    (
        "HMAC PRF format, no hash",
        Asked::Make(Of::HmacKey, b"\x0a\x00\x10\x10", SEVENS, 100, b""),
        NO_FORMAT,
    ),
    (
        "HMAC PRF key, hash 6",
        Asked::Output(
            Of::HmacKey,
            b"\x12\x02\x08\x06\x1a\x100123456789abcdef",
            ABC,
            b"",
        ),
        NO_KEY,
    ),
    (
        "HMAC PRF format, hash 6",
        Asked::Make(Of::HmacKey, b"\x0a\x02\x08\x06\x10\x10", SEVENS, 100, b""),
        NO_FORMAT,
    ),
    (
        "HMAC PRF key, no params",
        Asked::Output(Of::HmacKey, b"\x1a\x100123456789abcdef", ABC, b""),
        NO_KEY,
    ),
    (
        "HMAC PRF format, no params",
        Asked::Make(Of::HmacKey, b"\x10\x10", SEVENS, 100, b""),
        NO_FORMAT,
    ),
    (
        "HMAC PRF key, version 1",
        Asked::Output(
            Of::HmacKey,
            b"\x08\x01\x12\x02\x08\x03\x1a\x200123456789abcdefghijklmnopqrstuv",
            ABC,
            b"",
        ),
        NO_KEY,
    ),
    (
        "HMAC PRF format, version 1",
        Asked::Make(
            Of::HmacKey,
            b"\x0a\x02\x08\x03\x10\x20\x18\x01",
            SEVENS,
            68,
            b"\x12\x7d\xa4\xce\xd6\xa8\x39\xb8\xf6\x11\x8b\xc2\x44\x68\x4d\x26",
        ),
        Ok(true),
    ),
    (
        "no bytes as a key",
        Asked::Output(Of::HmacKey, b"", ABC, b""),
        NO_KEY,
    ),
    (
        "no bytes as a format",
        Asked::Make(Of::HmacKey, b"", SEVENS, 100, b""),
        NO_FORMAT,
    ),
    (
        "a group as a key",
        Asked::Output(Of::HmacKey, b"\x0b", ABC, b""),
        NO_KEY,
    ),
    (
        "a group as a format",
        Asked::Make(Of::HmacKey, b"\x0b", SEVENS, 100, b""),
        NO_FORMAT,
    ),
];

// The salt is field 2 of the params.
const HKDF_PRF: &[Row] = &[
    (
        "HKDF key, SHA-256, 32 bytes",
        Asked::Output(
            Of::HkdfKey,
            b"\x12\x08\x08\x03\x12\x04salt\x1a\x200123456789abcdefghijklmnopqrstuv",
            ABC,
            b"\x4e\x66\x39\xed\x36\xe7\x6e\x11\x60\x96\x50\xaf\x4b\x21\x49\xda",
        ),
        Ok(true),
    ),
    (
        "HKDF format, SHA-256, 32 bytes",
        Asked::Make(
            Of::HkdfKey,
            b"\x0a\x08\x08\x03\x12\x04salt\x10\x20",
            SEVENS,
            68,
            b"\xb8\xba\x37\x4d\x48\xb6\x8a\x34\x8e\xb9\x39\xe2\xeb\xd1\xa9\x02",
        ),
        Ok(true),
    ),
    (
        "HKDF key, SHA-512, 64 bytes",
        Asked::Output(
            Of::HkdfKey,
            b"\x12\x08\x08\x04\x12\x04salt\x1a\x400123456789abcdefghijklmnopqrstuvwxyzABCDEFGHIJKLMNOPQRSTUVWXYZ+-",
            ABC,
            b"\x7a\x9a\x29\x28\xc7\xd7\x84\xcc\x71\xa8\x61\x05\xc3\xeb\x4c\xb9",
        ),
        Ok(true),
    ),
    (
        "HKDF format, SHA-512, 64 bytes",
        Asked::Make(
            Of::HkdfKey,
            b"\x0a\x08\x08\x04\x12\x04salt\x10\x40",
            SEVENS,
            36,
            b"\xb4\x50\x4f\xc5\x59\x0d\x14\xb4\xcd\x2b\xa7\xba\x9b\xf7\x9c\x0f",
        ),
        Ok(true),
    ),
    (
        "HKDF key, 31 bytes",
        Asked::Output(
            Of::HkdfKey,
            b"\x12\x08\x08\x03\x12\x04salt\x1a\x1f0123456789abcdefghijklmnopqrstu",
            ABC,
            b"",
        ),
        NO_KEY,
    ),
    (
        "HKDF format, 31 bytes",
        Asked::Make(
            Of::HkdfKey,
            b"\x0a\x08\x08\x03\x12\x04salt\x10\x1f",
            SEVENS,
            100,
            b"",
        ),
        NO_FORMAT,
    ),
    (
        "HKDF key, SHA-1",
        Asked::Output(
            Of::HkdfKey,
            b"\x12\x08\x08\x01\x12\x04salt\x1a\x200123456789abcdefghijklmnopqrstuv",
            ABC,
            b"",
        ),
        NO_KEY,
    ),
    (
        "HKDF format, SHA-1",
        Asked::Make(
            Of::HkdfKey,
            b"\x0a\x08\x08\x01\x12\x04salt\x10\x20",
            SEVENS,
            100,
            b"",
        ),
        NO_FORMAT,
    ),
    (
        "HKDF key, no hash",
        Asked::Output(
            Of::HkdfKey,
            b"\x12\x06\x12\x04salt\x1a\x200123456789abcdefghijklmnopqrstuv",
            ABC,
            b"",
        ),
        NO_KEY,
    ),
    (
        "HKDF format, no hash",
        Asked::Make(
            Of::HkdfKey,
            b"\x0a\x06\x12\x04salt\x10\x20",
            SEVENS,
            100,
            b"",
        ),
        NO_FORMAT,
    ),
    (
        "HKDF key, no params",
        Asked::Output(
            Of::HkdfKey,
            b"\x1a\x200123456789abcdefghijklmnopqrstuv",
            ABC,
            b"",
        ),
        NO_KEY,
    ),
    (
        "HKDF format, no params",
        Asked::Make(Of::HkdfKey, b"\x10\x20", SEVENS, 100, b""),
        NO_FORMAT,
    ),
    (
        "HKDF key, version 1",
        Asked::Output(
            Of::HkdfKey,
            b"\x08\x01\x12\x08\x08\x03\x12\x04salt\x1a\x200123456789abcdefghijklmnopqrstuv",
            ABC,
            b"",
        ),
        NO_KEY,
    ),
    (
        "HKDF format, version 1",
        Asked::Make(
            Of::HkdfKey,
            b"\x0a\x08\x08\x03\x12\x04salt\x10\x20\x18\x01",
            SEVENS,
            68,
            b"\xb8\xba\x37\x4d\x48\xb6\x8a\x34\x8e\xb9\x39\xe2\xeb\xd1\xa9\x02",
        ),
        Ok(true),
    ),
];

// The value is field 2 of a key; the size of keys is field 1 of a format, and its version field 2.
const AES_CMAC_PRF: &[Row] = &[
    (
        "AES-CMAC PRF key, 32 bytes",
        Asked::Output(
            Of::AesCmacKey,
            b"\x12\x200123456789abcdefghijklmnopqrstuv",
            ABC,
            b"\xbf\x15\xa3\x07\x9e\x02\x90\xef\x45\x80\x64\x02\x36\x31\x8c\xe9",
        ),
        Ok(true),
    ),
    (
        "AES-CMAC PRF format, 32 bytes",
        Asked::Make(
            Of::AesCmacKey,
            b"\x08\x20",
            SEVENS,
            68,
            b"\x2b\x88\x81\xb1\x72\x18\x5d\xbd\x7b\x76\x64\xc6\x0e\x2f\xa5\x8c",
        ),
        Ok(true),
    ),
    (
        "AES-CMAC PRF key, 16 bytes",
        Asked::Output(Of::AesCmacKey, b"\x12\x100123456789abcdef", ABC, b""),
        NO_KEY,
    ),
    (
        "AES-CMAC PRF format, 16 bytes",
        Asked::Make(Of::AesCmacKey, b"\x08\x10", SEVENS, 100, b""),
        NO_FORMAT,
    ),
    (
        "AES-CMAC PRF key, 33 bytes",
        Asked::Output(
            Of::AesCmacKey,
            b"\x12\x210123456789abcdefghijklmnopqrstuvw",
            ABC,
            b"",
        ),
        NO_KEY,
    ),
    (
        "AES-CMAC PRF format, 33 bytes",
        Asked::Make(Of::AesCmacKey, b"\x08\x21", SEVENS, 100, b""),
        NO_FORMAT,
    ),
    (
        "AES-CMAC PRF key, version 1",
        Asked::Output(
            Of::AesCmacKey,
            b"\x08\x01\x12\x200123456789abcdefghijklmnopqrstuv",
            ABC,
            b"",
        ),
        NO_KEY,
    ),
    (
        "AES-CMAC PRF format, version 1",
        Asked::Make(
            Of::AesCmacKey,
            b"\x08\x20\x10\x01",
            SEVENS,
            68,
            b"\x2b\x88\x81\xb1\x72\x18\x5d\xbd\x7b\x76\x64\xc6\x0e\x2f\xa5\x8c",
        ),
        Ok(true),
    ),
];

// New keys hold their draws, so that their outputs are known; too few draws stay. By OpenSSL and by Python's HMAC.
const NEW_KEYS: &[Row] = &[
    (
        "a key of HKDF by its draws",
        Asked::Make(
            Of::HkdfKey,
            b"\x0a\x02\x08\x03\x10\x20",
            COUNT,
            8,
            b"\xa7\x73\xb7\xee\xf8\x1d\xa3\x69\x4b\x17\xb3\x8f\xb4\x14\x9a\x53",
        ),
        Ok(true),
    ),
    (
        "too few draws stay",
        Asked::Make(
            Of::HkdfKey,
            b"\x0a\x02\x08\x03\x10\x20",
            b"\x01\x02\x03\x04\x05\x06\x07\x08",
            8,
            b"",
        ),
        Err(Kind::RandomFault),
    ),
];

pub fn hmac_rows(alloc: Global, verdict: &mut Verdict) {
    verdict.walk(alloc, false, HMAC_PRF);
}

pub fn rows(alloc: Global, verdict: &mut Verdict) {
    verdict.walk(alloc, false, HKDF_PRF);
    verdict.walk(alloc, false, AES_CMAC_PRF);
    verdict.walk(alloc, false, NEW_KEYS);
}
