//! Keys of MACs: which build, and which are made.

use crate::asked::{ABC, Asked, Of, Row};
use std::alloc::Global;
use test_util::{Answer, Verdict};
use tink_io::Kind;

// The draws of most formats.
const SEVENS: &[u8] = &[7; 40];

const NO_KEY: Answer = Err(Kind::InvalidKey);

const NO_FORMAT: Answer = Err(Kind::InvalidFormat);

// The params are field 2, with the hash as field 1 and the size of tags as field 2; the value is field 3. Of a format
// the params are field 1, the size of keys is field 2, and the version field 3.
const HMAC: &[Row] = &[
    (
        "HMAC key, SHA-256, 10",
        Asked::Tag(
            Of::HmacKey,
            b"\x12\x04\x08\x03\x10\x0a\x1a\x100123456789abcdef",
            ABC,
            b"\xbc\xaa\x92\x84\x32\x47\xbc\x25\x80\x80",
        ),
        Ok(true),
    ),
    (
        "HMAC key, SHA-224, 28",
        Asked::Tag(
            Of::HmacKey,
            b"\x12\x04\x08\x05\x10\x1c\x1a\x100123456789abcdef",
            ABC,
            b"\xaf\xb9\xc2\x08\x37\xb3\x8c\x13\xfc\xa5\xa3\xb1\x26\x3b\x42\xe8\x98\x23\x6a\x8d\x57\xf2\x8d\x30\xd8\xfe\xc4\x57",
        ),
        Ok(true),
    ),
    (
        "HMAC key, version 1",
        Asked::Tag(
            Of::HmacKey,
            b"\x08\x01\x12\x04\x08\x03\x10\x10\x1a\x100123456789abcdef",
            ABC,
            b"",
        ),
        NO_KEY,
    ),
    (
        "HMAC key, no hash",
        Asked::Tag(
            Of::HmacKey,
            b"\x12\x02\x10\x10\x1a\x100123456789abcdef",
            ABC,
            b"",
        ),
        NO_KEY,
    ),
    (
        "HMAC key, hash 6",
        Asked::Tag(
            Of::HmacKey,
            b"\x12\x04\x08\x06\x10\x10\x1a\x100123456789abcdef",
            ABC,
            b"",
        ),
        NO_KEY,
    ),
    (
        "HMAC key, tags of 9",
        Asked::Tag(
            Of::HmacKey,
            b"\x12\x04\x08\x03\x10\x09\x1a\x100123456789abcdef",
            ABC,
            b"",
        ),
        NO_KEY,
    ),
    (
        "HMAC key, tags of 33",
        Asked::Tag(
            Of::HmacKey,
            b"\x12\x04\x08\x03\x10\x21\x1a\x100123456789abcdef",
            ABC,
            b"",
        ),
        NO_KEY,
    ),
    (
        "HMAC key, 15 bytes",
        Asked::Tag(
            Of::HmacKey,
            b"\x12\x04\x08\x03\x10\x10\x1a\x0f0123456789abcde",
            ABC,
            b"",
        ),
        NO_KEY,
    ),
    (
        "HMAC format, 40 bytes",
        Asked::Make(
            Of::HmacKey,
            b"\x0a\x04\x08\x03\x10\x10\x10\x28\x18\x09",
            SEVENS,
            0,
            b"\x99\xc0\x4e\x0d\x08\xb8\x9c\xc9\x14\x05\x5d\x60\x6c\x0b\xa4\x57",
        ),
        Ok(true),
    ),
    (
        "HMAC format, 41 bytes",
        Asked::Make(
            Of::HmacKey,
            b"\x0a\x04\x08\x03\x10\x10\x10\x29\x18\x09",
            SEVENS,
            40,
            b"",
        ),
        Err(Kind::RandomFault),
    ),
    (
        "HMAC format, tags of 9",
        Asked::Make(
            Of::HmacKey,
            b"\x0a\x04\x08\x03\x10\x09\x10\x29\x18\x09",
            SEVENS,
            40,
            b"",
        ),
        NO_FORMAT,
    ),
    (
        "HMAC format, 15 bytes",
        Asked::Make(
            Of::HmacKey,
            b"\x0a\x04\x08\x03\x10\x10\x10\x0f\x18\x09",
            SEVENS,
            40,
            b"",
        ),
        NO_FORMAT,
    ),
];

// The params are field 3, with the size of tags; the value is field 2. Fields come in any order. Of a format the size
// of keys is field 1, and the params are field 2.
const AES_CMAC: &[Row] = &[
    (
        "AES-CMAC key, tags of 10",
        Asked::Tag(
            Of::AesCmacKey,
            b"\x1a\x02\x08\x0a\x12\x200123456789abcdefghijklmnopqrstuv",
            ABC,
            b"\xbf\x15\xa3\x07\x9e\x02\x90\xef\x45\x80",
        ),
        Ok(true),
    ),
    (
        "AES-CMAC key, tags of 16",
        Asked::Tag(
            Of::AesCmacKey,
            b"\x1a\x02\x08\x10\x12\x200123456789abcdefghijklmnopqrstuv",
            ABC,
            b"\xbf\x15\xa3\x07\x9e\x02\x90\xef\x45\x80\x64\x02\x36\x31\x8c\xe9",
        ),
        Ok(true),
    ),
    (
        "AES-CMAC key, version 1",
        Asked::Tag(
            Of::AesCmacKey,
            b"\x08\x01\x1a\x02\x08\x10\x12\x200123456789abcdefghijklmnopqrstuv",
            ABC,
            b"",
        ),
        NO_KEY,
    ),
    (
        "AES-CMAC key, tags of 9",
        Asked::Tag(
            Of::AesCmacKey,
            b"\x1a\x02\x08\x09\x12\x200123456789abcdefghijklmnopqrstuv",
            ABC,
            b"",
        ),
        NO_KEY,
    ),
    (
        "AES-CMAC key, tags of 17",
        Asked::Tag(
            Of::AesCmacKey,
            b"\x1a\x02\x08\x11\x12\x200123456789abcdefghijklmnopqrstuv",
            ABC,
            b"",
        ),
        NO_KEY,
    ),
    (
        "AES-CMAC key, 16 bytes",
        Asked::Tag(
            Of::AesCmacKey,
            b"\x1a\x02\x08\x10\x12\x100123456789abcdef",
            ABC,
            b"",
        ),
        NO_KEY,
    ),
    (
        "AES-CMAC format, 32 bytes",
        Asked::Make(
            Of::AesCmacKey,
            b"\x08\x20\x12\x02\x08\x10",
            SEVENS,
            8,
            b"\x2b\x88\x81\xb1\x72\x18\x5d\xbd\x7b\x76\x64\xc6\x0e\x2f\xa5\x8c",
        ),
        Ok(true),
    ),
    (
        "AES-CMAC format, tags of 9",
        Asked::Make(Of::AesCmacKey, b"\x08\x20\x12\x02\x08\x09", SEVENS, 40, b""),
        NO_FORMAT,
    ),
    (
        "AES-CMAC format, 16 bytes",
        Asked::Make(Of::AesCmacKey, b"\x08\x10\x12\x02\x08\x10", SEVENS, 40, b""),
        NO_FORMAT,
    ),
];

// New keys hold their draws, so that their outputs are known; too few draws stay. By OpenSSL and by Python's HMAC.
const NEW_KEYS: &[Row] = &[(
    "a key of AES-CMAC",
    Asked::Make(
        Of::AesCmacKey,
        b"\x08\x20\x12\x02\x08\x10",
        b"\x01\x02\x03\x04\x05\x06\x07\x08\x09\x0a\x0b\x0c\x0d\x0e\x0f\x10\x11\x12\x13\x14\x15\x16\x17\x18\x19\x1a\x1b\x1c\x1d\x1e\x1f\x20\x21",
        1,
        b"\xe9\x07\x33\x69\xa2\x4b\x0d\xf2\x70\x39\x52\xca\xe1\x00\x60\xba",
    ),
    Ok(true),
)];

pub fn rows(alloc: Global, verdict: &mut Verdict) {
    verdict.walk(alloc, false, HMAC);
    verdict.walk(alloc, false, AES_CMAC);
    verdict.walk(alloc, false, NEW_KEYS);
}
