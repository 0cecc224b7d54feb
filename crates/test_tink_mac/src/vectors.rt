//! Outside vectors: RFC 4231 for HMAC, RFC 4493 for AES-CMAC; and tags that are not a message's own.

use crate::asked::{ABC, Asked, Of, Row};
use std::alloc::Global;
use test_util::{Answer, Verdict};
use tink_io::Kind;
use tink_proto::HashType;

const CMAC_KEY: &[u8] = b"\x2b\x7e\x15\x16\x28\xae\xd2\xa6\xab\xf7\x15\x88\x09\xcf\x4f\x3c";

const CMAC_40: &[u8] =
    b"\x6b\xc1\xbe\xe2\x2e\x40\x9f\x96\xe9\x3d\x7e\x11\x73\x93\x17\x2a\xae\x2d\x8a\x57\x1e\x03\xac\x9c\x9e\xb7\x6f\xac\x45\xaf\x8e\x51\x30\xc8\x1c\x46\xa3\x5c\xe4\x11";

const CMAC_16: &[u8] = b"\x6b\xc1\xbe\xe2\x2e\x40\x9f\x96\xe9\x3d\x7e\x11\x73\x93\x17\x2a";

const MISMATCH: Answer = Err(Kind::MacMismatch);

// Each MAC and its copy accept the tag that they make, and no other.
const VECTORS: &[Row] = &[
    // RFC 4231, test cases 1, 5 and 6.
    (
        "HMAC with SHA-256, of two words",
        Asked::Tag(
            Of::Hmac(HashType::Sha256, 32),
            &[0x0b; 20],
            b"Hi There",
            b"\xb0\x34\x4c\x61\xd8\xdb\x38\x53\x5c\xa8\xaf\xce\xaf\x0b\xf1\x2b\x88\x1d\xc2\x00\xc9\x83\x3d\xa7\x26\xe9\x37\x6c\x2e\x32\xcf\xf7",
        ),
        Ok(true),
    ),
    (
        "HMAC with SHA-224, of two words",
        Asked::Tag(
            Of::Hmac(HashType::Sha224, 28),
            &[0x0b; 20],
            b"Hi There",
            b"\x89\x6f\xb1\x12\x8a\xbb\xdf\x19\x68\x32\x10\x7c\xd4\x9d\xf3\x3f\x47\xb4\xb1\x16\x99\x12\xba\x4f\x53\x68\x4b\x22",
        ),
        Ok(true),
    ),
    (
        "HMAC with SHA-256, cut",
        Asked::Tag(
            Of::Hmac(HashType::Sha256, 16),
            &[0x0c; 20],
            b"Test With Truncation",
            b"\xa3\xb6\x16\x74\x73\x10\x0e\xe0\x6e\x0c\x79\x6c\x29\x55\x55\x2b",
        ),
        Ok(true),
    ),
    (
        "HMAC with SHA-512, cut",
        Asked::Tag(
            Of::Hmac(HashType::Sha512, 16),
            &[0x0c; 20],
            b"Test With Truncation",
            b"\x41\x5f\xad\x62\x71\x58\x0a\x53\x1d\x41\x79\xbc\x89\x1d\x87\xa6",
        ),
        Ok(true),
    ),
    (
        "HMAC with SHA-256, with a long key",
        Asked::Tag(
            Of::Hmac(HashType::Sha256, 32),
            &[0xaa; 131],
            b"Test Using Larger Than Block-Size Key - Hash Key First",
            b"\x60\xe4\x31\x59\x1e\xe0\xb6\x7f\x0d\x8a\x26\xaa\xcb\xf5\xb7\x7f\x8e\x0b\xc6\x21\x37\x28\xc5\x14\x05\x46\x04\x0f\x0e\xe3\x7f\x54",
        ),
        Ok(true),
    ),
    // RFC 4493, section 4, and a tag of fewer bytes.
    (
        "AES-CMAC of 0 bytes",
        Asked::Tag(
            Of::AesCmac(16),
            CMAC_KEY,
            b"",
            b"\xbb\x1d\x69\x29\xe9\x59\x37\x28\x7f\xa3\x7d\x12\x9b\x75\x67\x46",
        ),
        Ok(true),
    ),
    (
        "AES-CMAC of 16 bytes",
        Asked::Tag(
            Of::AesCmac(16),
            CMAC_KEY,
            CMAC_16,
            b"\x07\x0a\x16\xb4\x6b\x4d\x41\x44\xf7\x9b\xdd\x9d\xd0\x4a\x28\x7c",
        ),
        Ok(true),
    ),
    (
        "AES-CMAC of 40 bytes",
        Asked::Tag(
            Of::AesCmac(16),
            CMAC_KEY,
            CMAC_40,
            b"\xdf\xa6\x67\x47\xde\x9a\xe6\x30\x30\xca\x32\x61\x14\x97\xc8\x27",
        ),
        Ok(true),
    ),
    (
        "AES-CMAC of 40 bytes, cut",
        Asked::Tag(
            Of::AesCmac(10),
            CMAC_KEY,
            CMAC_40,
            b"\xdf\xa6\x67\x47\xde\x9a\xe6\x30\x30\xca",
        ),
        Ok(true),
    ),
];

// Tags of `abc`, by OpenSSL, and others: one byte more, one byte less, its last bit flipped, and another text.
const TAGS: &[Row] = &[
    (
        "AES-CMAC, its own tag",
        Asked::Tag(
            Of::AesCmac(16),
            &[1; 32],
            ABC,
            b"\x44\x49\x7e\x7f\x1f\x1e\x1d\x8e\xcc\x4f\x15\x75\x8a\x98\x0a\x8e",
        ),
        Ok(true),
    ),
    (
        "AES-CMAC, one byte more",
        Asked::Tag(
            Of::AesCmac(16),
            &[1; 32],
            ABC,
            b"\x44\x49\x7e\x7f\x1f\x1e\x1d\x8e\xcc\x4f\x15\x75\x8a\x98\x0a\x8e\x00",
        ),
        MISMATCH,
    ),
    (
        "AES-CMAC, one byte less",
        Asked::Tag(
            Of::AesCmac(16),
            &[1; 32],
            ABC,
            b"\x44\x49\x7e\x7f\x1f\x1e\x1d\x8e\xcc\x4f\x15\x75\x8a\x98\x0a",
        ),
        MISMATCH,
    ),
    (
        "AES-CMAC, its last bit flipped",
        Asked::Tag(
            Of::AesCmac(16),
            &[1; 32],
            ABC,
            b"\x44\x49\x7e\x7f\x1f\x1e\x1d\x8e\xcc\x4f\x15\x75\x8a\x98\x0a\x8f",
        ),
        MISMATCH,
    ),
    (
        "AES-CMAC, for another text",
        Asked::Tag(
            Of::AesCmac(16),
            &[1; 32],
            b"abd",
            b"\x44\x49\x7e\x7f\x1f\x1e\x1d\x8e\xcc\x4f\x15\x75\x8a\x98\x0a\x8e",
        ),
        MISMATCH,
    ),
    (
        "HMAC, its own tag",
        Asked::Tag(
            Of::Hmac(HashType::Sha256, 16),
            &[1; 16],
            ABC,
            b"\x24\x9d\xf4\xb1\x4e\xeb\xa3\x0a\xa9\xeb\x8b\x33\x48\x10\x15\xfe",
        ),
        Ok(true),
    ),
    (
        "HMAC, one byte more",
        Asked::Tag(
            Of::Hmac(HashType::Sha256, 16),
            &[1; 16],
            ABC,
            b"\x24\x9d\xf4\xb1\x4e\xeb\xa3\x0a\xa9\xeb\x8b\x33\x48\x10\x15\xfe\x00",
        ),
        MISMATCH,
    ),
    (
        "HMAC, one byte less",
        Asked::Tag(
            Of::Hmac(HashType::Sha256, 16),
            &[1; 16],
            ABC,
            b"\x24\x9d\xf4\xb1\x4e\xeb\xa3\x0a\xa9\xeb\x8b\x33\x48\x10\x15",
        ),
        MISMATCH,
    ),
    (
        "HMAC, its last bit flipped",
        Asked::Tag(
            Of::Hmac(HashType::Sha256, 16),
            &[1; 16],
            ABC,
            b"\x24\x9d\xf4\xb1\x4e\xeb\xa3\x0a\xa9\xeb\x8b\x33\x48\x10\x15\xff",
        ),
        MISMATCH,
    ),
    (
        "HMAC, for another text",
        Asked::Tag(
            Of::Hmac(HashType::Sha256, 16),
            &[1; 16],
            b"abd",
            b"\x24\x9d\xf4\xb1\x4e\xeb\xa3\x0a\xa9\xeb\x8b\x33\x48\x10\x15\xfe",
        ),
        MISMATCH,
    ),
];

fn vectors(alloc: Global, verdict: &mut Verdict, of_copy: bool) {
    verdict.walk(alloc, of_copy, VECTORS);
    verdict.walk(alloc, of_copy, TAGS);
}

pub fn rows(alloc: Global, verdict: &mut Verdict) {
    vectors(alloc, verdict, false);
    vectors(alloc, verdict, true);
}
