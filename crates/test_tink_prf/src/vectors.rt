//! Outside vectors: RFC 4493 and SP 800-38B for AES-CMAC, RFC 5869 for HKDF, RFC 2202 and RFC 4231 for HMAC.

use crate::asked::{ABC, Asked, Of, Row};
use std::alloc::Global;
use test_util::Verdict;
use tink_proto::HashType;

// RFC 4493, section 4, and SP 800-38B, D.1 to D.3.
const CMAC_40: &[u8] =
    b"\x6b\xc1\xbe\xe2\x2e\x40\x9f\x96\xe9\x3d\x7e\x11\x73\x93\x17\x2a\xae\x2d\x8a\x57\x1e\x03\xac\x9c\x9e\xb7\x6f\xac\x45\xaf\x8e\x51\x30\xc8\x1c\x46\xa3\x5c\xe4\x11";

const CMAC_16: &[u8] = b"\x6b\xc1\xbe\xe2\x2e\x40\x9f\x96\xe9\x3d\x7e\x11\x73\x93\x17\x2a";

const KEY_16: &[u8] = b"\x2b\x7e\x15\x16\x28\xae\xd2\xa6\xab\xf7\x15\x88\x09\xcf\x4f\x3c";

const KEY_24: &[u8] =
    b"\x8e\x73\xb0\xf7\xda\x0e\x64\x52\xc8\x10\xf3\x2b\x80\x90\x79\xe5\x62\xf8\xea\xd2\x52\x2c\x6b\x7b";

const KEY_32: &[u8] =
    b"\x60\x3d\xeb\x10\x15\xca\x71\xbe\x2b\x73\xae\xf0\x85\x7d\x77\x81\x1f\x35\x2c\x07\x3b\x61\x08\xd7\x2d\x98\x10\xa3\x09\x14\xdf\xf4";

// RFC 5869, A.1 and A.4: the salt and the info of both.
const SALT: &[u8] = b"\x00\x01\x02\x03\x04\x05\x06\x07\x08\x09\x0a\x0b\x0c";

const INFO: &[u8] = b"\xf0\xf1\xf2\xf3\xf4\xf5\xf6\xf7\xf8\xf9";

// A function and its copy give the outputs.
const VECTORS: &[Row] = &[
    // RFC 4493, section 4, and SP 800-38B, D.1 to D.3.
    (
        "AES-CMAC with a key of 16, of 0 bytes",
        Asked::Output(
            Of::AesCmac,
            KEY_16,
            b"",
            b"\xbb\x1d\x69\x29\xe9\x59\x37\x28\x7f\xa3\x7d\x12\x9b\x75\x67\x46",
        ),
        Ok(true),
    ),
    (
        "AES-CMAC with a key of 16, of 16 bytes",
        Asked::Output(
            Of::AesCmac,
            KEY_16,
            CMAC_16,
            b"\x07\x0a\x16\xb4\x6b\x4d\x41\x44\xf7\x9b\xdd\x9d\xd0\x4a\x28\x7c",
        ),
        Ok(true),
    ),
    (
        "AES-CMAC with a key of 16, of 40 bytes",
        Asked::Output(
            Of::AesCmac,
            KEY_16,
            CMAC_40,
            b"\xdf\xa6\x67\x47\xde\x9a\xe6\x30\x30\xca\x32\x61\x14\x97\xc8\x27",
        ),
        Ok(true),
    ),
    (
        "AES-CMAC with a key of 24, of 40 bytes",
        Asked::Output(
            Of::AesCmac,
            KEY_24,
            CMAC_40,
            b"\x8a\x1d\xe5\xbe\x2e\xb3\x1a\xad\x08\x9a\x82\xe6\xee\x90\x8b\x0e",
        ),
        Ok(true),
    ),
    (
        "AES-CMAC with a key of 32, of 40 bytes",
        Asked::Output(
            Of::AesCmac,
            KEY_32,
            CMAC_40,
            b"\xaa\xf3\xd8\xf1\xde\x56\x40\xc2\x32\xf5\xb1\x69\xb9\xc9\x11\xe6",
        ),
        Ok(true),
    ),
    (
        "AES-CMAC with a key of 16, of 16 bytes, cut",
        Asked::Output(Of::AesCmac, KEY_16, CMAC_16, b"\x07\x0a\x16\xb4\x6b"),
        Ok(true),
    ),
    // RFC 5869, A.1 and A.4.
    (
        "HKDF with SHA-256",
        Asked::Output(
            Of::Hkdf(HashType::Sha256, SALT),
            &[0x0b; 22],
            INFO,
            b"\x3c\xb2\x5f\x25\xfa\xac\xd5\x7a\x90\x43\x4f\x64\xd0\x36\x2f\x2a\x2d\x2d\x0a\x90\xcf\x1a\x5a\x4c\x5d\xb0\x2d\x56\xec\xc4\xc5\xbf\x34\x00\x72\x08\xd5\xb8\x87\x18\x58\x65",
        ),
        Ok(true),
    ),
    (
        "HKDF with SHA-1",
        Asked::Output(
            Of::Hkdf(HashType::Sha1, SALT),
            &[0x0b; 11],
            INFO,
            b"\x08\x5a\x01\xea\x1b\x10\xf3\x69\x33\x06\x8b\x56\xef\xa5\xad\x81\xa4\xf1\x4b\x82\x2f\x5b\x09\x15\x68\xa9\xcd\xd4\xf1\x55\xfd\xa2\xc2\x2e\x42\x24\x78\xd3\x05\xf3\xf8\x96",
        ),
        Ok(true),
    ),
];

const HMAC_VECTORS: &[Row] = &[
    // Test case 1 of RFC 2202 (SHA-1) and of RFC 4231, a prefix of each output.
    (
        "HMAC with SHA-1",
        Asked::Output(
            Of::Hmac(HashType::Sha1),
            &[0x0b; 20],
            b"Hi There",
            b"\xb6\x17\x31\x86\x55\x05\x72\x64\xe2\x8b\xc0\xb6\xfb\x37\x8c\x8e\xf1\x46\xbe\x00",
        ),
        Ok(true),
    ),
    (
        "HMAC with SHA-224",
        Asked::Output(
            Of::Hmac(HashType::Sha224),
            &[0x0b; 20],
            b"Hi There",
            b"\x89\x6f\xb1\x12\x8a\xbb\xdf\x19\x68\x32\x10\x7c\xd4\x9d\xf3\x3f",
        ),
        Ok(true),
    ),
    (
        "HMAC with SHA-256",
        Asked::Output(
            Of::Hmac(HashType::Sha256),
            &[0x0b; 20],
            b"Hi There",
            b"\xb0\x34\x4c\x61\xd8\xdb\x38\x53\x5c\xa8\xaf\xce\xaf\x0b\xf1\x2b\x88\x1d\xc2\x00\xc9\x83\x3d\xa7\x26\xe9\x37\x6c\x2e\x32\xcf\xf7",
        ),
        Ok(true),
    ),
    (
        "HMAC with SHA-384",
        Asked::Output(
            Of::Hmac(HashType::Sha384),
            &[0x0b; 20],
            b"Hi There",
            b"\xaf\xd0\x39\x44\xd8\x48\x95\x62\x6b\x08\x25\xf4\xab\x46\x90\x7f",
        ),
        Ok(true),
    ),
    (
        "HMAC with SHA-512",
        Asked::Output(
            Of::Hmac(HashType::Sha512),
            &[0x0b; 20],
            b"Hi There",
            b"\x87\xaa\x7c\xde\xa5\xef\x61\x9d\x4f\xf0\xb4\x24\x1a\x1d\x6c\xb0",
        ),
        Ok(true),
    ),
    // Outputs of `abc`, by OpenSSL and by Python's HMAC.
    (
        "AES-CMAC with 16 bytes",
        Asked::Output(
            Of::AesCmac,
            KEY_16,
            ABC,
            b"\xbe\x68\x60\xf8\x86\x01\x59\x7b\x64\x7d\xc5\xb2\xa0\x7f\xc0\xad",
        ),
        Ok(true),
    ),
    (
        "AES-CMAC with 24 bytes",
        Asked::Output(
            Of::AesCmac,
            KEY_24,
            ABC,
            b"\xaa\xd4\x00\x56\xd7\x43\xe9\x8e\xab\xe1\xf5\xe7\x1e\xa7\x09\x09",
        ),
        Ok(true),
    ),
    (
        "AES-CMAC with 32 bytes",
        Asked::Output(
            Of::AesCmac,
            KEY_32,
            ABC,
            b"\xad\xb6\xf4\xd4\x56\xc0\x7a\xe5\xf7\xcb\x2b\xc0\xcb\xc6\x5c\x4d",
        ),
        Ok(true),
    ),
    (
        "HKDF",
        Asked::Output(
            Of::Hkdf(HashType::Sha256, b"salt"),
            KEY_32,
            ABC,
            b"\x01\x24\xe7\xf5\xcb\xad\xcc\xb0\x32\x2f\x28\x54\xae\xe9\x8c\xe3",
        ),
        Ok(true),
    ),
    (
        "HMAC",
        Asked::Output(
            Of::Hmac(HashType::Sha512),
            KEY_32,
            ABC,
            b"\xf8\x7a\x7d\x3b\x9c\xbf\x0a\xdd\xac\xed\x44\x79\x6f\xe5\x6d\x93",
        ),
        Ok(true),
    ),
];

// That of RFC 4231, and one by Python's HMAC.
const CODES: &[Row] = &[
    (
        "a code of the standard",
        Asked::Code(
            &[0x0b; 20],
            b"Hi There",
            b"\xb0\x34\x4c\x61\xd8\xdb\x38\x53\x5c\xa8\xaf\xce\xaf\x0b\xf1\x2b",
        ),
        Ok(true),
    ),
    (
        "a code of abc",
        Asked::Code(
            b"\x01\x02\x03\x04\x05\x06\x07\x08\x09\x0a\x0b\x0c\x0d\x0e\x0f\x10\x11\x12\x13\x14\x15\x16\x17\x18\x19\x1a\x1b\x1c\x1d\x1e\x1f\x20",
            ABC,
            b"\xa2\x1b\x1f\x5d\x4c\xf4\xf7\x3a\x4d\xd9\x39\x75\x0f\x7a\x06\x6a",
        ),
        Ok(true),
    ),
];

fn vectors(alloc: Global, verdict: &mut Verdict, of_copy: bool) {
    verdict.walk(alloc, of_copy, VECTORS);
    verdict.walk(alloc, of_copy, HMAC_VECTORS);
}

pub fn rows(alloc: Global, verdict: &mut Verdict) {
    vectors(alloc, verdict, false);
    vectors(alloc, verdict, true);
    verdict.walk(alloc, false, CODES);
}
