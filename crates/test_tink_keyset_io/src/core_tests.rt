//! Hashes by their types, key derivation, comparison and random numbers, under the paths of Tink.

ghost use Rattle.std.specs.Prelude.{[]};
ghost use Rattle.tink_core_subtle.specs.Hashes.{derived, hash_named};
ghost use Rattle.tink_io.specs.Answering.{Answers};
ghost use Rattle.tink_proto.specs.declared.enums.HashType.TheVariants as types;

use std::alloc::Global;
use test_util::{Answer, Verdict, draws_of, gives};
use tink_core::subtle::{
    compute_hash, compute_hkdf, constant_time_compare, get_hash_digest_size, get_hash_func, random,
};
use tink_core::{Draws, Kind, TinkError, UPSTREAM_VERSION};
use tink_proto::{Bytes, HashType};

// A key of 32 bytes, derived by SHA-256.
fn subkey(alloc: Global, key: &[u8], info: &[u8]) -> Result<Bytes, TinkError>
    ensures { Answers result (derived (hash_named types.Sha256) key.now [] info.now 32) }
{
    compute_hkdf(alloc, HashType::Sha256, key, &[], info, 32)
}

enum Asked {
    // The size of a hash's digests.
    Size(HashType, usize),
    // The digest of `abc`, or nothing where there is no hash.
    Digest(HashType, &'static [u8]),
    // What is derived of a key with a salt and an info, of a size.
    Derive(HashType, &'static [u8], &'static [u8], &'static [u8], usize, &'static [u8]),
    // The key of 32 bytes, derived of a key with an info.
    Subkey(&'static [u8], &'static [u8], &'static [u8]),
    // Whether two texts are the same.
    Compare(&'static [u8], &'static [u8]),
    // The number of the next draws, the next bytes, and how many are left.
    Number(u32),
    Draw(&'static [u8]),
    Left(usize),
    // The version of upstream.
    Version(&'static str),
}

fn is_size(answer: Result<usize, TinkError>, want: usize) -> Result<bool, TinkError> {
    match answer {
        Ok(size) => Ok(size == want),
        Err(e) => Err(e),
    }
}

fn is_digest_of_abc(alloc: Global, hash: HashType, want: &[u8]) -> Result<bool, TinkError> {
    match get_hash_func(hash) {
        Some(hash) => gives(compute_hash(alloc, &hash, b"abc"), want),
        None => Ok(want.is_empty()),
    }
}

fn is_number(drawn: Result<u32, TinkError>, want: u32) -> Result<bool, TinkError> {
    match drawn {
        Ok(number) => Ok(number == want),
        Err(e) => Err(e),
    }
}

fn answer_row(alloc: Global, draws: &mut Draws, asked: &Asked) -> Result<bool, TinkError> {
    match asked {
        Asked::Size(hash, want) => is_size(get_hash_digest_size(*hash), *want),
        Asked::Digest(hash, want) => is_digest_of_abc(alloc, *hash, want),
        Asked::Derive(hash, key, salt, info, size, want) => gives(
            compute_hkdf(alloc, *hash, key, salt, info, *size),
            want,
        ),
        Asked::Subkey(key, info, want) => gives(subkey(alloc, key, info), want),
        Asked::Compare(a, b) => Ok(constant_time_compare(a, b)),
        Asked::Number(want) => is_number(random::get_random_uint32(draws), *want),
        Asked::Draw(want) => gives(random::get_random_bytes(alloc, draws, want.len()), want),
        Asked::Left(n) => Ok(draws.left() == *n),
        Asked::Version(want) => Ok(UPSTREAM_VERSION == *want),
    }
}

const UNKNOWN: Answer = Err(Kind::UnknownHash);

const KEY: &[u8] = &[0x0b; 22];

const SALT: &[u8] = b"\x00\x01\x02\x03\x04\x05\x06\x07\x08\x09\x0a\x0b\x0c";

const INFO: &[u8] = b"\xf0\xf1\xf2\xf3\xf4\xf5\xf6\xf7\xf8\xf9";

const ROWS: &[(&str, Asked, Answer)] = &[
    ("the version", Asked::Version("1.6.0"), Ok(true)),
    (
        "the size of SHA-1",
        Asked::Size(HashType::Sha1, 20),
        Ok(true),
    ),
    (
        "the size of SHA-384",
        Asked::Size(HashType::Sha384, 48),
        Ok(true),
    ),
    (
        "the size of the unknown hash",
        Asked::Size(HashType::UnknownHash, 0),
        UNKNOWN,
    ),
    (
        "none of it",
        Asked::Digest(HashType::UnknownHash, b""),
        Ok(true),
    ),
    // FIPS 180-4's example of SHA-1.
    (
        "SHA-1 of abc",
        Asked::Digest(
            HashType::Sha1,
            b"\xa9\x99\x3e\x36\x47\x06\x81\x6a\xba\x3e\x25\x71\x78\x50\xc2\x6c\x9c\xd0\xd8\x9d",
        ),
        Ok(true),
    ),
    // RFC 5869, A.1.
    (
        "the first vector",
        Asked::Derive(
            HashType::Sha256,
            KEY,
            SALT,
            INFO,
            42,
            b"\x3c\xb2\x5f\x25\xfa\xac\xd5\x7a\x90\x43\x4f\x64\xd0\x36\x2f\x2a\x2d\x2d\x0a\x90\xcf\x1a\x5a\x4c\x5d\xb0\x2d\x56\xec\xc4\xc5\xbf\x34\x00\x72\x08\xd5\xb8\x87\x18\x58\x65",
        ),
        Ok(true),
    ),
    // By Python's `hmac`. A shorter key is a prefix of a longer one.
    (
        "a key of 32 bytes",
        Asked::Subkey(
            KEY,
            INFO,
            b"\xab\xba\xfb\x13\xf5\xc1\xbc\x48\x9d\x42\x03\x13\x58\x17\x95\x6d\xd5\x21\xb3\x9e\x3b\xd6\x1d\x1c\xc8\x5c\xef\x88\x4d\x1f\x8e\x2e",
        ),
        Ok(true),
    ),
    (
        "a key of 40 bytes",
        Asked::Derive(
            HashType::Sha256,
            KEY,
            b"",
            INFO,
            40,
            b"\xab\xba\xfb\x13\xf5\xc1\xbc\x48\x9d\x42\x03\x13\x58\x17\x95\x6d\xd5\x21\xb3\x9e\x3b\xd6\x1d\x1c\xc8\x5c\xef\x88\x4d\x1f\x8e\x2e\x2c\xa9\xc1\x9f\x23\xdf\x62\x0d",
        ),
        Ok(true),
    ),
    // Derivation is refused in order.
    (
        "9000 bytes by the unknown hash",
        Asked::Derive(HashType::UnknownHash, b"", b"", b"", 9000, b""),
        UNKNOWN,
    ),
    (
        "7141 bytes by SHA-224",
        Asked::Derive(HashType::Sha224, b"", b"", b"", 7141, b""),
        Err(Kind::OutputTooLong),
    ),
    (
        "9 bytes by SHA-224",
        Asked::Derive(HashType::Sha224, b"", b"", b"", 9, b""),
        Err(Kind::TagTooSmall),
    ),
    (
        "7140 bytes by SHA-224",
        Asked::Derive(HashType::Sha224, b"", b"", b"", 7140, b""),
        Err(Kind::UnsupportedHash),
    ),
    // Bytes are compared to their end.
    ("the same bytes", Asked::Compare(b"abc", b"abc"), Ok(true)),
    ("another end", Asked::Compare(b"abc", b"abd"), Ok(false)),
    ("another begin", Asked::Compare(b"bbc", b"abc"), Ok(false)),
    ("a byte more", Asked::Compare(b"abc", b"abcd"), Ok(false)),
    // Random numbers are draws.
    ("a number", Asked::Number(0x0102_0304), Ok(true)),
    ("bytes", Asked::Draw(b"\x05\x06"), Ok(true)),
    ("no number", Asked::Number(0), Err(Kind::RandomFault)),
    ("the draws that are left", Asked::Left(1), Ok(true)),
];

pub fn calls_answer_as_the_rows_say(alloc: Global, verdict: &mut Verdict) {
    match draws_of(alloc, b"\x01\x02\x03\x04\x05\x06\x07") {
        Ok(mut draws) => {
            for (row, asked, want) in ROWS {
                verdict.expect(answer_row(alloc, &mut draws, asked), *want, row);
            }
        }
        Err(e) => verdict.expect(Err(e), Ok(true), "draws"),
    }
}
