//! AES in counter mode, and then HMAC.

use crate::asking::{Asked, Sealed, does_if_made};
use std::alloc::Global;
use test_util::{Answer, Verdict};
use tink_aead_subtle::{AesCtr, EncryptThenAuthenticate};
use tink_io::{Kind, TinkError};
use tink_mac::subtle::Hmac;
use tink_proto::HashType;

// The 32 bytes from this one on.
fn bytes_from(first: u8) -> [u8; 32] {
    let mut bytes = [0; 32];
    for i in 0..32usize {
        bytes[i] = first.wrapping_add(i as u8);
    }
    bytes
}

fn hmac_of(alloc: Global) -> Result<Hmac, TinkError> {
    Hmac::new(alloc, HashType::Sha256, &bytes_from(32), 16)
}

type Composed = EncryptThenAuthenticate<AesCtr, Hmac>;

// The AEAD with tags of these bytes, over a MAC with tags of 16.
fn aead_of(alloc: Global, tag_size: usize) -> Result<Composed, TinkError> {
    let mac = hmac_of(alloc)?;
    match AesCtr::new(alloc, &bytes_from(0)[..16], 16) {
        Ok(cipher) => EncryptThenAuthenticate::new(cipher, mac, tag_size),
        Err(e) => Err(e),
    }
}

// By pyca/cryptography 48 and Python's `hmac`.
const SEALED: &Sealed = &Sealed {
    data: b"some data",
    text: b"abc",
    sealed: b"\xc8\xc9\xca\xcb\xcc\xcd\xce\xcf\xd0\xd1\xd2\xd3\xd4\xd5\xd6\xd7\x6d\xf5\x7e\xc0\xc4\xfe\xaa\x99\x39\xd1\x5d\xe4\xcb\xeb\x37\xe4\xe1\x8f\x2e",
};

fn answer_row(alloc: Global, tag_size: usize, asked: &Asked) -> Result<bool, TinkError> {
    does_if_made(alloc, aead_of(alloc, tag_size), SEALED, asked)
}

// `sealed`, which is less than a vector, and its tag with the data `d` of eight bits, by Python's `hmac`.
const LESS: &[u8] = b"sealed\xa1\x76\xf9\xaf\xd3\x4b\x58\xa0\x2d\xe4\xed\x28\x71\x09\xbd\x53";

const MISMATCH: Answer = Err(Kind::MacMismatch);

const BAD_TAG: Answer = Err(Kind::BadTagSize);

// The vector is drawn before the tag is refused.
const ROWS: &[(&str, usize, Asked, Answer)] = &[
    (
        "it encrypts by 16 of 17 draws",
        16,
        Asked::Encrypt(17, 1),
        Ok(true),
    ),
    ("it decrypts", 16, Asked::Decrypt(0, None), Ok(true)),
    ("a copy decrypts", 16, Asked::Copy, Ok(true)),
    (
        "other data",
        16,
        Asked::Decrypt(0, Some(b"some dat")),
        MISMATCH,
    ),
    ("34 bytes", 16, Asked::Decrypt(1, None), MISMATCH),
    ("16 bytes", 16, Asked::Decrypt(19, None), MISMATCH),
    (
        "15 bytes",
        16,
        Asked::Decrypt(20, Some(b"")),
        Err(Kind::TooShort),
    ),
    ("tags of 9 bytes", 9, Asked::Encrypt(17, 17), BAD_TAG),
    ("tags of 20 bytes", 20, Asked::Encrypt(16, 0), BAD_TAG),
    (
        "15 draws",
        16,
        Asked::Encrypt(15, 15),
        Err(Kind::RandomFault),
    ),
    // The MAC accepts, and then the cipher refuses.
    (
        "less than a vector",
        16,
        Asked::Open(LESS, b"d"),
        Err(Kind::TooShort),
    ),
    (
        "a changed bit at each place",
        16,
        Asked::Changes(Kind::MacMismatch),
        Ok(true),
    ),
];

pub fn encrypts_and_authenticates(alloc: Global, verdict: &mut Verdict) {
    for (row, tag_size, asked, want) in ROWS {
        verdict.expect(answer_row(alloc, *tag_size, asked), *want, row);
    }
}
