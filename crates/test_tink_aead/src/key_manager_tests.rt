//! Which keys the managers build, and which formats make keys.

use std::alloc::Global;
use test_util::{Answer, Verdict, draws_of, succeeds};
use tink_aead::{
    AES_CTR_HMAC_AEAD_KEY_VERSION, AES_GCM_KEY_VERSION, AES_GCM_SIV_KEY_VERSION,
    AesCtrHmacAeadKeyManager, AesGcmKeyManager, AesGcmSivKeyManager,
};
use tink_core::registry::KeyManager;
use tink_core::{Kind, TinkError};

// What is asked of a manager.
enum Asked {
    // To build a key of a message.
    Build(&'static [u8]),
    // To make a key of a format by so many draws, of which so many are left.
    Make(&'static [u8], usize, usize),
}

enum Manager {
    Gcm,
    GcmSiv,
    CtrHmac,
}

fn makes<M: KeyManager>(
    alloc: Global,
    km: &M,
    format: &[u8],
    n: usize,
    left: usize,
) -> Result<bool, TinkError> {
    let mut draws = draws_of(alloc, &[7; 50][..n.min(50)])?;
    let answer = succeeds(km.new_key(alloc, format, &mut draws));
    if draws.left() == left {
        answer
    } else {
        Ok(false)
    }
}

fn does<M: KeyManager + Drop>(alloc: Global, km: M, asked: &Asked) -> Result<bool, TinkError> {
    match asked {
        Asked::Build(key) => succeeds(km.primitive(alloc, key)),
        Asked::Make(format, n, left) => makes(alloc, &km, format, *n, *left),
    }
}

fn answer_row(alloc: Global, manager: &Manager, asked: &Asked) -> Result<bool, TinkError> {
    match manager {
        Manager::Gcm => does(alloc, AesGcmKeyManager::new(), asked),
        Manager::GcmSiv => does(alloc, AesGcmSivKeyManager::new(), asked),
        Manager::CtrHmac => does(alloc, AesCtrHmacAeadKeyManager::new(), asked),
    }
}

const NO_KEY: Answer = Err(Kind::InvalidKey);

const NO_FORMAT: Answer = Err(Kind::InvalidFormat);

const NO_DRAWS: Answer = Err(Kind::RandomFault);

type Row = (&'static str, Manager, Asked, Answer);

// The version is field 1 of a key, and its value field 3. The size is field 2 of a format.
const ONE_PART: &[Row] = &[
    (
        "GCM, 16 bytes",
        Manager::Gcm,
        Asked::Build(b"\x1a\x100123456789abcdef"),
        Ok(true),
    ),
    (
        "GCM-SIV, 16 bytes",
        Manager::GcmSiv,
        Asked::Build(b"\x1a\x100123456789abcdef"),
        Ok(true),
    ),
    (
        "GCM, 32 bytes",
        Manager::Gcm,
        Asked::Build(b"\x1a\x200123456789abcdefghijklmnopqrstuv"),
        Ok(true),
    ),
    (
        "GCM-SIV, 32 bytes",
        Manager::GcmSiv,
        Asked::Build(b"\x1a\x200123456789abcdefghijklmnopqrstuv"),
        Ok(true),
    ),
    (
        "GCM, 24 bytes",
        Manager::Gcm,
        Asked::Build(b"\x1a\x180123456789abcdefghijklmn"),
        NO_KEY,
    ),
    (
        "GCM-SIV, 24 bytes",
        Manager::GcmSiv,
        Asked::Build(b"\x1a\x180123456789abcdefghijklmn"),
        NO_KEY,
    ),
    ("GCM, no bytes", Manager::Gcm, Asked::Build(b""), NO_KEY),
    (
        "GCM-SIV, no bytes",
        Manager::GcmSiv,
        Asked::Build(b""),
        NO_KEY,
    ),
    (
        "GCM, version 1",
        Manager::Gcm,
        Asked::Build(b"\x08\x01\x1a\x100123456789abcdef"),
        NO_KEY,
    ),
    (
        "GCM-SIV, version 1",
        Manager::GcmSiv,
        Asked::Build(b"\x08\x01\x1a\x100123456789abcdef"),
        NO_KEY,
    ),
    (
        "GCM format, 15 draws",
        Manager::Gcm,
        Asked::Make(b"\x10\x10", 15, 15),
        NO_DRAWS,
    ),
    (
        "GCM format, 24 bytes",
        Manager::Gcm,
        Asked::Make(b"\x10\x18", 15, 15),
        NO_FORMAT,
    ),
];

// A cipher's key is field 2 and has vectors of field 1 of its params; a MAC's key is field 3. Their values are field 3.
// Of a format, the cipher's is field 1 and the MAC's field 2, and sizes of keys are field 2 of both.
const TWO_PARTS: &[Row] = &[
    (
        "16 bytes, vectors of 12",
        Manager::CtrHmac,
        Asked::Build(
            b"\x12\x16\x12\x02\x08\x0c\x1a\x100123456789abcdef\x1a\x18\x12\x04\x08\x03\x10\x10\x1a\x100123456789abcdef",
        ),
        Ok(true),
    ),
    (
        "32 bytes, vectors of 16",
        Manager::CtrHmac,
        Asked::Build(
            b"\x12\x26\x12\x02\x08\x10\x1a\x200123456789abcdefghijklmnopqrstuv\x1a\x30\x12\x04\x08\x03\x10\x10\x1a\x280123456789abcdefghijklmnopqrstuvwxyzABCD",
        ),
        Ok(true),
    ),
    (
        "version 1 of the key",
        Manager::CtrHmac,
        Asked::Build(
            b"\x08\x01\x12\x16\x12\x02\x08\x0c\x1a\x100123456789abcdef\x1a\x18\x12\x04\x08\x03\x10\x10\x1a\x100123456789abcdef",
        ),
        NO_KEY,
    ),
    (
        "version 1 of the cipher's key",
        Manager::CtrHmac,
        Asked::Build(
            b"\x12\x18\x08\x01\x12\x02\x08\x0c\x1a\x100123456789abcdef\x1a\x18\x12\x04\x08\x03\x10\x10\x1a\x100123456789abcdef",
        ),
        NO_KEY,
    ),
    (
        "version 1 of the MAC's key",
        Manager::CtrHmac,
        Asked::Build(
            b"\x12\x16\x12\x02\x08\x0c\x1a\x100123456789abcdef\x1a\x1a\x08\x01\x12\x04\x08\x03\x10\x10\x1a\x100123456789abcdef",
        ),
        NO_KEY,
    ),
    (
        "AES keys of 24 bytes",
        Manager::CtrHmac,
        Asked::Build(
            b"\x12\x1e\x12\x02\x08\x0c\x1a\x180123456789abcdefghijklmn\x1a\x18\x12\x04\x08\x03\x10\x10\x1a\x100123456789abcdef",
        ),
        NO_KEY,
    ),
    (
        "vectors of 11 bytes",
        Manager::CtrHmac,
        Asked::Build(
            b"\x12\x16\x12\x02\x08\x0b\x1a\x100123456789abcdef\x1a\x18\x12\x04\x08\x03\x10\x10\x1a\x100123456789abcdef",
        ),
        NO_KEY,
    ),
    (
        "vectors of 17 bytes",
        Manager::CtrHmac,
        Asked::Build(
            b"\x12\x16\x12\x02\x08\x11\x1a\x100123456789abcdef\x1a\x18\x12\x04\x08\x03\x10\x10\x1a\x100123456789abcdef",
        ),
        NO_KEY,
    ),
    (
        "HMAC keys of 15 bytes",
        Manager::CtrHmac,
        Asked::Build(
            b"\x12\x16\x12\x02\x08\x0c\x1a\x100123456789abcdef\x1a\x17\x12\x04\x08\x03\x10\x10\x1a\x0f0123456789abcde",
        ),
        NO_KEY,
    ),
    (
        "no MAC's key",
        Manager::CtrHmac,
        Asked::Build(b"\x12\x16\x12\x02\x08\x0c\x1a\x100123456789abcdef"),
        NO_KEY,
    ),
    (
        "no cipher's key",
        Manager::CtrHmac,
        Asked::Build(b"\x1a\x18\x12\x04\x08\x03\x10\x10\x1a\x100123456789abcdef"),
        NO_KEY,
    ),
    (
        "50 draws of a format",
        Manager::CtrHmac,
        Asked::Make(
            b"\x0a\x06\x0a\x02\x08\x0c\x10\x10\x12\x0a\x0a\x04\x08\x03\x10\x10\x10\x22\x18\x07",
            50,
            0,
        ),
        Ok(true),
    ),
    (
        "51 draws of a format, the AES key first",
        Manager::CtrHmac,
        Asked::Make(
            b"\x0a\x06\x0a\x02\x08\x0c\x10\x10\x12\x0a\x0a\x04\x08\x03\x10\x10\x10\x23\x18\x07",
            50,
            34,
        ),
        NO_DRAWS,
    ),
    (
        "a format of AES keys of 24 bytes",
        Manager::CtrHmac,
        Asked::Make(
            b"\x0a\x06\x0a\x02\x08\x0c\x10\x18\x12\x0a\x0a\x04\x08\x03\x10\x10\x10\x20\x18\x07",
            50,
            50,
        ),
        NO_FORMAT,
    ),
    (
        "a format of vectors of 11 bytes",
        Manager::CtrHmac,
        Asked::Make(
            b"\x0a\x06\x0a\x02\x08\x0b\x10\x10\x12\x0a\x0a\x04\x08\x03\x10\x10\x10\x20\x18\x07",
            50,
            50,
        ),
        NO_FORMAT,
    ),
    (
        "a format of HMAC keys of 15 bytes",
        Manager::CtrHmac,
        Asked::Make(
            b"\x0a\x06\x0a\x02\x08\x0c\x10\x10\x12\x0a\x0a\x04\x08\x03\x10\x10\x10\x0f\x18\x07",
            50,
            50,
        ),
        NO_FORMAT,
    ),
];

const TABLES: &[&[Row]] = &[ONE_PART, TWO_PARTS];

pub fn keys_and_formats_by_their_messages(alloc: Global, verdict: &mut Verdict) {
    for rows in TABLES {
        for (row, manager, asked, want) in *rows {
            verdict.expect(answer_row(alloc, manager, asked), *want, row);
        }
    }
    let versions = [
        AES_GCM_KEY_VERSION,
        AES_GCM_SIV_KEY_VERSION,
        AES_CTR_HMAC_AEAD_KEY_VERSION,
    ];
    verdict.expect(Ok(versions == [0; 3]), Ok(true), "the versions");
}
