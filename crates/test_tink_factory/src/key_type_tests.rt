//! A manager of test keys.

use crate::test_keys::TestKeys;
use std::alloc::Global;
use test_util::{Answer, TestKinds, Verdict, draws_of, gives, succeeds};
use tink_io::{Draws, Kind, TinkError};
use tink_key_manager::{SymmetricKeyManager, add_template, hash_type_of, new_template};
use tink_primitives::{Aead, Primitive};
use tink_proto::{Bytes, HashType, KeyData, KeyMaterialType, KeyTemplate, OutputPrefixType, Text};
use tink_proto_keys::AesGcmKeyFormat;
use tink_registry::KeyManager;

// Whether the manager says this of its keys.
fn says(m: &SymmetricKeyManager<TestKeys>) -> bool {
    m.type_url() == "type.test/key"
        && m.does_support("type.test/key")
        && !m.does_support("type.test/ke")
        && m.key_material_type() == KeyMaterialType::Symmetric
        && !m.supports_private_keys()
}

// Whether the data are those of the test URL, with this value and of the material 1.
fn are_data(data: Result<KeyData, TinkError>, want: &[u8]) -> Result<bool, TinkError> {
    match data {
        Ok(data) => Ok(
            data.type_url.as_str() == "type.test/key"
                && data.key_material_type == 1
                && data.value.as_slice() == want,
        ),
        Err(e) => Err(e),
    }
}

// The text abc, sealed by a primitive.
fn sealed_by(
    alloc: Global,
    built: Result<Primitive<TestKinds>, TinkError>,
    draws: &mut Draws,
) -> Result<Bytes, TinkError> {
    let aead = match built {
        Ok(p) => p.into_aead(),
        Err(e) => Err(e),
    };
    match aead {
        Ok(aead) => aead.encrypt(alloc, b"abc", b"", draws),
        Err(e) => Err(e),
    }
}

// What is asked of a manager.
enum Asked {
    // It says of its keys what it should.
    Says,
    // A key of the format is these bytes, and so are its data.
    MakesKey(&'static [u8], &'static [u8]),
    MakesData(&'static [u8], &'static [u8]),
    // A key builds, and seals abc to this.
    Seals(&'static [u8], &'static [u8]),
    // There is a public part.
    HasPublic,
    // So many draws are left.
    Left(usize),
    // Two templates stand behind each other.
    Templates,
    // The numbers of hashes.
    Hashes,
}

fn answer_row(
    alloc: Global,
    manager: &SymmetricKeyManager<TestKeys>,
    asked: &Asked,
    draws: &mut Draws,
) -> Result<bool, TinkError> {
    match asked {
        Asked::MakesKey(format, want) => gives(manager.new_key(alloc, format, draws), want),
        Asked::MakesData(format, want) => are_data(
            manager.new_key_data(alloc, format, draws),
            want,
        ),
        Asked::Seals(key, want) => {
            gives(sealed_by(alloc, manager.primitive(alloc, key), draws), want)
        }
        Asked::HasPublic => succeeds(manager.public_key_data(alloc, &[])),
        Asked::Left(n) => Ok(draws.left() == *n),
        Asked::Says => Ok(says(manager)),
        Asked::Templates => are_named(alloc, &mut Vec::new(alloc)),
        Asked::Hashes => Ok(hashes_have_their_numbers()),
    }
}

// A format has the size as field 2. A key has the version as field 1 and the value as field 3.
const FORMAT: &[u8] = b"\x10\x10";

const KEY: &[u8] = b"\x1a\x100123456789abcdef";

const SEVENS: &[u8] = b"\x1a\x107777777777777777";

const LATER: &[u8] = b"\x08\x01\x1a\x107777777777777777";

const SHORT: &[u8] = b"\x1a\x0f777777777777777";

const NO_KEY: Answer = Err(Kind::InvalidKey);

const NO_FORMAT: Answer = Err(Kind::InvalidFormat);

const NO_DRAWS: Answer = Err(Kind::RandomFault);

const DRAWS: &[u8] = b"0123456789abcdefd77777777777777777777777777777777777777777777777";

// In this order, with draws of a key and a nonce and 47 digits 7.
const ROWS: &[(&str, Asked, Answer)] = &[
    ("what it says of its keys", Asked::Says, Ok(true)),
    ("a public part", Asked::HasPublic, Err(Kind::NoPrivateKeys)),
    ("a new key", Asked::MakesKey(FORMAT, KEY), Ok(true)),
    (
        "it builds",
        Asked::Seals(KEY, b"dabc0123456789abcdef"),
        Ok(true),
    ),
    ("another key", Asked::MakesKey(FORMAT, SEVENS), Ok(true)),
    (
        "the data of a key",
        Asked::MakesData(FORMAT, SEVENS),
        Ok(true),
    ),
    ("15 draws are left", Asked::Left(15), Ok(true)),
    // Formats of which no key is made.
    ("a key of no format", Asked::MakesKey(b"", b""), NO_FORMAT),
    ("data of no format", Asked::MakesData(b"", b""), NO_FORMAT),
    (
        "a key of no message",
        Asked::MakesKey(b"\xff", b""),
        NO_FORMAT,
    ),
    (
        "data of no message",
        Asked::MakesData(b"\xff", b""),
        NO_FORMAT,
    ),
    (
        "a key of 32 bytes",
        Asked::MakesKey(b"\x10\x20", b""),
        NO_FORMAT,
    ),
    (
        "data of 32 bytes",
        Asked::MakesData(b"\x10\x20", b""),
        NO_FORMAT,
    ),
    (
        "a key from 15 draws",
        Asked::MakesKey(FORMAT, b""),
        NO_DRAWS,
    ),
    (
        "data from 15 draws",
        Asked::MakesData(FORMAT, b""),
        NO_DRAWS,
    ),
    ("refusals draw nothing", Asked::Left(15), Ok(true)),
    // Keys that do not build.
    ("no bytes", Asked::Seals(b"", b""), NO_KEY),
    ("no message", Asked::Seals(b"\xff", b""), NO_KEY),
    ("version 1", Asked::Seals(LATER, b""), NO_KEY),
    ("15 bytes", Asked::Seals(SHORT, b""), NO_KEY),
    // Beside a manager.
    ("two templates", Asked::Templates, Ok(true)),
    ("the numbers of hashes", Asked::Hashes, Ok(true)),
];

fn ask_all(verdict: &mut Verdict, alloc: Global, draws: &mut Draws) {
    let manager = SymmetricKeyManager::new();
    for (row, asked, want) in ROWS {
        verdict.expect(answer_row(alloc, &manager, asked, draws), *want, row);
    }
}

pub fn a_manager_makes_and_builds_keys(alloc: Global, verdict: &mut Verdict) {
    match draws_of(alloc, DRAWS) {
        Ok(mut draws) => ask_all(verdict, alloc, &mut draws),
        Err(e) => verdict.expect(Err(e), Ok(true), "the draws"),
    }
}

const HASHES: &[(i32, HashType)] = &[
    (0, HashType::UnknownHash),
    (1, HashType::Sha1),
    (2, HashType::Sha384),
    (3, HashType::Sha256),
    (4, HashType::Sha512),
    (5, HashType::Sha224),
    (-1, HashType::UnknownHash),
    (6, HashType::UnknownHash),
];

fn hashes_have_their_numbers() -> bool {
    let mut all = true;
    for (number, want) in HASHES {
        all = all && hash_type_of(*number) == *want;
    }
    all
}

// The template of the test keys for CRUNCHY keys.
fn crunchy(alloc: Global) -> Result<KeyTemplate, TinkError> {
    let format = AesGcmKeyFormat {
        key_size: 16,
        version: 0,
    };
    new_template(alloc, "type.test/key", &format, OutputPrefixType::Crunchy)
}

fn is_crunchy(kt: &KeyTemplate) -> bool {
    kt.type_url.as_str() == "type.test/key"
        && kt.value.as_slice() == FORMAT
        && kt.output_prefix_type == 4
}

fn add_crunchy(
    alloc: Global,
    named: &mut Vec<(Text, KeyTemplate)>,
    name: &str,
) -> Result<(), TinkError> {
    match crunchy(alloc) {
        Ok(kt) => add_template(alloc, named, name, kt),
        Err(e) => Err(e),
    }
}

// Whether such templates stand behind each other under the names a and b.
fn are_named(alloc: Global, named: &mut Vec<(Text, KeyTemplate)>) -> Result<bool, TinkError> {
    add_crunchy(alloc, named, "a")?;
    add_crunchy(alloc, named, "b")?;
    Ok(match named.as_slice() {
        [a, b] => {
            a.0.as_str() == "a" && b.0.as_str() == "b" && is_crunchy(&a.1) && is_crunchy(&b.1)
        }
        _ => false,
    })
}
