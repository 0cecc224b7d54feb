//! The rows of keysets as they are, through memory.

use crate::encrypted_tests::{How, Kept, PUBLIC, Row, Step, TWO};
use test_util::Answer;
use tink_io::Kind;

const NO_KEYSET: Answer = Err(Kind::NoKeyset);

/// Empty memory gives no keyset.
pub const NOTHING: &[Row] = &[
    (
        "no encrypted keyset",
        Step::Read(How::Bound, b""),
        NO_KEYSET,
        Kept::Nothing,
        0,
    ),
    (
        "no keyset without secrets",
        Step::Read(How::Plain, b""),
        NO_KEYSET,
        Kept::Nothing,
        0,
    ),
    (
        "no keyset as it is",
        Step::Read(How::AsItIs, b""),
        NO_KEYSET,
        Kept::Nothing,
        0,
    ),
];

// A destroyed key of id 7. So is its info.
const DESTROYED: &[u8] = b"\x08\x07\x12\x06\x10\x03\x18\x07\x20\x03";

/// Secrets are not written, and keysets without them as they are.
pub const PLAIN: &[Row] = &[
    (
        "secrets are not written",
        Step::Write(How::Plain, TWO),
        Err(Kind::HasSecrets),
        Kept::Nothing,
        0,
    ),
    (
        "a public key is written",
        Step::Write(How::Plain, PUBLIC),
        Ok(true),
        Kept::Keyset,
        0,
    ),
    (
        "a public key is read",
        Step::Read(How::Plain, PUBLIC),
        Ok(true),
        Kept::Keyset,
        0,
    ),
    (
        "a destroyed key is written",
        Step::Write(How::Plain, DESTROYED),
        Ok(true),
        Kept::Keyset,
        0,
    ),
    (
        "a destroyed key is read",
        Step::Read(How::Plain, DESTROYED),
        Ok(true),
        Kept::Keyset,
        0,
    ),
    (
        "a destroyed key that was read is written as it is",
        Step::Again(How::Plain, How::AsItIs),
        Ok(true),
        Kept::Keyset,
        0,
    ),
    (
        "it is read as it is",
        Step::Read(How::AsItIs, DESTROYED),
        Ok(true),
        Kept::Keyset,
        0,
    ),
    (
        "a public key is there again",
        Step::Put(PUBLIC),
        Ok(true),
        Kept::Keyset,
        0,
    ),
    (
        "a destroyed key is written as it is",
        Step::Write(How::AsItIs, DESTROYED),
        Ok(true),
        Kept::Keyset,
        0,
    ),
    (
        "a destroyed key is read as it is",
        Step::Read(How::AsItIs, DESTROYED),
        Ok(true),
        Kept::Keyset,
        0,
    ),
    (
        "the info of a destroyed key",
        Step::Info(How::AsItIs, DESTROYED),
        Ok(true),
        Kept::Keyset,
        0,
    ),
];

/// Secrets are read and written by the insecure calls alone, and a keyset without keys is not read.
pub const SECRETS: &[Row] = &[
    (
        "secrets are written as they are",
        Step::Write(How::AsItIs, TWO),
        Ok(true),
        Kept::Keyset,
        0,
    ),
    (
        "secrets are read as they are",
        Step::Read(How::AsItIs, TWO),
        Ok(true),
        Kept::Keyset,
        0,
    ),
    (
        "secrets are not read",
        Step::Read(How::Plain, b""),
        Err(Kind::HasSecrets),
        Kept::Keyset,
        0,
    ),
    (
        "a keyset without keys",
        Step::Put(b"\x08\x07"),
        Ok(true),
        Kept::Keyset,
        0,
    ),
    (
        "a keyset without keys is not read",
        Step::Read(How::AsItIs, b""),
        Err(Kind::InvalidKeyset),
        Kept::Keyset,
        0,
    ),
];
