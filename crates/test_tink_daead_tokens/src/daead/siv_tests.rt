//! AES-SIV under one key: outside vectors, refusals and copies.

ghost use Rattle.std.specs.Prelude.{Ok};
ghost use Rattle.tink_io.specs.Answering.{Answers};
ghost use Rattle.tink_daead.specs.AesSiv.{aes_siv};

use hash_keys::Hash;
use std::alloc::Global;
use test_util::{Verdict, gives, kind_of};
use tink_core::{CloneIn, DeterministicAead, Kind, TinkError};
use tink_daead::subtle::AesSiv;
use tink_proto::Bytes;

/// V and the ciphertext of a text with associated data.
fn sealed_by(aead: &AesSiv, alloc: Global, text: &[u8], aad: &[u8]) -> Result<Bytes, TinkError>
    ensures { Answers result (Ok (aes_siv aead.now aad.now text.now)) }
{
    aead.encrypt_deterministically(alloc, text, aad)
}

// What is made of a text with associated data, where a copy decrypts it to the text.
fn sealed_and_opened(
    alloc: Global,
    aead: &AesSiv,
    text: &[u8],
    data: &[u8],
) -> Result<Bytes, TinkError> {
    match sealed_by(aead, alloc, text, data) {
        Ok(sealed) => match copy_opens(alloc, aead, sealed.as_slice(), data, text) {
            Ok(true) => Ok(sealed),
            Ok(false) => Ok(Bytes::new(alloc)),
            Err(e) => Err(e),
        },
        Err(e) => Err(e),
    }
}

fn copy_opens(
    alloc: Global,
    aead: &AesSiv,
    sealed: &[u8],
    data: &[u8],
    text: &[u8],
) -> Result<bool, TinkError> {
    match aead.try_clone(alloc) {
        Ok(copy) => gives(copy.decrypt_deterministically(alloc, sealed, data), text),
        Err(e) => Err(e),
    }
}

fn made_by(alloc: Global, key: &[u8], text: &[u8], data: &[u8]) -> Result<Bytes, TinkError> {
    match AesSiv::new(alloc, key) {
        Ok(aead) => sealed_and_opened(alloc, &aead, text, data),
        Err(e) => Err(e),
    }
}

// RFC 5297, A.1.
const KEY: &[u8] =
    b"\xff\xfe\xfd\xfc\xfb\xfa\xf9\xf8\xf7\xf6\xf5\xf4\xf3\xf2\xf1\xf0\xf0\xf1\xf2\xf3\xf4\xf5\xf6\xf7\xf8\xf9\xfa\xfb\xfc\xfd\xfe\xff";

const DATA: &[u8] =
    b"\x10\x11\x12\x13\x14\x15\x16\x17\x18\x19\x1a\x1b\x1c\x1d\x1e\x1f\x20\x21\x22\x23\x24\x25\x26\x27";

const TEXT: &[u8] = b"\x11\x22\x33\x44\x55\x66\x77\x88\x99\xaa\xbb\xcc\xdd\xee";

const SEALED: &[u8] =
    b"\x85\x63\x2d\x07\xc6\xe8\xf3\x7f\x95\x0a\xcd\x32\x0a\x2e\xcc\x93\x40\xc0\x2b\x96\x90\xc4\xdc\x04\xda\xef\x7f\x6a\xfe\x5c";

// A key of 64 bytes, and what pyca/cryptography 48 makes with it of `a text` and `data`.
const THREES: &[u8] = &[3; 64];

const OF_A_TEXT: &[u8; 22] =
    b"\x0c\x56\xe3\x64\x59\x5f\xb7\x89\x6f\xec\x9d\xd4\x27\xc7\x6f\xdf\xad\xe7\x5e\xcb\x4b\x8a";

// Bytes of which each is by a step more than the one before it.
fn bytes_by_step(first: u8, step: u8) -> [u8; 1000] {
    let mut bytes = [0; 1000];
    let mut next = first;
    for at in 0..1000usize {
        bytes[at] = next;
        next = next.wrapping_add(step);
    }
    bytes
}

fn has_digest(made: Result<Bytes, TinkError>, digest: u64) -> Result<bool, TinkError> {
    match made {
        Ok(bytes) => {
            let mut code = [0u8; 8];
            Hash::Sha256.hash_into(bytes.as_slice(), &mut code);
            Ok(u64::from_be_bytes(code) == digest)
        }
        Err(e) => Err(e),
    }
}

fn holds(
    alloc: Global,
    key: usize,
    data: usize,
    text: usize,
    digest: u64,
) -> Result<bool, TinkError> {
    let key = &bytes_by_step(7, 5)[..key.min(1000)];
    let data = &bytes_by_step(1, 7)[..data.min(1000)];
    let text = &bytes_by_step(3, 11)[..text.min(1000)];
    has_digest(made_by(alloc, key, text, data), digest)
}

// By what these bytes are refused with this data, if they are.
fn refusal_of(alloc: Global, aead: &AesSiv, input: &[u8], data: &[u8]) -> Option<Kind> {
    kind_of(aead.decrypt_deterministically(alloc, input, data))
}

// Whether the 22 bytes are refused with a bit changed at this place.
fn refuses_a_bit(alloc: Global, aead: &AesSiv, bit: usize) -> bool {
    let mut changed = *OF_A_TEXT;
    if let Some(byte) = changed.get_mut(bit / 8) {
        *byte ^= 1 << (bit % 8);
    }
    refusal_of(alloc, aead, &changed, b"data") == Some(Kind::DecryptFailed)
}

// Whether each changed bit of them, a byte less and other data are refused.
fn refuses_changes(alloc: Global, aead: &AesSiv) -> bool {
    let mut all = true;
    for bit in 0..176usize {
        all = all & refuses_a_bit(alloc, aead, bit);
    }
    let failed = Some(Kind::DecryptFailed);
    let less = refusal_of(alloc, aead, &OF_A_TEXT[..21], b"data") == failed;
    let other = refusal_of(alloc, aead, OF_A_TEXT, b"") == failed;
    all & less & other
}

fn refuses_all_changes(alloc: Global) -> Result<bool, TinkError> {
    match AesSiv::new(alloc, THREES) {
        Ok(aead) => Ok(refuses_changes(alloc, &aead)),
        Err(e) => Err(e),
    }
}

// Whether a key of so many bytes is taken or refused as it is to be.
fn is_key_told(alloc: Global, bytes: &[u8]) -> bool {
    let is_known = bytes.len() == 32 || bytes.len() == 64;
    let want = if is_known {
        None
    } else {
        Some(Kind::BadKeySize)
    };
    kind_of(AesSiv::new(alloc, bytes)) == want
}

// Whether an input of so many is refused as it is to be.
fn is_input_told(alloc: Global, aead: &AesSiv, bytes: &[u8]) -> bool {
    let want = if bytes.len() < 16 {
        Kind::TooShort
    } else {
        Kind::DecryptFailed
    };
    refusal_of(alloc, aead, bytes, b"") == Some(want)
}

// Keys and inputs of 0 to 69 bytes.
fn are_told(alloc: Global, aead: &AesSiv) -> bool {
    let mut all = true;
    for size in 0..70usize {
        let bytes = &[0; 70][..size];
        all = all & is_key_told(alloc, bytes) & is_input_told(alloc, aead, bytes);
    }
    all
}

fn are_all_told(alloc: Global) -> Result<bool, TinkError> {
    match AesSiv::new(alloc, &[0; 32]) {
        Ok(aead) => Ok(are_told(alloc, &aead)),
        Err(e) => Err(e),
    }
}

enum Asked {
    // This key, this text and these data make this.
    Known(&'static [u8], &'static [u8], &'static [u8], &'static [u8]),
    // What is made with a key, data and a text of these sizes has a SHA-256 that begins with these eight bytes.
    Made(usize, usize, usize, u64),
    // Each changed bit is refused.
    Changes,
    // Keys of two sizes are taken, and inputs of 16 bytes or more are tried.
    Sizes,
}

fn answer_row(alloc: Global, asked: &Asked) -> Result<bool, TinkError> {
    match asked {
        Asked::Known(key, text, data, want) => gives(made_by(alloc, key, text, data), want),
        Asked::Made(key, data, text, digest) => holds(alloc, *key, *data, *text, *digest),
        Asked::Changes => refuses_all_changes(alloc),
        Asked::Sizes => are_all_told(alloc),
    }
}

// The digests are of what pyca/cryptography 48 makes.
const ROWS: &[(&str, Asked)] = &[
    ("A.1", Asked::Known(KEY, TEXT, DATA, SEALED)),
    (
        "a text under a key of 64 bytes",
        Asked::Known(THREES, b"a text", b"data", OF_A_TEXT),
    ),
    (
        "a key of 32 bytes, data of 17 and a text of 0",
        Asked::Made(32, 17, 0, 0x17df09ecc3c8d113),
    ),
    (
        "a key of 32 bytes, data of 31 and a text of 1",
        Asked::Made(32, 31, 1, 0xea30502eda124a92),
    ),
    (
        "a key of 32 bytes, data of 32 and a text of 15",
        Asked::Made(32, 32, 15, 0x8b79e09a0e38077e),
    ),
    (
        "a key of 32 bytes, data of 64 and a text of 16",
        Asked::Made(32, 64, 16, 0x500b28b5c2e8338e),
    ),
    (
        "a key of 32 bytes, data of 1000 and a text of 17",
        Asked::Made(32, 1000, 17, 0x88e2859c605aaff9),
    ),
    (
        "a key of 32 bytes, data of 0 and a text of 31",
        Asked::Made(32, 0, 31, 0xb11f6fa9373c3100),
    ),
    (
        "a key of 32 bytes, data of 1 and a text of 32",
        Asked::Made(32, 1, 32, 0x7868ffadb6451cd5),
    ),
    (
        "a key of 32 bytes, data of 15 and a text of 64",
        Asked::Made(32, 15, 64, 0x8a1227bab17232fa),
    ),
    (
        "a key of 32 bytes, data of 16 and a text of 1000",
        Asked::Made(32, 16, 1000, 0xdb7893bb798dd714),
    ),
    (
        "a key of 64 bytes, data of 17 and a text of 0",
        Asked::Made(64, 17, 0, 0xe2242c1dd4a5f31a),
    ),
    (
        "a key of 64 bytes, data of 31 and a text of 1",
        Asked::Made(64, 31, 1, 0x6d377940592fa346),
    ),
    (
        "a key of 64 bytes, data of 32 and a text of 15",
        Asked::Made(64, 32, 15, 0x8a3c01836df9edbe),
    ),
    (
        "a key of 64 bytes, data of 64 and a text of 16",
        Asked::Made(64, 64, 16, 0x580afcc50a1c0172),
    ),
    (
        "a key of 64 bytes, data of 1000 and a text of 17",
        Asked::Made(64, 1000, 17, 0x3abbfaa9cb784afc),
    ),
    (
        "a key of 64 bytes, data of 0 and a text of 31",
        Asked::Made(64, 0, 31, 0x7858ffb33bda8fd7),
    ),
    (
        "a key of 64 bytes, data of 1 and a text of 32",
        Asked::Made(64, 1, 32, 0x325c1720dbc47599),
    ),
    (
        "a key of 64 bytes, data of 15 and a text of 64",
        Asked::Made(64, 15, 64, 0x35652a2f73ae59ef),
    ),
    (
        "a key of 64 bytes, data of 16 and a text of 1000",
        Asked::Made(64, 16, 1000, 0x2b345a6a07429300),
    ),
    ("the changes", Asked::Changes),
    ("keys and inputs", Asked::Sizes),
];

pub fn aes_siv_is_as_the_rows_say(alloc: Global, verdict: &mut Verdict) {
    for (row, asked) in ROWS {
        verdict.expect(answer_row(alloc, asked), Ok(true), row);
    }
}
