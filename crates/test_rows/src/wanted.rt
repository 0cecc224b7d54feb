//! Whether the status, the line and the output are those that a row wants.

use crate::bytes::{Named, bytes_named, cut, number, of_digits, put_bytes};
use hash_keys::Hash;
use std::alloc::Global;
use tink_io::TinkError;

// The line of each status.
const LINES: [(u8, &str); 21] = [
    (
        2,
        "usage: seal KEYSET AAD SEED | open KEYSET AAD | keygen TEMPLATE SEED | rotate KEYSET TEMPLATE SEED | large N | range KEYSET AAD START LEN | rewrap KEYSET AAD KEYSET AAD SEED | sign KEYSET | verify KEYSET",
    ),
    (10, "out of memory"),
    (11, "read fault"),
    (12, "write fault"),
    (13, "bad keyset"),
    (14, "invalid keyset"),
    (15, "unsupported key type"),
    (16, "invalid key"),
    (17, "no primary"),
    (18, "wrong primitive"),
    (19, "unsupported hash"),
    (20, "too many segments"),
    (21, "no matching key"),
    (22, "bad segment "),
    (23, "truncated "),
    (24, "unknown template"),
    (25, "no fresh id"),
    (26, "input too long"),
    (27, "bad token"),
    (28, "mac mismatch"),
    // no status of the program
    (255, ""),
];

// The text of the line of a status.
fn text_of(status: u8) -> &'static str {
    for (of, text) in &LINES {
        if *of == status {
            return text;
        }
    }
    ""
}

// Whether a status is one of these.
fn is_status(status: u8, statuses: &str) -> bool {
    let (one, other) = cut(statuses, '/', statuses);
    number(one) == usize::from(status) || number(other) == usize::from(status)
}

/// Whether a status is one of these, two at most with a bar between them, and its line was written, up to the room. Behind
/// the statuses is the end of the line.
pub fn is_told(
    alloc: Global,
    (status, line): (u8, &[u8]),
    wanted: &str,
    room: usize,
) -> Result<bool, TinkError> {
    let (statuses, end) = cut(wanted, ' ', "");
    let is_one = is_status(status, statuses);
    if status == 0 {
        return Ok(is_one && line.is_empty());
    }
    let text = text_of(status);
    let whole = format!(in alloc; "{text}{end}\n")?;
    let whole = whole.as_bytes();
    Ok(is_one && whole.starts_with(line) && line.len() == room.min(whole.len()))
}

/// Whether this was written: `any` bytes, `length n sha256 digest`, the `line` of the digits of bytes, what `begins` the
/// bytes of a name, is shorter and has one of the lengths behind the name, or else exactly the bytes of a text.
pub fn is_written(
    alloc: Global,
    kept: &[Named],
    written: &[u8],
    wanted: &str,
) -> Result<bool, TinkError> {
    let (form, rest) = cut(wanted, ' ', "");
    match form {
        "any" => Ok(true),
        "length" => is_sized(alloc, written, rest),
        "line" => is_line(alloc, kept, written, rest),
        "begins" => Ok(is_front(kept, written, rest)),
        _ => is_text(alloc, kept, written, wanted),
    }
}

// Whether these are the bytes of a text.
fn is_text(alloc: Global, kept: &[Named], bytes: &[u8], text: &str) -> Result<bool, TinkError> {
    let mut wanted = Vec::new(alloc);
    put_bytes(alloc, kept, text, &mut wanted)?;
    Ok(bytes == wanted.as_slice())
}

// Whether these are the digits of the bytes of a text, with small letters, and a newline.
fn is_line(alloc: Global, kept: &[Named], bytes: &[u8], text: &str) -> Result<bool, TinkError> {
    match bytes.split_last() {
        Some((b'\n', digits)) if are_small(digits) => match of_digits(alloc, digits) {
            Ok(spelled) => is_text(alloc, kept, &spelled, text),
            Err(e) => Err(e),
        },
        _ => Ok(false),
    }
}

fn are_small(digits: &[u8]) -> bool {
    digits.iter().all(|digit| !digit.is_ascii_uppercase())
}

// Whether these are so many bytes, with this SHA-256 where one is given.
fn is_sized(alloc: Global, bytes: &[u8], wanted: &str) -> Result<bool, TinkError> {
    let (length, digest) = wanted.split_once(" sha256 ").unwrap_or((wanted, ""));
    let mut found = [0u8; 32];
    Hash::Sha256.hash_into(bytes, &mut found);
    let same = digest.is_empty() || hex::encode(alloc, found)?.as_str() == digest;
    Ok(same && bytes.len() == number(length))
}

// Whether these bytes begin those of a name, and have one of the lengths.
fn is_front(kept: &[Named], bytes: &[u8], wanted: &str) -> bool {
    let (name, lengths) = cut(wanted, ' ', "");
    let whole = bytes_named(kept, name).unwrap_or(&[]);
    let mut one = lengths.is_empty();
    for length in lengths.split(' ') {
        one = one || number(length) == bytes.len();
    }
    one && whole.starts_with(bytes) && bytes.len() < whole.len()
}
