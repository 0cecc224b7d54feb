//! Streams under keys of either kind, over memory.

use crate::callers::new_stream;
use crate::streams::{
    BY_GCM, DRAWS, IN_COUNTER_MODE, MAIN, TEXT, draws, encrypt_in_pieces, key_of, new_writer,
    opens, sink,
};
use std::alloc::Global;
use tink_io::{Draws, Kind, TinkError};
use tink_proto::HashType;
use tink_streaming_keys::{AesGcmHkdf, StreamKind};

// What is asked of a key.
#[derive(Clone, Copy)]
enum Asked {
    // that the text's stream, written in pieces of so many bytes, is this one
    Seals(&'static [u8], usize),
    // that a stream, of whose source these calls fail, opens to so many bytes of the text, and by what it is refused
    Opens(&'static [u8], &'static [u32], usize, Option<Kind>),
    // that a stream in pieces of ten has so many bytes, and opens to the text
    BothWays(usize),
    // that a new writer, of so many draws, to a sink of which these calls fail, leaves so many draws, by what it is
    // refused, and how many bytes of the header are then written
    Begins(usize, &'static [u32], (usize, Option<Kind>, usize)),
}

fn goes_both_ways(alloc: Global, key: &StreamKind, n: usize) -> Result<bool, TinkError> {
    let stream = encrypt_in_pieces(alloc, key, DRAWS, TEXT, 10)?;
    Ok(opens(alloc, key, &stream, &[], (TEXT, None))? && stream.len() == n)
}

// What a new writer is refused by, and what the sink then has.
fn refusal(
    alloc: Global,
    key: &StreamKind,
    draws: &mut Draws,
    fails: &[u32],
) -> Result<(Option<Kind>, Vec<u8>), TinkError> {
    match new_writer(alloc, key, draws, sink(alloc, fails)?) {
        Ok(writer) => Ok((None, writer.into_inner().into_bytes())),
        Err(refused) => Ok((Some(refused.error.kind), refused.inner.into_bytes())),
    }
}

fn begins(
    alloc: Global,
    key: &StreamKind,
    n: usize,
    fails: &[u32],
    wanted: (usize, Option<Kind>, usize),
) -> Result<bool, TinkError> {
    let mut draws = draws(alloc, DRAWS.get(..n).unwrap_or(DRAWS))?;
    let (refused, written) = refusal(alloc, key, &mut draws, fails)?;
    let told = (draws.left(), refused, written.len());
    Ok(told == wanted && BY_GCM.starts_with(&written))
}

// Whether the sink of a new stream has the header alone.
fn begins_by_header(alloc: Global, key: &AesGcmHkdf, draws: &mut Draws) -> Result<bool, TinkError> {
    match new_stream(alloc, key, draws, sink(alloc, &[])?, b"data") {
        Ok(writer) => Ok(writer.into_inner().bytes() == &BY_GCM[..24]),
        Err(refused) => Err(refused.error),
    }
}

fn has_header(alloc: Global) -> Result<bool, TinkError> {
    let mut draws = draws(alloc, DRAWS)?;
    let key = AesGcmHkdf::new(alloc, MAIN, HashType::Sha256, 16, 50, 0)?;
    begins_by_header(alloc, &key, &mut draws)
}

fn seals(alloc: Global, key: &StreamKind, stream: &[u8], piece: usize) -> Result<bool, TinkError> {
    match encrypt_in_pieces(alloc, key, DRAWS, TEXT, piece) {
        Ok(told) => Ok(told.as_slice() == stream),
        Err(e) => Err(e),
    }
}

fn does(alloc: Global, key: &StreamKind, asked: Asked) -> Result<bool, TinkError> {
    match asked {
        Asked::Seals(stream, piece) => seals(alloc, key, stream, piece),
        Asked::Opens(stream, fails, n, refused) => {
            let text = TEXT.get(..n).unwrap_or(&[]);
            opens(alloc, key, stream, fails, (text, refused))
        }
        Asked::BothWays(n) => goes_both_ways(alloc, key, n),
        Asked::Begins(n, fails, wanted) => begins(alloc, key, n, fails, wanted),
    }
}

// What is asked of a key in counter mode, or by GCM, with this hash of HKDF and segments of this size.
type Row = (&'static str, bool, HashType, u32, Asked);

fn answer_row(alloc: Global, row: &Row) -> Result<bool, TinkError> {
    let (_, in_counter_mode, hkdf_alg, segment, asked) = *row;
    match key_of(alloc, in_counter_mode, hkdf_alg, segment) {
        Ok(key) => does(alloc, &key, asked),
        Err(e) => Err(e),
    }
}

use Asked::{Begins, BothWays, Opens, Seals};
use HashType::{Sha224, Sha256, UnknownHash};
use test_util::Verdict;

const ROWS: &[Row] = &[
    // written in pieces, the streams are those of Python
    (
        "ctr in pieces of 1",
        true,
        Sha256,
        50,
        Seals(IN_COUNTER_MODE, 1),
    ),
    (
        "ctr in pieces of 10",
        true,
        Sha256,
        50,
        Seals(IN_COUNTER_MODE, 10),
    ),
    (
        "ctr in pieces of 60",
        true,
        Sha256,
        50,
        Seals(IN_COUNTER_MODE, 60),
    ),
    ("gcm in pieces of 1", false, Sha256, 50, Seals(BY_GCM, 1)),
    ("gcm in pieces of 10", false, Sha256, 50, Seals(BY_GCM, 10)),
    ("gcm in pieces of 60", false, Sha256, 50, Seals(BY_GCM, 60)),
    // those of Python open
    (
        "ctr",
        true,
        Sha256,
        50,
        Opens(IN_COUNTER_MODE, &[], 60, None),
    ),
    ("gcm", false, Sha256, 50, Opens(BY_GCM, &[], 60, None)),
    // hashes are refused behind the header
    (
        "SHA-224",
        false,
        Sha224,
        50,
        Opens(BY_GCM, &[], 0, Some(Kind::UnsupportedHash)),
    ),
    (
        "SHA-224, one byte",
        false,
        Sha224,
        50,
        Opens(b"\x18", &[], 0, Some(Kind::NoMatchingKey)),
    ),
    (
        "no hash",
        false,
        UnknownHash,
        50,
        Opens(BY_GCM, &[], 0, Some(Kind::UnknownHash)),
    ),
    // a source may fail in the header and behind
    (
        "call 3 fails",
        true,
        Sha256,
        50,
        Opens(IN_COUNTER_MODE, &[3], 0, Some(Kind::ReadFault)),
    ),
    (
        "call 8 fails",
        true,
        Sha256,
        50,
        Opens(IN_COUNTER_MODE, &[8], 16, Some(Kind::ReadFault)),
    ),
    // headers are whole and have their mark
    (
        "empty",
        true,
        Sha256,
        50,
        Opens(&[], &[], 0, Some(Kind::NoMatchingKey)),
    ),
    (
        "shorter",
        true,
        Sha256,
        50,
        Opens(&[24; 23], &[], 0, Some(Kind::NoMatchingKey)),
    ),
    (
        "another mark",
        true,
        Sha256,
        50,
        Opens(&[25; 24], &[], 0, Some(Kind::NoMatchingKey)),
    ),
    (
        "a mark of 40",
        true,
        Sha256,
        50,
        Opens(&[40; 50], &[], 0, Some(Kind::NoMatchingKey)),
    ),
    (
        "a header alone",
        true,
        Sha256,
        50,
        Opens(&[24; 24], &[], 0, Some(Kind::Truncated(0))),
    ),
    // one segment
    ("both ways", false, Sha256, 4096, BothWays(100)),
    // a new writer writes the header alone; too few draws stay
    (
        "22 draws",
        false,
        Sha256,
        50,
        Begins(22, &[], (22, Some(Kind::RandomFault), 0)),
    ),
    (
        "23 draws",
        false,
        Sha256,
        50,
        Begins(23, &[], (0, None, 24)),
    ),
    // hashes are refused behind the draws
    (
        "SHA-224, draws",
        false,
        Sha224,
        50,
        Begins(23, &[], (0, Some(Kind::UnsupportedHash), 0)),
    ),
    (
        "no hash, draws",
        true,
        UnknownHash,
        50,
        Begins(23, &[], (0, Some(Kind::UnknownHash), 0)),
    ),
    // a sink that fails has a part of the header
    (
        "a sink that fails",
        true,
        Sha256,
        50,
        Begins(23, &[2], (0, Some(Kind::WriteFault), 10)),
    ),
];

pub fn streams_are_as_the_rows_say(alloc: Global, verdict: &mut Verdict) {
    for row in ROWS {
        verdict.expect(answer_row(alloc, row), Ok(true), row.0);
    }
    verdict.expect(has_header(alloc), Ok(true), "a new stream");
}
