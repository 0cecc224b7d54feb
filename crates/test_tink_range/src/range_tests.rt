//! Ranges against slices of the text.

ghost use Rattle.std.specs.Prelude.{◌≡◌, ◌<◌};

use crate::support::{Keys, Object, aeads_of, object_of, sink_of, text_of};
use std::alloc::Global;
use std::marker::Brand;
use std::sync::ledger::{Blank, Ledger};
use test_util::{Verdict, kind_of};
use tink_io::{Kind, TinkError};
use tink_range::{MemAt, RangeReader, Steps};
use tink_streaming_aead::WrappedStreamingAead;

// The first byte that is given, how many are, and by what the range is refused.
type Given = (Option<u8>, usize, Option<Kind>);

// What is asked of an object.
enum Asked {
    // That each range is that slice of the text, for all starts and the lengths below.
    All,
    // What the range from a place on and of so many bytes gives.
    Range(u64, u64, Given),
}

const LENGTHS: &[u64] = &[0, 1, 2, 24, 25, 26, 35, 60, 200, 18446744073709551615];

// What a range gives, and what is answered.
fn read<L: Ledger>(
    alloc: Global,
    reader: &mut RangeReader<MemAt>,
    start: u64,
    len: u64,
    steps: &mut Steps<L>,
) -> Result<(Vec<u8>, Result<u64, TinkError>), TinkError> {
    let mut sink = sink_of(alloc, 200)?;
    let answer = reader.read_range(start, len, &mut sink, steps);
    Ok((sink.into_bytes(), answer))
}

fn is_slice<L: Ledger>(
    alloc: Global,
    reader: &mut RangeReader<MemAt>,
    text: &[u8],
    start: u64,
    len: u64,
    steps: &mut Steps<L>,
) -> Result<bool, TinkError> {
    let from = start.min(text.len() as u64) as usize;
    let to = start.saturating_add(len).min(text.len() as u64) as usize;
    let want = text.get(from..to).unwrap_or(&[]);
    let (bytes, answer) = read(alloc, reader, start, len, steps)?;
    Ok(answer? == want.len() as u64 && bytes.as_slice() == want)
}

fn are_slices<L: Ledger>(
    alloc: Global,
    reader: &mut RangeReader<MemAt>,
    text: &[u8],
    steps: &mut Steps<L>,
) -> Result<bool, TinkError> {
    let mut holds = reader.text_len() == text.len() as u64;
    for start in 0..120 {
        for len in LENGTHS {
            holds = is_slice(alloc, reader, text, start, *len, steps)? && holds;
        }
    }
    Ok(holds)
}

fn gives<L: Ledger>(
    alloc: Global,
    reader: &mut RangeReader<MemAt>,
    start: u64,
    len: u64,
    want: Given,
    steps: &mut Steps<L>,
) -> Result<bool, TinkError> {
    let (bytes, answer) = read(alloc, reader, start, len, steps)?;
    Ok((bytes.first().copied(), bytes.len(), kind_of(answer)) == want)
}

fn answer_row<L: Ledger>(
    alloc: Global,
    reader: &mut RangeReader<MemAt>,
    count: usize,
    asked: &Asked,
    steps: &mut Steps<L>,
) -> Result<bool, TinkError> {
    match asked {
        Asked::All => match text_of(alloc, count) {
            Ok(text) => are_slices(alloc, reader, &text, steps),
            Err(e) => Err(e),
        },
        Asked::Range(start, len, want) => gives(alloc, reader, *start, *len, *want, steps),
    }
}

// What is answered where an object is refused, which gives nothing.
fn refused_by(error: TinkError, asked: &Asked) -> Result<bool, TinkError> {
    match asked {
        Asked::All => Err(error),
        Asked::Range(_, _, want) => Ok(*want == (None, 0, Some(error.kind))),
    }
}

fn answered_by<L: Ledger>(
    alloc: Global,
    aeads: &WrappedStreamingAead,
    object: MemAt,
    count: usize,
    asked: &Asked,
    blank: Blank,
) -> Result<bool, TinkError>
    requires name { blank.name ≡ L.name }
    requires parts { blank.parts ≡ L.parts }
    requires some { 0 < blank.parts }
{
    let mut steps = Steps::<L>::new(blank);
    match RangeReader::new(alloc, aeads, object, b"data", &mut steps) {
        Ok(mut reader) => answer_row(alloc, &mut reader, count, asked, &mut steps),
        Err(refused) => refused_by(refused.error, asked),
    }
}

fn holds(
    alloc: Global,
    keys: &Keys,
    count: usize,
    object: &Object,
    asked: &Asked,
) -> Result<bool, TinkError> {
    match aeads_of(alloc, keys) {
        Ok(aeads) => match object_of(alloc, &aeads, count, object) {
            Ok(object) => {
                answered_by::<Brand>(alloc, &aeads, object, count, asked, Blank::new(1))
            }
            Err(e) => Err(e),
        },
        Err(e) => Err(e),
    }
}

// Keys of the bytes 0 to 15, from which AES keys of 16 are derived with SHA-256: in counter mode with tags of 32 bytes and
// segments of 4,096, and with tags of ten bytes and segments of 35; by AES-GCM with segments of 50.
const LARGE: Keys = Keys::Ctr(
    b"\x12\x0d\x08\x80\x20\x10\x10\x18\x03\x22\x04\x08\x03\x10\x20\x1a\x10\x00\x01\x02\x03\x04\x05\x06\x07\x08\x09\x0a\x0b\x0c\x0d\x0e\x0f",
);

const SMALL: Keys = Keys::Ctr(
    b"\x12\x0c\x08\x23\x10\x10\x18\x03\x22\x04\x08\x03\x10\x0a\x1a\x10\x00\x01\x02\x03\x04\x05\x06\x07\x08\x09\x0a\x0b\x0c\x0d\x0e\x0f",
);

const BY_GCM: Keys = Keys::Gcm(
    b"\x12\x06\x08\x32\x10\x10\x18\x03\x1a\x10\x00\x01\x02\x03\x04\x05\x06\x07\x08\x09\x0a\x0b\x0c\x0d\x0e\x0f",
);

const BAD: Option<Kind> = Some(Kind::BadSegment(1));

const FAULT: Option<Kind> = Some(Kind::ReadFault);

// The key, the bytes of the text, what is done to its stream, and what is asked.
type Row = (&'static str, Keys, usize, Object, Asked);

const EACH: &[Row] = &[
    ("four segments of 35", SMALL, 76, Object::Whole, Asked::All),
    ("in pieces of 7", SMALL, 70, Object::Pieces(7), Asked::All),
    (
        "four segments of 50",
        BY_GCM,
        112,
        Object::Whole,
        Asked::All,
    ),
    ("in pieces of 1", BY_GCM, 80, Object::Pieces(1), Asked::All),
    ("no text", BY_GCM, 0, Object::Whole, Asked::All),
];

// The stream has 12,288 bytes, in three segments.
const OF_LARGE: &[Row] = &[
    (
        "4030 20",
        LARGE,
        12168,
        Object::Whole,
        Asked::Range(4030, 20, (Some(14), 20, None)),
    ),
    (
        "12160 100",
        LARGE,
        12168,
        Object::Whole,
        Asked::Range(12160, 100, (Some(112), 8, None)),
    ),
    (
        "20000 5",
        LARGE,
        12168,
        Object::Whole,
        Asked::Range(20000, 5, (None, 0, None)),
    ),
    (
        "cut",
        LARGE,
        12168,
        Object::Cut(12287),
        Asked::Range(0, 10, (None, 0, Some(Kind::BadSegment(2)))),
    ),
    (
        "untouched",
        LARGE,
        12168,
        Object::Changed(5000),
        Asked::Range(0, 10, (Some(0), 10, None)),
    ),
    (
        "touched",
        LARGE,
        12168,
        Object::Changed(5000),
        Asked::Range(4040, 1, (None, 0, BAD)),
    ),
    (
        "touched second",
        LARGE,
        12168,
        Object::Changed(5000),
        Asked::Range(4030, 20, (Some(14), 10, BAD)),
    ),
    (
        "another salt",
        LARGE,
        12168,
        Object::Changed(5),
        Asked::Range(0, 10, (None, 0, Some(Kind::NoMatchingKey))),
    ),
];

const FAILING: &[Row] = &[
    (
        "read 1 fails",
        SMALL,
        76,
        Object::Fails(1),
        Asked::Range(0, 76, (None, 0, FAULT)),
    ),
    (
        "read 2 fails",
        SMALL,
        76,
        Object::Fails(2),
        Asked::Range(0, 76, (None, 0, FAULT)),
    ),
    (
        "read 3 fails",
        SMALL,
        76,
        Object::Fails(3),
        Asked::Range(0, 76, (None, 0, FAULT)),
    ),
    (
        "read 4 fails",
        SMALL,
        76,
        Object::Fails(4),
        Asked::Range(0, 76, (None, 0, FAULT)),
    ),
    (
        "read 5 fails",
        SMALL,
        76,
        Object::Fails(5),
        Asked::Range(0, 76, (Some(0), 1, FAULT)),
    ),
    (
        "read 6 fails",
        SMALL,
        76,
        Object::Fails(6),
        Asked::Range(0, 76, (Some(0), 26, FAULT)),
    ),
    (
        "read 7 fails",
        SMALL,
        76,
        Object::Fails(7),
        Asked::Range(0, 76, (Some(0), 51, FAULT)),
    ),
    (
        "no read fails",
        SMALL,
        76,
        Object::Fails(8),
        Asked::Range(0, 76, (Some(0), 76, None)),
    ),
];

const TABLES: &[&[Row]] = &[EACH, OF_LARGE, FAILING];

pub fn a_range_is_a_slice_or_refused(alloc: Global, verdict: &mut Verdict) {
    for rows in TABLES {
        for (row, keys, count, object, asked) in *rows {
            verdict.expect(holds(alloc, keys, *count, object, asked), Ok(true), row);
        }
    }
}
