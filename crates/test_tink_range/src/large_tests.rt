//! Large texts by their numbers. The bytes of the text and the segments are counted by the opening.

use crate::large_callers::segments_of;
use std::alloc::Global;
use test_util::{Verdict, draws_of, kind_of};
use tink_io::{Draws, Kind, TinkError};
use tink_large::{Measured, lines, measure};

// What is asked of the large text of a number.
enum Asked {
    // That exactly these lines are told.
    Lines(&'static [u8]),
    // By what a measuring is refused, and how many draws it leaves.
    Leaves(Option<Kind>, usize),
    // In how many segments it is sealed, by the caller of the page.
    Segments(u64),
}

fn has_lines(
    alloc: Global,
    measured: Result<Measured, TinkError>,
    want: &[u8],
) -> Result<bool, TinkError> {
    match measured {
        Ok(m) => match lines(alloc, &m) {
            Ok(bytes) => Ok(bytes.as_slice() == want),
            Err(e) => Err(e),
        },
        Err(e) => Err(e),
    }
}

fn are(count: Result<u64, TinkError>, want: u64) -> Result<bool, TinkError> {
    match count {
        Ok(count) => Ok(count == want),
        Err(e) => Err(e),
    }
}

fn answer_row(alloc: Global, n: u32, draws: &mut Draws, asked: &Asked) -> Result<bool, TinkError> {
    match asked {
        Asked::Lines(want) => has_lines(alloc, measure(alloc, n, draws), want),
        Asked::Leaves(kind, left) => {
            Ok(kind_of(measure(alloc, n, draws)) == *kind && draws.left() == *left)
        }
        Asked::Segments(want) => are(segments_of(alloc, n, draws), *want),
    }
}

fn holds(alloc: Global, n: u32, draws: &[u8], asked: &Asked) -> Result<bool, TinkError> {
    match draws_of(alloc, draws) {
        Ok(mut draws) => answer_row(alloc, n, &mut draws, asked),
        Err(e) => Err(e),
    }
}

// The first bytes of ChaCha20 under the key of zeros (RFC 8439, A.1).
const ZERO_SEED: &[u8] =
    b"\x76\xb8\xe0\xad\xa0\xf1\x3d\x90\x40\x5d\x6a\xe5\x53\x86\xbd\x28\xbd\xd2\x19\xb8\xa0\x8d\xed";

const COUNTED: &[u8] = &[
    1, 2, 3, 4, 5, 6, 7, 8, 9, 10, 11, 12, 13, 14, 15, 16, 17, 18, 19, 20, 21, 22, 23,
];

const ONE_MORE: &[u8] = &[
    1, 2, 3, 4, 5, 6, 7, 8, 9, 10, 11, 12, 13, 14, 15, 16, 17, 18, 19, 20, 21, 22, 23, 24,
];

const ONE_LESS: &[u8] = &[
    1, 2, 3, 4, 5, 6, 7, 8, 9, 10, 11, 12, 13, 14, 15, 16, 17, 18, 19, 20, 21, 22,
];

// A number, the draws, and what is asked. The lines are those that Python tells. The text of 3784 ends with a full
// segment, and the next one has a segment more.
const ROWS: &[(&str, u32, &[u8], Asked)] = &[
    (
        "the text of 0",
        0,
        ZERO_SEED,
        Asked::Lines(
            b"text 1000000\nstream 1007928\nsegments 247\nsha256 a4400b50bb2795d6e36e1b6114ea3f3ec97e2a5ce22b42d860264b622e4b217a\n",
        ),
    ),
    (
        "the text of 1",
        1,
        ZERO_SEED,
        Asked::Lines(
            b"text 1000001\nstream 1007929\nsegments 247\nsha256 c3f04c30c1c51cc972f801a4e3b4a58773e285e77613aa0b6b0f93ba68b72051\n",
        ),
    ),
    (
        "the text of 3784",
        3784,
        ZERO_SEED,
        Asked::Lines(
            b"text 1003784\nstream 1011712\nsegments 247\nsha256 a91198da7cf6acb76bcfe7f1d189975d8b0cfac62cc1ffc39d4f3b9ec2a0bfd8\n",
        ),
    ),
    (
        "the text of 3785",
        3785,
        ZERO_SEED,
        Asked::Lines(
            b"text 1003785\nstream 1011745\nsegments 248\nsha256 fdcf23b88cd88dcf6fabe72beccee562184e9c52d081f4ab4aadd7af91bc59cc\n",
        ),
    ),
    (
        "the text of 999999",
        999999,
        ZERO_SEED,
        Asked::Lines(
            b"text 1999999\nstream 2015799\nsegments 493\nsha256 1c5832a632c1a6eb89dd1eba65a0c9ae67cc1e4af5978b73fd7e9ecdff0e89d8\n",
        ),
    ),
    (
        "the text of 777",
        777,
        COUNTED,
        Asked::Lines(
            b"text 1000777\nstream 1008705\nsegments 247\nsha256 c7cd3c32abdc10a9fc7231222b3b1f1ceef99e90de7e56ec78f1892b978a8e15\n",
        ),
    ),
    ("24 draws", 0, ONE_MORE, Asked::Leaves(None, 1)),
    (
        "22 draws",
        0,
        ONE_LESS,
        Asked::Leaves(Some(Kind::RandomFault), 22),
    ),
    (
        "the caller of the page",
        999999,
        ZERO_SEED,
        Asked::Segments(493),
    ),
];

pub fn texts_are_measured(alloc: Global, verdict: &mut Verdict) {
    for (row, n, draws, asked) in ROWS {
        verdict.expect(holds(alloc, *n, draws, asked), Ok(true), row);
    }
}
