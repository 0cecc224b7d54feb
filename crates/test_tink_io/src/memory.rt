//! Sources, sinks and draws over memory, and std's readers and writers as sources and sinks.

use crate::adapters::{Answer, Flaky, write_once};
use crate::expect::expect;
use std::alloc::Global;
use tink_io::{
    Discard, Draws, Failed, Kind, Lent, MemSink, MemSource, Sink, Source, StdSink, StdSource,
    SureSink, SureSource, TinkError,
};

// How many of four nines a read may fill, its answer, and what stands in the four.
type Read = (usize, Result<usize, Failed>, [u8; 4]);

// A piece, and what its write answers.
type Write<'a> = (&'a [u8], Result<usize, Failed>);

// How many of two nines a take may fill, its answer, what stands in the two, and how many bytes are left.
type Take = (usize, Result<(), TinkError>, [u8; 2], usize);

// The number of the first call of a row that is not as the row says, and whether what else the row says is so.
type RowResult = Result<(Option<usize>, bool), TinkError>;

// A read to the first `len` of four nines: its answer, and what stands in the four.
fn read_to(source: &mut impl Source, len: usize) -> (Result<usize, Failed>, [u8; 4]) {
    let mut buf = [9u8; 4];
    let answer = source.read(&mut buf[..len.min(4)]);
    (answer, buf)
}

// The number of the first read that is answered otherwise.
fn wrong_read(source: &mut impl Source, reads: &[Read]) -> Option<usize> {
    for i in 0..reads.len() {
        let (len, answer, bytes) = &reads[i];
        if read_to(source, *len) != (*answer, *bytes) {
            return Some(i);
        }
    }
    None
}

// The number of the first write that is answered otherwise.
fn wrong_write(sink: &mut impl Sink, writes: &[Write<'_>]) -> Option<usize> {
    for i in 0..writes.len() {
        let (piece, answer) = &writes[i];
        if sink.write(piece) != *answer {
            return Some(i);
        }
    }
    None
}

// A take of so many bytes: its answer, and what stands in two nines.
fn take(draws: &mut Draws, len: usize) -> (Result<(), TinkError>, [u8; 2]) {
    let mut buf = [9u8; 2];
    let answer = draws.take_into(&mut buf[..len.min(2)]);
    (answer, buf)
}

// The number of the first take that is answered otherwise.
fn wrong_take(draws: &mut Draws, takes: &[Take]) -> Option<usize> {
    for i in 0..takes.len() {
        let (len, answer, bytes, left) = &takes[i];
        if take(draws, *len) != (*answer, *bytes) || draws.left() != *left {
            return Some(i);
        }
    }
    None
}

fn five_in_pieces(alloc: Global) -> Result<MemSource, TinkError> {
    let bytes = Vec::from_slice(alloc, &[1, 2, 3, 4, 5])?;
    Ok(MemSource::new(bytes, 2, Vec::from_slice(alloc, &[2, 5])?))
}

fn sure(alloc: Global, bytes: &[u8]) -> Result<SureSource, TinkError> {
    Ok(SureSource::new(Vec::from_slice(alloc, bytes)?))
}

// The first wrong read of a source whose first byte, a 1, was read while it was lent.
fn after_a_lent_read(source: &mut SureSource, reads: &[Read]) -> Option<usize> {
    if read_to(&mut Lent(source), 1) != (Ok(1), [1, 9, 9, 9]) {
        return Some(0);
    }
    wrong_read(source, reads)
}

// The first wrong read of std's reader of a slice.
fn wrong_read_of_slice(reads: &[Read]) -> Option<usize> {
    let mut bytes: &[u8] = &[1, 2, 3, 4, 5];
    wrong_read(&mut StdSource::new(&mut bytes), reads)
}

/// A sink of so many bytes a call (0: all), whose call of a number fails, with room for so many.
pub fn sink_of(alloc: Global, piece: usize, fails: u32, room: usize) -> Result<MemSink, TinkError> {
    let mut sink = MemSink::new(alloc, piece, Vec::from_slice(alloc, &[fails])?);
    sink.reserve(alloc, room)?;
    Ok(sink)
}

// The first wrong write to a sink, and whether its bytes are "abcd" then, also taken out.
fn pieces_taken(mut sink: MemSink, writes: &[Write<'_>]) -> (Option<usize>, bool) {
    let wrong = wrong_write(&mut sink, writes);
    let held = sink.bytes() == b"abcd".as_slice();
    (
        wrong,
        held && sink.into_bytes().as_slice() == b"abcd".as_slice(),
    )
}

// The same of a sink that has no room at first, and then room for three: its bytes are "wxy".
fn sure_taken(alloc: Global, writes: &[Write<'_>]) -> RowResult {
    let mut sink = SureSink::new(alloc);
    let refused = sink.write(b"x") == Err(Failed);
    sink.reserve(alloc, 3)?;
    let wrong = wrong_write(&mut sink, writes);
    let held = refused && sink.bytes() == b"wxy".as_slice();
    Ok((
        wrong,
        held && sink.into_bytes().as_slice() == b"wxy".as_slice(),
    ))
}

// The first wrong write to a sink that is lent, and whether its bytes are "a" then.
fn lent_taken(alloc: Global, writes: &[Write<'_>]) -> RowResult {
    let mut sink = SureSink::new(alloc);
    sink.reserve(alloc, 2)?;
    let wrong = wrong_write(&mut Lent(&mut sink), writes);
    Ok((wrong, sink.bytes() == b"a".as_slice()))
}

// The first wrong write to std's writer to five places, and whether these are "abcde" then.
fn slice_taken(writes: &[Write<'_>]) -> (Option<usize>, bool) {
    let mut room = [0u8; 5];
    let mut rest: &mut [u8] = &mut room;
    let wrong = wrong_write(&mut StdSink::new(&mut rest), writes);
    (wrong, room == *b"abcde")
}

#[derive(Clone, Copy)]
enum Of {
    // A source of five bytes in pieces of two, whose calls 2 and 5 fail.
    Pieces,
    // One that never fails, the same while it is lent, and after its first byte was read while it was lent.
    Sure,
    Lent,
    AfterLent,
    // std's reader of a slice.
    Slice,
    // A reader of which so many calls are interrupted.
    Flaky(u32, Answer),
}

enum Asked {
    Read(Of, &'static [Read]),
    Take(&'static [Take]),
    // Writes to a sink of three bytes a call and room for four, whose call 2 fails.
    Pieces(&'static [Write<'static>]),
    Sure(&'static [Write<'static>]),
    Discarded(&'static [Write<'static>]),
    Lent(&'static [Write<'static>]),
    Slice(&'static [Write<'static>]),
    // A write to a writer, of which so many calls and so many flushes are interrupted, its answer, and the last byte.
    Flaky(u32, u32, Answer, &'static [u8], (Result<usize, Failed>, u8)),
}

fn first_wrong_read(alloc: Global, of: Of, reads: &[Read]) -> Result<Option<usize>, TinkError> {
    Ok(match of {
        Of::Pieces => wrong_read(&mut five_in_pieces(alloc)?, reads),
        Of::Sure => wrong_read(&mut sure(alloc, &[1, 2, 3])?, reads),
        Of::Lent => wrong_read(&mut Lent(&mut sure(alloc, &[1, 2])?), reads),
        Of::AfterLent => after_a_lent_read(&mut sure(alloc, &[1, 2])?, reads),
        Of::Slice => wrong_read_of_slice(reads),
        Of::Flaky(n, answer) => wrong_read(&mut StdSource::new(Flaky::new(n, 0, answer)), reads),
    })
}

fn answer_row(alloc: Global, asked: &Asked) -> RowResult {
    match asked {
        Asked::Read(of, reads) => Ok((first_wrong_read(alloc, *of, reads)?, true)),
        Asked::Take(takes) => {
            let mut draws = Draws::new(Vec::from_slice(alloc, &[1, 2, 3])?);
            Ok((wrong_take(&mut draws, takes), true))
        }
        Asked::Pieces(writes) => Ok(pieces_taken(sink_of(alloc, 3, 2, 4)?, writes)),
        Asked::Sure(writes) => sure_taken(alloc, writes),
        Asked::Discarded(writes) => Ok((wrong_write(&mut Discard::new(), writes), true)),
        Asked::Lent(writes) => lent_taken(alloc, writes),
        Asked::Slice(writes) => Ok(slice_taken(writes)),
        Asked::Flaky(n, flushes, answer, piece, want) => {
            let told = write_once(Flaky::new(*n, *flushes, *answer), piece);
            Ok((None, told == *want))
        }
    }
}

const ROWS: &[(&str, Asked)] = &[
    (
        "a source of pieces",
        Asked::Read(
            Of::Pieces,
            &[
                (4, Ok(2), [1, 2, 9, 9]),
                (4, Err(Failed), [9, 9, 9, 9]),
                (4, Ok(2), [3, 4, 9, 9]),
                (0, Ok(0), [9, 9, 9, 9]),
                (0, Err(Failed), [9, 9, 9, 9]),
                (4, Ok(1), [5, 9, 9, 9]),
                (4, Ok(0), [9, 9, 9, 9]),
            ],
        ),
    ),
    (
        "a source that never fails",
        Asked::Read(
            Of::Sure,
            &[
                (2, Ok(2), [1, 2, 9, 9]),
                (2, Ok(1), [3, 9, 9, 9]),
                (2, Ok(0), [9, 9, 9, 9]),
            ],
        ),
    ),
    (
        "a source that is lent",
        Asked::Read(Of::Lent, &[(1, Ok(1), [1, 9, 9, 9])]),
    ),
    (
        "a source that was lent",
        Asked::Read(Of::AfterLent, &[(1, Ok(1), [2, 9, 9, 9])]),
    ),
    (
        "a reader of a slice",
        Asked::Read(
            Of::Slice,
            &[
                (2, Ok(2), [1, 2, 9, 9]),
                (0, Ok(0), [9, 9, 9, 9]),
                (4, Ok(3), [3, 4, 5, 9]),
                (4, Ok(0), [9, 9, 9, 9]),
            ],
        ),
    ),
    (
        "a reader",
        Asked::Read(Of::Flaky(0, Answer::One), &[(2, Ok(1), [7, 9, 9, 9])]),
    ),
    (
        "a reader at its end",
        Asked::Read(Of::Flaky(0, Answer::Nothing), &[(2, Ok(0), [9, 9, 9, 9])]),
    ),
    (
        "a reader that is broken",
        Asked::Read(
            Of::Flaky(0, Answer::Broken),
            &[(2, Err(Failed), [9, 9, 9, 9])],
        ),
    ),
    (
        "a reader that is interrupted once",
        Asked::Read(Of::Flaky(1, Answer::One), &[(2, Ok(1), [7, 9, 9, 9])]),
    ),
    (
        "a reader that is interrupted 999 times",
        Asked::Read(Of::Flaky(999, Answer::One), &[(2, Ok(1), [7, 9, 9, 9])]),
    ),
    (
        "a reader that is interrupted 1,000 times",
        Asked::Read(
            Of::Flaky(1_000, Answer::One),
            &[(2, Err(Failed), [9, 9, 9, 9])],
        ),
    ),
    (
        "draws",
        Asked::Take(&[
            (2, Ok(()), [1, 2], 1),
            (
                2,
                Err(TinkError {
                    kind: Kind::RandomFault,
                }),
                [9, 9],
                1,
            ),
            (1, Ok(()), [3, 9], 0),
        ]),
    ),
    (
        "a sink of pieces",
        Asked::Pieces(&[
            (b"abcdef", Ok(3)),
            (b"def", Err(Failed)),
            (b"def", Ok(1)),
            (b"ef", Err(Failed)),
            (b"", Ok(0)),
        ]),
    ),
    ("a sink that never fails", Asked::Sure(&[(b"wxyz", Ok(3))])),
    (
        "a sink that keeps nothing",
        Asked::Discarded(&[(b"abc", Ok(3)), (b"", Ok(0)), (b"d", Ok(1))]),
    ),
    ("a sink that is lent", Asked::Lent(&[(b"a", Ok(1))])),
    (
        "a writer to a slice",
        Asked::Slice(&[
            (b"ab", Ok(2)),
            (b"", Ok(0)),
            (b"cdef", Ok(3)),
            (b"f", Err(Failed)),
        ]),
    ),
    (
        "a writer",
        Asked::Flaky(0, 0, Answer::One, b"ab", (Ok(1), b'a')),
    ),
    (
        "a writer that takes nothing",
        Asked::Flaky(0, 0, Answer::Nothing, b"ab", (Err(Failed), 0)),
    ),
    (
        "a writer that is broken",
        Asked::Flaky(0, 0, Answer::Broken, b"ab", (Err(Failed), 0)),
    ),
    (
        "a writer that is not flushed",
        Asked::Flaky(0, 0, Answer::NoFlush, b"ab", (Err(Failed), b'a')),
    ),
    (
        "a writer that is interrupted once",
        Asked::Flaky(1, 1, Answer::One, b"ab", (Ok(1), b'a')),
    ),
    (
        "a writer that is interrupted 999 times",
        Asked::Flaky(999, 999, Answer::One, b"ab", (Ok(1), b'a')),
    ),
    (
        "a writer that is interrupted 1,000 times",
        Asked::Flaky(1_000, 0, Answer::One, b"ab", (Err(Failed), 0)),
    ),
    (
        "a flush that is interrupted 1,000 times",
        Asked::Flaky(0, 1_000, Answer::One, b"ab", (Err(Failed), b'a')),
    ),
    (
        "nothing to write",
        Asked::Flaky(0, 0, Answer::Nothing, b"", (Ok(0), 0)),
    ),
];

#[test]
fn sources_sinks_and_draws(rt: HostRuntime) {
    for (row, asked) in ROWS {
        expect(&rt, answer_row(rt.alloc(), asked), Ok((None, true)), row);
    }
}
