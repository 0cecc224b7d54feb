//! Small pieces that are joined before a sink gets them.

ghost use Rattle.std.specs.Io.KnownBytes.{Appends};
ghost use Rattle.std.specs.Prelude.{OnOk, ◌++◌};

use crate::expect::expect;
use crate::memory::sink_of;
use std::alloc::Global;
use tink_io::gathered::room;
use tink_io::{Gathered, MemSink, Sink, TinkError, write_all};

// Writes two pieces, which the sink gets as one where both fit.
fn write_both<K: Sink>(
    sink: &mut K,
    waiting: &mut Vec<u8>,
    first: &[u8],
    second: &[u8],
) -> Result<(), TinkError>
    ensures { OnOk result (Appends (K.got sink.old) (K.got sink.new) (first.now ++ second.now)) }
{
    let mut gathered = Gathered::new(sink, waiting);
    write_all(&mut gathered, first)?;
    write_all(&mut gathered, second)?;
    gathered.flush()
}

// Writes the next bytes of a text in pieces of these lengths.
fn write_pieces<K: Sink>(sink: &mut K, text: &[u8], lengths: &[usize]) -> Result<(), TinkError> {
    let mut rest = text;
    for length in lengths {
        let (piece, after) = rest.split_at((*length).min(rest.len()));
        write_all(sink, piece)?;
        rest = after;
    }
    Ok(())
}

// How many bytes a sink has got once pieces are written, and once they are flushed, with whether each succeeded.
type Gathering = (usize, bool, usize, bool);

// What is told of pieces of these lengths, and whether the bytes are the text's.
fn gather(
    sink: &mut MemSink,
    waiting: &mut Vec<u8>,
    text: &[u8],
    lengths: &[usize],
) -> (Gathering, bool) {
    let mut gathered = Gathered::new(sink, waiting);
    let written = write_pieces(&mut gathered, text, lengths).is_ok();
    let got = gathered.sink.bytes().len();
    let flushed = gathered.flush().is_ok();
    let bytes = gathered.sink.bytes();
    (
        (got, written, bytes.len(), flushed),
        text.starts_with(bytes),
    )
}

// The same of a sink of so many bytes a call whose call of a number fails.
fn gather_into(
    alloc: Global,
    text: &[u8],
    lengths: &[usize],
    piece: usize,
    fails: u32,
) -> Result<(Gathering, bool), TinkError> {
    let mut waiting = room(alloc)?;
    let mut sink = sink_of(alloc, piece, fails, text.len())?;
    Ok(gather(&mut sink, &mut waiting, text, lengths))
}

// Bytes that repeat after 251.
fn pattern(alloc: Global) -> Result<Vec<u8>, TinkError> {
    let mut text = Vec::new(alloc);
    for i in 0..131_073u32 {
        text.push((i % 251) as u8)?;
    }
    Ok(text)
}

// The lengths of pieces, how many bytes a call of the sink takes (0: all), which call fails, and what is told.
const ROWS: &[(&[usize], usize, u32, Gathering)] = &[
    (&[], 0, 1, (0, true, 0, true)),
    (&[1], 0, 1, (0, true, 0, false)),
    (&[1], 0, 2, (0, true, 1, true)),
    (&[1, 2, 3, 4], 0, 1, (0, true, 0, false)),
    (&[1, 2, 3, 4], 0, 2, (0, true, 10, true)),
    (&[65_535, 1], 0, 1, (0, true, 0, false)),
    (&[65_535, 1], 0, 2, (0, true, 65_536, true)),
    (&[65_535, 2], 0, 1, (0, false, 65_535, true)),
    (&[65_535, 2], 0, 2, (65_535, true, 65_535, false)),
    (&[65_536], 0, 1, (0, false, 0, true)),
    (&[65_536], 0, 2, (65_536, true, 65_536, true)),
    (&[65_537, 1], 0, 2, (65_537, true, 65_537, false)),
    (&[1, 65_536], 0, 2, (1, false, 1, true)),
    (&[1, 65_536], 0, 3, (65_537, true, 65_537, true)),
    (&[40_000, 40_000], 7, 2, (7, false, 40_000, true)),
    (&[1, 2, 3, 4], 7, 2, (0, true, 7, false)),
];

// The number of the first row that is told otherwise.
fn wrong_row(alloc: Global) -> Result<Option<usize>, TinkError> {
    let text = pattern(alloc)?;
    for i in 0..ROWS.len() {
        let (lengths, piece, fails, want) = &ROWS[i];
        if gather_into(alloc, &text, lengths, *piece, *fails)? != (*want, true) {
            return Ok(Some(i));
        }
    }
    Ok(None)
}

// The answer to two pieces for a sink whose second call fails, and whether it has them.
fn both(alloc: Global) -> Result<bool, TinkError> {
    let mut waiting = room(alloc)?;
    let mut sink = sink_of(alloc, 0, 2, 3)?;
    let answer = write_both(&mut sink, &mut waiting, b"a", b"bc");
    Ok(answer == Ok(()) && sink.bytes() == b"abc".as_slice())
}

// Three pieces for a sink of two bytes a call whose call of a number fails: the answers of two flushes, and whether the
// sink has all of them then.
fn flushed_twice(alloc: Global, fails: u32) -> Result<(bool, bool, bool), TinkError> {
    let mut waiting = room(alloc)?;
    let mut sink = sink_of(alloc, 2, fails, 6)?;
    let mut gathered = Gathered::new(&mut sink, &mut waiting);
    for piece in [b"ab", b"cd", b"ef"] {
        write_all(&mut gathered, piece)?;
    }
    let first = gathered.flush().is_ok();
    let second = gathered.flush().is_ok();
    Ok((first, second, sink.bytes() == b"abcdef".as_slice()))
}

// The number of the first call that fails and after which a second flush does not send the rest.
fn wrong_rest(alloc: Global) -> Result<Option<u32>, TinkError> {
    for fails in 1..4 {
        if flushed_twice(alloc, fails)? != (false, true, true) {
            return Ok(Some(fails));
        }
    }
    Ok(None)
}

#[test]
fn what_a_flush_did_not_write_waits_for_the_next_one(rt: HostRuntime) {
    expect(&rt, wrong_rest(rt.alloc()), Ok(None), "a flush again");
}

#[test]
fn pieces_wait_for_the_next_ones(rt: HostRuntime) {
    expect(&rt, wrong_row(rt.alloc()), Ok(None), "the first wrong row");
    expect(&rt, both(rt.alloc()), Ok(true), "two pieces");
}
