//! Bytes that are written whole, and the texts of refusals.

ghost use Rattle.std.specs.Io.KnownBytes.{Appends};
ghost use Rattle.std.specs.Prelude.{OnOk, ◌++◌, ◌∷◌, []};

use crate::expect::expect;
use crate::memory::sink_of;
use std::alloc::Global;
use tink_io::{Cause, Kind, MemSink, Sink, SureSink, TinkError, write_all, write_line};

// Writes a text and a newline.
fn write_text<K: Sink>(sink: &mut K, text: &[u8]) -> Result<(), TinkError>
    ensures { OnOk result (Appends (K.got sink.old) (K.got sink.new) (text.now ++ 10 ∷ [])) }
{
    write_all(sink, text)?;
    write_all(sink, b"\n")
}

// Whether a sink has taken these of five bytes and a newline, and the answer is that.
fn is_written(sink: &mut MemSink, front: &[u8], want: Result<(), TinkError>) -> bool {
    let answer = write_text(sink, b"abcde");
    answer == want && sink.bytes() == front
}

// Whether this is the line of a kind.
fn is_line(alloc: Global, kind: Kind, want: &[u8]) -> Result<bool, TinkError> {
    let mut sink = SureSink::new(alloc);
    sink.reserve(alloc, 64)?;
    write_line(&mut sink, kind);
    Ok(sink.bytes() == want)
}

// Whether this is the text of a refusal.
fn is_text(alloc: Global, kind: Kind, want: &str) -> Result<bool, TinkError> {
    Ok(format!(in alloc; "{}", TinkError::new(kind))?.as_str() == want)
}

enum Asked {
    // To write to a sink of two bytes a call whose call of that number fails.
    Write(u32, &'static [u8], Result<(), TinkError>),
    Line(Kind, &'static [u8]),
    Text(Kind, &'static str),
}

fn holds(alloc: Global, asked: &Asked) -> Result<bool, TinkError> {
    match asked {
        Asked::Write(n, front, want) => {
            Ok(is_written(&mut sink_of(alloc, 2, *n, 6)?, front, *want))
        }
        Asked::Line(kind, want) => is_line(alloc, *kind, want),
        Asked::Text(kind, want) => is_text(alloc, *kind, want),
    }
}

const FAULT: Result<(), TinkError> = Err(TinkError {
    kind: Kind::WriteFault,
});

const ROWS: &[(&str, Asked)] = &[
    ("call 1 fails", Asked::Write(1, b"", FAULT)),
    ("call 2 fails", Asked::Write(2, b"ab", FAULT)),
    ("call 3 fails", Asked::Write(3, b"abcd", FAULT)),
    ("call 4 fails", Asked::Write(4, b"abcde", FAULT)),
    ("no call fails", Asked::Write(5, b"abcde\n", Ok(()))),
    (
        "out of memory",
        Asked::Line(Kind::OutOfMemory, b"out of memory\n"),
    ),
    ("bad token", Asked::Line(Kind::BadToken, b"bad token\n")),
    (
        "input too long",
        Asked::Line(Kind::InputTooLong, b"input too long\n"),
    ),
    (
        "length over u32",
        Asked::Line(Kind::LengthOverU32, b"length over u32\n"),
    ),
    (
        "wrong status -1",
        Asked::Line(Kind::WrongStatus(-1), b"wrong status -1\n"),
    ),
    (
        "bad segment 7",
        Asked::Line(Kind::BadSegment(7), b"bad segment 7\n"),
    ),
    (
        "truncated 4294967295",
        Asked::Line(Kind::Truncated(4294967295), b"truncated 4294967295\n"),
    ),
    (
        "failed before: bad segment 10",
        Asked::Line(
            Kind::FailedBefore(Cause::BadSegment(10)),
            b"failed before: bad segment 10\n",
        ),
    ),
    (
        "a text",
        Asked::Text(Kind::WrongStatus(i32::MIN), "wrong status -2147483648"),
    ),
];

#[test]
fn lines_and_texts_are_written(rt: HostRuntime) {
    for (row, asked) in ROWS {
        expect(&rt, holds(rt.alloc(), asked), Ok(true), row);
    }
}
