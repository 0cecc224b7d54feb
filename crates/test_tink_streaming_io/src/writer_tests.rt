//! Writers to memory, and a stream that Python made.

ghost use Rattle.std.specs.Prelude.{◌≡◌, vec_len};

use hash_keys::Hash;
use std::alloc::Global;
use tink_io::{Cause, Kind, MemSink, TinkError};
use tink_streaming_ciphers::CtrHmacSegment;
use tink_streaming_io::{Mode, Sealer, SegmentWriter, Writer, WriterBuffers, WriterParams};

type MemWriter = Writer<MemSink, CtrHmacSegment>;

const TEXT: &[u8; 70] = b"seventy bytes of text, which three segments of forty bytes hold, at 70";

// The text's segments of 40 bytes, the first of 28, under AES-128 with a key of ones, HMAC-SHA-256
// with a key of twos, tags of ten bytes and a prefix of threes.
const SEALED: &[u8; 100] =
    b"\xb9\xba\x1c\xde\x57\x0d\x82\x7e\xbc\x7a\xd9\xf1\xcb\x37\xb8\xee\xc1\xe8\xf6\x9f\xe4\xe8\xfc\xfa\x32\x42\x73\xe4\x3a\xb9\xb5\x30\x50\x31\xd2\x5a\x82\x3c\xe1\x4a\xd4\xa6\x37\x8f\xc7\xbd\x20\xa7\x48\xd0\x9f\xe9\xdd\xde\x2c\xa0\x2f\xdf\xc5\x11\xfb\xc3\xaf\x1b\xde\xaa\x41\x4f\x6b\x5e\x1d\xdf\x31\x7e\x1c\xfc\x5c\xa9\x89\x32\x1f\xf2\x17\xc0\x05\x55\xf7\x22\xd9\x0d\x7d\xb7\x5a\xb7\x92\xe0\x2e\xe6\x66\x20";

// A sink with room for 200 bytes, whose calls of these numbers fail.
fn sink(alloc: Global, fails: &[u32]) -> Result<MemSink, TinkError> {
    let mut sink = MemSink::new(alloc, 0, fails.to_vec(alloc)?);
    match sink.reserve(alloc, 200) {
        Ok(()) => Ok(sink),
        Err(e) => Err(e),
    }
}

// How a writer is made.
enum Made {
    // with segments and an offset of these sizes; nonces have 16 bytes, or 11
    Sized(u32, u32),
    ShortNonce(u32, u32),
    // as that of the stream above, before the last number that there is
    AtTheLastNumber,
}

// That of the stream above.
const OPENED: Made = Made::Sized(40, 12);

// A writer to such a sink.
fn writer_of(
    alloc: Global,
    fails: &[u32],
    is_short: bool,
    size: u32,
    offset: u32,
) -> Result<MemWriter, TinkError> {
    let nonce_size = if is_short { 11 } else { 16 };
    let nonce_prefix = [3u8; 7].to_vec(alloc)?;
    let buffers = WriterBuffers::reserve(alloc, size, nonce_size)?;
    match sink(alloc, fails) {
        Ok(w) => Writer::new(
            WriterParams {
                w,
                segment_encrypter: CtrHmacSegment::new(&[1; 16], &[2; 32], Hash::Sha256, 10),
                nonce_size,
                nonce_prefix,
                ciphertext_segment_size: size,
                first_ciphertext_segment_offset: offset,
            },
            buffers,
        ),
        Err(e) => Err(e),
    }
}

// What makes the segments of such a stream, whose next segment has the last number that there is.
fn last_segment(prefix: Vec<u8>, buffers: WriterBuffers) -> SegmentWriter<CtrHmacSegment>
    requires prefix { vec_len prefix ≡ 7 }
    requires segment { vec_len buffers.segment ≡ 40 }
    requires nonce { vec_len buffers.nonce ≡ 16 }
{
    let sealer = Sealer {
        encrypter: CtrHmacSegment::new(&[1; 16], &[2; 32], Hash::Sha256, 10),
        prefix,
        nonce_size: 16,
        overhead: 10,
        first: 18,
        room: 30,
    };
    SegmentWriter {
        sealer,
        mode: Mode::Open,
        segments: 4294967295,
        segment: buffers.segment,
        filled: 0,
        nonce: buffers.nonce,
    }
}

// A writer of it.
fn at_the_last_number(alloc: Global, fails: &[u32]) -> Result<MemWriter, TinkError> {
    let prefix = [3u8; 7].to_vec(alloc)?;
    let buffers = WriterBuffers::reserve(alloc, 40, 16)?;
    match sink(alloc, fails) {
        Ok(sink) => Ok(Writer::over(sink, last_segment(prefix, buffers))),
        Err(e) => Err(e),
    }
}

// A call of a writer: a write of some bytes, a flush, a close, or how many segments were written.
enum Call {
    Write(&'static [u8]),
    Flush,
    Close,
    Segments,
}

type Count = Result<usize, Kind>;

fn count(told: Result<usize, TinkError>) -> Count {
    match told {
        Ok(n) => Ok(n),
        Err(e) => Err(e.kind),
    }
}

// The answer of a call that takes no bytes.
fn count_none(told: Result<(), TinkError>) -> Count {
    match told {
        Ok(()) => Ok(0),
        Err(e) => Err(e.kind),
    }
}

// What a call answers: how many bytes it took, or its refusal.
fn answer(writer: &mut MemWriter, call: &Call) -> Count {
    match *call {
        Call::Write(bytes) => count(writer.write(bytes)),
        Call::Flush => count_none(writer.flush()),
        Call::Close => count_none(writer.close()),
        Call::Segments => Ok(writer.segments() as usize),
    }
}

fn follows(writer: &mut MemWriter, calls: &[(Call, Count)]) -> bool {
    for (call, want) in calls {
        if answer(writer, call) != *want {
            return false;
        }
    }
    true
}

// Whether the calls have their answers, and the sink then has so many bytes of the stream.
fn gives(mut writer: MemWriter, calls: &[(Call, Count)], n: usize) -> bool {
    let is_answered = follows(&mut writer, calls);
    let sink = writer.into_inner();
    is_answered & (sink.bytes() == &SEALED[..n.min(100)])
}

// How a writer is made, which calls of its sink fail, its calls, and how many bytes of the stream its sink then has.
struct Asked(Made, &'static [u32], &'static [(Call, Count)], usize);

impl Ask<()> for Asked {
    // Why no writer is made, or whether the calls have their answers.
    fn answer(&self, alloc: Global, _of: &mut ()) -> Result<bool, TinkError> {
        let made = match self.0 {
            Made::Sized(size, offset) => writer_of(alloc, self.1, false, size, offset),
            Made::ShortNonce(size, offset) => writer_of(alloc, self.1, true, size, offset),
            Made::AtTheLastNumber => at_the_last_number(alloc, self.1),
        };
        match made {
            Ok(writer) => Ok(gives(writer, self.2, self.3)),
            Err(e) => Err(e),
        }
    }
}

use Call::{Close, Flush, Segments, Write};
use test_util::{Answer, Ask, Verdict};

// The text in pieces of ten bytes.
const PIECES: &[(Call, Count)] = &[
    (Write(b"seventy by"), Ok(10)),
    (Flush, Ok(0)),
    (Write(b"tes of tex"), Ok(10)),
    (Flush, Ok(0)),
    (Write(b"t, which t"), Ok(10)),
    (Flush, Ok(0)),
    (Write(b"hree segme"), Ok(10)),
    (Flush, Ok(0)),
    (Write(b"nts of for"), Ok(10)),
    (Flush, Ok(0)),
    (Write(b"ty bytes h"), Ok(10)),
    (Flush, Ok(0)),
    (Write(b"old, at 70"), Ok(10)),
    (Flush, Ok(0)),
    (Segments, Ok(2)),
    (Close, Ok(0)),
    (Segments, Ok(3)),
];

const CLOSED: &[(Call, Count)] = &[
    (Write(TEXT), Ok(70)),
    (Close, Ok(0)),
    (Close, Ok(0)),
    (Write(b"more"), Err(Kind::Closed)),
    (Write(&[]), Err(Kind::Closed)),
    (Close, Ok(0)),
    (Segments, Ok(3)),
];

// The first segment has 18 bytes of the text.
const HELD: &[(Call, Count)] = &[
    (Write(b"seventy bytes of t"), Ok(18)),
    (Flush, Ok(0)),
    (Segments, Ok(0)),
];

const ONE_MORE: &[(Call, Count)] = &[
    (Write(b"seventy bytes of te"), Ok(19)),
    (Flush, Ok(0)),
    (Segments, Ok(1)),
];

const FAILED: Count = Err(Kind::FailedBefore(Cause::WriteFault));

const STAYS_FAILED: &[(Call, Count)] = &[
    (Write(TEXT), Err(Kind::WriteFault)),
    (Write(b"more"), FAILED),
    (Close, FAILED),
    (Close, FAILED),
    (Flush, Ok(0)),
    (Segments, Ok(1)),
];

const CLOSE_FAILS: &[(Call, Count)] = &[
    (Write(b"seventy bytes of t"), Ok(18)),
    (Close, Err(Kind::WriteFault)),
    (Close, FAILED),
    (Write(&[]), FAILED),
    (Segments, Ok(0)),
];

const TOO_MANY: Count = Err(Kind::FailedBefore(Cause::TooManySegments));

const BEHIND_THE_LAST: &[(Call, Count)] = &[
    (Write(b"seventy bytes of text, which t"), Ok(30)),
    (Write(b"t"), Err(Kind::TooManySegments)),
    (Write(&[]), TOO_MANY),
    (Close, TOO_MANY),
    (Segments, Ok(4294967295)),
];

const SEALED_ROWS: &[(&str, Asked, Answer)] = &[
    (
        "pieces give the same stream",
        Asked(OPENED, &[], PIECES, 100),
        Ok(true),
    ),
    (
        "a closed writer writes nothing",
        Asked(OPENED, &[], CLOSED, 100),
        Ok(true),
    ),
    (
        "the last segment comes at close alone",
        Asked(OPENED, &[], HELD, 0),
        Ok(true),
    ),
    (
        "a segment comes with the byte behind it",
        Asked(OPENED, &[], ONE_MORE, 28),
        Ok(true),
    ),
    (
        "a failed writer stays failed",
        Asked(OPENED, &[2], STAYS_FAILED, 28),
        Ok(true),
    ),
    (
        "a close that fails is kept",
        Asked(OPENED, &[1], CLOSE_FAILS, 0),
        Ok(true),
    ),
    (
        "text behind the last number is refused",
        Asked(Made::AtTheLastNumber, &[], BEHIND_THE_LAST, 0),
        Ok(true),
    ),
];

// A writer has room, or is refused.
const MADE_ROWS: &[(&str, Asked, Answer)] = &[
    (
        "short nonce, 40, 41",
        Asked(Made::ShortNonce(40, 41), &[], &[], 0),
        Err(Kind::NonceTooShort),
    ),
    (
        "short nonce, 40, 12",
        Asked(Made::ShortNonce(40, 12), &[], &[], 0),
        Err(Kind::NonceTooShort),
    ),
    (
        "40, 41",
        Asked(Made::Sized(40, 41), &[], &[], 0),
        Err(Kind::OffsetTooBig),
    ),
    (
        "40, 40",
        Asked(Made::Sized(40, 40), &[], &[], 0),
        Err(Kind::SegmentTooSmall),
    ),
    (
        "40, 30",
        Asked(Made::Sized(40, 30), &[], &[], 0),
        Err(Kind::SegmentTooSmall),
    ),
    (
        "0, 0",
        Asked(Made::Sized(0, 0), &[], &[], 0),
        Err(Kind::SegmentTooSmall),
    ),
    ("40, 29", Asked(Made::Sized(40, 29), &[], &[], 0), Ok(true)),
    ("11, 0", Asked(Made::Sized(11, 0), &[], &[], 0), Ok(true)),
];

pub fn writers_answer_as_the_rows_say(alloc: Global, verdict: &mut Verdict) {
    verdict.walk(alloc, (), SEALED_ROWS);
    verdict.walk(alloc, (), MADE_ROWS);
}
