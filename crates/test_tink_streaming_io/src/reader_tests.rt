//! Readers over memory of a stream that Python made.

use hash_keys::Hash;
use std::alloc::Global;
use test_util::{Answer, Ask, Verdict};
use tink_io::{Cause, Kind, MemSource, TinkError};
use tink_streaming_ciphers::CtrHmacSegment;
use tink_streaming_io::{Buffers, Reader, ReaderParams};

type MemReader = Reader<MemSource, CtrHmacSegment>;

const TEXT: &[u8; 47] = b"forty-seven bytes, which three segments hold it";

// The text's segments of 30 bytes, the first of 20, under AES-256 with a key of ones, HMAC-SHA-512
// with a key of twos, tags of ten bytes and a prefix of threes.
const SEALED: &[u8; 77] =
    b"\x88\x5a\xe6\x40\xb5\xd1\x67\xb2\x30\x7a\x92\x1a\x5e\x4f\xe7\xa6\xfc\x33\xb7\xc1\xf0\x64\x32\x52\x45\x93\xab\x9e\x5e\xd6\xfd\x2f\x7f\x01\x5e\x4f\x0d\x3b\xbb\x25\xf3\xa1\xdc\xd9\xd8\xe9\x32\xf5\x9e\x38\xdd\x8f\x41\xbe\x66\x27\x36\x12\xdf\x2e\x0f\xf5\xf9\xe6\x81\xae\x8f\x55\x03\xf8\x03\x9a\xf3\x9b\x6f\x2b\x30";

// The empty text's one segment, under the same keys.
const SEALED_EMPTY: &[u8; 10] = b"\x93\xad\x0e\x96\x09\x25\xae\x41\xe5\x82";

// A source of these bytes whose calls of these numbers fail, and which moves at most so many bytes a call.
fn source(alloc: Global, (bytes, piece, fails): Given) -> Result<MemSource, TinkError> {
    let fails = fails.to_vec(alloc)?;
    let bytes = bytes.to_vec(alloc)?;
    Ok(MemSource::new(bytes, piece, fails))
}

// A reader of such a source, with segments and an offset of these sizes. Nonces have 16 bytes, or 11.
fn reader_of(
    alloc: Global,
    given: Given,
    (is_short, size, offset): (bool, u32, u32),
) -> Result<MemReader, TinkError> {
    let nonce_size = if is_short { 11 } else { 16 };
    let nonce_prefix = [3u8; 7].to_vec(alloc)?;
    let buffers = Buffers::reserve(alloc, size, nonce_size)?;
    match source(alloc, given) {
        Ok(r) => Reader::new(
            ReaderParams {
                r,
                segment_decrypter: CtrHmacSegment::new(&[1; 32], &[2; 32], Hash::Sha512, 10),
                nonce_size,
                nonce_prefix,
                ciphertext_segment_size: size,
                first_ciphertext_segment_offset: offset,
            },
            buffers,
        ),
        Err(e) => Err(e),
    }
}

// A read to a buffer of so many bytes, what it gives, and how many segments were then opened.
type Read = (usize, Result<&'static [u8], Kind>, u64);

// The longest buffer of a read.
const ROOM: usize = 47;

fn is_so(reader: &mut MemReader, read: &Read) -> bool {
    let (room, want, segments) = *read;
    let mut buf = [0u8; ROOM];
    let buf = &mut buf[..room.min(ROOM)];
    let is_want = match (reader.read(buf), want) {
        (Ok(n), Ok(text)) => &buf[..n] == text,
        (Err(e), Err(kind)) => e.kind == kind,
        _ => false,
    };
    is_want && reader.segments() == segments
}

fn follows(reader: &mut MemReader, reads: &[Read]) -> bool {
    for read in reads {
        if !is_so(reader, read) {
            return false;
        }
    }
    true
}

// A source, its bytes in a call, and which of its calls fail.
type Given = (&'static [u8], usize, &'static [u32]);

// Whether nonces have 11 bytes, the sizes of a segment and of its offset; a source; reads with their answers.
struct Asked((bool, u32, u32), Given, &'static [Read]);

impl Ask<()> for Asked {
    // Why no reader is made, or whether the reads have their answers.
    fn answer(&self, alloc: Global, _of: &mut ()) -> Result<bool, TinkError> {
        match reader_of(alloc, self.1, self.0) {
            Ok(mut reader) => Ok(follows(&mut reader, self.2)),
            Err(e) => Err(e),
        }
    }
}

// The text in pieces of ten bytes.
const WHOLE: &[Read] = &[
    (10, Ok(b"forty-seve"), 1),
    (10, Ok(b"n bytes, w"), 2),
    (10, Ok(b"hich three"), 2),
    (10, Ok(b" segments "), 3),
    (10, Ok(b"hold it"), 3),
    (10, Ok(b""), 3),
    (10, Ok(b""), 3),
    (10, Ok(b""), 3),
];

// A read opens one segment at most.
const ONE_AT_MOST: &[Read] = &[
    (47, Ok(b"forty-seve"), 1),
    (3, Ok(b"n b"), 2),
    (47, Ok(b"ytes, which three"), 2),
    (0, Ok(b""), 2),
    (16, Ok(b" segments hold i"), 3),
    (16, Ok(b"t"), 3),
    (16, Ok(b""), 3),
];

const EMPTY: &[Read] = &[(10, Ok(b""), 1), (10, Ok(b""), 1)];

const NO_STREAM: &[Read] = &[
    (0, Ok(b""), 0),
    (10, Err(Kind::Truncated(0)), 0),
    (10, Err(Kind::FailedBefore(Cause::Truncated(0))), 0),
    (0, Err(Kind::FailedBefore(Cause::Truncated(0))), 0),
];

// What is given before a bad segment, and before the end of a stream that was cut.
const BAD_0: &[Read] = &[
    (10, Err(Kind::BadSegment(0)), 0),
    (10, Err(Kind::FailedBefore(Cause::BadSegment(0))), 0),
    (10, Err(Kind::FailedBefore(Cause::BadSegment(0))), 0),
];

const BAD_1: &[Read] = &[
    (10, Ok(b"forty-seve"), 1),
    (10, Err(Kind::BadSegment(1)), 1),
    (10, Err(Kind::FailedBefore(Cause::BadSegment(1))), 1),
    (10, Err(Kind::FailedBefore(Cause::BadSegment(1))), 1),
];

const BAD_2: &[Read] = &[
    (10, Ok(b"forty-seve"), 1),
    (10, Ok(b"n bytes, w"), 2),
    (10, Ok(b"hich three"), 2),
    (10, Err(Kind::BadSegment(2)), 2),
    (10, Err(Kind::FailedBefore(Cause::BadSegment(2))), 2),
    (10, Err(Kind::FailedBefore(Cause::BadSegment(2))), 2),
];

const CUT_0: &[Read] = &[
    (10, Err(Kind::Truncated(0)), 0),
    (10, Err(Kind::FailedBefore(Cause::Truncated(0))), 0),
    (10, Err(Kind::FailedBefore(Cause::Truncated(0))), 0),
];

const CUT_1: &[Read] = &[
    (10, Ok(b"forty-seve"), 1),
    (10, Err(Kind::Truncated(1)), 1),
    (10, Err(Kind::FailedBefore(Cause::Truncated(1))), 1),
    (10, Err(Kind::FailedBefore(Cause::Truncated(1))), 1),
];

const CUT_2: &[Read] = &[
    (10, Ok(b"forty-seve"), 1),
    (10, Ok(b"n bytes, w"), 2),
    (10, Ok(b"hich three"), 2),
    (10, Err(Kind::Truncated(2)), 2),
    (10, Err(Kind::FailedBefore(Cause::Truncated(2))), 2),
    (10, Err(Kind::FailedBefore(Cause::Truncated(2))), 2),
];

const FAILED: &[Read] = &[
    (47, Ok(b"forty-seve"), 1),
    (47, Err(Kind::ReadFault), 1),
    (47, Err(Kind::FailedBefore(Cause::ReadFault)), 1),
    (0, Err(Kind::FailedBefore(Cause::ReadFault)), 1),
];

// An empty buffer reads nothing.
const NOTHING_READ: &[Read] = &[
    (0, Ok(b""), 0),
    (0, Ok(b""), 0),
    (1, Err(Kind::ReadFault), 0),
];

// The sizes of the streams above.
const OPENED: (bool, u32, u32) = (false, 30, 10);

const NO_BYTES: Given = (&[], 0, &[]);

const OPENED_ROWS: &[(&str, Asked, Answer)] = &[
    (
        "the text, 0 bytes a call",
        Asked(OPENED, (SEALED, 0, &[]), WHOLE),
        Ok(true),
    ),
    (
        "the text, 1 bytes a call",
        Asked(OPENED, (SEALED, 1, &[]), WHOLE),
        Ok(true),
    ),
    (
        "the text, 20 bytes a call",
        Asked(OPENED, (SEALED, 20, &[]), WHOLE),
        Ok(true),
    ),
    (
        "the text, 31 bytes a call",
        Asked(OPENED, (SEALED, 31, &[]), WHOLE),
        Ok(true),
    ),
    (
        "one segment a read",
        Asked(OPENED, (SEALED, 0, &[]), ONE_AT_MOST),
        Ok(true),
    ),
    (
        "the empty text",
        Asked(OPENED, (SEALED_EMPTY, 0, &[]), EMPTY),
        Ok(true),
    ),
    ("no bytes", Asked(OPENED, NO_BYTES, NO_STREAM), Ok(true)),
    (
        "a failed source",
        Asked(OPENED, (SEALED, 0, &[2]), FAILED),
        Ok(true),
    ),
    (
        "an empty buffer",
        Asked(OPENED, (SEALED, 0, &[1]), NOTHING_READ),
        Ok(true),
    ),
];

// A byte is changed.
const CHANGED_ROWS: &[(&str, Asked, Answer)] = &[
    (
        "byte 0",
        Asked(
            OPENED,
            (
                b"\x89\x5a\xe6\x40\xb5\xd1\x67\xb2\x30\x7a\x92\x1a\x5e\x4f\xe7\xa6\xfc\x33\xb7\xc1\xf0\x64\x32\x52\x45\x93\xab\x9e\x5e\xd6\xfd\x2f\x7f\x01\x5e\x4f\x0d\x3b\xbb\x25\xf3\xa1\xdc\xd9\xd8\xe9\x32\xf5\x9e\x38\xdd\x8f\x41\xbe\x66\x27\x36\x12\xdf\x2e\x0f\xf5\xf9\xe6\x81\xae\x8f\x55\x03\xf8\x03\x9a\xf3\x9b\x6f\x2b\x30",
                0,
                &[],
            ),
            BAD_0,
        ),
        Ok(true),
    ),
    (
        "byte 19",
        Asked(
            OPENED,
            (
                b"\x88\x5a\xe6\x40\xb5\xd1\x67\xb2\x30\x7a\x92\x1a\x5e\x4f\xe7\xa6\xfc\x33\xb7\xc0\xf0\x64\x32\x52\x45\x93\xab\x9e\x5e\xd6\xfd\x2f\x7f\x01\x5e\x4f\x0d\x3b\xbb\x25\xf3\xa1\xdc\xd9\xd8\xe9\x32\xf5\x9e\x38\xdd\x8f\x41\xbe\x66\x27\x36\x12\xdf\x2e\x0f\xf5\xf9\xe6\x81\xae\x8f\x55\x03\xf8\x03\x9a\xf3\x9b\x6f\x2b\x30",
                0,
                &[],
            ),
            BAD_0,
        ),
        Ok(true),
    ),
    (
        "byte 20",
        Asked(
            OPENED,
            (
                b"\x88\x5a\xe6\x40\xb5\xd1\x67\xb2\x30\x7a\x92\x1a\x5e\x4f\xe7\xa6\xfc\x33\xb7\xc1\xf1\x64\x32\x52\x45\x93\xab\x9e\x5e\xd6\xfd\x2f\x7f\x01\x5e\x4f\x0d\x3b\xbb\x25\xf3\xa1\xdc\xd9\xd8\xe9\x32\xf5\x9e\x38\xdd\x8f\x41\xbe\x66\x27\x36\x12\xdf\x2e\x0f\xf5\xf9\xe6\x81\xae\x8f\x55\x03\xf8\x03\x9a\xf3\x9b\x6f\x2b\x30",
                0,
                &[],
            ),
            BAD_1,
        ),
        Ok(true),
    ),
    (
        "byte 49",
        Asked(
            OPENED,
            (
                b"\x88\x5a\xe6\x40\xb5\xd1\x67\xb2\x30\x7a\x92\x1a\x5e\x4f\xe7\xa6\xfc\x33\xb7\xc1\xf0\x64\x32\x52\x45\x93\xab\x9e\x5e\xd6\xfd\x2f\x7f\x01\x5e\x4f\x0d\x3b\xbb\x25\xf3\xa1\xdc\xd9\xd8\xe9\x32\xf5\x9e\x39\xdd\x8f\x41\xbe\x66\x27\x36\x12\xdf\x2e\x0f\xf5\xf9\xe6\x81\xae\x8f\x55\x03\xf8\x03\x9a\xf3\x9b\x6f\x2b\x30",
                0,
                &[],
            ),
            BAD_1,
        ),
        Ok(true),
    ),
    (
        "byte 76",
        Asked(
            OPENED,
            (
                b"\x88\x5a\xe6\x40\xb5\xd1\x67\xb2\x30\x7a\x92\x1a\x5e\x4f\xe7\xa6\xfc\x33\xb7\xc1\xf0\x64\x32\x52\x45\x93\xab\x9e\x5e\xd6\xfd\x2f\x7f\x01\x5e\x4f\x0d\x3b\xbb\x25\xf3\xa1\xdc\xd9\xd8\xe9\x32\xf5\x9e\x38\xdd\x8f\x41\xbe\x66\x27\x36\x12\xdf\x2e\x0f\xf5\xf9\xe6\x81\xae\x8f\x55\x03\xf8\x03\x9a\xf3\x9b\x6f\x2b\x31",
                0,
                &[],
            ),
            BAD_2,
        ),
        Ok(true),
    ),
];

// The stream is cut.
const CUT_ROWS: &[(&str, Asked, Answer)] = &[
    (
        "cut behind 9",
        Asked(
            OPENED,
            (b"\x88\x5a\xe6\x40\xb5\xd1\x67\xb2\x30", 0, &[]),
            CUT_0,
        ),
        Ok(true),
    ),
    (
        "cut behind 20",
        Asked(
            OPENED,
            (
                b"\x88\x5a\xe6\x40\xb5\xd1\x67\xb2\x30\x7a\x92\x1a\x5e\x4f\xe7\xa6\xfc\x33\xb7\xc1",
                0,
                &[],
            ),
            BAD_0,
        ),
        Ok(true),
    ),
    (
        "cut behind 29",
        Asked(
            OPENED,
            (
                b"\x88\x5a\xe6\x40\xb5\xd1\x67\xb2\x30\x7a\x92\x1a\x5e\x4f\xe7\xa6\xfc\x33\xb7\xc1\xf0\x64\x32\x52\x45\x93\xab\x9e\x5e",
                0,
                &[],
            ),
            CUT_1,
        ),
        Ok(true),
    ),
    (
        "cut behind 50",
        Asked(
            OPENED,
            (
                b"\x88\x5a\xe6\x40\xb5\xd1\x67\xb2\x30\x7a\x92\x1a\x5e\x4f\xe7\xa6\xfc\x33\xb7\xc1\xf0\x64\x32\x52\x45\x93\xab\x9e\x5e\xd6\xfd\x2f\x7f\x01\x5e\x4f\x0d\x3b\xbb\x25\xf3\xa1\xdc\xd9\xd8\xe9\x32\xf5\x9e\x38",
                0,
                &[],
            ),
            BAD_1,
        ),
        Ok(true),
    ),
    (
        "cut behind 51",
        Asked(
            OPENED,
            (
                b"\x88\x5a\xe6\x40\xb5\xd1\x67\xb2\x30\x7a\x92\x1a\x5e\x4f\xe7\xa6\xfc\x33\xb7\xc1\xf0\x64\x32\x52\x45\x93\xab\x9e\x5e\xd6\xfd\x2f\x7f\x01\x5e\x4f\x0d\x3b\xbb\x25\xf3\xa1\xdc\xd9\xd8\xe9\x32\xf5\x9e\x38\xdd",
                0,
                &[],
            ),
            CUT_2,
        ),
        Ok(true),
    ),
    (
        "cut behind 76",
        Asked(
            OPENED,
            (
                b"\x88\x5a\xe6\x40\xb5\xd1\x67\xb2\x30\x7a\x92\x1a\x5e\x4f\xe7\xa6\xfc\x33\xb7\xc1\xf0\x64\x32\x52\x45\x93\xab\x9e\x5e\xd6\xfd\x2f\x7f\x01\x5e\x4f\x0d\x3b\xbb\x25\xf3\xa1\xdc\xd9\xd8\xe9\x32\xf5\x9e\x38\xdd\x8f\x41\xbe\x66\x27\x36\x12\xdf\x2e\x0f\xf5\xf9\xe6\x81\xae\x8f\x55\x03\xf8\x03\x9a\xf3\x9b\x6f\x2b",
                0,
                &[],
            ),
            BAD_2,
        ),
        Ok(true),
    ),
];

// A reader has room, or is refused.
const MADE_ROWS: &[(&str, Asked, Answer)] = &[
    (
        "short nonce, 30, 31",
        Asked((true, 30, 31), NO_BYTES, &[]),
        Err(Kind::NonceTooShort),
    ),
    (
        "short nonce, 30, 10",
        Asked((true, 30, 10), NO_BYTES, &[]),
        Err(Kind::NonceTooShort),
    ),
    (
        "30, 31",
        Asked((false, 30, 31), NO_BYTES, &[]),
        Err(Kind::OffsetTooBig),
    ),
    (
        "30, 30",
        Asked((false, 30, 30), NO_BYTES, &[]),
        Err(Kind::SegmentTooSmall),
    ),
    (
        "30, 20",
        Asked((false, 30, 20), NO_BYTES, &[]),
        Err(Kind::SegmentTooSmall),
    ),
    (
        "0, 0",
        Asked((false, 0, 0), NO_BYTES, &[]),
        Err(Kind::SegmentTooSmall),
    ),
    ("30, 19", Asked((false, 30, 19), NO_BYTES, &[]), Ok(true)),
    ("11, 0", Asked((false, 11, 0), NO_BYTES, &[]), Ok(true)),
];

pub fn readers_give_the_text(alloc: Global, verdict: &mut Verdict) {
    verdict.walk(alloc, (), OPENED_ROWS);
}

pub fn readers_refuse_what_is_changed(alloc: Global, verdict: &mut Verdict) {
    verdict.walk(alloc, (), CHANGED_ROWS);
}

pub fn readers_refuse_what_is_cut_or_small(alloc: Global, verdict: &mut Verdict) {
    verdict.walk(alloc, (), CUT_ROWS);
    verdict.walk(alloc, (), MADE_ROWS);
}
