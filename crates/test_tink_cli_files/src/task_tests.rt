//! What streams, tokens and ranges leave in a place over memory.

ghost use Rattle.std.specs.Prelude.{◌≡◌, ◌<◌, true, OnErr};

use crate::places::{Call, Row, walk};
use std::alloc::Global;
use std::marker::Brand;
use std::sync::ledger::{Blank, Ledger};
use test_util::{CTR_35, GCM_41, Verdict, draws_of, sink_of};
use tink_cli_files::{Task, range_to, save_task, write_task};
use tink_io::{Draws, Kind, MemPlace, Place, Source, SureSink, SureSource, TinkError};
use tink_range::{MemAt, Steps};
use tink_run::report::{Command, Report};

// A key of HMAC-SHA256 with the id 7, a prefix and tags of 16.
const MACS: &[u8] = b"\
    \x08\x07\x12T\x0aL\x0a.type.googleapis.com/google.crypto.tink.HmacKey\x12\x18\x12\x04\x08\x03\x10\x10\x1a\
    \x10 !\x22#$%&'()*+,-./\x18\x01\x10\x01\x18\x07 \x01";

const TEXT: &[u8] = b"a text of two chunks";

// What a range has of it.
const NINE: &[u8] = b"a text of";

// Its streams by an independent model: in counter mode with the data `May`, and by GCM with `June`.
const SEALED: &[u8] = b"\
    \x18\x00\x01\x02\x03\x04\x05\x06\x07\x08\x09\x0a\x0b\x0c\x0d\x0e\x0f\x10\x11\x12\x13\x14\x15\x16\x09\xe12\
    \x9e\xa6\x90\x9f\xed)\xb3\xec\x903\xbf\x03\x9e\xf1\xe9G\xc6\xd8\xf8\xf7E\xf4\xaa\xa1/k2F\x13\xe6'\x1b\x84\
    \x1c\x02\x89/";

const MOVED: &[u8] = b"\
    \x18\x00\x01\x02\x03\x04\x05\x06\x07\x08\x09\x0a\x0b\x0c\x0d\x0e\x0f\x10\x11\x12\x13\x14\x15\x16\xc3\x1bY\
    \x1d\xc9\x802\x0d\x93\xeb\xe2K\x1a\xafS^\xbdZ\x22\xe1N\xa2\xc4\x08\xd0\xb3U\x0a}\xf97_\x9a\xe7\xa5\x02\xb8yU\
    ~\xed\xd4\xefR\x08\xd0\x88\x9cZ=\x9d\x8d";

const TOKEN: &[u8] = b"YSB0ZXh0IG9mIHR3byBjaHVua3M.AQAAAAcCk2wVHG1hBYbQ3VD2ex4O";

// The data of the stream, and a move of it to other keys and data.
const MAY: &[u8] = b"May";

const MOVE: Task<'static> = Task::Rewrap {
    to: GCM_41,
    to_aad: b"June",
};

enum What {
    Seal,
    Open,
    Rewrap,
    Sign,
    Verify,
    Range,
}

// What is done with the text, its stream or its token, of which so many bytes are left, and which of them is changed.
struct Asked(What, usize, usize);

const ROWS: &[Row<Asked>] = &[
    ("a seal", Asked(What::Seal, ALL, ALL), 64, Ok(SEALED)),
    (
        "a seal without room",
        Asked(What::Seal, ALL, ALL),
        63,
        Err(Kind::WriteFault),
    ),
    ("an open", Asked(What::Open, ALL, ALL), 20, Ok(TEXT)),
    (
        "an open without room",
        Asked(What::Open, ALL, ALL),
        19,
        Err(Kind::WriteFault),
    ),
    (
        "an open of all but a byte",
        Asked(What::Open, 63, ALL),
        20,
        Err(Kind::BadSegment(1)),
    ),
    (
        "an open of a cut stream",
        Asked(What::Open, 44, ALL),
        20,
        Err(Kind::Truncated(1)),
    ),
    (
        "an open of a changed first segment",
        Asked(What::Open, ALL, 24),
        20,
        Err(Kind::NoMatchingKey),
    ),
    ("a rewrap", Asked(What::Rewrap, ALL, ALL), 76, Ok(MOVED)),
    (
        "a rewrap without room",
        Asked(What::Rewrap, ALL, ALL),
        75,
        Err(Kind::WriteFault),
    ),
    (
        "a rewrap of all but a byte",
        Asked(What::Rewrap, 63, ALL),
        76,
        Err(Kind::BadSegment(1)),
    ),
    (
        "a rewrap of a changed header",
        Asked(What::Rewrap, ALL, 0),
        76,
        Err(Kind::NoMatchingKey),
    ),
    ("a sign", Asked(What::Sign, ALL, ALL), 56, Ok(TOKEN)),
    (
        "a sign without room",
        Asked(What::Sign, ALL, ALL),
        55,
        Err(Kind::WriteFault),
    ),
    ("a verify", Asked(What::Verify, ALL, ALL), 20, Ok(TEXT)),
    (
        "a verify without room",
        Asked(What::Verify, ALL, ALL),
        19,
        Err(Kind::WriteFault),
    ),
    (
        "a verify of a cut token",
        Asked(What::Verify, 27, ALL),
        20,
        Err(Kind::BadToken),
    ),
    (
        "a verify of a changed token",
        Asked(What::Verify, ALL, 0),
        20,
        Err(Kind::MacMismatch),
    ),
    ("a range", Asked(What::Range, ALL, ALL), 9, Ok(NINE)),
    (
        "a range without room",
        Asked(What::Range, ALL, ALL),
        8,
        Err(Kind::WriteFault),
    ),
    (
        "a range of all but a byte",
        Asked(What::Range, 63, ALL),
        9,
        Err(Kind::BadSegment(1)),
    ),
    (
        "a range of a changed last byte",
        Asked(What::Range, ALL, 63),
        9,
        Err(Kind::BadSegment(1)),
    ),
    (
        "a range of a changed first segment",
        Asked(What::Range, ALL, 24),
        9,
        Err(Kind::NoMatchingKey),
    ),
];

const ALL: usize = 9999;

// The input of what is asked, of which so many bytes are left and one is changed.
fn input_of(alloc: Global, what: &What, left: usize, place: usize) -> Result<Vec<u8>, TinkError> {
    let whole = match *what {
        What::Seal | What::Sign => TEXT,
        What::Verify => TOKEN,
        _ => SEALED,
    };
    let mut input = Vec::from_slice(alloc, whole)?;
    input.truncate(left);
    if let Some(byte) = input.get_mut(place) {
        *byte ^= 1;
    }
    Ok(input)
}

// Without what it reports.
fn without_report<T: Copy>(answer: Result<T, TinkError>) -> Result<(), TinkError> {
    match answer {
        Ok(_) => Ok(()),
        Err(e) => Err(e),
    }
}

// The draws 0 to 22.
const DRAWS: &[u8] =
    b"\x00\x01\x02\x03\x04\x05\x06\x07\x08\x09\x0a\x0b\x0c\x0d\x0e\x0f\x10\x11\x12\x13\x14\x15\x16";

// Encrypts a source to a file that is shown whole. By a refusal what stands there stays.
fn encrypt_to<S: Source, P: Place>(
    alloc: Global,
    keyset: &[u8],
    aad: &[u8],
    draws: &mut Draws,
    source: &mut S,
    place: &mut P,
) -> Result<Option<Report>, TinkError>
    requires { P.has_draft place.old ≡ true }
    ensures { OnErr result (P.shown place.new ≡ P.shown place.old) }
{
    save_task(
        alloc,
        Task::Run(Command::Seal),
        keyset,
        aad,
        draws,
        source,
        place,
    )
}

impl Call for Asked {
    fn perform(&self, alloc: Global, place: &mut MemPlace) -> Result<(), TinkError> {
        let input = input_of(alloc, &self.0, self.1, self.2)?;
        match self.0 {
            What::Range => save_range(alloc, input, place),
            _ => save_stream(alloc, &self.0, input, place),
        }
    }
}

// A text, a stream or a token into a place.
fn save_stream(
    alloc: Global,
    what: &What,
    input: Vec<u8>,
    place: &mut MemPlace,
) -> Result<(), TinkError>
    requires { place.old.has_draft ≡ true }
{
    let mut draws = draws_of(alloc, DRAWS)?;
    let mut source = SureSource::new(input);
    without_report(match *what {
        What::Seal => encrypt_to(alloc, CTR_35, MAY, &mut draws, &mut source, place),
        _ => {
            let (task, keys, aad) = task_of(what);
            save_task(alloc, task, keys, aad, &mut draws, &mut source, place)
        }
    })
}

// An open, a move to other keys, or what is done with a token, with its keys and data.
fn task_of(what: &What) -> (Task<'static>, &'static [u8], &'static [u8]) {
    match *what {
        What::Rewrap => (MOVE, CTR_35, MAY),
        What::Sign => (Task::Sign, MACS, b""),
        What::Verify => (Task::Verify, MACS, b""),
        _ => (Task::Run(Command::Open), CTR_35, MAY),
    }
}

// A range of a stream into a place.
fn save_range(alloc: Global, input: Vec<u8>, place: &mut MemPlace) -> Result<(), TinkError>
    requires { place.old.has_draft ≡ true }
{
    let mut object = MemAt::new(input, 0, Vec::new(alloc));
    without_report(range_of::<Brand>(alloc, &mut object, place, Blank::new(1)))
}

// The first nine bytes of the text, by a ledger of steps.
fn range_of<L: Ledger>(
    alloc: Global,
    object: &mut MemAt,
    place: &mut MemPlace,
    blank: Blank,
) -> Result<u64, TinkError>
    requires draft { place.old.has_draft ≡ true }
    requires name { blank.name ≡ L.name }
    requires parts { blank.parts ≡ L.parts }
    requires some { 0 < blank.parts }
{
    let mut steps = Steps::<L>::new(blank);
    range_to(alloc, CTR_35, MAY, object, 0, 9, place, &mut steps)
}

pub fn what_is_made_stands_whole_or_not_at_all(alloc: Global, verdict: &mut Verdict) {
    walk(alloc, verdict, ROWS);
}

// Whether an open into a sink reports its segments and bytes.
fn is_reported(alloc: Global, sink: &mut SureSink) -> Result<bool, TinkError> {
    let mut source = SureSource::new(Vec::from_slice(alloc, SEALED)?);
    let mut draws = Draws::new(Vec::new(alloc));
    let task = Task::Run(Command::Open);
    match write_task(alloc, task, CTR_35, MAY, &mut draws, &mut source, sink) {
        Ok(Some(report)) => Ok(report.segments == 2 && report.bytes == 20),
        Ok(None) => Ok(false),
        Err(e) => Err(e),
    }
}

// Whether the sink has got the text then.
fn opens(alloc: Global) -> Result<bool, TinkError> {
    let mut sink = sink_of(alloc, TEXT.len())?;
    match is_reported(alloc, &mut sink) {
        Ok(is_reported) => Ok(is_reported & (sink.bytes() == TEXT)),
        Err(e) => Err(e),
    }
}

pub fn a_text_goes_into_a_sink_as_it_comes(alloc: Global, verdict: &mut Verdict) {
    verdict.expect(opens(alloc), Ok(true), "a text into a sink");
}
