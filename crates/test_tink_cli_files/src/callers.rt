//! Callers of `run`, `rewrap`, `run_range`, `keygen` and `write_payload`; their clauses follow from those of the calls.

ghost use Rattle.std.specs.Prelude.{◌≡◌, ◌<◌, [], codes, Ok, Some, IfOk};
ghost use Rattle.tink_keygen.specs.Rotating.{key_line, rotated_by};
ghost use Rattle.tink_keysets.specs.Managed.{no_keys};
ghost use Rattle.tink_proto.specs.declared.messages.keys.Keyset.{Keyset};
ghost use Rattle.tink_io.specs.Outside.{Outside};
ghost use Rattle.tink_rewrap.specs.RewrapPromises.{IsWholeRewrap};
ghost use Rattle.tink_rewrap.specs.Rewrapping.{sides};
ghost use Rattle.tink_run.specs.Run.{IsWholeStream};
ghost use Rattle.tink_tokens.specs.Tokens.{RefusesVerifying, TokenMeans, VerifiesTo};

use crate::support::{counting_bytes, stream_of};
use std::alloc::Global;
use std::marker::Brand;
use std::sync::ledger::{Blank, Ledger};
use test_util::{CTR_35, CTR_4096, GCM_41, Verdict, sink_of, succeeds};
use tink_io::{Draws, Kind, Sink, SureSink, SureSource, TinkError};
use tink_keygen::{key_line, keygen};
use tink_range::{MemAt, ReadAt, Steps};
use tink_rewrap::ranges::run_range;
use tink_rewrap::rewrap::rewrap;
use tink_run::report::{Command, Report};
use tink_run::run::run;
use tink_tokens::write_payload;

const TEXT: &[u8] = b"a text of two chunks";

// It as a stream under the key with segments of 35 bytes, with no associated data, by an independent model.
const SEALED: &[u8] = b"\
    \x18\x00\x01\x02\x03\x04\x05\x06\x07\x08\x09\x0a\x0b\x0c\x0d\x0e\x0f\x10\x11\x12\x13\x14\x15\x16'[\x86a\x14S\
    \x7f9*<:]}1\x12\xdc\xe5\x9aG\x83\xfc\xd2^\x0b\xcaU\xb7\x1b1\xa3\xf6\xa8\x11\xc3E\xe6|\x81\xd49";

// Seals a text in memory, without associated data. After `Ok` the sink got exactly the stream of the text under the
// keyset's primary key and the first draws.
fn seal_text(
    alloc: Global,
    keyset: &[u8],
    draws: &mut Draws,
    text: &mut SureSource,
    stream: &mut SureSink,
) -> Result<Report, TinkError>
    ensures sealed { IfOk result (λ report. IsWholeStream keyset.now [] draws.old draws.new text.old stream.old.got
        (record { left = Some text.new; read_faults = 0; got = Some stream.new.got; write_faults = stream.new.faults })
        report) }
{
    run(alloc, Command::Seal, keyset, &[], draws, text, stream)
}

// Moves a stream in memory, without associated data. After `Ok` it was exactly a stream of the chosen key of the one
// keyset, and the sink got exactly the stream of its text under the primary key of the other and the first draws.
fn move_stream(
    alloc: Global,
    from: &[u8],
    to: &[u8],
    draws: &mut Draws,
    stream: &mut SureSource,
    moved: &mut SureSink,
) -> Result<Report, TinkError>
    ensures moved { IfOk result (λ report. IsWholeRewrap
        (sides from.now [] to.now [])
        draws.old draws.new stream.old moved.old.got
        (record { left = Some stream.new; read_faults = 0; got = Some moved.new.got; write_faults = moved.new.faults })
        report) }
{
    rewrap(alloc, from, &[], to, &[], draws, stream, moved)
}

// The line of a keyset of one new key.
fn new_line(alloc: Global, draws: &mut Draws) -> Result<Vec<u8>, TinkError>
    ensures line { IfOk result (λ line. (ks : Keyset)
        × (rotated_by (codes "AES128_GCM") (Ok no_keys) draws.old ≡ Ok ks) × (line.items ≡ key_line ks)) }
{
    let keyset = keygen(alloc, "AES128_GCM", draws)?;
    key_line(alloc, &keyset)
}

// Writes the payload of a token in memory. By `Ok` a key of the keyset accepts the token, and exactly its payload was
// written; each refusal has its cause.
fn payload_in_memory(
    alloc: Global,
    keyset: &[u8],
    token: &mut SureSource,
    payload: &mut SureSink,
) -> Result<(), TinkError>
    ensures { TokenMeans VerifiesTo RefusesVerifying keyset.now
        (record { left = Some token.old; read_faults = 0; got = Some payload.old.got; write_faults = payload.old.faults })
        (record { left = Some token.new; read_faults = 0; got = Some payload.new.got; write_faults = payload.new.faults })
        result }
{
    write_payload(alloc, keyset, token, payload)
}

// Whether a new keyset has its line.
fn is_line(alloc: Global) -> Result<bool, TinkError> {
    let mut draws = Draws::new(counting_bytes(alloc, 20)?);
    match new_line(alloc, &mut draws) {
        Ok(line) => Ok(line.ends_with(b"\n") & (line.len() == 185)),
        Err(e) => Err(e),
    }
}

// Whether no text is sealed to a header and a tag.
fn seals(alloc: Global, draws: &mut Draws, stream: &mut SureSink) -> Result<bool, TinkError> {
    let mut text = SureSource::new(Vec::new(alloc));
    match seal_text(alloc, CTR_4096, draws, &mut text, stream) {
        Ok(it) => Ok(it.segments == 1 && it.bytes == 0 && stream.bytes().len() == 56),
        Err(e) => Err(e),
    }
}

// Whether a stream of one byte is moved to a front, the byte and a tag. A refusal is handed on where nothing was
// written or drawn.
fn moves(alloc: Global, draws: &mut Draws, moved: &mut SureSink) -> Result<bool, TinkError> {
    let mut stream = SureSource::new(stream_of(alloc, CTR_35, 1)?);
    let answer = move_stream(alloc, CTR_35, GCM_41, draws, &mut stream, moved);
    let (written, left) = (moved.bytes().len(), draws.left());
    match answer {
        Ok(it) => Ok(it.segments == 1 && it.bytes == 1 && written == 41 && left == 0),
        Err(e) if written == 0 && left == 23 => Err(e),
        Err(_) => Ok(false),
    }
}

// What is done with 23 draws and a sink.
enum Does {
    Seal,
    Move,
}

// Whether it is done to a sink with room for so many bytes.
fn is_done(alloc: Global, does: &Does, room: usize) -> Result<bool, TinkError> {
    let mut draws = Draws::new(counting_bytes(alloc, 23)?);
    let mut sink = sink_of(alloc, room)?;
    match *does {
        Does::Seal => seals(alloc, &mut draws, &mut sink),
        Does::Move => moves(alloc, &mut draws, &mut sink),
    }
}

// How a token is refused under no keyset.
fn no_payload(alloc: Global) -> Result<(), TinkError> {
    let (mut input, mut output) = (SureSource::new(Vec::new(alloc)), SureSink::new(alloc));
    payload_in_memory(alloc, b"no", &mut input, &mut output)
}

// A page of 4,096 bytes of a sealed file, without associated data.
fn page<A: ReadAt, K: Sink, L: Ledger>(
    alloc: Global,
    keyset: &[u8],
    file: &mut A,
    number: u32,
    sink: &mut K,
    steps: &mut Steps<L>,
) -> Result<u64, TinkError> {
    run_range(
        alloc,
        keyset,
        &[],
        file,
        u64::from(number) * 4096,
        4096,
        sink,
        steps,
    )
}

// The first page, by a ledger of steps.
fn page_of<L: Ledger>(
    alloc: Global,
    keyset: &[u8],
    file: &mut MemAt,
    sink: &mut SureSink,
    blank: Blank,
) -> Result<u64, TinkError>
    requires name { blank.name ≡ L.name }
    requires parts { blank.parts ≡ L.parts }
    requires some { 0 < blank.parts }
{
    let mut steps = Steps::<L>::new(blank);
    page(alloc, keyset, file, 0, sink, &mut steps)
}

// The first page of a sealed file.
fn first_page(alloc: Global, sink: &mut SureSink) -> Result<u64, TinkError> {
    let mut file = MemAt::new(Vec::from_slice(alloc, SEALED)?, 0, Vec::new(alloc));
    page_of::<Brand>(alloc, CTR_35, &mut file, sink, Blank::new(1))
}

// Whether it is the file's text.
fn is_page(alloc: Global) -> Result<bool, TinkError> {
    let mut sink = sink_of(alloc, 20)?;
    match first_page(alloc, &mut sink) {
        Ok(count) => Ok(count == 20 && sink.bytes() == TEXT),
        Err(e) => Err(e),
    }
}

pub fn callers_do_what_they_say(alloc: Global, verdict: &mut Verdict) {
    verdict.expect(is_done(alloc, &Does::Seal, 56), Ok(true), "a seal");
    verdict.expect(is_done(alloc, &Does::Move, 41), Ok(true), "a move");
    verdict.expect(is_line(alloc), Ok(true), "the line of a new keyset");
    verdict.expect(
        succeeds(no_payload(alloc)),
        Err(Kind::BadKeyset),
        "no payload",
    );
    verdict.expect(is_page(alloc), Ok(true), "a page of a sealed file");
}
