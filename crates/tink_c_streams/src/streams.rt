//! Streams, their texts and ranges, of inputs that are held whole.

ghost use Rattle.std.specs.Prelude.{◌≡◌, ◌<◌};
ghost use Rattle.tink_io.specs.Answering.{Answers};
ghost use Rattle.tink_keyset_io.specs.Files.{wire_of};
ghost use Rattle.tink_c_bytes.specs.Delivered.{MadeBy};
ghost use Rattle.tink_c_streams.specs.Streams.{GivesRange, IsNoRange, IsRange, Moved, MovedNot, Moves, MovesNot, Ran, RanNot, RefusesRange, Runs, RunsNot, Writes, WritesNot};

use crate::lent_at::LentAt;
use std::alloc::Global;
use std::marker::Brand;
use std::sync::ledger::{Blank, Ledger};
use tink_c_bytes::{Growing, copy_of, draws_of, take_bytes};
use tink_io::{SureSource, TinkError};
use tink_keyset_io::key_files::wire_bytes;
use tink_proto::Bytes;
use tink_range::Steps;
use tink_rewrap::ranges::run_range;
use tink_rewrap::rewrap::rewrap;
use tink_run::report::Command;
use tink_run::run::run;

/// The stream of the input under the primary key of a file, or the text of the stream that the input is.
///
/// # Errors
/// `BadJson` if the file is JSON by its first byte and no keyset; then those of `run` of `tink_run`, without
/// `WriteFault`.
pub fn run_whole(
    alloc: Global,
    command: Command,
    file: &[u8],
    associated_data: &[u8],
    random: &[u8],
    input: &[u8],
) -> Result<Bytes, TinkError>
    ensures { MadeBy (Runs command file.now associated_data.now random.now input.now)
        (RunsNot command file.now associated_data.now random.now input.now) result }
{
    let wire = wire_in(alloc, file)?;
    run_in_wire(
        alloc,
        command,
        wire.as_slice(),
        associated_data,
        random,
        input,
    )
}

/// The stream that the text of the input has under the primary key of another file.
///
/// # Errors
/// `BadJson` if a file is JSON by its first byte and no keyset; then those of `rewrap` of `tink_rewrap`, without
/// `WriteFault`.
pub fn rewrap_file(
    alloc: Global,
    file: &[u8],
    associated_data: &[u8],
    to: &[u8],
    to_associated_data: &[u8],
    random: &[u8],
    input: &[u8],
) -> Result<Bytes, TinkError>
    ensures { MadeBy (Moves file.now associated_data.now to.now to_associated_data.now random.now input.now)
        (MovesNot file.now associated_data.now to.now to_associated_data.now random.now input.now) result }
{
    let wire = wire_in(alloc, file)?;
    let into = wire_in(alloc, to)?;
    rewrap_in_wire(
        alloc,
        wire.as_slice(),
        associated_data,
        into.as_slice(),
        to_associated_data,
        random,
        input,
    )
}

/// A range of the text of the stream that the input is.
///
/// # Errors
/// `BadJson` if the file is JSON by its first byte and no keyset; then those of `run_range` of `tink_rewrap`,
/// without `WriteFault`.
pub fn range(
    alloc: Global,
    file: &[u8],
    associated_data: &[u8],
    input: &[u8],
    start: u64,
    len: u64,
) -> Result<Bytes, TinkError>
    ensures { MadeBy (GivesRange file.now associated_data.now input.now start len)
        (RefusesRange file.now associated_data.now input.now start len) result }
{
    let wire = wire_in(alloc, file)?;
    range_made::<Brand>(
        alloc,
        wire.as_slice(),
        associated_data,
        input,
        start,
        len,
        Blank::new(1),
    )
}

// The keyset of a file in the wire format.
pub(crate) fn wire_in(alloc: Global, file: &[u8]) -> Result<Bytes, TinkError>
    ensures { Answers result (wire_of file.now) }
{
    let file = copy_of(alloc, file)?;
    wire_bytes(alloc, file)
}

// What is made under a keyset in the wire format.
fn run_in_wire(
    alloc: Global,
    command: Command,
    wire: &[u8],
    associated_data: &[u8],
    random: &[u8],
    input: &[u8],
) -> Result<Bytes, TinkError>
    ensures { MadeBy (Writes (Ran command wire.now associated_data.now random.now input.now))
        (WritesNot (RanNot command wire.now associated_data.now random.now input.now)) result }
{
    let mut draws = draws_of(alloc, random)?;
    let bytes = copy_of(alloc, input)?;
    let mut source = SureSource::new(bytes);
    let mut sink = Growing::new(alloc);
    let answer = run(
        alloc,
        command,
        wire,
        associated_data,
        &mut draws,
        &mut source,
        &mut sink,
    );
    take_bytes(answer, sink)
}

// What is made of a move between keysets in the wire format.
fn rewrap_in_wire(
    alloc: Global,
    wire: &[u8],
    associated_data: &[u8],
    into: &[u8],
    to_associated_data: &[u8],
    random: &[u8],
    input: &[u8],
) -> Result<Bytes, TinkError>
    ensures { MadeBy (Writes (Moved wire.now associated_data.now into.now to_associated_data.now random.now input.now))
        (WritesNot (MovedNot wire.now associated_data.now into.now to_associated_data.now random.now input.now)) result }
{
    let mut draws = draws_of(alloc, random)?;
    let bytes = copy_of(alloc, input)?;
    let mut source = SureSource::new(bytes);
    let mut sink = Growing::new(alloc);
    let answer = rewrap(
        alloc,
        wire,
        associated_data,
        into,
        to_associated_data,
        &mut draws,
        &mut source,
        &mut sink,
    );
    take_bytes(answer, sink)
}

// A range under a keyset in the wire format, by a ledger of steps.
fn range_made<L: Ledger>(
    alloc: Global,
    wire: &[u8],
    associated_data: &[u8],
    input: &[u8],
    start: u64,
    len: u64,
    blank: Blank,
) -> Result<Bytes, TinkError>
    requires name { blank.name ≡ L.name }
    requires parts { blank.parts ≡ L.parts }
    requires some { 0 < blank.parts }
    ensures { MadeBy (IsRange wire.now associated_data.now input.now start len)
        (IsNoRange wire.now associated_data.now input.now start len) result }
{
    let mut steps = Steps::<L>::new(blank);
    let mut object = LentAt::new(input);
    let mut sink = Growing::new(alloc);
    let answer = run_range(
        alloc,
        wire,
        associated_data,
        &mut object,
        start,
        len,
        &mut sink,
        &mut steps,
    );
    take_bytes(answer, sink)
}
