//! Streams that are held whole.

ghost use Rattle.std.specs.Prelude.{[]};
ghost use Rattle.tink_run.specs.declared.report.Command.TheVariants.{Seal, Open};
ghost use Rattle.tink_c_bytes.specs.Delivered.{Hands, handed};
ghost use Rattle.tink_c_streams.specs.Streams.{GivesRange, Moves, MovesNot, RefusesRange, Runs, RunsNot};

use std::alloc::Global;
use tink_c_bytes::deliver;
use tink_c_streams::{range, rewrap_file, run_whole};
use tink_run::report::Command;

/// The stream of a plaintext under the primary key of a keyset.
#[unsafe(no_mangle)]
pub extern "C" fn tink_seal_stream(
    alloc: Global,
    keyset: &[u8],
    plaintext: &[u8],
    associated_data: &[u8],
    random: &[u8],
    out: &mut [u8],
    written: &mut usize,
) -> u8
    ensures { Hands (Runs Seal keyset.now associated_data.now random.now plaintext.now)
        (RunsNot Seal keyset.now associated_data.now random.now plaintext.now)
        (handed out.old out.new written.new result) }
{
    deliver(
        run_whole(
            alloc,
            Command::Seal,
            keyset,
            associated_data,
            random,
            plaintext,
        ),
        out,
        written,
    )
}

/// The plaintext of a stream under the chosen key of a keyset.
#[unsafe(no_mangle)]
pub extern "C" fn tink_open_stream(
    alloc: Global,
    keyset: &[u8],
    stream: &[u8],
    associated_data: &[u8],
    out: &mut [u8],
    written: &mut usize,
) -> u8
    ensures { Hands (Runs Open keyset.now associated_data.now [] stream.now)
        (RunsNot Open keyset.now associated_data.now [] stream.now)
        (handed out.old out.new written.new result) }
{
    deliver(
        run_whole(alloc, Command::Open, keyset, associated_data, b"", stream),
        out,
        written,
    )
}

/// A range of the plaintext of a stream under the chosen key of a keyset.
#[unsafe(no_mangle)]
pub extern "C" fn tink_read_range(
    alloc: Global,
    keyset: &[u8],
    stream: &[u8],
    associated_data: &[u8],
    start: u64,
    length: u64,
    out: &mut [u8],
    written: &mut usize,
) -> u8
    ensures { Hands (GivesRange keyset.now associated_data.now stream.now start length)
        (RefusesRange keyset.now associated_data.now stream.now start length)
        (handed out.old out.new written.new result) }
{
    deliver(
        range(alloc, keyset, associated_data, stream, start, length),
        out,
        written,
    )
}

/// The stream that the plaintext of a stream has under the primary key of another keyset.
#[unsafe(no_mangle)]
pub extern "C" fn tink_rewrap_stream(
    alloc: Global,
    keyset: &[u8],
    associated_data: &[u8],
    to_keyset: &[u8],
    to_associated_data: &[u8],
    stream: &[u8],
    random: &[u8],
    out: &mut [u8],
    written: &mut usize,
) -> u8
    ensures { Hands (Moves keyset.now associated_data.now to_keyset.now to_associated_data.now random.now stream.now)
        (MovesNot keyset.now associated_data.now to_keyset.now to_associated_data.now random.now stream.now)
        (handed out.old out.new written.new result) }
{
    deliver(
        rewrap_file(
            alloc,
            keyset,
            associated_data,
            to_keyset,
            to_associated_data,
            random,
            stream,
        ),
        out,
        written,
    )
}
