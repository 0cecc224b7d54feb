//! Backups: a text becomes a stream, and the whole or a part of it is restored.
#![tactic(auto)]

ghost use Rattle.std.specs.Prelude.{Some, IfOk};
ghost use Rattle.tink_io.specs.Outside.{Outside};
ghost use Rattle.tink_range.specs.ChunkReading.{ends_of};
ghost use Rattle.tink_rewrap.specs.KeysetRanges.{GivesSlice};
ghost use Rattle.tink_run.specs.Run.{IsWholeStream, IsWholeText};

use std::alloc::Global;
use std::sync::ledger::Ledger;
use tink_io::{Draws, Sink, SureSink, SureSource, TinkError};
use tink_range::{ReadAt, Steps};
use tink_rewrap::ranges::run_range;
use tink_run::report::{Command, Report};
use tink_run::run::run;

/// Encrypts a text under a keyset in the wire format. The date is the associated data. After `Ok` the backup is exactly
/// the stream of the text, under the primary key and the next random bytes.
///
/// # Errors
/// Those of loading the keyset; `RandomFault`; `OutOfMemory`; those of `run` of `tink_run`.
pub fn back_up(
    alloc: Global,
    keyset: &[u8],
    date: &[u8],
    draws: &mut Draws,
    text: &mut SureSource,
    backup: &mut SureSink,
) -> Result<Report, TinkError>
    ensures { IfOk result (λ report. IsWholeStream keyset.now date.now draws.old draws.new text.old backup.old.got
        (record { left = Some text.new; read_faults = 0; got = Some backup.new.got; write_faults = backup.new.faults })
        report) }
{
    run(alloc, Command::Seal, keyset, date, draws, text, backup)
}

/// Decrypts a backup. After `Ok` it was exactly a stream of a key of the keyset, with this date, and its text was
/// written.
///
/// # Errors
/// Those of loading the keyset; `NoMatchingKey`, `Truncated`, `BadSegment` if it is no such stream; `OutOfMemory`.
pub fn restore(
    alloc: Global,
    keyset: &[u8],
    date: &[u8],
    backup: &mut SureSource,
    text: &mut SureSink,
) -> Result<Report, TinkError>
    ensures { IfOk result (λ report. IsWholeText keyset.now date.now backup.old text.old.got
        (record { left = Some backup.new; read_faults = 0; got = Some text.new.got; write_faults = text.new.faults })
        report) }
{
    let mut none = Draws::new(Vec::new(alloc));
    run(alloc, Command::Open, keyset, date, &mut none, backup, text)
}

/// Decrypts the bytes from place `start` on, `len` at most. Of the backup it reads only the segments that they are in,
/// the first and the last one. After `Ok`, if the backup is a stream of the keyset with this date, exactly that part of
/// its text was written. Returns the number of bytes.
///
/// # Errors
/// As `restore`.
pub fn restore_part<A: ReadAt, K: Sink, L: Ledger>(
    alloc: Global,
    keyset: &[u8],
    date: &[u8],
    backup: &mut A,
    start: u64,
    len: u64,
    text: &mut K,
    steps: &mut Steps<L>,
) -> Result<u64, TinkError>
    ensures { IfOk result (λ n. GivesSlice K.got keyset.now date.now start len
        (ends_of A.bytes A.faults backup.old backup.new text.old text.new) n) }
{
    run_range(alloc, keyset, date, backup, start, len, text, steps)
}
