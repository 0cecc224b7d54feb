//! A backup is made, and restored whole or in part. Another date and a cut backup give an error.

ghost use Rattle.std.specs.Prelude.{◌≡◌, ◌<◌};

use example_backup::{back_up, restore, restore_part};
use std::alloc::Global;
use std::marker::Brand;
use std::sync::ledger::{Blank, Ledger};
use test_util::{CTR_35, Verdict, draws_of, sink_of};
use tink_io::{Kind, SureSink, SureSource, TinkError};
use tink_range::{MemAt, Steps};

const TEXT: &[u8] = b"a text of two chunks";

// The salt and the nonce prefix.
const RANDOM: &[u8] = b"\
    \x00\x01\x02\x03\x04\x05\x06\x07\x08\x09\x0a\x0b\x0c\x0d\x0e\x0f\x10\x11\x12\x13\x14\x15\x16";

// The stream of the text with these random bytes and the date May, by an independent model.
const SEALED: &[u8] = b"\
    \x18\x00\x01\x02\x03\x04\x05\x06\x07\x08\x09\n\x0b\x0c\x0d\x0e\x0f\x10\x11\x12\x13\x14\x15\x16\x09\xe12\x9e\
    \xa6\x90\x9f\xed)\xb3\xec\x903\xbf\x03\x9e\xf1\xe9G\xc6\xd8\xf8\xf7E\xf4\xaa\xa1/k2F\x13\xe6'\x1b\x84\x1c\x02\
    \x89/";

/// What becomes of a backup.
pub fn backups_are_restored(alloc: Global, verdict: &mut Verdict) {
    verdict.expect(is_backed_up(alloc), Ok(true), "a backup");
    verdict.expect(is_restored(alloc, SEALED, b"May"), Ok(true), "its text");
    let other = is_restored(alloc, SEALED, b"June");
    verdict.expect(other, Err(Kind::NoMatchingKey), "another date");
    let cut = is_restored(alloc, &SEALED[..44], b"May");
    verdict.expect(cut, Err(Kind::Truncated(1)), "a cut backup");
    verdict.expect(is_part_restored(alloc), Ok(true), "a part of the text");
}

fn is_backed_up(alloc: Global) -> Result<bool, TinkError> {
    let mut draws = draws_of(alloc, RANDOM)?;
    let mut text = SureSource::new(Vec::from_slice(alloc, TEXT)?);
    let mut backup = sink_of(alloc, 100)?;
    match back_up(alloc, CTR_35, b"May", &mut draws, &mut text, &mut backup) {
        Ok(_) => Ok(backup.bytes() == SEALED),
        Err(e) => Err(e),
    }
}

fn is_restored(alloc: Global, stream: &[u8], date: &[u8]) -> Result<bool, TinkError> {
    let mut backup = SureSource::new(Vec::from_slice(alloc, stream)?);
    let mut text = sink_of(alloc, 100)?;
    match restore(alloc, CTR_35, date, &mut backup, &mut text) {
        Ok(_) => Ok(text.bytes() == TEXT),
        Err(e) => Err(e),
    }
}

fn is_part_restored(alloc: Global) -> Result<bool, TinkError> {
    let mut backup = MemAt::new(Vec::from_slice(alloc, SEALED)?, 0, Vec::new(alloc));
    let mut text = sink_of(alloc, 100)?;
    match part_of::<Brand>(alloc, &mut backup, &mut text, Blank::new(1)) {
        Ok(n) => Ok(n == 4 && text.bytes() == b"text".as_slice()),
        Err(e) => Err(e),
    }
}

// Four bytes of the text from place 2 on, by a ledger that counts the segments that are opened.
fn part_of<L: Ledger>(
    alloc: Global,
    backup: &mut MemAt,
    text: &mut SureSink,
    blank: Blank,
) -> Result<u64, TinkError>
    requires name { blank.name ≡ L.name }
    requires parts { blank.parts ≡ L.parts }
    requires some { 0 < blank.parts }
{
    let mut steps = Steps::<L>::new(blank);
    restore_part(alloc, CTR_35, b"May", backup, 2, 4, text, &mut steps)
}
