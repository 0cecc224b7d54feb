//! The caller under a master that the README of `tink_cli_files` shows.

ghost use Rattle.tink_io.specs.Answering.{Answers};
ghost use Rattle.tink_keyset_io.specs.declared.key_files.formats.Format.TheVariants.{Json};
ghost use Rattle.tink_cli_files.specs.Masters.{IsMaster, MasterKeys};
ghost use Rattle.tink_cli_files.specs.Wrapping.{wrapped_file};

use crate::saving_tests::{KEYS, MASTER, master_of};
use std::alloc::Global;
use test_util::{Ask, Verdict, ask_made, draws_of};
use tink_cli_files::under_master::{Master, unwrap_file, wrap_file};
use tink_io::{Draws, TinkError};
use tink_keyset_io::key_files::Format;
use tink_proto::Bytes;

// A file of keys, encrypted under those of another file, as JSON.
fn wrapped_as_json(
    alloc: Global,
    master: &Master,
    keys: Vec<u8>,
    aad: &[u8],
    draws: &mut Draws,
) -> Result<Bytes, TinkError>
    ensures { (m : MasterKeys) → IsMaster m master.now
        → Answers result (wrapped_file m keys.items aad.now Json draws.old) }
{
    wrap_file(alloc, master, keys, aad, Format::Json, draws)
}

// Whether a file is JSON and unwrapped to the keys.
fn is_unwrapped(alloc: Global, master: &Master, file: &[u8]) -> Result<bool, TinkError> {
    match unwrap_file(alloc, master, file, b"its name", Format::Binary) {
        Ok(keys) => Ok(keys.as_slice() == KEYS && Format::of_file(file) == Format::Json),
        Err(e) => Err(e),
    }
}

// Whether a master wraps a file of keys as JSON, and unwraps it to the same.
struct Wraps;

impl Ask<Master> for Wraps {
    fn answer(&self, alloc: Global, of: &mut Master) -> Result<bool, TinkError> {
        let mut draws = draws_of(alloc, b"twelve bytes")?;
        let keys = Vec::from_slice(alloc, KEYS)?;
        match wrapped_as_json(alloc, of, keys, b"its name", &mut draws) {
            Ok(file) => is_unwrapped(alloc, of, file.as_slice()),
            Err(e) => Err(e),
        }
    }
}

pub fn the_caller_does_what_it_says(alloc: Global, verdict: &mut Verdict) {
    let is_wrapped = ask_made(alloc, master_of(alloc, MASTER), &Wraps);
    verdict.expect(is_wrapped, Ok(true), "a file of keys is wrapped");
}
