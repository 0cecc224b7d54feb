//! The callers of the READMEs of the commands and of what they need of a system.

ghost use Rattle.std.specs.Prelude.{◌≡◌, true, OnErr};
ghost use Rattle.tink_cli_jobs.specs.Outputs.{KeepsFiles};

use crate::known::TEXT;
use crate::steps::words_of;
use std::alloc::Global;
use test_util::{CTR_35, Verdict, sink_of};
use tink_cli::run;
use tink_cli_streams::streams;
use tink_cli_words::{Action, Line, parse};
use tink_io::{Sink, SureSink, TinkError};
use tink_system::trouble::trouble_status;
use tink_system::{MemSystem, System, Trouble};

/// The first byte of a file, if it has one.
pub fn first_byte<'w, Y: System>(
    alloc: Global,
    system: &mut Y,
    name: &'w [u8],
) -> Result<Option<u8>, Trouble<'w>>
    ensures { Y.state system.new ≡ Y.state system.old }
{
    match system.read_whole(alloc, Some(name), 4096) {
        Ok(bytes) => Ok(bytes.first().copied()),
        Err(trouble) => Err(trouble),
    }
}

/// Encrypts what the words name. After an error every file is as it was.
pub fn encrypted<'w, Y: System, K: Sink>(
    alloc: Global,
    system: &mut Y,
    line: &Line<'w>,
    sink: &mut K,
) -> Result<(), Trouble<'w>>
    ensures { OnErr result ((Y.state system.old).is_known ≡ true → KeepsFiles (Y.state system.old) (Y.state system.new)) }
{
    streams::make(alloc, system, Action::Encrypt, line, sink)
}

/// Does what the words say, and drops what would be shown. By another status than 0 every file is as it was.
pub fn done<Y: System>(alloc: Global, system: &mut Y, words: &[Vec<u8>]) -> u8
    ensures { (result ≡ 0 → ⊥) → (Y.state system.old).is_known ≡ true → KeepsFiles (Y.state system.old) (Y.state system.new) }
{
    let mut output = SureSink::new(alloc);
    let mut errors = SureSink::new(alloc);
    run(alloc, system, words, &mut output, &mut errors)
}

/// What the callers do.
pub fn callers_do_what_they_say(alloc: Global, verdict: &mut Verdict) {
    verdict.expect(has_first_byte(alloc), Ok(true), "the first byte of a file");
    verdict.expect(is_done(alloc), Ok(true), "a version without room for it");
    verdict.expect(
        is_refused(alloc),
        Ok(true),
        "encrypted without random bytes",
    );
}

// A system with a text and keys, and without random bytes.
fn system_of(alloc: Global) -> Result<MemSystem, TinkError> {
    let mut system = MemSystem::new(alloc, Vec::new(alloc), Vec::new(alloc), 0);
    system.put_file(b"text", TEXT)?;
    system.put_file(b"ctr", CTR_35)?;
    Ok(system)
}

fn has_first_byte(alloc: Global) -> Result<bool, TinkError> {
    let mut system = system_of(alloc)?;
    match first_byte(alloc, &mut system, b"text") {
        Ok(byte) => Ok(byte == Some(b'a')),
        Err(_) => Ok(false),
    }
}

fn is_done(alloc: Global) -> Result<bool, TinkError> {
    let mut system = system_of(alloc)?;
    let words = words_of(alloc, "version")?;
    Ok(done(alloc, &mut system, &words) == 12)
}

fn is_refused(alloc: Global) -> Result<bool, TinkError> {
    let mut system = system_of(alloc)?;
    let words = words_of(alloc, "encrypt -k ctr text")?;
    let mut sink = sink_of(alloc, 100)?;
    match parse(&words) {
        Ok(given) => Ok(
            match encrypted(alloc, &mut system, &given.line, &mut sink) {
                Ok(()) => false,
                Err(trouble) => trouble_status(trouble) == 35,
            },
        ),
        Err(_) => Ok(false),
    }
}
