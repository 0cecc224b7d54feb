//! The calls that rows make: of the program, and by their settings of the calls below it.

use crate::callers::in_memory;
use crate::tables::tables_of;
use std::alloc::Global;
use test_rows::{
    Calls, Ends, Side, bytes_of, draws_of, first_of, number, number_of, setting, side_of,
    status_and_line,
};
use test_util::registry_of;
use tink_daead::subtle::AesSiv;
use tink_daead::{AesSivKeyManager, WrappedDeterministicAead};
use tink_io::{Draws, Kind, TinkError, write_all};
use tink_keygen::keygen;
use tink_keyset_io::read_whole;
use tink_keysets::keyset::insecure;
use tink_primitives::DeterministicAead;
use tink_proto::Bytes;
use tink_rewrap::rewrap::rewrap;
use tink_run::load::load;
use tink_run::report::{Command, Report};
use tink_run::run::run;
use tink_sets::TypedPrimitiveSet;
use tink_streaming_aead::{DerivesStreams, StreamKind};

/// The program, and the calls below it.
pub struct Program;

impl Calls for Program {
    fn tables(&self, number: usize) -> Option<&'static str> {
        tables_of(number)
    }

    // Of one below the program where the settings or the first word ask for it, else of the program.
    fn call(
        &self,
        alloc: Global,
        words: &Vec<String>,
        settings: &str,
        ends: &mut Ends,
    ) -> Result<u8, TinkError> {
        if let Some(draws) = setting(settings, "draws") {
            return by_run(alloc, words, settings, number(draws), ends);
        }
        if let Some(count) = setting(settings, "zeros") {
            return by_keygen(alloc, words, number(count), ends);
        }
        if setting(settings, "load").is_some() {
            return by_load(alloc, words, ends);
        }
        match first_of(words) {
            "bytes" | "encrypt" | "decrypt" => by_input(alloc, words, ends),
            _ => Ok(in_memory(
                alloc,
                words,
                &mut ends.source,
                &mut ends.sink,
                &mut ends.line,
            )),
        }
    }
}

fn command_of(word: &str) -> Command {
    match word {
        "seal" => Command::Seal,
        _ => Command::Open,
    }
}

// What `rewrap` or `run` answers, as the first word says.
fn report_of(
    alloc: Global,
    command: &str,
    (from, to): (&Side, &Side),
    draws: &mut Draws,
    ends: &mut Ends,
) -> Result<Report, TinkError> {
    let (keyset, aad) = (&from.keyset, &from.aad);
    match command {
        "rewrap" => rewrap(
            alloc,
            keyset,
            aad,
            &to.keyset,
            &to.aad,
            draws,
            &mut ends.source,
            &mut ends.sink,
        ),
        _ => run(
            alloc,
            command_of(command),
            keyset,
            aad,
            draws,
            &mut ends.source,
            &mut ends.sink,
        ),
    }
}

// The status of that answer, from so many draws; 1 where the segments and bytes that it reports, or the draws that it
// leaves, are not those of the settings.
fn by_run(
    alloc: Global,
    words: &[String],
    settings: &str,
    draws: usize,
    ends: &mut Ends,
) -> Result<u8, TinkError> {
    let (from, to) = (side_of(alloc, words, 1)?, side_of(alloc, words, 3)?);
    let mut draws = draws_of(alloc, draws)?;
    let answer = report_of(alloc, first_of(words), (&from, &to), &mut draws, ends);
    if is_reported(&answer, settings) && draws.left() == number_of(settings, "left", 0) {
        Ok(status_and_line(answer, ends))
    } else {
        Ok(1)
    }
}

// Whether the segments and bytes are those of the settings.
fn is_reported(answer: &Result<Report, TinkError>, settings: &str) -> bool {
    match answer {
        Ok(report) => {
            report.segments == number_of(settings, "segments", 0) as u64
                && report.bytes == number_of(settings, "bytes", 0) as u64
        }
        Err(_) => true,
    }
}

// The status of what `load` answers; what it loads is written.
fn by_load(alloc: Global, words: &[String], ends: &mut Ends) -> Result<u8, TinkError> {
    let keyset = bytes_of(alloc, words, 1)?;
    match load(alloc, &keyset) {
        Ok(keys) => put_keys(alloc, &keys, ends),
        Err(e) => Ok(status_and_line::<u8>(Err(e), ends)),
    }
}

// Writes of the only raw key the id, the number of its prefix type and the bytes of a header and of a segment; then of
// the primary key the bytes of a header and those that a segment has beside its text.
fn put_keys(
    alloc: Global,
    keys: &TypedPrimitiveSet<StreamKind>,
    ends: &mut Ends,
) -> Result<u8, TinkError> {
    match (keys.raw_entries(), keys.primary.as_ref()) {
        (Some([it]), Some(primary)) => {
            let (id, prefix) = (it.key_id, it.prefix_type as i32);
            let (header, segment) = (it.primitive.header_length(), it.primitive.segment_size());
            let key = &primary.primitive;
            let (whole, beside) = (key.header_length(), key.overhead());
            let text = format!(in alloc;
                "{id} {prefix} {header} {segment} primary {whole} {beside}"
            )?;
            Ok(status_and_line(write_all(&mut ends.sink, text.as_bytes()), ends))
        }
        _ => Ok(1),
    }
}

// The status of what `keygen` answers, by so many draws of zeros.
fn by_keygen(
    alloc: Global,
    words: &[String],
    count: usize,
    ends: &mut Ends,
) -> Result<u8, TinkError> {
    let template = words.get(1).map(|it| it.as_str()).unwrap_or("");
    let mut draws = Draws::new(vec![in alloc; 0u8; count]?);
    match keygen(alloc, template, &mut draws) {
        Ok(_) => Ok(0),
        Err(e) => Ok(status_and_line::<u8>(Err(e), ends)),
    }
}

// Writes the input as it is, or what the deterministic AEAD of a keyset makes of it, by the first word.
fn by_input(alloc: Global, words: &[String], ends: &mut Ends) -> Result<u8, TinkError> {
    let input = read_whole(alloc, &mut ends.source, 100_000, Kind::InputTooLong)?;
    match first_of(words) {
        "bytes" => Ok(status_and_line(write_all(&mut ends.sink, &input), ends)),
        way => match siv_makes(alloc, words, &input, way == "encrypt") {
            Ok(bytes) => Ok(status_and_line(write_all(&mut ends.sink, bytes.as_slice()), ends)),
            Err(e) => Ok(status_and_line::<u8>(Err(e), ends)),
        },
    }
}

// What the deterministic AEAD of a keyset of AES-SIV makes of an input.
fn siv_makes(
    alloc: Global,
    words: &[String],
    input: &[u8],
    seals: bool,
) -> Result<Bytes, TinkError> {
    match siv_of(alloc, words) {
        Ok(aead) if seals => aead.encrypt_deterministically(alloc, input, &[]),
        Ok(aead) => aead.decrypt_deterministically(alloc, input, &[]),
        Err(e) => Err(e),
    }
}

fn siv_of(alloc: Global, words: &[String]) -> Result<WrappedDeterministicAead<AesSiv>, TinkError> {
    let handle = insecure::valid_handle(alloc, &bytes_of(alloc, words, 1)?)?;
    let registry = registry_of(alloc, AesSivKeyManager::new())?;
    tink_daead::new(alloc, &handle, &registry)
}
