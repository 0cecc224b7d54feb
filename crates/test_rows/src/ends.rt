//! The ends of a call, its settings and its words.

use crate::bytes::{number, of_digits, put_counted};
use std::alloc::Global;
use tink_io::{Draws, MemSink, MemSource, SureSink, TinkError, refusals, write_line};

/// The ends of a call, in memory.
#[derive(Drop)]
pub struct Ends {
    pub source: MemSource,
    pub sink: MemSink,
    pub line: SureSink,
}

/// The text of a setting, behind its name and `=`.
pub fn setting<'a>(settings: &'a str, name: &str) -> Option<&'a str> {
    for word in settings.split(' ') {
        if let Some((key, value)) = word.split_once('=') {
            if key == name {
                return Some(value);
            }
        }
    }
    None
}

/// The number of a setting, or this one.
pub fn number_of(settings: &str, name: &str, otherwise: usize) -> usize {
    match setting(settings, name) {
        Some(value) => number(value),
        None => otherwise,
    }
}

// The call that fails by a setting, or none.
fn failing(alloc: Global, settings: &str, name: &str) -> Result<Vec<u32>, TinkError> {
    let call = setting(settings, name).unwrap_or("").parse::<u32>();
    Ok(vec![in alloc; call.unwrap_or(0)]?)
}

/// Ends by their settings: how many bytes move in a call (`piece`), and which call fails (`read`, `write`).
pub fn ends_of(alloc: Global, input: Vec<u8>, settings: &str) -> Result<Ends, TinkError> {
    let piece = number_of(settings, "piece", 0);
    let (reads, writes) = (
        failing(alloc, settings, "read")?,
        failing(alloc, settings, "write")?,
    );
    Ok(Ends {
        source: MemSource::new(input, piece, reads),
        sink: MemSink::new(alloc, piece, writes),
        line: SureSink::new(alloc),
    })
}

/// Makes the room of the settings for bytes and for the line (`room`, `lines`).
pub fn make_room(alloc: Global, ends: &mut Ends, settings: &str) -> Result<(), TinkError> {
    ends.line.reserve(alloc, number_of(settings, "lines", 300))?;
    ends.sink.reserve(alloc, number_of(settings, "room", 40000))
}

/// The first word, or no text.
pub fn first_of(words: &[String]) -> &str {
    match words.first() {
        Some(word) => word.as_str(),
        None => "",
    }
}

/// The bytes of the word at a place; of a dash, or where there is none, no bytes.
pub fn bytes_of(alloc: Global, words: &[String], place: usize) -> Result<Vec<u8>, TinkError> {
    match words.get(place) {
        Some(word) if word.as_str() != "-" => of_digits(alloc, word.as_bytes()),
        _ => Ok(Vec::new(alloc)),
    }
}

/// A keyset and its associated data.
#[derive(Drop)]
pub struct Side {
    pub keyset: Vec<u8>,
    pub aad: Vec<u8>,
}

/// What the words from a place on spell.
pub fn side_of(alloc: Global, words: &[String], place: usize) -> Result<Side, TinkError> {
    let keyset = bytes_of(alloc, words, place)?;
    let aad = bytes_of(alloc, words, place.saturating_add(1))?;
    Ok(Side { keyset, aad })
}

/// The status of an answer, whose line is written.
pub fn status_and_line<T: Copy>(answer: Result<T, TinkError>, ends: &mut Ends) -> u8 {
    match answer {
        Ok(_) => 0,
        Err(e) => {
            write_line(&mut ends.line, e.kind);
            refusals::status(e.kind)
        }
    }
}

/// Draws that count up.
pub fn draws_of(alloc: Global, count: usize) -> Result<Draws, TinkError> {
    let mut bytes = Vec::new(alloc);
    put_counted(&mut bytes, count)?;
    Ok(Draws::new(bytes))
}
