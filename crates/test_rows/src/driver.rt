//! The driver of the rows.
//!
//! A row is `PHRASE | WORDS | INPUT | STATUS | OUTPUT | SETTINGS`: what a call is to do with words and an input, and
//! which status it is to answer and what to write. It is run for each number of a range `a..b` in its phrase, which
//! replaces `%` in the row, and for each of a second range, which replaces `~`. A setting `keep=NAME` gives what was
//! written a name, and `line=NAME` the bytes whose digits were written as a line; the words `bytes` write their input.

use crate::bytes::{Named, number, of_digits, put_bytes, put_words};
use crate::ends::{Ends, ends_of, make_room, number_of, setting};
use crate::wanted::{is_told, is_written};
use std::alloc::{AllocError, Global};
use tink_io::{Kind, TinkError};

// The URL of the keys of streams in counter mode, as a keyset has it; `*` stands for it.
const URL: &str =
    "747970652e676f6f676c65617069732e636f6d2f676f6f676c652e63727970746f2e74696e6b2e416573437472486d616353747265616d696e674b6579";

/// Tables of rows, and the calls that they make.
pub trait Calls {
    /// The tables of that number, of a row a line. The line `ways:` before a table has the ways in which it is run:
    /// settings that follow each row, with semicolons between the ways. Behind the last tables there are none.
    fn tables(&self, number: usize) -> Option<&'static str>;

    /// The status of a call by these words and settings, over these ends.
    fn call(
        &self,
        alloc: Global,
        words: &Vec<String>,
        settings: &str,
        ends: &mut Ends,
    ) -> Result<u8, TinkError>;
}

// The part of a row of that number.
fn part(row: &str, place: usize) -> &str {
    row.split('|').nth(place).unwrap_or("").trim_matches(' ')
}

// The first or the second range of a phrase; 0 alone where it has none.
fn range(phrase: &str, place: usize) -> (usize, usize) {
    let mut passed = 0usize;
    for word in phrase.split(' ') {
        if let Some((from, to)) = word.split_once("..") {
            if passed == place {
                return (number(from), number(to));
            }
            passed = passed.saturating_add(1);
        }
    }
    (0, 0)
}

// The ends of a row, which has this input.
fn ends_of_row(alloc: Global, kept: &[Named], row: &str) -> Result<Ends, TinkError> {
    let mut input = Vec::new(alloc);
    put_bytes(alloc, kept, part(row, 2), &mut input)?;
    ends_of(alloc, input, row)
}

// The status of the row's call.
fn status_of<C: Calls>(
    alloc: Global,
    calls: &C,
    kept: &[Named],
    row: &str,
    ends: &mut Ends,
) -> Result<u8, TinkError> {
    let mut words = Vec::new(alloc);
    put_words(alloc, kept, part(row, 1), &mut words)?;
    make_room(alloc, ends, row)?;
    calls.call(alloc, &words, row, ends)
}

// Whether a status, and what was told and written, are what the row wants; what was written is kept.
fn is_wanted(
    alloc: Global,
    kept: &mut Vec<Named>,
    row: &str,
    status: u8,
    ends: &Ends,
) -> Result<bool, TinkError> {
    let told = (status, ends.line.bytes());
    let is_told = is_told(alloc, told, part(row, 3), number_of(row, "lines", 300))?;
    let is_written = is_written(alloc, kept, ends.sink.bytes(), part(row, 4))?;
    keep(alloc, kept, row, ends.sink.bytes())?;
    Ok(is_told && is_written)
}

// Whether all is as the row wants.
fn holds<C: Calls>(
    alloc: Global,
    calls: &C,
    kept: &mut Vec<Named>,
    row: &str,
) -> Result<bool, TinkError> {
    match ends_of_row(alloc, kept, row) {
        Ok(mut ends) => holds_over(alloc, calls, kept, row, &mut ends),
        Err(e) => Err(e),
    }
}

// The same over these ends.
fn holds_over<C: Calls>(
    alloc: Global,
    calls: &C,
    kept: &mut Vec<Named>,
    row: &str,
    ends: &mut Ends,
) -> Result<bool, TinkError> {
    let status = status_of(alloc, calls, kept, row, ends)?;
    is_wanted(alloc, kept, row, status, ends)
}

// Gives what was written, or the bytes of the line of digits that was written, the name that a setting says.
fn keep(alloc: Global, kept: &mut Vec<Named>, row: &str, written: &[u8]) -> Result<(), TinkError> {
    if let Some(name) = setting(row, "keep") {
        return put_named(alloc, kept, name, written.to_vec(alloc)?);
    }
    match (setting(row, "line"), written.split_last()) {
        (Some(name), Some((_, digits))) => {
            put_named(alloc, kept, name, of_digits(alloc, digits)?)
        }
        _ => Ok(()),
    }
}

fn put_named(
    alloc: Global,
    kept: &mut Vec<Named>,
    name: &str,
    bytes: Vec<u8>,
) -> Result<(), TinkError> {
    let name = String::from_str(alloc, name)?;
    Ok(kept.push(Named { name, bytes })?)
}

// Puts a letter of a row, with numbers, the URL and newlines in the place of their marks.
fn put_letter(
    letter: char,
    first: &str,
    second: &str,
    text: &mut String,
) -> Result<(), AllocError> {
    match letter {
        '%' => text.push_str(first),
        '~' => text.push_str(second),
        '*' => text.push_str(URL),
        '¶' => text.push('\n'),
        _ => text.push(letter),
    }
}

// Puts a row in a way.
fn put_filled(
    way: &str,
    row: &str,
    (first, second): (&str, &str),
    text: &mut String,
) -> Result<(), AllocError> {
    for letter in row.chars() {
        put_letter(letter, first, second, text)?;
    }
    text.push_str(way)
}

// Puts a row in a way, at two numbers.
fn put_row(
    alloc: Global,
    way: &str,
    row: &str,
    (n, m): (usize, usize),
    text: &mut String,
) -> Result<(), AllocError> {
    let (first, second) = (n.to_string(alloc)?, m.to_string(alloc)?);
    put_filled(way, row, (first.as_str(), second.as_str()), text)
}

// Whether a row holds in a way, at two numbers, or the kind of the refusal.
fn holds_at<C: Calls>(
    alloc: Global,
    calls: &C,
    kept: &mut Vec<Named>,
    (way, row): (&str, &str),
    numbers: (usize, usize),
) -> Result<bool, Kind> {
    let mut text = String::new(alloc);
    let held = match put_row(alloc, way, row, numbers, &mut text) {
        Ok(()) => holds(alloc, calls, kept, text.as_str()),
        Err(e) => Err(e.into()),
    };
    match held {
        Ok(holds) => Ok(holds),
        Err(e) => Err(e.kind),
    }
}

/// A row that does not hold in a way at two numbers, and what it answers.
#[derive(Clone, Copy, Debug, PartialEq)]
pub struct WrongRow {
    pub way: &'static str,
    pub row: &'static str,
    pub numbers: (usize, usize),
    pub got: Result<bool, Kind>,
}

// What rows gave a name so far, and the first that does not hold.
#[derive(Drop)]
struct Tried {
    kept: Vec<Named>,
    wrong: Option<WrongRow>,
}

// Tries a row in a way at each number of its ranges, while none failed.
fn try_row<C: Calls>(
    alloc: Global,
    calls: &C,
    tried: &mut Tried,
    way: &'static str,
    row: &'static str,
) {
    let (from, to) = range(part(row, 0), 0);
    let (low, high) = range(part(row, 0), 1);
    for n in from..=to {
        for m in low..=high {
            if tried.wrong.is_none() {
                let got = holds_at(alloc, calls, &mut tried.kept, (way, row), (n, m));
                if got != Ok(true) {
                    let numbers = (n, m);
                    tried.wrong = Some(WrongRow {
                        way,
                        row,
                        numbers,
                        got,
                    });
                }
            }
        }
    }
}

fn try_rows<C: Calls>(
    alloc: Global,
    calls: &C,
    tried: &mut Tried,
    way: &'static str,
    rows: &'static str,
) {
    for row in rows.split('\n') {
        if !row.is_empty() {
            try_row(alloc, calls, tried, way, row);
        }
    }
}

// Tries a table in each of its ways, which stand in its first line.
fn try_table<C: Calls>(alloc: Global, calls: &C, tried: &mut Tried, table: &'static str) {
    let (ways, rows) = table.split_once('\n').unwrap_or(("", ""));
    for way in ways.split(';') {
        try_rows(alloc, calls, tried, way, rows);
    }
}

// Tries tables, one after another.
fn try_tables<C: Calls>(alloc: Global, calls: &C, tried: &mut Tried, tables: &'static str) {
    for table in tables.split("ways:") {
        try_table(alloc, calls, tried, table);
    }
}

/// The first row that does not hold.
pub fn rows<C: Calls>(alloc: Global, calls: &C) -> Option<WrongRow> {
    let mut tried = Tried {
        kept: Vec::new(alloc),
        wrong: None,
    };
    for number in 0..100usize {
        if let Some(tables) = calls.tables(number) {
            try_tables(alloc, calls, &mut tried, tables);
        }
    }
    tried.wrong
}
