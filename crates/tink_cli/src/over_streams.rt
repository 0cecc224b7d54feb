//! The program over the standard streams.

ghost use Rattle.std.specs.Prelude.{◌≡◌, ◌≤◌, IfSome};
ghost use Rattle.tink_cli.specs.Claims.{EndedOverStreams};
ghost use Rattle.tink_program.specs.Program.{status_of};
ghost use Rattle.tink_program.specs.Words.{SpellNothing};
ghost use Rattle.tink_cli_words.specs.Forms.{words_of};
ghost use Rattle.tink_cli_words.specs.Words.{byte_words};

use crate::claims::has_no_keyset;
use crate::telling::tell_wrong;
use crate::texts::texts_of;
use std::alloc::Global;
use tink_cli_words::{Wrong, parse};
use tink_io::Sink;
use tink_program::program::{Outcome, program, status, tell as tell_outcome};
use tink_system::trouble::tell;
use tink_system::{End, System};

/// Does what the words of the program over the standard streams say, and answers the status. If a file has the name that the words
/// have in the place of a keyset, they are taken for a command over files: how that is used is written. On a terminal they are
/// taken for one even if no file has the name, and why it cannot be read is written before.
pub fn run_claimed<Y: System, K: Sink, E: Sink>(
    alloc: Global,
    system: &mut Y,
    words: &[Vec<u8>],
    sink: &mut K,
    faults: &mut E,
) -> u8
    ensures ended { EndedOverStreams (byte_words words.now) (Y.state system.old) (Y.faults system.old) (Y.faults system.new)
        (K.got sink.old) (K.got sink.new) result }
    ensures quiet { result ≡ 0 → faults.new ≡ faults.old }
    ensures state { Y.state system.new ≡ Y.state system.old }
    ensures sink { K.same sink.old sink.new }
    ensures faults { E.same faults.old faults.new }
{
    match why_misplaced(system, words) {
        Some(wrong) => tell_misplaced(system, words, faults, wrong),
        None => run_on_streams(alloc, system, words, sink, faults),
    }
}

// Why words that name a file in the place of a keyset spell no command over files.
fn why_misplaced<'w, Y: System>(system: &mut Y, words: &'w [Vec<u8>]) -> Option<Wrong<'w>>
    ensures nothing { IfSome result (λ _. SpellNothing (byte_words words.now)) }
    ensures state { Y.state system.new ≡ Y.state system.old }
    ensures later { Y.faults system.old ≤ Y.faults system.new }
{
    let [_, word, ..] = words else {
        return None;
    };
    if !has_no_keyset(words) || !means_file(system, word.as_slice()) {
        return None;
    }
    match parse(words) {
        Ok(_) => None,
        Err(wrong) => Some(wrong),
    }
}

// Whether a word means a file: a file has the name, or a user at a terminal wrote it. Pipes and devices are not opened.
fn means_file<Y: System>(system: &mut Y, name: &[u8]) -> bool
    ensures state { Y.state system.new ≡ Y.state system.old }
    ensures later { Y.faults system.old ≤ Y.faults system.new }
{
    if system.is_terminal(End::Error) {
        return true;
    }
    if system.is_stream(name) {
        return false;
    }
    system.open(Some(name), true).is_ok()
}

// Writes how the command over files is used whose words name a file in the place of a keyset. It answers 2.
fn tell_misplaced<Y: System, E: Sink>(
    system: &mut Y,
    words: &[Vec<u8>],
    faults: &mut E,
    wrong: Wrong<'_>,
) -> u8
    ensures status { result ≡ 2 }
    ensures state { Y.state system.new ≡ Y.state system.old }
    ensures faults { E.same faults.old faults.new }
{
    if let [_, word, ..] = words {
        tell_unread(system, word.as_slice(), faults);
    }
    tell_wrong(system, faults, wrong)
}

// Writes why a file cannot be read, if that is so.
fn tell_unread<Y: System, E: Sink>(system: &mut Y, name: &[u8], faults: &mut E)
    ensures state { Y.state system.new ≡ Y.state system.old }
    ensures faults { E.same faults.old faults.new }
{
    if system.is_stream(name) {
        return;
    }
    if let Err(trouble) = system.open(Some(name), true) {
        tell(faults, trouble);
    }
}

// Does what the words of the program over the standard streams say. If a word is no UTF-8, no command is spelled.
fn run_on_streams<Y: System, K: Sink, E: Sink>(
    alloc: Global,
    system: &mut Y,
    words: &[Vec<u8>],
    sink: &mut K,
    faults: &mut E,
) -> u8
    ensures ended { EndedOverStreams (byte_words words.now) (Y.state system.old) (Y.faults system.old) (Y.faults system.new)
        (K.got sink.old) (K.got sink.new) result }
    ensures quiet { result ≡ 0 → faults.new ≡ faults.old }
    ensures state { Y.state system.new ≡ Y.state system.old }
    ensures sink { K.same sink.old sink.new }
    ensures faults { E.same faults.old faults.new }
{
    match texts_of(alloc, words) {
        Ok(Some(texts)) => run_texts(alloc, system, &texts, sink, faults),
        Ok(None) => end(faults, Outcome::Usage),
        Err(e) => end(faults, Outcome::Refused(e.kind)),
    }
}

// The same of words that are UTF-8.
fn run_texts<Y: System, K: Sink, E: Sink>(
    alloc: Global,
    system: &mut Y,
    texts: &Vec<String>,
    sink: &mut K,
    faults: &mut E,
) -> u8
    ensures ended { EndedOverStreams (words_of texts.now) (Y.state system.old) (Y.faults system.old) (Y.faults system.new)
        (K.got sink.old) (K.got sink.new) result }
    ensures quiet { result ≡ 0 → faults.new ≡ faults.old }
    ensures state { Y.state system.new ≡ Y.state system.old }
    ensures sink { K.same sink.old sink.new }
    ensures faults { E.same faults.old faults.new }
{
    match system.open(None, true) {
        Ok(mut source) => program(alloc, texts, &mut source, sink, faults),
        Err(trouble) => tell(faults, trouble),
    }
}

// Ends with a line.
fn end<E: Sink>(faults: &mut E, outcome: Outcome) -> u8
    ensures status { result ≡ status_of outcome }
    ensures faults { E.same faults.old faults.new }
{
    tell_outcome(faults, outcome);
    status(outcome)
}
