//! Readers of the text of a stream that comes in pieces.

ghost use Rattle.std.specs.Prelude.{◌≡◌, [], true, false, length, IfErr, MatchResult};
ghost use Rattle.tink_io.specs.declared.error.Kind.TheVariants.{FailedBefore};
ghost use Rattle.tink_streaming_io.specs.Openers.{pending_text};
ghost use Rattle.tink_io.specs.declared.error.Cause.TheVariants.{NoMatchingKey};
ghost use Rattle.tink_streaming_io.specs.declared.progress.Progress.TheVariants.{Running};
ghost use Rattle.tink_c_streams.specs.declared.readers.PieceReader.TheVariants.{Choosing, Going, Ending};
ghost use Rattle.tink_c_streams.specs.Readers.{EndMeans, EndRefused, FeedMeans, FeedRefused, IsEnded, IsFed, IsStopOf, ReadMeans, waiting_text};

use crate::choice::Choice;
use crate::choosing::choose_key;
use std::mem::replace;
use tink_c_bytes::{OK, status};
use tink_c_pieces::{feed, finish, give};
use tink_io::{Cause, Kind, TinkError};
use tink_streaming_aead::{Progress, StreamSegment, TextReader};

/// The status of a call on a reader whose text waits to be read. The call did all that it can do before that.
pub const UNREAD: u8 = 50;

/// A reader of the text of a stream that comes in pieces.
#[derive(Drop)]
pub enum PieceReader {
    /// No key was chosen yet.
    Choosing(Choice),
    /// A key was chosen, and more may come.
    Going(TextReader<StreamSegment>),
    /// A key was chosen, and nothing more comes.
    Ending(TextReader<StreamSegment>),
    /// A call was refused.
    Spent,
}

impl PieceReader {
    /// How many bytes of text wait to be read.
    pub fn waiting(&self) -> usize
        ensures { result ≡ length (waiting_text self.now) }
    {
        match self {
            PieceReader::Going(text) => waiting_in(text),
            PieceReader::Ending(text) => waiting_in(text),
            PieceReader::Choosing(_) => 0,
            PieceReader::Spent => 0,
        }
    }

    /// Takes bytes of a piece of the stream, and writes how many. At most one segment is opened. If fewer bytes were taken
    /// than the piece has, a key was chosen or a segment was opened, and the rest goes into the next call.
    ///
    /// # Errors
    /// By its status: `UNREAD` if text waits. Then nothing is taken, and the reader is as before. After each other error
    /// it is spent. `NoMatchingKey` exactly if the stream begins under no key. If the piece brings more than the next
    /// segment: `BadSegment` if this is that of no text, and `TooManySegments` if it has the number 2^32. `Closed` after
    /// `end`, `FailedBefore` if the reader is spent.
    pub fn feed(&mut self, piece: &[u8], taken: &mut usize) -> u8
        ensures { FeedMeans self.old self.new piece.now taken.new result }
    {
        *taken = 0;
        if self.waiting() > 0 {
            return UNREAD;
        }
        match fed(replace(self, PieceReader::Spent), piece) {
            Ok((reader, n)) => {
                *self = reader;
                *taken = n;
                OK
            }
            Err(e) => status(e.kind),
        }
    }

    /// Puts text that waits at the beginning of `out`, as much as has room, and writes how many bytes these are.
    ///
    /// # Errors
    /// By its status: `FailedBefore` if the reader is spent. `out` stays as it is, and 0 is written.
    pub fn read(&mut self, out: &mut [u8], written: &mut usize) -> u8
        ensures { ReadMeans self.old self.new out.old out.new written.new result }
    {
        match self {
            PieceReader::Going(text) => {
                *written = give(text, out);
                OK
            }
            PieceReader::Ending(text) => {
                *written = give(text, out);
                OK
            }
            PieceReader::Choosing(_) => {
                *written = 0;
                OK
            }
            PieceReader::Spent => {
                *written = 0;
                status(Kind::FailedBefore(Cause::NoMatchingKey))
            }
        }
    }

    /// Says that nothing follows, and opens the next segment of the bytes that are held. Its status is 0 exactly if all
    /// that came is a stream of the chosen key, and its whole text was read.
    ///
    /// # Errors
    /// By its status: `UNREAD` if text waits now: the call is made again once it was read. After each other error the
    /// reader is spent. `NoMatchingKey` exactly if what came begins under no key. If a key was chosen and bytes are held:
    /// `TooManySegments` if they are behind 2^32 segments. `Truncated` if the next segment is shorter than any segment,
    /// `BadSegment` if it is no shorter and is that of no text. `FailedBefore` if the reader is spent.
    pub fn end(&mut self) -> u8
        ensures { EndMeans self.old self.new result }
    {
        if self.waiting() > 0 {
            return UNREAD;
        }
        match ended(replace(self, PieceReader::Spent)) {
            Ok(reader) => {
                let waits = reader.waiting() > 0;
                *self = reader;
                if waits { UNREAD } else { OK }
            }
            Err(e) => status(e.kind),
        }
    }
}

// How many bytes of text wait.
fn waiting_in(text: &TextReader<StreamSegment>) -> usize
    ensures { result ≡ length (pending_text text.now) }
{
    text.reader.opened.len() - text.given
}

// A reader that took bytes of a piece, and how many.
fn fed(reader: PieceReader, piece: &[u8]) -> Result<(PieceReader, usize), TinkError>
    requires { waiting_text reader ≡ [] }
    ensures { MatchResult result (λ r. IsFed reader r.0 piece.now r.1) (λ e. FeedRefused reader piece.now e.kind) }
{
    match reader {
        PieceReader::Choosing(choice) => fed_choice(choice, piece),
        PieceReader::Going(text) => fed_text(text, piece),
        PieceReader::Ending(_) => Err(TinkError::new(Kind::Closed)),
        PieceReader::Spent => Err(spent()),
    }
}

// The same where no key was chosen.
fn fed_choice(choice: Choice, piece: &[u8]) -> Result<(PieceReader, usize), TinkError>
    ensures { MatchResult result (λ r. IsFed (Choosing choice) r.0 piece.now r.1)
        (λ e. FeedRefused (Choosing choice) piece.now e.kind) }
{
    let mut choice = choice;
    let n = choice.hold(piece);
    if !choice.is_full() {
        return Ok((PieceReader::Choosing(choice), n));
    }
    match choose_key(choice) {
        Ok(text) => Ok((PieceReader::Going(text), n)),
        Err(e) => Err(e),
    }
}

// The same under a key.
fn fed_text(
    text: TextReader<StreamSegment>,
    piece: &[u8],
) -> Result<(PieceReader, usize), TinkError>
    requires { pending_text text ≡ [] }
    ensures { MatchResult result (λ r. IsFed (Going text) r.0 piece.now r.1)
        (λ e. FeedRefused (Going text) piece.now e.kind) }
{
    let mut text = text;
    if !is_running(&text) {
        return Err(TinkError::new(Kind::Closed));
    }
    match feed(&mut text, piece) {
        Ok(n) => Ok((PieceReader::Going(text), n)),
        Err(e) => Err(e),
    }
}

// Whether further segments may come.
fn is_running(text: &TextReader<StreamSegment>) -> bool
    ensures yes { result ≡ true → text.now.reader.progress ≡ Running }
    ensures no { result ≡ false → text.now.reader.progress ≡ Running → ⊥ }
{
    match text.reader.progress {
        Progress::Running => true,
        Progress::Ended => false,
        Progress::Failed(_) => false,
    }
}

// A reader that knows that nothing follows, and opened the next segment.
fn ended(reader: PieceReader) -> Result<PieceReader, TinkError>
    requires { waiting_text reader ≡ [] }
    ensures { MatchResult result (λ r. IsEnded reader r) (λ e. EndRefused reader e.kind) }
{
    match reader {
        PieceReader::Choosing(choice) => ended_choice(choice),
        PieceReader::Going(text) => ended_text(text),
        PieceReader::Ending(text) => ended_text(text),
        PieceReader::Spent => Err(spent()),
    }
}

// The same where no key was chosen.
fn ended_choice(choice: Choice) -> Result<PieceReader, TinkError>
    ensures { MatchResult result (λ r. IsEnded (Choosing choice) r) (λ e. EndRefused (Choosing choice) e.kind) }
{
    match choose_key(choice) {
        Ok(text) => finished(text),
        Err(e) => Err(e),
    }
}

// The same under a key.
fn ended_text(text: TextReader<StreamSegment>) -> Result<PieceReader, TinkError>
    requires { pending_text text ≡ [] }
    ensures { MatchResult result (λ r. IsEnded (Ending text) r) (λ e. EndRefused (Ending text) e.kind) }
{
    match text.reader.progress {
        Progress::Running => finished(text),
        Progress::Ended => Ok(PieceReader::Ending(text)),
        Progress::Failed(_) => Err(spent()),
    }
}

// The same where further segments may come.
fn finished(text: TextReader<StreamSegment>) -> Result<PieceReader, TinkError>
    requires empty { pending_text text ≡ [] }
    requires running { text.reader.progress ≡ Running }
    ensures answer { MatchResult result (λ r. IsEnded (Ending text) r) (λ e. EndRefused (Ending text) e.kind) }
    ensures number { IfErr result (λ e. IsStopOf text.reader.segments e.kind) }
{
    let mut text = text;
    match finish(&mut text) {
        Ok(()) => Ok(PieceReader::Ending(text)),
        Err(e) => Err(e),
    }
}

// The error of a reader that is spent.
fn spent() -> TinkError
    ensures { result ≡ record { kind = FailedBefore NoMatchingKey } }
{
    TinkError::new(Kind::FailedBefore(Cause::NoMatchingKey))
}
