//! Readers of a keyset's streams.

ghost use Rattle.std.specs.Prelude.{◌≡◌, ◌≤◌, ◌<◌, [], length, map, IfOk, IfSome, OnErr, MatchResult, vec_len, vec_capacity};
ghost use Rattle.stream_model.specs.Opening.{opening_key};
ghost use Rattle.tink_io.specs.Taken.{LosesAtMost};
ghost use Rattle.tink_streaming_aead.specs.DecryptReaders.{DecryptMeans, FirstReadRefused, GivesFirst, IsUnread, KeepsNoMore, cause_of, first_refusal, memory_for, number_of, source_in, ReadsNoMore, TakesAtMost};
ghost use Rattle.tink_streaming_aead.specs.DecryptReaders.DecryptState.{Unread};
ghost use Rattle.tink_streaming_keys.specs.Memory.{trial_memory};
ghost use Rattle.tink_streaming_keys.specs.Rooms.{HasRoomForEach};
ghost use Rattle.tink_streaming_keys.specs.StreamKinds.{key_in_set};
ghost use Rattle.tink_streaming_io.specs.Openers.{EndsEmpty, reader_memory, segment_map, text_moment};
ghost use Rattle.tink_streaming_io.specs.Trials.{ReadsFronts};

use std::marker::Model;
use std::mem;
use tink_io::{Cause, Kind, Source, TinkError};
use tink_primitives::DecryptingRead;
use tink_sets::TypedEntry;
use tink_streaming_ciphers::StreamSegment;
use tink_streaming_io::TextReader;
use tink_streaming_keys::{StreamKind, Trial, start};

/// The keys that may decrypt the stream, its associated data, and the memory for choosing one.
#[derive(Drop)]
pub struct Choice {
    /// The keys, those of one prefix in their order.
    pub keys: Vec<TypedEntry<StreamKind>>,
    /// The associated data.
    pub data: Vec<u8>,
    /// The memory for the choice.
    pub trial: Trial,
    ghost unread: { trial.kept.filled ≡ 0 },
    ghost room: { HasRoomForEach key_in_set keys.items (vec_len trial.kept.buffer) (vec_capacity trial.opened)
        (vec_len trial.nonce) (vec_capacity trial.prefix) },
    ghost memory: { trial_memory trial ≡ memory_for (vec_len trial.kept.buffer) },
}

/// The stage of a reader: before the first read, with a chosen key, or after an error.
#[derive(Drop)]
pub enum Stage {
    /// Nothing was read yet.
    Unread(Choice),
    /// A key was chosen.
    Chosen(TextReader<StreamSegment>),
    /// Choosing a key failed, by this cause.
    Stopped(Cause),
}

/// A reader of the text of a stream by the first of a keyset's keys under which the stream begins. The first read chooses it.
#[derive(Drop)]
pub struct DecryptReader<S: Source> {
    source: S,
    stage: Stage,
}

impl<S: Source> Model for DecryptReader<S> {
    ghost use Rattle.tink_streaming_aead.specs.DecryptReaders.{DecryptState};
    ghost use Rattle.tink_streaming_aead.specs.DecryptStages.{StageEndsEmpty, state_of};

    ghost Value = { DecryptState S };

    ghost view = { λ r. state_of r.stage r.source };

    ghost invariant = { λ r. StageEndsEmpty S.left r.stage r.source };
}

// Chooses the key of a stream, and gives the first bytes of its text.
fn give_first<S: Source>(
    choice: Choice,
    source: &mut S,
    buf: &mut [u8],
) -> Result<(TextReader<StreamSegment>, usize), TinkError>
    requires some { 0 < length buf.old }
    ensures answer { MatchResult result
        (λ given. GivesFirst (map (opening_key choice.data.items) (map key_in_set choice.keys.items)) (S.left source.old)
        (segment_map given.0.reader.opener) given.0.reader.opener.first given.0.reader.opener.size
        given.0.reader.opener.overhead (text_moment S.left S.faults given.0 source.new) buf.old buf.new given.1)
        (λ e. (buf.new ≡ buf.old)
        × FirstReadRefused (map (opening_key choice.data.items) (map key_in_set choice.keys.items)) (S.left source.old)
        (S.faults source.old) (S.faults source.new) e.kind) }
    ensures within { IfOk result (λ given. given.1 ≤ length buf.new) }
    ensures room { IfOk result (λ given. vec_len given.0.reader.buffer ≡ vec_len choice.trial.kept.buffer) }
    ensures memory { IfOk result (λ given. reader_memory given.0.reader ≡ trial_memory choice.trial) }
    ensures read { LosesAtMost (vec_len choice.trial.kept.buffer) (S.left source.old) (S.left source.new) }
    ensures fronts { OnErr result (IfSome (S.left source.old)
        (ReadsFronts (map (opening_key choice.data.items) (map key_in_set choice.keys.items)) 0 (S.left source.old)
        (S.left source.new))) }
    ensures at_end { IfOk result (λ given. EndsEmpty S.left given.0.reader source.new) }
    ensures later { S.faults source.old ≤ S.faults source.new }
    ensures same { S.same source.old source.new }
{
    let Choice { keys, data, trial } = choice;
    let reader = start(&keys, &data, trial, source)?;
    let mut text = TextReader { reader, given: 0 };
    match text.read(source, buf) {
        Ok(n) => Ok((text, n)),
        Err(e) => Err(TinkError::new(first_refusal(e.kind))),
    }
}

// The refusal of a first read, where the chosen key's reader is refused. The trial saw the segment open, so any but
// that of the source comes where a source goes on after it had said that it was at its end.
fn first_refusal(kind: Kind) -> Kind
    ensures { result ≡ first_refusal kind }
{
    match kind {
        Kind::ReadFault => Kind::ReadFault,
        _ => Kind::NoMatchingKey,
    }
}

// What a refusal of the first read stops a reader by.
fn cause_of(kind: Kind) -> Cause
    ensures { result ≡ cause_of kind }
{
    match kind {
        Kind::ReadFault => Cause::ReadFault,
        _ => Cause::NoMatchingKey,
    }
}

impl<S: Source + Drop> DecryptReader<S> {
    // A reader that has read nothing.
    pub(crate) fn of_choice(choice: Choice, source: S) -> DecryptReader<S>
        ensures { result ≡ Unread (map key_in_set choice.keys.items) choice.data.items
            (vec_len choice.trial.kept.buffer) source }
    {
        DecryptReader {
            source,
            stage: Stage::Unread(choice),
        }
    }

    /// Gives the next bytes of the text, as many as are opened and `buf` has room for, and answers how many. The first
    /// read to a buffer that is not empty chooses the key: the first under which the stream begins. The source begins
    /// in the key's front, and the first segment is that of some text. Then each read is that of the key's `Reader`,
    /// which takes no more of the source than the next chunk and a byte behind it. Whatever it answers, the first read
    /// takes no more than has room. If the stream begins in a front of none of the keys, it takes no more than the
    /// longest front and a byte. It keeps no more memory than it has.
    ///
    /// # Errors
    /// `NoMatchingKey` if the stream begins under none of the keys. `ReadFault` if the source failed. Those of
    /// `Reader::read` behind the first segment. `FailedBefore` after another of these.
    pub fn read(&mut self, buf: &mut [u8]) -> Result<usize, TinkError>
        ensures answer { DecryptMeans S.left S.faults self.old self.new buf.old buf.new result }
        ensures within { IfOk result (λ n. n ≤ length buf.new) }
        ensures idle { ReadsNoMore S.left S.faults self.old self.new (length buf.old) }
        ensures taken { TakesAtMost S.left self.old self.new }
        ensures room { KeepsNoMore self.old self.new }
        ensures later { S.faults (source_in self.old) ≤ S.faults (source_in self.new) }
        ensures same { S.same (source_in self.old) (source_in self.new) }
    {
        match &mut self.stage {
            Stage::Chosen(text) => text.read(&mut self.source, buf),
            Stage::Stopped(c) => Err(TinkError::new(Kind::FailedBefore(*c))),
            Stage::Unread(_) => {
                if buf.is_empty() {
                    Ok(0)
                } else {
                    self.read_first(buf)
                }
            }
        }
    }

    // Chooses the key, and gives the first bytes of the text.
    fn read_first(&mut self, buf: &mut [u8]) -> Result<usize, TinkError>
        requires unread { IsUnread self.old }
        requires some { 0 < length buf.old }
        ensures answer { DecryptMeans S.left S.faults self.old self.new buf.old buf.new result }
        ensures within { IfOk result (λ n. n ≤ length buf.new) }
        ensures idle { ReadsNoMore S.left S.faults self.old self.new (length buf.old) }
        ensures taken { TakesAtMost S.left self.old self.new }
        ensures room { KeepsNoMore self.old self.new }
        ensures later { S.faults (source_in self.old) ≤ S.faults (source_in self.new) }
        ensures same { S.same (source_in self.old) (source_in self.new) }
    {
        let stage = mem::replace(&mut self.stage, Stage::Stopped(Cause::ReadFault));
        let Stage::Unread(choice) = stage else {
            unreachable!()
        };
        match give_first(choice, &mut self.source, buf) {
            Ok((text, n)) => {
                self.stage = Stage::Chosen(text);
                Ok(n)
            }
            Err(e) => {
                self.stage = Stage::Stopped(cause_of(e.kind));
                Err(e)
            }
        }
    }

    /// The number of segments opened so far under the chosen key, and 0 before one is chosen.
    pub fn segments(&self) -> u64
        ensures { result ≡ number_of self.now }
    {
        match &self.stage {
            Stage::Chosen(text) => text.reader.segments(),
            _ => 0,
        }
    }

    /// The source, as the last call left it. Bytes that are held, and text that was not given yet, are
    /// dropped.
    pub fn into_inner(self) -> S
        ensures { result ≡ source_in self }
    {
        self.source
    }
}

impl<S: Source + Drop> DecryptingRead for DecryptReader<S> {
    ghost use Rattle.std.specs.Io.{ReadsAtMost};

    fn read(&mut self, buf: &mut [u8]) -> Result<usize, TinkError>
        ensures bound { ReadsAtMost result buf.new }
        ensures answer { DecryptMeans S.left S.faults self.old self.new buf.old buf.new result }
        ensures idle { ReadsNoMore S.left S.faults self.old self.new (length buf.old) }
        ensures taken { TakesAtMost S.left self.old self.new }
        ensures room { KeepsNoMore self.old self.new }
        ensures later { S.faults (source_in self.old) ≤ S.faults (source_in self.new) }
        ensures same { S.same (source_in self.old) (source_in self.new) }
    {
        DecryptReader::read(self, buf)
    }
}
