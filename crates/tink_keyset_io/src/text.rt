//! Texts, read whole from sources and written whole to sinks.

ghost use Rattle.std.specs.Prelude.{◌≡◌, ◌≤◌, ◌<◌, ◌+◌, ◌^◌, Some, Ok, IfOk, IfErr, OnOk, length};
ghost use Rattle.std.specs.Io.KnownBytes.{Consumes, IsAtEnd};
ghost use Rattle.tink_keysets.specs.Ends.{HasRead, HasWritten};
ghost use Rattle.tink_keyset_io.specs.Reading.{IsFault, IsPiece, IsUnreadText, told};
ghost use Rattle.tink_io.specs.Taken.{LosesAtMost};
ghost use Rattle.tink_io.specs.declared.error.Kind.TheVariants.{OutOfMemory};
ghost use Rattle.tink_keyset_io.specs.Writing.{AppendsText, IsPartOf};

use crate::text_form::TextForm;
use std::alloc::Global;
use tink_io::{Kind, Sink, Source, TinkError, write_all};

/// The most bytes of a keyset's text.
const MAX_TEXT: usize = 67_108_864;

/// Bytes that are read at once.
const PIECE: usize = 4096;

// Reads a piece, puts what was read behind the text, and answers how many bytes these are.
fn read_piece<S: Source>(
    source: &mut S,
    piece: &mut [u8],
    text: &mut Vec<u8>,
) -> Result<usize, TinkError>
    requires some { 0 < length piece.old }
    ensures ok { IfOk result (λ n.
        IsPiece (S.left source.old) (S.left source.new) text.old.items text.new.items piece.new n) }
    ensures refused { IfErr result (λ e. IsFault e.kind (S.faults source.old) (S.faults source.new)) }
    ensures taken { LosesAtMost (length piece.old) (S.left source.old) (S.left source.new) }
    ensures later { S.faults source.old ≤ S.faults source.new }
    ensures same { S.same source.old source.new }
{
    match source.read(piece) {
        Ok(count) => {
            text.extend_from_slice(&piece[..count])?;
            Ok(count)
        }
        Err(_) => Err(TinkError::new(Kind::ReadFault)),
    }
}

/// All bytes that the source has left, `most` at most. Of a longer text at most one byte more is read.
///
/// # Errors
/// `ReadFault` where the source failed; `refusal` exactly where more than `most` bytes are left; `OutOfMemory`.
pub fn read_whole<S: Source>(
    alloc: Global,
    source: &mut S,
    most: usize,
    refusal: Kind,
) -> Result<Vec<u8>, TinkError>
    requires small { most < 2 ^ 32 }
    ensures text { IfOk result (λ text. Consumes (S.left source.old) (S.left source.new) text.items) }
    ensures fits { IfOk result (λ text. length text.items ≤ most) }
    ensures end { OnOk result (IsAtEnd (S.left source.new)) }
    ensures refused { IfErr result (λ e.
        IsUnreadText most refusal (S.left source.old) e.kind (S.faults source.old) (S.faults source.new)) }
    ensures taken { LosesAtMost (most + 1) (S.left source.old) (S.left source.new) }
    ensures later { S.faults source.old ≤ S.faults source.new }
    ensures same { S.same source.old source.new }
{
    let mut piece = [0u8; PIECE];
    let mut text = Vec::new(alloc);
    'pieces: while text.len() <= most {
        let room = (most + 1 - text.len()).min(PIECE);
        let count = read_piece(source, &mut piece[..room], &mut text)?;
        if count == 0 {
            return Ok(text);
        }
    }
    Err(TinkError::new(refusal))
}

/// The message of the text that the source has left, 67,108,864 bytes at most.
///
/// # Errors
/// `KeysetTooLong` if the source has more bytes; the form's error if the text is no message. `ReadFault` if the source
/// failed. `OutOfMemory`.
pub fn read_as<F: TextForm<M>, M: Drop, S: Source>(
    alloc: Global,
    source: &mut S,
) -> Result<M, TinkError>
    ensures answer { HasRead result (told F.refusal F.message (S.left source.old))
        (S.faults source.old) (S.faults source.new) }
    ensures end { OnOk result (IsAtEnd (S.left source.new)) }
    ensures taken { LosesAtMost (2 ^ 26 + 1) (S.left source.old) (S.left source.new) }
    ensures count { S.faults source.old ≤ S.faults source.new }
    ensures same { S.same source.old source.new }
{
    let text = read_whole(alloc, source, MAX_TEXT, Kind::KeysetTooLong)?;
    F::decode(alloc, &text)
}

/// Writes a text of the message, all of it.
///
/// # Errors
/// `OutOfMemory`, with nothing written; `WriteFault` if the sink failed, with a prefix of a text written.
pub fn write_as<F: TextForm<M>, M, K: Sink>(
    alloc: Global,
    sink: &mut K,
    message: &M,
) -> Result<(), TinkError>
    ensures answer { HasWritten result (Some (Ok tt)) (K.faults sink.old) (K.faults sink.new) }
    ensures written { OnOk result (AppendsText (F.spells message.now) (K.got sink.old) (K.got sink.new)) }
    ensures prefix { IfErr result (λ e. IsPartOf (F.spells message.now) e.kind (K.got sink.old) (K.got sink.new)) }
    ensures unwritten { IfErr result (λ e. e.kind ≡ OutOfMemory → sink.new ≡ sink.old) }
    ensures count { K.faults sink.old ≤ K.faults sink.new }
    ensures same { K.same sink.old sink.new }
{
    let text = F::encode(alloc, message)?;
    write_all(sink, text.as_slice())
}
