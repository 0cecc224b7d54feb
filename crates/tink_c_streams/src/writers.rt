//! New writers of streams whose text comes in pieces.

ghost use Rattle.std.specs.Prelude.{◌≡◌, ◌<◌, ◌^◌, true, is_some, [], length, IfOk, IfErr, MatchResult};
ghost use Rattle.tink_io.specs.declared.error.Kind.TheVariants.{OutOfMemory};
ghost use Rattle.stream_model.specs.Order.{IsOfKeyset};
ghost use Rattle.tink_streaming_segment.specs.Sealers.{segment_map};
ghost use Rattle.tink_streaming_keys.specs.StreamKinds.{key_in_set};
ghost use Rattle.tink_c_pieces.specs.Moments.{piece_moment};
ghost use Rattle.tink_c_streams.specs.Writers.{BeginsNoWriter, BeginsWriter, IsNewWriter, IsWriting, NoNewWriter, NoWriterUnder};

use crate::streams::wire_in;
use std::alloc::Global;
use tink_c_bytes::{Growing, draws_of};
use tink_c_pieces::PieceWriter;
use tink_io::{Kind, TinkError};
use tink_run::keys::primary_key;
use tink_run::load::load;
use tink_run::seal::not_begun;
use tink_sets::TypedEntry;
use tink_streaming_aead::{SegmentWriter, StreamKind, StreamSegment};
use tink_streaming_keys::{Front, NewStream, prepare_stream};

/// A writer of a new stream under the primary key of a file, with the associated data. It has given nothing. The salt and
/// the prefix of the nonces are the first of the random bytes: 23 of them, or 39 if the derived key has 32 bytes.
///
/// # Errors
/// `BadJson` if the file is JSON by its first byte and no keyset. Then those of loading its keys. Then `RandomFault`
/// exactly if there are fewer random bytes, and `UnsupportedHash` exactly if the primary key derives nothing.
pub fn writer_of(
    alloc: Global,
    file: &[u8],
    associated_data: &[u8],
    random: &[u8],
) -> Result<PieceWriter<StreamSegment>, TinkError>
    ensures { MatchResult result
        (λ w. BeginsWriter file.now associated_data.now random.now (segment_map w.writer.sealer) w.writer.sealer.first
        w.writer.sealer.room (piece_moment w))
        (λ e. BeginsNoWriter file.now associated_data.now random.now e.kind) }
{
    let wire = wire_in(alloc, file)?;
    writer_in(alloc, wire.as_slice(), associated_data, random)
}

// The same under a keyset in the wire format.
fn writer_in(
    alloc: Global,
    wire: &[u8],
    associated_data: &[u8],
    random: &[u8],
) -> Result<PieceWriter<StreamSegment>, TinkError>
    ensures { MatchResult result
        (λ w. IsNewWriter wire.now associated_data.now random.now (segment_map w.writer.sealer) w.writer.sealer.first
        w.writer.sealer.room (piece_moment w))
        (λ e. NoNewWriter wire.now associated_data.now random.now e.kind) }
{
    let keys = load(alloc, wire)?;
    writer_under(alloc, primary_key(&keys), associated_data, random)
}

// The same under a key.
fn writer_under(
    alloc: Global,
    key: &TypedEntry<StreamKind>,
    associated_data: &[u8],
    random: &[u8],
) -> Result<PieceWriter<StreamSegment>, TinkError>
    requires { IsOfKeyset (key_in_set key.now) }
    ensures { MatchResult result
        (λ w. IsWriting (key_in_set key.now) associated_data.now random.now [] [] (segment_map w.writer.sealer)
        w.writer.sealer.first w.writer.sealer.room (piece_moment w))
        (λ e. NoWriterUnder (key_in_set key.now) associated_data.now random.now e.kind) }
{
    let mut draws = draws_of(alloc, random)?;
    match prepare_stream(alloc, key, &mut draws, associated_data) {
        Ok(NewStream { front, writer }) => with_front(alloc, &front, writer),
        Err(e) => Err(not_begun(e)),
    }
}

// A writer that gives a front before its segments.
fn with_front(
    alloc: Global,
    front: &Front<'_>,
    writer: SegmentWriter<StreamSegment>,
) -> Result<PieceWriter<StreamSegment>, TinkError>
    requires { length front.now < 2 ^ 16 }
    ensures front { IfOk result (λ w. w.front.items ≡ front.now) }
    ensures writer { IfOk result (λ w. w.writer ≡ writer) }
    ensures refused { IfErr result (λ e. e ≡ record { kind = OutOfMemory }) }
{
    let mut sink = Growing::new(alloc);
    match front.write(&mut sink) {
        Ok(()) => Ok(PieceWriter {
            front: sink.into_bytes(),
            writer,
        }),
        Err(_) => Err(TinkError::new(Kind::OutOfMemory)),
    }
}
