//! New readers of streams that come in pieces.

ghost use Rattle.std.specs.Prelude.{◌≡◌, map, IfOk, IfErr, MatchResult};
ghost use Rattle.tink_io.specs.declared.error.Kind.TheVariants.{OutOfMemory};
ghost use Rattle.stream_model.specs.Opening.{opening_key};
ghost use Rattle.tink_streaming_aead.specs.Wrapped.{KeepsOrder, all_entries, keys_in};
ghost use Rattle.tink_c_streams.specs.NewReaders.{BeginsNoReader, BeginsReader, HasKeys, IsNewReader, NoNewReader};

use crate::choice::choice_of;
use crate::readers::PieceReader;
use crate::streams::wire_in;
use std::alloc::Global;
use tink_io::TinkError;
use tink_run::load::load;
use tink_sets::TypedPrimitiveSet;
use tink_streaming_aead::{StreamKind, entries_of};

/// A reader of the text of a stream that comes in pieces, under all keys of a file, with the associated data. No byte came
/// to it, and it has given nothing.
///
/// # Errors
/// `BadJson` if the file is JSON by its first byte and no keyset. Then those of loading its keys. `OutOfMemory` may come
/// in place of each.
pub fn reader_of(
    alloc: Global,
    file: &[u8],
    associated_data: &[u8],
) -> Result<PieceReader, TinkError>
    ensures { MatchResult result (λ r. BeginsReader file.now associated_data.now r)
        (λ e. BeginsNoReader file.now e.kind) }
{
    let wire = wire_in(alloc, file)?;
    reader_in(alloc, wire.as_slice(), associated_data)
}

// The same under a keyset in the wire format.
fn reader_in(alloc: Global, wire: &[u8], associated_data: &[u8]) -> Result<PieceReader, TinkError>
    ensures { MatchResult result (λ r. IsNewReader wire.now associated_data.now r) (λ e. NoNewReader wire.now e.kind) }
{
    let keys = load(alloc, wire)?;
    reader_under(alloc, &keys, associated_data)
}

// The same under the keys of a set.
fn reader_under(
    alloc: Global,
    keys: &TypedPrimitiveSet<StreamKind>,
    associated_data: &[u8],
) -> Result<PieceReader, TinkError>
    ensures value { IfOk result (λ r. HasKeys (map (opening_key associated_data.now)
        (keys_in (all_entries keys.now.entries))) r) }
    ensures order { KeepsOrder keys.now.entries }
    ensures cause { IfErr result (λ e. e.kind ≡ OutOfMemory) }
{
    let entries = entries_of(alloc, keys)?;
    match choice_of(alloc, &entries, associated_data) {
        Ok(choice) => Ok(PieceReader::Choosing(choice)),
        Err(e) => Err(e),
    }
}
