//! A stream from the keys of a set to a key.

ghost use Rattle.std.specs.Prelude.{◌≡◌, map};
ghost use Rattle.stream_model.specs.Opening as opening;
ghost use Rattle.tink_streaming_keys.specs.StreamKinds.{key_in_set};
ghost use Rattle.tink_streaming_aead.specs.Wrapped.{KeepsOrder, all_entries, keys_in};
ghost use Rattle.tink_io.specs.Outside.{FaultsStay, outside};
ghost use Rattle.tink_run.specs.Run.{LeavesEnds, LeavesSinkItself};
ghost use Rattle.tink_rewrap.specs.Rewrapping.{LeavesOrBegins, RewrapsUnder};

use crate::rewrap::passing::pass_under;
use std::alloc::Global;
use tink_io::{Draws, Sink, Source, TinkError};
use tink_run::report::Report;
use tink_run::seal::not_begun;
use tink_sets::{TypedEntry, TypedPrimitiveSet};
use tink_streaming_aead::{AES_CTR_HMAC_NONCE_SIZE_IN_BYTES, entries_of, room_of};
use tink_streaming_keys::{StreamKind, Trial, prepare_stream};

/// Moves the stream that a source has left from the first key of a set that it begins under to
/// another key.
///
/// # Errors
/// `OutOfMemory` before anything was read, written or drawn. Then `RandomFault` if too few draws are left for
/// the new stream: they stay. Then `UnsupportedHash` if its key derives nothing. Nothing is read or written
/// by these. Then, with the draws taken:
/// - `NoMatchingKey` where the source begins under no key of the set, with nothing written;
/// - `TooManySegments` if the text needs more than 2^32 segments, or bytes follow 2^32 segments of the
///   source. `Truncated` and `BadSegment` if a later segment is shorter than a tag or that of no text. What
///   was written has no last segment then;
/// - `ReadFault` and `WriteFault` where an end failed.
pub fn rewrap_between<S: Source, K: Sink>(
    alloc: Global,
    from: &TypedPrimitiveSet<StreamKind>,
    from_aad: &[u8],
    to: &TypedEntry<StreamKind>,
    to_aad: &[u8],
    draws: &mut Draws,
    source: &mut S,
    sink: &mut K,
) -> Result<Report, TinkError>
    ensures answer { RewrapsUnder
        (map (opening.opening_key from_aad.now) (keys_in (all_entries from.now.entries)))
        (key_in_set to.now) to_aad.now draws.old draws.new
        (outside S.Source K.Sink source.old sink.old)
        (outside S.Source K.Sink source.new sink.new)
        result }
    ensures order { KeepsOrder from.now.entries }
    ensures early { LeavesEnds result source.old source.new sink.old sink.new }
    ensures unwritten { LeavesSinkItself result sink.old sink.new }
    ensures begun { LeavesOrBegins
        (map (opening.opening_key from_aad.now) (keys_in (all_entries from.now.entries)))
        (outside S.Source K.Sink source.old sink.old) result sink.old sink.new }
    ensures later { FaultsStay (outside S.Source K.Sink source.old sink.old)
        (outside S.Source K.Sink source.new sink.new) }
    ensures source { S.same source.old source.new }
    ensures sink { K.same sink.old sink.new }
{
    let keys = entries_of(alloc, from)?;
    let trial = Trial::reserve(alloc, room_of(&keys), AES_CTR_HMAC_NONCE_SIZE_IN_BYTES)?;
    match prepare_stream(alloc, to, draws, to_aad) {
        Ok(mut stream) => pass_under(&keys, from_aad, trial, &mut stream, source, sink),
        Err(error) => Err(not_begun(error)),
    }
}
