//! A stream from a keyset to another.

ghost use Rattle.std.specs.Prelude.{◌≡◌, ℕ, List, IfOk, Ok};
ghost use Rattle.tink_io.specs.Outside.{FaultsStay, outside, AreKnown};
ghost use Rattle.tink_run.specs.AllKeys.{load};
ghost use Rattle.tink_run.specs.HeldKeys.{GivesLoaded};
ghost use Rattle.tink_run.specs.Run.{LeavesEnds, LeavesSinkItself};
ghost use Rattle.tink_rewrap.specs.RewrapReads.{RewrapReadsNoFurther};
ghost use Rattle.tink_rewrap.specs.Rewrapping.{LeavesOrBeginsOf, RewrapMeans, sides};
ghost use Rattle.tink_rewrap.specs.RewrapPromises.{CompletesRewrap, IsWholeRewrap, LeavesUnended};

use crate::rewrap::together::rewrap_together;
use std::alloc::Global;
use tink_io::gathered::room;
use tink_io::{Draws, Sink, Source, TinkError};
use tink_run::keys::primary_key;
use tink_run::load::load;
use tink_run::report::Report;
use tink_sets::TypedPrimitiveSet;
use tink_streaming_keys::StreamKind;

/// Moves the stream that a source has left from one keyset to another. The first key of `from` under which
/// the stream begins with `from_aad` decrypts it. Its text becomes a new stream under the primary key of `to`
/// with `to_aad`. The salt and the nonce prefix of the new stream are the first draws. Both keysets are in
/// the wire format. The body holds the text of one segment of each stream, and no more. The report has the
/// segments that were written, and the bytes of text.
///
/// # Errors
/// The first that applies:
/// - the refusals of loading `from`, and then of loading `to`: `BadKeyset`, `InvalidKeyset`,
///   `UnsupportedKeyType`, `InvalidKey`, `NoPrimary`, `WrongPrimitive`;
/// - `RandomFault` where fewer draws are left than a salt and seven bytes; all this with nothing
///   read, written or drawn;
/// - `UnsupportedHash` where the primary key's hash derives nothing, with the draws taken;
/// - `NoMatchingKey` where the source begins under no key of `from`, with nothing written;
/// - `TooManySegments` if the text needs more than 2^32 segments. The front and the segments up to the number
///   2^32 - 2 were written then;
/// - `TooManySegments` if bytes follow 2^32 segments of the source. `Truncated` and `BadSegment` if a later
///   segment is shorter than a tag or that of no text. The front and the unmarked segments of the text before
///   it were written then, and no last one.
///
/// `ReadFault` and `WriteFault` come where an end failed, with the draws taken, and `OutOfMemory`
/// before anything was read, written or drawn.
pub fn rewrap<S: Source, K: Sink>(
    alloc: Global,
    from: &[u8],
    from_aad: &[u8],
    to: &[u8],
    to_aad: &[u8],
    draws: &mut Draws,
    source: &mut S,
    sink: &mut K,
) -> Result<Report, TinkError>
    // Each answer has its cause, and says what stands after it.
    ensures answer { RewrapMeans
        (sides from.now from_aad.now to.now to_aad.now)
        draws.old draws.new
        (outside S.Source K.Sink source.old sink.old)
        (outside S.Source K.Sink source.new sink.new)
        result }

    // Known bytes: the source was exactly a stream of the chosen key of the first keyset, and exactly the
    // stream of its text under the second one's primary key was written.
    ensures rewrapped { IfOk result (λ report. (X G : List ℕ)
        → AreKnown (outside S.Source K.Sink source.old sink.old) X G
        → IsWholeRewrap (sides from.now from_aad.now to.now to_aad.now)
        draws.old draws.new X G (outside S.Source K.Sink source.new sink.new) report) }

    // Known bytes: where the source is no stream of the chosen key, or the answer is another refusal than
    // WriteFault, no last segment was written.
    ensures unended { LeavesUnended
        (sides from.now from_aad.now to.now to_aad.now)
        draws.old
        (outside S.Source K.Sink source.old sink.old)
        (outside S.Source K.Sink source.new sink.new)
        result }

    // Known bytes: where neither end fails and the stream can be moved, it is, or there is no memory.
    ensures succeeds { CompletesRewrap
        (sides from.now from_aad.now to.now to_aad.now)
        draws.old
        (outside S.Source K.Sink source.old sink.old)
        (outside S.Source K.Sink source.new sink.new)
        result }

    // Known bytes: how far the source was read by a refusal.
    ensures read { RewrapReadsNoFurther
        (sides from.now from_aad.now to.now to_aad.now)
        (outside S.Source K.Sink source.old sink.old)
        (outside S.Source K.Sink source.new sink.new)
        result }

    // An error that comes before anything was read or written leaves the ends themselves as they were.
    ensures early { LeavesEnds result source.old source.new sink.old sink.new }

    // One that comes before a key was chosen leaves the sink itself as it was, `NoMatchingKey` among them.
    // After another error a key was chosen, or the sink itself is as it was.
    ensures unwritten { LeavesSinkItself result sink.old sink.new
        × LeavesOrBeginsOf (sides from.now from_aad.now to.now to_aad.now)
        (outside S.Source K.Sink source.old sink.old) result sink.old sink.new }

    // Whatever the answer, no count of faults fell, and what calls keep of both ends is kept.
    ensures stays { FaultsStay (outside S.Source K.Sink source.old sink.old)
        (outside S.Source K.Sink source.new sink.new)
        × S.same source.old source.new × K.same sink.old sink.new }
{
    answer(alloc, from, from_aad, to, to_aad, draws, source, sink)
}

// What `rewrap` answers. All that it promises follows from this.
fn answer<S: Source, K: Sink>(
    alloc: Global,
    from: &[u8],
    from_aad: &[u8],
    to: &[u8],
    to_aad: &[u8],
    draws: &mut Draws,
    source: &mut S,
    sink: &mut K,
) -> Result<Report, TinkError>
    ensures answer { RewrapMeans
        (sides from.now from_aad.now to.now to_aad.now)
        draws.old draws.new
        (outside S.Source K.Sink source.old sink.old)
        (outside S.Source K.Sink source.new sink.new)
        result }
    ensures early { LeavesEnds result source.old source.new sink.old sink.new }
    ensures unwritten { LeavesSinkItself result sink.old sink.new }
    ensures begun { LeavesOrBeginsOf
        (sides from.now from_aad.now to.now to_aad.now)
        (outside S.Source K.Sink source.old sink.old)
        result sink.old sink.new }
    ensures later { FaultsStay (outside S.Source K.Sink source.old sink.old)
        (outside S.Source K.Sink source.new sink.new) }
    ensures source { S.same source.old source.new }
    ensures sink { K.same sink.old sink.new }
{
    match load(alloc, from) {
        Ok(keys) => answer_by(alloc, &keys, from_aad, to, to_aad, draws, source, sink),
        Err(error) => Err(error),
    }
}

// What `rewrap` answers from the keys of whatever keyset they are loaded from. It lets go of none.
fn answer_by<S: Source, K: Sink>(
    alloc: Global,
    keys: &TypedPrimitiveSet<StreamKind>,
    from_aad: &[u8],
    to: &[u8],
    to_aad: &[u8],
    draws: &mut Draws,
    source: &mut S,
    sink: &mut K,
) -> Result<Report, TinkError>
    ensures answer { (from : List ℕ) → GivesLoaded (Ok keys.now) (load from)
        → RewrapMeans
        (sides from from_aad.now to.now to_aad.now)
        draws.old draws.new
        (outside S.Source K.Sink source.old sink.old)
        (outside S.Source K.Sink source.new sink.new)
        result }
    ensures early { LeavesEnds result source.old source.new sink.old sink.new }
    ensures unwritten { LeavesSinkItself result sink.old sink.new }
    ensures begun { (from : List ℕ) → GivesLoaded (Ok keys.now) (load from)
        → LeavesOrBeginsOf
        (sides from from_aad.now to.now to_aad.now)
        (outside S.Source K.Sink source.old sink.old)
        result sink.old sink.new }
    ensures later { FaultsStay (outside S.Source K.Sink source.old sink.old)
        (outside S.Source K.Sink source.new sink.new) }
    ensures source { S.same source.old source.new }
    ensures sink { K.same sink.old sink.new }
{
    let mut waiting = room(alloc)?;
    match load(alloc, to) {
        Ok(new_keys) => rewrap_together(
            alloc,
            keys,
            from_aad,
            primary_key(&new_keys),
            to_aad,
            draws,
            source,
            sink,
            &mut waiting,
        ),
        Err(error) => Err(error),
    }
}
