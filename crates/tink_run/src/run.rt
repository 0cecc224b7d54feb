ghost use Rattle.std.specs.Prelude.{◌≡◌, ℕ, List, IfOk, Ok, is_some, true};
ghost use Rattle.tink_run.specs.AllKeys.{load};
ghost use Rattle.tink_run.specs.HeldKeys.{GivesLoaded};
ghost use Rattle.tink_run.specs.OpenReads.{ReadsNoFurther};
ghost use Rattle.tink_io.specs.Outside.{FaultsStay, outside, AreKnown};
ghost use Rattle.tink_run.specs.Run.{AnswerMeans, IsComplete, LeavesEnds, LeavesSinkItself, OnlyAgreeing, OkMeans};

use crate::keys::primary_key;
use crate::load::load;
use crate::report::{Command, Report};
use crate::together::{open_together, seal_together};
use std::alloc::Global;
use tink_io::gathered::room;
use tink_io::{Draws, Sink, Source, TinkError};
use tink_sets::TypedPrimitiveSet;
use tink_streaming_aead::StreamKind;

/// Encrypts or decrypts a stream under a keyset in the wire format. The source's bytes go to the sink,
/// encrypted under the primary key, or decrypted under the first key under which the stream begins. A seal
/// takes its salt and the prefix of its nonces from the draws.
///
/// # Errors
/// The first that applies:
/// - the refusals of loading the keyset: `BadKeyset`, `InvalidKeyset`, `UnsupportedKeyType`, `InvalidKey`,
///   `NoPrimary`, `WrongPrimitive`;
/// - `RandomFault` of a seal for which too few draws are left; all this with nothing read, written or drawn;
/// - `UnsupportedHash` of a seal whose key derives nothing, with the draws taken, and nothing read or
///   written;
/// - `NoMatchingKey` of an open where the stream begins under no key, with nothing written;
/// - `TooManySegments` if the stream has more than 2^32 segments. `Truncated` and `BadSegment` of an open if
///   a later segment is shorter than a tag or that of no text. Of a seal the segments that are surely not the
///   last were written, and of an open the texts of the segments before.
///
/// `ReadFault` and `WriteFault` come where an end failed, and `OutOfMemory` before anything was read, written
/// or drawn.
pub fn run<S: Source, K: Sink>(
    alloc: Global,
    command: Command,
    keyset: &[u8],
    aad: &[u8],
    draws: &mut Draws,
    source: &mut S,
    sink: &mut K,
) -> Result<Report, TinkError>
    // Each answer has its cause, and says what stands after it.
    ensures answer { AnswerMeans command keyset.now aad.now draws.old draws.new
        (outside S.Source K.Sink source.old sink.old)
        (outside S.Source K.Sink source.new sink.new)
        result }

    // Known bytes: a seal has written the stream of its whole input; an open had as input a stream of the
    // chosen key, and has written its text.
    ensures ok { IfOk result (λ report. (T G : List ℕ)
        → AreKnown (outside S.Source K.Sink source.old sink.old) T G
        → OkMeans command keyset.now aad.now draws.old draws.new T G
        (outside S.Source K.Sink source.new sink.new) report) }

    // Known bytes: an open has only written a prefix of the texts that agree under the chosen key.
    ensures written { OnlyAgreeing command keyset.now aad.now
        (outside S.Source K.Sink source.old sink.old)
        (outside S.Source K.Sink source.new sink.new) }

    // Known bytes: where neither end fails and the command can succeed, it does, or there is no memory.
    ensures succeeds { IsComplete command keyset.now aad.now draws.old
        (outside S.Source K.Sink source.old sink.old)
        (outside S.Source K.Sink source.new sink.new)
        result }

    // How far the source of an open was read by a refusal.
    ensures read { ReadsNoFurther command keyset.now aad.now
        (outside S.Source K.Sink source.old sink.old)
        (outside S.Source K.Sink source.new sink.new)
        result }

    // A refusal that comes before anything was read or written leaves the ends themselves as they were, and
    // `NoMatchingKey` the sink.
    ensures early { LeavesEnds result source.old source.new sink.old sink.new }
    ensures unwritten { LeavesSinkItself result sink.old sink.new }

    // Whatever the answer, no count of faults fell, and what calls keep of both ends is kept.
    ensures stays { FaultsStay (outside S.Source K.Sink source.old sink.old)
        (outside S.Source K.Sink source.new sink.new)
        × S.same source.old source.new × K.same sink.old sink.new }
{
    answer(alloc, command, keyset, aad, draws, source, sink)
}

// What `run` answers. All that it promises follows from this.
fn answer<S: Source, K: Sink>(
    alloc: Global,
    command: Command,
    keyset: &[u8],
    aad: &[u8],
    draws: &mut Draws,
    source: &mut S,
    sink: &mut K,
) -> Result<Report, TinkError>
    ensures answer { AnswerMeans command keyset.now aad.now draws.old draws.new
        (outside S.Source K.Sink source.old sink.old)
        (outside S.Source K.Sink source.new sink.new)
        result }
    ensures read { ReadsNoFurther command keyset.now aad.now
        (outside S.Source K.Sink source.old sink.old)
        (outside S.Source K.Sink source.new sink.new)
        result }
    ensures early { LeavesEnds result source.old source.new sink.old sink.new }
    ensures unwritten { LeavesSinkItself result sink.old sink.new }
    ensures later { FaultsStay (outside S.Source K.Sink source.old sink.old)
        (outside S.Source K.Sink source.new sink.new) }
    ensures source { S.same source.old source.new }
    ensures sink { K.same sink.old sink.new }
{
    match load(alloc, keyset) {
        Ok(keys) => answer_by(alloc, command, &keys, aad, draws, source, sink),
        Err(error) => Err(error),
    }
}

// What `run` answers under the keys of whatever keyset they are loaded from. It lets go of none.
fn answer_by<S: Source, K: Sink>(
    alloc: Global,
    command: Command,
    keys: &TypedPrimitiveSet<StreamKind>,
    aad: &[u8],
    draws: &mut Draws,
    source: &mut S,
    sink: &mut K,
) -> Result<Report, TinkError>
    requires { is_some keys.now.primary ≡ true }
    ensures answer { (keyset : List ℕ) → GivesLoaded (Ok keys.now) (load keyset)
        → AnswerMeans command keyset aad.now draws.old draws.new
        (outside S.Source K.Sink source.old sink.old)
        (outside S.Source K.Sink source.new sink.new)
        result }
    ensures read { (keyset : List ℕ) → GivesLoaded (Ok keys.now) (load keyset)
        → ReadsNoFurther command keyset aad.now
        (outside S.Source K.Sink source.old sink.old)
        (outside S.Source K.Sink source.new sink.new)
        result }
    ensures early { LeavesEnds result source.old source.new sink.old sink.new }
    ensures unwritten { LeavesSinkItself result sink.old sink.new }
    ensures later { FaultsStay (outside S.Source K.Sink source.old sink.old)
        (outside S.Source K.Sink source.new sink.new) }
    ensures source { S.same source.old source.new }
    ensures sink { K.same sink.old sink.new }
{
    let mut waiting = room(alloc)?;
    match command {
        Command::Seal => seal_together(
            alloc,
            primary_key(keys),
            aad,
            draws,
            source,
            sink,
            &mut waiting,
        ),
        Command::Open => open_together(alloc, keys, aad, source, sink, &mut waiting),
    }
}
