ghost use Rattle.std.specs.Prelude.{◌≡◌, ◌≤◌, ◌-◌, [], map, IfOk, IfSome, OnErr, vec_len, vec_capacity};
ghost use Rattle.stream_model.specs.Opening.{opening_key};
ghost use Rattle.tink_io.specs.Taken.{LosesAtMost};
ghost use Rattle.tink_streaming_keys.specs.Rooms.{HasRoomForEach};
ghost use Rattle.tink_streaming_io.specs.Keeping.{kept_rest};
ghost use Rattle.tink_streaming_io.specs.Rooms.{KeepsRoom};
ghost use Rattle.tink_streaming_io.specs.Trials.{ChoiceMeans, ReadsFronts, TrialFailed};

use crate::key_under::KeyUnder;
use crate::stream_params::DerivesStreams;
use tink_io::{Failed, Source};
use tink_streaming_ciphers::StreamSegment;
use tink_streaming_io::{Begun, Kept, KeyTrial, try_key};

/// How the stream of a source is opened: by the first key under which it begins with the associated
/// data, or none. Then `opened` has no text. Where the stream begins in a front of none of the keys no more is read
/// than the longest front and a byte.
///
/// # Errors
/// Failed where the source failed. What was read is kept.
pub fn choose<S: Source, T: DerivesStreams>(
    keys: &[T],
    aad: &[u8],
    kept: &mut Kept,
    source: &mut S,
    prefix: Vec<u8>,
    nonce: &mut Vec<u8>,
    opened: &mut Vec<u8>,
) -> Result<Option<Begun<StreamSegment>>, Failed>
    requires room { HasRoomForEach T.key_of keys.now (vec_len kept.old.buffer) (vec_capacity opened.old)
        (vec_len nonce.old) (vec_capacity prefix) }
    ensures answer { IfOk result (ChoiceMeans (map (λ k. opening_key aad.now (T.key_of k)) keys.now)
        (kept_rest S.left kept.old source.old) (kept_rest S.left kept.new source.new) kept.new nonce.new opened.new) }
    ensures failed { OnErr result (TrialFailed (kept_rest S.left kept.old source.old)
        (kept_rest S.left kept.new source.new) (S.faults source.old) (S.faults source.new)) }
    // where it begins in a front of none of the keys, but for those from whose headers no keys are derived
    ensures further { IfSome (kept_rest S.left kept.old source.old) (ReadsFronts
        (map (λ k. opening_key aad.now (T.key_of k)) keys.now) kept.old.filled (S.left source.old) (S.left source.new)) }
    ensures read { LosesAtMost (vec_len kept.old.buffer - kept.old.filled) (S.left source.old) (S.left source.new) }
    // whatever the answer, no text is left there, not even one that stood there before
    ensures opened { opened.new.items ≡ [] }
    ensures room { KeepsRoom kept.old kept.new nonce.old nonce.new opened.old opened.new }
    ensures prefix { IfOk result (λ chosen. IfSome chosen (λ b. vec_capacity b.opener.prefix ≡ vec_capacity prefix)) }
    ensures later { S.faults source.old ≤ S.faults source.new }
    ensures same { S.same source.old source.new }
{
    opened.clear();
    let mut prefix = prefix;
    for key in keys {
        let under = KeyUnder { key, aad };
        match try_key(&under, kept, source, prefix, nonce, opened)? {
            KeyTrial::Begins(begun) => return Ok(Some(begun)),
            KeyTrial::Differs(memory) => prefix = memory,
        }
    }
    Ok(None)
}
