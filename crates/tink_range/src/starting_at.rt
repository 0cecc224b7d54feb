ghost use Rattle.std.specs.Prelude.{◌≡◌, ◌≤◌, ◌+◌, ◌*◌, ◌-◌, length, map, IfOk, IfErr, IfSome, vec_len, vec_capacity};
ghost use Rattle.stream_model.specs.Opening.{opening_key};
ghost use Rattle.tink_range.specs.ChoosingAt.{HasTried, IsPlaced, NewRefused};
ghost use Rattle.tink_range.specs.Objects.{LeavesObject};
ghost use Rattle.tink_streaming_aead.specs.DecryptReaders.{largest};
ghost use Rattle.tink_streaming_keys.specs.Rooms.{HasRoomForEach};
ghost use Rattle.tink_streaming_io.specs.Choosing.{Found, StartRefused};
ghost use Rattle.tink_streaming_io.specs.Openers.{segment_map};

use crate::choosing_at::{BegunAt, ChosenAt, choose_at};
use crate::chunks::RangeCore;
use crate::read_at::ReadAt;
use crate::steps::Steps;
use std::alloc::Global;
use std::sync::ledger::Ledger;
use tink_io::{Kind, TinkError};
use tink_streaming_aead::{WrappedStreamingAead, room_of};
use tink_streaming_ciphers::{AES_CTR_HMAC_NONCE_SIZE_IN_BYTES, StreamSegment};
use tink_streaming_io::{Buffers, Kept};
use tink_streaming_keys::{DerivesStreams, Trial};

/// The chunks of an object behind the front of a key, and the key's place in a list.
#[derive(Drop)]
pub struct StartedAt {
    /// How the chunks are opened.
    pub core: RangeCore<StreamSegment>,
    /// The place of the key in the list, from 0 on.
    pub place: usize,
}

/// The chunks of an object behind the front of the first key under which its stream begins, and the key's place in the
/// list.
///
/// # Errors
/// `ReadFault` if the object failed; `NoMatchingKey` if the stream begins under no key.
pub fn start_placed<A: ReadAt, T: DerivesStreams, L: Ledger>(
    keys: &[T],
    aad: &[u8],
    trial: Trial,
    object: &mut A,
    steps: &mut Steps<L>,
) -> Result<StartedAt, TinkError>
    requires room { HasRoomForEach T.key_of keys.now (vec_len trial.kept.buffer) (vec_capacity trial.opened)
        (vec_len trial.nonce) (vec_capacity trial.prefix) }
    ensures found { IfOk result (λ s. IfSome (A.bytes object.old) (λ S.
        Found (map (λ k. opening_key aad.now (T.key_of k)) keys.now) S (segment_map s.core.opener) s.core.front
        s.core.opener.first s.core.opener.size s.core.opener.overhead)) }
    ensures placed { IfOk result (λ s. IsPlaced (λ k. opening_key aad.now (T.key_of k)) keys.now (A.bytes object.old)
        s.place s.core.opener.size) }
    ensures whole { IfOk result (λ s. s.core.front + s.core.behind ≡ A.length_of object.old) }
    ensures refused { IfErr result (λ e. StartRefused (map (λ k. opening_key aad.now (T.key_of k)) keys.now)
        (A.bytes object.old) (A.faults object.old) (A.faults object.new) e.kind) }
    ensures tried { HasTried result (A.bytes object.old) (map (λ k. opening_key aad.now (T.key_of k)) keys.now)
        (steps.new - steps.old) }
    ensures ticks { (steps.old ≤ steps.new) × (steps.new ≤ steps.old + length keys.now) }
    ensures taken { A.taken object.new ≤ A.taken object.old + length keys.now * vec_len trial.kept.buffer }
    ensures kept { LeavesObject A.length_of A.bytes A.faults object.old object.new result }
    ensures same { A.same object.old object.new }
{
    let Trial {
        kept,
        prefix,
        mut nonce,
        opened: mut text,
    } = trial;
    let Kept {
        buffer: mut sealed,
        filled: _,
    } = kept;
    match choose_at(
        keys,
        aad,
        object,
        &mut sealed,
        &mut text,
        &mut nonce,
        prefix,
        steps,
    ) {
        Err(_) => Err(TinkError::new(Kind::ReadFault)),
        Ok(None) => Err(TinkError::new(Kind::NoMatchingKey)),
        Ok(Some(ChosenAt { begun, place })) => {
            let BegunAt { opener, front } = begun;
            let behind = object.size() - front;
            let core = RangeCore {
                opener,
                front,
                behind,
                buffers: Buffers {
                    text,
                    sealed,
                    nonce,
                },
            };
            Ok(StartedAt { core, place })
        }
    }
}

/// The chunks of an object behind the front of the first key under which its stream begins.
///
/// # Errors
/// As `start_placed`.
pub fn start_at<A: ReadAt, T: DerivesStreams, L: Ledger>(
    keys: &[T],
    aad: &[u8],
    trial: Trial,
    object: &mut A,
    steps: &mut Steps<L>,
) -> Result<RangeCore<StreamSegment>, TinkError>
    requires room { HasRoomForEach T.key_of keys.now (vec_len trial.kept.buffer) (vec_capacity trial.opened)
        (vec_len trial.nonce) (vec_capacity trial.prefix) }
    ensures found { IfOk result (λ core. IfSome (A.bytes object.old) (λ S.
        Found (map (λ k. opening_key aad.now (T.key_of k)) keys.now) S (segment_map core.opener) core.front
        core.opener.first core.opener.size core.opener.overhead)) }
    ensures whole { IfOk result (λ core. core.front + core.behind ≡ A.length_of object.old) }
    ensures refused { IfErr result (λ e. StartRefused (map (λ k. opening_key aad.now (T.key_of k)) keys.now)
        (A.bytes object.old) (A.faults object.old) (A.faults object.new) e.kind) }
    ensures tried { HasTried result (A.bytes object.old) (map (λ k. opening_key aad.now (T.key_of k)) keys.now)
        (steps.new - steps.old) }
    ensures ticks { (steps.old ≤ steps.new) × (steps.new ≤ steps.old + length keys.now) }
    ensures taken { A.taken object.new ≤ A.taken object.old + length keys.now * vec_len trial.kept.buffer }
    ensures kept { LeavesObject A.length_of A.bytes A.faults object.old object.new result }
    ensures same { A.same object.old object.new }
{
    match start_placed(keys, aad, trial, object, steps) {
        Ok(StartedAt { core, place: _ }) => Ok(core),
        Err(e) => Err(e),
    }
}

/// The chunks of an object behind the front of the first key of a keyset under which its stream begins. All memory is
/// taken first.
///
/// # Errors
/// `OutOfMemory`, with the object as before; else those of `start_placed`.
pub fn begin_at<A: ReadAt, L: Ledger>(
    alloc: Global,
    w: &WrappedStreamingAead,
    object: &mut A,
    aad: &[u8],
    steps: &mut Steps<L>,
) -> Result<RangeCore<StreamSegment>, TinkError>
    ensures found { IfOk result (λ core. IfSome (A.bytes object.old) (λ S.
        Found (map (opening_key aad.now) w.now.keys) S (segment_map core.opener) core.front
        core.opener.first core.opener.size core.opener.overhead)) }
    ensures whole { IfOk result (λ core. core.front + core.behind ≡ A.length_of object.old) }
    ensures refused { IfErr result (λ e. NewRefused A.bytes A.faults (map (opening_key aad.now) w.now.keys)
        object.old object.new e.kind) }
    ensures tried { HasTried result (A.bytes object.old) (map (opening_key aad.now) w.now.keys)
        (steps.new - steps.old) }
    ensures ticks { (steps.old ≤ steps.new) × (steps.new ≤ steps.old + length w.now.keys) }
    ensures taken { A.taken object.new ≤ A.taken object.old + length w.now.keys * (largest w.now.keys + 1) }
    ensures kept { LeavesObject A.length_of A.bytes A.faults object.old object.new result }
    ensures same { A.same object.old object.new }
{
    match w.entries(alloc) {
        Ok(entries) => {
            match Trial::reserve(alloc, room_of(&entries), AES_CTR_HMAC_NONCE_SIZE_IN_BYTES) {
                Ok(trial) => start_at(&entries, aad, trial, object, steps),
                Err(e) => Err(e),
            }
        }
        Err(e) => Err(e),
    }
}
