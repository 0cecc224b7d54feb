ghost use Rattle.std.specs.Prelude.{◌≡◌, ◌≤◌, ◌+◌, ◌-◌, [], map, IfSome, IfOk, IfErr, vec_len, vec_capacity};
ghost use Rattle.stream_model.specs.Opening.{opening_key};
ghost use Rattle.tink_io.specs.Taken.{LosesAtMost};
ghost use Rattle.tink_io.specs.declared.error.Kind.TheVariants.{OutOfMemory};
ghost use Rattle.tink_streaming_io.specs.declared.progress.Progress.TheVariants.{Running};
ghost use Rattle.tink_streaming_keys.specs.Memory.{trial_memory};
ghost use Rattle.tink_streaming_keys.specs.Rooms.{HasRoomForEach};
ghost use Rattle.tink_streaming_io.specs.Choosing.{Started, StartRefused};
ghost use Rattle.tink_streaming_io.specs.Keeping.{kept_rest};
ghost use Rattle.tink_streaming_io.specs.Openers.{reader_lacks, reader_memory, reader_rest, segment_map};
ghost use Rattle.tink_streaming_io.specs.Trials.{ReadsFronts};

use crate::choosing::choose;
use crate::stream_memory::PREFIX;
use crate::stream_params::DerivesStreams;
use std::alloc::Global;
use tink_io::{Kind, Source, TinkError};
use tink_streaming_ciphers::StreamSegment;
use tink_streaming_io::{Begun, Buffers, Kept, SegmentReader, carry};
use tink_streaming_segment::zeros;

/// The memory for finding the key of a stream: the bytes read of its source, which are kept, and memory for
/// the largest key.
#[derive(Drop)]
pub struct Trial {
    /// The bytes that were read of the source.
    pub kept: Kept,
    /// The memory of a nonce prefix: 7 bytes.
    pub prefix: Vec<u8>,
    /// The memory of a nonce.
    pub nonce: Vec<u8>,
    /// The memory of the text of a segment.
    pub opened: Vec<u8>,
}

impl Trial {
    /// Memory for keys whose output prefix and segment have fewer bytes than `room`, and no more. It holds a
    /// text of `room` bytes, nonces of `nonce` bytes and their prefix of seven.
    ///
    /// # Errors
    /// `OutOfMemory`.
    pub fn reserve(alloc: Global, room: usize, nonce: usize) -> Result<Trial, TinkError>
        ensures filled { IfOk result (λ t. t.kept.filled ≡ 0) }
        ensures buffer { IfOk result (λ t. vec_len t.kept.buffer ≡ room) }
        ensures opened { IfOk result (λ t. vec_capacity t.opened ≡ room) }
        ensures nonce { IfOk result (λ t. vec_len t.nonce ≡ nonce) }
        ensures memory { IfOk result (λ t. trial_memory t ≡ room + room + nonce + 7) }
        ensures prefix { IfOk result (λ t. vec_capacity t.prefix ≡ 7) }
        ensures refused { IfErr result (λ e. e ≡ record { kind = OutOfMemory }) }
    {
        let opened = Vec::with_capacity(alloc, room)?;
        let buffer = zeros(alloc, room)?;
        let nonce = zeros(alloc, nonce)?;
        let prefix = Vec::with_capacity(alloc, PREFIX)?;
        Ok(Trial {
            kept: Kept { buffer, filled: 0 },
            prefix,
            nonce,
            opened,
        })
    }
}

/// The reader of the first key under which the stream begins with the associated data, over the bytes behind
/// its front.
///
/// # Errors
/// NoMatchingKey where the stream begins under none, ReadFault where the source failed. No more was read than
/// the trial has room for, and the bytes that the reader's first segment still lacks. If the stream begins in
/// a front of none of the keys, no more was read than the longest front and a byte.
pub fn start<S: Source, T: DerivesStreams>(
    keys: &[T],
    aad: &[u8],
    trial: Trial,
    source: &mut S,
) -> Result<SegmentReader<StreamSegment>, TinkError>
    requires room { HasRoomForEach T.key_of keys.now (vec_len trial.kept.buffer) (vec_capacity trial.opened)
        (vec_len trial.nonce) (vec_capacity trial.prefix) }
    ensures fresh { IfOk result (λ r. (r.progress ≡ Running) × (r.segments ≡ 0) × (r.opened.items ≡ [])
        × (vec_len r.buffer ≡ vec_len trial.kept.buffer)) }
    ensures memory { IfOk result (λ r. reader_memory r ≡ trial_memory trial) }
    ensures started { IfOk result (λ r. IfSome (kept_rest S.left trial.kept source.old) (λ X.
        Started (map (λ k. opening_key aad.now (T.key_of k)) keys.now) X (reader_rest S.left r source.new)
        (segment_map r.opener) r.opener.first r.opener.size r.opener.overhead)) }
    ensures refused { IfErr result (λ e. StartRefused (map (λ k. opening_key aad.now (T.key_of k)) keys.now)
        (kept_rest S.left trial.kept source.old) (S.faults source.old) (S.faults source.new) e.kind) }
    // what the reader still lacks of the first segment and of a byte behind it has room too
    ensures read { LosesAtMost (vec_len trial.kept.buffer - trial.kept.filled) (S.left source.old)
        (S.left source.new) × IfOk result (λ r. LosesAtMost (vec_len trial.kept.buffer - trial.kept.filled
        - reader_lacks r) (S.left source.old) (S.left source.new)) }
    // where the stream begins in a front of none of the keys, but for those from whose headers no keys are
    // derived
    ensures further { IfSome (kept_rest S.left trial.kept source.old) (ReadsFronts
        (map (λ k. opening_key aad.now (T.key_of k)) keys.now) trial.kept.filled
        (S.left source.old) (S.left source.new)) }
    ensures stays { (S.faults source.old ≤ S.faults source.new) × S.same source.old source.new }
{
    let Trial {
        mut kept,
        prefix,
        mut nonce,
        mut opened,
    } = trial;
    match choose(
        keys,
        aad,
        &mut kept,
        source,
        prefix,
        &mut nonce,
        &mut opened,
    ) {
        Err(_) => Err(TinkError::new(Kind::ReadFault)),
        Ok(None) => Err(TinkError::new(Kind::NoMatchingKey)),
        Ok(Some(Begun { opener, front })) => {
            let filled = kept.filled;
            carry(&mut kept.buffer, front, filled);
            let buffers = Buffers {
                text: opened,
                sealed: kept.buffer,
                nonce,
            };
            Ok(SegmentReader::from_parts(opener, buffers, filled - front))
        }
    }
}
