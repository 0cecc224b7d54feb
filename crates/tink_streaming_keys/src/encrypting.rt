//! New streams under a key.

ghost use Rattle.std.specs.Prelude.{◌≡◌, ◌≤◌, IfOk, MatchResult};
ghost use Rattle.stream_model.specs.Cut.{numbered};
ghost use Rattle.tink_primitives.specs.Meaning.{IsEndOf};
ghost use Rattle.tink_streaming_keys.specs.Encrypting.{IsNewStream, NewWriterMeans, NewWriterRefused, sink_of, writer_room};
ghost use Rattle.tink_streaming_ciphers.specs.StreamSegments.{segment_by};
ghost use Rattle.tink_streaming_io.specs.Sealers.{held_text, writer_memory};
ghost use Rattle.tink_streaming_io.specs.Writing.{WriterMoment};

use crate::new_stream::{NewStream, prepare_stream};
use crate::stream_params::DerivesStreams;
use std::alloc::Global;
use tink_io::{Draws, Sink, TinkError};
use tink_primitives::Refused;
use tink_streaming_ciphers::StreamSegment;
use tink_streaming_io::{SegmentWriter, Writer};

/// A writer of a new stream whose front was written to a sink, before any text. Salt and prefix
/// are the first draws: 23 of them, or 39 where the derived key has 32 bytes.
///
/// # Errors
/// `OutOfMemory` before anything was drawn or written. `RandomFault` exactly if fewer draws are left than
/// these: they stay. `UnknownHash` if HKDF's hash is unknown and `UnsupportedHash` if it is SHA-224: the
/// draws were taken and nothing was written. `WriteFault` if the sink failed: it has a prefix of the front.
pub fn begin_stream<T: DerivesStreams, K: Sink>(
    alloc: Global,
    key: &T,
    draws: &mut Draws,
    sink: &mut K,
    aad: &[u8],
) -> Result<SegmentWriter<StreamSegment>, TinkError>
    ensures answer { MatchResult result
        (λ w. IsNewStream (T.key_of key.now) aad.now draws.old draws.new (K.got sink.old)
        (numbered (segment_by w.sealer.encrypter) w.sealer.nonce_size w.sealer.prefix.items) w.sealer.first
        w.sealer.room
        (record {
          mode = w.mode;
          number = w.segments;
          held = held_text w;
          got = K.got sink.new;
          faults = K.faults
              sink.new;
        }))
        (λ e. NewWriterRefused K.got K.faults (T.key_of key.now) aad.now draws.old draws.new sink.old sink.new e.kind) }
    ensures memory { IfOk result (λ w. writer_memory w ≡ writer_room (T.key_of key.now)) }
    ensures later { K.faults sink.old ≤ K.faults sink.new }
    ensures same { K.same sink.old sink.new }
{
    let NewStream { front, writer } = prepare_stream(alloc, key, draws, aad)?;
    front.write(sink)?;
    Ok(writer)
}

/// A writer of a new stream into `w`, whose front is written.
///
/// # Errors
/// Those of `begin_stream`. The refusal hands back `w`.
pub fn new_encrypting_writer<T: DerivesStreams, K: Sink + Drop>(
    alloc: Global,
    key: &T,
    draws: &mut Draws,
    w: K,
    aad: &[u8],
) -> Result<Writer<K, StreamSegment>, Refused<K>>
    ensures answer { NewWriterMeans K.got K.faults (T.key_of key.now) aad.now draws.old draws.new w result }
    ensures later { K.faults w ≤ K.faults (sink_of result) }
    ensures same { K.same w (sink_of result) }
    ensures memory { IfOk result (λ w. w.memory ≡ writer_room (T.key_of key.now)) }
    ensures ends { IsEndOf draws.new draws.old }
{
    let mut sink = w;
    match begin_stream(alloc, key, draws, &mut sink, aad) {
        Ok(inner) => Ok(Writer::over(sink, inner)),
        Err(error) => Err(Refused { error, inner: sink }),
    }
}
