//! The caller that the README of `tink_streaming_keys` shows.

ghost use Rattle.std.specs.Prelude.{IfOk};
ghost use Rattle.std.specs.Io.KnownBytes.{Appends};
ghost use Rattle.stream_model.specs.Key.{front};
ghost use Rattle.stream_model.specs.Sealing.{nonce_prefix_of, salt_of};

use std::alloc::Global;
use tink_io::{Draws, Sink};
use tink_primitives::Refused;
use tink_streaming_ciphers::StreamSegment;
use tink_streaming_io::Writer;
use tink_streaming_keys::AesGcmHkdf;

// A new stream of a key. After `Ok` the sink got the key's header, of the first draws.
pub fn new_stream<K: Sink + Drop>(
    alloc: Global,
    key: &AesGcmHkdf,
    draws: &mut Draws,
    sink: K,
    additional_data: &[u8],
) -> Result<Writer<K, StreamSegment>, Refused<K>>
    ensures header { IfOk result (λ w. Appends (K.got sink) (K.got w.sink)
        (front key.now (salt_of key.now draws.old) (nonce_prefix_of key.now draws.old))) }
{
    key.new_encrypting_writer(alloc, draws, sink, additional_data)
}
