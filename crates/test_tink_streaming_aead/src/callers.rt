//! The caller that the README of `tink_streaming_aead` shows.

ghost use Rattle.std.specs.Prelude.{◌≡◌, IfOk};
ghost use Rattle.tink_streaming_aead.specs.DecryptReaders.{source_in};

use std::alloc::Global;
use tink_io::Source;
use tink_primitives::Refused;
use tink_streaming_aead::{DecryptReader, WrappedStreamingAead};

// A reader of a stream by the keys of a keyset. After `Ok` nothing was read yet.
pub fn stream_in<S: Source + Drop>(
    alloc: Global,
    aeads: &WrappedStreamingAead,
    source: S,
    additional_data: &[u8],
) -> Result<DecryptReader<S>, Refused<S>>
    ensures unread { IfOk result (λ reader. source_in reader ≡ source) }
{
    aeads.new_decrypting_reader(alloc, source, additional_data)
}
