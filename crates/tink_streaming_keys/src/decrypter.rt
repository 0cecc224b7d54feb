//! The cipher of a stream's segments, by the stream's header.

ghost use Rattle.std.specs.Prelude.{◌≡◌, IfErr, None};
ghost use Rattle.stream_model.specs.Opening.{opening_key};
ghost use Rattle.tink_streaming_keys.specs.Decrypters.{DecrypterMeans, IsHeader};
ghost use Rattle.tink_streaming_keys.specs.StreamKinds.{key_of};

use crate::stream_kind::StreamKind;
use crate::stream_memory::PREFIX;
use crate::stream_params::DerivesStreams;
use tink_io::{Kind, TinkError};
use tink_streaming_ciphers::StreamSegment;

/// What opens the segments of a stream, of either kind.
pub type StreamDecrypter = StreamSegment;

/// The cipher of the segments of a key's stream with this header. HKDF derives its keys with the header's salt and
/// the associated data.
///
/// # Errors
/// `NoMatchingKey` exactly if the bytes are no header of the key: they are more or fewer, or the first one is not
/// their number. Then `UnknownHash` exactly if HKDF's hash is unknown, and `UnsupportedHash` exactly if it is
/// SHA-224.
pub fn decrypter_of<T: DerivesStreams>(
    key: &T,
    header: &[u8],
    aad: &[u8],
) -> Result<StreamDecrypter, TinkError>
    ensures answer { DecrypterMeans (T.key_of key.now) aad.now header.now result }
    ensures none { IfErr result (λ _. IsHeader (T.key_of key.now) header.now
        → (opening_key aad.now (T.key_of key.now)).seg header.now ≡ None) }
{
    let size = key.header_length();
    if header.len() != size {
        return Err(TinkError::new(Kind::NoMatchingKey));
    }
    if usize::from(header[0]) != size {
        return Err(TinkError::new(Kind::NoMatchingKey));
    }
    key.derive(&header[1..size - PREFIX], aad)
}

impl StreamKind {
    /// The cipher of the segments of the key's stream with this header, as `decrypter_of` gives it.
    ///
    /// # Errors
    /// `NoMatchingKey` exactly if the bytes are no header of the key. Then `UnknownHash` exactly if HKDF's hash is
    /// unknown, and `UnsupportedHash` exactly if it is SHA-224.
    pub fn decrypter(&self, header: &[u8], aad: &[u8]) -> Result<StreamDecrypter, TinkError>
        ensures answer { DecrypterMeans (key_of self.now) aad.now header.now result }
    {
        decrypter_of(self, header, aad)
    }
}
