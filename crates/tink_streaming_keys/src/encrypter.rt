//! The cipher that makes a stream's segments, by the stream's header.

ghost use Rattle.tink_streaming_keys.specs.Decrypters.{DecrypterMeans};
ghost use Rattle.tink_streaming_keys.specs.StreamKinds.{key_of};

use crate::decrypter::decrypter_of;
use crate::stream_kind::StreamKind;
use tink_io::TinkError;
use tink_streaming_ciphers::StreamSegment;

/// What makes the segments of a stream, of either kind.
pub type StreamEncrypter = StreamSegment;

impl StreamKind {
    /// The cipher that makes the segments of the key's stream with this header, which is the one that opens them.
    ///
    /// # Errors
    /// `NoMatchingKey` exactly if the bytes are no header of the key. Then `UnknownHash` exactly if HKDF's hash is
    /// unknown, and `UnsupportedHash` exactly if it is SHA-224.
    pub fn encrypter(&self, header: &[u8], aad: &[u8]) -> Result<StreamEncrypter, TinkError>
        ensures answer { DecrypterMeans (key_of self.now) aad.now header.now result }
    {
        decrypter_of(self, header, aad)
    }
}
