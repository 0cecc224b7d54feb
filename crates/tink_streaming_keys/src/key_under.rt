ghost use Rattle.std.specs.Prelude.{◌≡◌};

use crate::stream_memory::PREFIX;
use crate::stream_params::DerivesStreams;
use tink_streaming_ciphers::StreamSegment;
use tink_streaming_io::OpensStreams;

/// A key, and the associated data of streams that it may have made.
#[derive(Drop)]
pub struct KeyUnder<'a, T> {
    /// The key.
    pub key: &'a T,
    /// The associated data.
    pub aad: &'a [u8],
}

impl<'a, T: DerivesStreams> OpensStreams<StreamSegment> for KeyUnder<'a, T> {
    ghost use Rattle.stream_model.specs.Key as keys;
    ghost use Rattle.stream_model.specs.Opening as opening;

    ghost opening_key = { λ k. opening.opening_key k.aad.now (T.key_of k.key.now) };

    ghost nonce_of = { λ k. keys.nonce_size (T.key_of k.key.now) };

    fn output_prefix(&self) -> &[u8] {
        self.key.output_prefix()
    }

    fn header_length(&self) -> usize {
        self.key.header_length()
    }

    fn segment_size(&self) -> u32 {
        self.key.segment_size()
    }

    fn first_segment_size(&self) -> u32 {
        self.key.first_segment_size()
    }

    fn nonce_size(&self) -> usize {
        self.key.nonce_size()
    }

    fn derive(&self, header: &[u8]) -> Option<StreamSegment> {
        let end = self.key.header_length() - PREFIX;
        match self.key.derive(&header[1..end], self.aad) {
            Ok(cipher) => Some(cipher),
            Err(_) => None,
        }
    }
}
