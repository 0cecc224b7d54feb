//! A key of streams by one kind of segments.

ghost use Rattle.std.specs.Prelude.{◌≡◌, Ok};
ghost use Rattle.stream_model.specs.Key.{header_length};
ghost use Rattle.tink_io.specs.Answering.{Answers};
ghost use Rattle.tink_streaming_keys.specs.Decrypting.{StartsReader};
ghost use Rattle.tink_streaming_keys.specs.Encrypting.{StartsWriter};
ghost use Rattle.tink_streaming_keys.specs.StreamingKeys.{with_main};

use crate::decrypting::new_decrypting_reader;
use crate::encrypting::new_encrypting_writer;
use crate::stream_params::{DerivesStreams, StreamParams};
use std::alloc::Global;
use std::marker::{Model, PhantomData};
use tink_io::{Draws, Sink, Source, TinkError};
use tink_primitives::{CloneIn, Refused, StreamingAead};
use tink_streaming_ciphers::StreamSegment;
use tink_streaming_io::{Reader, Writer};

/// A key of streams whose segments are by the cipher `C`. The keys of a stream are derived from the main key by HKDF
/// (RFC 5869).
///
/// A contract sees a key of streams with nothing before their header.
#[derive(Drop)]
pub struct StreamingKey<C> {
    /// The bytes from which keys are derived.
    pub main_key: Vec<u8>,
    params: StreamParams,
    segments: PhantomData<C>,
}

impl<C> Model for StreamingKey<C> {
    ghost use Rattle.stream_model.specs.Key.{StreamKey, IsUsable};
    ghost use Rattle.tink_streaming_keys.specs.StreamingKeys.{with_main};

    ghost Value = { StreamKey };

    ghost view = { λ k. with_main k.main_key.items k.params };

    ghost invariant = { λ k. IsUsable (with_main k.main_key.items k.params) };
}

impl<C> StreamingKey<C> {
    // The key of this main key, with these hashes and sizes.
    pub(crate) fn with_main(
        alloc: Global,
        main_key: &[u8],
        params: StreamParams,
    ) -> Result<StreamingKey<C>, TinkError>
        ensures { Answers result (Ok (with_main main_key.now params)) }
    {
        Ok(StreamingKey {
            main_key: main_key.to_vec(alloc)?,
            params,
            segments: PhantomData,
        })
    }

    /// The bytes of a stream's header: a byte, a salt and a prefix of seven.
    pub fn header_length(&self) -> usize
        ensures { result ≡ header_length self.now }
    {
        DerivesStreams::header_length(self)
    }

    /// A writer of a new stream into `w`, whose header is written: its salt and its prefix are the first draws. All
    /// memory is taken first.
    ///
    /// # Errors
    /// The refusal hands back `w`. `OutOfMemory`, with nothing drawn or written; then the first that applies:
    /// `RandomFault` exactly if fewer draws are left than a salt and seven bytes: none is taken. `UnknownHash`
    /// exactly if HKDF's hash is unknown, and `UnsupportedHash` exactly if it is SHA-224, with the draws taken and
    /// nothing written. `WriteFault` if the sink failed: it has a prefix of the header.
    pub fn new_encrypting_writer<K: Sink + Drop>(
        &self,
        alloc: Global,
        draws: &mut Draws,
        w: K,
        additional_data: &[u8],
    ) -> Result<Writer<K, StreamSegment>, Refused<K>>
        ensures answer { StartsWriter K.got K.faults K.same self.now additional_data.now draws.old draws.new w result }
    {
        new_encrypting_writer(alloc, self, draws, w, additional_data)
    }

    /// A reader of the stream in `r`, whose header is read. All memory is taken first.
    ///
    /// # Errors
    /// The refusal hands back `r`. `OutOfMemory`, with nothing read. `ReadFault` if the source failed: no more than a
    /// header's bytes were read. `NoMatchingKey` exactly if the header is missing, short or of another length.
    /// `UnknownHash` exactly if HKDF's hash is unknown, and `UnsupportedHash` exactly if it is SHA-224.
    pub fn new_decrypting_reader<S: Source + Drop>(
        &self,
        alloc: Global,
        r: S,
        additional_data: &[u8],
    ) -> Result<Reader<S, StreamSegment>, Refused<S>>
        ensures answer { StartsReader S.left S.faults S.same self.now additional_data.now r result }
    {
        new_decrypting_reader(alloc, self, r, additional_data)
    }
}

impl<C> DerivesStreams for StreamingKey<C> {
    ghost key_of = { λ k. k };

    fn main_key(&self) -> &[u8] {
        &self.main_key
    }

    fn params(&self) -> &StreamParams {
        &self.params
    }

    fn output_prefix(&self) -> &[u8] {
        &self.main_key[..0]
    }
}

impl<C> CloneIn for StreamingKey<C> {
    fn try_clone(&self, alloc: Global) -> Result<Self, TinkError> {
        StreamingKey::with_main(alloc, &self.main_key, self.params.same())
    }
}

impl<C, S: Source + Drop, K: Sink + Drop> StreamingAead<S, K> for StreamingKey<C> {
    type Writer = Writer<K, StreamSegment>;

    type Reader = Reader<S, StreamSegment>;

    fn new_encrypting_writer(
        &self,
        alloc: Global,
        draws: &mut Draws,
        w: K,
        additional_data: &[u8],
    ) -> Result<Writer<K, StreamSegment>, Refused<K>>
        ensures answer { StartsWriter K.got K.faults K.same self.now additional_data.now draws.old draws.new w result }
    {
        StreamingKey::new_encrypting_writer(self, alloc, draws, w, additional_data)
    }

    fn new_decrypting_reader(
        &self,
        alloc: Global,
        r: S,
        additional_data: &[u8],
    ) -> Result<Reader<S, StreamSegment>, Refused<S>>
        ensures answer { StartsReader S.left S.faults S.same self.now additional_data.now r result }
    {
        StreamingKey::new_decrypting_reader(self, alloc, r, additional_data)
    }
}
