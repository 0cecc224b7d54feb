ghost use Rattle.std.specs.Prelude.{◌≡◌, ◌≤◌, ◌+◌, [], IfOk, IfErr, vec_len, vec_capacity};
ghost use Rattle.stream_model.specs.Key.{nonce_size};
ghost use Rattle.tink_io.specs.declared.error.Kind.TheVariants.{OutOfMemory};

use crate::stream_params::DerivesStreams;
use std::alloc::Global;
use tink_io::TinkError;
use tink_streaming_io::{Buffers, WriterBuffers};

/// The bytes of a nonce prefix.
pub const PREFIX: usize = 7;

/// The bytes of a header at most: a byte of length, a salt of 32 bytes and a nonce prefix of 7.
pub const MAX_HEADER: usize = 40;

/// All memory that a reader of a stream under a key takes.
#[derive(Drop)]
pub struct ReaderMemory {
    /// The memory of a text, a segment and a nonce.
    pub buffers: Buffers,
    /// The memory of a nonce prefix: 7 bytes.
    pub prefix: Vec<u8>,
}

impl ReaderMemory {
    /// The memory of the key's sizes.
    ///
    /// # Errors
    /// `OutOfMemory` alone.
    pub fn reserve<T: DerivesStreams>(alloc: Global, key: &T) -> Result<ReaderMemory, TinkError>
        ensures text { IfOk result (λ m. (m.buffers.text.items ≡ [])
            × (vec_capacity m.buffers.text ≡ (T.key_of key.now).segment + 1)) }
        ensures sealed { IfOk result (λ m. (vec_len m.buffers.sealed ≡ (T.key_of key.now).segment + 1)
            × (vec_capacity m.buffers.sealed ≡ (T.key_of key.now).segment + 1)) }
        ensures nonce { IfOk result (λ m. (vec_len m.buffers.nonce ≡ nonce_size (T.key_of key.now))
            × (vec_capacity m.buffers.nonce ≡ nonce_size (T.key_of key.now))) }
        ensures prefix { IfOk result (λ m. vec_capacity m.prefix ≡ 7) }
        ensures refused { IfErr result (λ e. e ≡ record { kind = OutOfMemory }) }
    {
        let buffers = Buffers::reserve(alloc, key.segment_size(), key.nonce_size())?;
        let prefix = Vec::with_capacity(alloc, PREFIX)?;
        Ok(ReaderMemory { buffers, prefix })
    }
}

/// All memory that a writer of a stream under a key takes.
#[derive(Drop)]
pub struct WriterMemory {
    /// The memory of a segment and a nonce.
    pub buffers: WriterBuffers,
    /// The memory of a nonce prefix: 7 bytes.
    pub prefix: Vec<u8>,
}

impl WriterMemory {
    /// The memory of the key's sizes.
    ///
    /// # Errors
    /// `OutOfMemory` alone.
    pub fn reserve<T: DerivesStreams>(alloc: Global, key: &T) -> Result<WriterMemory, TinkError>
        ensures segment { IfOk result (λ m. (vec_len m.buffers.segment ≡ (T.key_of key.now).segment)
            × (vec_capacity m.buffers.segment ≡ (T.key_of key.now).segment)) }
        ensures nonce { IfOk result (λ m. (vec_len m.buffers.nonce ≡ nonce_size (T.key_of key.now))
            × (vec_capacity m.buffers.nonce ≡ nonce_size (T.key_of key.now))) }
        ensures prefix { IfOk result (λ m. vec_capacity m.prefix ≡ 7) }
        ensures refused { IfErr result (λ e. e ≡ record { kind = OutOfMemory }) }
    {
        let buffers = WriterBuffers::reserve(alloc, key.segment_size(), key.nonce_size())?;
        let prefix = Vec::with_capacity(alloc, PREFIX)?;
        Ok(WriterMemory { buffers, prefix })
    }
}
