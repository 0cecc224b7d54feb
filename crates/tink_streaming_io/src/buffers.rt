ghost use Rattle.std.specs.Prelude.{◌≡◌, ◌+◌, [], IfOk, IfErr, vec_len, vec_capacity};
ghost use Rattle.tink_io.specs.declared.error.Kind.TheVariants.{OutOfMemory};

use std::alloc::Global;
use tink_io::TinkError;
use tink_streaming_segment::zeros;

/// The memory of a reader: a text, a segment and a nonce.
#[derive(Drop)]
pub struct Buffers {
    /// The text of a segment.
    pub text: Vec<u8>,
    /// A segment, and a byte behind it.
    pub sealed: Vec<u8>,
    /// A nonce.
    pub nonce: Vec<u8>,
}

impl Buffers {
    /// Room for a segment of `c` bytes and one more, for its text, and for a nonce, and no more than that.
    ///
    /// # Errors
    /// OutOfMemory.
    pub fn reserve(alloc: Global, c: u32, nonce_size: usize) -> Result<Buffers, TinkError>
        ensures text { IfOk result (λ b. (b.text.items ≡ []) × (vec_capacity b.text ≡ c + 1)) }
        ensures sealed { IfOk result (λ b. (vec_len b.sealed ≡ c + 1) × (vec_capacity b.sealed ≡ c + 1)) }
        ensures nonce { IfOk result (λ b. (vec_len b.nonce ≡ nonce_size) × (vec_capacity b.nonce ≡ nonce_size)) }
        ensures refused { IfErr result (λ e. e ≡ record { kind = OutOfMemory }) }
    {
        let size = c as usize + 1;
        let text = Vec::with_capacity(alloc, size)?;
        let sealed = zeros(alloc, size)?;
        let nonce = zeros(alloc, nonce_size)?;
        Ok(Buffers {
            text,
            sealed,
            nonce,
        })
    }
}

/// The memory of a writer: a segment, in whose place its text is held, and a nonce.
#[derive(Drop)]
pub struct WriterBuffers {
    /// A segment, in whose place its text is held.
    pub segment: Vec<u8>,
    /// A nonce.
    pub nonce: Vec<u8>,
}

impl WriterBuffers {
    /// Room for a segment of `c` bytes, and for a nonce, and no more than that.
    ///
    /// # Errors
    /// OutOfMemory.
    pub fn reserve(alloc: Global, c: u32, nonce_size: usize) -> Result<WriterBuffers, TinkError>
        ensures segment { IfOk result (λ b. (vec_len b.segment ≡ c) × (vec_capacity b.segment ≡ c)) }
        ensures nonce { IfOk result (λ b. (vec_len b.nonce ≡ nonce_size) × (vec_capacity b.nonce ≡ nonce_size)) }
        ensures refused { IfErr result (λ e. e ≡ record { kind = OutOfMemory }) }
    {
        let segment = zeros(alloc, c as usize)?;
        let nonce = zeros(alloc, nonce_size)?;
        Ok(WriterBuffers { segment, nonce })
    }
}
