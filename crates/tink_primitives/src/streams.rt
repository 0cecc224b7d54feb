//! Encryption of streams.

ghost use Rattle.std.specs.Prelude.{◌≤◌, length, IfOk, IfErr};
ghost use Rattle.std.specs.Io.{ReadsAtMost, WritesAtMost};
ghost use Rattle.tink_primitives.specs.Meaning.{IsEndOf};

use std::alloc::Global;
use tink_io::{Draws, Sink, Source, TinkError};

/// A refusal that hands back what was given.
#[derive(Drop)]
pub struct Refused<T> {
    /// The error.
    pub error: TinkError,
    /// The source or the sink that was given.
    pub inner: T,
}

/// A writer that encrypts what it is given. The stream is whole only after `close`. What it writes
/// its own type says.
pub trait EncryptingWrite {
    /// Takes the first bytes of `buf`, and answers how many.
    ///
    /// # Errors
    /// Those that its type lists.
    fn write(&mut self, buf: &[u8]) -> Result<usize, TinkError>
        ensures bound { WritesAtMost result buf.now };

    /// Its type says what a flush does.
    ///
    /// # Errors
    /// Those that its type lists.
    fn flush(&mut self) -> Result<(), TinkError>;

    /// Writes what ends the stream.
    ///
    /// # Errors
    /// Those that its type lists.
    fn close(&mut self) -> Result<(), TinkError>;
}

/// A reader of what a stream opens to, as its own type says.
pub trait DecryptingRead {
    /// Moves the next bytes of the text to the beginning of `buf`, and answers how many.
    ///
    /// # Errors
    /// Those that its type lists.
    fn read(&mut self, buf: &mut [u8]) -> Result<usize, TinkError>
        ensures bound { ReadsAtMost result buf.new };
}

/// Encryption of streams with associated data, into sinks of type `K` and from sources of type `S`.
pub trait StreamingAead<S: Source, K: Sink> {
    type Writer: EncryptingWrite;

    type Reader: DecryptingRead;

    /// A writer of a new stream into `w`.
    ///
    /// # Errors
    /// Those that its type lists. The error hands back a sink that is `same` as `w`: the sink's type says by this word
    /// what no call changes.
    fn new_encrypting_writer(
        &self,
        alloc: Global,
        draws: &mut Draws,
        w: K,
        additional_data: &[u8],
    ) -> Result<Self::Writer, Refused<K>>
        ensures same { IfErr result (λ refused. K.same w refused.inner) }
        ensures ends { IsEndOf draws.new draws.old };

    /// A reader of the stream in `r`.
    ///
    /// # Errors
    /// Those that its type lists. The error hands back a source that is `same` as `r`: the source's type says by this
    /// word what no call changes.
    fn new_decrypting_reader(
        &self,
        alloc: Global,
        r: S,
        additional_data: &[u8],
    ) -> Result<Self::Reader, Refused<S>>
        ensures same { IfErr result (λ refused. S.same r refused.inner) };
}
