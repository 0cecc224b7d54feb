//! Why a message was not read, or not copied.

ghost use Rattle.std.specs.Prelude.{◌≡◌};
ghost use Rattle.tink_proto.specs.declared.error.ProtoError.TheVariants.{OutOfMemory};

use std::alloc::{AllocError, AllocFailed};
use std::error::Error;
use std::fmt;

/// Why a message was not read, or not copied.
#[derive(Clone, Copy, Debug, PartialEq, Eq)]
pub enum ProtoError {
    /// The bytes are not the message in the wire format.
    BadMessage,
    /// The text is not the message in JSON.
    BadJson,
    /// There is no memory for the message.
    OutOfMemory,
}

impl fmt::Display for ProtoError {
    fn fmt<W: fmt::Write>(&self, f: &mut fmt::Formatter<W>) -> fmt::Result {
        f.write_str(match self {
            ProtoError::BadMessage => "the bytes are not a message",
            ProtoError::BadJson => "the text is not a message in JSON",
            ProtoError::OutOfMemory => "out of memory",
        })
    }
}

impl Error for ProtoError {}

impl From<AllocError> for ProtoError {
    ghost from_gives = { λ _ e. e ≡ OutOfMemory };

    fn from(_e: AllocError) -> ProtoError {
        ProtoError::OutOfMemory
    }
}

impl<T: Drop> From<AllocFailed<T>> for ProtoError {
    ghost from_gives = { λ _ e. e ≡ OutOfMemory };

    fn from(_e: AllocFailed<T>) -> ProtoError {
        ProtoError::OutOfMemory
    }
}
