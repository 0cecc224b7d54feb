//! Messages as they are written, and as they are read from bytes.

use std::alloc::Global;
use std::process::Abort;
use tink_proto::{Message, ProtoError};

/// Whether a row is as it says, or how its bytes are refused.
pub type Answer = Result<bool, ProtoError>;

/// Stops where a row answers another thing than is wanted. A test with many `assert_eq!` takes long to prove.
pub fn expect(rt: &impl Abort, got: Answer, want: Answer, row: &str) {
    assert_eq!(rt; got, want, "{row}");
}

/// Whether the message is written as the bytes.
pub fn is_written<M: Message>(alloc: Global, message: &M, bytes: &[u8]) -> Answer {
    match message.encode(alloc) {
        Ok(written) => Ok(written.as_slice() == bytes),
        Err(e) => Err(e),
    }
}

fn is_copy_written<M: Message>(alloc: Global, message: &M, bytes: &[u8]) -> Answer {
    match message.try_clone(alloc) {
        Ok(copy) => is_written(alloc, &copy, bytes),
        Err(e) => Err(e),
    }
}

/// Whether a copy of the message that the bytes spell is written as `want`.
pub fn is_written_as<M: Message>(alloc: Global, bytes: &[u8], want: &[u8]) -> Answer {
    match M::decode(alloc, bytes) {
        Ok(message) => is_copy_written(alloc, &message, want),
        Err(e) => Err(e),
    }
}

/// Whether the message is written as the bytes, and they are read as one that is.
pub fn spells<M: Message>(alloc: Global, message: M, bytes: &[u8]) -> Answer {
    match is_written(alloc, &message, bytes) {
        Ok(true) => is_written_as::<M>(alloc, bytes, bytes),
        other => other,
    }
}
