//! What a sink in memory got.

ghost use Rattle.tink_c_bytes.specs.Taken.{IsTaken};

use crate::growing::Growing;
use tink_io::{Kind, TinkError};
use tink_proto::Bytes;

/// The bytes that a sink got of a call with this answer.
///
/// # Errors
/// `OutOfMemory` if a write to the sink failed; else that of the call.
pub fn take_bytes<T: Drop>(answer: Result<T, TinkError>, sink: Growing) -> Result<Bytes, TinkError>
    ensures { IsTaken answer sink result }
{
    if !sink.is_intact() {
        return Err(TinkError::new(Kind::OutOfMemory));
    }
    match answer {
        Ok(_) => Ok(Bytes::from_vec(sink.into_bytes())),
        Err(e) => Err(e),
    }
}
