//! Messages again.

ghost use Rattle.std.specs.Prelude.{◌≡◌, IfOk, IfErr};
ghost use Rattle.tink_io.specs.declared.error.Kind.TheVariants.{OutOfMemory};

use std::alloc::Global;
use tink_io::{Kind, TinkError};
use tink_proto::Message;

/// An equal message.
///
/// # Errors
/// `OutOfMemory` alone.
pub fn copy<M: Message>(alloc: Global, message: &M) -> Result<M, TinkError>
    ensures same { IfOk result (λ m. m ≡ message.now) }
    ensures err { IfErr result (λ e. e ≡ record { kind = OutOfMemory }) }
{
    match message.try_clone(alloc) {
        Ok(copied) => Ok(copied),
        Err(_) => Err(TinkError::new(Kind::OutOfMemory)),
    }
}

/// Equal messages, in the same order.
///
/// # Errors
/// `OutOfMemory` alone.
pub fn copy_all<M: Message>(alloc: Global, messages: &[M]) -> Result<Vec<M>, TinkError>
    ensures same { IfOk result (λ ms. ms.items ≡ messages.now) }
    ensures err { IfErr result (λ e. e ≡ record { kind = OutOfMemory }) }
{
    let mut copied = Vec::new(alloc);
    for message in messages {
        match copy(alloc, message) {
            Ok(more) => copied.push(more)?,
            Err(e) => return Err(e),
        }
    }
    Ok(copied)
}
