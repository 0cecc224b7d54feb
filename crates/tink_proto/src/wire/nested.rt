//! Copies of messages within messages.

ghost use Rattle.std.specs.Prelude.{◌≡◌, IfOk, IfErr};

use crate::wire::Message;
use crate::{ProtoError, Repeated};
use std::alloc::Global;

/// Equal messages, in the same order.
///
/// # Errors
/// `OutOfMemory` alone.
pub fn clone_list<M: Message>(
    messages: &Repeated<M>,
    alloc: Global,
) -> Result<Repeated<M>, ProtoError>
    ensures same { IfOk result (λ ms. ms ≡ messages.now) }
    ensures err { IfErr result (λ e. e ≡ ProtoError.OutOfMemory) }
{
    let messages = messages.as_slice();
    let mut out = Repeated::new(alloc);
    for message in messages {
        let copy = message.try_clone(alloc)?;
        out.push(copy)?;
    }
    Ok(out)
}

/// An equal message, if there is one.
///
/// # Errors
/// `OutOfMemory` alone.
pub fn clone_option<M: Message>(message: &Option<M>, alloc: Global) -> Result<Option<M>, ProtoError>
    ensures same { IfOk result (λ o. o ≡ message.now) }
    ensures err { IfErr result (λ e. e ≡ ProtoError.OutOfMemory) }
{
    match message {
        None => Ok(None),
        Some(message) => Ok(Some(message.try_clone(alloc)?)),
    }
}
