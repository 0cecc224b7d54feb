//! Reading one more content into the field of a message, for each kind of field.

ghost use Rattle.std.specs.Prelude.{◌≡◌, None, OnErr};
ghost use Rattle.wire_format.specs.Message.{as_number, as_enum, as_bytes, as_text};
ghost use Rattle.wire_format.specs.Values.{pushed, merged};
ghost use Rattle.tink_proto.specs.View.{content_of};
ghost use Rattle.tink_proto.specs.Outcome.{Becomes};
ghost use Rattle.tink_proto.specs.declared.error.ProtoError.TheVariants.{BadMessage};

use crate::wire::{Content, Message, read_fields};
use crate::{Bytes, ProtoError, Repeated, Text};
use std::alloc::Global;
use wire_format::take_or_start;

/// Reads a number of 32 bits into a field.
///
/// # Errors
/// `BadMessage` exactly if the content is no varint. The field is then as before.
pub fn read_number(slot: &mut u32, content: &Content) -> Result<(), ProtoError>
    ensures reads { Becomes BadMessage result slot.new (as_number (content_of content.now)) }
    ensures err { OnErr result (slot.new ≡ slot.old) }
{
    *slot = content.number()?;
    Ok(())
}

/// Reads the number of an enum into a field.
///
/// # Errors
/// `BadMessage` exactly if the content is no varint. The field is then as before.
pub fn read_enum(slot: &mut i32, content: &Content) -> Result<(), ProtoError>
    ensures reads { Becomes BadMessage result slot.new (as_enum (content_of content.now)) }
    ensures err { OnErr result (slot.new ≡ slot.old) }
{
    *slot = content.enum_number()?;
    Ok(())
}

/// Reads bytes into a field.
///
/// # Errors
/// `BadMessage` exactly if the content is no body, or `OutOfMemory`. The field is then as before.
pub fn read_bytes(slot: &mut Bytes, alloc: Global, content: &Content) -> Result<(), ProtoError>
    ensures reads { Becomes BadMessage result slot.new (as_bytes (content_of content.now)) }
    ensures err { OnErr result (slot.new ≡ slot.old) }
{
    *slot = Bytes::from_slice(alloc, content.body()?)?;
    Ok(())
}

/// Reads text into a field.
///
/// # Errors
/// `BadMessage` exactly if the content is no body in UTF-8, or `OutOfMemory`. The field is then as before.
pub fn read_text(slot: &mut Text, alloc: Global, content: &Content) -> Result<(), ProtoError>
    ensures reads { Becomes BadMessage result slot.new (as_text (content_of content.now)) }
    ensures err { OnErr result (slot.new ≡ slot.old) }
{
    *slot = Text::from_str(alloc, content.text()?)?;
    Ok(())
}

/// Reads a body into the message of a field, or into a new one if the field has none.
///
/// # Errors
/// `BadMessage` if the content is no body or a body that is not the message, or `OutOfMemory`. The field has no
/// message then.
pub fn read_message<M: Message>(
    slot: &mut Option<M>,
    alloc: Global,
    content: &Content,
) -> Result<(), ProtoError>
    ensures reads { Becomes BadMessage result slot.new
        (merged (M.table).step (M.table).start slot.old (content_of content.now)) }
    ensures err { OnErr result (slot.new ≡ None) }
{
    let mut message = take_or_start(slot, M::new(alloc));
    read_fields(&mut message, alloc, content.body()?)?;
    *slot = Some(message);
    Ok(())
}

/// Reads a body as one more message of a list.
///
/// # Errors
/// `BadMessage` if the content is no body or a body that is not the message, or `OutOfMemory`. The list is then as
/// before.
pub fn read_list<M: Message>(
    list: &mut Repeated<M>,
    alloc: Global,
    content: &Content,
) -> Result<(), ProtoError>
    ensures reads { Becomes BadMessage result list.new (pushed (M.table).read list.old (content_of content.now)) }
    ensures err { OnErr result (list.new ≡ list.old) }
{
    let message = M::decode(alloc, content.body()?)?;
    list.push(message)?;
    Ok(())
}
