//! Members of an object from fields.

ghost use Rattle.std.specs.Prelude.{◌≡◌, IfOk, OnOk, map};
ghost use Rattle.serde_json.specs.Data.{array, string, put as with_member};
ghost use Rattle.serde_json.specs.View.{items_of, items_view, members_view};
ghost use Rattle.tink_json.specs.Written.{bytes_value, enum_value};

use crate::messages::Json;
use crate::names::Named;
use base64::engine::general_purpose::STANDARD;
use serde_json::{Map, Value, put};
use std::alloc::{AllocError, Global};
use tink_proto::{Bytes, Repeated, Text};

/// The members of an object, by their names.
pub type Members = Map<String, Value>;

/// Adds a member: a text.
///
/// # Errors
/// `AllocError` if there is no memory.
pub fn put_text(
    members: &mut Members,
    alloc: Global,
    name: &str,
    text: &Text,
) -> Result<(), AllocError>
    ensures { OnOk result (members_view members.new.entries
        ≡ with_member name.now (string text.now) (members_view members.old.entries)) }
{
    put(
        members,
        alloc,
        name,
        Value::try_from_str(alloc, text.as_str())?,
    )
}

/// Adds a member: bytes in base 64 (RFC 4648, section 4).
///
/// # Errors
/// `AllocError` if there is no memory.
pub fn put_bytes(
    members: &mut Members,
    alloc: Global,
    name: &str,
    bytes: &Bytes,
) -> Result<(), AllocError>
    ensures { OnOk result (members_view members.new.entries
        ≡ with_member name.now (bytes_value bytes.now) (members_view members.old.entries)) }
{
    let text = STANDARD.encode(alloc, bytes.as_slice())?;
    put(members, alloc, name, Value::String(text))
}

/// Adds a member: the name of an enum's number, or the number if it has no name.
///
/// # Errors
/// `AllocError` if there is no memory.
pub fn put_enum<N: Named>(
    members: &mut Members,
    alloc: Global,
    name: &str,
    number: i32,
) -> Result<(), AllocError>
    ensures { OnOk result (members_view members.new.entries
        ≡ with_member name.now (enum_value N.names number) (members_view members.old.entries)) }
{
    match N::name(number) {
        Some(text) => put(members, alloc, name, Value::try_from_str(alloc, text)?),
        None => put(members, alloc, name, Value::from(number)),
    }
}

/// Adds a member: the list of the values of messages.
///
/// # Errors
/// `AllocError` if there is no memory.
pub fn put_list<M: Json>(
    members: &mut Members,
    alloc: Global,
    name: &str,
    messages: &Repeated<M>,
) -> Result<(), AllocError>
    ensures { OnOk result (members_view members.new.entries
        ≡ with_member name.now (array (items_of (map M.value messages.now)))
        (members_view members.old.entries)) }
{
    let values = items_out(alloc, messages.as_slice())?;
    put(members, alloc, name, Value::Array(values))
}

// The values of messages.
fn items_out<M: Json>(alloc: Global, messages: &[M]) -> Result<Vec<Value>, AllocError>
    ensures { IfOk result (λ vs. items_view vs.items ≡ items_of (map M.value messages.now)) }
{
    let mut values = Vec::new(alloc);
    for message in messages {
        values.push(message.to_value(alloc)?)?;
    }
    Ok(values)
}
