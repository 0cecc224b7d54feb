//! Fields from the members of an object.

ghost use Rattle.std.specs.Prelude.{◌≡◌, option_and_then, option_map};
ghost use Rattle.std.specs.Char.{is_ascii_digit};
ghost use Rattle.std.specs.List.{list_all};
ghost use Rattle.serde_json.specs.Find.{as_i64, as_number, as_u64};
ghost use Rattle.serde_json.specs.View.{view, items_view};
ghost use Rattle.tink_json.specs.Fields.{an_object, bytes_field, enum_field, items, list_field, member_of};
ghost use Rattle.tink_json.specs.Fields.{message_field, number_field, number_text, text_field, to_i32, to_u32};
ghost use Rattle.tink_json.specs.Whole.{digits_number};
ghost use Rattle.tink_proto.specs.Outcome.{Reads, ReadsAs};
ghost use Rattle.tink_proto.specs.declared.error.ProtoError.TheVariants.{BadJson};

use crate::messages::Json;
use crate::names::Named;
use base64::DecodeAllocError;
use base64::engine::general_purpose::STANDARD;
use serde_json::Value;
use std::alloc::Global;
use tink_proto::{Bytes, ProtoError, Repeated, Text};

// A member by its two names; absent where it is null.
fn member<'v>(object: &'v Value, camel: &str, snake: &str) -> Option<&'v Value>
    ensures { option_map (λ v. view v.now) result ≡ member_of camel.now snake.now (view object.now) }
{
    let found = match object.get(camel) {
        Some(member) => member,
        None => object.get(snake)?,
    };
    if found.is_null() { None } else { Some(found) }
}

/// Whether a value is an object.
///
/// # Errors
/// `BadJson` exactly if it is none.
pub fn require_object(value: &Value) -> Result<(), ProtoError>
    ensures { Reads BadJson result (an_object (view value.now)) }
{
    if value.is_object() {
        Ok(())
    } else {
        Err(ProtoError::BadJson)
    }
}

/// The text of a member, which has either name; empty if there is no member, or it is null.
///
/// # Errors
/// `BadJson` exactly if the member is no string, or `OutOfMemory`.
#[tactic(auto, unfolding(crate::specs::Fields::text_field))]
pub fn text_in(alloc: Global, object: &Value, camel: &str, snake: &str) -> Result<Text, ProtoError>
    ensures { Reads BadJson result (text_field camel.now snake.now (view object.now)) }
{
    let Some(value) = member(object, camel, snake) else {
        return Ok(Text::new(alloc));
    };
    match value.as_str() {
        Some(text) => Ok(Text::from_str(alloc, text)?),
        None => Err(ProtoError::BadJson),
    }
}

/// The bytes of a member, which has either name; none if there is no member, or it is null. They are in base 64 with
/// padding (RFC 4648, section 4).
///
/// # Errors
/// `BadJson` exactly if the member is no string of base 64, or `OutOfMemory`.
#[tactic(auto, unfolding(crate::specs::Fields::bytes_field))]
pub fn bytes_in(
    alloc: Global,
    object: &Value,
    camel: &str,
    snake: &str,
) -> Result<Bytes, ProtoError>
    ensures { Reads BadJson result (bytes_field camel.now snake.now (view object.now)) }
{
    let Some(value) = member(object, camel, snake) else {
        return Ok(Bytes::new(alloc));
    };
    let Some(text) = value.as_str() else {
        return Err(ProtoError::BadJson);
    };
    match STANDARD.decode(alloc, text.as_bytes()) {
        Ok(bytes) => Ok(Bytes::from_vec(bytes)),
        Err(DecodeAllocError::OutOfMemory) => Err(ProtoError::OutOfMemory),
        Err(DecodeAllocError::DecodeError(_)) => Err(ProtoError::BadJson),
    }
}

// Whether each byte is a decimal digit.
fn are_digits(bytes: &[u8]) -> bool
    ensures { result ≡ list_all is_ascii_digit bytes.now }
{
    bytes.iter().all(|byte| byte.is_ascii_digit())
}

/// The number that decimal digits spell, if it fits 64 bits.
pub fn digits_of_text(text: &str) -> Option<u64>
    ensures { result ≡ digits_number text.now }
{
    if are_digits(text.as_bytes()) {
        return text.parse::<u64>().ok();
    }
    None
}

// The number of decimal digits that fits 32 bits.
fn number_of_text(text: &str) -> Option<u32>
    ensures { result ≡ number_text text.now }
{
    let number = digits_of_text(text)?;
    u32::try_from(number).ok()
}

// A number of 32 bits as a whole number.
fn whole_number(value: &Value) -> Option<u32>
    ensures { result ≡ option_and_then to_u32 (option_and_then as_u64 (as_number (view value.now))) }
{
    let number = value.as_u64()?;
    u32::try_from(number).ok()
}

/// The number of 32 bits of a member, which has either name; 0 if there is no member, or it is null.
///
/// # Errors
/// `BadJson` exactly if the member is neither a whole number below 2^32 nor a string of its digits.
#[tactic(auto, unfolding(crate::specs::Fields::number_field))]
pub fn number_in(object: &Value, camel: &str, snake: &str) -> Result<u32, ProtoError>
    ensures { Reads BadJson result (number_field camel.now snake.now (view object.now)) }
{
    let Some(value) = member(object, camel, snake) else {
        return Ok(0);
    };
    if let Some(number) = whole_number(value) {
        return Ok(number);
    }
    let Some(text) = value.as_str() else {
        return Err(ProtoError::BadJson);
    };
    match number_of_text(text) {
        Some(number) => Ok(number),
        None => Err(ProtoError::BadJson),
    }
}

// An enum's number as a whole number.
fn whole_enum(value: &Value) -> Option<i32>
    ensures { result ≡ option_and_then to_i32 (option_and_then as_i64 (as_number (view value.now))) }
{
    let number = value.as_i64()?;
    i32::try_from(number).ok()
}

/// The number of an enum in a member, which has either name; 0 if there is no member, or it is null.
///
/// # Errors
/// `BadJson` exactly if the member is neither a whole number from -2^31 to 2^31 - 1 nor a name of the enum.
#[tactic(auto, unfolding(crate::specs::Fields::enum_field))]
pub fn enum_in<N: Named>(object: &Value, camel: &str, snake: &str) -> Result<i32, ProtoError>
    ensures { Reads BadJson result (enum_field N.names camel.now snake.now (view object.now)) }
{
    let Some(value) = member(object, camel, snake) else {
        return Ok(0);
    };
    if let Some(number) = whole_enum(value) {
        return Ok(number);
    }
    let Some(name) = value.as_str() else {
        return Err(ProtoError::BadJson);
    };
    match N::number(name) {
        Some(number) => Ok(number),
        None => Err(ProtoError::BadJson),
    }
}

/// The message of a member, which has either name; `None` if there is no member, or it is null.
///
/// # Errors
/// `BadJson` exactly if the member is not the message, or `OutOfMemory`.
#[tactic(auto, unfolding(crate::specs::Fields::message_field))]
pub fn message_in<M: Json>(
    alloc: Global,
    object: &Value,
    camel: &str,
    snake: &str,
) -> Result<Option<M>, ProtoError>
    ensures { Reads BadJson result (message_field M.form camel.now snake.now (view object.now)) }
{
    match member(object, camel, snake) {
        Some(value) => Ok(Some(M::from_value(alloc, value)?)),
        None => Ok(None),
    }
}

// The messages of a list.
fn items_in<M: Json>(alloc: Global, values: &Vec<Value>) -> Result<Vec<M>, ProtoError>
    ensures { ReadsAs BadJson (λ ms. ms.items) result (items M.form (items_view values.now.items)) }
{
    let mut messages = Vec::new(alloc);
    for value in values {
        messages.push(M::from_value(alloc, value)?)?;
    }
    Ok(messages)
}

/// The messages of a member, which has either name and is a list; none if there is no member, or it is null.
///
/// # Errors
/// `BadJson` exactly if the member is no list of messages, or `OutOfMemory`.
#[tactic(auto, unfolding(crate::specs::Fields::list_field))]
pub fn list_in<M: Json>(
    alloc: Global,
    object: &Value,
    camel: &str,
    snake: &str,
) -> Result<Repeated<M>, ProtoError>
    ensures { Reads BadJson result (list_field M.form camel.now snake.now (view object.now)) }
{
    let Some(value) = member(object, camel, snake) else {
        return Ok(Repeated::new(alloc));
    };
    match value.as_array() {
        Some(values) => Ok(Repeated::from_vec(items_in(alloc, values)?)),
        None => Err(ProtoError::BadJson),
    }
}
