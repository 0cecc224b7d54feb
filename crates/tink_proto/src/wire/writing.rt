//! Writing fields at the end of a `Vec<u8>`. After an `Err`, which is `OutOfMemory`, nothing is said of it.

ghost use Rattle.std.specs.Int.{cast_unsigned, w64};
ghost use Rattle.std.specs.Prelude.{◌≡◌, ◌+◌, ◌*◌, ◌<◌, ◌++◌, ◌∷◌, [], map, IsTrue, OnOk};
ghost use Rattle.wire_format.specs.Grammar.Content.{Body};
ghost use Rattle.wire_format.specs.Writing.{varint_within, varint, spelling};
ghost use Rattle.wire_format.specs.Columns.{at};
ghost use Rattle.wire_format.specs.Values.{unless_zero, unless_empty, body, option_body, fits_number, fits_enum};
ghost use Rattle.wire_format.specs.Values.{fits_bytes, fits_text, fits_body, fits_option, fit_bodies};

use crate::Repeated;
use crate::wire::Message;
use std::alloc::{AllocError, Global};

// Writes a number in at most k bytes.
#[tactic(auto, unfolding(wire_format::specs::Writing::varint_within))]
fn put_within(out: &mut Vec<u8>, k: u32, n: u64) -> Result<(), AllocError>
    ensures { OnOk result (out.new.items ≡ out.old.items ++ varint_within k n) }
{
    if k == 0 {
        return Ok(());
    }
    if n < 128 {
        out.push(n as u8)?;
        return Ok(());
    }
    out.push((n % 128 + 128) as u8)?;
    put_within(out, k - 1, n / 128)?;
    Ok(())
}

// Writes the shortest varint of a number.
#[tactic(auto, unfolding(wire_format::specs::Writing::varint))]
fn put_varint(out: &mut Vec<u8>, n: u64) -> Result<(), AllocError>
    ensures { OnOk result (out.new.items ≡ out.old.items ++ varint n) }
{
    put_within(out, 10, n)
}

// Writes a key.
fn put_key(out: &mut Vec<u8>, number: u32, wire_type: u64) -> Result<(), AllocError>
    requires { wire_type < 8 }
    ensures { OnOk result (out.new.items ≡ out.old.items ++ varint (number * 8 + wire_type)) }
{
    put_varint(out, number as u64 * 8 + wire_type)
}

// Writes a varint that is not 0.
fn put_nonzero(out: &mut Vec<u8>, number: u32, n: u64) -> Result<(), AllocError>
    ensures { OnOk result (out.new.items ≡ out.old.items ++ spelling (map (at number) (unless_zero n))) }
{
    if n == 0 {
        return Ok(());
    }
    put_key(out, number, 0)?;
    put_varint(out, n)?;
    Ok(())
}

// Writes a body.
fn put_body(out: &mut Vec<u8>, number: u32, bytes: &[u8]) -> Result<(), AllocError>
    ensures bytes { OnOk result (out.new.items ≡ out.old.items ++ spelling (at number (Body bytes.now) ∷ [])) }
    ensures fits { OnOk result (IsTrue (fits_bytes bytes.now)) }
{
    put_key(out, number, 2)?;
    put_varint(out, bytes.len() as u64)?;
    out.extend_from_slice(bytes)?;
    Ok(())
}

/// Writes a number of 32 bits, if it is not 0.
///
/// # Errors
/// `AllocError` if there is no memory.
pub fn put_number(out: &mut Vec<u8>, number: u32, value: u32) -> Result<(), AllocError>
    ensures bytes { OnOk result (out.new.items ≡ out.old.items ++ spelling (map (at number) (unless_zero value))) }
    ensures fits { OnOk result (IsTrue (fits_number value)) }
{
    put_nonzero(out, number, u64::from(value))
}

/// Writes the number of an enum, if it is not 0; below 0 as its 64 bits.
///
/// # Errors
/// `AllocError` if there is no memory.
pub fn put_enum(out: &mut Vec<u8>, number: u32, value: i32) -> Result<(), AllocError>
    ensures bytes { OnOk result (out.new.items
        ≡ out.old.items ++ spelling (map (at number) (unless_zero (cast_unsigned w64 value)))) }
    ensures fits { OnOk result (IsTrue (fits_enum value)) }
{
    put_nonzero(out, number, i64::from(value).cast_unsigned())
}

/// Writes bytes, if there are some.
///
/// # Errors
/// `AllocError` if there is no memory.
pub fn put_bytes(out: &mut Vec<u8>, number: u32, bytes: &[u8]) -> Result<(), AllocError>
    ensures bytes { OnOk result (out.new.items ≡ out.old.items ++ spelling (map (at number) (unless_empty bytes.now))) }
    ensures fits { OnOk result (IsTrue (fits_bytes bytes.now)) }
{
    match bytes {
        [] => Ok(()),
        _ => put_body(out, number, bytes),
    }
}

/// Writes text, if there is some.
///
/// # Errors
/// `AllocError` if there is no memory.
pub fn put_text(out: &mut Vec<u8>, number: u32, text: &str) -> Result<(), AllocError>
    ensures bytes { OnOk result (out.new.items ≡ out.old.items ++ spelling (map (at number) (unless_empty text.now))) }
    ensures fits { OnOk result (IsTrue (fits_text text.now)) }
{
    put_bytes(out, number, text.as_bytes())?;
    Ok(())
}

// Writes a message as a body.
fn put_nested<M: Message>(
    out: &mut Vec<u8>,
    alloc: Global,
    number: u32,
    message: &M,
) -> Result<(), AllocError>
    ensures bytes { OnOk result (out.new.items
        ≡ out.old.items ++ spelling (at number (body M.table message.now) ∷ [])) }
    ensures fits { OnOk result (IsTrue (fits_body M.table message.now)) }
{
    let mut fields = Vec::new(alloc);
    message.write_fields(alloc, &mut fields)?;
    put_body(out, number, &fields)
}

/// Writes a single message, if there is one.
///
/// # Errors
/// `AllocError` if there is no memory.
pub fn put_message<M: Message>(
    out: &mut Vec<u8>,
    alloc: Global,
    number: u32,
    message: &Option<M>,
) -> Result<(), AllocError>
    ensures bytes { OnOk result (out.new.items
        ≡ out.old.items ++ spelling (map (at number) (option_body M.table message.now))) }
    ensures fits { OnOk result (IsTrue (fits_option M.table message.now)) }
{
    match message {
        None => Ok(()),
        Some(message) => put_nested(out, alloc, number, message),
    }
}

/// Writes each message of a repeated field.
///
/// # Errors
/// `AllocError` if there is no memory.
pub fn put_list<M: Message>(
    out: &mut Vec<u8>,
    alloc: Global,
    number: u32,
    messages: &Repeated<M>,
) -> Result<(), AllocError>
    ensures bytes { OnOk result (out.new.items
        ≡ out.old.items ++ spelling (map (at number) (map (body M.table) messages.now))) }
    ensures fits { OnOk result (IsTrue (fit_bodies M.table messages.now)) }
{
    let messages = messages.as_slice();
    for message in messages {
        put_nested(out, alloc, number, message)?;
    }
    Ok(())
}
