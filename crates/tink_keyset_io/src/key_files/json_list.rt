//! The keys of a file as an array of JSON.

ghost use Rattle.std.specs.Prelude.{◌≡◌, ◌==◌, ◌++◌, ◌||◌, OnOk, IfErr, Ok};
ghost use Rattle.tink_io.specs.Answering.{Answers};
ghost use Rattle.tink_io.specs.declared.error.Kind.TheVariants.{OutOfMemory};
ghost use Rattle.tink_keyset_io.specs.ListedJson.{array_of, first_start, key_array, listed_json, members_of, objects_from, prefix_member, primary_member, quoted, quoted_byte, status_member};

use crate::key_files::listing::{put, shown_byte, type_word};
use std::alloc::Global;
use tink_io::TinkError;
use tink_keysets::keyset::{Handle, insecure};
use tink_proto::{Bytes, KeyInfo};

// What the first object begins with.
const FIRST: &[u8] = b"\n{\"id\":";

// What each other object begins with.
const NEXT: &[u8] = b",\n{\"id\":";

/// The keys of a keyset in the wire format as an array of JSON (RFC 8259), with no key material. It has an object a
/// line, in the order of the keyset. Its members are `id`, a number; `status`, `prefix` and `type`, the words that
/// `list` has; and `primary`, whether the id is the primary one.
///
/// # Errors
/// Those of `list`.
pub fn list_json(alloc: Global, keyset: &[u8]) -> Result<Bytes, TinkError>
    ensures { Answers result (listed_json keyset.now) }
{
    let keyset = insecure::decode(alloc, keyset)?;
    let handle = insecure::new_handle(keyset)?;
    key_array(alloc, &handle)
}

// The array of a handle's keys.
fn key_array(alloc: Global, handle: &Handle) -> Result<Bytes, TinkError>
    ensures { Answers result (Ok (key_array handle.now)) }
{
    let info = handle.keyset_info(alloc)?;
    array_of(alloc, info.primary_key_id, info.key_info.as_slice())
}

// One object a key.
fn array_of(alloc: Global, primary: u32, keys: &[KeyInfo]) -> Result<Bytes, TinkError>
    ensures { Answers result (Ok (array_of primary keys.now)) }
{
    let mut text = Vec::new(alloc);
    put(&mut text, b"[")?;
    put_objects(alloc, &mut text, primary, keys)?;
    put(&mut text, b"\n]\n")?;
    Ok(Bytes::from_vec(text))
}

// Puts the objects at the end.
fn put_objects(
    alloc: Global,
    text: &mut Vec<u8>,
    primary: u32,
    keys: &[KeyInfo],
) -> Result<(), TinkError>
    ensures ok { OnOk result (text.new.items ≡ text.old.items ++ objects_from first_start primary keys.now) }
    ensures err { IfErr result (λ e. e ≡ record { kind = OutOfMemory }) }
{
    let mut start = FIRST;
    'keys: for key in keys {
        put(text, start)?;
        put_members(alloc, text, primary, key)?;
        start = NEXT;
    }
    Ok(())
}

// Puts the members of a key at the end, from the value of its id on.
fn put_members(
    alloc: Global,
    text: &mut Vec<u8>,
    primary: u32,
    key: &KeyInfo,
) -> Result<(), TinkError>
    ensures ok { OnOk result (text.new.items ≡ text.old.items ++ members_of primary key.now) }
    ensures err { IfErr result (λ e. e ≡ record { kind = OutOfMemory }) }
{
    let id = key.key_id.to_string(alloc)?;
    put(text, id.as_bytes())?;
    put(text, status_member(key.status))?;
    put(text, prefix_member(key.output_prefix_type))?;
    put_quoted(text, type_word(key.type_url.as_bytes()))?;
    put(text, primary_member(key.key_id == primary))
}

// Puts bytes at the end, each as it is shown, in a text of JSON.
fn put_quoted(text: &mut Vec<u8>, bytes: &[u8]) -> Result<(), TinkError>
    ensures ok { OnOk result (text.new.items ≡ text.old.items ++ quoted bytes.now) }
    ensures err { IfErr result (λ e. e ≡ record { kind = OutOfMemory }) }
{
    'bytes: for byte in bytes {
        put_quoted_byte(text, shown_byte(*byte))?;
    }
    Ok(())
}

// Puts a byte at the end, behind a backslash if it is a quotation mark or a backslash.
fn put_quoted_byte(text: &mut Vec<u8>, byte: u8) -> Result<(), TinkError>
    ensures ok { OnOk result (text.new.items ≡ text.old.items ++ quoted_byte byte) }
    ensures err { IfErr result (λ e. e ≡ record { kind = OutOfMemory }) }
{
    if byte == b'"' || byte == b'\\' {
        return put(text, &[b'\\', byte]);
    }
    put(text, &[byte])
}

fn status_member(status: i32) -> &'static [u8]
    ensures { result.now ≡ status_member status }
{
    match status {
        1 => b",\"status\":\"enabled\"",
        2 => b",\"status\":\"disabled\"",
        3 => b",\"status\":\"destroyed\"",
        _ => b",\"status\":\"unknown\"",
    }
}

// The prefix type, and the name of the member behind it.
fn prefix_member(prefix: i32) -> &'static [u8]
    ensures { result.now ≡ prefix_member prefix }
{
    match prefix {
        1 => b",\"prefix\":\"TINK\",\"type\":\"",
        2 => b",\"prefix\":\"LEGACY\",\"type\":\"",
        3 => b",\"prefix\":\"RAW\",\"type\":\"",
        4 => b",\"prefix\":\"CRUNCHY\",\"type\":\"",
        _ => b",\"prefix\":\"unknown\",\"type\":\"",
    }
}

// The end of the type, and the last member.
fn primary_member(is_primary: bool) -> &'static [u8]
    ensures { result.now ≡ primary_member is_primary }
{
    if is_primary {
        b"\",\"primary\":true}"
    } else {
        b"\",\"primary\":false}"
    }
}
