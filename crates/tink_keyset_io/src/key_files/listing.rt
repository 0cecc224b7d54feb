//! The keys of a file, one a line.

ghost use Rattle.std.specs.Prelude.{◌≡◌, ◌==◌, ◌<◌, ◌++◌, ◌&&◌, OnOk, IfErr, map, Ok};
ghost use Rattle.tink_io.specs.Answering.{Answers};
ghost use Rattle.tink_io.specs.declared.error.Kind.TheVariants.{OutOfMemory};
ghost use Rattle.tink_keyset_io.specs.Listed.{key_lines, line_end, line_of, lines_of, listed, prefix_word, printed, shown_byte, short_type, status_word, type_word};

use std::alloc::Global;
use tink_io::TinkError;
use tink_keysets::keyset::{Handle, insecure};
use tink_proto::{Bytes, KeyInfo};

// What the types of Tink's keys begin with.
const TINK: &[u8] = b"type.googleapis.com/google.crypto.tink.";

/// The keys of a keyset in the wire format, one a line, with no key material. A line has the key's id, status, prefix
/// type and type, and whether its id is the primary one. Tabs separate them.
///
/// # Errors
/// `BadKeyset` exactly if the bytes spell no keyset. `InvalidKeyset` exactly if it has no key or no handle may hold
/// it. `OutOfMemory` may come in place of each.
pub fn list(alloc: Global, keyset: &[u8]) -> Result<Bytes, TinkError>
    ensures { Answers result (listed keyset.now) }
{
    let keyset = insecure::decode(alloc, keyset)?;
    let handle = insecure::new_handle(keyset)?;
    lines(alloc, &handle)
}

// The lines of a handle's keys.
fn lines(alloc: Global, handle: &Handle) -> Result<Bytes, TinkError>
    ensures { Answers result (Ok (key_lines handle.now)) }
{
    let info = handle.keyset_info(alloc)?;
    lines_of(alloc, info.primary_key_id, info.key_info.as_slice())
}

// One line a key.
fn lines_of(alloc: Global, primary: u32, keys: &[KeyInfo]) -> Result<Bytes, TinkError>
    ensures { Answers result (Ok (lines_of primary keys.now)) }
{
    let mut text = Vec::new(alloc);
    'keys: for key in keys {
        put_key(alloc, &mut text, primary, key)?;
    }
    Ok(Bytes::from_vec(text))
}

// Puts the line of a key at the end.
fn put_key(alloc: Global, text: &mut Vec<u8>, primary: u32, key: &KeyInfo) -> Result<(), TinkError>
    ensures ok { OnOk result (text.new.items ≡ text.old.items ++ line_of primary key.now) }
    ensures err { IfErr result (λ e. e ≡ record { kind = OutOfMemory }) }
{
    let id = key.key_id.to_string(alloc)?;
    put(text, id.as_bytes())?;
    put(text, status_word(key.status))?;
    put(text, prefix_word(key.output_prefix_type))?;
    put_printed(text, type_word(key.type_url.as_bytes()))?;
    put(text, line_end(key.key_id == primary))
}

// Puts bytes at the end.
pub(crate) fn put(text: &mut Vec<u8>, bytes: &[u8]) -> Result<(), TinkError>
    ensures ok { OnOk result (text.new.items ≡ text.old.items ++ bytes.now) }
    ensures err { IfErr result (λ e. e ≡ record { kind = OutOfMemory }) }
{
    text.extend_from_slice(bytes)?;
    Ok(())
}

// Puts bytes at the end, each as it may be shown on a terminal.
fn put_printed(text: &mut Vec<u8>, bytes: &[u8]) -> Result<(), TinkError>
    ensures ok { OnOk result (text.new.items ≡ text.old.items ++ printed bytes.now) }
    ensures err { IfErr result (λ e. e ≡ record { kind = OutOfMemory }) }
{
    'bytes: for byte in bytes {
        text.push(shown_byte(*byte))?;
    }
    Ok(())
}

// A byte of ASCII that is seen, and else a question mark.
pub(crate) fn shown_byte(byte: u8) -> u8
    ensures { result ≡ shown_byte byte }
{
    if byte > 32 && byte < 127 { byte } else { b'?' }
}

fn status_word(status: i32) -> &'static [u8]
    ensures { result.now ≡ status_word status }
{
    match status {
        1 => b"\tenabled\t",
        2 => b"\tdisabled\t",
        3 => b"\tdestroyed\t",
        _ => b"\tunknown\t",
    }
}

fn prefix_word(prefix: i32) -> &'static [u8]
    ensures { result.now ≡ prefix_word prefix }
{
    match prefix {
        1 => b"TINK\t",
        2 => b"LEGACY\t",
        3 => b"RAW\t",
        4 => b"CRUNCHY\t",
        _ => b"unknown\t",
    }
}

// The type of a key in short, or a dash where a key has none.
pub(crate) fn type_word(url: &[u8]) -> &[u8]
    ensures { result.now ≡ type_word url.now }
{
    if url.is_empty() {
        return b"-";
    }
    short_type(url)
}

// A type without what all types of Tink begin with.
fn short_type(url: &[u8]) -> &[u8]
    ensures { result.now ≡ short_type url.now }
{
    match url.strip_prefix(TINK) {
        Some(word) => word,
        None => url,
    }
}

fn line_end(is_primary: bool) -> &'static [u8]
    ensures { result.now ≡ line_end is_primary }
{
    if is_primary { b"\tprimary\n" } else { b"\n" }
}
