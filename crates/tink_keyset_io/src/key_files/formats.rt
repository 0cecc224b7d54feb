//! The formats of a file of keys.

ghost use Rattle.std.specs.Prelude.{◌≡◌, ◌==◌, ◌||◌, IfOk, IfErr, Ok};
ghost use Rattle.tink_io.specs.Answering.{Answers, Tells, made_of, or_refused};
ghost use Rattle.tink_io.specs.declared.error.Kind.TheVariants.{BadJson, OutOfMemory};
ghost use Rattle.tink_json.specs.Messages.{keyset as json_keyset, message_of};
ghost use Rattle.tink_json.specs.Written.{keyset_value, pretty_text};
ghost use Rattle.tink_proto.specs.Messages.{keyset as keyset_table};
ghost use Rattle.wire_format.specs.Message.{encoded};
ghost use Rattle.tink_keyset_io.specs.Files.{file_text, filed, fitting, format_from, format_of, is_space, json_bytes, room_of, wire_by, wire_of};

use crate::key_files::room::check_room;
use std::alloc::Global;
use tink_io::{Kind, TinkError};
use tink_json::Json;
use tink_proto::{Bytes, Keyset, Message, ProtoError};

/// In which form a file holds a keyset.
#[derive(Clone, Copy, Debug, PartialEq, Eq)]
pub enum Format {
    /// The wire format of Protocol Buffers.
    Binary,
    /// JSON.
    Json,
}

impl Format {
    /// The format of a file: JSON where its first byte that is no white space of JSON is `{`.
    pub fn of_file(file: &[u8]) -> Format
        ensures { result ≡ format_of file.now }
    {
        'bytes: for byte in file {
            if !is_space(*byte) {
                return format_from(*byte);
            }
        }
        Format::Binary
    }
}

/// The keyset of a file in the wire format: the bytes of the file as they are, unless it is JSON. The file is refused before
/// it is decoded if it has no room.
///
/// # Errors
/// The first that applies: those of `check_room`; `BadJson` exactly where the file is JSON by its first byte, and spells no
/// keyset. `OutOfMemory` may come in place of each.
pub fn wire_bytes(alloc: Global, file: Vec<u8>) -> Result<Bytes, TinkError>
    ensures { Answers result (wire_of file.items) }
{
    match check_room(&file) {
        Ok(()) => wire_of_file(alloc, file),
        Err(e) => Err(e),
    }
}

// The bytes in the wire format of the keyset that a file spells.
fn wire_of_file(alloc: Global, file: Vec<u8>) -> Result<Bytes, TinkError>
    ensures { Answers result (wire_by (format_of file.items) file.items) }
{
    match Format::of_file(&file) {
        Format::Binary => Ok(Bytes::from_vec(file)),
        Format::Json => from_json(alloc, &file),
    }
}

/// The bytes of a file of this format that holds the keyset. The file has room: `wire_bytes` does not refuse it as too long.
///
/// # Errors
/// `KeysetTooLong` exactly if the file has no room; `OutOfMemory` may come in its place.
pub fn as_file(alloc: Global, format: Format, keyset: &Keyset) -> Result<Bytes, TinkError>
    ensures answer { Answers result (filed format keyset.now) }
    ensures room { IfOk result (λ b. room_of b ≡ Ok tt) }
{
    let file = text_of(alloc, format, keyset)?;
    fitting(file)
}

// A file that has room.
fn fitting(file: Bytes) -> Result<Bytes, TinkError>
    ensures answer { Tells result (fitting file) }
    ensures room { IfOk result (λ b. room_of b ≡ Ok tt) }
{
    check_room(file.as_slice())?;
    Ok(file)
}

// The bytes of a file of this format that holds the keyset.
fn text_of(alloc: Global, format: Format, keyset: &Keyset) -> Result<Bytes, TinkError>
    ensures text { IfOk result (λ b. b ≡ file_text format keyset.now) }
    ensures err { IfErr result (λ e. e ≡ record { kind = OutOfMemory }) }
{
    match format {
        Format::Binary => wire(alloc, keyset),
        Format::Json => json(alloc, keyset),
    }
}

// The format of a file that begins with this byte.
fn format_from(byte: u8) -> Format
    ensures { result ≡ format_from byte }
{
    if byte == b'{' {
        Format::Json
    } else {
        Format::Binary
    }
}

// White space of JSON.
fn is_space(byte: u8) -> bool
    ensures { result ≡ is_space byte }
{
    byte == b' ' || byte == b'\t' || byte == b'\n' || byte == b'\r'
}

// The bytes in the wire format of a keyset in JSON.
fn from_json(alloc: Global, text: &[u8]) -> Result<Bytes, TinkError>
    ensures { Answers result (json_bytes text.now) }
{
    let keyset = keyset_of_json(alloc, text)?;
    wire(alloc, &keyset)
}

// The keyset of a text.
fn keyset_of_json(alloc: Global, text: &[u8]) -> Result<Keyset, TinkError>
    ensures { Answers result (or_refused BadJson (message_of json_keyset text.now)) }
{
    match Keyset::from_json(alloc, text) {
        Ok(keyset) => Ok(keyset),
        Err(ProtoError::OutOfMemory) => Err(TinkError::new(Kind::OutOfMemory)),
        Err(_) => Err(TinkError::new(Kind::BadJson)),
    }
}

// The keyset in the wire format.
fn wire(alloc: Global, keyset: &Keyset) -> Result<Bytes, TinkError>
    ensures text { IfOk result (λ b. b ≡ encoded keyset_table.write keyset.now) }
    ensures err { IfErr result (λ e. e ≡ record { kind = OutOfMemory }) }
{
    match keyset.encode(alloc) {
        Ok(bytes) => Ok(bytes),
        Err(_) => Err(TinkError::new(Kind::OutOfMemory)),
    }
}

// The keyset in JSON.
fn json(alloc: Global, keyset: &Keyset) -> Result<Bytes, TinkError>
    ensures text { IfOk result (λ b. b ≡ pretty_text (keyset_value keyset.now)) }
    ensures err { IfErr result (λ e. e ≡ record { kind = OutOfMemory }) }
{
    match keyset.to_json(alloc) {
        Ok(text) => Ok(Bytes::from_vec(text.into_string().into_bytes())),
        Err(_) => Err(TinkError::new(Kind::OutOfMemory)),
    }
}
