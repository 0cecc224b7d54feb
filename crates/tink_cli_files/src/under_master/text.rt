//! The file of an encrypted keyset.

ghost use Rattle.std.specs.Prelude.{◌≡◌, IfOk, IfErr, Ok};
ghost use Rattle.wire_format.specs.Message.{decoded, encoded};
ghost use Rattle.tink_io.specs.Answering.{Answers, or_refused};
ghost use Rattle.tink_io.specs.declared.error.Kind.TheVariants.{BadJson, BadKeyset, OutOfMemory};
ghost use Rattle.tink_json.specs.Messages.{encrypted_keyset as json_form, message_of};
ghost use Rattle.tink_json.specs.Written.{encrypted_keyset_value, pretty_text};
ghost use Rattle.tink_proto.specs.Messages.{encrypted_keyset};
ghost use Rattle.tink_keyset_io.specs.declared.key_files.formats.Format.TheVariants.{Binary};
ghost use Rattle.tink_cli_files.specs.Wrapping.{wrapped_in, wrapped_text};

use std::alloc::Global;
use tink_io::{Kind, TinkError};
use tink_json::Json;
use tink_keyset_io::key_files::Format;
use tink_proto::{Bytes, EncryptedKeyset, Message, ProtoError};

/// The encrypted keyset of a wrapped file, in the wire format or in JSON.
///
/// # Errors
/// `BadKeyset` if the file is in the wire format and no encrypted keyset; `BadJson` if it is in JSON and none.
/// `OutOfMemory`.
pub fn wrapped_in(alloc: Global, file: &[u8]) -> Result<EncryptedKeyset, TinkError>
    ensures { Answers result (wrapped_in file.now) }
{
    match Format::of_file(file) {
        Format::Binary => from_binary(alloc, file),
        Format::Json => from_json(alloc, file),
    }
}

/// The file of this format that holds an encrypted keyset. One in the wire format is read again.
///
/// # Errors
/// `OutOfMemory` alone.
pub fn wrapped_text(
    alloc: Global,
    format: Format,
    encrypted: &EncryptedKeyset,
) -> Result<Bytes, TinkError>
    ensures text { IfOk result (λ b. b ≡ wrapped_text format encrypted.now) }
    ensures again { IfOk result (λ b. format ≡ Binary
        → or_refused BadKeyset (decoded encrypted_keyset.read b) ≡ Ok encrypted.now) }
    ensures err { IfErr result (λ e. e ≡ record { kind = OutOfMemory }) }
{
    match format {
        Format::Binary => to_binary(alloc, encrypted),
        Format::Json => to_json(alloc, encrypted),
    }
}

fn from_binary(alloc: Global, file: &[u8]) -> Result<EncryptedKeyset, TinkError>
    ensures { Answers result (or_refused BadKeyset (decoded encrypted_keyset.read file.now)) }
{
    match EncryptedKeyset::decode(alloc, file) {
        Ok(encrypted) => Ok(encrypted),
        Err(ProtoError::OutOfMemory) => Err(TinkError::new(Kind::OutOfMemory)),
        Err(_) => Err(TinkError::new(Kind::BadKeyset)),
    }
}

fn from_json(alloc: Global, file: &[u8]) -> Result<EncryptedKeyset, TinkError>
    ensures { Answers result (or_refused BadJson (message_of json_form file.now)) }
{
    match EncryptedKeyset::from_json(alloc, file) {
        Ok(encrypted) => Ok(encrypted),
        Err(ProtoError::OutOfMemory) => Err(TinkError::new(Kind::OutOfMemory)),
        Err(_) => Err(TinkError::new(Kind::BadJson)),
    }
}

fn to_binary(alloc: Global, encrypted: &EncryptedKeyset) -> Result<Bytes, TinkError>
    ensures text { IfOk result (λ b. b ≡ encoded encrypted_keyset.write encrypted.now) }
    ensures again { IfOk result (λ b. or_refused BadKeyset (decoded encrypted_keyset.read b) ≡ Ok encrypted.now) }
    ensures err { IfErr result (λ e. e ≡ record { kind = OutOfMemory }) }
{
    match encrypted.encode(alloc) {
        Ok(bytes) => Ok(bytes),
        Err(_) => Err(TinkError::new(Kind::OutOfMemory)),
    }
}

fn to_json(alloc: Global, encrypted: &EncryptedKeyset) -> Result<Bytes, TinkError>
    ensures text { IfOk result (λ b. b ≡ pretty_text (encrypted_keyset_value encrypted.now)) }
    ensures err { IfErr result (λ e. e ≡ record { kind = OutOfMemory }) }
{
    match encrypted.to_json(alloc) {
        Ok(text) => Ok(Bytes::from_vec(text.into_string().into_bytes())),
        Err(_) => Err(TinkError::new(Kind::OutOfMemory)),
    }
}
