//! Files of keys are made, grown by a new key, and converted.

ghost use Rattle.std.specs.Prelude.{◌≡◌, None};
ghost use Rattle.tink_io.specs.Answering.{Answers};
ghost use Rattle.tink_cli_files.specs.Saved.{added_file, converted_file, new_file, rotated_file};
ghost use Rattle.tink_c_keysets.specs.Formats.{format_by};

use std::alloc::Global;
use tink_c_bytes::{copy_of, draws_of};
use tink_cli_files::{added_file, converted_file, new_file, rotated_file};
use tink_io::TinkError;
use tink_keyset_io::key_files::Format;
use tink_proto::Bytes;

/// The file of a new keyset with one key by the template of a name, in JSON or in the wire format.
///
/// # Errors
/// Those of `new_file` of `tink_cli_files`: `UnknownTemplate` if no template has the name, `RandomFault` if there are
/// too few random bytes.
pub fn create(alloc: Global, template: &[u8], json: bool, random: &[u8]) -> Result<Bytes, TinkError>
    ensures { Answers result (new_file template.now None (format_by json) random.now) }
{
    let mut draws = draws_of(alloc, random)?;
    new_file(alloc, template, None, format_by(json), &mut draws)
}

/// The file with a new primary key by the template of a name, in the format that it has. The other keys stay. Only if
/// `to_any`, an enabled key may be of another primitive.
///
/// # Errors
/// Those of `rotated_file` of `tink_cli_files`.
pub fn rotate(
    alloc: Global,
    file: &[u8],
    template: &[u8],
    to_any: bool,
    random: &[u8],
) -> Result<Bytes, TinkError>
    ensures { Answers result (rotated_file file.now template.now to_any random.now) }
{
    let mut draws = draws_of(alloc, random)?;
    let file = copy_of(alloc, file)?;
    rotated_file(alloc, file, template, to_any, &mut draws)
}

/// The file with a new key by the template of a name at its end, in the format that it has. The primary key stays.
///
/// # Errors
/// Those of `added_file` of `tink_cli_files`.
pub fn add(alloc: Global, file: &[u8], template: &[u8], random: &[u8]) -> Result<Bytes, TinkError>
    ensures { Answers result (added_file file.now template.now random.now) }
{
    let mut draws = draws_of(alloc, random)?;
    let file = copy_of(alloc, file)?;
    added_file(alloc, file, template, &mut draws)
}

/// The valid keyset of a file, in JSON or in the wire format.
///
/// # Errors
/// `BadJson` or `BadKeyset` if the file is no keyset; `InvalidKeyset` if it is not valid.
pub fn convert(alloc: Global, file: &[u8], json: bool) -> Result<Bytes, TinkError>
    ensures { Answers result (converted_file file.now (format_by json)) }
{
    let file = copy_of(alloc, file)?;
    converted_file(alloc, file, format_by(json))
}

// JSON, or the wire format.
pub(crate) fn format_by(json: bool) -> Format
    ensures { result ≡ format_by json }
{
    if json { Format::Json } else { Format::Binary }
}
