//! The keys of a file as a text, without key material.

ghost use Rattle.tink_io.specs.Answering.{Answers};
ghost use Rattle.tink_keyset_io.specs.Files.{wire_of};
ghost use Rattle.tink_c_edits.specs.FileListed.{listed_file, listed_file_json};

use std::alloc::Global;
use tink_c_bytes::copy_of;
use tink_io::TinkError;
use tink_keyset_io::key_files;
use tink_proto::Bytes;

/// One line a key of a file: its id, status, prefix type and type, and which is the primary key.
///
/// # Errors
/// `BadJson` if the file is JSON by its first byte and no keyset; then those of `list` of `tink_keyset_io`.
pub fn list(alloc: Global, file: &[u8]) -> Result<Bytes, TinkError>
    ensures { Answers result (listed_file file.now) }
{
    let keyset = wire_in(alloc, file)?;
    key_files::list(alloc, keyset.as_slice())
}

/// The same as an array in JSON.
///
/// # Errors
/// Those of `list`.
pub fn list_json(alloc: Global, file: &[u8]) -> Result<Bytes, TinkError>
    ensures { Answers result (listed_file_json file.now) }
{
    let keyset = wire_in(alloc, file)?;
    key_files::list_json(alloc, keyset.as_slice())
}

// The keyset of a file in the wire format.
fn wire_in(alloc: Global, file: &[u8]) -> Result<Bytes, TinkError>
    ensures { Answers result (wire_of file.now) }
{
    let file = copy_of(alloc, file)?;
    key_files::wire_bytes(alloc, file)
}
