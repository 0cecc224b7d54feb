//! One key of a file of keys is changed.

ghost use Rattle.tink_io.specs.Answering.{Answers};
ghost use Rattle.tink_keyset_io.specs.Edited.{edited_file};

use std::alloc::Global;
use tink_c_bytes::copy_of;
use tink_io::TinkError;
use tink_keyset_io::key_files::{Edit, edited_file};
use tink_proto::Bytes;

/// The file with the first key of an id changed, in the format that it has.
///
/// # Errors
/// Those of `edited_file` of `tink_keyset_io`.
pub fn edit(alloc: Global, file: &[u8], edit: Edit, id: u32) -> Result<Bytes, TinkError>
    ensures { Answers result (edited_file file.now edit id) }
{
    let file = copy_of(alloc, file)?;
    edited_file(alloc, file, edit, id)
}
