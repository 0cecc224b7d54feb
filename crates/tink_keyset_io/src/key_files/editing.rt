//! A key of a file is changed.

ghost use Rattle.std.specs.Prelude.{◌≡◌, Ok, Err, IfOk, IfErr};
ghost use Rattle.keyset_model.specs.Edits as edits;
ghost use Rattle.keyset_model.specs.Validity.{IsValid, FitsHandle};
ghost use Rattle.tink_io.specs.Answering.{Answers};
ghost use Rattle.tink_io.specs.declared.error.Kind.TheVariants.{OutOfMemory};
ghost use Rattle.tink_keysets.specs.Editing.{Edits};
ghost use Rattle.tink_keysets.specs.Valid.{valid_or_refused};
ghost use Rattle.tink_keyset_io.specs.Edited.{edited, edited_by, edited_file, fitting_keyset, start_of};

use crate::key_files::formats::{Format, as_file, wire_bytes};
use std::alloc::Global;
use tink_io::TinkError;
use tink_keysets::keyset::{Handle, Manager, insecure, validate};
use tink_proto::{Bytes, Keyset};

/// A change of the first key of an id.
#[derive(Clone, Copy, Debug, PartialEq, Eq)]
pub enum Edit {
    /// It becomes the primary key.
    Promote,
    Enable,
    Disable,
    /// Its data is taken away.
    Destroy,
    /// It is taken out.
    Delete,
}

/// The keyset that bytes spell in the wire format, with the first key of the id changed. It is valid afterwards. To promote
/// or to enable a key may repair a keyset that is not valid; for the other edits it has to be valid before.
///
/// # Errors
/// The first that applies: `BadKeyset` exactly if the bytes spell none. `InvalidKeyset` exactly if no handle may hold it, and
/// for the other edits if it is not valid. Those of the command of `Manager`; `InvalidKeyset` exactly if the edited keyset is
/// not valid. `OutOfMemory` may come in place of each.
pub fn edit_keyset(alloc: Global, keyset: &[u8], edit: Edit, id: u32) -> Result<Keyset, TinkError>
    ensures answer { Answers result (edited keyset.now edit id) }
    ensures valid { IfOk result IsValid }
{
    let handle = start_of(alloc, edit, keyset)?;
    let mut manager = Manager::new_from_handle(handle);
    change(&mut manager, edit, id)?;
    valid_material(alloc, &manager)
}

/// The file with its keyset edited, in the format that it has.
///
/// # Errors
/// The first that applies: those of `wire_bytes`; those of `edit_keyset`; `KeysetTooLong` exactly if the edited file has no room.
pub fn edited_file(alloc: Global, file: Vec<u8>, edit: Edit, id: u32) -> Result<Bytes, TinkError>
    ensures { Answers result (edited_file file.items edit id) }
{
    let format = Format::of_file(&file);
    let keyset = wire_bytes(alloc, file)?;
    let keyset = edit_keyset(alloc, keyset.as_slice(), edit, id)?;
    as_file(alloc, format, &keyset)
}

// A handle of the keyset that is edited.
fn start_of(alloc: Global, edit: Edit, keyset: &[u8]) -> Result<Handle, TinkError>
    ensures { Answers result (start_of edit keyset.now) }
{
    match edit {
        Edit::Promote | Edit::Enable => any_handle(alloc, keyset),
        Edit::Disable | Edit::Destroy | Edit::Delete => insecure::valid_handle(alloc, keyset),
    }
}

// A handle of the keyset that bytes spell, whatever its keys are.
fn any_handle(alloc: Global, keyset: &[u8]) -> Result<Handle, TinkError>
    ensures { Answers result (fitting_keyset keyset.now) }
{
    let keyset = insecure::decode(alloc, keyset)?;
    insecure::new_handle(keyset)
}

// Does the command.
fn change(manager: &mut Manager, edit: Edit, id: u32) -> Result<(), TinkError>
    ensures { Edits result manager.old manager.new (edited_by edit id manager.old) }
{
    match edit {
        Edit::Promote => manager.set_primary(id),
        Edit::Enable => manager.enable(id),
        Edit::Disable => manager.disable(id),
        Edit::Destroy => manager.destroy(id),
        Edit::Delete => manager.delete(id),
    }
}

// A copy of a manager's keyset, if it is valid.
fn valid_material(alloc: Global, manager: &Manager) -> Result<Keyset, TinkError>
    ensures answer { Answers result (valid_or_refused manager.now) }
    ensures valid { IfOk result IsValid }
{
    match material(alloc, manager) {
        Ok(keyset) => keyset_if_valid(keyset),
        Err(e) => Err(e),
    }
}

// A keyset that a handle held, if it is valid.
fn keyset_if_valid(keyset: Keyset) -> Result<Keyset, TinkError>
    requires { FitsHandle keyset }
    ensures answer { Answers result (valid_or_refused keyset) }
    ensures valid { IfOk result IsValid }
{
    match validate(&keyset) {
        Ok(()) => Ok(keyset),
        Err(refusal) => Err(refusal),
    }
}

// A copy of a manager's keyset.
fn material(alloc: Global, manager: &Manager) -> Result<Keyset, TinkError>
    ensures keyset { IfOk result (λ ks. ks ≡ manager.now) }
    ensures held { IfOk result FitsHandle }
    ensures err { IfErr result (λ e. e ≡ record { kind = OutOfMemory }) }
{
    let handle = manager.handle(alloc)?;
    insecure::keyset_material(alloc, &handle)
}
