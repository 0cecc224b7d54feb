//! Files of keys are made and changed.

ghost use Rattle.std.specs.Prelude.{◌≡◌, None, true, false};
ghost use Rattle.tink_keysets.specs.Through.{LeavesDraws};
ghost use Rattle.tink_keyset_io.specs.Edited.{edited_file};
ghost use Rattle.tink_cli_files.specs.Saved.{Saves, left_of_growth, left_of_new, new_file, rotated_file};
ghost use Rattle.tink_cli_files.specs.declared.made_files.Growth.TheVariants.{RotateToAny};

use crate::made_files::{new_file, rotated_file};
use crate::saved::save_answer;
use std::alloc::Global;
use tink_io::{Draws, Place, TinkError};
use tink_keyset_io::key_files::{Edit, Format, edited_file};

/// Saves a file of one new key by the template of a name, in this format. The key is enabled and the primary one.
///
/// # Errors
/// Those of `keygen` of `tink`, and `WriteFault`: what was shown stays.
pub fn new_keys<P: Place>(
    alloc: Global,
    template: &str,
    format: Format,
    draws: &mut Draws,
    place: &mut P,
) -> Result<(), TinkError>
    requires { P.has_draft place.old ≡ true }
    ensures saves { Saves (new_file template.now None format draws.old) result
        (P.got place.old) (P.replaces place.old) (P.shown place.old) (P.shown place.new)
        (P.faults place.old) (P.faults place.new) }
    ensures gone { P.has_draft place.new ≡ false }
    ensures place { P.rest place.old place.new }
    ensures rest { LeavesDraws result (left_of_new template.now None draws.old) draws.old draws.new }
{
    let made = new_file(alloc, template.as_bytes(), None, format, draws);
    save_answer(place, made)
}

/// Saves a file with one key changed, in its own format.
///
/// # Errors
/// Those of `edited_file` of `key_files`, and `WriteFault`: what was shown stays.
pub fn edit_keys<P: Place>(
    alloc: Global,
    file: Vec<u8>,
    edit: Edit,
    id: u32,
    place: &mut P,
) -> Result<(), TinkError>
    requires { P.has_draft place.old ≡ true }
    ensures saves { Saves (edited_file file.items edit id) result
        (P.got place.old) (P.replaces place.old) (P.shown place.old) (P.shown place.new)
        (P.faults place.old) (P.faults place.new) }
    ensures gone { P.has_draft place.new ≡ false }
    ensures place { P.rest place.old place.new }
{
    let made = edited_file(alloc, file, edit, id);
    save_answer(place, made)
}

/// Saves a file with a new primary key by the template of a name, in its own format. The other keys stay.
///
/// # Errors
/// `BadJson` exactly if the file is JSON by its first byte, and spells no keyset. Those of `rotate` of
/// `tink`, and `WriteFault`. The file under the name stays then.
pub fn rotate_keys<P: Place>(
    alloc: Global,
    file: Vec<u8>,
    template: &str,
    draws: &mut Draws,
    place: &mut P,
) -> Result<(), TinkError>
    requires { P.has_draft place.old ≡ true }
    ensures saves { Saves (rotated_file file.items template.now true draws.old) result
        (P.got place.old) (P.replaces place.old) (P.shown place.old) (P.shown place.new)
        (P.faults place.old) (P.faults place.new) }
    ensures gone { P.has_draft place.new ≡ false }
    ensures place { P.rest place.old place.new }
    ensures rest { LeavesDraws result (left_of_growth RotateToAny file.items template.now draws.old) draws.old draws.new }
{
    let made = rotated_file(alloc, file, template.as_bytes(), true, draws);
    save_answer(place, made)
}
