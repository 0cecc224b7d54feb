//! Files of keys are encrypted under a master keyset, and decrypted.

ghost use Rattle.std.specs.Prelude.{◌≡◌, true, false};
ghost use Rattle.tink_keysets.specs.Through.{LeavesDraws};
ghost use Rattle.tink_cli_files.specs.Masters.{IsMaster, MasterKeys};
ghost use Rattle.tink_cli_files.specs.Wrapping.{unspent_file, unwrapped_file, wrapped_file};
ghost use Rattle.tink_cli_files.specs.Saved.{Saves};

use crate::saved::save_answer;
use crate::under_master::{Master, unwrap_file, wrap_file};
use std::alloc::Global;
use tink_io::{Draws, Place, TinkError};
use tink_keyset_io::key_files::Format;

/// Saves the keyset of a file of keys as a file of this format. The primary key of a master encrypts it with the
/// associated data.
///
/// # Errors
/// Those of `wrap_file` of `under_master`, and `WriteFault`: what was shown stays.
pub fn wrap_keys<P: Place>(
    alloc: Global,
    master: &Master,
    keys: Vec<u8>,
    aad: &[u8],
    format: Format,
    draws: &mut Draws,
    place: &mut P,
) -> Result<(), TinkError>
    requires { P.has_draft place.old ≡ true }
    ensures saves { (m : MasterKeys) → IsMaster m master.now
        → Saves (wrapped_file m keys.items aad.now format draws.old) result
        (P.got place.old) (P.replaces place.old) (P.shown place.old) (P.shown place.new)
        (P.faults place.old) (P.faults place.new) }
    ensures gone { P.has_draft place.new ≡ false }
    ensures place { P.rest place.old place.new }

    // Exactly the draws that the encryption took are spent.
    ensures rest { (m : MasterKeys) → IsMaster m master.now
        → LeavesDraws result (unspent_file m keys.items aad.now draws.old) draws.old draws.new }
{
    let made = wrap_file(alloc, master, keys, aad, format, draws);
    save_answer(place, made)
}

/// Saves the keyset that a master decrypts of a wrapped file with the associated data, as a file of keys of this
/// format.
///
/// # Errors
/// Those of `unwrap_file` of `under_master`, and `WriteFault`: what was shown stays.
pub fn unwrap_keys<P: Place>(
    alloc: Global,
    master: &Master,
    file: &[u8],
    aad: &[u8],
    format: Format,
    place: &mut P,
) -> Result<(), TinkError>
    requires { P.has_draft place.old ≡ true }
    ensures saves { (m : MasterKeys) → IsMaster m master.now
        → Saves (unwrapped_file m file.now aad.now format) result
        (P.got place.old) (P.replaces place.old) (P.shown place.old) (P.shown place.new)
        (P.faults place.old) (P.faults place.new) }
    ensures gone { P.has_draft place.new ≡ false }
    ensures place { P.rest place.old place.new }
{
    let made = unwrap_file(alloc, master, file, aad, format);
    save_answer(place, made)
}
