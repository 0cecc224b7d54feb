//! Objects from the bytes of a file of keys.

ghost use Rattle.std.specs.Prelude.{◌≡◌, IfOk, IfErr};
ghost use Rattle.tink_io.specs.declared.error.Kind.TheVariants.{OutOfMemory};
ghost use Rattle.tink_tokens.specs.TokenSteps.{AreLoadedMacs};
ghost use Rattle.tink_c_primitives.specs.Primitives.{ArePrfs, IsAead, IsDaead, aeads_of, daeads_of, macs_of_file, prfs_of_file};
ghost use Rattle.tink_c_objects.specs.declared.object.Object.TheVariants.{Aead, Daead, Mac, Prfs};
ghost use Rattle.tink_c_objects.specs.Objects.{Fills, Loads, Puts, held_by};

use crate::object::Object;
use crate::owner::Owner;
use std::alloc::Global;
use tink_c_bytes::{OK, status};
use tink_c_primitives::{aeads_in_file, daeads_in_file, macs_in_file, prfs_in_file};
use tink_io::{Kind, TinkError};

/// Fills an object with the AEADs of the valid keyset of a file. The object that was there is freed. After a status other
/// than 0 it is as before.
pub fn fill_aead(alloc: Global, owner: &mut Owner, file: &[u8]) -> u8
    ensures { Fills IsAead Aead (aeads_of file.now) (held_by owner.old) (held_by owner.new) result }
{
    let loaded = load_aead(alloc, file);
    fill(alloc, owner, loaded)
}

fn load_aead(alloc: Global, file: &[u8]) -> Result<Box<Object>, TinkError>
    ensures { Loads IsAead Aead (aeads_of file.now) result }
{
    let aeads = aeads_in_file(alloc, file)?;
    box_object(alloc, Object::Aead(aeads))
}

/// Fills an object with the deterministic AEADs of the valid keyset of a file. The object that was there is freed. After a status other
/// than 0 it is as before.
pub fn fill_daead(alloc: Global, owner: &mut Owner, file: &[u8]) -> u8
    ensures { Fills IsDaead Daead (daeads_of file.now) (held_by owner.old) (held_by owner.new) result }
{
    let loaded = load_daead(alloc, file);
    fill(alloc, owner, loaded)
}

fn load_daead(alloc: Global, file: &[u8]) -> Result<Box<Object>, TinkError>
    ensures { Loads IsDaead Daead (daeads_of file.now) result }
{
    let daeads = daeads_in_file(alloc, file)?;
    box_object(alloc, Object::Daead(daeads))
}

/// Fills an object with the MACs of the valid keyset of a file. The object that was there is freed. After a status other
/// than 0 it is as before.
pub fn fill_mac(alloc: Global, owner: &mut Owner, file: &[u8]) -> u8
    ensures { Fills AreLoadedMacs Mac (macs_of_file file.now) (held_by owner.old) (held_by owner.new) result }
{
    let loaded = load_mac(alloc, file);
    fill(alloc, owner, loaded)
}

fn load_mac(alloc: Global, file: &[u8]) -> Result<Box<Object>, TinkError>
    ensures { Loads AreLoadedMacs Mac (macs_of_file file.now) result }
{
    let macs = macs_in_file(alloc, file)?;
    box_object(alloc, Object::Mac(macs))
}

/// Fills an object with the pseudorandom functions of the valid keyset of a file. The object that was there is freed. After a status other
/// than 0 it is as before.
pub fn fill_prfs(alloc: Global, owner: &mut Owner, file: &[u8]) -> u8
    ensures { Fills ArePrfs Prfs (prfs_of_file file.now) (held_by owner.old) (held_by owner.new) result }
{
    let loaded = load_prfs(alloc, file);
    fill(alloc, owner, loaded)
}

fn load_prfs(alloc: Global, file: &[u8]) -> Result<Box<Object>, TinkError>
    ensures { Loads ArePrfs Prfs (prfs_of_file file.now) result }
{
    let prfs = prfs_in_file(alloc, file)?;
    box_object(alloc, Object::Prfs(prfs))
}

// An object on the heap.
pub(crate) fn box_object(alloc: Global, object: Object) -> Result<Box<Object>, TinkError>
    ensures ok { IfOk result (λ b. b.value ≡ object) }
    ensures err { IfErr result (λ e. e.kind ≡ OutOfMemory) }
{
    match Box::new(alloc, object) {
        Ok(boxed) => Ok(boxed),
        Err(_) => Err(TinkError::new(Kind::OutOfMemory)),
    }
}

// Fills an object with what was loaded.
pub(crate) fn fill(alloc: Global, owner: &mut Owner, loaded: Result<Box<Object>, TinkError>) -> u8
    ensures { Puts loaded (held_by owner.old) (held_by owner.new) result }
{
    match loaded {
        Ok(object) => {
            owner.put(alloc, object);
            OK
        }
        Err(e) => status(e.kind),
    }
}
