//! The AEADs of a file of keys.

ghost use Rattle.tink_io.specs.Answering.{Answers};
ghost use Rattle.tink_cli_files.specs.Masters.{GivesMaster, master_in, master_of, valid_in_file};

use std::alloc::Global;
use tink::{Managers, key_managers};
use tink_aead::{AeadKind, WrappedAead};
use tink_io::TinkError;
use tink_keyset_io::key_files::wire_bytes;
use tink_keysets::keyset::{Handle, insecure};

/// The AEADs of a master keyset as one: the primary key encrypts, and any key decrypts.
pub type Master = WrappedAead<AeadKind>;

/// The AEADs of the valid keyset of a file of keys.
///
/// # Errors
/// The first that applies:
/// - exactly if the file spells no keyset, `BadJson` if it is JSON by its first byte, and else `BadKeyset`;
/// - `InvalidKeyset` exactly if the keyset is not valid;
/// - `InvalidKey` or `UnsupportedKeyType` of the first enabled key that does not build;
/// - `NoPrimary`;
/// - `WrongPrimitive` exactly if an enabled key is no AEAD.
///
/// `OutOfMemory` may come in place of each.
pub fn load_master(alloc: Global, file: Vec<u8>) -> Result<Master, TinkError>
    ensures { GivesMaster result (master_of file.items) }
{
    let handle = valid_in_file(alloc, file)?;
    build_master(alloc, &handle)
}

// A handle of the valid keyset of a file.
pub(crate) fn valid_in_file(alloc: Global, file: Vec<u8>) -> Result<Handle, TinkError>
    ensures { Answers result (valid_in_file file.items) }
{
    let keyset = wire_bytes(alloc, file)?;
    insecure::valid_handle(alloc, keyset.as_slice())
}

// The AEADs of a handle, by the managers of all types of keys.
fn build_master(alloc: Global, handle: &Handle) -> Result<Master, TinkError>
    ensures { GivesMaster result (master_in handle.now) }
{
    let registry = key_managers(alloc)?;
    tink_aead::new::<Managers, AeadKind>(alloc, handle, &registry)
}
