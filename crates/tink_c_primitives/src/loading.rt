//! The primitives of a file of keys.

ghost use Rattle.tink_io.specs.Answering.{Answers};
ghost use Rattle.tink_tokens.specs.TokenSteps.{AreLoadedMacs};
ghost use Rattle.tink_tokens.specs.Tokens.{macs_in};
ghost use Rattle.tink_c_primitives.specs.Primitives.{ArePrfs, GivesKeys, IsAead, IsDaead, aeads_in, aeads_of, daeads_in, daeads_of, macs_of_file, prfs_in, prfs_of_file, valid_in_file};

use std::alloc::Global;
use tink::{Managers, key_managers};
use tink_aead::{AeadKind, WrappedAead};
use tink_c_bytes::copy_of;
use tink_daead::WrappedDeterministicAead;
use tink_daead::subtle::AesSiv;
use tink_io::TinkError;
use tink_keyset_io::key_files::wire_bytes;
use tink_keysets::keyset::{Handle, insecure};
use tink_mac::{MacKind, WrappedMac};
use tink_prf::{PrfKind, Set};

/// The AEADs of the valid keyset of a file as one.
///
/// # Errors
/// `BadJson`, `BadKeyset` or `InvalidKeyset` if the file is no valid keyset. `InvalidKey` or `UnsupportedKeyType` for the
/// first enabled key that does not build; `NoPrimary`; `WrongPrimitive` if an enabled key is for another use.
pub fn aeads_in_file(alloc: Global, file: &[u8]) -> Result<WrappedAead<AeadKind>, TinkError>
    ensures { GivesKeys IsAead result (aeads_of file.now) }
{
    let handle = valid_handle(alloc, file)?;
    build_aeads(alloc, &handle)
}

/// The deterministic AEADs of the valid keyset of a file as one.
///
/// # Errors
/// Those of `aeads_in_file`.
pub fn daeads_in_file(
    alloc: Global,
    file: &[u8],
) -> Result<WrappedDeterministicAead<AesSiv>, TinkError>
    ensures { GivesKeys IsDaead result (daeads_of file.now) }
{
    let handle = valid_handle(alloc, file)?;
    build_daeads(alloc, &handle)
}

/// The MACs of the valid keyset of a file as one.
///
/// # Errors
/// Those of `aeads_in_file`.
pub fn macs_in_file(alloc: Global, file: &[u8]) -> Result<WrappedMac<MacKind>, TinkError>
    ensures { GivesKeys AreLoadedMacs result (macs_of_file file.now) }
{
    let handle = valid_handle(alloc, file)?;
    build_macs(alloc, &handle)
}

/// The pseudorandom functions of the valid keyset of a file.
///
/// # Errors
/// Those of `aeads_in_file`, and `NotRawOnly` if an enabled key has an output prefix.
pub fn prfs_in_file(alloc: Global, file: &[u8]) -> Result<Set<PrfKind>, TinkError>
    ensures { GivesKeys ArePrfs result (prfs_of_file file.now) }
{
    let handle = valid_handle(alloc, file)?;
    build_prfs(alloc, &handle)
}

// The AEADs of a handle.
fn build_aeads(alloc: Global, handle: &Handle) -> Result<WrappedAead<AeadKind>, TinkError>
    ensures { GivesKeys IsAead result (aeads_in handle.now) }
{
    let registry = key_managers(alloc)?;
    tink_aead::new::<Managers, AeadKind>(alloc, handle, &registry)
}

// The deterministic AEADs of a handle.
fn build_daeads(
    alloc: Global,
    handle: &Handle,
) -> Result<WrappedDeterministicAead<AesSiv>, TinkError>
    ensures { GivesKeys IsDaead result (daeads_in handle.now) }
{
    let registry = key_managers(alloc)?;
    tink_daead::new::<Managers, AesSiv>(alloc, handle, &registry)
}

// The MACs of a handle.
fn build_macs(alloc: Global, handle: &Handle) -> Result<WrappedMac<MacKind>, TinkError>
    ensures { GivesKeys AreLoadedMacs result (macs_in handle.now) }
{
    let registry = key_managers(alloc)?;
    tink_mac::new::<Managers, MacKind>(alloc, handle, &registry)
}

// The pseudorandom functions of a handle.
fn build_prfs(alloc: Global, handle: &Handle) -> Result<Set<PrfKind>, TinkError>
    ensures { GivesKeys ArePrfs result (prfs_in handle.now) }
{
    let registry = key_managers(alloc)?;
    Set::<PrfKind>::new::<Managers>(alloc, handle, &registry)
}

// A handle of the valid keyset of a file.
fn valid_handle(alloc: Global, file: &[u8]) -> Result<Handle, TinkError>
    ensures { Answers result (valid_in_file file.now) }
{
    let file = copy_of(alloc, file)?;
    let keyset = wire_bytes(alloc, file)?;
    insecure::valid_handle(alloc, keyset.as_slice())
}
