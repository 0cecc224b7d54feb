//! What the caller hands in, as values of the library.

ghost use Rattle.std.specs.Prelude.{◌≡◌, IfOk, IfErr};
ghost use Rattle.tink_io.specs.declared.error.Kind.TheVariants.{OutOfMemory};

use std::alloc::Global;
use tink_io::{Draws, TinkError};

/// A copy of bytes.
///
/// # Errors
/// `OutOfMemory` alone.
pub fn copy_of(alloc: Global, bytes: &[u8]) -> Result<Vec<u8>, TinkError>
    ensures ok { IfOk result (λ v. v.items ≡ bytes.now) }
    ensures err { IfErr result (λ e. e ≡ record { kind = OutOfMemory }) }
{
    Ok(bytes.to_vec(alloc)?)
}

/// Random bytes, which are taken from the first one on.
///
/// # Errors
/// `OutOfMemory` alone.
pub fn draws_of(alloc: Global, random: &[u8]) -> Result<Draws, TinkError>
    ensures ok { IfOk result (λ d. d ≡ random.now) }
    ensures err { IfErr result (λ e. e ≡ record { kind = OutOfMemory }) }
{
    let bytes = copy_of(alloc, random)?;
    Ok(Draws::new(bytes))
}
