//! Random bytes of the system, for a program that calls the library.
#![tactic(auto)]

ghost use Rattle.std.specs.Prelude.{◌≡◌, ◌≤◌, ◌⊎◌, IfErr, IfOk, OnErr, OnOk, length};
ghost use Rattle.tink_io.specs.declared.error.Kind.TheVariants.{OutOfMemory, RandomFault};

use std::random::RandomSource;
use tink_io::{Draws, Kind, TinkError};

/// `n` random bytes of the system.
///
/// # Errors
/// `OutOfMemory`; `RandomFault` if the system gives no random bytes.
pub fn draws(rt: &HostRuntime, n: usize) -> Result<Draws, TinkError>
    ensures count { IfOk result (λ d. length d ≡ n) }
    ensures cause { IfErr result (λ e. (e.kind ≡ OutOfMemory) ⊎ (e.kind ≡ RandomFault)) }
{
    let mut bytes = Vec::new(rt.alloc());
    if bytes.resize(n, 0).is_err() {
        return Err(TinkError::new(Kind::OutOfMemory));
    }
    match rt.fill_bytes(bytes.as_mut_slice()) {
        Ok(()) => Ok(Draws::new(bytes)),
        Err(_) => Err(TinkError::new(Kind::RandomFault)),
    }
}

/// Goes on where random bytes run out: if fewer than `n` are left, `n` new ones take their place.
///
/// # Errors
/// `OutOfMemory`; `RandomFault` if the system gives no random bytes. Then `draws` is unchanged.
pub fn refill(rt: &HostRuntime, draws: &mut Draws, n: usize) -> Result<(), TinkError>
    ensures left { OnOk result (n ≤ length draws.new) }
    ensures kept { n ≤ length draws.old → draws.new ≡ draws.old }
    ensures err { OnErr result (draws.new ≡ draws.old) }
    ensures cause { IfErr result (λ e. (e.kind ≡ OutOfMemory) ⊎ (e.kind ≡ RandomFault)) }
{
    if draws.left() >= n {
        return Ok(());
    }
    *draws = self::draws(rt, n)?;
    Ok(())
}
