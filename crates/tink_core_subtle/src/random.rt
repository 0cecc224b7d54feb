//! Random bytes and numbers of draws that are handed in.

ghost use Rattle.std.specs.Prelude.{◌≡◌, ◌↔◌, ◌<◌, length, take, drop, IsErr, IfOk, OnOk, OnErr, IfErr};
ghost use Rattle.std.specs.Int.{w32, from_be_bytes};
ghost use Rattle.tink_io.specs.Answering.{Replies};
ghost use Rattle.tink_io.specs.declared.error.Kind.TheVariants.{RandomFault};
ghost use Rattle.tink_core_subtle.specs.Random.{takes_bytes};

use std::alloc::Global;
use tink_io::{Draws, Kind, TinkError};
use tink_proto::Bytes;

/// The next `n` draws.
///
/// # Errors
/// `RandomFault` exactly where fewer are left, and then none is taken; `OutOfMemory`.
pub fn get_random_bytes(alloc: Global, draws: &mut Draws, n: usize) -> Result<Bytes, TinkError>
    ensures replies { Replies result (takes_bytes n draws.old) draws.old draws.new }
    ensures err { OnErr result (draws.new ≡ draws.old) }
{
    if draws.left() < n {
        return Err(TinkError::new(Kind::RandomFault));
    }
    let mut bytes = vec![in alloc; 0; n]?;
    draws.take_into(&mut bytes)?;
    Ok(Bytes::from_vec(bytes))
}

/// The next four draws as a number, the greatest place first.
///
/// # Errors
/// `RandomFault` exactly where fewer are left, and then none is taken.
pub fn get_random_uint32(draws: &mut Draws) -> Result<u32, TinkError>
    ensures random_fault { IsErr result ↔ (length draws.old < 4) }
    ensures value { IfOk result (λ n. n ≡ from_be_bytes w32 (take 4 draws.old)) }
    ensures rest { OnOk result (draws.new ≡ drop 4 draws.old) }
    ensures refused { IfErr result (λ e. e ≡ record { kind = RandomFault }) }
    ensures err { OnErr result (draws.new ≡ draws.old) }
{
    let mut bytes = [0; 4];
    draws.take_into(&mut bytes)?;
    Ok(u32::from_be_bytes(bytes))
}
