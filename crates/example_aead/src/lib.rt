//! Encrypts the value of a row, and binds it to the row's name.
#![tactic(auto)]

ghost use Rattle.tink_io.specs.Answering.{Replies};

use std::alloc::Global;
use tink::{Aead, Draws, TinkError};
use tink_proto::Bytes;

/// The ciphertext of `value`. The name of the row is its associated data.
pub fn encrypt_value<A: Aead>(
    alloc: Global,
    aead: &A,
    row: &[u8],
    value: &[u8],
    draws: &mut Draws,
) -> Result<Bytes, TinkError>
    ensures { Replies result (A.encrypts aead.now value.now row.now draws.old) draws.old draws.new }
{
    aead.encrypt(alloc, value, row, draws)
}
