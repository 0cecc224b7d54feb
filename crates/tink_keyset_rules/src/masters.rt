//! What a master key decrypts and encrypts.

ghost use Rattle.std.specs.Prelude.{◌≡◌};
ghost use Rattle.tink_io.specs.Answering.{Answers, Replies};
ghost use Rattle.tink_keyset_rules.specs.Masters.{by_master, drawn_by_master, master_kind};

use std::alloc::Global;
use tink_io::{Draws, Kind, TinkError};
use tink_primitives::Aead;
use tink_proto::Bytes;

// `OutOfMemory` stays, and each other refusal of a master is `MasterFailed`.
fn refused_by_master(e: TinkError) -> TinkError
    ensures { result.kind ≡ master_kind e.kind }
{
    match e.kind {
        Kind::OutOfMemory => e,
        _ => TinkError::new(Kind::MasterFailed),
    }
}

/// What a master decrypts.
///
/// # Errors
/// `MasterFailed` exactly where the master refuses, or `OutOfMemory`.
pub fn decrypted_bytes<A: Aead>(
    alloc: Global,
    ciphertext: &[u8],
    master: &A,
    associated_data: &[u8],
) -> Result<Bytes, TinkError>
    ensures { Answers result (by_master (A.decrypts master.now ciphertext.now associated_data.now)) }
{
    match master.decrypt(alloc, ciphertext, associated_data) {
        Ok(bytes) => Ok(bytes),
        Err(e) => Err(refused_by_master(e)),
    }
}

/// What a master encrypts.
///
/// # Errors
/// `MasterFailed` exactly where the master refuses, or `OutOfMemory`.
pub fn encrypted_bytes<A: Aead>(
    alloc: Global,
    bytes: &[u8],
    master: &A,
    associated_data: &[u8],
    draws: &mut Draws,
) -> Result<Bytes, TinkError>
    ensures { Replies result (drawn_by_master (A.encrypts master.now bytes.now associated_data.now draws.old))
        draws.old draws.new }
{
    match master.encrypt(alloc, bytes, associated_data, draws) {
        Ok(ciphertext) => Ok(ciphertext),
        Err(e) => Err(refused_by_master(e)),
    }
}
