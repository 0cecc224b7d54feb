//! What holds of a keyset that is written under a master key and read again.

ghost use Rattle.std.specs.Prelude.{◌≡◌, ℕ, List, Ok, Err};
ghost use Rattle.wire_format.specs.Message.{encoded};
ghost use Rattle.tink_io.specs.declared.error.Kind.{Kind};
ghost use Rattle.tink_io.specs.declared.error.Kind.TheVariants.{MasterFailed};
ghost use Rattle.tink_io.specs.Answering.{Answers, made_of};
ghost use Rattle.tink_proto.specs.Messages.{keyset};
ghost use Rattle.tink_keysets.specs.Encrypted.{by_master, MasterUndoes};
ghost use Rattle.tink_keysets.specs.Through.{LeavesDraws};

use crate::keyset::{Handle, MemReaderWriter};
use std::alloc::Global;
use tink_io::{Draws, TinkError};
use tink_primitives::Aead;

/// Writes a keyset into memory under the associated data `written`, and reads it under `read`.
///
/// Under the same data the same keyset is read, where the master's decryption undoes its encryption. Under data for
/// which the master refuses what it encrypted, the answer is `MasterFailed`. The draws left are the master's.
///
/// # Errors
/// `MasterFailed` under the same data if the master refuses to encrypt, and under other data if it refuses to decrypt.
/// `OutOfMemory` may come in place of each.
pub fn law_written_is_read<A: Aead>(
    alloc: Global,
    h: &Handle,
    master: &A,
    written: &[u8],
    read: &[u8],
    draws: &mut Draws,
) -> Result<Handle, TinkError>
    ensures same { MasterUndoes (A.encrypts master.now) (A.decrypts master.now) → read.now ≡ written.now
        → Answers result (made_of (λ _. h.now)
        (by_master (A.encrypts master.now (encoded keyset.write h.now) written.now draws.old).0)) }
    ensures other { (ciphertext : List ℕ) (kind : Kind)
        → (A.encrypts master.now (encoded keyset.write h.now) written.now draws.old).0 ≡ Ok ciphertext
        → A.decrypts master.now ciphertext read.now ≡ Err kind → Answers result (Err MasterFailed) }
    ensures rest { LeavesDraws result (A.encrypts master.now (encoded keyset.write h.now) written.now draws.old).1
        draws.old draws.new }
{
    let mut memory = MemReaderWriter::default();
    match h.write_with_associated_data(alloc, &mut memory, master, written, draws) {
        Ok(()) => Handle::read_with_associated_data(alloc, &mut memory, master, read),
        Err(e) => Err(e),
    }
}
