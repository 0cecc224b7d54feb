//! A keyset that an AEAD encrypts and decrypts.

ghost use Rattle.std.specs.Prelude.{◌≡◌, Ok, OnOk};
ghost use Rattle.wire_format.specs.Message.{encoded};
ghost use Rattle.tink_io.specs.Answering.{Answers};
ghost use Rattle.tink_proto.specs.Messages.{keyset};
ghost use Rattle.tink_keysets.specs.Encrypted.{decrypted, encrypted, handle_of_bytes};
ghost use Rattle.tink_keysets.specs.Through.{LeavesDraws};

use std::alloc::Global;
use tink_io::{Draws, TinkError};
use tink_keysets::keyset::{Handle, MemReaderWriter, Reader};
use tink_primitives::Aead;
use tink_proto::EncryptedKeyset;

/// The keyset of a handle, encrypted by `master` with the associated data, with its keyset info in the clear.
///
/// # Errors
/// `MasterFailed` if the master refuses. `OutOfMemory`.
pub fn encrypt<A: Aead>(
    alloc: Global,
    handle: &Handle,
    master: &A,
    aad: &[u8],
    draws: &mut Draws,
) -> Result<EncryptedKeyset, TinkError>
    ensures answer { Answers result (encrypted (A.encrypts master.now) aad.now draws.old handle.now).0 }
    ensures again { OnOk result (handle_of_bytes (encoded keyset.write handle.now) ≡ Ok handle.now) }
    ensures rest { LeavesDraws result (encrypted (A.encrypts master.now) aad.now draws.old handle.now).1
        draws.old draws.new }
{
    let mut memory = MemReaderWriter::default();
    handle.write_with_associated_data(alloc, &mut memory, master, aad, draws)?;
    memory.read_encrypted(alloc)
}

/// A handle of an encrypted keyset, which `master` decrypts with the associated data.
///
/// # Errors
/// The first that applies: `MasterFailed` if the master refuses. `BadKeyset` if the plaintext is no keyset in the wire
/// format. `InvalidKeyset` if a key that is not destroyed has no data, or data has a material outside 0 to 4.
/// `OutOfMemory`.
pub fn decrypt<A: Aead>(
    alloc: Global,
    encrypted: EncryptedKeyset,
    master: &A,
    aad: &[u8],
) -> Result<Handle, TinkError>
    ensures { Answers result (decrypted (A.decrypts master.now) aad.now encrypted) }
{
    let mut memory = MemReaderWriter {
        keyset: None,
        encrypted_keyset: Some(encrypted),
    };
    Handle::read_with_associated_data(alloc, &mut memory, master, aad)
}
