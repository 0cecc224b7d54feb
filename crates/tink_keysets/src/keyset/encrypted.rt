//! Keysets that are read and written under a master key.

ghost use Rattle.std.specs.Prelude.{◌≡◌, ◌≤◌, [], Ok, OnOk, IfOk, IfErr};
ghost use Rattle.wire_format.specs.Message.{encoded};
ghost use Rattle.tink_io.specs.Answering.{Answers, Replies};
ghost use Rattle.tink_io.specs.declared.error.Kind.TheVariants.{OutOfMemory};
ghost use Rattle.tink_proto.specs.Messages.{keyset};
ghost use Rattle.tink_keysets.specs.Encrypted.{decrypted, encrypted, handle_of_bytes};
ghost use Rattle.tink_keysets.specs.Through.{GivesBy, LeavesDraws, MakesAndWrites};

use crate::keyset::{Handle, Reader, Writer, insecure};
use std::alloc::Global;
use tink_io::{Draws, Kind, TinkError};
use tink_keyset_rules::{decrypted_bytes, encrypted_bytes};
use tink_primitives::Aead;
use tink_proto::{Bytes, EncryptedKeyset, Message};

impl Handle {
    /// A handle of the encrypted keyset that is read, which `master` decrypts with empty associated data.
    ///
    /// # Errors
    /// As `read_with_associated_data`.
    pub fn read<R: Reader, A: Aead>(
        alloc: Global,
        reader: &mut R,
        master: &A,
    ) -> Result<Handle, TinkError>
        ensures answer { GivesBy (decrypted (A.decrypts master.now) []) result
            (R.reads_encrypted reader.old) (R.faults reader.old) (R.faults reader.new) }
        ensures count { R.faults reader.old ≤ R.faults reader.new }
        ensures leaves { R.leaves reader.old reader.new }
        ensures same { R.same reader.old reader.new }
    {
        Handle::read_with_associated_data(alloc, reader, master, &[])
    }

    /// A handle of the encrypted keyset that is read, which `master` decrypts with the associated data.
    ///
    /// # Errors
    /// Those of the reader. Then `MasterFailed` exactly if the master refuses. Then `BadKeyset` exactly if the
    /// plaintext is no keyset in the wire format. Then `InvalidKeyset` exactly if a key that is not destroyed has no
    /// data, or data has a material outside 0 to 4. `OutOfMemory` may come in place of each.
    pub fn read_with_associated_data<R: Reader, A: Aead>(
        alloc: Global,
        reader: &mut R,
        master: &A,
        associated_data: &[u8],
    ) -> Result<Handle, TinkError>
        ensures answer { GivesBy (decrypted (A.decrypts master.now) associated_data.now) result
            (R.reads_encrypted reader.old) (R.faults reader.old) (R.faults reader.new) }
        ensures count { R.faults reader.old ≤ R.faults reader.new }
        ensures leaves { R.leaves reader.old reader.new }
        ensures same { R.same reader.old reader.new }
    {
        match reader.read_encrypted(alloc) {
            Ok(encrypted) => decrypt(alloc, &encrypted, master, associated_data),
            Err(e) => Err(e),
        }
    }

    /// Writes the keyset, encrypted by `master` with empty associated data.
    ///
    /// # Errors
    /// As `write_with_associated_data`.
    pub fn write<W: Writer, A: Aead>(
        &self,
        alloc: Global,
        writer: &mut W,
        master: &A,
        draws: &mut Draws,
    ) -> Result<(), TinkError>
        ensures answer { MakesAndWrites W.answers_encrypted W.writes_encrypted W.refused_encrypted W.faults result
            (encrypted (A.encrypts master.now) [] draws.old self.now).0 writer.old writer.new }
        ensures rest { LeavesDraws result (encrypted (A.encrypts master.now) [] draws.old self.now).1
            draws.old draws.new }
        ensures count { W.faults writer.old ≤ W.faults writer.new }
        ensures same { W.same writer.old writer.new }

        // The bytes that were encrypted are those of a handle, which is this one.
        ensures again { OnOk result (handle_of_bytes (encoded keyset.write self.now) ≡ Ok self.now) }
    {
        self.write_with_associated_data(alloc, writer, master, &[], draws)
    }

    /// Writes the bytes of the keyset, encrypted by `master` with the associated data, and the keyset info in the
    /// clear.
    ///
    /// # Errors
    /// `MasterFailed` exactly if the master refuses: the writer is then as before. Then those of the writer, to which
    /// only the encrypted keyset was given. Its type says by `refused_encrypted` how much of it the writer then has.
    /// `OutOfMemory` may come in place of each.
    pub fn write_with_associated_data<W: Writer, A: Aead>(
        &self,
        alloc: Global,
        writer: &mut W,
        master: &A,
        associated_data: &[u8],
        draws: &mut Draws,
    ) -> Result<(), TinkError>
        ensures answer { MakesAndWrites W.answers_encrypted W.writes_encrypted W.refused_encrypted W.faults result
            (encrypted (A.encrypts master.now) associated_data.now draws.old self.now).0 writer.old writer.new }
        ensures rest { LeavesDraws result (encrypted (A.encrypts master.now) associated_data.now draws.old self.now).1
            draws.old draws.new }
        ensures count { W.faults writer.old ≤ W.faults writer.new }
        ensures same { W.same writer.old writer.new }

        // The bytes that were encrypted are those of a handle, which is this one.
        ensures again { OnOk result (handle_of_bytes (encoded keyset.write self.now) ≡ Ok self.now) }
    {
        match encrypt(alloc, self, master, associated_data, draws) {
            Ok(encrypted) => writer.write_encrypted(alloc, &encrypted),
            Err(e) => Err(e),
        }
    }
}

// A handle of the keyset that the bytes spell.
fn handle_of_bytes(alloc: Global, bytes: &[u8]) -> Result<Handle, TinkError>
    ensures { Answers result (handle_of_bytes bytes.now) }
{
    match insecure::decode(alloc, bytes) {
        Ok(keyset) => Handle::from_keyset(keyset),
        Err(e) => Err(e),
    }
}

// The bytes of a handle's keyset. Its error is `OutOfMemory` alone.
#[tactic(auto, using(crate::proofs::ReadBack::spelled))]
fn bytes_of(alloc: Global, h: &Handle) -> Result<Bytes, TinkError>
    ensures bytes { IfOk result (λ b. b ≡ encoded keyset.write h.now) }
    ensures again { OnOk result (handle_of_bytes (encoded keyset.write h.now) ≡ Ok h.now) }
    ensures err { IfErr result (λ e. e ≡ record { kind = OutOfMemory }) }
{
    match h.keyset().encode(alloc) {
        Ok(bytes) => Ok(bytes),
        Err(_) => Err(TinkError::new(Kind::OutOfMemory)),
    }
}

// The handle of an encrypted keyset.
fn decrypt<A: Aead>(
    alloc: Global,
    encrypted: &EncryptedKeyset,
    master: &A,
    associated_data: &[u8],
) -> Result<Handle, TinkError>
    ensures { Answers result (decrypted (A.decrypts master.now) associated_data.now encrypted.now) }
{
    match decrypted_bytes(
        alloc,
        encrypted.encrypted_keyset.as_slice(),
        master,
        associated_data,
    ) {
        Ok(bytes) => handle_of_bytes(alloc, bytes.as_slice()),
        Err(e) => Err(e),
    }
}

// The encrypted keyset of a handle. Draws are taken last, which no clause says.
fn encrypt<A: Aead>(
    alloc: Global,
    h: &Handle,
    master: &A,
    associated_data: &[u8],
    draws: &mut Draws,
) -> Result<EncryptedKeyset, TinkError>
    ensures replies { Replies result (encrypted (A.encrypts master.now) associated_data.now draws.old h.now)
        draws.old draws.new }
    ensures again { OnOk result (handle_of_bytes (encoded keyset.write h.now) ≡ Ok h.now) }
{
    let keyset_info = match h.keyset_info(alloc) {
        Ok(keyset_info) => keyset_info,
        Err(e) => return Err(e),
    };
    let bytes = match bytes_of(alloc, h) {
        Ok(bytes) => bytes,
        Err(e) => return Err(e),
    };
    match encrypted_bytes(alloc, bytes.as_slice(), master, associated_data, draws) {
        Ok(encrypted_keyset) => Ok(EncryptedKeyset {
            encrypted_keyset,
            keyset_info: Some(keyset_info),
        }),
        Err(e) => Err(e),
    }
}
