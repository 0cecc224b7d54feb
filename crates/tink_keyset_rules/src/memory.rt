//! Keysets in memory, as a reader and a writer.

ghost use Rattle.std.specs.Prelude.{◌≡◌, ◌≤◌, ⊤, Some, Ok, OnOk, OnErr};
ghost use Rattle.tink_keyset_rules.specs.Ends.{HasPut, HasRead, HasWritten, held_or};

use crate::copies::copy;
use crate::{Reader, Writer};
use std::alloc::Global;
use tink_io::{Kind, TinkError};
use tink_proto::{EncryptedKeyset, Keyset};

/// A keyset and an encrypted keyset. Each may be absent. Reading copies, and writing replaces.
#[derive(Default, Drop)]
pub struct MemReaderWriter {
    /// The keyset, if there is one.
    pub keyset: Option<Keyset>,
    /// The encrypted keyset, if there is one.
    pub encrypted_keyset: Option<EncryptedKeyset>,
}

impl Reader for MemReaderWriter {
    ghost faults = { λ _. 0 };

    ghost reads = { λ m. Some (held_or m.keyset) };

    ghost reads_encrypted = { λ m. Some (held_or m.encrypted_keyset) };

    ghost leaves = { λ before after. after ≡ before };

    ghost same = { λ _ _. ⊤ };

    /// A copy of the keyset.
    ///
    /// # Errors
    /// `NoKeyset` exactly where there is none, and `OutOfMemory`.
    fn read(&mut self, alloc: Global) -> Result<Keyset, TinkError>
        ensures answer { HasRead result (Some (held_or self.old.keyset)) 0 0 }
        ensures count { 0 ≤ 0 }
        ensures leaves { self.new ≡ self.old }
        ensures same { ⊤ }
    {
        match &self.keyset {
            Some(keyset) => copy(alloc, keyset),
            None => Err(TinkError::new(Kind::NoKeyset)),
        }
    }

    /// A copy of the encrypted keyset.
    ///
    /// # Errors
    /// `NoKeyset` exactly where there is none, and `OutOfMemory`.
    fn read_encrypted(&mut self, alloc: Global) -> Result<EncryptedKeyset, TinkError>
        ensures answer { HasRead result (Some (held_or self.old.encrypted_keyset)) 0 0 }
        ensures count { 0 ≤ 0 }
        ensures leaves { self.new ≡ self.old }
        ensures same { ⊤ }
    {
        match &self.encrypted_keyset {
            Some(keyset) => copy(alloc, keyset),
            None => Err(TinkError::new(Kind::NoKeyset)),
        }
    }

    ghost same_refl = { λ _. tt };

    ghost same_trans = { λ _ _ _ _ _. tt };
}

impl Writer for MemReaderWriter {
    ghost faults = { λ _. 0 };

    ghost answers = { λ _ _. Some (Ok tt) };

    ghost answers_encrypted = { λ _ _. Some (Ok tt) };

    ghost writes = { λ before ks after. after ≡ record before { keyset = Some ks } };

    ghost writes_encrypted = { λ before ks after. after ≡ record before { encrypted_keyset = Some ks } };

    ghost refused = { λ before _ _ after. after ≡ before };

    ghost refused_encrypted = { λ before _ _ after. after ≡ before };

    ghost same = { λ _ _. ⊤ };

    /// Puts a copy of the keyset in place of the one that is there.
    ///
    /// # Errors
    /// `OutOfMemory`; then nothing changes.
    fn write(&mut self, alloc: Global, ks: &Keyset) -> Result<(), TinkError>
        ensures answer { HasWritten result (Some (Ok tt)) 0 0 }
        ensures written { OnOk result (self.new ≡ record self.old { keyset = Some ks.now }) }
        ensures refused { OnErr result (self.new ≡ self.old) }
        ensures count { 0 ≤ 0 }
        ensures same { ⊤ }
    {
        put(&mut self.keyset, copy(alloc, ks))
    }

    /// Puts a copy of the encrypted keyset in place of the one that is there.
    ///
    /// # Errors
    /// `OutOfMemory`; then nothing changes.
    fn write_encrypted(&mut self, alloc: Global, ks: &EncryptedKeyset) -> Result<(), TinkError>
        ensures answer { HasWritten result (Some (Ok tt)) 0 0 }
        ensures written { OnOk result (self.new ≡ record self.old { encrypted_keyset = Some ks.now }) }
        ensures refused { OnErr result (self.new ≡ self.old) }
        ensures count { 0 ≤ 0 }
        ensures same { ⊤ }
    {
        put(&mut self.encrypted_keyset, copy(alloc, ks))
    }

    ghost same_refl = { λ _. tt };

    ghost same_trans = { λ _ _ _ _ _. tt };
}

// Puts what was made in place of what is there. A refusal changes nothing.
fn put<T: Drop>(slot: &mut Option<T>, made: Result<T, TinkError>) -> Result<(), TinkError>
    ensures { HasPut made result slot.old slot.new }
{
    match made {
        Ok(value) => {
            *slot = Some(value);
            Ok(())
        }
        Err(e) => Err(e),
    }
}
