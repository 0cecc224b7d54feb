//! A master that binds its associated data, and an end of keysets that fails.

ghost use Rattle.std.specs.Prelude.{◌≡◌, ◌≤◌, ⊤, Some, Err};
ghost use Rattle.tink_io.specs.Faults.{Rose};
ghost use Rattle.tink_io.specs.declared.error.Kind.TheVariants.{ReadFault, WriteFault};
ghost use Rattle.test_tink_keyset_io.specs.TestMaster.{bound, bound_drawn, unbound, unbound_told};

use std::alloc::Global;
use tink_core_subtle::random::get_random_bytes;
use tink_io::{Draws, Kind, TinkError};
use tink_keysets::keyset::{Reader, Writer};
use tink_primitives::Aead;
use tink_proto::{Bytes, EncryptedKeyset, Keyset};

/// Binds its associated data, and keeps nothing secret: the ciphertext is the associated data, one draw and the text.
pub struct Binding;

impl Aead for Binding {
    ghost encrypts = { λ _ text associated_data draws. bound text associated_data draws };

    ghost decrypts = { λ _ ciphertext associated_data. unbound ciphertext associated_data };

    fn encrypt(
        &self,
        alloc: Global,
        plaintext: &[u8],
        additional_data: &[u8],
        draws: &mut Draws,
    ) -> Result<Bytes, TinkError> {
        let mut bytes = Vec::from_slice(alloc, additional_data)?;
        let drawn = get_random_bytes(alloc, draws, 1)?;
        bytes.extend_from_slice(drawn.as_slice())?;
        bytes.extend_from_slice(plaintext)?;
        Ok(Bytes::from_vec(bytes))
    }

    fn decrypt(
        &self,
        alloc: Global,
        ciphertext: &[u8],
        additional_data: &[u8],
    ) -> Result<Bytes, TinkError> {
        let size = additional_data.len();
        if ciphertext.len() < size + 1 || &ciphertext[..size] != additional_data {
            return Err(TinkError::new(Kind::DecryptFailed));
        }
        Ok(Bytes::from_slice(alloc, &ciphertext[size + 1..])?)
    }

    ghost encrypts_told = { λ _ text associated_data draws. bound_drawn text associated_data draws };

    ghost decrypts_told = { λ _ ciphertext associated_data. unbound_told ciphertext associated_data };
}

/// Fails at each call.
#[derive(Drop)]
pub struct Failing {
    pub faults: u64,
}

impl Failing {
    fn fail(&mut self, kind: Kind) -> TinkError
        ensures kind { result ≡ record { kind = kind } }
        ensures rose { Rose self.old.faults self.new.faults }
        ensures count { self.old.faults ≤ self.new.faults }
    {
        self.faults = self.faults.saturating_add(1);
        TinkError::new(kind)
    }
}

impl Reader for Failing {
    ghost faults = { λ e. e.faults };

    ghost reads = { λ _. Some (Err ReadFault) };

    ghost reads_encrypted = { λ _. Some (Err ReadFault) };

    ghost leaves = { λ _ _. ⊤ };

    ghost same = { λ _ _. ⊤ };

    fn read(&mut self, _alloc: Global) -> Result<Keyset, TinkError> {
        Err(self.fail(Kind::ReadFault))
    }

    fn read_encrypted(&mut self, _alloc: Global) -> Result<EncryptedKeyset, TinkError> {
        Err(self.fail(Kind::ReadFault))
    }

    ghost same_refl = { λ _. tt };

    ghost same_trans = { λ _ _ _ _ _. tt };
}

impl Writer for Failing {
    ghost faults = { λ e. e.faults };

    ghost answers = { λ _ _. Some (Err WriteFault) };

    ghost answers_encrypted = { λ _ _. Some (Err WriteFault) };

    ghost writes = { λ _ _ _. ⊥ };

    ghost writes_encrypted = { λ _ _ _. ⊥ };

    ghost refused = { λ _ _ _ _. ⊤ };

    ghost refused_encrypted = { λ _ _ _ _. ⊤ };

    ghost same = { λ _ _. ⊤ };

    fn write(&mut self, _alloc: Global, _ks: &Keyset) -> Result<(), TinkError> {
        Err(self.fail(Kind::WriteFault))
    }

    fn write_encrypted(&mut self, _alloc: Global, _ks: &EncryptedKeyset) -> Result<(), TinkError> {
        Err(self.fail(Kind::WriteFault))
    }

    ghost same_refl = { λ _. tt };

    ghost same_trans = { λ _ _ _ _ _. tt };
}
