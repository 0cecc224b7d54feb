//! The AEADs of a keyset as one.

ghost use Rattle.std.specs.Prelude.{◌≡◌, None, true, is_some, IfOk, IfErr};
ghost use Rattle.tink_io.specs.Answering.{Answers, Replies};
ghost use Rattle.tink_io.specs.declared.error.Kind.TheVariants.{OutOfMemory};
ghost use Rattle.tink_primitives.specs.Sorts.{as_aead};
ghost use Rattle.tink_sets.specs.Entries.{entry_of};
ghost use Rattle.tink_sets.specs.Groups.{group_of, HaveSameGroups};
ghost use Rattle.tink_keysets.specs.Built.{built_entries, GivesSet};
ghost use Rattle.tink_keysets.specs.Typing.{typed_entries};
ghost use Rattle.tink_keysets.specs.Decrypting.{any_decrypts, any_decrypts_told, entry_decrypts};
ghost use Rattle.tink_aead.specs.Wrapped.{entry_encrypts, primary_encrypts};
ghost use Rattle.tink_aead.specs.Wrapped.{HasSameAnswers, IsAeadOf};
ghost use Rattle.tink_aead.specs.WrappedTold.{primary_encrypts_told};

use std::alloc::Global;
use tink_io::{Draws, Kind, TinkError};
use tink_keysets::factory::{Question, ask_entries, typed_primitives};
use tink_keysets::keyset::Handle;
use tink_primitives::{Aead, CloneIn, Kinds};
use tink_proto::Bytes;
use tink_registry::{KeyManager, Registry};
use tink_sets::sorts::Aeads;
use tink_sets::{TypedEntry, TypedPrimitiveSet};

/// The AEADs of a keyset as one: the primary key encrypts, and any key decrypts. A contract sees the
/// set of the keys' entries, `ps`, which has a primary one.
#[derive(Drop)]
pub struct WrappedAead<P> {
    ps: TypedPrimitiveSet<P>,
    ghost has_primary: { is_some ps.primary ≡ true },
}

/// The AEADs of a handle's enabled keys as one.
///
/// # Errors
/// As `Handle::primitives`; then `NoPrimary` exactly where no entry has the primary id; then
/// `WrongPrimitive` exactly where an entry is no AEAD. `OutOfMemory` may come in place of each.
pub fn new<M: KeyManager, P: Aead>(
    alloc: Global,
    h: &Handle,
    registry: &Registry<M>,
) -> Result<WrappedAead<P>, TinkError>
where
    M::Family: Kinds<Aead = P>,
    ensures { GivesSet (λ es w. IsAeadOf P.encrypts P.decrypts h.now.primary_key_id es w.ps.primary w.ps.entries) result
        (typed_entries as_aead h.now.primary_key_id
        (built_entries M.url M.supports M.builds entry_of registry.now.managers None h.now)) }
{
    match typed_primitives::<M, Aeads>(alloc, h, registry) {
        Ok(ps) => Ok(WrappedAead { ps }),
        Err(e) => Err(e),
    }
}

impl<P: Aead + CloneIn> WrappedAead<P> {
    /// The AEADs of the same entries, which answer each call alike.
    ///
    /// # Errors
    /// `OutOfMemory`.
    pub fn try_clone(&self, alloc: Global) -> Result<Self, TinkError>
        ensures primary { IfOk result (λ copy. copy.ps.primary ≡ self.now.ps.primary) }
        ensures entries { IfOk result (λ copy. HaveSameGroups self.now.ps.entries copy.ps.entries) }
        ensures decrypts { IfOk result (λ copy.
            HasSameAnswers P.decrypts (group_of self.now.ps.entries) (group_of copy.ps.entries)) }
        ensures cause { IfErr result (λ e. e.kind ≡ OutOfMemory) }
    {
        let ps = self.ps.try_clone(alloc)?;
        Ok(WrappedAead { ps })
    }
}

impl<P: Aead> Aead for WrappedAead<P> {
    ghost encrypts = { λ w text aad draws. primary_encrypts P.encrypts w.ps.primary text aad draws };

    ghost decrypts = { λ w input aad. any_decrypts P.decrypts (group_of w.ps.entries) input aad };

    /// The primary key's prefix and its encryption, or its refusal, or `OutOfMemory`.
    fn encrypt(
        &self,
        alloc: Global,
        plaintext: &[u8],
        additional_data: &[u8],
        draws: &mut Draws,
    ) -> Result<Bytes, TinkError> {
        match &self.ps.primary {
            Some(primary) => encrypt_behind_prefix(
                alloc,
                primary,
                plaintext,
                additional_data,
                draws,
            ),
            None => unreachable!(),
        }
    }

    /// The plaintext by the first entry that decrypts `ciphertext`. If it is longer than five bytes, the
    /// entries of its first five bytes try the rest. Then the entries without a prefix try the whole.
    ///
    /// # Errors
    /// `DecryptFailed` exactly where no entry decrypts it; `OutOfMemory`.
    fn decrypt(
        &self,
        alloc: Global,
        ciphertext: &[u8],
        additional_data: &[u8],
    ) -> Result<Bytes, TinkError> {
        let question = Decrypts { additional_data };
        ask_entries(alloc, &self.ps, &question, ciphertext, Kind::DecryptFailed)
    }

    ghost encrypts_told = { λ w text aad draws.
        primary_encrypts_told P.encrypts P.encrypts_told w.ps.primary text aad draws };

    ghost decrypts_told = { λ w input aad. any_decrypts_told P.decrypts (group_of w.ps.entries) input aad };
}

// What an entry opens a ciphertext to.
#[derive(Drop)]
struct Decrypts<'a> {
    additional_data: &'a [u8],
}

impl<P: Aead> Question<P> for Decrypts<'_> {
    type Answer = Bytes;

    ghost answers = { λ q e input. entry_decrypts P.decrypts q.additional_data.now e input };

    fn ask(
        &self,
        alloc: Global,
        entry: &TypedEntry<P>,
        ciphertext: &[u8],
    ) -> Result<Bytes, TinkError> {
        entry
            .primitive
            .decrypt(alloc, ciphertext, self.additional_data)
    }

    ghost answers_told = { λ q e input. P.decrypts_told e.primitive input q.additional_data.now };
}

// An entry's encryption of a text, behind its prefix.
fn encrypt_behind_prefix<P: Aead>(
    alloc: Global,
    entry: &TypedEntry<P>,
    plaintext: &[u8],
    additional_data: &[u8],
    draws: &mut Draws,
) -> Result<Bytes, TinkError>
    ensures { Replies result (entry_encrypts P.encrypts entry.now plaintext.now additional_data.now draws.old)
        draws.old draws.new }
{
    let mut out = entry.prefix.as_slice().to_vec(alloc)?;
    let sealed = entry
        .primitive
        .encrypt(alloc, plaintext, additional_data, draws)?;
    out.extend_from_slice(sealed.as_slice())?;
    Ok(Bytes::from_vec(out))
}
