//! A keyset whose keys are out of sight.

ghost use Rattle.std.specs.Prelude.{◌≡◌, IfOk, IfErr, true, None, Some, option_copied};
ghost use Rattle.tink_io.specs.declared.error.Kind.TheVariants.{HasSecrets, InvalidKeyset, OutOfMemory};
ghost use Rattle.tink_io.specs.Answering.{Answers, Replies, Tells};
ghost use Rattle.tink_sets.specs.Entries.{entry_of};
ghost use Rattle.keyset_model.specs.Adding.{keyset_reply};
ghost use Rattle.keyset_model.specs.Secrets as secrets;
ghost use Rattle.keyset_model.specs.Validity.{FitsHandle};
ghost use Rattle.tink_keyset_rules.specs.ShownTexts.{info_text};
ghost use Rattle.tink_keysets.specs.Built.{built_entries, GivesSet, IsSetOf};
ghost use Rattle.tink_keysets.specs.Managed.{added_by, no_keys, public_data, public_keyset};
ghost use Rattle.tink_keysets.specs.Handles.{handle_of, handle_without_secrets};

use crate::keyset::Manager;
use std::alloc::Global;
use std::fmt;
use std::marker::Model;
use tink_io::{Draws, Kind, TinkError};
use tink_keyset_rules::{Shown, are_held, have_secrets, is_validated, keyset_info};
use tink_proto::{Key, KeyTemplate, Keyset, KeysetInfo};
use tink_registry::{KeyManager, Registry};
use tink_set_builder::{build_set, public_keys};
use tink_sets::PrimitiveSet;

/// A keyset whose keys are out of sight. Each of them has data unless it is destroyed, and data has a known
/// material. A contract sees the keyset.
#[derive(Drop)]
pub struct Handle {
    ks: Keyset,
}

impl Model for Handle {
    ghost use Rattle.tink_proto.specs.declared.messages.keys.Keyset.{Keyset};
    ghost use Rattle.keyset_model.specs.Validity.{FitsHandle};

    ghost Value = { Keyset };

    ghost view = { λ h. h.ks };

    ghost invariant = { λ h. FitsHandle h.ks };
}

impl Handle {
    /// A handle of one new key by a template, which is enabled and the primary one, as `Manager::rotate` makes it.
    ///
    /// # Errors
    /// As `Manager::rotate` on a keyset without keys.
    pub fn new<M: KeyManager>(
        alloc: Global,
        kt: &KeyTemplate,
        registry: &Registry<M>,
        draws: &mut Draws,
    ) -> Result<Handle, TinkError>
        ensures { Replies result
            (keyset_reply (added_by M.url M.makes_data registry.now.managers no_keys kt.now true draws.old))
            draws.old draws.new }
    {
        let mut manager = Manager::new(alloc);
        match manager.rotate(alloc, kt, registry, draws) {
            Ok(_) => Ok(manager.into_handle()),
            Err(e) => Err(e),
        }
    }

    /// A handle of the public parts of the keys, which must all be private.
    ///
    /// # Errors
    /// For the first key that gives none: `InvalidKeyset` if it has no data. `NotPrivate` if its material is not 2.
    /// `UnsupportedKeyType` if no manager has its URL. `NoPrivateKeys` if the manager has no private keys. Else the
    /// manager's. `OutOfMemory` may come in place of each.
    pub fn public<M: KeyManager>(
        &self,
        alloc: Global,
        registry: &Registry<M>,
    ) -> Result<Handle, TinkError>
        ensures { Answers result
            (public_keyset (public_data M.url M.has_public M.gives_public registry.now.managers) self.now) }
    {
        match public_keys(alloc, self.keys(), registry) {
            Ok(key) => Ok(Handle::from_held(Keyset {
                primary_key_id: self.ks.primary_key_id,
                key,
            })),
            Err(e) => Err(e),
        }
    }

    /// A handle of a keyset without secrets.
    ///
    /// # Errors
    /// `InvalidKeyset` exactly if a key that is not destroyed has no data, or data has a material outside 0
    /// to 4. Then `HasSecrets` exactly if some data has material 0, 1 or 2.
    pub fn new_with_no_secrets(ks: Keyset) -> Result<Handle, TinkError>
        ensures { Tells result (handle_without_secrets ks) }
    {
        let h = match Handle::from_keyset(ks) {
            Ok(h) => h,
            Err(e) => return Err(e),
        };
        if have_secrets(h.keys()) {
            return Err(TinkError::new(Kind::HasSecrets));
        }
        Ok(h)
    }

    /// The set of the enabled keys' primitives, each built by the registry's manager of its URL.
    ///
    /// # Errors
    /// `InvalidKeyset` if the keyset is not valid. Then that of the first enabled key that does not build:
    /// `InvalidKey` if its value is empty, `UnsupportedKeyType` if no manager has its URL, else the manager's.
    /// `OutOfMemory` may come in place of each.
    pub fn primitives<M: KeyManager>(
        &self,
        alloc: Global,
        registry: &Registry<M>,
    ) -> Result<PrimitiveSet<M::Family>, TinkError>
        ensures { GivesSet (IsSetOf self.now.primary_key_id) result
            (built_entries M.url M.supports M.builds entry_of registry.now.managers None self.now) }
    {
        self.primitives_with_key_manager(alloc, registry, no_manager(registry))
    }

    /// The set of the enabled keys' primitives. If a manager is given, it alone builds each key for whose URL its
    /// `does_support` is true, also one with an empty value. The registry has no part in these keys.
    ///
    /// # Errors
    /// As `primitives`, and the given manager's.
    #[tactic(auto, using(tink_set_builder::proofs::BuildingFacts::well_formed_keys))]
    pub fn primitives_with_key_manager<M: KeyManager>(
        &self,
        alloc: Global,
        registry: &Registry<M>,
        km: Option<&M>,
    ) -> Result<PrimitiveSet<M::Family>, TinkError>
        ensures { GivesSet (IsSetOf self.now.primary_key_id) result
            (built_entries M.url M.supports M.builds entry_of registry.now.managers (option_copied km.entry) self.now) }
    {
        if !is_validated(&self.ks) {
            return Err(TinkError::new(Kind::InvalidKeyset));
        }
        build_set(alloc, self.keys(), self.ks.primary_key_id, registry, km)
    }

    /// The primary id and, for each key, its status, id, prefix type and URL, which is empty where the key
    /// has no data.
    ///
    /// # Errors
    /// `OutOfMemory` alone.
    pub fn keyset_info(&self, alloc: Global) -> Result<KeysetInfo, TinkError>
        ensures info { IfOk result (λ i. i ≡ secrets.keyset_info self.now) }
        ensures err { IfErr result (λ e. e ≡ record { kind = OutOfMemory }) }
    {
        keyset_info(alloc, &self.ks)
    }

    pub(crate) fn from_keyset(ks: Keyset) -> Result<Handle, TinkError>
        ensures { Tells result (handle_of ks) }
    {
        if !are_held(ks.key.as_slice()) {
            return Err(TinkError::new(Kind::InvalidKeyset));
        }
        Ok(Handle { ks })
    }

    // A handle of a keyset that is known to be held.
    pub(crate) fn from_held(ks: Keyset) -> Handle
        requires { FitsHandle ks }
        ensures { result ≡ ks }
    {
        Handle { ks }
    }

    pub(crate) fn into_keyset(self) -> Keyset
        ensures keyset { result ≡ self }
        ensures held { FitsHandle result }
    {
        self.ks
    }

    pub(crate) fn keyset(&self) -> &Keyset
        ensures keyset { result.now ≡ self.now }
        ensures held { FitsHandle result.now }
    {
        &self.ks
    }

    pub(crate) fn keys(&self) -> &[Key]
        ensures { result.now ≡ self.now.key }
    {
        self.ks.key.as_slice()
    }
}

// No manager, for as long as the registry's are lent.
fn no_manager<'a, M>(_registry: &'a Registry<M>) -> Option<&'a M>
    ensures { option_copied result ≡ None }
{
    None
}

/// Shows the keyset info, and so no key material.
impl fmt::Debug for Handle {
    ghost debug_output = { λ h. Some (info_text (secrets.keyset_info h)) };

    fn fmt<W: fmt::Write>(&self, f: &mut fmt::Formatter<W>) -> fmt::Result {
        fmt::Display::fmt(&Shown(&self.ks), f)
    }
}
