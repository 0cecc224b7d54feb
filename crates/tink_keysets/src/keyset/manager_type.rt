//! What edits a keyset.

ghost use Rattle.std.specs.Prelude.{◌≡◌, [], length, IfOk, IfErr, OnOk, OnErr, nat_eq, true};
ghost use Rattle.tink_io.specs.declared.error.Kind.TheVariants.{OutOfMemory};
ghost use Rattle.tink_io.specs.Answering.{Replies};
ghost use Rattle.keyset_model.specs.Adding.{reply, IsFresh};
ghost use Rattle.keyset_model.specs.Edits as edits;
ghost use Rattle.tink_keysets.specs.Managed.{added_by};
ghost use Rattle.tink_keysets.specs.Editing.{Edits};

use crate::keyset::Handle;
use keyset_model::places::{
    is_known_status, is_live, place_of, put_destroyed, put_status, take_out,
};
use std::alloc::Global;
use std::marker::Model;
use tink_io::{Draws, Kind, TinkError};
use tink_keyset_rules::{copy_all, new_data, put_new};
use tink_primitives::KeyId;
use tink_proto::{Key, KeyStatusType, KeyTemplate, Keyset, Repeated};
use tink_registry::{KeyManager, Registry};

/// Edits a keyset: adds keys, and changes, by its id, a key that is there. A contract sees the keyset.
///
/// A command acts on the first key of its id. A refused one changes no key.
#[derive(Drop)]
pub struct Manager {
    primary: u32,
    keys: Vec<Key>,
}

impl Model for Manager {
    ghost use Rattle.tink_proto.specs.declared.messages.keys.Keyset.{Keyset};
    ghost use Rattle.keyset_model.specs.Validity.{FitsHandle};

    ghost Value = { Keyset };

    ghost view = { λ m. record { primary_key_id = m.primary; key = m.keys.items } };

    ghost invariant = { λ m. FitsHandle (record { primary_key_id = m.primary; key = m.keys.items }) };
}

impl Manager {
    /// The manager of a keyset without keys.
    pub fn new(alloc: Global) -> Manager
        ensures { result ≡ record { primary_key_id = 0; key = [] } }
    {
        Manager {
            primary: 0,
            keys: Vec::new(alloc),
        }
    }

    /// The manager of a handle's keyset.
    pub fn new_from_handle(h: Handle) -> Manager
        ensures { result ≡ h }
    {
        let Keyset {
            primary_key_id,
            key,
        } = h.into_keyset();
        Manager {
            primary: primary_key_id,
            keys: key.into_vec(),
        }
    }

    /// How many keys there are.
    pub fn key_count(&self) -> usize
        ensures { result ≡ length self.now.key }
    {
        self.keys.len()
    }

    /// A handle of the keyset.
    ///
    /// # Errors
    /// `OutOfMemory` alone.
    pub fn handle(&self, alloc: Global) -> Result<Handle, TinkError>
        ensures keyset { IfOk result (λ h. h ≡ self.now) }
        ensures err { IfErr result (λ e. e ≡ record { kind = OutOfMemory }) }
    {
        match copy_all(alloc, &self.keys) {
            Ok(keys) => Ok(Handle::from_held(Keyset {
                primary_key_id: self.primary,
                key: Repeated::from_vec(keys),
            })),
            Err(e) => Err(e),
        }
    }

    /// Enables the first key of the id.
    ///
    /// # Errors
    /// `KeyNotFound` where no key has the id; `WrongStatus` unless the key is enabled or disabled.
    pub fn enable(&mut self, id: u32) -> Result<(), TinkError>
        ensures { Edits result self.old self.new (edits.enable self.old id) }
    {
        self.change_status(id, KeyStatusType::Enabled)
    }

    /// Disables the first key of the id.
    ///
    /// # Errors
    /// `IsPrimary` where the id is the primary one; `KeyNotFound` where no key has it; `WrongStatus` unless the
    /// key is enabled or disabled.
    pub fn disable(&mut self, id: u32) -> Result<(), TinkError>
        ensures { Edits result self.old self.new (edits.disable self.old id) }
    {
        if self.is_primary(id) {
            return Err(TinkError::new(Kind::IsPrimary));
        }
        self.change_status(id, KeyStatusType::Disabled)
    }

    /// Destroys the first key of the id: its data is taken away.
    ///
    /// # Errors
    /// `IsPrimary` where the id is the primary one; `KeyNotFound` where no key has it; `WrongStatus` unless the
    /// key is enabled, disabled or destroyed.
    #[tactic(auto, using(keyset_model::proofs::EditLaws::held_as_destroyed))]
    pub fn destroy(&mut self, id: u32) -> Result<(), TinkError>
        ensures { Edits result self.old self.new (edits.destroy self.old id) }
    {
        if self.is_primary(id) {
            return Err(TinkError::new(Kind::IsPrimary));
        }
        let Some((i, status)) = place_of(&self.keys, id) else {
            return Err(TinkError::new(Kind::KeyNotFound));
        };
        if !is_known_status(status) {
            return Err(TinkError::new(Kind::WrongStatus(status)));
        }
        put_destroyed(&mut self.keys, i, id);
        Ok(())
    }

    /// Takes the first key of the id out of the keyset.
    ///
    /// # Errors
    /// `IsPrimary` where the id is the primary one; `KeyNotFound` where no key has it.
    #[tactic(auto, using(keyset_model::proofs::EditLaws::held_without))]
    pub fn delete(&mut self, id: u32) -> Result<(), TinkError>
        ensures { Edits result self.old self.new (edits.delete self.old id) }
    {
        if self.is_primary(id) {
            return Err(TinkError::new(Kind::IsPrimary));
        }
        let Some((i, _)) = place_of(&self.keys, id) else {
            return Err(TinkError::new(Kind::KeyNotFound));
        };
        take_out(&mut self.keys, i, id);
        Ok(())
    }

    /// Makes the id the primary one.
    ///
    /// # Errors
    /// `KeyNotFound` where no key has the id; `NotEnabled` where the first one that has it isn't enabled.
    pub fn set_primary(&mut self, id: u32) -> Result<(), TinkError>
        ensures { Edits result self.old self.new (edits.set_primary self.old id) }
    {
        let Some((_, status)) = place_of(&self.keys, id) else {
            return Err(TinkError::new(Kind::KeyNotFound));
        };
        if status != KeyStatusType::Enabled as i32 {
            return Err(TinkError::new(Kind::NotEnabled));
        }
        self.primary = id;
        Ok(())
    }

    /// Adds an enabled key by a template, as the primary one or not, and answers its id. The id is not 0, and no
    /// key has it before the call. The key's bytes are drawn first, then ids of four draws, at most 128, until
    /// one is free.
    ///
    /// # Errors
    /// `UnsupportedKeyType` if no manager has the template's URL. `UnknownPrefix` if its prefix type is not 1 to 4.
    /// Those of the manager. `RandomFault` if too few random bytes are left for an id. `NoFreshId` if all 128 ids were
    /// 0 or in use. `OutOfMemory`. A refusal changes no key, and draws that were taken stay taken.
    pub fn add<M: KeyManager>(
        &mut self,
        alloc: Global,
        kt: &KeyTemplate,
        registry: &Registry<M>,
        draws: &mut Draws,
        as_primary: bool,
    ) -> Result<KeyId, TinkError>
        ensures replies { Replies result
            (reply (added_by M.url M.makes_data registry.now.managers self.old kt.now as_primary draws.old))
            draws.old draws.new }
        ensures keyset { OnOk result (self.new
            ≡ (added_by M.url M.makes_data registry.now.managers self.old kt.now as_primary draws.old).keyset) }
        ensures err { OnErr result (self.new ≡ self.old) }
        ensures fresh { IfOk result (λ id. IsFresh self.old.key id) }
    {
        self.keys.reserve(1)?;
        match new_data(alloc, kt, registry, draws) {
            Ok(key_data) => {
                put_new(
                    &mut self.primary,
                    &mut self.keys,
                    kt,
                    key_data,
                    draws,
                    as_primary,
                )
            }
            Err(e) => Err(e),
        }
    }

    /// Adds a key by a template as the primary one: `add` with `as_primary`.
    ///
    /// # Errors
    /// As `add`.
    pub fn rotate<M: KeyManager>(
        &mut self,
        alloc: Global,
        kt: &KeyTemplate,
        registry: &Registry<M>,
        draws: &mut Draws,
    ) -> Result<KeyId, TinkError>
        ensures replies { Replies result
            (reply (added_by M.url M.makes_data registry.now.managers self.old kt.now true draws.old))
            draws.old draws.new }
        ensures keyset { OnOk result (self.new
            ≡ (added_by M.url M.makes_data registry.now.managers self.old kt.now true draws.old).keyset) }
        ensures err { OnErr result (self.new ≡ self.old) }
        ensures fresh { IfOk result (λ id. IsFresh self.old.key id) }
    {
        self.add(alloc, kt, registry, draws, true)
    }

    pub(crate) fn into_handle(self) -> Handle
        ensures { result ≡ self }
    {
        let Manager { primary, keys } = self;
        Handle::from_held(Keyset {
            primary_key_id: primary,
            key: Repeated::from_vec(keys),
        })
    }

    fn is_primary(&self, id: u32) -> bool
        ensures { result ≡ nat_eq self.now.primary_key_id id }
    {
        self.primary == id
    }

    // Writes the status of the first key of the id, where it is enabled or disabled.
    #[tactic(auto, using(keyset_model::proofs::EditLaws::held_with_status))]
    fn change_status(&mut self, id: u32, status: KeyStatusType) -> Result<(), TinkError>
        ensures { Edits result self.old self.new (edits.edited_where edits.is_live self.old
            (edits.with_first id (edits.with_status status) self.old.key) (edits.status_of id self.old.key)) }
    {
        let Some((i, now)) = place_of(&self.keys, id) else {
            return Err(TinkError::new(Kind::KeyNotFound));
        };
        if !is_live(now) {
            return Err(TinkError::new(Kind::WrongStatus(now)));
        }
        put_status(&mut self.keys, i, id, status);
        Ok(())
    }
}
