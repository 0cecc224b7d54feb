//! The parts of adding a key.

ghost use Rattle.std.specs.Prelude.{◌≡◌, ◌<◌, ◌++◌, ◌∷◌, [], Some, IsTrue, cond, vec_len, vec_capacity};
ghost use Rattle.std.specs.List.{list_all};
ghost use Rattle.tink_io.specs.Answering.{Replies};
ghost use Rattle.tink_registry.specs.Known.{IsOfKnownMaterial};
ghost use Rattle.keyset_model.specs.Adding as adding;
ghost use Rattle.keyset_model.specs.Entries as entries;
ghost use Rattle.keyset_model.specs.Validity as validity;
ghost use Rattle.tink_keyset_rules.specs.Managed.{data_by, IsAdded};

use crate::fresh_ids::draw_id;
use std::alloc::Global;
use tink_io::{Draws, Kind, TinkError};
use tink_primitives::KeyId;
use tink_proto::{Key, KeyData, KeyStatusType, KeyTemplate};
use tink_registry::{KeyManager, Registry};

// A prefix type that there is.
fn is_known_prefix(prefix: i32) -> bool
    ensures { result ≡ entries.is_known_prefix prefix }
{
    1 <= prefix && prefix <= 4
}

/// The data of a new key by a template.
///
/// # Errors
/// `UnsupportedKeyType` where no manager has the URL, then `UnknownPrefix`, then the manager's.
pub fn new_data<M: KeyManager>(
    alloc: Global,
    kt: &KeyTemplate,
    registry: &Registry<M>,
    draws: &mut Draws,
) -> Result<KeyData, TinkError>
    ensures { Replies result (data_by M.url M.makes_data registry.now.managers kt.now draws.old)
        draws.old draws.new }
{
    match registry.get_key_manager(kt.type_url.as_str()) {
        Ok(manager) => data_of(alloc, kt, manager, draws),
        Err(e) => Err(e),
    }
}

// The data of a new key that a manager makes by a template.
fn data_of<M: KeyManager>(
    alloc: Global,
    kt: &KeyTemplate,
    manager: &M,
    draws: &mut Draws,
) -> Result<KeyData, TinkError>
    ensures { Replies result (adding.new_data M.makes_data kt.now draws.old (Some manager.now))
        draws.old draws.new }
{
    if !is_known_prefix(kt.output_prefix_type) {
        return Err(TinkError::new(Kind::UnknownPrefix));
    }
    manager.new_key_data(alloc, kt.value.as_slice(), draws)
}

/// Draws an id for a new key, and puts the key at the end of a keyset, as the primary one or not. The keyset has room
/// for it.
///
/// # Errors
/// `RandomFault` and `NoFreshId`; then the keyset is as it was.
pub fn put_new(
    primary: &mut u32,
    keys: &mut Vec<Key>,
    kt: &KeyTemplate,
    key_data: KeyData,
    draws: &mut Draws,
    as_primary: bool,
) -> Result<KeyId, TinkError>
    requires room { vec_len keys.old < vec_capacity keys.old }
    requires known { IsOfKnownMaterial key_data }
    ensures added { let found = adding.fresh_id keys.old.items adding.most_ids draws.old in
        IsAdded result (record { primary_key_id = primary.new; key = keys.new.items }) draws.new
        (adding.added_by_id (record { primary_key_id = primary.old; key = keys.old.items }) kt.now as_primary key_data
        found.0 found.1) }
    ensures held { IsTrue (list_all validity.fits_handle keys.old.items)
        → IsTrue (list_all validity.fits_handle keys.new.items) }
{
    match draw_id(keys, draws) {
        Ok(id) => {
            put_key(keys, kt, key_data, id);
            *primary = primary_after(as_primary, id, *primary);
            Ok(id)
        }
        Err(e) => Err(e),
    }
}

// The primary id after a key of an id was added.
fn primary_after(as_primary: bool, id: u32, primary: u32) -> u32
    ensures { result ≡ cond as_primary id primary }
{
    if as_primary { id } else { primary }
}

// Puts an enabled key at the end, where there is room for it.
#[tactic(auto, using(keyset_model::proofs::EditLaws::held_more))]
fn put_key(keys: &mut Vec<Key>, kt: &KeyTemplate, key_data: KeyData, id: u32)
    requires room { vec_len keys.old < vec_capacity keys.old }
    requires known { IsOfKnownMaterial key_data }
    ensures items { keys.new.items ≡ keys.old.items ++ adding.new_key kt.now key_data id ∷ [] }
    ensures held { IsTrue (list_all validity.fits_handle keys.old.items)
        → IsTrue (list_all validity.fits_handle keys.new.items) }
{
    let key = Key {
        key_data: Some(key_data),
        status: KeyStatusType::Enabled as i32,
        key_id: id,
        output_prefix_type: kt.output_prefix_type,
    };
    match keys.push(key) {
        Ok(()) => {}
        Err(_) => unreachable!(),
    }
}
