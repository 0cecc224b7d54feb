//! Edits of the first key of an id in a list of keys.

ghost use Rattle.std.specs.Prelude.{◌≡◌, IfSome, Some, IsTrue};
ghost use Rattle.std.specs.Option.{option_map};
ghost use Rattle.std.specs.List.{list_all};
ghost use Rattle.tink_proto.specs.Enums.{status_number};
ghost use Rattle.keyset_model.specs.Edits as edits;
ghost use Rattle.keyset_model.specs.Validity as validity;
ghost use Rattle.keyset_model.specs.Places.{IsPlace};

use tink_proto::{Key, KeyStatusType};

/// The place of the first key of an id, and its status.
#[tactic(auto, using(crate::proofs::FirstPlaces::at_place))]
pub fn place_of(keys: &[Key], id: u32) -> Option<(usize, i32)>
    ensures status { option_map (λ r. r.1) result ≡ edits.status_of id keys.now }
    ensures place { IfSome result (λ r. IsPlace keys.now id r.0) }
{
    for (i, key) in keys.iter().enumerate() {
        if key.key_id == id {
            return Some((i, key.status));
        }
    }
    None
}

// Writes the number of a key's status.
fn put_number(keys: &mut Vec<Key>, i: usize, id: u32, number: i32)
    requires { IsPlace keys.old.items id i }
    ensures { keys.new.items ≡ edits.with_first id (λ k. record k { status = number }) keys.old.items }
{
    keys[i].status = number;
}

/// Writes a key's status.
pub fn put_status(keys: &mut Vec<Key>, i: usize, id: u32, status: KeyStatusType)
    requires { IsPlace keys.old.items id i }
    ensures { keys.new.items ≡ edits.with_first id (edits.with_status status) keys.old.items }
{
    put_number(keys, i, id, number_of(status));
}

fn number_of(status: KeyStatusType) -> i32
    ensures { result ≡ status_number status }
{
    status as i32
}

/// Makes a key destroyed, and takes its data away.
pub fn put_destroyed(keys: &mut Vec<Key>, i: usize, id: u32)
    requires { IsPlace keys.old.items id i }
    ensures { keys.new.items ≡ edits.with_first id edits.as_destroyed keys.old.items }
{
    let key = &mut keys[i];
    key.status = KeyStatusType::Destroyed as i32;
    key.key_data = None;
}

/// Takes a key out.
pub fn take_out(keys: &mut Vec<Key>, i: usize, id: u32)
    requires { IsPlace keys.old.items id i }
    ensures { keys.new.items ≡ edits.without_first id keys.old.items }
{
    let _key = keys.remove(i);
}

/// Enabled or disabled.
pub fn is_live(status: i32) -> bool
    ensures { result ≡ edits.is_live status }
{
    status == KeyStatusType::Enabled as i32 || status == KeyStatusType::Disabled as i32
}

/// Enabled, disabled or destroyed.
pub fn is_known_status(status: i32) -> bool
    ensures { result ≡ edits.is_known_status status }
{
    is_live(status) || status == KeyStatusType::Destroyed as i32
}
