//! Which keysets and key versions are taken.

ghost use Rattle.std.specs.Prelude.{◌≡◌, ◌↔◌, ◌<◌, IsErr, IsOk, IsTrue, IfErr, filter, count_by};
ghost use Rattle.std.specs.List.{list_all, list_any};
ghost use Rattle.tink_io.specs.declared.error.Kind.TheVariants.{BadVersion, InvalidKeyset};
ghost use Rattle.keyset_model.specs.Keys as key_words;
ghost use Rattle.keyset_model.specs.Secrets as secrets;
ghost use Rattle.keyset_model.specs.Validity as validity;

use tink_io::{Kind, TinkError};
use tink_proto::{Key, KeyData, KeyMaterialType, KeyStatusType, Keyset};

/// Refuses a key whose version is above the greatest one that is taken.
///
/// # Errors
/// `BadVersion` exactly where `version > max_expected`.
pub fn validate_key_version(version: u32, max_expected: u32) -> Result<(), TinkError>
    ensures bad_version { IsErr result ↔ (max_expected < version) }
    ensures refused { IfErr result (λ e. e ≡ record { kind = BadVersion }) }
{
    if version > max_expected {
        return Err(TinkError::new(Kind::BadVersion));
    }
    Ok(())
}

/// Validates a keyset by five rules. There is a key. Each is validated by `validate_key`. At most one enabled
/// key has the primary id. Some key is enabled. One enabled key has the primary id, or each of them is
/// public.
///
/// # Errors
/// `InvalidKeyset` exactly where this does not hold.
pub fn validate(keyset: &Keyset) -> Result<(), TinkError>
    ensures ok { IsOk result ↔ validity.IsValidated keyset.now }
    ensures refused { IfErr result (λ e. e ≡ record { kind = InvalidKeyset }) }
{
    if !is_validated(keyset) {
        return Err(TinkError::new(Kind::InvalidKeyset));
    }
    Ok(())
}

/// Validates a key. It has data unless it is destroyed. Its id is not 0, its prefix type is from 1 to 4 and
/// its status from 1 to 3.
///
/// # Errors
/// `InvalidKeyset` exactly where this does not hold.
pub fn validate_key(key: &Key) -> Result<(), TinkError>
    ensures ok { IsOk result ↔ IsTrue (validity.is_well_formed key.now) }
    ensures refused { IfErr result (λ e. e ≡ record { kind = InvalidKeyset }) }
{
    if !is_well_formed(key) {
        return Err(TinkError::new(Kind::InvalidKeyset));
    }
    Ok(())
}

/// Whether `validate` takes a keyset.
pub fn is_validated(keyset: &Keyset) -> bool
    ensures { result ≡ validity.is_validated keyset.now }
{
    are_validated(keyset.primary_key_id, keyset.key.as_slice())
}

fn are_validated(primary: u32, keys: &[Key]) -> bool
    ensures { result ≡ validity.is_validated (record { primary_key_id = primary; key = keys.now }) }
{
    !keys.is_empty()
        && are_well_formed(keys)
        && has_at_most_one_primary(primary, keys)
        && some_is_enabled(keys)
        && (some_enabled_has_id(primary, keys) || are_public(keys))
}

fn has_at_most_one_primary(primary: u32, keys: &[Key]) -> bool
    ensures { result ≡ validity.has_at_most_one_primary (record { primary_key_id = primary; key = keys.now }) }
{
    enabled_of_id(primary, keys) <= 1
}

fn are_well_formed(keys: &[Key]) -> bool
    ensures { result ≡ list_all validity.is_well_formed keys.now }
{
    keys.iter().all(is_well_formed)
}

fn is_well_formed(key: &Key) -> bool
    ensures { result ≡ validity.is_well_formed key.now }
{
    has_its_data(key)
        && key.key_id != 0
        && 1 <= key.output_prefix_type
        && key.output_prefix_type <= 4
        && 1 <= key.status
        && key.status <= 3
}

fn some_is_enabled(keys: &[Key]) -> bool
    ensures { result ≡ list_any key_words.is_enabled keys.now }
{
    keys.iter().any(|key| is_enabled(key))
}

// Whether a key is enabled.
fn is_enabled(key: &Key) -> bool
    ensures { result ≡ key_words.is_enabled key.now }
{
    key.status == KeyStatusType::Enabled as i32
}

// How many enabled keys have the id.
fn enabled_of_id(id: u32, keys: &[Key]) -> usize
    ensures { result ≡ count_by (key_words.is_enabled_with id) keys.now }
{
    keys.iter().filter(|key| is_enabled_with(key, id)).count()
}

// Whether an enabled key has the id.
fn some_enabled_has_id(id: u32, keys: &[Key]) -> bool
    ensures { result ≡ list_any (key_words.is_enabled_with id) keys.now }
{
    enabled_of_id(id, keys) > 0
}

fn is_enabled_with(key: &Key, id: u32) -> bool
    ensures { result ≡ key_words.is_enabled_with id key.now }
{
    is_enabled(key) && key.key_id == id
}

// Whether each enabled key is public.
fn are_public(keys: &[Key]) -> bool
    ensures { result ≡ list_all key_words.is_public (filter key_words.is_enabled keys.now) }
{
    keys.iter().filter(|key| is_enabled(key)).all(is_public)
}

fn is_public(key: &Key) -> bool
    ensures { result ≡ key_words.is_public key.now }
{
    match &key.key_data {
        Some(data) => data.key_material_type == KeyMaterialType::AsymmetricPublic as i32,
        None => false,
    }
}

/// Whether a handle holds the keys.
pub fn are_held(keys: &[Key]) -> bool
    ensures { result ≡ list_all validity.fits_handle keys.now }
{
    keys.iter().all(fits_handle)
}

fn fits_handle(key: &Key) -> bool
    ensures { result ≡ validity.fits_handle key.now }
{
    has_its_data(key) && is_known_material(&key.key_data)
}

fn has_its_data(key: &Key) -> bool
    ensures { result ≡ validity.has_its_data key.now }
{
    key.key_data.is_some() || key.status == KeyStatusType::Destroyed as i32
}

fn is_known_material(data: &Option<KeyData>) -> bool
    ensures { result ≡ validity.is_known_material «data».now }
{
    match data {
        Some(data) => 0 <= data.key_material_type && data.key_material_type <= 4,
        None => true,
    }
}

/// Whether some data is secret.
pub fn have_secrets(keys: &[Key]) -> bool
    ensures { result ≡ list_any secrets.is_secret keys.now }
{
    keys.iter().any(is_secret)
}

fn is_secret(key: &Key) -> bool
    ensures { result ≡ secrets.is_secret key.now }
{
    match &key.key_data {
        Some(data) => 0 <= data.key_material_type && data.key_material_type <= 2,
        None => false,
    }
}
