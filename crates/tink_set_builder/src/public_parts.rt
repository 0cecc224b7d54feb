//! The public parts of private keys.

ghost use Rattle.std.specs.Prelude.{◌≡◌, IfOk, IsTrue, OnOk};
ghost use Rattle.std.specs.List.{list_all};
ghost use Rattle.std.specs.Ordering.{int_eq};
ghost use Rattle.tink_io.specs.Answering.{Answers};
ghost use Rattle.tink_proto.specs.Enums.{material_number};
ghost use Rattle.tink_proto.specs.declared.enums.KeyMaterialType.TheVariants.{AsymmetricPrivate};
ghost use Rattle.tink_registry.specs.Known.{IsOfKnownMaterial};
ghost use Rattle.keyset_model.specs.Validity as validity;
ghost use Rattle.tink_set_builder.specs.Given.{given_each};
ghost use Rattle.tink_set_builder.specs.PublicParts.{public_data, with_data};

use std::alloc::Global;
use tink_io::{Kind, TinkError};
use tink_proto::{Key, KeyData, KeyMaterialType, Repeated};
use tink_registry::{KeyManager, Registry};

// Whether the data is that of a private key.
fn is_private(key_data: &KeyData) -> bool
    ensures { result ≡ int_eq key_data.now.key_material_type (material_number AsymmetricPrivate) }
{
    key_data.key_material_type == KeyMaterialType::AsymmetricPrivate as i32
}

// The public part of a key's data.
fn public_data<M: KeyManager>(
    alloc: Global,
    key_data: &Option<KeyData>,
    registry: &Registry<M>,
) -> Result<KeyData, TinkError>
    ensures answer { Answers result (public_data M.url M.has_public M.gives_public registry.now.managers key_data.now) }
    ensures known { IfOk result IsOfKnownMaterial }
{
    let Some(private) = key_data else {
        return Err(TinkError::new(Kind::InvalidKeyset));
    };
    if !is_private(private) {
        return Err(TinkError::new(Kind::NotPrivate));
    }
    let manager = registry.get_key_manager(private.type_url.as_str())?;
    if !manager.supports_private_keys() {
        return Err(TinkError::new(Kind::NoPrivateKeys));
    }
    manager.public_key_data(alloc, private.value.as_slice())
}

// The key with its public part alone.
fn public_key<M: KeyManager>(
    alloc: Global,
    key: &Key,
    registry: &Registry<M>,
) -> Result<Key, TinkError>
    ensures answer { Answers result (with_data key.now
        (public_data M.url M.has_public M.gives_public registry.now.managers key.now.key_data)) }
    ensures held { IfOk result (λ k. IsTrue (validity.fits_handle k)) }
{
    let key_data = public_data(alloc, &key.key_data, registry)?;
    Ok(Key {
        key_data: Some(key_data),
        status: key.status,
        key_id: key.key_id,
        output_prefix_type: key.output_prefix_type,
    })
}

/// Each key with its public part alone.
///
/// # Errors
/// For the first key that gives none: `InvalidKeyset` if it has no data. `NotPrivate` if its material is not 2.
/// `UnsupportedKeyType` if no manager has its URL. `NoPrivateKeys` if the manager has no private keys. Else the
/// manager's. `OutOfMemory` may come in place of each.
#[tactic(auto, using(crate::proofs::GivenEach::none_yet))]
pub fn public_keys<M: KeyManager>(
    alloc: Global,
    keys: &[Key],
    registry: &Registry<M>,
) -> Result<Repeated<Key>, TinkError>
    ensures answer { Answers result (given_each (λ k. with_data k
        (public_data M.url M.has_public M.gives_public registry.now.managers k.key_data)) keys.now) }
    ensures held { IfOk result (λ ks. IsTrue (list_all validity.fits_handle ks)) }
{
    let mut public = Repeated::new(alloc);
    for key in keys {
        match public_key(alloc, key, registry) {
            Ok(more) => public.push(more)?,
            Err(e) => return Err(e),
        }
    }
    Ok(public)
}
