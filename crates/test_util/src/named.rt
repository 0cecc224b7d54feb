//! A manager that stands for another by its URL alone.

ghost use Rattle.std.specs.Prelude.{[], Err, false, refl};
ghost use Rattle.std.specs.Str.{bytes_eq};
ghost use Rattle.tink_io.specs.declared.error.Kind.TheVariants.{InvalidFormat, InvalidKey, NoPrivateKeys};
ghost use Rattle.tink_proto.specs.declared.enums.KeyMaterialType.TheVariants.{Symmetric};
ghost use Rattle.test_util.specs.TestKeys.{not_both, refused_known};

use std::alloc::Global;
use std::marker::PhantomData;
use tink_io::{Draws, Kind, TinkError};
use tink_key_manager::{KeyType, SymmetricKeyManager};
use tink_primitives::{Kinds, Primitive};
use tink_proto::{Bytes, KeyData, KeyMaterialType};
use tink_registry::KeyManager;

/// A manager of this URL, of the family `F`. It builds and makes nothing.
#[derive(Drop)]
pub struct Named<F> {
    pub url: &'static str,
    family: PhantomData<F>,
}

impl<F> Named<F> {
    /// The manager of a URL.
    pub fn new(url: &'static str) -> Self {
        Named {
            url,
            family: PhantomData,
        }
    }
}

impl<F: Kinds, T: KeyType> From<SymmetricKeyManager<T>> for Named<F> {
    fn from(_km: SymmetricKeyManager<T>) -> Self {
        Named::new(T::url())
    }
}

impl<F: Kinds> KeyManager for Named<F> {
    type Family = F;

    ghost url = { λ m. m.url.now };

    ghost supports = { λ m url. bytes_eq m.url.now url };

    ghost material = { λ _. Symmetric };

    ghost builds = { λ _ _. Err InvalidKey };

    ghost makes = { λ _ _ draws. (Err InvalidFormat, draws) };

    ghost makes_data = { λ _ _ draws. (Err InvalidFormat, draws) };

    ghost has_public = { λ _. false };

    ghost gives_public = { λ _ _. Err NoPrivateKeys };

    fn primitive(&self, _alloc: Global, _serialized_key: &[u8]) -> Result<Primitive<F>, TinkError> {
        Err(TinkError::new(Kind::InvalidKey))
    }

    fn new_key(
        &self,
        _alloc: Global,
        _serialized_key_format: &[u8],
        _draws: &mut Draws,
    ) -> Result<Bytes, TinkError> {
        Err(TinkError::new(Kind::InvalidFormat))
    }

    fn does_support(&self, type_url: &str) -> bool {
        self.url == type_url
    }

    fn type_url(&self) -> &str {
        self.url
    }

    fn key_material_type(&self) -> KeyMaterialType {
        KeyMaterialType::Symmetric
    }

    fn new_key_data(
        &self,
        _alloc: Global,
        _serialized_key_format: &[u8],
        _draws: &mut Draws,
    ) -> Result<KeyData, TinkError> {
        Err(TinkError::new(Kind::InvalidFormat))
    }

    fn supports_private_keys(&self) -> bool {
        false
    }

    fn public_key_data(
        &self,
        _alloc: Global,
        _serialized_key: &[u8],
    ) -> Result<KeyData, TinkError> {
        Err(TinkError::new(Kind::NoPrivateKeys))
    }

    ghost builds_told = { λ _ _. tt };

    ghost makes_told = { λ _ _ _. record { answer = tt; ends = ([], refl) } };

    ghost makes_data_told = { λ _ _ _. record { answer = tt; ends = ([], refl) } };

    ghost public_told = { λ _ _. tt };

    ghost new_material = { λ _ _ _ d e. refused_known InvalidFormat d e };

    ghost public_material = { λ _ _ d e. refused_known NoPrivateKeys d e };

    ghost no_private = { λ _ _ _. refl };

    ghost private = { λ _ _ e _. not_both e };
}
