//! A manager that is one of two, as a registry of managers of two types holds it.

ghost use Rattle.std.specs.Prelude.{◌≡◌, Ok, Err, true, false, if◌then◌else◌};
ghost use Rattle.tink_io.specs.declared.error.Kind.TheVariants.{NoPrivateKeys};
ghost use Rattle.tink_primitives.specs.MeaningLaws.{told_if, drawn_if};
ghost use Rattle.tink_registry.specs.Known.{IsOfKnownMaterial};
ghost use Rattle.test_tink_streaming_aead.specs.OneOf.{of_each};

use std::alloc::Global;
use tink_io::{Draws, TinkError};
use tink_primitives::Primitive;
use tink_proto::{Bytes, KeyData, KeyMaterialType};
use tink_registry::KeyManager;
use tink_streaming_aead::{AesCtrHmacKeyManager, AesGcmHkdfKeyManager, StreamKinds};

/// The manager of keys in counter mode, or that of keys by AES-GCM.
pub type Streams = OneOf<AesCtrHmacKeyManager, AesGcmHkdfKeyManager>;

/// The second of two managers, or the first.
#[derive(Drop)]
pub struct OneOf<A, B> {
    first: A,
    second: B,
    is_second: bool,
}

impl From<AesCtrHmacKeyManager> for Streams {
    fn from(km: AesCtrHmacKeyManager) -> Self {
        OneOf {
            first: km,
            second: AesGcmHkdfKeyManager::new(),
            is_second: false,
        }
    }
}

impl From<AesGcmHkdfKeyManager> for Streams {
    fn from(km: AesGcmHkdfKeyManager) -> Self {
        OneOf {
            first: AesCtrHmacKeyManager::new(),
            second: km,
            is_second: true,
        }
    }
}

impl<A, B> KeyManager for OneOf<A, B>
where
    A: KeyManager<Family = StreamKinds>,
    B: KeyManager<Family = StreamKinds>,
{
    type Family = StreamKinds;

    ghost url = { λ m. if m.is_second then B.url m.second else A.url m.first };

    ghost supports = { λ m u. if m.is_second then B.supports m.second u else A.supports m.first u };

    ghost material = { λ m. if m.is_second then B.material m.second else A.material m.first };

    ghost builds = { λ m key. if m.is_second then B.builds m.second key else A.builds m.first key };

    ghost makes = { λ m f draws. if m.is_second then B.makes m.second f draws else A.makes m.first f draws };

    ghost makes_data = { λ m f draws. if m.is_second then B.makes_data m.second f draws else A.makes_data m.first f draws };

    ghost has_public = { λ m. if m.is_second then B.has_public m.second else A.has_public m.first };

    ghost gives_public = { λ m key. if m.is_second then B.gives_public m.second key else A.gives_public m.first key };

    fn primitive(
        &self,
        alloc: Global,
        serialized_key: &[u8],
    ) -> Result<Primitive<StreamKinds>, TinkError> {
        if self.is_second {
            self.second.primitive(alloc, serialized_key)
        } else {
            self.first.primitive(alloc, serialized_key)
        }
    }

    fn new_key(
        &self,
        alloc: Global,
        serialized_key_format: &[u8],
        draws: &mut Draws,
    ) -> Result<Bytes, TinkError> {
        if self.is_second {
            self.second.new_key(alloc, serialized_key_format, draws)
        } else {
            self.first.new_key(alloc, serialized_key_format, draws)
        }
    }

    fn does_support(&self, type_url: &str) -> bool {
        if self.is_second {
            self.second.does_support(type_url)
        } else {
            self.first.does_support(type_url)
        }
    }

    fn type_url(&self) -> &str {
        if self.is_second {
            self.second.type_url()
        } else {
            self.first.type_url()
        }
    }

    fn key_material_type(&self) -> KeyMaterialType {
        if self.is_second {
            self.second.key_material_type()
        } else {
            self.first.key_material_type()
        }
    }

    fn new_key_data(
        &self,
        alloc: Global,
        serialized_key_format: &[u8],
        draws: &mut Draws,
    ) -> Result<KeyData, TinkError> {
        if self.is_second {
            self.second
                .new_key_data(alloc, serialized_key_format, draws)
        } else {
            self.first.new_key_data(alloc, serialized_key_format, draws)
        }
    }

    fn supports_private_keys(&self) -> bool {
        if self.is_second {
            self.second.supports_private_keys()
        } else {
            self.first.supports_private_keys()
        }
    }

    fn public_key_data(&self, alloc: Global, serialized_key: &[u8]) -> Result<KeyData, TinkError> {
        if self.is_second {
            self.second.public_key_data(alloc, serialized_key)
        } else {
            self.first.public_key_data(alloc, serialized_key)
        }
    }

    ghost builds_told = { λ m key. told_if m.is_second (B.builds m.second key) (A.builds m.first key) (B.builds_told m.second key) (A.builds_told m.first key) };

    ghost makes_told = { λ m f draws. drawn_if draws m.is_second (B.makes m.second f draws) (A.makes m.first f draws) (B.makes_told m.second f draws) (A.makes_told m.first f draws) };

    ghost makes_data_told = { λ m f draws. drawn_if draws m.is_second (B.makes_data m.second f draws) (A.makes_data m.first f draws) (B.makes_data_told m.second f draws) (A.makes_data_told m.first f draws) };

    ghost public_told = { λ m key. told_if m.is_second (B.gives_public m.second key) (A.gives_public m.first key) (B.public_told m.second key) (A.public_told m.first key) };

    ghost new_material = { λ m f draws d. of_each (λ b. (if b then B.makes_data m.second f draws else A.makes_data m.first f draws).0 ≡ Ok d → IsOfKnownMaterial d) m.is_second
        (B.new_material m.second f draws d) (A.new_material m.first f draws d) };

    ghost public_material = { λ m key d. of_each (λ b. (if b then B.gives_public m.second key else A.gives_public m.first key) ≡ Ok d → IsOfKnownMaterial d) m.is_second
        (B.public_material m.second key d) (A.public_material m.first key d) };

    ghost no_private = { λ m key. of_each (λ b. (if b then B.has_public m.second else A.has_public m.first) ≡ false → (if b then B.gives_public m.second key else A.gives_public m.first key) ≡ Err NoPrivateKeys) m.is_second
        (B.no_private m.second key) (A.no_private m.first key) };

    ghost private = { λ m key. of_each (λ b. (if b then B.has_public m.second else A.has_public m.first) ≡ true → (if b then B.gives_public m.second key else A.gives_public m.first key) ≡ Err NoPrivateKeys → ⊥) m.is_second
        (B.private m.second key) (A.private m.first key) };
}
