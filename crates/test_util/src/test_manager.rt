//! A manager of keys of sixteen bytes, which a new key draws.

ghost use Rattle.std.specs.Prelude.{if◌then◌else◌};
ghost use Rattle.std.specs.Str.{bytes_eq};
ghost use Rattle.tink_io.specs.Answering.{Replies};
ghost use Rattle.tink_proto.specs.declared.enums.KeyMaterialType.TheVariants.{AsymmetricPrivate, Symmetric};
ghost use Rattle.tink_primitives.specs.declared.primitive.Primitive.TheVariants as sorts;
ghost use Rattle.test_util.specs.TestKeys as test_keys;

use crate::{TestAead, TestKinds};
use std::alloc::Global;
use tink_core_subtle::random::get_random_bytes;
use tink_io::{Draws, Kind, TinkError};
use tink_primitives::Primitive;
use tink_proto::{Bytes, KeyData, KeyMaterialType, Text};
use tink_registry::KeyManager;

/// A manager of test keys.
#[derive(Drop)]
pub struct TestManager {
    pub url: &'static str,
    /// Its keys are private, and not symmetric.
    pub private: bool,
    /// It builds keys of any length, those of one byte as streaming AEADs, and not of sixteen bytes alone.
    pub any_length: bool,
}

impl TestManager {
    /// The manager of symmetric keys of sixteen bytes.
    pub fn new(url: &'static str) -> Self {
        TestManager {
            url,
            private: false,
            any_length: false,
        }
    }
}

impl KeyManager for TestManager {
    type Family = TestKinds;

    ghost url = { λ m. m.url.now };

    ghost supports = { λ m url. bytes_eq m.url.now url };

    ghost material = { λ m. if m.private then AsymmetricPrivate else Symmetric };

    ghost builds = { λ m key. test_keys.built_by (sorts.StreamingAead (record { key = key }))
        (sorts.Aead (record { key = key })) m.any_length key };

    ghost makes = { λ _ format draws. test_keys.made format draws };

    ghost makes_data = { λ m format draws. test_keys.made_data m.url.now m.private format draws };

    ghost has_public = { λ m. m.private };

    ghost gives_public = { λ m key. test_keys.public_of m.url.now m.private key };

    fn primitive(
        &self,
        alloc: Global,
        serialized_key: &[u8],
    ) -> Result<Primitive<TestKinds>, TinkError> {
        let size = serialized_key.len();
        if !self.any_length && size != 16 {
            return Err(TinkError::new(Kind::InvalidKey));
        }
        let key = Bytes::from_slice(alloc, serialized_key)?;
        if size == 1 {
            return Ok(Primitive::StreamingAead(TestAead { key }));
        }
        Ok(Primitive::Aead(TestAead { key }))
    }

    fn new_key(
        &self,
        alloc: Global,
        serialized_key_format: &[u8],
        draws: &mut Draws,
    ) -> Result<Bytes, TinkError> {
        new_test_key(alloc, serialized_key_format, draws)
    }

    fn does_support(&self, type_url: &str) -> bool {
        self.url == type_url
    }

    fn type_url(&self) -> &str {
        self.url
    }

    fn key_material_type(&self) -> KeyMaterialType {
        if self.private {
            KeyMaterialType::AsymmetricPrivate
        } else {
            KeyMaterialType::Symmetric
        }
    }

    fn new_key_data(
        &self,
        alloc: Global,
        serialized_key_format: &[u8],
        draws: &mut Draws,
    ) -> Result<KeyData, TinkError> {
        let type_url = Text::from_str(alloc, self.url)?;
        let value = new_test_key(alloc, serialized_key_format, draws)?;
        Ok(KeyData {
            type_url,
            value,
            key_material_type: if self.private { 2 } else { 1 },
        })
    }

    fn supports_private_keys(&self) -> bool {
        self.private
    }

    fn public_key_data(&self, alloc: Global, serialized_key: &[u8]) -> Result<KeyData, TinkError> {
        if !self.private {
            return Err(TinkError::new(Kind::NoPrivateKeys));
        }
        Ok(KeyData {
            type_url: Text::from_str(alloc, self.url)?,
            value: Bytes::from_slice(alloc, serialized_key)?,
            key_material_type: 3,
        })
    }

    ghost builds_told = { λ m key. test_keys.built_told (sorts.StreamingAead (record { key = key }))
        (sorts.Aead (record { key = key })) m.any_length key };

    ghost makes_told = { λ _ format draws. test_keys.made_told format draws };

    ghost makes_data_told = { λ m format draws. test_keys.made_data_told m.url.now m.private format draws };

    ghost public_told = { λ m key. test_keys.public_told m.url.now m.private key };

    ghost new_material = { λ m format draws d e. test_keys.new_known m.url.now m.private format draws d e };

    ghost public_material = { λ m key d e. test_keys.public_known m.url.now m.private key d e };

    ghost no_private = { λ m key e. test_keys.none_public m.url.now m.private key e };

    ghost private = { λ m key e refused. test_keys.some_public m.url.now m.private key e refused };
}

fn new_test_key(alloc: Global, format: &[u8], draws: &mut Draws) -> Result<Bytes, TinkError>
    ensures { Replies result (test_keys.made format.now draws.old) draws.old draws.new }
{
    if !format.is_empty() {
        return Err(TinkError::new(Kind::InvalidFormat));
    }
    get_random_bytes(alloc, draws, 16)
}
