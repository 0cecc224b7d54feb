//! Keys of sixteen bytes whose primitive is the test AEAD.

ghost use Rattle.std.specs.Prelude.{nat_eq};
ghost use Rattle.tink_primitives.specs.declared.primitive.Primitive.TheVariants.{Aead};
ghost use Rattle.tink_key_manager.specs.Manager.{built_if, made_if};
ghost use Rattle.tink_key_manager.specs.ManagerLaws.{built_if_told, made_if_told};
ghost use Rattle.test_tink_factory.specs.TestKeys.{test_url, is_accepted, test_key};

use std::alloc::Global;
use test_util::{TestAead, TestKinds};
use tink_core_subtle::random::get_random_bytes;
use tink_io::{Draws, Kind, TinkError};
use tink_key_manager::KeyType;
use tink_primitives::Primitive;
use tink_proto_keys::{AesGcmKey, AesGcmKeyFormat};

/// Keys of sixteen bytes.
pub struct TestKeys;

impl KeyType for TestKeys {
    type Family = TestKinds;

    type Key = AesGcmKey;

    type Format = AesGcmKeyFormat;

    ghost url = { test_url };

    ghost built = { λ k. built_if (is_accepted k) (Aead (record { key = k.key_value })) };

    ghost made = { λ f draws. made_if (nat_eq f.key_size 16) f.key_size test_key draws };

    fn url() -> &'static str {
        "type.test/key"
    }

    fn build(_alloc: Global, key: AesGcmKey) -> Result<Primitive<TestKinds>, TinkError> {
        if key.version != 0 || key.key_value.as_slice().len() != 16 {
            return Err(TinkError::new(Kind::InvalidKey));
        }
        Ok(Primitive::Aead(TestAead { key: key.key_value }))
    }

    fn make(
        alloc: Global,
        format: AesGcmKeyFormat,
        draws: &mut Draws,
    ) -> Result<AesGcmKey, TinkError> {
        if format.key_size != 16 {
            return Err(TinkError::new(Kind::InvalidFormat));
        }
        let key_value = get_random_bytes(alloc, draws, format.key_size as usize)?;
        Ok(AesGcmKey {
            version: 0,
            key_value,
        })
    }

    ghost built_told = { λ k. built_if_told (is_accepted k) _ };

    ghost made_told = { λ f draws. made_if_told (nat_eq f.key_size 16) f.key_size test_key draws };
}
