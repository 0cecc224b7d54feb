//! Keys for the tests, of pseudorandom functions and of another sort.

ghost use Rattle.std.specs.Prelude.{Ok, codes};
ghost use Rattle.hash_keys.specs.declared.Hash.TheVariants as hashes;
ghost use Rattle.tink_primitives.specs.declared.primitive.Primitive.TheVariants as sorts;
ghost use Rattle.test_tink_prf.specs.TestKeys as test_keys;

use std::alloc::Global;
use tink_io::{Draws, Kind, TinkError};
use tink_key_manager::KeyType;
use tink_prf::subtle::HmacPrf;
use tink_primitives::{CloneIn, Kinds, Never, Primitive, Verifier};
use tink_proto::HashType;
use tink_proto_keys::{AesCmacPrfKey, AesCmacPrfKeyFormat};

/// Verifies everything.
#[derive(Drop)]
pub struct TestVerifier;

impl CloneIn for TestVerifier {
    fn try_clone(&self, _alloc: Global) -> Result<Self, TinkError> {
        Ok(TestVerifier)
    }
}

impl Verifier for TestVerifier {
    ghost verifies = { λ _ _ _. Ok tt };

    fn verify(&self, _alloc: Global, _signature: &[u8], _message: &[u8]) -> Result<(), TinkError> {
        Ok(())
    }

    ghost verifies_told = { λ _ _ _. tt };
}

/// The family of the test keys.
pub struct TestKinds;

impl Kinds for TestKinds {
    type Aead = Never;

    type DeterministicAead = Never;

    type HybridDecrypt = Never;

    type HybridEncrypt = Never;

    type Mac = Never;

    type Prf = HmacPrf;

    type Signer = Never;

    type StreamingAead = Never;

    type Verifier = TestVerifier;
}

/// The test keys: HMAC of a key's bytes, and of those that begin with 0 a verifier.
pub struct TestKeys;

impl KeyType for TestKeys {
    type Family = TestKinds;

    type Key = AesCmacPrfKey;

    type Format = AesCmacPrfKeyFormat;

    ghost url = { codes "type.test/key" };

    ghost built = { λ key. test_keys.built (sorts.Verifier (record {}))
        (sorts.Prf (record { hash = hashes.Sha256; key = key.key_value })) key.key_value };

    ghost made = { λ _ draws. test_keys.none_made draws };

    fn url() -> &'static str {
        "type.test/key"
    }

    fn build(alloc: Global, key: AesCmacPrfKey) -> Result<Primitive<TestKinds>, TinkError> {
        let key_value = key.key_value.as_slice();
        if let [0, ..] = key_value {
            return Ok(Primitive::Verifier(TestVerifier));
        }
        let prf = HmacPrf::new(alloc, HashType::Sha256, key_value)?;
        Ok(Primitive::Prf(prf))
    }

    fn make(
        _alloc: Global,
        _format: AesCmacPrfKeyFormat,
        _draws: &mut Draws,
    ) -> Result<AesCmacPrfKey, TinkError> {
        Err(TinkError::new(Kind::InvalidFormat))
    }

    ghost built_told = { λ key. test_keys.built_told (sorts.Verifier (record {}))
        (sorts.Prf (record { hash = hashes.Sha256; key = key.key_value })) key.key_value };

    ghost made_told = { λ _ draws. test_keys.none_drawn draws };
}
