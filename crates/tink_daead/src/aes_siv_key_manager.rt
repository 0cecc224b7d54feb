//! The keys of AES-SIV.

ghost use Rattle.std.specs.Prelude.{◌≡◌, length, nat_eq};
ghost use Rattle.tink_primitives.specs.declared.primitive.Primitive.TheVariants as sorts;
ghost use Rattle.tink_key_manager.specs.Manager.{built_if, made_if};
ghost use Rattle.tink_key_manager.specs.ManagerLaws.{built_if_told, made_if_told};
ghost use Rattle.tink_daead.specs.KeyTypes.{aes_siv_url, is_accepted, new_aes_siv_key};

use crate::DaeadKinds;
use crate::subtle::{AES_SIV_KEY_SIZE, AesSiv};
use std::alloc::Global;
use tink_core_subtle::random::get_random_bytes;
use tink_io::{Draws, Kind, TinkError};
use tink_key_manager::{KeyType, SymmetricKeyManager};
use tink_primitives::Primitive;
use tink_proto_keys::{AesSivKey, AesSivKeyFormat};

/// The version of AES-SIV keys.
pub const AES_SIV_KEY_VERSION: u32 = 0;

/// The URL of AES-SIV keys.
pub const AES_SIV_TYPE_URL: &str = "type.googleapis.com/google.crypto.tink.AesSivKey";

/// The type of AES-SIV keys (RFC 5297). A key builds exactly where its version is 0 and it has 64 bytes. A format
/// makes a key exactly where its key size is 64.
pub struct AesSivKeys;

/// The manager of AES-SIV keys.
pub type AesSivKeyManager = SymmetricKeyManager<AesSivKeys>;

impl KeyType for AesSivKeys {
    type Family = DaeadKinds;

    type Key = AesSivKey;

    type Format = AesSivKeyFormat;

    ghost url = { aes_siv_url };

    ghost built = { λ k. built_if (is_accepted k.version k.key_value) (sorts.DeterministicAead k.key_value) };

    ghost made = { λ f draws. made_if (nat_eq f.key_size 64) f.key_size new_aes_siv_key draws };

    fn url() -> &'static str {
        AES_SIV_TYPE_URL
    }

    fn build(alloc: Global, key: AesSivKey) -> Result<Primitive<DaeadKinds>, TinkError> {
        let key_value = key.key_value.as_slice();
        if key.version != AES_SIV_KEY_VERSION || key_value.len() != AES_SIV_KEY_SIZE {
            return Err(TinkError::new(Kind::InvalidKey));
        }
        let daead = AesSiv::new(alloc, key_value)?;
        Ok(Primitive::DeterministicAead(daead))
    }

    fn make(
        alloc: Global,
        format: AesSivKeyFormat,
        draws: &mut Draws,
    ) -> Result<AesSivKey, TinkError> {
        if format.key_size as usize != AES_SIV_KEY_SIZE {
            return Err(TinkError::new(Kind::InvalidFormat));
        }
        let key_value = get_random_bytes(alloc, draws, format.key_size as usize)?;
        Ok(AesSivKey {
            version: AES_SIV_KEY_VERSION,
            key_value,
        })
    }

    ghost built_told = { λ k. built_if_told (is_accepted k.version k.key_value) _ };

    ghost made_told = { λ f draws. made_if_told (nat_eq f.key_size 64) f.key_size new_aes_siv_key draws };
}
