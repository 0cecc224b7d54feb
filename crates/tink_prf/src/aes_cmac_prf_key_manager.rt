//! The keys of AES-CMAC as a pseudorandom function, and their manager.

ghost use Rattle.std.specs.Prelude.{length, nat_eq};
ghost use Rattle.tink_primitives.specs.declared.primitive.Primitive.TheVariants as sorts;
ghost use Rattle.tink_key_manager.specs.Manager.{made_if};
ghost use Rattle.tink_key_manager.specs.ManagerLaws.{made_if_told};
ghost use Rattle.tink_prf.specs.KeyTypes.{aes_cmac_prf_key_of, aes_cmac_prf_url, built_of, built_of_told, new_aes_cmac_prf_key};
ghost use Rattle.tink_prf.specs.declared.prf_kind.PrfKind.TheVariants as kinds;

use crate::subtle::{AesCmacPrf, validate_aes_cmac_prf_params};
use crate::{PrfKind, PrfKinds};
use std::alloc::Global;
use tink_core_subtle::random::get_random_bytes;
use tink_io::{Draws, Kind, TinkError};
use tink_key_manager::{KeyType, SymmetricKeyManager};
use tink_primitives::Primitive;
use tink_proto_keys::{AesCmacPrfKey, AesCmacPrfKeyFormat};

/// The version of AES-CMAC keys for a pseudorandom function.
pub const AES_CMAC_PRF_KEY_VERSION: u32 = 0;

/// The URL of AES-CMAC keys for a pseudorandom function.
pub const AES_CMAC_PRF_TYPE_URL: &str = "type.googleapis.com/google.crypto.tink.AesCmacPrfKey";

/// AES-CMAC keys (SP 800-38B) for a pseudorandom function, of 32 bytes.
pub struct AesCmacPrfKeys;

/// Makes and builds AES-CMAC keys for a pseudorandom function.
pub type AesCmacPrfKeyManager = SymmetricKeyManager<AesCmacPrfKeys>;

impl KeyType for AesCmacPrfKeys {
    type Family = PrfKinds;

    type Key = AesCmacPrfKey;

    type Format = AesCmacPrfKeyFormat;

    ghost url = { aes_cmac_prf_url };

    ghost built = { λ key. built_of (λ k. sorts.Prf (kinds.AesCmac k)) (aes_cmac_prf_key_of key) };

    ghost made = { λ format draws. made_if (nat_eq format.key_size 32) format.key_size new_aes_cmac_prf_key draws };

    fn url() -> &'static str {
        AES_CMAC_PRF_TYPE_URL
    }

    fn build(alloc: Global, key: AesCmacPrfKey) -> Result<Primitive<PrfKinds>, TinkError> {
        let key_value = key.key_value.as_slice();
        let accepted = validate_aes_cmac_prf_params(key_value.len()).is_ok();
        if key.version != AES_CMAC_PRF_KEY_VERSION || !accepted {
            return Err(TinkError::new(Kind::InvalidKey));
        }
        let prf = AesCmacPrf::new(alloc, key_value)?;
        Ok(Primitive::Prf(PrfKind::AesCmac(prf)))
    }

    fn make(
        alloc: Global,
        format: AesCmacPrfKeyFormat,
        draws: &mut Draws,
    ) -> Result<AesCmacPrfKey, TinkError> {
        let key_size = format.key_size as usize;
        if validate_aes_cmac_prf_params(key_size).is_err() {
            return Err(TinkError::new(Kind::InvalidFormat));
        }
        let key_value = get_random_bytes(alloc, draws, key_size)?;
        Ok(AesCmacPrfKey {
            version: AES_CMAC_PRF_KEY_VERSION,
            key_value,
        })
    }

    ghost built_told = { λ key. built_of_told (λ k. sorts.Prf (kinds.AesCmac k)) (aes_cmac_prf_key_of key) };

    ghost made_told = { λ format draws. made_if_told (nat_eq format.key_size 32) format.key_size
        new_aes_cmac_prf_key draws };
}
