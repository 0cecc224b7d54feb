//! The keys of HMAC as a pseudorandom function, and their manager.

ghost use Rattle.std.specs.Prelude.{is_some};
ghost use Rattle.tink_primitives.specs.declared.primitive.Primitive.TheVariants as sorts;
ghost use Rattle.tink_key_manager.specs.Manager.{made_if};
ghost use Rattle.tink_key_manager.specs.ManagerLaws.{made_if_told};
ghost use Rattle.tink_prf.specs.KeyTypes.{built_of, built_of_told, hmac_prf_hash, hmac_prf_key_of, hmac_prf_url, new_hmac_prf_key, IsTypeOf};
ghost use Rattle.tink_prf.specs.declared.prf_kind.PrfKind.TheVariants as kinds;

use crate::subtle::{HmacPrf, validate_hmac_prf_params};
use crate::{PrfKind, PrfKinds};
use std::alloc::Global;
use tink_core_subtle::random::get_random_bytes;
use tink_io::{Draws, Kind, TinkError};
use tink_key_manager::{KeyType, SymmetricKeyManager, hash_type_of};
use tink_primitives::Primitive;
use tink_proto::HashType;
use tink_proto_keys::{HmacPrfKey, HmacPrfKeyFormat, HmacPrfParams};

/// The version of HMAC keys for a pseudorandom function.
pub const HMAC_PRF_KEY_VERSION: u32 = 0;

/// The URL of HMAC keys for a pseudorandom function.
pub const HMAC_PRF_TYPE_URL: &str = "type.googleapis.com/google.crypto.tink.HmacPrfKey";

/// HMAC keys (FIPS 198-1) for a pseudorandom function, with params that name a known hash, of at least 16
/// bytes.
pub struct HmacPrfKeys;

/// Makes and builds HMAC keys for a pseudorandom function.
pub type HmacPrfKeyManager = SymmetricKeyManager<HmacPrfKeys>;

impl KeyType for HmacPrfKeys {
    type Family = PrfKinds;

    type Key = HmacPrfKey;

    type Format = HmacPrfKeyFormat;

    ghost url = { hmac_prf_url };

    ghost built = { λ key. built_of (λ k. sorts.Prf (kinds.Hmac k)) (hmac_prf_key_of key) };

    ghost made = { λ format draws. made_if (is_some (hmac_prf_hash format.params format.key_size))
        format.key_size (new_hmac_prf_key format.params) draws };

    fn url() -> &'static str {
        HMAC_PRF_TYPE_URL
    }

    fn build(alloc: Global, key: HmacPrfKey) -> Result<Primitive<PrfKinds>, TinkError> {
        if key.version != HMAC_PRF_KEY_VERSION {
            return Err(TinkError::new(Kind::InvalidKey));
        }
        let key_value = key.key_value.as_slice();
        let Some(hash) = accepted_hash(&key.params, key_value.len()) else {
            return Err(TinkError::new(Kind::InvalidKey));
        };
        let prf = HmacPrf::new(alloc, hash, key_value)?;
        Ok(Primitive::Prf(PrfKind::Hmac(prf)))
    }

    fn make(
        alloc: Global,
        format: HmacPrfKeyFormat,
        draws: &mut Draws,
    ) -> Result<HmacPrfKey, TinkError> {
        let key_size = format.key_size as usize;
        if accepted_hash(&format.params, key_size).is_none() {
            return Err(TinkError::new(Kind::InvalidFormat));
        }
        let key_value = get_random_bytes(alloc, draws, key_size)?;
        Ok(HmacPrfKey {
            version: HMAC_PRF_KEY_VERSION,
            params: format.params,
            key_value,
        })
    }

    ghost built_told = { λ key. built_of_told (λ k. sorts.Prf (kinds.Hmac k)) (hmac_prf_key_of key) };

    ghost made_told = { λ format draws. made_if_told (is_some (hmac_prf_hash format.params format.key_size))
        format.key_size (new_hmac_prf_key format.params) draws };
}

// The type of the hash, where keys are made with these params and of this size in bytes.
fn accepted_hash(params: &Option<HmacPrfParams>, key_size: usize) -> Option<HashType>
    ensures { IsTypeOf result (hmac_prf_hash params.now key_size) }
{
    let Some(params) = params else {
        return None;
    };
    let hash = hash_type_of(params.hash);
    match validate_hmac_prf_params(hash, key_size) {
        Ok(()) => Some(hash),
        Err(_) => None,
    }
}
