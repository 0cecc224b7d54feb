//! The keys of HKDF as a pseudorandom function, and their manager.

ghost use Rattle.std.specs.Prelude.{is_some};
ghost use Rattle.tink_primitives.specs.declared.primitive.Primitive.TheVariants as sorts;
ghost use Rattle.tink_key_manager.specs.Manager.{made_if};
ghost use Rattle.tink_key_manager.specs.ManagerLaws.{made_if_told};
ghost use Rattle.tink_prf.specs.KeyTypes.{built_of, built_of_told, hkdf_prf_hash, hkdf_prf_key_of, hkdf_prf_url, new_hkdf_prf_key, IsTypeOf};
ghost use Rattle.tink_prf.specs.declared.prf_kind.PrfKind.TheVariants as kinds;

use crate::subtle::{HkdfPrf, validate_hkdf_prf_params};
use crate::{PrfKind, PrfKinds};
use std::alloc::Global;
use tink_core_subtle::random::get_random_bytes;
use tink_io::{Draws, Kind, TinkError};
use tink_key_manager::{KeyType, SymmetricKeyManager, hash_type_of};
use tink_primitives::Primitive;
use tink_proto::HashType;
use tink_proto_keys::{HkdfPrfKey, HkdfPrfKeyFormat, HkdfPrfParams};

/// The version of HKDF keys for a pseudorandom function.
pub const HKDF_PRF_KEY_VERSION: u32 = 0;

/// The URL of HKDF keys for a pseudorandom function.
pub const HKDF_PRF_TYPE_URL: &str = "type.googleapis.com/google.crypto.tink.HkdfPrfKey";

/// HKDF keys (RFC 5869) for a pseudorandom function, with params that name SHA-256 or SHA-512, of at least 32
/// bytes.
pub struct HkdfPrfKeys;

/// Makes and builds HKDF keys for a pseudorandom function.
pub type HkdfPrfKeyManager = SymmetricKeyManager<HkdfPrfKeys>;

impl KeyType for HkdfPrfKeys {
    type Family = PrfKinds;

    type Key = HkdfPrfKey;

    type Format = HkdfPrfKeyFormat;

    ghost url = { hkdf_prf_url };

    ghost built = { λ key. built_of (λ k. sorts.Prf (kinds.Hkdf k)) (hkdf_prf_key_of key) };

    ghost made = { λ format draws. made_if (is_some (hkdf_prf_hash format.params format.key_size))
        format.key_size (new_hkdf_prf_key format.params) draws };

    fn url() -> &'static str {
        HKDF_PRF_TYPE_URL
    }

    fn build(alloc: Global, key: HkdfPrfKey) -> Result<Primitive<PrfKinds>, TinkError> {
        let key_value = key.key_value.as_slice();
        let accepted = accepted_hash(&key.params, key_value.len());
        if key.version != HKDF_PRF_KEY_VERSION {
            return Err(TinkError::new(Kind::InvalidKey));
        }
        match (&key.params, accepted) {
            (Some(params), Some(hash)) => {
                let prf = HkdfPrf::new(alloc, hash, key_value, params.salt.as_slice())?;
                Ok(Primitive::Prf(PrfKind::Hkdf(prf)))
            }
            _ => Err(TinkError::new(Kind::InvalidKey)),
        }
    }

    fn make(
        alloc: Global,
        format: HkdfPrfKeyFormat,
        draws: &mut Draws,
    ) -> Result<HkdfPrfKey, TinkError> {
        let key_size = format.key_size as usize;
        if accepted_hash(&format.params, key_size).is_none() {
            return Err(TinkError::new(Kind::InvalidFormat));
        }
        let key_value = get_random_bytes(alloc, draws, key_size)?;
        Ok(HkdfPrfKey {
            version: HKDF_PRF_KEY_VERSION,
            params: format.params,
            key_value,
        })
    }

    ghost built_told = { λ key. built_of_told (λ k. sorts.Prf (kinds.Hkdf k)) (hkdf_prf_key_of key) };

    ghost made_told = { λ format draws. made_if_told (is_some (hkdf_prf_hash format.params format.key_size))
        format.key_size (new_hkdf_prf_key format.params) draws };
}

// The type of the hash, where keys are made with these params and of this size in bytes.
fn accepted_hash(params: &Option<HkdfPrfParams>, key_size: usize) -> Option<HashType>
    ensures { IsTypeOf result (hkdf_prf_hash params.now key_size) }
{
    let Some(params) = params else {
        return None;
    };
    let hash = hash_type_of(params.hash);
    match validate_hkdf_prf_params(hash, key_size, params.salt.as_slice()) {
        Ok(()) => Some(hash),
        Err(_) => None,
    }
}
