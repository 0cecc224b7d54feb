//! The keys of HMAC.

ghost use Rattle.std.specs.Prelude.{◌≡◌};
ghost use Rattle.tink_io.specs.Answering.{Answers, made_of};
ghost use Rattle.tink_io.specs.declared.error.Kind.TheVariants.{InvalidKey, OutOfMemory};
ghost use Rattle.tink_primitives.specs.declared.primitive.Primitive.TheVariants as sorts;
ghost use Rattle.tink_key_manager.specs.Manager.{made_if};
ghost use Rattle.tink_key_manager.specs.ManagerLaws.{made_if_told};
ghost use Rattle.tink_mac.specs.declared.mac_kind.MacKind.TheVariants as kinds;
ghost use Rattle.tink_mac.specs.KeyTypes.{are_hmac_params, hmac_built, hmac_by_params, hmac_url, new_hmac_key};
ghost use Rattle.tink_mac.specs.KeyTypeLaws.{hmac_built_told};

use crate::subtle::{Hmac, validate_hmac_params};
use crate::{MacKind, MacKinds};
use std::alloc::Global;
use tink_core_subtle::random::get_random_bytes;
use tink_io::{Draws, Kind, TinkError};
use tink_key_manager::{KeyType, SymmetricKeyManager, hash_type_of};
use tink_primitives::Primitive;
use tink_proto_keys::{HmacKey, HmacKeyFormat, HmacParams};

/// The version of HMAC keys.
pub const HMAC_KEY_VERSION: u32 = 0;

/// The URL of HMAC keys.
pub const HMAC_TYPE_URL: &str = "type.googleapis.com/google.crypto.tink.HmacKey";

/// The type of HMAC keys (FIPS 198-1). A key builds exactly if its version is 0, and its params and its bytes build
/// an `Hmac`. A format makes a key exactly where the same holds of its params and key size.
pub struct HmacKeys;

/// The manager of HMAC keys.
pub type HmacKeyManager = SymmetricKeyManager<HmacKeys>;

/// The HMAC of a key's params and bytes.
///
/// # Errors
/// `InvalidKey` exactly where there are no params, or `Hmac::new` refuses them and the key; `OutOfMemory`.
pub fn hmac_by_params(
    alloc: Global,
    params: &Option<HmacParams>,
    key: &[u8],
) -> Result<Hmac, TinkError>
    ensures { Answers result (hmac_by_params params.now key.now) }
{
    let Some(params) = params else {
        return Err(TinkError::new(Kind::InvalidKey));
    };
    let hash = hash_type_of(params.hash);
    match Hmac::new(alloc, hash, key, params.tag_size as usize) {
        Ok(mac) => Ok(mac),
        Err(e) => Err(invalid_key(e)),
    }
}

/// Whether there are params, and `validate_hmac_params` accepts them with keys of this size in bytes.
pub fn are_hmac_params(params: &Option<HmacParams>, key_size: u32) -> bool
    ensures { result ≡ are_hmac_params params.now key_size }
{
    match params {
        Some(params) => {
            let hash = hash_type_of(params.hash);
            validate_hmac_params(hash, key_size as usize, params.tag_size as usize).is_ok()
        }
        None => false,
    }
}

// `OutOfMemory` as it is, and `InvalidKey` in place of each other refusal.
fn invalid_key(e: TinkError) -> TinkError
    ensures memory { e.kind ≡ OutOfMemory → result.kind ≡ OutOfMemory }
    ensures other { (e.kind ≡ OutOfMemory → ⊥) → result.kind ≡ InvalidKey }
{
    if e.kind == Kind::OutOfMemory {
        e
    } else {
        TinkError::new(Kind::InvalidKey)
    }
}

impl KeyType for HmacKeys {
    type Family = MacKinds;

    type Key = HmacKey;

    type Format = HmacKeyFormat;

    ghost url = { hmac_url };

    ghost built = { λ k. made_of (λ m. sorts.Mac (kinds.Hmac m)) (hmac_built k) };

    ghost made = { λ f draws. made_if (are_hmac_params f.params f.key_size) f.key_size (new_hmac_key f) draws };

    fn url() -> &'static str {
        HMAC_TYPE_URL
    }

    fn build(alloc: Global, key: HmacKey) -> Result<Primitive<MacKinds>, TinkError> {
        if key.version != HMAC_KEY_VERSION {
            return Err(TinkError::new(Kind::InvalidKey));
        }
        let mac = hmac_by_params(alloc, &key.params, key.key_value.as_slice())?;
        Ok(Primitive::Mac(MacKind::Hmac(mac)))
    }

    fn make(alloc: Global, format: HmacKeyFormat, draws: &mut Draws) -> Result<HmacKey, TinkError> {
        if !are_hmac_params(&format.params, format.key_size) {
            return Err(TinkError::new(Kind::InvalidFormat));
        }
        let key_value = get_random_bytes(alloc, draws, format.key_size as usize)?;
        Ok(HmacKey {
            version: HMAC_KEY_VERSION,
            params: format.params,
            key_value,
        })
    }

    ghost built_told = { λ k. hmac_built_told (λ m. sorts.Mac (kinds.Hmac m)) k };

    ghost made_told = { λ f draws. made_if_told (are_hmac_params f.params f.key_size) f.key_size
        (new_hmac_key f) draws };
}
